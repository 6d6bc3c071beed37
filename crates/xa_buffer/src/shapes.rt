// The configured subtypes of X_C_TYPE.
ghost use Rattle.std.specs.Prelude.{◌≡◌, ◌≤◌, IfOk, true};
ghost use Rattle.std.specs.Option.{option_copied};
ghost use Rattle.std.specs.Str.{bytes_eq};
ghost use Rattle.xa_types.specs.Configured.{is_configured};
ghost use Rattle.xa_types.specs.Kind.{field_size, is_sound};
ghost use Rattle.xa_types.specs.declared.setup.Setup.{Setup};
ghost use Rattle.xa_buffer.specs.Layout.{size_of_fields};
ghost use Rattle.xa_buffer.specs.Contents.{shape_of};

use std::alloc::Global;
use std::marker::Model;
use xa_types::{Data, FieldKind, FieldSetup, Name, NoMemory, Sequence, Setup, ShapeSetup};

/// The most octets that data may have.
pub(crate) const MOST_OCTETS: u32 = 65_536;

/// How many octets a field has.
pub(crate) fn field_size(kind: FieldKind) -> u32
    ensures { result ≡ field_size kind }
{
    match kind {
        FieldKind::Short => 2,
        FieldKind::Int => 4,
        FieldKind::Long => 8,
        FieldKind::Char => 1,
        FieldKind::Text(size) => size,
    }
}

pub(crate) fn is_same(a: &Name, b: &Name) -> bool
    ensures { result ≡ bytes_eq a.now b.now }
{
    a.octets() == b.octets()
}

fn size_of_fields(fields: &[FieldSetup]) -> u32
    requires { size_of_fields fields.now ≤ 65536 }
    ensures { result ≡ size_of_fields fields.now }
{
    fields.iter().map(|field| field_size(field.kind)).sum()
}

/// A configured shape, with its size at hand.
#[derive(Drop)]
pub(crate) struct Shape {
    name: Name,
    fields: Sequence<FieldSetup>,
    size: u32,
}

impl Model for Shape {
    ghost use Rattle.std.specs.Prelude.{◌≡◌, ◌≤◌};
    ghost use Rattle.xa_types.specs.declared.setup.ShapeSetup.{ShapeSetup};
    ghost use Rattle.xa_buffer.specs.Layout.{size_of_fields};

    ghost Value = { ShapeSetup };

    ghost view = { λ s. record { name = s.name; fields = s.fields } };

    ghost invariant = { λ s. (s.size ≡ size_of_fields s.fields) × (s.size ≤ 65536) };
}

impl Shape {
    fn new(alloc: Global, shape: &ShapeSetup) -> Result<Shape, NoMemory>
        requires { size_of_fields shape.now.fields ≤ 65536 }
        ensures { IfOk result (λ made. made ≡ shape.now) }
    {
        let fields = shape.fields.slice();
        Ok(Shape {
            name: shape.name,
            fields: Sequence::from_vec(Vec::from_slice(alloc, fields)?),
            size: size_of_fields(fields),
        })
    }

    /// Its fields, in declared order.
    pub(crate) fn fields(&self) -> &[FieldSetup]
        ensures value { result.now ≡ self.now.fields }
    {
        self.fields.slice()
    }

    /// How many octets its fields have together.
    pub(crate) fn size(&self) -> u32
        ensures value { result ≡ size_of_fields self.now.fields }
        ensures small { result ≤ 65536 }
    {
        self.size
    }
}

/// The configured subtypes of X_C_TYPE.
#[derive(Drop)]
pub struct Shapes {
    shapes: Vec<Shape>,
}

impl Model for Shapes {
    ghost use Rattle.std.specs.Prelude.{List};
    ghost use Rattle.xa_types.specs.declared.setup.ShapeSetup.{ShapeSetup};

    ghost Value = { List ShapeSetup };

    ghost view = { λ s. s.shapes.items };
}

impl Shapes {
    /// The shapes of a setup.
    pub fn of(alloc: Global, setup: &Setup) -> Result<Shapes, NoMemory>
        requires { is_configured setup.now ≡ true }
        ensures { IfOk result (λ shapes. shapes ≡ setup.now.shapes) }
    {
        let configured = setup.shapes.slice();
        let mut shapes = Vec::with_capacity(alloc, configured.len())?;
        for shape in configured {
            shapes.push_reserved(Shape::new(alloc, shape)?);
        }
        Ok(Shapes { shapes })
    }

    /// The shape of that subtype.
    pub(crate) fn find(&self, subtype: &Name) -> Option<&Shape>
        ensures { option_copied result ≡ shape_of self.now subtype.now }
    {
        for shape in &self.shapes {
            if is_same(&shape.name, subtype) {
                return Some(shape);
            }
        }
        None
    }

    /// Whether data is sound by a setup with these shapes: absent; X_OCTET of at most 65,536 octets; X_C_TYPE that has the
    /// size of its configured shape.
    pub fn sound(&self, payload: &Data) -> bool
        ensures { (setup : Setup) → setup.shapes ≡ self.now → result ≡ is_sound setup payload.now }
    {
        match payload {
            Data::Absent => true,
            Data::Octet(octets) => octets.slice().len() <= MOST_OCTETS as usize,
            Data::Struct(subtype, octets) => match self.find(subtype) {
                Some(shape) => shape.size() as usize == octets.slice().len(),
                None => false,
            },
        }
    }
}
