// Data of X_C_TYPE: a buffer of its shape, with the fields that are given.
ghost use Rattle.std.specs.Prelude.{◌≡◌, true, option_map, IfOk};
ghost use Rattle.std.specs.Result.{result_ok};
ghost use Rattle.xa_types.specs.Configured.{is_configured};
ghost use Rattle.xa_types.specs.declared.data.Kind.TheVariants as kinds;
ghost use Rattle.xa_buffer.specs.Contents.{shape_of, allocated};
ghost use Rattle.xa_script.specs.Words.{Reads, Makes};
ghost use Rattle.xa_script.specs.Structures.{with_given, filled, packed_with, struct_of};

use crate::words::{NoForm, ReadError, name_of};
use std::alloc::Global;
use std::marker::Model;
use xa_buffer::{Buffer, BufferRefused, FieldValue, Shapes};
use xa_types::{Data, Kind, Name, NoMemory, Setup, ShapeSetup};

/// A field that is given. Its value is none for a number that 64 bits don't hold with its sign.
#[derive(Drop)]
pub struct Field {
    pub name: Name,
    pub value: Option<FieldValue>,
}

impl From<BufferRefused> for ReadError {
    ghost use Rattle.std.specs.Prelude.{◌≡◌};
    ghost use Rattle.xa_script.specs.Words.{reason_of};

    ghost from_gives = { λ why e. e ≡ reason_of why };

    fn from(why: BufferRefused) -> Self {
        match why {
            BufferRefused::NoMemory => ReadError::NoMemory,
            BufferRefused::NoEntry
            | BufferRefused::BadSize
            | BufferRefused::NoField
            | BufferRefused::WrongKind
            | BufferRefused::TooLong
            | BufferRefused::WrongLength => ReadError::NoForm,
        }
    }
}

/// A setup, whose shapes are ready for buffers. Contracts see the setup.
#[derive(Drop)]
pub struct Shaped<'a> {
    setup: &'a Setup,
    shapes: Shapes,
}

impl<'a> Model for Shaped<'a> {
    ghost use Rattle.std.specs.Prelude.{◌≡◌};
    ghost use Rattle.xa_types.specs.declared.setup.Setup.{Setup};

    ghost Value = { Setup };

    ghost view = { λ s. s.setup.now };

    ghost invariant = { λ s. s.shapes ≡ s.setup.now.shapes };
}

fn set(buffer: &mut Buffer, field: &Field) -> Result<(), NoForm>
    ensures { Reads (λ _. buffer.new) result (with_given buffer.old field.now) }
{
    let Some(value) = &field.value else {
        return Err(NoForm);
    };
    match buffer.set_field(&field.name, value) {
        Ok(()) => Ok(()),
        Err(_) => Err(NoForm),
    }
}

fn fill(buffer: &mut Buffer, given: &[Field]) -> Result<(), NoForm>
    ensures { Reads (λ _. buffer.new) result (filled buffer.old given.now) }
{
    for field in given {
        set(buffer, field)?;
    }
    Ok(())
}

// What is packed in the buffer, once it is filled.
fn pack(alloc: Global, buffer: &mut Buffer, given: &[Field]) -> Result<Data, ReadError>
    ensures { Makes (λ x. x) result (packed_with buffer.old given.now) }
{
    fill(buffer, given)?;
    Ok(buffer.pack(alloc)?)
}

impl<'a> Shaped<'a> {
    pub fn new(alloc: Global, setup: &'a Setup) -> Result<Shaped<'a>, NoMemory>
        requires { is_configured setup.now ≡ true }
        ensures { IfOk result (λ made. made ≡ setup.now) }
    {
        let shapes = Shapes::of(alloc, setup)?;
        Ok(Shaped { setup, shapes })
    }

    /// The shape of that name.
    pub fn find(&self, name: &[u8]) -> Option<&ShapeSetup>
        ensures { option_map (λ shape. shape.now) result ≡ shape_of self.now.shapes name.now }
    {
        for shape in self.setup.shapes.slice() {
            if shape.name.octets() == name {
                return Some(shape);
            }
        }
        None
    }

    fn zeroed(&self, alloc: Global, subtype: Name) -> Result<Buffer, ReadError>
        ensures { Makes (λ buffer. buffer) result (result_ok (allocated self.now.shapes (kinds.Struct subtype) 0)) }
    {
        Ok(Buffer::alloc(alloc, &Kind::Struct(subtype), 0, &self.shapes)?)
    }

    /// Data of that subtype with what is given, where it is configured and its shape takes that.
    #[tactic(auto, unfolding(crate::specs::Structures::struct_of))]
    pub fn struct_of(
        &self,
        alloc: Global,
        subtype: &[u8],
        given: &[Field],
    ) -> Result<Data, ReadError>
        ensures { Makes (λ x. x) result (struct_of self.now subtype.now given.now) }
    {
        let subtype = name_of(subtype)?;
        let mut buffer = self.zeroed(alloc, subtype)?;
        pack(alloc, &mut buffer, given)
    }
}
