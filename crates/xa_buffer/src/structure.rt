// What a buffer of X_C_TYPE holds: the fields of its shape.
ghost use Rattle.std.specs.Prelude.{◌≡◌, ◌≤◌, length, IfOk};
ghost use Rattle.xa_buffer.specs.Layout.{size_of_fields, joined, pieces, zeroed, value_named, with_value};
ghost use Rattle.xa_buffer.specs.Answers.{Answers, Changes};

use crate::shapes::{Shape, field_size, is_same};
use crate::value::{read_value, write_value};
use crate::{BufferRefused, FieldValue};
use std::alloc::Global;
use std::marker::Model;
use xa_types::{FieldSetup, Name, NoMemory};

/// The fields of a shape with their octets, one field after another.
#[derive(Drop)]
pub(crate) struct Structure {
    fields: Vec<FieldSetup>,
    octets: Vec<u8>,
}

impl Model for Structure {
    ghost use Rattle.std.specs.Prelude.{◌≡◌, ◌≤◌, List, length};
    ghost use Rattle.xa_buffer.specs.Layout.{Piece, size_of_fields, pieces};

    ghost Value = { List Piece };

    ghost view = { λ s. pieces s.fields.items s.octets.items };

    ghost invariant = { λ s.
        (size_of_fields s.fields.items ≡ length s.octets.items) × (length s.octets.items ≤ 65536) };
}

// The value of the first field of that name, where the octets are of these fields.
fn read_field(
    alloc: Global,
    fields: &[FieldSetup],
    octets: &[u8],
    name: &Name,
) -> Result<FieldValue, BufferRefused>
    requires { size_of_fields fields.now ≡ length octets.now }
    ensures { Answers (value_named name.now (pieces fields.now octets.now)) result }
{
    match fields {
        [] => Err(BufferRefused::NoField),
        [field, fields @ ..] => {
            let (piece, octets) = octets.split_at(field_size(field.kind) as usize);
            if is_same(&field.name, name) {
                return Ok(read_value(alloc, piece, field.kind)?);
            }
            read_field(alloc, fields, octets, name)
        }
    }
}

// Writes the value of the first field of that name, where the octets are of these fields.
fn write_field(
    fields: &[FieldSetup],
    octets: &mut [u8],
    name: &Name,
    value: &FieldValue,
) -> Result<(), BufferRefused>
    requires { size_of_fields fields.now ≡ length octets.old }
    ensures { let old = pieces fields.now octets.old in
        Changes (with_value name.now value.now old) old (pieces fields.now octets.new) result }
{
    match fields {
        [] => Err(BufferRefused::NoField),
        [field, fields @ ..] => {
            let size = field_size(field.kind) as usize;
            if is_same(&field.name, name) {
                return write_value(&mut octets[..size], field.kind, value);
            }
            write_field(fields, &mut octets[size..], name, value)
        }
    }
}

impl Structure {
    /// The fields of a shape, all octets zero.
    pub(crate) fn zeroed(alloc: Global, shape: &Shape) -> Result<Structure, NoMemory>
        ensures { IfOk result (λ made. made ≡ zeroed shape.now.fields) }
    {
        let size = shape.size() as usize;
        Ok(Structure {
            fields: Vec::from_slice(alloc, shape.fields())?,
            octets: vec![in alloc; 0; size]?,
        })
    }

    /// The fields of a shape with these octets.
    pub(crate) fn of(alloc: Global, shape: &Shape, octets: &[u8]) -> Result<Structure, NoMemory>
        requires fit { size_of_fields shape.now.fields ≡ length octets.now }
        requires small { length octets.now ≤ 65536 }
        ensures { IfOk result (λ made. made ≡ pieces shape.now.fields octets.now) }
    {
        Ok(Structure {
            fields: Vec::from_slice(alloc, shape.fields())?,
            octets: Vec::from_slice(alloc, octets)?,
        })
    }

    /// The octets of all fields.
    pub(crate) fn octets(&self) -> &[u8]
        ensures value { result.now ≡ joined self.now }
        ensures small { length result.now ≤ 65536 }
    {
        self.octets.as_slice()
    }

    /// The value of a field.
    pub(crate) fn get(&self, alloc: Global, field: &Name) -> Result<FieldValue, BufferRefused>
        ensures { Answers (value_named field.now self.now) result }
    {
        read_field(alloc, &self.fields, &self.octets, field)
    }

    /// Gives a field a value.
    pub(crate) fn set(&mut self, field: &Name, value: &FieldValue) -> Result<(), BufferRefused>
        ensures { Changes (with_value field.now value.now self.old) self.old self.new result }
    {
        write_field(&self.fields, &mut self.octets, field, value)
    }
}
