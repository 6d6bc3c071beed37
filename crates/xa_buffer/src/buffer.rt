ghost use Rattle.std.specs.Prelude.{◌≡◌, ◌≤◌, IfOk};
ghost use Rattle.xa_buffer.specs.Answers.{Answers, Changes, MayChange};
ghost use Rattle.xa_buffer.specs.Contents.{kind_of, size_of, allocated, resized, with_octets, with_field, field_of, packed, unpacked};

use crate::shapes::MOST_OCTETS;
use crate::structure::Structure;
use crate::{BufferRefused, FieldValue, Shapes};
use std::alloc::Global;
use std::marker::Model;
use std::mem;
use xa_types::{Data, Kind, Name, NoMemory, Octets};

#[derive(Drop)]
pub(crate) enum Content {
    Octet(Octets),
    Struct(Name, Structure),
}

/// A buffer of typed data. Contracts see what it holds: octets of X_OCTET, at most 65,536, or the fields of a shape of
/// X_C_TYPE with their octets, in declared order.
#[derive(Drop)]
pub struct Buffer {
    alloc: Global,
    content: Content,
}

impl Model for Buffer {
    ghost use Rattle.xa_buffer.specs.declared.buffer.Content.{Content};
    ghost use Rattle.xa_buffer.specs.Contents.{IsWithin};

    ghost Value = { Content };

    ghost view = { λ b. b.content };

    ghost invariant = { λ b. IsWithin b.content };
}

impl Buffer {
    /// A zeroed buffer of that kind and size in octets (tpalloc). For X_C_TYPE the size is that of the shape, for which 0
    /// stands too. `NoEntry` comes where the subtype isn't there; `BadSize` where the size passes 65,536 for X_OCTET, or is
    /// another for X_C_TYPE.
    pub fn alloc(
        alloc: Global,
        kind: &Kind,
        size: u32,
        shapes: &Shapes,
    ) -> Result<Buffer, BufferRefused>
        ensures { Answers (allocated shapes.now kind.now size) result }
    {
        let content = match kind {
            Kind::Octet => {
                if size > MOST_OCTETS {
                    return Err(BufferRefused::BadSize);
                }
                Content::Octet(Octets::from_vec(vec![in alloc; 0; size as usize]?))
            }
            Kind::Struct(subtype) => {
                let Some(shape) = shapes.find(subtype) else {
                    return Err(BufferRefused::NoEntry);
                };
                if size != 0 && size != shape.size() {
                    return Err(BufferRefused::BadSize);
                }
                Content::Struct(*subtype, Structure::zeroed(alloc, shape)?)
            }
        };
        Ok(Buffer { alloc, content })
    }

    /// Changes the size (tprealloc): the front that both sizes have stays, and what is added is zero. `BadSize` comes as
    /// for `alloc`.
    pub fn resize(&mut self, size: u32) -> Result<(), BufferRefused>
        ensures { MayChange (resized self.old size) self.old self.new result }
    {
        match &mut self.content {
            Content::Octet(octets) => {
                if size > MOST_OCTETS {
                    return Err(BufferRefused::BadSize);
                }
                let held = mem::replace(octets, Octets::from_vec(Vec::new(self.alloc)));
                let mut held = held.into_vec();
                let grown = held.resize(size as usize, 0);
                *octets = Octets::from_vec(held);
                grown?;
                Ok(())
            }
            Content::Struct(_, structure) => {
                if size != 0 && size as usize != structure.octets().len() {
                    return Err(BufferRefused::BadSize);
                }
                Ok(())
            }
        }
    }

    /// The kind of the buffer, and its size in octets (tptypes).
    pub fn types(&self) -> (Kind, u32)
        ensures kind { result.0 ≡ kind_of self.now }
        ensures size { result.1 ≡ size_of self.now }
    {
        match &self.content {
            Content::Octet(octets) => (Kind::Octet, octets.slice().len() as u32),
            Content::Struct(subtype, structure) => {
                (Kind::Struct(*subtype), structure.octets().len() as u32)
            }
        }
    }

    /// Puts these octets in place of all that an X_OCTET buffer holds. `WrongKind` comes for X_C_TYPE, `TooLong` past
    /// 65,536.
    pub fn set_octets(&mut self, octets: &[u8]) -> Result<(), BufferRefused>
        ensures { MayChange (with_octets self.old octets.now) self.old self.new result }
    {
        match &mut self.content {
            Content::Octet(held) => {
                if octets.len() > MOST_OCTETS as usize {
                    return Err(BufferRefused::TooLong);
                }
                *held = Octets::of(self.alloc, octets)?;
                Ok(())
            }
            Content::Struct(_, _) => Err(BufferRefused::WrongKind),
        }
    }

    /// Gives a field of X_C_TYPE a value, without memory. `NoField` comes where the shape has no such field; `WrongKind`
    /// where number and string are mixed, a text has a zero octet, or the buffer is X_OCTET; `TooLong` where the value
    /// needs more than the field has.
    pub fn set_field(&mut self, field: &Name, value: &FieldValue) -> Result<(), BufferRefused>
        ensures { Changes (with_field self.old field.now value.now) self.old self.new result }
    {
        match &mut self.content {
            Content::Octet(_) => Err(BufferRefused::WrongKind),
            Content::Struct(_, structure) => structure.set(field, value),
        }
    }

    /// The value of a field of X_C_TYPE; a string ends before its first zero octet. `NoField` comes where the shape has no
    /// such field, `WrongKind` where the buffer is X_OCTET.
    pub fn get_field(&self, alloc: Global, field: &Name) -> Result<FieldValue, BufferRefused>
        ensures { Answers (field_of self.now field.now) result }
    {
        match &self.content {
            Content::Octet(_) => Err(BufferRefused::WrongKind),
            Content::Struct(_, structure) => structure.get(alloc, field),
        }
    }

    /// What the buffer holds, as data.
    pub fn pack(&self, alloc: Global) -> Result<Data, NoMemory>
        ensures { IfOk result (λ payload. payload ≡ packed self.now) }
    {
        match &self.content {
            Content::Octet(octets) => Ok(Data::Octet(octets.copy(alloc)?)),
            Content::Struct(subtype, structure) => {
                Ok(Data::Struct(*subtype, Octets::of(alloc, structure.octets())?))
            }
        }
    }

    /// A buffer that holds the data. `NoEntry` comes where the subtype isn't there or the data is absent, `WrongLength`
    /// where the length isn't the shape's, `TooLong` for X_OCTET past 65,536.
    pub fn unpack(alloc: Global, payload: &Data, shapes: &Shapes) -> Result<Buffer, BufferRefused>
        ensures { Answers (unpacked shapes.now payload.now) result }
    {
        let content = match payload {
            Data::Absent => return Err(BufferRefused::NoEntry),
            Data::Octet(octets) => {
                if octets.slice().len() > MOST_OCTETS as usize {
                    return Err(BufferRefused::TooLong);
                }
                Content::Octet(octets.copy(alloc)?)
            }
            Data::Struct(subtype, octets) => {
                let Some(shape) = shapes.find(subtype) else {
                    return Err(BufferRefused::NoEntry);
                };
                let octets = octets.slice();
                if octets.len() != shape.size() as usize {
                    return Err(BufferRefused::WrongLength);
                }
                Content::Struct(*subtype, Structure::of(alloc, shape, octets)?)
            }
        };
        Ok(Buffer { alloc, content })
    }
}
