ghost use Rattle.std.specs.Prelude.{◌≡◌, IfOk};
ghost use Rattle.xa_types.specs.Kind.{kind_of};

use crate::{Name, NoMemory, Octets};
use std::alloc::Global;

/// The type of typed data: X_OCTET, or X_C_TYPE with its subtype (XATMI, typed buffers).
#[derive(Clone, Copy)]
pub enum Kind {
    Octet,
    Struct(Name),
}

/// Typed data: absent, X_OCTET, or X_C_TYPE with its subtype. X_OCTET that is sound has at most 65,536 octets, and
/// X_C_TYPE the size of its shape.
#[derive(Drop)]
pub enum Data {
    Absent,
    Octet(Octets),
    Struct(Name, Octets),
}

impl Data {
    /// The kind of the data; absent data has none.
    pub fn kind(&self) -> Option<Kind>
        ensures { result ≡ kind_of self.now }
    {
        match self {
            Data::Absent => None,
            Data::Octet(_) => Some(Kind::Octet),
            Data::Struct(subtype, _) => Some(Kind::Struct(*subtype)),
        }
    }

    /// A copy.
    pub fn copy(&self, alloc: Global) -> Result<Data, NoMemory>
        ensures { IfOk result (λ copied. copied ≡ self.now) }
    {
        match self {
            Data::Absent => Ok(Data::Absent),
            Data::Octet(octets) => Ok(Data::Octet(octets.copy(alloc)?)),
            Data::Struct(subtype, octets) => Ok(Data::Struct(*subtype, octets.copy(alloc)?)),
        }
    }
}
