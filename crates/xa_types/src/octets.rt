ghost use Rattle.std.specs.Prelude.{◌≡◌, IfOk};

use crate::NoMemory;
use std::alloc::Global;
use std::marker::Model;

/// A piece of octets without structure, seen as a list.
#[derive(Debug, Drop)]
pub struct Octets {
    items: Vec<u8>,
}

impl Model for Octets {
    ghost use Rattle.std.specs.Prelude.{ℕ, List};

    ghost Value = { List ℕ };

    ghost view = { λ o. o.items.items };
}

impl Octets {
    /// A copy of these octets.
    pub fn of(alloc: Global, octets: &[u8]) -> Result<Octets, NoMemory>
        ensures { IfOk result (λ o. o ≡ octets.now) }
    {
        let items = Vec::from_slice(alloc, octets)?;
        Ok(Octets { items })
    }

    /// The octets of a `Vec`, which takes no memory.
    pub fn from_vec(items: Vec<u8>) -> Octets
        ensures { result ≡ items.items }
    {
        Octets { items }
    }

    /// The `Vec` of the octets, which takes no memory.
    pub fn into_vec(self) -> Vec<u8>
        ensures { result.items ≡ self }
    {
        let Octets { items } = self;
        items
    }

    /// The octets.
    pub fn slice(&self) -> &[u8]
        ensures { result.now ≡ self.now }
    {
        self.items.as_slice()
    }

    /// A copy.
    pub fn copy(&self, alloc: Global) -> Result<Octets, NoMemory>
        ensures { IfOk result (λ o. o ≡ self.now) }
    {
        Octets::of(alloc, self.slice())
    }
}
