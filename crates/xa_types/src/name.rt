ghost use Rattle.std.specs.Prelude.{◌≡◌, ◌↔◌, IsOk, IfOk, length, take};
ghost use Rattle.std.specs.List.{list_all};
ghost use Rattle.xa_types.specs.Name.{IsName, is_name, is_graphic, begins_with_dot};

use std::marker::Model;

/// A name of a service, a queue, a server, a shape or a client: 1 to 31 octets from 0x21 to 0x7E, of which the
/// first is no dot. It is seen as the list of its octets.
#[derive(Clone, Copy, PartialEq, Eq)]
pub struct Name {
    octets: [u8; 31],
    len: u8,
}

/// The octets are no name.
#[derive(Clone, Copy, Debug, PartialEq, Eq)]
pub struct BadName;

impl Model for Name {
    ghost use Rattle.std.specs.Prelude.{ℕ, List, take, length, replicate, ◌++◌, ◌-◌};

    ghost Value = { List ℕ };

    ghost use Rattle.xa_types.specs.Padded.{IsPadded, unpadded};

    ghost view = { λ n. take n.len n.octets };

    ghost invariant = { IsPadded };

    ghost inverse = { λ xs. record { octets = xs ++ replicate (31 - length xs) 0; len = length xs } };

    ghost inverse_ok = { unpadded };
}

fn is_graphic(octet: u8) -> bool
    ensures { result ≡ is_graphic octet }
{
    octet >= 0x21 && octet <= 0x7e
}

fn begins_with_dot(octets: &[u8]) -> bool
    ensures { result ≡ begins_with_dot octets.now }
{
    match octets {
        [] => false,
        [first, ..] => *first == b'.',
    }
}

fn all_graphic(octets: &[u8]) -> bool
    ensures { result ≡ list_all is_graphic octets.now }
{
    octets.iter().all(|octet| is_graphic(*octet))
}

fn is_name(octets: &[u8]) -> bool
    ensures { result ≡ is_name octets.now }
{
    if octets.is_empty() || octets.len() > 31 {
        return false;
    }
    all_graphic(octets) && !begins_with_dot(octets)
}

impl Name {
    /// The name that these octets are.
    pub fn read(octets: &[u8]) -> Result<Name, BadName>
        ensures valid { IsOk result ↔ IsName octets.now }
        ensures value { IfOk result (λ name. name ≡ octets.now) }
    {
        if !is_name(octets) {
            return Err(BadName);
        }
        let mut kept = [0u8; 31];
        kept[..octets.len()].copy_from_slice(octets);
        Ok(Name {
            octets: kept,
            len: octets.len() as u8,
        })
    }

    /// The octets of the name.
    pub fn octets(&self) -> &[u8]
        ensures value { result.now ≡ self.now }
        ensures named { IsName self.now }
    {
        &self.octets[..usize::from(self.len)]
    }
}
