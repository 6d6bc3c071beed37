// Why octets are no configuration.
ghost use Rattle.std.specs.Prelude.{◌≡◌, ◌∷◌, [], IfOk};
ghost use Rattle.xa_config.specs.Faults.{fault, indexed, dotted};
ghost use Rattle.xa_config.specs.Document.{TellsFirst};

use itoa::Buffer;
use std::alloc::Global;
use xa_types::{NoMemory, Octets};

/// Why octets were not read as a configuration: the number of the first fault and its key, or want of memory.
///
/// | Number | The fault |
/// |---|---|
/// | 1 | the octets are no TOML document; the key is empty |
/// | 2 | a key that no table lists |
/// | 3 | a needed key that isn't there; `queue` or `server` absent or empty |
/// | 4 | a value of another kind |
/// | 5 | a number, a text's length or an array's length out of its range |
/// | 6 | no name, or no identifier where one is needed |
/// | 7 | a name, a queue, a kind or a field's name for the second time |
/// | 8 | a queue or a shape that isn't configured, or no kind of data |
/// | 9 | a field's text that isn't `NAME KIND` |
/// | 10 | too many entries of a table, or more than 256 rows |
/// | 11 | a queue that no server names |
#[derive(Debug, Drop)]
pub enum ConfigRefused {
    Fault { number: u8, key: Octets },
    NoMemory,
}

impl From<NoMemory> for ConfigRefused {
    ghost use Rattle.std.specs.Prelude.{◌≡◌};
    ghost use Rattle.xa_config.specs.declared.refusal.ConfigRefused.TheVariants.{NoMemory};

    ghost from_gives = { λ _ e. e ≡ NoMemory };

    fn from(_: NoMemory) -> Self {
        ConfigRefused::NoMemory
    }
}

pub const UNKNOWN_KEY: u8 = 2;

pub const MISSING_KEY: u8 = 3;

pub const WRONG_TYPE: u8 = 4;

pub const OUT_OF_RANGE: u8 = 5;

pub const BAD_NAME: u8 = 6;

pub const DOUBLED: u8 = 7;

pub const NO_SUCH: u8 = 8;

pub const FIELD_TYPE: u8 = 9;

pub const TOO_MANY: u8 = 10;

pub const NO_SERVER: u8 = 11;

/// `server[0].queue`.
pub fn dotted(alloc: Global, table: &[u8], key: &[u8]) -> Result<Octets, NoMemory>
    ensures { IfOk result (λ octets. octets ≡ dotted table.now key.now) }
{
    let mut octets = Vec::from_slice(alloc, table)?;
    octets.extend_from_slice(b".")?;
    octets.extend_from_slice(key)?;
    Ok(Octets::from_vec(octets))
}

/// `server[0]`.
pub fn indexed(alloc: Global, key: &[u8], place: usize) -> Result<Octets, NoMemory>
    ensures { IfOk result (λ octets. octets ≡ indexed key.now place) }
{
    let mut octets = Vec::from_slice(alloc, key)?;
    octets.extend_from_slice(b"[")?;
    octets.extend_from_slice(Buffer::new().format(place).as_bytes())?;
    octets.extend_from_slice(b"]")?;
    Ok(Octets::from_vec(octets))
}

/// The fault of that number at a key.
pub fn refuse(alloc: Global, number: u8, key: &[u8]) -> ConfigRefused
    ensures { TellsFirst (fault key.now number ∷ []) result }
{
    match Octets::of(alloc, key) {
        Ok(key) => ConfigRefused::Fault { number, key },
        Err(_) => ConfigRefused::NoMemory,
    }
}

/// The fault of that number at a key of a table.
pub fn refuse_dotted(alloc: Global, number: u8, table: &[u8], key: &[u8]) -> ConfigRefused
    ensures { TellsFirst (fault (dotted table.now key.now) number ∷ []) result }
{
    match dotted(alloc, table, key) {
        Ok(key) => ConfigRefused::Fault { number, key },
        Err(_) => ConfigRefused::NoMemory,
    }
}

/// The fault of that number at an element.
pub fn refuse_indexed(alloc: Global, number: u8, key: &[u8], place: usize) -> ConfigRefused
    ensures { TellsFirst (fault (indexed key.now place) number ∷ []) result }
{
    match indexed(alloc, key, place) {
        Ok(key) => ConfigRefused::Fault { number, key },
        Err(_) => ConfigRefused::NoMemory,
    }
}
