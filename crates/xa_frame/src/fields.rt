//! The fields of a frame, read from left to right. Each reader answers the field and the octets after it.

ghost use Rattle.std.specs.Prelude.{◌≡◌, ◌≤◌, ◌+◌, ◌++◌, ◌∷◌, length, OnOk, OnErr};
ghost use Rattle.byteorder.specs.Endian.{big_bytes};
ghost use Rattle.xa_frame.specs.declared.fields.ReadError.TheVariants as errors;
ghost use Rattle.xa_frame.specs.Spelling.{word, sized, IsWord};
ghost use Rattle.xa_frame.specs.Reading.{Reads, octet_at, number_at, signed_at, long_at, word_at, name_of, sized_of};

use xa_types::{BadName, Name, NoMemory};

const MOST_DATA: u32 = 65_536;

/// The octets are no field, header or body.
#[derive(Clone, Copy)]
pub struct NoFrame;

impl From<BadName> for NoFrame {
    fn from(_: BadName) -> Self {
        NoFrame
    }
}

/// Why no body is read. Memory runs out only where the octets are one.
#[derive(Clone, Copy)]
pub enum ReadError {
    NoFrame,
    NoMemory,
}

impl From<NoFrame> for ReadError {
    ghost from_gives = { λ _ e. e ≡ errors.NoFrame };

    fn from(_: NoFrame) -> Self {
        ReadError::NoFrame
    }
}

impl From<NoMemory> for ReadError {
    ghost from_gives = { λ _ e. e ≡ errors.NoMemory };

    fn from(_: NoMemory) -> Self {
        ReadError::NoMemory
    }
}

/// The first octet, and what stands behind it.
pub fn octet_at(octets: &[u8]) -> Result<(u8, &[u8]), NoFrame>
    ensures { Reads (λ x. (x.0, x.1.now)) result (octet_at octets.now) }
{
    match octets {
        [] => Err(NoFrame),
        [first, rest @ ..] => Ok((*first, rest)),
    }
}

/// A u32, and what stands behind it.
pub fn number_at(octets: &[u8]) -> Result<(u32, &[u8]), NoFrame>
    ensures { Reads (λ x. (x.0, x.1.now)) result (number_at octets.now) }
{
    if octets.len() < 4 {
        return Err(NoFrame);
    }
    let (front, rest) = octets.split_at(4);
    let number = u32::from_be_bytes([front[0], front[1], front[2], front[3]]);
    Ok((number, rest))
}

/// An i32, and what stands behind it.
pub fn signed_at(octets: &[u8]) -> Result<(i32, &[u8]), NoFrame>
    ensures { Reads (λ x. (x.0, x.1.now)) result (signed_at octets.now) }
{
    let (number, rest) = number_at(octets)?;
    Ok((number.cast_signed(), rest))
}

/// A u64, and what stands behind it.
pub fn long_at(octets: &[u8]) -> Result<(u64, &[u8]), NoFrame>
    ensures { Reads (λ x. (x.0, x.1.now)) result (long_at octets.now) }
{
    if octets.len() < 8 {
        return Err(NoFrame);
    }
    let (f, rest) = octets.split_at(8);
    let number = u64::from_be_bytes([f[0], f[1], f[2], f[3], f[4], f[5], f[6], f[7]]);
    Ok((number, rest))
}

/// A length of one octet and so many octets, and what stands behind them.
#[tactic(auto, unfolding(crate::specs::Reading::word_at))]
pub fn word_at(octets: &[u8]) -> Result<(&[u8], &[u8]), NoFrame>
    ensures { Reads (λ x. (x.0.now, x.1.now)) result (word_at octets.now) }
{
    let (len, rest) = octet_at(octets)?;
    let len = usize::from(len);
    if rest.len() < len {
        return Err(NoFrame);
    }
    Ok(rest.split_at(len))
}

/// The name that these octets are.
pub fn name_of(octets: &[u8]) -> Result<Name, NoFrame>
    ensures { Reads (λ x. x) result (name_of octets.now) }
{
    Ok(Name::read(octets)?)
}

/// A length, at most 65,536, and so many octets, which are all that is left.
#[tactic(auto, unfolding(crate::specs::Reading::sized_of))]
pub fn sized_of(octets: &[u8]) -> Result<&[u8], NoFrame>
    ensures { Reads (λ x. x.now) result (sized_of octets.now) }
{
    let (len, rest) = number_at(octets)?;
    if len > MOST_DATA || rest.len() != len as usize {
        return Err(NoFrame);
    }
    Ok(rest)
}

/// Nothing stands behind the last field.
pub fn ended(octets: &[u8]) -> Result<(), NoFrame>
    ensures yes { OnOk result (length octets.now ≡ 0) }
    ensures no { OnErr result (length octets.now ≡ 0 → ⊥) }
{
    if octets.is_empty() {
        Ok(())
    } else {
        Err(NoFrame)
    }
}

/// How many octets the word has.
pub fn word_len(octets: &[u8]) -> usize
    requires { IsWord octets.now }
    ensures length { result ≡ length (word octets.now) }
    ensures few { result ≤ 256 }
{
    1 + octets.len()
}

/// Puts the word at the end.
pub fn put_word(out: &mut Vec<u8>, octets: &[u8]) -> Result<(), NoMemory>
    requires { IsWord octets.now }
    ensures { OnOk result (out.new.items ≡ out.old.items ++ word octets.now) }
{
    out.push(octets.len() as u8)?;
    out.extend_from_slice(octets)?;
    Ok(())
}

/// Puts the octets behind their length at the end.
pub fn put_sized(out: &mut Vec<u8>, octets: &[u8]) -> Result<(), NoMemory>
    requires { length octets.now ≤ 65_536 }
    ensures { OnOk result (out.new.items ≡ out.old.items ++ sized octets.now) }
{
    out.extend_from_slice(&(octets.len() as u32).to_be_bytes())?;
    out.extend_from_slice(octets)?;
    Ok(())
}

/// Puts an octet and a u64 at the end.
pub fn put_long(out: &mut Vec<u8>, code: u8, number: u64) -> Result<(), NoMemory>
    ensures { OnOk result (out.new.items ≡ out.old.items ++ code ∷ big_bytes 8 number) }
{
    out.push(code)?;
    out.extend_from_slice(&number.to_be_bytes())?;
    Ok(())
}
