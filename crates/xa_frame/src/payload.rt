//! The kinds of buffers and data, as fields.

ghost use Rattle.std.specs.Prelude.{◌≡◌, ◌≤◌, ◌++◌, length, OnOk};
ghost use Rattle.xa_frame.specs.Spelling.{data_kind_octets, data_octets, IsDataKind, IsData};
ghost use Rattle.xa_frame.specs.Reading.{Reads, Makes, data_kind_at, struct_of, data_of};

use crate::fields::{
    NoFrame, ReadError, ended, name_of, octet_at, put_sized, put_word, sized_of, word_at, word_len,
};
use std::alloc::Global;
use xa_types::{Data, Kind, NoMemory, Octets};

/// The kind of a buffer, and what stands behind it.
#[tactic(auto, unfolding(crate::specs::Reading::data_kind_at, crate::specs::Reading::name_at))]
pub fn data_kind_at(octets: &[u8]) -> Result<(Option<Kind>, &[u8]), NoFrame>
    ensures { Reads (λ x. (x.0, x.1.now)) result (data_kind_at octets.now) }
{
    let (kind, rest) = octet_at(octets)?;
    match kind {
        0x00 => Ok((None, rest)),
        0x01 => Ok((Some(Kind::Octet), rest)),
        0x02 => {
            let (subtype, rest) = word_at(rest)?;
            let subtype = name_of(subtype)?;
            Ok((Some(Kind::Struct(subtype)), rest))
        }
        _ => Err(NoFrame),
    }
}

#[tactic(auto, unfolding(crate::specs::Reading::struct_of, crate::specs::Reading::name_at))]
fn struct_of(alloc: Global, octets: &[u8]) -> Result<Data, ReadError>
    ensures { Makes result (struct_of octets.now) }
{
    let (subtype, rest) = word_at(octets)?;
    let subtype = name_of(subtype)?;
    let octets = sized_of(rest)?;
    Ok(Data::Struct(subtype, Octets::of(alloc, octets)?))
}

/// The data that all of the octets are. It comes last, so what is copied besides is copied behind it.
#[tactic(auto, unfolding(crate::specs::Reading::data_of))]
pub fn data_of(alloc: Global, octets: &[u8]) -> Result<Data, ReadError>
    ensures { Makes result (data_of octets.now) }
{
    let (kind, rest) = octet_at(octets)?;
    match kind {
        0x00 => {
            ended(rest)?;
            Ok(Data::Absent)
        }
        0x01 => {
            let octets = sized_of(rest)?;
            Ok(Data::Octet(Octets::of(alloc, octets)?))
        }
        0x02 => struct_of(alloc, rest),
        _ => Err(ReadError::NoFrame),
    }
}

/// How many octets the kind has.
pub fn data_kind_len(kind: &Option<Kind>) -> usize
    requires { IsDataKind kind.now }
    ensures length { result ≡ length (data_kind_octets kind.now) }
    ensures few { result ≤ 33 }
{
    match kind {
        None | Some(Kind::Octet) => 1,
        Some(Kind::Struct(subtype)) => 1 + word_len(subtype.octets()),
    }
}

/// How many octets the data has.
pub fn data_len(payload: &Data) -> usize
    requires { IsData payload.now }
    ensures length { result ≡ length (data_octets payload.now) }
    ensures few { result ≤ 65_573 }
{
    match payload {
        Data::Absent => 1,
        Data::Octet(octets) => 5 + octets.slice().len(),
        Data::Struct(subtype, octets) => 5 + word_len(subtype.octets()) + octets.slice().len(),
    }
}

/// Puts the kind at the end.
pub fn put_data_kind(out: &mut Vec<u8>, kind: &Option<Kind>) -> Result<(), NoMemory>
    requires { IsDataKind kind.now }
    ensures { OnOk result (out.new.items ≡ out.old.items ++ data_kind_octets kind.now) }
{
    match kind {
        None => {
            out.push(0x00)?;
            Ok(())
        }
        Some(Kind::Octet) => {
            out.push(0x01)?;
            Ok(())
        }
        Some(Kind::Struct(subtype)) => {
            out.push(0x02)?;
            put_word(out, subtype.octets())
        }
    }
}

/// Puts the data at the end.
pub fn put_data(out: &mut Vec<u8>, payload: &Data) -> Result<(), NoMemory>
    requires { IsData payload.now }
    ensures { OnOk result (out.new.items ≡ out.old.items ++ data_octets payload.now) }
{
    match payload {
        Data::Absent => {
            out.push(0x00)?;
            Ok(())
        }
        Data::Octet(octets) => {
            out.push(0x01)?;
            put_sized(out, octets.slice())
        }
        Data::Struct(subtype, octets) => {
            out.push(0x02)?;
            put_word(out, subtype.octets())?;
            put_sized(out, octets.slice())
        }
    }
}
