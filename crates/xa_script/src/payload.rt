// The data of a call, as a script writes it.
ghost use Rattle.std.specs.Prelude.{◌≡◌, ◌==◌, not, if◌then◌else◌, [], Some, None, length, replicate, option_map, IfOk};
ghost use Rattle.std.specs.List.{position};
ghost use Rattle.xa_script.specs.Words.{Reads, Makes, decimal};
ghost use Rattle.xa_script.specs.Payload.{signed_of, whole_of, below_of, value_at, is_equals, has_field, field_at, fields_from, struct_at, text_at, octets_at, one_octet, fill_at, form_at, payload_at};
ghost use Rattle.xa_script.specs.Structures.{struct_of};

use crate::structures::{Field, Shaped};
use crate::words::{
    NoForm, ReadError, cut_word, decimal, hex_octet, hex_octets, is, is_decimal, is_quoted,
    name_of, next_word, number_of, quoted_at, skip_spaces, word_at,
};
use memchr::memchr;
use std::alloc::Global;
use std::collections::BTreeSet;
use xa_buffer::FieldValue;
use xa_types::{Data, Octets};

/// Data and the octets behind it; there is none where the setup doesn't take what is written.
pub type Payload<'a> = (Option<Data>, &'a [u8]);

fn whole_of(digits: &[u8]) -> Option<i64>
    ensures { result ≡ whole_of (decimal digits.now) }
{
    match decimal(digits) {
        Some(number) if number < 1 << 63 => Some(number as i64),
        _ => None,
    }
}

fn below_of(digits: &[u8]) -> Result<Option<i64>, NoForm>
    ensures { Reads (λ number. number) result (if not (decimal digits.now == 0) then Some (below_of (decimal digits.now)) else None) }
{
    match decimal(digits) {
        Some(0) => Err(NoForm),
        Some(number) if number <= 1 << 63 => Ok(Some(-1 - (number - 1) as i64)),
        _ => Ok(None),
    }
}

// A number in decimal, with `-` where it is below 0, if 64 bits hold it with its sign.
#[tactic(auto, unfolding(crate::specs::Sent::signed_of))]
pub fn signed_of(word: &[u8]) -> Result<Option<i64>, NoForm>
    ensures { Reads (λ number. number) result (signed_of word.now) }
{
    match word {
        [b'-', digits @ ..] if is_decimal(digits) => below_of(digits),
        [b'-', ..] => Err(NoForm),
        _ if is_decimal(word) => Ok(whole_of(word)),
        _ => Err(NoForm),
    }
}

// A text in quotes, or a number, if 64 bits hold it with its sign.
#[tactic(auto, unfolding(crate::specs::Payload::value_at))]
fn value_at(alloc: Global, octets: &[u8]) -> Result<(Option<FieldValue>, &[u8]), ReadError>
    ensures { Makes (λ x. (x.0, x.1.now)) result (value_at octets.now) }
{
    if is_quoted(octets) {
        let (text, rest) = quoted_at(alloc, octets)?;
        return Ok((Some(FieldValue::Text(text)), rest));
    }
    let (word, rest) = cut_word(octets);
    let number = signed_of(word)?;
    Ok((number.map(FieldValue::Whole), rest))
}

fn place_of_equals(octets: &[u8]) -> Option<usize>
    ensures { result ≡ position is_equals octets.now }
{
    memchr(b'=', octets)
}

fn has_field(octets: &[u8]) -> bool
    ensures { result ≡ has_field octets.now }
{
    let (word, _) = next_word(octets);
    place_of_equals(word).is_some()
}

// FIELD=VALUE, and the octets of FIELD.
#[tactic(auto, unfolding(crate::specs::Payload::field_at))]
fn field_at(alloc: Global, octets: &[u8]) -> Result<(Field, &[u8], &[u8]), ReadError>
    ensures found { Makes (λ x. (x.0, x.2.now)) result (field_at octets.now) }
    ensures named { IfOk result (λ x. x.1.now ≡ x.0.name) }
{
    let front = skip_spaces(octets);
    let Some(place) = place_of_equals(front) else {
        return Err(ReadError::NoForm);
    };
    let word = &front[..place];
    let name = name_of(word)?;
    let (value, rest) = value_at(alloc, &front[place + 1..])?;
    Ok((Field { name, value }, word, rest))
}

// The fields in front, of which there are no more than octets.
fn fields_at(alloc: Global, octets: &[u8]) -> Result<(Vec<Field>, &[u8]), ReadError>
    ensures { Makes (λ x. (x.0.items, x.1.now)) result (fields_from (length octets.now) [] octets.now) }
{
    let mut given = Vec::new(alloc);
    let mut names = BTreeSet::new(alloc);
    let mut rest = octets;
    for turn in 0..octets.len() {
        if !has_field(rest) {
            return Ok((given, rest));
        }
        let (field, name, behind) = field_at(alloc, rest)?;
        let is_new = names.insert(name)?;
        if !is_new {
            return Err(ReadError::NoForm);
        }
        given.push(field)?;
        rest = behind;
    }
    Ok((given, rest))
}

// SUBTYPE FIELD=VALUE ..
#[tactic(auto, unfolding(crate::specs::Payload::struct_at))]
fn struct_at<'a>(alloc: Global, setup: &Shaped, octets: &'a [u8]) -> Result<Payload<'a>, ReadError>
    ensures { Makes (λ x. (x.0, x.1.now)) result (struct_at setup.now octets.now) }
{
    let (subtype, rest) = word_at(octets)?;
    let (given, rest) = fields_at(alloc, rest)?;
    match setup.struct_of(alloc, subtype, given.as_slice()) {
        Ok(data) => Ok((Some(data), rest)),
        Err(ReadError::NoForm) => Ok((None, rest)),
        Err(ReadError::NoMemory) => Err(ReadError::NoMemory),
    }
}

#[tactic(auto, unfolding(crate::specs::Payload::text_at))]
fn text_at(alloc: Global, octets: &[u8]) -> Result<Payload<'_>, ReadError>
    ensures { Makes (λ x. (x.0, x.1.now)) result (text_at octets.now) }
{
    let (text, rest) = quoted_at(alloc, skip_spaces(octets))?;
    Ok((Some(Data::Octet(text)), rest))
}

#[tactic(auto, unfolding(crate::specs::Payload::octets_at))]
fn octets_at(alloc: Global, octets: &[u8]) -> Result<Payload<'_>, ReadError>
    ensures { Makes (λ x. (x.0, x.1.now)) result (octets_at octets.now) }
{
    let (word, rest) = word_at(octets)?;
    let said = hex_octets(alloc, word)?;
    Ok((Some(Data::Octet(said)), rest))
}

fn one_octet(word: &[u8]) -> Result<u8, NoForm>
    ensures { Reads (λ octet. octet) result (one_octet word.now) }
{
    match word {
        [first, second] => hex_octet(*first, *second),
        _ => Err(NoForm),
    }
}

fn filled(alloc: Global, count: usize, octet: u8) -> Result<Octets, ReadError>
    ensures { Makes (λ octets. octets) result (Some (replicate count octet)) }
{
    let mut octets = Vec::new(alloc);
    octets.resize(count, octet)?;
    Ok(Octets::from_vec(octets))
}

// N HH: N times the octet HH.
#[tactic(auto, unfolding(crate::specs::Payload::fill_at))]
fn fill_at(alloc: Global, octets: &[u8]) -> Result<Payload<'_>, ReadError>
    ensures { Makes (λ x. (x.0, x.1.now)) result (fill_at octets.now) }
{
    let (word, rest) = word_at(octets)?;
    let count = number_of(0, 70_000, word)?;
    let (word, rest) = word_at(rest)?;
    let octet = one_octet(word)?;
    let octets = filled(alloc, count as usize, octet)?;
    Ok((Some(Data::Octet(octets)), rest))
}

/// The data in front: `none`, `text "TEXT"`, `octet HEX`, `fill N HH`, or `c SUBTYPE FIELD=VALUE ..`.
#[tactic(auto, unfolding(crate::specs::Payload::payload_at))]
pub fn payload_at<'a>(
    alloc: Global,
    setup: &Shaped,
    octets: &'a [u8],
) -> Result<Payload<'a>, ReadError>
    ensures { Makes (λ x. (x.0, x.1.now)) result (payload_at setup.now octets.now) }
{
    let (form, rest) = word_at(octets)?;
    if is(form, b"none") {
        Ok((Some(Data::Absent), rest))
    } else if is(form, b"text") {
        text_at(alloc, rest)
    } else if is(form, b"octet") {
        octets_at(alloc, rest)
    } else if is(form, b"fill") {
        fill_at(alloc, rest)
    } else if is(form, b"c") {
        struct_at(alloc, setup, rest)
    } else {
        Err(ReadError::NoForm)
    }
}
