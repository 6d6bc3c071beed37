// The text of a field of a shape.
ghost use Rattle.std.specs.Prelude.{◌≡◌, ◌||◌, ◌==◌, min, true, false, MatchOption, decimal};
ghost use Rattle.std.specs.List.{list_all};
ghost use Rattle.std.specs.Str.{bytes_eq};
ghost use Rattle.xa_types.specs.Name.{is_letter, is_digit, begins_with_letter, is_identifier};
ghost use Rattle.xa_config.specs.Field.{name_part, kind_part, number_of_digits, sized, kind_of, is_field, field_of};

use itoa::Buffer;
use xa_types::{FieldKind, FieldSetup, Name};

fn is_letter(octet: u8) -> bool
    ensures { result ≡ is_letter octet }
{
    octet.is_ascii_alphabetic()
}

fn begins_with_letter(octets: &[u8]) -> bool
    ensures { result ≡ begins_with_letter octets.now }
{
    match octets {
        [] => false,
        [first, ..] => is_letter(*first),
    }
}

fn is_plain(octet: u8) -> bool
    ensures { result ≡ ((is_letter octet || is_digit octet) || (octet == 95)) }
{
    is_letter(octet) || octet.is_ascii_digit() || octet == b'_'
}

fn all_plain(octets: &[u8]) -> bool
    ensures { result ≡ list_all (λ octet. (is_letter octet || is_digit octet) || (octet == 95)) octets.now }
{
    for octet in octets {
        if !is_plain(*octet) {
            return false;
        }
    }
    true
}

/// The identifier that the octets are.
pub fn identifier(octets: &[u8]) -> Option<Name>
    ensures { MatchOption result (is_identifier octets.now ≡ false) (λ name. (is_identifier octets.now ≡ true) × (name ≡ octets.now)) }
{
    let Ok(name) = Name::read(octets) else {
        return None;
    };
    if begins_with_letter(octets) && all_plain(octets) {
        return Some(name);
    }
    None
}

// What stands before the first space, and what behind it.
fn parts(octets: &[u8]) -> (&[u8], &[u8])
    ensures name { result.0.now ≡ name_part octets.now }
    ensures kind { result.1.now ≡ kind_part octets.now }
{
    for (place, octet) in octets.iter().enumerate() {
        if *octet == b' ' {
            return (&octets[..place], &octets[place + 1..]);
        }
    }
    (octets, &[])
}

// The number that digits write, or the greatest where it is greater.
fn number_of_digits(digits: &[u8]) -> u32
    ensures { result ≡ min 4294967295 (number_of_digits digits.now) }
{
    let mut n = 0u32;
    for digit in digits {
        let value = u32::from(digit.saturating_sub(b'0'));
        n = n.saturating_mul(10).saturating_add(value);
    }
    n
}

fn is_decimal(digits: &[u8], n: u32) -> bool
    ensures { result ≡ bytes_eq digits.now (decimal n) }
{
    digits == Buffer::new().format(n).as_bytes()
}

#[tactic(auto, unfolding(crate::specs::Field::sized))]
fn sized(digits: &[u8]) -> Option<FieldKind>
    ensures { result ≡ sized digits.now }
{
    let n = number_of_digits(digits);
    if is_decimal(digits, n) && n >= 1 && n <= 1024 {
        return Some(FieldKind::Text(n));
    }
    None
}

#[tactic(auto, unfolding(crate::specs::Field::kind_of))]
fn kind_of(kind: &[u8]) -> Option<FieldKind>
    ensures { result ≡ kind_of kind.now }
{
    if kind == b"short".as_slice() {
        return Some(FieldKind::Short);
    }
    if kind == b"int".as_slice() {
        return Some(FieldKind::Int);
    }
    if kind == b"long".as_slice() {
        return Some(FieldKind::Long);
    }
    if kind == b"char".as_slice() {
        return Some(FieldKind::Char);
    }
    sized(kind.strip_prefix(b"string ".as_slice())?)
}

/// The field that a text says.
pub fn field_of(text: &[u8]) -> Option<FieldSetup>
    ensures { MatchOption result (is_field text.now ≡ false) (λ field. (is_field text.now ≡ true) × (field ≡ field_of text.now)) }
{
    let (name, kind) = parts(text);
    let name = identifier(name)?;
    let kind = kind_of(kind)?;
    Some(FieldSetup { name, kind })
}
