// The value of one field, and its octets.
ghost use Rattle.std.specs.Prelude.{◌≡◌, ◌==◌, length, IfOk};
ghost use Rattle.std.specs.List.{before_first, position};
ghost use Rattle.xa_types.specs.Kind.{field_size};
ghost use Rattle.xa_buffer.specs.Layout.{holds, text_octets, encoded, decoded};
ghost use Rattle.xa_buffer.specs.Answers.{Changes};

use crate::BufferRefused;
use crate::shapes::field_size;
use byteorder::{BigEndian, ByteOrder};
use std::alloc::Global;
use xa_types::{FieldKind, NoMemory, Octets};

/// The value of a field: a number of a short, an int, a long or a char, or the text of a string.
#[derive(Drop)]
pub enum FieldValue {
    Whole(i64),
    Text(Octets),
}

// Whether a field of that kind has room for the number.
fn holds(kind: FieldKind, number: i64) -> bool
    ensures { result ≡ holds kind number }
{
    match kind {
        FieldKind::Short => -0x8000 <= number && number <= 0x7fff,
        FieldKind::Int => -0x8000_0000 <= number && number <= 0x7fff_ffff,
        FieldKind::Long => true,
        FieldKind::Char => 0 <= number && number <= 0xff,
        FieldKind::Text(_) => false,
    }
}

fn write_number(octets: &mut [u8], kind: FieldKind, number: i64) -> Result<(), BufferRefused>
    requires { length octets.old ≡ field_size kind }
    ensures { Changes (encoded kind (FieldValue.Whole number)) octets.old octets.new result }
{
    if let FieldKind::Text(_) = kind {
        return Err(BufferRefused::WrongKind);
    }
    if !holds(kind, number) {
        return Err(BufferRefused::TooLong);
    }
    BigEndian::write_int(octets, number, field_size(kind) as usize);
    Ok(())
}

fn write_text(octets: &mut [u8], text: &[u8]) -> Result<(), BufferRefused>
    ensures { Changes (text_octets (length octets.old) text.now) octets.old octets.new result }
{
    if text.contains(&0) {
        return Err(BufferRefused::WrongKind);
    }
    if text.len() > octets.len() {
        return Err(BufferRefused::TooLong);
    }
    octets[..text.len()].copy_from_slice(text);
    octets[text.len()..].fill(0);
    Ok(())
}

/// Writes the value into the octets of a field of that kind. They are as they were where it is refused.
pub(crate) fn write_value(
    octets: &mut [u8],
    kind: FieldKind,
    value: &FieldValue,
) -> Result<(), BufferRefused>
    requires { length octets.old ≡ field_size kind }
    ensures { Changes (encoded kind value.now) octets.old octets.new result }
{
    match value {
        FieldValue::Whole(number) => write_number(octets, kind, *number),
        FieldValue::Text(text) => match kind {
            FieldKind::Text(_) => write_text(octets, text.slice()),
            _ => Err(BufferRefused::WrongKind),
        },
    }
}

fn first_zero(octets: &[u8]) -> Option<usize>
    ensures { result ≡ position (λ octet. octet == 0) octets.now }
{
    octets.iter().position(|octet| *octet == 0)
}

// The text in a field ends before its first zero octet.
fn read_text(alloc: Global, octets: &[u8]) -> Result<Octets, NoMemory>
    ensures { IfOk result (λ text. text ≡ before_first (λ octet. octet == 0) octets.now) }
{
    let end = first_zero(octets).unwrap_or(octets.len());
    Octets::of(alloc, &octets[..end])
}

/// The value in the octets of a field of that kind.
pub(crate) fn read_value(
    alloc: Global,
    octets: &[u8],
    kind: FieldKind,
) -> Result<FieldValue, NoMemory>
    requires { length octets.now ≡ field_size kind }
    ensures { IfOk result (λ value. value ≡ decoded kind octets.now) }
{
    match kind {
        FieldKind::Text(_) => Ok(FieldValue::Text(read_text(alloc, octets)?)),
        FieldKind::Char => Ok(FieldValue::Whole(i64::from(octets[0]))),
        _ => {
            let size = field_size(kind) as usize;
            Ok(FieldValue::Whole(BigEndian::read_int(octets, size)))
        }
    }
}
