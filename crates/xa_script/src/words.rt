// The parts of a line: words, quoted texts and numbers. Each reader answers its part and the octets behind it.
ghost use Rattle.std.specs.Prelude.{◌≡◌, ◌+◌, ◌-◌, ◌*◌, ◌==◌, ◌≤◌, option_map, ◌<◌, ◌^◌, IfOk, IsTrue, Some, None, length, nat_lt, if◌then◌else◌, []};
ghost use Rattle.std.specs.List.{list_all, position, position_or_len};
ghost use Rattle.std.specs.Str.{bytes_eq};
ghost use Rattle.xa_types.specs.Name.{is_digit, is_name};
ghost use Rattle.xa_script.specs.declared.words.NoForm.{NoForm};
ghost use Rattle.xa_script.specs.declared.words.ReadError.TheVariants as errors;
ghost use Rattle.xa_script.specs.Words.{Reads, Makes, is_printed, is_space, skip_spaces, is_blank, is_end, is_skipped, cut_word, next_word, word_at, name_of, next_octet, is_marked, put, text_in_front, quoted_at, is_quoted, decimal, is_decimal, number_of, hex_digit, hex_octet, hex_from};

use memchr::{memchr, memchr2};
use std::alloc::{AllocError, AllocFailed, Global};
use xa_types::{Name, NoMemory, Octets};

/// The octets are not of that form.
#[derive(Clone, Copy)]
pub struct NoForm;

/// Why nothing is read.
#[derive(Clone, Copy)]
pub enum ReadError {
    NoForm,
    NoMemory,
}

impl From<NoForm> for ReadError {
    ghost use Rattle.std.specs.Prelude.{◌≡◌};
    ghost use Rattle.xa_script.specs.declared.words.ReadError.TheVariants as errors;

    ghost from_gives = { λ _ e. e ≡ errors.NoForm };

    fn from(_: NoForm) -> Self {
        ReadError::NoForm
    }
}

impl From<NoMemory> for ReadError {
    ghost use Rattle.std.specs.Prelude.{◌≡◌};
    ghost use Rattle.xa_script.specs.declared.words.ReadError.TheVariants as errors;

    ghost from_gives = { λ _ e. e ≡ errors.NoMemory };

    fn from(_: NoMemory) -> Self {
        ReadError::NoMemory
    }
}

impl From<AllocError> for ReadError {
    ghost use Rattle.std.specs.Prelude.{◌≡◌};
    ghost use Rattle.xa_script.specs.declared.words.ReadError.TheVariants as errors;

    ghost from_gives = { λ _ e. e ≡ errors.NoMemory };

    fn from(_: AllocError) -> Self {
        ReadError::NoMemory
    }
}

impl<T: Drop> From<AllocFailed<T>> for ReadError {
    ghost use Rattle.std.specs.Prelude.{◌≡◌};
    ghost use Rattle.xa_script.specs.declared.words.ReadError.TheVariants as errors;

    ghost from_gives = { λ _ e. e ≡ errors.NoMemory };

    fn from(_: AllocFailed<T>) -> Self {
        ReadError::NoMemory
    }
}

fn is_printed(octet: u8) -> bool
    ensures { result ≡ is_printed octet }
{
    octet >= b' ' && octet <= b'~'
}

/// Whether each octet is printed. None ends the loop, so that many are tested at once.
pub fn all_printed(octets: &[u8]) -> bool
    ensures { result ≡ list_all is_printed octets.now }
{
    let mut all = true;
    for octet in octets {
        all &= is_printed(*octet);
    }
    all
}

/// What stands behind the spaces in front.
pub fn skip_spaces(octets: &[u8]) -> &[u8]
    ensures { result.now ≡ skip_spaces octets.now }
{
    let mut rest = octets;
    while let [b' ', behind @ ..] = rest {
        rest = behind;
    }
    rest
}

/// Whether nothing stands there but spaces.
pub fn is_blank(octets: &[u8]) -> bool
    ensures { result ≡ is_blank octets.now }
{
    skip_spaces(octets).is_empty()
}

/// Whether the line says nothing.
pub fn is_skipped(line: &[u8]) -> bool
    ensures { result ≡ is_skipped line.now }
{
    match line {
        [b'#', ..] => true,
        _ => is_blank(line),
    }
}

fn place_of_space(octets: &[u8]) -> Option<usize>
    ensures { result ≡ position is_space octets.now }
{
    memchr(b' ', octets)
}

fn word_len(octets: &[u8]) -> usize
    ensures place { result ≡ position_or_len is_space octets.now }
    ensures within { result ≤ length octets.now }
{
    place_of_space(octets).unwrap_or(octets.len())
}

/// The octets before the first space, and those from it on.
#[tactic(auto, unfolding(crate::specs::Words::cut_word))]
pub fn cut_word(octets: &[u8]) -> (&[u8], &[u8])
    ensures word { result.0.now ≡ (cut_word octets.now).0 }
    ensures rest { result.1.now ≡ (cut_word octets.now).1 }
{
    octets.split_at(word_len(octets))
}

/// The word behind the spaces, and what stands behind it; an empty one where there is none.
pub fn next_word(octets: &[u8]) -> (&[u8], &[u8])
    ensures word { result.0.now ≡ (next_word octets.now).0 }
    ensures rest { result.1.now ≡ (next_word octets.now).1 }
{
    cut_word(skip_spaces(octets))
}

/// The word in front, and what stands behind it.
#[tactic(auto, unfolding(crate::specs::Words::word_at))]
pub fn word_at(octets: &[u8]) -> Result<(&[u8], &[u8]), NoForm>
    ensures { Reads (λ x. (x.0.now, x.1.now)) result (word_at octets.now) }
{
    let (word, rest) = next_word(octets);
    if word.is_empty() {
        return Err(NoForm);
    }
    Ok((word, rest))
}

/// Whether the word is that one.
pub fn is(word: &[u8], other: &[u8]) -> bool
    ensures { result ≡ bytes_eq word.now other.now }
{
    word == other
}

/// The name that these octets are.
pub fn name_of(octets: &[u8]) -> Result<Name, NoForm>
    ensures { Reads (λ name. name) result (name_of octets.now) }
{
    match Name::read(octets) {
        Ok(name) => Ok(name),
        Err(_) => Err(NoForm),
    }
}

// Whether nothing follows, or a space.
fn is_end(octets: &[u8]) -> bool
    ensures { result ≡ is_end octets.now }
{
    match octets {
        [] => true,
        [octet, ..] => *octet == b' ',
    }
}

// An octet of a quoted text, and what stands behind it.
fn next_octet(octets: &[u8]) -> Option<(u8, &[u8])>
    ensures { option_map (λ x. (x.0, x.1.now)) result ≡ next_octet octets.now }
{
    match octets {
        [b'\\', octet @ (b'"' | b'\\'), rest @ ..] => Some((*octet, rest)),
        [] | [b'"' | b'\\', ..] => None,
        [octet, rest @ ..] => Some((*octet, rest)),
    }
}

fn place_of_mark(octets: &[u8]) -> Option<usize>
    ensures { result ≡ position is_marked octets.now }
{
    memchr2(b'"', b'\\', octets)
}

// The octets before the first double quote or backslash, and what stands behind them.
fn plain_in_front(octets: &[u8]) -> (&[u8], &[u8])
    ensures { put result.0.now (text_in_front result.1.now) ≡ text_in_front octets.now }
{
    octets.split_at(place_of_mark(octets).unwrap_or(octets.len()))
}

// The quoted text in front, as far as it goes, and what stands behind it.
fn text_in_front(alloc: Global, octets: &[u8]) -> Result<(Vec<u8>, &[u8]), NoMemory>
    ensures text { IfOk result (λ x. x.0.items ≡ (text_in_front octets.now).0) }
    ensures rest { IfOk result (λ x. x.1.now ≡ (text_in_front octets.now).1) }
{
    let (plain, mut rest) = plain_in_front(octets);
    let mut text = Vec::with_capacity(alloc, plain.len())?;
    text.extend_from_slice(plain)?;
    while let Some((octet, after)) = next_octet(rest) {
        text.push(octet)?;
        rest = after;
    }
    Ok((text, rest))
}

/// Whether a double quote stands first.
pub fn is_quoted(octets: &[u8]) -> bool
    ensures { result ≡ is_quoted octets.now }
{
    matches!(octets, [b'"', ..])
}

/// The text in double quotes that begins there, and what stands behind it.
#[tactic(auto, unfolding(crate::specs::Words::quoted_at))]
pub fn quoted_at(alloc: Global, octets: &[u8]) -> Result<(Octets, &[u8]), ReadError>
    ensures { Makes (λ x. (x.0, x.1.now)) result (quoted_at octets.now) }
{
    if !is_quoted(octets) {
        return Err(ReadError::NoForm);
    }
    let (text, behind) = text_in_front(alloc, &octets[1..])?;
    match behind {
        [b'"', rest @ ..] if is_end(rest) => Ok((Octets::from_vec(text), rest)),
        _ => Err(ReadError::NoForm),
    }
}

fn is_digit(octet: u8) -> bool
    ensures { result ≡ is_digit octet }
{
    octet >= b'0' && octet <= b'9'
}

fn all_digits(octets: &[u8]) -> bool
    ensures { result ≡ list_all is_digit octets.now }
{
    octets.iter().all(|octet| is_digit(*octet))
}

/// Whether these are digits, of which the first is no zero but in `0`.
pub fn is_decimal(word: &[u8]) -> bool
    ensures { result ≡ is_decimal word.now }
{
    match word {
        [] => false,
        [digit] => is_digit(*digit),
        [first, ..] => *first != b'0' && all_digits(word),
    }
}

// The number with one digit more, if it is below 2^64.
fn with_digit(number: u64, digit: u8) -> Option<u64>
    ensures { result ≡ (if nat_lt (number * 10 + (digit - 48)) 18446744073709551616 then Some (number * 10 + (digit - 48)) else None) }
{
    let digit = digit.saturating_sub(b'0');
    number.checked_mul(10)?.checked_add(u64::from(digit))
}

/// The number of these digits, if it is below 2^64.
pub fn decimal(digits: &[u8]) -> Option<u64>
    ensures { result ≡ (if nat_lt (decimal digits.now) 18446744073709551616 then Some (decimal digits.now) else None) }
{
    let mut number = 0u64;
    for digit in digits {
        number = with_digit(number, *digit)?;
    }
    Some(number)
}

/// A number in decimal from the one to the other.
#[tactic(auto, unfolding(crate::specs::Parts::number_of))]
pub fn number_of(least: u64, most: u64, word: &[u8]) -> Result<u64, NoForm>
    ensures number { Reads (λ n. n) result (number_of least most word.now) }
    ensures within { IfOk result (λ n. (least ≤ n) × (n ≤ most)) }
{
    if !is_decimal(word) {
        return Err(NoForm);
    }
    match decimal(word) {
        Some(number) if least <= number && number <= most => Ok(number),
        _ => Err(NoForm),
    }
}

fn hex_digit(octet: u8) -> Result<u8, NoForm>
    ensures { Reads (λ n. n) result (hex_digit octet) }
{
    match octet {
        b'0'..=b'9' => Ok(octet - b'0'),
        b'a'..=b'f' => Ok(octet - b'a' + 10),
        _ => Err(NoForm),
    }
}

/// The octet that two digits say.
#[tactic(auto, unfolding(crate::specs::Words::hex_octet))]
pub fn hex_octet(first: u8, second: u8) -> Result<u8, NoForm>
    ensures { Reads (λ n. n) result (hex_octet first second) }
{
    let high = hex_digit(first)?;
    let low = hex_digit(second)?;
    Ok(high * 16 + low)
}

/// The octets that an even number of digits says.
pub fn hex_octets(alloc: Global, word: &[u8]) -> Result<Octets, ReadError>
    ensures { Makes (λ octets. octets) result (hex_from [] word.now) }
{
    let mut octets = Vec::with_capacity(alloc, word.len() / 2)?;
    let mut rest = word;
    while let [first, second, behind @ ..] = rest {
        octets.push(hex_octet(*first, *second)?)?;
        rest = behind;
    }
    if rest.is_empty() {
        Ok(Octets::from_vec(octets))
    } else {
        Err(ReadError::NoForm)
    }
}
