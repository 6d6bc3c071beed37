// The words of a line. Each reader answers its part and the words behind it.
ghost use Rattle.std.specs.Prelude.{◌≡◌, ◌∷◌, ◌≤◌, ◌+◌, ◌==◌, IfOk, Some, None, length, take, drop, decimal, option_map};
ghost use Rattle.std.specs.List.{list_all, position, position_or_len};
ghost use Rattle.std.specs.Str.{bytes_eq};
ghost use Rattle.std.specs.Fmt.{signed_decimal};
ghost use Rattle.xa_lines.specs.Reading.{Reads, is_space, after_space, is_dot, is_lower, split, words_in, word_at, number_of, number_at, signed_of, signed_at, name_of, name_at, request_of, request_at, truth_of, truth_at, mode_of, mode_at, fault_of, fault_at, end_of, end_at};

use itoa::Buffer;
use xa_types::{CallerId, ConvEvent, Fault, Mode, Name, RequestId};

/// The words are not of that form.
#[derive(Clone, Copy)]
pub struct NoForm;

fn place_of_space(octets: &[u8]) -> Option<usize>
    ensures { result ≡ position is_space octets.now }
{
    octets.iter().position(|octet| *octet == b' ')
}

fn word_len(octets: &[u8]) -> usize
    ensures place { result ≡ position_or_len is_space octets.now }
    ensures within { result ≤ length octets.now }
{
    place_of_space(octets).unwrap_or(octets.len())
}

/// The first word of a line, and the words behind it.
pub fn cut_word(octets: &[u8]) -> (&[u8], &[u8])
    ensures { split octets.now ≡ result.0.now ∷ words_in result.1.now }
{
    octets.split_at(word_len(octets))
}

fn after_space(words: &[u8]) -> Option<&[u8]>
    ensures { option_map (λ line. line.now) result ≡ after_space words.now }
{
    match words {
        [b' ', line @ ..] => Some(line),
        _ => None,
    }
}

/// The next word.
pub fn word_at(words: &[u8]) -> Result<(&[u8], &[u8]), NoForm>
    ensures { Reads (λ x. (x.0.now, words_in x.1.now)) result (word_at (words_in words.now)) }
{
    let Some(line) = after_space(words) else {
        return Err(NoForm);
    };
    Ok(cut_word(line))
}

/// Whether no word follows.
pub fn is_done(words: &[u8]) -> bool
    ensures { result ≡ (length (words_in words.now) == 0) }
{
    match after_space(words) {
        Some(_) => false,
        None => true,
    }
}

/// Whether the word is that one.
pub fn is(word: &[u8], other: &[u8]) -> bool
    ensures { result ≡ bytes_eq word.now other.now }
{
    word == other
}

fn is_decimal(word: &[u8], number: u64) -> bool
    ensures { result ≡ bytes_eq (decimal number) word.now }
{
    let mut digits = Buffer::new();
    digits.format(number).as_bytes() == word
}

/// The number that the word spells, at most the one.
pub fn number_of(most: u64, word: &[u8]) -> Result<u64, NoForm>
    ensures number { Reads (λ n. n) result (number_of most word.now) }
    ensures within { IfOk result (λ n. n ≤ most) }
{
    let Ok(text) = str::from_utf8(word) else {
        return Err(NoForm);
    };
    let Ok(number) = text.parse::<u64>() else {
        return Err(NoForm);
    };
    if number > most {
        return Err(NoForm);
    }
    if !is_decimal(word, number) {
        return Err(NoForm);
    }
    Ok(number)
}

/// A number, at most the one.
pub fn number_at(most: u64, words: &[u8]) -> Result<(u64, &[u8]), NoForm>
    ensures number { Reads (λ x. (x.0, words_in x.1.now)) result (number_at most (words_in words.now)) }
    ensures within { IfOk result (λ x. x.0 ≤ most) }
{
    let (word, rest) = word_at(words)?;
    Ok((number_of(most, word)?, rest))
}

#[tactic(auto, unfolding(crate::specs::Reading::signed_of))]
fn signed_of(word: &[u8]) -> Result<i32, NoForm>
    ensures { Reads (λ n. n) result (signed_of word.now) }
{
    match word {
        [] => Err(NoForm),
        [b'-', digits @ ..] => match number_of(2_147_483_648, digits)? {
            0 => Err(NoForm),
            number => Ok((-1 - (number - 1) as i64) as i32),
        },
        _ => Ok(number_of(2_147_483_647, word)? as i32),
    }
}

pub fn signed_at(words: &[u8]) -> Result<(i32, &[u8]), NoForm>
    ensures { Reads (λ x. (x.0, words_in x.1.now)) result (signed_at (words_in words.now)) }
{
    let (word, rest) = word_at(words)?;
    Ok((signed_of(word)?, rest))
}

/// The name that the word is.
pub fn name_of(word: &[u8]) -> Result<Name, NoForm>
    ensures { Reads (λ name. name) result (name_of word.now) }
{
    match Name::read(word) {
        Ok(name) => Ok(name),
        Err(_) => Err(NoForm),
    }
}

pub fn name_at(words: &[u8]) -> Result<(Name, &[u8]), NoForm>
    ensures { Reads (λ x. (x.0, words_in x.1.now)) result (name_at (words_in words.now)) }
{
    let (word, rest) = word_at(words)?;
    Ok((name_of(word)?, rest))
}

fn place_of_dot(word: &[u8]) -> Option<usize>
    ensures { result ≡ position is_dot word.now }
{
    word.iter().position(|octet| *octet == b'.')
}

#[tactic(auto, unfolding(crate::specs::Reading::request_of))]
fn request_of(word: &[u8]) -> Result<RequestId, NoForm>
    ensures { Reads (λ request. request) result (request_of word.now) }
{
    let Some(place) = place_of_dot(word) else {
        return Err(NoForm);
    };
    let caller = number_of(65_535, &word[..place])?;
    let number = number_of(u64::MAX, &word[place + 1..])?;
    Ok(RequestId {
        caller: CallerId(caller as u16),
        number,
    })
}

/// `CALLER.NUMBER`.
pub fn request_at(words: &[u8]) -> Result<(RequestId, &[u8]), NoForm>
    ensures { Reads (λ x. (x.0, words_in x.1.now)) result (request_at (words_in words.now)) }
{
    let (word, rest) = word_at(words)?;
    Ok((request_of(word)?, rest))
}

fn truth_of(word: &[u8]) -> Result<bool, NoForm>
    ensures { Reads (λ truth. truth) result (truth_of word.now) }
{
    if is(word, b"yes") {
        Ok(true)
    } else if is(word, b"no") {
        Ok(false)
    } else {
        Err(NoForm)
    }
}

/// `yes` or `no`.
pub fn truth_at(words: &[u8]) -> Result<(bool, &[u8]), NoForm>
    ensures { Reads (λ x. (x.0, words_in x.1.now)) result (truth_at (words_in words.now)) }
{
    let (word, rest) = word_at(words)?;
    Ok((truth_of(word)?, rest))
}

fn mode_of(word: &[u8]) -> Result<Mode, NoForm>
    ensures { Reads (λ mode. mode) result (mode_of word.now) }
{
    if is(word, b"Reply") {
        Ok(Mode::Reply)
    } else if is(word, b"NoReply") {
        Ok(Mode::NoReply)
    } else if is(word, b"ConvReceives") {
        Ok(Mode::ConvReceives)
    } else if is(word, b"ConvSends") {
        Ok(Mode::ConvSends)
    } else {
        Err(NoForm)
    }
}

pub fn mode_at(words: &[u8]) -> Result<(Mode, &[u8]), NoForm>
    ensures { Reads (λ x. (x.0, words_in x.1.now)) result (mode_at (words_in words.now)) }
{
    let (word, rest) = word_at(words)?;
    Ok((mode_of(word)?, rest))
}

fn fault_of(word: &[u8]) -> Result<Fault, NoForm>
    ensures { Reads (λ fault. fault) result (fault_of word.now) }
{
    if is(word, b"TPEINVAL") {
        Ok(Fault::Inval)
    } else if is(word, b"TPENOENT") {
        Ok(Fault::NoEnt)
    } else if is(word, b"TPEITYPE") {
        Ok(Fault::IType)
    } else if is(word, b"TPEOTYPE") {
        Ok(Fault::OType)
    } else if is(word, b"TPEBADDESC") {
        Ok(Fault::BadDesc)
    } else if is(word, b"TPELIMIT") {
        Ok(Fault::Limit)
    } else if is(word, b"TPEBLOCK") {
        Ok(Fault::Block)
    } else if is(word, b"TPETIME") {
        Ok(Fault::Time)
    } else if is(word, b"TPEPROTO") {
        Ok(Fault::Proto)
    } else if is(word, b"TPESYSTEM") {
        Ok(Fault::System)
    } else if is(word, b"TPEMATCH") {
        Ok(Fault::Match)
    } else if is(word, b"TPESVCFAIL") {
        Ok(Fault::SvcFail)
    } else if is(word, b"TPESVCERR") {
        Ok(Fault::SvcErr)
    } else if is(word, b"TPEEVENT") {
        Ok(Fault::Event)
    } else if is(word, b"NOMEM") {
        Ok(Fault::NoMemory)
    } else {
        Err(NoForm)
    }
}

/// The standard's name of an error.
pub fn fault_at(words: &[u8]) -> Result<(Fault, &[u8]), NoForm>
    ensures { Reads (λ x. (x.0, words_in x.1.now)) result (fault_at (words_in words.now)) }
{
    let (word, rest) = word_at(words)?;
    Ok((fault_of(word)?, rest))
}

fn end_of(word: &[u8]) -> Result<ConvEvent, NoForm>
    ensures { Reads (λ event. event) result (end_of word.now) }
{
    if is(word, b"TPEV_DISCONIMM") {
        Ok(ConvEvent::DisconImm)
    } else if is(word, b"TPEV_SENDONLY") {
        Ok(ConvEvent::SendOnly)
    } else if is(word, b"TPEV_SVCERR") {
        Ok(ConvEvent::SvcErr)
    } else if is(word, b"TPEV_SVCFAIL") {
        Ok(ConvEvent::SvcFail)
    } else if is(word, b"TPEV_SVCSUCC") {
        Ok(ConvEvent::SvcSucc)
    } else if is(word, b"NOMEM") {
        Ok(ConvEvent::NoMemory)
    } else {
        Err(NoForm)
    }
}

/// The standard's name of an event of a conversation.
pub fn end_at(words: &[u8]) -> Result<(ConvEvent, &[u8]), NoForm>
    ensures { Reads (λ x. (x.0, words_in x.1.now)) result (end_at (words_in words.now)) }
{
    let (word, rest) = word_at(words)?;
    Ok((end_of(word)?, rest))
}
