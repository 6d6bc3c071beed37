// Fields of several words.
ghost use Rattle.std.specs.Prelude.{◌≡◌, ◌==◌, [], Some, None, length};
ghost use Rattle.std.specs.List.{list_all};
ghost use Rattle.xa_lines.specs.Reading.{Reads, Makes, words_in, is_lower, hex_of, hex_at, subtype_of, data_at, coded_at, call_at, life_at, number_at, requests_from, requests_at};

use crate::refusal::EventRefused;
use crate::words::{NoForm, is, name_of, number_at, request_at, signed_at, word_at};
use std::alloc::Global;
use xa_types::{CallerId, Data, Generation, Name, Octets, QueueId, RequestId, Sequence, ServerId};

fn is_lower(octet: u8) -> bool
    ensures { result ≡ is_lower octet }
{
    octet >= b'0' && octet <= b'9' || octet >= b'a' && octet <= b'f'
}

fn all_lower(word: &[u8]) -> bool
    ensures { result ≡ list_all is_lower word.now }
{
    word.iter().all(|octet| is_lower(*octet))
}

#[tactic(auto, unfolding(crate::specs::Reading::hex_of))]
fn hex_of(alloc: Global, word: &[u8]) -> Result<Octets, EventRefused>
    ensures { Makes (λ octets. octets) result (hex_of word.now) }
{
    if is(word, b"-") {
        return Ok(Octets::from_vec(Vec::new(alloc)));
    }
    if !all_lower(word) {
        return Err(EventRefused::NoEvent);
    }
    match hex::decode(alloc, word) {
        Ok(octets) if !octets.is_empty() => Ok(Octets::from_vec(octets)),
        Err(hex::FromHexError::OutOfMemory) => Err(EventRefused::NoMemory),
        _ => Err(EventRefused::NoEvent),
    }
}

fn hex_at(alloc: Global, words: &[u8]) -> Result<(Octets, &[u8]), EventRefused>
    ensures { Makes (λ x. (x.0, words_in x.1.now)) result (hex_at (words_in words.now)) }
{
    let (word, rest) = word_at(words)?;
    Ok((hex_of(alloc, word)?, rest))
}

fn subtype_of(word: &[u8]) -> Result<Name, NoForm>
    ensures { Reads (λ name. name) result (subtype_of word.now) }
{
    match word {
        [b'c', b':', subtype @ ..] => name_of(subtype),
        _ => Err(NoForm),
    }
}

/// `none`, `octet HEX`, or `c:SUBTYPE HEX`.
#[tactic(auto, unfolding(crate::specs::Reading::data_at))]
pub fn data_at(alloc: Global, words: &[u8]) -> Result<(Data, &[u8]), EventRefused>
    ensures { Makes (λ x. (x.0, words_in x.1.now)) result (data_at (words_in words.now)) }
{
    let (word, rest) = word_at(words)?;
    if is(word, b"none") {
        return Ok((Data::Absent, rest));
    }
    if is(word, b"octet") {
        let (octets, rest) = hex_at(alloc, rest)?;
        return Ok((Data::Octet(octets), rest));
    }
    let subtype = subtype_of(word)?;
    let (octets, rest) = hex_at(alloc, rest)?;
    Ok((Data::Struct(subtype, octets), rest))
}

/// A code, and data.
pub fn coded_at(alloc: Global, words: &[u8]) -> Result<(i32, Data, &[u8]), EventRefused>
    ensures { Makes (λ x. ((x.0, x.1), words_in x.2.now)) result (coded_at (words_in words.now)) }
{
    let (code, rest) = signed_at(words)?;
    let (payload, rest) = data_at(alloc, rest)?;
    Ok((code, payload, rest))
}

fn requests_upto(
    alloc: Global,
    many: u64,
    words: &[u8],
) -> Result<(Sequence<RequestId>, &[u8]), EventRefused>
    ensures { Makes (λ x. (x.0, words_in x.1.now)) result (requests_from [] many (words_in words.now)) }
{
    let mut requests = Vec::new(alloc);
    let mut rest = words;
    let mut left = many;
    while left > 0 {
        let (request, behind) = request_at(rest)?;
        requests.push(request)?;
        rest = behind;
        left -= 1;
    }
    Ok((Sequence::from_vec(requests), rest))
}

/// How many requests there are, and each of them.
#[tactic(auto, unfolding(crate::specs::Reading::requests_at))]
pub fn requests_at(
    alloc: Global,
    words: &[u8],
) -> Result<(Sequence<RequestId>, &[u8]), EventRefused>
    ensures { Makes (λ x. (x.0, words_in x.1.now)) result (requests_at (words_in words.now)) }
{
    let (many, rest) = number_at(u64::MAX, words)?;
    requests_upto(alloc, many, rest)
}

/// A caller, and the number of its call.
pub fn call_at(words: &[u8]) -> Result<(CallerId, u32, &[u8]), NoForm>
    ensures { Reads (λ x. ((x.0.0, x.1), words_in x.2.now)) result (call_at (words_in words.now)) }
{
    let (by, rest) = number_at(65_535, words)?;
    let (op, rest) = number_at(4_294_967_295, rest)?;
    Ok((CallerId(by as u16), op as u32, rest))
}

/// A life of a server.
pub fn life_at(words: &[u8]) -> Result<(ServerId, Generation, &[u8]), NoForm>
    ensures { Reads (λ x. ((x.0.0, x.1.0), words_in x.2.now)) result (life_at (words_in words.now)) }
{
    let (server, rest) = number_at(65_535, words)?;
    let (generation, rest) = number_at(u64::MAX, rest)?;
    Ok((ServerId(server as u16), Generation(generation), rest))
}

/// A queue.
pub fn queue_at(words: &[u8]) -> Result<(QueueId, &[u8]), NoForm>
    ensures { Reads (λ x. (x.0.0, words_in x.1.now)) result (number_at 65535 (words_in words.now)) }
{
    let (queue, rest) = number_at(65_535, words)?;
    Ok((QueueId(queue as u16), rest))
}
