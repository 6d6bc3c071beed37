// Words, put behind a space.
ghost use Rattle.std.specs.Prelude.{◌≡◌, ◌++◌, ◌∷◌, [], map, OnOk, decimal};
ghost use Rattle.std.specs.Fmt.{signed_decimal};
ghost use Rattle.std.specs.List.{All, flat_map};
ghost use Rattle.hex.specs.Hex.{encode_lower, IsBytes};
ghost use Rattle.xa_lines.specs.Line.{spaced, request_word, truth_word, mode_word, hex_word, data_words, requests_words, coded_words, IsRequest, AreRequests, IsData, IsCoded};

use itoa::Buffer;
use xa_types::{Data, Mode, NoMemory, RequestId};

/// Puts a space and the word at the end.
pub fn put(out: &mut Vec<u8>, word: &[u8]) -> Result<(), NoMemory>
    ensures { OnOk result (out.new.items ≡ out.old.items ++ spaced word.now) }
{
    out.push(b' ')?;
    Ok(out.extend_from_slice(word)?)
}

pub fn put_number(out: &mut Vec<u8>, number: u64) -> Result<(), NoMemory>
    ensures { OnOk result (out.new.items ≡ out.old.items ++ spaced (decimal number)) }
{
    let mut digits = Buffer::new();
    put(out, digits.format(number).as_bytes())
}

pub fn put_signed(out: &mut Vec<u8>, number: i32) -> Result<(), NoMemory>
    ensures { OnOk result (out.new.items ≡ out.old.items ++ spaced (signed_decimal number)) }
{
    let mut digits = Buffer::new();
    put(out, digits.format(number).as_bytes())
}

fn truth_word(truth: bool) -> &'static [u8]
    ensures { result.now ≡ truth_word truth }
{
    if truth { b"yes" } else { b"no" }
}

pub fn put_truth(out: &mut Vec<u8>, truth: bool) -> Result<(), NoMemory>
    ensures { OnOk result (out.new.items ≡ out.old.items ++ spaced (truth_word truth)) }
{
    put(out, truth_word(truth))
}

fn mode_word(mode: Mode) -> &'static [u8]
    ensures { result.now ≡ mode_word mode }
{
    match mode {
        Mode::Reply => b"Reply",
        Mode::NoReply => b"NoReply",
        Mode::ConvReceives => b"ConvReceives",
        Mode::ConvSends => b"ConvSends",
    }
}

pub fn put_mode(out: &mut Vec<u8>, mode: Mode) -> Result<(), NoMemory>
    ensures { OnOk result (out.new.items ≡ out.old.items ++ spaced (mode_word mode)) }
{
    put(out, mode_word(mode))
}

pub fn put_request(out: &mut Vec<u8>, request: RequestId) -> Result<(), NoMemory>
    ensures text { OnOk result (out.new.items ≡ out.old.items ++ spaced (request_word request)) }
    ensures fits { OnOk result (IsRequest request) }
{
    put_number(out, u64::from(request.caller.0))?;
    out.push(b'.')?;
    let mut digits = Buffer::new();
    Ok(out.extend_from_slice(digits.format(request.number).as_bytes())?)
}

fn put_pairs(out: &mut Vec<u8>, octets: &[u8]) -> Result<(), NoMemory>
    ensures { OnOk result (out.new.items ≡ out.old.items ++ encode_lower octets.now) }
{
    let at = out.len();
    out.resize(at.saturating_add(octets.len().saturating_mul(2)), 0)?;
    match hex::encode_to_slice(octets, &mut out[at..]) {
        Ok(()) => Ok(()),
        Err(_) => unreachable!(),
    }
}

fn put_hex(out: &mut Vec<u8>, octets: &[u8]) -> Result<(), NoMemory>
    ensures text { OnOk result (out.new.items ≡ out.old.items ++ spaced (hex_word octets.now)) }
    ensures fits { OnOk result (IsBytes octets.now) }
{
    if octets.is_empty() {
        return put(out, b"-");
    }
    out.push(b' ')?;
    put_pairs(out, octets)
}

pub fn put_data(out: &mut Vec<u8>, payload: &Data) -> Result<(), NoMemory>
    ensures text { OnOk result (out.new.items ≡ out.old.items ++ flat_map spaced (data_words payload.now)) }
    ensures fits { OnOk result (IsData payload.now) }
{
    match payload {
        Data::Absent => put(out, b"none"),
        Data::Octet(octets) => {
            put(out, b"octet")?;
            put_hex(out, octets.slice())
        }
        Data::Struct(subtype, octets) => {
            put(out, b"c:")?;
            out.extend_from_slice(subtype.octets())?;
            put_hex(out, octets.slice())
        }
    }
}

pub fn put_coded(out: &mut Vec<u8>, code: i32, payload: &Data) -> Result<(), NoMemory>
    ensures text { OnOk result (out.new.items ≡ out.old.items ++ flat_map spaced (coded_words code payload.now)) }
    ensures fits { OnOk result (IsCoded code payload.now) }
{
    put_signed(out, code)?;
    put_data(out, payload)
}

fn put_each(out: &mut Vec<u8>, requests: &[RequestId]) -> Result<(), NoMemory>
    ensures text { OnOk result (out.new.items ≡ out.old.items ++ flat_map spaced (map request_word requests.now)) }
    ensures fits { OnOk result (All IsRequest requests.now) }
{
    for request in requests {
        put_request(out, *request)?;
    }
    Ok(())
}

/// Puts how many requests there are, and each of them.
pub fn put_requests(out: &mut Vec<u8>, requests: &[RequestId]) -> Result<(), NoMemory>
    ensures text { OnOk result (out.new.items ≡ out.old.items ++ flat_map spaced (requests_words requests.now)) }
    ensures fits { OnOk result (AreRequests requests.now) }
{
    put_number(out, requests.len() as u64)?;
    put_each(out, requests)
}
