//! Frames written out by hand: they are read, and written again as they were, and others are refused. Changed at one
//! octet and cut, they are told as by a decoder that is written by the documentation of `xa_frame`.
ghost use Rattle.std.specs.Prelude.{IfOk, IfSome};
ghost use Rattle.xa_frame.specs.Spelling.{HasSpelling};

use crate::rows::none_fails;
use std::alloc::Global;
use xa_frame::{Body, Frame, NextRefused, Reader, encode};
use xa_types::{
    Answer, Ask, CallFlags, ConvEvent, Data, Direction, Fault, Kind, Mode, Name, Octets, Op, Reply,
    Rval,
};

static SPELLINGS: [&[u8]; 29] = [
    // READY, NEXT
    b"XA\x01\x01\0\0\0\x03\0\0\0\0\x02S1",
    b"XA\x01\x02\0\0\0\0\0\0\0\0",
    // OP: call, acall, get, getany, cancel, connect, send, recv, discon, prio, advertise, unadvertise, tick
    b"XA\x01\x03\0\0\0\x0f\0\0\0\x05\x01\x05\x03A b\x02\x01S\x01\0\0\0\x01\x07",
    b"XA\x01\x03\0\0\0\x05\0\0\0\x05\x02\x04\x01B\0",
    b"XA\x01\x03\0\0\0\x0b\0\0\0\x05\x03\x01\x01\x02\x03\x04\x05\x06\x07\x08\x01",
    b"XA\x01\x03\0\0\0\x03\0\0\0\x05\x04\x10\0",
    b"XA\x01\x03\0\0\0\x09\0\0\0\x05\x05\0\0\0\0\0\0\0\x09",
    b"XA\x01\x03\0\0\0\x0e\0\0\0\x05\x06\x08\x02\x01C\x02\x01S\0\0\0\x02\x07\x08",
    b"XA\x01\x03\0\0\0\x11\0\0\0\x05\x07\x02\0\0\0\0\0\0\0\x03\x01\x01\0\0\0\x01\x07",
    b"XA\x01\x03\0\0\0\x0a\0\0\0\x05\x08\x1f\0\0\0\0\0\0\0\x03",
    b"XA\x01\x03\0\0\0\x09\0\0\0\x05\x09\x80\0\0\0\0\0\0\0",
    b"XA\x01\x03\0\0\0\x06\0\0\0\x05\x0a\x01\xff\xff\xff\xfe",
    b"XA\x01\x03\0\0\0\x04\0\0\0\x05\x0b\x01A\0",
    b"XA\x01\x03\0\0\0\x05\0\0\0\x05\x0c\x03A b",
    b"XA\x01\x03\0\0\0\x05\0\0\0\x05\x0d\0\0\x01\0",
    // RETURN, FORWARD, INVOKE
    b"XA\x01\x04\0\0\0\x0b\0\0\0\x09\0\0\0\0\x05\x01\0\0\0\x01\x07",
    b"XA\x01\x04\0\0\0\x0d\0\0\0\x02\x01\xff\xff\xff\xfe\x02\x01S\0\0\0\x01\x07",
    b"XA\x01\x05\0\0\0\x0a\0\0\0\x06\x03A b\x01\0\0\0\x01\x07",
    b"XA\x01\x11\0\0\0\x15\0\0\0\x01\x04ECHO\x04ECHO\0\x01\0\0\0\x05hello",
    // REPLY: done, a descriptor, the time, three answers, a message, an event, an error
    b"XA\x01\x12\0\0\0\x01\0\0\0\x07\0",
    b"XA\x01\x12\0\0\0\x09\0\0\0\x07\x01\0\0\0\0\0\0\0\x09",
    b"XA\x01\x12\0\0\0\x09\0\0\0\x07\x02\x01\x02\x03\x04\x05\x06\x07\x08",
    b"XA\x01\x12\0\0\0\x14\0\0\0\x07\x03\0\0\0\0\0\0\0\0\0\0\0\0\x05\x01\0\0\0\x01\x07",
    b"XA\x01\x12\0\0\0\x0f\0\0\0\x07\x03\0\0\0\0\0\0\0\x01\x01\xff\xff\xff\xfe\0",
    b"XA\x01\x12\0\0\0\x0b\0\0\0\x07\x03\0\0\0\0\0\0\0\x02\x02\x0d",
    b"XA\x01\x12\0\0\0\x07\0\0\0\x07\x04\x01\0\0\0\x01\x07",
    b"XA\x01\x12\0\0\0\x0c\0\0\0\x07\x05\x04\0\0\0\x05\x01\0\0\0\x01\x07",
    b"XA\x01\x12\0\0\0\x02\0\0\0\x07\x06\x0b",
    // SHUTDOWN
    b"XA\x01\x13\0\0\0\0\0\0\0\0",
];

const HEADER: usize = 12;

// What the octets are: a frame of that kind and tag, which they begin with, less than a frame, or none.
#[derive(Clone, Copy, PartialEq, Eq)]
enum Said {
    Whole(u8, u64),
    Partial,
    Malformed,
}

fn number(octets: &[u8]) -> u64 {
    let mut number = 0u64;
    for octet in octets {
        number = number.wrapping_mul(256) | u64::from(*octet);
    }
    number
}

fn is_name(octets: &[u8]) -> bool {
    for octet in octets {
        if *octet < 0x21 || *octet > 0x7e {
            return false;
        }
    }
    octets.len() <= 31 && !octets.is_empty() && !octets.starts_with(b".")
}

// What a body is made of. A choice is an octet from one value to another.
enum Field {
    Name,
    Word,
    Choice(u8, u8),
    Number,
    Long,
    Kind,
    Data,
    Answer,
}

const FLAGS: Field = Field::Choice(0, 31);

// What follows the number of an operation.
fn fields_of_op(code: u8) -> Option<&'static [Field]> {
    match code {
        1 => Some(&[FLAGS, Field::Word, Field::Kind, Field::Data]),
        2 => Some(&[FLAGS, Field::Word, Field::Data]),
        3 => Some(&[FLAGS, Field::Long, Field::Kind]),
        4 => Some(&[FLAGS, Field::Kind]),
        5 | 9 => Some(&[Field::Long]),
        6 => Some(&[FLAGS, Field::Choice(0, 3), Field::Word, Field::Data]),
        7 => Some(&[FLAGS, Field::Long, Field::Choice(0, 1), Field::Data]),
        8 => Some(&[FLAGS, Field::Long]),
        10 => Some(&[Field::Choice(0, 1), Field::Number]),
        11 => Some(&[Field::Word, Field::Word]),
        12 => Some(&[Field::Word]),
        13 => Some(&[Field::Number]),
        _ => None,
    }
}

// What follows the number of a reply.
fn fields_of_reply(code: u8) -> Option<&'static [Field]> {
    match code {
        0 => Some(&[]),
        1 | 2 => Some(&[Field::Long]),
        3 => Some(&[Field::Long, Field::Answer]),
        4 => Some(&[Field::Data]),
        5 => Some(&[Field::Choice(1, 6), Field::Number, Field::Data]),
        6 => Some(&[Field::Choice(1, 15)]),
        _ => None,
    }
}

// What follows the header of a frame of that kind, for OP and REPLY behind the first octet.
fn fields_of(kind: u8, first: u8) -> Option<&'static [Field]> {
    match kind {
        0x01 => Some(&[Field::Name]),
        0x02 | 0x13 => Some(&[]),
        0x03 => fields_of_op(first),
        0x04 => Some(&[Field::Choice(0, 2), Field::Number, Field::Data]),
        0x05 => Some(&[Field::Word, Field::Data]),
        0x11 => Some(&[Field::Name, Field::Name, Field::Choice(0, 3), Field::Data]),
        0x12 => fields_of_reply(first),
        _ => None,
    }
}

// The readers of a field answer what stands behind it.

fn split_word(body: &[u8]) -> Option<(&[u8], &[u8])> {
    let [len, rest @ ..] = body else {
        return None;
    };
    rest.split_at_checked(usize::from(*len))
}

fn after_name(body: &[u8]) -> Option<&[u8]> {
    match split_word(body) {
        Some((name, rest)) if is_name(name) => Some(rest),
        _ => None,
    }
}

fn after_octets(body: &[u8]) -> Option<&[u8]> {
    match body.split_at_checked(4) {
        Some((len, rest)) if number(len) <= 65_536 => rest.get(number(len) as usize..),
        _ => None,
    }
}

fn after_kind(body: &[u8]) -> Option<&[u8]> {
    match body {
        [0 | 1, rest @ ..] => Some(rest),
        [2, rest @ ..] => after_name(rest),
        _ => None,
    }
}

fn after_data(body: &[u8]) -> Option<&[u8]> {
    match body {
        [0, rest @ ..] => Some(rest),
        [1 | 2, ..] => after_octets(after_kind(body)?),
        _ => None,
    }
}

fn after_choice(least: u8, most: u8, body: &[u8]) -> Option<&[u8]> {
    match body {
        [choice, rest @ ..] if least <= *choice && *choice <= most => Some(rest),
        _ => None,
    }
}

fn after_answer(body: &[u8]) -> Option<&[u8]> {
    match body {
        [0 | 1, rest @ ..] => after_data(rest.get(4..)?),
        [2, rest @ ..] => after_choice(1, 15, rest),
        _ => None,
    }
}

fn after_field<'a>(field: &Field, body: &'a [u8]) -> Option<&'a [u8]> {
    match field {
        Field::Name => after_name(body),
        Field::Word => Some(split_word(body)?.1),
        Field::Choice(least, most) => after_choice(*least, *most, body),
        Field::Number => body.get(4..),
        Field::Long => body.get(8..),
        Field::Kind => after_kind(body),
        Field::Data => after_data(body),
        Field::Answer => after_answer(body),
    }
}

// What stands behind the fields of a frame of that kind.
fn after_fields(kind: u8, body: &[u8]) -> Option<&[u8]> {
    let (first, mut rest) = match (kind, body) {
        (0x03 | 0x12, [first, rest @ ..]) => (*first, rest),
        (0x03 | 0x12, []) => return None,
        _ => (0, body),
    };
    for field in fields_of(kind, first)? {
        rest = after_field(field, rest)?;
    }
    Some(rest)
}

fn decode_body(kind: u8, tag: u64, body: &[u8]) -> Said {
    match after_fields(kind, body) {
        Some([]) => Said::Whole(kind, tag),
        _ => Said::Malformed,
    }
}

fn most_of(kind: u8) -> u64 {
    match kind {
        0x01 | 0x03 | 0x04 | 0x05 | 0x11 | 0x12 => 66_000,
        _ => 0,
    }
}

fn decode(octets: &[u8]) -> Said {
    let Some((header, rest)) = octets.split_at_checked(HEADER) else {
        return Said::Partial;
    };
    let kind = header[3];
    let size = number(&header[4..8]);
    if !header.starts_with(b"XA\x01") || size > most_of(kind) {
        return Said::Malformed;
    }
    match rest.get(..size as usize) {
        Some(body) => decode_body(kind, number(&header[8..]), body),
        None => Said::Partial,
    }
}

fn kind(body: &Body) -> u8 {
    match body {
        Body::Ready(_) => 0x01,
        Body::Next => 0x02,
        Body::Op(_) => 0x03,
        Body::Return(..) => 0x04,
        Body::Forward(..) => 0x05,
        Body::Invoke(..) => 0x11,
        Body::Reply(_) => 0x12,
        Body::Shutdown => 0x13,
    }
}

// What a frame is, where it is written again as the octets stand.
fn written_as(alloc: Global, frame: &Frame, octets: &[u8]) -> Option<Said>
    requires { HasSpelling frame.now }
{
    match encode(alloc, frame) {
        Ok(written) if octets.starts_with(written.slice()) => {
            Some(Said::Whole(kind(&frame.body), u64::from(frame.tag)))
        }
        _ => None,
    }
}

// What the reader answers at these octets.
fn next_of(alloc: Global, octets: &[u8]) -> Result<Option<Frame>, NextRefused>
    ensures { IfOk result (λ found. IfSome found HasSpelling) }
{
    let mut reader = Reader::new(alloc);
    if octets.len() > 1000 || reader.feed(octets).is_err() {
        return Err(NextRefused::NoMemory);
    }
    reader.next()
}

// What the reader says of the octets, where that is without a fault and the frame is written again as they stand.
fn read(alloc: Global, octets: &[u8]) -> Option<Said> {
    match next_of(alloc, octets) {
        Ok(None) => Some(Said::Partial),
        Err(NextRefused::BadFrame(0)) => Some(Said::Malformed),
        Ok(Some(frame)) => {
            let said = written_as(alloc, &frame, octets);
            drop(frame);
            said
        }
        Err(_) => None,
    }
}

// Whether the reader and the decoder say the same.
fn say_the_same(alloc: Global, octets: &[u8]) -> bool {
    read(alloc, octets) == Some(decode(octets))
}

// Whether the reader and the decoder say the same, whatever value the octet at that place has.
fn is_told(alloc: Global, spelling: &[u8], place: usize) -> bool {
    let mut octets = [0u8; 64];
    let Some(octets) = octets.get_mut(..spelling.len()) else {
        return false;
    };
    octets.copy_from_slice(spelling);
    for value in 0..=255 {
        if let Some(octet) = octets.get_mut(place) {
            *octet = value;
        }
        if !say_the_same(alloc, octets) {
            return false;
        }
    }
    true
}

// Whether less than a frame is told so.
fn is_partial(alloc: Global, octets: &[u8]) -> bool {
    decode(octets) == Said::Partial && say_the_same(alloc, octets)
}

// Whether the octets are a frame, and each cut and each change of them is told.
fn are_told(alloc: Global, spelling: &[u8]) -> bool {
    for place in 0..spelling.len() {
        if !is_partial(alloc, &spelling[..place]) || !is_told(alloc, spelling, place) {
            return false;
        }
    }
    matches!(decode(spelling), Said::Whole(..))
}

fn first_not_told(alloc: Global) -> Option<usize> {
    for (place, spelling) in SPELLINGS.iter().enumerate() {
        if !are_told(alloc, spelling) {
            return Some(place);
        }
    }
    None
}

#[test]
fn hostile_octets_are_told(rt: HostRuntime) {
    none_fails(&rt, first_not_told(rt.alloc()));
}

// Whether data are these octets, with that subtype where they are X_C_TYPE.
fn is_data(data: &Data, subtype: Option<&[u8]>, octets: &[u8]) -> bool {
    match data {
        Data::Absent => false,
        Data::Octet(held) => subtype.is_none() && held.slice() == octets,
        Data::Struct(name, held) => subtype == Some(name.octets()) && held.slice() == octets,
    }
}

// Whether data are X_OCTET with the octet 07.
fn is_seven(data: &Data) -> bool {
    is_data(data, None, &[7])
}

fn is_return(tag: u32, rval: Rval, code: i32, data: &Data) -> bool {
    match rval {
        Rval::Success => tag == 9 && code == 5 && is_seven(data),
        Rval::Fail => tag == 2 && code == -2 && is_data(data, Some(b"S"), &[7]),
        Rval::Exit => false,
    }
}

fn is_echo(name: &Name) -> bool {
    name.octets() == b"ECHO".as_slice()
}

fn is_word(word: &Octets, octets: &[u8]) -> bool {
    word.slice() == octets
}

// The flags in the order in which they are declared.
fn flags_of(flags: CallFlags) -> [bool; 5] {
    [
        flags.no_block,
        flags.no_time,
        flags.no_reply,
        flags.no_tran,
        flags.sig_restart,
    ]
}

fn is_call(ask: &Ask) -> bool {
    let of_s = match &ask.expect {
        Some(Kind::Struct(name)) => name.octets() == b"S".as_slice(),
        _ => false,
    };
    of_s && flags_of(ask.flags) == [true, false, true, false, false]
        && is_word(&ask.service, b"A b")
        && matches!(ask.direction, Direction::Neither)
        && is_seven(&ask.payload)
}

fn is_acall(ask: &Ask) -> bool {
    flags_of(ask.flags) == [false, false, true, false, false]
        && is_word(&ask.service, b"B")
        && ask.expect.is_none()
        && matches!(ask.direction, Direction::Neither)
        && matches!(ask.payload, Data::Absent)
}

fn is_connect(ask: &Ask) -> bool {
    flags_of(ask.flags) == [false, false, false, true, false]
        && is_word(&ask.service, b"C")
        && ask.expect.is_none()
        && matches!(ask.direction, Direction::RecvOnly)
        && is_data(&ask.payload, Some(b"S"), &[7, 8])
}

fn is_op(op: &Op) -> bool {
    match op {
        Op::Call(ask) => is_call(ask),
        Op::Acall(ask) => is_acall(ask),
        Op::Get(number, flags, expect) => {
            *number == 0x0102_0304_0506_0708
                && flags_of(*flags) == [true, false, false, false, false]
                && matches!(expect, Some(Kind::Octet))
        }
        Op::GetAny(flags, expect) => {
            flags_of(*flags) == [false, false, false, false, true] && expect.is_none()
        }
        Op::Cancel(number) => *number == 9,
        Op::Connect(ask) => is_connect(ask),
        Op::Send(number, flags, recv_only, data) => {
            *number == 3
                && flags_of(*flags) == [false, true, false, false, false]
                && *recv_only
                && is_seven(data)
        }
        Op::Receive(number, flags) => *number == 3 && flags_of(*flags) == [true; 5],
        Op::Disconnect(number) => *number == 1 << 63,
        Op::Priority(absolute, amount) => *absolute && *amount == -2,
        Op::Advertise(service, routine) => is_word(service, b"A") && is_word(routine, b""),
        Op::Unadvertise(service) => is_word(service, b"A b"),
        Op::Tick(ticks) => *ticks == 256,
    }
}

fn is_answer(number: u64, answer: &Answer) -> bool {
    match answer {
        Answer::Success(code, data) => number == 0 && *code == 5 && is_seven(data),
        Answer::Failed(code, data) => number == 1 && *code == -2 && matches!(data, Data::Absent),
        Answer::Error(fault) => number == 2 && matches!(fault, Fault::SvcErr),
    }
}

fn is_reply(reply: &Reply) -> bool {
    match reply {
        Reply::Done => true,
        Reply::Descriptor(number) => *number == 9,
        Reply::Now(now) => *now == 0x0102_0304_0506_0708,
        Reply::Answered(number, answer) => is_answer(*number, answer),
        Reply::Message(data) => is_seven(data),
        Reply::Event(event, code, data) => {
            matches!(event, ConvEvent::SvcFail) && *code == 5 && is_seven(data)
        }
        Reply::Fault(fault) => matches!(fault, Fault::Match),
    }
}

// Whether the frame says what its spelling is written out for.
fn is_said(frame: &Frame) -> bool {
    match &frame.body {
        Body::Ready(name) => frame.tag == 0 && name.octets() == b"S1".as_slice(),
        Body::Next | Body::Shutdown => frame.tag == 0,
        Body::Op(op) => frame.tag == 5 && is_op(op),
        Body::Return(rval, code, data) => is_return(frame.tag, *rval, *code, data),
        Body::Forward(service, data) => {
            frame.tag == 6 && is_word(service, b"A b") && is_seven(data)
        }
        Body::Invoke(service, routine, mode, data) => {
            frame.tag == 1
                && is_echo(service)
                && is_echo(routine)
                && *mode == Mode::Reply
                && is_data(data, None, b"hello")
        }
        Body::Reply(reply) => frame.tag == 7 && is_reply(reply),
    }
}

fn is_read(alloc: Global, spelling: &[u8]) -> bool {
    match next_of(alloc, spelling) {
        Ok(Some(frame)) => {
            let right = is_said(&frame);
            drop(frame);
            right
        }
        Ok(None) | Err(_) => false,
    }
}

fn first_not_read(alloc: Global) -> Option<usize> {
    for (place, spelling) in SPELLINGS.iter().enumerate() {
        if !is_read(alloc, spelling) {
            return Some(place);
        }
    }
    None
}

// Version 2, an unknown kind, an OP without a number, 66,001 octets, a NEXT with a body, an octet after the name, a name
// with a dot first, an octet after a REPLY's last field.
static BAD: [&[u8]; 8] = [
    b"XA\x02\x02\0\0\0\0\0\0\0\0",
    b"XA\x01\x06\0\0\0\0\0\0\0\0",
    b"XA\x01\x03\0\0\0\0\0\0\0\0",
    b"XA\x01\x01\0\x01\x01\xd1\0\0\0\0",
    b"XA\x01\x02\0\0\0\x01\0\0\0\0",
    b"XA\x01\x01\0\0\0\x04\0\0\0\0\x02S1!",
    b"XA\x01\x01\0\0\0\x03\0\0\0\0\x02.1",
    b"XA\x01\x12\0\0\0\x02\0\0\0\x07\0\0",
];

fn first_not_refused(alloc: Global) -> Option<usize> {
    for (place, octets) in BAD.iter().enumerate() {
        if decode(octets) != Said::Malformed || !say_the_same(alloc, octets) {
            return Some(place);
        }
    }
    None
}

#[test]
fn frames_are_read(rt: HostRuntime) {
    none_fails(&rt, first_not_read(rt.alloc()));
    none_fails(&rt, first_not_refused(rt.alloc()));
}
