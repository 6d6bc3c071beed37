//! The lines of a transcript, as the documents print them.
use crate::rows::none_fails;
use std::alloc::Global;
use xa_text::push_line;
use xa_types::{Answer, ConvEvent, Data, Fault, Name, Octets, Reply};

// What a call is told, beside the data.
#[derive(Clone, Copy)]
enum Told {
    Success(i32),
    Failed(i32),
    Error(Fault),
    Event(ConvEvent, i32),
    Now(u64),
    Done,
}

// Data: absent, or octets, with a subtype where it is X_C_TYPE.
type Payload = Option<(Option<&'static [u8]>, &'static [u8])>;

// What is told, the descriptor, the data, and the line of the first call of the client a.
type Line = (Told, u64, Payload, &'static [u8]);

static LINES: [Line; 9] = [
    (
        Told::Success(0),
        0,
        Some((None, b"hello")),
        b"a 1 OK 0 octet 68656c6c6f\n",
    ),
    (Told::Success(0), 0, None, b"a 1 OK 0 none\n"),
    (
        Told::Success(0),
        0,
        Some((None, b"")),
        b"a 1 OK 0 octet -\n",
    ),
    (
        Told::Failed(7),
        0,
        Some((None, b"no")),
        b"a 1 TPESVCFAIL 7 octet 6e6f\n",
    ),
    (Told::Error(Fault::OType), 1, None, b"a 1 CD 1 TPEOTYPE\n"),
    (
        Told::Success(-40),
        12,
        Some((Some(b"entry"), b"\x00\x7f\xff")),
        b"a 1 CD 12 OK -40 c:entry 007fff\n",
    ),
    (
        Told::Event(ConvEvent::SvcSucc, 3),
        0,
        Some((None, b"bye")),
        b"a 1 TPEEVENT TPEV_SVCSUCC 3 octet 627965\n",
    ),
    (
        Told::Now(18446744073709551615),
        0,
        None,
        b"a 1 NOW 18446744073709551615\n",
    ),
    (Told::Done, 0, None, b"a 1 DONE\n"),
];

fn data_of(alloc: Global, payload: Payload) -> Option<Data> {
    let Some((subtype, octets)) = payload else {
        return Some(Data::Absent);
    };
    match (Octets::of(alloc, octets), subtype) {
        (Ok(octets), None) => Some(Data::Octet(octets)),
        (Ok(octets), Some(subtype)) => struct_of(subtype, octets),
        (Err(_), _) => None,
    }
}

fn struct_of(subtype: &[u8], octets: Octets) -> Option<Data> {
    match Name::read(subtype) {
        Ok(subtype) => Some(Data::Struct(subtype, octets)),
        Err(_) => None,
    }
}

fn reply_of(told: &Told, descriptor: u64, data: Data) -> Reply {
    match *told {
        Told::Success(code) => Reply::Answered(descriptor, Answer::Success(code, data)),
        Told::Failed(code) => Reply::Answered(descriptor, Answer::Failed(code, data)),
        Told::Error(fault) => Reply::Answered(descriptor, Answer::Error(fault)),
        Told::Event(event, code) => Reply::Event(event, code, data),
        Told::Now(now) => Reply::Now(now),
        Told::Done => Reply::Done,
    }
}

fn prints(alloc: Global, reply: &Reply, want: &[u8]) -> bool {
    let Ok(client) = Name::read(b"a") else {
        return false;
    };
    let mut out = Vec::new(alloc);
    push_line(&mut out, &client, 1, reply).is_ok() && out.as_slice() == want
}

fn reads(alloc: Global, line: &Line) -> bool {
    match data_of(alloc, line.2) {
        Some(data) => {
            let reply = reply_of(&line.0, line.1, data);
            let right = prints(alloc, &reply, line.3);
            drop(reply);
            right
        }
        None => false,
    }
}

fn first_not_read(alloc: Global) -> Option<usize> {
    for (place, line) in LINES.iter().enumerate() {
        if !reads(alloc, line) {
            return Some(place);
        }
    }
    None
}

#[test]
fn lines_read_as_they_should(rt: HostRuntime) {
    none_fails(&rt, first_not_read(rt.alloc()));
}
