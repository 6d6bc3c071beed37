//! Talks over a link in memory, and why they end.
use crate::memory::{joined, link_of};
use crate::rows::none_fails;
use std::alloc::Global;
use xa_events::StopCause;
use xa_link::{Link, MemoryLink};
use xa_pipe::{Act, Finish, Pipe};
use xa_types::{Data, Name};

const READY: &[u8] = b"XA\x01\x01\0\0\0\x02\0\0\0\0\x01S";

const NEXT: &[u8] = b"XA\x01\x02\0\0\0\0\0\0\0\0";

// A RETURN to the first invocation with the code 7 and hello, and its first 22 octets.
const RETURN: &[u8] = b"XA\x01\x04\0\0\0\x0f\0\0\0\x01\0\0\0\0\x07\x01\0\0\0\x05hello";

const SHORT: &[u8] = b"XA\x01\x04\0\0\0\x0f\0\0\0\x01\0\0\0\0\x07\x01\0\0\0\x05";

// A FORWARD of the first invocation to the service TO with hello.
const FORWARD: &[u8] = b"XA\x01\x05\0\0\0\x0d\0\0\0\x01\x02TO\x01\0\0\0\x05hello";

// tpsprio by 5, which the first invocation asks for.
const OP: &[u8] = b"XA\x01\x03\0\0\0\x06\0\0\0\x01\x0a\0\0\0\0\x05";

// How a service goes on with its request: by a call, with that code, or by a forward to that service with these octets.
#[derive(Clone, Copy)]
enum Done {
    Called,
    Returned(i32),
    Forwarded(&'static [u8], &'static [u8]),
}

// What the program says, the read of five octets that fails, or 0, and how its service is done or why the life ends.
type Said = (&'static [&'static [u8]], u64, Result<Done, StopCause>);

static SAID: [Said; 25] = [
    (&[READY, NEXT, RETURN, NEXT], 0, Ok(Done::Returned(7))),
    (
        &[READY, NEXT, FORWARD, NEXT],
        0,
        Ok(Done::Forwarded(b"TO", b"hello")),
    ),
    (
        &[
            READY,
            NEXT,
            b"XA\x01\x05\0\0\0\x09\0\0\0\x01\x03A b\x01\0\0\0\0",
            NEXT,
        ],
        0,
        Ok(Done::Forwarded(b"A b", b"")),
    ),
    (&[], 0, Err(StopCause::EndOfInput)),
    (&[READY, NEXT, SHORT], 0, Err(StopCause::EndOfInput)),
    (&[READY, NEXT, RETURN], 0, Err(StopCause::EndOfInput)),
    (&[READY, NEXT, RETURN], 1, Err(StopCause::ReadFault)),
    (&[READY, NEXT, RETURN], 9, Err(StopCause::ReadFault)),
    (
        &[b"XA\x02\x01\0\0\0\x02\0\0\0\0\x01S"],
        0,
        Err(StopCause::BadBytes(0)),
    ),
    (
        &[READY, NEXT, b"XA\x02\x04\0\0\0\x0f\0\0\0\x01"],
        0,
        Err(StopCause::BadBytes(26)),
    ),
    (
        &[READY, NEXT, RETURN, b"XA\x02\x02\0\0\0\0\0\0\0\0"],
        0,
        Err(StopCause::BadBytes(53)),
    ),
    (
        &[b"XA\x01\x01\0\0\0\x02\0\0\0\0\x01T"],
        0,
        Err(StopCause::OutOfTurn(0x01, 0)),
    ),
    (
        &[READY, b"XA\x01\x02\0\0\0\0\0\0\0\x01"],
        0,
        Err(StopCause::OutOfTurn(0x02, 1)),
    ),
    (
        &[READY, NEXT, b"XA\x01\x04\0\0\0\x06\0\0\0\x02\0\0\0\0\x07\0"],
        0,
        Err(StopCause::OutOfTurn(0x04, 2)),
    ),
    (&[READY, NEXT, NEXT], 0, Err(StopCause::OutOfTurn(0x02, 0))),
    (
        &[READY, NEXT, RETURN, RETURN],
        0,
        Err(StopCause::OutOfTurn(0x04, 1)),
    ),
    (&[READY, NEXT, OP, NEXT], 0, Ok(Done::Called)),
    (
        &[READY, NEXT, OP, RETURN],
        0,
        Err(StopCause::OutOfTurn(0x04, 1)),
    ),
    (
        &[READY, NEXT, RETURN, OP],
        0,
        Err(StopCause::OutOfTurn(0x03, 1)),
    ),
    (
        &[
            READY,
            NEXT,
            b"XA\x01\x03\0\0\0\x09\0\0\0\x01\x05\0\0\0\0\0\0\0\x01",
        ],
        0,
        Err(StopCause::OutOfTurn(0x03, 1)),
    ),
    (&[READY, OP], 0, Err(StopCause::OutOfTurn(0x03, 1))),
    (&[OP], 0, Err(StopCause::OutOfTurn(0x03, 1))),
    (
        &[READY, NEXT, b"XA\x01\x03\0\0\0\x05\0\0\0\x02\x0d\0\0\0\x01"],
        0,
        Err(StopCause::OutOfTurn(0x03, 2)),
    ),
    (
        &[READY, NEXT, b"XA\x01\x03\0\0\0\x05\0\0\0\x01\x0e\0\0\0\x01"],
        0,
        Err(StopCause::BadBytes(26)),
    ),
    (
        &[READY, NEXT, b"XA\x01\x05\0\0\0\x04\0\0\0\x02\x02TO\0"],
        0,
        Err(StopCause::OutOfTurn(0x05, 2)),
    ),
];

fn talk<L: Link>(pipe: &mut Pipe<L>, server: &Name) -> Result<Act, StopCause> {
    pipe.greet(server)?;
    let act = pipe.hear(1)?;
    pipe.read_next()?;
    Ok(act)
}

fn is_octets(data: &Data, octets: &[u8]) -> bool {
    matches!(data, Data::Octet(held) if held.slice() == octets)
}

fn is_done(act: &Act, want: Done) -> bool {
    match (act, want) {
        (Act::Calls(_), Done::Called) => true,
        (Act::Ends(Finish::Returns(back)), Done::Returned(code)) => back.code == code,
        (Act::Ends(Finish::Forwards(forward)), Done::Forwarded(service, octets)) => {
            forward.service.slice() == service && is_octets(&forward.payload, octets)
        }
        _ => false,
    }
}

// The link of a program that says these.
fn saying(alloc: Global, said: &[&[u8]], fails: u64) -> Option<Pipe<MemoryLink>> {
    let octets = joined(alloc, said)?;
    Some(Pipe::new(alloc, link_of(alloc, &octets, [fails, 0, 0], 5)?))
}

fn hears(pipe: &mut Pipe<MemoryLink>, want: Result<Done, StopCause>) -> bool {
    let Ok(server) = Name::read(b"S") else {
        return false;
    };
    match (talk(pipe, &server), want) {
        (Ok(act), Ok(done)) => is_done(&act, done),
        (Err(cause), Err(other)) => cause == other,
        _ => false,
    }
}

fn ends_so(alloc: Global, (said, fails, want): Said) -> bool {
    match saying(alloc, said, fails) {
        Some(mut pipe) => {
            let heard = hears(&mut pipe, want);
            drop(pipe.into_link());
            heard
        }
        None => false,
    }
}

fn first_not_told(alloc: Global) -> Option<usize> {
    for (place, row) in SAID.iter().enumerate() {
        if !ends_so(alloc, *row) {
            return Some(place);
        }
    }
    None
}

#[test]
fn each_end_is_told_by_its_cause(rt: HostRuntime) {
    none_fails(&rt, first_not_told(rt.alloc()));
}

// What the monitor writes: an INVOKE of ECHO without data, and SHUTDOWN.
const BOTH: &[u8] = b"XA\x01\x11\0\0\0\x0c\0\0\0\x01\x04ECHO\x04ECHO\0\0\
    XA\x01\x13\0\0\0\0\0\0\0\0";

// The write of five octets that fails, the one that takes nothing, or 0, and how many octets are taken.
type Taken = (u64, u64, usize);

static TAKEN: [Taken; 4] = [(0, 0, 36), (1, 0, 0), (0, 2, 5), (6, 0, 24)];

fn write<L: Link>(pipe: &mut Pipe<L>, service: &Name) -> Result<(), StopCause> {
    pipe.send(service, service, 1, &Data::Absent)?;
    pipe.shut_down()
}

// Whether all is written, or where it isn't whole, a write fails.
fn writes(pipe: &mut Pipe<MemoryLink>, whole: bool) -> bool {
    match Name::read(b"ECHO") {
        Ok(service) if whole => write(pipe, &service).is_ok(),
        Ok(service) => write(pipe, &service) == Err(StopCause::WriteFault),
        Err(_) => false,
    }
}

// Whether so many octets are taken, and the rest fails.
fn takes(alloc: Global, (fails, idle, want): Taken) -> bool {
    match link_of(alloc, b"", [0, fails, idle], 5) {
        Some(link) => {
            let mut pipe = Pipe::new(alloc, link);
            let is_done = writes(&mut pipe, want == BOTH.len());
            let link = pipe.into_link();
            is_done && link.taken().len() == want && BOTH.starts_with(link.taken())
        }
        None => false,
    }
}

fn first_not_taken(alloc: Global) -> Option<usize> {
    for (place, row) in TAKEN.iter().enumerate() {
        if !takes(alloc, *row) {
            return Some(place);
        }
    }
    None
}

#[test]
fn what_is_written_is_taken_or_fails(rt: HostRuntime) {
    none_fails(&rt, first_not_taken(rt.alloc()));
}
