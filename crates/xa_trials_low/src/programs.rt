//! A server's program, as octets and frame by frame.
use crate::memory::{ASKED, SAID, sink_of, source_of};
use crate::rows::none_fails;
use std::alloc::Global;
use xa_child::{Child, ChildRefused, child_step, work};
use xa_frame::{Body, Frame};
use xa_link::{MemorySink, MemorySource};
use xa_types::{Data, Mode, Name, Octets, Rval};

fn says(alloc: Global, input: &mut MemorySource, out: &mut MemorySink) -> bool {
    match Name::read(b"S") {
        Ok(name) => work(alloc, &name, input, out).is_ok() && out.taken() == SAID,
        Err(_) => false,
    }
}

fn echoes_octets(alloc: Global) -> bool {
    match (source_of(alloc, ASKED, 0, 1), sink_of(alloc, 0, 0, 7)) {
        (Some(mut input), Some(mut out)) => says(alloc, &mut input, &mut out),
        _ => false,
    }
}

#[test]
fn an_echo_comes_in_single_octets(rt: HostRuntime) {
    assert!(rt; echoes_octets(rt.alloc()));
}

// The first INVOKE of a routine, with that data.
fn invoke(routine: Name, payload: Data) -> Frame {
    Frame {
        tag: 1,
        body: Body::Invoke(routine, routine, Mode::Reply, payload),
    }
}

// Whether that frame is answered by so many, or where it is none by OutOfTurn.
fn steps(alloc: Global, child: &mut Child, frame: &Frame, count: usize) -> bool {
    match child_step(alloc, child, frame) {
        Ok(said) => count > 0 && said.len() == count,
        Err(refused) => count == 0 && refused == ChildRefused::OutOfTurn,
    }
}

// Whether the frame is answered by two, and refused then.
fn steps_once(alloc: Global, child: &mut Child, frame: &Frame) -> bool {
    steps(alloc, child, frame, 2) && steps(alloc, child, frame, 0)
}

fn started(alloc: Global, echo: &Name) -> Option<Child> {
    let (child, _) = Child::start(alloc, echo).ok()?;
    Some(child)
}

fn echoes_a_step(alloc: Global) -> bool {
    let Ok(echo) = Name::read(b"ECHO") else {
        return false;
    };
    match started(alloc, &echo) {
        Some(mut child) => {
            let asked = invoke(echo, Data::Absent);
            let right = steps_once(alloc, &mut child, &asked);
            drop(asked);
            right
        }
        None => false,
    }
}

#[test]
fn a_step_echoes(rt: HostRuntime) {
    assert!(rt; echoes_a_step(rt.alloc()));
}

// Data of a subtype, or X_OCTET.
#[derive(Clone, Copy)]
enum Piece {
    Octet(&'static [u8]),
    Struct(&'static [u8], &'static [u8]),
}

// What a routine says: RETURN of TPSUCCESS, RETURN of TPFAIL with a code, RETURN of TPEXIT with a code and nothing behind
// it, or FORWARD to a service.
#[derive(Clone, Copy)]
enum Saying {
    Succeeds(Option<Piece>),
    Fails(i32, Option<Piece>),
    Exits(i32),
    Forwards(&'static [u8], Piece),
}

// An `entry` for account 7 of 250 with the memo `rent`, and the same booked.
const RENT: Piece = Piece::Struct(
    b"entry",
    b"\0\0\0\x07\0\0\0\0\0\0\0\xfarent\0\0\0\0\0\0\0\0\0\0\0\0",
);

const BOOKED: Piece = Piece::Struct(
    b"entry",
    b"\0\0\0\x07\0\0\0\0\0\0\0\xfabooked\0\0\0\0\0\0\0\0\0\0",
);

// For account 12 of -1 with the memo `void`.
const VOID: Piece = Piece::Struct(
    b"entry",
    b"\0\0\0\x0c\xff\xff\xff\xff\xff\xff\xff\xffvoid\0\0\0\0\0\0\0\0\0\0\0\0",
);

// For account 9,999 of 0, and of 1.
const NOTHING: Piece = Piece::Struct(
    b"entry",
    b"\0\0\x27\x0f\0\0\0\0\0\0\0\0\0\0\0\0\0\0\0\0\0\0\0\0\0\0\0\0",
);

const LEAST: Piece = Piece::Struct(
    b"entry",
    b"\0\0\x27\x0f\0\0\0\0\0\0\0\x01\0\0\0\0\0\0\0\0\0\0\0\0\0\0\0\0",
);

const LEAST_BOOKED: Piece = Piece::Struct(
    b"entry",
    b"\0\0\x27\x0f\0\0\0\0\0\0\0\x01booked\0\0\0\0\0\0\0\0\0\0",
);

// For the accounts 0, -1 and 10,000 of 5.
const NO_ACCOUNT: Piece = Piece::Struct(
    b"entry",
    b"\0\0\0\0\0\0\0\0\0\0\0\x05\0\0\0\0\0\0\0\0\0\0\0\0\0\0\0\0",
);

const BELOW: Piece = Piece::Struct(
    b"entry",
    b"\xff\xff\xff\xff\0\0\0\0\0\0\0\x05\0\0\0\0\0\0\0\0\0\0\0\0\0\0\0\0",
);

const ABOVE: Piece = Piece::Struct(
    b"entry",
    b"\0\0\x27\x10\0\0\0\0\0\0\0\x05\0\0\0\0\0\0\0\0\0\0\0\0\0\0\0\0",
);

// The first with an octet less, with an octet more, of another subtype, and as X_OCTET.
const SHORT: Piece = Piece::Struct(
    b"entry",
    b"\0\0\0\x07\0\0\0\0\0\0\0\xfarent\0\0\0\0\0\0\0\0\0\0\0",
);

const LONG: Piece = Piece::Struct(
    b"entry",
    b"\0\0\0\x07\0\0\0\0\0\0\0\xfarent\0\0\0\0\0\0\0\0\0\0\0\0\0",
);

const OTHER: Piece = Piece::Struct(
    b"entries",
    b"\0\0\0\x07\0\0\0\0\0\0\0\xfarent\0\0\0\0\0\0\0\0\0\0\0\0",
);

const TEXT: Piece = Piece::Octet(b"\0\0\0\x07\0\0\0\0\0\0\0\xfarent\0\0\0\0\0\0\0\0\0\0\0\0");

// The longest word, of 255 octets; the same with a space and an octet behind it; and with an octet more before these.
const WORD: &[u8] = b"aaaaaaaaaaaaaaaaaaaaaaaaaaaaaaaaaaaaaaaaaaaaaaaaaaaaaaaaaaaaaaaa\
    aaaaaaaaaaaaaaaaaaaaaaaaaaaaaaaaaaaaaaaaaaaaaaaaaaaaaaaaaaaaaaaa\
    aaaaaaaaaaaaaaaaaaaaaaaaaaaaaaaaaaaaaaaaaaaaaaaaaaaaaaaaaaaaaaaa\
    aaaaaaaaaaaaaaaaaaaaaaaaaaaaaaaaaaaaaaaaaaaaaaaaaaaaaaaaaaaaaaa";

const WORD_AND_MORE: Piece = Piece::Octet(
    b"aaaaaaaaaaaaaaaaaaaaaaaaaaaaaaaaaaaaaaaaaaaaaaaaaaaaaaaaaaaaaaaa\
    aaaaaaaaaaaaaaaaaaaaaaaaaaaaaaaaaaaaaaaaaaaaaaaaaaaaaaaaaaaaaaaa\
    aaaaaaaaaaaaaaaaaaaaaaaaaaaaaaaaaaaaaaaaaaaaaaaaaaaaaaaaaaaaaaaa\
    aaaaaaaaaaaaaaaaaaaaaaaaaaaaaaaaaaaaaaaaaaaaaaaaaaaaaaaaaaaaaaa x",
);

const NO_WORD: Piece = Piece::Octet(
    b"aaaaaaaaaaaaaaaaaaaaaaaaaaaaaaaaaaaaaaaaaaaaaaaaaaaaaaaaaaaaaaaa\
    aaaaaaaaaaaaaaaaaaaaaaaaaaaaaaaaaaaaaaaaaaaaaaaaaaaaaaaaaaaaaaaa\
    aaaaaaaaaaaaaaaaaaaaaaaaaaaaaaaaaaaaaaaaaaaaaaaaaaaaaaaaaaaaaaaa\
    aaaaaaaaaaaaaaaaaaaaaaaaaaaaaaaaaaaaaaaaaaaaaaaaaaaaaaaaaaaaaaaa x",
);

// A routine, the data of its request, and what it says.
type Routine = (&'static [u8], Option<Piece>, Saying);

static ROUTINES: [Routine; 41] = [
    (b"ACCT", Some(RENT), Saying::Succeeds(Some(BOOKED))),
    (b"ACCT", Some(LEAST), Saying::Succeeds(Some(LEAST_BOOKED))),
    (b"ACCT", Some(NOTHING), Saying::Fails(2, Some(NOTHING))),
    (b"ACCT", Some(VOID), Saying::Fails(2, Some(VOID))),
    (b"ACCT", Some(SHORT), Saying::Fails(4, None)),
    (b"ACCT", Some(LONG), Saying::Fails(4, None)),
    (b"ACCT", Some(OTHER), Saying::Fails(4, None)),
    (b"ACCT", Some(TEXT), Saying::Fails(4, None)),
    (b"ACCT", None, Saying::Fails(4, None)),
    (b"TRANSFER", Some(RENT), Saying::Forwards(b"ACCT", RENT)),
    (b"TRANSFER", Some(VOID), Saying::Forwards(b"ACCT", VOID)),
    (b"TRANSFER", Some(LEAST), Saying::Forwards(b"ACCT", LEAST)),
    (
        b"TRANSFER",
        Some(NO_ACCOUNT),
        Saying::Fails(3, Some(NO_ACCOUNT)),
    ),
    (b"TRANSFER", Some(BELOW), Saying::Fails(3, Some(BELOW))),
    (b"TRANSFER", Some(ABOVE), Saying::Fails(3, Some(ABOVE))),
    (b"TRANSFER", Some(SHORT), Saying::Fails(4, None)),
    (b"TRANSFER", Some(LONG), Saying::Fails(4, None)),
    (b"TRANSFER", Some(OTHER), Saying::Fails(4, None)),
    (b"TRANSFER", Some(TEXT), Saying::Fails(4, None)),
    (b"TRANSFER", None, Saying::Fails(4, None)),
    (b"ECHO", Some(VOID), Saying::Succeeds(Some(VOID))),
    (b"FAIL", Some(TEXT), Saying::Fails(7, Some(TEXT))),
    (b"EXIT", Some(TEXT), Saying::Exits(1)),
    (b"EXIT", None, Saying::Exits(1)),
    (b"ACC", Some(RENT), Saying::Fails(99, None)),
    (b"TRANSFERS", Some(RENT), Saying::Fails(99, None)),
    (
        b"PASS",
        Some(Piece::Octet(b"A hi")),
        Saying::Forwards(b"A", Piece::Octet(b"hi")),
    ),
    (
        b"PASS",
        Some(Piece::Octet(b"B C hi")),
        Saying::Forwards(b"B", Piece::Octet(b"C hi")),
    ),
    (
        b"PASS",
        Some(Piece::Octet(b"A  x")),
        Saying::Forwards(b"A", Piece::Octet(b" x")),
    ),
    (
        b"PASS",
        Some(Piece::Octet(b"A ")),
        Saying::Forwards(b"A", Piece::Octet(b"")),
    ),
    (
        b"PASS",
        Some(Piece::Octet(b" x")),
        Saying::Forwards(b"", Piece::Octet(b"x")),
    ),
    (
        b"PASS",
        Some(Piece::Octet(b" ")),
        Saying::Forwards(b"", Piece::Octet(b"")),
    ),
    (
        b"PASS",
        Some(WORD_AND_MORE),
        Saying::Forwards(WORD, Piece::Octet(b"x")),
    ),
    (b"PASS", Some(NO_WORD), Saying::Succeeds(Some(NO_WORD))),
    (
        b"PASS",
        Some(Piece::Octet(b"hi")),
        Saying::Succeeds(Some(Piece::Octet(b"hi"))),
    ),
    (
        b"PASS",
        Some(Piece::Octet(b"A\thi\n")),
        Saying::Succeeds(Some(Piece::Octet(b"A\thi\n"))),
    ),
    (
        b"PASS",
        Some(Piece::Octet(b"")),
        Saying::Succeeds(Some(Piece::Octet(b""))),
    ),
    (
        b"PASS",
        Some(Piece::Struct(b"entry", b"A hi")),
        Saying::Succeeds(Some(Piece::Struct(b"entry", b"A hi"))),
    ),
    (b"PASS", None, Saying::Succeeds(None)),
    (b"PAS", Some(Piece::Octet(b"A hi")), Saying::Fails(99, None)),
    (
        b"PASSES",
        Some(Piece::Octet(b"A hi")),
        Saying::Fails(99, None),
    ),
];

fn data_of(alloc: Global, piece: Option<Piece>) -> Option<Data> {
    match piece {
        None => Some(Data::Absent),
        Some(Piece::Octet(octets)) => Some(Data::Octet(Octets::of(alloc, octets).ok()?)),
        Some(Piece::Struct(subtype, octets)) => {
            let subtype = Name::read(subtype).ok()?;
            Some(Data::Struct(subtype, Octets::of(alloc, octets).ok()?))
        }
    }
}

fn is_piece(payload: &Data, piece: Option<Piece>) -> bool {
    match (payload, piece) {
        (Data::Absent, None) => true,
        (Data::Octet(octets), Some(Piece::Octet(want))) => octets.slice() == want,
        (Data::Struct(subtype, octets), Some(Piece::Struct(name, want))) => {
            subtype.octets() == name && octets.slice() == want
        }
        _ => false,
    }
}

fn is_said(body: &Body, saying: Saying) -> bool {
    match (body, saying) {
        (Body::Return(Rval::Success, 0, payload), Saying::Succeeds(want)) => {
            is_piece(payload, want)
        }
        (Body::Return(Rval::Fail, code, payload), Saying::Fails(number, want)) => {
            *code == number && is_piece(payload, want)
        }
        (Body::Return(Rval::Exit, code, payload), Saying::Exits(number)) => {
            *code == number && is_piece(payload, None)
        }
        (Body::Forward(service, payload), Saying::Forwards(name, want)) => {
            service.slice() == name && is_piece(payload, Some(want))
        }
        _ => false,
    }
}

fn is_next(frame: &Frame) -> bool {
    match &frame.body {
        Body::Next => frame.tag == 0,
        _ => false,
    }
}

// Whether it is said with the tag 1, and NEXT behind it, but for EXIT.
fn are_said(said: &[Frame], saying: Saying) -> bool {
    match (said, saying) {
        ([only], Saying::Exits(_)) => only.tag == 1 && is_said(&only.body, saying),
        ([first, last], Saying::Succeeds(_) | Saying::Fails(..) | Saying::Forwards(..)) => {
            first.tag == 1 && is_said(&first.body, saying) && is_next(last)
        }
        _ => false,
    }
}

// What the first INVOKE of a routine is answered.
fn answered(alloc: Global, routine: &[u8], piece: Option<Piece>) -> Option<Vec<Frame>> {
    let routine = Name::read(routine).ok()?;
    let mut child = started(alloc, &routine)?;
    let asked = invoke(routine, data_of(alloc, piece)?);
    let said = child_step(alloc, &mut child, &asked).ok();
    drop(asked);
    said
}

fn first_not_said(alloc: Global) -> Option<usize> {
    for (place, (routine, piece, saying)) in ROUTINES.iter().enumerate() {
        let is_right = match answered(alloc, routine, *piece) {
            Some(said) => are_said(said.as_slice(), *saying),
            None => false,
        };
        if !is_right {
            return Some(place);
        }
    }
    None
}

#[test]
fn routines_say_what_they_should(rt: HostRuntime) {
    none_fails(&rt, first_not_said(rt.alloc()));
}
