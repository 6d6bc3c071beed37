//! Lives of a server in memory, and what each call is told of them.
use crate::rows::none_fails;
use crate::running::{End, Runtime, run_of, sink_of, source_of};
use std::alloc::Global;
use xa_program::link::{MemoryLink, MemoryYard, OpenGate};

/// What a server's program says: READY, NEXT, and RETURNs to the first invocation, of which the last is cut short.
pub const READY: &[u8] = b"XA\x01\x01\0\0\0\x02\0\0\0\0\x01S";

pub const NEXT: &[u8] = b"XA\x01\x02\0\0\0\0\0\0\0\0";

pub const SUCCESS: &[u8] = b"XA\x01\x04\0\0\0\x06\0\0\0\x01\0\0\0\0\0\0";

const FAIL: &[u8] = b"XA\x01\x04\0\0\0\x06\0\0\0\x01\x01\0\0\0\x63\0";

const EXIT: &[u8] = b"XA\x01\x04\0\0\0\x06\0\0\0\x01\x02\0\0\0\x01\0";

const TYPED: &[u8] = b"XA\x01\x04\0\0\0\x11\0\0\0\x01\0\0\0\0\0\x02\x05entry\0\0\0\x01x";

const SHORT: &[u8] = b"XA\x01\x04\0\0\0\x0f\0\0\0\x01\0\0\0\0\x07\x01\0\0\0\x05";

// The same as SUCCESS, to the second invocation.
const SECOND: &[u8] = b"XA\x01\x04\0\0\0\x06\0\0\0\x02\0\0\0\0\0\0";

const ONE: &[u8] = b"client a\ncall ECHO none\n";

const TWO: &[u8] = b"client a\ncall ECHO none\ncall ECHO none\n";

const DIED: &[&[u8]] = &[b"a 1 TPESVCERR\na 2 TPENOENT\n"];

// A life that ends behind its answer: the next call comes before the rows of the queue are withdrawn, and is swept from
// it or finds it down, or after that.
const GONE: &[&[u8]] = &[
    b"a 1 OK 0 none\na 2 TPENOENT\n",
    b"a 1 OK 0 none\na 2 TPESYSTEM\n",
];

const DOWN: &[&[u8]] = &[b"a 1 TPENOENT\na 2 TPENOENT\n"];

// The script, what the program says or `None` where it can't be started, the reads and writes of the link that fail and
// the writes that take nothing, and the transcripts that may come.
type Row = (
    &'static [u8],
    Option<&'static [&'static [u8]]>,
    [&'static [u64]; 3],
    &'static [&'static [u8]],
);

pub const SOUND: [&[u64]; 3] = [&[], &[], &[]];

static ROWS: [Row; 20] = [
    (b"client a\n", Some(&[READY, NEXT]), SOUND, &[b""]),
    (
        TWO,
        Some(&[READY, NEXT, SUCCESS, NEXT, SECOND, NEXT]),
        SOUND,
        &[b"a 1 OK 0 none\na 2 OK 0 none\n"],
    ),
    // A request that is refused, or that fails, and the server goes on.
    (
        b"client a\ncall .X none\ncall OTHER none\ncall ECHO none\n",
        Some(&[READY, NEXT, SUCCESS, NEXT]),
        SOUND,
        &[b"a 1 TPEINVAL\na 2 TPENOENT\na 3 OK 0 none\n"],
    ),
    (
        TWO,
        Some(&[READY, NEXT, FAIL, NEXT, SECOND, NEXT]),
        SOUND,
        &[b"a 1 TPESVCFAIL 99 none\na 2 OK 0 none\n"],
    ),
    (
        TWO,
        Some(&[READY, NEXT, TYPED, NEXT, SECOND, NEXT]),
        SOUND,
        &[b"a 1 TPESVCERR\na 2 OK 0 none\n"],
    ),
    // A life that ends with its answer, or behind it.
    (
        TWO,
        Some(&[READY, NEXT, EXIT]),
        SOUND,
        &[b"a 1 TPESVCFAIL 1 none\na 2 TPENOENT\n"],
    ),
    (TWO, Some(&[READY, NEXT, SUCCESS]), SOUND, GONE),
    (TWO, Some(&[READY, NEXT, SUCCESS, SECOND]), SOUND, GONE),
    // A request that dies with its server.
    (
        ONE,
        Some(&[READY, NEXT, SHORT]),
        SOUND,
        &[b"a 1 TPESVCERR\n"],
    ),
    (TWO, Some(&[READY, NEXT, SHORT]), SOUND, DIED),
    (TWO, Some(&[READY, NEXT, SECOND]), SOUND, DIED),
    (TWO, Some(&[READY, NEXT]), SOUND, DIED),
    (
        TWO,
        Some(&[READY, NEXT, SUCCESS, NEXT]),
        [&[3], &[], &[]],
        DIED,
    ),
    (
        TWO,
        Some(&[READY, NEXT, SUCCESS, NEXT]),
        [&[], &[1], &[]],
        DIED,
    ),
    (
        TWO,
        Some(&[READY, NEXT, SUCCESS, NEXT]),
        [&[], &[], &[2]],
        DIED,
    ),
    // A server that never takes a request.
    (TWO, None, SOUND, DOWN),
    (
        b"client a\ncall .X none\ncall ECHO none\n",
        None,
        SOUND,
        &[b"a 1 TPEINVAL\na 2 TPENOENT\n"],
    ),
    (TWO, Some(&[]), SOUND, DOWN),
    (TWO, Some(&[READY]), SOUND, DOWN),
    (
        TWO,
        Some(&[b"XA\x01\x01\0\0\0\x02\0\0\0\0\x01T", NEXT]),
        SOUND,
        DOWN,
    ),
];

fn octets_of(alloc: Global, said: &[&[u8]]) -> Option<Vec<u8>> {
    let mut octets = Vec::new(alloc);
    for frame in said {
        octets.extend_from_slice(frame).ok()?;
    }
    Some(octets)
}

/// What a program says in a life, and the reads and writes of its link that fail and the writes that take nothing.
pub type Life<'a> = (&'a [&'a [u8]], [&'a [u64]; 3]);

// The link of a life, whose reads give 13 octets at most, and writes take 5.
fn link_of(alloc: Global, (said, [reads, writes, idle]): Life<'_>) -> Option<MemoryLink> {
    let source = source_of(alloc, &octets_of(alloc, said)?, reads, 13)?;
    Some(MemoryLink::new(source, sink_of(alloc, writes, idle, 5)?))
}

fn start_of(alloc: Global, life: Option<Life<'_>>) -> Option<Option<MemoryLink>> {
    match life {
        Some(life) => Some(Some(link_of(alloc, life)?)),
        None => Some(None),
    }
}

/// A yard whose first server alone can be started, and has these lives; one that is none is a start that fails.
pub fn lives_of(alloc: Global, lives: &[Option<Life<'_>>]) -> Option<MemoryYard> {
    let mut links = Vec::new(alloc);
    for life in lives {
        links.push(start_of(alloc, *life)?).ok()?;
    }
    Some(MemoryYard::new(alloc, Vec::from_array(alloc, [links]).ok()?))
}

/// The same with one life.
pub fn yard_of(alloc: Global, life: Option<&[&[u8]]>, faults: [&[u64]; 3]) -> Option<MemoryYard> {
    match life {
        Some(said) => lives_of(alloc, &[Some((said, faults))]),
        None => lives_of(alloc, &[None]),
    }
}

fn is_served<R: Runtime>(rt: &R, yard: &mut MemoryYard, script: &[u8], wrote: &[&[u8]]) -> bool {
    run_of(
        rt,
        &["play", "ECHO"],
        (&[], &[]),
        (script, &[], &[]),
        yard,
        &OpenGate,
        (End::Done, wrote),
    )
    .is_some()
}

fn serves<R: Runtime>(rt: &R, (script, life, faults, wrote): Row) -> bool {
    match yard_of(rt.alloc(), life, faults) {
        Some(mut yard) => is_served(rt, &mut yard, script, wrote),
        None => false,
    }
}

fn first_not_served<R: Runtime>(rt: &R) -> Option<usize> {
    for (place, row) in ROWS.iter().enumerate() {
        if !serves(rt, *row) {
            return Some(place);
        }
    }
    None
}

#[test]
fn each_life_is_served(rt: HostRuntime) {
    none_fails(&rt, first_not_served(&rt));
}
