//! Data and scripts as long as they may be: no clause says that memory suffices for them.
use crate::rows::none_fails;
use crate::running::{End, Runtime, runs};
use std::alloc::Global;
use std::io::Write;
use xa_program::{Input, LocalYard};

// What the octets begin with, what comes again and again, and their end.
type Long = (&'static [u8], &'static [u8], &'static [u8]);

// The words, how often that comes in the input and in the output, both, and how it ends.
type Row = (&'static [&'static str], usize, Long, Long, End);

const PLAY: &[&str] = &["play", "ECHO"];

const EMPTY: Long = (b"", b"", b"");

// INVOKE of ECHO with 65,536 octets, and SHUTDOWN.
const ASKED: Long = (
    b"XA\x01\x11\0\x01\0\x10\0\0\0\x01\x04ECHO\x04ECHO\0\x01\0\x01\0\0",
    b"x",
    b"XA\x01\x13\0\0\0\0\0\0\0\0",
);

// READY of the server S and NEXT, RETURN of success with code 0 and these octets, and NEXT.
const SAID: Long = (
    b"XA\x01\x01\0\0\0\x02\0\0\0\0\x01SXA\x01\x02\0\0\0\0\0\0\0\0\
    XA\x01\x04\0\x01\0\x0a\0\0\0\x01\0\0\0\0\0\x01\0\x01\0\0",
    b"x",
    b"XA\x01\x02\0\0\0\0\0\0\0\0",
);

static ROWS: [Row; 4] = [
    (
        PLAY,
        65_536,
        (b"client a\ncall ECHO text \"", b"x", b"\"\n"),
        (b"a 1 OK 0 octet ", b"78", b"\n"),
        End::Done,
    ),
    (&["server", "S"], 65_536, ASKED, SAID, End::Done),
    (PLAY, 1_048_576, (b"", b"#", b""), EMPTY, End::Done),
    (
        PLAY,
        1_048_576,
        (b"", b"#", b"#"),
        EMPTY,
        End::TooLong(Input::Script),
    ),
];

fn push_again(octets: &mut Vec<u8>, again: &[u8], count: usize) -> Option<()> {
    for _ in 0..count {
        octets.extend_from_slice(again).ok()?;
    }
    Some(())
}

fn octets_of(alloc: Global, (first, again, last): Long, count: usize) -> Option<Vec<u8>> {
    let mut octets = Vec::from_slice(alloc, first).ok()?;
    push_again(&mut octets, again, count)?;
    octets.extend_from_slice(last).ok()?;
    Some(octets)
}

fn is_run<R: Runtime>(rt: &R, words: &[&str], input: &[u8], want: (End, &[u8])) -> bool {
    let mut yard = LocalYard::new(rt.alloc());
    runs(rt, words, (&[], &[]), (input, &[], &[]), &mut yard, want)
}

// How long the configuration is, a comment, and how it ends.
static CONFIGURATIONS: [(usize, End); 2] = [
    (262_144, End::ConfigFault(3, "queue")),
    (262_145, End::TooLong(Input::Configuration)),
];

fn is_configured<R: Runtime>(rt: &R, config: &[u8], script: &[u8], want: (End, &[u8])) -> bool {
    let mut yard = LocalYard::new(rt.alloc());
    let files: [(&[u8], &[u8]); 1] = [(b"c", config)];
    runs(
        rt,
        &["run", "c"],
        (&files, &[]),
        (script, &[], &[]),
        &mut yard,
        want,
    )
}

fn is_read<R: Runtime>(rt: &R, count: usize, end: End) -> bool {
    match octets_of(rt.alloc(), (b"", b"#", b""), count) {
        Some(config) => is_configured(rt, &config, b"", (end, b"")),
        None => false,
    }
}

fn first_not_read<R: Runtime>(rt: &R) -> Option<usize> {
    for (place, (count, end)) in CONFIGURATIONS.iter().enumerate() {
        if !is_read(rt, *count, *end) {
            return Some(place);
        }
    }
    None
}

#[test]
fn the_longest_configuration_is_read(rt: HostRuntime) {
    none_fails(&rt, first_not_read(&rt));
}

fn is_played<R: Runtime>(rt: &R, (words, count, input, wrote, end): Row) -> bool {
    let Some(input) = octets_of(rt.alloc(), input, count) else {
        return false;
    };
    match octets_of(rt.alloc(), wrote, count) {
        Some(wrote) => is_run(rt, words, &input, (end, &wrote)),
        None => false,
    }
}

fn first_not_played<R: Runtime>(rt: &R) -> Option<usize> {
    for (place, row) in ROWS.iter().enumerate() {
        if !is_played(rt, *row) {
            return Some(place);
        }
    }
    None
}

#[test]
fn the_longest_data_and_script_are_played(rt: HostRuntime) {
    none_fails(&rt, first_not_played(&rt));
}

fn push_line(lines: &mut Vec<u8>, first: &str, last: &str, number: u32) -> Option<()> {
    lines.extend_from_slice(first.as_bytes()).ok()?;
    write!(lines, "{number}").ok()?;
    lines.extend_from_slice(last.as_bytes()).ok()?;
    lines.push(b'\n').ok()
}

// So many lines, or pairs of lines, with the number of each, from 1, between the two texts.
fn lines_of(alloc: Global, first: &str, last: &str, count: u32) -> Option<Vec<u8>> {
    let mut lines = Vec::new(alloc);
    for number in 1..=count {
        push_line(&mut lines, first, last, number)?;
    }
    Some(lines)
}

// What is put in and what comes out.
type Both = (Vec<u8>, Vec<u8>);

const CALLS: u32 = 1_001;

fn calls_of(alloc: Global) -> Option<Both> {
    let calls: Long = (b"client a\n", b"call ECHO none\n", b"");
    let script = octets_of(alloc, calls, CALLS as usize)?;
    Some((script, lines_of(alloc, "a ", " OK 0 none", CALLS)?))
}

fn are_played<R: Runtime>(rt: &R) -> bool {
    match calls_of(rt.alloc()) {
        Some((script, lines)) => is_run(rt, PLAY, &script, (End::Done, &lines)),
        None => false,
    }
}

#[test]
fn many_calls_are_played(rt: HostRuntime) {
    assert!(rt; are_played(&rt));
}

const ONE: &[u8] = b"[[queue]]\nname = \"Q\"\n\
    [[server]]\nname = \"S\"\nqueue = \"Q\"\n\
    [[service]]\nname = \"ECHO\"\nqueues = [\"Q\"]\n";

// How many clients with a call each there are, how many are served, and how it ends: each has two lines.
static CLIENTS: [(u32, u32, End); 2] = [(64, 64, End::Done), (65, 0, End::BadLine(129, 7))];

fn clients_of(alloc: Global, count: u32, served: u32) -> Option<Both> {
    let script = lines_of(alloc, "client c", "\ncall ECHO none", count)?;
    Some((script, lines_of(alloc, "c", " 1 OK 0 none", served)?))
}

fn are_served<R: Runtime>(rt: &R, (count, served, end): (u32, u32, End)) -> bool {
    match clients_of(rt.alloc(), count, served) {
        Some((script, wrote)) => is_configured(rt, ONE, &script, (end, &wrote)),
        None => false,
    }
}

fn first_not_served<R: Runtime>(rt: &R) -> Option<usize> {
    for (place, clients) in CLIENTS.iter().enumerate() {
        if !are_served(rt, *clients) {
            return Some(place);
        }
    }
    None
}

#[test]
fn as_many_clients_as_may_be_are_served(rt: HostRuntime) {
    none_fails(&rt, first_not_served(&rt));
}
