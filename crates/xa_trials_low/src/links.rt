//! How links in memory cut and fail, and what readers and writers do whom a signal interrupts.
use crate::memory::{gives, link_of, sink_of};
use crate::rows::none_fails;
use std::alloc::Global;
use std::io;
use std::io::{ErrorKind, Read, Write};
use xa_link::{ReadSource, WriteSink, put};

static GIVEN: [Option<&[u8]>; 6] = [
    Some(b"abc"),
    None,
    Some(b"def"),
    Some(b"g"),
    Some(b""),
    Some(b""),
];

// The write that fails, the one that takes nothing, or 0, and what is taken of `hello`.
type Taken = (u64, u64, &'static [u8]);

static TAKEN: [Taken; 3] = [(0, 0, b"hello"), (3, 0, b"hell"), (0, 2, b"he")];

// Whether a sink that takes two octets at a time takes this of five.
fn takes(alloc: Global, (fails, idle, want): Taken) -> bool {
    match sink_of(alloc, fails, idle, 2) {
        Some(mut sink) => {
            let is_whole = put(&mut sink, b"hello").is_ok();
            (sink.taken() == want) & (is_whole == (want.len() == 5))
        }
        None => false,
    }
}

fn first_not_taken(alloc: Global) -> Option<usize> {
    for (place, row) in TAKEN.iter().enumerate() {
        if !takes(alloc, *row) {
            return Some(place);
        }
    }
    None
}

// Whether a link that gives three octets at a time cuts, and fails at its second read.
fn cuts(alloc: Global) -> bool {
    match link_of(alloc, b"abcdefg", [2, 0, 0], 3) {
        Some(mut link) => gives(&mut link, &GIVEN),
        None => false,
    }
}

#[test]
fn links_in_memory_cut_and_fail(rt: HostRuntime) {
    assert!(rt; cuts(rt.alloc()));
    none_fails(&rt, first_not_taken(rt.alloc()));
}

// Fails once, by that error, and is then at its end, or takes all.
#[derive(Drop)]
struct Unsteady {
    first: Option<ErrorKind>,
}

impl Unsteady {
    fn fail_once(&mut self) -> io::Result<()> {
        match self.first.take() {
            Some(kind) => Err(io::Error::from(kind)),
            None => Ok(()),
        }
    }
}

impl Read for Unsteady {
    fn read(&mut self, _into: &mut [u8]) -> io::Result<usize> {
        self.fail_once()?;
        Ok(0)
    }
}

impl Write for Unsteady {
    fn write(&mut self, from: &[u8]) -> io::Result<usize> {
        self.fail_once()?;
        Ok(from.len())
    }

    fn flush(&mut self) -> io::Result<()> {
        Ok(())
    }
}

fn reads_so(first: ErrorKind, want: &[Option<&[u8]>]) -> bool {
    gives(&mut ReadSource::new(Unsteady { first: Some(first) }), want)
}

fn is_written(first: ErrorKind) -> bool {
    put(&mut WriteSink::new(Unsteady { first: Some(first) }), b"a").is_ok()
}

fn is_tried_again() -> bool {
    reads_so(ErrorKind::Other, &[None, Some(b"")])
        && reads_so(ErrorKind::Interrupted, &[Some(b"")])
        && !is_written(ErrorKind::Other)
        && is_written(ErrorKind::Interrupted)
}

#[test]
fn an_interrupted_stream_is_tried_again(rt: HostRuntime) {
    assert!(rt; is_tried_again());
}

fn ends<R: Read + Drop>(reader: R) -> bool {
    gives(&mut ReadSource::new(reader), &[Some(b""), Some(b"")])
}

fn takes_line<W: Write + Drop>(writer: W) -> bool {
    put(&mut WriteSink::new(writer), b"a line of a test\n").is_ok()
}

// A test's standard input is empty.
#[test]
fn standard_streams_end_and_take(rt: HostRuntime) {
    assert!(rt; ends(rt.stdin()) && takes_line(rt.stdout()) && takes_line(rt.stderr()));
}
