// The standard streams, and other readers and writers.
ghost use Rattle.std.specs.Prelude.{◌≡◌, ◌≤◌, ◌<◌, ◌⊎◌, [], length, IfOk, OnOk, IsErr, Ok, None};
ghost use Rattle.xa_link.specs.Links.{nothing_beside};
ghost use Rattle.xa_link.specs.Told.{Rose};
ghost use Rattle.std.specs.Io.KnownBytes.{ReadConsumes, WriteAppends};

use crate::count::raise;
use crate::{Failed, Sink, Source};
use std::io;
use std::io::{ErrorKind, Read, Write};

// How often a read or a write is tried at most, where signals interrupt it.
const TRIES: u32 = 1_000_000;

/// A reader, such as standard input. It tells nothing of its octets: a read gives what the reader gives. A read that a
/// signal interrupts is tried again; every other error of the system is a failure.
#[derive(Drop)]
pub struct ReadSource<R: Read> {
    reader: R,
    faults: u64,
}

impl<R: Read> ReadSource<R> {
    /// The reader as a source, of which no read has failed.
    pub fn new(reader: R) -> ReadSource<R>
        ensures { (⟦<ReadSource<R> as Source>⟧.shows result).faults ≡ 0 }
    {
        ReadSource { reader, faults: 0 }
    }
}

fn read_on<R: Read>(reader: &mut R, into: &mut [u8]) -> io::Result<usize>
    ensures bound { IfOk result (λ n. n ≤ length into.new) }
    ensures bytes { ReadConsumes (R.remaining reader.old) (R.remaining reader.new) result into.new }
{
    for _ in 0..TRIES {
        match reader.read(into) {
            Err(e) if e.kind() == ErrorKind::Interrupted => {}
            done => return done,
        }
    }
    Err(io::Error::from(ErrorKind::Interrupted))
}

impl<R: Read> Source for ReadSource<R> {
    ghost shows = { λ s. record { left = None; gave = None; faults = s.faults; beside = nothing_beside } };

    fn read(&mut self, into: &mut [u8]) -> Result<usize, Failed>
        ensures bound { IfOk result (λ n. n ≤ length into.new) }
        ensures bytes { ReadConsumes (R.remaining self.old.reader) (R.remaining self.new.reader) result into.new }
        ensures later { self.old.faults ≤ self.new.faults }
        ensures cause { IsErr result → Rose self.old.faults self.new.faults }
        ensures quiet { OnOk result (self.new.faults ≡ self.old.faults) }
    {
        let Ok(n) = read_on(&mut self.reader, into) else {
            raise(&mut self.faults);
            return Err(Failed);
        };
        Ok(n)
    }
}

/// A writer, such as standard output. It tells nothing of its octets: a write takes what the writer takes. A write that
/// a signal interrupts is tried again; every other error of the system is a failure.
#[derive(Drop)]
pub struct WriteSink<W: Write> {
    writer: W,
    faults: u64,
}

impl<W: Write> WriteSink<W> {
    /// The writer as a sink, of which no write has failed.
    pub fn new(writer: W) -> WriteSink<W>
        ensures { (⟦<WriteSink<W> as Sink>⟧.shows result).faults ≡ 0 }
    {
        WriteSink { writer, faults: 0 }
    }
}

fn write_on<W: Write>(writer: &mut W, from: &[u8]) -> io::Result<usize>
    ensures bound { IfOk result (λ n. n ≤ length from.now) }
    ensures bytes { WriteAppends (W.contents writer.old) (W.contents writer.new) result from.now }
{
    for _ in 0..TRIES {
        match writer.write(from) {
            Err(e) if e.kind() == ErrorKind::Interrupted => {}
            done => return done,
        }
    }
    Err(io::Error::from(ErrorKind::Interrupted))
}

impl<W: Write> Sink for WriteSink<W> {
    ghost shows = { λ s. record { took = None; faults = s.faults; beside = nothing_beside } };

    fn write(&mut self, from: &[u8]) -> Result<usize, Failed>
        ensures bound { IfOk result (λ n. n ≤ length from.now) }
        ensures bytes { WriteAppends (W.contents self.old.writer) (W.contents self.new.writer) result from.now }
        ensures later { self.old.faults ≤ self.new.faults }
        ensures cause { IsErr result → Rose self.old.faults self.new.faults }
        ensures nothing { result ≡ Ok 0 → 0 < length from.now → Rose self.old.faults self.new.faults }
        ensures quiet { IfOk result (λ n. (0 < n) ⊎ (from.now ≡ []) → self.new.faults ≡ self.old.faults) }
    {
        let Ok(n) = write_on(&mut self.writer, from) else {
            raise(&mut self.faults);
            return Err(Failed);
        };
        if n == 0 && !from.is_empty() {
            raise(&mut self.faults);
        }
        Ok(n)
    }
}
