//! The one way in which the trials run a command.
ghost use Rattle.std.specs.Prelude.{◌<◌};

use std::alloc::Global;
use std::sync::Wait;
use std::thread::Threads;
use xa_program::events::Event;
use xa_program::link::{Gate, MemoryShelf, MemorySink, MemorySource, OpenGate, Yard};
use xa_program::types::Octets;
use xa_program::{EndedLife, Input, Outcome, Status, run};

/// What a run asks of the runtime: memory, and threads that may wait for each other.
pub trait Runtime: Threads + Wait + Sync + AllocGlobal {}

impl<R: Threads + Wait + Sync + AllocGlobal> Runtime for R {}

/// The files of a shelf, by their names, and the reads of it that fail.
pub type Files<'a> = (&'a [(&'a [u8], &'a [u8])], &'a [u64]);

/// The input of a command, the reads of it that fail, and the writes of its output that take nothing.
pub type Script<'a> = (&'a [u8], &'a [u64], &'a [u64]);

/// How a command is to end.
#[derive(Clone, Copy)]
pub enum End {
    Done,
    Usage,
    ConfigRead,
    /// The number of the fault, and its key.
    ConfigFault(u8, &'static str),
    ScriptRead,
    TooLong(Input),
    /// The line and the cause.
    BadLine(u32, u8),
    WriteFault,
    /// The line.
    BadRecord(u64),
    NotARun,
}

fn ends_so(status: &Status, end: End) -> bool {
    match (status, end) {
        (Status::Done, End::Done)
        | (Status::Usage, End::Usage)
        | (Status::ConfigRead, End::ConfigRead)
        | (Status::ScriptRead, End::ScriptRead)
        | (Status::WriteFault, End::WriteFault)
        | (Status::NotARun, End::NotARun) => true,
        (Status::ConfigFault { number, key }, End::ConfigFault(fault, at)) => {
            *number == fault && key.slice() == at.as_bytes()
        }
        (Status::TooLong(input), End::TooLong(which)) => *input == which,
        (Status::BadLine { line, cause }, End::BadLine(at, least)) => {
            *line == at && *cause == least
        }
        (Status::BadRecord(line), End::BadRecord(at)) => *line == at,
        _ => false,
    }
}

/// Whether these octets are one of those.
pub fn is_among(octets: &[u8], those: &[&[u8]]) -> bool {
    for one in those {
        if octets == *one {
            return true;
        }
    }
    false
}

// What a command is run on. A read gives seven octets at most, and a write takes five.
#[derive(Drop)]
struct Stage {
    words: Vec<String>,
    shelf: MemoryShelf,
    input: MemorySource,
    out: MemorySink,
}

/// The words as texts.
pub fn words_of(alloc: Global, words: &[&str]) -> Option<Vec<String>> {
    let mut texts = Vec::new(alloc);
    for word in words {
        texts.push(String::from_str(alloc, word).ok()?).ok()?;
    }
    Some(texts)
}

fn file_of(alloc: Global, name: &[u8], octets: &[u8]) -> Option<(Octets, Octets)> {
    let name = Octets::of(alloc, name).ok()?;
    Some((name, Octets::of(alloc, octets).ok()?))
}

fn shelf_of(alloc: Global, (files, fails): Files<'_>) -> Option<MemoryShelf> {
    let mut all = Vec::new(alloc);
    for (name, octets) in files {
        all.push(file_of(alloc, name, octets)?).ok()?;
    }
    Some(MemoryShelf::new(all, Vec::from_slice(alloc, fails).ok()?))
}

/// The source of these octets, of which reads with these numbers fail, and give at most so many.
pub fn source_of(alloc: Global, octets: &[u8], fails: &[u64], most: u32) -> Option<MemorySource>
    requires { 0 < most }
{
    let fails = Vec::from_slice(alloc, fails).ok()?;
    Some(MemorySource::new(Octets::of(alloc, octets).ok()?, fails, most))
}

/// A sink of which writes with these numbers fail or take nothing, and take at most so many octets.
pub fn sink_of(alloc: Global, fails: &[u64], idle: &[u64], most: u32) -> Option<MemorySink>
    requires { 0 < most }
{
    let fails = Vec::from_slice(alloc, fails).ok()?;
    Some(MemorySink::new(alloc, fails, Vec::from_slice(alloc, idle).ok()?, most))
}

fn set_up(
    alloc: Global,
    words: &[&str],
    files: Files<'_>,
    (octets, fails, idle): Script<'_>,
) -> Option<Stage> {
    let out = sink_of(alloc, &[], idle, 5)?;
    let input = source_of(alloc, octets, fails, 7)?;
    let shelf = shelf_of(alloc, files)?;
    let words = words_of(alloc, words)?;
    Some(Stage {
        words,
        shelf,
        input,
        out,
    })
}

/// The history, and by server the lives that ended.
pub type Ran<L> = (Vec<Event>, Vec<Vec<EndedLife<L>>>);

/// The history and the lives of a command of these words, with these files, this script, this yard and this gate, where
/// it ends so and has written one of these.
pub fn run_of<R: Runtime, Y: Yard, G: Gate>(
    rt: &R,
    words: &[&str],
    files: Files<'_>,
    script: Script<'_>,
    yard: &mut Y,
    gate: &G,
    want: (End, &[&[u8]]),
) -> Option<Ran<Y::Line>>
where
    Y::Line: Drop,
    Y::Start: Drop,
{
    let mut stage = set_up(rt.alloc(), words, files, script)?;
    let Outcome {
        status,
        homes: _,
        history,
        lives,
        cut: _,
        starters: _,
    } = run(
        rt,
        rt.alloc(),
        stage.words.as_slice(),
        &mut stage.shelf,
        &mut stage.input,
        &mut stage.out,
        yard,
        gate,
    );
    let as_wanted = ends_so(&status, want.0) && is_among(stage.out.taken(), want.1);
    as_wanted.then_some((history, lives))
}

/// Whether such a command, with no gate, ends so and has written that.
pub fn runs<R: Runtime, Y: Yard>(
    rt: &R,
    words: &[&str],
    files: Files<'_>,
    script: Script<'_>,
    yard: &mut Y,
    want: (End, &[u8]),
) -> bool
where
    Y::Line: Drop,
    Y::Start: Drop,
{
    run_of(
        rt,
        words,
        files,
        script,
        yard,
        &OpenGate,
        (want.0, &[want.1]),
    )
    .is_some()
}

/// What such a command, with no gate, has written, where it ends so.
pub fn written_by<R: Runtime, Y: Yard>(
    rt: &R,
    words: &[&str],
    files: Files<'_>,
    script: Script<'_>,
    yard: &mut Y,
    end: End,
) -> Option<Vec<u8>>
where
    Y::Line: Drop,
    Y::Start: Drop,
{
    let mut stage = set_up(rt.alloc(), words, files, script)?;
    let Outcome {
        status,
        homes: _,
        history: _,
        lives: _,
        cut: _,
        starters: _,
    } = run(
        rt,
        rt.alloc(),
        stage.words.as_slice(),
        &mut stage.shelf,
        &mut stage.input,
        &mut stage.out,
        yard,
        &OpenGate,
    );
    if !ends_so(&status, end) {
        return None;
    }
    Vec::from_slice(rt.alloc(), stage.out.taken()).ok()
}
