// The work of a server's program: it reads frames and writes what it says to them.
ghost use Rattle.std.specs.Prelude.{◌≡◌, ◌≤◌, ◌<◌, ◌^◌, [], length, false, IfOk, IfErr, OnOk};
ghost use Rattle.std.specs.List.{All};
ghost use Rattle.xa_frame.specs.Spelling.{all_spelled, HasSpelling};
ghost use Rattle.xa_frame.specs.Stream.{IsPartial};
ghost use Rattle.xa_link.specs.Told.{Grew, GrewByPart};
ghost use Rattle.xa_child.specs.Child.{begun, greeting};
ghost use Rattle.xa_child.specs.Work.{Worked, Counts};
ghost use Rattle.xa_child.specs.Turns.{Hears, Turns, AtEnd, Unanswered, behind};
ghost use Rattle.xa_child.specs.declared.working.WorkRefused.TheVariants as refusals;

use crate::child::Child;
use crate::serving::{Halt, Serving, spell};
use std::alloc::Global;
use xa_frame::{Frame, Reader};
use xa_link::{Sink, Source, put};
use xa_types::{Name, NoMemory};

/// How many octets one read asks for.
const PIECE: usize = 8192;

/// How the work of a server's program ended otherwise than well.
#[derive(Clone, Copy)]
pub enum WorkRefused {
    /// Its input failed.
    ReadFault,
    /// Its output failed.
    WriteFault,
    /// Its input is no frame, or no frame that it admits, at this place.
    BadFrame(u64),
    /// Memory ran out.
    NoMemory,
}

impl From<NoMemory> for WorkRefused {
    ghost from_gives = { λ _ e. e ≡ refusals.NoMemory };

    fn from(_: NoMemory) -> Self {
        WorkRefused::NoMemory
    }
}

/// The work of the server's program of that name. It says READY and NEXT, and then answers each frame that it reads,
/// until SHUTDOWN comes, the routine DIE or EXIT runs, or its input ends where a frame does. `BadFrame` has the place of what
/// is no frame or none that it admits, and of a frame within which the input ends. Of 2^64 - 1 reads that leave it
/// waiting it makes no further one, and answers `NoMemory`.
pub fn work<I: Source, O: Sink>(
    alloc: Global,
    name: &Name,
    input: &mut I,
    out: &mut O,
) -> Result<(), WorkRefused>
    ensures worked { Worked name.now (I.shows input.old).left (I.shows input.new).left (I.shows input.old).gave (I.shows input.new).gave (O.shows out.old).took (O.shows out.new).took result }
    ensures counts { Counts result (I.shows input.old).faults (I.shows input.new).faults (O.shows out.old).faults (O.shows out.new).faults }
{
    let mut serving = greet(alloc, name, out)?;
    let mut piece = [0u8; PIECE];
    for _ in 0..u64::MAX {
        if !turn(&mut serving, &mut piece, input, out)? {
            return Ok(());
        }
    }
    Err(WorkRefused::NoMemory)
}

// The program as it begins, after it has written what it says first.
fn greet<O: Sink>(alloc: Global, name: &Name, out: &mut O) -> Result<Serving, WorkRefused>
    ensures child { IfOk result (λ s. s.child ≡ begun) }
    ensures reader { IfOk result (λ s. s.reader ≡ record { place = 0; rest = [] }) }
    ensures whole { OnOk result (Grew (O.shows out.old).took (O.shows out.new).took (all_spelled (greeting name.now))) }
    ensures part { result ≡ Err WorkRefused.WriteFault → GrewByPart (O.shows out.old).took (O.shows out.new).took (all_spelled (greeting name.now)) }
    ensures starved { result ≡ Err WorkRefused.NoMemory → (O.shows out.new).took ≡ (O.shows out.old).took }
    ensures counts { Counts result 0 0 (O.shows out.old).faults (O.shows out.new).faults }
    ensures causes { IfErr result Unanswered }
{
    // By its clause `named`, READY has a spelling.
    let _ = name.octets();
    let (child, frames) = Child::start(alloc, name)?;
    let said = say(alloc, frames.as_slice(), out);
    drop(frames);
    said?;
    Ok(Serving {
        alloc,
        child,
        reader: Reader::new(alloc),
    })
}

fn say<O: Sink>(alloc: Global, frames: &[Frame], out: &mut O) -> Result<(), WorkRefused>
    requires { All HasSpelling frames.now }
    ensures whole { OnOk result (Grew (O.shows out.old).took (O.shows out.new).took (all_spelled frames.now)) }
    ensures part { result ≡ Err WorkRefused.WriteFault → GrewByPart (O.shows out.old).took (O.shows out.new).took (all_spelled frames.now) }
    ensures starved { result ≡ Err WorkRefused.NoMemory → (O.shows out.new).took ≡ (O.shows out.old).took }
    ensures counts { Counts result 0 0 (O.shows out.old).faults (O.shows out.new).faults }
    ensures causes { IfErr result Unanswered }
{
    let mut due = Vec::new(alloc);
    spell(frames, &mut due)?;
    put(out, due.as_slice()).map_err(|_| WorkRefused::WriteFault)
}

// One read, and what is said to the frames that are whole then. Answers whether the program goes on.
fn turn<I: Source, O: Sink>(
    serving: &mut Serving,
    piece: &mut [u8],
    input: &mut I,
    out: &mut O,
) -> Result<bool, WorkRefused>
    requires going { serving.old.child.ended ≡ false }
    requires partial { IsPartial serving.old.reader.rest }
    requires asks { 0 < length piece.old }
    requires most { length piece.old ≤ 8192 }
    ensures turns { Turns serving.old serving.new (I.shows input.old).left (I.shows input.new).left (I.shows input.old).gave (I.shows input.new).gave (O.shows out.old).took (O.shows out.new).took result }
    ensures counts { Counts result (I.shows input.old).faults (I.shows input.new).faults (O.shows out.old).faults (O.shows out.new).faults }
{
    let Ok(n) = input.read(piece) else {
        return Err(WorkRefused::ReadFault);
    };
    if n == 0 {
        return end(serving);
    }
    hear(serving, &piece[..n], out)
}

// What the end of the input comes to.
fn end(serving: &Serving) -> Result<bool, WorkRefused>
    requires going { serving.now.child.ended ≡ false }
    requires partial { IsPartial serving.now.reader.rest }
    ensures comes { AtEnd serving.now result }
    ensures place { serving.now.reader.place < 2 ^ 64 }
{
    let place = serving.reader.place();
    if serving.reader.pending() > 0 {
        return Err(WorkRefused::BadFrame(place));
    }
    Ok(false)
}

// What comes to it next, and what it says to that.
fn hear<O: Sink>(serving: &mut Serving, octets: &[u8], out: &mut O) -> Result<bool, WorkRefused>
    requires going { serving.old.child.ended ≡ false }
    requires partial { IsPartial serving.old.reader.rest }
    requires most { length octets.now ≤ 8192 }
    ensures hears { Hears serving.old serving.new octets.now (O.shows out.old).took (O.shows out.new).took ⊥ result }
    ensures counts { Counts result 0 0 (O.shows out.old).faults (O.shows out.new).faults }
{
    serving.reader.feed(octets)?;
    let (halt, due) = serving.take_all()?;
    if put(out, due.as_slice()).is_err() {
        return Err(WorkRefused::WriteFault);
    }
    behind(halt)
}

// What the program comes to where no further frame is taken: whether it goes on, or how it ends.
pub(crate) fn behind(halt: Halt) -> Result<bool, WorkRefused>
    ensures { result ≡ behind halt }
{
    match halt {
        Halt::Waits => Ok(true),
        Halt::Ended => Ok(false),
        Halt::Bad(place) => Err(WorkRefused::BadFrame(place)),
    }
}
