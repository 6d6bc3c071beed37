// A server's program with its input, from which it takes the frames that are whole.
ghost use Rattle.std.specs.Prelude.{◌≡◌, ◌<◌, ◌^◌, ◌++◌, IfOk, OnOk};
ghost use Rattle.std.specs.List.{All};
ghost use Rattle.xa_frame.specs.Spelling.{all_spelled, spelled, HasSpelling};
ghost use Rattle.xa_child.specs.Child.{followed};
ghost use Rattle.xa_child.specs.Said.{frame_of, all_said};
ghost use Rattle.xa_child.specs.Serving.{StepsTo, TakesUpTo, Answers};

use crate::child::{Child, Said, Turned, next};
use crate::routines::Outcome;
use std::alloc::Global;
use xa_frame::{Frame, NextRefused, Reader, append, append_return};
use xa_types::{Data, NoMemory};

// How many octets the answers to one piece seldom pass.
const MOST_ANSWERS: usize = 512;

/// A program, and what it has read and not taken.
#[derive(Drop)]
pub struct Serving {
    pub alloc: Global,
    pub child: Child,
    pub reader: Reader,
}

/// Why no further frame is taken.
#[derive(Clone, Copy)]
pub enum Halt {
    /// More octets are to come.
    Waits,
    /// The program has ended.
    Ended,
    /// What stands at this place is no frame, or none that the program admits.
    Bad(u64),
}

/// Adds the octets of these frames.
pub fn spell(frames: &[Frame], due: &mut Vec<u8>) -> Result<(), NoMemory>
    requires { All HasSpelling frames.now }
    ensures { OnOk result (due.new.items ≡ due.old.items ++ all_spelled frames.now) }
{
    for frame in frames {
        append(due, frame)?;
    }
    Ok(())
}

// Adds what is said to an INVOKE.
fn spell_said(said: Said, due: &mut Vec<u8>) -> Result<(), NoMemory>
    requires { HasSpelling (frame_of said) }
    ensures { OnOk result (due.new.items ≡ due.old.items ++ spelled (frame_of said.entry)) }
{
    let tag = said.tag;
    match said.outcome {
        Outcome::Returned(value, code, Some(payload)) => {
            append_return(due, tag, value, code, payload)
        }
        Outcome::Returned(value, code, None) => {
            append_return(due, tag, value, code, &Data::Absent)
        }
        Outcome::Made(body) => append(due, &Frame { tag, body }),
    }
}

// Adds what follows it: NEXT, unless it was the last.
#[tactic(auto, using(crate::proofs::Frames::spelled_next))]
fn spell_followed(last: bool, due: &mut Vec<u8>) -> Result<(), NoMemory>
    ensures { OnOk result (due.new.items ≡ due.old.items ++ all_spelled (followed last)) }
{
    if last {
        return Ok(());
    }
    append(due, &next())
}

// Adds what is said to a frame.
fn spell_all_said(said: Option<Said<'_>>, due: &mut Vec<u8>) -> Result<(), NoMemory>
    requires { All HasSpelling (all_said said) }
    ensures { OnOk result (due.new.items ≡ due.old.items ++ all_spelled (all_said said.entry)) }
{
    let Some(said) = said else {
        return Ok(());
    };
    let last = said.last;
    spell_said(said, due)?;
    spell_followed(last, due)
}

impl Serving {
    /// Takes the frames that are whole, and gives what is said to them.
    pub fn take_all(&mut self) -> Result<(Halt, Vec<u8>), NoMemory>
        ensures { IfOk result (λ taken. TakesUpTo self.old self.new taken.1.items taken.0) }
    {
        let mut due = Vec::with_capacity(self.alloc, MOST_ANSWERS)?;
        loop {
            match self.take_one(&mut due)? {
                Some(halt) => return Ok((halt, due)),
                None => (),
            }
        }
    }

    // The next frame, or why there is none.
    fn take_one(&mut self, due: &mut Vec<u8>) -> Result<Option<Halt>, NoMemory>
        ensures step { IfOk result (λ turn. StepsTo self.old self.new due.old.items due.new.items turn) }
        ensures place { self.old.reader.place < 2 ^ 64 }
    {
        let place = self.reader.place();
        if self.child.has_ended() {
            return Ok(Some(Halt::Ended));
        }
        match self.reader.next() {
            Ok(None) => Ok(Some(Halt::Waits)),
            Ok(Some(frame)) => self.answer(place, &frame, due),
            Err(NextRefused::BadFrame(place)) => Ok(Some(Halt::Bad(place))),
            Err(NextRefused::NoMemory) => Err(NoMemory),
        }
    }

    // Steps the program by a frame that stood at that place.
    fn answer(
        &mut self,
        place: u64,
        frame: &Frame,
        due: &mut Vec<u8>,
    ) -> Result<Option<Halt>, NoMemory>
        requires { HasSpelling frame.now }
        ensures said { IfOk result (λ turn. Answers self.old.child self.new.child due.old.items due.new.items place frame.now turn) }
        ensures same { self.new.reader ≡ self.old.reader }
    {
        if !self.child.admits(frame) {
            return Ok(Some(Halt::Bad(place)));
        }
        let Turned { said, doing } = self.child.turn(self.alloc, frame)?;
        spell_all_said(said, due)?;
        self.child.note(frame, doing);
        Ok(None)
    }
}
