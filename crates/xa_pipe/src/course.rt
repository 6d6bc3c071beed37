// How a life goes, step by step.
ghost use Rattle.std.specs.Prelude.{◌≡◌, ◌++◌, ◌∷◌, [], ◌+◌, ◌%◌, ◌^◌, ℕ, List, IfOk, IfErr, OnOk, true, false};
ghost use Rattle.xa_link.specs.Told.{Grew, GrewByPart};
ghost use Rattle.xa_frame.specs.Spelling.{HasSpelling, spelled, kind_octet};
ghost use Rattle.xa_pipe.specs.Life.{MaySay, awaiting, is_reading, turn_behind};
ghost use Rattle.xa_pipe.specs.Pipe.{HasRead, Ceases, CountsReads, shown};
ghost use Rattle.xa_pipe.specs.Changes.{turn_after};
ghost use Rattle.xa_pipe.specs.Ended.{pipes_show, are_killed, are_open};
ghost use Rattle.xa_pipe.specs.Standing.{IsSound, IsOver, cut_short, is_killed, is_open};
ghost use Rattle.xa_pipe.specs.Kept.{standing_of, ending_of, left_by, tag_behind};

use crate::hearing::{is_act, is_finish, is_next, is_ready, out_of_turn};
use crate::noted::{Asked, Said};
use crate::over::{CutLife, EndedLife, Pipes};
use crate::pipe::Pipe;
use crate::turn::{Turn, Written};
use xa_events::StopCause;
use xa_frame::{Body, Frame};
use xa_link::Link;
use xa_types::{Generation, Name, Rval, ServerId};

/// What a life has.
pub struct Course<L: Link> {
    pub name: Name,
    pub server: ServerId,
    pub generation: Generation,
    pub pipe: Pipe<L>,
    pub asked: Asked,
    pub said: Said,
    pub turn: Turn,
    // The number of the INVOKE in hand, or else of the next one.
    pub tag: u32,
}

// Whether the program may say that frame in that turn.
fn may_say(frame: &Frame, name: &Name, tag: u32, turn: Turn) -> bool
    ensures yes { result ≡ true → MaySay name.now tag turn frame.now }
    ensures no { result ≡ false → MaySay name.now tag turn frame.now → ⊥ }
{
    match turn {
        Turn::AwaitsReady => is_ready(frame, name),
        Turn::AwaitsNext => is_next(frame),
        Turn::Serving => is_act(frame, tag),
        Turn::Finishing => is_finish(frame, tag),
        Turn::AwaitsInvoke | Turn::Performing | Turn::Exited => false,
    }
}

// What comes next behind a RETURN.
fn turn_behind(value: Rval) -> Turn
    ensures { result ≡ turn_behind value }
{
    match value {
        Rval::Success | Rval::Fail => Turn::AwaitsNext,
        Rval::Exit => Turn::Exited,
    }
}

// What comes next behind what the program said.
fn turn_after(turn: Turn, body: &Body) -> Turn
    ensures { result ≡ turn_after turn body.now }
{
    match (turn, body) {
        (Turn::AwaitsReady, _) => Turn::AwaitsNext,
        (Turn::AwaitsNext, _) => Turn::AwaitsInvoke,
        (Turn::Serving | Turn::Finishing, Body::Return(value, _, _)) => turn_behind(*value),
        (Turn::Serving | Turn::Finishing, Body::Forward(..)) => Turn::AwaitsNext,
        (Turn::Serving, Body::Op(_)) => Turn::Performing,
        (turn, _) => turn,
    }
}

// The number of the next INVOKE behind what the program said.
fn tag_after(body: &Body, tag: u32) -> u32
    ensures { result ≡ tag_behind body.now tag }
{
    match body {
        Body::Return(..) | Body::Forward(..) => tag.wrapping_add(1),
        _ => tag,
    }
}

impl<L: Link> Course<L> {
    /// Reads a frame that the program may say now, or says why the life ends.
    pub fn read(&mut self) -> Result<Frame, StopCause>
        requires { is_reading self.old.turn ≡ true }
        ensures same { self.new ≡ record self.old { pipe = self.new.pipe } }
        ensures may { IfOk result (λ f. MaySay self.old.name self.old.tag self.old.turn f × HasSpelling f) }
        ensures read { IfOk result (λ f. HasRead self.old.pipe self.old.said → HasRead self.new.pipe (self.old.said ++ f ∷ [])) }
        ensures beside { (self.new.pipe.took ≡ self.old.pipe.took) × (self.new.pipe.writes ≡ self.old.pipe.writes) × (self.new.pipe.program ≡ self.old.pipe.program) }
        ensures well { OnOk result (self.new.pipe.reads ≡ self.old.pipe.reads) }
        ensures why { IfErr result (λ cause. HasRead self.old.pipe self.old.said → Ceases (awaiting self.old.name self.old.tag self.old.said self.old.turn) self.new.pipe cause) }
        ensures counts { IfErr result (λ cause. CountsReads cause self.old.pipe.reads self.new.pipe.reads) }
    {
        let frame = self.pipe.read()?;
        if may_say(&frame, &self.name, self.tag, self.turn) {
            return Ok(frame);
        }
        let cause = out_of_turn(&frame);
        drop(frame);
        Err(cause)
    }

    /// The program said that frame.
    pub fn note(&mut self, frame: &Frame)
        ensures { self.new ≡ record self.old { said = self.old.said ++ frame.now ∷ []; turn = turn_after self.old.turn frame.now.body; tag = tag_behind frame.now.body self.old.tag } }
    {
        self.said.note(frame);
        self.tag = tag_after(&frame.body, self.tag);
        self.turn = turn_after(self.turn, &frame.body);
    }

    /// The monitor goes on with it no more: its program is ended by force, in whichever turn.
    pub fn cut(self) -> CutLife<L>
        requires { IsSound (standing_of self) }
        ensures { result ≡ cut_short (standing_of self) }
    {
        let Course {
            name,
            server,
            generation,
            pipe,
            asked,
            said,
            turn,
            tag: _,
        } = self;
        CutLife {
            name,
            server,
            generation,
            killed: pipe.kill(),
            asked,
            said,
            turn,
        }
    }

    /// The life ends by that cause: its program is ended by force, but behind SHUTDOWN and TPEXIT, where it ends by itself.
    /// Its pipes are closed, but behind SHUTDOWN.
    pub fn end(self, cause: StopCause, written: Written) -> EndedLife<L>
        requires { IsOver (ending_of self cause written) }
        ensures { result ≡ ending_of self cause written }
    {
        let Course {
            name,
            server,
            generation,
            pipe,
            asked,
            said,
            turn,
            tag: _,
        } = self;
        let pipes = close(pipe, cause);
        EndedLife {
            name,
            server,
            generation,
            pipes,
            asked,
            said,
            turn,
            cause,
            written,
        }
    }
}

// What is left of the pipes of a life that ends so.
fn close<L: Link>(pipe: Pipe<L>, cause: StopCause) -> Pipes<L>
    ensures killed { are_killed result ≡ is_killed cause }
    ensures left_open { are_open result ≡ is_open cause }
    ensures shows { pipes_show L.Link.shows result ≡ left_by cause (shown pipe) }
{
    match cause {
        StopCause::Shutdown => Pipes::Open(pipe.into_link()),
        StopCause::Exit => Pipes::Closed(pipe.close()),
        _ => Pipes::Killed(pipe.kill()),
    }
}
