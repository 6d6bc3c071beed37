// What the monitor hears of the program of a server.
ghost use Rattle.std.specs.Prelude.{◌≡◌, ◌++◌, ◌∷◌, [], ℕ, List, IfOk, IfErr, OnOk, true, false};
ghost use Rattle.xa_frame.specs.declared.frame.Frame.{Frame};
ghost use Rattle.xa_frame.specs.Spelling.{HasSpelling, kind_octet};
ghost use Rattle.xa_pipe.specs.Frames.{ready_frame, next_frame, act_frame, may_call};
ghost use Rattle.xa_events.specs.declared.event.StopCause.TheVariants.{OutOfTurn};
ghost use Rattle.xa_pipe.specs.Life.{MaySay, awaiting};
ghost use Rattle.xa_pipe.specs.declared.turn.Turn.TheVariants.{AwaitsReady, AwaitsNext, Serving, Finishing};
ghost use Rattle.xa_pipe.specs.Pipe.{HasRead, Ceases, CutOff, CountsReads};

use crate::pipe::Pipe;
use xa_events::StopCause;
use xa_frame::{Body, Frame, kind_octet};
use xa_link::Link;
use xa_types::{Data, Name, Octets, Op, Rval};

/// What a service returned: how, with which code, and with which data.
#[derive(Drop)]
pub struct Return {
    pub value: Rval,
    pub code: i32,
    pub payload: Data,
}

/// To which service, as its name was written, a service forwarded its request, and with which data.
#[derive(Drop)]
pub struct Forward {
    pub service: Octets,
    pub payload: Data,
}

/// How a service is done with its request.
#[derive(Drop)]
pub enum Finish {
    Returns(Return),
    Forwards(Forward),
}

/// How a service goes on with its request: it makes a call, or is done.
#[derive(Drop)]
pub enum Act {
    Calls(Op),
    Ends(Finish),
}

pub(crate) fn out_of_turn(frame: &Frame) -> StopCause
    ensures { result ≡ OutOfTurn (kind_octet frame.now.body) frame.now.tag }
{
    StopCause::OutOfTurn(kind_octet(&frame.body), frame.tag)
}

pub(crate) fn is_ready(frame: &Frame, server: &Name) -> bool
    ensures yes { result ≡ true → frame.now ≡ ready_frame server.now }
    ensures no { result ≡ false → frame.now ≡ ready_frame server.now → ⊥ }
{
    match &frame.body {
        Body::Ready(name) => frame.tag == 0 && name.octets() == server.octets(),
        _ => false,
    }
}

pub(crate) fn is_next(frame: &Frame) -> bool
    ensures yes { result ≡ true → frame.now ≡ next_frame }
    ensures no { result ≡ false → frame.now ≡ next_frame → ⊥ }
{
    match &frame.body {
        Body::Next => frame.tag == 0,
        _ => false,
    }
}

// Whether the frame is the RETURN or the FORWARD of that invocation.
pub(crate) fn is_finish(frame: &Frame, number: u32) -> bool
    ensures yes { result ≡ true → MaySay [] number Finishing frame.now }
    ensures no { result ≡ false → MaySay [] number Finishing frame.now → ⊥ }
{
    match &frame.body {
        Body::Return(..) | Body::Forward(..) => frame.tag == number,
        _ => false,
    }
}

/// Whether a service may make the call: a tpcall, one that sets the priority of its next request, a change of the board, or a
/// tick, which is refused to it.
pub fn may_call(op: &Op) -> bool
    ensures { result ≡ may_call op.now }
{
    matches!(
        op,
        Op::Call(_) | Op::Priority(..) | Op::Advertise(..) | Op::Unadvertise(_) | Op::Tick(_)
    )
}

// Whether it is that, or an OP of that invocation by which a service may make a call.
pub(crate) fn is_act(frame: &Frame, number: u32) -> bool
    ensures yes { result ≡ true → MaySay [] number Serving frame.now }
    ensures no { result ≡ false → MaySay [] number Serving frame.now → ⊥ }
{
    match &frame.body {
        Body::Op(op) => frame.tag == number && may_call(op),
        Body::Return(..) | Body::Forward(..) => frame.tag == number,
        _ => false,
    }
}

// Whether the frame is READY with that name; else it is out of turn.
fn ready_in(frame: &Frame, server: &Name) -> Result<(), StopCause>
    ensures yes { OnOk result (frame.now ≡ ready_frame server.now) }
    ensures no { IfErr result (λ cause. (cause ≡ OutOfTurn (kind_octet frame.now.body) frame.now.tag) × (frame.now ≡ ready_frame server.now → ⊥)) }
{
    if is_ready(frame, server) {
        Ok(())
    } else {
        Err(out_of_turn(frame))
    }
}

// Whether the frame is NEXT; else it is out of turn.
fn next_in(frame: &Frame) -> Result<(), StopCause>
    ensures yes { OnOk result (frame.now ≡ next_frame) }
    ensures no { IfErr result (λ cause. (cause ≡ OutOfTurn (kind_octet frame.now.body) frame.now.tag) × (frame.now ≡ next_frame → ⊥)) }
{
    if is_next(frame) {
        Ok(())
    } else {
        Err(out_of_turn(frame))
    }
}

// How a service goes on by an OP, a RETURN or a FORWARD.
pub(crate) fn acted(frame: Frame) -> Act
    requires { MaySay [] frame.tag Serving frame }
    ensures { frame ≡ act_frame frame.tag result }
{
    let Frame { tag: _, body } = frame;
    match body {
        Body::Op(op) => Act::Calls(op),
        Body::Return(value, code, payload) => Act::Ends(Finish::Returns(Return {
            value,
            code,
            payload,
        })),
        Body::Forward(service, payload) => {
            Act::Ends(Finish::Forwards(Forward { service, payload }))
        }
        _ => unreachable!(),
    }
}

// How a service goes on with that invocation, where the frame is an OP that it may make, a RETURN or a FORWARD of it;
// else it is out of turn.
fn act_in(frame: Frame, number: u32) -> Result<Act, StopCause>
    ensures yes { IfOk result (λ act. frame ≡ act_frame number act) }
    ensures no { IfErr result (λ cause. (cause ≡ OutOfTurn (kind_octet frame.body) frame.tag)
        × ((name : List ℕ) → MaySay name number Serving frame → ⊥)) }
{
    if is_act(&frame, number) {
        return Ok(acted(frame));
    }
    let cause = out_of_turn(&frame);
    drop(frame);
    Err(cause)
}

impl<L: Link> Pipe<L> {
    fn read_ready(&mut self, server: &Name) -> Result<(), StopCause>
        ensures read { OnOk result ((frames : List Frame) → HasRead self.old frames → HasRead self.new (frames ++ ready_frame server.now ∷ [])) }
        ensures spelling { OnOk result (HasSpelling (ready_frame server.now)) }
        ensures took { self.new.took ≡ self.old.took }
        ensures writes { self.new.writes ≡ self.old.writes }
        ensures program { self.new.program ≡ self.old.program }
        ensures well { OnOk result (self.new.reads ≡ self.old.reads) }
        ensures why { IfErr result (λ cause. (tag : ℕ) (frames : List Frame) → HasRead self.old frames → Ceases (awaiting server.now tag frames AwaitsReady) self.new cause) }
        ensures counts { IfErr result (λ cause. CountsReads cause self.old.reads self.new.reads) }
    {
        let frame = self.read()?;
        let ready = ready_in(&frame, server);
        drop(frame);
        ready
    }

    /// Reads READY with that server's name, and NEXT. Else it answers why the life ended: EndOfInput, ReadFault,
    /// BadBytes, OutOfTurn, or Starved, where memory ran out and octets stood there. Nothing shows that memory had
    /// really run out.
    pub fn greet(&mut self, server: &Name) -> Result<(), StopCause>
        ensures read { OnOk result (HasRead self.old [] → HasRead self.new (ready_frame server.now ∷ next_frame ∷ [])) }
        ensures spelling { OnOk result (HasSpelling (ready_frame server.now)) }
        ensures took { self.new.took ≡ self.old.took }
        ensures writes { self.new.writes ≡ self.old.writes }
        ensures program { self.new.program ≡ self.old.program }
        ensures well { OnOk result (self.new.reads ≡ self.old.reads) }
        ensures why { IfErr result (λ cause. HasRead self.old [] → CutOff server.now self.new cause) }
        ensures counts { IfErr result (λ cause. CountsReads cause self.old.reads self.new.reads) }
    {
        self.read_ready(server)?;
        self.read_next()
    }

    /// Reads NEXT. Else it answers why the life ended, as `greet` does.
    pub fn read_next(&mut self) -> Result<(), StopCause>
        ensures read { OnOk result ((frames : List Frame) → HasRead self.old frames → HasRead self.new (frames ++ next_frame ∷ [])) }
        ensures took { self.new.took ≡ self.old.took }
        ensures writes { self.new.writes ≡ self.old.writes }
        ensures program { self.new.program ≡ self.old.program }
        ensures well { OnOk result (self.new.reads ≡ self.old.reads) }
        ensures why { IfErr result (λ cause. (name : List ℕ) (tag : ℕ) (frames : List Frame) → HasRead self.old frames → Ceases (awaiting name tag frames AwaitsNext) self.new cause) }
        ensures counts { IfErr result (λ cause. CountsReads cause self.old.reads self.new.reads) }
    {
        let frame = self.read()?;
        let next = next_in(&frame);
        drop(frame);
        next
    }

    /// Reads the OP, the RETURN or the FORWARD of that invocation. Else it answers why the life ended, as `greet` does.
    pub fn hear(&mut self, number: u32) -> Result<Act, StopCause>
        ensures read { IfOk result (λ act. (frames : List Frame) → HasRead self.old frames
            → HasRead self.new (frames ++ act_frame number act ∷ [])) }
        ensures spelling { IfOk result (λ act. HasSpelling (act_frame number act)) }
        ensures took { self.new.took ≡ self.old.took }
        ensures writes { self.new.writes ≡ self.old.writes }
        ensures program { self.new.program ≡ self.old.program }
        ensures well { OnOk result (self.new.reads ≡ self.old.reads) }
        ensures why { IfErr result (λ cause. (name : List ℕ) (frames : List Frame) → HasRead self.old frames → Ceases (awaiting name number frames Serving) self.new cause) }
        ensures counts { IfErr result (λ cause. CountsReads cause self.old.reads self.new.reads) }
    {
        let frame = self.read()?;
        act_in(frame, number)
    }
}
