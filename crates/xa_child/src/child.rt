// A server's program, frame by frame.
ghost use Rattle.std.specs.Prelude.{◌≡◌, ◌↔◌, ◌∷◌, [], true, false, option_map, IfOk, IfSome, OnOk, OnErr, IsErrOf};
ghost use Rattle.xa_child.specs.Calling.{IsSmall};
ghost use Rattle.xa_child.specs.Child.{begun, following, followed, greeting, admits, answer, after, invoked, deed_by, exits, doing_of, answer_of, ends, next};
ghost use Rattle.xa_child.specs.Said.{frame_of, deed_of, all_said};
ghost use Rattle.xa_child.specs.declared.child.ChildRefused.TheVariants as refusals;

use crate::calling::{Deed, change, chat, done_by, is_calling, may_tell, relay, told};
use crate::doing::Doing;
use crate::routines::{Outcome, body_of, is, is_die, is_exit, said_by};
use std::alloc::Global;
use std::marker::Model;
use xa_frame::{Body, Frame};
use xa_types::{Data, Mode, Name, NoMemory};

/// One life of a server's program: how many INVOKEs it took, what it waits for, and whether it has ended.
#[derive(Drop)]
pub struct Child {
    invocations: u32,
    doing: Doing,
    ended: bool,
}

impl Model for Child {
    ghost use Rattle.xa_child.specs.Calling.{IsSmall};
    ghost use Rattle.xa_child.specs.Child.{ChildState};

    ghost Value = { ChildState };

    ghost view = { λ c. record { invocations = c.invocations; doing = c.doing; ended = c.ended } };

    ghost invariant = { λ c. IsSmall c.doing };
}

/// Why a program takes no frame.
#[derive(Clone, Copy)]
pub enum ChildRefused {
    /// It doesn't admit the frame.
    OutOfTurn,
    NoMemory,
}

impl From<NoMemory> for ChildRefused {
    ghost from_gives = { λ _ e. e ≡ refusals.NoMemory };

    fn from(_: NoMemory) -> Self {
        ChildRefused::NoMemory
    }
}

/// What is said to a frame: its tag, what a routine says, and whether NEXT doesn't follow.
#[derive(Drop)]
pub struct Said<'a> {
    pub tag: u32,
    pub outcome: Outcome<'a>,
    pub last: bool,
}

/// What a frame comes to: what is said to it, and what the program waits for then.
#[derive(Drop)]
pub struct Turned<'a> {
    pub said: Option<Said<'a>>,
    pub doing: Doing,
}

/// The frame behind each RETURN and FORWARD but the last.
pub fn next() -> Frame
    ensures { result ≡ next }
{
    Frame {
        tag: 0,
        body: Body::Next,
    }
}

// How the routine begins.
fn invoked<'a>(
    alloc: Global,
    routine: &Name,
    mode: Mode,
    payload: &'a Data,
) -> Result<Deed<'a>, NoMemory>
    ensures deed { IfOk result (λ deed. deed_of deed ≡ invoked routine.now mode payload.now) }
    ensures small { IfOk result (λ deed. IsSmall deed.doing) }
{
    if is(routine, b"RELAY") {
        return relay(alloc, payload);
    }
    if is(routine, b"ADV") {
        return change(alloc, payload);
    }
    if is(routine, b"CHAT") {
        return chat(alloc, mode, payload);
    }
    Ok(done_by(said_by(alloc, routine, payload)?))
}

// What the program does by a frame that it admits, where it waits so.
fn deed_by<'a>(alloc: Global, doing: &Doing, body: &'a Body) -> Result<Option<Deed<'a>>, NoMemory>
    requires { IsSmall doing.now }
    ensures deed { IfOk result (λ deed. option_map deed_of deed ≡ deed_by doing.now body.now) }
    ensures small { IfOk result (λ deed. IfSome deed (λ deed. IsSmall deed.doing)) }
{
    match body {
        Body::Invoke(_, routine, mode, payload) if !is_die(routine) => {
            Ok(Some(invoked(alloc, routine, *mode, payload)?))
        }
        Body::Reply(reply) => Ok(Some(told(alloc, doing, reply)?)),
        Body::Invoke(..)
        | Body::Ready(_)
        | Body::Next
        | Body::Op(_)
        | Body::Return(..)
        | Body::Forward(..)
        | Body::Shutdown => Ok(None),
    }
}

// Whether the frame ends the program with what is said to it.
fn exits(body: &Body) -> bool
    ensures { result ≡ exits body.now }
{
    match body {
        Body::Invoke(_, routine, ..) => is_exit(routine),
        _ => false,
    }
}

// What that deed says with that tag, where it ends the program or doesn't.
fn turned_by(tag: u32, exits: bool, deed: Option<Deed<'_>>) -> Turned<'_>
    requires { IfSome deed (λ deed. IsSmall deed.doing) }
    ensures said { all_said result.said ≡ answer_of tag exits (option_map deed_of deed.entry) }
    ensures doing { result.doing ≡ doing_of (option_map deed_of deed.entry) }
    ensures small { IsSmall result.doing }
{
    match deed {
        None => Turned {
            said: None,
            doing: Doing::Waits,
        },
        Some(deed) => {
            let Deed { says, doing } = deed;
            let last = exits || is_calling(&doing);
            Turned {
                said: Some(Said {
                    tag,
                    outcome: says,
                    last,
                }),
                doing,
            }
        }
    }
}

// The frames that are said.
fn frames_of(alloc: Global, said: Option<Said<'_>>) -> Result<Vec<Frame>, NoMemory>
    ensures { IfOk result (λ frames. frames.items ≡ all_said said.entry) }
{
    match said {
        Some(said) => {
            let last = said.last;
            followed(alloc, copied(alloc, said)?, last)
        }
        None => Ok(Vec::new(alloc)),
    }
}

// That frame and NEXT.
fn with_next(alloc: Global, frame: Frame) -> Result<Vec<Frame>, NoMemory>
    ensures { IfOk result (λ frames. frames.items ≡ frame ∷ next ∷ []) }
{
    Ok(Vec::from_array(alloc, [frame, next()])?)
}

// That frame and, if it isn't the last, NEXT.
fn followed(alloc: Global, frame: Frame, last: bool) -> Result<Vec<Frame>, NoMemory>
    ensures { IfOk result (λ frames. frames.items ≡ frame ∷ followed last) }
{
    if last {
        return Ok(Vec::from_array(alloc, [frame])?);
    }
    with_next(alloc, frame)
}

// What is said as a frame, with a copy of data that stays where it is.
fn copied(alloc: Global, said: Said) -> Result<Frame, NoMemory>
    ensures { IfOk result (λ frame. frame ≡ frame_of said.entry) }
{
    let Said {
        tag,
        outcome,
        last: _,
    } = said;
    let body = body_of(alloc, outcome)?;
    Ok(Frame { tag, body })
}

impl Child {
    /// The program as it begins, and what it says first: READY with its server's name, and NEXT.
    pub fn start(alloc: Global, name: &Name) -> Result<(Child, Vec<Frame>), NoMemory>
        ensures state { IfOk result (λ started. started.0 ≡ begun) }
        ensures greets { IfOk result (λ started. started.1.items ≡ greeting name.now) }
    {
        let ready = Frame {
            tag: 0,
            body: Body::Ready(*name),
        };
        let frames = with_next(alloc, ready)?;
        let child = Child {
            invocations: 0,
            doing: Doing::Waits,
            ended: false,
        };
        Ok((child, frames))
    }

    /// Whether it has ended. It admits no frame then.
    pub fn has_ended(&self) -> bool
        ensures { result ≡ self.now.ended }
    {
        self.ended
    }

    fn following(&self) -> u32
        ensures { result ≡ following self.now.invocations }
    {
        self.invocations.wrapping_add(1)
    }

    pub(crate) fn admits(&self, frame: &Frame) -> bool
        ensures { result ≡ admits self.now frame.now }
    {
        if self.ended {
            return false;
        }
        match &frame.body {
            Body::Invoke(..) => !is_calling(&self.doing) && frame.tag == self.following(),
            Body::Shutdown => !is_calling(&self.doing) && frame.tag == 0,
            Body::Reply(reply) => frame.tag == self.invocations && may_tell(&self.doing, reply),
            Body::Ready(_) | Body::Next | Body::Op(_) | Body::Return(..) | Body::Forward(..) =>
                false,
        }
    }

    /// What a frame that it admits comes to.
    pub(crate) fn turn<'a>(&self, alloc: Global, frame: &'a Frame) -> Result<Turned<'a>, NoMemory>
        ensures said { IfOk result (λ turned. all_said turned.said ≡ answer self.now frame.now) }
        ensures doing { IfOk result (λ turned. turned.doing ≡ doing_of (deed_by self.now.doing frame.now.body)) }
        ensures small { IfOk result (λ turned. IsSmall turned.doing) }
        ensures kept { IsSmall self.now.doing }
    {
        let deed = deed_by(alloc, &self.doing, &frame.body)?;
        Ok(turned_by(frame.tag, exits(&frame.body), deed))
    }

    /// It took the frame, and waits so now.
    pub(crate) fn note(&mut self, frame: &Frame, doing: Doing)
        requires doing { doing ≡ doing_of (deed_by self.old.doing frame.now.body) }
        requires small { IsSmall doing }
        ensures { self.new ≡ after self.old frame.now }
    {
        if let Body::Invoke(..) = &frame.body {
            self.invocations = self.following();
        }
        self.doing = doing;
        self.ended = ends(&frame.body);
    }
}

// Whether the frame ends the program.
fn ends(body: &Body) -> bool
    ensures { result ≡ ends body.now }
{
    match body {
        Body::Invoke(_, routine, ..) => is_die(routine) || is_exit(routine),
        Body::Shutdown => true,
        _ => false,
    }
}

/// One frame that comes to a server's program, and what it says to it. `OutOfTurn` comes exactly where it doesn't
/// admit the frame. Where it is refused, the state is as it was.
pub fn child_step(
    alloc: Global,
    state: &mut Child,
    frame: &Frame,
) -> Result<Vec<Frame>, ChildRefused>
    ensures admitted { OnOk result (admits state.old frame.now ≡ true) }
    ensures stepped { OnOk result (state.new ≡ after state.old frame.now) }
    ensures says { IfOk result (λ frames. frames.items ≡ answer state.old frame.now) }
    ensures refused { IsErrOf result ChildRefused.OutOfTurn ↔ admits state.old frame.now ≡ false }
    ensures same { OnErr result (state.new ≡ state.old) }
{
    if !state.admits(frame) {
        return Err(ChildRefused::OutOfTurn);
    }
    let Turned { said, doing } = state.turn(alloc, frame)?;
    let frames = frames_of(alloc, said)?;
    state.note(frame, doing);
    Ok(frames)
}
