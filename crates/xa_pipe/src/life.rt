// A life of a server: the monitor's end of it.
ghost use Rattle.std.specs.Prelude.{◌≡◌, IfOk, IfErr, true};
ghost use Rattle.xa_link.specs.Links.{IsFresh};
ghost use Rattle.xa_frame.specs.Spelling.{IsData, IsAnswer, IsReply};
ghost use Rattle.xa_pipe.specs.Frames.{ready_frame, next_frame, act_frame, reply_frame, answer_frame};
ghost use Rattle.xa_pipe.specs.Life.{is_reading, is_acting};
ghost use Rattle.xa_pipe.specs.Standing.{IsSound, cut_short, tag_of};
ghost use Rattle.xa_pipe.specs.Kept.{unwritten};
ghost use Rattle.xa_frame.specs.declared.frame.Frame.{Frame};
ghost use Rattle.xa_pipe.specs.Changes.{begun, Heard, Fell, Greeted, FellGreeting, next_invoke, spent, Invoked, Unsent, Starves, ShutDown, Exits};

use crate::course::Course;
use crate::hearing::{Act, acted};
use crate::noted::{Asked, Said};
use crate::over::{CutLife, EndedLife};
use crate::pipe::Pipe;
use crate::turn::{Turn, Written};
use std::alloc::Global;
use std::marker::Model;
use xa_events::StopCause;
use xa_frame::Frame;
use xa_link::Link;
use xa_types::{Answer, Data, Generation, Name, Reply, ServerId};

/// A life of a server that goes on. A call by which it may end takes it, and gives back the life or what is left of it; so
/// a life that has failed can't be left running.
pub struct Life<L: Link> {
    course: Course<L>,
}

impl<L: Link> Model for Life<L> {
    ghost use Rattle.xa_pipe.specs.Standing.{LifeState};
    ghost use Rattle.xa_pipe.specs.Kept.{standing_of, IsKept};

    ghost Value = { LifeState };

    ghost view = { λ l. standing_of l.course };

    ghost invariant = { λ l. IsKept l.course };
}

/// A life whose service goes on with its request, and how.
pub struct Acted<L: Link> {
    pub life: Life<L>,
    pub act: Act,
}

// A life whose program said something.
struct Spoken<L: Link> {
    life: Life<L>,
    frame: Frame,
}

impl<L: Link> Life<L> {
    /// The life of that generation of the server, by the link that its starter gave.
    pub fn new(
        alloc: Global,
        link: L,
        name: Name,
        server: ServerId,
        generation: Generation,
    ) -> Life<L>
        requires { IsFresh name generation (L.Link.shows link) }
        ensures { result ≡ begun name server generation (L.Link.shows link) }
    {
        Life {
            course: Course {
                name,
                server,
                generation,
                pipe: Pipe::new(alloc, link),
                asked: Asked::new(),
                said: Said::new(),
                turn: Turn::AwaitsReady,
                tag: 1,
            },
        }
    }

    /// Whose turn it is.
    pub fn turn(&self) -> Turn
        ensures value { result ≡ self.now.turn }
        ensures sound { IsSound self.now }
    {
        self.course.turn
    }

    // Reads what the program says in its turn.
    fn listen(self) -> Result<Spoken<L>, EndedLife<L>>
        requires { is_reading self.turn ≡ true }
        ensures heard { IfOk result (λ spoken. Heard spoken.frame spoken.life self) }
        ensures over { IfErr result (λ over. Fell over self) }
    {
        let Life { mut course } = self;
        match course.read() {
            Ok(frame) => {
                course.note(&frame);
                let life = Life { course };
                Ok(Spoken { life, frame })
            }
            Err(cause) => Err(course.end(cause, Written::Whole)),
        }
    }

    // Reads the frame that alone may come in this turn.
    fn skip(self) -> Result<Life<L>, EndedLife<L>>
        requires { is_reading self.turn ≡ true }
        ensures heard { IfOk result (λ life. (f : Frame) × Heard f life self) }
        ensures over { IfErr result (λ over. Fell over self) }
    {
        let Spoken { life, frame } = self.listen()?;
        drop(frame);
        Ok(life)
    }

    /// Reads READY with its server's name, and NEXT. Else the life ends.
    pub fn greet(self) -> Result<Life<L>, EndedLife<L>>
        requires { self.turn ≡ Turn.AwaitsReady }
        ensures greeted { IfOk result (λ life. Greeted life self) }
        ensures over { IfErr result (λ over. FellGreeting over self) }
    {
        self.skip()?.read_next()
    }

    /// Reads NEXT. Else the life ends.
    pub fn read_next(self) -> Result<Life<L>, EndedLife<L>>
        requires { self.turn ≡ Turn.AwaitsNext }
        ensures next { IfOk result (λ life. Heard next_frame life self) }
        ensures over { IfErr result (λ over. Fell over self) }
    {
        self.skip()
    }

    /// Its server's calls have come to their end: an OP would be out of turn from now on.
    pub fn spend(self) -> Life<L>
        requires { self.turn ≡ Turn.Serving }
        ensures { result ≡ spent self }
    {
        let Life { mut course } = self;
        course.turn = Turn::Finishing;
        Life { course }
    }

    /// Reads the OP, the RETURN or the FORWARD of the request in hand; behind `spend` no OP. Else the life ends.
    pub fn hear(self) -> Result<Acted<L>, EndedLife<L>>
        requires { is_acting self.turn ≡ true }
        ensures heard { IfOk result (λ a. Heard (act_frame (tag_of self) a.act) a.life self) }
        ensures over { IfErr result (λ over. Fell over self) }
    {
        let Spoken { life, frame } = self.listen()?;
        let act = acted(frame);
        Ok(Acted { life, act })
    }

    /// Sends the REPLY to the call that was made. Else the life ends, as `send` says.
    pub fn reply(self, reply: &Reply) -> Result<Life<L>, EndedLife<L>>
        requires turn { self.turn ≡ Turn.Performing }
        requires reply { IsReply reply.now }
        ensures sent { IfOk result (λ life. Invoked (reply_frame (tag_of self) reply.now) life self) }
        ensures over { IfErr result (λ over. Unsent (reply_frame (tag_of self) reply.now) over self) }
    {
        let Life { mut course } = self;
        let sent = course.pipe.reply(course.tag, reply);
        course.asked.note_reply(course.tag, reply);
        course.turn = Turn::Serving;
        match sent {
            Ok(()) => Ok(Life { course }),
            Err(cause) => Err(course.end(cause, unwritten(cause))),
        }
    }

    /// Sends the REPLY with that answer to the call that was made; the answer stays with the caller. Else the life ends, as
    /// `send` says.
    pub fn reply_answer(self, descriptor: u64, answer: &Answer) -> Result<Life<L>, EndedLife<L>>
        requires turn { self.turn ≡ Turn.Performing }
        requires answer { IsAnswer answer.now }
        ensures sent { IfOk result (λ life. Invoked (answer_frame (tag_of self) descriptor answer.now) life self) }
        ensures over { IfErr result (λ over. Unsent (answer_frame (tag_of self) descriptor answer.now) over self) }
    {
        let Life { mut course } = self;
        let sent = course.pipe.answer(course.tag, descriptor, answer);
        course.asked.note_answer(course.tag, descriptor, answer);
        course.turn = Turn::Serving;
        match sent {
            Ok(()) => Ok(Life { course }),
            Err(cause) => Err(course.end(cause, unwritten(cause))),
        }
    }

    /// The life ends by Starved: memory ran out before the call was made.
    pub fn starve(self) -> EndedLife<L>
        requires { self.turn ≡ Turn.Performing }
        ensures { Starves result self }
    {
        let Life { course } = self;
        course.end(StopCause::Starved, Written::Whole)
    }

    /// Sends a request to that routine of that service, with the next number. Its data has at most 65,536 octets. Else the
    /// life ends, by WriteFault, where the link took a front of the INVOKE, or by Starved, where memory ran out and it took
    /// nothing.
    pub fn send(
        self,
        service: &Name,
        routine: &Name,
        payload: &Data,
    ) -> Result<Life<L>, EndedLife<L>>
        requires turn { self.turn ≡ Turn.AwaitsInvoke }
        requires payload { IsData payload.now }
        ensures sent { IfOk result (λ life. Invoked (next_invoke service.now routine.now payload.now self) life self) }
        ensures over { IfErr result (λ over. Unsent (next_invoke service.now routine.now payload.now self) over self) }
    {
        let Life { mut course } = self;
        let sent = course.pipe.send(service, routine, course.tag, payload);
        course
            .asked
            .note_invoke(service, routine, course.tag, payload);
        course.turn = Turn::Serving;
        match sent {
            Ok(()) => Ok(Life { course }),
            Err(cause) => Err(course.end(cause, unwritten(cause))),
        }
    }

    /// Sends SHUTDOWN, and the life ends: by Shutdown, where it was written, or as `send` says.
    pub fn shut_down(self) -> EndedLife<L>
        requires { self.turn ≡ Turn.AwaitsInvoke }
        ensures { ShutDown result self }
    {
        let Life { mut course } = self;
        match course.pipe.shut_down() {
            Ok(()) => course.end(StopCause::Shutdown, Written::Whole),
            Err(cause) => course.end(cause, unwritten(cause)),
        }
    }

    /// The monitor goes on with it no more: its program is ended by force, in whichever turn.
    pub fn abandon(self) -> CutLife<L>
        ensures { result ≡ cut_short self }
    {
        let Life { course } = self;
        course.cut()
    }

    /// The life ends behind a RETURN with TPEXIT: both pipes are closed, and its program, which ends by itself, is waited
    /// for.
    pub fn exit(self) -> EndedLife<L>
        requires { self.turn ≡ Turn.Exited }
        ensures { Exits result self }
    {
        let Life { course } = self;
        course.end(StopCause::Exit, Written::Whole)
    }
}

// What the link took of a frame that wasn't written by that cause.
fn unwritten(cause: StopCause) -> Written
    ensures { result ≡ unwritten cause }
{
    match cause {
        StopCause::WriteFault => Written::Cut,
        _ => Written::Missing,
    }
}
