ghost use Rattle.std.specs.Prelude.{◌≡◌, ◌++◌, ◌∷◌, ◌+◌, ◌<◌, ◌≤◌, [], List, length, IfOk, IfErr, OnOk, OnErr};
ghost use Rattle.xa_link.specs.Links.{killed, closed};
ghost use Rattle.xa_link.specs.Told.{Rose, Grew, GrewByPart, Empty};
ghost use Rattle.xa_frame.specs.declared.frame.Frame.{Frame};
ghost use Rattle.xa_frame.specs.Spelling.{spelled, HasSpelling, IsData, IsAnswer, IsReply};
ghost use Rattle.xa_events.specs.declared.event.StopCause.TheVariants.{Starved, WriteFault};
ghost use Rattle.xa_frame.specs.Stream.{IsPartial};
ghost use Rattle.xa_pipe.specs.Frames.{shutdown_frame, reply_frame, answer_frame};
ghost use Rattle.xa_pipe.specs.Pipe.{invoke_frame, Wrote, HasRead, ended_by, Keeps, ReadsNone, CountsReads, CountsWrites, shown};

use std::alloc::Global;
use std::marker::Model;
use xa_events::StopCause;
use xa_frame::{
    Body, Frame, NextRefused, Reader, append, append_answer, append_invoke, append_reply,
};
use xa_link::{Closed, Link, put};
use xa_types::{Answer, Data, Mode, Name, NoMemory, Reply};

// How many octets a read takes at most, and how many of them one takes behind which fewer octets than that wait.
const PIECE: usize = 8192;

const FIRST: usize = 512;

/// The monitor's end of the pipes of one life.
pub struct Pipe<L: Link> {
    link: L,
    reader: Reader,
    due: Vec<u8>,
}

impl<L: Link> Model for Pipe<L> {
    ghost use Rattle.xa_pipe.specs.Pipe.{Piped, piped};

    ghost Value = { Piped };

    ghost view = { λ p. piped (L.Link.shows p.link) p.reader };
}

// Puts the octets of SHUTDOWN at the end.
fn append_shutdown(out: &mut Vec<u8>) -> Result<(), NoMemory>
    ensures { OnOk result (out.new.items ≡ out.old.items ++ spelled shutdown_frame) }
{
    let frame = Frame {
        tag: 0,
        body: Body::Shutdown,
    };
    let appended = append(out, &frame);
    drop(frame);
    appended
}

// Writes the octets: WriteFault where the link fails.
fn write<L: Link>(link: &mut L, octets: &[u8]) -> Result<(), StopCause>
    ensures took { OnOk result (Grew (L.Link.shows link.old).took (L.Link.shows link.new).took octets.now) }
    ensures part { OnErr result (GrewByPart (L.Link.shows link.old).took (L.Link.shows link.new).took octets.now) }
    ensures gave { (L.Link.shows link.new).gave ≡ (L.Link.shows link.old).gave }
    ensures reads { (L.Link.shows link.new).reads ≡ (L.Link.shows link.old).reads }
    ensures program { (L.Link.shows link.new).program ≡ (L.Link.shows link.old).program }
    ensures well { OnOk result ((L.Link.shows link.new).writes ≡ (L.Link.shows link.old).writes) }
    ensures why { IfErr result (λ cause. (cause ≡ StopCause.WriteFault) × Rose (L.Link.shows link.old).writes (L.Link.shows link.new).writes) }
{
    match put(link, octets) {
        Ok(()) => Ok(()),
        Err(_) => Err(StopCause::WriteFault),
    }
}

// Why the life ends where the reader gives no frame.
fn ended_by(refused: NextRefused) -> StopCause
    ensures { result ≡ ended_by refused }
{
    match refused {
        NextRefused::BadFrame(place) => StopCause::BadBytes(place),
        NextRefused::NoMemory => StopCause::Starved,
    }
}

impl<L: Link> Pipe<L> {
    /// The pipes through which nothing went.
    pub fn new(alloc: Global, link: L) -> Pipe<L>
        requires took { Empty (L.Link.shows link).took }
        requires gave { Empty (L.Link.shows link).gave }
        ensures shows { shown result ≡ L.Link.shows link }
        ensures wrote { Wrote result [] }
        ensures read { HasRead result [] }
    {
        Pipe {
            link,
            reader: Reader::new(alloc),
            due: Vec::new(alloc),
        }
    }

    /// The link, with what went through it.
    pub fn into_link(self) -> L
        ensures { L.Link.shows result ≡ shown self }
    {
        let Pipe {
            link,
            reader: _,
            due: _,
        } = self;
        link
    }

    /// Sends a request to that routine of that service, as the invocation of that number. Its data has at most 65,536
    /// octets. It fails by WriteFault, where the link took a front of the INVOKE, or by Starved, where memory ran out
    /// and the link took nothing.
    pub fn send(
        &mut self,
        service: &Name,
        routine: &Name,
        number: u32,
        payload: &Data,
    ) -> Result<(), StopCause>
        requires { IsData payload.now }
        ensures took { OnOk result (Grew self.old.took self.new.took (spelled (invoke_frame service.now routine.now number payload.now))) }
        ensures part { result ≡ Err WriteFault → GrewByPart self.old.took self.new.took (spelled (invoke_frame service.now routine.now number payload.now)) }
        ensures starved { result ≡ Err Starved → self.new.took ≡ self.old.took }
        ensures gave { self.new.gave ≡ self.old.gave }
        ensures rest { self.new.rest ≡ self.old.rest }
        ensures place { self.new.place ≡ self.old.place }
        ensures reads { self.new.reads ≡ self.old.reads }
        ensures program { self.new.program ≡ self.old.program }
        ensures well { OnOk result (self.new.writes ≡ self.old.writes) }
        ensures why { IfErr result (λ cause. CountsWrites cause self.old.writes self.new.writes) }
    {
        self.due.clear();
        let sent = append_invoke(
            &mut self.due,
            number,
            service,
            routine,
            Mode::Reply,
            payload,
        );
        let Ok(()) = sent else {
            return Err(StopCause::Starved);
        };
        write(&mut self.link, &self.due)
    }

    /// Sends the REPLY to a call of the invocation of that number. It fails as `send` does.
    pub fn reply(&mut self, number: u32, reply: &Reply) -> Result<(), StopCause>
        requires { IsReply reply.now }
        ensures took { OnOk result (Grew self.old.took self.new.took (spelled (reply_frame number reply.now))) }
        ensures part { result ≡ Err WriteFault → GrewByPart self.old.took self.new.took (spelled (reply_frame number reply.now)) }
        ensures starved { result ≡ Err Starved → self.new.took ≡ self.old.took }
        ensures gave { self.new.gave ≡ self.old.gave }
        ensures rest { self.new.rest ≡ self.old.rest }
        ensures place { self.new.place ≡ self.old.place }
        ensures reads { self.new.reads ≡ self.old.reads }
        ensures program { self.new.program ≡ self.old.program }
        ensures well { OnOk result (self.new.writes ≡ self.old.writes) }
        ensures why { IfErr result (λ cause. CountsWrites cause self.old.writes self.new.writes) }
    {
        self.due.clear();
        let Ok(()) = append_reply(&mut self.due, number, reply) else {
            return Err(StopCause::Starved);
        };
        write(&mut self.link, &self.due)
    }

    /// Sends the REPLY with that answer to a call of the invocation of that number. It fails as `send` does.
    pub fn answer(&mut self, number: u32, descriptor: u64, answer: &Answer) -> Result<(), StopCause>
        requires { IsAnswer answer.now }
        ensures took { OnOk result (Grew self.old.took self.new.took (spelled (answer_frame number descriptor answer.now))) }
        ensures part { result ≡ Err WriteFault → GrewByPart self.old.took self.new.took (spelled (answer_frame number descriptor answer.now)) }
        ensures starved { result ≡ Err Starved → self.new.took ≡ self.old.took }
        ensures gave { self.new.gave ≡ self.old.gave }
        ensures rest { self.new.rest ≡ self.old.rest }
        ensures place { self.new.place ≡ self.old.place }
        ensures reads { self.new.reads ≡ self.old.reads }
        ensures program { self.new.program ≡ self.old.program }
        ensures well { OnOk result (self.new.writes ≡ self.old.writes) }
        ensures why { IfErr result (λ cause. CountsWrites cause self.old.writes self.new.writes) }
    {
        self.due.clear();
        let Ok(()) = append_answer(&mut self.due, number, descriptor, answer) else {
            return Err(StopCause::Starved);
        };
        write(&mut self.link, &self.due)
    }

    /// Sends SHUTDOWN. It fails as `send` does.
    pub fn shut_down(&mut self) -> Result<(), StopCause>
        ensures took { OnOk result (Grew self.old.took self.new.took (spelled shutdown_frame)) }
        ensures part { result ≡ Err WriteFault → GrewByPart self.old.took self.new.took (spelled shutdown_frame) }
        ensures starved { result ≡ Err Starved → self.new.took ≡ self.old.took }
        ensures gave { self.new.gave ≡ self.old.gave }
        ensures rest { self.new.rest ≡ self.old.rest }
        ensures place { self.new.place ≡ self.old.place }
        ensures reads { self.new.reads ≡ self.old.reads }
        ensures program { self.new.program ≡ self.old.program }
        ensures well { OnOk result (self.new.writes ≡ self.old.writes) }
        ensures why { IfErr result (λ cause. CountsWrites cause self.old.writes self.new.writes) }
    {
        self.due.clear();
        let Ok(()) = append_shutdown(&mut self.due) else {
            return Err(StopCause::Starved);
        };
        write(&mut self.link, &self.due)
    }

    /// Ends the program by force, and waits for it: what is left.
    pub fn kill(self) -> Closed<L>
        ensures { L.Link.shows result.was.value ≡ killed (shown self) }
    {
        self.into_link().kill()
    }

    /// Closes the pipes, and waits for the program, which ends by itself: what is left.
    pub fn close(self) -> Closed<L>
        ensures { L.Link.shows result.was.value ≡ closed (shown self) }
    {
        self.into_link().close()
    }

    // Reads the next frame, or says why there is none.
    pub(crate) fn read(&mut self) -> Result<Frame, StopCause>
        ensures frame { IfOk result (λ f. (frames : List Frame) → HasRead self.old frames → HasRead self.new (frames ++ f ∷ [])) }
        ensures spelling { IfOk result (λ f. HasSpelling f) }
        ensures took { self.new.took ≡ self.old.took }
        ensures writes { self.new.writes ≡ self.old.writes }
        ensures program { self.new.program ≡ self.old.program }
        ensures well { OnOk result (self.new.reads ≡ self.old.reads) }
        ensures kept { IfErr result (λ cause. (frames : List Frame) → HasRead self.old frames → Keeps self.new frames cause) }
        ensures why { IfErr result (λ cause. (frames : List Frame) → HasRead self.old frames → ReadsNone self.new frames cause) }
        ensures counts { IfErr result (λ cause. CountsReads cause self.old.reads self.new.reads) }
    {
        for _ in 0..u64::MAX {
            match self.reader.next() {
                Ok(Some(frame)) => return Ok(frame),
                Ok(None) => self.pull()?,
                Err(refused) => return Err(ended_by(refused)),
            }
        }
        unreachable!()
    }

    // Reads a piece of the link.
    fn pull(&mut self) -> Result<(), StopCause>
        requires few { length self.old.rest < 66_012 }
        requires partial { IsPartial self.old.rest }
        ensures took { self.new.took ≡ self.old.took }
        ensures writes { self.new.writes ≡ self.old.writes }
        ensures program { self.new.program ≡ self.old.program }
        ensures grew { OnOk result ((frames : List Frame) → HasRead self.old frames → HasRead self.new frames) }
        ensures more { OnOk result (length self.old.rest < length self.new.rest) }
        ensures within { OnOk result (length self.new.rest ≤ length self.old.rest + 8192) }
        ensures well { OnOk result (self.new.reads ≡ self.old.reads) }
        ensures kept { IfErr result (λ cause. (frames : List Frame) → HasRead self.old frames → Keeps self.new frames cause) }
        ensures why { IfErr result (λ cause. (frames : List Frame) → HasRead self.old frames → ReadsNone self.new frames cause) }
        ensures counts { IfErr result (λ cause. CountsReads cause self.old.reads self.new.reads) }
    {
        if (self.reader.pending() as usize) < FIRST {
            return self.pull_into(&mut [0; FIRST]);
        }
        self.pull_into(&mut [0; PIECE])
    }

    // Reads into that place.
    fn pull_into(&mut self, piece: &mut [u8]) -> Result<(), StopCause>
        requires few { length self.old.rest < 66_012 }
        requires partial { IsPartial self.old.rest }
        requires piece { (0 < length piece.old) × (length piece.old ≤ 8192) }
        ensures took { self.new.took ≡ self.old.took }
        ensures writes { self.new.writes ≡ self.old.writes }
        ensures program { self.new.program ≡ self.old.program }
        ensures grew { OnOk result ((frames : List Frame) → HasRead self.old frames → HasRead self.new frames) }
        ensures more { OnOk result (length self.old.rest < length self.new.rest) }
        ensures within { OnOk result (length self.new.rest ≤ length self.old.rest + 8192) }
        ensures well { OnOk result (self.new.reads ≡ self.old.reads) }
        ensures kept { IfErr result (λ cause. (frames : List Frame) → HasRead self.old frames → Keeps self.new frames cause) }
        ensures why { IfErr result (λ cause. (frames : List Frame) → HasRead self.old frames → ReadsNone self.new frames cause) }
        ensures counts { IfErr result (λ cause. CountsReads cause self.old.reads self.new.reads) }
    {
        match self.link.read(piece) {
            Err(_) => Err(StopCause::ReadFault),
            Ok(0) => Err(StopCause::EndOfInput),
            Ok(count) => match self.reader.feed(&piece[..count]) {
                Ok(()) => Ok(()),
                Err(_) => Err(StopCause::Starved),
            },
        }
    }
}
