// What is kept of a server.
ghost use Rattle.std.specs.Prelude.{◌≡◌, ◌<◌, vec_len, vec_capacity, Some, OnOk};
ghost use Rattle.xa_events.specs.Server.{moves_server, after_end, doing_after, start_in, is_gone_of, stops_server, is_shutdown_stop, is_shutdown};
ghost use Rattle.xa_machine.specs.Tables.{last_of, last_by, with_start, ServerShows, no_server, NotesServer, SameServer};

use crate::words::{either, pick};
use std::alloc::Global;
use xa_events::{Doing, Event, Outcome, StopCause};
use xa_types::{Generation, NoMemory};

/// How the request ended that a server ended last, where it has done nothing since.
#[derive(Clone, Copy, PartialEq, Eq)]
pub enum Last {
    Nothing,
    Well,
    Badly,
    Died,
    Starved,
}

/// What is kept of a server: what it does, how it ended its last request, the ticks of its starts, whether it is given
/// up, and whether it was shut down.
#[derive(Drop)]
pub struct ServerRow {
    pub doing: Doing,
    pub last: Last,
    pub starts: Vec<u64>,
    pub gone: bool,
    pub shut: bool,
}

fn moves_server(server: u16, event: &Event) -> bool
    ensures { result ≡ moves_server server event.now }
{
    match event {
        Event::Take(t) => t.server.0 == server,
        Event::Forward(f) => f.server.0 == server,
        Event::Start(s) => s.server.0 == server,
        Event::StartFailed(s) => s.server.0 == server,
        Event::End(e) => e.server.0 == server,
        Event::Stop(x) => x.server.0 == server,
        _ => false,
    }
}

fn after_end(outcome: &Outcome, generation: Generation) -> Doing
    ensures { result ≡ after_end outcome.now generation }
{
    match outcome {
        Outcome::Returned(..) | Outcome::Failed(..) | Outcome::BadReturn | Outcome::BadForward(_) =>
            Doing::Idle(generation),
        Outcome::Died | Outcome::Starved => Doing::Dying(generation),
    }
}

fn doing_after(event: &Event) -> Doing
    ensures { result ≡ doing_after (Some event.now) }
{
    match event {
        Event::Take(t) => Doing::Busy(t.generation, t.request),
        Event::Forward(f) => Doing::Idle(f.generation),
        Event::Start(s) => Doing::Idle(s.generation),
        Event::End(e) => after_end(&e.outcome, e.generation),
        _ => Doing::Off,
    }
}

fn last_of(outcome: &Outcome) -> Last
    ensures { result ≡ last_of outcome.now }
{
    match outcome {
        Outcome::Returned(..) | Outcome::BadForward(_) => Last::Well,
        Outcome::Failed(..) | Outcome::BadReturn => Last::Badly,
        Outcome::Died => Last::Died,
        Outcome::Starved => Last::Starved,
    }
}

fn last_by(event: &Event) -> Last
    ensures { result ≡ last_by (Some event.now) }
{
    match event {
        Event::End(e) => last_of(&e.outcome),
        _ => Last::Nothing,
    }
}

fn start_in(server: u16, event: &Event) -> Option<u64>
    ensures { result ≡ start_in server event.now }
{
    match event {
        Event::Start(s) if s.server.0 == server => Some(s.tick),
        Event::StartFailed(s) if s.server.0 == server => Some(s.tick),
        _ => None,
    }
}

fn is_gone_of(server: u16, event: &Event) -> bool
    ensures { result ≡ is_gone_of server event.now }
{
    match event {
        Event::Gone(s) => s.0 == server,
        _ => false,
    }
}

fn stops_server(server: u16, event: &Event) -> bool
    ensures { result ≡ stops_server server event.now }
{
    match event {
        Event::Stop(x) => x.server.0 == server,
        _ => false,
    }
}

pub fn is_shutdown(cause: StopCause) -> bool
    ensures { result ≡ is_shutdown cause }
{
    matches!(cause, StopCause::Shutdown)
}

fn is_shutdown_stop(event: &Event) -> bool
    ensures { result ≡ is_shutdown_stop (Some event.now) }
{
    match event {
        Event::Stop(x) => is_shutdown(x.cause),
        _ => false,
    }
}

fn keep_start(starts: &mut Vec<u64>, tick: Option<u64>)
    requires { vec_len starts.old < vec_capacity starts.old }
    ensures { starts.new.items ≡ with_start tick starts.old.items }
{
    if let Some(tick) = tick {
        starts.push_reserved(tick);
    }
}

impl ServerRow {
    pub fn new(alloc: Global) -> ServerRow
        ensures { ServerShows result no_server }
    {
        ServerRow {
            doing: Doing::Off,
            last: Last::Nothing,
            starts: Vec::new(alloc),
            gone: false,
            shut: false,
        }
    }

    /// Makes room for one more start.
    pub fn reserve(&mut self) -> Result<(), NoMemory>
        ensures same { SameServer self.old self.new }
        ensures room { OnOk result (vec_len self.new.starts < vec_capacity self.new.starts) }
    {
        self.starts.reserve(1)?;
        Ok(())
    }

    /// Notes an event in the row of that server.
    pub fn note(&mut self, server: u16, event: &Event)
        requires { vec_len self.old.starts < vec_capacity self.old.starts }
        ensures { NotesServer server event.now self.old self.new }
    {
        let moves = moves_server(server, event);
        self.doing = pick(moves, doing_after(event), self.doing);
        self.last = pick(moves, last_by(event), self.last);
        keep_start(&mut self.starts, start_in(server, event));
        self.gone = either(is_gone_of(server, event), self.gone);
        self.shut = pick(
            stops_server(server, event),
            is_shutdown_stop(event),
            self.shut,
        );
    }
}
