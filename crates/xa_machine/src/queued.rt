// What is kept of a queue.
ghost use Rattle.std.specs.Prelude.{◌≡◌, ◌<◌, vec_len, vec_capacity, OnOk};
ghost use Rattle.xa_machine.specs.Tables.{QueueShows, no_queue, NotesQueue, SameQueue};
ghost use Rattle.xa_machine.specs.Here.{enters_here, leaves_here, takes_here, is_down_here, is_closed_here};

use crate::words::{change, either};
use std::alloc::Global;
use xa_events::Event;
use xa_types::{NoMemory, RequestId};

/// What is kept of a queue: the requests that wait, the oldest first, how many were taken, and whether it is down and
/// closed.
#[derive(Drop)]
pub struct QueueRow {
    pub waiting: Vec<RequestId>,
    pub takes: u64,
    pub down: bool,
    pub closed: bool,
}

fn enters(event: &Event) -> Option<RequestId>
    ensures { result ≡ enters_here event.now }
{
    match event {
        Event::Accept(a) => Some(a.request),
        Event::Forward(f) => Some(f.request),
        _ => None,
    }
}

fn leaves(event: &Event) -> Option<RequestId>
    ensures { result ≡ leaves_here event.now }
{
    match event {
        Event::Take(t) => Some(t.request),
        Event::Sweep(x) => Some(x.request),
        _ => None,
    }
}

fn takes(event: &Event, before: u64) -> u64
    ensures { result ≡ takes_here event.now before }
{
    match event {
        Event::Take(t) => t.k,
        _ => before,
    }
}

fn is_down(event: &Event) -> bool
    ensures { result ≡ is_down_here event.now }
{
    matches!(event, Event::Down(_))
}

fn is_closed(event: &Event) -> bool
    ensures { result ≡ is_closed_here event.now }
{
    matches!(event, Event::Close(_))
}

impl QueueRow {
    pub fn new(alloc: Global) -> QueueRow
        ensures { QueueShows result no_queue }
    {
        QueueRow {
            waiting: Vec::new(alloc),
            takes: 0,
            down: false,
            closed: false,
        }
    }

    /// Makes room for one more request.
    pub fn reserve(&mut self) -> Result<(), NoMemory>
        ensures same { SameQueue self.old self.new }
        ensures room { OnOk result (vec_len self.new.waiting < vec_capacity self.new.waiting) }
    {
        self.waiting.reserve(1)?;
        Ok(())
    }

    /// Notes an event of that queue.
    pub fn note(&mut self, event: &Event)
        requires { vec_len self.old.waiting < vec_capacity self.old.waiting }
        ensures { NotesQueue event.now self.old self.new }
    {
        change(&mut self.waiting, enters(event), leaves(event));
        self.takes = takes(event, self.takes);
        self.down = either(is_down(event), self.down);
        self.closed = either(is_closed(event), self.closed);
    }
}
