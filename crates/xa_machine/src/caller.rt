// What is kept of a caller.
ghost use Rattle.std.specs.Prelude.{◌≡◌, ◌<◌, ℕ, OnOk};
ghost use Rattle.xa_events.specs.Conversation.{side_from, is_service, hand_after};
ghost use Rattle.xa_events.specs.Views.{CallerView, caller_after};
ghost use Rattle.xa_machine.specs.Tables.{CallerShows, no_caller, CountsAccept, HasRoom, accepted_after, NotesCalls, NotesRequests, SameRow};

use crate::called::{
    accepted_in, answers_request, break_in, changes_priority, closes_connection, closes_descriptor,
    ends_hand, gives_up, is_call_of, is_ending, is_leave_of, is_of, op_in, opens_connection,
    opens_descriptor, priority_asked, reads, tick_in,
};
use crate::words::{change, has, pick, raised};
use std::alloc::Global;
use xa_events::Event;
use xa_types::{NoMemory, RequestId};

/// What is kept of a caller: the number of its last call, the request as which that was accepted, how many requests were
/// accepted, its open descriptors, the requests without an answer, the least version of the board and the least tick that
/// it may read, whether it has left and is leaving, the priority that it set, the conversations that it originated and
/// has open, those that it broke, and whether the service's end of the request that its server took last is closed.
#[derive(Drop)]
pub struct CallerRow {
    pub op: u32,
    pub just: Option<RequestId>,
    pub accepted: u64,
    pub descriptors: Vec<RequestId>,
    pub unanswered: Vec<RequestId>,
    pub version: u64,
    pub tick: u64,
    pub left: bool,
    pub leaving: bool,
    pub asked: Option<(bool, i32)>,
    pub connections: Vec<RequestId>,
    pub broken: Vec<RequestId>,
    pub hand_closed: bool,
}

/// Whether the caller means the service's end of that conversation.
pub fn is_at_service(caller: u32, request: RequestId, broken: &[RequestId]) -> bool
    ensures { result ≡ is_service (side_from caller request broken.now) }
{
    !(caller == u32::from(request.caller.0) && !has(request, broken))
}

fn hand_after(clients: u16, caller: u32, event: &Event, broken: &[RequestId], closed: bool) -> bool
    ensures { result ≡ hand_after clients caller event.now broken.now closed }
{
    match event {
        Event::Take(t) => !is_of(clients, t.server, caller) && closed,
        Event::Receive(r) => {
            u32::from(r.by.0) == caller
                && (is_ending(&r.item) && is_at_service(caller, r.request, broken))
                || closed
        }
        Event::Refuse(r) => u32::from(r.by.0) == caller && ends_hand(&r.evidence) || closed,
        _ => closed,
    }
}

fn accepted_after(caller: u32, event: &Event, before: u64) -> u64
    ensures { result ≡ accepted_after caller event.now before }
{
    match event {
        Event::Accept(a) if u32::from(a.by.0) == caller => a.request.number,
        _ => before,
    }
}

impl CallerRow {
    /// `boot` is how many changes of the board the boot makes.
    pub fn new(alloc: Global, boot: u64) -> CallerRow
        ensures { CallerShows boot result no_caller }
    {
        CallerRow {
            op: 0,
            just: None,
            accepted: 0,
            descriptors: Vec::new(alloc),
            unanswered: Vec::new(alloc),
            version: boot,
            tick: 0,
            left: false,
            leaving: false,
            asked: None,
            connections: Vec::new(alloc),
            broken: Vec::new(alloc),
            hand_closed: false,
        }
    }

    /// Makes room for one more in each list.
    pub fn reserve(&mut self) -> Result<(), NoMemory>
        ensures same { SameRow self.old self.new }
        ensures room { OnOk result (HasRoom self.new) }
    {
        self.descriptors.reserve(1)?;
        self.unanswered.reserve(1)?;
        self.connections.reserve(1)?;
        self.broken.reserve(1)?;
        Ok(())
    }

    fn note_calls(&mut self, clients: u16, caller: u32, event: &Event)
        requires { HasRoom self.old }
        ensures { NotesCalls clients caller event.now self.old self.new }
    {
        let calls = is_call_of(caller, event);
        self.op = pick(calls, op_in(event), self.op);
        self.just = pick(calls, accepted_in(event), self.just);
        self.accepted = accepted_after(caller, event, self.accepted);
        self.version = raised(reads(clients, caller, event), self.version);
        self.tick = raised(tick_in(clients, caller, event), self.tick);
        self.left = is_leave_of(caller, event) || self.left;
        self.leaving = gives_up(caller, event) || self.leaving;
        self.asked = pick(
            changes_priority(clients, caller, event),
            priority_asked(event),
            self.asked,
        );
    }

    fn note_requests(&mut self, clients: u16, caller: u32, event: &Event)
        requires { HasRoom self.old }
        ensures { NotesRequests clients caller event.now self.old self.new }
    {
        let hand_closed = hand_after(clients, caller, event, &self.broken, self.hand_closed);
        change(
            &mut self.descriptors,
            opens_descriptor(caller, event),
            closes_descriptor(caller, event),
        );
        change(
            &mut self.unanswered,
            opens_descriptor(caller, event),
            answers_request(caller, event),
        );
        change(
            &mut self.connections,
            opens_connection(caller, event),
            closes_connection(caller, event),
        );
        change(&mut self.broken, break_in(caller, event), None);
        self.hand_closed = hand_closed;
    }

    /// Notes an event in the row of that caller.
    pub fn note(&mut self, clients: u16, caller: u32, event: &Event)
        requires { HasRoom self.old }
        ensures { (boot : ℕ) (view : CallerView) → CountsAccept caller event.now view →
            CallerShows boot self.old view → CallerShows boot self.new (caller_after clients caller event.now view) }
    {
        self.note_calls(clients, caller, event);
        self.note_requests(clients, caller, event);
    }
}
