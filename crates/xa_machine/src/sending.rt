// Whether a request may be sent to a queue: accepted of a call, or forwarded.
ghost use Rattle.std.specs.Prelude.{◌≡◌, ◌+◌, ◌≤◌, [], option_map, reverse, IsSomeAnd, true, false};
ghost use Rattle.std.specs.Bool.{Decides};
ghost use Rattle.std.specs.Option.{option_copied};
ghost use Rattle.xa_types.specs.Configured.{is_configured};
ghost use Rattle.xa_types.specs.Kind.{is_sound};
ghost use Rattle.xa_types.specs.Rows.{row_for};
ghost use Rattle.xa_events.specs.declared.event.Event.TheVariants.{Accept, Forward};
ghost use Rattle.xa_events.specs.State.{caller_of};
ghost use Rattle.xa_events.specs.Words.{count};
ghost use Rattle.xa_events.specs.Caller.{least_version, is_conversational, accepted, next_priority};
ghost use Rattle.xa_events.specs.Laws.{LawOfEnds};
ghost use Rattle.xa_events.specs.Request.{is_accept_of, is_forward_of, SentAs, sent_as};
ghost use Rattle.xa_events.specs.Cases.{Case, HasRoom, asked_priority, priority_by, AcceptWorker, AcceptBefore, ForwardWorker, ForwardBefore, RowAdmits, RowStands};
ghost use Rattle.xa_machine.specs.Here.{mode_in};

use crate::admits::is_busy_with;
use crate::called::is_conversational;
use crate::ending::same_name;
use crate::laws::runs_are_lawful;
use crate::machine::Machine;
use crate::refusing::descriptor_limit;
use crate::standing::row_of;
use crate::words::{is_none, same_request};
use xa_events::{Accepted, Event, Forwarded};
use xa_route::{admits, priority, row_for};
use xa_types::{CallerId, Data, Mode, Name, QueueId, RequestId, Row, Setup};

// The priority that a service has of its own.
fn own_priority(setup: &Setup, service: Name) -> u8
    requires { is_configured setup.now ≡ true }
    ensures { result ≡ (row_for setup.now service 0 []).priority }
{
    row_for(setup, QueueId(0), service, service).priority
}

fn priority_by(setup: &Setup, service: Name, asked: Option<(bool, i32)>) -> u8
    requires { is_configured setup.now ≡ true }
    ensures { result ≡ priority_by setup.now service asked }
{
    priority(own_priority(setup, service), asked)
}

// Whether the row sends a request with that data to its routine.
fn row_admits(
    setup: &Setup,
    row: &Row,
    conversational: bool,
    routine: &Name,
    payload: &Data,
) -> bool
    requires { is_configured setup.now ≡ true }
    ensures { Decides result (RowAdmits setup.now conversational routine.now payload.now row.now) }
{
    same_name(&row.routine, routine)
        && row.conversational == conversational
        && admits(row, &payload.kind(), setup)
}

// Whether there is a row, and it does.
fn is_found(
    setup: &Setup,
    row: Option<&Row>,
    conversational: bool,
    routine: &Name,
    payload: &Data,
) -> bool
    requires { is_configured setup.now ≡ true }
    ensures { Decides result (IsSomeAnd (option_copied row.entry) (RowAdmits setup.now conversational routine.now payload.now)) }
{
    match row {
        Some(row) => row_admits(setup, row, conversational, routine, payload),
        None => false,
    }
}

fn is_accept_of(request: RequestId, event: &Event) -> bool
    ensures { result ≡ is_accept_of request event.now }
{
    match event {
        Event::Accept(a) => same_request(a.request, request),
        _ => false,
    }
}

fn mode_in(event: &Event) -> Option<Mode>
    ensures { result ≡ mode_in event.now }
{
    match event {
        Event::Accept(a) => Some(a.mode),
        _ => None,
    }
}

/// The mode in which the request was accepted: the newest event is looked at first.
pub fn mode_of(events: &[Event], request: RequestId) -> Option<Mode>
    ensures { result ≡ option_map (λ sent. sent.mode) (sent_as request (reverse events.now)) }
{
    for i in (0..events.len()).rev() {
        let event = &events[i];
        if is_accept_of(request, event) {
            return mode_in(event);
        }
    }
    None
}

fn is_forward_of(request: RequestId, event: &Event) -> bool
    ensures { result ≡ is_forward_of request event.now }
{
    match event {
        Event::Forward(f) => same_request(f.request, request),
        _ => false,
    }
}

// How often the request was forwarded: the newest event is looked at first, up to the one that accepted it.
fn forwards_of(events: &[Event], request: RequestId) -> usize
    ensures { LawOfEnds (reverse events.now) → result ≡ count (is_forward_of request) (reverse events.now) }
{
    let mut n = 0;
    for i in (0..events.len()).rev() {
        let event = &events[i];
        if is_accept_of(request, event) {
            return n;
        }
        if is_forward_of(request, event) {
            n += 1;
        }
    }
    n
}

fn is_plain(mode: Option<Mode>) -> bool
    ensures { Decides result (IsSomeAnd mode (λ m. is_conversational m ≡ false)) }
{
    match mode {
        Some(mode) => !is_conversational(mode),
        None => false,
    }
}

impl Machine {
    fn is_sound(&self, payload: &Data) -> bool
        ensures { result ≡ is_sound self.now.setup payload.now }
    {
        self.shapes.sound(payload)
    }

    fn has_room(&self, caller: CallerId, mode: Mode) -> bool
        ensures { Decides result (HasRoom self.now.clients caller.0 mode self.now.past) }
    {
        let row = self.caller(u32::from(caller.0));
        match mode {
            Mode::Reply => row.descriptors.len() < descriptor_limit(self.clients, caller) as usize,
            Mode::ConvReceives | Mode::ConvSends => row.connections.len() < 16,
            Mode::NoReply => true,
        }
    }

    fn asked(&self, caller: CallerId, mode: Mode) -> Option<(bool, i32)>
        ensures { result ≡ asked_priority self.now.clients caller.0 mode self.now.past }
    {
        if is_conversational(mode) {
            None
        } else {
            self.caller(u32::from(caller.0)).asked
        }
    }

    fn is_no_older(&self, caller: u32, version: u64) -> bool
        ensures { Decides result (least_version self.now.setup self.now.clients caller self.now.past ≤ version) }
    {
        self.caller(caller).version <= version
    }

    fn is_next_request(&self, a: &Accepted) -> bool
        ensures { Decides result ((a.now.request.caller ≡ a.now.by) × (a.now.request.number ≡ accepted a.now.by.0 self.now.past + 1)) }
    {
        a.request.caller == a.by
            && 0 < a.request.number
            && a.request.number - 1 == self.caller(u32::from(a.by.0)).accepted
    }

    fn has_priority(&self, a: &Accepted) -> bool
        ensures { Decides result (a.now.priority ≡ priority_by self.now.setup a.now.service (asked_priority self.now.clients a.now.by.0 a.now.mode self.now.past)) }
    {
        a.priority == priority_by(&self.setup, a.service, self.asked(a.by, a.mode))
    }

    fn admits_accept_worker(&self, a: &Accepted) -> bool
        ensures { Decides result (AcceptWorker self.now.setup self.now.clients a.now self.now.past) }
    {
        self.admits_call(a.by, a.op)
            && self.is_next_request(a)
            && self.has_room(a.by, a.mode)
            && self.is_sound(&a.payload)
            && self.is_no_older(u32::from(a.by.0), a.version)
            && self.has_priority(a)
    }

    fn admits_accept_before(&self, a: &Accepted) -> bool
        ensures { Decides result (AcceptBefore self.now.setup a.now self.now.past) }
    {
        a.version <= self.published()
            && is_found(
                &self.setup,
                row_of(self.rows_at(a.version), &a.service, a.queue),
                is_conversational(a.mode),
                &a.routine,
                &a.payload,
            )
    }

    pub(crate) fn admits_accept(&self, a: &Accepted) -> bool
        ensures { Decides result (Case self.now (Accept a.now)) }
    {
        self.admits_entry(a.queue)
            && self.admits_accept_worker(a)
            && self.admits_accept_before(a)
            && self.is_booted()
    }

    fn has_forward_priority(&self, f: &Forwarded) -> bool
        ensures { Decides result (f.now.priority ≡ priority_by self.now.setup f.now.service (next_priority self.now.clients (caller_of self.now.clients f.now.server.0) self.now.past)) }
    {
        let row = self.caller(self.of_server(f.server));
        f.priority == priority_by(&self.setup, f.service, row.asked)
    }

    fn admits_forward_worker(&self, f: &Forwarded) -> bool
        ensures { Decides result (ForwardWorker self.now.setup self.now.clients f.now self.now.past) }
    {
        is_busy_with(self.server(f.server.0).doing, f.generation, f.request)
            && f.hop <= 32
            && self.is_sound(&f.payload)
            && is_none(&self.caller(self.of_server(f.server)).connections)
            && self.is_no_older(self.of_server(f.server), f.version)
            && self.has_forward_priority(f)
    }

    fn row_stands(&self, f: &Forwarded) -> bool
        ensures { Decides result (RowStands self.now.setup f.now.version f.now.service f.now.queue.0 (RowAdmits self.now.setup false f.now.routine f.now.payload) self.now.past) }
    {
        f.version <= self.published()
            && is_found(
                &self.setup,
                row_of(self.rows_at(f.version), &f.service, f.queue),
                false,
                &f.routine,
                &f.payload,
            )
    }

    fn begins_none(&self, request: RequestId) -> bool
        ensures { Decides result (IsSomeAnd (sent_as request self.now.past) (λ (sent : SentAs). is_conversational sent.mode ≡ false)) }
    {
        is_plain(mode_of(&self.events, request))
    }

    fn forwards(&self, request: RequestId) -> usize
        ensures { result ≡ count (is_forward_of request) self.now.past }
    {
        runs_are_lawful();
        forwards_of(&self.events, request)
    }

    fn is_next_hop(&self, f: &Forwarded) -> bool
        ensures { Decides result (f.now.hop ≡ count (is_forward_of f.now.request) self.now.past + 1) }
    {
        0 < f.hop && usize::from(f.hop - 1) == self.forwards(f.request)
    }

    fn admits_forward_before(&self, f: &Forwarded) -> bool
        ensures { Decides result (ForwardBefore self.now.setup f.now self.now.past) }
    {
        self.row_stands(f) && self.begins_none(f.request) && self.is_next_hop(f)
    }

    pub(crate) fn admits_forward(&self, f: &Forwarded) -> bool
        ensures { Decides result (Case self.now (Forward f.now)) }
    {
        self.admits_entry(f.queue)
            && self.admits_forward_worker(f)
            && self.admits_forward_before(f)
            && self.is_booted()
    }
}
