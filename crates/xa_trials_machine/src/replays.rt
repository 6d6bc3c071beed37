//! Histories replayed: those that the machine takes to their end, with each queue taken in its order, and those of which
//! one event may not come where it stands.
ghost use Rattle.std.specs.Prelude.{◌≡◌, IfSome, true};
ghost use Rattle.xa_types.specs.Configured.{is_configured};

use crate::domains::{Domain, configuration};
use crate::histories::{CALLS, CHANGES, FAULTS, FORWARDS, History, LIVES, TALK_FAULTS, TALKS};
use crate::steps::{Each, Step, event_of, steps_of};
use std::alloc::Global;
use std::process::Abort;
use xa_audit::{Verdict, audit, write};
use xa_events::Event;
use xa_machine::{Machine, ReplayRefused, replay};
use xa_types::{Name, Octets, Setup};

fn setup_of(alloc: Global, domain: Domain) -> Option<Setup>
    ensures configured { IfSome result (λ setup. is_configured setup ≡ true) }
{
    xa_config::read(alloc, configuration(domain)).ok()
}

fn push(alloc: Global, events: &mut Vec<Event>, step: Step) -> bool {
    match event_of(alloc, step) {
        Some(event) => events.push(event).is_ok(),
        None => false,
    }
}

fn push_each(alloc: Global, events: &mut Vec<Event>, each: Each, first: u32, last: u32) -> bool {
    let mut are_pushed = true;
    for number in first..=last {
        let (step, next) = steps_of(each, number);
        are_pushed &= push(alloc, events, step);
        if let Some(next) = next {
            are_pushed &= push(alloc, events, next);
        }
    }
    are_pushed
}

fn push_all(alloc: Global, events: &mut Vec<Event>, steps: &[Step]) -> bool {
    let mut are_pushed = true;
    for step in steps {
        are_pushed &= match *step {
            Step::Each(each, first, last) => push_each(alloc, events, each, first, last),
            step => push(alloc, events, step),
        };
    }
    are_pushed
}

// Whether the events, each a take that is next or another event, lead to where nothing is left to do.
fn ends_in_order(alloc: Global, setup: &Setup, clients: u16, events: &[Event]) -> bool
    requires { is_configured setup.now ≡ true }
{
    let Ok(mut machine) = Machine::new(alloc, setup, clients) else {
        return false;
    };
    for event in events {
        if !machine.takes_next(event) || machine.step(event).is_err() {
            return false;
        }
    }
    machine.is_final()
}

static CLIENTS: [&[u8]; 2] = [b"c1", b"c2"];

/// The record of these events, with so many clients.
pub fn written(alloc: Global, config: &[u8], clients: u16, events: &[Event]) -> Option<Octets> {
    let mut names = Vec::new(alloc);
    for client in CLIENTS.iter().take(usize::from(clients)) {
        names.push(Name::read(client).ok()?).ok()?;
    }
    if names.len() > 64 {
        return None;
    }
    write(alloc, config, &names, events).ok()
}

// What the auditor answers of that record; none where it is refused.
fn audited(alloc: Global, config: &[u8], clients: u16, events: &[Event]) -> Option<Verdict> {
    let octets = written(alloc, config, clients, events)?;
    audit(alloc, octets.slice()).ok()
}

fn becomes(alloc: Global, setup: &Setup, clients: u16, events: &[Event], place: Option<u64>) -> bool
    requires { is_configured setup.now ≡ true }
{
    match (replay(alloc, setup, clients, events), place) {
        (Ok(machine), None) => {
            machine.is_final() && ends_in_order(alloc, setup, clients, events)
        }
        (Err(ReplayRefused::At(at)), Some(place)) => at == place,
        _ => false,
    }
}

/// The events of the parts, one part behind the other.
pub fn events_of(alloc: Global, parts: &[&[Step]]) -> Option<Vec<Event>> {
    let mut events = Vec::new(alloc);
    let mut are_pushed = true;
    for steps in parts {
        are_pushed &= push_all(alloc, &mut events, steps);
    }
    if !are_pushed {
        return None;
    }
    Some(events)
}

fn is_so(alloc: Global, (domain, clients, parts, place): History) -> bool {
    let Some(setup) = setup_of(alloc, domain) else {
        return false;
    };
    let Some(events) = events_of(alloc, parts) else {
        return false;
    };
    let verdict = match place {
        None => Verdict::Run(events.len() as u64),
        Some(place) => Verdict::At(place),
    };
    becomes(alloc, &setup, clients, &events, place)
        && audited(alloc, configuration(domain), clients, &events) == Some(verdict)
}

fn first_not_so(alloc: Global, histories: &[History]) -> Option<usize> {
    for (place, history) in histories.iter().enumerate() {
        if !is_so(alloc, *history) {
            return Some(place);
        }
    }
    None
}

// Fails the test where there is a row that isn't as it should be, and says its place.
pub fn none_fails<R: Abort>(rt: &R, failed: Option<usize>) {
    if let Some(place) = failed {
        panic!(rt; "row {place}")
    }
}

#[test]
fn calls_end_or_are_refused(rt: HostRuntime) {
    none_fails(&rt, first_not_so(rt.alloc(), &CALLS));
}

#[test]
fn forwards_and_cancels_end(rt: HostRuntime) {
    none_fails(&rt, first_not_so(rt.alloc(), &FORWARDS));
}

#[test]
fn servers_that_end_are_told(rt: HostRuntime) {
    none_fails(&rt, first_not_so(rt.alloc(), &LIVES));
}

#[test]
fn conversations_end(rt: HostRuntime) {
    none_fails(&rt, first_not_so(rt.alloc(), &TALKS));
}

#[test]
fn the_board_changes(rt: HostRuntime) {
    none_fails(&rt, first_not_so(rt.alloc(), &CHANGES));
}

#[test]
fn calls_at_fault_are_refused(rt: HostRuntime) {
    none_fails(&rt, first_not_so(rt.alloc(), &FAULTS));
}

#[test]
fn ends_at_fault_are_refused(rt: HostRuntime) {
    none_fails(&rt, first_not_so(rt.alloc(), &TALK_FAULTS));
}
