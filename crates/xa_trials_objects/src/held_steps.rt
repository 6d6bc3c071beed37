//! One step at a queue as a lock guards it, by a client or by its only server, and what is told of it.
ghost use Rattle.std.specs.Prelude.{◌≡◌, ◌≤◌, ◌^◌, ◌++◌, [], ◌∷◌, IfSome, IfOk, IfErr, vec_capacity};
ghost use Rattle.xa_types.specs.declared.data.Data.TheVariants.{Absent};
ghost use Rattle.xa_queue.specs.Queue.{gives_up};
ghost use Rattle.xa_queue.specs.Changes.{IsEntry};
ghost use Rattle.xa_held.specs.Kept.{Brings};
ghost use Rattle.xa_trials_objects.specs.Held.{Sits, IsFor, HasTicket, IsFit, HandsOut, IsOf, Serves, IsDown, Keeps};

use std::process::Abort;
use xa_cell::{Cells, Seat, Ticket};
use xa_events::{Accepted, Event};
use xa_held::{Cargo, Invocation, KeptQueue};
use xa_queue::{Entry, Outgoing, PutRefused, Refusal, Taken};
use xa_stamp::Noted;
use xa_types::{CallerId, Data, Generation, Mode, Name, QueueId, RequestId, ServerId, Stamp, Worn};

pub type Carried = Entry<Cargo<u32>>;

pub type Kept = KeptQueue<u32>;

/// What is told: the stamp of what was noted, and the number of the request that came out; why a request came back,
/// and the stamp with which it was put at the other queue; or how else it ends.
#[derive(Clone, Copy, PartialEq, Eq)]
pub enum Told {
    Done(u64),
    Out(u64, u64),
    Past(Refusal, u64),
    Back(Refusal),
    Empty,
    Closed,
    Down,
    Worn,
}

// The event that brings an entry to that queue.
fn event_of(id: QueueId, entry: &Carried) -> Event
    requires absent { entry.now.cargo.invocation.payload ≡ Absent }
    requires first { entry.now.cargo.invocation.hop ≡ 0 }
    ensures entry { IsEntry id entry.now result }
    ensures brings { Brings entry.now.request entry.now.cargo.invocation result }
    ensures left { gives_up result ≡ [] }
{
    let asked = &entry.cargo.invocation;
    Event::Accept(Accepted {
        by: entry.request.caller,
        op: 1,
        request: entry.request,
        version: 1,
        service: asked.service,
        queue: id,
        routine: asked.routine,
        priority: entry.priority,
        mode: Mode::Reply,
        payload: Data::Absent,
    })
}

// A ticket for the request, for whose answer nobody waits.
fn open(cells: &Cells<u32>, seat: &mut Seat<u32>, request: RequestId) -> Option<Ticket<u32>>
    requires { Sits cells.now seat.old }
    ensures seat { Sits cells.now seat.new }
    ensures ticket { IfSome result (IsFor cells.now request) }
{
    let Ok((place, ticket)) = cells.begin(seat, request) else {
        return None;
    };
    let _ = cells.cancel(seat, place);
    Some(ticket)
}

/// The client's request of that number, with that priority.
pub fn entry_of(
    cells: &Cells<u32>,
    seat: &mut Seat<u32>,
    number: u64,
    priority: u8,
) -> Option<Carried>
    requires seat { Sits cells.now seat.old }
    requires priority { (1 ≤ priority) × (priority ≤ 100) }
    ensures seat { Sits cells.now seat.new }
    ensures fit { IfSome result (IsFit cells.now) }
{
    let service = Name::read(b"A").ok()?;
    let caller = CallerId(1);
    let request = RequestId { caller, number };
    let ticket = open(cells, seat, request)?;
    let invocation = Invocation {
        service,
        routine: service,
        hop: 0,
        payload: Data::Absent,
    };
    Some(Entry {
        request,
        priority,
        cargo: Cargo { ticket, invocation },
    })
}

/// Answers the request of an entry, and tells its number.
pub fn finish(cells: &Cells<u32>, seat: &mut Seat<u32>, entry: Carried) -> u64
    requires seat { Sits cells.now seat.old }
    requires ticket { HasTicket cells.now entry }
    ensures { Sits cells.now seat.new }
{
    let Entry {
        request,
        priority: _,
        cargo: Cargo {
            ticket,
            invocation: _,
        },
    } = entry;
    let _ = cells.fill(seat, ticket, 1);
    request.number
}

pub fn told_put(
    cells: &Cells<u32>,
    seat: &mut Seat<u32>,
    answer: Result<Stamp, PutRefused<Cargo<u32>>>,
) -> Told
    requires seat { Sits cells.now seat.old }
    requires back { IfErr answer (λ back. IsFit cells.now back.entry) }
    ensures { Sits cells.now seat.new }
{
    match answer {
        Ok(stamp) => Told::Done(stamp.0),
        Err(PutRefused { entry, why }) => {
            finish(cells, seat, entry);
            Told::Back(why)
        }
    }
}

fn told_out(cells: &Cells<u32>, seat: &mut Seat<u32>, out: Outgoing<Cargo<u32>>) -> Told
    requires seat { Sits cells.now seat.old }
    requires ticket { HasTicket cells.now out.entry }
    ensures { Sits cells.now seat.new }
{
    let Outgoing { entry, noted } = out;
    Told::Out(finish(cells, seat, entry), noted.stamp.0)
}

fn told_taken(
    cells: &Cells<u32>,
    seat: &mut Seat<u32>,
    answer: Result<Taken<Cargo<u32>>, Worn>,
) -> Told
    requires seat { Sits cells.now seat.old }
    requires out { IfOk answer (HandsOut cells.now) }
    ensures { Sits cells.now seat.new }
{
    match answer {
        Ok(Taken::Request(out)) => told_out(cells, seat, out),
        Ok(Taken::Empty) => Told::Empty,
        Ok(Taken::Closed) => Told::Closed,
        Err(_) => Told::Worn,
    }
}

fn told_swept(
    cells: &Cells<u32>,
    seat: &mut Seat<u32>,
    answer: Result<Option<Outgoing<Cargo<u32>>>, Worn>,
) -> Told
    requires seat { Sits cells.now seat.old }
    requires out { IfOk answer (λ swept. IfSome swept (λ out. HasTicket cells.now out.entry)) }
    ensures { Sits cells.now seat.new }
{
    match answer {
        Ok(Some(out)) => told_out(cells, seat, out),
        Ok(None) => Told::Empty,
        Err(_) => Told::Worn,
    }
}

fn told_ended(answer: Result<Option<Noted>, Worn>, before: Told) -> Told {
    match answer {
        Ok(Some(noted)) => Told::Done(noted.stamp.0),
        Ok(None) => before,
        Err(_) => Told::Worn,
    }
}

/// The client puts an entry.
pub fn put(
    cells: &Cells<u32>,
    queue: &mut Kept,
    id: QueueId,
    seen: Stamp,
    entry: Carried,
) -> Result<Stamp, PutRefused<Cargo<u32>>>
    requires is { IsOf cells.now id.0 queue.old }
    requires seen { seen.0 ≤ 2 ^ 63 }
    requires fit { IsFit cells.now entry }
    ensures keeps { Keeps cells.now id.0 queue.old queue.new }
    ensures back { IfErr result (λ back. IsFit cells.now back.entry) }
{
    let _ = cells;
    let event = event_of(id, &entry);
    queue.put(seen, CallerId(1), event, entry)
}

/// The server takes.
pub fn take(
    cells: &Cells<u32>,
    queue: &mut Kept,
    id: QueueId,
    seat: &mut Seat<u32>,
    seen: Stamp,
) -> Told
    requires seat { Sits cells.now seat.old }
    requires serves { Serves cells.now id.0 queue.old }
    requires seen { seen.0 ≤ 2 ^ 63 }
    ensures seat { Sits cells.now seat.new }
    ensures keeps { Keeps cells.now id.0 queue.old queue.new }
{
    let _ = id;
    let answer = queue.take(seen, CallerId(2), ServerId(1), Generation(1));
    told_taken(cells, seat, answer)
}

/// The client closes the queue.
pub fn close(cells: &Cells<u32>, queue: &mut Kept, id: QueueId, seen: Stamp) -> Told
    requires is { IsOf cells.now id.0 queue.old }
    requires seen { seen.0 ≤ 2 ^ 63 }
    ensures { Keeps cells.now id.0 queue.old queue.new }
{
    let _ = cells;
    let _ = id;
    let answer = queue.close(seen, CallerId(1));
    told_ended(answer, Told::Closed)
}

/// The server sweeps a queue that is down.
pub fn sweep(
    cells: &Cells<u32>,
    queue: &mut Kept,
    id: QueueId,
    seat: &mut Seat<u32>,
    seen: Stamp,
) -> Told
    requires seat { Sits cells.now seat.old }
    requires down { IsDown cells.now id.0 queue.old }
    requires seen { seen.0 ≤ 2 ^ 63 }
    ensures seat { Sits cells.now seat.new }
    ensures keeps { Keeps cells.now id.0 queue.old queue.new }
{
    let _ = id;
    let answer = queue.sweep(seen, CallerId(2));
    told_swept(cells, seat, answer)
}

/// Takes a queue down that is down.
pub fn down(cells: &Cells<u32>, queue: &mut Kept, id: QueueId, seen: Stamp) -> Told
    requires down { IsDown cells.now id.0 queue.old }
    requires seen { seen.0 ≤ 2 ^ 63 }
    ensures { Keeps cells.now id.0 queue.old queue.new }
{
    let _ = cells;
    let _ = id;
    let answer = queue.down(seen, CallerId(2));
    told_ended(answer, Told::Down)
}

/// The last of these, which there is.
pub fn next<T, R: Abort>(rt: &R, all: &mut Vec<T>) -> T
    ensures items { all.old.items ≡ all.new.items ++ result ∷ [] }
    ensures room { vec_capacity all.new ≡ vec_capacity all.old }
{
    match all.pop() {
        Some(one) => one,
        None => panic!(rt; "none is left"),
    }
}
