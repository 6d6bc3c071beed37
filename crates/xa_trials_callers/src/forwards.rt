//! A server with a request in hand: where that is forwarded, on which queue it goes on, and what waits for it there, and
//! how it ends where it doesn't go on; and that its caller is told of a halt.
ghost use Rattle.std.specs.Prelude.{◌≡◌, ◌<◌, ◌≤◌, ◌^◌, ℕ, true, List, None, IfSome};
ghost use Rattle.xa_types.specs.Configured.{is_configured};
ghost use Rattle.xa_cell.specs.Known.{known, IsNew, IsSeatOf, IsTicketOf};
ghost use Rattle.xa_cell.specs.Places.{IsShut};
ghost use Rattle.xa_caller.specs.Serving.{IsForwardBy};
ghost use Rattle.xa_caller.specs.declared.phase.Phase.TheVariants as phases;
ghost use Rattle.xa_trials_callers.specs.Forwards.{Waits, Holds, IsOut, AreFor, LeavesOut, IsOver, IsSettled};

use crate::askers::{REQUEST, Told, ask, close_cells, open_cells, tell};
use crate::callers::{
    A, BOTH_SHUT, Brings, DOWN_UP, FULL_DOWN, FULL_HALTS, PAIR, SHORT, UP, data_of, is_data,
};
use crate::clients::{Queues, State, VERSION, found_of};
use crate::memory::setup_of;
use crate::rows::none_fails;
use std::alloc::Global;
use std::process::Abort;
use std::snapshot::Snapshot;
use xa_buffer::Shapes;
use xa_caller::{Aimed, Caller, Cargo, Filling, Left};
use xa_cell::{Cells, Seat};
use xa_events::{Event, Forwarded, Outcome, StopCause, Taken};
use xa_queue::Entry;
use xa_restart::Lives;
use xa_server::{Closing, Forwarding, Given, ServerSlot};
use xa_stamp::Home;
use xa_types::{CallerId, Found, Generation, Name, Octets, ServerId, Setup, Stamp};
use xa_worker::Work;

const SETUP: &[u8] = b"
shape = [{ name = 'pair', fields = ['number short', 'letter char'] }]
queue = [{ name = 'P' }, { name = 'Q' }]
server = [{ name = 'S', queue = 'P' }, { name = 'T', queue = 'Q' }]
service = [
  { name = 'ECHO', queues = ['P', 'Q'], priority = 60 },
  { name = 'PAIR', queues = ['Q'], priority = 60, accepts = ['c:pair'] },
]";

const LONGEST: &[u8] = b"SERVICE_WITH_A_NAME_OF_31_OCTET";

const TOO_LONG: &[u8] = b"SERVICE_WITH_A_NAME_OF_32_OCTETS";

const ROUTINE: &[u8] = b"R";

// How the request leaves the server: it goes on, it ends as a forward that failed, with that version of the board, or it ends
// as the life does, for want of memory.
#[derive(Clone, Copy, PartialEq, Eq)]
enum End {
    On,
    Failed(u64),
    Starved,
}

// What the service sets for the priority of the next request, and with which priority its request goes on.
type Wish = (Option<(bool, i32)>, u8);

const OWN: Wish = (None, 60);

const DEFAULT: Wish = (None, 50);

const LOW: Wish = (Some((true, 7)), 7);

const MORE: Wish = (Some((false, 5)), 65);

// How often the request was forwarded before, the priority, the service that is named, the data, the queues that the board
// lists for the service, or for another where it is no name, and how the request leaves the server.
type Row = (u8, Wish, &'static [u8], Brings, Queues, End);

static ROWS: [Row; 18] = [
    (0, OWN, b"ECHO", A, UP, End::On),
    (1, LOW, b"ECHO", Brings::Nothing, DOWN_UP, End::On),
    (0, MORE, b"PAIR", PAIR, UP, End::On),
    (30, DEFAULT, LONGEST, PAIR, UP, End::On),
    (31, OWN, b"ECHO", A, DOWN_UP, End::On),
    (32, OWN, b"ECHO", A, UP, End::Failed(0)),
    (32, LOW, b"ECHO", A, &[], End::Failed(0)),
    (0, LOW, b"", A, UP, End::Failed(0)),
    (0, OWN, TOO_LONG, A, UP, End::Failed(0)),
    (0, OWN, b"ECHO", SHORT, UP, End::Failed(0)),
    (0, OWN, b"ECHO", SHORT, &[], End::Failed(0)),
    (0, OWN, b"ECHO", A, &[], End::Failed(VERSION)),
    (0, MORE, b"PAIR", A, UP, End::Failed(VERSION)),
    (0, LOW, b"ECHO", A, BOTH_SHUT, End::Failed(VERSION)),
    (
        0,
        OWN,
        b"ECHO",
        A,
        &[(1, State::Full)],
        End::Failed(VERSION),
    ),
    (31, OWN, b"ECHO", PAIR, FULL_DOWN, End::Failed(VERSION)),
    (0, OWN, b"ECHO", A, FULL_HALTS, End::Starved),
    (5, MORE, b"PAIR", PAIR, &[(2, State::Halts)], End::Starved),
];

// The next stamp of the caller, at another home.
fn next_stamp<R: Abort>(rt: &R, caller: &Caller) -> Stamp
    ensures later { caller.now.work.stamp.0 < result.0 }
    ensures bound { result.0 ≤ 2 ^ 63 }
{
    let last = caller.stamp();
    if last == Stamp::LAST {
        panic!(rt; "worn")
    }
    Stamp(last.0 + 1)
}

// That event, of which nothing but what contracts see stays.
fn seen(event: Event) -> Snapshot<Event>
    ensures { result.value ≡ event }
{
    let seen = Snapshot::of(&event);
    drop(event);
    seen
}

// A server and its caller.
struct Worker {
    slot: ServerSlot,
    caller: Caller,
}

// A server whose life waits for a request, and its caller with that seat.
fn worker_of<R: Abort>(
    rt: &R,
    alloc: Global,
    setup: &Setup,
    cells: &Cells<Filling>,
    seat: Seat<Filling>,
) -> Worker
    requires configured { is_configured setup.now ≡ true }
    requires table { IsSeatOf cells.now seat }
    requires new { IsNew seat.first seat.count (known seat) }
    requires count { seat.count ≡ 16 }
    ensures waits { Waits setup.now cells.now result.slot result.caller }
    ensures first { result.caller.op ≡ 0 }
{
    let _ = cells;
    let Some(server) = setup.servers.slice().first() else {
        panic!(rt; "no server")
    };
    let Ok(restarts) = Lives::new(alloc, server.restart, server.maxgen, server.grace) else {
        panic!(rt; "no memory")
    };
    let work = Work::new(alloc, setup, 1, CallerId(2), Stamp(0));
    let mut caller = Caller::new(alloc, work, seat, VERSION);
    let mut slot = ServerSlot::new(ServerId(1), restarts);
    if !slot.may_start(0) {
        panic!(rt; "it may not start")
    }
    let Ok(_life) = slot.started(&mut caller, 0) else {
        panic!(rt; "not started")
    };
    Worker { slot, caller }
}

// The server takes that request.
fn take<R: Abort>(
    rt: &R,
    setup: &Setup,
    cells: &Cells<Filling>,
    worker: &mut Worker,
    entry: Entry<Cargo>,
)
    requires waits { Waits setup.now cells.now worker.old.slot worker.old.caller }
    requires ticket { IsTicketOf cells.now entry.cargo.ticket }
    ensures holds { Holds setup.now cells.now worker.new.slot worker.new.caller }
    ensures op { worker.new.caller.op ≡ worker.old.caller.op }
{
    let _ = setup;
    let _ = cells;
    let taken = Taken {
        request: entry.request,
        server: worker.slot.server(),
        generation: worker.slot.life(),
        k: 1,
    };
    let stamp = next_stamp(rt, &worker.caller);
    worker
        .slot
        .begin(&mut worker.caller, entry, stamp, seen(Event::Take(taken)));
}

// The service sets that for the priority of its next request, if it sets one.
fn set_priority<R: Abort>(
    rt: &R,
    setup: &Setup,
    cells: &Cells<Filling>,
    worker: &mut Worker,
    set: Option<(bool, i32)>,
)
    requires holds { Holds setup.now cells.now worker.old.slot worker.old.caller }
    requires first { worker.old.caller.op ≡ 0 }
    ensures holds { Holds setup.now cells.now worker.new.slot worker.new.caller }
{
    let _ = setup;
    let _ = cells;
    let Some((absolute, amount)) = set else {
        return;
    };
    let Ok(_stamp) = worker.caller.set_priority(1, absolute, amount) else {
        panic!(rt; "halted")
    };
}

// What a lookup of that service finds, or of ECHO where it is no name.
fn look_up(alloc: Global, setup: &Setup, service: &[u8], queues: Queues) -> Option<Found>
    requires { is_configured setup.now ≡ true }
    ensures { IfSome result (λ found. AreFor setup.now service.now found) }
{
    let routine = Name::read(ROUTINE).ok()?;
    match Name::read(service) {
        Ok(name) => found_of(alloc, setup, name, routine, queues),
        Err(_) => found_of(alloc, setup, Name::read(b"ECHO").ok()?, routine, queues),
    }
}

// The service forwards its request.
fn forward<R: Abort>(
    rt: &R,
    alloc: Global,
    setup: &Setup,
    cells: &Cells<Filling>,
    worker: &mut Worker,
    found: &Found,
    service: &[u8],
    brings: Brings,
) -> Forwarding
    requires configured { is_configured setup.now ≡ true }
    requires holds { Holds setup.now cells.now worker.old.slot worker.old.caller }
    requires found { AreFor setup.now service.now found.now }
    ensures { LeavesOut setup.now cells.now result worker.new.slot worker.new.caller }
{
    let _ = cells;
    let (Some(payload), Ok(service), Ok(shapes)) = (
        data_of(alloc, brings),
        Octets::of(alloc, service),
        Shapes::of(alloc, setup),
    ) else {
        panic!(rt; "no memory")
    };
    let sound = shapes.sound(&payload);
    let Worker { slot, caller } = worker;
    match slot.finish_forward(alloc, setup, caller, sound, &service, payload, found) {
        Ok(forwarding) => forwarding,
        Err(_) => panic!(rt; "halted"),
    }
}

fn is_entry(entry: &Entry<Cargo>, row: &Row) -> bool {
    let (hop, (_, priority), service, brings, _, _) = *row;
    let invocation = &entry.cargo.invocation;
    entry.request == REQUEST
        && entry.priority == priority
        && invocation.service.octets() == service
        && invocation.routine.octets() == ROUTINE
        && invocation.hop == hop.wrapping_add(1)
        && is_data(&invocation.payload, brings)
}

fn is_forwarded(forwarded: &Forwarded, queue: u16, row: &Row) -> bool {
    let (hop, (_, priority), service, brings, _, _) = *row;
    forwarded.request == REQUEST
        && forwarded.generation == Generation(1)
        && forwarded.version == VERSION
        && forwarded.server == ServerId(1)
        && forwarded.queue.0 == queue
        && forwarded.hop == hop.wrapping_add(1)
        && forwarded.priority == priority
        && forwarded.service.octets() == service
        && forwarded.routine.octets() == ROUTINE
        && is_data(&forwarded.payload, brings)
}

// Whether that is to be put on that queue, by that event.
fn is_aimed(entry: &Entry<Cargo>, event: &Event, queue: u16, row: &Row) -> bool {
    match event {
        Event::Forward(forwarded) => is_entry(entry, row) && is_forwarded(forwarded, queue, row),
        _ => false,
    }
}

// The version of the board by which that event forwards a request.
fn version_in<R: Abort>(rt: &R, event: &Event) -> u64
    ensures { IsForwardBy result event.now }
{
    match event {
        Event::Forward(forwarded) => forwarded.version,
        _ => panic!(rt; "no forward"),
    }
}

// A queue takes the request, which waits there as the run halts. The server has nothing to do then.
fn go_on<R: Abort>(
    rt: &R,
    setup: &Setup,
    cells: &Cells<Filling>,
    worker: &mut Worker,
    entry: Entry<Cargo>,
    event: Event,
) -> Closing
    requires { IsOut setup.now cells.now entry event worker.old.slot worker.old.caller }
    ensures { IsOver cells.now result worker.new.slot worker.new.caller }
{
    let _ = setup;
    let _ = cells;
    let version = version_in(rt, &event);
    let stamp = next_stamp(rt, &worker.caller);
    let Worker { slot, caller } = worker;
    slot.forwarded(caller, version, stamp, seen(event));
    ServerSlot::abandon(entry)
}

// No queue takes the request.
fn refuse<R: Abort>(
    rt: &R,
    setup: &Setup,
    cells: &Cells<Filling>,
    worker: &mut Worker,
    entry: Entry<Cargo>,
    event: Event,
) -> Closing
    requires { IsOut setup.now cells.now entry event worker.old.slot worker.old.caller }
    ensures { IsOver cells.now result worker.new.slot worker.new.caller }
{
    let _ = setup;
    let _ = cells;
    drop(event);
    let Worker { slot, caller } = worker;
    match slot.forward_refused(caller, entry, VERSION) {
        Ok(closing) => closing,
        Err(_) => panic!(rt; "halted"),
    }
}

// Memory runs out at a queue, and the life ends.
fn starve<R: Abort>(
    rt: &R,
    setup: &Setup,
    cells: &Cells<Filling>,
    worker: &mut Worker,
    entry: Entry<Cargo>,
    event: Event,
) -> Closing
    requires { IsOut setup.now cells.now entry event worker.old.slot worker.old.caller }
    ensures { IsOver cells.now result worker.new.slot worker.new.caller }
{
    let _ = setup;
    let _ = cells;
    drop(event);
    let Worker { slot, caller } = worker;
    slot.retake(entry);
    match slot.died(caller, StopCause::Starved) {
        Ok(closing) => closing,
        Err(_) => panic!(rt; "worn"),
    }
}

// What the queue at that place does with the request, which is to be put there by that event.
fn state_at<R: Abort>(
    rt: &R,
    row: &Row,
    attempt: u32,
    entry: &Entry<Cargo>,
    event: &Event,
) -> State {
    let (_, _, _, _, queues, _) = *row;
    match queues.get(attempt as usize) {
        Some((queue, state)) if is_aimed(entry, event, *queue, row) => *state,
        Some(_) | None => panic!(rt; "it is aimed elsewhere"),
    }
}

// Puts the request on the first of the queues that takes it.
fn put<R: Abort>(
    rt: &R,
    alloc: Global,
    setup: &Setup,
    cells: &Cells<Filling>,
    worker: &mut Worker,
    found: &Found,
    row: &Row,
    mut entry: Entry<Cargo>,
    mut event: Event,
) -> Closing
    requires out { IsOut setup.now cells.now entry event worker.old.slot worker.old.caller }
    requires found { (service : List ℕ) × AreFor setup.now service found.now }
    ensures { IsOver cells.now result worker.new.slot worker.new.caller }
{
    for attempt in 0..64u32 {
        match state_at(rt, row, attempt, &entry, &event) {
            State::Up => return go_on(rt, setup, cells, worker, entry, event),
            State::Halts => return starve(rt, setup, cells, worker, entry, event),
            State::Down | State::Closed | State::Full => {}
        }
        let slot = &worker.slot;
        match slot.forward_again(alloc, &worker.caller, entry, found, attempt + 1) {
            Aimed::At(next, anew) => {
                entry = next;
                event = anew;
            }
            Aimed::NoMemory(_back) => panic!(rt; "no memory"),
            Aimed::Past(back) => return refuse(rt, setup, cells, worker, back, event),
        }
    }
    panic!(rt; "not put")
}

// How the request leaves the server, and what its caller is to be told.
fn leave<R: Abort>(
    rt: &R,
    alloc: Global,
    setup: &Setup,
    cells: &Cells<Filling>,
    worker: &mut Worker,
    row: &Row,
) -> Closing
    requires configured { is_configured setup.now ≡ true }
    requires holds { Holds setup.now cells.now worker.old.slot worker.old.caller }
    ensures { IsOver cells.now result worker.new.slot worker.new.caller }
{
    let (_, _, service, brings, queues, _) = *row;
    let Some(found) = look_up(alloc, setup, service, queues) else {
        panic!(rt; "no memory")
    };
    match forward(rt, alloc, setup, cells, worker, &found, service, brings) {
        Forwarding::Failed(closing) => closing,
        Forwarding::On(entry, event) => put(
            rt, alloc, setup, cells, worker, &found, row, entry, event,
        ),
    }
}

// Whether the server has nothing to do: its life, if it is in one, ends by itself, and nobody is told of that.
fn is_idle<R: Abort>(rt: &R, cells: &Cells<Filling>, worker: &mut Worker) -> bool
    requires { IsSettled cells.now worker.old.slot worker.old.caller }
    ensures free { worker.new.slot.hand ≡ None }
    ensures idle { worker.new.caller.phase ≡ phases.Idle }
    ensures table { IsSeatOf cells.now worker.new.caller.seat }
{
    let Generation(life) = worker.slot.life();
    if life == 0 {
        return true;
    }
    let Worker { slot, caller } = worker;
    let Ok(closing) = slot.died(caller, StopCause::EndOfInput) else {
        panic!(rt; "worn")
    };
    closing.give(caller, cells) == Given::Nothing
}

// What the caller of the request is told, in which life the server is then, and what is set for the priority of the next
// request: nothing, once the request went on.
fn is_told(end: End, told: Told, life: Generation, asked: Option<(bool, i32)>, wish: Wish) -> bool {
    match end {
        End::On => told == Told::Halted && life == Generation(1) && asked.is_none(),
        End::Failed(_) => told == Told::SvcErr && life == Generation(1) && asked == wish.0,
        End::Starved => told == Told::NoMemory && life == Generation(0) && asked == wish.0,
    }
}

// How the server's home says that the request ended, if it ended there.
fn end_in(home: &Home) -> End {
    for stamped in home.entries() {
        if let Event::End(ended) = &stamped.event {
            match ended.outcome {
                Outcome::BadForward(version) => return End::Failed(version),
                Outcome::Starved => return End::Starved,
                _ => {}
            }
        }
    }
    End::On
}

// Whether a request leaves the server as it should.
fn is_played<R: Abort>(
    rt: &R,
    alloc: Global,
    setup: &Setup,
    cells: &Cells<Filling>,
    worker: &mut Worker,
    seat: &mut Seat<Filling>,
    row: &Row,
) -> bool
    requires configured { is_configured setup.now ≡ true }
    requires waits { Waits setup.now cells.now worker.old.slot worker.old.caller }
    requires first { worker.old.caller.op ≡ 0 }
    requires table { IsSeatOf cells.now seat.old }
    requires shut { IsShut seat.old }
    ensures free { worker.new.slot.hand ≡ None }
    ensures idle { worker.new.caller.phase ≡ phases.Idle }
    ensures table { IsSeatOf cells.now worker.new.caller.seat × IsSeatOf cells.now seat.new }
    ensures shut { IsShut seat.new }
{
    let (hop, wish, _, _, _, end) = *row;
    let (place, mut entry) = ask(rt, cells, seat);
    entry.cargo.invocation.hop = hop;
    take(rt, setup, cells, worker, entry);
    set_priority(rt, setup, cells, worker, wish.0);
    let closing = leave(rt, alloc, setup, cells, worker, row);
    let told = tell(&mut worker.caller, cells, seat, place, closing);
    let asked = worker.caller.next_priority();
    let right = is_told(end, told, worker.slot.life(), asked, wish);
    let idle = is_idle(rt, cells, worker);
    right && idle
}

fn is_so<R: Abort>(rt: &R, alloc: Global, setup: &Setup, row: &Row) -> bool
    requires { is_configured setup.now ≡ true }
{
    let (cells, mut seat, own) = open_cells(rt, alloc);
    let mut worker = worker_of(rt, alloc, setup, &cells, own);
    let right = is_played(rt, alloc, setup, &cells, &mut worker, &mut seat, row);
    let Worker { slot, caller } = worker;
    slot.end();
    let Left {
        work,
        seat: own,
        halt: _,
    } = caller.abandon(&cells);
    let ended = end_in(&work.home());
    close_cells(rt, alloc, cells, seat, own);
    let (_, _, _, _, _, end) = *row;
    right && ended == end
}

fn first_not_so<R: Abort>(rt: &R, alloc: Global, rows: &[Row]) -> Option<usize> {
    let Some(setup) = setup_of(alloc, SETUP) else {
        panic!(rt; "no setup")
    };
    for (place, row) in rows.iter().enumerate() {
        if !is_so(rt, alloc, &setup, row) {
            return Some(place);
        }
    }
    None
}

// Whether the caller of a request that the server has in hand is told that the run halts.
fn is_let_go<R: Abort>(
    rt: &R,
    setup: &Setup,
    cells: &Cells<Filling>,
    worker: &mut Worker,
    seat: &mut Seat<Filling>,
) -> bool
    requires waits { Waits setup.now cells.now worker.old.slot worker.old.caller }
    requires table { IsSeatOf cells.now seat.old }
    requires shut { IsShut seat.old }
    ensures free { worker.new.slot.hand ≡ None }
    ensures idle { worker.new.caller.phase ≡ phases.Idle }
    ensures table { IsSeatOf cells.now worker.new.caller.seat × IsSeatOf cells.now seat.new }
    ensures shut { IsShut seat.new }
{
    let (place, entry) = ask(rt, cells, seat);
    take(rt, setup, cells, worker, entry);
    let Some(closing) = worker.slot.give_up() else {
        panic!(rt; "nothing in hand")
    };
    tell(&mut worker.caller, cells, seat, place, closing) == Told::Halted
}

#[test]
fn a_request_is_forwarded_or_ends(rt: HostRuntime) {
    none_fails(&rt, first_not_so(&rt, rt.alloc(), &ROWS));
}

#[test]
fn a_halt_tells_the_caller_of_a_request_in_hand(rt: HostRuntime) {
    let alloc = rt.alloc();
    let Some(setup) = setup_of(alloc, SETUP) else {
        panic!(rt; "no setup")
    };
    let (cells, mut seat, own) = open_cells(&rt, alloc);
    let mut worker = worker_of(&rt, alloc, &setup, &cells, own);
    let right = is_let_go(&rt, &setup, &cells, &mut worker, &mut seat);
    let Worker { slot, caller } = worker;
    slot.end();
    let Left {
        work,
        seat: own,
        halt: _,
    } = caller.abandon(&cells);
    drop(work);
    close_cells(&rt, alloc, cells, seat, own);
    assert!(rt; right);
}
