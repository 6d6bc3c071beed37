//! A client on one thread, of a trial that plays the board, the queues and the servers: each call here leaves it fit for the
//! next one.
ghost use Rattle.std.specs.Prelude.{◌≡◌, ℕ, ◌+◌, ◌<◌, ◌≤◌, ◌^◌, ◌++◌, [], ◌∷◌, true, IfErr, IfOk, IfSome, MatchOption};
ghost use Rattle.xa_types.specs.Configured.{is_configured};
ghost use Rattle.xa_cell.specs.Views.{at};
ghost use Rattle.xa_cell.specs.Known.{known, IsSeatOf, callers_of};
ghost use Rattle.xa_cell.specs.Places.{IsShut};
ghost use Rattle.xa_caller.specs.Caller.{AreRowsOf};
ghost use Rattle.xa_caller.specs.Unsent.{MayBe};
ghost use Rattle.xa_caller.specs.xa_frame.Spelling.{IsData};
ghost use Rattle.xa_trials_callers.specs.Callers.{Rests, HasDraft, IsOut, Awaits};

use std::alloc::Global;
use std::process::Abort;
use xa_buffer::Shapes;
use xa_caller::{Aimed, Caller, Cargo, Filling, Left, Note, Prepared, Step, Stop, Why};
use xa_cell::{Cells, Filled, Seat, Ticket};
use xa_events::Event;
use xa_held::Invocation;
use xa_queue::Entry;
use xa_route::row_for;
use xa_types::{
    Answer, Ask, CallerId, Fault, Found, Kind, Name, QueueId, RequestId, Row, Setup, Stamp,
};
use xa_worker::{Halt, Work};

/// What a queue does with a request: it takes it, it is down, closed or full, or memory runs out there.
#[derive(Clone, Copy)]
pub enum State {
    Up,
    Down,
    Closed,
    Full,
    Halts,
}

/// Queues that the board lists for a service.
pub type Queues = &'static [(u16, State)];

/// What a server answers, or a caller is told: success or failure with code 7 and the data of the call, or an error; or
/// nothing, at a halt.
#[derive(Clone, Copy)]
pub enum Says {
    Success,
    Failed,
    Error(Fault),
    Nothing,
}

/// A boot makes no more changes of the board than that.
pub const VERSION: u64 = 256;

/// The last stamp.
pub const END: u64 = 1 << 63;

/// A client's caller, and the number of its last call.
pub struct Client {
    pub caller: Caller,
    pub last: u32,
}

/// A request that no queue took, and why.
pub struct Unsent {
    pub note: Note,
    pub entry: Entry<Cargo>,
    pub why: Why,
}

/// What a lookup of the service finds.
pub fn found_of(
    alloc: Global,
    setup: &Setup,
    service: Name,
    routine: Name,
    queues: Queues,
) -> Option<Found>
    requires { is_configured setup.now ≡ true }
    ensures version { IfSome result (λ found. found.version ≡ 256) }
    ensures rows { IfSome result (λ found. AreRowsOf setup.now service found.rows) }
{
    let mut rows: Vec<Row> = Vec::new(alloc);
    for (queue, _) in queues {
        rows.push(row_for(setup, QueueId(*queue), service, routine))
            .ok()?;
    }
    Some(Found {
        version: VERSION,
        stamp: Stamp(0),
        rows,
    })
}

// Why no queue took a request where that queue is full.
fn full(setup: &Setup, queue: u16) -> Why
    ensures { MayBe setup.now result }
{
    if queue == 0 {
        return Why::AllShut;
    }
    match setup.queues.slice().get(usize::from(queue) - 1) {
        Some(configured) if configured.capacity > 0 => Why::Full(
            QueueId(queue),
            configured.capacity,
        ),
        _ => Why::AllShut,
    }
}

// A stamp that comes behind all that the caller noted or saw.
fn later_stamp<R: Abort>(rt: &R, caller: &Caller) -> Stamp
    ensures later { caller.now.work.stamp.0 < result.0 }
    ensures bound { result.0 ≤ 2 ^ 63 }
{
    let seen = caller.stamp();
    if seen.0 >= END {
        panic!(rt; "no stamp")
    }
    Stamp(seen.0 + 1)
}

// The number of the next call.
fn next_op<R: Abort>(rt: &R, last: u32) -> u32
    ensures { result ≡ last + 1 }
{
    match last.checked_add(1) {
        Some(op) => op,
        None => panic!(rt; "no number"),
    }
}

fn shapes_of<R: Abort>(rt: &R, alloc: Global, setup: &Setup) -> Shapes
    requires { is_configured setup.now ≡ true }
    ensures { result ≡ setup.now.shapes }
{
    match Shapes::of(alloc, setup) {
        Ok(shapes) => shapes,
        Err(_) => panic!(rt; "no memory"),
    }
}

/// Makes the request for a call, unless it is refused.
pub fn prepare<R: Abort>(
    rt: &R,
    alloc: Global,
    setup: &Setup,
    cells: &Cells<Filling>,
    client: &mut Client,
    ask: &Ask,
    queues: Queues,
) -> Option<(Prepared, Found)>
    requires configured { is_configured setup.now ≡ true }
    requires rests { Rests setup.now cells.now client.old.last client.old.caller }
    ensures { MatchOption result (Rests setup.now cells.now client.new.last client.new.caller) (λ made. HasDraft setup.now cells.now client.new.last made.1 made.0.entry client.new.caller) }
{
    let op = next_op(rt, client.last);
    let shapes = shapes_of(rt, alloc, setup);
    let checked = client.caller.check(&shapes, op, ask);
    drop(shapes);
    let service = match checked {
        Ok(service) => service,
        Err(Stop::Refused(_)) => {
            client.last = op;
            return None;
        }
        Err(Stop::Halt(_)) => panic!(rt; "halt"),
    };
    let Some(found) = found_of(alloc, setup, service, service, queues) else {
        panic!(rt; "no memory")
    };
    match client.caller.prepare(alloc, setup, cells, op, ask, &found) {
        Ok(prepared) => Some((prepared, found)),
        Err(Stop::Refused(_)) => {
            client.last = op;
            None
        }
        Err(Stop::Halt(_)) => panic!(rt; "halt"),
    }
}

/// Sets the priority of the next request.
pub fn set_priority<R: Abort>(
    rt: &R,
    setup: &Setup,
    cells: &Cells<Filling>,
    client: &mut Client,
    absolute: bool,
    amount: i32,
)
    requires { Rests setup.now cells.now client.old.last client.old.caller }
    ensures { Rests setup.now cells.now client.new.last client.new.caller }
{
    let _ = setup;
    let _ = cells;
    let op = next_op(rt, client.last);
    match client.caller.set_priority(op, absolute, amount) {
        Ok(_) => client.last = op,
        Err(_) => panic!(rt; "halt"),
    }
}

// The queue at which the event accepts a request.
fn queue_in(event: &Event) -> u16 {
    match event {
        Event::Accept(accepted) => accepted.queue.0,
        _ => 0,
    }
}

// The same, and the event is let go of.
fn queue_of(event: Event) -> u16 {
    let queue = queue_in(&event);
    drop(event);
    queue
}

// What the queue at which a request is aimed does with it, where the board lists that queue at this place.
fn state_at<R: Abort>(rt: &R, queues: Queues, attempt: u32, aimed: u16) -> State {
    match queues.get(attempt as usize) {
        Some((queue, state)) if *queue == aimed => *state,
        Some(_) | None => panic!(rt; "it is aimed elsewhere"),
    }
}

/// Puts the request on the first of the queues that is up. It comes back where none is, or memory runs out at one.
pub fn put<R: Abort>(
    rt: &R,
    alloc: Global,
    setup: &Setup,
    cells: &Cells<Filling>,
    client: &mut Client,
    prepared: Prepared,
    found: &Found,
    queues: Queues,
) -> Result<Entry<Cargo>, Unsent>
    requires { HasDraft setup.now cells.now client.old.last found.now prepared.entry client.old.caller }
    ensures ok { IfOk result (λ entry. Awaits setup.now cells.now client.new.last entry client.new.caller) }
    ensures unsent { IfErr result (λ unsent. HasDraft setup.now cells.now client.new.last found.now unsent.entry client.new.caller × MayBe setup.now unsent.why) }
{
    let _ = cells;
    let Prepared { entry, event, note } = prepared;
    let mut entry = entry;
    let mut aimed = queue_of(event);
    let mut why = Why::AllShut;
    for attempt in 0..64u32 {
        match state_at(rt, queues, attempt, aimed) {
            State::Up => {
                let stamp = later_stamp(rt, &client.caller);
                client.last = next_op(rt, client.last);
                client.caller.sent(note, stamp);
                return Ok(entry);
            }
            State::Halts => {
                let why = Why::Halt(Halt::NoMemory);
                return Err(Unsent { note, entry, why });
            }
            State::Full => why = full(setup, aimed),
            State::Down | State::Closed => {}
        }
        match client.caller.aim(alloc, entry, found, attempt + 1) {
            Aimed::At(next, event) => {
                entry = next;
                aimed = queue_of(event);
            }
            Aimed::NoMemory(_back) => panic!(rt; "no memory"),
            Aimed::Past(entry) => return Err(Unsent { note, entry, why }),
        }
    }
    Err(Unsent { note, entry, why })
}

/// Gives a request back that no queue took.
pub fn give_back<R: Abort>(
    rt: &R,
    setup: &Setup,
    cells: &Cells<Filling>,
    client: &mut Client,
    found: &Found,
    unsent: Unsent,
    no_block: bool,
) -> Step
    requires draft { HasDraft setup.now cells.now client.old.last found.now unsent.entry client.old.caller }
    requires why { MayBe setup.now unsent.why }
    ensures { Rests setup.now cells.now client.new.last client.new.caller }
{
    let _ = setup;
    let _ = found;
    let Unsent { note, entry, why } = unsent;
    match client.caller.unsent(cells, note, entry, why, no_block) {
        Step::Told(stamp) => {
            client.last = next_op(rt, client.last);
            Step::Told(stamp)
        }
        Step::Wait => Step::Wait,
        Step::Halt(halt) => Step::Halt(halt),
        Step::Halted => Step::Halted,
    }
}

// The ticket of a request, and what its cell is filled with.
fn filling_of(entry: Entry<Cargo>, says: Says, stamp: Stamp) -> (Ticket<Filling>, Filling)
    requires bound { stamp.0 ≤ 2 ^ 63 }
    requires spelled { IsData entry.cargo.invocation.payload }
    ensures { result.0 ≡ entry.cargo.ticket }
{
    let Entry {
        request: _,
        priority: _,
        cargo,
    } = entry;
    let Cargo { ticket, invocation } = cargo;
    let Invocation {
        service: _,
        routine: _,
        hop: _,
        payload,
    } = invocation;
    let answer = match says {
        Says::Success => Some(Answer::Success(7, payload)),
        Says::Failed => Some(Answer::Failed(7, payload)),
        Says::Error(fault) => Some(Answer::Error(fault)),
        Says::Nothing => None,
    };
    (ticket, Filling { answer, stamp })
}

// Looks for the answer before it comes, and fills the cell of its request. The stamp that comes with it.
fn fill<R: Abort>(
    rt: &R,
    setup: &Setup,
    cells: &Cells<Filling>,
    client: &mut Client,
    entry: Entry<Cargo>,
    says: Says,
) -> Stamp
    requires { Awaits setup.now cells.now client.old.last entry client.old.caller }
    ensures out { IsOut setup.now cells.now client.new.last client.new.caller }
    ensures bound { result.0 ≤ 2 ^ 63 }
{
    let _ = setup;
    match client.caller.call_reply(cells, &None) {
        Step::Wait => {}
        _ => panic!(rt; "told before it was answered"),
    }
    let stamp = later_stamp(rt, &client.caller);
    let (ticket, filling) = filling_of(entry, says, stamp);
    match client.caller.fill(cells, ticket, filling) {
        Filled::Delivered => stamp,
        Filled::Dropped(_) => panic!(rt; "dropped"),
    }
}

/// Answers a request, for which its caller has looked before, and tells the caller.
pub fn answer<R: Abort>(
    rt: &R,
    setup: &Setup,
    cells: &Cells<Filling>,
    client: &mut Client,
    entry: Entry<Cargo>,
    says: Says,
    expect: &Option<Kind>,
)
    requires { Awaits setup.now cells.now client.old.last entry client.old.caller }
    ensures { Rests setup.now cells.now client.new.last client.new.caller }
{
    let stamp = fill(rt, setup, cells, client, entry, says);
    match client.caller.call_reply(cells, expect) {
        Step::Told(told) => assert!(rt; told.0 == stamp.0 + 1),
        _ => panic!(rt; "no answer"),
    }
}

/// Fills the cell of a request, whose caller then saw that stamp, and finds that the run halts: nothing is answered, or stamps
/// came to their end.
pub fn lose<R: Abort>(
    rt: &R,
    setup: &Setup,
    cells: &Cells<Filling>,
    mut client: Client,
    entry: Entry<Cargo>,
    says: Says,
    seen: u64,
) -> Left
    requires awaits { Awaits setup.now cells.now client.last entry client.caller }
    requires seen { seen ≤ 2 ^ 63 }
    ensures { IsSeatOf cells.now result.seat × IsShut result.seat }
{
    fill(rt, setup, cells, &mut client, entry, says);
    client.caller.saw(Stamp(seen));
    let is_halted = match client.caller.call_reply(cells, &None) {
        Step::Halted => matches!(says, Says::Nothing),
        Step::Halt(Halt::Worn(last)) => seen == END && last.0 == END,
        _ => panic!(rt; "no halt"),
    };
    assert!(rt; is_halted);
    let Client { caller, last: _ } = client;
    caller.abandon(cells)
}

/// The caller of a request leaves before it is answered, and its answer is dropped.
pub fn leave<R: Abort>(
    rt: &R,
    setup: &Setup,
    cells: &Cells<Filling>,
    client: Client,
    entry: Entry<Cargo>,
) -> Left
    requires { Awaits setup.now cells.now client.last entry client.caller }
    ensures { IsSeatOf cells.now result.seat × IsShut result.seat }
{
    let _ = setup;
    let Client { caller, last: _ } = client;
    let stamp = later_stamp(rt, &caller);
    let Left {
        work,
        mut seat,
        halt,
    } = caller.abandon(cells);
    let (ticket, filling) = filling_of(entry, Says::Success, stamp);
    match cells.fill(&mut seat, ticket, filling) {
        Filled::Dropped(back) => drop(back),
        Filled::Delivered => panic!(rt; "delivered"),
    }
    Left { work, seat, halt }
}

/// The last of the seats.
pub fn next_seat<R: Abort>(rt: &R, seats: &mut Vec<Seat<Filling>>) -> Seat<Filling>
    ensures { seats.old.items ≡ seats.new.items ++ result ∷ [] }
{
    match seats.pop() {
        Some(seat) => seat,
        None => panic!(rt; "no seat"),
    }
}

/// No seat is left.
pub fn end_seats<R: Abort>(rt: &R, seats: Vec<Seat<Filling>>)
    ensures { seats.items ≡ [] }
{
    if !seats.is_empty() {
        panic!(rt; "one more seat")
    }
    seats.destroy_empty();
}

// The only one of the seats.
fn only_seat<R: Abort>(rt: &R, seats: Vec<Seat<Filling>>) -> Seat<Filling>
    ensures { seats.items ≡ result ∷ [] }
{
    let mut seats = seats;
    let seat = next_seat(rt, &mut seats);
    end_seats(rt, seats);
    seat
}

/// 50 cells, and the client whose they are, which has made no call.
pub fn open<R: Abort>(rt: &R, alloc: Global, setup: &Setup) -> (Cells<Filling>, Client)
    requires { is_configured setup.now ≡ true }
    ensures cells { callers_of result.0 ≡ 1 }
    ensures rests { Rests setup.now result.0 result.1.last result.1.caller }
{
    let Ok((cells, seats)) = Cells::<Filling>::new(alloc, &[50]) else {
        panic!(rt; "no memory")
    };
    let seat = only_seat(rt, seats);
    let work = Work::new(alloc, setup, 1, CallerId(1), Stamp(0));
    let caller = Caller::new(alloc, work, seat, VERSION);
    (cells, Client { caller, last: 0 })
}

// How many places are open at once where no more can be, at most so many. They are given back.
fn places_of(cells: &Cells<Filling>, seat: &mut Seat<Filling>, most: u32) -> u32
    requires { IsSeatOf cells.now seat.old }
    ensures table { IsSeatOf cells.now seat.new }
    ensures asked { (k : ℕ) → (at k (known seat.new)).asked ≡ (at k (known seat.old)).asked }
    ensures most { result ≤ most }
{
    if most == 0 {
        return 0;
    }
    let request = RequestId {
        caller: CallerId(1),
        number: 1,
    };
    match cells.begin(seat, request) {
        Err(_) => 0,
        Ok((place, ticket)) => {
            let others = places_of(cells, seat, most - 1);
            cells.withdraw(seat, place, ticket);
            others + 1
        }
    }
}

/// Ends the cells, and answers how many of the client's were free, up to 100.
pub fn close<R: Abort>(rt: &R, alloc: Global, cells: Cells<Filling>, seat: Seat<Filling>) -> u32
    requires cells { callers_of cells ≡ 1 }
    requires seat { IsSeatOf cells seat × IsShut seat }
{
    let mut seat = seat;
    let free = places_of(&cells, &mut seat, 100);
    let Ok(mut seats) = Vec::with_capacity(alloc, 1) else {
        panic!(rt; "no memory")
    };
    seats.push_reserved(seat);
    cells.close(seats);
    free
}
