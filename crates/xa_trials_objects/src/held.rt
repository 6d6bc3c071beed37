//! Two queues as locks guard them, which one server serves: what it and a client are told there step by step, while both
//! queues have it and once one of them is down, and what stays behind them.
ghost use Rattle.std.specs.Prelude.{◌≡◌, ◌≤◌, ◌<◌, ◌^◌, true};
ghost use Rattle.xa_trials_objects.specs.Held.{Sits, IsFit, IsOf, Serves, IsDown, Keeps};

use crate::held_steps::{
    Carried, Kept, Told, close, down, entry_of, finish, next, put, sweep, take, told_put,
};
use crate::rows::none_fails;
use std::alloc::Global;
use std::process::Abort;
use xa_cell::{Cells, Seat};
use xa_held::KeptQueue;
use xa_queue::{PutRefused, Queue, Refusal};
use xa_types::{CallerId, QueueId, ServerId, Stamp};

const END: u64 = 1 << 63;

// What the client and the server do at a queue: the client puts the request of that number with that priority, or closes
// the queue; the server takes, sweeps a queue that is down, or takes it down once more.
#[derive(Clone, Copy)]
enum Ask {
    Put(u64, u8),
    Take,
    Close,
    Sweep,
    Down,
}

// What was seen before a step, the step, what is told, and the stamp of the queue's last event then.
type Step = (u64, Ask, Told, u64);

// Steps at the first of two queues, where three may wait. Then its server gives itself up and takes it down, with these
// stamps. In the steps behind that, what comes back from the first queue is put at the other, where the server takes. At
// each the requests with these numbers are left, and so many events were noted.
#[derive(Clone, Copy)]
struct Run {
    up: &'static [Step],
    gone: u64,
    down: u64,
    past: &'static [Step],
    first: (&'static [u64], usize),
    other: (&'static [u64], usize),
}

static RUNS: [Run; 3] = [
    Run {
        up: &[
            (0, Ask::Take, Told::Empty, 0),
            (0, Ask::Put(1, 10), Told::Done(1), 1),
            (7, Ask::Put(2, 50), Told::Done(8), 8),
            (0, Ask::Put(3, 50), Told::Done(9), 9),
            (0, Ask::Put(4, 90), Told::Back(Refusal::Full(3)), 9),
            (0, Ask::Take, Told::Out(2, 10), 10),
            (0, Ask::Put(4, 90), Told::Done(11), 11),
            (20, Ask::Take, Told::Out(4, 21), 21),
            (0, Ask::Close, Told::Done(22), 22),
            (0, Ask::Close, Told::Closed, 22),
            (0, Ask::Put(5, 50), Told::Back(Refusal::Closed), 22),
            (0, Ask::Take, Told::Out(3, 23), 23),
            (0, Ask::Take, Told::Out(1, 24), 24),
            (0, Ask::Take, Told::Closed, 24),
        ],
        gone: 25,
        down: 26,
        past: &[
            (0, Ask::Put(5, 50), Told::Past(Refusal::Down, 1), 26),
            (9, Ask::Take, Told::Out(5, 10), 10),
            (9, Ask::Take, Told::Empty, 10),
            (0, Ask::Sweep, Told::Empty, 26),
            (0, Ask::Down, Told::Down, 26),
            (0, Ask::Close, Told::Closed, 26),
        ],
        first: (&[], 11),
        other: (&[], 2),
    },
    Run {
        up: &[
            (0, Ask::Put(1, 10), Told::Done(1), 1),
            (0, Ask::Put(2, 50), Told::Done(2), 2),
            (0, Ask::Put(3, 90), Told::Done(3), 3),
        ],
        gone: 4,
        down: 5,
        past: &[
            (0, Ask::Sweep, Told::Out(1, 6), 6),
            (0, Ask::Put(4, 10), Told::Past(Refusal::Down, 1), 6),
            (7, Ask::Put(5, 90), Told::Past(Refusal::Down, 8), 6),
            (7, Ask::Close, Told::Done(8), 8),
            (0, Ask::Sweep, Told::Out(2, 9), 9),
            (0, Ask::Take, Told::Out(5, 9), 9),
            (0, Ask::Put(6, 10), Told::Past(Refusal::Down, 10), 9),
            (0, Ask::Put(7, 10), Told::Past(Refusal::Down, 11), 9),
            (0, Ask::Put(8, 10), Told::Back(Refusal::Full(3)), 9),
        ],
        first: (&[3], 8),
        other: (&[4, 6, 7], 5),
    },
    Run {
        up: &[
            (0, Ask::Put(1, 10), Told::Done(1), 1),
            (
                END,
                Ask::Put(2, 10),
                Told::Back(Refusal::Worn(Stamp(END))),
                1,
            ),
            (END, Ask::Take, Told::Worn, 1),
            (END, Ask::Close, Told::Worn, 1),
            (END - 4, Ask::Close, Told::Done(END - 3), END - 3),
        ],
        gone: END - 2,
        down: END - 1,
        past: &[
            (END, Ask::Sweep, Told::Worn, END - 1),
            (0, Ask::Sweep, Told::Out(1, END), END),
            (END, Ask::Sweep, Told::Empty, END),
            (
                END - 1,
                Ask::Put(2, 10),
                Told::Past(Refusal::Down, END),
                END,
            ),
            (
                0,
                Ask::Put(3, 10),
                Told::Back(Refusal::Worn(Stamp(END))),
                END,
            ),
            (0, Ask::Take, Told::Worn, END),
        ],
        first: (&[], 5),
        other: (&[2], 1),
    },
];

// Whether a step at a queue that has its server is told what it should be.
fn is_told(
    cells: &Cells<u32>,
    queue: &mut Kept,
    id: QueueId,
    seat: &mut Seat<u32>,
    step: Step,
) -> bool
    requires seat { Sits cells.now seat.old }
    requires up { Serves cells.now id.0 queue.old }
    ensures seat { Sits cells.now seat.new }
    ensures up { Serves cells.now id.0 queue.new }
{
    let (seen, ask, told, last) = step;
    let seen = Stamp(seen.min(END));
    let got = match ask {
        Ask::Put(number, priority) => {
            let Some(entry) = entry_of(cells, seat, number, priority.clamp(1, 100)) else {
                return false;
            };
            let answer = put(cells, queue, id, seen, entry);
            told_put(cells, seat, answer)
        }
        Ask::Take => take(cells, queue, id, seat, seen),
        Ask::Close => close(cells, queue, id, seen),
        Ask::Sweep | Ask::Down => return false,
    };
    got == told && queue.stamp().0 == last
}

fn are_told(
    cells: &Cells<u32>,
    queue: &mut Kept,
    id: QueueId,
    seat: &mut Seat<u32>,
    steps: &[Step],
) -> bool
    requires seat { Sits cells.now seat.old }
    requires up { Serves cells.now id.0 queue.old }
    ensures seat { Sits cells.now seat.new }
    ensures up { Serves cells.now id.0 queue.new }
{
    let mut right = true;
    for step in steps {
        right &= is_told(cells, queue, id, seat, *step);
    }
    right
}

// The server gives itself up at a queue, and takes it down. Whether it did, and each with that stamp.
fn falls(cells: &Cells<u32>, queue: &mut Kept, id: QueueId, gone: u64, down: u64) -> bool
    requires { Serves cells.now id.0 queue.old }
    ensures is { IsOf cells.now id.0 queue.new }
    ensures down { result ≡ true → IsDown cells.now id.0 queue.new }
{
    let _ = cells;
    let _ = id;
    let maker = CallerId(2);
    let Ok(left) = queue.gone(Stamp(0), maker, ServerId(1)) else {
        return false;
    };
    let at = queue.stamp();
    if !left.last || at.0 != gone {
        return false;
    }
    let Ok(Some(_)) = queue.down(Stamp(0), maker) else {
        return false;
    };
    let end = queue.stamp();
    end.0 == down
}

// Puts a request at the first queue, and where it comes back from there at the other.
fn put_past(
    cells: &Cells<u32>,
    first: &mut Kept,
    other: &mut Kept,
    seat: &mut Seat<u32>,
    seen: Stamp,
    entry: Carried,
) -> Told
    requires seat { Sits cells.now seat.old }
    requires first { IsOf cells.now 1 first.old }
    requires other { IsOf cells.now 2 other.old }
    requires seen { seen.0 ≤ 2 ^ 63 }
    requires fit { IsFit cells.now entry }
    ensures seat { Sits cells.now seat.new }
    ensures first { Keeps cells.now 1 first.old first.new }
    ensures other { Keeps cells.now 2 other.old other.new }
{
    let PutRefused { entry, why } = match put(cells, first, QueueId(1), seen, entry) {
        Ok(stamp) => return Told::Done(stamp.0),
        Err(back) => back,
    };
    let answer = put(cells, other, QueueId(2), seen, entry);
    match told_put(cells, seat, answer) {
        Told::Done(stamp) => Told::Past(why, stamp),
        told => told,
    }
}

// Whether a step at a queue that is down is told what it should be.
fn is_told_down(
    cells: &Cells<u32>,
    queue: &mut Kept,
    id: QueueId,
    seat: &mut Seat<u32>,
    step: Step,
) -> bool
    requires seat { Sits cells.now seat.old }
    requires down { IsDown cells.now id.0 queue.old }
    ensures seat { Sits cells.now seat.new }
    ensures down { IsDown cells.now id.0 queue.new }
{
    let (seen, ask, told, last) = step;
    let seen = Stamp(seen.min(END));
    let got = match ask {
        Ask::Close => close(cells, queue, id, seen),
        Ask::Sweep => sweep(cells, queue, id, seat, seen),
        Ask::Down => down(cells, queue, id, seen),
        Ask::Put(_, _) | Ask::Take => return false,
    };
    got == told && queue.stamp().0 == last
}

// Whether a step at the first queue, which is down, or at the other, which has its server, is told what it should be.
fn is_told_past(
    cells: &Cells<u32>,
    first: &mut Kept,
    other: &mut Kept,
    seat: &mut Seat<u32>,
    step: Step,
) -> bool
    requires seat { Sits cells.now seat.old }
    requires first { IsDown cells.now 1 first.old }
    requires other { Serves cells.now 2 other.old }
    ensures seat { Sits cells.now seat.new }
    ensures first { IsDown cells.now 1 first.new }
    ensures other { Serves cells.now 2 other.new }
{
    let (seen, ask, told, last) = step;
    match ask {
        Ask::Put(number, priority) => {
            let Some(entry) = entry_of(cells, seat, number, priority.clamp(1, 100)) else {
                return false;
            };
            let seen = Stamp(seen.min(END));
            let got = put_past(cells, first, other, seat, seen, entry);
            got == told && first.stamp().0 == last
        }
        Ask::Take => is_told(cells, other, QueueId(2), seat, step),
        Ask::Close | Ask::Sweep | Ask::Down => is_told_down(cells, first, QueueId(1), seat, step),
    }
}

fn are_told_past(
    cells: &Cells<u32>,
    first: &mut Kept,
    other: &mut Kept,
    seat: &mut Seat<u32>,
    steps: &[Step],
) -> bool
    requires seat { Sits cells.now seat.old }
    requires first { IsDown cells.now 1 first.old }
    requires other { Serves cells.now 2 other.old }
    ensures seat { Sits cells.now seat.new }
    ensures first { IsDown cells.now 1 first.new }
    ensures other { Serves cells.now 2 other.new }
{
    let mut right = true;
    for step in steps {
        right &= is_told_past(cells, first, other, seat, *step);
    }
    right
}

// Whether the first queue falls, and then all is told what it should be.
fn goes_past(
    cells: &Cells<u32>,
    first: &mut Kept,
    other: &mut Kept,
    seat: &mut Seat<u32>,
    run: Run,
) -> bool
    requires seat { Sits cells.now seat.old }
    requires first { Serves cells.now 1 first.old }
    requires other { Serves cells.now 2 other.old }
    ensures seat { Sits cells.now seat.new }
    ensures first { IsOf cells.now 1 first.new }
    ensures other { IsOf cells.now 2 other.new }
{
    if !falls(cells, first, QueueId(1), run.gone, run.down) {
        return false;
    }
    are_told_past(cells, first, other, seat, run.past)
}

// Whether a queue that is ended has what it should have.
fn is_left(
    cells: &Cells<u32>,
    seat: &mut Seat<u32>,
    kept: KeptQueue<u32>,
    left: &[u64],
    events: usize,
) -> bool
    requires seat { Sits cells.now seat.old }
    requires cells { kept.cells ≡ cells.now }
    ensures { Sits cells.now seat.new }
{
    let mut rest = kept.drain();
    let mut right = true;
    let mut place = 0usize;
    while let Some(entry) = rest.take() {
        let number = finish(cells, seat, entry);
        right &= left.get(place) == Some(&number);
        place = place.wrapping_add(1);
    }
    let noted = rest.home().entries().len();
    right && place == left.len() && noted == events
}

// A queue that three may wait at, of server 1.
fn queue_of<R: Abort>(rt: &R, alloc: Global, cells: &Cells<u32>, id: QueueId) -> Kept
    requires { 0 < id.0 }
    ensures { Serves cells.now id.0 result }
{
    match Queue::new(alloc, id, 3, &[ServerId(1)], Stamp(0)) {
        Ok(queue) => KeptQueue::of(queue, 1, cells),
        Err(_) => panic!(rt; "no memory"),
    }
}

fn plays<R: Abort>(
    rt: &R,
    alloc: Global,
    cells: &Cells<u32>,
    seat: &mut Seat<u32>,
    run: Run,
) -> bool
    requires { Sits cells.now seat.old }
    ensures { Sits cells.now seat.new }
{
    let mut first = queue_of(rt, alloc, cells, QueueId(1));
    let mut other = queue_of(rt, alloc, cells, QueueId(2));
    let told = are_told(cells, &mut first, QueueId(1), seat, run.up);
    let past = goes_past(cells, &mut first, &mut other, seat, run);
    let left = is_left(cells, seat, first, run.first.0, run.first.1);
    let stays = is_left(cells, seat, other, run.other.0, run.other.1);
    told && past && left && stays
}

fn is_right<R: Abort>(rt: &R, alloc: Global, run: Run) -> bool {
    let Ok((cells, mut seats)) = Cells::<u32>::new(alloc, &[20]) else {
        panic!(rt; "no memory")
    };
    let mut seat = next(rt, &mut seats);
    let right = plays(rt, alloc, &cells, &mut seat, run);
    seats.push_reserved(seat);
    cells.close(seats);
    right
}

fn first_not_right<R: Abort>(rt: &R, alloc: Global) -> Option<usize> {
    for (place, run) in RUNS.iter().enumerate() {
        if !is_right(rt, alloc, *run) {
            return Some(place);
        }
    }
    None
}

#[test]
fn steps_at_two_queues_are_told(rt: HostRuntime) {
    none_fails(&rt, first_not_right(&rt, rt.alloc()));
}
