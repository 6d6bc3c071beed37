//! A queue: in which order its entries are taken, what its calls are told at their ends, and 100,000 calls beside a list.
ghost use Rattle.std.specs.Prelude.{◌≡◌, ◌<◌, ◌≤◌, [], ◌∷◌, true, false, length};
ghost use Rattle.xa_queue.specs.Queue.{none_left};
ghost use Rattle.xa_trials_objects.specs.Queues.{SameServers};

use crate::rows::none_fails;
use std::alloc::Global;
use xa_events::{Accepted, Event};
use xa_queue::{Entry, GivenUp, Outgoing, PutRefused, Queue, Refusal, Taken};
use xa_types::{CallerId, Data, Generation, Mode, Name, QueueId, RequestId, ServerId, Stamp};

const END: u64 = 1 << 63;

// The priorities of requests that are put, and the places from which they are taken, counted from 1.
static ORDERS: [(&[u8], &[u64]); 2] = [
    (
        &[10, 50, 50, 50, 50, 50, 50, 50, 50, 50, 50, 50],
        &[2, 3, 4, 5, 6, 7, 8, 9, 10, 1, 11, 12],
    ),
    (
        &[7; 20],
        &[
            1, 2, 3, 4, 5, 6, 7, 8, 9, 10, 11, 12, 13, 14, 15, 16, 17, 18, 19, 20,
        ],
    ),
];

// What a call is told: the stamp, the number of a request, or how else it ends.
#[derive(Clone, Copy, PartialEq, Eq)]
enum Told {
    Put(u64),
    Back(Refusal),
    Taken(u64),
    Empty,
    Closed,
    Worn,
}

fn cargo_of(entry: Entry<u64>) -> u64
    ensures { result ≡ entry.cargo }
{
    let Entry {
        request: _,
        priority: _,
        cargo,
    } = entry;
    cargo
}

fn accept(service: Name, number: u64, priority: u8) -> Accepted
    ensures request { result.request ≡ record { caller = record { 0 = 1 }; number = number } }
    ensures queue { result.queue ≡ record { 0 = 1 } }
    ensures priority { result.priority ≡ priority }
{
    Accepted {
        by: CallerId(1),
        op: 1,
        request: RequestId {
            caller: CallerId(1),
            number,
        },
        version: 1,
        service,
        queue: QueueId(1),
        routine: service,
        priority,
        mode: Mode::Reply,
        payload: Data::Absent,
    }
}

// Puts a request with that number as its cargo, and looks whether it comes back where it isn't put.
fn put(queue: &mut Queue<u64>, seen: u64, service: Name, number: u64, priority: u8) -> Told
    requires id { queue.old.id ≡ record { 0 = 1 } }
    requires priority { (1 ≤ priority) × (priority ≤ 100) }
    ensures { SameServers queue.old queue.new }
{
    let accepted = accept(service, number, priority);
    let entry = Entry {
        request: accepted.request,
        priority,
        cargo: number,
    };
    match queue.put(
        Stamp(seen.min(END)),
        CallerId(1),
        Event::Accept(accepted),
        entry,
    ) {
        Ok(stamp) => Told::Put(stamp.0),
        Err(PutRefused { entry, why }) => {
            if cargo_of(entry) == number {
                Told::Back(why)
            } else {
                Told::Empty
            }
        }
    }
}

fn take(queue: &mut Queue<u64>, seen: u64) -> Told
    requires servers { queue.old.servers ≡ record { 0 = 1 } ∷ [] }
    requires gone { queue.old.gone ≡ [] }
    ensures { SameServers queue.old queue.new }
{
    match queue.take(
        Stamp(seen.min(END)),
        CallerId(2),
        ServerId(1),
        Generation(1),
    ) {
        Ok(Taken::Request(Outgoing { entry, noted: _ })) => { Told::Taken(cargo_of(entry)) }
        Ok(Taken::Empty) => Told::Empty,
        Ok(Taken::Closed) => Told::Closed,
        Err(_) => Told::Worn,
    }
}

// Ends a queue, and tells how many entries waited, whether their numbers rise, and how many events were noted.
fn finish(queue: Queue<u64>) -> (u32, bool, usize) {
    let waited = queue.len();
    let mut rise = true;
    let mut last = 0;
    let mut rest = queue.drain();
    while let Some(entry) = rest.take() {
        let number = cargo_of(entry);
        rise &= last < number;
        last = number;
    }
    (waited, rise, rest.home().entries().len())
}

fn are_taken(queue: &mut Queue<u64>, numbers: &[u64]) -> bool
    requires servers { queue.old.servers ≡ record { 0 = 1 } ∷ [] }
    requires gone { queue.old.gone ≡ [] }
    ensures { SameServers queue.old queue.new }
{
    for number in numbers {
        if take(queue, 0) != Told::Taken(*number) {
            return false;
        }
    }
    true
}

fn keeps_order(alloc: Global, service: Name, priorities: &[u8], order: &[u64]) -> bool {
    let Ok(mut queue) = Queue::new(alloc, QueueId(1), 100, &[ServerId(1)], Stamp(0)) else {
        return false;
    };
    let mut right = true;
    let mut number = 0;
    for priority in priorities {
        number += 1;
        right &= put(&mut queue, 0, service, number, (*priority).clamp(1, 100))
            == Told::Put(number);
    }
    right &= are_taken(&mut queue, order);
    right & (finish(queue) == (0, true, priorities.len() + order.len()))
}

fn first_not_kept(alloc: Global) -> Option<usize> {
    let Ok(service) = Name::read(b"A") else {
        return Some(0);
    };
    for (place, (priorities, order)) in ORDERS.iter().enumerate() {
        if !keeps_order(alloc, service, priorities, order) {
            return Some(place);
        }
    }
    None
}

#[test]
fn entries_are_taken_by_priority_and_age(rt: HostRuntime) {
    none_fails(&rt, first_not_kept(rt.alloc()));
}

// A call of the queue: what was seen before it, and the number of the request that it puts.
#[derive(Clone, Copy)]
enum Ask {
    Put(u64, u64),
    Take(u64),
}

// At a queue where two may wait, before it is closed and behind that.
static OPEN: [(Ask, Told); 10] = [
    (Ask::Take(0), Told::Empty),
    (Ask::Put(0, 1), Told::Put(1)),
    (Ask::Put(7, 2), Told::Put(8)),
    (Ask::Put(0, 3), Told::Back(Refusal::Full(2))),
    (Ask::Take(0), Told::Taken(1)),
    (Ask::Put(0, 4), Told::Put(10)),
    (Ask::Put(END, 5), Told::Back(Refusal::Full(2))),
    (Ask::Take(END), Told::Worn),
    (Ask::Take(0), Told::Taken(2)),
    (Ask::Put(END, 5), Told::Back(Refusal::Worn(Stamp(END)))),
];

static CLOSED: [(Ask, Told); 3] = [
    (Ask::Put(0, 5), Told::Back(Refusal::Closed)),
    (Ask::Take(0), Told::Taken(4)),
    (Ask::Take(END), Told::Closed),
];

// At one where three may wait, before its server is given up and behind that.
static UP: [(Ask, Told); 3] = [
    (Ask::Put(0, 1), Told::Put(1)),
    (Ask::Put(0, 2), Told::Put(2)),
    (Ask::Put(0, 3), Told::Put(3)),
];

fn are_told(queue: &mut Queue<u64>, service: Name, steps: &[(Ask, Told)]) -> bool
    requires id { queue.old.id ≡ record { 0 = 1 } }
    requires servers { queue.old.servers ≡ record { 0 = 1 } ∷ [] }
    requires gone { queue.old.gone ≡ [] }
    ensures { SameServers queue.old queue.new }
{
    for (ask, want) in steps {
        let told = match *ask {
            Ask::Put(seen, number) => put(queue, seen, service, number, 50),
            Ask::Take(seen) => take(queue, seen),
        };
        if told != *want {
            return false;
        }
    }
    true
}

fn fills_and_closes(alloc: Global, service: Name) -> bool {
    let Ok(mut queue) = Queue::new(alloc, QueueId(1), 2, &[ServerId(1)], Stamp(0)) else {
        return false;
    };
    let mut right = are_told(&mut queue, service, &OPEN);
    right &= matches!(queue.close(Stamp(0), CallerId(0)), Ok(noted) if noted.stamp.0 == 12);
    right &= are_told(&mut queue, service, &CLOSED);
    right & (finish(queue) == (0, true, 7))
}

// Brings a queue without a server down, and sweeps the first of three entries.
fn goes_down(queue: &mut Queue<u64>, service: Name) -> bool
    requires id { queue.old.id ≡ record { 0 = 1 } }
    requires deserted { none_left queue.old ≡ true }
    requires up { queue.old.down ≡ false }
{
    if !matches!(queue.down(Stamp(0), CallerId(2)), Ok(noted) if noted.stamp.0 == 5) {
        return false;
    }
    let told = put(queue, 0, service, 4, 50);
    let swept = match queue.sweep(Stamp(0), CallerId(2)) {
        Ok(Some(Outgoing { entry, noted })) => (cargo_of(entry), noted.stamp.0),
        _ => (0, 0),
    };
    (told == Told::Back(Refusal::Down)) & (swept == (1, 6))
}

fn empties(alloc: Global, service: Name) -> bool {
    let Ok(mut queue) = Queue::new(alloc, QueueId(1), 3, &[ServerId(1)], Stamp(0)) else {
        return false;
    };
    let mut right = are_told(&mut queue, service, &UP);
    right &= match queue.gone(Stamp(0), CallerId(2), ServerId(1)) {
        Ok(GivenUp { noted, last: true }) => (noted.stamp.0 == 4) & goes_down(&mut queue, service),
        _ => false,
    };
    right & (finish(queue) == (2, true, 6))
}

fn end_as_they_should(alloc: Global) -> bool {
    match Name::read(b"A") {
        Ok(service) => fills_and_closes(alloc, service) && empties(alloc, service),
        Err(_) => false,
    }
}

#[test]
fn queues_end(rt: HostRuntime) {
    assert!(rt; end_as_they_should(rt.alloc()));
}

// How often a queue is called beside a list, and how many may wait there.
const CALLS: u32 = 100_000;

const MOST: u32 = 40;

// A plain list of numbers and priorities: the place of the entry that the k-th take gives.
fn next_place(list: &[(u64, u8)], k: u64) -> usize
    requires { 0 < length list.now }
    ensures { result < length list.now }
{
    let mut place = 0;
    if k % 10 == 0 {
        return place;
    }
    for i in 1..list.len() {
        if list[i].1 > list[place].1 {
            place = i;
        }
    }
    place
}

fn put_both(
    queue: &mut Queue<u64>,
    list: &mut Vec<(u64, u8)>,
    service: Name,
    number: u64,
    priority: u8,
) -> bool
    requires id { queue.old.id ≡ record { 0 = 1 } }
    requires priority { (1 ≤ priority) × (priority ≤ 100) }
    ensures { SameServers queue.old queue.new }
{
    match put(queue, 0, service, number, priority) {
        Told::Put(_) => list.len() < MOST as usize && list.push((number, priority)).is_ok(),
        Told::Back(Refusal::Full(count)) => count == MOST && list.len() == MOST as usize,
        _ => false,
    }
}

fn take_both(queue: &mut Queue<u64>, list: &mut Vec<(u64, u8)>, takes: &mut u64) -> bool
    requires servers { queue.old.servers ≡ record { 0 = 1 } ∷ [] }
    requires gone { queue.old.gone ≡ [] }
    ensures { SameServers queue.old queue.new }
{
    let told = take(queue, 0);
    if list.is_empty() {
        return told == Told::Empty;
    }
    *takes = takes.wrapping_add(1);
    let place = next_place(list, *takes);
    let (number, _) = list.remove(place);
    told == Told::Taken(number)
}

fn agrees_with_list(alloc: Global, service: Name) -> bool {
    let mut list = Vec::new(alloc);
    let Ok(mut queue) = Queue::new(alloc, QueueId(1), MOST, &[ServerId(1)], Stamp(0)) else {
        return false;
    };
    let mut right = true;
    let mut takes = 0;
    let mut state = 1u64;
    for _ in 0..CALLS {
        state = state
            .wrapping_mul(6_364_136_223_846_793_005)
            .wrapping_add(1_442_695_040_888_963_407);
        right &= if (state >> 60) % 2 == 0 {
            let priority = (state >> 40) % 5 * 20 + 1;
            put_both(&mut queue, &mut list, service, state >> 8, priority as u8)
        } else {
            take_both(&mut queue, &mut list, &mut takes)
        };
    }
    let (waits, _, _) = finish(queue);
    right && waits as usize == list.len()
}

fn is_as_a_list(alloc: Global) -> bool {
    match Name::read(b"A") {
        Ok(service) => agrees_with_list(alloc, service),
        Err(_) => false,
    }
}

#[test]
fn queues_are_as_lists(rt: HostRuntime) {
    assert!(rt; is_as_a_list(rt.alloc()));
}
