//! Homes that are merged, and many events against a plain order.
use crate::rows::none_fails;
use std::alloc::Global;
use xa_events::{Event, Ticked};
use xa_stamp::{Home, Record, merge};
use xa_types::{CallerId, Sequence, Stamp};

// A home, what was seen before an event is noted there, and the event, by its number.
type Note = (usize, u32, u32);

// How many homes there are, their notes, and the merged events. The first row is homes with stamps 1, 4 (1, 2) and 2, 4
// (3, 4).
type Row = (usize, &'static [Note], &'static [u32]);

static ROWS: [Row; 5] = [
    (
        2,
        &[(0, 0, 1), (0, 3, 2), (1, 1, 3), (1, 3, 4)],
        &[1, 3, 2, 4],
    ),
    (0, &[], &[]),
    (3, &[(1, 0, 1)], &[1]),
    (3, &[(0, 0, 1), (1, 0, 2), (2, 0, 3)], &[1, 2, 3]),
    (
        2,
        &[(0, 9, 1), (0, 0, 2), (1, 0, 3), (1, 0, 4)],
        &[3, 4, 1, 2],
    ),
];

fn tick(number: u32) -> Event {
    Event::Tick(Ticked {
        by: CallerId(1),
        op: number,
        now: 0,
    })
}

fn add(homes: &mut [Home], (home, seen, number): Note) -> bool {
    match homes.get_mut(home) {
        Some(home) => {
            home.reserve(1).is_ok() && home.note(Stamp(u64::from(seen)), tick(number)).is_ok()
        }
        None => false,
    }
}

fn add_all(homes: &mut [Home], notes: &[Note]) -> bool {
    let mut are_added = true;
    for note in notes {
        are_added &= add(homes, *note);
    }
    are_added
}

fn empty_homes(alloc: Global, count: usize) -> Option<Vec<Home>> {
    let mut homes = Vec::new(alloc);
    let mut are_made = true;
    for _ in 0..count {
        are_made &= homes.push(Home::new(alloc, Stamp(0))).ok().is_some();
    }
    are_made.then_some(homes)
}

// The number of an event that is noted here.
fn number(event: &Event) -> Option<u32> {
    match event {
        Event::Tick(numbered) => Some(numbered.op),
        _ => None,
    }
}

fn are_numbered(events: &[Event], want: &[u32]) -> bool {
    for (place, event) in events.iter().enumerate() {
        if number(event) != want.get(place).copied() {
            return false;
        }
    }
    events.len() == want.len()
}

fn are_merged(alloc: Global, homes: Vec<Home>, want: &[u32]) -> bool {
    let homes = Sequence::from_vec(homes);
    match merge(alloc, &Record { homes }) {
        Ok(merged) => are_numbered(&merged, want),
        Err(_) => false,
    }
}

fn merges(alloc: Global, (homes, notes, want): Row) -> bool {
    match empty_homes(alloc, homes) {
        Some(mut homes) => add_all(&mut homes, notes) && are_merged(alloc, homes, want),
        None => false,
    }
}

fn first_not_merged(alloc: Global) -> Option<usize> {
    for (place, row) in ROWS.iter().enumerate() {
        if !merges(alloc, *row) {
            return Some(place);
        }
    }
    None
}

#[test]
fn events_merge_by_stamp_then_home_then_place(rt: HostRuntime) {
    none_fails(&rt, first_not_merged(rt.alloc()));
}

fn add_many(homes: &mut [Home]) -> bool {
    let mut draw = 1u32;
    let mut are_added = true;
    for number in 0..100_000u32 {
        draw = draw.wrapping_mul(75).wrapping_add(74) % 65_537;
        are_added &= add(homes, (draw as usize % 5, number / 5 + draw % 50, number));
    }
    are_added
}

// The stamp and the number of a home's event.
fn event_at(home: &Home, place: usize) -> Option<(u64, Option<u32>)> {
    match home.entries().get(place) {
        Some(noted) => Some((noted.stamp.0, number(&noted.event))),
        None => None,
    }
}

// Of the homes' next events the one with the least stamp, of the first such home: the home, and the event's number.
fn least(record: &Record, next: &[usize]) -> Option<(usize, Option<u32>)> {
    let mut least = None;
    let mut stamp = u64::MAX;
    for (at, home) in record.homes.slice().iter().enumerate() {
        let place = next.get(at).copied().unwrap_or(usize::MAX);
        if let Some((noted, number)) = event_at(home, place) {
            if noted < stamp {
                stamp = noted;
                least = Some((at, number));
            }
        }
    }
    least
}

fn is_plain_order(record: &Record, merged: &[Event]) -> bool {
    let mut next = [0usize; 5];
    for event in merged {
        let Some((home, number)) = least(record, &next) else {
            return false;
        };
        if self::number(event) != number {
            return false;
        }
        if let Some(place) = next.get_mut(home) {
            *place = place.saturating_add(1);
        }
    }
    least(record, &next).is_none()
}

fn are_many_merged(alloc: Global, homes: Vec<Home>) -> bool {
    let homes = Sequence::from_vec(homes);
    let record = Record { homes };
    match merge(alloc, &record) {
        Ok(merged) => merged.len() == 100_000 && is_plain_order(&record, &merged),
        Err(_) => false,
    }
}

fn merges_many(alloc: Global) -> bool {
    match empty_homes(alloc, 5) {
        Some(mut homes) => add_many(&mut homes) && are_many_merged(alloc, homes),
        None => false,
    }
}

#[test]
fn many_events_merge_in_the_plain_order(rt: HostRuntime) {
    assert!(rt; merges_many(rt.alloc()));
}
