//! A lock that threads enter: each entry that one adds is there at the end.
ghost use Rattle.std.specs.Prelude.{◌≡◌, ◌<◌, ◌^◌, ℕ, [], length, slice_index_or, IfSome, IsSomeAnd};
ghost use Rattle.std.specs.List.{All};
ghost use Rattle.xa_lock.specs.Known.{known, IsPassOf};
ghost use Rattle.xa_lock.specs.Pages.{GrewBy};
ghost use Rattle.xa_trials_objects.specs.Passes.{HasPass, HaveEach};

use crate::rows::none_fails;
use std::alloc::Global;
use std::sync::Wait;
use std::thread;
use std::thread::Threads;
use xa_lock::{Chronicle, Guarded, LockPass};

#[derive(Clone, Copy)]
struct Entry {
    maker: u32,
}

#[derive(Drop)]
struct Log {
    entries: Vec<Entry>,
}

impl Chronicle for Log {
    type Entry = Entry;

    ghost entries = { λ log. log.entries.items };

    ghost maker = { λ entry. entry.maker };
}

impl Log {
    // Adds an entry. Where memory runs out there is none.
    fn add(&mut self, entry: Entry)
        ensures { GrewBy (λ entry. entry.maker) entry.maker self.old.entries.items self.new.entries.items }
    {
        let _ = self.entries.push(entry);
    }
}

// How many threads there are, how many passes, of which each thread takes one after another, and how often each enters.
static ROWS: [(u8, u8, u32); 2] = [(8, 64, 50), (4, 4, 1_000)];

// Enters so often with the pass at that place.
fn work<R: Wait>(
    rt: &R,
    lock: &Guarded<Log>,
    enters: u32,
    maker: u32,
    place: &mut Option<LockPass<Entry>>,
)
    requires { HasPass lock.now maker place.old }
    ensures { HasPass lock.now maker place.new }
{
    let Some(mut pass) = place.take() else {
        unreachable!()
    };
    for _ in 0..enters {
        let mut held = lock.enter(rt, pass);
        held.value().add(Entry { maker });
        pass = lock.leave(held);
    }
    *place = Some(pass);
}

fn all_work<R: Threads + Wait + Sync>(
    rt: &R,
    lock: &Guarded<Log>,
    threads: u8,
    enters: u32,
    places: &mut [Option<LockPass<Entry>>],
)
    requires some { (0 < threads) × (length places.old < 2 ^ 32) }
    requires passes { HaveEach lock.now places.old }
    ensures { HaveEach lock.now places.new }
{
    thread::for_each_mut(
        rt,
        places,
        usize::from(threads),
        &|number, place| -> ()
            requires { (number < 2 ^ 32) × HasPass lock.now number place.now }
            ensures { HasPass lock.entry.now number place.exit.now }
        { work(rt, lock, enters, number as u32, place) },
    );
}

fn places_of(
    alloc: Global,
    lock: &Guarded<Log>,
    passes: Vec<LockPass<Entry>>,
) -> Option<Vec<Option<LockPass<Entry>>>>
    requires lock { All (IsPassOf lock.now) passes.items }
    requires makers { (k : ℕ) (d : _) → k < length passes.items → (known (slice_index_or passes.items k d)).maker ≡ k }
    ensures passes { IfSome result (λ places. HaveEach lock.now places.items) }
    ensures count { IfSome result (λ places. length places.items ≡ length passes.items) }
{
    let _ = lock;
    passes.into_iter().map(Some).collect(alloc).ok()
}

fn passes_in(
    alloc: Global,
    lock: &Guarded<Log>,
    mut places: Vec<Option<LockPass<Entry>>>,
) -> Option<Vec<LockPass<Entry>>>
    requires { All (λ place. IsSomeAnd place (IsPassOf lock.now)) places.items }
    ensures lock { IfSome result (λ passes. All (IsPassOf lock.now) passes.items) }
    ensures count { IfSome result (λ passes. length passes.items ≡ length places.items) }
{
    let _ = lock;
    let mut passes = Vec::with_capacity(alloc, places.len()).ok()?;
    while let Some(place) = places.pop() {
        match place {
            Some(pass) => passes.push_reserved(pass),
            None => unreachable!(),
        }
    }
    Some(passes)
}

// How many entries there are behind all enters.
fn entered<R: Threads + Wait + Sync>(
    rt: &R,
    alloc: Global,
    threads: u8,
    passes: u8,
    enters: u32,
) -> Option<usize> {
    if threads == 0 || passes == 0 {
        return None;
    }
    let entries = Vec::new(alloc);
    let (lock, dealt) = Guarded::new(alloc, Log { entries }, u32::from(passes)).ok()?;
    let mut places = places_of(alloc, &lock, dealt)?;
    all_work(rt, &lock, threads, enters, places.as_mut_slice());
    let back = passes_in(alloc, &lock, places)?;
    Some(lock.close(back).entries.len())
}

fn first_lost<R: Threads + Wait + Sync>(rt: &R, alloc: Global) -> Option<usize> {
    for (place, row) in ROWS.iter().enumerate() {
        let (threads, passes, enters) = *row;
        let wanted = usize::from(passes).wrapping_mul(enters as usize);
        if entered(rt, alloc, threads, passes, enters) != Some(wanted) {
            return Some(place);
        }
    }
    None
}

#[test]
fn no_entry_of_threads_is_lost(rt: HostRuntime) {
    none_fails(&rt, first_lost(&rt, rt.alloc()));
}
