// What workers wait for.
use crossbeam_utils::sync::EventCount;
use std::alloc::Global;
use std::sync::Wait;
use std::sync::atomic::AtomicU64;
use std::sync::atomic::Ordering::SeqCst;
use std::thread;
use xa_server::types::NoMemory;

// How often who waits looks before it sleeps. Others run between two looks.
const LOOKS: u32 = 100;

// How often it was given, and where those sleep that wait for it.
#[derive(Drop)]
struct Signal {
    given: AtomicU64,
    sleepers: EventCount,
}

impl Signal {
    fn new() -> Signal {
        Signal {
            given: AtomicU64::new(0),
            sleepers: EventCount::new(),
        }
    }

    fn count(&self) -> u64 {
        self.given.load(SeqCst)
    }

    fn give_all(&self) {
        self.given.fetch_add(1, SeqCst);
        self.sleepers.notify_all();
    }

    // Who sleeps said so before it looked last. So it is woken if the signal is given after that look.
    fn wait<W: Wait>(&self, rt: &W, seen: u64) {
        for _ in 0..LOOKS {
            if self.count() != seen {
                return;
            }
            thread::yield_now();
        }
        let key = self.sleepers.prepare_wait();
        if self.count() == seen {
            key.wait(rt);
        }
    }
}

/// Signals by their numbers, from 0. Who waits for one looks how often it was given, and takes no lock for that. No clause says
/// what it sees there. A number past the last one has no signal: it is never given, and nobody waits for it.
#[derive(Drop)]
pub struct Signals {
    signals: Vec<Signal>,
}

impl Signals {
    /// So many signals, of which none was given.
    pub fn new(alloc: Global, count: usize) -> Result<Signals, NoMemory> {
        let mut signals = Vec::with_capacity(alloc, count)?;
        for _ in 0..count {
            signals.push_reserved(Signal::new());
        }
        Ok(Signals { signals })
    }

    /// How often it was given.
    pub fn count(&self, number: u16) -> u64 {
        match self.signals.get(usize::from(number)) {
            Some(signal) => signal.count(),
            None => 0,
        }
    }

    /// Gives it, and wakes one that waits for it.
    pub fn give(&self, number: u16) {
        if let Some(signal) = self.signals.get(usize::from(number)) {
            signal.given.fetch_add(1, SeqCst);
            signal.sleepers.notify_one();
        }
    }

    /// Gives each signal, and wakes all that wait for one.
    pub fn give_all(&self) {
        for signal in &self.signals {
            signal.give_all();
        }
    }

    /// Waits until it was given again after it had been given so often, or less long.
    pub fn wait<W: Wait>(&self, rt: &W, number: u16, seen: u64) {
        if let Some(signal) = self.signals.get(usize::from(number)) {
            signal.wait(rt, seen);
        }
    }
}
