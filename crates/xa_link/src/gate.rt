// Gates, by which a test decides what happens first. No clause says what an atomic word holds, so none says when a gate
// lets go.
ghost use Rattle.std.specs.Prelude.{◌≡◌, false};

use std::sync::atomic::{AtomicBool, AtomicU32, Ordering};
use std::{hint, thread};
use xa_types::{CallerId, RequestId, ServerId};

/// A point that a worker comes to: before or after that operation of a caller, before a server takes a request, or
/// after the reply of a request was put where its caller finds it.
#[derive(Clone, Copy, PartialEq, Eq)]
pub enum Point {
    BeforeOp(CallerId, u32),
    AfterOp(CallerId, u32),
    BeforeTake(ServerId),
    AfterFill(RequestId),
}

/// Holds workers at points. A worker asks `holds` before a Before point, again until it answers false or 1,000,000 times,
/// and lets others run between two asks (`stay`); at an After point it calls `passed`. AfterFill comes once a ticket was
/// filled. Gates change no answer's meaning.
pub trait Gate: Sync {
    /// Whether a worker at that point has to stay there for now.
    fn holds(&self, point: Point) -> bool;

    /// A worker went past that point.
    fn passed(&self, point: Point);
}

// How often a worker asks at a point, before it goes on whatever the gate says.
const ASKS: u32 = 1_000_000;

/// Stays at that point as long as the gate holds it, but for 1,000,000 asks at most; others run between two asks.
#[inline]
pub fn stay<G: Gate>(gate: &G, point: Point) {
    for _ in 0..ASKS {
        if !gate.holds(point) {
            return;
        }
        thread::yield_now();
    }
}

/// Holds nobody.
#[derive(Clone, Copy, Default)]
pub struct OpenGate;

impl Gate for OpenGate {
    #[inline]
    fn holds(&self, _point: Point) -> bool
        ensures { result ≡ false }
    {
        false
    }

    #[inline]
    fn passed(&self, _point: Point) {}
}

/// Holds one point until another was passed, and counts how often it was asked there. No clause says that it holds, that
/// it lets go, or what it counts.
#[derive(Drop)]
pub struct HoldUntil {
    held: Point,
    until: Point,
    is_passed: AtomicBool,
    asks: AtomicU32,
}

impl HoldUntil {
    /// Holds `held` from now on, until `until` is passed.
    pub fn new(held: Point, until: Point) -> HoldUntil
        ensures held { result.held ≡ held }
        ensures until { result.until ≡ until }
    {
        HoldUntil {
            held,
            until,
            is_passed: AtomicBool::new(false),
            asks: AtomicU32::new(0),
        }
    }

    /// How often `holds` was asked at the held point. It stands still at 2^32 - 1.
    pub fn asks(&self) -> u32 {
        self.asks.load(Ordering::SeqCst)
    }

    fn count_ask(&self) {
        let _ = self
            .asks
            .fetch_update(Ordering::SeqCst, Ordering::SeqCst, |asks| {
                asks.checked_add(1)
            });
    }
}

impl Gate for HoldUntil {
    fn holds(&self, point: Point) -> bool
        ensures { (point ≡ self.now.held → ⊥) → result ≡ false }
    {
        if point != self.held {
            return false;
        }
        self.count_ask();
        !self.is_passed.load(Ordering::SeqCst)
    }

    fn passed(&self, point: Point) {
        if point == self.until {
            self.is_passed.store(true, Ordering::SeqCst);
        }
    }
}

// How often a call that came to its point looks for the other.
const LOOKS: u32 = 1_000_000_000;

// One of two points that are to meet: whether a call came to it, and whether that call found the other point noted.
#[derive(Drop)]
struct Meeting {
    point: Point,
    is_noted: AtomicBool,
    has_found: AtomicBool,
}

impl Meeting {
    fn new(point: Point) -> Meeting
        ensures { result.point ≡ point }
    {
        Meeting {
            point,
            is_noted: AtomicBool::new(false),
            has_found: AtomicBool::new(false),
        }
    }

    fn is_noted_soon(&self) -> bool {
        for _ in 0..LOOKS {
            if self.is_noted.load(Ordering::SeqCst) {
                return true;
            }
            hint::spin_loop();
        }
        false
    }

    // A call is at that point: the first at this one notes it, and looks for the other.
    fn come(&self, point: Point, other: &Meeting) {
        if point == self.point
            && !self.is_noted.swap(true, Ordering::SeqCst)
            && other.is_noted_soon()
        {
            self.has_found.store(true, Ordering::SeqCst);
        }
    }
}

/// Holds nobody, but lets two calls wait for each other: the first `holds` at either of two different points notes the
/// point, and then looks, at most 1,000,000,000 times, whether the other is noted. No clause says what a call notes or
/// finds.
#[derive(Drop)]
pub struct MeetAt {
    one: Meeting,
    other: Meeting,
}

impl MeetAt {
    pub fn new(one: Point, other: Point) -> MeetAt
        ensures one { result.one.point ≡ one }
        ensures other { result.other.point ≡ other }
    {
        MeetAt {
            one: Meeting::new(one),
            other: Meeting::new(other),
        }
    }

    /// Whether each of the two calls found the other's point noted.
    pub fn met(&self) -> bool {
        self.one.has_found.load(Ordering::SeqCst) && self.other.has_found.load(Ordering::SeqCst)
    }
}

impl Gate for MeetAt {
    fn holds(&self, point: Point) -> bool
        ensures { result ≡ false }
    {
        self.one.come(point, &self.other);
        self.other.come(point, &self.one);
        false
    }

    fn passed(&self, _point: Point) {}
}
