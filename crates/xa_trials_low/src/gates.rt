//! Gates: which points are held until another is passed, how often a worker asks at one, and two workers that meet.
use crate::rows::none_fails;
use std::thread::{Threads, join};
use xa_link::{Gate, HoldUntil, MeetAt, OpenGate, Point, stay};
use xa_types::{CallerId, RequestId, ServerId};

#[derive(Clone, Copy)]
enum Call {
    Holds(bool),
    Passed,
    Stay,
}

const HELD: Point = Point::BeforeTake(ServerId(1));

const UNTIL: Point = Point::AfterOp(CallerId(2), 3);

const FILLED: Point = Point::AfterFill(RequestId {
    caller: CallerId(1),
    number: 3,
});

// Calls at a gate that holds `HELD` until `UNTIL`, one after another, and how often it was asked at `HELD` by then.
static CALLS: [(Point, Call, u32); 15] = [
    (Point::BeforeTake(ServerId(2)), Call::Holds(false), 0),
    (Point::BeforeOp(CallerId(1), 1), Call::Holds(false), 0),
    (UNTIL, Call::Holds(false), 0),
    (FILLED, Call::Holds(false), 0),
    (HELD, Call::Holds(true), 1),
    (HELD, Call::Stay, 1_000_001),
    (FILLED, Call::Stay, 1_000_001),
    (Point::AfterOp(CallerId(2), 2), Call::Passed, 1_000_001),
    (Point::AfterOp(CallerId(1), 3), Call::Passed, 1_000_001),
    (Point::BeforeOp(CallerId(2), 3), Call::Passed, 1_000_001),
    (HELD, Call::Passed, 1_000_001),
    (HELD, Call::Holds(true), 1_000_002),
    (UNTIL, Call::Passed, 1_000_002),
    (HELD, Call::Holds(false), 1_000_003),
    (HELD, Call::Stay, 1_000_004),
];

// Makes the call; whether `holds` answered as it should.
fn is_answered<G: Gate>(gate: &G, point: Point, call: Call) -> bool {
    match call {
        Call::Holds(want) => return gate.holds(point) == want,
        Call::Passed => gate.passed(point),
        Call::Stay => stay(gate, point),
    }
    true
}

fn first_not_answered() -> Option<usize> {
    let gate = HoldUntil::new(HELD, UNTIL);
    for (place, &(point, call, asks)) in CALLS.iter().enumerate() {
        if !is_answered(&gate, point, call) || gate.asks() != asks {
            return Some(place);
        }
    }
    None
}

#[test]
fn a_point_is_held_until_another_is_passed(rt: HostRuntime) {
    none_fails(&rt, first_not_answered());
}

// Whether no point is held, one after another.
fn holds_none<G: Gate>(gate: &G) -> bool {
    for &(point, _, _) in &CALLS {
        stay(gate, point);
        if gate.holds(point) {
            return false;
        }
        gate.passed(point);
    }
    true
}

// Whether two workers that stay at these points come to meet.
fn meet<R: Threads>(rt: &R, gate: &MeetAt, one: Point, other: Point) -> bool {
    let (first, second) = join(
        rt,
        || is_answered(gate, one, Call::Holds(false)),
        || is_answered(gate, other, Call::Holds(false)),
    );
    first && second && gate.met()
}

#[test]
fn two_workers_meet(rt: HostRuntime) {
    let gate = MeetAt::new(HELD, FILLED);
    assert!(rt; is_answered(&gate, UNTIL, Call::Stay) && !gate.met());
    assert!(rt; meet(&rt, &gate, FILLED, HELD));
    assert!(rt; holds_none(&gate) && gate.met() && holds_none(&OpenGate));
}
