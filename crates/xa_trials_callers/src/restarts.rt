//! Servers that are started again: MAXGEN and GRACE at their edges, and starts that are too old to count.
ghost use Rattle.xa_restart.specs.Rule.{IsLast};

use crate::rows::none_fails;
use std::alloc::Global;
use xa_restart::Lives;

// RESTART, MAXGEN and GRACE; and ticks, each with whether the server may be started then. Where it may, it is.
type Row = (bool, u8, u32, &'static [(u64, bool)]);

static ROWS: [Row; 19] = [
    (true, 2, 10, &[(0, true), (5, true), (9, false)]),
    (
        true,
        2,
        10,
        &[
            (0, true),
            (5, true),
            (10, true),
            (14, false),
            (15, true),
            (19, false),
            (20, true),
            (24, false),
            (99, true),
            (99, true),
            (99, false),
        ],
    ),
    (
        true,
        3,
        10,
        &[
            (0, true),
            (5, true),
            (5, true),
            (5, false),
            (10, true),
            (14, false),
        ],
    ),
    (true, 2, 0, &[(7, true), (7, true), (7, true)]),
    (
        true,
        1,
        10,
        &[
            (0, true),
            (9, false),
            (10, true),
            (19, false),
            (20, true),
            (29, false),
        ],
    ),
    (true, 0, 10, &[(0, true), (99, false)]),
    (false, 2, 10, &[(0, true), (99, false)]),
    (true, 1, 1, &[(3, true), (3, false), (4, true)]),
    (
        true,
        1,
        u32::MAX,
        &[(1, true), (4_294_967_295, false), (4_294_967_296, true)],
    ),
    // Servers that start again behind lives of several kinds.
    (
        true,
        7,
        10,
        &[
            (0, true),
            (0, true),
            (0, true),
            (1, true),
            (2, true),
            (3, true),
            (4, true),
            (9, false),
        ],
    ),
    (true, 2, 10, &[(0, true), (0, true), (9, false)]),
    (true, 2, 10, &[(0, true), (0, true), (10, true), (10, true)]),
    (
        true,
        2,
        10,
        &[(0, true), (9, true), (10, true), (18, false)],
    ),
    (true, 2, 10, &[(0, true), (9, true), (10, true), (19, true)]),
    (true, 1, 3, &[(7, true), (10, true), (13, true), (16, true)]),
    (true, 3, 10, &[(0, true), (0, true), (0, true), (9, false)]),
    (false, 9, 10, &[(0, true), (99, false)]),
    (false, 9, 10, &[(0, true)]),
    (true, 1, 10, &[(5, true)]),
];

// Whether the server may be started at these ticks so.
fn start_so(lives: &mut Lives, ticks: &[(u64, bool)]) -> bool
    requires { IsLast 0 lives.old.starts }
{
    let mut last = 0;
    for (tick, may) in ticks {
        if *tick < last || lives.may_start(*tick) != *may {
            return false;
        }
        last = *tick;
        if *may {
            lives.record_start(last);
        }
    }
    true
}

fn is_so(alloc: Global, row: &Row) -> bool {
    let (restart, maxgen, grace, ticks) = *row;
    match Lives::new(alloc, restart, maxgen, grace) {
        Ok(mut lives) => start_so(&mut lives, ticks),
        Err(_) => false,
    }
}

fn first_not_so(alloc: Global, rows: &[Row]) -> Option<usize> {
    for (place, row) in rows.iter().enumerate() {
        if !is_so(alloc, row) {
            return Some(place);
        }
    }
    None
}

#[test]
fn starts_count_within_grace(rt: HostRuntime) {
    none_fails(&rt, first_not_so(rt.alloc(), &ROWS));
}
