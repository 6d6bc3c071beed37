//! The board as a lock guards it: what changes, looks and look-ups are told there, step by step.
ghost use Rattle.std.specs.Prelude.{◌≡◌, true, IfSome};
ghost use Rattle.xa_types.specs.Configured.{is_configured};
ghost use Rattle.xa_held.specs.Board.{IsPlaced};

use crate::board::{Told, are_on, is_done, is_refused};
use crate::rows::none_fails;
use std::alloc::Global;
use std::process::Abort;
use xa_board::{Board, BoardRefused, Reader};
use xa_held::{Clearing, KeptBoard};
use xa_route::row_for;
use xa_types::{CallerId, Name, QueueId, Row, Setup, Stamp};

const SETUP: &[u8] = b"queue = [{ name = 'Q' }, { name = 'R' }, { name = 'S' }]
server = [{ name = 'A', queue = 'Q' }, { name = 'B', queue = 'R' }, { name = 'C', queue = 'S' }]";

const END: u64 = 1 << 63;

// What a worker asks of the board for a service and a queue: that its row stands there with a routine, that this is
// withdrawn, that the first row of the queue is, or which queues have the service.
#[derive(Clone, Copy)]
enum Ask {
    Put(&'static [u8]),
    Out,
    Clear,
    Find,
}

// What was seen before a step, the step, its queue, what is told, and the stamp of the last change or look then, which is 0
// where there was no change.
type Step = (u64, Ask, u16, Told, u64);

// The steps at a board, and how many changes were noted.
static BOARDS: [(&[Step], usize); 2] = [
    (
        &[
            (0, Ask::Find, 0, Told::FoundAt(0, &[]), 0),
            (3, Ask::Clear, 3, Told::Clear(3), 0),
            (0, Ask::Put(b"R"), 1, Told::Done(4), 4),
            (5, Ask::Put(b"R"), 2, Told::Done(6), 6),
            (0, Ask::Find, 0, Told::FoundAt(2, &[1, 2]), 6),
            (0, Ask::Put(b"S"), 1, Told::Match, 6),
            (0, Ask::Out, 3, Told::NoEnt, 6),
            (0, Ask::Put(b"R"), 1, Told::Done(7), 7),
            (0, Ask::Find, 0, Told::FoundAt(3, &[2, 1]), 7),
            (20, Ask::Clear, 3, Told::Clear(20), 20),
            (9, Ask::Clear, 1, Told::Done(21), 21),
            (9, Ask::Clear, 1, Told::Clear(21), 21),
            (0, Ask::Find, 0, Told::FoundAt(4, &[2]), 21),
            (0, Ask::Out, 2, Told::Done(22), 22),
            (0, Ask::Find, 0, Told::FoundAt(5, &[]), 22),
        ],
        5,
    ),
    (
        &[
            (END - 1, Ask::Put(b"R"), 1, Told::Done(END), END),
            (0, Ask::Put(b"R"), 2, Told::Worn, END),
            (0, Ask::Out, 1, Told::Worn, END),
            (0, Ask::Clear, 1, Told::Worn, END),
            (0, Ask::Clear, 2, Told::Clear(END), END),
            (0, Ask::Find, 0, Told::FoundAt(1, &[1]), END),
        ],
        1,
    ),
];

fn is_cleared(answer: Result<Clearing, BoardRefused>, told: Told) -> bool {
    match answer {
        Ok(Clearing::Withdrew(noted)) => {
            matches!(told, Told::Done(want) if noted.stamp.0 == want)
        }
        Ok(Clearing::Clear(look)) => matches!(told, Told::Clear(want) if look.stamp.0 == want),
        Err(why) => is_refused(why, told),
    }
}

fn has_found(version: u64, rows: &[Row], told: Told) -> bool {
    matches!(told, Told::FoundAt(want, queues) if version == want && are_on(rows, queues))
}

// The row of the service on a queue of the setup, with that routine.
fn row_on(setup: &Setup, queue: QueueId, service: Name, routine: &[u8]) -> Option<Row>
    requires { is_configured setup.now ≡ true }
    ensures { IfSome result (IsPlaced setup.now) }
{
    if queue.0 == 0 || usize::from(queue.0) > setup.queues.slice().len() {
        return None;
    }
    let routine = Name::read(routine).ok()?;
    Some(row_for(setup, queue, service, routine))
}

// Whether a step for the service is told what it should be.
fn is_told(
    board: &mut KeptBoard,
    setup: &Setup,
    reader: &mut Reader,
    service: Name,
    step: Step,
) -> bool
    requires setup { board.old.setup ≡ setup.now }
    requires configured { is_configured setup.now ≡ true }
    ensures { board.new.setup ≡ setup.now }
{
    let (seen, ask, queue, told, want) = step;
    let seen = Stamp(seen.min(END));
    let queue = QueueId(queue);
    let maker = CallerId(1);
    let right = match ask {
        Ask::Put(routine) => {
            let Some(row) = row_on(setup, queue, service, routine) else {
                return false;
            };
            is_done(board.advertise(seen, maker, maker, 1, row), told)
        }
        Ask::Out => is_done(board.withdraw(seen, maker, maker, 1, &service, queue), told),
        Ask::Clear => is_cleared(board.clear(seen, maker, queue), told),
        Ask::Find => {
            board.lookup(maker, reader, &service, false);
            let found = reader.found();
            has_found(found.version, &found.rows, told)
        }
    };
    right && board.stamp().0 == want
}

fn are_told(
    board: &mut KeptBoard,
    setup: &Setup,
    reader: &mut Reader,
    service: Name,
    steps: &[Step],
) -> bool
    requires setup { board.old.setup ≡ setup.now }
    requires configured { is_configured setup.now ≡ true }
{
    let mut right = true;
    for step in steps {
        right &= is_told(board, setup, reader, service, *step);
    }
    right
}

// Whether the steps at a board are told what they should be, of which so many are changes.
fn is_right<R: Abort>(rt: &R, alloc: Global, steps: &[Step], changes: usize) -> bool {
    let Ok(service) = Name::read(b"A") else {
        panic!(rt; "no name")
    };
    let Ok(setup) = xa_config::read(alloc, SETUP) else {
        panic!(rt; "no setup")
    };
    let Ok(board) = Board::new(alloc, Stamp(0)) else {
        panic!(rt; "no memory")
    };
    let Ok(mut reader) = board.reader(alloc) else {
        panic!(rt; "no memory")
    };
    let mut board = KeptBoard::of(board, &setup);
    let right = are_told(&mut board, &setup, &mut reader, service, steps);
    right && board.home().entries().len() == changes
}

fn first_not_right<R: Abort>(rt: &R, alloc: Global) -> Option<usize> {
    for (place, (steps, changes)) in BOARDS.iter().enumerate() {
        if !is_right(rt, alloc, steps, *changes) {
            return Some(place);
        }
    }
    None
}

#[test]
fn steps_at_the_board_are_told(rt: HostRuntime) {
    none_fails(&rt, first_not_right(&rt, rt.alloc()));
}
