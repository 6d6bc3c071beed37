//! The board: what its changes and its lookups are told, each change at the end of stamps, and 256 rows.
use crate::rows::none_fails;
use std::alloc::Global;
use xa_board::{Board, BoardRefused, Changed, Reader};
use xa_types::{Accepts, CallerId, Name, QueueId, Row, Stamp};

const END: u64 = 1 << 63;

// What is asked of a board for a service and a queue: that its row stands there with a routine, that this is withdrawn,
// that all rows of the queue are, or which queues have it.
#[derive(Clone, Copy)]
enum Ask {
    Put(&'static [u8]),
    Out,
    OutAll,
    Find,
}

/// What it is told: the stamp of its last change, or that of a look behind which all changes are, or why there is no change;
/// or the queues, and under its lock the version too.
#[derive(Clone, Copy)]
pub enum Told {
    Done(u64),
    Clear(u64),
    Match,
    NoEnt,
    Full,
    Worn,
    Found(&'static [u16]),
    FoundAt(u64, &'static [u16]),
}

// What was seen before a call, the call, its queue, and what it is told.
type Step = (u64, Ask, u16, Told);

// How many rows stand with the routine R, on the queues from 0 on, before the calls; and the calls.
static BOARDS: [(u16, &[Step]); 4] = [
    (
        2,
        &[
            (0, Ask::Find, 0, Told::Found(&[0, 1])),
            (9, Ask::Put(b"R"), 0, Told::Done(10)),
            (99, Ask::Put(b"S"), 0, Told::Match),
            (99, Ask::Out, 2, Told::NoEnt),
            (0, Ask::Find, 0, Told::Found(&[1, 0])),
            (0, Ask::Out, 1, Told::Done(11)),
            (0, Ask::Put(b"S"), 2, Told::Done(12)),
            (20, Ask::OutAll, 1, Told::Done(20)),
            (0, Ask::OutAll, 0, Told::Done(13)),
            (0, Ask::Find, 0, Told::Found(&[2])),
            (END, Ask::Put(b"S"), 2, Told::Worn),
            (END - 1, Ask::Put(b"S"), 2, Told::Done(END)),
            (0, Ask::Put(b"S"), 2, Told::Worn),
        ],
    ),
    (
        2,
        &[
            (END, Ask::Out, 0, Told::Worn),
            (END - 1, Ask::Out, 0, Told::Done(END)),
            (0, Ask::Out, 1, Told::Worn),
        ],
    ),
    (
        2,
        &[
            (END, Ask::OutAll, 0, Told::Worn),
            (END - 1, Ask::OutAll, 0, Told::Done(END)),
            (0, Ask::OutAll, 1, Told::Worn),
            (0, Ask::OutAll, 2, Told::Done(END)),
        ],
    ),
    (
        256,
        &[
            (0, Ask::Put(b"R"), 256, Told::Full),
            (0, Ask::Put(b"R"), 0, Told::Done(257)),
            (0, Ask::Out, 0, Told::Done(258)),
            (0, Ask::Put(b"R"), 256, Told::Done(259)),
        ],
    ),
];

/// Whether that refusal is what is told.
pub fn is_refused(why: BoardRefused, told: Told) -> bool {
    match why {
        BoardRefused::Match(_) => matches!(told, Told::Match),
        BoardRefused::NoEnt => matches!(told, Told::NoEnt),
        BoardRefused::Full => matches!(told, Told::Full),
        BoardRefused::Worn(larger) => matches!(told, Told::Worn) && larger == Stamp::LAST,
        BoardRefused::NoMemory => false,
    }
}

/// Whether a change's answer is what is told.
pub fn is_done(answer: Result<Changed, BoardRefused>, told: Told) -> bool {
    match answer {
        Ok(done) => matches!(told, Told::Done(want) if done.noted.stamp.0 == want),
        Err(why) => is_refused(why, told),
    }
}

/// Whether the rows stand on these queues.
pub fn are_on(rows: &[Row], queues: &[u16]) -> bool {
    for (place, row) in rows.iter().enumerate() {
        if queues.get(place) != Some(&row.queue.0) {
            return false;
        }
    }
    rows.len() == queues.len()
}

fn is_stamped(answer: Result<Stamp, BoardRefused>, told: Told) -> bool {
    match answer {
        Ok(stamp) => matches!(told, Told::Done(want) if stamp.0 == want),
        Err(why) => is_refused(why, told),
    }
}

fn row_of(service: Name, queue: QueueId, routine: Name) -> Row {
    Row {
        service,
        queue,
        routine,
        priority: 50,
        conversational: false,
        accepts: Accepts::all(),
    }
}

// Whether a call for the service is told what it should be.
fn is_told(board: &mut Board, reader: &mut Reader, service: Name, step: Step) -> bool {
    let (seen, ask, queue, told) = step;
    let seen = Stamp(seen.min(END));
    let queue = QueueId(queue);
    match ask {
        Ask::Put(routine) => match Name::read(routine) {
            Ok(routine) => {
                let row = row_of(service, queue, routine);
                is_done(board.advertise(seen, CallerId(9), 1, row), told)
            }
            Err(_) => false,
        },
        Ask::Out => is_done(board.withdraw(seen, CallerId(9), 1, &service, queue), told),
        Ask::OutAll => is_stamped(board.withdraw_all(seen, queue), told),
        Ask::Find => {
            board.lookup(reader, &service, false);
            matches!(told, Told::Found(queues) if are_on(&reader.found().rows, queues))
        }
    }
}

fn are_told(board: &mut Board, reader: &mut Reader, service: Name, steps: &[Step]) -> bool {
    for step in steps {
        if !is_told(board, reader, service, *step) {
            return false;
        }
    }
    true
}

// Whether so many rows can be put on a board without any.
fn are_put(board: &mut Board, reader: &mut Reader, service: Name, rows: u16) -> bool {
    for queue in 0..rows {
        let told = Told::Done(u64::from(queue) + 1);
        if !is_told(board, reader, service, (0, Ask::Put(b"R"), queue, told)) {
            return false;
        }
    }
    true
}

fn is_played(board: &mut Board, reader: &mut Reader, rows: u16, steps: &[Step]) -> bool {
    let Ok(service) = Name::read(b"A") else {
        return false;
    };
    if !are_put(board, reader, service, rows) {
        return false;
    }
    board.tell(reader);
    are_told(board, reader, service, steps)
}

fn plays(alloc: Global, board: &mut Board, rows: u16, steps: &[Step]) -> bool {
    match board.reader(alloc) {
        Ok(mut reader) => is_played(board, &mut reader, rows, steps),
        Err(_) => false,
    }
}

fn has_noted(board: Board) -> bool {
    !board.home().entries().is_empty()
}

fn is_right(alloc: Global, rows: u16, steps: &[Step]) -> bool {
    match Board::new(alloc, Stamp(0)) {
        Ok(mut board) => {
            let told = plays(alloc, &mut board, rows, steps);
            has_noted(board) && told
        }
        Err(_) => false,
    }
}

fn first_not_right(alloc: Global) -> Option<usize> {
    for (place, (rows, steps)) in BOARDS.iter().enumerate() {
        if !is_right(alloc, *rows, steps) {
            return Some(place);
        }
    }
    None
}

#[test]
fn boards_change_and_are_looked_up(rt: HostRuntime) {
    none_fails(&rt, first_not_right(rt.alloc()));
}
