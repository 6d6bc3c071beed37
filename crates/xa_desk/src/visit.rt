// A worker's visit of a queue or of the board: it enters, calls what is there, and leaves.
ghost use Rattle.std.specs.Prelude.{◌≡◌, ℕ, ◌+◌, ◌<◌, None, Some, IsSome, List, length, slice_index_or, slice_set};
ghost use Rattle.xa_server.specs.xa_held.declared.kept_board.BoardNote.{BoardNote as Noted};
ghost use Rattle.xa_server.specs.xa_held.Board.{Held as Board};
ghost use Rattle.xa_server.specs.xa_lock.declared.makers.Made.{Made};
ghost use Rattle.xa_server.specs.xa_lock.Known.{found, value_of, IsHeldOf};
ghost use Rattle.xa_server.specs.xa_held.Kept.{Kept};
ghost use Rattle.xa_server.specs.xa_caller.declared.cargo.Filling.{Filling};
ghost use Rattle.xa_desk.specs.declared.desk.Desk.{Desk as Whose};
ghost use Rattle.xa_desk.specs.Desks.{IsDesk};
ghost use Rattle.xa_desk.specs.Visit.{QueueLock, IsAt, Adds, Leaves, IsAtBoard, AddsToBoard, LeavesBoard};

use crate::domain::Domain;
use std::mem;
use std::sync::Wait;
use xa_server::caller::Filling;
use xa_server::held::{BoardNote, KeptBoard, KeptQueue, QueueNote};
use xa_server::lock::{Held, LockPass};
use xa_server::types::{QueueId, Stamp};

/// A queue out of its lock, with the pass of the worker that is there. It has to go back by `leave`.
pub(crate) struct Visit {
    pub(crate) place: usize,
    pub(crate) queue: Held<KeptQueue<Filling>>,
}

pub(crate) fn take_out<E>(pass: &mut Option<LockPass<E>>) -> LockPass<E>
    requires { IsSome pass.old }
    ensures was { pass.old ≡ Some result }
    ensures now { pass.new ≡ None }
{
    match mem::replace(pass, None) {
        Some(pass) => pass,
        None => unreachable!(),
    }
}

fn take_from<E>(passes: &mut Vec<Option<LockPass<E>>>, queue: usize) -> LockPass<E>
    requires place { queue < length passes.old.items }
    requires there { IsSome (slice_index_or passes.old.items queue None) }
    ensures was { slice_index_or passes.old.items queue None ≡ Some result }
    ensures rest { passes.new.items ≡ slice_set passes.old.items queue None }
{
    take_out(&mut passes[queue])
}

fn put_back<E>(passes: &mut Vec<Option<LockPass<E>>>, queue: usize, pass: LockPass<E>)
    requires { queue < length passes.old.items }
    ensures { passes.new.items ≡ slice_set passes.old.items queue (Some pass) }
{
    passes[queue] = Some(pass);
}

/// The worker of the desk with these passes goes to the queue, and has it for itself.
pub(crate) fn enter<W: Wait>(
    rt: &W,
    domain: &Domain,
    passes: &mut Vec<Option<LockPass<QueueNote<Filling>>>>,
    queue: QueueId,
) -> Visit
    requires place { (0 < queue.0) × (queue.0 < length domain.now.queues.items + 1) }
    requires desk { (old : Whose) × IsDesk domain.now old × (passes.old ≡ old.queues) }
    ensures lock { (default : QueueLock) → IsHeldOf (slice_index_or domain.now.queues.items result.place default) result.queue }
    ensures at { (old : Whose) → IsDesk domain.now old → passes.old ≡ old.queues → IsAt domain.now queue.0 result.place old (value_of result.queue) (found result.queue) passes.new.items }
{
    let place = usize::from(queue.0) - 1;
    let pass = take_from(passes, place);
    Visit {
        place,
        queue: domain.queues[place].enter(rt, pass),
    }
}

/// It leaves the queue, to which events of its own at most were added. Answers the stamp of the queue's last event by then, 0
/// where it has none.
pub(crate) fn leave(
    domain: &Domain,
    passes: &mut Vec<Option<LockPass<QueueNote<Filling>>>>,
    visit: Visit,
) -> Stamp
    requires lock { (default : QueueLock) → IsHeldOf (slice_index_or domain.now.queues.items visit.place default) visit.queue }
    requires at { (queue : ℕ) × (old : Whose) × (there : Kept Filling) × (more : List Made) × IsAt domain.now queue visit.place old there (found visit.queue) passes.old.items × Adds old there (value_of visit.queue) more }
    ensures left { (queue : ℕ) (old : Whose) (there : Kept Filling) → IsAt domain.now queue visit.place old there (found visit.queue) passes.old.items → Leaves domain.now queue visit.place old there (value_of visit.queue) passes.new.items result }
{
    let Visit { place, queue } = visit;
    let last = queue.get().stamp();
    let pass = domain.queues[place].leave(queue);
    put_back(passes, place, pass);
    last
}

/// The worker of the desk with that pass goes to the board, and has it for itself, out of its lock. It has to go back by
/// `leave_board`.
pub(crate) fn enter_board<W: Wait>(
    rt: &W,
    domain: &Domain,
    pass: &mut Option<LockPass<BoardNote>>,
) -> Held<KeptBoard>
    requires desk { (old : Whose) × IsDesk domain.now old × (pass.old ≡ old.board) }
    ensures lock { IsHeldOf domain.now.board result }
    ensures at { (old : Whose) → IsDesk domain.now old → pass.old ≡ old.board → IsAtBoard domain.now old (value_of result) (found result) pass.new }
{
    let board = domain.board.enter(rt, take_out(pass));
    let _version = board.get().version();
    board
}

/// It leaves the board, to which changes and looks of its own at most were added. Answers the stamp of the last one by then;
/// 0 where there was no change.
pub(crate) fn leave_board(
    domain: &Domain,
    pass: &mut Option<LockPass<BoardNote>>,
    board: Held<KeptBoard>,
) -> Stamp
    requires lock { IsHeldOf domain.now.board board }
    requires at { (old : Whose) × (there : Board) × (more : List Noted) × IsAtBoard domain.now old there (found board) pass.old × AddsToBoard old there (value_of board) more }
    ensures left { (old : Whose) (there : Board) → IsAtBoard domain.now old there (found board) pass.old → LeavesBoard domain.now old there (value_of board) pass.new result }
{
    let last = board.get().stamp();
    *pass = Some(domain.board.leave(board));
    last
}
