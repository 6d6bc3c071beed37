// The locks and the cells are closed.
ghost use Rattle.std.specs.Prelude.{◌≡◌, ℕ, ◌+◌, ◌<◌, ◌≤◌, ◌++◌, List, length, slice_index_or, vec_capacity};
ghost use Rattle.xa_boot.specs.xa_lock.Makers.{noted_in};
ghost use Rattle.xa_boot.specs.xa_cell.Known.{IsTicketOf};
ghost use Rattle.xa_boot.specs.xa_held.Kept.{Kept};
ghost use Rattle.xa_boot.specs.xa_caller.declared.cargo.Filling.{Filling};
ghost use Rattle.xa_boot.specs.xa_desk.Desks.{IsDomain};
ghost use Rattle.xa_boot.specs.Booting.{IsDealt};
ghost use Rattle.xa_history.specs.Joined.{Back};
ghost use Rattle.xa_domain.specs.Leaving.{Leaving, AreAllTokens};
ghost use Rattle.xa_domain.specs.Room.{IsEmptyFor};
ghost use Rattle.xa_domain.specs.Closed.{GivesBack};
ghost use Rattle.xa_domain.specs.Locks.{IsSilent, AreAllOf, ClosesAs, ClosesAll, Locked, Passes};

use crate::tokens::{QueuePass, Tokens};
use xa_boot::caller::{Cargo, Filling};
use xa_boot::cell::{Cells, Filled, Seat};
use xa_boot::desk::Domain;
use xa_boot::held::KeptQueue;
use xa_boot::lock::Guarded;
use xa_boot::queue::Entry;
use xa_boot::server::{Closing, ServerSlot};
use xa_boot::stamp::{Home, Record};
use xa_boot::types::Sequence;

// Lets go of a request that still waits, as behind a halt: its cell is filled without an answer.
fn let_go(cells: &Cells<Filling>, seat: &mut Seat<Filling>, entry: Entry<Cargo>)
    requires silent { IsSilent cells.now seat.old }
    requires ticket { IsTicketOf cells.now entry.cargo.ticket }
    ensures { IsSilent cells.now seat.new }
{
    let Closing {
        request: _,
        ticket,
        answer,
        stamp,
    } = ServerSlot::abandon(entry);
    let Some(ticket) = ticket else {
        return;
    };
    match cells.fill(seat, ticket, Filling { answer, stamp }) {
        Filled::Delivered => {}
        Filled::Dropped(_) => {}
    }
}

// Closes a queue with its passes, and lets go of what still waits there.
fn close_queue(
    cells: &Cells<Filling>,
    seat: &mut Seat<Filling>,
    queue: Guarded<KeptQueue<Filling>>,
    passes: Vec<QueuePass>,
) -> Home
    requires silent { IsSilent cells.now seat.old }
    requires all { AreAllOf cells.now queue passes.items }
    ensures silent { IsSilent cells.now seat.new }
    ensures closes { (kept : Kept Filling) × ClosesAs queue passes.items kept × (result.entries ≡ noted_in kept.queue.entries) }
{
    let mut rest = queue.close(passes).drain();
    while let Some(entry) = rest.take() {
        let_go(cells, seat, entry);
    }
    rest.home()
}

// Closes each queue with its passes.
fn close_queues(
    cells: &Cells<Filling>,
    seat: &mut Seat<Filling>,
    queues: Vec<Guarded<KeptQueue<Filling>>>,
    passes: Vec<Vec<QueuePass>>,
    homes: &mut Vec<Home>,
)
    requires silent { IsSilent cells.now seat.old }
    requires count { length passes.items ≡ length queues.items }
    requires each { (k : ℕ) (queue : Locked) (its : Passes) → k < length queues.items → AreAllOf cells.now (slice_index_or queues.items k queue) (slice_index_or passes.items k its).items }
    requires room { length homes.old.items + length queues.items ≤ vec_capacity homes.old }
    ensures silent { IsSilent cells.now seat.new }
    ensures closes { ClosesAll queues.items passes.items homes.old homes.new }
{
    let mut rest = queues.into_iter();
    let mut back = passes.into_iter();
    while let Some(queue) = rest.next() {
        let Some(passes) = back.next() else {
            unreachable!()
        };
        homes.push_reserved(close_queue(cells, seat, queue, passes));
    }
    rest.destroy_empty();
}

fn add_callers(homes: &mut Vec<Home>, callers: Vec<Home>)
    requires { length homes.old.items + length callers.items ≤ vec_capacity homes.old }
    ensures { homes.new.items ≡ homes.old.items ++ callers.items }
{
    for home in callers {
        homes.push_reserved(home);
    }
}

/// Closes the locks with all their passes, and the cells with all their seats. The homes stand in the order of their merge:
/// the board, the queues, the clock, the callers.
pub(crate) fn close_homes(
    domain: Domain,
    tokens: Tokens,
    mut homes: Vec<Home>,
    callers: Vec<Home>,
) -> Record
    requires domain { IsDomain domain }
    requires dealt { IsDealt domain }
    requires tokens { (itself : Leaving) × (others : List Leaving) × AreAllTokens domain itself others tokens }
    requires callers { length callers.items ≡ domain.clients + length domain.setup.servers }
    requires room { IsEmptyFor (length domain.setup.queues + length callers.items + 2) homes }
    ensures { (itself : Leaving) (others : List Leaving) → AreAllTokens domain itself others tokens → (b : Back) × GivesBack domain itself others callers.items b result.homes }
{
    let Domain {
        setup: _,
        shapes: _,
        clients: _,
        booted: _,
        cells,
        board,
        queues,
        clock,
        waits: _,
        halt: _,
    } = domain;
    let Tokens {
        mut seats,
        boards,
        queues: passes,
        clocks,
    } = tokens;
    homes.push_reserved(board.close(boards).home());
    close_queues(&cells, &mut seats[0], queues, passes, &mut homes);
    cells.close(seats);
    homes.push_reserved(clock.close(clocks).home());
    add_callers(&mut homes, callers);
    Record {
        homes: Sequence::from_vec(homes),
    }
}
