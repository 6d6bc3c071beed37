// The domain, and what there is for its workers. Where memory runs out nothing of it is left.
ghost use Rattle.std.specs.Prelude.{◌≡◌, ◌≤◌, length, true, IfOk};
ghost use Rattle.xa_client_worker.specs.xa_types.Configured.{is_configured};
ghost use Rattle.xa_client_worker.specs.xa_worker.Ending.{workers_of};
ghost use Rattle.xa_boot.specs.Supplies.{AreSupplies, IsOpenBoard};
ghost use Rattle.xa_boot.specs.Locking.{AreLocked};
ghost use Rattle.xa_boot.specs.Founding.{AreSeats, IsFounded};

use crate::boards::{OpenBoard, open_board};
use crate::clocks::OpenClock;
use crate::locking::{Locked, lock_queues};
use crate::rooms::{Supplies, workers_of};
use crate::staff::Staff;
use std::alloc::Global;
use xa_client_worker::caller::Filling;
use xa_client_worker::cell::{Cells, Seat};
use xa_client_worker::desk::{Domain, HaltWord};
use xa_client_worker::restart::Lives;
use xa_client_worker::types::{NoMemory, Setup};

/// A domain, what there is for its workers, and the starts of each server.
pub struct Founded {
    pub domain: Domain,
    pub staff: Staff,
    pub lives: Vec<Lives>,
}

// The domain with these parts, whose workers are all left.
fn assemble(
    setup: Setup,
    clients: u16,
    left: u16,
    supplies: Supplies,
    board: OpenBoard,
    cells: Cells<Filling>,
    seats: Vec<Seat<Filling>>,
    locked: Locked,
) -> Founded
    requires configured { is_configured setup ≡ true }
    requires left { left ≡ workers_of setup clients }
    requires supplies { AreSupplies setup clients supplies }
    requires board { IsOpenBoard setup left board }
    requires seats { AreSeats cells supplies.limits.items seats.items }
    requires locked { AreLocked setup clients cells board.booted left (length setup.queues) locked }
    ensures { IsFounded setup clients result }
{
    let Supplies {
        shapes,
        waits,
        limits: _,
        lives,
        clock,
        rooms,
    } = supplies;
    let OpenClock {
        lock: clock,
        passes: clocks,
    } = clock;
    let OpenBoard {
        lock,
        passes,
        readers,
        own,
        booted,
        version,
    } = board;
    let Locked {
        queues,
        passes: dealt,
    } = locked;
    let domain = Domain {
        setup,
        shapes,
        clients,
        booted,
        cells,
        board: lock,
        queues,
        clock,
        waits,
        halt: HaltWord::new(),
    };
    let staff = Staff {
        left,
        own,
        version,
        seats,
        readers,
        boards: passes,
        queues: dealt,
        clocks,
        rooms,
    };
    Founded {
        domain,
        staff,
        lives,
    }
}

/// Founds a domain with so many clients.
pub(crate) fn found(alloc: Global, setup: Setup, clients: u16) -> Result<Founded, NoMemory>
    requires configured { is_configured setup ≡ true }
    requires few { clients ≤ 64 }
    ensures { IfOk result (IsFounded setup clients) }
{
    let left = workers_of(&setup, clients);
    let supplies = Supplies::new(alloc, &setup, clients)?;
    let board = open_board(alloc, &setup, left)?;
    let (cells, seats) = Cells::new(alloc, supplies.limits.as_slice())?;
    match lock_queues(alloc, &setup, clients, &cells, board.booted, left) {
        Ok(locked) => Ok(assemble(setup, clients, left, supplies, board, cells, seats, locked)),
        Err(NoMemory) => {
            cells.close(seats);
            Err(NoMemory)
        }
    }
}
