// The board under its lock, behind the boot.
ghost use Rattle.std.specs.Prelude.{◌≡◌, ◌<◌, length, true, IfOk};
ghost use Rattle.xa_client_worker.specs.xa_types.Configured.{is_configured};
ghost use Rattle.xa_boot.specs.Supplies.{IsOpenBoard};

use crate::advertising::Opening;
use std::alloc::Global;
use xa_client_worker::board::{Board, Reader};
use xa_client_worker::held::{BoardNote, KeptBoard};
use xa_client_worker::lock::{Guarded, LockPass};
use xa_client_worker::types::{NoMemory, Setup, Stamp};
use xa_client_worker::work::Own;

/// The board, on which the configured services are advertised: a pass and a reader for each worker, what the domain noted
/// there, the stamp of the last of that, and the board's version then.
#[derive(Drop)]
pub struct OpenBoard {
    pub lock: Guarded<KeptBoard>,
    pub passes: Vec<LockPass<BoardNote>>,
    pub readers: Vec<Reader>,
    pub own: Own,
    pub booted: Stamp,
    pub version: u64,
}

fn readers_of(alloc: Global, board: &Board, workers: u16) -> Result<Vec<Reader>, NoMemory>
    ensures { IfOk result (λ readers. length readers.items ≡ workers) }
{
    let mut readers = Vec::with_capacity(alloc, usize::from(workers))?;
    for _ in 0..workers {
        readers.push_reserved(board.reader(alloc)?);
    }
    Ok(readers)
}

/// A board on which the configured services are advertised, for so many workers.
pub(crate) fn open_board(alloc: Global, setup: &Setup, workers: u16) -> Result<OpenBoard, NoMemory>
    requires configured { is_configured setup.now ≡ true }
    requires some { 0 < workers }
    ensures { IfOk result (IsOpenBoard setup.now workers) }
{
    let board = Board::new(alloc, Stamp(0))?;
    let readers = readers_of(alloc, &board, workers)?;
    let mut opening = Opening::new(board, setup);
    opening.advertise_all(setup)?;
    let Opening { board, own } = opening;
    let version = board.version();
    let booted = board.stamp();
    let (lock, passes) = Guarded::new(alloc, board, u32::from(workers))?;
    Ok(OpenBoard {
        lock,
        passes,
        readers,
        own,
        booted,
        version,
    })
}
