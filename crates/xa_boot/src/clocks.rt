// The clock under its lock.
ghost use Rattle.std.specs.Prelude.{◌<◌, IfOk};
ghost use Rattle.xa_boot.specs.Supplies.{IsOpenClock};

use std::alloc::Global;
use xa_client_worker::clock::Clock;
use xa_client_worker::lock::{Guarded, LockPass, Made};
use xa_client_worker::types::NoMemory;

/// The clock, which shows 0, and a pass for each worker.
#[derive(Drop)]
pub struct OpenClock {
    pub lock: Guarded<Clock>,
    pub passes: Vec<LockPass<Made>>,
}

/// A clock that shows 0, for so many workers.
pub(crate) fn open_clock(alloc: Global, workers: u16) -> Result<OpenClock, NoMemory>
    requires some { 0 < workers }
    ensures { IfOk result (IsOpenClock workers) }
{
    let (lock, passes) = Guarded::new(alloc, Clock::new(alloc), u32::from(workers))?;
    Ok(OpenClock { lock, passes })
}
