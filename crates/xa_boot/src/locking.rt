// The queues, each under its lock. Where memory runs out, those that stand are closed again.
ghost use Rattle.std.specs.Prelude.{◌≡◌, ◌+◌, ◌<◌, ◌≤◌, ◌^◌, length, true, IfOk};
ghost use Rattle.xa_client_worker.specs.xa_types.Configured.{is_configured};
ghost use Rattle.xa_client_worker.specs.xa_held.declared.kept_queue.Setting.{Setting};
ghost use Rattle.xa_client_worker.specs.xa_held.Joins.{HasServers};
ghost use Rattle.xa_client_worker.specs.xa_caller.declared.cargo.Filling.{Filling};
ghost use Rattle.xa_boot.specs.Locking.{IsPlain, IsFresh, IsLocked, AreLocked, AreFresh};

use crate::rooms::QueuePass;
use std::alloc::Global;
use xa_client_worker::caller::{Cargo, Filling};
use xa_client_worker::cell::Cells;
use xa_client_worker::held::KeptQueue;
use xa_client_worker::lock::Guarded;
use xa_client_worker::queue::Queue;
use xa_client_worker::route::queue_named;
use xa_client_worker::types::{NoMemory, QueueId, ServerId, Setup, Stamp};

/// Queues under their locks, and all passes of each.
pub struct Locked {
    pub queues: Vec<Guarded<KeptQueue<Filling>>>,
    pub passes: Vec<Vec<QueuePass>>,
}

fn servers_of(alloc: Global, setup: &Setup, queue: QueueId) -> Result<Vec<ServerId>, NoMemory>
    requires configured { is_configured setup.now ≡ true }
    requires some { 0 < queue.0 }
    ensures few { IfOk result (λ servers. length servers.items ≤ 64) }
    ensures has { IfOk result (λ servers. HasServers setup.now queue.0 servers.items) }
{
    let all = setup.servers.slice();
    let mut servers = Vec::with_capacity(alloc, all.len())?;
    let mut number = 0u16;
    for server in all {
        number += 1;
        if queue_named(setup, &server.queue).0 == queue.0 {
            servers.push_reserved(ServerId(number));
        }
    }
    Ok(servers)
}

// The queue at that place, where nothing came yet.
fn plain_queue(
    alloc: Global,
    setup: &Setup,
    first: Stamp,
    place: u16,
) -> Result<Queue<Cargo>, NoMemory>
    requires configured { is_configured setup.now ≡ true }
    requires bound { first.0 ≤ 2 ^ 63 }
    requires place { place < length setup.now.queues }
    ensures { IfOk result (IsPlain setup.now first place) }
{
    let id = QueueId(place + 1);
    let servers = servers_of(alloc, setup, id)?;
    let capacity = setup.queues.slice()[usize::from(place)].capacity;
    Queue::new(alloc, id, capacity, servers.as_slice(), first)
}

// The queue at that place under its lock, and a pass for each worker.
fn lock_queue(
    alloc: Global,
    setup: &Setup,
    clients: u16,
    cells: &Cells<Filling>,
    first: Stamp,
    workers: u16,
    place: u16,
) -> Result<(Guarded<KeptQueue<Filling>>, Vec<QueuePass>), NoMemory>
    requires configured { is_configured setup.now ≡ true }
    requires bound { first.0 ≤ 2 ^ 63 }
    requires some { 0 < workers }
    requires place { place < length setup.now.queues }
    ensures { IfOk result (λ made. IsLocked setup.now clients cells.now first workers place made.0 made.1) }
{
    let plain = plain_queue(alloc, setup, first, place)?;
    let kept = KeptQueue::of(plain, clients, cells);
    match Guarded::try_new(alloc, kept, u32::from(workers)) {
        Ok(made) => Ok(made),
        Err(kept) => {
            drop(kept.drain().home());
            Err(NoMemory)
        }
    }
}

// Ends a queue to which nothing came.
fn close_queue(queue: Guarded<KeptQueue<Filling>>, passes: Vec<QueuePass>)
    requires fresh { (its : Setting Filling) × IsFresh its queue passes.items }
    requires some { 0 < length passes.items }
{
    let kept = queue.close(passes);
    drop(kept.drain().home());
}

impl Locked {
    // Ends these queues, to which nothing came.
    fn close(self)
        requires { AreFresh self }
    {
        let Locked {
            mut queues,
            mut passes,
        } = self;
        while let Some(queue) = queues.pop() {
            match passes.pop() {
                Some(passes) => close_queue(queue, passes),
                None => unreachable!(),
            }
        }
        queues.destroy_empty();
    }
}

/// All queues of the setup in a domain with so many clients, and a pass of each for every worker.
pub(crate) fn lock_queues(
    alloc: Global,
    setup: &Setup,
    clients: u16,
    cells: &Cells<Filling>,
    first: Stamp,
    workers: u16,
) -> Result<Locked, NoMemory>
    requires configured { is_configured setup.now ≡ true }
    requires bound { first.0 ≤ 2 ^ 63 }
    requires some { 0 < workers }
    ensures { IfOk result (AreLocked setup.now clients cells.now first workers (length setup.now.queues)) }
{
    let count = setup.queues.slice().len() as u16;
    let passes = Vec::with_capacity(alloc, usize::from(count))?;
    let queues = Vec::with_capacity(alloc, usize::from(count))?;
    let mut locked = Locked { queues, passes };
    for place in 0..count {
        match lock_queue(alloc, setup, clients, cells, first, workers, place) {
            Ok((queue, passes)) => {
                locked.queues.push_reserved(queue);
                locked.passes.push_reserved(passes);
            }
            Err(NoMemory) => {
                locked.close();
                return Err(NoMemory);
            }
        }
    }
    Ok(locked)
}
