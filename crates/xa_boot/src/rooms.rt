// What the workers' desks and the domain take of memory beside queues and cells. All of it can be dropped.
ghost use Rattle.std.specs.Prelude.{◌≡◌, ◌≤◌, length, map, true, IfOk};
ghost use Rattle.std.specs.List.{All};
ghost use Rattle.xa_client_worker.specs.xa_types.Configured.{is_configured};
ghost use Rattle.xa_client_worker.specs.xa_events.Words.{EachNumbered};
ghost use Rattle.xa_client_worker.specs.xa_worker.Ending.{workers_of};
ghost use Rattle.xa_boot.specs.Supplies.{limit_of, restarts_of, IsRoom, AreSupplies};

use crate::clocks::{OpenClock, open_clock};
use crossbeam_utils::sync::EventCount;
use std::alloc::Global;
use std::sync::atomic::AtomicU64;
use xa_client_worker::buffer::Shapes;
use xa_client_worker::caller::Filling;
use xa_client_worker::desk::{Signals, Waits};
use xa_client_worker::held::QueueNote;
use xa_client_worker::lock::LockPass;
use xa_client_worker::restart::Lives;
use xa_client_worker::types::{NoMemory, Setup};

// How many requests a client may have out, and a server.
const CLIENT_CELLS: u32 = 50;

const SERVER_CELLS: u32 = 16;

/// A worker's right to enter a queue.
pub type QueuePass = LockPass<QueueNote<Filling>>;

/// The shapes, where workers sleep, how many cells each worker has, the starts of each server, the clock under its lock, and
/// for each worker room for its passes of the queues.
#[derive(Drop)]
pub struct Supplies {
    pub shapes: Shapes,
    pub waits: Waits,
    pub limits: Vec<u32>,
    pub lives: Vec<Lives>,
    pub clock: OpenClock,
    pub rooms: Vec<Vec<Option<QueuePass>>>,
}

/// The domain itself, its clients and its servers.
pub(crate) fn workers_of(setup: &Setup, clients: u16) -> u16
    requires configured { is_configured setup.now ≡ true }
    requires few { clients ≤ 64 }
    ensures { result ≡ workers_of setup.now clients }
{
    clients + setup.servers.slice().len() as u16 + 1
}

// The domain itself makes no call.
fn limit_of(clients: u16, worker: u16) -> u32
    ensures { result ≡ limit_of clients worker }
{
    match worker {
        0 => 1,
        client if client <= clients => CLIENT_CELLS,
        _ => SERVER_CELLS,
    }
}

fn limits(alloc: Global, clients: u16, workers: u16) -> Result<Vec<u32>, NoMemory>
    ensures count { IfOk result (λ limits. length limits.items ≡ workers) }
    ensures each { IfOk result (λ limits. EachNumbered (λ worker limit. limit ≡ limit_of clients worker) 0 limits.items) }
{
    let mut limits = Vec::with_capacity(alloc, usize::from(workers))?;
    for worker in 0..workers {
        limits.push_reserved(limit_of(clients, worker));
    }
    Ok(limits)
}

fn waits(alloc: Global, queues: usize, workers: u16) -> Result<Waits, NoMemory> {
    Ok(Waits {
        work: Signals::new(alloc, queues.saturating_add(1))?,
        room: EventCount::new(),
        replies: Signals::new(alloc, usize::from(workers))?,
        ready: EventCount::new(),
        up: AtomicU64::new(0),
    })
}

fn lives_of(alloc: Global, setup: &Setup) -> Result<Vec<Lives>, NoMemory>
    ensures { IfOk result (λ lives. lives.items ≡ map restarts_of setup.now.servers) }
{
    let servers = setup.servers.slice();
    let mut all = Vec::with_capacity(alloc, servers.len())?;
    for server in servers {
        all.push_reserved(Lives::new(alloc, server.restart, server.maxgen, server.grace)?);
    }
    Ok(all)
}

fn rooms(
    alloc: Global,
    workers: u16,
    queues: usize,
) -> Result<Vec<Vec<Option<QueuePass>>>, NoMemory>
    ensures count { IfOk result (λ rooms. length rooms.items ≡ workers) }
    ensures each { IfOk result (λ rooms. All (IsRoom queues) rooms.items) }
{
    let mut all = Vec::with_capacity(alloc, usize::from(workers))?;
    for _ in 0..workers {
        all.push_reserved(Vec::with_capacity(alloc, queues)?);
    }
    Ok(all)
}

impl Supplies {
    /// What a domain with so many clients takes.
    pub(crate) fn new(alloc: Global, setup: &Setup, clients: u16) -> Result<Supplies, NoMemory>
        requires configured { is_configured setup.now ≡ true }
        requires few { clients ≤ 64 }
        ensures { IfOk result (AreSupplies setup.now clients) }
    {
        let queues = setup.queues.slice().len();
        let workers = workers_of(setup, clients);
        Ok(Supplies {
            shapes: Shapes::of(alloc, setup)?,
            waits: waits(alloc, queues, workers)?,
            limits: limits(alloc, clients, workers)?,
            lives: lives_of(alloc, setup)?,
            clock: open_clock(alloc, workers)?,
            rooms: rooms(alloc, workers, queues)?,
        })
    }
}
