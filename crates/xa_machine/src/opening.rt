// The tables before any event.
ghost use Rattle.std.specs.Prelude.{◌≡◌, ◌+◌, ◌++◌, length, map, true, IfOk, OnOk};
ghost use Rattle.xa_types.specs.Configured.{is_configured};
ghost use Rattle.xa_types.specs.Rows.{configured, changes_of};
ghost use Rattle.xa_machine.specs.Tables.{AllShow, ServerShows, no_server, QueueShows, no_queue, CallerShows, no_caller};
ghost use Rattle.xa_machine.specs.Shown.{change_of};

use crate::caller::CallerRow;
use crate::queued::QueueRow;
use crate::served::ServerRow;
use crate::tables::BoardChange;
use std::alloc::Global;
use xa_route::queue_named;
use xa_types::{NoMemory, ServiceSetup, Setup};

pub fn new_servers(alloc: Global, many: usize) -> Result<Vec<ServerRow>, NoMemory>
    ensures len { IfOk result (λ rows. length rows.items ≡ many) }
    ensures each { IfOk result (λ rows. AllShow ServerShows no_server rows.items) }
{
    let mut rows = Vec::new(alloc);
    for _ in 0..many {
        rows.push(ServerRow::new(alloc))?;
    }
    Ok(rows)
}

pub fn new_queues(alloc: Global, many: usize) -> Result<Vec<QueueRow>, NoMemory>
    ensures len { IfOk result (λ rows. length rows.items ≡ many) }
    ensures each { IfOk result (λ rows. AllShow QueueShows no_queue rows.items) }
{
    let mut rows = Vec::new(alloc);
    for _ in 0..many {
        rows.push(QueueRow::new(alloc))?;
    }
    Ok(rows)
}

pub fn new_callers(alloc: Global, many: usize, boot: u64) -> Result<Vec<CallerRow>, NoMemory>
    ensures len { IfOk result (λ rows. length rows.items ≡ many) }
    ensures each { IfOk result (λ rows. AllShow (CallerShows boot) no_caller rows.items) }
{
    let mut rows = Vec::new(alloc);
    for _ in 0..many {
        rows.push(CallerRow::new(alloc, boot))?;
    }
    Ok(rows)
}

// Adds what the boot advertises of a service.
fn put_service(
    changes: &mut Vec<BoardChange>,
    setup: &Setup,
    service: &ServiceSetup,
) -> Result<(), NoMemory>
    requires { is_configured setup.now ≡ true }
    ensures { OnOk result (map change_of changes.new.items ≡ map change_of changes.old.items ++ changes_of setup.now service.now) }
{
    for name in service.queues.slice() {
        let queue = queue_named(setup, name);
        changes.push(BoardChange::Put(service.name, queue, service.routine))?;
    }
    Ok(())
}

/// What the boot advertises.
pub fn booting(alloc: Global, setup: &Setup) -> Result<Vec<BoardChange>, NoMemory>
    requires { is_configured setup.now ≡ true }
    ensures { IfOk result (λ changes. map change_of changes.items ≡ configured setup.now) }
{
    let mut changes = Vec::new(alloc);
    for service in setup.services.slice() {
        put_service(&mut changes, setup, service)?;
    }
    Ok(changes)
}
