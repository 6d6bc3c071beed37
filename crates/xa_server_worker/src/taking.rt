// A server's worker at its queue.
ghost use Rattle.std.specs.Prelude.{◌≡◌, false};
ghost use Rattle.xa_desk.specs.xa_server.Doings.{IsIdle};
ghost use Rattle.xa_desk.specs.Desks.{IsDomain, IsDesk};
ghost use Rattle.xa_desk.specs.Serving.{IsServing};
ghost use Rattle.xa_server_worker.specs.Steps.{TakesFrom, LooksFrom, NextFrom};

use std::sync::Wait;
use xa_desk::link::{Gate, Point, stay};
use xa_desk::server::ServerSlot;
use xa_desk::types::QueueId;
use xa_desk::{Desk, Monitor, Stopped, Took};

fn take<W: Wait, G: Gate>(
    monitor: &Monitor<'_, W, G>,
    desk: &mut Desk,
    slot: &mut ServerSlot,
    queue: QueueId,
) -> Result<Took, Stopped>
    requires domain { IsDomain monitor.now.domain.now }
    requires desk { IsDesk monitor.now.domain.now desk.old }
    requires serving { IsServing monitor.now.domain.now queue.0 slot.old desk.old }
    requires idle { IsIdle slot.old.doing }
    requires left { slot.old.gone ≡ false }
    ensures { TakesFrom monitor.now.domain.now queue.0 result slot.old slot.new desk.old desk.new }
{
    stay(monitor.gate, Point::BeforeTake(slot.server()));
    Ok(desk.take(monitor.rt, monitor.domain, slot, queue)?)
}

// Whether the server took a request, or its queue is closed and empty; none if it has to wait.
fn look<W: Wait, G: Gate>(
    monitor: &Monitor<'_, W, G>,
    desk: &mut Desk,
    slot: &mut ServerSlot,
    queue: QueueId,
) -> Result<Option<bool>, Stopped>
    requires domain { IsDomain monitor.now.domain.now }
    requires desk { IsDesk monitor.now.domain.now desk.old }
    requires serving { IsServing monitor.now.domain.now queue.0 slot.old desk.old }
    requires idle { IsIdle slot.old.doing }
    requires left { slot.old.gone ≡ false }
    ensures { LooksFrom monitor.now.domain.now queue.0 result slot.old slot.new desk.old desk.new }
{
    if monitor.domain.halt.get().is_some() {
        return Err(Stopped::Elsewhere);
    }
    match take(monitor, desk, slot, queue)? {
        Took::Request => {
            monitor.domain.wake_senders();
            Ok(Some(true))
        }
        Took::Closed => Ok(Some(false)),
        Took::Nothing => Ok(None),
    }
}

/// Waits until the server took a request, or its queue is closed and empty. Answers whether it took one.
pub(crate) fn next<W: Wait, G: Gate>(
    monitor: &Monitor<'_, W, G>,
    desk: &mut Desk,
    slot: &mut ServerSlot,
    queue: QueueId,
) -> Result<bool, Stopped>
    requires domain { IsDomain monitor.now.domain.now }
    requires desk { IsDesk monitor.now.domain.now desk.old }
    requires serving { IsServing monitor.now.domain.now queue.0 slot.old desk.old }
    requires idle { IsIdle slot.old.doing }
    requires left { slot.old.gone ≡ false }
    ensures { NextFrom monitor.now.domain.now queue.0 result slot.old slot.new desk.old desk.new }
{
    for _ in monitor.rt.forever() {
        let seen = monitor.domain.waits.work.count(queue.0);
        match look(monitor, desk, slot, queue) {
            Ok(Some(took)) => return Ok(took),
            Ok(None) => monitor.domain.waits.work.wait(monitor.rt, queue.0, seen),
            Err(stopped) => return Err(stopped),
        }
    }
    unreachable!()
}
