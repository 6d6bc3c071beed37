// A server that is given up.
ghost use Rattle.std.specs.Prelude.{◌≡◌, ◌<◌, ◌+◌, false, length, None, OnOk, IfErr};
ghost use Rattle.xa_desk.specs.xa_server.Changes.{MayBeGivenUp};
ghost use Rattle.xa_desk.specs.Desks.{IsDomain, IsDesk};
ghost use Rattle.xa_desk.specs.Found.{SawAtQueue};
ghost use Rattle.xa_desk.specs.Serving.{IsServing, IsFallen, IsSwept};
ghost use Rattle.xa_desk.specs.Halting.{IsStopAt};
ghost use Rattle.xa_server_worker.specs.Behind.{TellsLast};
ghost use Rattle.xa_server_worker.specs.Steps.{Steps, Retires, RetiresAs, OfDomainAt};

use crate::telling::tell;
use std::sync::Wait;
use xa_desk::link::Gate;
use xa_desk::server::ServerSlot;
use xa_desk::types::QueueId;
use xa_desk::{Desk, Monitor, Stopped};

// Gives up each request that waits at the queue, which is down.
fn sweep<W: Wait, G: Gate>(
    monitor: &Monitor<'_, W, G>,
    desk: &mut Desk,
    slot: &ServerSlot,
    queue: QueueId,
) -> Result<(), Stopped>
    requires domain { IsDomain monitor.now.domain.now }
    requires desk { IsDesk monitor.now.domain.now desk.old }
    requires server { 0 < desk.old.caller.work.id.0 }
    requires fallen { IsFallen monitor.now.domain.now queue.0 desk.old × (0 < queue.0) × (queue.0 < length monitor.now.domain.now.queues.items + 1) }
    ensures goes { OfDomainAt monitor.now.domain.now desk.old desk.new }
    ensures swept { OnOk result (SawAtQueue monitor.now.domain.now queue.0 desk.new (IsSwept monitor.now.domain.now queue.0)) }
    ensures stopped { IfErr result (IsStopAt desk.new) }
    ensures told { TellsLast desk.old → TellsLast desk.new }
{
    for _ in monitor.rt.forever() {
        match desk.sweep(monitor.rt, monitor.domain, slot, queue)? {
            Some(closing) => tell(monitor, desk, closing),
            None => return Ok(()),
        }
    }
    unreachable!()
}

/// The server is given up, at that tick; with the last one of its queue go the queue's rows, the queue, and what waits there.
pub(crate) fn retire<W: Wait, G: Gate>(
    monitor: &Monitor<'_, W, G>,
    desk: &mut Desk,
    slot: &mut ServerSlot,
    queue: QueueId,
    tick: u64,
) -> Result<(), Stopped>
    requires domain { IsDomain monitor.now.domain.now }
    requires desk { IsDesk monitor.now.domain.now desk.old }
    requires serving { IsServing monitor.now.domain.now queue.0 slot.old desk.old }
    requires may { MayBeGivenUp tick slot.old desk.old.caller.work }
    requires left { slot.old.gone ≡ false }
    ensures retires { Retires monitor.now.domain.now slot.old slot.new desk.old desk.new }
    ensures result { RetiresAs monitor.now.domain.now queue.0 result slot.old desk.new }
{
    let _itself = desk.caller.id();
    if !desk.leave_queue(monitor.rt, monitor.domain, slot, queue, tick)? {
        return Ok(());
    }
    desk.clear(monitor.rt, monitor.domain, queue)?;
    desk.take_down(monitor.rt, monitor.domain, queue)?;
    monitor.domain.wake_senders();
    sweep(monitor, desk, slot, queue)
}
