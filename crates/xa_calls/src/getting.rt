// A caller gets the answers of its descriptors, or gives one up.
ghost use Rattle.std.specs.Prelude.{◌≡◌, ◌+◌, Ok, OnOk, IfOk, IfErr};
ghost use Rattle.xa_desk.specs.xa_types.declared.call.Op.TheVariants.{Cancel};
ghost use Rattle.xa_desk.specs.Desks.{IsDomain};
ghost use Rattle.xa_desk.specs.xa_caller.Caller.{MayCall};
ghost use Rattle.xa_calls.specs.Going.{IsReady, IsStopped, PerformsBy, GotAs, get_by};
ghost use Rattle.xa_calls.specs.Telling.{GotNotes, Gives, NotesOne, StoppedIn, IsTold};

use crate::calling::told_by;
use crate::telling::{Told, given_at};
use std::sync::Wait;
use xa_desk::types::{CallFlags, Kind};
use xa_desk::{Desk, Monitor, Stopped};

/// What a tpgetrply asks for: the answer of one descriptor, or of any, and how.
#[derive(Clone, Copy)]
pub(crate) struct Wanted<'a> {
    pub(crate) descriptor: Option<u64>,
    pub(crate) flags: CallFlags,
    pub(crate) expect: &'a Option<Kind>,
}

// Whether the call is over.
fn is_over<W, G>(
    monitor: &Monitor<'_, W, G>,
    desk: &mut Desk,
    op: u32,
    wanted: Wanted<'_>,
) -> Result<bool, Stopped>
    requires domain { IsDomain monitor.now.domain.now }
    requires ready { IsReady monitor.now.domain.now desk.old.caller.op desk.old }
    requires active { MayCall desk.old.caller }
    requires turn { op ≡ desk.old.caller.op + 1 }
    ensures goes { PerformsBy monitor.now.domain.now op (get_by wanted.entry.descriptor wanted.entry.flags wanted.entry.expect.now) desk.old desk.new }
    ensures active { MayCall desk.new.caller }
    ensures got { GotAs monitor.now.domain.now desk.old.caller.op op result desk.new }
    ensures notes { GotNotes op result desk.old desk.new }
{
    let _itself = desk.caller.id();
    let Wanted {
        descriptor,
        flags,
        expect,
    } = wanted;
    match descriptor {
        Some(descriptor) => {
            let step = desk.get(monitor.alloc, monitor.domain, op, descriptor, flags, expect);
            told_by(step)
        }
        None => told_by(desk.get_any(monitor.alloc, monitor.domain, op, flags, expect)),
    }
}

// A tpgetrply: it waits for an answer, unless it has TPNOBLOCK.
pub(crate) fn get<W: Wait, G>(
    monitor: &Monitor<'_, W, G>,
    desk: &mut Desk,
    op: u32,
    wanted: Wanted<'_>,
) -> Result<Told, Stopped>
    requires domain { IsDomain monitor.now.domain.now }
    requires ready { IsReady monitor.now.domain.now desk.old.caller.op desk.old }
    requires active { MayCall desk.old.caller }
    requires turn { op ≡ desk.old.caller.op + 1 }
    ensures goes { PerformsBy monitor.now.domain.now op (get_by wanted.entry.descriptor wanted.entry.flags wanted.entry.expect.now) desk.old desk.new }
    ensures active { MayCall desk.new.caller }
    ensures made { OnOk result (IsReady monitor.now.domain.now op desk.new) }
    ensures stopped { IfErr result (IsStopped desk.new) }
    ensures told { IfOk result (λ told. IsTold told op desk.old desk.new) }
    ensures within { IfErr result (λ stopped. StoppedIn op stopped desk.old desk.new) }
{
    let caller = desk.caller.id();
    for _ in monitor.rt.forever() {
        let seen = monitor.domain.waits.replies.count(caller.0);
        if is_over(monitor, desk, op, wanted)? {
            return Ok(given_at(desk));
        }
        if monitor.domain.halt.get().is_some() {
            return Err(Stopped::Elsewhere);
        }
        monitor
            .domain
            .waits
            .replies
            .wait(monitor.rt, caller.0, seen);
    }
    unreachable!()
}

// A tpcancel.
pub(crate) fn cancel<W, G>(
    monitor: &Monitor<'_, W, G>,
    desk: &mut Desk,
    op: u32,
    descriptor: u64,
) -> Result<Told, Stopped>
    requires domain { IsDomain monitor.now.domain.now }
    requires ready { IsReady monitor.now.domain.now desk.old.caller.op desk.old }
    requires active { MayCall desk.old.caller }
    requires turn { op ≡ desk.old.caller.op + 1 }
    ensures goes { PerformsBy monitor.now.domain.now op (Cancel descriptor) desk.old desk.new }
    ensures active { MayCall desk.new.caller }
    ensures made { OnOk result (IsReady monitor.now.domain.now op desk.new) }
    ensures stopped { IfErr result (IsStopped desk.new) }
    ensures told { IfOk result (λ told. IsTold told op desk.old desk.new) }
    ensures within { IfErr result (λ stopped. StoppedIn op stopped desk.old desk.new) }
{
    let _itself = desk.caller.id();
    desk.cancel(monitor.domain, op, descriptor)?;
    Ok(given_at(desk))
}
