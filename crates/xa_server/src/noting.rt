// An event at the own home of the server's caller, with the room that it needs.
ghost use Rattle.std.specs.Prelude.{◌≡◌, ◌<◌, ◌≤◌, [], None, IfOk, IfErr, OnOk, OnErr};
ghost use Rattle.xa_caller.specs.xa_events.Caller.{open_descriptors};
ghost use Rattle.xa_caller.specs.xa_worker.Work.{IsNext, theirs};
ghost use Rattle.xa_caller.specs.declared.phase.Phase.TheVariants as phases;
ghost use Rattle.xa_caller.specs.Serving.{IsOfServer, version_ended, raised};
ghost use Rattle.xa_server.specs.Noting.{Notes, IsWorn, HaltsWith, with_room};

use xa_caller::Caller;
use xa_caller::events::Event;
use xa_caller::types::{NoMemory, Stamp, Worn};
use xa_caller::work::Halt;

// Notes the event, which names no version of the board, in room that was made before. Nothing is out then.
pub(crate) fn note_in_room(caller: &mut Caller, event: Event) -> Result<Stamp, Worn>
    requires room { 0 < caller.old.work.room }
    requires idle { caller.old.phase ≡ phases.Idle }
    requires none { open_descriptors caller.old.work.id.0 (theirs caller.old.work) ≡ [] }
    requires kind { IsOfServer event × (version_ended event ≡ None) }
    requires next { IsNext caller.old.work event }
    ensures noted { IfOk result (λ stamp. Notes stamp event caller.new.work caller.old.work) }
    ensures rest { caller.new ≡ record caller.old { work = caller.new.work } }
    ensures worn { IfErr result (λ worn. IsWorn worn caller.old.work) }
    ensures kept { OnErr result (caller.new ≡ caller.old) }
{
    let _itself = caller.id();
    caller.note(event)
}

// Makes room for so many events. Nothing is out then, so it is for them alone.
fn make_room(caller: &mut Caller, room: u32) -> Result<(), NoMemory>
    requires room { room ≤ 1000 }
    requires idle { caller.old.phase ≡ phases.Idle }
    requires none { open_descriptors caller.old.work.id.0 (theirs caller.old.work) ≡ [] }
    ensures ok { OnOk result (caller.new ≡ record caller.old { work = with_room room caller.old.work }) }
    ensures kept { OnErr result (caller.new ≡ caller.old) }
    ensures none { caller.old.out ≡ [] }
{
    let _itself = caller.id();
    caller.reserve(room)
}

// Notes the event, once there is room for so many: for it and what may follow. The caller reads no version then before the
// one that the event names.
pub(crate) fn note_anew(caller: &mut Caller, room: u32, event: Event) -> Result<Stamp, Halt>
    requires room { (0 < room) × (room ≤ 1000) }
    requires idle { caller.old.phase ≡ phases.Idle }
    requires none { open_descriptors caller.old.work.id.0 (theirs caller.old.work) ≡ [] }
    requires kind { IsOfServer event }
    requires next { IsNext caller.old.work event }
    ensures noted { IfOk result (λ stamp. Notes stamp event caller.new.work (with_room room caller.old.work)) }
    ensures rest { OnOk result (caller.new ≡ record caller.old { work = caller.new.work; least = raised (version_ended event) caller.old.least }) }
    ensures halted { IfErr result (HaltsWith room caller.new.work caller.old.work) }
    ensures kept { OnErr result (caller.new ≡ record caller.old { work = caller.new.work }) }
{
    if make_room(caller, room).is_err() {
        drop(event);
        return Err(Halt::NoMemory);
    }
    match caller.note(event) {
        Ok(stamp) => Ok(stamp),
        Err(worn) => Err(Halt::Worn(worn.0)),
    }
}
