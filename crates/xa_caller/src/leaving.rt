// How what is out is given up.
ghost use Rattle.std.specs.Prelude.{◌≡◌, ◌++◌, ◌^◌, [], true, List, map, IfErr, OnOk};
ghost use Rattle.xa_events.specs.Caller.{is_client};
ghost use Rattle.xa_cell.specs.Known.{known, IsSeatOf, SameSeat};
ghost use Rattle.xa_cell.specs.Places.{OpenAre, IsOpen, IsShut, Shuts};
ghost use Rattle.xa_caller.specs.Changes.{FillsNoMore, GivesUp, LeavesAs};
ghost use Rattle.xa_caller.specs.Kept.{IsLeaving};
ghost use Rattle.xa_caller.specs.declared.phase.Open.{Open as OpenOne};
ghost use Rattle.xa_caller.specs.Phases.{IsPrepared, place_of, places_in};

use crate::cargo::Filling;
use crate::descriptors::Descriptors;
use crate::phase::{Open, Phase};
use xa_cell::{Cells, Place, Seat};
use xa_events::{Cancelled as CancelledRequest, Event};
use xa_types::Worn;
use xa_worker::{Halt, Work};

// A cell is given up, and what it was filled with is dropped.
fn drop_place(cells: &Cells<Filling>, seat: &mut Seat<Filling>, place: Place)
    requires cells { IsSeatOf cells.now seat.old }
    requires place { IsOpen seat.old place }
    ensures cells { SameSeat cells.now seat.old seat.new }
    ensures filled { FillsNoMore (known seat.old) (known seat.new) }
    ensures shut { Shuts place.cell (known seat.old) (known seat.new) }
{
    drop(cells.cancel(seat, place));
}

// The cells of all that are out are given up.
pub(crate) fn drop_all(cells: &Cells<Filling>, seat: &mut Seat<Filling>, out: &mut Descriptors)
    requires cells { IsSeatOf cells.now seat.old }
    requires open_ { OpenAre (map place_of out.old.all) (known seat.old) }
    ensures cells { SameSeat cells.now seat.old seat.new }
    ensures filled { FillsNoMore (known seat.old) (known seat.new) }
    ensures shut { IsShut seat.new }
    ensures none { out.new.all ≡ [] }
{
    while out.len() > 0 {
        let Open { request: _, place } = out.take(0);
        drop_place(cells, seat, place);
    }
}

// So is that of a tpcall that is under way.
pub(crate) fn give_up(
    cells: &Cells<Filling>,
    seat: &mut Seat<Filling>,
    out: &mut Descriptors,
    phase: Phase,
)
    requires cells { IsSeatOf cells.now seat.old }
    requires open_ { OpenAre (places_in out.old.all phase) (known seat.old) }
    requires out { IsPrepared phase → ⊥ }
    ensures cells { SameSeat cells.now seat.old seat.new }
    ensures filled { FillsNoMore (known seat.old) (known seat.new) }
    ensures shut { IsShut seat.new }
    ensures none { out.new.all ≡ [] }
{
    match phase {
        Phase::Sent(open) => {
            let Open { request: _, place } = open;
            drop_place(cells, seat, place);
        }
        Phase::Idle => {}
        Phase::Lost(_) => {}
        _ => unreachable!(),
    }
    drop_all(cells, seat, out);
}

// A client's descriptors are given up, with an event for each, in ascending order. Where stamps come to their end the rest stays.
fn give_up_all(
    cells: &Cells<Filling>,
    work: &mut Work,
    seat: &mut Seat<Filling>,
    out: &mut Descriptors,
) -> Result<(), Worn>
    requires cells { IsSeatOf cells.now seat.old }
    requires leaving { IsLeaving work.old seat.old out.old.all }
    ensures cells { SameSeat cells.now seat.old seat.new }
    ensures filled { FillsNoMore (known seat.old) (known seat.new) }
    ensures leaving { IsLeaving work.new seat.new out.new.all }
    ensures given { (given : List OpenOne) × (out.old.all ≡ given ++ out.new.all) × GivesUp given work.new work.old }
    ensures id { work.new.id ≡ work.old.id }
    ensures none { OnOk result (out.new.all ≡ []) }
    ensures worn { IfErr result (λ worn. (work.new.stamp.0 ≡ 2 ^ 63) × (worn.0.0 ≡ 2 ^ 63)) }
{
    while out.len() > 0 {
        let cancelled = CancelledRequest {
            by: work.id(),
            op: 0,
            request: out.get(0).request,
        };
        work.note(Event::Cancel(cancelled))?;
        let Open { request: _, place } = out.take(0);
        drop_place(cells, seat, place);
    }
    Ok(())
}

// A client gives up what is out, and leaves.
pub(crate) fn depart(
    cells: &Cells<Filling>,
    work: &mut Work,
    seat: &mut Seat<Filling>,
    out: &mut Descriptors,
) -> Option<Halt>
    requires cells { IsSeatOf cells.now seat.old }
    requires open_ { OpenAre (map place_of out.old.all) (known seat.old) }
    requires leaving { is_client work.old.clients work.old.id.0 ≡ true → IsLeaving work.old seat.old out.old.all }
    ensures cells { SameSeat cells.now seat.old seat.new }
    ensures filled { FillsNoMore (known seat.old) (known seat.new) }
    ensures open_ { OpenAre (map place_of out.new.all) (known seat.new) }
    ensures work { LeavesAs out.old.all result work.new work.old }
{
    if !work.is_client() {
        return None;
    }
    match give_up_all(cells, work, seat, out) {
        Err(worn) => Some(Halt::Worn(worn.0)),
        Ok(()) => {
            let id = work.id();
            match work.note_anew(Event::Leave(id)) {
                Err(halt) => Some(halt),
                Ok(_) => None,
            }
        }
    }
}
