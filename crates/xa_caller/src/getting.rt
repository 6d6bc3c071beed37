// How a caller looks for the answers of requests that are out.
ghost use Rattle.std.specs.Prelude.{◌≡◌, ◌+◌, ◌<◌, length, map, IfOk, IfSome};
ghost use Rattle.std.specs.Prelude.{List, true, slice_get};
ghost use Rattle.xa_cell.specs.Known.{known, IsSeatOf, SameSeat};
ghost use Rattle.xa_cell.specs.Places.{OpenAre, Stand};
ghost use Rattle.xa_cell.specs.Views.{at};
ghost use Rattle.xa_caller.specs.declared.phase.Open.{Open as OpenOne};
ghost use Rattle.xa_caller.specs.declared.phase.Phase.TheVariants as phases;
ghost use Rattle.xa_caller.specs.Caller.{MayCall};
ghost use Rattle.xa_caller.specs.Phases.{request_of, place_of};
ghost use Rattle.xa_caller.specs.Getting.{LooksAs, AreAmong, FetchesAt, PendsAs, RepliesAs, AnyAs};

use crate::asking::step;
use crate::caller::{Caller, set};
use crate::cargo::Filling;
use crate::descriptors::Descriptors;
use crate::outcomes::Step;
use crate::phase::{Open, Phase};
use crate::telling::told;
use std::alloc::Global;
use xa_cell::{Cells, Look, Seat};
use xa_events::{Event, Evidence, Replied, Unready};
use xa_types::{Fault, Kind, RequestId, Sequence};
use xa_worker::Halt;

// The place of the first whose answer has come, by a look at each in order, or of none.
fn first_come(cells: &Cells<Filling>, seat: &mut Seat<Filling>, out: &Descriptors) -> Option<usize>
    requires cells { IsSeatOf cells.now seat.old }
    requires open_ { OpenAre (map place_of out.now.all) (known seat.old) }
    ensures cells { SameSeat cells.now seat.old seat.new }
    ensures stand { Stand (known seat.old) (known seat.new) }
    ensures looks { LooksAs out.now.all (known seat.old) (known seat.new) result }
{
    for place in 0..out.len() {
        match cells.look(seat, &out.get(place).place) {
            Look::Come => return Some(place),
            Look::Pending => {}
        }
    }
    None
}

impl Caller {
    /// Looks for the answer of a descriptor, and is told it where it has come. Where it hasn't, a call that doesn't wait is told
    /// so, and another has to wait. TPEBADDESC comes exactly where the descriptor isn't open. Where the cell was filled without an
    /// answer, since the run halts, nothing is noted.
    pub fn reply(
        &mut self,
        alloc: Global,
        cells: &Cells<Filling>,
        op: u32,
        descriptor: u64,
        expect: &Option<Kind>,
        no_block: bool,
    ) -> Step
        requires cells { IsSeatOf cells.now self.old.seat }
        requires active { MayCall self.old }
        requires idle { self.old.phase ≡ phases.Idle }
        requires turn { op ≡ self.old.op + 1 }
        ensures step { RepliesAs op descriptor expect.now no_block result self.new self.old }
        ensures cells { SameSeat cells.now self.old.seat self.new.seat }
    {
        let Some(place) = self.out.find(descriptor) else {
            return step(self.refuse(op, Fault::BadDesc, Evidence::Descriptor(descriptor)));
        };
        let request = self.out.get(place).request;
        match cells.look(&mut self.seat, &self.out.get(place).place) {
            Look::Come => self.fetch(cells, op, place, expect),
            Look::Pending => {
                if !no_block {
                    return Step::Wait;
                }
                match Vec::from_slice(alloc, &[request]) {
                    Ok(requests) => self.not_yet(op, requests),
                    Err(_) => Step::Halt(Halt::NoMemory),
                }
            }
        }
    }

    /// Looks for the answers of all descriptors that are open, in ascending order, and is told the first that has come. Where
    /// none has, a call that doesn't wait is told so, and another has to wait. TPEBADDESC comes exactly where no descriptor is
    /// open.
    pub fn any(
        &mut self,
        alloc: Global,
        cells: &Cells<Filling>,
        op: u32,
        expect: &Option<Kind>,
        no_block: bool,
    ) -> Step
        requires cells { IsSeatOf cells.now self.old.seat }
        requires active { MayCall self.old }
        requires idle { self.old.phase ≡ phases.Idle }
        requires turn { op ≡ self.old.op + 1 }
        ensures step { AnyAs op expect.now no_block result self.new self.old }
        ensures cells { SameSeat cells.now self.old.seat self.new.seat }
    {
        if self.out.len() == 0 {
            return step(self.refuse(op, Fault::BadDesc, Evidence::Descriptor(0)));
        }
        match first_come(cells, &mut self.seat, &self.out) {
            Some(place) => self.fetch(cells, op, place, expect),
            None => {
                if !no_block {
                    return Step::Wait;
                }
                match self.out.requests(alloc) {
                    Ok(requests) => self.not_yet(op, requests),
                    Err(_) => Step::Halt(Halt::NoMemory),
                }
            }
        }
    }

    // Takes the answer of the request at that place, which has come, and is told it.
    fn fetch(
        &mut self,
        cells: &Cells<Filling>,
        op: u32,
        place: usize,
        expect: &Option<Kind>,
    ) -> Step
        requires cells { IsSeatOf cells.now self.old.seat }
        requires active { MayCall self.old }
        requires idle { self.old.phase ≡ phases.Idle }
        requires turn { op ≡ self.old.op + 1 }
        requires place { place < length self.old.out }
        requires come { IfSome (slice_get self.old.out place) (λ o. 0 < (at o.place.cell (known self.old.seat)).settled) }
        ensures step { FetchesAt op expect.now place result self.new self.old }
        ensures cells { SameSeat cells.now self.old.seat self.new.seat }
    {
        let Open { request, place } = self.out.take(place);
        let Filling { answer, stamp } = cells.take(&mut self.seat, place);
        let Some(answer) = answer else {
            set(&mut self.phase, Phase::Lost(request));
            return Step::Halted;
        };
        self.work.saw(stamp);
        let replied = Replied {
            by: self.work.id(),
            op,
            request,
            answer: told(expect, answer),
        };
        match self.work.note(Event::Answer(replied)) {
            Ok(stamp) => {
                self.op = op;
                Step::Told(stamp)
            }
            Err(worn) => {
                set(&mut self.phase, Phase::Lost(request));
                Step::Halt(Halt::Worn(worn.0))
            }
        }
    }

    // It is told that no answer has come to these requests, which are out.
    fn not_yet(&mut self, op: u32, requests: Vec<RequestId>) -> Step
        requires active { MayCall self.old }
        requires idle { self.old.phase ≡ phases.Idle }
        requires turn { op ≡ self.old.op + 1 }
        requires looks { (looks : List OpenOne) × (requests.items ≡ map request_of looks) × (0 < length looks) × AreAmong looks self.old.out }
        ensures step { PendsAs op true requests.items result self.new self.old }
        ensures seat { self.new.seat ≡ self.old.seat }
    {
        let unready = Unready {
            by: self.work.id(),
            op,
            requests: Sequence::from_vec(requests),
        };
        match self.work.note_anew(Event::NotYet(unready)) {
            Ok(stamp) => {
                self.op = op;
                Step::Told(stamp)
            }
            Err(halt) => Step::Halt(halt),
        }
    }
}
