// The caller.
ghost use Rattle.std.specs.Prelude.{◌≡◌, ℕ, ◌+◌, ◌≤◌, ◌<◌, ◌^◌, true, false, length, max, [], None, Some, IfOk, IfErr, IfSome, OnOk, OnErr};
ghost use Rattle.std.specs.List.{find, filter};
ghost use Rattle.xa_types.specs.Configured.{is_configured};
ghost use Rattle.xa_events.specs.Calls.{is_invalid_call};
ghost use Rattle.xa_events.specs.Cases.{ShowsItself, IsOwnEvidence};
ghost use Rattle.xa_events.specs.Board.{boot};
ghost use Rattle.xa_events.specs.Caller.{version_in, descriptor_limit, is_client, is_serving};
ghost use Rattle.xa_events.specs.Homes.Home.{CallerHome};
ghost use Rattle.xa_events.specs.Said.{is_op};
ghost use Rattle.xa_events.specs.Words.{count};
ghost use Rattle.xa_cell.specs.Known.{known, IsSeatOf, SameSeat, IsNew};
ghost use Rattle.xa_cell.specs.Known.{IsTicketOf};
ghost use Rattle.xa_cell.specs.Changes.{withdrawn};
ghost use Rattle.xa_cell.specs.Places.{IsShut};
ghost use Rattle.xa_events.specs.declared.event.Event.TheVariants.{Accept};
ghost use Rattle.xa_cell.specs.Calls.{Began, AllTaken};
ghost use Rattle.xa_cell.specs.Places.{Stand, Opens};
ghost use Rattle.xa_held.specs.Kept.{IsRight};
ghost use Rattle.xa_caller.specs.Drafts.{accepted_by, entry_by};
ghost use Rattle.xa_caller.specs.Changes.{stop};
ghost use Rattle.xa_caller.specs.Phases.{IsPrepared, IsPreparedAt, IsSent, least_by};
ghost use Rattle.xa_caller.specs.declared.phase.Phase.TheVariants as phases;
ghost use Rattle.xa_worker.specs.Work.{HaltsAt, seeing, theirs};
ghost use Rattle.xa_stamp.specs.Home.{last_stamp, Rises};
ghost use Rattle.xa_worker.specs.Crew.{no_stamp, stands_at};
ghost use Rattle.xa_caller.specs.Changes.{FillsNoMore, IsChangeBy, changed_by, ticked_by};

use crate::asking::stop;
use crate::cargo::{Cargo, Filling};
use crate::choosing::first_row;
use crate::descriptors::Descriptors;
use crate::leaving::{depart, drop_all, give_up};
use crate::outcomes::{Note, Prepared, Step, Stop};
use crate::phase::{Draft, Open, Phase};
use crate::telling::told;
use std::alloc::Global;
use std::marker::Model;
use std::mem;
use std::snapshot::Snapshot;
use xa_cell::{Cells, Look, Seat, Ticket};
use xa_events::{
    Accepted, Cancelled as CancelledRequest, Event, Evidence, Prioritized, Refused, Replied, Ticked,
};
use xa_held::Invocation;
use xa_queue::Entry;
use xa_route::priority;
use xa_stamp::Stamped;
use xa_types::{
    Ask, CallerId, Data, Fault, Found, Kind, Mode, NoMemory, RequestId, Row, Setup, Stamp,
};
use xa_worker::{Halt, Work};

// For how many events there is room at its own home before a request is sent.
const ROOM_TO_SEND: u32 = 3;

/// What a caller leaves behind.
pub struct Left {
    pub work: Work,
    pub seat: Seat<Filling>,
    pub halt: Option<Halt>,
}

/// A caller. It makes one call after another.
pub struct Caller {
    pub(crate) work: Work,
    pub(crate) seat: Seat<Filling>,
    pub(crate) op: u32,
    pub(crate) sent: u64,
    pub(crate) least: u64,
    // What it set for the priority of its next request: absolute, or to be added to the service's own.
    pub(crate) priority: Option<(bool, i32)>,
    pub(crate) out: Descriptors,
    pub(crate) phase: Phase,
}

impl Model for Caller {
    ghost use Rattle.xa_caller.specs.Caller.{CallerState};

    ghost Value = { CallerState };

    ghost use Rattle.xa_caller.specs.Kept.{standing_of, IsKept};

    ghost view = { standing_of };

    ghost invariant = { IsKept };
}

// The version of the board that was looked up.
fn version_in(evidence: &Evidence) -> Option<u64>
    ensures { result ≡ version_in evidence.now }
{
    match evidence {
        Evidence::Version(version) | Evidence::AllDown(version) => Some(*version),
        _ => None,
    }
}

// The least version that is read behind that refusal.
fn least_by(evidence: &Evidence, least: u64) -> u64
    ensures { result ≡ least_by (version_in evidence.now) least }
{
    match version_in(evidence) {
        Some(version) => version,
        None => least,
    }
}

// The data for the event, and for the server.
#[derive(Drop)]
struct Copies {
    sent: Data,
    kept: Data,
}

fn two_copies(alloc: Global, payload: &Data) -> Result<Copies, NoMemory>
    ensures { IfOk result (λ copies. (copies.sent ≡ payload.now) × (copies.kept ≡ payload.now)) }
{
    let sent = payload.copy(alloc)?;
    let kept = payload.copy(alloc)?;
    Ok(Copies { sent, kept })
}

pub(crate) fn accepted_by(
    op: u32,
    request: RequestId,
    version: u64,
    row: &Row,
    asked: Option<(bool, i32)>,
    payload: Data,
) -> Accepted
    ensures { result ≡ accepted_by op request version row.now asked payload }
{
    Accepted {
        by: request.caller,
        op,
        request,
        version,
        service: row.service,
        queue: row.queue,
        routine: row.routine,
        priority: priority(row.priority, asked),
        mode: Mode::Reply,
        payload,
    }
}

pub(crate) fn entry_by(
    request: RequestId,
    row: &Row,
    asked: Option<(bool, i32)>,
    payload: Data,
    ticket: Ticket<Filling>,
) -> Entry<Cargo>
    ensures { result ≡ entry_by request row.now asked payload ticket }
{
    Entry {
        request,
        priority: priority(row.priority, asked),
        cargo: Cargo {
            ticket,
            invocation: Invocation {
                service: row.service,
                routine: row.routine,
                hop: 0,
                payload,
            },
        },
    }
}

// A request with a cell.
struct Drafted {
    draft: Draft,
    entry: Entry<Cargo>,
    event: Event,
}

// A cell for the request, and what is put on the queue of that row; or how many cells the caller has, which are in use.
fn draft_by(
    cells: &Cells<Filling>,
    seat: &mut Seat<Filling>,
    op: u32,
    request: RequestId,
    version: u64,
    row: &Row,
    asked: Option<(bool, i32)>,
    copies: Copies,
) -> Result<Drafted, u32>
    requires { IsSeatOf cells.now seat.old }
    ensures cells { SameSeat cells.now seat.old seat.new }
    ensures draft { IfOk result (λ made. made.draft ≡ record { asked = record { request = request; place = made.draft.asked.place }; op = op; version = version; event = made.draft.event }) }
    ensures event { IfOk result (λ made. (made.draft.event.value ≡ made.event) × (made.event ≡ Accept (accepted_by op request version row.now asked copies.sent))) }
    ensures entry { IfOk result (λ made. made.entry ≡ entry_by request row.now asked copies.kept made.entry.cargo.ticket) }
    ensures began { IfOk result (λ made. Began cells.now request seat.old seat.new made.draft.asked.place made.entry.cargo.ticket) }
    ensures opens { IfOk result (λ made. Opens made.draft.asked.place.cell request (known seat.old) (known seat.new)) }
    ensures full { IfErr result (λ count. (count ≡ seat.old.count) × AllTaken seat.old seat.new × Stand (known seat.old) (known seat.new)) }
{
    let Copies { sent, kept } = copies;
    match cells.begin(seat, request) {
        Err(full) => Err(full.0),
        Ok((place, ticket)) => {
            let event = Event::Accept(accepted_by(op, request, version, row, asked, sent));
            let draft = Draft {
                asked: Open { request, place },
                op,
                version,
                event: Snapshot::of(&event),
            };
            Ok(Drafted {
                draft,
                entry: entry_by(request, row, asked, kept, ticket),
                event,
            })
        }
    }
}

pub(crate) fn take_out(phase: &mut Phase) -> Phase
    ensures { (result ≡ phase.old) × (phase.new ≡ phases.Idle) }
{
    mem::replace(phase, Phase::Idle)
}

fn end(phase: Phase)
    requires { phase ≡ phases.Idle }
{
    match phase {
        Phase::Idle => {}
        _ => unreachable!(),
    }
}

pub(crate) fn set(phase: &mut Phase, next: Phase)
    requires { phase.old ≡ phases.Idle }
    ensures { phase.new ≡ next }
{
    end(mem::replace(phase, next));
}

pub(crate) fn draft_in(phase: Phase) -> Draft
    requires { IsPrepared phase }
    ensures { phase ≡ phases.Prepared result }
{
    match phase {
        Phase::Prepared(draft) => draft,
        _ => unreachable!(),
    }
}

fn sent_in(phase: Phase) -> Open
    requires { IsSent phase }
    ensures { phase ≡ phases.Sent result }
{
    match phase {
        Phase::Sent(open) => open,
        _ => unreachable!(),
    }
}

impl Caller {
    ghost use Rattle.xa_caller.specs.Caller.{IsSound, MayCall, AreRowsOf};
    ghost use Rattle.xa_caller.specs.Changes.{Refuses, SetsPriority, Prepares, StopsAs, TurnsDown, Sends, SendsApart, StepsAs, CancelsAt, CancelsAs, LeavesAs};

    /// A caller that has noted nothing. It reads no version of the board before `least`, which the boot had made.
    pub fn new(alloc: Global, work: Work, seat: Seat<Filling>, least: u64) -> Caller
        requires work { work.own ≡ [] }
        requires seat { IsNew seat.first seat.count (known seat) }
        requires least { boot work.setup ≤ least }
        requires cells { seat.count ≡ descriptor_limit work.clients work.id.0 }
        ensures { result ≡ record { work = work; seat = seat; op = 0; sent = 0; least = least; priority = None; out = []; phase = phases.Idle } }
    {
        Caller {
            work,
            seat,
            op: 0,
            sent: 0,
            least,
            priority: None,
            out: Descriptors::new(alloc),
            phase: Phase::Idle,
        }
    }

    /// Its number.
    pub fn id(&self) -> CallerId
        ensures value { result ≡ self.now.work.id }
        ensures sound { IsSound self.now }
    {
        self.work.id()
    }

    /// The number of its last call, or 0 where it made none. No event of it has a greater one.
    pub fn op(&self) -> u32
        ensures value { result ≡ self.now.op }
        ensures new { (n : ℕ) → self.now.op < n → count (is_op self.now.work.id.0 n) (theirs self.now.work) ≡ 0 }
    {
        let _itself = self.work.stamp();
        self.op
    }

    /// The number of its last request that was accepted, which is its descriptor, or 0 where none was.
    pub fn last_request(&self) -> u64
        ensures value { result ≡ self.now.sent }
    {
        let _itself = self.work.stamp();
        self.sent
    }

    /// The greatest stamp that it noted or saw.
    pub fn stamp(&self) -> Stamp
        ensures value { result ≡ self.now.work.stamp }
        ensures bound { result.0 ≤ 2 ^ 63 }
    {
        self.work.stamp()
    }

    /// The stamp of the last event that it noted, at whichever home, or 0 where it noted none.
    pub fn latest(&self) -> Stamp
        ensures value { result.0 ≡ last_stamp no_stamp self.now.work.own }
        ensures bound { result.0 ≤ 2 ^ 63 }
        ensures rises { Rises no_stamp self.now.work.own }
    {
        let _bound = self.work.stamp();
        self.work.latest()
    }

    /// What it noted at its own home, in order.
    pub fn entries(&self) -> &[Stamped]
        ensures { result.now ≡ filter (stands_at self.now.work.setup self.now.work.clients (CallerHome self.now.work.id.0)) self.now.work.own }
    {
        self.work.entries()
    }

    /// It saw this stamp at another home.
    pub fn saw(&mut self, stamp: Stamp)
        requires { stamp.0 ≤ 2 ^ 63 }
        ensures { self.new ≡ record self.old { work = seeing stamp self.old.work } }
    {
        self.work.saw(stamp);
    }

    /// Makes room for so many events at its own home, beside those of the requests that are out, where there isn't already.
    /// Where it fails nothing changes.
    pub fn reserve(&mut self, more: u32) -> Result<(), NoMemory>
        requires { more ≤ 1000 }
        ensures ok { OnOk result (self.new ≡ record self.old { work = record self.old.work { room = max self.old.work.room (length self.old.out + more) } }) }
        ensures kept { OnErr result (self.new ≡ self.old) }
    {
        let out = self.count();
        self.work.reserve(out + more)
    }

    // How many requests are out.
    fn count(&self) -> u32
        ensures value { result ≡ length self.now.out }
        ensures least { result ≤ 50 }
    {
        self.out.len() as u32
    }

    /// Its call is refused, by what shows that it is right.
    pub fn refuse(&mut self, op: u32, fault: Fault, evidence: Evidence) -> Result<Stamp, Halt>
        requires active { MayCall self.old }
        requires idle { self.old.phase ≡ phases.Idle }
        requires shows { ShowsItself self.old.work.setup self.old.work.clients self.old.work.id.0 fault evidence (theirs self.old.work) }
        requires own { IsOwnEvidence self.old.work.clients self.old.work.id evidence (theirs self.old.work) }
        requires turn { op ≡ self.old.op + 1 }
        requires recent { IfSome (version_in evidence) (λ version. self.old.least ≤ version) }
        ensures ok { IfOk result (λ stamp. Refuses op fault evidence stamp self.new self.old) }
        ensures halted { IfErr result (HaltsAt self.old.work.stamp) }
        ensures kept { OnErr result (self.new ≡ self.old) }
    {
        let by = self.work.id();
        let refused = Refused {
            by,
            op,
            fault,
            evidence,
        };
        let least = least_by(&evidence, self.least);
        let stamp = self.work.note_anew(Event::Refuse(refused))?;
        self.op = op;
        self.least = least;
        Ok(stamp)
    }

    /// It sets the priority of its next request, and of no other: absolute, or to be added to the service's own.
    pub fn set_priority(&mut self, op: u32, absolute: bool, amount: i32) -> Result<Stamp, Halt>
        requires active { MayCall self.old }
        requires idle { self.old.phase ≡ phases.Idle }
        requires turn { op ≡ self.old.op + 1 }
        ensures ok { IfOk result (λ stamp. SetsPriority op absolute amount stamp self.new self.old) }
        ensures halted { IfErr result (HaltsAt self.old.work.stamp) }
        ensures kept { OnErr result (self.new ≡ self.old) }
    {
        let prioritized = Prioritized {
            by: self.work.id(),
            op,
            absolute,
            amount,
        };
        let stamp = self.work.note_anew(Event::Priority(prioritized))?;
        self.op = op;
        self.priority = Some((absolute, amount));
        Ok(stamp)
    }

    /// Makes a request for its next call, by the first of the rows that were found whose service accepts the kind of the
    /// data, with a cell for its reply. There is room for the answer then, and for the end of a server's life.
    pub fn prepare(
        &mut self,
        alloc: Global,
        setup: &Setup,
        cells: &Cells<Filling>,
        op: u32,
        ask: &Ask,
        found: &Found,
    ) -> Result<Prepared, Stop>
        requires setup { (setup.now ≡ self.old.work.setup) × (is_configured setup.now ≡ true) }
        requires cells { IsSeatOf cells.now self.old.seat }
        requires active { MayCall self.old }
        requires idle { self.old.phase ≡ phases.Idle }
        requires turn { op ≡ self.old.op + 1 }
        requires valid { is_invalid_call setup.now ask.now ≡ false }
        requires rows { AreRowsOf setup.now ask.now.service found.now.rows }
        requires recent { self.old.least ≤ found.now.version }
        ensures ok { IfOk result (λ prepared. Prepares setup.now cells.now op ask.now.payload found.now prepared self.new self.old) }
        ensures right { IfOk result (λ prepared. IsRight cells.now prepared.entry) }
        ensures stopped { IfErr result (λ stop. StopsAs setup.now op ask.now.payload found.now stop self.new self.old) }
        ensures cells { SameSeat cells.now self.old.seat self.new.seat }
    {
        let Some(row) = first_row(setup, found, &ask.payload) else {
            return Err(self.turn_down(op, found));
        };
        let Ok(copies) = two_copies(alloc, &ask.payload) else {
            return Err(Stop::Halt(Halt::NoMemory));
        };
        let out = self.count();
        if self.out.reserve().is_err() {
            return Err(Stop::Halt(Halt::NoMemory));
        }
        if self.work.reserve(out + ROOM_TO_SEND).is_err() {
            return Err(Stop::Halt(Halt::NoMemory));
        }
        let request = self.next_request();
        match draft_by(
            cells,
            &mut self.seat,
            op,
            request,
            found.version,
            &row,
            self.priority,
            copies,
        ) {
            Err(full) => Err(stop(self.refuse(op, Fault::Limit, Evidence::Cells(full)))),
            Ok(drafted) => {
                let Drafted {
                    draft,
                    entry,
                    event,
                } = drafted;
                set(&mut self.phase, Phase::Prepared(draft));
                Ok(Prepared {
                    entry,
                    event,
                    note: Note { op },
                })
            }
        }
    }

    // Its call is refused, since no row of those that were found serves it.
    fn turn_down(&mut self, op: u32, found: &Found) -> Stop
        requires active { MayCall self.old }
        requires idle { self.old.phase ≡ phases.Idle }
        requires turn { op ≡ self.old.op + 1 }
        requires recent { self.old.least ≤ found.now.version }
        ensures { TurnsDown op found.now result self.new self.old }
    {
        let _itself = self.id();
        let evidence = Evidence::Version(found.version);
        if found.rows.is_empty() {
            return stop(self.refuse(op, Fault::NoEnt, evidence));
        }
        stop(self.refuse(op, Fault::IType, evidence))
    }

    // Its next request.
    fn next_request(&self) -> RequestId
        ensures { result ≡ record { caller = self.now.work.id; number = self.now.sent + 1 } }
    {
        let _stamp = self.work.stamp();
        RequestId {
            caller: self.work.id(),
            number: self.sent + 1,
        }
    }

    /// A queue accepted the request that was prepared, with that stamp.
    pub fn sent(&mut self, note: Note, stamp: Stamp)
        requires active { MayCall self.old }
        requires prepared { IsPrepared self.old.phase }
        requires later { self.old.work.stamp.0 < stamp.0 }
        requires bound { stamp.0 ≤ 2 ^ 63 }
        ensures { Sends stamp self.new self.old }
    {
        let Note { op: _ } = note;
        let Draft {
            asked,
            op,
            version,
            event,
        } = draft_in(take_out(&mut self.phase));
        self.work.noted(stamp, event);
        self.op = op;
        self.sent += 1;
        self.least = version;
        self.priority = None;
        set(&mut self.phase, Phase::Sent(asked));
    }

    /// Its call changed a row of its server's queue, by that event, which was noted with that stamp and made that version.
    pub fn changed(&mut self, op: u32, version: u64, stamp: Stamp, event: Snapshot<Event>)
        requires active { is_serving self.old.work.clients self.old.work.id.0 (theirs self.old.work) ≡ true }
        requires idle { self.old.phase ≡ phases.Idle }
        requires turn { op ≡ self.old.op + 1 }
        requires recent { self.old.least ≤ version }
        requires change { IsChangeBy self.old op version event.value }
        requires later { self.old.work.stamp.0 < stamp.0 }
        requires bound { stamp.0 ≤ 2 ^ 63 }
        ensures { self.new ≡ changed_by stamp op version event.value self.old }
    {
        self.work.noted(stamp, event);
        self.op = op;
        self.least = version;
    }

    /// Its call moved the clock on to that tick, which was noted with that stamp.
    pub fn ticked(&mut self, op: u32, now: u64, stamp: Stamp)
        requires client { is_client self.old.work.clients self.old.work.id.0 ≡ true }
        requires idle { self.old.phase ≡ phases.Idle }
        requires turn { op ≡ self.old.op + 1 }
        requires later { self.old.work.stamp.0 < stamp.0 }
        requires bound { stamp.0 ≤ 2 ^ 63 }
        ensures { self.new ≡ ticked_by stamp op now self.old }
    {
        let by = self.work.id();
        let event = Event::Tick(Ticked { by, op, now });
        self.work.noted(stamp, Snapshot::of(&event));
        self.op = op;
    }

    /// A queue accepted the request of a client's tpacall that was prepared, with that stamp. It is out then, and its number is
    /// the descriptor.
    pub fn sent_apart(&mut self, note: Note, stamp: Stamp) -> u64
        requires client { is_client self.old.work.clients self.old.work.id.0 ≡ true }
        requires active { MayCall self.old }
        requires prepared { IsPrepared self.old.phase }
        requires later { self.old.work.stamp.0 < stamp.0 }
        requires bound { stamp.0 ≤ 2 ^ 63 }
        ensures sends { SendsApart stamp self.new self.old }
        ensures descriptor { result ≡ self.new.sent }
    {
        let Note { op: _ } = note;
        let Draft {
            asked,
            op,
            version,
            event,
        } = draft_in(take_out(&mut self.phase));
        let descriptor = self.sent + 1;
        self.work.noted(stamp, event);
        self.op = op;
        self.sent = descriptor;
        self.least = version;
        self.priority = None;
        self.out.push(asked);
        descriptor
    }

    /// Gives up a descriptor, whose answer is dropped. TPEBADDESC comes exactly where it isn't open.
    pub fn cancel(
        &mut self,
        cells: &Cells<Filling>,
        op: u32,
        descriptor: u64,
    ) -> Result<Stamp, Halt>
        requires cells { IsSeatOf cells.now self.old.seat }
        requires active { MayCall self.old }
        requires idle { self.old.phase ≡ phases.Idle }
        requires turn { op ≡ self.old.op + 1 }
        ensures cancels { CancelsAs op descriptor result self.new self.old }
        ensures cells { SameSeat cells.now self.old.seat self.new.seat }
    {
        let Some(place) = self.out.find(descriptor) else {
            return self.refuse(op, Fault::BadDesc, Evidence::Descriptor(descriptor));
        };
        self.cancel_at(cells, op, place)
    }

    // Gives up the descriptor at that place.
    fn cancel_at(&mut self, cells: &Cells<Filling>, op: u32, place: usize) -> Result<Stamp, Halt>
        requires cells { IsSeatOf cells.now self.old.seat }
        requires active { MayCall self.old }
        requires idle { self.old.phase ≡ phases.Idle }
        requires turn { op ≡ self.old.op + 1 }
        requires place { place < length self.old.out }
        ensures ok { IfOk result (λ stamp. CancelsAt op place stamp self.new self.old) }
        ensures halted { IfErr result (HaltsAt self.old.work.stamp) }
        ensures kept { OnErr result (self.new ≡ self.old) }
        ensures cells { SameSeat cells.now self.old.seat self.new.seat }
    {
        let cancelled = CancelledRequest {
            by: self.work.id(),
            op,
            request: self.out.get(place).request,
        };
        let stamp = match self.work.note(Event::Cancel(cancelled)) {
            Ok(stamp) => stamp,
            Err(worn) => return Err(Halt::Worn(worn.0)),
        };
        let Open { request: _, place } = self.out.take(place);
        drop(cells.cancel(&mut self.seat, place));
        self.op = op;
        Ok(stamp)
    }

    /// Looks for the answer to its request, and is told it where it has come. Where the cell was filled without an answer, since
    /// the run halts, nothing is noted.
    pub fn call_reply(&mut self, cells: &Cells<Filling>, expect: &Option<Kind>) -> Step
        requires cells { IsSeatOf cells.now self.old.seat }
        requires active { MayCall self.old }
        requires sent { IsSent self.old.phase }
        ensures step { StepsAs expect.now result self.new self.old }
        ensures cells { SameSeat cells.now self.old.seat self.new.seat }
    {
        let open = sent_in(take_out(&mut self.phase));
        match cells.look(&mut self.seat, &open.place) {
            Look::Pending => {
                set(&mut self.phase, Phase::Sent(open));
                Step::Wait
            }
            Look::Come => {
                let Open { request, place } = open;
                let Filling { answer, stamp } = cells.take(&mut self.seat, place);
                let Some(answer) = answer else {
                    set(&mut self.phase, Phase::Lost(request));
                    return Step::Halted;
                };
                self.work.saw(stamp);
                let replied = Replied {
                    by: self.work.id(),
                    op: self.op,
                    request,
                    answer: told(expect, answer),
                };
                match self.work.note(Event::Answer(replied)) {
                    Ok(stamp) => Step::Told(stamp),
                    Err(worn) => {
                        set(&mut self.phase, Phase::Lost(request));
                        Step::Halt(Halt::Worn(worn.0))
                    }
                }
            }
        }
    }

    /// The run halts: the cells of all requests that are out are given up, and nothing is noted.
    pub fn abandon(self, cells: &Cells<Filling>) -> Left
        requires cells { IsSeatOf cells.now self.seat }
        requires out { IsPrepared self.phase → ⊥ }
        ensures cells { SameSeat cells.now self.seat result.seat }
        ensures filled { FillsNoMore (known self.seat) (known result.seat) }
        ensures shut { IsShut result.seat }
        ensures work { (result.work ≡ self.work) × (result.halt ≡ None) }
        ensures sound { IsSound self }
    {
        let Caller {
            work,
            mut seat,
            op: _,
            sent: _,
            least: _,
            priority: _,
            mut out,
            phase,
        } = self;
        give_up(cells, &mut seat, &mut out, phase);
        out.end();
        Left {
            work,
            seat,
            halt: None,
        }
    }

    /// It has made its last call, and gives up what is out. A client notes that, with an event for each, and that it leaves; the
    /// caller of a server notes nothing. Where stamps come to their end before, the rest is given up without events.
    pub fn leave(self, cells: &Cells<Filling>) -> Left
        requires cells { IsSeatOf cells.now self.seat }
        requires idle { self.phase ≡ phases.Idle }
        ensures cells { SameSeat cells.now self.seat result.seat }
        ensures filled { FillsNoMore (known self.seat) (known result.seat) }
        ensures shut { IsShut result.seat }
        ensures work { LeavesAs self.out result.halt result.work self.work }
        ensures sound { IsSound self }
    {
        let Caller {
            mut work,
            mut seat,
            op: _,
            sent: _,
            least: _,
            priority: _,
            mut out,
            phase,
        } = self;
        end(phase);
        let halt = depart(cells, &mut work, &mut seat, &mut out);
        drop_all(cells, &mut seat, &mut out);
        out.end();
        Left { work, seat, halt }
    }
}
