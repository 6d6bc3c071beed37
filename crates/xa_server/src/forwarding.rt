// A server that forwards its request.
ghost use Rattle.std.specs.Prelude.{◌≡◌, ℕ, ◌≤◌, ◌<◌, ◌^◌, true, List, None, Some, IfOk, IfErr, OnErr};
ghost use Rattle.xa_caller.specs.xa_types.Configured.{is_configured};
ghost use Rattle.xa_caller.specs.xa_types.Kind.{is_sound};
ghost use Rattle.xa_caller.specs.xa_types.Name.{is_name};
ghost use Rattle.xa_caller.specs.declared.phase.Phase.TheVariants as phases;
ghost use Rattle.xa_caller.specs.xa_events.declared.event.Doing.TheVariants as doings;
ghost use Rattle.xa_caller.specs.xa_events.declared.event.Event.{Event as Happening};
ghost use Rattle.xa_caller.specs.xa_events.declared.event.Event.TheVariants.{Forward};
ghost use Rattle.xa_caller.specs.xa_queue.declared.entry.Entry.{Entry as EntryOf};
ghost use Rattle.xa_caller.specs.Drafts.{Cargo as CargoOf, entry_behind};
ghost use Rattle.xa_caller.specs.Caller.{AreRowsOf};
ghost use Rattle.xa_caller.specs.Serving.{IsForwardBy};
ghost use Rattle.xa_caller.specs.xa_worker.Work.{WorkState};
ghost use Rattle.xa_server.specs.Doings.{IsBusy, InHand, life_in};
ghost use Rattle.xa_server.specs.Forwarding.{way_of, hop_in, forwarded_by, Fails, ForwardsAs, LeftBy, IsOnWay, AimsOn, StaysOnWay, GoesOn};
ghost use Rattle.xa_server.specs.Noting.{HaltsWith};
ghost use Rattle.xa_server.specs.Slot.{Stands, Tables};

use crate::answering::close;
use crate::closing::Closing;
use crate::noting::note_anew;
use crate::slot::{Last, ServerSlot, life_in, put_in, take_out};
use std::alloc::Global;
use std::snapshot::Snapshot;
use xa_caller::events::{Doing, Event, Forwarded, Outcome};
use xa_caller::held::Invocation;
use xa_caller::queue::Entry;
use xa_caller::route::priority;
use xa_caller::types::{Answer, Data, Fault, Found, Name, Octets, Row, Setup, Stamp};
use xa_caller::work::Halt;
use xa_caller::{Aimed, Caller, Cargo, first_row, row_at};

// How often a request is forwarded at most.
const HOPS: u8 = 32;

/// What a forward comes to: the request is out, to be put on a queue by that event, or it ended as a forward that failed.
pub enum Forwarding {
    On(Entry<Cargo>, Event),
    Failed(Closing),
}

impl ServerSlot {
    // By which row the request in hand goes on, or with which version its forward fails.
    fn way(
        &self,
        setup: &Setup,
        sound: bool,
        service: &Octets,
        payload: &Data,
        found: &Found,
    ) -> Result<Row, u64>
        requires configured { is_configured setup.now ≡ true }
        requires sound { sound ≡ is_sound setup.now payload.now }
        ensures { result ≡ way_of setup.now service.now payload.now (hop_in self.now.hand) found.now }
    {
        let hop = match &self.hand {
            Some(entry) => entry.cargo.invocation.hop,
            None => 0,
        };
        if Name::read(service.slice()).is_err() || !sound || hop >= HOPS {
            return Err(0);
        }
        first_row(setup, found, payload).ok_or(found.version)
    }

    /// The service forwards the request in hand, with data that is sound or isn't, by what was found of the service that it
    /// names. The request is out then, to be put on the queue of the first row whose service accepts the kind of the data. It
    /// ends as a forward that failed, with version 0, if the service's name is none, the data isn't sound, or it was
    /// forwarded 32 times before; and with the version that was found, if no row of that accepts the kind of the data. At a
    /// halt it stays in hand.
    pub fn finish_forward(
        &mut self,
        alloc: Global,
        setup: &Setup,
        caller: &mut Caller,
        sound: bool,
        service: &Octets,
        payload: Data,
        found: &Found,
    ) -> Result<Forwarding, Halt>
        requires stands { Stands self.old caller.old.work }
        requires idle { caller.old.phase ≡ phases.Idle }
        requires busy { IsBusy self.old.doing }
        requires setup { (setup.now ≡ caller.old.work.setup) × (is_configured setup.now ≡ true) }
        requires sound { sound ≡ is_sound setup.now payload }
        requires found { is_name service.now ≡ true → AreRowsOf setup.now service.now found.now.rows × (caller.old.least ≤ found.now.version) }
        ensures ok { IfOk result (λ forwarding. ForwardsAs found.now.version payload (way_of setup.now service.now payload (hop_in self.old.hand) found.now) forwarding self.new self.old caller.new caller.old) }
        ensures tables { Tables self.new caller.new.work }
        ensures left { LeftBy result self.new caller.new }
        ensures halted { IfErr result (HaltsWith 3 caller.new.work caller.old.work) }
        ensures kept { OnErr result ((self.new ≡ self.old) × (caller.new ≡ record caller.old { work = caller.new.work })) }
    {
        match self.way(setup, sound, service, &payload, found) {
            Err(version) => {
                drop(payload);
                Ok(Forwarding::Failed(self.fail(caller, version)?))
            }
            Ok(row) => {
                let Ok(sent) = payload.copy(alloc) else {
                    drop(payload);
                    return Err(Halt::NoMemory);
                };
                let held = take_out(&mut self.hand);
                let hop = held.cargo.invocation.hop + 1;
                let asked = caller.next_priority();
                let event = self.forward(&held, hop, found.version, &row, asked, sent);
                Ok(Forwarding::On(behind(held, hop, &row, asked, payload), event))
            }
        }
    }

    // The request in hand ends as a forward that failed.
    fn fail(&mut self, caller: &mut Caller, version: u64) -> Result<Closing, Halt>
        requires stands { Stands self.old caller.old.work }
        requires idle { caller.old.phase ≡ phases.Idle }
        requires busy { IsBusy self.old.doing }
        requires recent { 0 < version → caller.old.least ≤ version }
        ensures ok { IfOk result (λ closing. Fails version closing self.new self.old caller.new caller.old) }
        ensures stands { Stands self.new caller.new.work }
        ensures halted { IfErr result (HaltsWith 3 caller.new.work caller.old.work) }
        ensures kept { OnErr result ((self.new ≡ self.old) × (caller.new ≡ record caller.old { work = caller.new.work })) }
    {
        let _itself = caller.id();
        let life = life_in(self.doing);
        let ended = self.end_with(Outcome::BadForward(version));
        let stamp = note_anew(caller, 3, Event::End(ended))?;
        self.doing = Doing::Idle(life);
        self.last = Last::Well;
        Ok(close(
            take_out(&mut self.hand),
            Some(Answer::Error(Fault::SvcErr)),
            stamp,
        ))
    }

    // The event that forwards that request by that row.
    fn forward(
        &self,
        entry: &Entry<Cargo>,
        hop: u8,
        version: u64,
        row: &Row,
        asked: Option<(bool, i32)>,
        payload: Data,
    ) -> Event
        ensures { result ≡ Forward (forwarded_by self.now entry.now.request hop version row.now asked payload) }
    {
        Event::Forward(Forwarded {
            request: entry.request,
            generation: life_in(self.doing),
            version,
            server: self.server,
            queue: row.queue,
            hop,
            priority: priority(row.priority, asked),
            service: row.service,
            routine: row.routine,
            payload,
        })
    }

    /// Aims a request that is out, and that a queue refused, at the queue of the row at that attempt, counted from 0, of those
    /// that were found when it was forwarded, as `aim` of a caller.
    pub fn forward_again(
        &self,
        alloc: Global,
        caller: &Caller,
        entry: Entry<Cargo>,
        found: &Found,
        attempt: u32,
    ) -> Aimed
        ensures aims { AimsOn found.now.version caller.now.priority entry found.now.rows attempt self.now result }
        ensures on_way { (event : Happening) (service : List ℕ) → IsOnWay entry event self.now caller.now → AreRowsOf caller.now.work.setup service found.now.rows → caller.now.least ≤ found.now.version → StaysOnWay event self.now caller.now result }
    {
        let Some(row) = row_at(found, attempt) else {
            return Aimed::Past(entry);
        };
        let Ok(sent) = entry.cargo.invocation.payload.copy(alloc) else {
            return Aimed::NoMemory(entry);
        };
        let asked = caller.next_priority();
        let hop = entry.cargo.invocation.hop;
        let event = self.forward(&entry, hop, found.version, &row, asked, sent);
        Aimed::At(aimed_by(entry, &row, asked), event)
    }

    /// A queue took the request that was out, with that stamp: the server is idle.
    pub fn forwarded(
        &mut self,
        caller: &mut Caller,
        version: u64,
        stamp: Stamp,
        event: Snapshot<Event>,
    )
        requires out { (entry : EntryOf CargoOf) × IsOnWay entry event.value self.old caller.old }
        requires idle { caller.old.phase ≡ phases.Idle }
        requires version { IsForwardBy version event.value }
        requires later { caller.old.work.stamp.0 < stamp.0 }
        requires bound { stamp.0 ≤ 2 ^ 63 }
        ensures goes { GoesOn stamp version event.value self.new self.old caller.new caller.old }
        ensures stands { Stands self.new caller.new.work }
    {
        let _itself = caller.id();
        caller.forwarded(stamp, version, event);
        self.doing = Doing::Idle(life_in(self.doing));
        self.last = Last::Nothing;
    }

    /// No queue took the request that was out: it ends as a forward that failed, with that version. At a halt it is in hand
    /// again.
    pub fn forward_refused(
        &mut self,
        caller: &mut Caller,
        entry: Entry<Cargo>,
        version: u64,
    ) -> Result<Closing, Halt>
        requires tables { Tables self.old caller.old.work }
        requires idle { caller.old.phase ≡ phases.Idle }
        requires out { (self.old.doing ≡ doings.Busy (life_in self.old.doing) entry.request) × (self.old.hand ≡ None) }
        requires recent { caller.old.least ≤ version }
        ensures ok { IfOk result (λ closing. Fails version closing self.new (record self.old { hand = Some entry }) caller.new caller.old) }
        ensures stands { Stands self.new caller.new.work }
        ensures halted { IfErr result (HaltsWith 3 caller.new.work caller.old.work) }
        ensures kept { OnErr result ((self.new ≡ record self.old { hand = Some entry }) × (caller.new ≡ record caller.old { work = caller.new.work })) }
    {
        put_in(&mut self.hand, entry);
        self.fail(caller, version)
    }

    /// Takes a request that was out in hand again.
    pub fn retake(&mut self, entry: Entry<Cargo>)
        requires out { (self.old.doing ≡ doings.Busy (life_in self.old.doing) entry.request) × (self.old.hand ≡ None) }
        ensures hand { self.new ≡ record self.old { hand = Some entry } }
        ensures in_hand { InHand self.new.doing self.new.hand }
        ensures stands { (w : WorkState) → Tables self.old w → Stands self.new w }
    {
        put_in(&mut self.hand, entry);
    }
}

// What waits for that request at the queue of that row, behind so many forwards.
fn behind(
    held: Entry<Cargo>,
    hop: u8,
    row: &Row,
    asked: Option<(bool, i32)>,
    payload: Data,
) -> Entry<Cargo>
    ensures { result ≡ entry_behind hop held.request row.now asked payload held.cargo.ticket }
{
    let Entry {
        request,
        priority: _,
        cargo,
    } = held;
    let Cargo { ticket, invocation } = cargo;
    drop(invocation);
    Entry {
        request,
        priority: priority(row.priority, asked),
        cargo: Cargo {
            ticket,
            invocation: Invocation {
                service: row.service,
                routine: row.routine,
                hop,
                payload,
            },
        },
    }
}

// A request that is out, by another row.
fn aimed_by(entry: Entry<Cargo>, row: &Row, asked: Option<(bool, i32)>) -> Entry<Cargo>
    ensures { result ≡ entry_behind entry.cargo.invocation.hop entry.request row.now asked entry.cargo.invocation.payload entry.cargo.ticket }
{
    let Entry {
        request,
        priority: _,
        cargo,
    } = entry;
    let Cargo { ticket, invocation } = cargo;
    let Invocation {
        service: _,
        routine: _,
        hop,
        payload,
    } = invocation;
    Entry {
        request,
        priority: priority(row.priority, asked),
        cargo: Cargo {
            ticket,
            invocation: Invocation {
                service: row.service,
                routine: row.routine,
                hop,
                payload,
            },
        },
    }
}
