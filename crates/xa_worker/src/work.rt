// The work of one worker.
ghost use Rattle.std.specs.Prelude.{◌≡◌, ◌+◌, ◌-◌, ◌<◌, ◌≤◌, ◌^◌, max, [], false, IfOk, IfErr, OnOk, OnErr};
ghost use Rattle.std.specs.List.{filter};
ghost use Rattle.xa_events.specs.Caller.{is_client};
ghost use Rattle.xa_events.specs.Homes.{home_of, at_home};
ghost use Rattle.xa_events.specs.Homes.Home.{CallerHome};
ghost use Rattle.xa_stamp.specs.Home.{last_stamp};
ghost use Rattle.xa_worker.specs.Crew.{IsOfDomain, no_stamp, stands_at};
ghost use Rattle.xa_worker.specs.Work.{IsSound, IsNext, theirs, noted, noted_here, seeing, HaltsAt};

use crate::own::Own;
use std::alloc::Global;
use std::marker::Model;
use std::snapshot::Snapshot;
use xa_events::Event;
use xa_stamp::{Home, Stamped};
use xa_types::{CallerId, NoMemory, Setup, Stamp, Worn};

/// Why a worker stops.
#[derive(Clone, Copy, Debug, PartialEq, Eq)]
pub enum Halt {
    NoMemory,
    /// Stamps would pass their end.
    Worn(Stamp),
}

/// The work of one worker: its own home, the greatest stamp that it noted or saw, and a list of all that it noted, which
/// takes no memory.
#[derive(Drop)]
pub struct Work {
    setup: Snapshot<Setup>,
    clients: u16,
    id: CallerId,
    stamp: Stamp,
    latest: Stamp,
    home: Home,
    room: u32,
    own: Own,
}

impl Model for Work {
    ghost use Rattle.xa_worker.specs.Work.{WorkState};

    ghost Value = { WorkState };

    ghost use Rattle.xa_worker.specs.Kept.{standing_of, IsKept};

    ghost view = { standing_of };

    ghost invariant = { IsKept };
}

impl Work {
    /// A worker that has noted nothing, and saw this stamp.
    pub fn new(alloc: Global, setup: &Setup, clients: u16, id: CallerId, first: Stamp) -> Work
        requires id { 0 < id.0 }
        requires first { first.0 ≤ 2 ^ 63 }
        ensures { result ≡ record { setup = setup.now; clients = clients; id = id; stamp = first; own = []; room = 0 } }
    {
        Work {
            setup: Snapshot::of(setup),
            clients,
            id,
            stamp: first,
            latest: Stamp(0),
            home: Home::new(alloc, first),
            room: 0,
            own: Own::new(),
        }
    }

    /// The worker's number.
    pub fn id(&self) -> CallerId
        ensures value { result ≡ self.now.id }
        ensures some { 0 < self.now.id.0 }
    {
        self.id
    }

    /// Whether it is a client's, and not a server's.
    pub fn is_client(&self) -> bool
        ensures { result ≡ is_client self.now.clients self.now.id.0 }
    {
        1 <= self.id.0 && self.id.0 <= self.clients
    }

    /// The greatest stamp that it noted or saw.
    pub fn stamp(&self) -> Stamp
        ensures value { result ≡ self.now.stamp }
        ensures bound { self.now.stamp.0 ≤ 2 ^ 63 }
        ensures sound { IsSound self.now }
    {
        self.stamp
    }

    /// The stamp of the last event that it noted, at whichever home, or 0 where it noted none.
    pub fn latest(&self) -> Stamp
        ensures value { result.0 ≡ last_stamp no_stamp self.now.own }
        ensures bound { result.0 ≤ self.now.stamp.0 }
        ensures sound { IsSound self.now }
    {
        self.latest
    }

    /// It saw this stamp at another home.
    pub fn saw(&mut self, stamp: Stamp)
        requires { stamp.0 ≤ 2 ^ 63 }
        ensures { self.new ≡ seeing stamp self.old }
    {
        self.stamp = Stamp(self.stamp.0.max(stamp.0));
    }

    /// Makes room for so many events at its own home, where there isn't already. Where it fails nothing changes.
    pub fn reserve(&mut self, more: u32) -> Result<(), NoMemory>
        ensures ok { OnOk result (self.new ≡ record self.old { room = max self.old.room more }) }
        ensures kept { OnErr result (self.new ≡ self.old) }
    {
        let room = self.room.max(more);
        self.home.reserve(room)?;
        self.room = room;
        Ok(())
    }

    /// Notes an event at its own home, with the next stamp. `Worn` comes exactly where its stamp is 2^63, and then nothing
    /// changes. It takes no memory.
    pub fn note(&mut self, event: Event) -> Result<Stamp, Worn>
        requires room { 0 < self.old.room }
        requires next { IsNext self.old event }
        requires home { home_of self.old.setup self.old.clients event ≡ CallerHome self.old.id.0 }
        ensures stamp { IfOk result (λ stamp. (stamp.0 ≡ self.old.stamp.0 + 1) × (stamp.0 ≤ 2 ^ 63)) }
        ensures noted { IfOk result (λ stamp. self.new ≡ noted_here (record { stamp = stamp; event = event }) self.old) }
        ensures worn { IfErr result (λ worn. (self.old.stamp.0 ≡ 2 ^ 63) × (worn.0.0 ≡ 2 ^ 63)) }
        ensures kept { OnErr result (self.new ≡ self.old) }
    {
        let snapshot = Snapshot::of(&event);
        let stamp = self.home.note(self.stamp, event)?;
        self.stamp = stamp;
        self.latest = stamp;
        self.room -= 1;
        self.own.add(stamp, snapshot);
        Ok(stamp)
    }

    /// Makes room for an event at its own home, and notes it there as `note` does. Where it fails nothing changes.
    pub fn note_anew(&mut self, event: Event) -> Result<Stamp, Halt>
        requires next { IsNext self.old event }
        requires home { home_of self.old.setup self.old.clients event ≡ CallerHome self.old.id.0 }
        ensures stamp { IfOk result (λ stamp. (stamp.0 ≡ self.old.stamp.0 + 1) × (stamp.0 ≤ 2 ^ 63)) }
        ensures noted { IfOk result (λ stamp. self.new ≡ noted (record { stamp = stamp; event = event }) self.old) }
        ensures halted { IfErr result (HaltsAt self.old.stamp) }
        ensures kept { OnErr result (self.new ≡ self.old) }
    {
        if self.room == u32::MAX || self.home.reserve(self.room + 1).is_err() {
            drop(event);
            return Err(Halt::NoMemory);
        }
        let snapshot = Snapshot::of(&event);
        match self.home.note(self.stamp, event) {
            Ok(stamp) => {
                self.stamp = stamp;
                self.latest = stamp;
                self.own.add(stamp, snapshot);
                Ok(stamp)
            }
            Err(worn) => Err(Halt::Worn(worn.0)),
        }
    }

    /// The worker's event was noted at another home.
    pub fn noted(&mut self, stamp: Stamp, event: Snapshot<Event>)
        requires later { self.old.stamp.0 < stamp.0 }
        requires bound { stamp.0 ≤ 2 ^ 63 }
        requires next { IsNext self.old event.value }
        requires home { at_home self.old.setup self.old.clients (CallerHome self.old.id.0) event.value ≡ false }
        ensures noted { self.new ≡ noted (record { stamp = stamp; event = event.value }) self.old }
    {
        self.stamp = stamp;
        self.latest = stamp;
        self.own.add(stamp, event);
    }

    /// An event of the domain was noted by this worker, at the board or at a queue.
    pub fn noted_for_domain(&mut self, stamp: Stamp, event: Snapshot<Event>)
        requires later { self.old.stamp.0 < stamp.0 }
        requires bound { stamp.0 ≤ 2 ^ 63 }
        requires domain { IsOfDomain event.value }
        ensures noted { self.new ≡ noted (record { stamp = stamp; event = event.value }) self.old }
        ensures theirs { theirs self.new ≡ theirs self.old }
    {
        self.stamp = stamp;
        self.latest = stamp;
        self.own.add(stamp, event);
    }

    /// What it noted at its own home, in order.
    pub fn entries(&self) -> &[Stamped]
        ensures { result.now ≡ filter (stands_at self.now.setup self.now.clients (CallerHome self.now.id.0)) self.now.own }
    {
        self.home.entries()
    }

    /// Its own home: what it noted there, in order.
    pub fn home(self) -> Home
        ensures entries { result.entries ≡ filter (stands_at self.setup self.clients (CallerHome self.id.0)) self.own }
        ensures sound { IsSound self }
    {
        let Work {
            setup: _,
            clients: _,
            id: _,
            stamp: _,
            latest: _,
            home,
            room: _,
            own: _,
        } = self;
        home
    }
}
