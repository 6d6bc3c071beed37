// The queue: what waits, and its events as they are noted.
ghost use Rattle.std.specs.Prelude.{◌≡◌, ◌^◌, ◌≤◌, ◌<◌, ◌⊎◌, [], length, None, Some, true, false, IfOk, IfErr, OnOk, OnErr, MatchOption};
ghost use Rattle.xa_lock.specs.Makers.{noted_in};
ghost use Rattle.xa_stamp.specs.Home.{last_stamp};
ghost use Rattle.xa_events.specs.declared.event.Event.TheVariants.{Gone, Down, Close};
ghost use Rattle.xa_queue.specs.Queue.{IsSound, has_server, all_gone, none_left};
ghost use Rattle.xa_queue.specs.Reading.{ReadsAsNoted};
ghost use Rattle.xa_queue.specs.Changes.{opened, IsEntry, larger, next_stamp, Notes, NotesAs, IsWorn, put_refused, with_entry, TakesAs, with_gone, Sweeps, IsSwept};
ghost use Rattle.xa_queue.specs.declared.queue.Refusal.TheVariants as refusals;

use crate::entry::Entry;
use crate::line::Line;
use crate::rest::Rest;
use crate::told::{GivenUp, Outgoing};
use std::alloc::Global;
use std::marker::Model;
use xa_events::{Event, Swept};
use xa_lock::Kept;
use xa_stamp::{Home, Noted};
use xa_types::{CallerId, Generation, NoMemory, QueueId, ServerId, Stamp, Worn};

// How many events of a queue may come beside those of its entries and servers: an entry's own and its take, that it goes
// down, and that it is closed.
const OTHERS: u32 = 4;

/// Why an entry isn't put.
#[derive(Clone, Copy, PartialEq, Eq)]
pub enum Refusal {
    /// The queue has no server left.
    Down,
    /// It accepts no more.
    Closed,
    /// As many wait as may, which it has.
    Full(u32),
    /// Stamps would pass their end; this is the larger of what was seen and of the last one.
    Worn(Stamp),
    NoMemory,
}

/// An entry that isn't put, and why.
pub struct PutRefused<C> {
    pub entry: Entry<C>,
    pub why: Refusal,
}

/// What a take answers.
pub enum Taken<C> {
    /// The next entry, and the take.
    Request(Outgoing<C>),
    /// Nothing waits.
    Empty,
    /// Nothing waits, and nothing will.
    Closed,
}

/// A queue. Of the entries that wait the next is the first of the highest priority, and every tenth time the oldest.
pub struct Queue<C> {
    id: QueueId,
    capacity: u32,
    servers: Vec<ServerId>,
    first: Stamp,
    kept: Kept,
    line: Line<C>,
    takes: u64,
    down: bool,
    closed: bool,
    gone: Vec<ServerId>,
}

impl<C> Model for Queue<C> {
    ghost use Rattle.xa_queue.specs.Queue.{QueueState};

    ghost Value = { QueueState C };

    ghost use Rattle.xa_queue.specs.Kept.{standing_of, IsKept};

    ghost view = { standing_of };

    ghost invariant = { IsKept };
}

fn has_server(servers: &[ServerId], server: ServerId) -> bool
    ensures { result ≡ has_server server servers.now }
{
    servers.iter().any(|own| own.0 == server.0)
}

fn all_gone(gone: &[ServerId], servers: &[ServerId]) -> bool
    ensures { result ≡ all_gone gone.now servers.now }
{
    servers.iter().all(|server| has_server(gone, *server))
}

impl<C> Queue<C> {
    /// A queue of at most 64 servers where 1 to 10,000 may wait, whose events have stamps behind this one. It makes the room
    /// that its own end and that of its servers take.
    pub fn new(
        alloc: Global,
        id: QueueId,
        capacity: u32,
        servers: &[ServerId],
        first: Stamp,
    ) -> Result<Queue<C>, NoMemory>
        requires id { 0 < id.0 }
        requires capacity { (1 ≤ capacity) × (capacity ≤ 10000) }
        requires servers { length servers.now ≤ 64 }
        requires first { first.0 ≤ 2 ^ 63 }
        ensures { IfOk result (λ queue. queue ≡ opened id capacity servers.now first) }
    {
        let mut kept = Kept::of(alloc, Home::new(alloc, first))?;
        kept.reserve(servers.len() as u32 + 2)?;
        let gone = Vec::with_capacity(alloc, servers.len())?;
        let servers = Vec::from_slice(alloc, servers)?;
        let line = Line::new(alloc)?;
        Ok(Queue {
            id,
            capacity,
            servers,
            first,
            kept,
            line,
            takes: 0,
            down: false,
            closed: false,
            gone,
        })
    }

    /// How many wait.
    pub fn len(&self) -> u32
        ensures value { result ≡ length self.now.waiting }
        ensures sound { IsSound self.now }
        ensures reads { ReadsAsNoted self.now }
    {
        self.line.len()
    }

    /// Whether it is down.
    pub fn is_down(&self) -> bool
        ensures value { result ≡ self.now.down }
        ensures sound { IsSound self.now }
        ensures reads { ReadsAsNoted self.now }
    {
        self.down
    }

    /// Whether it is closed.
    pub fn is_closed(&self) -> bool
        ensures value { result ≡ self.now.closed }
        ensures sound { IsSound self.now }
        ensures reads { ReadsAsNoted self.now }
    {
        self.closed
    }

    /// The stamp of its last event, or 0 where it has none. It takes no memory.
    pub fn stamp(&self) -> Stamp
        ensures value { result.0 ≡ last_stamp (record { 0 = 0 }) (noted_in self.now.entries) }
        ensures bound { result.0 ≤ 2 ^ 63 }
        ensures sound { IsSound self.now }
        ensures reads { ReadsAsNoted self.now }
    {
        match self.kept.entries() {
            [] => Stamp(0),
            [.., newest] => newest.stamp,
        }
    }

    // Whether an entry may be put, and the stamp of its event.
    fn check_put(&self, seen: Stamp) -> Result<Stamp, Refusal>
        requires { seen.0 ≤ 2 ^ 63 }
        ensures allowed { IfOk result (λ stamp. put_refused seen self.now ≡ None) }
        ensures stamp { IfOk result (λ stamp. (larger seen self.now < 2 ^ 63) × (stamp ≡ next_stamp seen self.now)) }
        ensures refused { IfErr result (λ why. put_refused seen self.now ≡ Some why) }
    {
        if self.down {
            Err(Refusal::Down)
        } else if self.closed {
            Err(Refusal::Closed)
        } else if self.line.len() == self.capacity {
            Err(Refusal::Full(self.line.len()))
        } else {
            match self.kept.next_stamp(seen) {
                Ok(stamp) => Ok(stamp),
                Err(worn) => Err(Refusal::Worn(worn.0)),
            }
        }
    }

    /// Puts an entry behind the others, and notes the event that brings it, an accept or a forward, in the work of that
    /// maker. `seen` is at most 2^63, and the event has one more than the larger of it and of the last stamp. Where the entry
    /// is put there is room for its take too. Where it isn't, it comes back.
    pub fn put(
        &mut self,
        seen: Stamp,
        maker: CallerId,
        event: Event,
        entry: Entry<C>,
    ) -> Result<Stamp, PutRefused<C>>
        requires seen { seen.0 ≤ 2 ^ 63 }
        requires event { IsEntry self.old.id entry event }
        requires priority { (1 ≤ entry.priority) × (entry.priority ≤ 100) }
        ensures noted { IfOk result (λ stamp. Notes seen maker stamp event (with_entry entry self.old) self.new self.old) }
        ensures allowed { OnOk result (put_refused seen self.old ≡ None) }
        ensures refused { IfErr result (λ back. (put_refused seen self.old ≡ Some back.why) ⊎ (back.why ≡ refusals.NoMemory)) }
        ensures back { IfErr result (λ back. back.entry ≡ entry) }
        ensures kept { OnErr result (self.new ≡ self.old) }
    {
        let stamp = match self.check_put(seen) {
            Ok(stamp) => stamp,
            Err(why) => {
                drop(event);
                return Err(PutRefused { entry, why });
            }
        };
        let age = self.kept.entries().len() as u64;
        let room = self.line.len() + self.servers.len() as u32 + OTHERS;
        if self.kept.reserve(room).is_err() {
            drop(event);
            let why = Refusal::NoMemory;
            return Err(PutRefused { entry, why });
        }
        if let Err(entry) = self.line.push(age, entry) {
            drop(event);
            let why = Refusal::NoMemory;
            return Err(PutRefused { entry, why });
        }
        self.kept.add(stamp, maker, event);
        Ok(stamp)
    }

    /// Takes the next entry for a server. `seen`, the maker and the stamp are as for `put`. It takes no memory.
    pub fn take(
        &mut self,
        seen: Stamp,
        maker: CallerId,
        server: ServerId,
        generation: Generation,
    ) -> Result<Taken<C>, Worn>
        requires seen { seen.0 ≤ 2 ^ 63 }
        requires own { has_server server self.old.servers ≡ true }
        requires left { has_server server self.old.gone ≡ false }
        ensures taken { IfOk result (λ taken. TakesAs seen maker server generation taken self.new self.old) }
        ensures worn { IfErr result (λ worn. IsWorn seen worn self.new self.old) }
        ensures some { OnErr result (0 < length self.old.waiting) }
    {
        if self.line.len() == 0 {
            let closed = self.closed;
            return Ok(if closed { Taken::Closed } else { Taken::Empty });
        }
        let stamp = self.kept.next_stamp(seen)?;
        let k = self.takes + 1;
        let entry = self.line.take(k % 10 == 0);
        let taken = xa_events::Taken {
            request: entry.request,
            server,
            generation,
            k,
        };
        let event = Event::Take(taken);
        let noted = Noted::of(stamp, &event);
        self.kept.add(stamp, maker, event);
        self.takes = k;
        Ok(Taken::Request(Outgoing { entry, noted }))
    }

    /// Gives a server up, and answers whether none is left. `seen`, the maker and the stamp are as for `put`. It takes no
    /// memory.
    pub fn gone(&mut self, seen: Stamp, maker: CallerId, server: ServerId) -> Result<GivenUp, Worn>
        requires seen { seen.0 ≤ 2 ^ 63 }
        requires own { has_server server self.old.servers ≡ true }
        requires left { has_server server self.old.gone ≡ false }
        ensures noted { IfOk result (λ done. NotesAs seen maker done.noted (Gone server) (with_gone server self.old) self.new self.old) }
        ensures last { IfOk result (λ done. done.last ≡ none_left self.new) }
        ensures worn { IfErr result (λ worn. IsWorn seen worn self.new self.old) }
    {
        let stamp = self.kept.next_stamp(seen)?;
        let event = Event::Gone(server);
        let noted = Noted::of(stamp, &event);
        self.kept.add(stamp, maker, event);
        self.gone.push_reserved(server);
        let last = all_gone(&self.gone, &self.servers);
        Ok(GivenUp { noted, last })
    }

    /// Goes down, where no server is left. `seen`, the maker and the stamp are as for `put`. It takes no memory.
    pub fn down(&mut self, seen: Stamp, maker: CallerId) -> Result<Noted, Worn>
        requires seen { seen.0 ≤ 2 ^ 63 }
        requires deserted { none_left self.old ≡ true }
        requires up { self.old.down ≡ false }
        ensures noted { IfOk result (λ told. NotesAs seen maker told (Down self.old.id) (record self.old { down = true }) self.new self.old) }
        ensures worn { IfErr result (λ worn. IsWorn seen worn self.new self.old) }
    {
        let stamp = self.kept.next_stamp(seen)?;
        let event = Event::Down(self.id);
        let noted = Noted::of(stamp, &event);
        self.kept.add(stamp, maker, event);
        self.down = true;
        Ok(noted)
    }

    /// Gives up the oldest entry of a queue that is down. `seen`, the maker and the stamp are as for `put`. It takes no
    /// memory.
    pub fn sweep(&mut self, seen: Stamp, maker: CallerId) -> Result<Option<Outgoing<C>>, Worn>
        requires seen { seen.0 ≤ 2 ^ 63 }
        requires down { self.old.down ≡ true }
        ensures swept { IfOk result (λ swept. MatchOption swept (IsSwept self.new self.old) (λ out. Sweeps seen maker out self.new self.old)) }
        ensures worn { IfErr result (λ worn. IsWorn seen worn self.new self.old) }
        ensures some { OnErr result (0 < length self.old.waiting) }
    {
        if self.line.len() == 0 {
            return Ok(None);
        }
        let stamp = self.kept.next_stamp(seen)?;
        let entry = self.line.take(true);
        let swept = Swept {
            request: entry.request,
            queue: self.id,
        };
        let event = Event::Sweep(swept);
        let noted = Noted::of(stamp, &event);
        self.kept.add(stamp, maker, event);
        Ok(Some(Outgoing { entry, noted }))
    }

    /// Accepts no more. `seen`, the maker and the stamp are as for `put`. It takes no memory.
    pub fn close(&mut self, seen: Stamp, maker: CallerId) -> Result<Noted, Worn>
        requires seen { seen.0 ≤ 2 ^ 63 }
        requires unshut { self.old.closed ≡ false }
        ensures noted { IfOk result (λ told. NotesAs seen maker told (Close self.old.id) (record self.old { closed = true }) self.new self.old) }
        ensures worn { IfErr result (λ worn. IsWorn seen worn self.new self.old) }
    {
        let stamp = self.kept.next_stamp(seen)?;
        let event = Event::Close(self.id);
        let noted = Noted::of(stamp, &event);
        self.kept.add(stamp, maker, event);
        self.closed = true;
        Ok(noted)
    }

    /// Ends the queue, also where entries still wait, as behind a halt. It takes no memory.
    pub fn drain(self) -> Rest<C>
        ensures first { result.first ≡ self.first }
        ensures entries { result.entries ≡ noted_in self.entries }
        ensures waiting { result.waiting ≡ self.waiting }
        ensures sound { IsSound self }
        ensures reads { ReadsAsNoted self }
    {
        let Queue {
            id: _,
            capacity: _,
            servers: _,
            first: _,
            kept,
            line,
            takes: _,
            down: _,
            closed: _,
            gone: _,
        } = self;
        Rest {
            home: kept.into_home(),
            line,
        }
    }

    /// The events as they were noted, of a queue where nothing waits. It takes no memory.
    pub fn home(self) -> Home
        requires { self.waiting ≡ [] }
        ensures first { result.first ≡ self.first }
        ensures entries { result.entries ≡ noted_in self.entries }
        ensures sound { IsSound self }
        ensures reads { ReadsAsNoted self }
    {
        self.drain().home()
    }
}
