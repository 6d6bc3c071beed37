// A queue as a lock guards it.
ghost use Rattle.std.specs.Prelude.{◌≡◌, ◌+◌, ◌^◌, ◌≤◌, [], length, true, IfOk, IfErr};
ghost use Rattle.std.specs.List.{All};
ghost use Rattle.xa_lock.specs.Pages.{entries_by};
ghost use Rattle.xa_lock.specs.Makers.{noted_in};
ghost use Rattle.xa_queue.specs.Queue.{IsSound, has_server, all_gone};
ghost use Rattle.xa_queue.specs.Reading.{ReadsAsNoted};
ghost use Rattle.xa_queue.specs.Changes.{IsEntry};
ghost use Rattle.xa_held.specs.Notes.{maker_of, gone_in, is_down_in, IsOther};
ghost use Rattle.xa_stamp.specs.Home.{last_stamp};
ghost use Rattle.xa_held.specs.Kept.{IsRight, Brings, IsBrought, notes_of, Becomes};
ghost use Rattle.xa_held.specs.Steps.{PutAs, TookAs, GaveUpAs, WentDownAs, SweptAs, ClosedAs};

use crate::cargo::Cargo;
use std::collections::LinkedList;
use std::marker::Model;
use std::snapshot::Snapshot;
use xa_cell::Cells;
use xa_events::Event;
use xa_lock::{Chronicle, Made};
use xa_queue::{Entry, GivenUp, Outgoing, PutRefused, Queue, Rest, Taken};
use xa_stamp::Noted;
use xa_types::{CallerId, Generation, QueueId, ServerId, Stamp, Worn};

/// What a queue is from its beginning to its end: its number, how many may wait, its servers, the stamp with which it begins,
/// how many clients there are, and the cells of which its entries have tickets. No value of it is made.
pub struct Setting<A> {
    pub id: QueueId,
    pub capacity: u32,
    pub servers: LinkedList<ServerId>,
    pub first: Stamp,
    pub clients: u16,
    pub cells: Cells<A>,
}

/// An entry of a queue's home as its lock knows it: first what the queue is, then each event with its maker. No value of it
/// is made.
pub enum QueueNote<A> {
    Opened(Setting<A>),
    By(Made),
}

/// A queue whose entries have tickets of these cells, each for its own request, and each of whose servers gives itself up.
/// What a call asks for is read off the events that stand at the queue: a look at it, as `len`, brings them to bear.
pub struct KeptQueue<A> {
    queue: Queue<Cargo<A>>,
    clients: u16,
    cells: Snapshot<Cells<A>>,
}

impl<A> Model for KeptQueue<A> {
    ghost use Rattle.xa_held.specs.Kept.{Kept};

    ghost Value = { Kept A };

    ghost use Rattle.xa_held.specs.Inner.{kept_of, IsKept};

    ghost view = { kept_of };

    ghost invariant = { IsKept };
}

impl<A> Chronicle for KeptQueue<A> {
    ghost use Rattle.xa_held.specs.Notes.{maker_of};
    ghost use Rattle.xa_held.specs.Kept.{notes_of};

    type Entry = QueueNote<A>;

    ghost entries = { notes_of };

    ghost maker = { maker_of };
}

impl<A> KeptQueue<A> {
    /// A queue that has no event yet, in a domain with so many clients.
    pub fn of(queue: Queue<Cargo<A>>, clients: u16, cells: &Cells<A>) -> KeptQueue<A>
        requires entries { queue.entries ≡ [] }
        requires waiting { queue.waiting ≡ [] }
        ensures { result ≡ record { queue = queue; clients = clients; cells = cells.now } }
    {
        KeptQueue {
            queue,
            clients,
            cells: Snapshot::of(cells),
        }
    }

    /// Puts an entry, as the queue does.
    pub fn put(
        &mut self,
        seen: Stamp,
        maker: CallerId,
        event: Event,
        entry: Entry<Cargo<A>>,
    ) -> Result<Stamp, PutRefused<Cargo<A>>>
        requires seen { seen.0 ≤ 2 ^ 63 }
        requires event { IsEntry self.old.queue.id entry event }
        requires priority { (1 ≤ entry.priority) × (entry.priority ≤ 100) }
        requires right { IsRight self.old.cells entry }
        requires brings { Brings entry.request entry.cargo.invocation event }
        ensures { PutAs (Becomes self.old self.new) seen maker event entry result }
    {
        let _waits = self.queue.len();
        self.queue.put(seen, maker, event, entry)
    }

    /// Takes the next entry for a server, as the queue does, in the work of that server, which wasn't given up there.
    pub fn take(
        &mut self,
        seen: Stamp,
        maker: CallerId,
        server: ServerId,
        generation: Generation,
    ) -> Result<Taken<Cargo<A>>, Worn>
        requires seen { seen.0 ≤ 2 ^ 63 }
        requires own { has_server server self.old.queue.servers ≡ true }
        requires maker { maker.0 ≡ self.old.clients + server.0 }
        requires left { All (IsOther server) (entries_by maker_of maker.0 (notes_of self.old)) }
        ensures { TookAs (Becomes self.old self.new) seen maker server generation result }
    {
        let _waits = self.queue.len();
        self.queue.take(seen, maker, server, generation)
    }

    /// Gives a server up, as the queue does, in the work of that server, which wasn't given up there before.
    pub fn gone(&mut self, seen: Stamp, maker: CallerId, server: ServerId) -> Result<GivenUp, Worn>
        requires seen { seen.0 ≤ 2 ^ 63 }
        requires own { has_server server self.old.queue.servers ≡ true }
        requires maker { maker.0 ≡ self.old.clients + server.0 }
        requires left { All (IsOther server) (entries_by maker_of maker.0 (notes_of self.old)) }
        ensures { GaveUpAs (Becomes self.old self.new) seen maker server result }
    {
        let _waits = self.queue.len();
        self.queue.gone(seen, maker, server)
    }

    /// Goes down, where no server is left, and it isn't down yet.
    pub fn down(&mut self, seen: Stamp, maker: CallerId) -> Result<Option<Noted>, Worn>
        requires seen { seen.0 ≤ 2 ^ 63 }
        requires deserted { all_gone (gone_in (notes_of self.old)) self.old.queue.servers ≡ true }
        ensures { WentDownAs (Becomes self.old self.new) seen maker result }
    {
        if self.queue.is_down() {
            return Ok(None);
        }
        let noted = self.queue.down(seen, maker)?;
        Ok(Some(noted))
    }

    /// Gives up the oldest entry of a queue that is down, as the queue does.
    pub fn sweep(
        &mut self,
        seen: Stamp,
        maker: CallerId,
    ) -> Result<Option<Outgoing<Cargo<A>>>, Worn>
        requires seen { seen.0 ≤ 2 ^ 63 }
        requires down { is_down_in self.old.queue.id.0 (notes_of self.old) ≡ true }
        ensures { SweptAs (Becomes self.old self.new) seen maker result }
    {
        let _waits = self.queue.len();
        self.queue.sweep(seen, maker)
    }

    /// Accepts no more, where it did before.
    pub fn close(&mut self, seen: Stamp, maker: CallerId) -> Result<Option<Noted>, Worn>
        requires seen { seen.0 ≤ 2 ^ 63 }
        ensures { ClosedAs (Becomes self.old self.new) seen maker result }
    {
        if self.queue.is_closed() {
            return Ok(None);
        }
        let noted = self.queue.close(seen, maker)?;
        Ok(Some(noted))
    }

    /// How many wait.
    pub fn len(&self) -> u32
        ensures value { result ≡ length self.now.queue.waiting }
        ensures sound { IsSound self.now.queue }
        ensures reads { ReadsAsNoted self.now.queue }
        ensures right { All (IsRight self.now.cells) self.now.queue.waiting }
        ensures brought { All (IsBrought self.now.queue.entries) self.now.queue.waiting }
    {
        self.queue.len()
    }

    /// The stamp of its last event, or 0 where it has none.
    pub fn stamp(&self) -> Stamp
        ensures value { result.0 ≡ last_stamp (record { 0 = 0 }) (noted_in self.now.queue.entries) }
        ensures bound { result.0 ≤ 2 ^ 63 }
        ensures sound { IsSound self.now.queue }
        ensures reads { ReadsAsNoted self.now.queue }
        ensures right { All (IsRight self.now.cells) self.now.queue.waiting }
    {
        self.queue.stamp()
    }

    /// Ends the queue, as the queue does.
    pub fn drain(self) -> Rest<Cargo<A>>
        ensures first { result.first ≡ self.queue.first }
        ensures entries { result.entries ≡ noted_in self.queue.entries }
        ensures waiting { result.waiting ≡ self.queue.waiting }
        ensures sound { IsSound self.queue }
        ensures reads { ReadsAsNoted self.queue }
        ensures right { All (IsRight self.cells) self.queue.waiting }
        ensures brought { All (IsBrought self.queue.entries) self.queue.waiting }
    {
        let KeptQueue {
            queue,
            clients: _,
            cells: _,
        } = self;
        queue.drain()
    }
}
