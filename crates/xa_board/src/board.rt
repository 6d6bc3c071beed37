// The board: its rows, and its changes as they are noted.
ghost use Rattle.std.specs.Prelude.{◌≡◌, ◌+◌, ◌-◌, ◌^◌, ◌≤◌, ◌<◌, ◌⊎◌, [], ◌++◌, ◌∷◌, max, length, slice_get, option_map, Some, None, IfOk, IfErr, OnOk, OnErr};
ghost use Rattle.xa_types.specs.Rows.{row_of};
ghost use Rattle.xa_events.specs.declared.event.Event.TheVariants.{Advertise, Withdraw};
ghost use Rattle.xa_stamp.specs.Home.{last_stamp};
ghost use Rattle.xa_board.specs.Board.{ReadsAsNoted, version_of, stamp_of};
ghost use Rattle.xa_board.specs.Changes.{larger, next_change, changed, without, rows_on, withdrawals, cleared, worn_by, bars_put, advertise_refused, withdraw_refused};
ghost use Rattle.xa_board.specs.Reader.{Finds};
ghost use Rattle.xa_board.specs.declared.board.BoardRefused.TheVariants as refusals;

use crate::Reader;
use crate::rows::{ROWS, Rows, count_on, first_on, is_same, row_of};
use std::alloc::Global;
use std::marker::Model;
use std::snapshot::Snapshot;
use xa_events::{Advertised, Event, Withdrawn};
use xa_stamp::{Home, Noted, Stamped};
use xa_types::{CallerId, Name, NoMemory, QueueId, Row, Stamp, Worn};

/// Why the board isn't changed. It is as it was then.
#[derive(Clone, Copy, PartialEq, Eq)]
pub enum BoardRefused {
    /// The row stands with this routine, which is another (TPEMATCH).
    Match(Name),
    /// No such row stands (TPENOENT).
    NoEnt,
    /// 256 rows stand (TPELIMIT).
    Full,
    /// Stamps would pass their end; this is the larger of what was seen and of the last one.
    Worn(Stamp),
    NoMemory,
}

impl From<NoMemory> for BoardRefused {
    ghost from_gives = { λ _ e. e ≡ refusals.NoMemory };

    fn from(_: NoMemory) -> Self {
        BoardRefused::NoMemory
    }
}

impl From<Worn> for BoardRefused {
    ghost from_gives = { λ worn e. e ≡ refusals.Worn worn.0 };

    fn from(worn: Worn) -> Self {
        BoardRefused::Worn(worn.0)
    }
}

/// A change that was made: the version behind it, and its event.
#[derive(Drop)]
pub struct Changed {
    pub version: u64,
    pub noted: Noted,
}

/// The board: the rows that stand, at most 256, in the order in which they were advertised, and the home in which its
/// changes are noted. Its version is the number of its changes.
#[derive(Drop)]
pub struct Board {
    first: Stamp,
    home: Home,
    rows: Rows,
}

impl Model for Board {
    ghost use Rattle.xa_board.specs.Board.{BoardState};

    ghost Value = { BoardState };

    ghost use Rattle.xa_board.specs.Kept.{standing_of, IsKept};

    ghost view = { standing_of };

    ghost invariant = { IsKept };
}

// Notes the withdrawal of each row of the queue, behind that stamp, and answers the last stamp.
fn note_withdrawals(home: &mut Home, seen: Stamp, rows: &[Row], queue: QueueId) -> Stamp
    requires last { last_stamp home.old.first home.old.entries ≤ seen.0 }
    requires room { length (rows_on queue.0 rows.now) ≤ home.old.room }
    requires stamps { seen.0 + length (rows_on queue.0 rows.now) ≤ 2 ^ 63 }
    ensures first { home.new.first ≡ home.old.first }
    ensures entries { home.new.entries ≡ home.old.entries ++ withdrawals seen.0 (length home.old.entries) (rows_on queue.0 rows.now) }
    ensures stamp { result.0 ≡ seen.0 + length (rows_on queue.0 rows.now) }
{
    let mut stamp = seen;
    for row in rows {
        if row.queue.0 != queue.0 {
            continue;
        }
        let withdrawn = Withdrawn {
            by: CallerId(0),
            op: 0,
            service: row.service,
            queue: row.queue,
            version: home.entries().len() as u64 + 1,
        };
        let Ok(noted) = home.note(stamp, Event::Withdraw(withdrawn)) else {
            unreachable!()
        };
        stamp = noted;
    }
    stamp
}

fn put_refused(rows: &[Row], row: &Row) -> Option<BoardRefused>
    ensures { result ≡ bars_put row.now rows.now (row_of row.now.service row.now.queue.0 rows.now) }
{
    match row_of(rows, &row.service, row.queue) {
        Some(standing) if is_same(&standing.routine, &row.routine) => None,
        Some(standing) => Some(BoardRefused::Match(standing.routine)),
        None if rows.len() == ROWS => Some(BoardRefused::Full),
        None => None,
    }
}

impl Board {
    /// A board without rows, whose changes have stamps behind this one, with room for 256 rows.
    pub fn new(alloc: Global, first: Stamp) -> Result<Board, NoMemory>
        requires { first.0 ≤ 2 ^ 63 }
        ensures { IfOk result (λ board. board ≡ record { first = first; entries = []; rows = [] }) }
    {
        let rows = Rows::new(alloc)?;
        Ok(Board {
            first,
            home: Home::new(alloc, first),
            rows,
        })
    }

    /// The number of its changes, which is less than 2^63.
    pub fn version(&self) -> u64
        ensures value { result ≡ version_of self.now }
        ensures bound { result < 2 ^ 63 }
        ensures board { ReadsAsNoted self.now }
    {
        self.home.entries().len() as u64
    }

    // The stamp of the last change, or the first one where none was made.
    fn stamp(&self) -> Stamp
        ensures value { result.0 ≡ stamp_of self.now }
        ensures bound { result.0 ≤ 2 ^ 63 }
    {
        match self.home.entries() {
            [] => self.first,
            [.., newest] => newest.stamp,
        }
    }

    /// A reader that has found no row yet, by the version that stands, with room for 256 rows.
    pub fn reader(&self, alloc: Global) -> Result<Reader, NoMemory>
        ensures version { IfOk result (λ reader. reader.found.version ≡ version_of self.now) }
        ensures stamp { IfOk result (λ reader. reader.found.stamp.0 ≡ stamp_of self.now) }
        ensures rows { IfOk result (λ reader. reader.found.rows ≡ []) }
        ensures least { IfOk result (λ reader. reader.least ≡ version_of self.now) }
    {
        Reader::new(alloc, self.version(), self.stamp())
    }

    /// Advertises a service on a queue: the row stands last, in place of one of its service and queue. `seen` is at most
    /// 2^63, and the change has one more than the larger of it and of the last stamp. Answers the version and the event with its stamp.
    pub fn advertise(
        &mut self,
        seen: Stamp,
        by: CallerId,
        op: u32,
        row: Row,
    ) -> Result<Changed, BoardRefused>
        requires { seen.0 ≤ 2 ^ 63 }
        ensures value { IfOk result (λ done. (done.version, done.noted.stamp) ≡ next_change seen self.old) }
        ensures noted { IfOk result (λ done. done.noted.event.value ≡
            Advertise (record { by = by; op = op; service = row.service; queue = row.queue; routine = row.routine; version = done.version })) }
        ensures changed { IfOk result (λ done. self.new ≡ changed self.old done.noted.stamp
            (Advertise (record { by = by; op = op; service = row.service; queue = row.queue; routine = row.routine; version = done.version }))
            (without row.service row.queue.0 self.old.rows ++ row ∷ [])) }
        ensures allowed { OnOk result (advertise_refused seen row self.old ≡ None) }
        ensures refused { IfErr result (λ why. (advertise_refused seen row self.old ≡ Some why) ⊎ (why ≡ refusals.NoMemory)) }
        ensures kept { OnErr result (self.new ≡ self.old) }
        ensures board { ReadsAsNoted self.new }
    {
        if let Some(why) = put_refused(self.rows.as_slice(), &row) {
            return Err(why);
        }
        let version = self.version() + 1;
        let advertised = Advertised {
            by,
            op,
            service: row.service,
            queue: row.queue,
            routine: row.routine,
            version,
        };
        self.home.reserve(1)?;
        let event = Event::Advertise(advertised);
        let told = Snapshot::of(&event);
        let stamp = self.home.note(seen, event)?;
        self.rows.put(row);
        let noted = Noted { stamp, event: told };
        Ok(Changed { version, noted })
    }

    /// Withdraws a service from a queue. `seen` and the answer are as for `advertise`.
    pub fn withdraw(
        &mut self,
        seen: Stamp,
        by: CallerId,
        op: u32,
        service: &Name,
        queue: QueueId,
    ) -> Result<Changed, BoardRefused>
        requires { seen.0 ≤ 2 ^ 63 }
        ensures value { IfOk result (λ done. (done.version, done.noted.stamp) ≡ next_change seen self.old) }
        ensures noted { IfOk result (λ done. done.noted.event.value ≡
            Withdraw (record { by = by; op = op; service = service.now; queue = queue; version = done.version })) }
        ensures changed { IfOk result (λ done. self.new ≡ changed self.old done.noted.stamp
            (Withdraw (record { by = by; op = op; service = service.now; queue = queue; version = done.version }))
            (without service.now queue.0 self.old.rows)) }
        ensures allowed { OnOk result (withdraw_refused seen service.now queue.0 self.old ≡ None) }
        ensures refused { IfErr result (λ why. (withdraw_refused seen service.now queue.0 self.old ≡ Some why) ⊎ (why ≡ refusals.NoMemory)) }
        ensures kept { OnErr result (self.new ≡ self.old) }
        ensures board { ReadsAsNoted self.new }
    {
        if row_of(self.rows.as_slice(), service, queue).is_none() {
            return Err(BoardRefused::NoEnt);
        }
        let version = self.version() + 1;
        let withdrawn = Withdrawn {
            by,
            op,
            service: *service,
            queue,
            version,
        };
        self.home.reserve(1)?;
        let event = Event::Withdraw(withdrawn);
        let told = Snapshot::of(&event);
        let stamp = self.home.note(seen, event)?;
        self.rows.take_out(service, queue);
        let noted = Noted { stamp, event: told };
        Ok(Changed { version, noted })
    }

    /// The domain withdraws each row of a queue, in the board's order, one change each. Answers the stamp of the last of
    /// them, or where there is none the larger of `seen`, which is at most 2^63, and of the last stamp. It is refused by
    /// `Worn` and `NoMemory` alone.
    pub fn withdraw_all(&mut self, seen: Stamp, queue: QueueId) -> Result<Stamp, BoardRefused>
        requires { seen.0 ≤ 2 ^ 63 }
        ensures value { IfOk result (λ stamp. stamp.0 ≡ larger seen self.old + length (rows_on queue.0 self.old.rows)) }
        ensures changed { OnOk result (self.new ≡ cleared seen queue.0 self.old) }
        ensures allowed { OnOk result (worn_by (length (rows_on queue.0 self.old.rows)) seen self.old ≡ None) }
        ensures refused { IfErr result (λ why. (worn_by (length (rows_on queue.0 self.old.rows)) seen self.old ≡ Some why) ⊎ (why ≡ refusals.NoMemory)) }
        ensures kept { OnErr result (self.new ≡ self.old) }
        ensures board { ReadsAsNoted self.new }
    {
        let count = count_on(self.rows.as_slice(), queue);
        let larger = seen.max(self.stamp());
        if larger.0 > Stamp::LAST.0 - u64::from(count) {
            return Err(BoardRefused::Worn(larger));
        }
        self.home.reserve(count)?;
        let stamp = note_withdrawals(&mut self.home, larger, self.rows.as_slice(), queue);
        self.rows.take_out_all(queue);
        Ok(stamp)
    }

    /// The service of the first row of a queue. It takes no memory.
    pub fn service_on(&self, queue: QueueId) -> Option<Name>
        ensures value { result ≡ option_map (λ row. row.service) (slice_get (rows_on queue.0 self.now.rows) 0) }
        ensures board { ReadsAsNoted self.now }
    {
        first_on(self.rows.as_slice(), queue)
    }

    /// Looks a service up: the reader finds its rows, for conversations or those that aren't, of the version that is
    /// answered, which is the last. It takes no memory.
    pub fn lookup(&self, reader: &mut Reader, name: &Name, conversational: bool) -> u64
        ensures value { result ≡ version_of self.now }
        ensures found { Finds self.now name.now conversational reader.new.found }
        ensures least { reader.new.least ≡ max reader.old.least result }
        ensures board { ReadsAsNoted self.now }
    {
        let version = self.version();
        reader.find(version, self.stamp(), &self.rows, name, conversational);
        version
    }

    /// From now on the reader reads no version before this one. It takes no memory.
    pub fn tell(&mut self, reader: &mut Reader)
        ensures least { reader.new.least ≡ max reader.old.least (version_of self.old) }
        ensures found { reader.new.found ≡ reader.old.found }
        ensures kept { self.new ≡ self.old }
    {
        reader.raise(self.version());
    }

    /// The changes as they were noted. It takes no memory.
    pub fn home(self) -> Home
        ensures first { result.first ≡ self.first }
        ensures entries { result.entries ≡ self.entries }
        ensures board { ReadsAsNoted self }
    {
        let Board { home, .. } = self;
        home
    }
}
