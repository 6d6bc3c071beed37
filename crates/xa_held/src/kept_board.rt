// The board as a lock guards it.
ghost use Rattle.std.specs.Prelude.{◌≡◌, ◌^◌, ◌<◌, ◌≤◌, ◌∷◌, [], max};
ghost use Rattle.xa_board.specs.Board.{ReadsAsNoted, version_of};
ghost use Rattle.xa_held.specs.declared.kept_board.BoardNote.TheVariants.{Opened};
ghost use Rattle.xa_held.specs.Board.{IsPlaced, IsSoundBoard, Turns};
ghost use Rattle.xa_held.specs.BoardSteps.{AdvertisedAs, WithdrewAs, ClearedAs, LookedUpAs};

use http_server::Log;
use std::marker::Model;
use std::snapshot::Snapshot;
use xa_board::{Board, BoardRefused, Changed, Reader};
use xa_events::Event;
use xa_lock::{Chronicle, Made};
use xa_stamp::{Home, Noted};
use xa_types::{CallerId, Name, QueueId, Row, Setup, Stamp};

/// A worker that looked a service up, or found no row of a queue on the board, the stamp that all later changes are behind,
/// and the last one before.
#[derive(Clone, Copy)]
pub struct Look {
    pub maker: CallerId,
    pub stamp: Stamp,
    pub before: Stamp,
}

/// An entry of the board's home as its lock knows it: first what setup its rows are by, then each change or such a look. No
/// value of it is made.
pub enum BoardNote {
    Opened(Setup),
    By(Made),
    Looked(Look),
}

// What a change or a look is kept as, beside the event: of a look that of the queue that goes down, or of queue 0.
#[derive(Clone, Copy)]
pub(crate) enum Mark {
    Changed(CallerId, Stamp),
    Looked(Look),
}

/// What came of a step that clears the board of a queue: the domain withdrew its first row, or no row of it stands, and all
/// later changes have greater stamps than that look, whose stamp is at most 2^63.
#[derive(Drop)]
pub enum Clearing {
    Withdrew(Noted),
    Clear(Look),
}

/// The board, whose rows are as that setup gives them, and whose changes and looks have their makers. The setup and these
/// take no octets.
#[derive(Drop)]
pub struct KeptBoard {
    board: Board,
    setup: Snapshot<Setup>,
    last: Stamp,
    notes: Log<Mark, Snapshot<Event>>,
}

impl Model for KeptBoard {
    ghost use Rattle.xa_held.specs.Board.{Held};

    ghost Value = { Held };

    ghost use Rattle.xa_held.specs.InnerBoard.{held_of, IsHeld};

    ghost view = { held_of };

    ghost invariant = { IsHeld };
}

impl Chronicle for KeptBoard {
    ghost use Rattle.xa_held.specs.Board.{maker_of};

    type Entry = BoardNote;

    ghost entries = { λ held. held.notes };

    ghost maker = { maker_of };
}

// The event for which a worker looks.
fn down_of(queue: QueueId) -> Snapshot<Event> {
    Snapshot::of(&Event::Down(queue))
}

impl KeptBoard {
    /// A board on which nothing was changed yet, whose rows are by that setup and whose changes have stamps behind 0.
    pub fn of(board: Board, setup: &Setup) -> KeptBoard
        requires entries { board.entries ≡ [] }
        requires first { board.first.0 ≡ 0 }
        ensures { result ≡ record { board = board; setup = setup.now; last = record { 0 = 0 }; notes = Opened setup.now ∷ [] } }
    {
        let _version = board.version();
        KeptBoard {
            board,
            setup: Snapshot::of(setup),
            last: Stamp(0),
            notes: Log::new(),
        }
    }

    /// Advertises a service on a queue, as the board does, in the work of that maker: a row as the setup gives it, on a
    /// queue of the setup. The stamp is behind all looks too.
    pub fn advertise(
        &mut self,
        seen: Stamp,
        maker: CallerId,
        by: CallerId,
        op: u32,
        row: Row,
    ) -> Result<Changed, BoardRefused>
        requires seen { seen.0 ≤ 2 ^ 63 }
        requires placed { IsPlaced self.old.setup row }
        ensures { AdvertisedAs (Turns self.old self.new) seen maker by op row result }
    {
        let seen = Stamp(seen.0.max(self.last.0));
        let changed = self.board.advertise(seen, by, op, row)?;
        let stamp = changed.noted.stamp;
        let mark = Mark::Changed(maker, stamp);
        self.notes = self.notes.and(&mark, &changed.noted.event);
        self.last = stamp;
        Ok(changed)
    }

    /// Withdraws a service from a queue, as the board does. The stamp is as for `advertise`.
    pub fn withdraw(
        &mut self,
        seen: Stamp,
        maker: CallerId,
        by: CallerId,
        op: u32,
        service: &Name,
        queue: QueueId,
    ) -> Result<Changed, BoardRefused>
        requires { seen.0 ≤ 2 ^ 63 }
        ensures { WithdrewAs (Turns self.old self.new) seen maker by op service.now queue result }
    {
        let seen = Stamp(seen.0.max(self.last.0));
        let changed = self.board.withdraw(seen, by, op, service, queue)?;
        let stamp = changed.noted.stamp;
        let mark = Mark::Changed(maker, stamp);
        self.notes = self.notes.and(&mark, &changed.noted.event);
        self.last = stamp;
        Ok(changed)
    }

    /// The domain withdraws the first row of a queue, in the work of that maker. Where no row of it stands the last stamp is
    /// raised to `seen`, so that all later changes are behind it.
    pub fn clear(
        &mut self,
        seen: Stamp,
        maker: CallerId,
        queue: QueueId,
    ) -> Result<Clearing, BoardRefused>
        requires { seen.0 ≤ 2 ^ 63 }
        ensures { ClearedAs (Turns self.old self.new) seen maker queue result }
    {
        let Some(service) = self.board.service_on(queue) else {
            let before = self.last;
            let stamp = Stamp(seen.0.max(before.0));
            let look = Look {
                maker,
                stamp,
                before,
            };
            self.notes = self.notes.and(&Mark::Looked(look), &down_of(queue));
            self.last = stamp;
            return Ok(Clearing::Clear(look));
        };
        let changed = self.withdraw(seen, maker, CallerId(0), 0, &service, queue)?;
        Ok(Clearing::Withdrew(changed.noted))
    }

    /// Looks a service up, as the board does, in the work of that maker. That leaves a look, which raises no stamp.
    pub fn lookup(
        &mut self,
        maker: CallerId,
        reader: &mut Reader,
        name: &Name,
        conversational: bool,
    ) -> Look
        ensures found { LookedUpAs (Turns self.old self.new) maker name.now conversational reader.new.found result }
        ensures least { reader.new.least ≡ max reader.old.least reader.new.found.version }
    {
        let _version = self.board.lookup(reader, name, conversational);
        let look = Look {
            maker,
            stamp: self.last,
            before: self.last,
        };
        self.notes = self.notes.and(&Mark::Looked(look), &down_of(QueueId(0)));
        look
    }

    /// The number of its changes.
    pub fn version(&self) -> u64
        ensures value { result ≡ version_of self.now.board }
        ensures sound { IsSoundBoard self.now }
        ensures reads { ReadsAsNoted self.now.board }
    {
        self.board.version()
    }

    /// The stamp of the last change or look; 0 where there was no change.
    pub fn stamp(&self) -> Stamp
        ensures none { version_of self.now.board ≡ 0 → result.0 ≡ 0 }
        ensures some { 0 < version_of self.now.board → result ≡ self.now.last }
        ensures sound { IsSoundBoard self.now }
        ensures reads { ReadsAsNoted self.now.board }
    {
        if self.board.version() == 0 {
            Stamp(0)
        } else {
            self.last
        }
    }

    /// The changes as they were noted.
    pub fn home(self) -> Home
        ensures first { result.first ≡ self.board.first }
        ensures entries { result.entries ≡ self.board.entries }
        ensures sound { IsSoundBoard self }
        ensures reads { ReadsAsNoted self.board }
    {
        let KeptBoard {
            board,
            setup: _,
            last: _,
            notes: _,
        } = self;
        board.home()
    }
}
