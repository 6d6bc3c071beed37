// A worker's desk, and its look at the board.
ghost use Rattle.std.specs.Prelude.{◌≡◌};
ghost use Rattle.xa_server.specs.xa_types.declared.stamp.Stamp.{Stamp};
ghost use Rattle.xa_server.specs.xa_worker.Work.{seeing};
ghost use Rattle.xa_desk.specs.Desks.{IsDomain, IsDesk, Leads};
ghost use Rattle.xa_desk.specs.Found.{HasFound};
ghost use Rattle.xa_desk.specs.Looks.{LookShowed};

use crate::domain::Domain;
use crate::visit::{enter_board, leave_board};
use std::sync::Wait;
use xa_board::Reader;
use xa_server::caller::{Caller, Filling};
use xa_server::held::{BoardNote, QueueNote};
use xa_server::lock::{LockPass, Made};
use xa_server::types::Name;

/// What a worker has: its caller, its reader of the board, and its passes of the board, of each queue and of the clock, which
/// are there between its steps.
pub struct Desk {
    pub caller: Caller,
    pub reader: Reader,
    pub board: Option<LockPass<BoardNote>>,
    pub queues: Vec<Option<LockPass<QueueNote<Filling>>>>,
    pub clock: Option<LockPass<Made>>,
}

impl Desk {
    /// Looks a service up on the board, for calls that begin no conversation: the reader finds its rows, by the version that
    /// the board had at this look. The worker saw the board's stamp.
    pub fn look_up<W: Wait>(&mut self, rt: &W, domain: &Domain, service: &Name)
        requires domain { IsDomain domain.now }
        requires desk { IsDesk domain.now self.old }
        ensures leads { Leads domain.now self.old self.new }
        ensures found { HasFound domain.now service.now self.new.reader.found self.new }
        ensures looked { LookShowed self.old self.new self.new.reader.found.version }
        ensures caller { (seen : Stamp) × (self.new.caller ≡ record self.old.caller { work = seeing seen self.old.caller.work }) }
        ensures queues { self.new.queues ≡ self.old.queues }
    {
        let maker = self.caller.id();
        let mut board = enter_board(rt, domain, &mut self.board);
        let _look = board
            .value()
            .lookup(maker, &mut self.reader, service, false);
        let last = leave_board(domain, &mut self.board, board);
        self.caller.saw(last);
    }
}
