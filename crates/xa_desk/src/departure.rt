// How a worker leaves its desk.
ghost use Rattle.std.specs.Prelude.{◌≡◌, None};
ghost use Rattle.xa_server.specs.xa_cell.Known.{known};
ghost use Rattle.xa_server.specs.xa_caller.declared.phase.Phase.TheVariants as phases;
ghost use Rattle.xa_server.specs.xa_caller.Changes.{LeavesAs, FillsNoMore};
ghost use Rattle.xa_server.specs.xa_caller.Phases.{IsPrepared};
ghost use Rattle.xa_desk.specs.declared.desk.Desk.{Desk as Ended};
ghost use Rattle.xa_desk.specs.Desks.{IsDomain, IsDesk, Leads};
ghost use Rattle.xa_desk.specs.Parting.{IsLeft, FitsStill};

use crate::desk::Desk;
use crate::domain::Domain;
use xa_board::Reader;
use xa_server::caller::{Filling, Left};
use xa_server::held::{BoardNote, QueueNote};
use xa_server::lock::{LockPass, Made};

/// What a worker leaves behind: what its caller does, and its reader and passes.
pub struct Done {
    pub left: Left,
    pub reader: Reader,
    pub board: Option<LockPass<BoardNote>>,
    pub queues: Vec<Option<LockPass<QueueNote<Filling>>>>,
    pub clock: Option<LockPass<Made>>,
}

impl Desk {
    /// Its caller leaves, behind its last call, and gives up what is out: a client notes both.
    pub fn leave(self, domain: &Domain) -> Done
        requires domain { IsDomain domain.now }
        requires desk { IsDesk domain.now self }
        requires idle { self.caller.phase ≡ phases.Idle }
        ensures left { (ended : Ended) × IsLeft result ended × Leads domain.now self ended × LeavesAs self.caller.out result.left.halt ended.caller.work self.caller.work × FitsStill domain.now self ended × (ended.caller.phase ≡ phases.Idle) }
    {
        let Desk {
            caller,
            reader,
            board,
            queues,
            clock,
        } = self;
        let left = caller.leave(&domain.cells);
        Done {
            left,
            reader,
            board,
            queues,
            clock,
        }
    }

    /// Its caller leaves at a halt, and gives up what it waits for. It fills no more cells.
    pub fn abandon(self, domain: &Domain) -> Done
        requires domain { IsDomain domain.now }
        requires desk { IsDesk domain.now self }
        requires out { IsPrepared self.caller.phase → ⊥ }
        ensures left { (ended : Ended) × IsLeft result ended × Leads domain.now self ended × (ended.caller.work ≡ self.caller.work) × (result.left.halt ≡ None)
            × FillsNoMore (known self.caller.seat) (known ended.caller.seat) × (ended.caller.phase ≡ self.caller.phase) }
    {
        let Desk {
            caller,
            reader,
            board,
            queues,
            clock,
        } = self;
        let left = caller.abandon(&domain.cells);
        Done {
            left,
            reader,
            board,
            queues,
            clock,
        }
    }
}
