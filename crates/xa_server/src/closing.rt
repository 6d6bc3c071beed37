// The end of a request, which its caller has to be told.
ghost use Rattle.std.specs.Prelude.{◌≡◌, ◌≤◌, IfSome};
ghost use Rattle.xa_caller.specs.xa_stamp.Home.{last_stamp};
ghost use Rattle.xa_caller.specs.xa_worker.Crew.{no_stamp};
ghost use Rattle.xa_caller.specs.Sound.{IsSoundAnswer};
ghost use Rattle.xa_caller.specs.xa_cell.Known.{known, IsSeatOf, IsTicketOf, SameSeat};

use xa_caller::cell::{Cells, Filled, Ticket};
use xa_caller::types::{Answer, RequestId, Stamp};
use xa_caller::{Caller, Filling};

/// A request that ended, what its caller is to be told, and the stamp of the event by which it ended: it ends in `give`. There
/// is no answer where the run halts, and neither request nor ticket where a life ended with nothing in hand. An answer has a
/// spelling.
pub struct Closing {
    pub request: Option<RequestId>,
    pub ticket: Option<Ticket<Filling>>,
    pub answer: Option<Answer>,
    pub stamp: Stamp,
    pub ghost sound: { ∥ IsSoundAnswer answer ∥₁ },
}

/// What became of an answer: it came to its caller, its caller had given its place up, or nobody waits for one.
#[derive(Clone, Copy, Debug, PartialEq, Eq)]
pub enum Given {
    Delivered,
    Dropped,
    Nothing,
}

impl Closing {
    ghost use Rattle.xa_server.specs.Told.{GivenAs};

    /// The request that ended, if one did.
    pub fn request(&self) -> Option<RequestId>
        ensures { result ≡ self.now.request }
    {
        self.request
    }

    /// Fills the cell of the caller, or drops the answer where its place was given up. The filling has the stamp of the last
    /// event that the worker noted, so whoever is told finds all that the worker noted. It takes no memory.
    pub fn give(self, caller: &mut Caller, cells: &Cells<Filling>) -> Given
        requires cells { IsSeatOf cells.now caller.old.seat × IfSome self.ticket (IsTicketOf cells.now) }
        requires later { self.stamp.0 ≤ last_stamp no_stamp caller.old.work.own }
        ensures cells { SameSeat cells.now caller.old.seat caller.new.seat }
        ensures given { GivenAs self (record { 0 = last_stamp no_stamp caller.old.work.own }) (known caller.old.seat) (known caller.new.seat) result }
        ensures caller { caller.new ≡ record caller.old { seat = caller.new.seat } }
    {
        let Closing {
            request: _,
            ticket,
            answer,
            stamp: _,
        } = self;
        let Some(ticket) = ticket else {
            return Given::Nothing;
        };
        let stamp = caller.latest();
        match caller.fill(cells, ticket, Filling { answer, stamp }) {
            Filled::Delivered => Given::Delivered,
            Filled::Dropped(_) => Given::Dropped,
        }
    }
}
