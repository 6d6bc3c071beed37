// The steps by which a server's worker clears the board of a queue without servers.
ghost use Rattle.std.specs.Prelude.{◌≡◌, false, true, IfOk, IfErr, OnOk};
ghost use Rattle.xa_server.specs.Told.{HasStamp};
ghost use Rattle.xa_desk.specs.Desks.{IsDomain, IsDesk, Leads};
ghost use Rattle.xa_desk.specs.Serving.{IsDeserted, IsCleared, OfDomain, IsHaltNear, halt_by, seen_by};

use crate::desk::Desk;
use crate::domain::Domain;
use crate::visit::{enter_board, leave_board};
use std::sync::Wait;
use xa_board::BoardRefused;
use xa_server::held::Clearing;
use xa_server::stamp::Noted;
use xa_server::types::{QueueId, Stamp};
use xa_server::work::Halt;

// How it halts where a row that stands isn't withdrawn.
pub(crate) fn halt_by(refused: BoardRefused) -> Halt
    ensures { result ≡ halt_by refused }
{
    match refused {
        BoardRefused::Worn(stamp) => Halt::Worn(stamp),
        _ => Halt::NoMemory,
    }
}

// The stamp that was seen there: the last one, or where stamps came to their end that.
fn seen_by(halt: Halt, last: Stamp) -> Stamp
    ensures { result ≡ seen_by halt last }
{
    match halt {
        Halt::NoMemory => last,
        Halt::Worn(stamp) => stamp,
    }
}

impl Desk {
    // Withdraws the first row of a queue without servers. Answers whether there was one.
    fn clear_one<W: Wait>(&mut self, rt: &W, domain: &Domain, queue: QueueId) -> Result<bool, Halt>
        requires domain { IsDomain domain.now }
        requires desk { IsDesk domain.now self.old }
        requires deserted { IsDeserted domain.now queue.0 self.old }
        requires latest { HasStamp self.old.caller.work.own self.old.caller.work.stamp }
        ensures leads { Leads domain.now self.old self.new }
        ensures deserted { IsDeserted domain.now queue.0 self.new }
        ensures noted { OfDomain self.old self.new }
        ensures clear { IfOk result (λ withdrew. withdrew ≡ false → IsCleared domain.now queue.0 self.new) }
        ensures latest { IfOk result (λ withdrew. withdrew ≡ true → HasStamp self.new.caller.work.own self.new.caller.work.stamp) }
        ensures same { (self.new.queues ≡ self.old.queues) × (self.new.reader ≡ self.old.reader) }
        ensures halted { IfErr result (IsHaltNear self.new) }
    {
        let seen = self.caller.stamp();
        let maker = self.caller.id();
        let mut board = enter_board(rt, domain, &mut self.board);
        let answer = board.value().clear(seen, maker, queue);
        let last = leave_board(domain, &mut self.board, board);
        match answer {
            Ok(Clearing::Withdrew(noted)) => {
                let Noted { stamp, event } = noted;
                self.caller.noted_for_domain(stamp, event);
                Ok(true)
            }
            Ok(Clearing::Clear(look)) => {
                self.caller.saw(look.stamp);
                Ok(false)
            }
            Err(refused) => {
                let halt = halt_by(refused);
                self.caller.saw(seen_by(halt, last));
                Err(halt)
            }
        }
    }

    /// Withdraws each row of a queue without servers, for the domain, where its worker's stamp is that of an event that it noted.
    /// Where it halts, memory ran out or stamps came to their
    /// end, and some rows may stand still.
    pub fn clear<W: Wait>(&mut self, rt: &W, domain: &Domain, queue: QueueId) -> Result<(), Halt>
        requires domain { IsDomain domain.now }
        requires desk { IsDesk domain.now self.old }
        requires deserted { IsDeserted domain.now queue.0 self.old }
        requires latest { HasStamp self.old.caller.work.own self.old.caller.work.stamp }
        ensures leads { Leads domain.now self.old self.new }
        ensures deserted { IsDeserted domain.now queue.0 self.new }
        ensures noted { OfDomain self.old self.new }
        ensures clear { OnOk result (IsCleared domain.now queue.0 self.new) }
        ensures same { (self.new.queues ≡ self.old.queues) × (self.new.reader ≡ self.old.reader) }
        ensures halted { IfErr result (IsHaltNear self.new) }
    {
        for _ in rt.forever() {
            if !self.clear_one(rt, domain, queue)? {
                return Ok(());
            }
        }
        unreachable!()
    }
}
