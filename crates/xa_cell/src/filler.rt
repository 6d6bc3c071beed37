// What whoever has the ticket of a cell does: it fills the cell.
ghost use Rattle.xa_cell.specs.Places.{Stand};
ghost use Rattle.xa_cell.specs.Known.{known, IsSeatOf, IsTicketOf, SameSeat};
ghost use Rattle.xa_cell.specs.Calls.{FilledAs};
ghost use Rattle.xa_cell.specs.Growing.{FillAdds};

use crate::cells::Cells;
use crate::rule;
use crate::state::{CANCELLED, FILLED, PENDING, with_state};
use crate::tokens::{Seat, Ticket};
use crate::view::{Carried, answer_in};

/// What became of an answer. It comes back where the place was given up before.
#[derive(Drop)]
pub enum Filled<A> {
    Delivered,
    Dropped(A),
}

impl<A> Cells<A> {
    /// Fills the cell of the ticket, by the seat of the caller that fills. `Dropped` comes exactly where a cancel was
    /// first, and the cell is FREE then.
    pub fn fill(&self, seat: &mut Seat<A>, ticket: Ticket<A>, answer: A) -> Filled<A>
        requires { IsSeatOf self.now seat.old × IsTicketOf self.now ticket }
        ensures seat { SameSeat self.now seat.old seat.new }
        ensures known { FilledAs ticket answer (known seat.old) (known seat.new) result }
        ensures open { Stand (known seat.old) (known seat.new) }
        ensures more { FillAdds ticket answer (known seat.old) (known seat.new) result }
    {
        let Ticket { badge, cell } = ticket;
        self.table
            .shared
            .join_seat::<rule::All>(&mut seat.inner, badge.into_seat());
        let word = self.table.shared.load::<rule::Place>(&mut seat.inner, cell);
        match self
            .table
            .shared
            .exchange(&mut seat.inner, cell, Some(Carried::Answer(answer)))
        {
            None => {}
            Some(_) => unreachable!(),
        }
        let pending = with_state(word, PENDING);
        let filled = with_state(word, FILLED);
        let found = self
            .table
            .shared
            .compare_exchange::<rule::Fill>(&mut seat.inner, cell, pending, filled);
        let is_first = found == pending;
        if is_first {
            return Filled::Delivered;
        }
        let back = self.table.shared.exchange(&mut seat.inner, cell, None);
        self.table
            .shared
            .fetch_sub::<rule::Clear>(&mut seat.inner, cell, CANCELLED);
        Filled::Dropped(answer_in(back))
    }
}
