// What the owner of a cell does: it opens places, looks at them, and takes their answers or gives them up.
ghost use Rattle.std.specs.Prelude.{◌≡◌, IfOk, IfErr};
ghost use Rattle.xa_cell.specs.Changes.{opened, withdrawn};
ghost use Rattle.xa_cell.specs.Places.{IsOpen, HasCome, Opens, Stand, Shuts};
ghost use Rattle.xa_cell.specs.Known.{known, IsSeatOf, IsTicketOf, SameSeat};
ghost use Rattle.xa_cell.specs.Calls.{Began, AllTaken, LookedAs, TookAs, CancelledAs};
ghost use Rattle.xa_cell.specs.Tokens.{IsCaller};
ghost use Rattle.xa_cell.specs.Finding.{Found, IsFree, IsTicketFor};
ghost use Rattle.xa_cell.specs.Growing.{Keeps, TakesMore, CancelTakes};

use crate::cells::Cells;
use crate::rule;
use crate::state::{CANCELLED, FILLED, FREE, NUMBER, PENDING, with_state};
use crate::tokens::{Place, Seat, TableSeat, Ticket};
use crate::view::{Carried, answer_in};
use xa_types::RequestId;

/// All cells of the caller are in use (TPELIMIT). It has their number.
#[derive(Drop)]
pub struct CellsFull(pub u32);

/// What a look found: the answer is still to come, or has come.
#[derive(Drop)]
pub enum Look {
    Pending,
    Come,
}

/// What a cancel came to: the request is still under way, and its answer will be dropped; or the answer had come.
#[derive(Drop)]
pub enum Cancelled<A> {
    Under,
    Came(A),
}

impl<A> Cells<A> {
    // Looks at a caller's cells in order, and gives the first FREE one with its word.
    fn find(&self, seat: &mut TableSeat<A>, first: usize, count: u32) -> Option<(usize, u64)>
        requires table { seat.old.table_id ≡ self.now.table.shared.table_id }
        requires caller { IsCaller first count seat.old.table_id.words seat.old.me.0 }
        ensures seat { (seat.new.table_id ≡ seat.old.table_id) × (seat.new.me.1 ≡ seat.old.me.1) }
        ensures caller { IsCaller first count seat.old.table_id.words seat.new.me.0 }
        ensures found { Found first count seat.old.me.0 seat.new.me.0 result }
        ensures stand { Stand seat.old.me.0 seat.new.me.0 }
    {
        for cell in first..first + count as usize {
            let word = self.table.shared.load::<rule::Look>(seat, cell);
            if word % NUMBER == FREE {
                return Some((cell, word));
            }
        }
        None
    }

    // Opens a FREE cell for a request, and cuts its ticket off.
    fn open(&self, seat: &mut Seat<A>, cell: usize, word: u64, request: RequestId) -> Ticket<A>
        requires table { IsSeatOf self.now seat.old }
        requires free { IsFree cell word seat.old }
        ensures seat { SameSeat self.now seat.old seat.new }
        ensures known { known seat.new ≡ opened cell request (known seat.old) }
        ensures ticket { IsTicketFor self.now cell request seat.old result }
    {
        let said = Some(Carried::Asked(request));
        let pending = word.wrapping_add(NUMBER + PENDING);
        self.table
            .shared
            .compare_exchange_with::<rule::Open>(&mut seat.inner, cell, word, pending, &said);
        match said {
            Some(Carried::Asked(_)) => {}
            _ => unreachable!(),
        }
        let badge = self
            .table
            .shared
            .split_seat::<rule::Tickets>(&mut seat.inner)
            .into_badge();
        Ticket { badge, cell }
    }

    /// Opens a place for a request in the first of the caller's cells that a look of this call finds FREE, and gives its
    /// ticket. `CellsFull` comes exactly where it looked at each of them and found none so.
    pub fn begin(
        &self,
        seat: &mut Seat<A>,
        request: RequestId,
    ) -> Result<(Place, Ticket<A>), CellsFull>
        requires { IsSeatOf self.now seat.old }
        ensures seat { SameSeat self.now seat.old seat.new }
        ensures ok { IfOk result (λ begun. Began self.now request seat.old seat.new begun.0 begun.1) }
        ensures open { IfOk result (λ begun. IsOpen seat.new begun.0 × Opens begun.0.cell request (known seat.old) (known seat.new)) }
        ensures err { IfErr result (λ full. (full.0 ≡ seat.old.count) × AllTaken seat.old seat.new) }
        ensures full { IfErr result (λ full. Stand (known seat.old) (known seat.new)) }
        ensures keeps { Keeps (known seat.old) (known seat.new) }
    {
        match self.find(&mut seat.inner, seat.first, seat.count) {
            Some((cell, word)) => {
                let ticket = self.open(seat, cell, word, request);
                Ok((Place { cell }, ticket))
            }
            None => Err(CellsFull(seat.count)),
        }
    }

    /// Looks whether the answer has come, which the word at one step of this call says.
    pub fn look(&self, seat: &mut Seat<A>, place: &Place) -> Look
        requires table { IsSeatOf self.now seat.old }
        requires place { IsOpen seat.old place.now }
        ensures seat { SameSeat self.now seat.old seat.new }
        ensures known { LookedAs place.now.cell (known seat.old) (known seat.new) result }
        ensures open { Stand (known seat.old) (known seat.new) }
        ensures keeps { Keeps (known seat.old) (known seat.new) }
    {
        let word = self
            .table
            .shared
            .load::<rule::Look>(&mut seat.inner, place.cell);
        if word % NUMBER == FILLED {
            Look::Come
        } else {
            Look::Pending
        }
    }

    /// Takes the answer, which a look found. The cell is FREE then.
    pub fn take(&self, seat: &mut Seat<A>, place: Place) -> A
        requires table { IsSeatOf self.now seat.old }
        requires come { HasCome seat.old place }
        ensures seat { SameSeat self.now seat.old seat.new }
        ensures known { TookAs place.cell result (known seat.old) (known seat.new) }
        ensures shut { Shuts place.cell (known seat.old) (known seat.new) }
        ensures more { TakesMore place.cell result (known seat.old) (known seat.new) }
    {
        let Place { cell } = place;
        self.table.shared.load::<rule::Take>(&mut seat.inner, cell);
        let answer = self.table.shared.exchange(&mut seat.inner, cell, None);
        self.table
            .shared
            .fetch_sub::<rule::Free>(&mut seat.inner, cell, FILLED);
        answer_in(answer)
    }

    /// Gives the place up: a fill that comes later is dropped. Where a fill was first, it has the answer.
    pub fn cancel(&self, seat: &mut Seat<A>, place: Place) -> Cancelled<A>
        requires table { IsSeatOf self.now seat.old }
        requires place { IsOpen seat.old place }
        ensures seat { SameSeat self.now seat.old seat.new }
        ensures known { CancelledAs place.cell (known seat.old) (known seat.new) result }
        ensures shut { Shuts place.cell (known seat.old) (known seat.new) }
        ensures more { CancelTakes place.cell (known seat.old) (known seat.new) result }
    {
        let cell = place.cell;
        let word = self.table.shared.load::<rule::Look>(&mut seat.inner, cell);
        let pending = with_state(word, PENDING);
        let cancelled = with_state(word, CANCELLED);
        let found = self
            .table
            .shared
            .compare_exchange::<rule::Cancel>(&mut seat.inner, cell, pending, cancelled);
        let is_first = found == pending;
        if is_first {
            let Place { cell: _ } = place;
            Cancelled::Under
        } else {
            Cancelled::Came(self.take(seat, place))
        }
    }

    /// Gives a place back with its own ticket, which is not spent: nothing was filled, and the cell is FREE then.
    pub fn withdraw(&self, seat: &mut Seat<A>, place: Place, ticket: Ticket<A>)
        requires table { IsSeatOf self.now seat.old × IsTicketOf self.now ticket }
        requires place { IsOpen seat.old place × (ticket.cell ≡ place.cell) }
        ensures seat { SameSeat self.now seat.old seat.new }
        ensures known { known seat.new ≡ withdrawn place.cell (known seat.old) }
        ensures shut { Shuts place.cell (known seat.old) (known seat.new) }
        ensures keeps { Keeps (known seat.old) (known seat.new) }
    {
        let Place { cell } = place;
        let Ticket { badge, cell: _ } = ticket;
        self.table
            .shared
            .join_seat::<rule::All>(&mut seat.inner, badge.into_seat());
        self.table
            .shared
            .fetch_sub::<rule::Withdraw>(&mut seat.inner, cell, PENDING);
    }
}
