// How the cells begin and how they end.
ghost use Rattle.std.specs.Prelude.{◌≡◌, ℕ, ◌<◌, ◌≤◌, ◌^◌, [], length, map, IfOk, vec_len, vec_capacity};
ghost use Rattle.std.specs.List.{All};
ghost use Rattle.xa_cell.specs.Dealing.{cells_in};
ghost use Rattle.xa_cell.specs.Gathered.{HasAll, Gathers};
ghost use Rattle.xa_cell.specs.Law.{Answered};
ghost use Rattle.xa_cell.specs.Known.{known, IsSeatOf, IsNew, callers_of};
ghost use Rattle.xa_cell.specs.Places.{IsShut};

use crate::cells::Cells;
use crate::rule;
use crate::tokens::{Seat, TableSeat};
use atomic_table::Table;
use std::alloc::Global;
use xa_types::NoMemory;

// How many cells these are in all.
fn count(limits: &[u32]) -> usize
    requires { cells_in limits.now < 2 ^ 64 }
    ensures { result ≡ cells_in limits.now }
{
    let mut all: usize = 0;
    for &limit in limits {
        all += limit as usize;
    }
    all
}

impl<A> Cells<A> {
    /// Cells for as many callers as there are limits, which are 1 to 129 callers, and a seat for each, in their order.
    /// Its limit, which is 1 to 50, is how many cells the caller owns. No other call takes memory.
    pub fn new(alloc: Global, limits: &[u32]) -> Result<(Cells<A>, Vec<Seat<A>>), NoMemory>
        requires callers { (0 < length limits.now) × (length limits.now ≤ 129) }
        requires each { All (λ n. (0 < n) × (n ≤ 50)) limits.now }
        ensures callers { IfOk result (λ made. callers_of made.0 ≡ length limits.now) }
        ensures table { IfOk result (λ made. All (IsSeatOf made.0) made.1.items) }
        ensures counts { IfOk result (λ made. map (λ s. s.count) made.1.items ≡ limits.now) }
        ensures new { IfOk result (λ made. All (λ s. IsNew s.first s.count (known s)) made.1.items) }
    {
        let all = count(limits);
        let about = Vec::from_slice(alloc, limits)?;
        let words = Vec::from_elem(alloc, 0, all)?;
        let mut seats = Vec::with_capacity(alloc, limits.len())?;
        match Table::vacant(alloc, words.as_slice(), all, &about) {
            Ok((table, whole)) => {
                let cells = Cells { table };
                cells.deal(whole, limits, &mut seats);
                Ok((cells, seats))
            }
            Err(_) => {
                seats.destroy_empty();
                Err(NoMemory)
            }
        }
    }

    // Gives each caller its cells, of the seat that has all of them.
    fn deal(&self, mut whole: TableSeat<A>, limits: &[u32], seats: &mut Vec<Seat<A>>)
        requires whole { HasAll self.now limits.now whole }
        requires some { 0 < length limits.now }
        requires room { (vec_len seats.old ≡ 0) × (length limits.now ≤ vec_capacity seats.old) }
        ensures table { All (IsSeatOf self.now) seats.new.items }
        ensures counts { map (λ s. s.count) seats.new.items ≡ limits.now }
        ensures new { All (λ s. IsNew s.first s.count (known s)) seats.new.items }
    {
        let mut first: usize = 0;
        let last = limits.len() - 1;
        for i in 0..last {
            let inner = self.table.shared.split_seat::<rule::First>(&mut whole);
            let count = limits[i];
            seats.push_reserved(Seat {
                inner,
                first,
                count,
            });
            first += count as usize;
        }
        seats.push_reserved(Seat {
            inner: whole,
            first,
            count: limits[last],
        });
    }

    // Brings the seats together.
    fn gather(&self, mut seats: Vec<Seat<A>>) -> TableSeat<A>
        requires table { All (IsSeatOf self.now) seats.items }
        requires some { 0 < length seats.items }
        ensures table { result.table_id ≡ self.now.table.shared.table_id }
        ensures empty { result.me.1 ≡ [] }
        ensures gathered { Gathers seats.items result.me.0 }
    {
        let Some(last) = seats.pop() else {
            unreachable!()
        };
        let Seat {
            inner: mut all,
            first: _,
            count: _,
        } = last;
        while let Some(next) = seats.pop() {
            let Seat {
                inner,
                first: _,
                count: _,
            } = next;
            self.table.shared.join_seat::<rule::All>(&mut all, inner);
        }
        seats.destroy_empty();
        all
    }

    /// Ends the cells, with the seats of all callers, of which none has an open place. Each answer that was taken is one
    /// that exactly one of them filled, at that place and opening, and none was both filled and given up.
    pub fn close(self, seats: Vec<Seat<A>>)
        requires table { All (IsSeatOf self) seats.items }
        requires all { length seats.items ≡ callers_of self }
        requires shut { All IsShut seats.items }
        ensures answered { (k : ℕ) → Answered k seats.items }
    {
        let all = self.gather(seats);
        let Cells { table } = self;
        let mut closed = table.close_with(all);
        for cell in 0..closed.slot_count() {
            match closed.take(cell) {
                None => {}
                Some(_) => unreachable!(),
            }
        }
        closed.free();
    }
}
