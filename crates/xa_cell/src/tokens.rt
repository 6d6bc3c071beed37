// What callers hold: seats, places and tickets. None is let go: each ends in a call.
ghost use Rattle.std.specs.Prelude.{◌≡◌, ◌<◌, [], ◌∷◌};
ghost use Rattle.xa_cell.specs.Tokens.{view_of, IsCaller, IsTicket};

use crate::view::{Carried, View};
use atomic_table::Badge;

// A seat of the table.
pub(crate) type TableSeat<A> = atomic_table::Seat<Option<Carried<A>>, View<A>>;

/// The seat of a caller: its right to its own cells, and to fill those of others. It ends in `Cells::close`.
pub struct Seat<A> {
    pub(crate) inner: atomic_table::Seat<Option<Carried<A>>, View<A>>,
    pub(crate) first: usize,
    pub(crate) count: u32,
    ghost empty: { inner.me ≡ (inner.me.0, []) },
    ghost caller: { IsCaller first count inner.table_id.words inner.me.0 },
}

/// An open place, of which its owner's seat knows. It ends in `take`, `cancel` or `withdraw`.
pub struct Place {
    pub(crate) cell: usize,
}

/// The right to fill a cell once. It ends in `fill` or `withdraw`.
pub struct Ticket<A> {
    pub(crate) badge: Badge<View<A>>,
    pub(crate) cell: usize,
    ghost one: { badge.views ≡ view_of badge.views ∷ [] },
    ghost ticket: { IsTicket cell badge.table_id.words (view_of badge.views) },
}
