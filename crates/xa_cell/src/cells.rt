// The cells of all callers.
ghost use Rattle.std.specs.Prelude.{◌≡◌, ◌<◌, ◌≤◌, length};
ghost use Rattle.xa_cell.specs.Dealing.{cells_in};

use crate::rule::Cellular;
use crate::view::{Carried, View};
use atomic_table::Table;
use std::alloc::Global;

/// The reply cells of all callers.
pub struct Cells<A> {
    pub(crate) table: Table<Option<Carried<A>>, View<A>, Vec<u32, Global>, Cellular, Global>,
    ghost sized: { (table.shared.table_id.words ≡ cells_in table.shared.key.items) × (table.shared.table_id.slots ≡ cells_in table.shared.key.items) },
    ghost some: { (0 < length table.shared.key.items) × (0 < table.shared.table_id.words) },
    ghost few: { table.shared.table_id.words ≤ 6450 },
}
