// Counts of what failed.
ghost use Rattle.std.specs.Prelude.{◌≤◌};
ghost use Rattle.xa_link.specs.Told.{Rose};

/// One more. The count stands still at its end.
pub fn raise(count: &mut u64)
    ensures later { count.old ≤ count.new }
    ensures rose { Rose count.old count.new }
{
    *count = count.saturating_add(1);
}
