// What is left of a queue that is ended.
ghost use Rattle.std.specs.Prelude.{◌≡◌, [], ◌∷◌, MatchOption};

use crate::entry::Entry;
use crate::line::Line;
use std::marker::Model;
use xa_stamp::Home;

/// The home of a queue that is ended, and the entries that still wait, as behind a halt.
pub struct Rest<C> {
    pub(crate) home: Home,
    pub(crate) line: Line<C>,
}

impl<C> Model for Rest<C> {
    ghost use Rattle.xa_queue.specs.Changes.{Remains};

    ghost Value = { Remains C };

    ghost view = { λ r. record { first = r.home.first; entries = r.home.entries; waiting = r.line.waiting } };
}

impl<C> Rest<C> {
    /// The oldest entry that still waits, which leaves without an event. It takes no memory.
    pub fn take(&mut self) -> Option<Entry<C>>
        ensures { MatchOption result
            ((self.old.waiting ≡ []) × (self.new ≡ self.old))
            (λ entry. self.old ≡ record self.new { waiting = entry ∷ self.new.waiting }) }
    {
        if self.line.len() == 0 {
            return None;
        }
        Some(self.line.take(true))
    }

    /// The events as they were noted, where nothing waits any more. It takes no memory.
    pub fn home(self) -> Home
        requires { self.waiting ≡ [] }
        ensures first { result.first ≡ self.first }
        ensures entries { result.entries ≡ self.entries }
    {
        let Rest { home, line } = self;
        line.free();
        home
    }
}
