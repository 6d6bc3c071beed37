// The pipes of a life.
ghost use Rattle.std.specs.Prelude.{◌≡◌};
ghost use Rattle.xa_link.specs.Links.{LinkShows, as_source, as_sink, killed, closed};

use crate::{Sink, Source};
use std::snapshot::Snapshot;

/// What became of a program: it runs, it was ended by force, or its pipes were closed and it ended by itself.
#[derive(Clone, Copy)]
pub enum Fate {
    Running,
    Killed,
    Closed,
}

/// How a process ended: with that status, or by that signal.
#[derive(Clone, Copy, Debug, PartialEq, Eq)]
pub enum ProcessEnd {
    Status(i32),
    Signal(i32),
}

/// What is left of the pipes of a life that were closed: nothing can be read from it or written to it, and clauses read what
/// the pipes were.
pub struct Closed<L> {
    was: Snapshot<L>,
    end: Option<ProcessEnd>,
}

impl<L> Drop for Closed<L> {
    fn drop(self) {
        let Closed { was: _, end: _ } = self;
    }
}

impl<L> Closed<L> {
    /// What is left of a link that was so, and how its process ended, where that is known.
    pub(crate) fn new(was: Snapshot<L>, end: Option<ProcessEnd>) -> Closed<L>
        ensures was { result.was ≡ was }
        ensures end { result.end ≡ end }
    {
        Closed { was, end }
    }

    /// How its process ended, where that is known.
    pub fn end(&self) -> Option<ProcessEnd>
        ensures { result ≡ self.now.end }
    {
        self.end
    }
}

impl<L: Drop> Closed<L> {
    /// What is left of that link, which is dropped and had no process.
    pub fn of(link: L) -> Closed<L>
        ensures { result.was.value ≡ link }
    {
        let was = Snapshot::of(&link);
        drop(link);
        Closed::new(was, None)
    }
}

/// The two pipes of one life of a server: what the server writes is read from it, and what is written to it the server
/// reads. Each direction leaves the other alone, and the program.
pub trait Link: Source + Sink {
    /// What it shows.
    ghost shows: { Self → LinkShows };

    /// Ends the server's program by force, and waits for it. Nothing else changes.
    fn kill(self) -> Closed<Self>
        ensures { shows result.was.value ≡ killed (shows self) };

    /// Closes both pipes, and waits for the server's program, which ends by itself. Nothing else changes.
    fn close(self) -> Closed<Self>
        ensures { shows result.was.value ≡ closed (shows self) };

    /// What it shows as a source.
    ghost reads: { (link : Self) → Self.Source.shows link ≡ as_source (shows link) };

    /// What it shows as a sink.
    ghost writes: { (link : Self) → Self.Sink.shows link ≡ as_sink (shows link) };
}
