// Where octets come from.
ghost use Rattle.std.specs.Prelude.{◌≡◌, ◌≤◌, ◌<◌, take, length, IfOk, OnErr, OnOk, IsErr};
ghost use Rattle.xa_link.specs.Links.{SourceShows};
ghost use Rattle.xa_link.specs.Told.{Rose, Grew, Shrank, Empty};

use thiserror::Error;

/// A read or a write failed, and the count of it rose.
#[derive(Clone, Copy, Debug, PartialEq, Eq, Error)]
#[error("Failed")]
pub struct Failed;

/// Gives octets, such as a pipe's end or standard input.
pub trait Source {
    /// What it shows. Its count stands still at 2^64 - 1.
    ghost shows: { Self → SourceShows };

    /// Fills the front of the piece with the next octets, and answers how many they are. 0 for a piece that isn't
    /// empty is the end. Where it fails, nothing was given.
    fn read(&mut self, into: &mut [u8]) -> Result<usize, Failed>
        ensures bound { IfOk result (λ n. n ≤ length into.new) }
        ensures told { IfOk result (λ n. Shrank (shows self.old).left (shows self.new).left (take n into.new)) }
        ensures given { IfOk result (λ n. Grew (shows self.old).gave (shows self.new).gave (take n into.new)) }
        ensures end { result ≡ Ok 0 → 0 < length into.new → Empty (shows self.old).left }
        ensures kept { OnErr result ((shows self.new).left ≡ (shows self.old).left) }
        ensures same { OnErr result ((shows self.new).gave ≡ (shows self.old).gave) }

        ensures alone { (shows self.new).beside ≡ (shows self.old).beside }
        ensures later { (shows self.old).faults ≤ (shows self.new).faults }
        ensures cause { IsErr result → Rose (shows self.old).faults (shows self.new).faults }
        ensures quiet { OnOk result ((shows self.new).faults ≡ (shows self.old).faults) };
}
