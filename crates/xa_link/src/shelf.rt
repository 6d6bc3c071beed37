// Named files.
ghost use Rattle.std.specs.Prelude.{◌≡◌, ◌≤◌, ◌<◌, length, IfOk, IsErrOf};
ghost use Rattle.xa_link.specs.Told.{Rose};
ghost use Rattle.xa_link.specs.Reads.{Holds, HoldsMore};
ghost use Rattle.xa_link.specs.Starts.{AsksFile, ShelfShows};

use thiserror::Error;
use xa_types::Octets;

/// Why a file, or a whole source, was not read. `Failed` raised the count; it comes also where there is no such file.
/// `TooLong` comes only where there are more octets than the limit.
#[derive(Clone, Copy, Debug, PartialEq, Eq, Error)]
pub enum ShelfRefused {
    #[error("Failed")]
    Failed,
    #[error("TooLong")]
    TooLong,
    #[error("NoMemory")]
    NoMemory,
}

/// Has named files.
pub trait Shelf {
    /// What it shows. Its count stands still at 2^64 - 1, and it was not asked for a file that memory ran out for.
    ghost shows: { Self → ShelfShows };

    /// The whole file of that name, of at most `limit` octets.
    fn read(&mut self, name: &[u8], limit: u32) -> Result<Octets, ShelfRefused>
        ensures content { IfOk result (λ octets. Holds ((shows self.old).file name.now) octets) }
        ensures short { IfOk result (λ octets. length octets ≤ limit) }
        ensures long { IsErrOf result ShelfRefused.TooLong → HoldsMore ((shows self.old).file name.now) limit }
        ensures kept { (shows self.new).file ≡ (shows self.old).file }
        ensures asked { (IsErrOf result ShelfRefused.NoMemory → ⊥) → AsksFile (shows self.old).asked (shows self.new).asked name.now }
        ensures starved { IsErrOf result ShelfRefused.NoMemory → (shows self.new).asked ≡ (shows self.old).asked }

        ensures later { (shows self.old).faults ≤ (shows self.new).faults }
        ensures cause { IsErrOf result ShelfRefused.Failed → Rose (shows self.old).faults (shows self.new).faults }
        ensures quiet { (IsErrOf result ShelfRefused.Failed → ⊥) → (shows self.new).faults ≡ (shows self.old).faults };
}
