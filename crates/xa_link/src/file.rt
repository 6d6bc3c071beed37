// The files of the system.
ghost use Rattle.std.specs.Prelude.{◌≡◌, ◌≤◌, ◌<◌, ◌-◌, length, None, IfOk, OnOk, IsErrOf};
ghost use Rattle.xa_link.specs.Told.{Rose, ReadOut, Grew};
ghost use Rattle.xa_link.specs.Reads.{HasExactly, HasMore, GrewByMore};

use crate::count::raise;
use crate::{ReadSource, Shelf, ShelfRefused, Source};
use std::alloc::Global;
use std::rt::Files;
use std::{fs, io};
use xa_types::Octets;

// How many octets of a file one read asks for.
const PIECE: usize = 4096;

/// The files of the system, by their paths. It tells nothing of them. A path is UTF-8 without a zero octet.
#[derive(Drop)]
pub struct FileShelf<R: Files> {
    rt: R,
    alloc: Global,
    faults: u64,
}

impl<R: Files> FileShelf<R> {
    /// The files of this system, of which no read has failed.
    pub fn new(rt: R, alloc: Global) -> FileShelf<R>
        ensures { (⟦<FileShelf<R> as Shelf>⟧.shows result).faults ≡ 0 }
    {
        FileShelf {
            rt,
            alloc,
            faults: 0,
        }
    }

    fn open(&self, name: &[u8]) -> io::Result<R::File> {
        let Ok(path) = str::from_utf8(name) else {
            return Err(io::Error::from(io::ErrorKind::InvalidInput));
        };
        fs::open(&self.rt, path)
    }

    fn read_file(&self, name: &[u8], limit: u32) -> Result<Octets, ShelfRefused>
        ensures { IfOk result (λ octets. length octets ≤ limit) }
    {
        let Ok(file) = self.open(name) else {
            return Err(ShelfRefused::Failed);
        };
        read_all(self.alloc, &mut ReadSource::new(file), limit as usize).map(Octets::from_vec)
    }
}

/// What a source holds, to its end. `TooLong` comes only where that is more octets than the limit.
pub fn read_all<S: Source>(
    alloc: Global,
    source: &mut S,
    limit: usize,
) -> Result<Vec<u8>, ShelfRefused>
    ensures content { IfOk result (λ all. HasExactly (S.shows source.old).left all.items) }
    ensures given { IfOk result (λ all. Grew (S.shows source.old).gave (S.shows source.new).gave all.items) }
    ensures short { IfOk result (λ all. length all.items ≤ limit) }
    ensures long { IsErrOf result ShelfRefused.TooLong → HasMore (S.shows source.old).left limit }
    ensures over { IsErrOf result ShelfRefused.TooLong → GrewByMore (S.shows source.old).gave (S.shows source.new).gave limit }
    ensures ended { OnOk result (ReadOut (S.shows source.old).left (S.shows source.new).left) }
    ensures alone { (S.shows source.new).beside ≡ (S.shows source.old).beside }
    ensures later { (S.shows source.old).faults ≤ (S.shows source.new).faults }
    ensures cause { IsErrOf result ShelfRefused.Failed → Rose (S.shows source.old).faults (S.shows source.new).faults }
    ensures quiet { (IsErrOf result ShelfRefused.Failed → ⊥) → (S.shows source.new).faults ≡ (S.shows source.old).faults }
{
    let mut all = Vec::new(alloc);
    let mut piece = [0u8; PIECE];
    loop {
        let Ok(n) = source.read(&mut piece) else {
            return Err(ShelfRefused::Failed);
        };
        if n == 0 {
            return Ok(all);
        }
        if n > limit - all.len() {
            return Err(ShelfRefused::TooLong);
        }
        if all.extend_from_slice(&piece[..n]).is_err() {
            return Err(ShelfRefused::NoMemory);
        }
    }
}

impl<R: Files> Shelf for FileShelf<R> {
    ghost shows = { λ s. record { file = λ _. None; asked = None; faults = s.faults } };

    fn read(&mut self, name: &[u8], limit: u32) -> Result<Octets, ShelfRefused> {
        let read = self.read_file(name, limit);
        if let Err(ShelfRefused::Failed) = read {
            raise(&mut self.faults);
        }
        read
    }
}
