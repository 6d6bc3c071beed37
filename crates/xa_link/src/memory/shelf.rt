// A shelf in memory.
ghost use Rattle.std.specs.Prelude.{◌≡◌, ◌≤◌, [], Some, IfOk, IsErrOf, length, option_copied};
ghost use Rattle.xa_link.specs.Files.{file_named};
ghost use Rattle.xa_link.specs.Reads.{HoldsMore};

use crate::count::raise;
use crate::{Shelf, ShelfRefused};
use std::alloc::Global;
use xa_types::Octets;

/// Has prepared files, and tells all.
#[derive(Drop)]
pub struct MemoryShelf {
    files: Vec<(Octets, Octets)>,
    fails: Vec<u64>,
    asked: Vec<Octets>,
    calls: u64,
    faults: u64,
}

impl MemoryShelf {
    ghost use Rattle.xa_link.specs.Memory.{shelf_files, shelf_asked, shelf_faults};

    /// Each file is its name and its octets; of two with one name the first is read. `fails` has the numbers, from 1,
    /// of the reads that fail.
    pub fn new(files: Vec<(Octets, Octets)>, fails: Vec<u64>) -> MemoryShelf
        ensures files { shelf_files result ≡ files.items }
        ensures asked { shelf_asked result ≡ [] }
        ensures count { shelf_faults result ≡ 0 }
    {
        let asked = Vec::new(*files.allocator());
        MemoryShelf {
            files,
            fails,
            asked,
            calls: 0,
            faults: 0,
        }
    }

    fn read_file(&self, name: &[u8], limit: u32) -> Result<Octets, ShelfRefused>
        ensures content { IfOk result (λ octets. file_named (shelf_files self.now) name.now ≡ Some octets) }
        ensures short { IfOk result (λ octets. length octets ≤ limit) }
        ensures long { IsErrOf result ShelfRefused.TooLong → HoldsMore (Some (file_named (shelf_files self.now) name.now)) limit }
    {
        if self.fails.contains(&self.calls) {
            return Err(ShelfRefused::Failed);
        }
        let Some(octets) = find_file(self.files.as_slice(), name) else {
            return Err(ShelfRefused::Failed);
        };
        if octets.slice().len() > limit as usize {
            return Err(ShelfRefused::TooLong);
        }
        let alloc = *self.files.allocator();
        octets.copy(alloc).map_err(|_| ShelfRefused::NoMemory)
    }
}

fn find_file<'a>(files: &'a [(Octets, Octets)], name: &[u8]) -> Option<&'a Octets>
    ensures { option_copied result ≡ file_named files.now name.now }
{
    let (_, octets) = files.iter().find(|file| file.0.slice() == name)?;
    Some(octets)
}

impl Shelf for MemoryShelf {
    ghost use Rattle.std.specs.Prelude.{Some};
    ghost use Rattle.xa_link.specs.Files.{file_named};
    ghost use Rattle.xa_link.specs.Memory.{shelf_files, shelf_asked, shelf_faults};

    ghost shows = { λ s. record { file = λ name. Some (file_named (shelf_files s) name); asked = Some (shelf_asked s); faults = shelf_faults s } };

    fn read(&mut self, name: &[u8], limit: u32) -> Result<Octets, ShelfRefused> {
        if self.asked.reserve(1).is_err() {
            return Err(ShelfRefused::NoMemory);
        }
        let Ok(asked) = Octets::of(*self.asked.allocator(), name) else {
            return Err(ShelfRefused::NoMemory);
        };
        self.calls = self.calls.saturating_add(1);
        let read = self.read_file(name, limit);
        if let Err(ShelfRefused::Failed) = read {
            raise(&mut self.faults);
        }
        if !matches!(read, Err(ShelfRefused::NoMemory)) {
            self.asked.push_reserved(asked);
        }
        read
    }
}
