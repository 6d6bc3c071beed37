// Readers of the board.
ghost use Rattle.std.specs.Prelude.{◌≡◌, ◌≤◌, [], max, length, IfOk};
ghost use Rattle.xa_board.specs.Board.{rows_seen};

use crate::rows::{ROWS, Rows};
use std::alloc::Global;
use std::marker::Model;
use xa_types::{Found, Name, NoMemory, Stamp};

/// Reads the board, and keeps what it found last, in room for 256 rows.
#[derive(Drop)]
pub struct Reader {
    found: Found,
    least: u64,
}

impl Model for Reader {
    ghost use Rattle.std.specs.Prelude.{◌+◌, ◌≤◌, length};
    ghost use Rattle.xa_board.specs.Reader.{Known};

    ghost Value = { Known };

    ghost view = { λ r. record { found = r.found; least = r.least } };

    ghost invariant = { λ r. 256 ≤ length r.found.rows + r.found.room };
}

impl Reader {
    /// A reader that has found no row, by this version.
    pub(crate) fn new(alloc: Global, version: u64, stamp: Stamp) -> Result<Reader, NoMemory>
        ensures version { IfOk result (λ reader. reader.found.version ≡ version) }
        ensures stamp { IfOk result (λ reader. reader.found.stamp ≡ stamp) }
        ensures rows { IfOk result (λ reader. reader.found.rows ≡ []) }
        ensures least { IfOk result (λ reader. reader.least ≡ version) }
    {
        let rows = Vec::with_capacity(alloc, ROWS)?;
        let found = Found {
            version,
            stamp,
            rows,
        };
        Ok(Reader {
            found,
            least: version,
        })
    }

    /// What the last lookup found; before the first one no rows, by the version of the board at that time.
    pub fn found(&self) -> &Found
        ensures { result.now ≡ self.now.found }
    {
        &self.found
    }

    /// From now on no older version is read.
    pub(crate) fn raise(&mut self, version: u64)
        ensures least { self.new.least ≡ max self.old.least version }
        ensures found { self.new.found ≡ self.old.found }
    {
        self.least = self.least.max(version);
    }

    /// Finds the rows of a service among these, by this version.
    pub(crate) fn find(
        &mut self,
        version: u64,
        stamp: Stamp,
        rows: &Rows,
        service: &Name,
        conversational: bool,
    )
        requires { length rows.now ≤ 256 }
        ensures version { self.new.found.version ≡ version }
        ensures stamp { self.new.found.stamp ≡ stamp }
        ensures rows { self.new.found.rows ≡ rows_seen service.now conversational rows.now }
        ensures least { self.new.least ≡ max self.old.least version }
    {
        let found = &mut self.found;
        found.version = version;
        found.stamp = stamp;
        rows.find(service, conversational, &mut found.rows);
        self.least = self.least.max(version);
    }
}
