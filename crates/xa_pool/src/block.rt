// A block and its octets.
ghost use Rattle.std.specs.Prelude.{◌≡◌, ◌<◌, ◌≤◌, [], length, IfOk, OnOk, OnErr};

use std::alloc::Global;
use std::marker::Model;
use xa_types::NoMemory;

/// For so many octets a block has room.
pub(crate) const ROOM: usize = 65_536;

/// These are more than 65,536 octets. The block is as it was.
#[derive(Clone, Copy, Debug, PartialEq, Eq)]
pub struct TooLong;

/// Room for 65,536 octets, and the octets that are in it, which contracts see as a list.
#[derive(Drop)]
pub struct Block {
    octets: Vec<u8>,
}

impl Model for Block {
    ghost use Rattle.std.specs.Prelude.{ℕ, List, ◌≤◌, vec_capacity};

    ghost Value = { List ℕ };

    ghost view = { λ b. b.octets.items };

    ghost invariant = { λ b. 65536 ≤ vec_capacity b.octets };
}

impl Block {
    // A block without octets.
    pub(crate) fn new(alloc: Global) -> Result<Block, NoMemory>
        ensures { IfOk result (λ block. block ≡ []) }
    {
        let octets = Vec::with_capacity(alloc, ROOM)?;
        Ok(Block { octets })
    }

    // Takes the octets out.
    pub(crate) fn clear(&mut self)
        ensures { self.new ≡ [] }
    {
        self.octets.clear();
    }

    /// Puts these octets into the block, in place of those that are in it. It takes no memory.
    pub fn fill(&mut self, octets: &[u8]) -> Result<(), TooLong>
        ensures ok { OnOk result ((length octets.now ≤ 65536) × (self.new ≡ octets.now)) }
        ensures err { OnErr result ((65536 < length octets.now) × (self.new ≡ self.old)) }
    {
        if octets.len() > ROOM {
            return Err(TooLong);
        }
        self.octets.clear();
        for &octet in octets {
            self.octets.push_reserved(octet);
        }
        Ok(())
    }

    /// The octets that are in the block.
    pub fn octets(&self) -> &[u8]
        ensures { result.now ≡ self.now }
    {
        self.octets.as_slice()
    }
}
