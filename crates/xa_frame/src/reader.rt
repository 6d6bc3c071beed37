ghost use Rattle.std.specs.Prelude.{◌≡◌, ◌+◌, ◌-◌, ◌<◌, ◌≤◌, drop, ◌^◌, ◌++◌, [], length, ℕ, List, OnOk, OnErr, MatchResult};
ghost use Rattle.xa_frame.specs.declared.frame.Frame.{Frame};
ghost use Rattle.xa_frame.specs.Stream.{IsPartial, IsMalformed, Begins};
ghost use Rattle.xa_frame.specs.Reader.{Answered};

use crate::frame::Frame;
use crate::reading::frame_after;
use std::alloc::Global;
use std::marker::Model;
use xa_types::NoMemory;

/// Why a reader gives no frame.
#[derive(Clone, Copy, Debug, PartialEq, Eq)]
pub enum NextRefused {
    /// What stands at this place is no frame. The place counts the octets of the frames before it.
    BadFrame(u64),
    NoMemory,
}

/// Reads frames from a stream of octets that comes in pieces.
#[derive(Drop)]
pub struct Reader {
    alloc: Global,
    octets: Vec<u8>,
    taken: usize,
    place: u64,
}

impl Model for Reader {
    ghost use Rattle.std.specs.Prelude.{drop, length, ◌≤◌, ◌<◌, ◌-◌, ◌^◌};
    ghost use Rattle.xa_frame.specs.Reader.{Incoming};

    ghost Value = { Incoming };

    ghost view = { λ r. record { place = r.place; rest = drop r.taken r.octets.items } };

    ghost invariant = { λ r. (r.taken ≤ length r.octets.items) × (length r.octets.items - r.taken < 2 ^ 32) };
}

// Lets go of the octets before that place.
fn forget(octets: &mut Vec<u8>, taken: usize)
    requires { taken ≤ length octets.old.items }
    ensures { octets.new.items ≡ drop taken octets.old.items }
{
    let rest = octets.len() - taken;
    octets.copy_within(taken.., 0);
    octets.truncate(rest);
}

impl Reader {
    /// A reader to which nothing was fed.
    pub fn new(alloc: Global) -> Reader
        ensures { result ≡ record { place = 0; rest = [] } }
    {
        Reader {
            alloc,
            octets: Vec::new(alloc),
            taken: 0,
            place: 0,
        }
    }

    /// Takes the next piece of the stream. Fewer than 2^32 octets may be pending then. Where memory runs out, the reader
    /// is as it was.
    pub fn feed(&mut self, octets: &[u8]) -> Result<(), NoMemory>
        requires { length self.old.rest + length octets.now < 2 ^ 32 }
        ensures place { self.new.place ≡ self.old.place }
        ensures ok { OnOk result (self.new.rest ≡ self.old.rest ++ octets.now) }
        ensures err { OnErr result (self.new.rest ≡ self.old.rest) }
    {
        // No more octets are moved than were taken.
        if self.taken >= self.octets.len() - self.taken {
            forget(&mut self.octets, self.taken);
            self.taken = 0;
        }
        self.octets.extend_from_slice(octets)?;
        Ok(())
    }

    /// How many octets the frames had that were taken, at most 2^64 - 1.
    pub fn place(&self) -> u64
        ensures { result ≡ self.now.place }
    {
        self.place
    }

    /// How many octets were fed and are not taken.
    pub fn pending(&self) -> u32
        ensures { result ≡ length self.now.rest }
    {
        (self.octets.len() - self.taken) as u32
    }

    fn answer(&mut self) -> Result<Option<Frame>, NextRefused>
        ensures { Answered self.old self.new result }
    {
        let mut size = 0;
        let found = frame_after(self.alloc, &self.octets, self.taken, self.place, &mut size);
        self.taken += size;
        self.place = self.place.saturating_add(size as u64);
        found
    }

    /// The next frame, which is taken; `None` where it isn't whole, for which a look at the header is enough. `BadFrame`
    /// comes where no frame stands, and by `malformed_for_ever` again at each later call. After an `Err` or `None` the
    /// reader is as it was, and memory runs out only where a frame stands.
    pub fn next(&mut self) -> Result<Option<Frame>, NextRefused>
        ensures answered { Answered self.old self.new result }
        ensures partial { IsPartial self.old.rest → result ≡ Ok None }
        ensures malformed { IsMalformed self.old.rest → result ≡ Err (NextRefused.BadFrame self.old.place) }
        ensures whole { (f : Frame) (more : List ℕ) → Begins self.old.rest f more → MatchResult result (λ found. found ≡ Some f) (λ why. why ≡ NextRefused.NoMemory) }
    {
        self.answer()
    }
}
