// The starts of a server, as far as the rule asks for them.
ghost use Rattle.std.specs.Prelude.{◌≡◌, ◌∷◌, true, [], vec_capacity, IfOk};
ghost use Rattle.std.specs.List.{filter, count_by};
ghost use Rattle.xa_restart.specs.Within.{is_within};
ghost use Rattle.xa_restart.specs.Rule.{may_start_by, IsLast};

use http_server::Log;
use std::alloc::Global;
use std::marker::Model;
use xa_types::NoMemory;

/// The lives of a server: by which rule it is restarted, and when it was started. Contracts see every start ever made; kept
/// are those alone that can still count.
#[derive(Drop)]
pub struct Lives {
    restart: bool,
    maxgen: u8,
    grace: u32,
    recent: Vec<u64>,
    made: Log<u64, ()>,
}

impl Model for Lives {
    ghost use Rattle.xa_restart.specs.Rule.{RestartState};

    ghost Value = { RestartState };

    ghost use Rattle.xa_restart.specs.Kept.{standing_of, IsKept};

    ghost view = { standing_of };

    ghost invariant = { IsKept };
}

fn is_within(start: u64, now: u64, grace: u32) -> bool
    ensures { result ≡ is_within grace now start }
{
    now.saturating_sub(start) < u64::from(grace)
}

// How many of these starts lie within GRACE.
fn lately(starts: &[u64], now: u64, grace: u32) -> usize
    ensures { result ≡ count_by (is_within grace now) starts.now }
{
    starts
        .iter()
        .filter(|start| is_within(**start, now, grace))
        .count()
}

// Lets go of the starts that lie behind GRACE: no tick comes at which they count.
fn forget(starts: &mut Vec<u64>, now: u64, grace: u32)
    ensures kept { starts.new.items ≡ filter (is_within grace now) starts.old.items }
    ensures capacity { vec_capacity starts.new ≡ vec_capacity starts.old }
{
    starts.retain(|start| is_within(*start, now, grace));
}

impl Lives {
    /// A server that was never started, with the room for all starts that may lie within GRACE.
    pub fn new(alloc: Global, restart: bool, maxgen: u8, grace: u32) -> Result<Lives, NoMemory>
        ensures { IfOk result (λ lives. lives ≡ record { restart = restart; maxgen = maxgen; grace = grace; starts = [] }) }
    {
        let recent = Vec::with_capacity(alloc, usize::from(maxgen.max(1)))?;
        Ok(Lives {
            restart,
            maxgen,
            grace,
            recent,
            made: Log::new(),
        })
    }

    /// Whether the server may be started at that tick, which is no earlier than its last start: where it was never started,
    /// or RESTART is set and fewer than MAXGEN of its starts lie within GRACE.
    pub fn may_start(&self, now: u64) -> bool
        ensures { IsLast now self.now.starts → result ≡ may_start_by self.now now }
    {
        self.recent.is_empty()
            || self.restart && lately(&self.recent, now, self.grace) < usize::from(self.maxgen)
    }

    /// It was started at that tick. It takes no memory.
    pub fn record_start(&mut self, now: u64)
        requires may { may_start_by self.old now ≡ true }
        requires last { IsLast now self.old.starts }
        ensures { self.new ≡ record self.old { starts = now ∷ self.old.starts } }
    {
        forget(&mut self.recent, now, self.grace);
        self.recent.push_reserved(now);
        self.made = self.made.and(&now, &());
    }
}
