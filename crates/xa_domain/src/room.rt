// Room for what is handed back, so that no want of memory loses it.
ghost use Rattle.std.specs.Prelude.{◌≡◌, ◌+◌, ◌<◌, ◌^◌, ℕ, [], length, IfOk};
ghost use Rattle.std.specs.List.{All};
ghost use Rattle.xa_domain.specs.Room.{IsEmptyFor, AreNoTokens, HasRoom};

use crate::tokens::{QueuePass, Tokens};
use std::alloc::Global;
use xa_boot::link::Link;
use xa_boot::links::CutLife;
use xa_boot::pipe::EndedLife;
use xa_boot::stamp::Home;
use xa_boot::types::NoMemory;

/// Room for what the workers leave, for all homes and for those of the callers, and by server for its lives, the one that
/// went on at a halt, and its starter.
pub struct Room<L: Link, T> {
    pub tokens: Tokens,
    pub homes: Vec<Home>,
    pub callers: Vec<Home>,
    pub lives: Vec<Vec<EndedLife<L>>>,
    pub cut: Vec<Option<CutLife<L>>>,
    pub starters: Vec<T>,
}

fn passes_for(alloc: Global, queues: usize, workers: usize) -> Result<Vec<Vec<QueuePass>>, NoMemory>
    ensures count { IfOk result (λ all. length all.items ≡ queues) }
    ensures each { IfOk result (λ all. All (IsEmptyFor workers) all.items) }
{
    let mut all = Vec::with_capacity(alloc, queues)?;
    for _ in 0..queues {
        all.push_reserved(Vec::with_capacity(alloc, workers)?);
    }
    Ok(all)
}

impl Tokens {
    fn reserve(alloc: Global, queues: usize, workers: usize) -> Result<Tokens, NoMemory>
        ensures { IfOk result (AreNoTokens queues workers) }
    {
        let boards = Vec::with_capacity(alloc, workers)?;
        let clocks = Vec::with_capacity(alloc, workers)?;
        let queues = passes_for(alloc, queues, workers)?;
        let seats = Vec::with_capacity(alloc, workers)?;
        Ok(Tokens {
            seats,
            boards,
            queues,
            clocks,
        })
    }

    // Lets go of them, where there is none.
    fn free(self)
        requires { self.seats.items ≡ [] }
    {
        let Tokens {
            seats,
            boards: _,
            queues: _,
            clocks: _,
        } = self;
        seats.destroy_empty();
    }
}

impl<L: Link, T> Room<L, T> {
    /// Room for what so many queues, clients and servers leave.
    pub fn reserve(
        alloc: Global,
        queues: usize,
        clients: usize,
        servers: usize,
    ) -> Result<Room<L, T>, NoMemory>
        requires few { queues + clients + servers + 2 < 2 ^ 64 }
        ensures { IfOk result (HasRoom queues clients servers) }
    {
        let homes = Vec::with_capacity(alloc, queues + clients + servers + 2)?;
        let callers = Vec::with_capacity(alloc, clients + servers)?;
        let cut = Vec::with_capacity(alloc, servers)?;
        let tokens = Tokens::reserve(alloc, queues, clients + servers + 1)?;
        let Ok(lives) = Vec::with_capacity(alloc, servers) else {
            tokens.free();
            return Err(NoMemory);
        };
        let Ok(starters) = Vec::with_capacity(alloc, servers) else {
            tokens.free();
            lives.destroy_empty();
            return Err(NoMemory);
        };
        Ok(Room {
            tokens,
            homes,
            callers,
            lives,
            cut,
            starters,
        })
    }

    /// Lets go of room in which nothing stands.
    pub fn free(self)
        requires { (queues : ℕ) × (clients : ℕ) × (servers : ℕ) × HasRoom queues clients servers self }
    {
        let Room {
            tokens,
            homes: _,
            callers: _,
            lives,
            cut: _,
            starters,
        } = self;
        tokens.free();
        lives.destroy_empty();
        starters.destroy_empty();
    }
}
