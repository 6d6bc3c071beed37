// A yard in memory.
ghost use Rattle.std.specs.Prelude.{◌≡◌, ◌≤◌, [], ◌∷◌, ◌++◌, All, length, vec_capacity, map, OnOk, OnErr, Some};
ghost use Rattle.xa_link.specs.Lives.{life_of};

use super::MemoryLink;
use crate::count::raise;
use crate::{StartRefused, Starter, Yard};
use std::alloc::Global;
use std::mem;
use xa_types::{Generation, Name, NoMemory, ServerSetup, Setup};

/// Gives the prepared lives of one server.
#[derive(Drop)]
pub struct MemoryStarter {
    server: Name,
    lives: Vec<Option<MemoryLink>>,
    asked: Vec<(Name, Generation)>,
    faults: u64,
}

impl MemoryStarter {
    // The life of that generation, which is given once.
    fn take(&mut self, generation: Generation) -> Option<MemoryLink>
        ensures given { result ≡ life_of self.old.lives.items generation.0 }
        ensures server { self.new.server ≡ self.old.server }
        ensures count { self.new.faults ≡ self.old.faults }
        ensures asked { self.new.asked.items ≡ self.old.asked.items }
    {
        let place = generation.0.checked_sub(1)?;
        self.lives.get_mut(place as usize)?.take()
    }
}

impl Starter<MemoryLink> for MemoryStarter {
    ghost shows = { λ s. record { name = s.server; asked = Some s.asked.items; faults = s.faults } };

    fn server(&self) -> Name {
        self.server
    }

    fn start(&mut self, server: &Name, generation: Generation) -> Result<MemoryLink, StartRefused> {
        if self.asked.push((*server, generation)).is_err() {
            return Err(StartRefused::NoMemory);
        }
        let Some(mut link) = self.take(generation) else {
            raise(&mut self.faults);
            return Err(StartRefused::Failed);
        };
        link.begin(*server, generation);
        Ok(link)
    }
}

/// Prepared lives of the servers. A server beyond the last one has none.
#[derive(Drop)]
pub struct MemoryYard {
    alloc: Global,
    lives: Vec<Vec<Option<MemoryLink>>>,
    asked: Vec<Setup>,
}

impl MemoryYard {
    ghost use Rattle.xa_link.specs.Memory.{yard_lives, yard_asked};

    /// The lives stand by server, in the order of the setup, and then by generation. A start fails where a `None`
    /// stands for it, where it is beyond the last one, and where it is asked for again.
    pub fn new(alloc: Global, lives: Vec<Vec<Option<MemoryLink>>>) -> MemoryYard
        ensures lives { yard_lives result ≡ map (λ server. server.items) lives.items }
        ensures asked { yard_asked result ≡ [] }
    {
        MemoryYard {
            alloc,
            lives,
            asked: Vec::new(alloc),
        }
    }

    // Keeps the setup as the last one that starters were asked for.
    fn keep_asked(&mut self, setup: &Setup) -> Result<(), NoMemory>
        ensures asked { OnOk result (self.new.asked.items ≡ self.old.asked.items ++ setup.now ∷ []) }
        ensures starved { OnErr result (self.new.asked.items ≡ self.old.asked.items) }
    {
        self.asked.reserve(1)?;
        self.asked.push_reserved(setup.copy(self.alloc)?);
        Ok(())
    }

    // Takes the lives of one server. Beyond the last one there are none.
    fn take_lives(&mut self, server: usize) -> Vec<Option<MemoryLink>>
        ensures asked { self.new.asked ≡ self.old.asked }
    {
        let mut lives = Vec::new(self.alloc);
        if server < self.lives.len() {
            mem::swap(&mut self.lives[server], &mut lives);
        }
        lives
    }

    // Adds the starters of these servers, each with its lives.
    fn add_starters(&mut self, servers: &[ServerSetup], all: &mut Vec<MemoryStarter>)
        requires none { all.old.items ≡ [] }
        requires room { length servers.now ≤ vec_capacity all.old }
        ensures each { length all.new.items ≡ length servers.now }
        ensures names { map (λ s. s.server) all.new.items ≡ map (λ server. server.name) servers.now }
        ensures counts { All (λ s. s.faults ≡ 0) all.new.items }
        ensures none { All (λ s. s.asked.items ≡ []) all.new.items }
        ensures asked { self.new.asked ≡ self.old.asked }
    {
        for (i, server) in servers.iter().enumerate() {
            let lives = self.take_lives(i);
            all.push_reserved(MemoryStarter {
                server: server.name,
                lives,
                asked: Vec::new(self.alloc),
                faults: 0,
            });
        }
    }
}

impl Yard for MemoryYard {
    type Line = MemoryLink;

    type Start = MemoryStarter;

    ghost asked = { λ y. Some y.asked.items };

    fn starters(&mut self, setup: &Setup) -> Result<Vec<MemoryStarter>, NoMemory> {
        let servers = setup.servers.slice();
        let mut all = Vec::with_capacity(self.alloc, servers.len())?;
        self.keep_asked(setup)?;
        self.add_starters(servers, &mut all);
        Ok(all)
    }
}
