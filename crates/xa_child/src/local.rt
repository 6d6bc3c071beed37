// Servers' programs in memory.
ghost use Rattle.std.specs.Prelude.{◌≡◌, ◌≤◌, ◌<◌, ◌-◌, ◌+◌, ◌++◌, [], ◌∷◌, ℕ, List, take, drop, length, map, true, false, Some, All, OnOk, OnErr, IfOk};
ghost use Rattle.xa_child.specs.Child.{greeting};
ghost use Rattle.xa_frame.specs.Spelling.{all_spelled};
ghost use Rattle.xa_frame.specs.Stream.{IsPartial};
ghost use Rattle.xa_link.specs.declared.link.Fate.TheVariants.{Running};
ghost use Rattle.xa_link.specs.Told.{Rose};
ghost use Rattle.xa_child.specs.LocalHolds.{Holds, Says};

use crate::child::Child;
use crate::serving::{Serving, spell};
use crate::working::behind;
use std::alloc::Global;
use std::marker::Model;
use xa_frame::{Frame, Reader};
use xa_link::{Closed, Failed, Fate, Link, Sink, Source, StartRefused, Starter, Yard};
use xa_types::{Generation, Name, NoMemory, ServerSetup, Setup};

/// How many octets a write takes at most.
const PIECE: usize = 8192;

/// The two pipes of a server's program in memory. It answers what is written to it within the write, and tells all. A
/// write fails where memory runs out, or with what the program doesn't admit; no later write goes to the program then,
/// as none does once it has ended.
#[derive(Drop)]
pub struct LocalLink {
    name: Name,
    generation: Generation,
    fate: Fate,
    serving: Serving,
    takes: bool,
    taken: Vec<u8>,
    given: Vec<u8>,
    at: usize,
    faults: u64,
}

impl Model for LocalLink {
    ghost use Rattle.std.specs.Prelude.{take, drop};
    ghost use Rattle.xa_child.specs.Local.{LocalTold, IsLocal};

    ghost Value = { LocalTold };

    ghost view = { λ l. record { name = l.name; generation = l.generation; fate = l.fate; took = l.taken.items; gave = take l.at l.given.items; left = drop l.at l.given.items; faults = l.faults } };

    ghost invariant = { IsLocal };
}

// The octets that a program says first.
fn greet(alloc: Global, name: &Name, frames: &[Frame]) -> Result<Vec<u8>, NoMemory>
    requires { frames.now ≡ greeting name.now }
    ensures { IfOk result (λ given. given.items ≡ all_spelled (greeting name.now)) }
{
    // By its clause `named`, READY has a spelling.
    let _ = name.octets();
    let mut given = Vec::new(alloc);
    spell(frames, &mut given)?;
    Ok(given)
}

// Copies as much as there is behind `at` and fits.
fn give(octets: &[u8], at: usize, into: &mut [u8]) -> usize
    requires { at ≤ length octets.now }
    ensures room { result ≤ length into.new }
    ensures there { result ≤ length (drop at octets.now) }
    ensures copied { take result into.new ≡ take result (drop at octets.now) }
    ensures end { result ≡ 0 → 0 < length into.new → drop at octets.now ≡ [] }
{
    let rest = &octets[at..];
    let n = rest.len().min(into.len());
    into[..n].copy_from_slice(&rest[..n]);
    n
}

// What is written to a program that takes more: its answers, and whether it takes more then. Where it is refused,
// nothing was taken or given.
fn answer(
    serving: &mut Serving,
    taken: &mut Vec<u8>,
    given: &mut Vec<u8>,
    octets: &[u8],
) -> Result<bool, Failed>
    requires partial { IsPartial serving.old.reader.rest }
    requires most { length octets.now ≤ 8192 }
    ensures holds { IfOk result (λ more. (name : List ℕ) → Holds name true serving.old taken.old.items given.old.items → Holds name more serving.new taken.new.items given.new.items) }
    ensures took { OnOk result (taken.new.items ≡ taken.old.items ++ octets.now) }
    ensures left { OnErr result (taken.new.items ≡ taken.old.items) }
    ensures longer { (due : List ℕ) × (given.new.items ≡ given.old.items ++ due) }
    ensures same { OnErr result (given.new.items ≡ given.old.items) }
{
    if serving.reader.feed(octets).is_err() {
        return Err(Failed);
    }
    let Ok((halt, due)) = serving.take_all() else {
        return Err(Failed);
    };
    let Ok(more) = behind(halt) else {
        return Err(Failed);
    };
    keep(taken, given, octets, due.as_slice())?;
    Ok(more)
}

// Keeps what was taken and what is given for it, or neither.
fn keep(taken: &mut Vec<u8>, given: &mut Vec<u8>, octets: &[u8], due: &[u8]) -> Result<(), Failed>
    ensures took { OnOk result (taken.new.items ≡ taken.old.items ++ octets.now) }
    ensures gave { OnOk result (given.new.items ≡ given.old.items ++ due.now) }
    ensures left { OnErr result (taken.new.items ≡ taken.old.items) }
    ensures same { OnErr result (given.new.items ≡ given.old.items) }
{
    let before = given.len();
    if given.extend_from_slice(due).is_err() {
        return Err(Failed);
    }
    if taken.extend_from_slice(octets).is_err() {
        given.truncate(before);
        return Err(Failed);
    }
    Ok(())
}

fn raise(count: &mut u64)
    ensures later { count.old ≤ count.new }
    ensures rose { Rose count.old count.new }
{
    *count = count.saturating_add(1);
}

impl LocalLink {
    /// The program of that server as it begins.
    fn start(alloc: Global, name: &Name, generation: Generation) -> Result<LocalLink, NoMemory>
        ensures took { IfOk result (λ link. link.took ≡ []) }
        ensures gave { IfOk result (λ link. link.gave ≡ []) }
        ensures faults { IfOk result (λ link. link.faults ≡ 0) }
        ensures name { IfOk result (λ link. link.name ≡ name.now) }
        ensures generation { IfOk result (λ link. link.generation ≡ generation) }
        ensures runs { IfOk result (λ link. link.fate ≡ Running) }
    {
        let (child, frames) = Child::start(alloc, name)?;
        let given = greet(alloc, name, frames.as_slice())?;
        let serving = Serving {
            alloc,
            child,
            reader: Reader::new(alloc),
        };
        Ok(LocalLink {
            name: *name,
            generation,
            fate: Fate::Running,
            serving,
            takes: true,
            taken: Vec::new(alloc),
            given,
            at: 0,
            faults: 0,
        })
    }

    /// What came from the program and what is still to come is what the program of that server says to the octets
    /// that went to it.
    pub fn says(&self)
        ensures { Says self.now.name self.now.took (self.now.gave ++ self.now.left) }
    {
        let _ = &self.takes;
    }

    fn copy(&mut self, into: &mut [u8]) -> usize
        ensures bound { result ≤ length into.new }
        ensures told { take result into.new ≡ take result self.old.left }
        ensures left { self.new.left ≡ drop result self.old.left }
        ensures gave { self.new.gave ≡ self.old.gave ++ take result into.new }
        ensures moved { result ≤ length self.old.left }
        ensures end { result ≡ 0 → 0 < length into.new → self.old.left ≡ [] }
        ensures took { self.new.took ≡ self.old.took }
        ensures faults { self.new.faults ≡ self.old.faults }
        ensures whose { (self.new.name ≡ self.old.name) × (self.new.generation ≡ self.old.generation) × (self.new.fate ≡ self.old.fate) }
    {
        let n = give(self.given.as_slice(), self.at, into);
        self.at += n;
        n
    }

    fn send(&mut self, octets: &[u8]) -> Result<(), Failed>
        requires { length octets.now ≤ 8192 }
        ensures took { OnOk result (self.new.took ≡ self.old.took ++ octets.now) }
        ensures same { OnErr result (self.new.took ≡ self.old.took) }
        ensures gave { self.new.gave ≡ self.old.gave }
        ensures whose { (self.new.name ≡ self.old.name) × (self.new.generation ≡ self.old.generation) × (self.new.fate ≡ self.old.fate) }
        ensures quiet { OnOk result (self.new.faults ≡ self.old.faults) }
        ensures rose { OnErr result (Rose self.old.faults self.new.faults) }
        ensures later { self.old.faults ≤ self.new.faults }
    {
        if self.takes {
            let sent = answer(&mut self.serving, &mut self.taken, &mut self.given, octets);
            self.takes = sent == Ok(true);
            if sent.is_ok() {
                return Ok(());
            }
        }
        raise(&mut self.faults);
        Err(Failed)
    }
}

impl Source for LocalLink {
    ghost use Rattle.xa_link.specs.Links.{as_source};
    ghost use Rattle.xa_child.specs.Local.{link_shows};

    ghost shows = { λ l. as_source (link_shows l) };

    fn read(&mut self, into: &mut [u8]) -> Result<usize, Failed> {
        Ok(self.copy(into))
    }
}

impl Sink for LocalLink {
    ghost use Rattle.xa_link.specs.Links.{as_sink};
    ghost use Rattle.xa_child.specs.Local.{link_shows};

    ghost shows = { λ l. as_sink (link_shows l) };

    fn write(&mut self, from: &[u8]) -> Result<usize, Failed> {
        let n = from.len().min(PIECE);
        self.send(&from[..n])?;
        Ok(n)
    }
}

impl Link for LocalLink {
    ghost use Rattle.std.specs.Prelude.{refl};
    ghost use Rattle.xa_child.specs.Local.{link_shows};

    ghost shows = { link_shows };

    ghost reads = { λ _. refl };

    ghost writes = { λ _. refl };

    // The program runs only within a write.
    fn kill(mut self) -> Closed<LocalLink> {
        self.fate = Fate::Killed;
        Closed::of(self)
    }

    fn close(mut self) -> Closed<LocalLink> {
        self.fate = Fate::Closed;
        Closed::of(self)
    }
}

/// Starts a server's program in memory, and tells what it was asked for.
#[derive(Drop)]
pub struct LocalStarter {
    alloc: Global,
    server: Name,
    asked: Vec<(Name, Generation)>,
}

impl Starter<LocalLink> for LocalStarter {
    ghost use Rattle.std.specs.Prelude.{Some};

    ghost shows = { λ s. record { name = s.server; asked = Some s.asked.items; faults = 0 } };

    fn server(&self) -> Name {
        self.server
    }

    fn start(&mut self, server: &Name, generation: Generation) -> Result<LocalLink, StartRefused> {
        if self.asked.reserve(1).is_err() {
            return Err(StartRefused::NoMemory);
        }
        let Ok(link) = LocalLink::start(self.alloc, server, generation) else {
            return Err(StartRefused::NoMemory);
        };
        self.asked.push_reserved((*server, generation));
        Ok(link)
    }
}

/// Servers' programs in memory, for any setup. It tells for which it was asked.
#[derive(Drop)]
pub struct LocalYard {
    alloc: Global,
    asked: Vec<Setup>,
}

impl LocalYard {
    ghost use Rattle.xa_child.specs.LocalYard.{yard_asked};

    /// `alloc` is where the memory of the programs comes from.
    pub fn new(alloc: Global) -> LocalYard
        ensures { yard_asked result ≡ [] }
    {
        LocalYard {
            alloc,
            asked: Vec::new(alloc),
        }
    }

    // The starters of these servers.
    fn starters_of(&self, servers: &[ServerSetup]) -> Result<Vec<LocalStarter>, NoMemory>
        ensures each { IfOk result (λ all. length all.items ≡ length servers.now) }
        ensures names { IfOk result (λ all. map (λ s. s.server) all.items ≡ map (λ server. server.name) servers.now) }
        ensures none { IfOk result (λ all. All (λ s. s.asked.items ≡ []) all.items) }
    {
        let mut all = Vec::with_capacity(self.alloc, servers.len())?;
        for server in servers {
            all.push_reserved(LocalStarter {
                alloc: self.alloc,
                server: server.name,
                asked: Vec::new(self.alloc),
            });
        }
        Ok(all)
    }

    // Keeps the setup as the last one that starters were asked for.
    fn keep_asked(&mut self, setup: &Setup) -> Result<(), NoMemory>
        ensures asked { OnOk result (self.new.asked.items ≡ self.old.asked.items ++ setup.now ∷ []) }
        ensures starved { OnErr result (self.new.asked.items ≡ self.old.asked.items) }
    {
        self.asked.reserve(1)?;
        self.asked.push_reserved(setup.copy(self.alloc)?);
        Ok(())
    }
}

impl Yard for LocalYard {
    ghost use Rattle.std.specs.Prelude.{Some};

    type Line = LocalLink;

    type Start = LocalStarter;

    ghost asked = { λ y. Some y.asked.items };

    fn starters(&mut self, setup: &Setup) -> Result<Vec<LocalStarter>, NoMemory> {
        let all = self.starters_of(setup.servers.slice())?;
        self.keep_asked(setup)?;
        Ok(all)
    }
}
