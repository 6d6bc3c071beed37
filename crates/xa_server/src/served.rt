// A server's slot with what starts it and the lives that ended.
ghost use Rattle.std.specs.Prelude.{◌≡◌, ◌<◌, ◌++◌, ◌∷◌, [], IfOk, IfErr, OnOk, OnErr, vec_len, vec_capacity};
ghost use Rattle.xa_caller.specs.declared.phase.Phase.TheVariants as phases;
ghost use Rattle.xa_link.specs.Starts.{AsksFor};
ghost use Rattle.xa_server.specs.Slot.{Stands};
ghost use Rattle.xa_server.specs.Changes.{MayStart, next_life};
ghost use Rattle.xa_server.specs.Served.{Tries, Counts, Halts};

use crate::slot::ServerSlot;
use std::alloc::Global;
use xa_caller::Caller;
use xa_caller::types::Name;
use xa_caller::work::Halt;
use xa_link::{Link, StartRefused, Starter};
use xa_pipe::{EndedLife, Life};

/// A server's slot, what starts the server, and its lives that ended, in the order of their generations.
pub struct Served<L: Link, T: Starter<L>> {
    pub slot: ServerSlot,
    pub starter: T,
    pub lives: Vec<EndedLife<L>>,
}

impl<L: Link, T: Starter<L>> Served<L, T> {
    /// A server of which no life ended.
    pub fn new(alloc: Global, slot: ServerSlot, starter: T) -> Served<L, T>
        ensures slot { result.slot ≡ slot }
        ensures starter { result.starter ≡ starter }
        ensures lives { result.lives.items ≡ [] }
    {
        Served {
            slot,
            starter,
            lives: Vec::new(alloc),
        }
    }

    /// Starts the next life, by a clock that shows this tick, and answers it, or none where the start failed. There is
    /// room then to keep it once it ended. At a halt nothing is noted, and a program that was started is ended by force.
    pub fn start(
        &mut self,
        alloc: Global,
        caller: &mut Caller,
        name: &Name,
        tick: u64,
    ) -> Result<Option<Life<L>>, Halt>
        requires own { name.now ≡ (T.shows self.old.starter).name }
        requires stands { Stands self.old.slot caller.old.work }
        requires idle { caller.old.phase ≡ phases.Idle }
        requires may { MayStart tick self.old.slot caller.old.work }
        ensures tried { IfOk result (λ life. Tries name.now tick life self.new.slot self.old.slot caller.new.work caller.old.work) }
        ensures counted { IfOk result (λ life. Counts life (T.shows self.old.starter).faults (T.shows self.new.starter).faults) }
        ensures asked { OnOk result (AsksFor (T.shows self.old.starter).asked (T.shows self.new.starter).asked name.now (next_life self.old.slot)) }
        ensures same { (T.shows self.new.starter).name ≡ (T.shows self.old.starter).name }
        ensures stands { Stands self.new.slot caller.new.work }
        ensures rest { caller.new ≡ record caller.old { work = caller.new.work } }
        ensures lives { self.new.lives.items ≡ self.old.lives.items }
        ensures room { OnOk result (vec_len self.new.lives < vec_capacity self.new.lives) }
        ensures halted { IfErr result (Halts name.now (next_life self.old.slot) (T.shows self.new.starter) (T.shows self.old.starter) caller.new.work caller.old.work) }
        ensures kept { OnErr result (self.new.slot ≡ self.old.slot) }
    {
        if self.lives.reserve(1).is_err() {
            return Err(Halt::NoMemory);
        }
        let next = self.slot.next(caller, tick);
        match self.starter.start(name, next.generation) {
            Ok(link) => match self.slot.started(caller, tick) {
                Ok(generation) => {
                    let life = Life::new(alloc, link, *name, next.server, generation);
                    Ok(Some(life))
                }
                Err(halt) => {
                    drop(link.kill());
                    Err(halt)
                }
            },
            Err(StartRefused::Failed) => {
                self.slot.start_failed(caller, tick)?;
                Ok(None)
            }
            Err(StartRefused::NoMemory) => Err(Halt::NoMemory),
        }
    }

    /// Keeps a life that ended, in the room that its start made. It takes no memory.
    pub fn keep(&mut self, ended: EndedLife<L>)
        requires room { vec_len self.old.lives < vec_capacity self.old.lives }
        ensures lives { self.new.lives.items ≡ self.old.lives.items ++ ended ∷ [] }
        ensures slot { self.new.slot ≡ self.old.slot }
        ensures starter { self.new.starter ≡ self.old.starter }
    {
        self.lives.push_reserved(ended);
    }
}
