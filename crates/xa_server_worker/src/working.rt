// A server's worker.
ghost use Rattle.std.specs.Prelude.{◌≡◌, true, IfOk, IfErr, Some, None};
ghost use Rattle.xa_desk.specs.xa_events.declared.event.Doing.TheVariants as doings;
ghost use Rattle.xa_desk.specs.Desks.{IsDomain};
ghost use Rattle.xa_server_worker.specs.Standing.{Goes, IsFree, IsUntried, MayGoOn, HasEnded, OffAs, why_of};
ghost use Rattle.xa_server_worker.specs.Working.{MayServe, HasServed};

use crate::living::{Exchanged, Off};
use crate::retiring::retire;
use crate::taking::next;
use crate::telling::{tell, tell_if};
use std::sync::Wait;
use xa_desk::link::{Gate, Link, Starter};
use xa_desk::pipe::{CutLife, Life};
use xa_desk::server::Served;
use xa_desk::types::{Name, QueueId};
use xa_desk::{Desk, Domain, Monitor, Stopped};

/// A server's worker: its desk, the server with its lives, the server's name and queue, whether its first start is up or
/// given up, the life that went on at a halt, and why it ended before its work was done, if it did.
pub struct ServerWorker<L: Link, T: Starter<L>> {
    pub desk: Desk,
    pub served: Served<L, T>,
    pub name: Name,
    pub queue: QueueId,
    pub counted: bool,
    pub cut: Option<CutLife<L>>,
    pub stopped: Option<Stopped>,
}

impl<L: Link, T: Starter<L>> ServerWorker<L, T> {
    // Serves in one life, to its end.
    fn serve<W: Wait, G: Gate>(
        &mut self,
        monitor: &Monitor<'_, W, G>,
        first: Life<L>,
    ) -> Result<Off, Stopped>
        requires domain { IsDomain monitor.now.domain.now }
        requires free { IsFree monitor.now.domain.now T.shows first self.old }
        ensures goes { Goes monitor.now.domain.now self.old self.new }
        ensures off { IfOk result (λ off. OffAs monitor.now.domain.now T.shows off self.new) }
        ensures halted { IfErr result (λ stopped. HasEnded monitor.now.domain.now T.shows (Some stopped) self.new) }
    {
        let mut life = first;
        for _ in monitor.rt.forever() {
            let slot = &mut self.served.slot;
            match next(monitor, &mut self.desk, slot, self.queue) {
                Ok(true) => {}
                Ok(false) => return self.shut_down(monitor.domain, life),
                Err(stopped) => {
                    self.cut(life);
                    return Err(stopped);
                }
            }
            match self.exchange(monitor, life)? {
                Exchanged::Going(next) => life = next,
                Exchanged::Over(closing) => return Ok(Off::Dead(Some(closing))),
            }
        }
        unreachable!()
    }

    // The server's first start is up or given up.
    fn count_up(&mut self, domain: &Domain)
        ensures rest { self.new ≡ record self.old { counted = self.new.counted } }
        ensures counted { self.new.counted ≡ true }
    {
        if !self.counted {
            self.counted = true;
            domain.count_up();
        }
    }

    // One life, from its start at that tick to its end; a start that fails is one too.
    fn live<W: Wait, G: Gate>(
        &mut self,
        monitor: &Monitor<'_, W, G>,
        tick: u64,
    ) -> Result<Off, Stopped>
        requires domain { IsDomain monitor.now.domain.now }
        requires off { MayGoOn monitor.now.domain.now T.shows tick self.old }
        ensures goes { Goes monitor.now.domain.now self.old self.new }
        ensures off { IfOk result (λ off. OffAs monitor.now.domain.now T.shows off self.new) }
        ensures halted { IfErr result (λ stopped. HasEnded monitor.now.domain.now T.shows (Some stopped) self.new) }
    {
        if monitor.domain.halt.get().is_some() {
            return Err(Stopped::Elsewhere);
        }
        let started = self.desk.start(
            monitor.alloc,
            monitor.domain,
            &mut self.served,
            &self.name,
            tick,
        );
        let life = match started {
            Ok(Some(life)) => life,
            Ok(None) => return Ok(Off::Dead(None)),
            Err(halt) => return Err(Stopped::Here(halt)),
        };
        match life.greet() {
            Ok(life) => {
                self.count_up(monitor.domain);
                self.serve(monitor, life)
            }
            Err(over) => Ok(Off::Dead(Some(self.died(monitor.domain, over)?))),
        }
    }

    // Lives as often as its restart rule allows, by what the clock shows.
    fn live_all<W: Wait, G: Gate>(&mut self, monitor: &Monitor<'_, W, G>) -> Result<(), Stopped>
        requires domain { IsDomain monitor.now.domain.now }
        requires off { IsUntried monitor.now.domain.now T.shows self.old }
        ensures goes { Goes monitor.now.domain.now self.old self.new }
        ensures ended { HasEnded monitor.now.domain.now T.shows (why_of result) self.new }
    {
        let mut tick = self.desk.read_clock(monitor.rt, monitor.domain);
        for _ in monitor.rt.forever() {
            let closing = match self.live(monitor, tick)? {
                Off::Shut => return Ok(()),
                Off::Dead(closing) => closing,
            };
            tick = self.desk.read_clock(monitor.rt, monitor.domain);
            if self.served.slot.may_start(tick) {
                tell_if(monitor, &mut self.desk, closing);
                continue;
            }
            let slot = &mut self.served.slot;
            let retired = retire(monitor, &mut self.desk, slot, self.queue, tick);
            let _rises = self.desk.caller.latest();
            tell_if(monitor, &mut self.desk, closing);
            return retired;
        }
        unreachable!()
    }

    // The request in hand is let go of, if there is one.
    fn let_go<W, G: Gate>(&mut self, monitor: &Monitor<'_, W, G>)
        requires domain { IsDomain monitor.now.domain.now }
        requires ended { HasEnded monitor.now.domain.now T.shows self.old.stopped self.old }
        ensures goes { Goes monitor.now.domain.now self.old self.new }
        ensures ended { HasEnded monitor.now.domain.now T.shows self.new.stopped self.new }
        ensures hand { self.new.served.slot.hand ≡ None }
    {
        if let Some(closing) = self.served.slot.give_up() {
            tell(monitor, &mut self.desk, closing);
        }
    }

    /// Serves until its queue is closed and empty, or the server is given up. Where it comes to a halt it tells the others,
    /// and the request in hand is let go of.
    pub fn work<W: Wait, G: Gate>(&mut self, monitor: &Monitor<'_, W, G>)
        requires domain { IsDomain monitor.now.domain.now }
        requires may { MayServe monitor.now.domain.now T.shows self.old }
        ensures served { HasServed monitor.now.domain.now T.shows self.old self.new }
    {
        self.stopped = self.live_all(monitor).err();
        if let Some(Stopped::Here(halt)) = self.stopped {
            monitor.domain.stop(halt);
        }
        self.let_go(monitor);
        self.count_up(monitor.domain);
    }
}
