// A life of a server.
ghost use Rattle.std.specs.Prelude.{◌≡◌, IfOk, IfErr, IfSome, Some, None};
ghost use Rattle.xa_desk.specs.xa_types.declared.stamp.Stamp.{Stamp};
ghost use Rattle.xa_desk.specs.xa_events.Cases.{IsShut};
ghost use Rattle.xa_desk.specs.xa_events.Server.{is_shutdown};
ghost use Rattle.xa_desk.specs.xa_events.declared.event.Doing.TheVariants as doings;
ghost use Rattle.xa_desk.specs.xa_pipe.declared.turn.Turn.TheVariants.{AwaitsNext, Exited};
ghost use Rattle.xa_desk.specs.xa_pipe.Standing.{IsSound, cut_short};
ghost use Rattle.xa_desk.specs.xa_pipe.declared.hearing.Finish.TheVariants.{Returns, Forwards};
ghost use Rattle.xa_desk.specs.xa_server.declared.slot.Last.TheVariants as lasts;
ghost use Rattle.xa_desk.specs.xa_events.declared.event.Taken.{Taken};
ghost use Rattle.xa_desk.specs.Serving.{IsToTell};
ghost use Rattle.xa_desk.specs.Desks.{IsDomain};
ghost use Rattle.xa_desk.specs.Found.{SawAtQueue};
ghost use Rattle.xa_server_worker.specs.Behind.{ToldBefore};
ghost use Rattle.xa_server_worker.specs.Steps.{is_exit};
ghost use Rattle.xa_server_worker.specs.Standing.{Goes, IsIn, IsFree, HasTaken, HasFinished, MayDie, HasEnded, OverWith, ExchangedAs, OffAs};

use crate::passing::forward;
use crate::telling::{tell, tell_if};
use crate::working::ServerWorker;
use std::sync::Wait;
use xa_desk::events::StopCause;
use xa_desk::link::{Gate, Link, Starter};
use xa_desk::pipe::{EndedLife, Finish, Forward, Life, Return};
use xa_desk::server::Closing;
use xa_desk::types::Rval;
use xa_desk::{Domain, Monitor, Stopped};

/// What comes of a life: it goes on, or is over, and then its last request may have to be answered.
pub(crate) enum Exchanged<L: Link> {
    Going(Life<L>),
    Over(Closing),
}

/// How a life came to its end: its queue was closed, or it died or left, and then a request may have to be answered.
pub(crate) enum Off {
    Shut,
    Dead(Option<Closing>),
}

fn is_exit(value: Rval) -> bool
    ensures { result ≡ is_exit value }
{
    matches!(value, Rval::Exit)
}

fn is_shutdown(cause: StopCause) -> bool
    ensures { result ≡ is_shutdown cause }
{
    matches!(cause, StopCause::Shutdown)
}

impl<L: Link, T: Starter<L>> ServerWorker<L, T> {
    // The life isn't gone on with.
    pub(crate) fn cut(&mut self, life: Life<L>)
        ensures rest { self.new ≡ record self.old { cut = Some (cut_short life) } }
        ensures sound { IsSound life }
    {
        let _turn = life.turn();
        self.cut = Some(life.abandon());
    }

    // The life ended by itself.
    pub(crate) fn died(&mut self, domain: &Domain, over: EndedLife<L>) -> Result<Closing, Stopped>
        requires domain { IsDomain domain.now }
        requires may { MayDie domain.now T.shows over self.old }
        ensures goes { Goes domain.now self.old self.new }
        ensures over { IfOk result (λ closing. OverWith domain.now T.shows (Some closing) self.new) }
        ensures halted { IfErr result (λ stopped. HasEnded domain.now T.shows (Some stopped) self.new) }
    {
        let cause = over.cause();
        self.served.keep(over);
        Ok(self.desk.die(domain, &mut self.served.slot, cause)?)
    }

    // The service returned with TPEXIT, which ends the life.
    fn exit<W, G: Gate>(
        &mut self,
        monitor: &Monitor<'_, W, G>,
        life: Life<L>,
        closing: Closing,
    ) -> Result<Closing, Stopped>
        requires domain { IsDomain monitor.now.domain.now }
        requires life { IsIn monitor.now.domain.now T.shows (doings.Idle life.generation) Exited 0 life self.old }
        requires last { self.old.served.slot.last ≡ lasts.Badly }
        requires untold { ToldBefore self.old.desk }
        requires told { IsToTell monitor.now.domain.now self.old.desk closing }
        ensures goes { Goes monitor.now.domain.now self.old self.new }
        ensures over { IfOk result (λ closing. OverWith monitor.now.domain.now T.shows (Some closing) self.new) }
        ensures halted { IfErr result (λ stopped. HasEnded monitor.now.domain.now T.shows (Some stopped) self.new) }
    {
        let over = life.exit();
        let _cause = over.cause();
        self.served.keep(over);
        match self
            .desk
            .stop(monitor.domain, &mut self.served.slot, StopCause::Exit)
        {
            Ok(_) => {
                let _rises = self.desk.caller.latest();
                Ok(closing)
            }
            Err(worn) => {
                tell(monitor, &mut self.desk, closing);
                Err(worn.into())
            }
        }
    }

    // The service returned.
    fn returned<W, G: Gate>(
        &mut self,
        monitor: &Monitor<'_, W, G>,
        life: Life<L>,
        back: Return,
    ) -> Result<Exchanged<L>, Stopped>
        requires domain { IsDomain monitor.now.domain.now }
        requires finished { (t : Taken) × HasFinished monitor.now.domain.now T.shows t (Returns back) life self.old }
        ensures goes { Goes monitor.now.domain.now self.old self.new }
        ensures exchanged { IfOk result (λ exchanged. ExchangedAs monitor.now.domain.now T.shows exchanged self.new) }
        ensures halted { IfErr result (λ stopped. HasEnded monitor.now.domain.now T.shows (Some stopped) self.new) }
    {
        let exits = is_exit(back.value);
        let finished = self
            .desk
            .finish(monitor.alloc, monitor.domain, &mut self.served.slot, back);
        let closing = match finished {
            Ok(closing) => closing,
            Err(halt) => {
                self.cut(life);
                return Err(Stopped::Here(halt));
            }
        };
        if exits {
            return Ok(Exchanged::Over(self.exit(monitor, life, closing)?));
        }
        self.go_on(monitor, life, Some(closing))
    }

    // The service forwards its request.
    fn forwarded<W: Wait, G: Gate>(
        &mut self,
        monitor: &Monitor<'_, W, G>,
        life: Life<L>,
        forwards: Forward,
    ) -> Result<Exchanged<L>, Stopped>
        requires domain { IsDomain monitor.now.domain.now }
        requires finished { (t : Taken) × HasFinished monitor.now.domain.now T.shows t (Forwards forwards) life self.old }
        ensures goes { Goes monitor.now.domain.now self.old self.new }
        ensures exchanged { IfOk result (λ exchanged. ExchangedAs monitor.now.domain.now T.shows exchanged self.new) }
        ensures halted { IfErr result (λ stopped. HasEnded monitor.now.domain.now T.shows (Some stopped) self.new) }
    {
        let slot = &mut self.served.slot;
        match forward(monitor, &mut self.desk, slot, forwards) {
            Ok(closing) => self.go_on(monitor, life, closing),
            Err(halt) => {
                self.cut(life);
                Err(Stopped::Here(halt))
            }
        }
    }

    // The server is idle, behind a request of which somebody may have to be told.
    fn go_on<W, G: Gate>(
        &mut self,
        monitor: &Monitor<'_, W, G>,
        life: Life<L>,
        closing: Option<Closing>,
    ) -> Result<Exchanged<L>, Stopped>
        requires domain { IsDomain monitor.now.domain.now }
        requires life { IsIn monitor.now.domain.now T.shows (doings.Idle life.generation) AwaitsNext 0 life self.old }
        requires told { IfSome closing (IsToTell monitor.now.domain.now self.old.desk) }
        ensures goes { Goes monitor.now.domain.now self.old self.new }
        ensures exchanged { IfOk result (λ exchanged. ExchangedAs monitor.now.domain.now T.shows exchanged self.new) }
        ensures halted { IfErr result (λ stopped. HasEnded monitor.now.domain.now T.shows (Some stopped) self.new) }
    {
        tell_if(monitor, &mut self.desk, closing);
        match life.read_next() {
            Ok(life) => Ok(Exchanged::Going(life)),
            Err(over) => Ok(Exchanged::Over(self.died(monitor.domain, over)?)),
        }
    }

    // The service is done with its request.
    pub(crate) fn finished<W: Wait, G: Gate>(
        &mut self,
        monitor: &Monitor<'_, W, G>,
        life: Life<L>,
        back: Finish,
    ) -> Result<Exchanged<L>, Stopped>
        requires domain { IsDomain monitor.now.domain.now }
        requires finished { (t : Taken) × HasFinished monitor.now.domain.now T.shows t back life self.old }
        ensures goes { Goes monitor.now.domain.now self.old self.new }
        ensures exchanged { IfOk result (λ exchanged. ExchangedAs monitor.now.domain.now T.shows exchanged self.new) }
        ensures halted { IfErr result (λ stopped. HasEnded monitor.now.domain.now T.shows (Some stopped) self.new) }
    {
        match back {
            Finish::Returns(back) => self.returned(monitor, life, back),
            Finish::Forwards(forwards) => self.forwarded(monitor, life, forwards),
        }
    }

    // Hands the request in hand to the program, and attends to its service.
    pub(crate) fn exchange<W: Wait, G: Gate>(
        &mut self,
        monitor: &Monitor<'_, W, G>,
        life: Life<L>,
    ) -> Result<Exchanged<L>, Stopped>
        requires domain { IsDomain monitor.now.domain.now }
        requires taken { HasTaken monitor.now.domain.now T.shows life self.old }
        ensures goes { Goes monitor.now.domain.now self.old self.new }
        ensures exchanged { IfOk result (λ exchanged. ExchangedAs monitor.now.domain.now T.shows exchanged self.new) }
        ensures halted { IfErr result (λ stopped. HasEnded monitor.now.domain.now T.shows (Some stopped) self.new) }
    {
        let asked = self.served.slot.invocation();
        match life.send(&asked.service, &asked.routine, &asked.payload) {
            Ok(life) => self.attend(monitor, life),
            Err(over) => Ok(Exchanged::Over(self.died(monitor.domain, over)?)),
        }
    }

    // Its program is told to end.
    pub(crate) fn shut_down(&mut self, domain: &Domain, life: Life<L>) -> Result<Off, Stopped>
        requires domain { IsDomain domain.now }
        requires free { IsFree domain.now T.shows life self.old }
        requires shut { SawAtQueue domain.now self.old.queue.0 self.old.desk (IsShut domain.now.setup self.old.queue.0) }
        ensures goes { Goes domain.now self.old self.new }
        ensures off { IfOk result (λ off. OffAs domain.now T.shows off self.new) }
        ensures halted { IfErr result (λ stopped. HasEnded domain.now T.shows (Some stopped) self.new) }
    {
        let over = life.shut_down();
        if !is_shutdown(over.cause()) {
            return Ok(Off::Dead(Some(self.died(domain, over)?)));
        }
        self.served.keep(over);
        self.desk
            .stop(domain, &mut self.served.slot, StopCause::Shutdown)?;
        Ok(Off::Shut)
    }
}
