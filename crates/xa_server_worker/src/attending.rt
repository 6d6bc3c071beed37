// A service at its request: it makes calls, until it returns or forwards.
ghost use Rattle.std.specs.Prelude.{◌≡◌, IfOk, IfErr, Some};
ghost use Rattle.xa_desk.specs.xa_types.declared.call.Op.{Op as Asked};
ghost use Rattle.xa_desk.specs.xa_types.declared.reply.Reply.{Reply as ReplyOf};
ghost use Rattle.xa_desk.specs.xa_events.declared.event.Taken.{Taken};
ghost use Rattle.xa_desk.specs.xa_pipe.declared.turn.Turn.TheVariants.{Serving, Performing};
ghost use Rattle.xa_desk.specs.xa_pipe.Frames.{act_frame, reply_frame};
ghost use Rattle.xa_desk.specs.xa_pipe.Standing.{tag_of};
ghost use Rattle.xa_desk.specs.xa_pipe.Changes.{Heard, Fell, Invoked, Unsent};
ghost use Rattle.xa_desk.specs.Desks.{IsDomain};
ghost use Rattle.xa_server_worker.specs.Attending.{IsReplyTo, is_want, called_out};
ghost use Rattle.xa_server_worker.specs.Standing.{Goes, IsServed, IsCalling, HasEnded, AttendedAs, ExchangedAs};

use crate::living::Exchanged;
use crate::working::ServerWorker;
use std::sync::Wait;
use xa_calls::{Told, perform};
use xa_desk::events::Event;
use xa_desk::link::{Gate, Link, Starter};
use xa_desk::pipe::{Act, Acted, EndedLife, Finish, Life};
use xa_desk::types::{Op, Reply};
use xa_desk::work::Halt;
use xa_desk::{Desk, Monitor, Stopped};

/// How a service goes on with its request: it was told what came of its call, its life ended, or it is done.
pub(crate) enum Attended<L: Link> {
    Going(Life<L>),
    Died(EndedLife<L>),
    Done(Life<L>, Finish),
}

// Whether memory ran out.
fn is_want(stopped: Stopped) -> bool
    ensures { result ≡ is_want stopped }
{
    matches!(stopped, Stopped::Here(Halt::NoMemory))
}

// Tells the service what came of its call. An answer is written from where it stands.
fn reply<L: Link>(desk: &Desk, life: Life<L>, told: Told) -> Result<Life<L>, EndedLife<L>>
    requires turn { life.turn ≡ Performing }
    requires told { (reply : ReplyOf) × IsReplyTo told reply desk.now }
    ensures sent { IfOk result (λ new. (reply : ReplyOf) → IsReplyTo told reply desk.now → Invoked (reply_frame (tag_of life) reply) new life) }
    ensures over { IfErr result (λ over. (reply : ReplyOf) → IsReplyTo told reply desk.now → Unsent (reply_frame (tag_of life) reply) over life) }
{
    match told {
        Told::Done => life.reply(&Reply::Done),
        Told::Fault(fault) => life.reply(&Reply::Fault(fault)),
        Told::Now(_) | Told::Descriptor(_) => unreachable!(),
        Told::Answered(descriptor) => match desk.caller.entries() {
            [.., newest] => match &newest.event {
                Event::Answer(replied) => life.reply_answer(descriptor, &replied.answer),
                _ => unreachable!(),
            },
            [] => unreachable!(),
        },
    }
}

// Hears how the service goes on, whose server made its last call with that number: once that is the last of all it may ask
// for none.
fn hear<L: Link>(life: Life<L>, last: u32) -> Result<Acted<L>, EndedLife<L>>
    requires { life.turn ≡ Serving }
    ensures heard { IfOk result (λ a. Heard (act_frame (tag_of (called_out last life)) a.act) a.life (called_out last life)) }
    ensures over { IfErr result (λ over. Fell over (called_out last life)) }
{
    if last == u32::MAX {
        return life.spend().hear();
    }
    life.hear()
}

impl<L: Link, T: Starter<L>> ServerWorker<L, T> {
    // Makes the call that the service asks for, and tells it what came of that. Where memory runs out before anything was
    // noted the life ends.
    fn call<W: Wait, G: Gate>(
        &mut self,
        monitor: &Monitor<'_, W, G>,
        life: Life<L>,
        op: &Op,
    ) -> Result<Attended<L>, Stopped>
        requires domain { IsDomain monitor.now.domain.now }
        requires calling { (t : Taken) × IsCalling monitor.now.domain.now T.shows op.now t life self.old }
        ensures goes { Goes monitor.now.domain.now self.old self.new }
        ensures attended { IfOk result (λ attended. (t : Taken) × AttendedAs monitor.now.domain.now T.shows t attended self.new) }
        ensures halted { IfErr result (λ stopped. HasEnded monitor.now.domain.now T.shows (Some stopped) self.new) }
    {
        let _before = self.desk.caller.id();
        let number = self.desk.caller.op() + 1;
        let performed = perform(monitor, &mut self.desk, number, op);
        let _behind = self.desk.caller.id();
        match performed {
            Ok(told) => match reply(&self.desk, life, told) {
                Ok(life) => Ok(Attended::Going(life)),
                Err(over) => Ok(Attended::Died(over)),
            },
            Err(stopped) => {
                if is_want(stopped) {
                    return Ok(Attended::Died(life.starve()));
                }
                self.cut(life);
                Err(stopped)
            }
        }
    }

    // Hears how the service goes on, and makes the call that it asks for.
    fn attend_once<W: Wait, G: Gate>(
        &mut self,
        monitor: &Monitor<'_, W, G>,
        life: Life<L>,
    ) -> Result<Attended<L>, Stopped>
        requires domain { IsDomain monitor.now.domain.now }
        requires served { (t : Taken) × IsServed monitor.now.domain.now T.shows Serving t life self.old }
        ensures goes { Goes monitor.now.domain.now self.old self.new }
        ensures attended { IfOk result (λ attended. (t : Taken) × AttendedAs monitor.now.domain.now T.shows t attended self.new) }
        ensures halted { IfErr result (λ stopped. HasEnded monitor.now.domain.now T.shows (Some stopped) self.new) }
    {
        let _itself = self.desk.caller.id();
        let last = self.desk.caller.op();
        match hear(life, last) {
            Ok(Acted { life, act }) => match act {
                Act::Calls(op) => self.call(monitor, life, &op),
                Act::Ends(back) => Ok(Attended::Done(life, back)),
            },
            Err(over) => Ok(Attended::Died(over)),
        }
    }

    // Attends to the service until it returns or forwards, or its life ends.
    pub(crate) fn attend<W: Wait, G: Gate>(
        &mut self,
        monitor: &Monitor<'_, W, G>,
        first: Life<L>,
    ) -> Result<Exchanged<L>, Stopped>
        requires domain { IsDomain monitor.now.domain.now }
        requires served { (t : Taken) × IsServed monitor.now.domain.now T.shows Serving t first self.old }
        ensures goes { Goes monitor.now.domain.now self.old self.new }
        ensures exchanged { IfOk result (λ exchanged. ExchangedAs monitor.now.domain.now T.shows exchanged self.new) }
        ensures halted { IfErr result (λ stopped. HasEnded monitor.now.domain.now T.shows (Some stopped) self.new) }
    {
        let mut life = first;
        for _ in monitor.rt.forever() {
            match self.attend_once(monitor, life)? {
                Attended::Going(next) => life = next,
                Attended::Died(over) => {
                    return Ok(Exchanged::Over(self.died(monitor.domain, over)?));
                }
                Attended::Done(life, back) => return self.finished(monitor, life, back),
            }
        }
        unreachable!()
    }
}
