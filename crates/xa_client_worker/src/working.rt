// A client's worker.
ghost use Rattle.std.specs.Prelude.{◌≡◌, ◌<◌, ◌^◌, length, OnOk, IfErr};
ghost use Rattle.xa_desk.specs.Desks.{IsDomain, IsDesk};
ghost use Rattle.xa_desk.specs.Parting.{FitsStill};
ghost use Rattle.xa_calls.specs.Going.{IsStopped};
ghost use Rattle.xa_client_worker.specs.Going.{IsReady, AllCalls};
ghost use Rattle.xa_client_worker.specs.Ending.{FitsBy, GoesThrough, HasEnded, here_by, HasStopped, MayWork, HasWorked, MayEnd, EndsAs, IsBehind, IsStampOf};

use std::mem;
use std::sync::Wait;
use xa_calls::perform;
use xa_desk::link::Gate;
use xa_desk::types::{Op, Stamp};
use xa_desk::work::Halt;
use xa_desk::{Desk, Domain, Done, Monitor, Stopped};

/// What a client leaves behind, and why it ended before its work was done, if it did.
pub struct Ended {
    pub done: Done,
    pub stopped: Option<Stopped>,
}

/// A client: before its work, or behind it.
pub enum ClientWorker {
    Ready(Desk),
    Working,
    Left(Ended),
}

fn perform_all<W: Wait, G: Gate>(
    monitor: &Monitor<'_, W, G>,
    desk: &mut Desk,
    ops: &[Op],
) -> Result<(), Stopped>
    requires domain { IsDomain monitor.now.domain.now }
    requires ready { IsReady monitor.now.domain.now 0 desk.old }
    requires calls { AllCalls ops.now }
    requires few { length ops.now < 2 ^ 32 }
    ensures goes { GoesThrough monitor.now.domain.now ops.now desk.old desk.new }
    ensures made { OnOk result (IsReady monitor.now.domain.now (length ops.now) desk.new) }
    ensures stopped { IfErr result (IsStopped desk.new) }
{
    let mut number = 0u32;
    for op in ops {
        number += 1;
        perform(monitor, desk, number, op)?;
    }
    Ok(())
}

// Why it stopped, where its caller came to a halt as it left.
fn here_by(halt: Option<Halt>) -> Option<Stopped>
    ensures { result ≡ here_by halt }
{
    match halt {
        Some(halt) => Some(Stopped::Here(halt)),
        None => None,
    }
}

// Behind its last call it leaves; at a halt it gives up what it waits for.
fn leave(domain: &Domain, desk: Desk, made: Result<(), Stopped>) -> Ended
    requires domain { IsDomain domain.now }
    requires desk { IsDesk domain.now desk }
    requires ready { OnOk made (IsReady domain.now desk.caller.op desk) }
    requires out { IfErr made (IsStopped desk) }
    ensures ended { HasEnded domain.now (FitsStill domain.now) desk.caller.op desk result }
    ensures stopped { IfErr made (λ stopped. HasStopped stopped desk result) }
{
    let _itself = desk.caller.id();
    match made {
        Ok(()) => {
            let done = desk.leave(domain);
            let stopped = here_by(done.left.halt);
            Ended { done, stopped }
        }
        Err(stopped) => Ended {
            done: desk.abandon(domain),
            stopped: Some(stopped),
        },
    }
}

// Where it came to a halt itself, the others are told.
fn tell(domain: &Domain, stopped: Option<Stopped>) {
    if let Some(Stopped::Here(halt)) = stopped {
        domain.stop(halt);
    }
}

/// Makes all calls of a client, which then leaves. Where it comes to a halt it tells the others.
pub fn client_work<W: Wait, G: Gate>(
    monitor: &Monitor<'_, W, G>,
    mut desk: Desk,
    ops: &[Op],
) -> Ended
    requires domain { IsDomain monitor.now.domain.now }
    requires ready { IsReady monitor.now.domain.now 0 desk }
    requires calls { AllCalls ops.now }
    requires few { length ops.now < 2 ^ 32 }
    ensures ended { HasEnded monitor.now.domain.now (FitsBy monitor.now.domain.now ops.now) (length ops.now) desk result }
{
    let made = perform_all(monitor, &mut desk, ops);
    let ended = leave(monitor.domain, desk, made);
    tell(monitor.domain, ended.stopped);
    ended
}

impl ClientWorker {
    /// Makes all its calls, and leaves.
    pub fn work<W: Wait, G: Gate>(&mut self, monitor: &Monitor<'_, W, G>, ops: &[Op])
        requires domain { IsDomain monitor.now.domain.now }
        requires ready { MayWork monitor.now.domain.now self.old }
        requires calls { AllCalls ops.now }
        requires few { length ops.now < 2 ^ 32 }
        ensures worked { HasWorked monitor.now.domain.now ops.now (length ops.now) self.old self.new }
    {
        match mem::replace(self, ClientWorker::Working) {
            ClientWorker::Ready(desk) => {
                let ended = client_work(monitor, desk, ops);
                match mem::replace(self, ClientWorker::Left(ended)) {
                    ClientWorker::Working => {}
                    _ => unreachable!(),
                }
            }
            _ => unreachable!(),
        }
    }

    /// What it leaves behind; a client that never worked leaves by a halt.
    pub fn end(self, domain: &Domain) -> Ended
        requires domain { IsDomain domain.now }
        requires may { MayEnd domain.now self }
        ensures ends { EndsAs domain.now self result }
    {
        match self {
            ClientWorker::Left(ended) => ended,
            ClientWorker::Ready(desk) => leave(domain, desk, Err(Stopped::Elsewhere)),
            ClientWorker::Working => unreachable!(),
        }
    }

    /// The greatest stamp that it noted or saw, behind its work.
    pub fn stamp(&self) -> Stamp
        requires { IsBehind self.now }
        ensures { IsStampOf self.now result }
    {
        match self {
            ClientWorker::Left(ended) => ended.done.left.work.stamp(),
            _ => unreachable!(),
        }
    }
}
