// The slot of a server.
ghost use Rattle.std.specs.Prelude.{◌≡◌, ◌+◌, ◌≤◌, ◌<◌, ◌^◌, ◌∷◌, [], Some, None, IfOk, IfErr, OnErr, IsSome, MatchOption, if◌then◌else◌};
ghost use Rattle.xa_restart.specs.Rule.{may_start_by, IsLast};
ghost use Rattle.xa_caller.specs.xa_events.declared.event.Doing.TheVariants as doings;
ghost use Rattle.xa_caller.specs.xa_worker.Work.{noted, theirs};
ghost use Rattle.xa_caller.specs.declared.phase.Phase.TheVariants as phases;
ghost use Rattle.xa_caller.specs.xa_types.Configured.{is_configured};
ghost use Rattle.xa_caller.specs.xa_types.Kind.{is_sound};
ghost use Rattle.xa_caller.specs.xa_events.declared.event.Outcome.TheVariants.{BadReturn};
ghost use Rattle.xa_caller.specs.xa_events.Conversation.{connections};
ghost use Rattle.xa_caller.specs.xa_events.Finishing.{returned, return_by};
ghost use Rattle.xa_caller.specs.xa_events.Server.{after_end, is_shutdown};
ghost use Rattle.xa_caller.specs.xa_events.Answers.{reply_of};
ghost use Rattle.xa_caller.specs.xa_events.Request.Settlement.{EndedBy, SweptAway};
ghost use Rattle.xa_caller.specs.xa_events.declared.event.Event.TheVariants.{Gone};
ghost use Rattle.xa_server.specs.Doings.{life_in, last_by, outcome_of, is_death, IsAlive, IsBusy, InHand, MayStop};
ghost use Rattle.xa_caller.specs.xa_queue.declared.entry.Entry.{Entry};
ghost use Rattle.xa_caller.specs.Drafts.{Cargo};

use crate::answering::{close, reply_to};
use crate::closing::Closing;
use crate::noting::{note_anew, note_in_room};
use std::alloc::Global;
use std::mem;
use std::snapshot::Snapshot;
use xa_caller::events::{Doing, Ended, Event, Outcome, Started, StopCause, Stopped};
use xa_caller::held::Invocation;
use xa_caller::queue::Entry;
use xa_caller::types::{Answer, Data, Fault, Generation, Rval, ServerId, Stamp, Worn};
use xa_caller::work::Halt;
use xa_caller::{Caller, Cargo};
use xa_restart::Lives;

/// How the request ended that the server ended last, where it has done nothing since.
#[derive(Clone, Copy, PartialEq, Eq)]
pub enum Last {
    Nothing,
    /// By TPSUCCESS, or by a forward that failed.
    Well,
    /// By TPFAIL or TPEXIT, or by data that isn't sound.
    Badly,
    Died,
    Starved,
}

/// A server: when it was started, what it does, the request that it has in hand, and whether it was given up or shut down.
pub struct ServerSlot {
    pub(crate) server: ServerId,
    restarts: Lives,
    made: u64,
    pub(crate) doing: Doing,
    pub(crate) hand: Option<Entry<Cargo>>,
    pub(crate) last: Last,
    gone: bool,
    shut: bool,
}

// The life that the server is in; 0 where it is off.
pub(crate) fn life_in(doing: Doing) -> Generation
    ensures { result ≡ life_in doing }
{
    match doing {
        Doing::Off => Generation(0),
        Doing::Idle(generation) | Doing::Busy(generation, _) | Doing::Dying(generation) => {
            generation
        }
    }
}

fn last_by(outcome: &Outcome) -> Last
    ensures { result ≡ last_by outcome.now }
{
    match outcome {
        Outcome::Returned(..) | Outcome::BadForward(_) => Last::Well,
        Outcome::Failed(..) | Outcome::BadReturn => Last::Badly,
        Outcome::Died => Last::Died,
        Outcome::Starved => Last::Starved,
    }
}

// What the server does once its request ended so.
fn after_end(outcome: &Outcome, generation: Generation) -> Doing
    ensures { result ≡ after_end outcome.now generation }
{
    match outcome {
        Outcome::Died | Outcome::Starved => Doing::Dying(generation),
        Outcome::Returned(..) | Outcome::Failed(..) | Outcome::BadReturn | Outcome::BadForward(_) =>
            { Doing::Idle(generation) }
    }
}

// How a request ends by a return; TPEXIT fails as TPFAIL does.
fn outcome_by(sound: bool, value: Rval, code: i32, payload: Data) -> Outcome
    ensures { result ≡ (if sound then returned value code payload else BadReturn) }
{
    if !sound {
        drop(payload);
        return Outcome::BadReturn;
    }
    match value {
        Rval::Success => Outcome::Returned(code, payload),
        Rval::Fail | Rval::Exit => Outcome::Failed(code, payload),
    }
}

fn outcome_of(cause: &StopCause) -> Outcome
    ensures { result ≡ outcome_of cause.now }
{
    match cause {
        StopCause::Starved => Outcome::Starved,
        _ => Outcome::Died,
    }
}

// What the caller is told of a request whose life ended so.
fn death_reply(cause: &StopCause) -> Answer
    ensures { result ≡ reply_of (EndedBy (outcome_of cause.now)) }
{
    match cause {
        StopCause::Starved => Answer::Error(Fault::NoMemory),
        _ => Answer::Error(Fault::SvcErr),
    }
}

fn is_shutdown(cause: &StopCause) -> bool
    ensures { result ≡ is_shutdown cause.now }
{
    matches!(cause, StopCause::Shutdown)
}

pub(crate) fn take_out(hand: &mut Option<Entry<Cargo>>) -> Entry<Cargo>
    requires { IsSome hand.old }
    ensures was { hand.old ≡ Some result }
    ensures now { hand.new ≡ None }
{
    match mem::replace(hand, None) {
        Some(entry) => entry,
        None => unreachable!(),
    }
}

pub(crate) fn put_in(hand: &mut Option<Entry<Cargo>>, entry: Entry<Cargo>)
    requires { hand.old ≡ None }
    ensures { hand.new ≡ Some entry }
{
    match mem::replace(hand, Some(entry)) {
        None => {}
        Some(_) => unreachable!(),
    }
}

impl ServerSlot {
    ghost use Rattle.std.specs.Prelude.{true, false};
    ghost use Rattle.xa_server.specs.declared.slot.Last.TheVariants as lasts;
    ghost use Rattle.xa_server.specs.Noting.{HaltsWith, IsWorn};
    ghost use Rattle.xa_server.specs.Slot.{Stands};
    ghost use Rattle.xa_server.specs.Changes.{MayStart, Starts, FailsToStart, MayBeGivenUp, IsTakeOf, Ends, Abandons, Finishes, Stops, Dies, DiesBusy, DiesWorn, Invokes, closing_of, new_slot, with_start};

    /// A server that was never started.
    pub fn new(server: ServerId, restarts: Lives) -> ServerSlot
        ensures { result ≡ new_slot server restarts }
    {
        ServerSlot {
            server,
            restarts,
            made: 0,
            doing: Doing::Off,
            hand: None,
            last: Last::Nothing,
            gone: false,
            shut: false,
        }
    }

    /// Its server.
    pub fn server(&self) -> ServerId
        ensures { result ≡ self.now.server }
    {
        self.server
    }

    /// The life that it is in; 0 where it is off.
    pub fn life(&self) -> Generation
        ensures { result ≡ life_in self.now.doing }
    {
        life_in(self.doing)
    }

    /// Whether it may be started at that tick, which is no earlier than its last start.
    pub fn may_start(&self, now: u64) -> bool
        ensures { IsLast now self.now.restarts.starts → result ≡ may_start_by self.now.restarts now }
    {
        self.restarts.may_start(now)
    }

    // Its next life, started at that tick.
    pub(crate) fn next(&self, caller: &Caller, tick: u64) -> Started
        requires { self.now.made ≤ caller.now.work.stamp.0 }
        ensures { result ≡ record { server = self.now.server; generation = record { 0 = self.now.made + 1 }; tick = tick } }
    {
        let _bound = caller.stamp();
        Started {
            server: self.server,
            generation: Generation(self.made + 1),
            tick,
        }
    }

    fn record_start(&mut self, started: &Started)
        requires may { may_start_by self.old.restarts started.now.tick ≡ true }
        requires last { IsLast started.now.tick self.old.restarts.starts }
        requires next { started.now.generation.0 ≡ self.old.made + 1 }
        ensures { self.new ≡ with_start started.now.tick self.old }
    {
        self.restarts.record_start(started.tick);
        self.made = started.generation.0;
        self.last = Last::Nothing;
    }

    /// It was started, by a clock that shows this tick. There is room then for all that its end notes.
    pub fn started(&mut self, caller: &mut Caller, tick: u64) -> Result<Generation, Halt>
        requires stands { Stands self.old caller.old.work }
        requires idle { caller.old.phase ≡ phases.Idle }
        requires may { MayStart tick self.old caller.old.work }
        ensures ok { IfOk result (λ life. Starts tick life self.new self.old caller.new.work caller.old.work) }
        ensures stands { Stands self.new caller.new.work }
        ensures rest { caller.new ≡ record caller.old { work = caller.new.work } }
        ensures halted { IfErr result (HaltsWith 3 caller.new.work caller.old.work) }
        ensures kept { OnErr result (self.new ≡ self.old) }
    {
        let started = self.next(caller, tick);
        note_anew(caller, 3, Event::Start(started))?;
        self.record_start(&started);
        self.doing = Doing::Idle(started.generation);
        Ok(started.generation)
    }

    /// Its start failed, by a clock that shows this tick.
    pub fn start_failed(&mut self, caller: &mut Caller, tick: u64) -> Result<Generation, Halt>
        requires stands { Stands self.old caller.old.work }
        requires idle { caller.old.phase ≡ phases.Idle }
        requires may { MayStart tick self.old caller.old.work }
        ensures ok { IfOk result (λ life. FailsToStart tick life self.new self.old caller.new.work caller.old.work) }
        ensures stands { Stands self.new caller.new.work }
        ensures rest { caller.new ≡ record caller.old { work = caller.new.work } }
        ensures halted { IfErr result (HaltsWith 1 caller.new.work caller.old.work) }
        ensures kept { OnErr result (self.new ≡ self.old) }
    {
        let started = self.next(caller, tick);
        note_anew(caller, 1, Event::StartFailed(started))?;
        self.record_start(&started);
        Ok(started.generation)
    }

    /// It took a request from its queue, with that stamp.
    pub fn begin(
        &mut self,
        caller: &mut Caller,
        entry: Entry<Cargo>,
        stamp: Stamp,
        taken: Snapshot<Event>,
    )
        requires stands { Stands self.old caller.old.work }
        requires idle { caller.old.phase ≡ phases.Idle }
        requires taken { IsTakeOf entry.request taken.value self.old }
        requires later { caller.old.work.stamp.0 < stamp.0 }
        requires bound { stamp.0 ≤ 2 ^ 63 }
        ensures slot { self.new ≡ record self.old { doing = doings.Busy (life_in self.old.doing) entry.request; hand = Some entry; last = lasts.Nothing } }
        ensures noted { caller.new.work ≡ noted (record { stamp = stamp; event = taken.value }) caller.old.work }
        ensures stands { Stands self.new caller.new.work }
        ensures rest { caller.new ≡ record caller.old { work = caller.new.work } }
    {
        caller.noted(stamp, taken);
        self.doing = Doing::Busy(life_in(self.doing), entry.request);
        put_in(&mut self.hand, entry);
        self.last = Last::Nothing;
    }

    /// The request in hand, as it is sent to the child; the child's life gives the number. It takes no memory.
    pub fn invocation(&self) -> &Invocation
        requires stands { InHand self.now.doing self.now.hand }
        requires busy { IsBusy self.now.doing }
        ensures { Invokes self.now.hand result.now }
    {
        match &self.hand {
            Some(entry) => &entry.cargo.invocation,
            None => unreachable!(),
        }
    }

    /// The service returned, with data that is sound or isn't: the request in hand ends, and its caller is to be told. At a
    /// halt it stays in hand.
    pub fn finish_return(
        &mut self,
        alloc: Global,
        caller: &mut Caller,
        sound: bool,
        value: Rval,
        code: i32,
        payload: Data,
    ) -> Result<Closing, Halt>
        requires stands { Stands self.old caller.old.work }
        requires idle { caller.old.phase ≡ phases.Idle }
        requires busy { IsBusy self.old.doing }
        requires configured { is_configured caller.old.work.setup ≡ true }
        requires sound { sound ≡ is_sound caller.old.work.setup payload }
        ensures ok { IfOk result (λ closing. Finishes (return_by caller.old.work.setup (connections caller.old.work.id.0 (theirs caller.old.work)) value code payload) closing self.new self.old caller.new.work caller.old.work) }
        ensures stands { Stands self.new caller.new.work }
        ensures rest { caller.new ≡ record caller.old { work = caller.new.work } }
        ensures halted { IfErr result (HaltsWith 3 caller.new.work caller.old.work) }
        ensures kept { OnErr result (self.new ≡ self.old) }
    {
        let outcome = outcome_by(sound, value, code, payload);
        let Ok(answer) = reply_to(alloc, &outcome) else {
            drop(outcome);
            return Err(Halt::NoMemory);
        };
        let doing = after_end(&outcome, life_in(self.doing));
        let last = last_by(&outcome);
        let ended = self.end_with(outcome);
        let stamp = note_anew(caller, 3, Event::End(ended))?;
        self.doing = doing;
        self.last = last;
        Ok(close(take_out(&mut self.hand), Some(answer), stamp))
    }

    // The end of the request in hand.
    pub(crate) fn end_with(&self, outcome: Outcome) -> Ended
        requires hand { InHand self.now.doing self.now.hand }
        requires busy { IsBusy self.now.doing }
        ensures { (entry : Entry Cargo) → self.now.hand ≡ Some entry → result ≡ record { request = entry.request; server = self.now.server; generation = life_in self.now.doing; outcome = outcome } }
    {
        match self.doing {
            Doing::Busy(generation, request) => Ended {
                request,
                server: self.server,
                generation,
                outcome,
            },
            _ => unreachable!(),
        }
    }

    // The life ends with a request in hand, in room that was made before. The request stays in hand.
    fn lose(&mut self, caller: &mut Caller, cause: StopCause) -> Result<Stamp, Worn>
        requires stands { Stands self.old caller.old.work }
        requires idle { caller.old.phase ≡ phases.Idle }
        requires busy { IsBusy self.old.doing }
        requires death { is_death cause ≡ true }
        ensures ok { IfOk result (λ stamp. Ends (outcome_of cause) stamp self.new self.old caller.new.work caller.old.work) }
        ensures stands { Stands self.new caller.new.work }
        ensures rest { caller.new ≡ record caller.old { work = caller.new.work } }
        ensures worn { IfErr result (λ worn. IsWorn worn caller.old.work) }
        ensures kept { OnErr result ((self.new ≡ self.old) × (caller.new.work ≡ caller.old.work)) }
    {
        let outcome = outcome_of(&cause);
        let doing = Doing::Dying(life_in(self.doing));
        let last = last_by(&outcome);
        let ended = self.end_with(outcome);
        let stamp = note_in_room(caller, Event::End(ended))?;
        self.doing = doing;
        self.last = last;
        Ok(stamp)
    }

    /// Its life ends: it was told to end, or said so by TPEXIT. The room was made before.
    pub fn stopped(&mut self, caller: &mut Caller, cause: StopCause) -> Result<Stamp, Worn>
        requires stands { Stands self.old caller.old.work }
        requires idle { caller.old.phase ≡ phases.Idle }
        requires may { MayStop cause self.old.doing self.old.last }
        requires free { self.old.hand ≡ None }
        ensures ok { IfOk result (λ stamp. Stops cause stamp self.new self.old caller.new.work caller.old.work) }
        ensures stands { Stands self.new caller.new.work }
        ensures rest { caller.new ≡ record caller.old { work = caller.new.work } }
        ensures worn { IfErr result (λ worn. IsWorn worn caller.old.work) }
        ensures kept { OnErr result ((self.new ≡ self.old) × (caller.new.work ≡ caller.old.work)) }
    {
        let stopped = Stopped {
            server: self.server,
            generation: life_in(self.doing),
            cause,
        };
        let stamp = note_in_room(caller, Event::Stop(stopped))?;
        self.doing = Doing::Off;
        self.last = Last::Nothing;
        self.shut = is_shutdown(&cause);
        Ok(stamp)
    }

    /// Its queue gave it up, with that stamp, since no start may be made at that tick.
    pub fn given_up(&mut self, caller: &mut Caller, tick: u64, stamp: Stamp, gone: Snapshot<Event>)
        requires stands { Stands self.old caller.old.work }
        requires idle { caller.old.phase ≡ phases.Idle }
        requires may { MayBeGivenUp tick self.old caller.old.work }
        requires gone { gone.value ≡ Gone self.old.server }
        requires later { caller.old.work.stamp.0 < stamp.0 }
        requires bound { stamp.0 ≤ 2 ^ 63 }
        ensures slot { self.new ≡ record self.old { gone = true } }
        ensures noted { caller.new.work ≡ noted (record { stamp = stamp; event = gone.value }) caller.old.work }
        ensures stands { Stands self.new caller.new.work }
        ensures rest { caller.new ≡ record caller.old { work = caller.new.work } }
    {
        let _at = tick;
        caller.noted(stamp, gone);
        self.gone = true;
    }

    /// What the caller of a request is to be told that was swept from the server's queue with that stamp.
    pub fn swept(&self, entry: Entry<Cargo>, stamp: Stamp) -> Closing
        ensures { result ≡ closing_of entry (Some (reply_of SweptAway)) stamp tt }
    {
        close(entry, Some(Answer::Error(Fault::System)), stamp)
    }

    /// What the caller of the request in hand is to be told at a halt, which is that the run halts; nothing is noted.
    pub fn give_up(&mut self) -> Option<Closing>
        ensures closing { MatchOption result (self.old.hand ≡ None) (Abandons self.old.hand) }
        ensures slot { self.new ≡ record self.old { hand = None } }
    {
        match mem::replace(&mut self.hand, None) {
            Some(entry) => Some(close(entry, None, Stamp(0))),
            None => None,
        }
    }

    /// What the caller of a request that still waits is to be told at a halt.
    pub fn abandon(entry: Entry<Cargo>) -> Closing
        ensures { result ≡ closing_of entry None (record { 0 = 0 }) tt }
    {
        close(entry, None, Stamp(0))
    }

    /// Lets go of it, with nothing in hand.
    pub fn end(self)
        requires { self.hand ≡ None }
    {
        let ServerSlot {
            server: _,
            restarts,
            made: _,
            doing: _,
            hand,
            last: _,
            gone: _,
            shut: _,
        } = self;
        drop(restarts);
        match hand {
            None => {}
            Some(_) => unreachable!(),
        }
    }

    /// The life ends by itself, or for want of memory: a request in hand ends, and then the life, in room that was made
    /// before. Whoever waits for the request is to be told. It takes no memory.
    pub fn died(&mut self, caller: &mut Caller, cause: StopCause) -> Result<Closing, Worn>
        requires stands { Stands self.old caller.old.work }
        requires idle { caller.old.phase ≡ phases.Idle }
        requires alive { IsAlive self.old.doing }
        requires death { is_death cause ≡ true }
        ensures ok { IfOk result (λ closing. Dies cause closing self.new self.old caller.new.work caller.old.work) }
        ensures stands { Stands self.new caller.new.work }
        ensures rest { caller.new ≡ record caller.old { work = caller.new.work } }
        ensures worn { IfErr result (λ worn. DiesWorn cause worn self.new self.old caller.new.work caller.old.work) }
    {
        match self.doing {
            Doing::Busy(..) => self.die_busy(caller, cause),
            _ => {
                let stamp = self.stopped(caller, cause)?;
                Ok(Closing {
                    request: None,
                    ticket: None,
                    answer: None,
                    stamp,
                })
            }
        }
    }

    fn die_busy(&mut self, caller: &mut Caller, cause: StopCause) -> Result<Closing, Worn>
        requires stands { Stands self.old caller.old.work }
        requires idle { caller.old.phase ≡ phases.Idle }
        requires busy { IsBusy self.old.doing }
        requires death { is_death cause ≡ true }
        ensures ok { IfOk result (λ closing. DiesBusy cause closing self.new self.old caller.new.work caller.old.work) }
        ensures stands { Stands self.new caller.new.work }
        ensures rest { caller.new ≡ record caller.old { work = caller.new.work } }
        ensures worn { IfErr result (λ worn. DiesWorn cause worn self.new self.old caller.new.work caller.old.work) }
    {
        let stamp = self.lose(caller, cause)?;
        let entry = take_out(&mut self.hand);
        match self.stopped(caller, cause) {
            Ok(_) => Ok(close(entry, Some(death_reply(&cause)), stamp)),
            Err(worn) => {
                put_in(&mut self.hand, entry);
                Err(worn)
            }
        }
    }
}
