// Whether an event may come next, by kind and by part.
ghost use Rattle.std.specs.Prelude.{◌≡◌, ◌⊎◌, ◌+◌, ◌≤◌, [], ℕ, Option, Some, true, ◌==◌, ◌&&◌};
ghost use Rattle.std.specs.Bool.{Decides};
ghost use Rattle.std.specs.List.{list_all};
ghost use Rattle.xa_types.specs.Setup.{queue_of};
ghost use Rattle.xa_events.specs.declared.event.Doing.TheVariants.{Off, Idle, Busy, Dying};
ghost use Rattle.xa_events.specs.declared.event.StopCause.TheVariants.{Shutdown};
ghost use Rattle.xa_events.specs.Words.{has};
ghost use Rattle.xa_events.specs.Caller.{open_descriptors, last_op, just_accepted, may_give_up};
ghost use Rattle.xa_events.specs.Conversation.{connections};
ghost use Rattle.xa_events.specs.declared.event.Outcome.{Outcome as Ending};
ghost use Rattle.xa_events.specs.declared.event.Event.TheVariants.{End, Answer, Take, Sweep, Gone, Close, Tick, Start, StartFailed, Stop, Cancel, Lapse, NotYet, Leave, Break, Priority};
ghost use Rattle.xa_events.specs.Board.{boot, published};
ghost use Rattle.xa_events.specs.Caller.{AllLeft, version_of, least_version};
ghost use Rattle.xa_events.specs.Answers.{IsAnswerTo};
ghost use Rattle.xa_events.specs.Request.{WasSettled};
ghost use Rattle.xa_events.specs.Server.{AllGone};
ghost use Rattle.xa_events.specs.Cases.{Case};
ghost use Rattle.xa_machine.specs.Parts.{IsNextStart, IsAlive, IsLapseOp};
ghost use Rattle.xa_events.specs.Cases.{TakeHome, TakeWorker, SweepHome, GoneHome, GoneWorker, CloseHome, TickHome, TickWorker, StartWorker, EndWorker, EndBefore, StopWorker, IsShut, AnswerWorker, CancelWorker, LooksAt, NotYetWorker, IsDue, WereShown, LapseWorker, PriorityWorker, LeaveWorker, BreakWorker, IsNextCall, EntryHome, may_end_so, is_return, idle_stops, dying_stops};
ghost use Rattle.xa_machine.specs.Reads.{last_as};

use crate::called::version_of;
use crate::ending::was_settled;
use crate::machine::{Machine, is_client};
use crate::served::{Last, is_shutdown};
use crate::setups::{capacity_of, may_start};
use crate::words::{has, is_none};
use xa_events::{
    Broken, Cancelled, Doing, Ended, Event, Lapsed, Outcome, Prioritized, Replied, Started,
    StopCause, Stopped, Swept, Taken, Ticked, Unready,
};
use xa_route::queue_of;
use xa_types::{CallerId, Generation, QueueId, RequestId, ServerId};

pub fn is_off(doing: Doing) -> bool
    ensures { Decides result (doing ≡ Off) }
{
    matches!(doing, Doing::Off)
}

pub fn is_idle(doing: Doing, generation: Generation) -> bool
    ensures { Decides result (doing ≡ Idle generation) }
{
    match doing {
        Doing::Idle(in_it) => in_it == generation,
        _ => false,
    }
}

pub fn is_dying(doing: Doing, generation: Generation) -> bool
    ensures { Decides result (doing ≡ Dying generation) }
{
    match doing {
        Doing::Dying(in_it) => in_it == generation,
        _ => false,
    }
}

pub fn is_busy_with(doing: Doing, generation: Generation, request: RequestId) -> bool
    ensures { Decides result (doing ≡ Busy generation request) }
{
    match doing {
        Doing::Busy(in_it, held) => in_it == generation && held == request,
        _ => false,
    }
}

/// Whether a server that is idle may stop with that cause.
fn idle_stops(cause: StopCause, last: Last) -> bool
    ensures { (outcome : Option Ending) → last ≡ last_as outcome → result ≡ idle_stops cause outcome }
{
    match cause {
        StopCause::Exit => matches!(last, Last::Badly),
        _ => true,
    }
}

/// Whether a server that dies may stop with that cause.
fn dying_stops(cause: StopCause, last: Last) -> bool
    ensures { (outcome : Option Ending) → last ≡ last_as outcome → result ≡ dying_stops cause outcome }
{
    match last {
        Last::Died => matches!(
            cause,
            StopCause::EndOfInput
                | StopCause::ReadFault
                | StopCause::WriteFault
                | StopCause::BadBytes(_)
                | StopCause::OutOfTurn(..)
        ),
        Last::Starved => matches!(cause, StopCause::Starved),
        _ => false,
    }
}

// Whether each of the requests is the caller's own, and open.
fn all_open(caller: CallerId, ready: &[RequestId], requests: &[RequestId]) -> bool
    ensures { result ≡ list_all (λ request. (request.caller.0 == caller.0) && has request ready.now) requests.now }
{
    requests.iter().all(|request| request.caller.0 == caller.0 && has(*request, ready))
}

fn is_return(outcome: &Outcome) -> bool
    ensures { result ≡ is_return outcome.now }
{
    matches!(outcome, Outcome::Returned(..) | Outcome::Failed(..))
}

impl Machine {
    pub(crate) fn admits_take_home(&self, t: &Taken) -> bool
        ensures { Decides result (TakeHome self.now.setup t.now self.now.past) }
    {
        let queue = self.queue(queue_of(&self.setup, t.server).0);
        !queue.down && 0 < t.k && t.k - 1 == queue.takes && has(t.request, &queue.waiting)
    }

    pub(crate) fn has_nothing(&self, caller: u32) -> bool
        ensures { Decides result ((open_descriptors caller self.now.past ≡ []) × (connections caller self.now.past ≡ [])) }
    {
        let row = self.caller(caller);
        is_none(&row.descriptors) && is_none(&row.connections)
    }

    pub(crate) fn of_server(&self, server: ServerId) -> u32
        ensures { result ≡ self.now.clients + server.0 }
    {
        u32::from(self.clients) + u32::from(server.0)
    }

    pub(crate) fn admits_take_worker(&self, t: &Taken) -> bool
        ensures { Decides result (TakeWorker self.now.clients t.now self.now.past) }
    {
        is_idle(self.server(t.server.0).doing, t.generation)
            && self.has_nothing(self.of_server(t.server))
    }

    pub(crate) fn admits_sweep_home(&self, x: &Swept) -> bool
        ensures { Decides result (SweepHome self.now.setup x.now self.now.past) }
    {
        let queue = self.queue(x.queue.0);
        queue.down && queue.waiting.first() == Some(&x.request)
    }

    pub(crate) fn admits_gone_home(&self, server: ServerId) -> bool
        ensures { Decides result (GoneHome self.now.setup server.0 self.now.past) }
    {
        0 < queue_of(&self.setup, server).0 && !self.server(server.0).gone
    }

    pub(crate) fn admits_gone_worker(&self, server: ServerId) -> bool
        ensures { Decides result (GoneWorker self.now.setup self.now.clients server.0 self.now.past) }
    {
        let row = self.server(server.0);
        let floor = self.caller(self.of_server(server)).tick;
        is_off(row.doing) && !row.shut && !may_start(&self.setup, server, &row.starts, floor)
    }

    pub(crate) fn admits_close_home(&self, queue: QueueId) -> bool
        ensures { Decides result (CloseHome self.now.setup queue.0 self.now.past) }
    {
        0 < capacity_of(&self.setup, queue.0) && !self.queue(queue.0).closed
    }

    pub(crate) fn admits_entry(&self, queue: QueueId) -> bool
        ensures { Decides result (EntryHome self.now.setup queue.0 self.now.past) }
    {
        let row = self.queue(queue.0);
        !row.down && !row.closed && row.waiting.len() < capacity_of(&self.setup, queue.0) as usize
    }

    pub(crate) fn admits_tick_home(&self, t: &Ticked) -> bool
        ensures { Decides result (TickHome t.entry.now self.now.past) }
    {
        let now = self.now();
        now <= t.now && t.now - now <= 4_294_967_295 && t.now <= 1 << 62
    }

    pub(crate) fn admits_tick_worker(&self, t: &Ticked) -> bool
        ensures { Decides result (TickWorker self.now.clients t.entry.now self.now.past) }
    {
        self.admits_call(t.by, t.op) && is_client(self.clients, t.by)
    }

    fn admits_next_start(&self, b: &Started) -> bool
        ensures { Decides result (IsNextStart self.now.clients b.now self.now.past) }
    {
        let row = self.server(b.server.0);
        0 < b.generation.0
            && b.generation.0 - 1 == row.starts.len() as u64
            && self.caller(self.of_server(b.server)).tick <= b.tick
    }

    pub(crate) fn admits_start_worker(&self, b: &Started) -> bool
        ensures { Decides result (StartWorker self.now.setup self.now.clients b.now self.now.past) }
    {
        let row = self.server(b.server.0);
        is_off(row.doing)
            && !row.gone
            && !row.shut
            && self.admits_next_start(b)
            && may_start(&self.setup, b.server, &row.starts, b.tick)
    }

    fn is_alive(&self, x: &Stopped) -> bool
        ensures { Decides result (IsAlive x.now self.now.past) }
    {
        let row = self.server(x.server.0);
        is_idle(row.doing, x.generation) && idle_stops(x.cause, row.last)
            || is_dying(row.doing, x.generation) && dying_stops(x.cause, row.last)
    }

    pub(crate) fn admits_stop_worker(&self, x: &Stopped) -> bool
        ensures { Decides result (StopWorker self.now.clients x.now self.now.past) }
    {
        self.is_alive(x) && self.has_nothing(self.of_server(x.server))
    }

    pub(crate) fn admits_stop_before(&self, x: &Stopped) -> bool
        ensures { Decides result (x.now.cause ≡ Shutdown → IsShut self.now.setup (queue_of self.now.setup x.now.server.0) self.now.past) }
    {
        let queue = self.queue(queue_of(&self.setup, x.server).0);
        !is_shutdown(x.cause) || queue.closed && is_none(&queue.waiting)
    }

    // Whether the caller's own descriptor of that request is open.
    fn owns(&self, caller: CallerId, request: RequestId) -> bool
        ensures { Decides result ((request.caller ≡ caller) × (has request (open_descriptors caller.0 self.now.past) ≡ true)) }
    {
        request.caller == caller && has(request, &self.caller(u32::from(caller.0)).descriptors)
    }

    fn is_answer_op(&self, a: &Replied) -> bool
        ensures { Decides result ((a.now.op ≡ last_op a.now.by.0 self.now.past + 1) ⊎ ((a.now.op ≡ last_op a.now.by.0 self.now.past) × (just_accepted a.now.by.0 self.now.past ≡ Some a.now.request))) }
    {
        let row = self.caller(u32::from(a.by.0));
        0 < a.op && a.op - 1 == row.op || a.op == row.op && row.just == Some(a.request)
    }

    pub(crate) fn admits_answer_worker(&self, a: &Replied) -> bool
        ensures { Decides result (AnswerWorker self.now.clients a.now self.now.past) }
    {
        self.is_active(a.by) && self.is_answer_op(a) && self.owns(a.by, a.request)
    }

    fn is_giving_up(&self, caller: CallerId, op: u32) -> bool
        ensures { Decides result (IsNextCall self.now.clients caller.0 op self.now.past ⊎ ((op ≡ 0) × (may_give_up self.now.clients caller.0 self.now.past ≡ true))) }
    {
        self.admits_call(caller, op) || op == 0 && self.may_give_up(caller)
    }

    pub(crate) fn admits_cancel_worker(&self, c: &Cancelled) -> bool
        ensures { Decides result (CancelWorker self.now.clients c.now self.now.past) }
    {
        self.is_giving_up(c.by, c.op) && self.owns(c.by, c.request)
    }

    pub(crate) fn admits_break_worker(&self, b: &Broken) -> bool
        ensures { Decides result (BreakWorker self.now.clients b.now self.now.past) }
    {
        self.is_giving_up(b.by, b.op)
            && b.request.caller == b.by
            && has(b.request, &self.caller(u32::from(b.by.0)).connections)
    }

    fn looks_at(&self, caller: CallerId, requests: &[RequestId]) -> bool
        ensures { Decides result (LooksAt caller.0 requests.now self.now.past) }
    {
        !requests.is_empty()
            && all_open(
                caller,
                &self.caller(u32::from(caller.0)).descriptors,
                requests,
            )
    }

    pub(crate) fn admits_not_yet_worker(&self, n: &Unready) -> bool
        ensures { Decides result (NotYetWorker self.now.clients n.now self.now.past) }
    {
        self.admits_call(n.by, n.op) && self.looks_at(n.by, n.requests.slice())
    }

    pub(crate) fn is_due(&self, caller: CallerId, now: u64, deadline: u64) -> bool
        ensures { Decides result (IsDue self.now.setup self.now.clients caller.0 now deadline self.now.past) }
    {
        let block = u64::from(self.setup.block_time);
        block <= deadline
            && self.caller(u32::from(caller.0)).tick <= deadline - block
            && deadline <= now
    }

    pub(crate) fn were_shown(&self, now: u64, deadline: u64) -> bool
        ensures { Decides result (WereShown self.now.setup now deadline self.now.past) }
    {
        self.is_shown(now)
            && self.is_shown(deadline.saturating_sub(u64::from(self.setup.block_time)))
    }

    fn is_lapse_op(&self, l: &Lapsed) -> bool
        ensures { Decides result (IsLapseOp l.entry.now self.now.past) }
    {
        let row = self.caller(u32::from(l.by.0));
        if l.of_call {
            l.op == row.op
                && l.requests.slice().len() == 1
                && row.just == l.requests.slice().first().copied()
        } else {
            0 < l.op && l.op - 1 == row.op
        }
    }

    pub(crate) fn admits_lapse_worker(&self, l: &Lapsed) -> bool
        ensures { Decides result (LapseWorker self.now.setup self.now.clients l.entry.now self.now.past) }
    {
        self.is_active(l.by)
            && self.is_lapse_op(l)
            && self.looks_at(l.by, l.requests.slice())
            && self.is_due(l.by, l.now, l.deadline)
    }

    pub(crate) fn admits_priority_worker(&self, p: &Prioritized) -> bool
        ensures { Decides result (PriorityWorker self.now.clients p.now self.now.past) }
    {
        self.admits_call(p.by, p.op)
    }

    pub(crate) fn admits_leave_worker(&self, client: CallerId) -> bool
        ensures { Decides result (LeaveWorker self.now.clients client.0 self.now.past) }
    {
        is_client(self.clients, client)
            && !self.caller(u32::from(client.0)).left
            && self.has_nothing(u32::from(client.0))
    }

    // Whether the boot is over.
    pub(crate) fn is_booted(&self) -> bool
        ensures { Decides result (boot self.now.setup ≤ published self.now.past) }
    {
        self.boot() <= self.published()
    }

    pub(crate) fn all_left(&self) -> bool
        ensures { Decides result (AllLeft self.now.clients self.now.past) }
    {
        for client in 0..self.clients {
            if !self.caller(u32::from(client) + 1).left {
                return false;
            }
        }
        true
    }

    /// Whether every server of the queue is gone.
    pub(crate) fn all_gone(&self, queue: u16) -> bool
        ensures { Decides result (AllGone self.now.setup queue self.now.past) }
    {
        for server in 0..self.setup.servers.slice().len() {
            let server = ServerId(server as u16 + 1);
            if queue_of(&self.setup, server).0 == queue && !self.server(server.0).gone {
                return false;
            }
        }
        true
    }

    fn may_end_so(&self, outcome: &Outcome) -> bool
        ensures { result ≡ may_end_so self.now.setup outcome.now }
    {
        match outcome {
            Outcome::Returned(_, payload) => self.shapes.sound(payload),
            Outcome::Failed(_, payload) => self.shapes.sound(payload),
            _ => true,
        }
    }

    fn is_not_older(&self, e: &Ended) -> bool
        ensures { Decides result ((version : ℕ) → version_of e.now.outcome ≡ Some version → least_version self.now.setup self.now.clients (self.now.clients + e.now.server.0) self.now.past ≤ version) }
    {
        match version_of(&e.outcome) {
            Some(version) => self.caller(self.of_server(e.server)).version <= version,
            None => true,
        }
    }

    fn left_none_open(&self, e: &Ended) -> bool
        ensures { Decides result (is_return e.now.outcome ≡ true → connections (self.now.clients + e.now.server.0) self.now.past ≡ []) }
    {
        !is_return(&e.outcome) || is_none(&self.caller(self.of_server(e.server)).connections)
    }

    fn admits_end_worker(&self, e: &Ended) -> bool
        ensures { Decides result (EndWorker self.now.setup self.now.clients e.now self.now.past) }
    {
        is_busy_with(self.server(e.server.0).doing, e.generation, e.request)
            && self.may_end_so(&e.outcome)
            && self.left_none_open(e)
            && self.is_not_older(e)
    }

    fn admits_end_before(&self, e: &Ended) -> bool
        ensures { Decides result (EndBefore e.now self.now.past) }
    {
        match version_of(&e.outcome) {
            Some(version) => version <= self.published(),
            None => true,
        }
    }

    fn admits_end(&self, e: &Ended) -> bool
        ensures { Decides result (Case self.now (End e.now)) }
    {
        self.admits_end_worker(e) && self.admits_end_before(e) && self.is_booted()
    }

    fn was_answered(&self, a: &Replied) -> bool
        ensures { Decides result (WasSettled a.now.request (IsAnswerTo a.now.answer) self.now.past) }
    {
        was_settled(&self.events, a.request, &a.answer)
    }

    fn admits_answer(&self, a: &Replied) -> bool
        ensures { Decides result (Case self.now (Answer a.now)) }
    {
        self.admits_answer_worker(a) && self.was_answered(a) && self.is_booted()
    }

    fn admits_take(&self, t: &Taken) -> bool
        ensures { Decides result (Case self.now (Take t.now)) }
    {
        self.admits_take_home(t) && self.admits_take_worker(t) && self.is_booted()
    }

    fn admits_sweep(&self, x: &Swept) -> bool
        ensures { Decides result (Case self.now (Sweep x.now)) }
    {
        self.admits_sweep_home(x) && self.is_booted()
    }

    fn admits_gone(&self, server: ServerId) -> bool
        ensures { Decides result (Case self.now (Gone server)) }
    {
        self.admits_gone_home(server) && self.admits_gone_worker(server) && self.is_booted()
    }

    fn admits_close(&self, queue: QueueId) -> bool
        ensures { Decides result (Case self.now (Close queue)) }
    {
        self.admits_close_home(queue) && self.all_left() && self.is_booted()
    }

    fn admits_tick(&self, t: &Ticked) -> bool
        ensures { Decides result (Case self.now (Tick t.entry.now)) }
    {
        self.admits_tick_home(t) && self.admits_tick_worker(t) && self.is_booted()
    }

    fn admits_start(&self, b: &Started) -> bool
        ensures start { Decides result (Case self.now (Start b.now)) }
        ensures failed { Decides result (Case self.now (StartFailed b.now)) }
    {
        self.admits_start_worker(b) && self.is_shown(b.tick) && self.is_booted()
    }

    fn admits_stop(&self, x: &Stopped) -> bool
        ensures { Decides result (Case self.now (Stop x.now)) }
    {
        self.admits_stop_worker(x) && self.admits_stop_before(x) && self.is_booted()
    }

    fn admits_cancel(&self, c: &Cancelled) -> bool
        ensures { Decides result (Case self.now (Cancel c.now)) }
    {
        self.admits_cancel_worker(c) && self.is_booted()
    }

    fn admits_lapse(&self, l: &Lapsed) -> bool
        ensures { Decides result (Case self.now (Lapse l.entry.now)) }
    {
        self.admits_lapse_worker(l) && self.were_shown(l.now, l.deadline) && self.is_booted()
    }

    fn admits_not_yet(&self, n: &Unready) -> bool
        ensures { Decides result (Case self.now (NotYet n.now)) }
    {
        self.admits_not_yet_worker(n) && self.is_booted()
    }

    fn admits_leave(&self, client: CallerId) -> bool
        ensures { Decides result (Case self.now (Leave client)) }
    {
        self.admits_leave_worker(client) && self.is_booted()
    }

    fn admits_break(&self, b: &Broken) -> bool
        ensures { Decides result (Case self.now (Break b.now)) }
    {
        self.admits_break_worker(b) && self.is_booted()
    }

    fn admits_priority(&self, p: &Prioritized) -> bool
        ensures { Decides result (Case self.now (Priority p.now)) }
    {
        self.admits_priority_worker(p) && self.is_booted()
    }

    /// Whether the event may come next.
    pub(crate) fn admits(&self, event: &Event) -> bool
        ensures { Decides result (Case self.now event.now) }
    {
        match event {
            Event::Advertise(a) => self.admits_advertise(a),
            Event::Withdraw(w) => self.admits_withdraw(w),
            Event::Accept(a) => self.admits_accept(a),
            Event::Take(t) => self.admits_take(t),
            Event::Forward(f) => self.admits_forward(f),
            Event::Down(queue) => self.admits_down(*queue),
            Event::End(e) => self.admits_end(e),
            Event::Answer(a) => self.admits_answer(a),
            Event::Refuse(r) => self.admits_refuse(r),
            Event::Sweep(x) => self.admits_sweep(x),
            Event::Gone(server) => self.admits_gone(*server),
            Event::Close(queue) => self.admits_close(*queue),
            Event::Tick(t) => self.admits_tick(t),
            Event::Start(b) => self.admits_start(b),
            Event::StartFailed(b) => self.admits_start(b),
            Event::Stop(x) => self.admits_stop(x),
            Event::Cancel(c) => self.admits_cancel(c),
            Event::Lapse(l) => self.admits_lapse(l),
            Event::NotYet(n) => self.admits_not_yet(n),
            Event::Leave(client) => self.admits_leave(*client),
            Event::Send(s) => self.admits_send(s),
            Event::Receive(r) => self.admits_receive(r),
            Event::Break(b) => self.admits_break(b),
            Event::Priority(p) => self.admits_priority(p),
        }
    }
}
