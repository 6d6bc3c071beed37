// Whether a refusal may come next, by what shows that it is right.
ghost use Rattle.std.specs.Prelude.{◌≡◌};
ghost use Rattle.std.specs.Bool.{Decides};
ghost use Rattle.xa_events.specs.declared.event.Event.TheVariants.{Refuse};
ghost use Rattle.xa_events.specs.declared.event.Evidence.TheVariants.{Queue};
ghost use Rattle.xa_events.specs.Caller.{descriptor_limit};
ghost use Rattle.xa_events.specs.Cases.{Case, is_numbered, ShowsItself, WasSeen, IsOwnEvidence, RefuseWorker};

use crate::holding::is_held;
use crate::machine::{Machine, is_client};
use crate::setups::capacity_of;
use xa_events::{Evidence, Refused};
use xa_types::{CallerId, Fault, QueueId, RequestId};

fn is_numbered(number: u64, requests: &[RequestId]) -> bool
    ensures { result ≡ is_numbered number requests.now }
{
    requests.iter().any(|request| request.number == number)
}

/// How many descriptors the caller may have open.
pub fn descriptor_limit(clients: u16, caller: CallerId) -> u32
    ensures { result ≡ descriptor_limit clients caller.0 }
{
    if is_client(clients, caller) { 50 } else { 16 }
}

impl Machine {
    fn shows_itself(&self, by: CallerId, fault: Fault, evidence: Evidence) -> bool
        ensures { Decides result (ShowsItself self.now.setup self.now.clients by.0 fault evidence self.now.past) }
    {
        let row = self.caller(u32::from(by.0));
        match evidence {
            Evidence::Argument => matches!(fault, Fault::Inval),
            Evidence::Version(v) => {
                matches!(fault, Fault::NoEnt | Fault::IType) && row.version <= v
            }
            Evidence::AllDown(v) => matches!(fault, Fault::System) && row.version <= v,
            Evidence::Descriptor(d) => {
                matches!(fault, Fault::BadDesc)
                    && (!is_numbered(d, &row.descriptors) || !is_numbered(d, &row.connections))
            }
            Evidence::Cells(n) => {
                matches!(fault, Fault::Limit)
                    && n == descriptor_limit(self.clients, by)
                    && n as usize <= row.unanswered.len()
            }
            Evidence::Connections(n) => {
                matches!(fault, Fault::Limit) && n == 16 && row.connections.len() == 16
            }
            Evidence::Clock(tick) => matches!(fault, Fault::Limit) && row.tick <= tick,
            Evidence::Queue(queue, n) => {
                matches!(fault, Fault::Block) && 0 < n && n == capacity_of(&self.setup, queue.0)
            }
            Evidence::Pool => matches!(fault, Fault::Block),
            Evidence::Deadline(now, deadline) => {
                matches!(fault, Fault::Time) && self.is_due(by, now, deadline)
            }
            Evidence::Control(_) => matches!(fault, Fault::Proto),
            Evidence::Role => matches!(fault, Fault::Proto),
            Evidence::Rows(_) => matches!(fault, Fault::Limit),
            Evidence::Routine(_) => matches!(fault, Fault::Match),
            Evidence::NoRow => matches!(fault, Fault::NoEnt),
            Evidence::Conversation(_) => matches!(fault, Fault::Block),
            Evidence::Ended(..) => matches!(fault, Fault::Event),
        }
    }

    // Whether so many waited at the queue at a moment not before the caller's last event there.
    fn was_full(&self, by: CallerId, queue: QueueId, n: u32) -> bool
        ensures { Decides result (WasSeen self.now.setup self.now.clients by.0 (Queue queue n) self.now.past) }
    {
        is_held(&self.tables.log, queue.0, u32::from(by.0), n as usize)
    }

    fn was_seen(&self, by: CallerId, evidence: Evidence) -> bool
        ensures { Decides result (WasSeen self.now.setup self.now.clients by.0 evidence self.now.past) }
    {
        match evidence {
            Evidence::Version(v) => v <= self.published(),
            Evidence::AllDown(v) => v <= self.published(),
            Evidence::Clock(tick) => self.is_shown(tick),
            Evidence::Queue(queue, n) => self.was_full(by, queue, n),
            Evidence::Deadline(now, deadline) => self.were_shown(now, deadline),
            _ => true,
        }
    }

    // Whether the caller's own events show of an end what the refusal says.
    fn is_own(&self, by: CallerId, evidence: Evidence) -> bool
        ensures { Decides result (IsOwnEvidence self.now.clients by evidence self.now.past) }
    {
        match evidence {
            Evidence::Conversation(descriptor) => self.names_end(by, descriptor),
            Evidence::Ended(descriptor, _, code) => self.names_end(by, descriptor) && code == 0,
            _ => true,
        }
    }

    fn admits_refuse_worker(&self, r: &Refused) -> bool
        ensures { Decides result (RefuseWorker self.now.setup self.now.clients r.now self.now.past) }
    {
        self.admits_call(r.by, r.op)
            && self.shows_itself(r.by, r.fault, r.evidence)
            && self.is_own(r.by, r.evidence)
    }

    pub(crate) fn admits_refuse(&self, r: &Refused) -> bool
        ensures { Decides result (Case self.now (Refuse r.now)) }
    {
        self.admits_refuse_worker(r)
            && self.was_seen(r.by, r.evidence)
            && self.is_told(r.by, r.evidence)
            && self.is_booted()
    }
}
