// Whether an end of a conversation may send, receive, or be refused a call, by both ends.
ghost use Rattle.std.specs.Prelude.{◌≡◌, IsSomeAnd};
ghost use Rattle.std.specs.Bool.{Decides};
ghost use Rattle.xa_events.specs.declared.event.Event.TheVariants.{Send, Receive};
ghost use Rattle.xa_events.specs.Words.{Was};
ghost use Rattle.xa_events.specs.Conversation.{end_done, side_of, EndedIs, IsClosing, IsSent};
ghost use Rattle.xa_events.specs.Cases.{named_by, side_named, Began, BeganAt, Case, FindsNext, HasControl, HasOpen, NamesEnd, OpenEnd, ReceiveBefore, ReceiveWorker, SendWorker, StandsIn};
ghost use Rattle.xa_machine.specs.Ends.{counted, side_at, FindsClosed, IsOther, Tells, TellsBegun};

use crate::machine::Machine;
use crate::meeting::{Sender, was_closed, was_sent};
use crate::talking::{Begun, Done, HeldEnd, done_of, how_begun, means_service, turn_is};
use crate::words::has;
use xa_events::{Item, Received, Sent};
use xa_types::{CallerId, ConvEvent, Data, RequestId};

impl Machine {
    // Whether the caller means the service's end of the conversation.
    fn is_at_service(&self, caller: CallerId, request: RequestId) -> bool
        ensures { side_at result ≡ side_of caller.0 request self.now.past }
    {
        let caller = u32::from(caller.0);
        means_service(caller, request, has(request, &self.caller(caller).broken))
    }

    // What the caller did at its end of the conversation.
    fn done_by(&self, caller: CallerId, request: RequestId) -> Done
        ensures { counted result ≡ end_done caller.0 (side_of caller.0 request self.now.past) request self.now.past }
    {
        let service = self.is_at_service(caller, request);
        done_of(
            &self.events,
            HeldEnd {
                caller: u32::from(caller.0),
                service,
                request,
            },
        )
    }

    // How the conversation began.
    fn begun(&self, request: RequestId) -> Begun
        ensures { TellsBegun result request self.now.past }
    {
        how_begun(&self.events, request)
    }

    // Whether that end sent the message as its next.
    fn was_sent(&self, sender: Sender, payload: &Data, passes: bool) -> bool
        ensures { Decides result (Was (IsSent (side_at sender.service) sender.request sender.sent payload.now passes) self.now.past) }
    {
        was_sent(&self.events, sender, payload, passes)
    }

    // Whether that end closed, so that the item tells of it: the whole of its ending, or its event alone.
    fn was_closed(&self, sender: Sender, item: &Item, whole: bool) -> bool
        ensures { Decides result (Was (IsClosing self.now.clients (side_at sender.service) sender.request sender.sent (BeganAt sender.request self.now.past) (Tells whole item.now)) self.now.past) }
    {
        was_closed(
            &self.events,
            self.clients,
            sender,
            self.begun(sender.request),
            item,
            whole,
        )
    }

    // The other end, by how many of its messages the caller received.
    fn other_end(&self, caller: CallerId, request: RequestId) -> Sender
        ensures { IsOther caller.0 request self.now.past result }
    {
        Sender {
            service: !self.is_at_service(caller, request),
            request,
            sent: self.done_by(caller, request).received,
        }
    }

    // Whether the caller has control of the conversation, or hasn't.
    fn has_control(&self, control: bool, caller: CallerId, request: RequestId) -> bool
        ensures { Decides result (HasControl control caller.0 request self.now.past) }
    {
        turn_is(
            control,
            self.is_at_service(caller, request),
            self.done_by(caller, request).turn,
            self.begun(request),
        )
    }

    // Whether the caller finds that next at the other end.
    fn finds_next(&self, caller: CallerId, request: RequestId, item: &Item) -> bool
        ensures { Decides result (FindsNext self.now.clients caller.0 request item.now self.now.past) }
    {
        let other = self.other_end(caller, request);
        match item {
            Item::Message(payload, passes) => self.was_sent(other, payload, *passes),
            Item::Ending(..) => self.was_closed(other, item, true),
        }
    }

    // Whether that end closed, so that the other is told of that event.
    fn closed_with(&self, sender: Sender, event: ConvEvent) -> bool
        ensures { Decides result (Was (IsClosing self.now.clients (side_at sender.service) sender.request sender.sent (BeganAt sender.request self.now.past) (λ told. told.0 ≡ event)) self.now.past) }
    {
        self.was_closed(sender, &Item::Ending(event, 0, Data::Absent), false)
    }

    // Whether the other end closed, so that the caller is told of that event.
    fn other_closed(&self, caller: CallerId, request: RequestId, event: ConvEvent) -> bool
        ensures { Decides result (FindsClosed self.now.clients caller.0 request event self.now.past) }
    {
        self.closed_with(self.other_end(caller, request), event)
    }

    // Whether a caller with control finds that the other end closed, with that event.
    fn finds_end(&self, caller: CallerId, request: RequestId, event: ConvEvent) -> bool
        ensures { Decides result (EndedIs self.now.clients caller.0 request event self.now.past (BeganAt request self.now.past) (StandsIn self.now.past)) }
    {
        self.has_control(true, caller, request) && self.other_closed(caller, request, event)
    }

    // Whether that end of the conversation is open at the caller.
    fn has_open(&self, caller: CallerId, request: RequestId, service: bool) -> bool
        ensures { Decides result (HasOpen self.now.clients caller.0 request self.now.past (side_at service)) }
    {
        let row = self.caller(u32::from(caller.0));
        if service {
            self.in_hand(caller) == Some(request) && !row.hand_closed
        } else {
            has(request, &row.connections)
        }
    }

    // Whether the end that the caller means is open.
    fn has_end(&self, caller: CallerId, request: RequestId) -> bool
        ensures { Decides result (OpenEnd self.now.clients caller.0 request self.now.past) }
    {
        self.has_open(caller, request, self.is_at_service(caller, request))
    }

    fn admits_send_worker(&self, s: &Sent) -> bool
        ensures { Decides result (SendWorker self.now.clients s.now self.now.past) }
    {
        self.admits_call(s.by, s.op) && self.has_end(s.by, s.request)
    }

    pub(crate) fn admits_send(&self, s: &Sent) -> bool
        ensures { Decides result (Case self.now (Send s.now)) }
    {
        self.admits_send_worker(s) && self.has_control(true, s.by, s.request) && self.is_booted()
    }

    fn admits_receive_worker(&self, r: &Received) -> bool
        ensures { Decides result (ReceiveWorker self.now.clients r.now self.now.past) }
    {
        self.admits_call(r.by, r.op) && self.has_end(r.by, r.request)
    }

    fn admits_receive_before(&self, r: &Received) -> bool
        ensures { Decides result (ReceiveBefore self.now.clients r.now self.now.past) }
    {
        self.has_control(false, r.by, r.request) && self.finds_next(r.by, r.request, &r.item)
    }

    pub(crate) fn admits_receive(&self, r: &Received) -> bool
        ensures { Decides result (Case self.now (Receive r.now)) }
    {
        self.admits_receive_worker(r) && self.admits_receive_before(r) && self.is_booted()
    }

    // The request whose conversation the descriptor names; 0 names that in hand.
    fn named_by(&self, caller: CallerId, descriptor: u64) -> Option<RequestId>
        ensures { result ≡ named_by self.now.clients caller descriptor self.now.past }
    {
        if descriptor == 0 {
            self.in_hand(caller)
        } else {
            Some(RequestId {
                caller,
                number: descriptor,
            })
        }
    }

    fn is_end_named(&self, caller: CallerId, request: RequestId, descriptor: u64) -> bool
        ensures { Decides result ((side_of caller.0 request self.now.past ≡ side_named descriptor) × OpenEnd self.now.clients caller.0 request self.now.past) }
    {
        self.is_at_service(caller, request) == (descriptor == 0) && self.has_end(caller, request)
    }

    /// Whether the descriptor names an open end.
    pub(crate) fn names_end(&self, caller: CallerId, descriptor: u64) -> bool
        ensures { Decides result (NamesEnd self.now.clients caller descriptor self.now.past) }
    {
        match self.named_by(caller, descriptor) {
            Some(request) => self.is_end_named(caller, request, descriptor),
            None => false,
        }
    }

    fn is_conversation(&self, request: RequestId) -> bool
        ensures { Decides result (Began (BeganAt request self.now.past)) }
    {
        let begun = self.begun(request);
        begun.originator || begun.service
    }

    /// Whether what the descriptor names is a conversation.
    pub(crate) fn names_conversation(&self, caller: CallerId, descriptor: u64) -> bool
        ensures { Decides result (IsSomeAnd (named_by self.now.clients caller descriptor self.now.past) (λ request. Began (BeganAt request self.now.past))) }
    {
        match self.named_by(caller, descriptor) {
            Some(request) => self.is_conversation(request),
            None => false,
        }
    }

    /// Whether the other end of what the descriptor names closed, with that event.
    pub(crate) fn names_ended(&self, caller: CallerId, descriptor: u64, event: ConvEvent) -> bool
        ensures { Decides result (IsSomeAnd (named_by self.now.clients caller descriptor self.now.past)
            (λ request. EndedIs self.now.clients caller.0 request event self.now.past (BeganAt request self.now.past) (StandsIn self.now.past))) }
    {
        match self.named_by(caller, descriptor) {
            Some(request) => self.finds_end(caller, request, event),
            None => false,
        }
    }
}
