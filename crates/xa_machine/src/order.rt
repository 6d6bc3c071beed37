// Whether a take gives the request that is next.
ghost use Rattle.std.specs.Prelude.{◌≡◌, ℕ, nat_le, reverse, Some};
ghost use Rattle.std.specs.Bool.{Decides};
ghost use Rattle.std.specs.List.{list_all};
ghost use Rattle.xa_events.specs.Queue.{waiting};
ghost use Rattle.xa_events.specs.Order.{next_of, first_of_highest, TakesNext};
ghost use Rattle.xa_events.specs.Request.{priority_at, is_entry_of, priority_in};

use crate::machine::Machine;
use crate::words::same_request;
use xa_events::Event;
use xa_route::queue_of;
use xa_types::RequestId;

fn is_entry_of(request: RequestId, event: &Event) -> bool
    ensures { result ≡ is_entry_of request event.now }
{
    match event {
        Event::Accept(a) => same_request(a.request, request),
        Event::Forward(f) => same_request(f.request, request),
        _ => false,
    }
}

fn priority_in(event: &Event) -> u8
    ensures { result ≡ priority_in (Some event.now) }
{
    match event {
        Event::Accept(a) => a.priority,
        Event::Forward(f) => f.priority,
        _ => 0,
    }
}

/// The priority with which the request waits: the newest event is looked at first.
fn priority_at(events: &[Event], request: RequestId) -> u8
    ensures { result ≡ priority_at (reverse events.now) request }
{
    for i in (0..events.len()).rev() {
        let event = &events[i];
        if is_entry_of(request, event) {
            return priority_in(event);
        }
    }
    0
}

// The greatest priority of those that wait.
fn highest(events: &[Event], waiting: &[RequestId]) -> u8
    ensures { (priority : ℕ) → list_all (λ other. nat_le (priority_at (reverse events.now) other) priority) waiting.now ≡ nat_le result priority }
{
    let mut highest = 0;
    for request in waiting {
        highest = priority_at(events, *request).max(highest);
    }
    highest
}

fn first_of_highest(events: &[Event], waiting: &[RequestId]) -> Option<RequestId>
    ensures { result ≡ first_of_highest (priority_at (reverse events.now)) waiting.now }
{
    let highest = highest(events, waiting);
    for request in waiting {
        if highest <= priority_at(events, *request) {
            return Some(*request);
        }
    }
    None
}

fn next_of(events: &[Event], waiting: &[RequestId], k: u64) -> Option<RequestId>
    ensures { result ≡ next_of (priority_at (reverse events.now)) waiting.now k }
{
    if k % 10 == 0 {
        waiting.first().copied()
    } else {
        first_of_highest(events, waiting)
    }
}

impl Machine {
    fn next_take(&self, queue: u16, k: u64) -> Option<RequestId>
        ensures { result ≡ next_of (priority_at self.now.past) (waiting self.now.setup queue self.now.past) k }
    {
        next_of(&self.events, &self.queue(queue).waiting, k)
    }

    /// False exactly for a take whose request isn't the next of those that wait at its server's queue.
    pub fn takes_next(&self, event: &Event) -> bool
        ensures { Decides result (TakesNext self.now.setup event.now self.now.past) }
    {
        match event {
            Event::Take(t) => {
                self.next_take(queue_of(&self.setup, t.server).0, t.k) == Some(t.request)
            }
            _ => true,
        }
    }
}
