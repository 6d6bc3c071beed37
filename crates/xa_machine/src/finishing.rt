// Whether nothing is left to do.
ghost use Rattle.std.specs.Prelude.{◌≡◌, ◌⊎◌, reverse, true};
ghost use Rattle.std.specs.Bool.{Decides};
ghost use Rattle.xa_events.specs.Words.{count};
ghost use Rattle.xa_events.specs.Queue.{is_down};
ghost use Rattle.xa_events.specs.Server.{AllGone, is_gone, was_shut_down};
ghost use Rattle.xa_events.specs.Caller.{AllLeft};
ghost use Rattle.xa_events.specs.Run.{IsFinal};
ghost use Rattle.xa_machine.specs.Runs.{accepts, settles, AllClosed, AllDown, AllOver, AllSettled};

use crate::laws::runs_are_lawful;
use crate::machine::Machine;
use xa_events::Event;

fn accepts(event: &Event) -> bool
    ensures { result ≡ accepts event.now }
{
    matches!(event, Event::Accept(_))
}

fn settles(event: &Event) -> bool
    ensures { result ≡ settles event.now }
{
    matches!(event, Event::End(_) | Event::Sweep(_))
}

fn count_accepted(events: &[Event]) -> usize
    ensures { result ≡ count accepts (reverse events.now) }
{
    let mut n = 0;
    for event in events {
        if accepts(event) {
            n += 1;
        }
    }
    n
}

fn count_settled(events: &[Event]) -> usize
    ensures { result ≡ count settles (reverse events.now) }
{
    let mut n = 0;
    for event in events {
        if settles(event) {
            n += 1;
        }
    }
    n
}

fn same_count(events: &[Event]) -> bool
    ensures { Decides result (count settles (reverse events.now) ≡ count accepts (reverse events.now)) }
{
    count_settled(events) == count_accepted(events)
}

impl Machine {
    // Whether every request was settled. None is settled that wasn't accepted, and none twice, so it is enough that as
    // many were.
    fn all_settled(&self) -> bool
        ensures { Decides result (AllSettled self.now.past) }
    {
        runs_are_lawful();
        same_count(&self.events)
    }

    // Whether the server was shut down or is given up.
    fn is_over(&self, server: u16) -> bool
        ensures { Decides result ((was_shut_down server self.now.past ≡ true) ⊎ (is_gone server self.now.past ≡ true)) }
    {
        let row = self.server(server);
        row.shut || row.gone
    }

    fn all_over(&self) -> bool
        ensures { Decides result (AllOver self.now.setup self.now.past) }
    {
        for server in 0..self.setup.servers.slice().len() {
            if !self.is_over(server as u16 + 1) {
                return false;
            }
        }
        true
    }

    fn all_closed(&self) -> bool
        ensures { Decides result (AllClosed self.now.setup self.now.past) }
    {
        for queue in 0..self.setup.queues.slice().len() {
            if !self.queue(queue as u16 + 1).closed {
                return false;
            }
        }
        true
    }

    // Whether the queue is down, where no server of it is left.
    fn is_down_or_served(&self, queue: u16) -> bool
        ensures { Decides result (AllGone self.now.setup queue self.now.past → is_down queue self.now.past ≡ true) }
    {
        self.queue(queue).down || !self.all_gone(queue)
    }

    fn all_down_or_served(&self) -> bool
        ensures { Decides result (AllDown self.now.setup self.now.past) }
    {
        for queue in 0..self.setup.queues.slice().len() {
            if !self.is_down_or_served(queue as u16 + 1) {
                return false;
            }
        }
        true
    }

    // Whether every client has left, and every request was settled.
    fn no_calls_left(&self) -> bool
        ensures { Decides result (AllLeft self.now.clients self.now.past × AllSettled self.now.past) }
    {
        self.all_left() && self.all_settled()
    }

    // Whether every queue is closed, and down where no server of it is left.
    fn no_queues_left(&self) -> bool
        ensures { Decides result (AllClosed self.now.setup self.now.past × AllDown self.now.setup self.now.past) }
    {
        self.all_closed() && self.all_down_or_served()
    }

    // Whether every server was shut down or given up, and every queue is closed, and down where no server of it is left.
    fn no_servers_left(&self) -> bool
        ensures { Decides result (AllOver self.now.setup self.now.past × AllClosed self.now.setup self.now.past × AllDown self.now.setup self.now.past) }
    {
        self.all_over() && self.no_queues_left()
    }

    /// Whether nothing is left to do: every client has left, every request was settled, every server was shut down or
    /// given up, and every queue is closed, and down where no server of it is left.
    pub fn is_final(&self) -> bool
        ensures { Decides result (IsFinal self.now) }
    {
        self.no_calls_left() && self.no_servers_left()
    }
}
