// How many waited at a queue, at each event there.
ghost use Rattle.std.specs.Prelude.{◌≡◌, ◌<◌, ◌∷◌, ℕ, List, length, reverse, slice_index_or, vec_len, vec_capacity};
ghost use Rattle.xa_types.specs.declared.setup.Setup.{Setup as Configuration};
ghost use Rattle.xa_events.specs.declared.event.Event.{Event as Noted};
ghost use Rattle.xa_events.specs.Homes.{worker_of};
ghost use Rattle.xa_machine.specs.Shown.{queue_home, QueuesShow};
ghost use Rattle.xa_machine.specs.Whole.{FitsQueue};
ghost use Rattle.xa_machine.specs.Holds.{held, held_after, log_of};
ghost use Rattle.xa_machine.specs.declared.queued.QueueRow.{QueueRow as QueueOf};

use crate::queued::QueueRow;
use xa_types::RequestId;

/// An event at a queue: whose it was, and how many waited there behind it.
#[derive(Clone, Copy)]
pub struct Held {
    pub queue: u16,
    pub worker: u32,
    pub waiting: usize,
}

fn count(requests: &[RequestId]) -> usize
    ensures { result ≡ length requests.now }
{
    requests.len()
}

fn waiting_at(rows: &[QueueRow], queue: u16) -> usize
    requires { queue < length rows.now }
    ensures { (d : QueueOf) → result ≡ length (slice_index_or rows.now queue d).waiting.items }
{
    count(&rows[usize::from(queue)].waiting)
}

/// Notes how many wait at the queue of an event, by the queues' rows behind it.
pub fn note_held(log: &mut Vec<Held>, rows: &[QueueRow], queue: Option<u16>, worker: u32)
    requires within { FitsQueue queue rows.now }
    requires room { vec_len log.old < vec_capacity log.old }
    ensures { (setup : Configuration) (clients : ℕ) (e : Noted) (past : List Noted) → queue_home setup e ≡ queue → worker_of clients e ≡ worker → QueuesShow setup (e ∷ past) rows.now →
        log.old.items ≡ reverse (log_of setup clients past) → log.new.items ≡ reverse (log_of setup clients (e ∷ past)) }
{
    if let Some(queue) = queue {
        log.push_reserved(Held {
            queue,
            worker,
            waiting: waiting_at(rows, queue),
        });
    }
}

fn held_after(entry: &Held, queue: u16, worker: u32, many: usize, held: bool) -> bool
    ensures { result ≡ held_after queue worker many entry.now held }
{
    if entry.queue == queue {
        entry.worker != worker && held || entry.waiting == many
    } else {
        held
    }
}

/// Whether so many waited at the queue at a moment not before the worker's last event there.
pub fn is_held(log: &[Held], queue: u16, worker: u32, many: usize) -> bool
    ensures { result ≡ held queue worker many (reverse log.now) }
{
    let mut held = many == 0;
    for event in log {
        held = held_after(event, queue, worker, many, held);
    }
    held
}
