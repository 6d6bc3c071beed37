// What all workers of a domain share.
ghost use Rattle.std.specs.Prelude.{◌<◌};

use crate::halting::HaltWord;
use crate::signal::Signals;
use crossbeam_utils::sync::EventCount;
use std::sync::Wait;
use std::sync::atomic::AtomicU64;
use std::sync::atomic::Ordering::SeqCst;
use xa_server::buffer::Shapes;
use xa_server::caller::Filling;
use xa_server::cell::Cells;
use xa_server::held::{KeptBoard, KeptQueue};
use xa_server::lock::Guarded;
use xa_server::types::{CallerId, QueueId, Setup, Stamp};
use xa_server::work::Halt;
use xa_ticks::Clock;

/// What workers wait for: the servers of each queue, by its number, that something waits there or it is closed; callers, that
/// a queue has room or isn't up any more; each caller, by its number, that it is answered; and clients before their first
/// call, that each server's first start is up or given up, of which there is a count. Each is woken at a halt too.
#[derive(Drop)]
pub struct Waits {
    pub work: Signals,
    pub room: EventCount,
    pub replies: Signals,
    pub ready: EventCount,
    pub up: AtomicU64,
}

/// What all workers share: the setup, how many clients there are, the stamp of the boot's last event, the reply cells, the
/// board, the queues and the clock under their locks, and where workers sleep.
pub struct Domain {
    pub setup: Setup,
    pub shapes: Shapes,
    pub clients: u16,
    pub booted: Stamp,
    pub cells: Cells<Filling>,
    pub board: Guarded<KeptBoard>,
    pub queues: Vec<Guarded<KeptQueue<Filling>>>,
    pub clock: Guarded<Clock>,
    pub waits: Waits,
    pub halt: HaltWord,
}

impl Domain {
    /// Something waits at the queue, or it closed: one of its servers that sleep is woken.
    pub fn wake_server(&self, queue: QueueId) {
        self.waits.work.give(queue.0);
    }

    /// A queue has room, or has gone down or closed: callers that sleep until then are woken.
    pub fn wake_senders(&self) {
        self.waits.room.notify_all();
    }

    /// A server has greeted, or is given up.
    pub fn count_up(&self) {
        self.waits.up.fetch_add(1, SeqCst);
        self.waits.ready.notify_all();
    }

    /// Waits until each server has greeted or is given up, or the run halts.
    pub fn await_up<W: Wait>(&self, rt: &W) {
        let servers = self.setup.servers.slice().len() as u64;
        for _ in rt.forever() {
            let key = self.waits.ready.prepare_wait();
            if self.waits.up.load(SeqCst) >= servers || self.halt.get().is_some() {
                return;
            }
            key.wait(rt);
        }
    }

    /// The caller's request was answered.
    pub fn wake_caller(&self, caller: CallerId) {
        self.waits.replies.give(caller.0);
    }

    /// All that sleep are woken.
    pub fn wake_all(&self) {
        self.waits.work.give_all();
        self.waits.room.notify_all();
        self.waits.ready.notify_all();
        self.waits.replies.give_all();
    }

    /// The run halts: each worker is told, and woken.
    pub fn stop(&self, halt: Halt) {
        self.halt.set(halt);
        self.wake_all();
    }
}
