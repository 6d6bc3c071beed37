// What the workers get, one after the other; the last one is the first.
ghost use Rattle.std.specs.Prelude.{◌≡◌, ◌<◌, ◌++◌, [], ◌∷◌, length};
ghost use Rattle.std.specs.List.{All};
ghost use Rattle.xa_boot.specs.Supplies.{IsRoom};
ghost use Rattle.xa_boot.specs.Staffing.{IsFull, IsStaff, AreTaken, Hires, Seats};

use crate::rooms::QueuePass;
use std::alloc::Global;
use xa_client_worker::board::Reader;
use xa_client_worker::caller::{Caller, Filling};
use xa_client_worker::cell::Seat;
use xa_client_worker::desk::{Desk, Domain};
use xa_client_worker::held::BoardNote;
use xa_client_worker::lock::{LockPass, Made};
use xa_client_worker::types::CallerId;
use xa_client_worker::work::{Own, Work};

/// What is there for the workers that have no desk yet, of which `left` are left, in the order of their numbers. The domain
/// noted `own` at the boot, and the board had that version then.
pub struct Staff {
    pub left: u16,
    pub own: Own,
    pub version: u64,
    pub seats: Vec<Seat<Filling>>,
    pub readers: Vec<Reader>,
    pub boards: Vec<LockPass<BoardNote>>,
    pub queues: Vec<Vec<QueuePass>>,
    pub clocks: Vec<LockPass<Made>>,
    pub rooms: Vec<Vec<Option<QueuePass>>>,
}

/// What one worker gets.
pub struct Post {
    pub seat: Seat<Filling>,
    pub reader: Reader,
    pub board: LockPass<BoardNote>,
    pub queues: Vec<Option<QueuePass>>,
    pub clock: LockPass<Made>,
}

pub(crate) fn last_of<X>(items: &mut Vec<X>) -> X
    requires { 0 < length items.old.items }
    ensures { items.old.items ≡ items.new.items ++ result ∷ [] }
{
    match items.pop() {
        Some(item) => item,
        None => unreachable!(),
    }
}

// The last pass of each queue.
fn last_passes(
    queues: &mut Vec<Vec<QueuePass>>,
    mut room: Vec<Option<QueuePass>>,
) -> Vec<Option<QueuePass>>
    requires some { All (λ passes. 0 < length passes.items) queues.old.items }
    requires room { IsRoom (length queues.old.items) room }
    ensures { AreTaken (length queues.old.items) queues.old.items queues.new.items result.items }
{
    for passes in queues.iter_mut() {
        room.push_reserved(Some(last_of(passes)));
    }
    room
}

impl Staff {
    /// What the last worker that is left gets.
    pub(crate) fn next(&mut self) -> Post
        requires some { 0 < self.old.left }
        requires full { IsFull self.old }
        ensures { Hires self.old self.new result }
    {
        self.left -= 1;
        let room = last_of(&mut self.rooms);
        Post {
            seat: last_of(&mut self.seats),
            reader: last_of(&mut self.readers),
            board: last_of(&mut self.boards),
            queues: last_passes(&mut self.queues, room),
            clock: last_of(&mut self.clocks),
        }
    }

    /// The desk of the last worker that is left, which isn't the domain itself.
    pub(crate) fn desk(&mut self, alloc: Global, domain: &Domain) -> Desk
        requires some { 1 < self.old.left }
        requires full { IsFull self.old }
        requires staff { IsStaff domain.now self.old }
        ensures { Seats domain.now self.old self.new result }
    {
        let Post {
            seat,
            reader,
            board,
            queues,
            clock,
        } = self.next();
        let id = CallerId(self.left);
        let work = Work::new(alloc, &domain.setup, domain.clients, id, domain.booted);
        Desk {
            caller: Caller::new(alloc, work, seat, self.version),
            reader,
            board: Some(board),
            queues,
            clock: Some(clock),
        }
    }
}
