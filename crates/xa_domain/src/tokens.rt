// Seats and passes as they come back.
ghost use Rattle.std.specs.Prelude.{◌≡◌, ◌++◌, ◌∷◌, [], length, vec_capacity, IsSome};
ghost use Rattle.std.specs.List.{All};
ghost use Rattle.xa_boot.specs.xa_desk.Desks.{IsThere};
ghost use Rattle.xa_domain.specs.Gathering.{HasSpace, HasTokenSpace, AreAdded, AddsTokens};

use xa_boot::caller::Filling;
use xa_boot::cell::Seat;
use xa_boot::held::{BoardNote, QueueNote};
use xa_boot::lock::{LockPass, Made};

/// A worker's right to enter a queue.
pub type QueuePass = LockPass<QueueNote<Filling>>;

/// The seats and the passes of workers, in their order; those of the queues stand by queue.
pub struct Tokens {
    pub seats: Vec<Seat<Filling>>,
    pub boards: Vec<LockPass<BoardNote>>,
    pub queues: Vec<Vec<QueuePass>>,
    pub clocks: Vec<LockPass<Made>>,
}

// Puts a worker's pass behind those of the other workers.
fn add_pass<E>(all: &mut Vec<LockPass<E>>, pass: Option<LockPass<E>>)
    requires there { IsSome pass }
    requires space { HasSpace 1 all.old }
    ensures added { IsThere (λ one. all.new.items ≡ all.old.items ++ one ∷ []) pass }
    ensures capacity { vec_capacity all.new ≡ vec_capacity all.old }
{
    match pass {
        Some(pass) => all.push_reserved(pass),
        None => unreachable!(),
    }
}

// Puts its pass of each queue behind those of the other workers.
fn add_passes(all: &mut Vec<Vec<QueuePass>>, mut passes: Vec<Option<QueuePass>>)
    requires count { length passes.items ≡ length all.old.items }
    requires there { All IsSome passes.items }
    requires space { All (HasSpace 1) all.old.items }
    ensures { AreAdded passes.items all.old.items all.new.items }
{
    while let Some(pass) = passes.pop() {
        add_pass(&mut all[passes.len()], pass);
    }
}

impl Tokens {
    /// Adds those of one worker.
    pub(crate) fn add(
        &mut self,
        seat: Seat<Filling>,
        board: Option<LockPass<BoardNote>>,
        queues: Vec<Option<QueuePass>>,
        clock: Option<LockPass<Made>>,
    )
        requires board { IsSome board }
        requires count { length queues.items ≡ length self.old.queues.items }
        requires there { All IsSome queues.items }
        requires clock { IsSome clock }
        requires space { HasTokenSpace 1 self.old }
        ensures { AddsTokens seat board queues.items clock self.old self.new }
    {
        self.seats.push_reserved(seat);
        add_pass(&mut self.boards, board);
        add_passes(&mut self.queues, queues);
        add_pass(&mut self.clocks, clock);
    }
}
