// A script is served.
ghost use Rattle.std.specs.Prelude.{◌≡◌, ◌⊎◌, Some, [], length, map, true};
ghost use Rattle.std.specs.List.{All};
ghost use Rattle.xa_boot.specs.xa_types.Configured.{is_configured};
ghost use Rattle.xa_boot.specs.xa_link.Starts.{AsksStarters};
ghost use Rattle.xa_boot.specs.xa_server_worker.Lives.{HasStarted};
ghost use Rattle.xa_boot.specs.xa_server_worker.Working.{cut_in};
ghost use Rattle.xa_boot.specs.Booting.{HasBooted};
ghost use Rattle.xa_domain.specs.Room.{HasRoom};
ghost use Rattle.xa_domain.specs.Serving.{IsBuilt, ServeEnds};

use crate::crew::run_all;
use crate::handing::{Served, hand_back};
use crate::room::Room;
use std::alloc::Global;
use std::sync::Wait;
use std::thread::Threads;
use xa_boot::link::{Gate, Link, Starter, Yard};
use xa_boot::stamp::Record;
use xa_boot::types::{Sequence, Setup};
use xa_boot::work::Halt;
use xa_boot::{Booted, NotBooted, boot};
use xa_history::script::{Client, Script};

// What there is to hand back where memory ran out before the domain was booted.
fn none_served<L: Link, T>(alloc: Global, starters: Vec<T>) -> Served<L, T>
    ensures halt { result.halt ≡ Some Halt.NoMemory }
    ensures homes { result.homes.homes ≡ [] }
    ensures lives { result.lives.items ≡ [] }
    ensures cut { result.cut.items ≡ [] }
    ensures starters { result.starters ≡ starters }
{
    Served {
        halt: Some(Halt::NoMemory),
        homes: Record {
            homes: Sequence::from_vec(Vec::new(alloc)),
        },
        lives: Vec::new(alloc),
        cut: Vec::new(alloc),
        starters,
    }
}

// The domain, which is booted, serves the clients.
fn serve_by<R: Threads + Wait + Sync, L: Link + Send, T: Starter<L> + Send, G: Gate>(
    rt: &R,
    alloc: Global,
    clients: &[Client],
    booted: Booted<L, T>,
    room: Room<L, T>,
    gate: &G,
) -> Served<L, T>
    requires built { IsBuilt clients.now }
    requires booted { HasBooted T.shows booted.domain.setup (length clients.now) (map (λ w. w.served.starter) booted.servers.items) booted }
    requires room { HasRoom (length booted.domain.setup.queues) (length clients.now) (length booted.domain.setup.servers) room }
    ensures { ServeEnds T.shows booted.domain.setup clients.now result.halt result.homes.homes (map (λ v. v.items) result.lives.items) (map cut_in result.cut.items) result.starters.items }
{
    let done = run_all(rt, alloc, clients, booted, gate);
    hand_back(done, room)
}

// The domain is booted with these starters, and serves the clients.
fn serve_with<R: Threads + Wait + Sync, L: Link + Send, T: Starter<L> + Send, G: Gate>(
    rt: &R,
    alloc: Global,
    setup: Setup,
    clients: &[Client],
    starters: Vec<T>,
    room: Room<L, T>,
    gate: &G,
) -> Served<L, T>
    requires configured { is_configured setup ≡ true }
    requires built { IsBuilt clients.now }
    requires names { map (λ s. (T.shows s).name) starters.items ≡ map (λ server. server.name) setup.servers }
    requires unasked { All (λ s. HasStarted (T.shows s).name 0 0 (T.shows s)) starters.items }
    requires room { HasRoom (length setup.queues) (length clients.now) (length setup.servers) room }
    ensures { ServeEnds T.shows setup clients.now result.halt result.homes.homes (map (λ v. v.items) result.lives.items) (map cut_in result.cut.items) result.starters.items }
{
    match boot(alloc, setup, clients.len() as u16, starters) {
        Ok(booted) => serve_by(rt, alloc, clients, booted, room, gate),
        Err(NotBooted { starters }) => {
            room.free();
            none_served(alloc, starters)
        }
    }
}

// The clients are served, where there is memory for it.
fn serve_all<R: Threads + Wait + Sync, Y: Yard, G: Gate>(
    rt: &R,
    alloc: Global,
    setup: Setup,
    clients: &[Client],
    yard: &mut Y,
    gate: &G,
) -> Served<Y::Line, Y::Start>
    requires configured { is_configured setup ≡ true }
    requires built { IsBuilt clients.now }
    ensures ends { ServeEnds Y.Start.shows setup clients.now result.halt result.homes.homes (map (λ v. v.items) result.lives.items) (map cut_in result.cut.items) result.starters.items }
    ensures asked { AsksStarters (Y.asked yard.old) (Y.asked yard.new) setup ⊎ ((result.halt ≡ Some Halt.NoMemory) × (Y.asked yard.new ≡ Y.asked yard.old)) }
{
    let queues = setup.queues.slice().len();
    let servers = setup.servers.slice().len();
    let Ok(room) = Room::reserve(alloc, queues, clients.len(), servers) else {
        return none_served(alloc, Vec::new(alloc));
    };
    let Ok(starters) = yard.starters(&setup) else {
        room.free();
        return none_served(alloc, Vec::new(alloc));
    };
    serve_with(rt, alloc, setup, clients, starters, room, gate)
}

/// Serves a script: the domain is booted, each server is started by its own worker, each client makes its calls beside the
/// others and leaves, and the queues are closed.
pub fn serve<R: Threads + Wait + Sync, Y: Yard, G: Gate>(
    rt: &R,
    alloc: Global,
    setup: Setup,
    script: &Script,
    yard: &mut Y,
    gate: &G,
) -> Served<Y::Line, Y::Start>
    requires configured { is_configured setup ≡ true }
    requires built { IsBuilt script.now.clients }
    ensures ends { ServeEnds Y.Start.shows setup script.now.clients result.halt result.homes.homes (map (λ v. v.items) result.lives.items) (map cut_in result.cut.items) result.starters.items }
    ensures asked { AsksStarters (Y.asked yard.old) (Y.asked yard.new) setup ⊎ ((result.halt ≡ Some Halt.NoMemory) × (Y.asked yard.new ≡ Y.asked yard.old)) }
{
    serve_all(rt, alloc, setup, script.clients.slice(), yard, gate)
}
