// The clients and the servers beside each other.
ghost use Rattle.std.specs.Prelude.{◌≡◌, ◌<◌, ℕ, map, length, slice_index_or};
ghost use Rattle.std.specs.List.{All};
ghost use Rattle.xa_boot.specs.xa_events.Words.{EachNumbered};
ghost use Rattle.xa_boot.specs.xa_desk.Desks.{IsDomain};
ghost use Rattle.xa_history.specs.xa_script.declared.script.Client.{Client as Script};
ghost use Rattle.xa_boot.specs.xa_client_worker.Ending.{MayWork, HasWorked};
ghost use Rattle.xa_boot.specs.xa_server_worker.Working.{MayServe, HasServed};
ghost use Rattle.xa_boot.specs.Booting.{IsNewClient, IsNewServer, IsNewCloser};
ghost use Rattle.xa_domain.specs.Working.{IsBuiltClient, EachDone, IsOver};
ghost use Rattle.xa_domain.specs.Closing.{HasClosed};

use crate::beside::{all_at_work, both_at_work};
use crate::closing::close_behind;
use crate::forks::Halting;
use std::alloc::Global;
use std::sync::Wait;
use std::thread::Threads;
use xa_boot::clients::ClientWorker;
use xa_boot::desk::Monitor;
use xa_boot::link::{Gate, Link, Starter};
use xa_boot::links::ServerWorker;
use xa_boot::work::Halt;
use xa_boot::{Booted, Closer};
use xa_history::script::Client;

// What all workers share.
#[derive(Drop)]
struct Shared<'a, R, G> {
    monitor: Monitor<'a, R, G>,
    scripts: &'a [Client],
}

impl<'a, R, G> Halting for Shared<'a, R, G> {
    fn halt(&self) {
        self.monitor.domain.stop(Halt::NoMemory);
    }
}

// The workers of the clients, and what closes the domain behind them.
struct ClientSide {
    clients: Vec<ClientWorker>,
    closer: Closer,
}

// Each client makes the calls of its script.
fn clients_at_work<R: Threads + Wait + Sync, G: Gate>(
    shared: &Shared<'_, R, G>,
    clients: &mut [ClientWorker],
)
    requires domain { IsDomain shared.now.monitor.domain.now }
    requires built { All IsBuiltClient shared.now.scripts.now }
    requires count { length shared.now.scripts.now ≡ length clients.old }
    requires new { EachNumbered (IsNewClient shared.now.monitor.domain.now) 1 clients.old }
    ensures { EachDone shared.now.monitor.domain.now 1 shared.now.scripts.now clients.new }
{
    let work = |shared: &Shared<'_, R, G>, place: usize, client: &mut ClientWorker|
        requires { IsDomain shared.now.monitor.domain.now × All IsBuiltClient shared.now.scripts.now × (place < length shared.now.scripts.now) × MayWork shared.now.monitor.domain.now client.old }
        ensures { (script : Script) → script ≡ slice_index_or shared.now.scripts.now place script → HasWorked shared.now.monitor.domain.now script.ops (length script.ops) client.old client.new }
    {
        let ops = shared.scripts[place].ops.slice();
        client.work(&shared.monitor, ops)
    };
    all_at_work(shared.monitor.rt, shared, clients, &work);
}

// Each server serves.
fn servers_at_work<R: Threads + Wait + Sync, L: Link + Send, T: Starter<L> + Send, G: Gate>(
    shared: &Shared<'_, R, G>,
    servers: &mut [ServerWorker<L, T>],
)
    requires domain { IsDomain shared.now.monitor.domain.now }
    requires new { EachNumbered (IsNewServer shared.now.monitor.domain.now T.shows) 1 servers.old }
    ensures over { EachNumbered (IsOver shared.now.monitor.domain.now T.shows) 1 servers.new }
    ensures names { map (λ w. (T.shows w.served.starter).name) servers.new ≡ map (λ w. w.name) servers.old }
{
    let work = |shared: &Shared<'_, R, G>, _: usize, server: &mut ServerWorker<L, T>|
        requires { IsDomain shared.now.monitor.domain.now × MayServe shared.now.monitor.domain.now T.shows server.old }
        ensures { HasServed shared.now.monitor.domain.now T.shows server.old server.new }
    { server.work(&shared.monitor) };
    all_at_work(shared.monitor.rt, shared, servers, &work);
}

// The clients, once each server is up or given up, and then the closing.
fn clients_then_closing<R: Threads + Wait + Sync, G: Gate>(
    shared: &Shared<'_, R, G>,
    side: &mut ClientSide,
)
    requires domain { IsDomain shared.now.monitor.domain.now }
    requires built { All IsBuiltClient shared.now.scripts.now }
    requires scripts { length shared.now.scripts.now ≡ shared.now.monitor.domain.now.clients }
    requires count { length side.old.clients.items ≡ shared.now.monitor.domain.now.clients }
    requires new { EachNumbered (IsNewClient shared.now.monitor.domain.now) 1 side.old.clients.items }
    requires closer { IsNewCloser shared.now.monitor.domain.now side.old.closer }
    ensures clients { EachDone shared.now.monitor.domain.now 1 shared.now.scripts.now side.new.clients.items }
    ensures closer { HasClosed shared.now.monitor.domain.now side.new.clients.items side.new.closer }
{
    let Monitor { rt, domain, .. } = shared.monitor;
    domain.await_up(rt);
    clients_at_work(shared, side.clients.as_mut_slice());
    close_behind(rt, domain, side.clients.as_slice(), &mut side.closer);
    match side.closer.halt {
        None => domain.wake_all(),
        Some(halt) => domain.stop(halt),
    }
}

/// Runs each client and each server of the domain on a thread of its own, and closes the queues once all clients have left.
/// Where a thread can't be made the run halts, and the worker that it was for is run on the thread that wanted to make it.
pub fn run_all<'a, R: Threads + Wait + Sync, L: Link + Send, T: Starter<L> + Send, G: Gate>(
    rt: &'a R,
    alloc: Global,
    scripts: &'a [Client],
    booted: Booted<L, T>,
    gate: &'a G,
) -> Booted<L, T>
    requires domain { IsDomain booted.domain }
    requires built { All IsBuiltClient scripts.now }
    requires scripts { length scripts.now ≡ booted.domain.clients }
    requires count { length booted.clients.items ≡ booted.domain.clients }
    requires new_clients { EachNumbered (IsNewClient booted.domain) 1 booted.clients.items }
    requires new_servers { EachNumbered (IsNewServer booted.domain T.shows) 1 booted.servers.items }
    requires closer { IsNewCloser booted.domain booted.closer }
    ensures domain { result.domain ≡ booted.domain }
    ensures clients { EachDone booted.domain 1 scripts.now result.clients.items }
    ensures servers { EachNumbered (IsOver booted.domain T.shows) 1 result.servers.items }
    ensures names { map (λ w. (T.shows w.served.starter).name) result.servers.items ≡ map (λ w. w.name) booted.servers.items }
    ensures closer { HasClosed booted.domain result.clients.items result.closer }
{
    let Booted {
        domain,
        clients,
        mut servers,
        closer,
    } = booted;
    let mut side = ClientSide { clients, closer };
    let monitor = Monitor {
        rt,
        alloc,
        domain: &domain,
        gate,
    };
    let shared = Shared { monitor, scripts };
    let clients_work = |shared: &Shared<'_, R, G>, _: usize, side: &mut ClientSide|
        requires { IsDomain shared.now.monitor.domain.now × All IsBuiltClient shared.now.scripts.now × (length shared.now.scripts.now ≡ shared.now.monitor.domain.now.clients)
            × (length side.old.clients.items ≡ shared.now.monitor.domain.now.clients) × EachNumbered (IsNewClient shared.now.monitor.domain.now) 1 side.old.clients.items
            × IsNewCloser shared.now.monitor.domain.now side.old.closer }
        ensures { EachDone shared.now.monitor.domain.now 1 shared.now.scripts.now side.new.clients.items × HasClosed shared.now.monitor.domain.now side.new.clients.items side.new.closer }
    { clients_then_closing(shared, side) };
    let servers_work = |shared: &Shared<'_, R, G>, _: usize, servers: &mut Vec<ServerWorker<L, T>>|
        requires { IsDomain shared.now.monitor.domain.now × EachNumbered (IsNewServer shared.now.monitor.domain.now T.shows) 1 servers.old.items }
        ensures { EachNumbered (IsOver shared.now.monitor.domain.now T.shows) 1 servers.new.items
            × (map (λ w. (T.shows w.served.starter).name) servers.new.items ≡ map (λ w. w.name) servers.old.items) }
    { servers_at_work(shared, servers.as_mut_slice()) };
    both_at_work(
        rt,
        &shared,
        &mut side,
        &mut servers,
        &clients_work,
        &servers_work,
    );
    let ClientSide { clients, closer } = side;
    Booted {
        domain,
        clients,
        servers,
        closer,
    }
}
