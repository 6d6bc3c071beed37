// The workers with their desks, of which each takes what the workers before it have left.
ghost use Rattle.std.specs.Prelude.{◌≡◌, ◌+◌, ◌<◌, ◌≤◌, [], length, map, slice_get, Some, true, vec_capacity};
ghost use Rattle.std.specs.List.{All};
ghost use Rattle.xa_client_worker.specs.xa_types.Configured.{is_configured};
ghost use Rattle.xa_server_worker.specs.Lives.{HasStarted};
ghost use Rattle.xa_client_worker.specs.xa_restart.Rule.{RestartState};
ghost use Rattle.xa_client_worker.specs.xa_desk.Desks.{IsDomain};
ghost use Rattle.xa_boot.specs.Booting.{IsNewServer, IsNewCloser};
ghost use Rattle.xa_boot.specs.Supplies.{restarts_of};
ghost use Rattle.xa_boot.specs.Hiring.{AreLeft, HasClients, HasServers};

use crate::closer::Closer;
use crate::staff::{Post, Staff, last_of};
use std::alloc::Global;
use xa_client_worker::ClientWorker;
use xa_client_worker::desk::Domain;
use xa_client_worker::link::{Link, Starter};
use xa_client_worker::restart::Lives;
use xa_client_worker::route::queue_named;
use xa_client_worker::server::{Served, ServerSlot};
use xa_client_worker::types::ServerId;
use xa_server_worker::ServerWorker;

// The worker of the server at that place, which is the last that is left.
fn server_worker<L: Link, T: Starter<L>>(
    alloc: Global,
    domain: &Domain,
    staff: &mut Staff,
    place: usize,
    lives: Lives,
    starter: T,
) -> ServerWorker<L, T>
    requires domain { IsDomain domain.now }
    requires left { AreLeft domain.now (domain.now.clients + place + 2) staff.old }
    requires place { place < length domain.now.setup.servers }
    requires lives { slice_get (map restarts_of domain.now.setup.servers) place ≡ Some lives }
    requires named { slice_get (map (λ server. server.name) domain.now.setup.servers) place ≡ Some (T.shows starter).name }
    requires unasked { HasStarted (T.shows starter).name 0 0 (T.shows starter) }
    ensures left { AreLeft domain.now (domain.now.clients + place + 1) staff.new }
    ensures own { staff.new.own ≡ staff.old.own }
    ensures starter { result.served.starter ≡ starter }
    ensures worker { IsNewServer domain.now T.shows (place + 1) result }
{
    let configured = &domain.setup.servers.slice()[place];
    let slot = ServerSlot::new(ServerId(place as u16 + 1), lives);
    ServerWorker {
        desk: staff.desk(alloc, domain),
        served: Served::new(alloc, slot, starter),
        name: configured.name,
        queue: queue_named(&domain.setup, &configured.queue),
        counted: false,
        cut: None,
        stopped: None,
    }
}

/// Each server gets its worker.
pub(crate) fn hire_servers<L: Link, T: Starter<L>>(
    alloc: Global,
    domain: &Domain,
    staff: &mut Staff,
    mut lives: Vec<Lives>,
    mut starters: Vec<T>,
    servers: &mut Vec<ServerWorker<L, T>>,
)
    requires domain { IsDomain domain.now }
    requires left { AreLeft domain.now (domain.now.clients + length starters.items + 1) staff.old }
    requires lives { lives.items ≡ map restarts_of domain.now.setup.servers }
    requires named { map (λ s. (T.shows s).name) starters.items ≡ map (λ server. server.name) domain.now.setup.servers }
    requires unasked { All (λ s. HasStarted (T.shows s).name 0 0 (T.shows s)) starters.items }
    requires room { (servers.old.items ≡ []) × (length starters.items ≤ vec_capacity servers.old) }
    ensures left { AreLeft domain.now (domain.now.clients + 1) staff.new }
    ensures own { staff.new.own ≡ staff.old.own }
    ensures servers { HasServers domain.now T.shows starters.items servers.new.items }
{
    while let Some(starter) = starters.pop() {
        let place = starters.len();
        let its = last_of(&mut lives);
        servers.push_reserved(server_worker(alloc, domain, staff, place, its, starter));
    }
    starters.destroy_empty();
    servers.reverse();
}

/// Each client gets its worker.
pub(crate) fn hire_clients(
    alloc: Global,
    domain: &Domain,
    staff: &mut Staff,
    clients: &mut Vec<ClientWorker>,
)
    requires left { AreLeft domain.now (domain.now.clients + 1) staff.old }
    requires room { (clients.old.items ≡ []) × (domain.now.clients ≤ vec_capacity clients.old) }
    ensures left { AreLeft domain.now 1 staff.new }
    ensures own { staff.new.own ≡ staff.old.own }
    ensures clients { HasClients domain.now clients.new.items }
{
    for _ in 0..domain.clients {
        clients.push_reserved(ClientWorker::Ready(staff.desk(alloc, domain)));
    }
    clients.reverse();
}

/// The domain itself gets what is left.
pub(crate) fn hire_closer(domain: &Domain, mut staff: Staff) -> Closer
    requires left { AreLeft domain.now 1 staff }
    ensures { IsNewCloser domain.now result }
{
    let Post {
        seat,
        reader: _,
        board,
        queues,
        clock,
    } = staff.next();
    let Staff {
        left: _,
        own,
        version: _,
        seats,
        readers: _,
        boards: _,
        queues: _,
        clocks: _,
        rooms: _,
    } = staff;
    seats.destroy_empty();
    Closer {
        seat,
        board: Some(board),
        queues,
        clock: Some(clock),
        own,
        seen: domain.booted,
        halt: None,
    }
}
