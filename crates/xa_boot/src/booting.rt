// The boot.
ghost use Rattle.std.specs.Prelude.{◌≡◌, ◌≤◌, true, [], length, map, IfOk, IfErr};
ghost use Rattle.std.specs.List.{All};
ghost use Rattle.xa_client_worker.specs.xa_types.Configured.{is_configured};
ghost use Rattle.xa_server_worker.specs.Lives.{HasStarted};
ghost use Rattle.xa_boot.specs.Booting.{HasBooted};
ghost use Rattle.xa_boot.specs.Founding.{IsFounded, AreRooms};

use crate::closer::Closer;
use crate::founding::{Founded, found};
use crate::hiring::{hire_clients, hire_closer, hire_servers};
use std::alloc::Global;
use xa_client_worker::ClientWorker;
use xa_client_worker::desk::Domain;
use xa_client_worker::link::{Link, Starter};
use xa_client_worker::types::{NoMemory, Setup};
use xa_server_worker::ServerWorker;

/// What a run is made of: the domain, and its workers.
pub struct Booted<L: Link, T: Starter<L>> {
    pub domain: Domain,
    pub clients: Vec<ClientWorker>,
    pub servers: Vec<ServerWorker<L, T>>,
    pub closer: Closer,
}

/// A domain that wasn't booted, since memory ran out: its starters.
pub struct NotBooted<T> {
    pub starters: Vec<T>,
}

// Room for the workers.
pub struct Workers<L: Link, T: Starter<L>> {
    pub clients: Vec<ClientWorker>,
    pub servers: Vec<ServerWorker<L, T>>,
}

impl<L: Link, T: Starter<L>> Workers<L, T> {
    fn reserve(alloc: Global, clients: u16, servers: usize) -> Result<Workers<L, T>, NoMemory>
        ensures { IfOk result (AreRooms clients servers) }
    {
        let clients = Vec::with_capacity(alloc, usize::from(clients))?;
        let Ok(servers) = Vec::with_capacity(alloc, servers) else {
            clients.destroy_empty();
            return Err(NoMemory);
        };
        Ok(Workers { clients, servers })
    }

    fn free(self)
        requires clients { self.clients.items ≡ [] }
        requires servers { self.servers.items ≡ [] }
    {
        let Workers { clients, servers } = self;
        clients.destroy_empty();
        servers.destroy_empty();
    }
}

// Each worker gets its desk.
fn hire<L: Link, T: Starter<L>>(
    alloc: Global,
    founded: Founded,
    workers: Workers<L, T>,
    starters: Vec<T>,
) -> Booted<L, T>
    requires founded { IsFounded founded.domain.setup founded.domain.clients founded }
    requires rooms { AreRooms founded.domain.clients (length starters.items) workers }
    requires names { map (λ s. (T.shows s).name) starters.items ≡ map (λ server. server.name) founded.domain.setup.servers }
    requires unasked { All (λ s. HasStarted (T.shows s).name 0 0 (T.shows s)) starters.items }
    ensures { HasBooted T.shows founded.domain.setup founded.domain.clients starters.items result }
{
    let Founded {
        domain,
        mut staff,
        lives,
    } = founded;
    let Workers {
        mut clients,
        mut servers,
    } = workers;
    hire_servers(alloc, &domain, &mut staff, lives, starters, &mut servers);
    hire_clients(alloc, &domain, &mut staff, &mut clients);
    let closer = hire_closer(&domain, staff);
    Booted {
        domain,
        clients,
        servers,
        closer,
    }
}

/// Boots a domain with so many clients, at most 64, where each server has its starter.
pub fn boot<L: Link, T: Starter<L>>(
    alloc: Global,
    setup: Setup,
    clients: u16,
    starters: Vec<T>,
) -> Result<Booted<L, T>, NotBooted<T>>
    requires configured { is_configured setup ≡ true }
    requires few { clients ≤ 64 }
    requires names { map (λ s. (T.shows s).name) starters.items ≡ map (λ server. server.name) setup.servers }
    requires unasked { All (λ s. HasStarted (T.shows s).name 0 0 (T.shows s)) starters.items }
    ensures booted { IfOk result (HasBooted T.shows setup clients starters.items) }
    ensures back { IfErr result (λ back. back.starters.items ≡ starters.items) }
{
    let Ok(workers) = Workers::reserve(alloc, clients, starters.len()) else {
        return Err(NotBooted { starters });
    };
    match found(alloc, setup, clients) {
        Ok(founded) => Ok(hire(alloc, founded, workers, starters)),
        Err(NoMemory) => {
            workers.free();
            Err(NotBooted { starters })
        }
    }
}
