// What the workers leave is taken from them: first the domain itself, then the clients, then the servers.
ghost use Rattle.std.specs.Prelude.{◌≡◌, ◌+◌, ℕ, List, length, None};
ghost use Rattle.xa_boot.specs.xa_events.Words.{EachNumbered};
ghost use Rattle.xa_history.specs.xa_script.declared.script.Client.{Client};
ghost use Rattle.xa_boot.specs.xa_desk.declared.desk.Desk.{Desk as Place};
ghost use Rattle.xa_boot.specs.xa_desk.Desks.{IsDomain};
ghost use Rattle.xa_boot.specs.xa_client_worker.Ending.{here_by};
ghost use Rattle.xa_domain.specs.Working.{EachDone, IsOver};
ghost use Rattle.xa_domain.specs.Closing.{HasClosed};
ghost use Rattle.xa_domain.specs.Leaving.{Leaving};
ghost use Rattle.xa_domain.specs.Room.{IsNothing};
ghost use Rattle.xa_domain.specs.Gathered.{HasGathered};
ghost use Rattle.xa_domain.specs.Stops.{first_of};
ghost use Rattle.xa_domain.specs.Gathering.{HasWorkerSpace, HasServerSpace, KeepsServers, IsBeforeClients, HasClients, IsBeforeServers, HasServers};

use crate::tokens::Tokens;
use xa_boot::Closer;
use xa_boot::caller::Left;
use xa_boot::clients::{ClientWorker, Ended};
use xa_boot::desk::{Domain, Done, Stopped};
use xa_boot::link::{Link, Starter};
use xa_boot::links::{CutLife, ServerWorker};
use xa_boot::pipe::EndedLife;
use xa_boot::server::Served;
use xa_boot::stamp::Home;
use xa_boot::work::Halt;

/// What the workers leave: their seats and passes, the homes of the callers, why the run stopped, if it did, and by server
/// its lives, the one that went on at a halt, and its starter.
pub struct Gathered<L: Link, T> {
    pub tokens: Tokens,
    pub callers: Vec<Home>,
    pub stopped: Option<Stopped>,
    pub lives: Vec<Vec<EndedLife<L>>>,
    pub cut: Vec<Option<CutLife<L>>>,
    pub starters: Vec<T>,
}

// The first halt that a worker came to itself comes before that one saw another halt.
fn first_of(before: Option<Stopped>, next: Option<Stopped>) -> Option<Stopped>
    ensures { result ≡ first_of before next }
{
    match before {
        Some(Stopped::Here(_)) => before,
        Some(Stopped::Elsewhere) | None => next.or(before),
    }
}

// The halt that the domain itself came to comes last.
fn with_halt(before: Option<Stopped>, halt: Option<Halt>) -> Option<Stopped>
    ensures { result ≡ first_of before (here_by halt) }
{
    match halt {
        Some(halt) => first_of(before, Some(Stopped::Here(halt))),
        None => before,
    }
}

fn add_clients<L: Link, T>(domain: &Domain, all: &mut Gathered<L, T>, clients: Vec<ClientWorker>)
    requires domain { IsDomain domain.now }
    requires may { (itself : Leaving) × (scripts : List Client) × IsBeforeClients domain.now itself scripts clients.items all.old }
    requires space { HasWorkerSpace (length clients.items) all.old }
    ensures taken { (itself : Leaving) (scripts : List Client) → IsBeforeClients domain.now itself scripts clients.items all.old → HasClients domain.now itself scripts clients.items all.old all.new }
    ensures space { (more : ℕ) → HasWorkerSpace (length clients.items + more) all.old → HasWorkerSpace more all.new }
    ensures kept { KeepsServers all.old all.new }
{
    let mut rest = clients.into_iter();
    while let Some(client) = rest.next() {
        let Ended { done, stopped } = client.end(domain);
        let Done {
            left,
            reader: _,
            board,
            queues,
            clock,
        } = done;
        let Left {
            work,
            seat,
            halt: _,
        } = left;
        all.stopped = first_of(all.stopped, stopped);
        all.tokens.add(seat, board, queues, clock);
        all.callers.push_reserved(work.home());
    }
    rest.destroy_empty();
}

fn add_servers<L: Link, T: Starter<L>>(
    domain: &Domain,
    all: &mut Gathered<L, T>,
    servers: Vec<ServerWorker<L, T>>,
)
    requires domain { IsDomain domain.now }
    requires may { (itself : Leaving) × (desks : List Place) × IsBeforeServers domain.now T.shows itself desks servers.items all.old }
    requires space { HasServerSpace (length servers.items) all.old }
    ensures { (itself : Leaving) (desks : List Place) → IsBeforeServers domain.now T.shows itself desks servers.items all.old
        → HasServers domain.now T.shows itself desks servers.items all.old all.new }
{
    let mut rest = servers.into_iter();
    while let Some(server) = rest.next() {
        let ServerWorker {
            desk,
            served,
            name: _,
            queue: _,
            counted: _,
            cut,
            stopped,
        } = server;
        let Served {
            slot,
            starter,
            lives,
        } = served;
        slot.end();
        let Done {
            left,
            reader: _,
            board,
            queues,
            clock,
        } = desk.abandon(domain);
        let Left {
            work,
            seat,
            halt: _,
        } = left;
        all.stopped = first_of(all.stopped, stopped);
        all.tokens.add(seat, board, queues, clock);
        all.callers.push_reserved(work.home());
        all.lives.push_reserved(lives);
        all.cut.push_reserved(cut);
        all.starters.push_reserved(starter);
    }
    rest.destroy_empty();
}

/// Takes from each worker what it leaves, into room where nothing stands.
pub(crate) fn gather<L: Link, T: Starter<L>>(
    domain: &Domain,
    clients: Vec<ClientWorker>,
    servers: Vec<ServerWorker<L, T>>,
    closer: Closer,
    room: Gathered<L, T>,
) -> Gathered<L, T>
    requires domain { IsDomain domain.now }
    requires all_clients { length clients.items ≡ domain.now.clients }
    requires all_servers { length servers.items ≡ length domain.now.setup.servers }
    requires done { (scripts : List Client) × EachDone domain.now 1 scripts clients.items }
    requires over { EachNumbered (IsOver domain.now T.shows) 1 servers.items }
    requires closed { HasClosed domain.now clients.items closer }
    requires room { IsNothing (length domain.now.queues.items) domain.now.clients (length domain.now.setup.servers) room }
    ensures { (scripts : List Client) → EachDone domain.now 1 scripts clients.items
        → HasGathered domain.now T.shows scripts clients.items servers.items closer result }
{
    let mut all = room;
    let Closer {
        seat,
        board,
        queues,
        clock,
        own: _,
        seen: _,
        halt,
    } = closer;
    all.tokens.add(seat, board, queues, clock);
    add_clients(domain, &mut all, clients);
    add_servers(domain, &mut all, servers);
    all.stopped = with_halt(all.stopped, halt);
    all
}
