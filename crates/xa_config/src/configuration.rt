// The setup of a configuration.
ghost use Rattle.std.specs.Prelude.{◌≡◌, ◌≤◌, ◌++◌, [], true, not, IfOk, IfErr, MatchResult, map, length, nat_le, codes};
ghost use Rattle.std.specs.List.{list_all, list_any, sum_by};
ghost use Rattle.std.specs.Str.{bytes_eq};
ghost use Rattle.toml.specs.View.{view};
ghost use Rattle.xa_types.specs.Configured.{is_configured};
ghost use Rattle.xa_config.specs.Document.{TellsFirst, Reads, IsConfiguration, NamesFirstFault};
ghost use Rattle.xa_config.specs.Faults.{expects, at_key};
ghost use Rattle.xa_config.specs.Meaning.{text_at, list_at, server_of, service_of, setup_of};
ghost use Rattle.xa_config.specs.Tables.{unknown_tables, server_faults, service_faults, table_faults, rows_faults, unserved, faults_of};

use crate::document::{Value, parse, unknown_key};
use crate::lists::rows_of;
use crate::refusal::{ConfigRefused, NO_SERVER, TOO_MANY, UNKNOWN_KEY, refuse, refuse_indexed};
use crate::tables::{Queues, Servers, Services, Shapes, domain};
use std::alloc::Global;
use xa_types::{Name, Sequence, ServerSetup, ServiceSetup, Setup};

#[tactic(auto, using(crate::proofs::Tells::tells_map), unfolding(crate::specs::Tables::unknown_tables))]
fn check_tables(alloc: Global, document: &Value) -> Result<(), ConfigRefused>
    ensures { MatchResult result (λ _. unknown_tables (view document.now) ≡ []) (TellsFirst (unknown_tables (view document.now))) }
{
    match unknown_key(document, &["domain", "shape", "queue", "server", "service"]) {
        Some(key) => Err(refuse(alloc, UNKNOWN_KEY, key.as_bytes())),
        None => Ok(()),
    }
}

fn has_few_rows(services: &[ServiceSetup]) -> bool
    ensures { result ≡ nat_le (sum_by (λ service. length service.queues) services.now) 256 }
{
    let mut rows = 0usize;
    for service in services {
        rows = rows.saturating_add(service.queues.slice().len());
    }
    rows <= 256
}

fn is_served(servers: &[ServerSetup], queue: Name) -> bool
    ensures { result ≡ list_any (λ server. bytes_eq queue server.queue) servers.now }
{
    for server in servers {
        if queue.octets() == server.queue.octets() {
            return true;
        }
    }
    false
}

fn check_served(
    alloc: Global,
    servers: &[ServerSetup],
    queues: &[Name],
) -> Result<(), ConfigRefused>
    ensures { MatchResult result
        (λ _. unserved (map (λ server. server.queue) servers.now) 0 queues.now ≡ [])
        (TellsFirst (unserved (map (λ server. server.queue) servers.now) 0 queues.now)) }
{
    for (place, queue) in queues.iter().enumerate() {
        if !is_served(servers, *queue) {
            return Err(refuse_indexed(alloc, NO_SERVER, b"queue", place));
        }
    }
    Ok(())
}

// What is asked of the tables together: few rows, and a server for each queue.
fn check_whole(
    alloc: Global,
    servers: &[ServerSetup],
    services: &[ServiceSetup],
    queues: &[Name],
) -> Result<(), ConfigRefused>
    ensures { MatchResult result
        (λ _. at_key (codes "service") (expects (nat_le (sum_by (λ service. length service.queues) services.now) 256) 10)
        ++ unserved (map (λ server. server.queue) servers.now) 0 queues.now ≡ [])
        (TellsFirst (at_key (codes "service") (expects (nat_le (sum_by (λ service. length service.queues) services.now) 256) 10)
        ++ unserved (map (λ server. server.queue) servers.now) 0 queues.now)) }
{
    if !has_few_rows(services) {
        return Err(refuse(alloc, TOO_MANY, b"service"));
    }
    check_served(alloc, servers, queues)
}

// The servers and the services, where these are the names of the queues and of the shapes.
fn read_served(
    alloc: Global,
    document: &Value,
    queues: &[Name],
    shapes: &[Name],
) -> Result<(Sequence<ServerSetup>, Sequence<ServiceSetup>), ConfigRefused>
    requires { length shapes.now ≤ 64 }
    ensures { Reads (table_faults (codes "server") 1 64 (server_faults queues.now) (view document.now)
        ++ table_faults (codes "service") 0 256 (service_faults queues.now shapes.now) (view document.now)
        ++ rows_faults (list_at (codes "service") (view document.now))
        ++ unserved (map (text_at (codes "queue") []) (list_at (codes "server") (view document.now))) 0 queues.now)
        (map server_of (list_at (codes "server") (view document.now)), map (service_of shapes.now) (list_at (codes "service") (view document.now))) result }
{
    let rows = Servers { queues };
    let (servers, _) = rows_of(alloc, document, "server", 1, 64, &rows)?;
    let rows = Services { queues, shapes };
    let (services, _) = rows_of(alloc, document, "service", 0, 256, &rows)?;
    check_whole(alloc, servers.slice(), services.slice(), queues).and(Ok((servers, services)))
}

fn setup_of(alloc: Global, document: &Value) -> Result<Setup, ConfigRefused>
    ensures { Reads (faults_of (view document.now)) (setup_of (view document.now)) result }
{
    check_tables(alloc, document)?;
    let (block_time, blocks) = domain(alloc, document)?;
    let (shapes, shape_names) = rows_of(alloc, document, "shape", 0, 64, &Shapes)?;
    let (queues, queue_names) = rows_of(alloc, document, "queue", 1, 64, &Queues)?;
    let (servers, services) = read_served(
        alloc,
        document,
        queue_names.slice(),
        shape_names.slice(),
    )?;
    Ok(Setup {
        block_time,
        blocks,
        shapes,
        queues,
        servers,
        services,
    })
}

/// Reads the configuration of a domain, a TOML document in UTF-8.
///
/// `Ok` is what a document without a fault says, and comes for each. A `Fault` is the first in the order of checks:
/// whether the octets are a document; unknown tables; then `domain`, `shape`, `queue`, `server` and `service`, of each
/// the table, then each entry, of it the keys in the order of the setup's fields; then the number of rows; then the
/// queues without a server. `NoMemory` may come at any time.
pub fn read(alloc: Global, octets: &[u8]) -> Result<Setup, ConfigRefused>
    ensures found { IfOk result (IsConfiguration octets.now) }
    ensures configured { IfOk result (λ setup. is_configured setup ≡ true) }
    ensures refused { IfErr result (NamesFirstFault octets.now) }
{
    let document = parse(alloc, octets)?;
    setup_of(alloc, &document)
}
