// The tables of a configuration.
ghost use Rattle.std.specs.Prelude.{◌≡◌, ◌≤◌, ⊤, length, codes};
ghost use Rattle.toml.specs.Data.{get};
ghost use Rattle.toml.specs.View.{view};
ghost use Rattle.xa_config.specs.Document.{Reads};
ghost use Rattle.xa_config.specs.Meaning.{shape_of, queue_of, server_of, service_of, domain_number};
ghost use Rattle.xa_config.specs.Tables.{domain_faults, shape_faults, queue_faults, server_faults, service_faults};

use crate::document::{Value, is_table, member};
use crate::entry::Entry;
use crate::kinds::{Fields, QueueNames};
use crate::lists::Rows;
use crate::refusal::{ConfigRefused, WRONG_TYPE, refuse};
use std::alloc::Global;
use xa_types::{Name, QueueSetup, ServerSetup, ServiceSetup, ShapeSetup};

// The group of a queue that names none.
fn main_group() -> Name
    ensures { result ≡ codes "MAIN" }
{
    match Name::read(b"MAIN") {
        Ok(name) => name,
        Err(_) => unreachable!(),
    }
}

/// The shapes.
pub struct Shapes;

impl Rows for Shapes {
    type Row = ShapeSetup;

    ghost can_read = { λ _. ⊤ };

    ghost faults = { λ _. shape_faults };

    ghost says = { λ _. shape_of };

    ghost named = { λ shape. shape.name };

    #[tactic(auto, unfolding(crate::specs::Tables::shape_faults, crate::specs::Meaning::shape_of))]
    fn read(&self, entry: &Entry<'_>, earlier: &[Name]) -> Result<ShapeSetup, ConfigRefused> {
        entry.no_unknown(&["name", "fields"])?;
        let name = entry.new_identifier("name", earlier)?;
        let fields = entry.list("fields", &Fields)?;
        Ok(ShapeSetup { name, fields })
    }

    fn name(shape: &ShapeSetup) -> Name {
        shape.name
    }
}

/// The queues.
pub struct Queues;

impl Rows for Queues {
    type Row = QueueSetup;

    ghost can_read = { λ _. ⊤ };

    ghost faults = { λ _. queue_faults };

    ghost says = { λ _. queue_of };

    ghost named = { λ queue. queue.name };

    #[tactic(auto, unfolding(crate::specs::Tables::queue_faults, crate::specs::Meaning::queue_of))]
    fn read(&self, entry: &Entry<'_>, earlier: &[Name]) -> Result<QueueSetup, ConfigRefused> {
        entry.no_unknown(&["name", "group", "capacity"])?;
        let name = entry.new_name("name", earlier)?;
        let group = entry.name_or("group", main_group())?;
        let capacity = entry.number("capacity", 1, 10_000, 100)?;
        Ok(QueueSetup {
            name,
            group,
            capacity,
        })
    }

    fn name(queue: &QueueSetup) -> Name {
        queue.name
    }
}

/// The servers, where these are the names of the queues.
#[derive(Drop)]
pub struct Servers<'a> {
    pub queues: &'a [Name],
}

impl Rows for Servers<'_> {
    type Row = ServerSetup;

    ghost can_read = { λ _. ⊤ };

    ghost faults = { λ rows. server_faults rows.queues.now };

    ghost says = { λ _. server_of };

    ghost named = { λ server. server.name };

    #[tactic(auto, unfolding(crate::specs::Tables::server_faults, crate::specs::Meaning::server_of))]
    fn read(&self, entry: &Entry<'_>, earlier: &[Name]) -> Result<ServerSetup, ConfigRefused> {
        entry.no_unknown(&["name", "queue", "program", "restart", "maxgen", "grace"])?;
        let name = entry.new_name("name", earlier)?;
        let queue = entry.name_among("queue", self.queues)?;
        let program = entry.program("program")?;
        let restart = entry.truth("restart")?;
        let maxgen = entry.number("maxgen", 1, 255, 1)?;
        let grace = entry.number("grace", 1, 2_147_483_647, 86_400)?;
        Ok(ServerSetup {
            name,
            queue,
            program,
            restart,
            maxgen: maxgen as u8,
            grace,
        })
    }

    fn name(server: &ServerSetup) -> Name
        ensures { result ≡ server.now.name }
    {
        server.name
    }
}

/// The services, where these are the names of the queues and of the shapes.
#[derive(Drop)]
pub struct Services<'a> {
    pub queues: &'a [Name],
    pub shapes: &'a [Name],
}

impl Rows for Services<'_> {
    type Row = ServiceSetup;

    ghost can_read = { λ rows. length rows.shapes.now ≤ 64 };

    ghost faults = { λ rows. service_faults rows.queues.now rows.shapes.now };

    ghost says = { λ rows. service_of rows.shapes.now };

    ghost named = { λ service. service.name };

    #[tactic(auto, unfolding(crate::specs::Tables::service_faults, crate::specs::Meaning::service_of))]
    fn read(&self, entry: &Entry<'_>, earlier: &[Name]) -> Result<ServiceSetup, ConfigRefused> {
        entry.no_unknown(&[
            "name",
            "routine",
            "queues",
            "priority",
            "accepts",
            "conversational",
        ])?;
        let name = entry.new_name("name", earlier)?;
        let routine = entry.name_or("routine", name)?;
        let queues = entry.list("queues", &QueueNames { names: self.queues })?;
        let priority = entry.number("priority", 1, 100, 50)?;
        let accepts = entry.accepts("accepts", self.shapes)?;
        let conversational = entry.truth("conversational")?;
        Ok(ServiceSetup {
            name,
            routine,
            queues,
            priority: priority as u8,
            accepts,
            conversational,
        })
    }

    fn name(service: &ServiceSetup) -> Name
        ensures { result ≡ service.now.name }
    {
        service.name
    }
}

/// The block time and the number of blocks.
#[tactic(auto, unfolding(crate::specs::Tables::domain_faults, crate::specs::Tables::domain_keys, crate::specs::Meaning::domain_number))]
pub fn domain(alloc: Global, document: &Value) -> Result<(u32, u32), ConfigRefused>
    ensures { Reads (domain_faults (get (codes "domain") (view document.now))) (
      domain_number (codes "blocktime") 60 (get (codes "domain") (view document.now)),
      domain_number (codes "blocks") 256 (get (codes "domain") (view document.now)),
    ) result }
{
    let Some(table) = member(document, "domain") else {
        return Ok((60, 256));
    };
    if !is_table(table) {
        return Err(refuse(alloc, WRONG_TYPE, b"domain"));
    }
    let entry = Entry {
        alloc,
        place: b"domain",
        table,
    };
    entry.no_unknown(&["blocktime", "blocks"])?;
    let block_time = entry.number("blocktime", 1, 2_147_483_647, 60)?;
    let blocks = entry.number("blocks", 1, 4_096, 256)?;
    Ok((block_time, blocks))
}
