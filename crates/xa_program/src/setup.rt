// The setups of the commands: that of a configuration, and that of `play`.
ghost use Rattle.std.specs.Prelude.{◌≡◌, ◌≤◌, true, length, Some, IfOk, IfErr, OnOk};
ghost use Rattle.xa_domain.specs.xa_types.Configured.{is_configured};
ghost use Rattle.xa_domain.specs.xa_types.Name.{IsName};
ghost use Rattle.xa_domain.specs.xa_link.Reads.{Holds};
ghost use Rattle.xa_domain.specs.xa_link.Starts.{AsksFile};
ghost use Rattle.xa_config.specs.Document.{IsConfiguration};
ghost use Rattle.xa_program.specs.declared.words.Command.TheVariants.{Run};
ghost use Rattle.xa_program.specs.PlaySetup.{play_setup};
ghost use Rattle.xa_program.specs.Configuration.{shelf_by, AsksShelf, longest_configuration};
ghost use Rattle.xa_program.specs.Progress.{SetupRefusedAs};

use crate::status::{Input, Status};
use std::alloc::Global;
use xa_config::{ConfigRefused, read};
use xa_link::{Shelf, ShelfRefused};
use xa_types::{
    Accepts, Name, NoMemory, Octets, QueueSetup, Sequence, ServerSetup, ServiceSetup, Setup,
};

/// How many octets a configuration may have.
const LONGEST_CONFIGURATION: u32 = 262_144;

/// The setup that the file of that name says, and what the file holds.
pub fn read_setup<S: Shelf>(
    alloc: Global,
    name: &[u8],
    shelf: &mut S,
) -> Result<(Setup, Octets), Status>
    ensures found { IfOk result (λ found. Holds ((S.shows shelf.old).file name.now) found.1 × (length found.1 ≤ longest_configuration) × IsConfiguration found.1 found.0) }
    ensures configured { IfOk result (λ found. is_configured found.0 ≡ true) }
    ensures quiet { OnOk result ((S.shows shelf.new).faults ≡ (S.shows shelf.old).faults) }
    ensures refused { IfErr result (SetupRefusedAs (shelf_by S.shows shelf.old shelf.new) name.now) }
    ensures asks { OnOk result (AsksFile (S.shows shelf.old).asked (S.shows shelf.new).asked name.now) }
    ensures asked { IfErr result (λ status. AsksShelf (Some (Run name.now)) status (S.shows shelf.old).asked (S.shows shelf.new).asked) }
{
    let octets = match shelf.read(name, LONGEST_CONFIGURATION) {
        Ok(octets) => octets,
        Err(ShelfRefused::Failed) => return Err(Status::ConfigRead),
        Err(ShelfRefused::TooLong) => return Err(Status::TooLong(Input::Configuration)),
        Err(ShelfRefused::NoMemory) => return Err(Status::NoMemory),
    };
    match read(alloc, octets.slice()) {
        Ok(setup) => Ok((setup, octets)),
        Err(ConfigRefused::Fault { number, key }) => Err(Status::ConfigFault { number, key }),
        Err(ConfigRefused::NoMemory) => Err(Status::NoMemory),
    }
}

// The name that these octets are.
fn name_of(octets: &[u8]) -> Name
    requires { IsName octets.now }
    ensures { result ≡ octets.now }
{
    match Name::read(octets) {
        Ok(name) => name,
        Err(_) => unreachable!(),
    }
}

/// The setup of `play`: one queue, one server on it without restart, and one service with the routine of its name.
pub fn play_setup(alloc: Global, service: &Name) -> Result<Setup, NoMemory>
    ensures setup { IfOk result (λ setup. setup ≡ play_setup service.now) }
    ensures configured { IfOk result (λ setup. is_configured setup ≡ true) }
{
    let queue = name_of(b"Q");
    let queues = vec![in alloc;
        QueueSetup {
            name: queue,
            group: name_of(b"MAIN"),
            capacity: 100
        },
    ]?;
    let servers = vec![in alloc;
        ServerSetup {
            name: name_of(b"S"),
            queue,
            program: None,
            restart: false,
            maxgen: 1,
            grace: 86_400
        },
    ]?;
    let services = vec![in alloc;
        ServiceSetup {
            name: *service,
            routine: *service,
            queues: Sequence::from_vec(vec![in alloc; queue]?),
            priority: 50,
            accepts: Accepts::all(),
            conversational: false
        },
    ]?;
    Ok(Setup {
        block_time: 60,
        blocks: 16,
        shapes: Sequence::from_vec(Vec::new(alloc)),
        queues: Sequence::from_vec(queues),
        servers: Sequence::from_vec(servers),
        services: Sequence::from_vec(services),
    })
}
