// The servers and queues of a setup, by their numbers.
ghost use Rattle.std.specs.Prelude.{◌≡◌, position, true};
ghost use Rattle.std.specs.Option.{option_copied};
ghost use Rattle.std.specs.Str.{bytes_eq};
ghost use Rattle.xa_types.specs.Configured.{is_configured};
ghost use Rattle.xa_types.specs.Setup.{numbered, queue_named, queue_of};

use crate::rows::is_same;
use xa_types::{Name, QueueId, ServerId, ServerSetup, Setup};

// The place of the queue of that name, from 0.
fn place_of_queue(setup: &Setup, name: &Name) -> Option<usize>
    ensures { result ≡ position (λ queue. bytes_eq queue.name name.now) setup.now.queues }
{
    let mut queues = setup.queues.slice().iter();
    queues.position(|queue| is_same(&queue.name, name))
}

/// The queue of that name; number 0 where there is none.
pub fn queue_named(setup: &Setup, name: &Name) -> QueueId
    requires { is_configured setup.now ≡ true }
    ensures { result.0 ≡ queue_named setup.now name.now }
{
    match place_of_queue(setup, name) {
        Some(place) => QueueId(place as u16 + 1),
        None => QueueId(0),
    }
}

/// The server with that number, from 1.
pub fn server_at(setup: &Setup, server: ServerId) -> Option<&ServerSetup>
    ensures { option_copied result ≡ numbered server.0 setup.now.servers }
{
    if server.0 == 0 {
        return None;
    }
    setup.servers.slice().get(usize::from(server.0 - 1))
}

/// The queue from which a server takes; number 0 where there is no such server.
pub fn queue_of(setup: &Setup, server: ServerId) -> QueueId
    requires { is_configured setup.now ≡ true }
    ensures { result.0 ≡ queue_of setup.now server.0 }
{
    match server_at(setup, server) {
        Some(server) => queue_named(setup, &server.queue),
        None => QueueId(0),
    }
}
