// The rows of the board: which kinds of data they take, and what they have of the setup.
ghost use Rattle.std.specs.Prelude.{◌≡◌, ◌+◌, true, position};
ghost use Rattle.std.specs.Option.{option_copied};
ghost use Rattle.std.specs.Str.{bytes_eq};
ghost use Rattle.xa_types.specs.Configured.{is_configured};
ghost use Rattle.xa_types.specs.Kind.{has_bit, is_accepted};
ghost use Rattle.xa_types.specs.Rows.{row_for};
ghost use Rattle.xa_types.specs.Setup.{service_named};

use xa_types::{Accepts, Kind, Name, QueueId, Row, ServiceSetup, Setup};

/// Whether the names are the same.
pub fn is_same(a: &Name, b: &Name) -> bool
    ensures { result ≡ bytes_eq a.now b.now }
{
    a.octets() == b.octets()
}

/// The place of the shape with that name, from 0.
pub fn place_of_shape(setup: &Setup, subtype: &Name) -> Option<usize>
    ensures { result ≡ position (λ shape. bytes_eq shape.name subtype.now) setup.now.shapes }
{
    let mut shapes = setup.shapes.slice().iter();
    shapes.position(|shape| is_same(&shape.name, subtype))
}

// Whether the bit at that place, from 0, is set.
fn has_bit(bits: u64, place: usize) -> bool
    ensures { result ≡ has_bit bits (place + 1) }
{
    place < 64 && (bits >> place) % 2 == 1
}

/// Whether the row's service accepts data of that kind; data without a kind is absent.
pub fn admits(row: &Row, kind: &Option<Kind>, setup: &Setup) -> bool
    requires { is_configured setup.now ≡ true }
    ensures { result ≡ is_accepted setup.now row.now.accepts kind.now }
{
    match kind {
        None => true,
        Some(Kind::Octet) => row.accepts.octet,
        Some(Kind::Struct(subtype)) => match place_of_shape(setup, subtype) {
            Some(place) => has_bit(row.accepts.structs, place),
            None => false,
        },
    }
}

fn service_named<'a>(setup: &'a Setup, name: &Name) -> Option<&'a ServiceSetup>
    ensures { option_copied result ≡ service_named setup.now name.now }
{
    let services = setup.services.slice();
    for service in services {
        if is_same(&service.name, name) {
            return Some(service);
        }
    }
    None
}

/// The row with which a service is advertised on a queue, with that routine.
pub fn row_for(setup: &Setup, queue: QueueId, service: Name, routine: Name) -> Row
    requires { is_configured setup.now ≡ true }
    ensures { result ≡ row_for setup.now service queue.0 routine }
{
    match service_named(setup, &service) {
        Some(configured) => Row {
            service,
            queue,
            routine,
            priority: configured.priority,
            conversational: configured.conversational,
            accepts: configured.accepts,
        },
        None => Row {
            service,
            queue,
            routine,
            priority: 50,
            conversational: false,
            accepts: Accepts::all(),
        },
    }
}
