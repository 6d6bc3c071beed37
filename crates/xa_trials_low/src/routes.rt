//! Where calls go: a service's row, which kinds it takes, and the priority of a request.
ghost use Rattle.std.specs.Prelude.{◌≡◌, true};
ghost use Rattle.xa_types.specs.Configured.{is_configured};

use crate::memory::setup_of;
use crate::rows::none_fails;
use std::alloc::Global;
use xa_route::{admits, priority, row_for};
use xa_types::{Kind, Name, QueueId, Setup};

// The service's own priority, what the caller set, and the priority of its request.
static PRIORITIES: [(u8, Option<(bool, i32)>, u8); 5] = [
    (50, None, 50),
    (50, Some((false, 7)), 57),
    (50, Some((true, 7)), 7),
    (100, Some((false, 2147483647)), 100),
    (1, Some((true, -2147483648)), 1),
];

fn first_not_so() -> Option<usize> {
    for (place, (own, next, want)) in PRIORITIES.iter().enumerate() {
        if priority(*own, *next) != *want {
            return Some(place);
        }
    }
    None
}

#[test]
fn priorities_stay_within_1_and_100(rt: HostRuntime) {
    none_fails(&rt, first_not_so());
}

const SETUP: &[u8] = b"
shape = [{ name = 's0', fields = ['f char'] }, { name = 's1', fields = ['f char'] }]
queue = [{ name = 'Q' }]
server = [{ name = 'S', queue = 'Q' }]
service = [
  { name = 'TALK', queues = ['Q'], priority = 30, accepts = ['octet'], conversational = true },
  { name = 'ECHO', queues = ['Q'], priority = 70, accepts = ['c:s1'] },
]";

// A service, the priority of its row and whether that is for conversations, the subtype of X_C_TYPE or none where X_OCTET
// is sent, and whether the row takes it. The service TELL and the subtype s2 aren't configured.
type Sent = (&'static [u8], u8, bool, Option<&'static [u8]>, bool);

static SENT: [Sent; 7] = [
    (b"TALK", 30, true, None, true),
    (b"TALK", 30, true, Some(b"s1"), false),
    (b"ECHO", 70, false, None, false),
    (b"ECHO", 70, false, Some(b"s0"), false),
    (b"ECHO", 70, false, Some(b"s1"), true),
    (b"TELL", 50, false, Some(b"s1"), true),
    (b"TELL", 50, false, Some(b"s2"), false),
];

fn kind_of(subtype: Option<&[u8]>) -> Option<Kind> {
    match subtype {
        Some(subtype) => Some(Kind::Struct(Name::read(subtype).ok()?)),
        None => Some(Kind::Octet),
    }
}

// Whether the service has that row, which takes what is sent, or not, and takes data without a kind.
fn is_taken(setup: &Setup, sent: Sent) -> bool
    requires { is_configured setup.now ≡ true }
{
    let (service, own, talk, subtype, want) = sent;
    let (Ok(service), Some(kind)) = (Name::read(service), kind_of(subtype)) else {
        return false;
    };
    let row = row_for(setup, QueueId(3), service, service);
    row.priority == own
        && row.conversational == talk
        && admits(&row, &None, setup)
        && admits(&row, &Some(kind), setup) == want
}

fn first_not_taken(setup: &Setup) -> Option<usize>
    requires { is_configured setup.now ≡ true }
{
    for (place, sent) in SENT.iter().enumerate() {
        if !is_taken(setup, *sent) {
            return Some(place);
        }
    }
    None
}

// The place of the first that isn't taken as it should be; without a setup, of the first.
fn first_not_sent(alloc: Global) -> Option<usize> {
    match setup_of(alloc, SETUP) {
        Some(setup) => first_not_taken(&setup),
        None => Some(0),
    }
}

#[test]
fn rows_have_and_take_what_is_configured(rt: HostRuntime) {
    none_fails(&rt, first_not_sent(rt.alloc()));
}
