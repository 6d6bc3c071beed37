//! A caller on one thread: by what each of its calls is refused, on which queue its request goes, what it is told of an answer
//! that comes late, that a halt tells it nothing, and that all of its 50 cells are free behind each.
ghost use Rattle.std.specs.Prelude.{◌≡◌, true};
ghost use Rattle.xa_types.specs.Configured.{is_configured};
ghost use Rattle.xa_cell.specs.Known.{IsSeatOf};
ghost use Rattle.xa_cell.specs.Places.{IsShut};
ghost use Rattle.xa_trials_callers.specs.Callers.{Rests, HasDraft, Awaits};

use crate::clients::{
    Client, END, Queues, Says, State, VERSION, answer, close, give_back, leave, lose, open,
    prepare, put, set_priority,
};
use crate::memory::setup_of;
use crate::rows::none_fails;
use std::alloc::Global;
use std::process::Abort;
use xa_caller::{Cargo, Filling, Left, Prepared, Step};
use xa_cell::Cells;
use xa_events::{Event, Evidence, Refused, Replied};
use xa_queue::Entry;
use xa_stamp::{Home, Stamped};
use xa_types::{Answer, Ask, CallFlags, Data, Direction, Fault, Found, Kind, Name, Octets, Setup};

const SETUP: &[u8] = b"
shape = [{ name = 'pair', fields = ['number short', 'letter char'] }]
queue = [{ name = 'P', capacity = 3 }, { name = 'Q', capacity = 3 }]
server = [{ name = 'S', queue = 'P' }, { name = 'T', queue = 'Q' }]
service = [
  { name = 'ECHO', queues = ['P', 'Q'] },
  { name = 'PAIR', queues = ['Q'], accepts = ['c:pair'] },
]";

// How a call is made: with TPNOBLOCK, with TPNOREPLY, or with TPNOCHANGE where only a pair would do.
#[derive(Clone, Copy, PartialEq, Eq)]
enum Way {
    Plain,
    NoBlock,
    NoReply,
    NoChange,
}

/// No data, X_OCTET of these octets, or X_C_TYPE that should be a pair.
#[derive(Clone, Copy)]
pub enum Brings {
    Nothing,
    Octets(&'static [u8]),
    Pair(&'static [u8]),
}

// What shows that a refusal is right: the call, the version of the board, that no queue of it is up, or a full queue and how
// many wait there.
#[derive(Clone, Copy)]
enum Shown {
    Argument,
    Version,
    AllDown,
    Queue(u16, u32),
}

// What comes of a call: it is refused, and that shows it; a server says the one, and its caller is told the other; or nothing
// is noted, since it has to wait, or the run halts.
#[derive(Clone, Copy)]
enum Told {
    Refused(Fault, Shown),
    Answered(Says, Says),
    Waits,
    Halts,
}

pub const A: Brings = Brings::Octets(b"a");

pub const PAIR: Brings = Brings::Pair(b"abc");

pub const SHORT: Brings = Brings::Pair(b"ab");

pub const UP: Queues = &[(2, State::Up)];

const SHUT: Queues = &[(2, State::Closed)];

pub const BOTH_SHUT: Queues = &[(1, State::Closed), (2, State::Down)];

pub const DOWN_UP: Queues = &[(1, State::Down), (2, State::Up)];

const FULL_UP: Queues = &[(1, State::Full), (2, State::Up)];

pub const FULL_DOWN: Queues = &[(1, State::Full), (2, State::Down)];

const FULL: Queues = &[(1, State::Full), (2, State::Full)];

pub const FULL_HALTS: Queues = &[(1, State::Full), (2, State::Halts)];

const INVAL: Told = Told::Refused(Fault::Inval, Shown::Argument);

const NOENT: Told = Told::Refused(Fault::NoEnt, Shown::Version);

const ITYPE: Told = Told::Refused(Fault::IType, Shown::Version);

const SYSTEM: Told = Told::Refused(Fault::System, Shown::AllDown);

const BLOCK: Told = Told::Refused(Fault::Block, Shown::Queue(1, 3));

const DONE: Told = Told::Answered(Says::Success, Says::Success);

const FAILED: Told = Told::Answered(Says::Failed, Says::Failed);

const OTHER: Told = Told::Answered(Says::Success, Says::Error(Fault::OType));

const FAILED_OTHER: Told = Told::Answered(Says::Failed, Says::Error(Fault::OType));

const DIED: Told = Told::Answered(Says::Error(Fault::SvcErr), Says::Error(Fault::SvcErr));

const SWEPT: Told = Told::Answered(Says::Error(Fault::System), Says::Error(Fault::System));

const STARVED: Told = Told::Answered(Says::Error(Fault::NoMemory), Says::Error(Fault::NoMemory));

// The service, the data, how the call is made, the queues that the board lists for the service, and what comes of it.
type Call = (&'static [u8], Brings, Way, Queues, Told);

static CALLS: [Call; 24] = [
    (b"", A, Way::NoBlock, &[], INVAL),
    (b"A", SHORT, Way::NoBlock, &[], INVAL),
    (b"PAIR", A, Way::NoReply, SHUT, INVAL),
    (b"A", A, Way::NoBlock, &[], NOENT),
    (b"PAIR", A, Way::NoBlock, SHUT, ITYPE),
    (b"PAIR", PAIR, Way::NoBlock, SHUT, SYSTEM),
    (b"ECHO", A, Way::Plain, BOTH_SHUT, SYSTEM),
    (b"ECHO", A, Way::Plain, DOWN_UP, DONE),
    (b"ECHO", A, Way::NoBlock, FULL_DOWN, BLOCK),
    (b"ECHO", A, Way::Plain, FULL_DOWN, Told::Waits),
    (b"ECHO", A, Way::Plain, FULL, Told::Waits),
    (b"ECHO", A, Way::NoBlock, FULL_UP, DONE),
    (b"ECHO", A, Way::NoBlock, FULL_HALTS, Told::Halts),
    (b"PAIR", PAIR, Way::NoChange, UP, DONE),
    (b"ECHO", Brings::Nothing, Way::NoChange, UP, DONE),
    (b"ECHO", A, Way::NoChange, UP, OTHER),
    (b"ECHO", A, Way::NoChange, UP, FAILED_OTHER),
    (b"ECHO", A, Way::Plain, UP, FAILED),
    (b"ECHO", A, Way::Plain, UP, DIED),
    (b"ECHO", A, Way::NoChange, UP, DIED),
    (b"ECHO", A, Way::Plain, UP, SWEPT),
    (b"ECHO", A, Way::NoChange, UP, SWEPT),
    (b"ECHO", A, Way::Plain, UP, STARVED),
    (b"ECHO", A, Way::Plain, UP, DONE),
];

// What the cell of a request is filled with, and the stamp that its caller then saw; or the caller leaves before.
static HALTS: [Option<(Says, u64)>; 4] = [
    Some((Says::Nothing, 0)),
    Some((Says::Nothing, END)),
    Some((Says::Success, END)),
    None,
];

/// That data.
pub fn data_of(alloc: Global, brings: Brings) -> Option<Data> {
    match brings {
        Brings::Nothing => Some(Data::Absent),
        Brings::Octets(octets) => Some(Data::Octet(Octets::of(alloc, octets).ok()?)),
        Brings::Pair(octets) => Some(Data::Struct(
            Name::read(b"pair").ok()?,
            Octets::of(alloc, octets).ok()?,
        )),
    }
}

fn ask_of(alloc: Global, service: &[u8], brings: Brings, way: Way) -> Option<Ask> {
    let pair = Name::read(b"pair").ok()?;
    Some(Ask {
        service: Octets::of(alloc, service).ok()?,
        payload: data_of(alloc, brings)?,
        flags: CallFlags {
            no_block: way == Way::NoBlock,
            no_time: false,
            no_reply: way == Way::NoReply,
            no_tran: false,
            sig_restart: false,
        },
        expect: (way == Way::NoChange).then_some(Kind::Struct(pair)),
        direction: Direction::Neither,
    })
}

// What the server is to say to a call that a queue took.
fn says_to<R: Abort>(rt: &R, told: Told) -> Says {
    match told {
        Told::Answered(says, _) => says,
        Told::Refused(..) | Told::Waits | Told::Halts => panic!(rt; "sent"),
    }
}

// Whether a call that no queue took may end by that step.
fn is_unsent(step: &Step, told: Told) -> bool {
    match step {
        Step::Told(_) => true,
        Step::Wait => matches!(told, Told::Waits),
        Step::Halt(_) | Step::Halted => matches!(told, Told::Halts),
    }
}

// Puts the request of a call on a queue, and answers it where one took it.
fn go_on<R: Abort>(
    rt: &R,
    alloc: Global,
    setup: &Setup,
    cells: &Cells<Filling>,
    client: &mut Client,
    prepared: Prepared,
    found: &Found,
    ask: &Ask,
    queues: Queues,
    told: Told,
)
    requires configured { is_configured setup.now ≡ true }
    requires draft { HasDraft setup.now cells.now client.old.last found.now prepared.entry client.old.caller }
    ensures { Rests setup.now cells.now client.new.last client.new.caller }
{
    match put(rt, alloc, setup, cells, client, prepared, found, queues) {
        Ok(entry) => {
            let says = says_to(rt, told);
            answer(rt, setup, cells, client, entry, says, &ask.expect);
        }
        Err(unsent) => {
            let no_block = ask.flags.no_block;
            let step = give_back(rt, setup, cells, client, found, unsent, no_block);
            assert!(rt; is_unsent(&step, told));
        }
    }
}

// Makes a call, and answers its request where a queue took it.
fn call<R: Abort>(
    rt: &R,
    alloc: Global,
    setup: &Setup,
    cells: &Cells<Filling>,
    client: &mut Client,
    row: &Call,
)
    requires configured { is_configured setup.now ≡ true }
    requires rests { Rests setup.now cells.now client.old.last client.old.caller }
    ensures { Rests setup.now cells.now client.new.last client.new.caller }
{
    let (service, brings, way, queues, told) = *row;
    let Some(ask) = ask_of(alloc, service, brings, way) else {
        panic!(rt; "no memory")
    };
    if let Some((prepared, found)) = prepare(rt, alloc, setup, cells, client, &ask, queues) {
        go_on(
            rt, alloc, setup, cells, client, prepared, &found, &ask, queues, told,
        );
    }
    drop(ask);
}

fn is_shown(evidence: &Evidence, shown: Shown) -> bool {
    match shown {
        Shown::Argument => matches!(evidence, Evidence::Argument),
        Shown::Version => matches!(evidence, Evidence::Version(version) if *version == VERSION),
        Shown::AllDown => matches!(evidence, Evidence::AllDown(version) if *version == VERSION),
        Shown::Queue(queue, most) => {
            matches!(evidence, Evidence::Queue(its, waiting) if its.0 == queue && *waiting == most)
        }
    }
}

/// Whether it is that data.
pub fn is_data(data: &Data, brings: Brings) -> bool {
    match brings {
        Brings::Nothing => matches!(data, Data::Absent),
        Brings::Octets(octets) => matches!(data, Data::Octet(got) if got.slice() == octets),
        Brings::Pair(octets) => matches!(data, Data::Struct(_, got) if got.slice() == octets),
    }
}

fn is_answer(answer: &Answer, brings: Brings, says: Says) -> bool {
    match says {
        Says::Success => matches!(answer, Answer::Success(7, data) if is_data(data, brings)),
        Says::Failed => matches!(answer, Answer::Failed(7, data) if is_data(data, brings)),
        Says::Error(wanted) => {
            matches!(answer, Answer::Error(fault) if fault.text() == wanted.text())
        }
        Says::Nothing => false,
    }
}

fn is_refused(refused: &Refused, op: u32, told: Told) -> bool {
    match told {
        Told::Refused(fault, shown) => {
            refused.op == op
                && refused.fault.text() == fault.text()
                && is_shown(&refused.evidence, shown)
        }
        _ => false,
    }
}

fn is_answered(replied: &Replied, op: u32, brings: Brings, told: Told) -> bool {
    match told {
        Told::Answered(_, says) => replied.op == op && is_answer(&replied.answer, brings, says),
        _ => false,
    }
}

// Whether that event of the caller's home refuses or answers the call with that number.
fn is_told(noted: Option<&Stamped>, op: u32, brings: Brings, told: Told) -> bool {
    let Some(stamped) = noted else {
        return false;
    };
    match &stamped.event {
        Event::Refuse(refused) => is_refused(refused, op, told),
        Event::Answer(replied) => is_answered(replied, op, brings, told),
        _ => false,
    }
}

// The place of the first call that was told otherwise, by what its caller noted at home, where it left last.
fn first_not_told(home: &Home, calls: &[Call]) -> Option<usize> {
    let mut entries = home.entries().iter();
    let mut op: u32 = 0;
    for (place, (_, brings, _, _, told)) in calls.iter().enumerate() {
        if matches!(told, Told::Waits | Told::Halts) {
            continue;
        }
        op = op.wrapping_add(1);
        if !is_told(entries.next(), op, *brings, *told) {
            return Some(place);
        }
    }
    match entries.next() {
        Some(stamped) if matches!(stamped.event, Event::Leave(_)) => None,
        _ => Some(calls.len()),
    }
}

// Makes all calls. The place of the first that isn't told as it should be.
fn tell<R: Abort>(rt: &R, alloc: Global, setup: &Setup, calls: &[Call]) -> Option<usize>
    requires { is_configured setup.now ≡ true }
{
    let (cells, client) = open(rt, alloc, setup);
    let mut client = client;
    for row in calls {
        call(rt, alloc, setup, &cells, &mut client, row);
    }
    let Client { caller, last: _ } = client;
    let Left {
        work,
        seat,
        halt: _,
    } = caller.leave(&cells);
    let failed = first_not_told(&work.home(), calls);
    assert!(rt; close(rt, alloc, cells, seat) == 50);
    failed
}

// The request is put on a queue.
fn sent<R: Abort>(
    rt: &R,
    alloc: Global,
    setup: &Setup,
    cells: &Cells<Filling>,
    client: &mut Client,
    prepared: Prepared,
    found: &Found,
) -> Entry<Cargo>
    requires { HasDraft setup.now cells.now client.old.last found.now prepared.entry client.old.caller }
    ensures { Awaits setup.now cells.now client.new.last result client.new.caller }
{
    match put(rt, alloc, setup, cells, client, prepared, found, UP) {
        Ok(entry) => entry,
        Err(_unsent) => panic!(rt; "not sent"),
    }
}

// A request of the client, which a queue took.
fn send<R: Abort>(
    rt: &R,
    alloc: Global,
    setup: &Setup,
    cells: &Cells<Filling>,
    client: &mut Client,
) -> Entry<Cargo>
    requires configured { is_configured setup.now ≡ true }
    requires rests { Rests setup.now cells.now client.old.last client.old.caller }
    ensures { Awaits setup.now cells.now client.new.last result client.new.caller }
{
    let Some(ask) = ask_of(alloc, b"ECHO", A, Way::Plain) else {
        panic!(rt; "no memory")
    };
    let Some((prepared, found)) = prepare(rt, alloc, setup, cells, client, &ask, UP) else {
        panic!(rt; "refused")
    };
    drop(ask);
    sent(rt, alloc, setup, cells, client, prepared, &found)
}

// A halt meets the client of a request so.
fn end<R: Abort>(
    rt: &R,
    setup: &Setup,
    cells: &Cells<Filling>,
    client: Client,
    entry: Entry<Cargo>,
    filled: Option<(Says, u64)>,
) -> Left
    requires { Awaits setup.now cells.now client.last entry client.caller }
    ensures { IsSeatOf cells.now result.seat × IsShut result.seat }
{
    match filled {
        Some((says, seen)) if seen <= END => lose(rt, setup, cells, client, entry, says, seen),
        _ => leave(rt, setup, cells, client, entry),
    }
}

// Whether nothing is noted at the home of a client whom a halt meets so, and all of its cells are free then.
fn is_quiet<R: Abort>(rt: &R, alloc: Global, setup: &Setup, filled: Option<(Says, u64)>) -> bool
    requires { is_configured setup.now ≡ true }
{
    let (cells, client) = open(rt, alloc, setup);
    let mut client = client;
    let entry = send(rt, alloc, setup, &cells, &mut client);
    let Left {
        work,
        seat,
        halt: _,
    } = end(rt, setup, &cells, client, entry, filled);
    let free = close(rt, alloc, cells, seat);
    free == 50 && work.home().entries().is_empty()
}

fn first_not_quiet<R: Abort>(rt: &R, alloc: Global, setup: &Setup) -> Option<usize>
    requires { is_configured setup.now ≡ true }
{
    for (place, filled) in HALTS.iter().enumerate() {
        if !is_quiet(rt, alloc, setup, *filled) {
            return Some(place);
        }
    }
    None
}

// What a client sets for its next request, absolute or to be added to the service's own; on which queues its call is tried
// then; and with which priority one takes the request, if one does.
type Wish = (Option<(bool, i32)>, Queues, Option<u8>);

static WISHES: [Wish; 14] = [
    (None, UP, Some(50)),
    (Some((true, 10)), UP, Some(10)),
    (None, UP, Some(50)),
    (Some((true, 0)), UP, Some(1)),
    (Some((true, 101)), UP, Some(100)),
    (Some((false, 5)), DOWN_UP, Some(55)),
    (Some((false, -60)), UP, Some(1)),
    (Some((false, 80)), FULL_UP, Some(100)),
    // A call that no queue took leaves it for the next, and what is set last is what is set.
    (Some((true, 7)), BOTH_SHUT, None),
    (None, FULL_DOWN, None),
    (None, DOWN_UP, Some(7)),
    (Some((true, 7)), &[], None),
    (Some((false, -7)), UP, Some(43)),
    (None, FULL_UP, Some(50)),
];

// Puts the request of a call on a queue, and answers it. Its priority, if one took it.
fn priority_of<R: Abort>(
    rt: &R,
    alloc: Global,
    setup: &Setup,
    cells: &Cells<Filling>,
    client: &mut Client,
    ask: &Ask,
    queues: Queues,
) -> Option<u8>
    requires configured { is_configured setup.now ≡ true }
    requires rests { Rests setup.now cells.now client.old.last client.old.caller }
    ensures { Rests setup.now cells.now client.new.last client.new.caller }
{
    let (prepared, found) = prepare(rt, alloc, setup, cells, client, ask, queues)?;
    match put(rt, alloc, setup, cells, client, prepared, &found, queues) {
        Ok(entry) => {
            let priority = entry.priority;
            answer(rt, setup, cells, client, entry, Says::Success, &None);
            Some(priority)
        }
        Err(unsent) => {
            give_back(rt, setup, cells, client, &found, unsent, true);
            None
        }
    }
}

// Whether the request of the next call has that priority.
fn is_wished<R: Abort>(
    rt: &R,
    alloc: Global,
    setup: &Setup,
    cells: &Cells<Filling>,
    client: &mut Client,
    wish: &Wish,
) -> bool
    requires configured { is_configured setup.now ≡ true }
    requires rests { Rests setup.now cells.now client.old.last client.old.caller }
    ensures { Rests setup.now cells.now client.new.last client.new.caller }
{
    let (set, queues, wanted) = *wish;
    let Some(ask) = ask_of(alloc, b"ECHO", A, Way::NoBlock) else {
        panic!(rt; "no memory")
    };
    if let Some((absolute, amount)) = set {
        set_priority(rt, setup, cells, client, absolute, amount);
    }
    let priority = priority_of(rt, alloc, setup, cells, client, &ask, queues);
    drop(ask);
    priority == wanted
}

// The place of the first wish whose request has another priority.
fn first_not_wished<R: Abort>(
    rt: &R,
    alloc: Global,
    setup: &Setup,
    wishes: &[Wish],
) -> Option<usize>
    requires { is_configured setup.now ≡ true }
{
    let (cells, client) = open(rt, alloc, setup);
    let mut client = client;
    let mut place: usize = 0;
    let mut failed = None;
    for wish in wishes {
        if !is_wished(rt, alloc, setup, &cells, &mut client, wish) && failed.is_none() {
            failed = Some(place);
        }
        place = place.wrapping_add(1);
    }
    let Client { caller, last: _ } = client;
    let Left {
        work: _,
        seat,
        halt: _,
    } = caller.leave(&cells);
    assert!(rt; close(rt, alloc, cells, seat) == 50);
    failed
}

fn setup<R: Abort>(rt: &R, alloc: Global) -> Setup
    ensures { is_configured result ≡ true }
{
    match setup_of(alloc, SETUP) {
        Some(setup) => setup,
        None => panic!(rt; "no setup"),
    }
}

#[test]
fn each_call_is_told_and_leaves_its_cell(rt: HostRuntime) {
    let setup = setup(&rt, rt.alloc());
    none_fails(&rt, tell(&rt, rt.alloc(), &setup, &CALLS));
}

#[test]
fn a_halt_tells_a_caller_nothing(rt: HostRuntime) {
    let setup = setup(&rt, rt.alloc());
    none_fails(&rt, first_not_quiet(&rt, rt.alloc(), &setup));
}

#[test]
fn a_request_has_the_priority_that_was_set(rt: HostRuntime) {
    let setup = setup(&rt, rt.alloc());
    none_fails(&rt, first_not_wished(&rt, rt.alloc(), &setup, &WISHES));
}
