//! Runs by a configuration, with its servers in memory.
use crate::lives::{NEXT, READY, SOUND, SUCCESS, yard_of};
use crate::rows::none_fails;
use crate::running::{End, Runtime, Script, run_of};
use xa_program::LocalYard;
use xa_program::link::{Gate, OpenGate, Yard};

// One queue with one server.
const ONE: &[u8] = b"[[queue]]\nname = \"Q\"\n\
    [[server]]\nname = \"S\"\nqueue = \"Q\"\n\
    [[service]]\nname = \"ECHO\"\nqueues = [\"Q\"]\n\
    [[service]]\nname = \"COUNT\"\nroutine = \"LEN\"\nqueues = [\"Q\"]\n\
    [[service]]\nname = \"FAIL\"\nqueues = [\"Q\"]\naccepts = [\"octet\"]\n\
    [[service]]\nname = \"TYPED\"\nroutine = \"ECHO\"\nqueues = [\"Q\"]\naccepts = []\n\
    [[service]]\nname = \"DIE\"\nqueues = [\"Q\"]\n";

// Two queues, of which the first has two servers, and a service on both.
const TWO: &[u8] = b"[[queue]]\nname = \"P\"\n[[queue]]\nname = \"Q\"\n\
    [[server]]\nname = \"A\"\nqueue = \"P\"\n\
    [[server]]\nname = \"B\"\nqueue = \"P\"\n\
    [[server]]\nname = \"C\"\nqueue = \"Q\"\n\
    [[service]]\nname = \"DIE\"\nqueues = [\"P\", \"Q\"]\n\
    [[service]]\nname = \"ECHO\"\nqueues = [\"Q\"]\n";

// A server that has two lives.
const TWICE: &[u8] = b"[[queue]]\nname = \"Q\"\n\
    [[server]]\nname = \"S\"\nqueue = \"Q\"\nrestart = true\nmaxgen = 2\n\
    [[service]]\nname = \"EXIT\"\nqueues = [\"Q\"]\n";

// A shape, and services that take octets alone, or all kinds.
const TYPED: &[u8] = b"[[shape]]\nname = \"entry\"\n\
    fields = [\"account int\", \"amount long\", \"memo string 16\"]\n\
    [[queue]]\nname = \"Q\"\n\
    [[server]]\nname = \"S\"\nqueue = \"Q\"\n\
    [[service]]\nname = \"ECHO\"\nqueues = [\"Q\"]\naccepts = [\"octet\"]\n\
    [[service]]\nname = \"ANY\"\nroutine = \"ECHO\"\nqueues = [\"Q\"]\n\
    [[service]]\nname = \"LEN\"\nqueues = [\"Q\"]\n\
    [[service]]\nname = \"ACCT\"\nqueues = [\"Q\"]\n";

const ONCE: &[u8] = b"client a\ncall ECHO none\n";

// The configuration, the script with its faults, how it ends, and what is written.
type Row = (&'static [u8], Script<'static>, End, &'static [u8]);

static ROWS: [Row; 21] = [
    (ONE, (b"client a\n", &[], &[]), End::Done, b""),
    // Clients without calls before and behind one with a call.
    (
        ONE,
        (b"client a\nclient b\ncall ECHO none\nclient c\n", &[], &[]),
        End::Done,
        b"b 1 OK 0 none\n",
    ),
    (
        ONE,
        (
            b"client a\ncall ECHO text \"x\"\nclient b\ncall ECHO none\ncall ECHO text \"\"\n",
            &[],
            &[],
        ),
        End::Done,
        b"a 1 OK 0 octet 78\nb 1 OK 0 none\nb 2 OK 0 octet -\n",
    ),
    (
        ONE,
        (
            b"client a\ncall COUNT text \"hello\"\ncall FAIL text \"no\"\n",
            &[],
            &[],
        ),
        End::Done,
        b"a 1 OK 5 none\na 2 TPESVCFAIL 7 octet 6e6f\n",
    ),
    (
        ONE,
        (b"client a\ncall LEN none\ncall .X none\n", &[], &[]),
        End::Done,
        b"a 1 TPENOENT\na 2 TPEINVAL\n",
    ),
    // A service that takes no data.
    (
        ONE,
        (
            b"client a\ncall TYPED text \"x\"\ncall TYPED none\n",
            &[],
            &[],
        ),
        End::Done,
        b"a 1 TPEITYPE\na 2 OK 0 none\n",
    ),
    // The most octets, and one more.
    (
        TYPED,
        (
            b"client a\ncall LEN fill 65536 61\ncall LEN fill 65537 61\n",
            &[],
            &[],
        ),
        End::Done,
        b"a 1 OK 65536 none\na 2 TPEINVAL\n",
    ),
    // Data of a kind that is taken, or isn't; and a buffer that a reply of another kind may not change.
    (
        TYPED,
        (
            b"client a\ncall ECHO c entry\ncall ECHO octet 6b\ncall ANY c entry account=7 nochange octet\n\
            call ANY text \"k\" nochange octet\ncall ANY none nochange c:entry\ncall ANY none noreply\n",
            &[],
            &[],
        ),
        End::Done,
        b"a 1 TPEITYPE\na 2 OK 0 octet 6b\na 3 TPEOTYPE\na 4 OK 0 octet 6b\na 5 OK 0 none\na 6 TPEINVAL\n",
    ),
    // An entry that is booked, and one that isn't.
    (
        TYPED,
        (
            b"client a\ncall ACCT c entry account=7 amount=250 memo=\"rent\"\n\
            call ACCT c entry memo=\"void\" amount=-1 account=12\n",
            &[],
            &[],
        ),
        End::Done,
        b"a 1 OK 0 c:entry 0000000700000000000000fa626f6f6b656400000000000000000000\n\
        a 2 TPESVCFAIL 2 c:entry 0000000cffffffffffffffff766f6964000000000000000000000000\n",
    ),
    // Each of three servers dies by a call, those of the first queue first.
    (
        TWO,
        (
            b"client a\ncall DIE none\ncall DIE none\ncall ECHO none\ncall DIE none\ncall DIE none\n",
            &[],
            &[],
        ),
        End::Done,
        b"a 1 TPESVCERR\na 2 TPESVCERR\na 3 OK 0 none\na 4 TPESVCERR\na 5 TPENOENT\n",
    ),
    (
        TWICE,
        (
            b"client a\ncall EXIT none\ncall EXIT none\ncall EXIT none\n",
            &[],
            &[],
        ),
        End::Done,
        b"a 1 TPESVCFAIL 1 none\na 2 TPESVCFAIL 1 none\na 3 TPENOENT\n",
    ),
    (ONE, (ONCE, &[1], &[]), End::ScriptRead, b""),
    (ONE, (ONCE, &[], &[2]), End::WriteFault, b"a 1 O"),
    (
        ONE,
        (b"client a\nbogus\n", &[], &[]),
        End::BadLine(2, 2),
        b"",
    ),
    // A fault of the configuration is told before the script is read.
    (
        b"blocktime =",
        (b"bogus\n", &[1], &[]),
        End::ConfigFault(1, ""),
        b"",
    ),
    (b"", (ONCE, &[], &[]), End::ConfigFault(3, "queue"), b""),
    (b"\"\" = 1", (ONCE, &[], &[]), End::ConfigFault(2, ""), b""),
    (
        b"[[queue]]\nname = \"Q\"\nrestart = false\n",
        (ONCE, &[], &[]),
        End::ConfigFault(2, "queue[0].restart"),
        b"",
    ),
    (
        b"[[queue]]\nname = \"Q\"\n[[server]]\nname = \"S\"\nqueue = \"P\"\n",
        (ONCE, &[], &[]),
        End::ConfigFault(8, "server[0].queue"),
        b"",
    ),
    (
        b"[[shape]]\nname = \"entry\"\nfields = [\"rate float\"]\n",
        (ONCE, &[], &[]),
        End::ConfigFault(9, "shape[0].fields[0]"),
        b"",
    ),
    (
        b"[[queue]]\nname = \"Q\"\n[[queue]]\nname = \"P\"\n[[server]]\nname = \"S\"\nqueue = \"P\"\n",
        (ONCE, &[], &[]),
        End::ConfigFault(11, "queue[0]"),
        b"",
    ),
];

// Whether the row is run so, from a shelf of which these reads fail.
fn is_run<R: Runtime, Y: Yard, G: Gate>(
    rt: &R,
    yard: &mut Y,
    gate: &G,
    row: Row,
    fails: &[u64],
) -> bool
where
    Y::Line: Drop,
    Y::Start: Drop,
{
    let (config, script, end, wrote) = row;
    let files: [(&[u8], &[u8]); 1] = [(b"c", config)];
    run_of(
        rt,
        &["run", "c"],
        (&files, fails),
        script,
        yard,
        gate,
        (end, &[wrote]),
    )
    .is_some()
}

fn is_run_in_memory<R: Runtime>(rt: &R, row: Row, fails: &[u64]) -> bool {
    is_run(rt, &mut LocalYard::new(rt.alloc()), &OpenGate, row, fails)
}

fn first_not_run<R: Runtime>(rt: &R) -> Option<usize> {
    for (place, row) in ROWS.iter().enumerate() {
        if !is_run_in_memory(rt, *row, &[]) {
            return Some(place);
        }
    }
    None
}

#[test]
fn each_configuration_is_run(rt: HostRuntime) {
    none_fails(&rt, first_not_run(&rt));
}

// The script isn't read then.
#[test]
fn a_configuration_that_is_not_read_is_told(rt: HostRuntime) {
    let row: Row = (ONE, (b"bogus\n", &[1], &[]), End::ConfigRead, b"");
    assert!(rt; is_run_in_memory(&rt, row, &[1]));
}

// Two queues with a server each, and a service on both, that of the second server first.
const BOTH: &[u8] = b"[[queue]]\nname = \"Q\"\n[[queue]]\nname = \"P\"\n\
    [[server]]\nname = \"S\"\nqueue = \"Q\"\n\
    [[server]]\nname = \"T\"\nqueue = \"P\"\n\
    [[service]]\nname = \"ECHO\"\nqueues = [\"P\", \"Q\"]\n";

fn goes_to_the_other<R: Runtime>(rt: &R) -> bool {
    let row: Row = (BOTH, (ONCE, &[], &[]), End::Done, b"a 1 OK 0 none\n");
    match yard_of(rt.alloc(), Some(&[READY, NEXT, SUCCESS, NEXT]), SOUND) {
        Some(mut yard) => is_run(rt, &mut yard, &OpenGate, row, &[]),
        None => false,
    }
}

// The second server can't be started.
#[test]
fn a_service_on_two_queues_outlives_one(rt: HostRuntime) {
    assert!(rt; goes_to_the_other(&rt));
}
