//! Runs whose services call others, or change the board, while they work (XATMI, tpcall, tpadvertise and tpunadvertise), and
//! whose clients move the clock on: what each call of a client is told.
use crate::gated::history_of;
use crate::rows::none_fails;
use crate::running::Runtime;
use xa_program::events::Event;
use xa_program::link::OpenGate;

// Three queues with a server each; those of Q1 and Q2 relay what they get.
const CONFIG: &[u8] =
    b"[[queue]]\nname = \"Q1\"\n[[queue]]\nname = \"Q2\"\n[[queue]]\nname = \"Q3\"\n\
    [[server]]\nname = \"S1\"\nqueue = \"Q1\"\n\
    [[server]]\nname = \"S2\"\nqueue = \"Q2\"\n\
    [[server]]\nname = \"S3\"\nqueue = \"Q3\"\n\
    [[service]]\nname = \"RELAY\"\nqueues = [\"Q1\"]\n\
    [[service]]\nname = \"NEXT\"\nroutine = \"RELAY\"\nqueues = [\"Q2\"]\n\
    [[service]]\nname = \"PASS\"\nqueues = [\"Q2\"]\n\
    [[service]]\nname = \"ECHO\"\nqueues = [\"Q3\"]\n\
    [[service]]\nname = \"FAIL\"\nqueues = [\"Q3\"]\n\
    [[service]]\nname = \"DIE\"\nqueues = [\"Q3\"]\n";

// Two queues with a server each, both of which change the board as they are asked.
const CHANGING: &[u8] = b"[[queue]]\nname = \"Q1\"\n[[queue]]\nname = \"Q2\"\n\
    [[server]]\nname = \"S1\"\nqueue = \"Q1\"\n\
    [[server]]\nname = \"S2\"\nqueue = \"Q2\"\n\
    [[service]]\nname = \"ADV\"\nqueues = [\"Q1\"]\n\
    [[service]]\nname = \"OTHER\"\nroutine = \"ADV\"\nqueues = [\"Q2\"]\n";

// The script, what is written, and how many requests the servers sent, or how many changes they made.
type Row = (&'static [u8], &'static [u8], usize);

static ROWS: [Row; 9] = [
    (
        b"client a\ncall RELAY text \"ECHO hi\"\n",
        b"a 1 OK 0 octet 6869\n",
        1,
    ),
    // Without a space as ECHO.
    (
        b"client a\ncall RELAY text \"hi\"\n",
        b"a 1 OK 0 octet 6869\n",
        0,
    ),
    // A service that calls one that calls.
    (
        b"client a\ncall RELAY text \"NEXT ECHO hi\"\n",
        b"a 1 OK 0 octet 6869\n",
        2,
    ),
    // And one that passes its request on.
    (
        b"client a\ncall RELAY text \"PASS ECHO hi\"\n",
        b"a 1 OK 0 octet 6869\n",
        1,
    ),
    // What comes back is told by the error's name: no such service, no name, and one that fails.
    (
        b"client a\ncall RELAY text \"NONE x\"\n",
        b"a 1 TPESVCFAIL 1 octet 5450454e4f454e54\n",
        0,
    ),
    (
        b"client a\ncall RELAY text \".A x\"\n",
        b"a 1 TPESVCFAIL 1 octet 545045494e56414c\n",
        0,
    ),
    (
        b"client a\ncall RELAY text \"FAIL x\"\n",
        b"a 1 TPESVCFAIL 1 octet 5450455356434641494c\n",
        1,
    ),
    // The server that is called dies.
    (
        b"client a\ncall RELAY text \"DIE x\"\n",
        b"a 1 TPESVCFAIL 1 octet 545045535643455252\n",
        1,
    ),
    // One call behind another, whose numbers go on.
    (
        b"client a\ncall RELAY text \"ECHO a\"\ncall RELAY text \"ECHO b\"\ncall RELAY text \"ECHO c\"\n",
        b"a 1 OK 0 octet 61\na 2 OK 0 octet 62\na 3 OK 0 octet 63\n",
        3,
    ),
];

static CHANGES: [Row; 6] = [
    // A service comes and goes; another routine is TPEMATCH; a client changes nothing.
    (
        b"client a\ncall ADV text \"+ NEW ECHO\"\ncall NEW text \"x\"\ncall ADV text \"+ NEW LEN\"\n\
        call ADV text \"- NEW\"\ncall NEW none\nadvertise X ECHO\nunadvertise ADV\n",
        b"a 1 OK 0 octet 4f4b\na 2 OK 0 octet 78\na 3 OK 0 octet 5450454d41544348\n\
        a 4 OK 0 octet 4f4b\na 5 TPENOENT\na 6 TPEPROTO\na 7 TPEPROTO\n",
        2,
    ),
    // Each server changes the rows of its own queue: that of the other one stands, with its routine.
    (
        b"client a\ncall ADV text \"+ NEW ECHO\"\ncall OTHER text \"- NEW\"\n\
        call OTHER text \"+ NEW LEN\"\ncall NEW text \"abc\"\ncall ADV text \"- NEW\"\n\
        call NEW text \"abc\"\n",
        b"a 1 OK 0 octet 4f4b\na 2 OK 0 octet 5450454e4f454e54\n\
        a 3 OK 0 octet 4f4b\na 4 OK 0 octet 616263\na 5 OK 0 octet 4f4b\n\
        a 6 OK 3 none\n",
        3,
    ),
    // The same row again.
    (
        b"client a\ncall ADV text \"+ NEW ECHO\"\ncall ADV text \"+ NEW ECHO\"\ncall NEW none\n",
        b"a 1 OK 0 octet 4f4b\na 2 OK 0 octet 4f4b\na 3 OK 0 none\n",
        2,
    ),
    // A configured row.
    (
        b"client a\ncall ADV text \"- ADV\"\ncall ADV text \"- ADV\"\n",
        b"a 1 OK 0 octet 4f4b\na 2 TPENOENT\n",
        1,
    ),
    // Words that are no names.
    (
        b"client a\ncall ADV text \"+ .A ECHO\"\ncall ADV text \"+ NEW .B\"\ncall ADV text \"- .A\"\n",
        b"a 1 OK 0 octet 545045494e56414c\na 2 OK 0 octet 545045494e56414c\n\
        a 3 OK 0 octet 545045494e56414c\n",
        0,
    ),
    // A text that asks for no change.
    (
        b"client a\ncall ADV text \"NEW\"\ncall ADV none\n",
        b"a 1 TPESVCFAIL 2 none\na 2 TPESVCFAIL 2 none\n",
        0,
    ),
];

static TICKS: [Row; 2] = [
    // The clock begins with 0, and goes on by each tick.
    (
        b"client a\ntick 3\ncall ECHO text \"x\"\ntick 2147483647\ntick 1\n",
        b"a 1 NOW 3\na 2 OK 0 octet 78\na 3 NOW 2147483650\na 4 NOW 2147483651\n",
        0,
    ),
    // A tick uses up no priority, and its number is one of the client's calls.
    (
        b"client a\nprio abs 7\ntick 1\ncall ECHO none\nadvertise X ECHO\ntick 1\n",
        b"a 1 DONE\na 2 NOW 1\na 3 OK 0 none\na 4 TPEPROTO\na 5 NOW 2\n",
        0,
    ),
];

// Whether it is a request that a server sent, or a change that it made.
fn is_of_server(event: &Event) -> bool {
    let by = match event {
        Event::Accept(request) => request.by,
        Event::Advertise(row) => row.by,
        Event::Withdraw(row) => row.by,
        _ => return false,
    };
    by.0 > 1
}

fn made(history: &[Event], calls: usize) -> bool {
    let mut count = 0usize;
    for event in history {
        if is_of_server(event) {
            count = count.saturating_add(1);
        }
    }
    count == calls
}

fn is_made<R: Runtime>(rt: &R, config: &[u8], (script, wrote, calls): Row) -> bool {
    match history_of(rt, &OpenGate, config, script, &[wrote]) {
        Some(history) => made(history.as_slice(), calls),
        None => false,
    }
}

fn first_not_made<R: Runtime>(rt: &R, config: &[u8], rows: &[Row]) -> Option<usize> {
    for (place, row) in rows.iter().enumerate() {
        if !is_made(rt, config, *row) {
            return Some(place);
        }
    }
    None
}

#[test]
fn services_call(rt: HostRuntime) {
    none_fails(&rt, first_not_made(&rt, CONFIG, &ROWS));
}

#[test]
fn services_change_the_board(rt: HostRuntime) {
    none_fails(&rt, first_not_made(&rt, CHANGING, &CHANGES));
}

#[test]
fn clients_move_the_clock(rt: HostRuntime) {
    none_fails(&rt, first_not_made(&rt, CONFIG, &TICKS));
}
