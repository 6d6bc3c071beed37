//! Lives over links in memory: how each ends, and what is left of its pipes.
ghost use Rattle.std.specs.Prelude.{◌≡◌};
ghost use Rattle.xa_pipe.specs.declared.turn.Turn.TheVariants.{AwaitsReady, Serving};
ghost use Rattle.xa_pipe.specs.Frames.{finish_frame};
ghost use Rattle.xa_pipe.specs.Changes.{turn_after};

use crate::memory::{joined, link_of, setup_of};
use crate::rows::none_fails;
use std::alloc::Global;
use xa_events::StopCause;
use xa_link::{Link, MemoryLink, MemoryYard, Starter, Yard};
use xa_pipe::{Act, Acted, EndedLife, Finish, Life, Pipes};
use xa_types::{Answer, Data, Fault, Generation, Name, Reply, Rval, ServerId};

const READY: &[u8] = b"XA\x01\x01\0\0\0\x02\0\0\0\0\x01S";

const NEXT: &[u8] = b"XA\x01\x02\0\0\0\0\0\0\0\0";

// A RETURN to the first invocation with TPSUCCESS, one with TPEXIT, and one to the second invocation.
const RETURN: &[u8] = b"XA\x01\x04\0\0\0\x06\0\0\0\x01\0\0\0\0\x07\0";

const EXIT: &[u8] = b"XA\x01\x04\0\0\0\x06\0\0\0\x01\x02\0\0\0\x07\0";

const OTHER: &[u8] = b"XA\x01\x04\0\0\0\x06\0\0\0\x02\0\0\0\0\x07\0";

// A FORWARD of the first invocation to the service TO without data, one of the second, and one with the tag 0.
const FORWARD: &[u8] = b"XA\x01\x05\0\0\0\x04\0\0\0\x01\x02TO\0";

const LATER: &[u8] = b"XA\x01\x05\0\0\0\x04\0\0\0\x02\x02TO\0";

const UNTAGGED: &[u8] = b"XA\x01\x05\0\0\0\x04\0\0\0\0\x02TO\0";

// An OP of the first invocation, tpsprio by 5, and one of the second; and one of a call that isn't served.
const OP: &[u8] = b"XA\x01\x03\0\0\0\x06\0\0\0\x01\x0a\0\0\0\0\x05";

const LATER_OP: &[u8] = b"XA\x01\x03\0\0\0\x06\0\0\0\x02\x0a\0\0\0\0\x05";

const UNSERVED: &[u8] = b"XA\x01\x03\0\0\0\x09\0\0\0\x01\x05\0\0\0\0\0\0\0\x01";

// What is left of the pipes of a life that ended.
#[derive(Clone, Copy, PartialEq, Eq)]
enum Left {
    Open,
    Closed,
    Killed,
}

// What the program says, the numbers of the read and of the write of 64 octets that fail, or 0, why the life ends, and
// what is left of its pipes.
type Course = (&'static [&'static [u8]], [u64; 2], StopCause, Left);

static COURSES: [Course; 34] = [
    (
        &[READY, NEXT, RETURN, NEXT],
        [0, 0],
        StopCause::Shutdown,
        Left::Open,
    ),
    (&[READY, NEXT, EXIT], [0, 0], StopCause::Exit, Left::Closed),
    (
        &[READY, NEXT, EXIT, b"XA"],
        [0, 0],
        StopCause::Exit,
        Left::Closed,
    ),
    (&[], [0, 0], StopCause::EndOfInput, Left::Killed),
    (&[READY, NEXT], [0, 0], StopCause::EndOfInput, Left::Killed),
    (
        &[READY, NEXT, RETURN, b"XA"],
        [0, 0],
        StopCause::EndOfInput,
        Left::Killed,
    ),
    (
        &[READY, NEXT, RETURN, NEXT],
        [1, 0],
        StopCause::ReadFault,
        Left::Killed,
    ),
    (
        &[READY, NEXT, RETURN, NEXT],
        [0, 1],
        StopCause::WriteFault,
        Left::Killed,
    ),
    (
        &[READY, NEXT, RETURN, NEXT],
        [0, 2],
        StopCause::WriteFault,
        Left::Killed,
    ),
    (
        &[READY, NEXT, b"nonsense, no frame"],
        [0, 0],
        StopCause::BadBytes(26),
        Left::Killed,
    ),
    (
        &[READY, NEXT, OTHER],
        [0, 0],
        StopCause::OutOfTurn(0x04, 2),
        Left::Killed,
    ),
    (
        &[READY, NEXT, RETURN, RETURN],
        [0, 0],
        StopCause::OutOfTurn(0x04, 1),
        Left::Killed,
    ),
    // FORWARD in place of RETURN
    (
        &[READY, NEXT, FORWARD, NEXT],
        [0, 0],
        StopCause::Shutdown,
        Left::Open,
    ),
    (
        &[READY, NEXT, FORWARD],
        [0, 0],
        StopCause::EndOfInput,
        Left::Killed,
    ),
    (
        &[READY, NEXT, FORWARD, RETURN],
        [0, 0],
        StopCause::OutOfTurn(0x04, 1),
        Left::Killed,
    ),
    (
        &[READY, NEXT, b"XA\x01\x05\0\0\0\x04\0\0\0\x01\x02TO"],
        [2, 0],
        StopCause::ReadFault,
        Left::Killed,
    ),
    (
        &[READY, NEXT, b"XA\x01\x05\0\0\0\x04\0\0\0\x01\x03TO\0"],
        [0, 0],
        StopCause::BadBytes(26),
        Left::Killed,
    ),
    // with another tag
    (
        &[READY, NEXT, LATER],
        [0, 0],
        StopCause::OutOfTurn(0x05, 2),
        Left::Killed,
    ),
    (
        &[READY, NEXT, UNTAGGED],
        [0, 0],
        StopCause::OutOfTurn(0x05, 0),
        Left::Killed,
    ),
    // in place of READY
    (
        &[UNTAGGED],
        [0, 0],
        StopCause::OutOfTurn(0x05, 0),
        Left::Killed,
    ),
    // in place of NEXT
    (
        &[READY, UNTAGGED],
        [0, 0],
        StopCause::OutOfTurn(0x05, 0),
        Left::Killed,
    ),
    (
        &[READY, NEXT, FORWARD, FORWARD],
        [0, 0],
        StopCause::OutOfTurn(0x05, 1),
        Left::Killed,
    ),
    (
        &[READY, NEXT, FORWARD, LATER],
        [0, 0],
        StopCause::OutOfTurn(0x05, 2),
        Left::Killed,
    ),
    (
        &[READY, NEXT, RETURN, FORWARD],
        [0, 0],
        StopCause::OutOfTurn(0x05, 1),
        Left::Killed,
    ),
    // with an OP, and with two, of which the second needn't wait for the REPLY to the first
    (
        &[READY, NEXT, OP, RETURN, NEXT],
        [0, 0],
        StopCause::Shutdown,
        Left::Open,
    ),
    (
        &[READY, NEXT, OP, OP, FORWARD, NEXT],
        [0, 0],
        StopCause::Shutdown,
        Left::Open,
    ),
    // where memory runs out before the third call
    (
        &[READY, NEXT, OP, OP, OP],
        [0, 0],
        StopCause::Starved,
        Left::Killed,
    ),
    // cut between OP and REPLY, and behind that
    (
        &[READY, NEXT, OP, RETURN, NEXT],
        [0, 2],
        StopCause::WriteFault,
        Left::Killed,
    ),
    (
        &[READY, NEXT, OP],
        [0, 0],
        StopCause::EndOfInput,
        Left::Killed,
    ),
    // before READY, before NEXT, behind RETURN, and with another tag
    (&[OP], [0, 0], StopCause::OutOfTurn(0x03, 1), Left::Killed),
    (
        &[READY, OP],
        [0, 0],
        StopCause::OutOfTurn(0x03, 1),
        Left::Killed,
    ),
    (
        &[READY, NEXT, RETURN, OP],
        [0, 0],
        StopCause::OutOfTurn(0x03, 1),
        Left::Killed,
    ),
    (
        &[READY, NEXT, LATER_OP],
        [0, 0],
        StopCause::OutOfTurn(0x03, 2),
        Left::Killed,
    ),
    // of a call that isn't served
    (
        &[READY, NEXT, UNSERVED],
        [0, 0],
        StopCause::OutOfTurn(0x03, 1),
        Left::Killed,
    ),
];

const ONE_SERVER: &[u8] = b"queue = [{ name = 'Q' }]
server = [{ name = 'S', queue = 'Q' }]";

// Its request is done, and it is shut down, or ends by itself.
fn end<L: Link>(life: Life<L>, back: Finish) -> Result<EndedLife<L>, EndedLife<L>>
    requires { life.turn ≡ turn_after Serving (finish_frame 0 back).body }
{
    match back {
        Finish::Returns(back) => match back.value {
            Rval::Exit => Ok(life.exit()),
            Rval::Success | Rval::Fail => Ok(life.read_next()?.shut_down()),
        },
        Finish::Forwards(_) => Ok(life.read_next()?.shut_down()),
    }
}

// Behind its second call no further one can be made.
fn call_last<L: Link>(life: Life<L>) -> Result<EndedLife<L>, EndedLife<L>>
    requires { life.turn ≡ Serving }
{
    let Acted { life, act } = life.hear()?;
    match act {
        Act::Ends(back) => end(life, back),
        Act::Calls(_) => Ok(life.starve()),
    }
}

// Its second call is answered with an error.
fn call_again<L: Link>(life: Life<L>) -> Result<EndedLife<L>, EndedLife<L>>
    requires { life.turn ≡ Serving }
{
    let Acted { life, act } = life.hear()?;
    match act {
        Act::Ends(back) => end(life, back),
        Act::Calls(_) => call_last(life.reply_answer(0, &Answer::Error(Fault::NoEnt))?),
    }
}

// The program greets, is asked once and is shut down, or ends by itself; its first call is done.
fn serve<L: Link>(life: Life<L>, service: &Name) -> Result<EndedLife<L>, EndedLife<L>>
    requires { life.turn ≡ AwaitsReady }
{
    let life = life.greet()?.send(service, service, &Data::Absent)?;
    let Acted { life, act } = life.hear()?;
    match act {
        Act::Ends(back) => end(life, back),
        Act::Calls(_) => call_again(life.reply(&Reply::Done)?),
    }
}

fn left_of(over: EndedLife<MemoryLink>) -> Left {
    match over.into_pipes() {
        Pipes::Open(_) => Left::Open,
        Pipes::Closed(_) => Left::Closed,
        Pipes::Killed(_) => Left::Killed,
    }
}

// Whether the first life of the server ends by that cause, and that is left of its pipes.
fn ends_so<S: Starter<MemoryLink>>(
    alloc: Global,
    starter: &mut S,
    cause: StopCause,
    left: Left,
) -> bool {
    let server = starter.server();
    let Ok(link) = starter.start(&server, Generation(1)) else {
        return false;
    };
    let life = Life::new(alloc, link, server, ServerId(1), Generation(1));
    let over = match serve(life, &server) {
        Ok(over) => over,
        Err(over) => over,
    };
    let is_right = over.cause() == cause;
    is_right & (left_of(over) == left)
}

fn yard_of(alloc: Global, said: &[&[u8]], [reads, writes]: [u64; 2]) -> Option<MemoryYard> {
    let octets = joined(alloc, said)?;
    let link = link_of(alloc, &octets, [reads, writes, 0], 64)?;
    let lives = [Vec::from_array(alloc, [Some(link)]).ok()?];
    Some(MemoryYard::new(alloc, Vec::from_array(alloc, lives).ok()?))
}

fn is_right(
    alloc: Global,
    said: &[&[u8]],
    fails: [u64; 2],
    cause: StopCause,
    left: Left,
) -> Option<bool> {
    let mut yard = yard_of(alloc, said, fails)?;
    let mut starters = yard.starters(&setup_of(alloc, ONE_SERVER)?).ok()?;
    let starter = starters.as_mut_slice().get_mut(0)?;
    Some(ends_so(alloc, starter, cause, left))
}

fn first_wrong(alloc: Global) -> Option<usize> {
    for (place, row) in COURSES.iter().enumerate() {
        let (said, fails, cause, left) = *row;
        if is_right(alloc, said, fails, cause, left) != Some(true) {
            return Some(place);
        }
    }
    None
}

// So many octets of a FORWARD come, and then no more.
fn first_wrong_cut(alloc: Global) -> Option<usize> {
    for count in 0..FORWARD.len() {
        let said = [READY, NEXT, &FORWARD[..count]];
        let ends = is_right(alloc, &said, [0, 0], StopCause::EndOfInput, Left::Killed);
        if ends != Some(true) {
            return Some(count);
        }
    }
    None
}

#[test]
fn each_life_ends_by_its_cause(rt: HostRuntime) {
    none_fails(&rt, first_wrong(rt.alloc()));
}

#[test]
fn a_forward_that_is_cut_ends_its_life(rt: HostRuntime) {
    none_fails(&rt, first_wrong_cut(rt.alloc()));
}
