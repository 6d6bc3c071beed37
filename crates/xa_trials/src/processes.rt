//! What the processes of servers do: how they are started, what their pipes carry, and that nothing is left of them.
ghost use Rattle.std.specs.Prelude.{◌≡◌, true, IfOk, codes};
ghost use Rattle.xa_program.specs.xa_types.Configured.{is_configured, is_valid_program};

use crate::rows::none_fails;
use crate::served::{has, remove};
use std::alloc::Global;
use std::fs;
use xa_program::link::{ChildStarter, ChildYard, Link, Source, StartRefused, Starter, Yard, put};
use xa_program::types::{
    Generation, Name, NoMemory, Octets, QueueSetup, Sequence, ServerSetup, Setup,
};

// What a link is to do next.
enum Step {
    Takes(&'static str),
    Refuses(&'static str),
    Gives(&'static str),
    Ends,
}

// A server's program or the monitor's own, the script that it reads where it is a shell, and what its link does; for a
// program that can't be started, nothing.
type Row = (Option<&'static str>, &'static str, Option<&'static [Step]>);

const SHELL: Option<&str> = Some("/bin/sh");

static ROWS: [Row; 10] = [
    (
        Some("/bin/echo"),
        "",
        Some(&[Step::Gives("server S\n"), Step::Ends]),
    ),
    (None, "", Some(&[Step::Gives("server S\n"), Step::Ends])),
    (Some("/bin/no-such-program"), "", None),
    (
        SHELL,
        "exec cat",
        Some(&[Step::Takes("hello"), Step::Gives("hello")]),
    ),
    (SHELL, "exit 0", Some(&[Step::Ends, Step::Ends])),
    (
        SHELL,
        "exec 0<&-; echo shut",
        Some(&[Step::Gives("shut\n"), Step::Refuses("x"), Step::Ends]),
    ),
    (
        SHELL,
        "printf a; printf b; printf c",
        Some(&[Step::Gives("abc"), Step::Ends]),
    ),
    (
        SHELL,
        "read -r all < /proc/$PPID/task/$PPID/children; test \"$all\" = $$ && echo alone",
        Some(&[Step::Gives("alone\n"), Step::Ends]),
    ),
    (
        SHELL,
        "test \"$(readlink /proc/$$/fd/2)\" = \"$(readlink /proc/$PPID/fd/2)\" && echo same",
        Some(&[Step::Gives("same\n"), Step::Ends]),
    ),
    (
        SHELL,
        "trap '' PIPE; cat >/dev/null; sleep 0.1; echo x 2>/dev/null || echo shut >ended",
        Some(&[]),
    ),
];

// The program of a server; a path that is none, or too long, is left out.
fn program_of(alloc: Global, path: Option<&str>) -> Result<Option<Octets>, NoMemory>
    ensures { IfOk result (λ program. is_valid_program program ≡ true) }
{
    match path {
        Some(path) if !path.is_empty() && path.len() <= 255 => {
            Ok(Some(Octets::of(alloc, path.as_bytes())?))
        }
        _ => Ok(None),
    }
}

// One queue and one server, both of that name.
fn setup(alloc: Global, name: Name, program: Option<Octets>) -> Result<Setup, NoMemory>
    requires name { name ≡ codes "S" }
    requires program { is_valid_program program ≡ true }
    ensures { IfOk result (λ setup. is_configured setup ≡ true) }
{
    let queue = QueueSetup {
        name,
        group: name,
        capacity: 1,
    };
    let server = ServerSetup {
        name,
        queue: name,
        program,
        restart: false,
        maxgen: 1,
        grace: 1,
    };
    let servers = Vec::from_array(alloc, [server])?;
    Ok(Setup {
        block_time: 1,
        blocks: 1,
        shapes: Sequence::from_vec(Vec::new(alloc)),
        queues: Sequence::from_vec(Vec::from_array(alloc, [queue])?),
        servers: Sequence::from_vec(servers),
        services: Sequence::from_vec(Vec::new(alloc)),
    })
}

// The octets are read one by one, so it is all the same in which pieces they were written.
fn gives<S: Source>(source: &mut S, want: &str) -> bool {
    for octet in want.as_bytes() {
        let mut piece = [0u8];
        if source.read(&mut piece) != Ok(1) || piece[0] != *octet {
            return false;
        }
    }
    true
}

fn does<L: Link>(link: &mut L, step: &Step) -> bool {
    match step {
        Step::Takes(text) => put(link, text.as_bytes()).is_ok(),
        Step::Refuses(text) => put(link, text.as_bytes()).is_err(),
        Step::Gives(text) => gives(link, text),
        Step::Ends => link.read(&mut [0u8]) == Ok(0),
    }
}

fn does_all<L: Link>(link: &mut L, steps: &[Step]) -> bool {
    for step in steps {
        if !does(link, step) {
            return false;
        }
    }
    true
}

// Whether what the starter starts does these in turn; without steps, whether it fails.
fn runs<L: Link + Drop, S: Starter<L>>(starter: &mut S, steps: Option<&[Step]>) -> bool {
    let server = starter.server();
    match (starter.start(&server, Generation(1)), steps) {
        (Ok(mut link), Some(steps)) => does_all(&mut link, steps),
        (Err(refused), None) => refused == StartRefused::Failed,
        _ => false,
    }
}

fn starters_of(rt: &HostRuntime, setup: &Setup) -> Option<Vec<ChildStarter<HostRuntime>>>
    requires { is_configured setup.now ≡ true }
{
    let own = Octets::of(rt.alloc(), b"echo").ok()?;
    ChildYard::new(rt.clone().ok()?, own).starters(setup).ok()
}

fn starts_by(rt: &HostRuntime, setup: &Setup, steps: Option<&[Step]>) -> bool
    requires { is_configured setup.now ≡ true }
{
    match starters_of(rt, setup) {
        Some(mut starters) => match starters.as_mut_slice() {
            [starter] => runs(starter, steps),
            _ => false,
        },
        None => false,
    }
}

fn starts(rt: &HostRuntime, program: Option<&str>, steps: Option<&[Step]>) -> bool {
    let (Ok(name), Ok(program)) = (Name::read(b"S"), program_of(rt.alloc(), program)) else {
        return false;
    };
    match setup(rt.alloc(), name, program) {
        Ok(setup) => starts_by(rt, &setup, steps),
        Err(_) => false,
    }
}

/// How many descriptors are open.
pub fn count_descriptors(rt: &HostRuntime) -> Option<usize> {
    Some(fs::read_dir(rt, "/proc/self/fd").ok()?.count())
}

fn first_not_run(rt: &HostRuntime) -> Option<usize> {
    for (place, (program, script, steps)) in ROWS.iter().enumerate() {
        if fs::write(rt, "server", *script).is_err() || !starts(rt, *program, *steps) {
            return Some(place);
        }
    }
    None
}

// A server is started with the words `server` and its name, so `sh` reads its script from the file `server`. The last
// one goes on once its input has ended, and notes that nobody reads its output then.
#[test]
fn processes_end_alone_and_leave_nothing(rt: HostRuntime) {
    let before = count_descriptors(&rt);
    none_fails(&rt, first_not_run(&rt));
    assert!(rt; has(&rt, "ended", "shut\n") && has(&rt, "/proc/thread-self/children", ""));
    assert!(rt; before.is_some() && count_descriptors(&rt) == before);
    assert!(rt; remove(&rt, &["server", "ended"]));
}
