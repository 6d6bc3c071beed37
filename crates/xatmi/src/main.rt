//! The program: makes the real objects, runs the command that its words are, and ends with the number of its status.
#![tactic(auto)]

ghost use Rattle.std.specs.Prelude.{◌≡◌};
ghost use Rattle.std.specs.Process.{exit_status};
ghost use Rattle.xa_program.specs.Status.{number_of};

use std::alloc::Global;
use std::mem::forget;
use std::process::ExitCode;
use std::rt::Env;
use std::sync::Wait;
use std::thread::Threads;
use xa_program::link::{
    ChildStarter, ChildYard, FileShelf, OpenGate, ReadSource, Starter, SystemArguments, WriteSink,
};
use xa_program::types::{Name, NoMemory, Octets};
use xa_program::{Outcome, Status, all_words, own_word, report, report_lives, run, words_behind};

// The first of all words, by which this program was started, and the words behind it.
fn split_words(alloc: Global, all: &[Octets]) -> Result<(Octets, Vec<String>), Status> {
    let own = Octets::of(alloc, own_word(all))?;
    Ok((own, words_behind(alloc, all)?))
}

fn words<R: Env + AllocGlobal + Drop>(rt: R) -> Result<(Octets, Vec<String>), Status> {
    let alloc = rt.alloc();
    let all = all_words(alloc, &SystemArguments::new(rt))?;
    split_words(alloc, all.as_slice())
}

// The names of the servers that these start, in the order of the setup.
fn names_of(alloc: Global, starters: &[ChildStarter<HostRuntime>]) -> Result<Vec<Name>, NoMemory> {
    let mut names = Vec::new(alloc);
    for starter in starters {
        names.push(starter.server())?;
    }
    Ok(names)
}

// Runs the command of these words on these threads, as the program of that name. The processes that it started are
// waited for before it answers.
fn run_words<R: Threads + Wait + Sync>(
    threads: &R,
    rt: HostRuntime,
    own: Octets,
    words: &[String],
) -> Status {
    let Outcome {
        status,
        homes,
        history,
        lives,
        cut,
        starters,
    } = run(
        threads,
        rt.alloc(),
        words,
        &mut FileShelf::new(rt, rt.alloc()),
        &mut ReadSource::new(rt.stdin()),
        &mut WriteSink::new(rt.stdout()),
        &mut ChildYard::new(rt, own),
        &OpenGate,
    );
    if let Ok(names) = names_of(rt.alloc(), starters.as_slice()) {
        let _ = report_lives(&rt, names.as_slice(), history.as_slice(), lives.as_slice());
    }
    drop(lives);
    drop(cut);
    // The system takes back all memory at once as the program ends.
    forget(homes);
    forget(history);
    status
}

fn run_command<R: Threads + Wait + Sync>(threads: &R, rt: HostRuntime) -> Status {
    match words(rt) {
        Ok((own, words)) => run_words(threads, rt, own, words.as_slice()),
        Err(status) => status,
    }
}

// Says how the command ended, and answers what the system is told of it.
fn finish<R: Eprint>(rt: &R, status: Status) -> ExitCode
    ensures { exit_status result ≡ number_of status }
{
    let _ = report(rt, &status);
    status.exit_code()
}

fn main(rt: HostRuntime) -> ExitCode {
    finish(&rt, run_command(&rt, rt))
}
