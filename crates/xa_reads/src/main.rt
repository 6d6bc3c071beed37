//! Reads from standard input, and writes on standard output what was read.
//!
//! | Words | What is read, and what is written |
//! |---|---|
//! | none | configurations, and scripts behind `!script\n`, with the octets `\n====\n` between them, which belong to none; of a configuration the lines of its setup, or the line of its first fault; of a script how many clients and calls it has, or the line of its first fault |
//! | `frames` | frames; the same frames |
//! | `frames read` | frames; how many they are |
//! | `frames octets` | the same, but each octet is fed alone |
//! | `configuration N` | one configuration, N times; how many entries its tables have |
//! | `script N` | one script, N times; how many calls it has |
#![tactic(auto)]

mod configurations;
mod frames;
mod refused;
mod scripts;
mod setup;

use crate::configurations::{read_configuration, tell_each};
use crate::frames::{Work, read_frames};
use crate::refused::Refused;
use crate::scripts::read_script;
use std::alloc::Global;
use std::env;
use std::io::{Read, Write};
use std::process::ExitCode;
use std::rt::Env;

#[derive(Clone, Copy)]
enum Command {
    Tell,
    Frames(Work),
    Configuration(u32),
    Script(u32),
}

// The command of the word, with the word behind it or none.
fn command_of(word: &str, behind: Option<&str>) -> Option<Command> {
    match (word, behind) {
        ("frames", None) => Some(Command::Frames(Work::Copy)),
        ("frames", Some("read")) => Some(Command::Frames(Work::Read)),
        ("frames", Some("octets")) => Some(Command::Frames(Work::Octets)),
        ("configuration", Some(times)) => times.parse().ok().map(Command::Configuration),
        ("script", Some(times)) => times.parse().ok().map(Command::Script),
        _ => None,
    }
}

fn read_command<R: Env + AllocGlobal>(rt: &R) -> Result<Command, Refused> {
    let mut words = env::args(rt).map_err(|_| Refused::Usage)?;
    let _ = words.next();
    let Some(word) = words.next() else {
        return Ok(Command::Tell);
    };
    let behind = words.next();
    command_of(word.as_str(), behind.as_deref()).ok_or(Refused::Usage)
}

fn read_all<R: Read>(alloc: Global, input: &mut R) -> Result<Vec<u8>, Refused> {
    let mut octets = Vec::new(alloc);
    input.read_to_end(&mut octets)?;
    Ok(octets)
}

fn run(rt: HostRuntime) -> Result<(), Refused> {
    let command = read_command(&rt)?;
    let alloc = rt.alloc();
    let mut input = rt.stdin();
    let mut output = rt.stdout();
    match command {
        Command::Tell => {
            let mut out = Vec::new(alloc);
            tell_each(alloc, &read_all(alloc, &mut input)?, &mut out)?;
            output.write_all(&out)?;
        }
        Command::Frames(work) => {
            let frames = read_frames(alloc, work, &mut input, &mut output)?;
            if !matches!(work, Work::Copy) {
                println!(rt; "{frames}")?;
            }
        }
        Command::Configuration(times) => {
            let octets = read_all(alloc, &mut input)?;
            let entries = read_configuration(alloc, &octets, times)?;
            println!(rt; "{entries} entries")?;
        }
        Command::Script(times) => {
            let octets = read_all(alloc, &mut input)?;
            let calls = read_script(alloc, &octets, times)?;
            println!(rt; "{calls} calls")?;
        }
    }
    Ok(())
}

fn main(rt: HostRuntime) -> ExitCode {
    match run(rt) {
        Ok(()) => ExitCode::SUCCESS,
        Err(refused) => {
            let _ = eprintln!(rt; "{refused:?}");
            ExitCode::FAILURE
        }
    }
}
