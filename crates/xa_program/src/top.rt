// The top call.
ghost use Rattle.std.specs.Prelude.{◌≡◌, ◌≤◌, ◌↔◌, true, ℕ, List, map, string_bytes, None, Some, IfOk, IfErr, OnOk, length};
ghost use Rattle.xa_domain.specs.xa_link.Told.{Rose};
ghost use Rattle.xa_domain.specs.xa_types.Configured.{is_configured};
ghost use Rattle.xa_domain.specs.xa_types.declared.setup.Setup.{Setup};
ghost use Rattle.xa_domain.specs.xa_script.declared.script.Script.{Script};
ghost use Rattle.xa_domain.specs.xa_script.Script.{IsScript};
ghost use Rattle.xa_program.specs.declared.words.Command.{Command};
ghost use Rattle.xa_program.specs.declared.words.Command.TheVariants.{Audit, Server};
ghost use Rattle.xa_program.specs.Audit.{AuditEnds, IsJudged};
ghost use Rattle.xa_program.specs.Configuration.{shelf_by, IsSetup, TellsSetup, KeepsShelf, AsksFiles, AsksShelf};
ghost use Rattle.xa_program.specs.Headline.{streams_by, handed_by, IsUnread, IsIdle, Writes, RunEnds, ScriptEnds, Serves, EndsEarly, EndsWithoutFault, HandsNothing, longest_script, most_clients};
ghost use Rattle.xa_program.specs.Progress.{CommandRefusedAs, AsksBy, Says};
ghost use Rattle.xa_program.specs.Server.{ServerEnds};
ghost use Rattle.xa_program.specs.Input.{input_by, Tells};
ghost use Rattle.xa_program.specs.Words.{command_in};
ghost use Rattle.xa_program.specs.Yard.{AsksYard};

use crate::auditing::audit_file;
use crate::outcome::Outcome;
use crate::script::read_script;
use crate::server::child_work;
use crate::setup::{play_setup, read_setup};
use crate::status::Status;
use crate::telling::{Form, tell};
use crate::words::{Command, read_words};
use std::alloc::Global;
use std::sync::Wait;
use std::thread::Threads;
use xa_domain::stamp::Record;
use xa_domain::{Served, serve};
use xa_link::{Gate, Shelf, Sink, Source, Yard};
use xa_types::{NoMemory, Sequence, Setup};

/// Runs the command that these words are, which stand behind the program's own name.
///
/// `run CONFIG` reads the configuration of that name from the shelf, then a script of up to 64 clients from the input,
/// serves it by the configured servers, and writes the clients' transcript. `record CONFIG` does the same, but writes the
/// record of the run. `play SERVICE` does what `run` does with a script of at most one client and one server of that
/// service. `audit FILE` reads a record from the shelf, and writes what its events come to. `server NAME` is the program
/// of a server, on the input and the output.
///
/// The history of `run`, `record` and `play` is a run of the machine, so the laws `ends_once`, `answers_once`, `reads_forward` and
/// `ended_servers_are_off` of `xa_events` hold of it.
pub fn run<R: Threads + Wait + Sync, S: Shelf, I: Source, O: Sink, Y: Yard, G: Gate>(
    rt: &R,
    alloc: Global,
    words: &[String],
    shelf: &mut S,
    input: &mut I,
    out: &mut O,
    yard: &mut Y,
    gate: &G,
) -> Outcome<Y>
    // The words are no command's.
    ensures usage { (result.status ≡ Status.Usage) ↔ (command_in (map string_bytes words.now) ≡ None) }

    // Then what the input tells that it holds and gave, and what the output tells that it took, stay, and so do their counts.
    ensures untouched { command_in (map string_bytes words.now) ≡ None → IsIdle (streams_by I.shows O.shows input.old input.new out.old out.new) }

    // How often a read of a file of the shelf failed, and which files were asked for.
    ensures shelf { KeepsShelf (command_in (map string_bytes words.now)) result.status (S.shows shelf.old) (S.shows shelf.new) }

    // What `run`, `record` and `play` come to. What `record` wrote is judged as a run, if memory doesn't run out.
    ensures ends { (command : Command) → command_in (map string_bytes words.now) ≡ Some command → Serves command
        → RunEnds Y.Start.shows (shelf_by S.shows shelf.old shelf.new) (streams_by I.shows O.shows input.old input.new out.old out.new) command
        result.status (handed_by result) }

    // Where the shelf tells a configuration that is not too long, or none is wanted, and the input tells octets that are a script for it and not
    // too long, and none of the shelf, the input and the output fails, the run ends with Done, Worn or NoMemory. That they don't fail is
    // that their counts don't rise: where a count stands at 2^64 - 1 this says nothing.
    ensures complete { (command : Command) (setup : Setup) (octets : List ℕ) (script : Script) → command_in (map string_bytes words.now) ≡ Some command → Serves command
        → TellsSetup (S.shows shelf.old).file command setup
        → Tells (input_by I.shows input.old input.new) octets → length octets ≤ longest_script → IsScript setup (most_clients command) octets script
        → (Rose (S.shows shelf.old).faults (S.shows shelf.new).faults → ⊥) → (Rose (I.shows input.old).faults (I.shows input.new).faults → ⊥) → (Rose (O.shows out.old).faults (O.shows out.new).faults → ⊥)
        → EndsWithoutFault result.status }

    // For which setups the yard was asked for starters.
    ensures yard { AsksYard (S.shows shelf.old).file (command_in (map string_bytes words.now)) result.status (Y.asked yard.old) (Y.asked yard.new) }

    // What the program of a server comes to; nothing is handed back.
    ensures server { (name : List ℕ) → command_in (map string_bytes words.now) ≡ Some (Server name)
        → ServerEnds name (streams_by I.shows O.shows input.old input.new out.old out.new) result.status
        × HandsNothing (handed_by result) }

    // What `audit` comes to; the input is left alone, and nothing is handed back.
    ensures audit { (name : List ℕ) → command_in (map string_bytes words.now) ≡ Some (Audit name)
        → AuditEnds (shelf_by S.shows shelf.old shelf.new) name (O.shows out.old) (O.shows out.new) result.status
        × IsUnread (streams_by I.shows O.shows input.old input.new out.old out.new)
        × HandsNothing (handed_by result) }

    // Where the shelf tells the octets that `audit` is to judge, and neither it nor the output fails, the status is that of whatever may be answered of them,
    // or memory ran out.
    ensures judged { (name octets : List ℕ) → command_in (map string_bytes words.now) ≡ Some (Audit name) → (S.shows shelf.old).file name ≡ Some (Some octets)
        → (Rose (S.shows shelf.old).faults (S.shows shelf.new).faults → ⊥) → (Rose (O.shows out.old).faults (O.shows out.new).faults → ⊥)
        → IsJudged octets result.status }

    // Where the words, the configuration, the input, the script or a record are refused, nothing is handed back.
    ensures early { EndsEarly result.status (handed_by result) }
{
    match read_words(alloc, words) {
        Ok(Some(command)) => obey(rt, alloc, &command, shelf, input, out, yard, gate),
        Ok(None) => nothing(alloc, Status::Usage),
        Err(NoMemory) => nothing(alloc, Status::NoMemory),
    }
}

fn obey<R: Threads + Wait + Sync, S: Shelf, I: Source, O: Sink, Y: Yard, G: Gate>(
    rt: &R,
    alloc: Global,
    command: &Command,
    shelf: &mut S,
    input: &mut I,
    out: &mut O,
    yard: &mut Y,
    gate: &G,
) -> Outcome<Y>
    ensures known { result.status ≡ Status.Usage → ⊥ }
    ensures shelf { KeepsShelf (Some command.now) result.status (S.shows shelf.old) (S.shows shelf.new) }
    ensures ends { Serves command.now
        → RunEnds Y.Start.shows (shelf_by S.shows shelf.old shelf.new) (streams_by I.shows O.shows input.old input.new out.old out.new)
        command.now result.status (handed_by result) }
    ensures yard { AsksYard (S.shows shelf.old).file (Some command.now) result.status (Y.asked yard.old) (Y.asked yard.new) }
    ensures server { (name : List ℕ) → command.now ≡ Server name
        → ServerEnds name (streams_by I.shows O.shows input.old input.new out.old out.new) result.status
        × HandsNothing (handed_by result) }
    ensures audit { (name : List ℕ) → command.now ≡ Audit name
        → AuditEnds (shelf_by S.shows shelf.old shelf.new) name (O.shows out.old) (O.shows out.new) result.status
        × IsUnread (streams_by I.shows O.shows input.old input.new out.old out.new)
        × HandsNothing (handed_by result) }
    ensures early { EndsEarly result.status (handed_by result) }
{
    if let Command::Server(name) = command {
        return nothing(alloc, child_work(alloc, name, input, out));
    }
    if let Command::Audit(name) = command {
        return nothing(alloc, audit_file(alloc, name.slice(), shelf, out));
    }
    match setup_of(alloc, command, shelf) {
        Ok((setup, most, form)) => {
            serve_script(rt, alloc, setup, most, &form, input, out, yard, gate)
        }
        Err(status) => nothing(alloc, status),
    }
}

fn nothing<Y: Yard>(alloc: Global, status: Status) -> Outcome<Y>
    ensures status { result.status ≡ status }
    ensures none { HandsNothing (handed_by result) }
{
    let homes = Record {
        homes: Sequence::from_vec(Vec::new(alloc)),
    };
    Outcome {
        status,
        homes,
        history: Vec::new(alloc),
        lives: Vec::new(alloc),
        cut: Vec::new(alloc),
        starters: Vec::new(alloc),
    }
}

// The setup of a command that serves a script, how many clients that may have, and what is written of the run.
fn setup_of<S: Shelf>(
    alloc: Global,
    command: &Command,
    shelf: &mut S,
) -> Result<(Setup, u16, Form), Status>
    requires { Serves command.now }
    ensures found { IfOk result (λ found. IsSetup (S.shows shelf.old).file command.now found.0) }
    ensures most { IfOk result (λ found. found.1 ≡ most_clients command.now) }
    ensures writes { IfOk result (λ found. Writes (S.shows shelf.old).file command.now found.0 found.2) }
    ensures configured { IfOk result (λ found. is_configured found.0 ≡ true) }
    ensures says { IfOk result (λ found. Says found.0 found.2) }
    ensures quiet { OnOk result ((S.shows shelf.new).faults ≡ (S.shows shelf.old).faults) }
    ensures refused { IfErr result (CommandRefusedAs (shelf_by S.shows shelf.old shelf.new) command.now) }
    ensures asks { OnOk result (AsksFiles command.now (S.shows shelf.old).asked (S.shows shelf.new).asked) }
    ensures asked { IfErr result (λ status. AsksShelf (Some command.now) status (S.shows shelf.old).asked (S.shows shelf.new).asked) }
{
    match command {
        Command::Run(name) => {
            let (setup, _) = read_setup(alloc, name.slice(), shelf)?;
            Ok((setup, 64, Form::Transcript))
        }
        Command::Record(name) => {
            let (setup, config) = read_setup(alloc, name.slice(), shelf)?;
            Ok((setup, 64, Form::Record(config)))
        }
        Command::Play(service) => Ok((play_setup(alloc, service)?, 1, Form::Transcript)),
        Command::Audit(_) | Command::Server(_) => unreachable!(),
    }
}

// Reads the script, serves it, and writes what is due of the run.
fn serve_script<R: Threads + Wait + Sync, I: Source, O: Sink, Y: Yard, G: Gate>(
    rt: &R,
    alloc: Global,
    setup: Setup,
    most: u16,
    form: &Form,
    input: &mut I,
    out: &mut O,
    yard: &mut Y,
    gate: &G,
) -> Outcome<Y>
    requires configured { is_configured setup ≡ true }
    requires most { (1 ≤ most) × (most ≤ 64) }
    requires says { Says setup form.now }
    ensures ends { ScriptEnds Y.Start.shows
        (streams_by I.shows O.shows input.old input.new out.old out.new)
        setup most form.now result.status (handed_by result) }
    ensures yard { AsksBy setup result.status (Y.asked yard.old) (Y.asked yard.new) }
    ensures early { EndsEarly result.status (handed_by result) }
{
    let mut octets = Vec::new(alloc);
    let script = match read_script(alloc, &setup, most, input, &mut octets) {
        Ok(script) => script,
        Err(status) => return nothing(alloc, status),
    };
    let Served {
        halt,
        homes,
        lives,
        cut,
        starters,
    } = serve(rt, alloc, setup, &script, yard, gate);
    let (status, history) = tell(alloc, halt, form, &homes, script.clients.slice(), out);
    Outcome {
        status,
        homes,
        history,
        lives,
        cut,
        starters,
    }
}
