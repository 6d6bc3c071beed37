// Servers as processes.
ghost use Rattle.std.specs.Prelude.{◌≡◌, ◌≤◌, ◌<◌, ◌⊎◌, [], ◌∷◌, ◌++◌, codes, length, None, Some, IfOk, IfSome, OnOk, IsErr, IsSome, MatchResult, option_map, unwrap_or};
ghost use Rattle.xa_link.specs.declared.child.Failure.TheVariants.{NoText};
ghost use Rattle.std.specs.Str.{IsUtf8};
ghost use Rattle.std.specs.Process.{child_status, exit_code, exit_signal, command_args, command_program, SameEnv, SameDir};
ghost use Rattle.std.specs.Io.KnownBytes.{ReadConsumes, WriteAppends};
ghost use Rattle.xa_link.specs.Told.{Rose};
ghost use Rattle.xa_link.specs.declared.link.ProcessEnd.TheVariants.{Status, Signal};
ghost use Rattle.xa_link.specs.declared.starter.StartRefused.TheVariants.{Failed as NotStarted, NoMemory as Starved};
ghost use Rattle.xa_link.specs.Processes.{StartsServer, IsChosen};

use crate::count::raise;
use crate::escaped::Escaped;
use crate::{
    Closed, Failed, Link, ProcessEnd, ReadSource, Sink, Source, StartRefused, Starter, WriteSink,
    Yard,
};
use std::alloc::{AllocError, Global};
use std::io::{PipeReader, PipeWriter, Write};
use std::marker::Model;
use std::os::unix::process::ExitStatusExt;
use std::path::AsPath;
use std::process::{Child, Command, ExitStatus, OpenProcess, Processes, Stdio};
use std::rt::Files;
use std::snapshot::Snapshot;
use std::{env, io};
use thiserror::Error;
use xa_types::{Generation, Name, NoMemory, Octets, ServerSetup, Setup};

/// A process and its two pipes. Where it is dropped, both pipes are closed, and then the process is waited for, unless
/// it was before.
pub struct ChildLink<P: OpenProcess + Drop> {
    child: Child<P>,
    from: ReadSource<P::Stdout>,
    to: WriteSink<PipeWriter>,
    whose: Option<(Name, Generation)>,
}

impl<P: OpenProcess + Drop> Drop for ChildLink<P> {
    fn drop(self) {
        let ChildLink {
            mut child,
            from,
            to,
            whose: _,
        } = self;
        let _ = finish(&mut child, from, to);
    }
}

impl<P: OpenProcess + Drop> ChildLink<P> {
    // What is left of it: both pipes are closed, and then the process is waited for.
    fn close_pipes(self) -> Closed<ChildLink<P>>
        ensures { result.was.value ≡ self }
    {
        let was = Snapshot::of(&self);
        let ChildLink {
            mut child,
            from,
            to,
            whose: _,
        } = self;
        let end = match finish(&mut child, from, to) {
            Ok(status) => end_of(status),
            Err(_) => None,
        };
        Closed::new(was, end)
    }
}

// How the process ended to which the system gives that status.
fn end_of(status: ExitStatus) -> Option<ProcessEnd>
    ensures status { IfSome (exit_code status) (λ code. result ≡ Some (Status code)) }
    ensures signal { exit_code status ≡ None → result ≡ option_map Signal (exit_signal status) }
{
    match (status.code(), status.signal()) {
        (Some(code), _) => Some(ProcessEnd::Status(code)),
        (None, Some(signal)) => Some(ProcessEnd::Signal(signal)),
        (None, None) => None,
    }
}

// Closes both pipes, and then waits for the process.
fn finish<P: OpenProcess>(
    child: &mut Child<P>,
    from: ReadSource<P::Stdout>,
    to: WriteSink<PipeWriter>,
) -> io::Result<ExitStatus>
    ensures waited { IfOk result (λ status. child_status child.new ≡ Some status) }
    ensures closed { child.new.stdin ≡ None }
{
    drop(to);
    drop(from);
    child.wait()
}

// Ends the process by force, unless it has ended by itself, and then waits for it.
fn end<P: OpenProcess>(child: &mut Child<P>) -> io::Result<()>
    ensures { OnOk result (IsSome (child_status child.new)) }
{
    if child.try_wait()?.is_none() {
        child.kill()?;
    }
    child.wait()?;
    Ok(())
}

impl<P: OpenProcess + Drop> Source for ChildLink<P> {
    ghost use Rattle.xa_link.specs.Links.{as_source, untold_link};

    ghost shows = { λ l. as_source (untold_link l.from.faults l.to.faults (record { whose = l.whose; fate = None })) };

    fn read(&mut self, into: &mut [u8]) -> Result<usize, Failed>
        ensures bound { IfOk result (λ n. n ≤ length into.new) }
        ensures bytes { ReadConsumes (P.Stdout.remaining self.old.from.reader) (P.Stdout.remaining self.new.from.reader) result into.new }
        ensures alone { (self.new.to.faults ≡ self.old.to.faults) × (self.new.whose ≡ self.old.whose) }
        ensures later { self.old.from.faults ≤ self.new.from.faults }
        ensures cause { IsErr result → Rose self.old.from.faults self.new.from.faults }
        ensures quiet { OnOk result (self.new.from.faults ≡ self.old.from.faults) }
    {
        self.from.read(into)
    }
}

impl<P: OpenProcess + Drop> Sink for ChildLink<P> {
    ghost use Rattle.xa_link.specs.Links.{as_sink, untold_link};

    ghost shows = { λ l. as_sink (untold_link l.from.faults l.to.faults (record { whose = l.whose; fate = None })) };

    fn write(&mut self, from: &[u8]) -> Result<usize, Failed>
        ensures bound { IfOk result (λ n. n ≤ length from.now) }
        ensures bytes { WriteAppends (⟦<PipeWriter as Write>⟧.contents self.old.to.writer) (⟦<PipeWriter as Write>⟧.contents self.new.to.writer) result from.now }
        ensures alone { (self.new.from.faults ≡ self.old.from.faults) × (self.new.whose ≡ self.old.whose) }
        ensures later { self.old.to.faults ≤ self.new.to.faults }
        ensures cause { IsErr result → Rose self.old.to.faults self.new.to.faults }
        ensures nothing { result ≡ Ok 0 → 0 < length from.now → Rose self.old.to.faults self.new.to.faults }
        ensures quiet { IfOk result (λ n. (0 < n) ⊎ (from.now ≡ []) → self.new.to.faults ≡ self.old.to.faults) }
    {
        self.to.write(from)
    }
}

impl<P: OpenProcess + Drop> Link for ChildLink<P> {
    ghost use Rattle.std.specs.Prelude.{refl};
    ghost use Rattle.xa_link.specs.Links.{untold_link};

    ghost shows = { λ l. untold_link l.from.faults l.to.faults (record { whose = l.whose; fate = None }) };

    ghost reads = { λ _. refl };

    ghost writes = { λ _. refl };

    // Where the system refuses to end the process, it is waited for only behind its pipes: it may wait for its input.
    fn kill(mut self) -> Closed<ChildLink<P>> {
        let _ = end(&mut self.child);
        self.close_pipes()
    }

    fn close(self) -> Closed<ChildLink<P>> {
        self.close_pipes()
    }
}

// Why a process wasn't started.
#[derive(Debug, Drop, Error)]
enum Failure {
    #[error("not text")]
    NoText,
    #[error("no memory")]
    NoMemory,
    #[error("{0}")]
    System(io::Error),
}

impl Failure {
    // What its starter answers.
    fn refusal(&self) -> StartRefused
        ensures { self.now ≡ NoText → result ≡ NotStarted }
    {
        match self {
            Failure::NoText => StartRefused::Failed,
            Failure::NoMemory => StartRefused::NoMemory,
            Failure::System(error) => match error.kind() {
                io::ErrorKind::OutOfMemory => StartRefused::NoMemory,
                _ => StartRefused::Failed,
            },
        }
    }
}

impl From<io::Error> for Failure {
    fn from(error: io::Error) -> Failure {
        Failure::System(error)
    }
}

impl From<AllocError> for Failure {
    fn from(_error: AllocError) -> Failure {
        Failure::NoMemory
    }
}

// A server's configured program, and the word by which the monitor was started.
#[derive(Drop)]
struct Programs {
    configured: Option<Octets>,
    monitor: Octets,
}

impl Programs {
    // The program that serves: the configured one, and where there is none the monitor's.
    fn chosen(&self) -> Result<&str, Failure>
        ensures { MatchResult result (λ program. program.now ≡ unwrap_or self.now.configured self.now.monitor)
            (λ why. (why ≡ NoText) × (IsUtf8 (unwrap_or self.now.configured self.now.monitor) → ⊥)) }
    {
        text(self.named())
    }

    // Its octets.
    fn named(&self) -> &[u8]
        ensures { result.now ≡ unwrap_or self.now.configured self.now.monitor }
    {
        match &self.configured {
            Some(program) => program.slice(),
            None => self.monitor.slice(),
        }
    }
}

/// Starts a server as a process, with the words `server` and the server's name. A start that fails is said on standard
/// error, with the system's words.
#[derive(Drop)]
pub struct ChildStarter<R: Processes + Files + AllocGlobal + Eprint> {
    rt: R,
    server: Name,
    programs: Programs,
    faults: u64,
}

impl<R: Processes + Files + AllocGlobal + Eprint> ChildStarter<R> {
    // A word of the monitor that can't be started is no failure, since the system knows where its program is.
    fn launch(&self, server: &Name) -> Result<ChildLink<R::Started>, Failure>
        ensures { IfOk result (λ l. (l.from.faults ≡ 0) × (l.to.faults ≡ 0)) }
    {
        let started = match self.programs.chosen() {
            Ok(program) => self.run(program, server),
            Err(failure) => Err(failure),
        };
        match (&self.programs.configured, started) {
            (None, Err(failure)) if failure.refusal() == StartRefused::Failed => {
                self.run_found(server)
            }
            (_, started) => started,
        }
    }

    // By the path that the system gives of the monitor's program.
    fn run_found(&self, server: &Name) -> Result<ChildLink<R::Started>, Failure>
        requires { self.now.programs.configured ≡ None }
        ensures { IfOk result (λ l. (l.from.faults ≡ 0) × (l.to.faults ≡ 0)) }
    {
        let monitor = env::current_exe(&self.rt)?;
        self.run(monitor.as_str(), server)
    }

    fn run(&self, program: &str, server: &Name) -> Result<ChildLink<R::Started>, Failure>
        requires { IsChosen self.now.programs.configured program.now }
        ensures { IfOk result (λ l. (l.from.faults ≡ 0) × (l.to.faults ≡ 0)) }
    {
        let name = text(server.octets())?;
        let mut command = command(self.rt.alloc(), program, name)?;
        let started = spawn(&self.rt, &mut command, program, server);
        // The command has our copy of the end that the process reads.
        drop(command);
        Ok(started?)
    }

    // Counts a start that failed, and says it. One that memory ran out for is none.
    fn refuse(&mut self, server: &Name, failure: &Failure) -> StartRefused
        ensures counted { result ≡ NotStarted → Rose self.old.faults self.new.faults }
        ensures starved { result ≡ Starved → self.new.faults ≡ self.old.faults }
        ensures later { self.old.faults ≤ self.new.faults }
        ensures whose { self.new.server ≡ self.old.server }
    {
        let refused = failure.refusal();
        if refused == StartRefused::Failed {
            raise(&mut self.faults);
            let _ = self.tell(server, failure);
        }
        refused
    }

    // Says that a start failed: the server, the program, and why.
    fn tell(&self, server: &Name, failure: &Failure) -> io::Result<()> {
        let server = Escaped(server.octets());
        let program = Escaped(self.programs.named());
        let told = format!(in self.rt.alloc(); "{failure}")?;
        let why = Escaped(without_number(told.as_str()).as_bytes());
        eprintln!(self.rt; "server {server}: {program}: {why}")
    }
}

// What the system says of an error; the library puts the error's number behind it.
fn without_number(told: &str) -> &str {
    match told.split_once(" (os error ") {
        Some((words, _)) => words,
        None => told,
    }
}

fn text(octets: &[u8]) -> Result<&str, Failure>
    ensures { MatchResult result (λ text. text.now ≡ octets.now) (λ why. (why ≡ NoText) × (IsUtf8 octets.now → ⊥)) }
{
    match str::from_utf8(octets) {
        Ok(text) => Ok(text),
        Err(_) => Err(Failure::NoText),
    }
}

fn command(alloc: Global, program: &str, name: &str) -> Result<Command, AllocError>
    ensures { IfOk result (StartsServer program.now name.now) }
{
    let mut command = Command::new(alloc, program)?;
    add_words(&mut command, name)?;
    Ok(command)
}

fn add_words(command: &mut Command, name: &str) -> Result<(), AllocError>
    ensures words { OnOk result (command_args command.new ≡ command_args command.old ++ codes "server" ∷ name.now ∷ []) }
    ensures program { OnOk result (command_program command.new ≡ command_program command.old) }
    ensures environment { OnOk result (SameEnv command.old command.new) }
    ensures folder { OnOk result (SameDir command.old command.new) }
{
    command.arg("server")?.arg(name)?;
    Ok(())
}

// Gives the command its input from that pipe and its output to a new one. Its standard error stays the monitor's.
fn connect(command: &mut Command, input: PipeReader, program: &str, server: &Name)
    requires { StartsServer program.now server.now command.old }
    ensures { StartsServer program.now server.now command.new }
{
    command.stdin(Stdio::from(input)).stdout(Stdio::piped());
}

// Starts the process. What is required is what is known of the command as the system gets it.
fn spawn_connected<R: Processes>(
    rt: &R,
    command: &mut Command,
    program: &str,
    server: &Name,
) -> io::Result<Child<R::Started>>
    requires { StartsServer program.now server.now command.old }
{
    command.spawn(rt)
}

// The link to a process that was just started, by its output and the input that it was given.
fn link_to<P: OpenProcess + Drop>(mut child: Child<P>, to: PipeWriter) -> io::Result<ChildLink<P>>
    ensures { IfOk result (λ l. (l.from.faults ≡ 0) × (l.to.faults ≡ 0)) }
{
    let Some(from) = child.stdout.take() else {
        drop(to);
        let _ = child.kill();
        let _ = child.wait();
        return Err(io::Error::from(io::ErrorKind::BrokenPipe));
    };
    Ok(ChildLink {
        child,
        from: ReadSource::new(from),
        to: WriteSink::new(to),
        whose: None,
    })
}

// The child's input is a pipe of our own, since a write to it takes one call of the system.
fn spawn<R: Processes + Files>(
    rt: &R,
    command: &mut Command,
    program: &str,
    server: &Name,
) -> io::Result<ChildLink<R::Started>>
    requires { StartsServer program.now server.now command.old }
    ensures { IfOk result (λ l. (l.from.faults ≡ 0) × (l.to.faults ≡ 0)) }
{
    let (theirs, to) = io::pipe(rt)?;
    connect(command, theirs, program, server);
    let child = spawn_connected(rt, command, program, server)?;
    link_to(child, to)
}

impl<R: Processes + Files + AllocGlobal + Eprint> Starter<ChildLink<R::Started>>
    for ChildStarter<R> {
    ghost shows = { λ s. record { name = s.server; asked = None; faults = s.faults } };

    fn server(&self) -> Name {
        self.server
    }

    fn start(
        &mut self,
        server: &Name,
        generation: Generation,
    ) -> Result<ChildLink<R::Started>, StartRefused> {
        match self.launch(server) {
            Ok(mut link) => {
                link.whose = Some((*server, generation));
                Ok(link)
            }
            Err(failure) => Err(self.refuse(server, &failure)),
        }
    }
}

/// Starts each server as a process: its configured program, or where it has none the monitor's own. It is seen as the
/// word by which the monitor was started.
#[derive(Drop)]
pub struct ChildYard<R: Processes + Files + AllocGlobal + Eprint> {
    rt: R,
    monitor: Octets,
}

impl<R: Processes + Files + AllocGlobal + Eprint> Model for ChildYard<R> {
    ghost use Rattle.std.specs.Prelude.{ℕ, List};

    ghost Value = { List ℕ };

    ghost view = { λ y. y.monitor };
}

impl<R: Processes + Files + AllocGlobal + Eprint> ChildYard<R> {
    /// `monitor` is the word by which the monitor was itself started. Where that can't be started, as where it isn't
    /// text, the system is asked for the path of the monitor's program.
    pub fn new(rt: R, monitor: Octets) -> ChildYard<R>
        ensures { result ≡ monitor }
    {
        ChildYard { rt, monitor }
    }
}

impl<R: Processes + Files + AllocGlobal + Eprint + Clone + Drop> ChildYard<R> {
    fn starter(&self, server: &ServerSetup) -> Result<ChildStarter<R>, NoMemory>
        ensures name { IfOk result (λ s. s.server ≡ server.now.name) }
        ensures program { IfOk result (λ s. s.programs.configured ≡ server.now.program) }
        ensures monitor { IfOk result (λ s. s.programs.monitor ≡ self.now) }
        ensures count { IfOk result (λ s. s.faults ≡ 0) }
    {
        let Ok(rt) = self.rt.clone() else {
            return Err(NoMemory);
        };
        let Ok(programs) = copy_programs(self.rt.alloc(), &server.program, &self.monitor) else {
            return Err(NoMemory);
        };
        Ok(ChildStarter {
            rt,
            server: server.name,
            programs,
            faults: 0,
        })
    }
}

fn copy_programs(
    alloc: Global,
    configured: &Option<Octets>,
    monitor: &Octets,
) -> Result<Programs, NoMemory>
    ensures configured { IfOk result (λ programs. programs.configured ≡ configured.now) }
    ensures monitor { IfOk result (λ programs. programs.monitor ≡ monitor.now) }
{
    let configured = copy_program(alloc, configured)?;
    let monitor = monitor.copy(alloc)?;
    Ok(Programs {
        configured,
        monitor,
    })
}

fn copy_program(alloc: Global, program: &Option<Octets>) -> Result<Option<Octets>, NoMemory>
    ensures { IfOk result (λ copied. copied ≡ program.now) }
{
    match program {
        Some(program) => Ok(Some(program.copy(alloc)?)),
        None => Ok(None),
    }
}

impl<R: Processes + Files + AllocGlobal + Eprint + Clone + Drop + Send> Yard for ChildYard<R>
where
    R::Started: Send,
    <R::Started as OpenProcess>::Stdin: Send,
    <R::Started as OpenProcess>::Stdout: Send,
    <R::Started as OpenProcess>::Stderr: Send,
{
    type Line = ChildLink<R::Started>;

    type Start = ChildStarter<R>;

    ghost asked = { λ _. None };

    fn starters(&mut self, setup: &Setup) -> Result<Vec<ChildStarter<R>>, NoMemory> {
        let servers = setup.servers.slice();
        let Ok(mut all) = Vec::with_capacity(self.rt.alloc(), servers.len()) else {
            return Err(NoMemory);
        };
        for server in servers {
            let Ok(starter) = self.starter(server) else {
                return Err(NoMemory);
            };
            all.push_reserved(starter);
        }
        Ok(all)
    }
}
