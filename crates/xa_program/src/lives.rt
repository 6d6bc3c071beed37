// The lives of servers that ended by a failure.
ghost use Rattle.std.specs.Prelude.{◌≡◌, ◌↔◌, ◌⊎◌, false};
ghost use Rattle.xa_domain.specs.xa_events.declared.event.StopCause.TheVariants.{Shutdown, Exit};

use std::{fmt, io};
use xa_domain::EndedLife;
use xa_events::{Event, StopCause, Stopped};
use xa_link::{Escaped, Link, ProcessEnd};
use xa_types::{Name, ServerId};

// A cause as it stands in a line, with its own values.
#[derive(Clone, Copy)]
struct Told(StopCause);

impl fmt::Display for Told {
    fn fmt<W: fmt::Write>(&self, f: &mut fmt::Formatter<W>) -> fmt::Result {
        match self.0 {
            StopCause::Shutdown => f.write_str("Shutdown"),
            StopCause::Exit => f.write_str("Exit"),
            StopCause::EndOfInput => f.write_str("EndOfInput"),
            StopCause::ReadFault => f.write_str("ReadFault"),
            StopCause::WriteFault => f.write_str("WriteFault"),
            StopCause::BadBytes(place) => write!(f, "BadBytes at {place}"),
            StopCause::OutOfTurn(kind, tag) => write!(f, "OutOfTurn kind {kind} tag {tag}"),
            StopCause::Starved => f.write_str("Starved"),
        }
    }
}

// How a process ended, as it stands behind the cause.
#[derive(Clone, Copy)]
struct Behind(Option<ProcessEnd>);

impl fmt::Display for Behind {
    fn fmt<W: fmt::Write>(&self, f: &mut fmt::Formatter<W>) -> fmt::Result {
        match self.0 {
            Some(ProcessEnd::Status(status)) => write!(f, ", status {status}"),
            Some(ProcessEnd::Signal(signal)) => write!(f, ", signal {signal}"),
            None => Ok(()),
        }
    }
}

// A life that was shut down, or that returned TPEXIT, ended as it should.
fn is_failure(cause: StopCause) -> bool
    ensures { (result ≡ false) ↔ ((cause ≡ Shutdown) ⊎ (cause ≡ Exit)) }
{
    !matches!(cause, StopCause::Shutdown | StopCause::Exit)
}

fn name_of(names: &[Name], server: ServerId) -> Option<&Name> {
    let place = usize::from(server.0).checked_sub(1)?;
    names.get(place)
}

// How the process of that life ended. The lives stand by server.
fn end_of<L: Link>(lives: &[Vec<EndedLife<L>>], stopped: &Stopped) -> Option<ProcessEnd> {
    let place = usize::from(stopped.server.0).checked_sub(1)?;
    for life in lives.get(place)? {
        if life.generation() == stopped.generation {
            return life.end();
        }
    }
    None
}

fn report_life<R: Eprint>(
    rt: &R,
    name: &Name,
    stopped: &Stopped,
    end: Option<ProcessEnd>,
) -> io::Result<()> {
    let name = Escaped(name.octets());
    let life = stopped.generation.0;
    let cause = Told(stopped.cause);
    let end = Behind(end);
    eprintln!(rt; "server {name}: life {life}: ended by {cause}{end}")
}

/// Says on standard error of each life that ended by a failure, in the order of the history, whose it was, which of its
/// server's lives, why it ended, and how its process did, where that is known. The names and the lives are those of the
/// servers, in the order of the setup.
pub fn report_lives<R: Eprint, L: Link>(
    rt: &R,
    names: &[Name],
    history: &[Event],
    lives: &[Vec<EndedLife<L>>],
) -> io::Result<()> {
    for event in history {
        if let Event::Stop(stopped) = event {
            if is_failure(stopped.cause) {
                if let Some(name) = name_of(names, stopped.server) {
                    report_life(rt, name, stopped, end_of(lives, stopped))?;
                }
            }
        }
    }
    Ok(())
}
