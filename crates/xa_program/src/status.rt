// How a command ends.
ghost use Rattle.std.specs.Prelude.{◌≡◌};
ghost use Rattle.std.specs.Process.{exit_status};
ghost use Rattle.xa_program.specs.declared.status.Status.TheVariants as statuses;
ghost use Rattle.xa_program.specs.Status.{number_of};

use std::process::ExitCode;
use xa_types::{NoMemory, Octets, Stamp};

/// Which input was too long.
#[derive(Clone, Copy, Debug, PartialEq, Eq)]
pub enum Input {
    Configuration,
    Script,
    Record,
}

/// How a command ended.
#[derive(Debug, Drop)]
pub enum Status {
    /// The script was served and all is written, the events of a record are a run, or the work of a server has ended.
    Done,
    /// The words of the command line aren't those of a command.
    Usage,
    /// The configuration, or the file of a record, can't be read.
    ConfigRead,
    /// The configuration has a fault: the number of its first one, and the key of that.
    ConfigFault { number: u8, key: Octets },
    /// The input failed.
    ScriptRead,
    /// The configuration, the input or the file of a record has more octets than it may have.
    TooLong(Input),
    /// The script breaks the form: its first line at fault, counted from 1, and the cause.
    BadLine { line: u32, cause: u8 },
    /// The output failed.
    WriteFault,
    /// The input of a server's program is no frame, or no frame that it admits, at this place.
    BadFrame(u64),
    /// Memory ran out.
    NoMemory,
    /// Stamps came to their end: an event has this one.
    Worn(Stamp),
    /// The file is no record: the least line, from 1, with which it doesn't begin as one does. The configuration counts
    /// as one line.
    BadRecord(u64),
    /// The events of a record are no run, or none that is over.
    NotARun,
}

impl Status {
    /// The number that stands for it.
    pub fn number(&self) -> u8
        ensures { result ≡ number_of self.now }
    {
        match self {
            Status::Done => 0,
            Status::Usage => 1,
            Status::ConfigFault { .. } => 2,
            Status::BadLine { .. } => 3,
            Status::ConfigRead => 4,
            Status::ScriptRead => 4,
            Status::WriteFault => 5,
            Status::NoMemory => 6,
            Status::TooLong(_) => 7,
            Status::Worn(_) => 9,
            Status::BadFrame(_) => 10,
            Status::BadRecord(_) => 11,
            Status::NotARun => 12,
        }
    }

    /// What the program hands to the system as it ends.
    pub fn exit_code(&self) -> ExitCode
        ensures { exit_status result ≡ number_of self.now }
    {
        ExitCode::from(self.number())
    }
}

impl From<NoMemory> for Status {
    ghost from_gives = { λ _ e. e ≡ statuses.NoMemory };

    fn from(_: NoMemory) -> Self {
        Status::NoMemory
    }
}
