// Why the program ends before its work is done.
use std::alloc::AllocError;
use std::io;
use xa_config::ConfigRefused;
use xa_frame::NextRefused;
use xa_script::ScriptRefused;
use xa_types::NoMemory;

#[derive(Debug, Drop)]
pub enum Refused {
    Usage,
    TooLong,
    NoFrame,
    Configuration(ConfigRefused),
    Script(ScriptRefused),
    NoMemory,
    Io(io::Error),
}

impl From<AllocError> for Refused {
    fn from(_: AllocError) -> Self {
        Refused::NoMemory
    }
}

impl From<NoMemory> for Refused {
    fn from(_: NoMemory) -> Self {
        Refused::NoMemory
    }
}

impl From<io::Error> for Refused {
    fn from(error: io::Error) -> Self {
        Refused::Io(error)
    }
}

impl From<NextRefused> for Refused {
    fn from(refused: NextRefused) -> Self {
        match refused {
            NextRefused::BadFrame(_) => Refused::NoFrame,
            NextRefused::NoMemory => Refused::NoMemory,
        }
    }
}

impl From<ConfigRefused> for Refused {
    fn from(refused: ConfigRefused) -> Self {
        Refused::Configuration(refused)
    }
}

impl From<ScriptRefused> for Refused {
    fn from(refused: ScriptRefused) -> Self {
        Refused::Script(refused)
    }
}
