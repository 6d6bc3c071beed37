// Why a worker ends before its work is done.
ghost use Rattle.std.specs.Prelude.{◌≡◌};
ghost use Rattle.xa_server.specs.xa_worker.declared.work.Halt.TheVariants.{Worn as AtEnd};
ghost use Rattle.xa_desk.specs.declared.stopped.Stopped.TheVariants as stops;

use xa_server::types::Worn;
use xa_server::work::Halt;

/// Why a worker ends before its work is done: it came to a halt itself, or saw that another did.
#[derive(Clone, Copy, Debug, PartialEq, Eq)]
pub enum Stopped {
    Here(Halt),
    Elsewhere,
}

impl From<Halt> for Stopped {
    ghost from_gives = { λ halt e. e ≡ stops.Here halt };

    fn from(halt: Halt) -> Self {
        Stopped::Here(halt)
    }
}

impl From<Worn> for Stopped {
    ghost from_gives = { λ worn e. e ≡ stops.Here (AtEnd worn.0) };

    fn from(worn: Worn) -> Self {
        Stopped::Here(Halt::Worn(worn.0))
    }
}
