// How servers are started.
ghost use Rattle.std.specs.Prelude.{◌≡◌, ◌≤◌, ◌<◌, ℕ, true, List, [], length, map, All, Option, IfSome, IfOk, OnOk, OnErr, IsErrOf};
ghost use Rattle.xa_types.specs.Configured.{is_configured};
ghost use Rattle.xa_types.specs.declared.setup.Setup.{Setup};
ghost use Rattle.xa_link.specs.Links.{IsFresh};
ghost use Rattle.xa_link.specs.Told.{Rose};
ghost use Rattle.xa_link.specs.Starts.{StarterShows, AsksFor, AsksStarters};

use crate::Link;
use thiserror::Error;
use xa_types::{Generation, Name, NoMemory, Setup};

/// Why a server was not started. `Failed` raised the starter's count.
#[derive(Clone, Copy, Debug, PartialEq, Eq, Error)]
pub enum StartRefused {
    #[error("Failed")]
    Failed,
    #[error("NoMemory")]
    NoMemory,
}

/// Starts the lives of one server.
pub trait Starter<L: Link> {
    /// What it shows. Its count stands still at 2^64 - 1, and a start that memory ran out for is none.
    ghost shows: { Self → StarterShows };

    /// The server's name.
    fn server(&self) -> Name
        ensures { result ≡ (shows self.now).name };

    /// Starts the server, which is its own, for the `generation`th time, and gives the pipes of that life. Nothing went
    /// through them, nothing failed, and its program runs.
    fn start(&mut self, server: &Name, generation: Generation) -> Result<L, StartRefused>
        requires own { server.now ≡ (shows self.old).name }
        ensures same { (shows self.new).name ≡ (shows self.old).name }
        ensures fresh { IfOk result (λ link. IsFresh server.now generation (L.Link.shows link)) }
        ensures started { OnOk result (AsksFor (shows self.old).asked (shows self.new).asked server.now generation) }
        ensures failed { IsErrOf result StartRefused.Failed → AsksFor (shows self.old).asked (shows self.new).asked server.now generation }
        ensures starved { IsErrOf result StartRefused.NoMemory → shows self.new ≡ shows self.old }

        ensures later { (shows self.old).faults ≤ (shows self.new).faults }
        ensures cause { IsErrOf result StartRefused.Failed → Rose ((shows self.old).faults) ((shows self.new).faults) }
        ensures quiet { (IsErrOf result StartRefused.Failed → ⊥) → (shows self.new).faults ≡ (shows self.old).faults };
}

/// Where the starters of a domain come from.
pub trait Yard {
    /// The pipes of a life.
    type Line: Link + Send;

    /// What starts the lives of one server.
    type Start: Starter<Self::Line> + Send;

    /// For which setups starters were asked of it, the oldest first, where it tells them. A call that memory ran out for
    /// is none.
    ghost asked: { Self → Option (List Setup) };

    /// The starter of each server of the setup, in its order. None of them was asked for a start.
    fn starters(&mut self, setup: &Setup) -> Result<Vec<Self::Start>, NoMemory>
        requires { is_configured setup.now ≡ true }
        ensures each { IfOk result (λ all. length all.items ≡ length setup.now.servers) }
        ensures names { IfOk result (λ all. map (λ s. (Self.Start.shows s).name) all.items ≡ map (λ server. server.name) setup.now.servers) }
        ensures counts { IfOk result (λ all. All (λ s. (Self.Start.shows s).faults ≡ 0) all.items) }
        ensures none { IfOk result (λ all. All (λ s. IfSome (Self.Start.shows s).asked (λ starts. starts ≡ [])) all.items) }
        ensures asked { OnOk result (AsksStarters (asked self.old) (asked self.new) setup.now) }
        ensures starved { OnErr result (asked self.new ≡ asked self.old) };
}
