//! Setups, as the tables of the trials tell them.
ghost use Rattle.std.specs.Prelude.{◌≡◌, [], IfSome, true};
ghost use Rattle.xa_types.specs.Configured.{is_configured};

use std::alloc::Global;
use xa_types::Setup;

/// The setup of a configuration, where it is read.
pub fn setup_of(alloc: Global, configuration: &[u8]) -> Option<Setup>
    ensures configured { IfSome result (λ setup. is_configured setup ≡ true) }
{
    xa_config::read(alloc, configuration).ok()
}
