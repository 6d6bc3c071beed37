// The rule by which a server's lives may be started is that of the machine.
ghost use Rattle.std.specs.Prelude.{◌≡◌, ℕ, ◌≤◌, Some, false};
ghost use Rattle.xa_types.specs.declared.setup.ServerSetup.{ServerSetup};
ghost use Rattle.xa_events.specs.Server.{may_start_as};
ghost use Rattle.xa_restart.specs.Rule.{RestartState, IsRuleOf, may_start_by};

/// A server that is configured so may be started by the machine exactly where these lives may be.
pub fn rule_is_the_machines()
    ensures { (server : ServerSetup) (lives : RestartState) (now : ℕ) → IsRuleOf server lives.restart lives.maxgen lives.grace → may_start_as (Some server) lives.starts now ≡ may_start_by lives now }
{}

/// Where no start may be made at a tick, none may be made earlier.
pub fn no_start_is_earlier()
    ensures { (lives : RestartState) (earlier now : ℕ) → earlier ≤ now → may_start_by lives now ≡ false → may_start_by lives earlier ≡ false }
{}
