//! What holds of every clock. Each law is the clause of a function without arguments.
ghost use Rattle.std.specs.Prelude.{◌≡◌, ℕ, ◌+◌, ◌-◌, ◌<◌, ◌≤◌, ◌++◌, true, List, Result, Ok};
ghost use Rattle.xa_types.specs.declared.setup.Setup.{Setup};
ghost use Rattle.xa_events.specs.declared.event.Event.{Event};
ghost use Rattle.xa_events.specs.Clock.{is_shown, now as shown_at};
ghost use Rattle.xa_events.specs.Words.{AtEach};
ghost use Rattle.xa_events.specs.Cases.{HomePart, WereShown};
ghost use Rattle.xa_types.specs.declared.ids.CallerId.{CallerId};
ghost use Rattle.xa_types.specs.declared.stamp.Stamp.{Stamp};
ghost use Rattle.xa_lock.specs.declared.makers.Made.{Made};
ghost use Rattle.xa_lock.specs.declared.pass.Page.{Page};
ghost use Rattle.xa_lock.specs.Pages.{StartsWith};
ghost use Rattle.xa_lock.specs.Makers.{noted_in};
ghost use Rattle.xa_worker.specs.Seen.{past_in, SawFront, StandsBehind};
ghost use Rattle.xa_ticks.specs.declared.clock.Moment.{Moment};
ghost use Rattle.xa_ticks.specs.declared.clock.TickRefused.{TickRefused};
ghost use Rattle.xa_ticks.specs.Clock.{tick_by};
ghost use Rattle.xa_ticks.specs.Visits.{ReachesClock, ReadAs, TickedAs, HasShown};

/// What a clock shows now it has shown, and it doesn't fall: no earlier events show more.
pub fn shows_what_was_shown()
    ensures shown { (past : List Event) → is_shown (shown_at past) past ≡ true }
    ensures onward { (setup : Setup) (more past : List Event) → AtEach (HomePart setup) (more ++ past) → shown_at past ≤ shown_at (more ++ past) }
{}

/// What a look at the clock found, and the tick to which a client moved it, its pass saw shown, and it saw no greater one. A tick
/// that a pass saw shown it has seen ever after, and so it stands at the clock for any greater stamp. A tick that moved the clock
/// stands there behind events that show so much less.
pub fn a_shown_tick_stands()
    ensures read { (p p' : Page Made) (tick : ℕ) → ReadAs p p' tick → HasShown tick p' }
    ensures ticked { (p p' : Page Made) (seen : Stamp) (by : CallerId) (op n : ℕ) (moment : Moment) → TickedAs p p' seen by op n (Ok moment) → HasShown moment.now p' }
    ensures grows { (p p' : Page Made) (tick : ℕ) → ReadAs p p' tick → StartsWith p'.seen p.seen }
    ensures onward { (p p' : Page Made) (seen : Stamp) (by : CallerId) (op n : ℕ) (answer : Result Moment TickRefused) → TickedAs p p' seen by op n answer → StartsWith p'.seen p.seen }
    ensures stays { (now seen : List Made) (tick : ℕ) → StartsWith now seen → is_shown tick (past_in (noted_in seen)) ≡ true → is_shown tick (past_in (noted_in now)) ≡ true }
    ensures least { (setup : Setup) (p p' : Page Made) (tick shown : ℕ) → ReadAs p p' tick → HasShown shown p → shown ≤ tick }
    ensures stands { (p : Page Made) (last stamp : Stamp) (now : List Made) (tick : ℕ) → ReachesClock p last → last.0 < stamp.0 → StartsWith now p.seen → HasShown tick p → SawFront (noted_in now) stamp (λ past. is_shown tick past ≡ true) }
    ensures due { (setup : Setup) (p : Page Made) (last stamp : Stamp) (now : List Made) (tick deadline : ℕ) → ReachesClock p last → last.0 < stamp.0 → StartsWith now p.seen → HasShown tick p → HasShown (deadline - setup.block_time) p → SawFront (noted_in now) stamp (WereShown setup tick deadline) }
    ensures behind { (p p' : Page Made) (seen : Stamp) (by : CallerId) (op n : ℕ) (moment : Moment) (now : List Made) → TickedAs p p' seen by op n (Ok moment) → StartsWith now p'.seen
        → StandsBehind (noted_in now) (record { stamp = moment.stamp; event = tick_by by op moment.now }) (λ past. moment.now ≡ shown_at past + n) }
{}
