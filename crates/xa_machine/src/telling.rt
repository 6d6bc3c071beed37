// Whether a refusal is right by the rows of the board.
ghost use Rattle.std.specs.Prelude.{◌≡◌, ◌+◌, length};
ghost use Rattle.std.specs.Bool.{Decides};
ghost use Rattle.std.specs.List.{list_any};
ghost use Rattle.std.specs.Option.{option_copied};
ghost use Rattle.xa_types.specs.Rows.{row_of};
ghost use Rattle.xa_events.specs.declared.event.Evidence.TheVariants.{Routine};
ghost use Rattle.xa_events.specs.Board.{published};
ghost use Rattle.xa_events.specs.Cases.{Shows, ShowsAt, IsToldEvidence, queue_by};
ghost use Rattle.xa_machine.specs.Parts.{is_routine};

use crate::machine::Machine;
use crate::standing::{Version, row_of};
use xa_events::Evidence;
use xa_route::{is_same, queue_of};
use xa_types::{CallerId, Name, QueueId, Row, ServerId};

// Whether there is a row, with that routine.
fn is_routine(row: Option<&Row>, routine: &Name) -> bool
    ensures { result ≡ is_routine routine.now (option_copied row.entry) }
{
    match row {
        Some(row) => is_same(&row.routine, routine),
        None => false,
    }
}

// Of the services of these rows one has a row of the queue with that routine.
fn has_routine(rows: &[Row], queue: QueueId, routine: &Name) -> bool
    ensures { result ≡ list_any (λ row. is_routine routine.now (row_of row.service queue.0 rows.now)) rows.now }
{
    rows.iter().any(|row| is_routine(row_of(rows, &row.service, queue), routine))
}

fn finds_routine(rows: &[Row], queue: QueueId, routine: &Name) -> bool
    ensures { Decides result (Shows queue.0 (Routine routine.now) rows.now) }
{
    has_routine(rows, queue, routine)
}

// Whether these rows show it to the caller of a server of that queue. That a service has no row shows itself at any
// rows.
fn shows(rows: &[Row], queue: QueueId, evidence: &Evidence) -> bool
    ensures { Decides result (Shows queue.0 evidence.now rows.now) }
{
    match evidence {
        Evidence::Rows(n) => *n == 256 && rows.len() == 256,
        Evidence::Routine(routine) => finds_routine(rows, queue, routine),
        Evidence::NoRow => true,
        _ => false,
    }
}

fn count_versions(versions: &[Version]) -> usize
    ensures { result ≡ length versions.now }
{
    versions.len()
}

impl Machine {
    fn many_versions(&self) -> usize
        ensures { result ≡ published self.now.past + 1 }
    {
        count_versions(&self.tables.versions)
    }

    fn queue_by(&self, caller: CallerId) -> QueueId
        ensures { result.0 ≡ queue_by self.now.setup self.now.clients caller.0 }
    {
        queue_of(&self.setup, ServerId(caller.0.saturating_sub(self.clients)))
    }

    // Whether a version shows it that the caller may still read.
    fn board_shows(&self, by: CallerId, evidence: &Evidence) -> bool
        ensures { Decides result (ShowsAt self.now.setup self.now.clients by (Shows (queue_by self.now.setup self.now.clients by.0) evidence.now) self.now.past) }
    {
        let floor = self.caller(u32::from(by.0)).version;
        let queue = self.queue_by(by);
        for version in 0..self.many_versions() {
            let version = version as u64;
            if floor <= version && shows(self.rows_at(version), queue, evidence) {
                return true;
            }
        }
        false
    }

    /// Whether the board, or the other end of a conversation, shows what a refusal says of it.
    pub(crate) fn is_told(&self, by: CallerId, evidence: Evidence) -> bool
        ensures { Decides result (IsToldEvidence self.now.setup self.now.clients by evidence self.now.past) }
    {
        match evidence {
            Evidence::Rows(_) | Evidence::Routine(_) | Evidence::NoRow => {
                self.board_shows(by, &evidence)
            }
            Evidence::Conversation(descriptor) => self.names_conversation(by, descriptor),
            Evidence::Ended(descriptor, event, _) => self.names_ended(by, descriptor, event),
            _ => true,
        }
    }
}
