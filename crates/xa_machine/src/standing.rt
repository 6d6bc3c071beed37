// The rows of the board, version by version.
ghost use Rattle.std.specs.Prelude.{◌≡◌, ◌<◌, ◌==◌, [], ◌∷◌, ℕ, List, length, vec_len, vec_capacity, None, OnOk, IfOk, true};
ghost use Rattle.std.specs.Bool.{Decides};
ghost use Rattle.std.specs.List.{list_any};
ghost use Rattle.std.specs.Option.{option_copied};
ghost use Rattle.xa_types.specs.Configured.{is_configured};
ghost use Rattle.xa_types.specs.declared.setup.Setup.{Setup as Configuration};
ghost use Rattle.xa_types.specs.Rows.{is_row_of, row_of, rows};
ghost use Rattle.xa_events.specs.declared.event.Event.{Event as Noted};
ghost use Rattle.xa_events.specs.Board.{change_in, changes, rows_of_version};
ghost use Rattle.xa_machine.specs.Shown.{change_of, result_change};
ghost use Rattle.xa_machine.specs.Versions.{without_row, rows_after, next_rows, version_rows, VersionsShow};

use crate::tables::BoardChange;
use std::alloc::Global;
use xa_events::Event;
use xa_route::{is_same, row_for};
use xa_types::{Name, NoMemory, QueueId, Row, Setup};

/// The rows of one version of the board.
#[derive(Drop)]
pub struct Version {
    pub rows: Vec<Row>,
}

fn is_row_of(row: &Row, service: &Name, queue: QueueId) -> bool
    ensures { result ≡ is_row_of service.now queue.0 row.now }
{
    is_same(&row.service, service) && row.queue.0 == queue.0
}

/// The row of a service on a queue.
pub fn row_of<'a>(rows: &'a [Row], service: &Name, queue: QueueId) -> Option<&'a Row>
    ensures { option_copied result ≡ row_of service.now queue.0 rows.now }
{
    for row in rows {
        if is_row_of(row, service, queue) {
            return Some(row);
        }
    }
    None
}

// Whether a row of the queue stands.
fn has_on(rows: &[Row], queue: QueueId) -> bool
    ensures { result ≡ list_any (λ row. row.queue.0 == queue.0) rows.now }
{
    rows.iter().any(|row| row.queue.0 == queue.0)
}

/// Whether no row of the queue stands.
pub fn none_on(rows: &[Row], queue: QueueId) -> bool
    ensures { Decides result ((service : List ℕ) → row_of service queue.0 rows.now ≡ None) }
{
    !has_on(rows, queue)
}

/// The change of the board that the event is.
pub fn change_in(event: &Event) -> Option<BoardChange>
    ensures { result_change result ≡ change_in event.now }
{
    match event {
        Event::Advertise(a) => Some(BoardChange::Put(a.service, a.queue, a.routine)),
        Event::Withdraw(w) => Some(BoardChange::Remove(w.service, w.queue)),
        _ => None,
    }
}

fn take_out(rows: &mut Vec<Row>, service: &Name, queue: QueueId)
    ensures { rows.new.items ≡ without_row service.now queue.0 rows.old.items }
{
    rows.retain(|row| !is_row_of(row, service, queue));
}

// Makes the change.
fn change_rows(rows: &mut Vec<Row>, setup: &Setup, change: BoardChange) -> Result<(), NoMemory>
    requires { is_configured setup.now ≡ true }
    ensures { OnOk result (rows.new.items ≡ rows_after setup.now (change_of change) rows.old.items) }
{
    match change {
        BoardChange::Put(service, queue, routine) => {
            take_out(rows, &service, queue);
            rows.push(row_for(setup, queue, service, routine))?;
        }
        BoardChange::Remove(service, queue) => take_out(rows, &service, queue),
    }
    Ok(())
}

/// The rows that stand once the event is noted, where it changes them.
pub fn next_version(
    alloc: Global,
    setup: &Setup,
    standing: &[Row],
    event: &Event,
) -> Result<Option<Version>, NoMemory>
    requires { is_configured setup.now ≡ true }
    ensures { IfOk result (λ version. version_rows version ≡ next_rows setup.now (change_in event.now) standing.now) }
{
    match change_in(event) {
        None => Ok(None),
        Some(change) => {
            let mut rows = Vec::from_slice(alloc, standing)?;
            change_rows(&mut rows, setup, change)?;
            Ok(Some(Version { rows }))
        }
    }
}

/// Notes the rows of the next version, where there is one.
pub fn note_version(versions: &mut Vec<Version>, version: Option<Version>)
    requires { vec_len versions.old < vec_capacity versions.old }
    ensures { (setup : Configuration) (e : Noted) (past : List Noted) → version_rows version ≡ next_rows setup (change_in e) (rows setup (changes past)) →
        VersionsShow setup past versions.old.items → VersionsShow setup (e ∷ past) versions.new.items }
{
    if let Some(version) = version {
        versions.push_reserved(version);
    }
}

/// The rows of that version, and of one that isn't made yet those that stand.
pub fn rows_at(versions: &[Version], version: u64) -> &[Row]
    requires { 0 < length versions.now }
    ensures { (setup : Configuration) (past : List Noted) → VersionsShow setup past versions.now → result.now ≡ rows_of_version setup past version }
{
    let place = (version as usize).min(versions.len() - 1);
    &versions[place].rows
}

/// The versions before any event.
pub fn first_version(alloc: Global) -> Result<Vec<Version>, NoMemory>
    ensures { IfOk result (λ versions. (setup : Configuration) → VersionsShow setup [] versions.items) }
{
    let mut versions = Vec::new(alloc);
    versions.push(Version {
        rows: Vec::new(alloc),
    })?;
    Ok(versions)
}
