// Whether the board may be changed, and whether a queue may go down.
ghost use Rattle.std.specs.Prelude.{◌≡◌, ◌⊎◌, ◌+◌, ◌<◌, length, map, slice_get, Some, IsSome, IfSome};
ghost use Rattle.std.specs.Bool.{Decides};
ghost use Rattle.xa_types.specs.Rows.{Put, configured, row_of};
ghost use Rattle.xa_events.specs.declared.event.Event.TheVariants.{Advertise, Withdraw, Down};
ghost use Rattle.xa_events.specs.Board.{published};
ghost use Rattle.xa_events.specs.Server.{AllGone};
ghost use Rattle.xa_events.specs.Cases.{Case, BootHome, PutHome, AdvertiseHome, WithdrawHome, ChangeWorker, ByServer, DownHome, NoRows};
ghost use Rattle.xa_machine.specs.Shown.{change_of};

use crate::ending::same_name;
use crate::machine::Machine;
use crate::setups::capacity_of;
use crate::standing::{none_on, row_of};
use crate::tables::BoardChange;
use xa_events::{Advertised, Withdrawn};
use xa_route::queue_of;
use xa_types::{CallerId, QueueId, Row, ServerId};

// Whether the change is that which the event makes.
fn is_put(change: &BoardChange, a: &Advertised) -> bool
    ensures { Decides result (change_of change.now ≡ Put a.now.service a.now.queue.0 a.now.routine) }
{
    match change {
        BoardChange::Put(service, queue, routine) => {
            same_name(service, &a.service) && queue.0 == a.queue.0 && same_name(routine, &a.routine)
        }
        BoardChange::Remove(..) => false,
    }
}

// Whether the change at that place is that which the event makes.
fn is_put_at(changes: &[BoardChange], place: u64, a: &Advertised) -> bool
    ensures { Decides result (slice_get (map change_of changes.now) place ≡ Some (Put a.now.service a.now.queue.0 a.now.routine)) }
{
    match changes.get(place as usize) {
        Some(change) => is_put(change, a),
        None => false,
    }
}

// Whether these rows let a server advertise so.
fn may_put(rows: &[Row], a: &Advertised) -> bool
    ensures { Decides result (IfSome (row_of a.now.service a.now.queue.0 rows.now) (λ row. row.routine ≡ a.now.routine)
        × ((length rows.now < 256) ⊎ IsSome (row_of a.now.service a.now.queue.0 rows.now))) }
{
    match row_of(rows, &a.service, a.queue) {
        Some(row) => same_name(&row.routine, &a.routine),
        None => rows.len() < 256,
    }
}

fn is_there(rows: &[Row], w: &Withdrawn) -> bool
    ensures { Decides result (IsSome (row_of w.now.service w.now.queue.0 rows.now)) }
{
    row_of(rows, &w.service, w.queue).is_some()
}

impl Machine {
    fn is_next_version(&self, version: u64) -> bool
        ensures { Decides result (version ≡ published self.now.past + 1) }
    {
        0 < version && version - 1 == self.published()
    }

    fn boots_next(&self, a: &Advertised) -> bool
        ensures { Decides result (slice_get (configured self.now.setup) (published self.now.past) ≡ Some (Put a.now.service a.now.queue.0 a.now.routine)) }
    {
        is_put_at(&self.tables.booting, self.published(), a)
    }

    fn is_of_boot(&self, a: &Advertised) -> bool
        ensures { Decides result (BootHome self.now.setup a.now self.now.past) }
    {
        a.by.0 == 0 && self.boots_next(a) && self.is_next_version(a.version)
    }

    fn is_of_server(&self, a: &Advertised) -> bool
        ensures { Decides result (PutHome self.now.setup a.now self.now.past) }
    {
        0 < a.by.0 && may_put(self.standing(), a) && self.is_next_version(a.version)
    }

    fn admits_advertise_home(&self, a: &Advertised) -> bool
        ensures { Decides result (AdvertiseHome self.now.setup a.now self.now.past) }
    {
        self.is_of_boot(a) || self.is_of_server(a)
    }

    fn is_by_server(&self, by: CallerId, op: u32, queue: QueueId) -> bool
        ensures { Decides result (ByServer self.now.setup self.now.clients by op queue.0 self.now.past) }
    {
        self.clients < by.0
            && self.admits_call(by, op)
            && self.in_hand(by).is_some()
            && queue_of(&self.setup, ServerId(by.0 - self.clients)).0 == queue.0
    }

    fn admits_change(&self, by: CallerId, op: u32, queue: QueueId) -> bool
        ensures { Decides result (ChangeWorker self.now.setup self.now.clients by op queue.0 self.now.past) }
    {
        by.0 == 0 && op == 0 || self.is_by_server(by, op, queue)
    }

    pub(crate) fn admits_advertise(&self, a: &Advertised) -> bool
        ensures { Decides result (Case self.now (Advertise a.now)) }
    {
        self.admits_advertise_home(a) && self.admits_change(a.by, a.op, a.queue)
    }

    fn admits_withdraw_home(&self, w: &Withdrawn) -> bool
        ensures { Decides result (WithdrawHome self.now.setup w.now self.now.past) }
    {
        is_there(self.standing(), w) && self.is_next_version(w.version)
    }

    fn admits_withdraw_before(&self, w: &Withdrawn) -> bool
        ensures { Decides result (w.now.by.0 ≡ 0 → AllGone self.now.setup w.now.queue.0 self.now.past) }
    {
        w.by.0 != 0 || self.all_gone(w.queue.0)
    }

    pub(crate) fn admits_withdraw(&self, w: &Withdrawn) -> bool
        ensures { Decides result (Case self.now (Withdraw w.now)) }
    {
        self.admits_withdraw_home(w)
            && self.admits_change(w.by, w.op, w.queue)
            && self.admits_withdraw_before(w)
            && self.is_booted()
    }

    fn admits_down_home(&self, queue: QueueId) -> bool
        ensures { Decides result (DownHome self.now.setup queue.0 self.now.past) }
    {
        0 < capacity_of(&self.setup, queue.0) && !self.queue(queue.0).down && self.all_gone(queue.0)
    }

    fn has_no_rows(&self, queue: QueueId) -> bool
        ensures { Decides result (NoRows self.now.setup queue.0 self.now.past) }
    {
        none_on(self.standing(), queue)
    }

    pub(crate) fn admits_down(&self, queue: QueueId) -> bool
        ensures { Decides result (Case self.now (Down queue)) }
    {
        self.admits_down_home(queue) && self.has_no_rows(queue) && self.is_booted()
    }
}
