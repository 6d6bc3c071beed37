// The caller of a request that ended is told.
ghost use Rattle.std.specs.Prelude.{Some, IfSome};
ghost use Rattle.xa_desk.specs.Desks.{IsDomain, IsDesk};
ghost use Rattle.xa_desk.specs.Serving.{IsToTell};
ghost use Rattle.xa_server_worker.specs.Steps.{Tells};

use xa_desk::link::{Gate, Point};
use xa_desk::server::Closing;
use xa_desk::{Desk, Monitor};

/// Tells the caller of the request that ended what befell it, and wakes it.
pub(crate) fn tell<W, G: Gate>(monitor: &Monitor<'_, W, G>, desk: &mut Desk, closing: Closing)
    requires domain { IsDomain monitor.now.domain.now }
    requires desk { IsDesk monitor.now.domain.now desk.old }
    requires told { IsToTell monitor.now.domain.now desk.old closing }
    ensures { Tells monitor.now.domain.now (Some closing) desk.old desk.new }
{
    let ended = closing.request();
    let _given = desk.give(monitor.domain, closing);
    if let Some(request) = ended {
        monitor.domain.wake_caller(request.caller);
        monitor.gate.passed(Point::AfterFill(request));
    }
}

/// Tells it, if somebody is to be told.
pub(crate) fn tell_if<W, G: Gate>(
    monitor: &Monitor<'_, W, G>,
    desk: &mut Desk,
    closing: Option<Closing>,
)
    requires domain { IsDomain monitor.now.domain.now }
    requires desk { IsDesk monitor.now.domain.now desk.old }
    requires told { IfSome closing (IsToTell monitor.now.domain.now desk.old) }
    ensures { Tells monitor.now.domain.now closing desk.old desk.new }
{
    match closing {
        Some(closing) => tell(monitor, desk, closing),
        None => {}
    }
}
