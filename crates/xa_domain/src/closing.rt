// The domain itself closes its queues, once the clients have left.
ghost use Rattle.std.specs.Prelude.{◌≡◌, ◌+◌, ◌<◌, ◌≤◌, ◌^◌, List, length, None, OnOk, IfErr, MatchOption};
ghost use Rattle.std.specs.List.{Contains};
ghost use Rattle.xa_boot.specs.xa_client_worker.declared.working.ClientWorker.{ClientWorker as Worker};
ghost use Rattle.xa_boot.specs.xa_desk.Desks.{IsDomain};
ghost use Rattle.xa_history.specs.xa_script.declared.script.Client.{Client};
ghost use Rattle.xa_domain.specs.Working.{EachDone};
ghost use Rattle.xa_domain.specs.Closing.{IsCloser, HasStopped, IsBehindAll, ShowsFor, AreClosed, Closes, IsWornOut, HasClosed};

use std::mem;
use std::sync::Wait;
use xa_boot::Closer;
use xa_boot::clients::ClientWorker;
use xa_boot::desk::Domain;
use xa_boot::held::{AtQueue, close_at};
use xa_boot::stamp::Noted;
use xa_boot::types::{CallerId, Stamp, Worn};
use xa_boot::work::Halt;

// The greatest stamp of that one and of each client's last one; none where a client stopped before.
fn last_stamp(seen: Stamp, clients: &[ClientWorker]) -> Option<Stamp>
    requires bound { seen.0 ≤ 2 ^ 63 }
    ensures { MatchOption result ((worker : Worker) × Contains clients.now worker × HasStopped worker) (IsBehindAll seen clients.now) }
{
    let mut last = seen;
    for client in clients {
        match client {
            ClientWorker::Left(ended) if ended.stopped.is_none() => {
                let stamp = ended.done.left.work.stamp();
                last = Stamp(last.0.max(stamp.0));
            }
            _ => return None,
        }
    }
    Some(last)
}

// Closes the queue at that place.
fn close<W: Wait>(rt: &W, domain: &Domain, closer: &mut Closer, place: usize) -> Result<(), Worn>
    requires domain { IsDomain domain.now }
    requires closer { IsCloser domain.now closer.old }
    requires place { place < length domain.now.queues.items }
    ensures closes { Closes domain.now closer.old closer.new }
    ensures closed { OnOk result (AreClosed domain.now place closer.old → AreClosed domain.now (place + 1) closer.new) }
    ensures worn { IfErr result (IsWornOut closer.new) }
{
    let Some(pass) = mem::replace(&mut closer.queues[place], None) else {
        unreachable!()
    };
    let domain_itself = CallerId(0);
    let AtQueue { pass, last, answer } = close_at(
        rt,
        &domain.queues[place],
        pass,
        closer.seen,
        domain_itself,
    );
    closer.queues[place] = Some(pass);
    closer.seen = Stamp(closer.seen.0.max(last.0));
    if let Some(noted) = answer? {
        let Noted { stamp, event } = noted;
        closer.own.add(stamp, event);
    }
    Ok(())
}

// Closes each queue.
fn close_all<W: Wait>(rt: &W, domain: &Domain, closer: &mut Closer) -> Result<(), Worn>
    requires domain { IsDomain domain.now }
    requires closer { IsCloser domain.now closer.old }
    ensures closes { Closes domain.now closer.old closer.new }
    ensures closed { OnOk result (AreClosed domain.now (length domain.now.queues.items) closer.new) }
    ensures worn { IfErr result (IsWornOut closer.new) }
{
    for place in 0..domain.queues.len() {
        close(rt, domain, closer, place)?;
    }
    Ok(())
}

/// Closes each queue behind the last stamp of each client. Where a client stopped before its work was done, none is closed.
pub(crate) fn close_behind<W: Wait>(
    rt: &W,
    domain: &Domain,
    clients: &[ClientWorker],
    closer: &mut Closer,
)
    requires domain { IsDomain domain.now }
    requires closer { IsCloser domain.now closer.old }
    requires open { closer.old.halt ≡ None }
    requires count { length clients.now ≡ domain.now.clients }
    requires done { (scripts : List Client) × EachDone domain.now 1 scripts clients.now }
    requires shows { ShowsFor domain.now clients.now closer.old }
    ensures { HasClosed domain.now clients.now closer.new }
{
    let Some(last) = last_stamp(closer.seen, clients) else {
        closer.halt = Some(Halt::NoMemory);
        return;
    };
    closer.seen = last;
    if let Err(worn) = close_all(rt, domain, closer) {
        closer.halt = Some(Halt::Worn(worn.0));
    }
}
