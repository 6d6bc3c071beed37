// The domain advertises the configured services on a board that nobody else has seen.
ghost use Rattle.std.specs.Prelude.{◌≡◌, ◌+◌, ◌<◌, [], ◌∷◌, length, true, IfOk, OnOk};
ghost use Rattle.std.specs.List.{All};
ghost use Rattle.xa_client_worker.specs.xa_types.Configured.{is_configured, is_among, queue_names};
ghost use Rattle.xa_client_worker.specs.xa_types.Rows.{Put, changes_of, configured};
ghost use Rattle.xa_boot.specs.Opening.{Remain, Begin, Passed};

use xa_client_worker::board::Board;
use xa_client_worker::held::KeptBoard;
use xa_client_worker::route::{queue_named, row_for};
use xa_client_worker::types::{CallerId, Name, NoMemory, QueueId, ServiceSetup, Setup, Stamp};
use xa_client_worker::work::Own;

/// The board, and what the domain noted there.
#[derive(Drop)]
pub struct Opening {
    pub board: KeptBoard,
    pub own: Own,
}

impl Opening {
    /// Nothing is advertised yet.
    pub(crate) fn new(board: Board, setup: &Setup) -> Opening
        requires first { board.first.0 ≡ 0 }
        requires entries { board.entries ≡ [] }
        ensures { Remain setup.now (configured setup.now) result }
    {
        Opening {
            board: KeptBoard::of(board, setup),
            own: Own::new(),
        }
    }

    // Advertises a service on a queue. The domain has seen nothing but the board.
    fn advertise(
        &mut self,
        setup: &Setup,
        service: &ServiceSetup,
        queue: QueueId,
    ) -> Result<(), NoMemory>
        requires configured { is_configured setup.now ≡ true }
        requires placed { (0 < queue.0) × (queue.0 < length setup.now.queues + 1) }
        requires next { Begin setup.now (Put service.now.name queue.0 service.now.routine ∷ []) self.old }
        ensures { OnOk result (Passed setup.now (Put service.now.name queue.0 service.now.routine ∷ []) self.old self.new) }
    {
        let row = row_for(setup, queue, service.name, service.routine);
        let domain = CallerId(0);
        let Ok(done) = self.board.advertise(Stamp(0), domain, domain, 0, row) else {
            return Err(NoMemory);
        };
        self.own.add(done.noted.stamp, done.noted.event);
        Ok(())
    }

    // Advertises a service on each of its queues.
    fn advertise_service(&mut self, setup: &Setup, service: &ServiceSetup) -> Result<(), NoMemory>
        requires configured { is_configured setup.now ≡ true }
        requires known { All (λ name. is_among (queue_names setup.now) name ≡ true) service.now.queues }
        requires next { Begin setup.now (changes_of setup.now service.now) self.old }
        ensures { OnOk result (Passed setup.now (changes_of setup.now service.now) self.old self.new) }
    {
        let names = service.queues.slice();
        for name in names {
            self.advertise(setup, service, queue_named(setup, name))?;
        }
        Ok(())
    }

    /// Advertises each configured service on each of its queues.
    pub(crate) fn advertise_all(&mut self, setup: &Setup) -> Result<(), NoMemory>
        requires configured { is_configured setup.now ≡ true }
        requires none { Remain setup.now (configured setup.now) self.old }
        ensures { OnOk result (Remain setup.now [] self.new) }
    {
        let services = setup.services.slice();
        for service in services {
            self.advertise_service(setup, service)?;
        }
        Ok(())
    }
}
