// The tables, and what one event changes in them.
ghost use Rattle.std.specs.Prelude.{◌≡◌, ◌+◌, ◌-◌, ◌<◌, ◌∷◌, [], ℕ, List, length, map, reverse, slice_index_or, vec_len, vec_capacity, Some, OnOk, IfOk, true};
ghost use Rattle.xa_types.specs.Configured.{is_configured};
ghost use Rattle.xa_types.specs.declared.setup.Setup.{Setup as Configuration};
ghost use Rattle.xa_events.specs.declared.event.Event.{Event as Noted};
ghost use Rattle.xa_events.specs.Homes.{worker_of};
ghost use Rattle.xa_events.specs.Board.{change_in, changes, rows_of_version};
ghost use Rattle.xa_types.specs.Rows.{rows};
ghost use Rattle.xa_machine.specs.Versions.{next_rows, version_rows, VersionsShow};
ghost use Rattle.xa_events.specs.Views.{ServerView, QueueView, CallerView};
ghost use Rattle.xa_machine.specs.Tables.{RowsShow, HasRoom, QueueShows, ServerShows, CallerShows, no_server, no_queue, no_caller};
ghost use Rattle.xa_machine.specs.Whole.{FitsQueue, HasQueueRoom, Fits, IsReady, IsPlaceOf, TablesShow};
ghost use Rattle.xa_machine.specs.Shown.{queue_home, change_of, clock_after, ticks_after, CallersShow, QueuesShow, ServersShow, CountsTakeAt, CountsAcceptAt};
ghost use Rattle.xa_machine.specs.declared.caller.CallerRow.{CallerRow as CallerOf};
ghost use Rattle.xa_machine.specs.declared.queued.QueueRow.{QueueRow as QueueOf};
ghost use Rattle.xa_machine.specs.declared.served.ServerRow.{ServerRow as ServerOf};

use crate::caller::CallerRow;
use crate::holding::{Held, note_held};
use crate::opening::{booting, new_callers, new_queues, new_servers};
use crate::queued::QueueRow;
use crate::served::ServerRow;
use crate::standing::{Version, change_in, first_version, note_version, rows_at};
use std::alloc::Global;
use xa_events::Event;
use xa_route::queue_of;
use xa_types::{Name, NoMemory, QueueId, Row, ServerId, Setup};

/// A change of the board.
#[derive(Clone, Copy)]
pub enum BoardChange {
    Put(Name, QueueId, Name),
    Remove(Name, QueueId),
}

fn caller_of(clients: u16, server: ServerId) -> u32
    ensures { result ≡ clients + server.0 }
{
    u32::from(clients) + u32::from(server.0)
}

/// Whose activity the event is, by the number of the caller.
pub fn worker_of(clients: u16, event: &Event) -> u32
    ensures { result ≡ worker_of clients event.now }
{
    match event {
        Event::Advertise(a) => u32::from(a.by.0),
        Event::Withdraw(w) => u32::from(w.by.0),
        Event::Accept(a) => u32::from(a.by.0),
        Event::Take(t) => caller_of(clients, t.server),
        Event::Forward(f) => caller_of(clients, f.server),
        Event::Sweep(_) => 0,
        Event::Gone(server) => caller_of(clients, *server),
        Event::Down(_) => 0,
        Event::Close(_) => 0,
        Event::Tick(t) => u32::from(t.by.0),
        Event::Start(s) => caller_of(clients, s.server),
        Event::StartFailed(s) => caller_of(clients, s.server),
        Event::End(e) => caller_of(clients, e.server),
        Event::Stop(x) => caller_of(clients, x.server),
        Event::Answer(a) => u32::from(a.by.0),
        Event::Cancel(c) => u32::from(c.by.0),
        Event::Lapse(l) => u32::from(l.by.0),
        Event::Refuse(r) => u32::from(r.by.0),
        Event::NotYet(n) => u32::from(n.by.0),
        Event::Leave(client) => u32::from(client.0),
        Event::Send(s) => u32::from(s.by.0),
        Event::Receive(r) => u32::from(r.by.0),
        Event::Break(b) => u32::from(b.by.0),
        Event::Priority(p) => u32::from(p.by.0),
    }
}

/// The queue at which the event stands, where it stands at one.
pub fn queue_home(setup: &Setup, event: &Event) -> Option<u16>
    requires { is_configured setup.now ≡ true }
    ensures { result ≡ queue_home setup.now event.now }
{
    match event {
        Event::Accept(a) => Some(a.queue.0),
        Event::Take(t) => Some(queue_of(setup, t.server).0),
        Event::Forward(f) => Some(f.queue.0),
        Event::Sweep(x) => Some(x.queue.0),
        Event::Gone(server) => Some(queue_of(setup, *server).0),
        Event::Down(queue) => Some(queue.0),
        Event::Close(queue) => Some(queue.0),
        _ => None,
    }
}

/// Makes room in that caller's row.
pub fn reserve_caller(rows: &mut Vec<CallerRow>, worker: u32) -> Result<(), NoMemory>
    requires { worker < length rows.old.items }
    ensures len { length rows.new.items ≡ length rows.old.items }
    ensures shows { (setup : Configuration) (clients : ℕ) (past : List Noted) → CallersShow setup clients past rows.old.items → CallersShow setup clients past rows.new.items }
    ensures room { OnOk result ((d : CallerOf) → HasRoom (slice_index_or rows.new.items worker d)) }
{
    rows[worker as usize].reserve()
}

/// Makes room in that server's row.
pub fn reserve_server(rows: &mut Vec<ServerRow>, server: u16) -> Result<(), NoMemory>
    requires { server < length rows.old.items }
    ensures len { length rows.new.items ≡ length rows.old.items }
    ensures shows { (past : List Noted) → ServersShow past rows.old.items → ServersShow past rows.new.items }
    ensures room { OnOk result ((d : ServerOf) → vec_len (slice_index_or rows.new.items server d).starts < vec_capacity (slice_index_or rows.new.items server d).starts) }
{
    rows[usize::from(server)].reserve()
}

/// Makes room in that queue's row.
pub fn reserve_queue(rows: &mut Vec<QueueRow>, queue: u16) -> Result<(), NoMemory>
    requires { queue < length rows.old.items }
    ensures len { length rows.new.items ≡ length rows.old.items }
    ensures shows { (setup : Configuration) (past : List Noted) → QueuesShow setup past rows.old.items → QueuesShow setup past rows.new.items }
    ensures room { OnOk result ((d : QueueOf) → vec_len (slice_index_or rows.new.items queue d).waiting < vec_capacity (slice_index_or rows.new.items queue d).waiting) }
{
    rows[usize::from(queue)].reserve()
}

/// Notes an event in the row of its worker.
pub fn note_caller(rows: &mut Vec<CallerRow>, clients: u16, worker: u32, event: &Event)
    requires within { worker < length rows.old.items }
    requires room { (d : CallerOf) → HasRoom (slice_index_or rows.old.items worker d) }
    ensures len { length rows.new.items ≡ length rows.old.items }
    ensures shows { (setup : Configuration) (past : List Noted) → worker_of clients event.now ≡ worker → CountsAcceptAt clients event.now past →
        CallersShow setup clients past rows.old.items → CallersShow setup clients (event.now ∷ past) rows.new.items }
{
    rows[worker as usize].note(clients, worker, event);
}

/// Notes an event in the row of the server whose it is, which has that number.
pub fn note_server(rows: &mut Vec<ServerRow>, server: u16, event: &Event)
    requires within { server < length rows.old.items }
    requires room { (d : ServerOf) → vec_len (slice_index_or rows.old.items server d).starts < vec_capacity (slice_index_or rows.old.items server d).starts }
    ensures len { length rows.new.items ≡ length rows.old.items }
    ensures shows { (clients : ℕ) (past : List Noted) → server ≡ worker_of clients event.now - clients →
        ServersShow past rows.old.items → ServersShow (event.now ∷ past) rows.new.items }
{
    rows[usize::from(server)].note(server, event);
}

/// Notes an event in the row of that queue.
pub fn note_queue(rows: &mut Vec<QueueRow>, queue: u16, event: &Event)
    requires within { queue < length rows.old.items }
    requires room { (d : QueueOf) → vec_len (slice_index_or rows.old.items queue d).waiting < vec_capacity (slice_index_or rows.old.items queue d).waiting }
    ensures len { length rows.new.items ≡ length rows.old.items }
    ensures shows { (setup : Configuration) (past : List Noted) → queue_home setup event.now ≡ Some queue → CountsTakeAt setup event.now past →
        QueuesShow setup past rows.old.items → QueuesShow setup (event.now ∷ past) rows.new.items }
{
    rows[usize::from(queue)].note(event);
}

/// Notes a change of the board.
pub fn note_board(board: &mut Vec<BoardChange>, event: &Event)
    requires { vec_len board.old < vec_capacity board.old }
    ensures { (past : List Noted) → map change_of board.old.items ≡ reverse (changes past) → map change_of board.new.items ≡ reverse (changes (event.now ∷ past)) }
{
    if let Some(change) = change_in(event) {
        board.push_reserved(change);
    }
}

/// What the clock shows after the event.
pub fn clock_after(now: u64, event: &Event) -> u64
    ensures { result ≡ clock_after now event.now }
{
    match event {
        Event::Tick(t) => t.now,
        _ => now,
    }
}

/// Notes a tick.
pub fn note_tick(ticks: &mut Vec<u64>, event: &Event)
    requires { vec_len ticks.old < vec_capacity ticks.old }
    ensures { ticks.new.items ≡ ticks_after event.now ticks.old.items }
{
    if let Event::Tick(t) = event {
        ticks.push_reserved(t.now);
    }
}

/// Where the rows of an event stand: that of its worker, that of its worker's server, and that of its queue.
#[derive(Clone, Copy)]
pub struct Place {
    pub worker: u32,
    pub server: u16,
    pub queue: Option<u16>,
}

/// The tables: a row for each server, queue and caller, which stands at its number, the changes of the board and the rows
/// behind each, the changes that the boot makes, what the clock shows, and what it has shown. A number without a row reads as a row of which nothing is.
#[derive(Drop)]
pub struct Tables {
    pub servers: Vec<ServerRow>,
    pub queues: Vec<QueueRow>,
    pub callers: Vec<CallerRow>,
    pub board: Vec<BoardChange>,
    pub versions: Vec<Version>,
    pub log: Vec<Held>,
    pub booting: Vec<BoardChange>,
    pub clock: u64,
    pub ticks: Vec<u64>,
    pub no_server: ServerRow,
    pub no_queue: QueueRow,
    pub no_caller: CallerRow,
}

fn reserve_home(rows: &mut Vec<QueueRow>, queue: Option<u16>) -> Result<(), NoMemory>
    requires { FitsQueue queue rows.old.items }
    ensures len { length rows.new.items ≡ length rows.old.items }
    ensures shows { (setup : Configuration) (past : List Noted) → QueuesShow setup past rows.old.items → QueuesShow setup past rows.new.items }
    ensures room { OnOk result (HasQueueRoom queue rows.new.items) }
{
    match queue {
        Some(queue) => reserve_queue(rows, queue),
        None => Ok(()),
    }
}

fn note_home(rows: &mut Vec<QueueRow>, queue: Option<u16>, event: &Event)
    requires within { FitsQueue queue rows.old.items }
    requires room { HasQueueRoom queue rows.old.items }
    ensures len { length rows.new.items ≡ length rows.old.items }
    ensures shows { (setup : Configuration) (past : List Noted) → queue_home setup event.now ≡ queue → CountsTakeAt setup event.now past →
        QueuesShow setup past rows.old.items → QueuesShow setup (event.now ∷ past) rows.new.items }
{
    if let Some(queue) = queue {
        note_queue(rows, queue, event);
    }
}

impl Tables {
    /// The tables before any event.
    pub fn new(alloc: Global, setup: &Setup, clients: u16) -> Result<Tables, NoMemory>
        requires { is_configured setup.now ≡ true }
        ensures { IfOk result (λ tables. TablesShow setup.now clients [] tables) }
    {
        let servers = setup.servers.slice().len() + 1;
        let queues = setup.queues.slice().len() + 1;
        let booting = booting(alloc, setup)?;
        let boot = booting.as_slice().len() as u64;
        Ok(Tables {
            servers: new_servers(alloc, servers)?,
            queues: new_queues(alloc, queues)?,
            callers: new_callers(alloc, usize::from(clients) + servers, boot)?,
            board: Vec::new(alloc),
            versions: first_version(alloc)?,
            log: Vec::new(alloc),
            booting,
            clock: 0,
            ticks: Vec::new(alloc),
            no_server: ServerRow::new(alloc),
            no_queue: QueueRow::new(alloc),
            no_caller: CallerRow::new(alloc, boot),
        })
    }

    /// Makes room for one more event.
    pub fn reserve(&mut self, place: Place) -> Result<(), NoMemory>
        requires { Fits place self.old }
        ensures fits { Fits place self.new }
        ensures shows { (setup : Configuration) (clients : ℕ) (past : List Noted) → TablesShow setup clients past self.old → TablesShow setup clients past self.new }
        ensures ready { OnOk result (IsReady place self.new) }
    {
        reserve_caller(&mut self.callers, place.worker)?;
        reserve_server(&mut self.servers, place.server)?;
        reserve_home(&mut self.queues, place.queue)?;
        self.board.reserve(1)?;
        self.versions.reserve(1)?;
        self.log.reserve(1)?;
        self.ticks.reserve(1)?;
        Ok(())
    }

    /// Notes an event.
    pub fn note(&mut self, clients: u16, place: Place, event: &Event, version: Option<Version>)
        requires fits { Fits place self.old }
        requires ready { IsReady place self.old }
        ensures { (setup : Configuration) (past : List Noted) → IsPlaceOf setup clients event.now place → CountsTakeAt setup event.now past → CountsAcceptAt clients event.now past → version_rows version ≡ next_rows setup (change_in event.now) (rows setup (changes past)) →
            TablesShow setup clients past self.old → TablesShow setup clients (event.now ∷ past) self.new }
    {
        note_caller(&mut self.callers, clients, place.worker, event);
        note_server(&mut self.servers, place.server, event);
        note_home(&mut self.queues, place.queue, event);
        note_held(&mut self.log, &self.queues, place.queue, place.worker);
        note_board(&mut self.board, event);
        note_version(&mut self.versions, version);
        note_tick(&mut self.ticks, event);
        self.clock = clock_after(self.clock, event);
    }

    /// The rows of that version of the board, and of one that isn't made yet those that stand.
    pub fn rows_at(&self, version: u64) -> &[Row]
        requires { 0 < length self.now.versions.items }
        ensures { (setup : Configuration) (past : List Noted) → VersionsShow setup past self.now.versions.items → result.now ≡ rows_of_version setup past version }
    {
        rows_at(&self.versions, version)
    }

    /// The row of that server.
    pub fn server(&self, server: u32) -> &ServerRow
        ensures { (view : ℕ → ServerView) → RowsShow ServerShows view no_server self.now.servers.items → ServerShows self.now.no_server no_server → ServerShows result.now (view server) }
    {
        match self.servers.get(server as usize) {
            Some(row) => row,
            None => &self.no_server,
        }
    }

    /// The row of that queue.
    pub fn queue(&self, queue: u16) -> &QueueRow
        ensures { (view : ℕ → QueueView) → RowsShow QueueShows view no_queue self.now.queues.items → QueueShows self.now.no_queue no_queue → QueueShows result.now (view queue) }
    {
        match self.queues.get(usize::from(queue)) {
            Some(row) => row,
            None => &self.no_queue,
        }
    }

    /// The row of that caller.
    pub fn caller(&self, caller: u32) -> &CallerRow
        ensures { (boot : ℕ) (view : ℕ → CallerView) → RowsShow (CallerShows boot) view no_caller self.now.callers.items → CallerShows boot self.now.no_caller no_caller → CallerShows boot result.now (view caller) }
    {
        match self.callers.get(caller as usize) {
            Some(row) => row,
            None => &self.no_caller,
        }
    }
}
