//! A client whose requests a server takes: what it waits for, and what it is told.
ghost use Rattle.std.specs.Prelude.{◌≡◌, ◌≤◌, IfSome};
ghost use Rattle.xa_types.specs.declared.data.Data.TheVariants as kinds;
ghost use Rattle.xa_stamp.specs.Home.{last_stamp};
ghost use Rattle.xa_worker.specs.Crew.{no_stamp};
ghost use Rattle.xa_cell.specs.Known.{known, callers_of, IsNew, IsSeatOf, IsTicketOf};
ghost use Rattle.xa_cell.specs.Places.{IsShut};
ghost use Rattle.xa_trials_callers.specs.Forwards.{IsWaiting};

use crate::clients::{end_seats, next_seat};
use std::alloc::Global;
use std::process::Abort;
use xa_caller::{Caller, Cargo, Filling};
use xa_cell::{Cancelled, Cells, Place, Seat};
use xa_held::Invocation;
use xa_queue::Entry;
use xa_server::{Closing, Given};
use xa_types::{Answer, CallerId, Data, Fault, Name, RequestId};

/// What the caller of a request is told.
#[derive(Clone, Copy, PartialEq, Eq)]
pub enum Told {
    Nothing,
    Success,
    Failed,
    SvcErr,
    System,
    NoMemory,
    Halted,
}

/// Cells of a client, which has 50, and of a worker, which has 16, and the seats of both.
pub fn open_cells<R: Abort>(rt: &R, alloc: Global) -> (Cells<Filling>, Seat<Filling>, Seat<Filling>)
    ensures callers { callers_of result.0 ≡ 2 }
    ensures table { IsSeatOf result.0 result.1 × IsSeatOf result.0 result.2 }
    ensures shut { IsShut result.1 }
    ensures new { IsNew result.2.first result.2.count (known result.2) }
    ensures count { result.2.count ≡ 16 }
{
    let Ok((cells, mut seats)) = Cells::<Filling>::new(alloc, &[50, 16]) else {
        panic!(rt; "no memory")
    };
    let own = next_seat(rt, &mut seats);
    let seat = next_seat(rt, &mut seats);
    end_seats(rt, seats);
    (cells, seat, own)
}

/// Both seats come back, and the cells end.
pub fn close_cells<R: Abort>(
    rt: &R,
    alloc: Global,
    cells: Cells<Filling>,
    seat: Seat<Filling>,
    own: Seat<Filling>,
)
    requires callers { callers_of cells ≡ 2 }
    requires table { IsSeatOf cells seat × IsSeatOf cells own }
    requires shut { IsShut seat × IsShut own }
{
    let Ok(mut seats) = Vec::with_capacity(alloc, 2) else {
        panic!(rt; "no memory")
    };
    seats.push_reserved(seat);
    seats.push_reserved(own);
    cells.close(seats);
}

/// The request that `ask` makes.
pub const REQUEST: RequestId = RequestId {
    caller: CallerId(1),
    number: 1,
};

fn reading(filling: &Filling) -> Told {
    match &filling.answer {
        None => Told::Halted,
        Some(Answer::Success(..)) => Told::Success,
        Some(Answer::Failed(..)) => Told::Failed,
        Some(Answer::Error(Fault::SvcErr)) => Told::SvcErr,
        Some(Answer::Error(Fault::System)) => Told::System,
        Some(Answer::Error(Fault::NoMemory)) => Told::NoMemory,
        Some(Answer::Error(_)) => Told::Nothing,
    }
}

/// A request without data, and the place where its answer is waited for.
pub fn ask<R: Abort>(
    rt: &R,
    cells: &Cells<Filling>,
    seat: &mut Seat<Filling>,
) -> (Place, Entry<Cargo>)
    requires table { IsSeatOf cells.now seat.old }
    requires shut { IsShut seat.old }
    ensures table { IsSeatOf cells.now seat.new }
    ensures place { IsWaiting result.0.cell seat.new }
    ensures ticket { IsTicketOf cells.now result.1.cargo.ticket }
    ensures payload { result.1.cargo.invocation.payload ≡ kinds.Absent }
{
    let Ok(service) = Name::read(b"A") else {
        panic!(rt; "no name")
    };
    let Ok((place, ticket)) = cells.begin(seat, REQUEST) else {
        panic!(rt; "no cell")
    };
    let invocation = Invocation {
        service,
        routine: service,
        hop: 0,
        payload: Data::Absent,
    };
    let entry = Entry {
        request: REQUEST,
        priority: 50,
        cargo: Cargo { ticket, invocation },
    };
    (place, entry)
}

/// Tells the client of a server's worker how its request was closed, and answers what the client finds at its place.
pub fn tell(
    caller: &mut Caller,
    cells: &Cells<Filling>,
    seat: &mut Seat<Filling>,
    place: Place,
    closing: Closing,
) -> Told
    requires table { IsSeatOf cells.now caller.old.seat × IsSeatOf cells.now seat.old }
    requires ticket { IfSome closing.ticket (IsTicketOf cells.now) }
    requires later { closing.stamp.0 ≤ last_stamp no_stamp caller.old.work.own }
    requires place { IsWaiting place.cell seat.old }
    ensures caller { caller.new ≡ record caller.old { seat = caller.new.seat } }
    ensures table { IsSeatOf cells.now caller.new.seat × IsSeatOf cells.now seat.new }
    ensures shut { IsShut seat.new }
{
    let given = closing.give(caller, cells);
    match cells.cancel(seat, place) {
        Cancelled::Came(filling) => {
            let told = reading(&filling);
            drop(filling);
            if matches!(given, Given::Delivered) {
                told
            } else {
                Told::Nothing
            }
        }
        Cancelled::Under => Told::Nothing,
    }
}
