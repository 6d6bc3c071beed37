//! Reply cells: one caller with one cell, and a caller beside the thread that fills its cell.
ghost use Rattle.std.specs.Prelude.{◌≡◌, ◌++◌, [], ◌∷◌, IsSomeAnd, None, vec_capacity};
ghost use Rattle.xa_cell.specs.Known.{known, IsSeatOf, IsTicketOf};
ghost use Rattle.xa_cell.specs.Places.{OpenAre, IsShut, Stand};

use std::process::Abort;
use std::thread::{Threads, join_mut};
use xa_cell::{Cancelled, Cells, Filled, Look, Place, Seat, Ticket};
use xa_types::{CallerId, RequestId};

const ROUNDS: u32 = 20_000;

fn request(number: u32) -> RequestId {
    RequestId {
        caller: CallerId(1),
        number: u64::from(number),
    }
}

// Whether no cell is left to open.
fn is_full<R: Abort>(rt: &R, cells: &Cells<u32>, seat: &mut Seat<u32>) -> bool
    requires { IsSeatOf cells.now seat.old }
    ensures table { IsSeatOf cells.now seat.new }
    ensures stand { Stand (known seat.old) (known seat.new) }
{
    match cells.begin(seat, request(2)) {
        Err(full) => full.0 == 1,
        Ok(_) => panic!(rt; "not full"),
    }
}

// Opens the only cell and fills it between two looks, and takes the answer.
fn is_filled<R: Abort>(rt: &R, cells: &Cells<u32>, seat: &mut Seat<u32>) -> bool
    requires table { IsSeatOf cells.now seat.old }
    requires shut { IsShut seat.old }
    ensures table { IsSeatOf cells.now seat.new }
    ensures shut { IsShut seat.new }
{
    let Ok((place, ticket)) = cells.begin(seat, request(1)) else {
        return false;
    };
    let is_full = is_full(rt, cells, seat);
    let is_pending = matches!(cells.look(seat, &place), Look::Pending);
    let is_delivered = matches!(cells.fill(seat, ticket, 7), Filled::Delivered);
    match cells.look(seat, &place) {
        Look::Come => {}
        Look::Pending => panic!(rt; "pending"),
    }
    (cells.take(seat, place) == 7) & is_full & is_pending & is_delivered
}

// Gives the place up before the answer comes.
fn is_given_up(cells: &Cells<u32>, seat: &mut Seat<u32>) -> bool
    requires table { IsSeatOf cells.now seat.old }
    requires shut { IsShut seat.old }
    ensures table { IsSeatOf cells.now seat.new }
    ensures shut { IsShut seat.new }
{
    let Ok((place, ticket)) = cells.begin(seat, request(3)) else {
        return false;
    };
    let is_under = matches!(cells.cancel(seat, place), Cancelled::Under);
    matches!(cells.fill(seat, ticket, 8), Filled::Dropped(8)) & is_under
}

fn is_withdrawn(cells: &Cells<u32>, seat: &mut Seat<u32>) -> bool
    requires table { IsSeatOf cells.now seat.old }
    requires shut { IsShut seat.old }
    ensures table { IsSeatOf cells.now seat.new }
    ensures shut { IsShut seat.new }
{
    let Ok((place, ticket)) = cells.begin(seat, request(4)) else {
        return false;
    };
    cells.withdraw(seat, place, ticket);
    true
}

fn is_filled_or_given_up<R: Abort>(rt: &R, cells: &Cells<u32>, seat: &mut Seat<u32>) -> bool
    requires table { IsSeatOf cells.now seat.old }
    requires shut { IsShut seat.old }
    ensures table { IsSeatOf cells.now seat.new }
    ensures shut { IsShut seat.new }
{
    is_filled(rt, cells, seat) && is_given_up(cells, seat) && is_withdrawn(cells, seat)
}

fn next_seat<R: Abort>(rt: &R, seats: &mut Vec<Seat<u32>>) -> Seat<u32>
    ensures items { seats.old.items ≡ seats.new.items ++ result ∷ [] }
    ensures room { vec_capacity seats.new ≡ vec_capacity seats.old }
{
    match seats.pop() {
        Some(seat) => seat,
        None => panic!(rt; "no seat"),
    }
}

#[test]
fn a_cell_is_filled_or_given_up(rt: HostRuntime) {
    let Ok((cells, mut seats)) = Cells::<u32>::new(rt.alloc(), &[1]) else {
        panic!(rt; "no memory")
    };
    let mut seat = next_seat(&rt, &mut seats);
    let right = is_filled_or_given_up(&rt, &cells, &mut seat);
    seats.push_reserved(seat);
    cells.close(seats);
    assert!(rt; right);
}

// What came back of the answer, if it did.
fn fill(
    cells: &Cells<u32>,
    seat: &mut Seat<u32>,
    ticket: &mut Option<Ticket<u32>>,
    answer: u32,
) -> Option<u32>
    requires table { IsSeatOf cells.now seat.old }
    requires ticket { IsSomeAnd ticket.old (λ t. IsTicketOf cells.now t) }
    ensures table { IsSeatOf cells.now seat.new }
    ensures spent { ticket.new ≡ None }
    ensures stand { Stand (known seat.old) (known seat.new) }
{
    let Some(spent) = ticket.take() else {
        unreachable!()
    };
    match cells.fill(seat, spent, answer) {
        Filled::Delivered => None,
        Filled::Dropped(answer) => Some(answer),
    }
}

// Looks so often, or until the answer has come, and then gives the place up. The answer, where it came.
fn wait(
    cells: &Cells<u32>,
    seat: &mut Seat<u32>,
    place: &mut Option<Place>,
    request: RequestId,
    looks: u32,
) -> Option<u32>
    requires table { IsSeatOf cells.now seat.old }
    requires place { IsSomeAnd place.old (λ p. OpenAre ((p.cell, request) ∷ []) (known seat.old)) }
    ensures table { IsSeatOf cells.now seat.new }
    ensures spent { place.new ≡ None }
    ensures shut { IsShut seat.new }
{
    let Some(mine) = place.take() else {
        unreachable!()
    };
    for _look in 0..looks {
        if let Look::Come = cells.look(seat, &mine) {
            let answer = cells.take(seat, mine);
            return Some(answer);
        }
    }
    match cells.cancel(seat, mine) {
        Cancelled::Under => None,
        Cancelled::Came(answer) => Some(answer),
    }
}

// Opens the cell, and lets another thread fill it. Whether its answer was taken or came back, and not both.
fn is_taken_or_dropped<R: Threads + Sync>(
    rt: &R,
    cells: &Cells<u32>,
    owner: &mut Seat<u32>,
    filler: &mut Seat<u32>,
    number: u32,
) -> bool
    requires table { IsSeatOf cells.now owner.old × IsSeatOf cells.now filler.old }
    requires shut { IsShut owner.old × IsShut filler.old }
    ensures table { IsSeatOf cells.now owner.new × IsSeatOf cells.now filler.new }
    ensures shut { IsShut owner.new × IsShut filler.new }
{
    let request = request(number);
    let Ok((opened, named)) = cells.begin(owner, request) else {
        return false;
    };
    let looks = number % 500 * (number % 9);
    let mut place = Some(opened);
    let mut ticket = Some(named);
    let (dropped, taken) = join_mut(
        rt,
        &mut || fill(cells, filler, &mut ticket, number),
        &mut || wait(cells, owner, &mut place, request, looks),
    );
    match (place, ticket) {
        (None, None) => {}
        _ => unreachable!(),
    }
    match (taken, dropped) {
        (Some(answer), None) | (None, Some(answer)) => answer == number,
        _ => false,
    }
}

fn are_taken_or_dropped<R: Threads + Sync>(
    rt: &R,
    cells: &Cells<u32>,
    owner: &mut Seat<u32>,
    filler: &mut Seat<u32>,
) -> bool
    requires table { IsSeatOf cells.now owner.old × IsSeatOf cells.now filler.old }
    requires shut { IsShut owner.old × IsShut filler.old }
    ensures table { IsSeatOf cells.now owner.new × IsSeatOf cells.now filler.new }
    ensures shut { IsShut owner.new × IsShut filler.new }
{
    for number in 0..ROUNDS {
        if !is_taken_or_dropped(rt, cells, owner, filler, number) {
            return false;
        }
    }
    true
}

#[test]
fn each_answer_is_taken_once_or_dropped_once(rt: HostRuntime) {
    let Ok((cells, mut seats)) = Cells::<u32>::new(rt.alloc(), &[1, 1]) else {
        panic!(rt; "no memory")
    };
    let mut filler = next_seat(&rt, &mut seats);
    let mut owner = next_seat(&rt, &mut seats);
    let right = are_taken_or_dropped(&rt, &cells, &mut owner, &mut filler);
    seats.push_reserved(owner);
    seats.push_reserved(filler);
    cells.close(seats);
    assert!(rt; right);
}
