// The sample routines of a server's program.
ghost use Rattle.std.specs.Prelude.{◌≡◌, ◌<◌, ◌++◌, codes, length, pos, IfOk, IfSome};
ghost use Rattle.std.specs.Str.{bytes_eq};
ghost use Rattle.xa_frame.specs.declared.frame.Body.TheVariants.{Return};
ghost use Rattle.xa_child.specs.Texts.{space_in};
ghost use Rattle.xa_child.specs.Child.{accounted, counted, is_die, is_exit, is_fail, passed, quit, returned, transferred};
ghost use Rattle.xa_child.specs.Entry.{booked, is_entry};
ghost use Rattle.xa_child.specs.Said.{body_of, data_of};

use byteorder::{BigEndian, ByteOrder};
use std::alloc::Global;
use xa_frame::Body;
use xa_types::{Data, Name, NoMemory, Octets, Rval};

/// The code of ACCT for an amount below 1.
const NO_AMOUNT: i32 = 2;

/// The code of TRANSFER for an account outside 1 to 9,999.
const NO_ACCOUNT: i32 = 3;

/// The code of both for data that is no `entry`.
const NO_ENTRY: i32 = 4;

/// The code of the routine EXIT.
const EXITED: i32 = 1;

/// The code of the routine FAIL.
const FAILED: i32 = 7;

/// The code of a routine that the program doesn't have.
const UNKNOWN: i32 = 99;

/// How many octets a word and a space behind it have at most.
const WORD_AND_SPACE: usize = 256;

/// What a routine says.
#[derive(Drop)]
pub enum Outcome<'a> {
    /// A RETURN, whose data is absent or stays where it is.
    Returned(Rval, i32, Option<&'a Data>),
    /// A RETURN or FORWARD with data of its own.
    Made(Body),
}

pub fn is(routine: &Name, name: &[u8]) -> bool
    ensures { result ≡ bytes_eq routine.now name.now }
{
    routine.octets() == name
}

pub fn is_die(routine: &Name) -> bool
    ensures { result ≡ is_die routine.now }
{
    is(routine, b"DIE")
}

pub fn is_exit(routine: &Name) -> bool
    ensures { result ≡ is_exit routine.now }
{
    is(routine, b"EXIT")
}

// How many octets the data has, as a code.
fn counted(payload: &Data) -> i32
    ensures { result ≡ pos (counted payload.now) }
{
    let count = match payload {
        Data::Absent => 0,
        Data::Octet(octets) | Data::Struct(_, octets) => octets.slice().len(),
    };
    i32::try_from(count).unwrap_or(i32::MAX)
}

// Whether data of that subtype is an `entry`: account int, amount long, memo string 16.
fn is_entry(subtype: &Name, octets: &[u8]) -> bool
    ensures { result ≡ is_entry subtype.now octets.now }
{
    subtype.octets() == b"entry".as_slice() && octets.len() == 28
}

#[tactic(auto, unfolding(crate::specs::Child::transferred))]
fn transfer(alloc: Global, payload: &Data) -> Result<Outcome<'_>, NoMemory>
    ensures { IfOk result (λ outcome. body_of outcome ≡ transferred payload.now) }
{
    match payload {
        Data::Struct(subtype, octets) if is_entry(subtype, octets.slice()) => {
            let account = BigEndian::read_i32(octets.slice());
            if account < 1 || account > 9_999 {
                return Ok(Outcome::Returned(Rval::Fail, NO_ACCOUNT, Some(payload)));
            }
            let service = Octets::of(alloc, b"ACCT")?;
            Ok(Outcome::Made(Body::Forward(service, payload.copy(alloc)?)))
        }
        _ => Ok(Outcome::Returned(Rval::Fail, NO_ENTRY, None)),
    }
}

// An entry's octets with the memo `booked`.
fn booked(alloc: Global, octets: &[u8]) -> Result<Octets, NoMemory>
    requires { length octets.now ≡ 28 }
    ensures { IfOk result (λ entry. entry ≡ booked octets.now) }
{
    let mut entry = Vec::from_slice(alloc, &octets[..12])?;
    entry.extend_from_slice(b"booked\0\0\0\0\0\0\0\0\0\0")?;
    Ok(Octets::from_vec(entry))
}

#[tactic(auto, unfolding(crate::specs::Child::accounted))]
fn acct(alloc: Global, payload: &Data) -> Result<Outcome<'_>, NoMemory>
    ensures { IfOk result (λ outcome. body_of outcome ≡ accounted payload.now) }
{
    match payload {
        Data::Struct(subtype, octets) if is_entry(subtype, octets.slice()) => {
            let octets = octets.slice();
            if BigEndian::read_i64(&octets[4..]) < 1 {
                return Ok(Outcome::Returned(Rval::Fail, NO_AMOUNT, Some(payload)));
            }
            let entry = Data::Struct(*subtype, booked(alloc, octets)?);
            Ok(Outcome::Made(Body::Return(Rval::Success, 0, entry)))
        }
        _ => Ok(Outcome::Returned(Rval::Fail, NO_ENTRY, None)),
    }
}

// Where the first space of a text stands, if it is among the first 256 octets.
pub fn space_in(octets: &[u8]) -> Option<usize>
    ensures place { result ≡ space_in octets.now }
    ensures within { IfSome result (λ place. place < length octets.now) }
{
    octets
        .iter()
        .take(WORD_AND_SPACE)
        .position(|octet| *octet == b' ')
}

#[tactic(auto, unfolding(crate::specs::Child::passed))]
fn pass(alloc: Global, payload: &Data) -> Result<Outcome<'_>, NoMemory>
    ensures { IfOk result (λ outcome. body_of outcome ≡ passed payload.now) }
{
    let back = Outcome::Returned(Rval::Success, 0, Some(payload));
    let Data::Octet(octets) = payload else {
        return Ok(back);
    };
    let octets = octets.slice();
    let Some(place) = space_in(octets) else {
        return Ok(back);
    };
    let service = Octets::of(alloc, &octets[..place])?;
    let rest = Octets::of(alloc, &octets[place + 1..])?;
    Ok(Outcome::Made(Body::Forward(service, Data::Octet(rest))))
}

fn is_fail(payload: &Data) -> bool
    ensures { result ≡ is_fail payload.now }
{
    match payload {
        Data::Octet(octets) => octets.slice() == b"fail".as_slice(),
        _ => false,
    }
}

fn quit<'a>(payload: &Data) -> Outcome<'a>
    ensures { body_of result ≡ quit payload.now }
{
    if is_fail(payload) {
        return Outcome::Returned(Rval::Fail, 0, None);
    }
    Outcome::Returned(Rval::Success, 0, None)
}

/// What a routine other than DIE and those that make calls says to its request's data.
pub fn said_by<'a>(
    alloc: Global,
    routine: &Name,
    payload: &'a Data,
) -> Result<Outcome<'a>, NoMemory>
    ensures { IfOk result (λ outcome. body_of outcome ≡ returned routine.now payload.now) }
{
    if is(routine, b"ECHO") {
        return Ok(Outcome::Returned(Rval::Success, 0, Some(payload)));
    }
    if is(routine, b"LEN") {
        return Ok(Outcome::Returned(Rval::Success, counted(payload), None));
    }
    if is(routine, b"FAIL") {
        return Ok(Outcome::Returned(Rval::Fail, FAILED, Some(payload)));
    }
    if is_exit(routine) {
        return Ok(Outcome::Returned(Rval::Exit, EXITED, None));
    }
    if is(routine, b"TRANSFER") {
        return transfer(alloc, payload);
    }
    if is(routine, b"ACCT") {
        return acct(alloc, payload);
    }
    if is(routine, b"PASS") {
        return pass(alloc, payload);
    }
    if is(routine, b"QUIT") {
        return Ok(quit(payload));
    }
    Ok(Outcome::Returned(Rval::Fail, UNKNOWN, None))
}

// The body of a RETURN, with a copy of its data.
fn copied(alloc: Global, value: Rval, code: i32, payload: Option<&Data>) -> Result<Body, NoMemory>
    ensures { IfOk result (λ body. body ≡ Return value code (data_of payload.entry)) }
{
    let payload = match payload {
        Some(payload) => payload.copy(alloc)?,
        None => Data::Absent,
    };
    Ok(Body::Return(value, code, payload))
}

/// That as a frame's body, with a copy of data that stays where it is.
pub fn body_of(alloc: Global, outcome: Outcome) -> Result<Body, NoMemory>
    ensures { IfOk result (λ body. body ≡ body_of outcome.entry) }
{
    match outcome {
        Outcome::Returned(value, code, payload) => copied(alloc, value, code, payload),
        Outcome::Made(body) => Ok(body),
    }
}
