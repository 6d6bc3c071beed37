// The calls of a script: a line's first word tells the kind of call, and its parts follow in order.
ghost use Rattle.std.specs.Prelude.{◌≡◌, Option, Some, None, option_map};
ghost use Rattle.xa_types.specs.declared.call.Op.{Op};
ghost use Rattle.xa_types.specs.declared.call.Op.TheVariants as ops;
ghost use Rattle.xa_types.specs.declared.call.Direction.TheVariants as directions;
ghost use Rattle.xa_script.specs.Words.{Reads, Makes};
ghost use Rattle.xa_script.specs.Calls.{service_at, descriptor_at, direction_of, ask_with, ask_of, joined_of, connect_of, kind_with, get_of, get_any_of, passes_at, send_of, receive_of, cancel_of, disconnect_of, amount_of, is_absolute, priority_of, advertise_of, unadvertise_of, tick_of, verb_of, op_of};

use crate::flags::{Flags, flags_of};
use crate::payload::{payload_at, signed_of};
use crate::structures::Shaped;
use crate::words::{NoForm, ReadError, is, is_blank, next_word, number_of, word_at};
use std::alloc::Global;
use xa_types::{Ask, Data, Direction, Kind, Octets, Op};

/// The kinds of calls.
#[derive(Clone, Copy)]
pub enum Verb {
    Call,
    Acall,
    Get,
    GetAny,
    Cancel,
    Connect,
    Send,
    Receive,
    Disconnect,
    Priority,
    Advertise,
    Unadvertise,
    Tick,
}

/// The kind of call that a word names.
pub fn verb_of(word: &[u8]) -> Option<Verb>
    ensures { result ≡ verb_of word.now }
{
    if is(word, b"call") {
        Some(Verb::Call)
    } else if is(word, b"acall") {
        Some(Verb::Acall)
    } else if is(word, b"get") {
        Some(Verb::Get)
    } else if is(word, b"getany") {
        Some(Verb::GetAny)
    } else if is(word, b"cancel") {
        Some(Verb::Cancel)
    } else if is(word, b"connect") {
        Some(Verb::Connect)
    } else if is(word, b"send") {
        Some(Verb::Send)
    } else if is(word, b"recv") {
        Some(Verb::Receive)
    } else if is(word, b"discon") {
        Some(Verb::Disconnect)
    } else if is(word, b"prio") {
        Some(Verb::Priority)
    } else if is(word, b"advertise") {
        Some(Verb::Advertise)
    } else if is(word, b"unadvertise") {
        Some(Verb::Unadvertise)
    } else if is(word, b"tick") {
        Some(Verb::Tick)
    } else {
        None
    }
}

// ---- parts

#[tactic(auto, unfolding(crate::specs::Calls::service_at))]
fn service_at(octets: &[u8]) -> Result<(&[u8], &[u8]), NoForm>
    ensures { Reads (λ x. (x.0.now, x.1.now)) result (service_at octets.now) }
{
    let (word, rest) = word_at(octets)?;
    if word.len() > 255 {
        return Err(NoForm);
    }
    Ok((word, rest))
}

#[tactic(auto, unfolding(crate::specs::Calls::descriptor_at))]
fn descriptor_at(octets: &[u8]) -> Result<(u64, &[u8]), NoForm>
    ensures { Reads (λ x. (x.0, x.1.now)) result (descriptor_at octets.now) }
{
    let (word, rest) = word_at(octets)?;
    let number = number_of(0, u64::MAX, word)?;
    Ok((number, rest))
}

fn direction_of(word: &[u8]) -> Result<Direction, NoForm>
    ensures { Reads (λ x. x) result (direction_of word.now) }
{
    if is(word, b"send") {
        Ok(Direction::SendOnly)
    } else if is(word, b"recv") {
        Ok(Direction::RecvOnly)
    } else if is(word, b"both") {
        Ok(Direction::Both)
    } else if is(word, b"neither") {
        Ok(Direction::Neither)
    } else {
        Err(NoForm)
    }
}

// ---- calls

// The kind of a buffer, if the setup takes it.
fn kind_with(expect: Option<Option<Kind>>) -> Option<Option<Kind>>
    ensures { result ≡ kind_with expect }
{
    match expect {
        None => Some(None),
        Some(None) => None,
        Some(Some(kind)) => Some(Some(kind)),
    }
}

// What is asked, if the setup takes each part.
fn ask_with(
    alloc: Global,
    service: &[u8],
    payload: Option<Data>,
    flags: Flags,
    direction: Direction,
) -> Result<Option<Ask>, ReadError>
    ensures { Makes (λ x. x) result (Some (ask_with service.now payload flags direction)) }
{
    let Some(payload) = payload else {
        return Ok(None);
    };
    let Some(expect) = kind_with(flags.expect) else {
        return Ok(None);
    };
    let service = Octets::of(alloc, service)?;
    Ok(Some(Ask {
        service,
        payload,
        flags: flags.call,
        expect,
        direction,
    }))
}

// SERVICE DATA FLAGS.
#[tactic(auto, unfolding(crate::specs::Calls::ask_of))]
fn ask_of(
    alloc: Global,
    setup: &Shaped,
    buffered: bool,
    octets: &[u8],
) -> Result<Option<Ask>, ReadError>
    ensures { Makes (λ x. x) result (ask_of setup.now buffered octets.now) }
{
    let (service, rest) = service_at(octets)?;
    let (payload, rest) = payload_at(alloc, setup, rest)?;
    let flags = flags_of(setup, buffered, rest)?;
    ask_with(alloc, service, payload, flags, Direction::Neither)
}

// DIRECTION FLAGS.
#[tactic(auto, unfolding(crate::specs::Calls::joined_of))]
fn joined_of(setup: &Shaped, octets: &[u8]) -> Result<(Direction, Flags), NoForm>
    ensures { Reads (λ x. x) result (joined_of setup.now octets.now) }
{
    let (word, rest) = word_at(octets)?;
    let direction = direction_of(word)?;
    let flags = flags_of(setup, false, rest)?;
    Ok((direction, flags))
}

// SERVICE DATA DIRECTION FLAGS.
#[tactic(auto, unfolding(crate::specs::Calls::connect_of))]
fn connect_of(alloc: Global, setup: &Shaped, octets: &[u8]) -> Result<Option<Ask>, ReadError>
    ensures { Makes (λ x. x) result (connect_of setup.now octets.now) }
{
    let (service, rest) = service_at(octets)?;
    let (payload, rest) = payload_at(alloc, setup, rest)?;
    let (direction, flags) = joined_of(setup, rest)?;
    ask_with(alloc, service, payload, flags, direction)
}

// CD FLAGS.
#[tactic(auto, unfolding(crate::specs::Calls::get_of))]
fn get_of(setup: &Shaped, octets: &[u8]) -> Result<Option<Op>, NoForm>
    ensures { Reads (λ x. x) result (get_of setup.now octets.now) }
{
    let (descriptor, rest) = descriptor_at(octets)?;
    let flags = flags_of(setup, true, rest)?;
    match kind_with(flags.expect) {
        Some(kind) => Ok(Some(Op::Get(descriptor, flags.call, kind))),
        None => Ok(None),
    }
}

// FLAGS.
#[tactic(auto, unfolding(crate::specs::Calls::get_any_of))]
fn get_any_of(setup: &Shaped, octets: &[u8]) -> Result<Option<Op>, NoForm>
    ensures { Reads (λ x. x) result (get_any_of setup.now octets.now) }
{
    let flags = flags_of(setup, true, octets)?;
    match kind_with(flags.expect) {
        Some(kind) => Ok(Some(Op::GetAny(flags.call, kind))),
        None => Ok(None),
    }
}

// Whether `recv` stands in front, and what stands behind it.
fn passes_at(octets: &[u8]) -> (bool, &[u8])
    ensures passes { result.0 ≡ (passes_at octets.now).0 }
    ensures rest { result.1.now ≡ (passes_at octets.now).1 }
{
    let (word, rest) = next_word(octets);
    if is(word, b"recv") {
        (true, rest)
    } else {
        (false, octets)
    }
}

// CD DATA FLAGS, or CD DATA recv FLAGS.
#[tactic(auto, unfolding(crate::specs::Calls::send_of))]
fn send_of(alloc: Global, setup: &Shaped, octets: &[u8]) -> Result<Option<Op>, ReadError>
    ensures { Makes (λ x. x) result (send_of setup.now octets.now) }
{
    let (descriptor, rest) = descriptor_at(octets)?;
    let (payload, rest) = payload_at(alloc, setup, rest)?;
    let (passes, rest) = passes_at(rest);
    let flags = flags_of(setup, false, rest)?;
    match payload {
        Some(payload) => Ok(Some(Op::Send(descriptor, flags.call, passes, payload))),
        None => Ok(None),
    }
}

// CD FLAGS.
#[tactic(auto, unfolding(crate::specs::Calls::receive_of))]
fn receive_of(setup: &Shaped, octets: &[u8]) -> Result<Option<Op>, NoForm>
    ensures { Reads (λ x. x) result (receive_of setup.now octets.now) }
{
    let (descriptor, rest) = descriptor_at(octets)?;
    let flags = flags_of(setup, false, rest)?;
    Ok(Some(Op::Receive(descriptor, flags.call)))
}

// CD.
#[tactic(auto, unfolding(crate::specs::Calls::cancel_of))]
fn cancel_of(octets: &[u8]) -> Result<Option<Op>, NoForm>
    ensures { Reads (λ x. x) result (cancel_of octets.now) }
{
    let (descriptor, rest) = descriptor_at(octets)?;
    if !is_blank(rest) {
        return Err(NoForm);
    }
    Ok(Some(Op::Cancel(descriptor)))
}

// CD.
#[tactic(auto, unfolding(crate::specs::Calls::disconnect_of))]
fn disconnect_of(octets: &[u8]) -> Result<Option<Op>, NoForm>
    ensures { Reads (λ x. x) result (disconnect_of octets.now) }
{
    let (descriptor, rest) = descriptor_at(octets)?;
    if !is_blank(rest) {
        return Err(NoForm);
    }
    Ok(Some(Op::Disconnect(descriptor)))
}

// A number from -1,000 to 1,000.
fn amount_of(number: Option<i64>) -> Result<i32, NoForm>
    ensures { Reads (λ x. x) result (amount_of number) }
{
    match number {
        Some(number) if -1_000 <= number && number <= 1_000 => Ok(number as i32),
        _ => Err(NoForm),
    }
}

fn is_absolute(word: &[u8]) -> Result<bool, NoForm>
    ensures { Reads (λ x. x) result (is_absolute word.now) }
{
    if is(word, b"abs") {
        Ok(true)
    } else if is(word, b"add") {
        Ok(false)
    } else {
        Err(NoForm)
    }
}

// `abs N`, or `add N`.
#[tactic(auto, unfolding(crate::specs::Calls::priority_of))]
fn priority_of(octets: &[u8]) -> Result<Option<Op>, NoForm>
    ensures { Reads (λ x. x) result (priority_of octets.now) }
{
    let (word, rest) = word_at(octets)?;
    let absolute = is_absolute(word)?;
    let (number, rest) = word_at(rest)?;
    let number = signed_of(number)?;
    let amount = amount_of(number)?;
    if !is_blank(rest) {
        return Err(NoForm);
    }
    Ok(Some(Op::Priority(absolute, amount)))
}

// SERVICE ROUTINE.
#[tactic(auto, unfolding(crate::specs::Calls::advertise_of))]
fn advertise_of(alloc: Global, octets: &[u8]) -> Result<Option<Op>, ReadError>
    ensures { Makes (λ x. x) result (advertise_of octets.now) }
{
    let (service, rest) = service_at(octets)?;
    let (routine, rest) = service_at(rest)?;
    if !is_blank(rest) {
        return Err(ReadError::NoForm);
    }
    let service = Octets::of(alloc, service)?;
    let routine = Octets::of(alloc, routine)?;
    Ok(Some(Op::Advertise(service, routine)))
}

// SERVICE.
#[tactic(auto, unfolding(crate::specs::Calls::unadvertise_of))]
fn unadvertise_of(alloc: Global, octets: &[u8]) -> Result<Option<Op>, ReadError>
    ensures { Makes (λ x. x) result (unadvertise_of octets.now) }
{
    let (service, rest) = service_at(octets)?;
    if !is_blank(rest) {
        return Err(ReadError::NoForm);
    }
    Ok(Some(Op::Unadvertise(Octets::of(alloc, service)?)))
}

// N.
#[tactic(auto, unfolding(crate::specs::Calls::tick_of))]
fn tick_of(octets: &[u8]) -> Result<Option<Op>, NoForm>
    ensures { Reads (λ x. x) result (tick_of octets.now) }
{
    let (word, rest) = word_at(octets)?;
    let number = number_of(1, 2_147_483_647, word)?;
    if !is_blank(rest) {
        return Err(NoForm);
    }
    Ok(Some(Op::Tick(number as u32)))
}

// The same, where memory may run out too.
fn made(read: Result<Option<Op>, NoForm>) -> Result<Option<Op>, ReadError>
    ensures { (said : Option (Option Op)) → Reads (λ x. x) read said → Makes (λ x. x) result said }
{
    match read {
        Ok(op) => Ok(op),
        Err(_) => Err(ReadError::NoForm),
    }
}

/// The call that the rest of a line of that kind is, if the setup takes each part.
pub fn op_of(
    alloc: Global,
    setup: &Shaped,
    verb: Verb,
    octets: &[u8],
) -> Result<Option<Op>, ReadError>
    ensures { Makes (λ x. x) result (op_of setup.now verb octets.now) }
{
    match verb {
        Verb::Call => Ok(ask_of(alloc, setup, true, octets)?.map(Op::Call)),
        Verb::Acall => Ok(ask_of(alloc, setup, false, octets)?.map(Op::Acall)),
        Verb::Get => made(get_of(setup, octets)),
        Verb::GetAny => made(get_any_of(setup, octets)),
        Verb::Cancel => made(cancel_of(octets)),
        Verb::Connect => Ok(connect_of(alloc, setup, octets)?.map(Op::Connect)),
        Verb::Send => send_of(alloc, setup, octets),
        Verb::Receive => made(receive_of(setup, octets)),
        Verb::Disconnect => made(disconnect_of(octets)),
        Verb::Priority => made(priority_of(octets)),
        Verb::Advertise => advertise_of(alloc, octets),
        Verb::Unadvertise => unadvertise_of(alloc, octets),
        Verb::Tick => made(tick_of(octets)),
    }
}
