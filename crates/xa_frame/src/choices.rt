//! Fields of one octet, each of which says one of several things.

ghost use Rattle.std.specs.Prelude.{◌≡◌, ◌≤◌, ◌<◌};
ghost use Rattle.xa_frame.specs.Spelling.{bit, flags_octet, direction_octet, rval_octet, mode_octet, fault_octet, event_octet};
ghost use Rattle.xa_frame.specs.Reading.{Reads, is_set, truth_of, flags_of, direction_of, rval_of, mode_of, fault_of, event_of};

use crate::fields::NoFrame;
use xa_types::{CallFlags, ConvEvent, Direction, Fault, Mode, Rval};

/// A truth value, as 1 or 0.
pub fn bit(set: bool) -> u8
    ensures value { result ≡ bit set }
    ensures small { result ≤ 1 }
{
    u8::from(set)
}

pub fn truth_of(octet: u8) -> Result<bool, NoFrame>
    ensures { Reads (λ x. x) result (truth_of octet) }
{
    match octet {
        0 => Ok(false),
        1 => Ok(true),
        _ => Err(NoFrame),
    }
}

fn is_set(octet: u8, place: u32) -> bool
    requires { place < 8 }
    ensures { result ≡ is_set octet place }
{
    (octet >> place) & 1 == 1
}

/// The flags of an operation, of which each has one bit.
pub fn flags_octet(flags: CallFlags) -> u8
    ensures { result ≡ flags_octet flags }
{
    bit(flags.no_block)
        + 2 * bit(flags.no_time)
        + 4 * bit(flags.no_reply)
        + 8 * bit(flags.no_tran)
        + 16 * bit(flags.sig_restart)
}

pub fn flags_of(octet: u8) -> Result<CallFlags, NoFrame>
    ensures { Reads (λ x. x) result (flags_of octet) }
{
    if octet >= 32 {
        return Err(NoFrame);
    }
    Ok(CallFlags {
        no_block: is_set(octet, 0),
        no_time: is_set(octet, 1),
        no_reply: is_set(octet, 2),
        no_tran: is_set(octet, 3),
        sig_restart: is_set(octet, 4),
    })
}

/// The direction of a tpconnect.
pub fn direction_octet(direction: Direction) -> u8
    ensures { result ≡ direction_octet direction }
{
    match direction {
        Direction::Neither => 0,
        Direction::SendOnly => 1,
        Direction::RecvOnly => 2,
        Direction::Both => 3,
    }
}

pub fn direction_of(octet: u8) -> Result<Direction, NoFrame>
    ensures { Reads (λ x. x) result (direction_of octet) }
{
    match octet {
        0 => Ok(Direction::Neither),
        1 => Ok(Direction::SendOnly),
        2 => Ok(Direction::RecvOnly),
        3 => Ok(Direction::Both),
        _ => Err(NoFrame),
    }
}

/// How a service returns.
pub fn rval_octet(value: Rval) -> u8
    ensures { result ≡ rval_octet value }
{
    match value {
        Rval::Success => 0,
        Rval::Fail => 1,
        Rval::Exit => 2,
    }
}

pub fn rval_of(octet: u8) -> Result<Rval, NoFrame>
    ensures { Reads (λ x. x) result (rval_of octet) }
{
    match octet {
        0 => Ok(Rval::Success),
        1 => Ok(Rval::Fail),
        2 => Ok(Rval::Exit),
        _ => Err(NoFrame),
    }
}

/// What a service is invoked for.
pub fn mode_octet(mode: Mode) -> u8
    ensures { result ≡ mode_octet mode }
{
    match mode {
        Mode::Reply => 0,
        Mode::NoReply => 1,
        Mode::ConvReceives => 2,
        Mode::ConvSends => 3,
    }
}

pub fn mode_of(octet: u8) -> Result<Mode, NoFrame>
    ensures { Reads (λ x. x) result (mode_of octet) }
{
    match octet {
        0 => Ok(Mode::Reply),
        1 => Ok(Mode::NoReply),
        2 => Ok(Mode::ConvReceives),
        3 => Ok(Mode::ConvSends),
        _ => Err(NoFrame),
    }
}

/// An error of a call.
pub fn fault_octet(fault: Fault) -> u8
    ensures { result ≡ fault_octet fault }
{
    match fault {
        Fault::Inval => 1,
        Fault::NoEnt => 2,
        Fault::IType => 3,
        Fault::OType => 4,
        Fault::BadDesc => 5,
        Fault::Limit => 6,
        Fault::Block => 7,
        Fault::Time => 8,
        Fault::Proto => 9,
        Fault::System => 10,
        Fault::Match => 11,
        Fault::SvcFail => 12,
        Fault::SvcErr => 13,
        Fault::Event => 14,
        Fault::NoMemory => 15,
    }
}

pub fn fault_of(octet: u8) -> Result<Fault, NoFrame>
    ensures { Reads (λ x. x) result (fault_of octet) }
{
    match octet {
        1 => Ok(Fault::Inval),
        2 => Ok(Fault::NoEnt),
        3 => Ok(Fault::IType),
        4 => Ok(Fault::OType),
        5 => Ok(Fault::BadDesc),
        6 => Ok(Fault::Limit),
        7 => Ok(Fault::Block),
        8 => Ok(Fault::Time),
        9 => Ok(Fault::Proto),
        10 => Ok(Fault::System),
        11 => Ok(Fault::Match),
        12 => Ok(Fault::SvcFail),
        13 => Ok(Fault::SvcErr),
        14 => Ok(Fault::Event),
        15 => Ok(Fault::NoMemory),
        _ => Err(NoFrame),
    }
}

/// An event of a conversation.
pub fn event_octet(event: ConvEvent) -> u8
    ensures { result ≡ event_octet event }
{
    match event {
        ConvEvent::DisconImm => 1,
        ConvEvent::SendOnly => 2,
        ConvEvent::SvcErr => 3,
        ConvEvent::SvcFail => 4,
        ConvEvent::SvcSucc => 5,
        ConvEvent::NoMemory => 6,
    }
}

pub fn event_of(octet: u8) -> Result<ConvEvent, NoFrame>
    ensures { Reads (λ x. x) result (event_of octet) }
{
    match octet {
        1 => Ok(ConvEvent::DisconImm),
        2 => Ok(ConvEvent::SendOnly),
        3 => Ok(ConvEvent::SvcErr),
        4 => Ok(ConvEvent::SvcFail),
        5 => Ok(ConvEvent::SvcSucc),
        6 => Ok(ConvEvent::NoMemory),
        _ => Err(NoFrame),
    }
}
