// The routines that make calls: RELAY, ADV and CHAT.
ghost use Rattle.std.specs.Prelude.{◌≡◌, ◌≤◌, ◌++◌, length, reverse, IfOk};
ghost use Rattle.xa_types.specs.Fault.{fault_text};
ghost use Rattle.xa_child.specs.Texts.{space_in};
ghost use Rattle.xa_child.specs.Calling.{IsSmall, done_by, no_flags, call_of, relayed, is_word, two_words, one_word, change_of, changed, octets_of, has_control, message_of, joins, joined, chats, failed, named_fault, told_relay, told_change, told_message, told_first, told_last, told, may_tell, is_calling};
ghost use Rattle.xa_child.specs.Said.{body_of, deed_of};

use crate::doing::Doing;
use crate::routines::{Outcome, space_in};
use std::alloc::Global;
use xa_frame::Body;
use xa_types::{
    Answer, Ask, CallFlags, ConvEvent, Data, Direction, Fault, Mode, NoMemory, Octets, Op, Reply,
    Rval,
};

/// The most octets that CHAT joins.
const MOST_JOINED: usize = 65_536;

/// The longest word.
const LONGEST_WORD: usize = 255;

/// How a routine goes on: what it says, and what it waits for behind that.
#[derive(Drop)]
pub struct Deed<'a> {
    pub says: Outcome<'a>,
    pub doing: Doing,
}

/// It is done with its request.
pub fn done_by(says: Outcome<'_>) -> Deed<'_>
    ensures says { body_of result.says ≡ body_of says.entry }
    ensures doing { result.doing ≡ Doing.Waits }
{
    Deed {
        says,
        doing: Doing::Waits,
    }
}

fn calls<'a>(op: Op, doing: Doing) -> Deed<'a>
    ensures says { body_of result.says ≡ Body.Op op }
    ensures doing { result.doing ≡ doing }
{
    Deed {
        says: Outcome::Made(Body::Op(op)),
        doing,
    }
}

fn no_flags() -> CallFlags
    ensures { result ≡ no_flags }
{
    CallFlags {
        no_block: false,
        no_time: false,
        no_reply: false,
        no_tran: false,
        sig_restart: false,
    }
}

fn call_of(alloc: Global, service: &[u8], text: &[u8]) -> Result<Op, NoMemory>
    ensures { IfOk result (λ op. op ≡ call_of service.now text.now) }
{
    let service = Octets::of(alloc, service)?;
    let payload = Data::Octet(Octets::of(alloc, text)?);
    Ok(Op::Call(Ask {
        service,
        payload,
        flags: no_flags(),
        expect: None,
        direction: Direction::Neither,
    }))
}

/// RELAY.
#[tactic(auto, unfolding(crate::specs::Calling::relayed))]
pub fn relay(alloc: Global, payload: &Data) -> Result<Deed<'_>, NoMemory>
    ensures deed { IfOk result (λ deed. deed_of deed ≡ relayed payload.now) }
    ensures small { IfOk result (λ deed. IsSmall deed.doing) }
{
    let back = Outcome::Returned(Rval::Success, 0, Some(payload));
    let Data::Octet(octets) = payload else {
        return Ok(done_by(back));
    };
    let octets = octets.slice();
    let Some(place) = space_in(octets) else {
        return Ok(done_by(back));
    };
    let op = call_of(alloc, &octets[..place], &octets[place + 1..])?;
    Ok(calls(op, Doing::Relays))
}

// Whether it is a word of 1 to 255 octets.
fn is_word(octets: &[u8]) -> bool
    ensures { result ≡ is_word octets.now }
{
    1 <= octets.len() && octets.len() <= LONGEST_WORD && space_in(octets).is_none()
}

fn two_words(alloc: Global, octets: &[u8]) -> Result<Option<Op>, NoMemory>
    ensures { IfOk result (λ op. op ≡ two_words (space_in octets.now) octets.now) }
{
    let Some(place) = space_in(octets) else {
        return Ok(None);
    };
    let routine = &octets[place + 1..];
    if place < 1 || !is_word(routine) {
        return Ok(None);
    }
    let service = Octets::of(alloc, &octets[..place])?;
    let routine = Octets::of(alloc, routine)?;
    Ok(Some(Op::Advertise(service, routine)))
}

fn one_word(alloc: Global, octets: &[u8]) -> Result<Option<Op>, NoMemory>
    ensures { IfOk result (λ op. op ≡ one_word octets.now) }
{
    if !is_word(octets) {
        return Ok(None);
    }
    Ok(Some(Op::Unadvertise(Octets::of(alloc, octets)?)))
}

// The change that the text asks for.
fn change_of(alloc: Global, octets: &[u8]) -> Result<Option<Op>, NoMemory>
    ensures { IfOk result (λ op. op ≡ change_of octets.now) }
{
    match octets {
        [b'+', b' ', words @ ..] => two_words(alloc, words),
        [b'-', b' ', word @ ..] => one_word(alloc, word),
        _ => Ok(None),
    }
}

/// ADV.
#[tactic(auto, unfolding(crate::specs::Calling::changed))]
pub fn change(alloc: Global, payload: &Data) -> Result<Deed<'_>, NoMemory>
    ensures deed { IfOk result (λ deed. deed_of deed ≡ changed payload.now) }
    ensures small { IfOk result (λ deed. IsSmall deed.doing) }
{
    let change = match payload {
        Data::Octet(octets) => change_of(alloc, octets.slice())?,
        _ => None,
    };
    match change {
        Some(op) => Ok(calls(op, Doing::Advertises)),
        None => Ok(done_by(Outcome::Returned(Rval::Fail, 2, None))),
    }
}

fn octets_of(payload: &Data) -> &[u8]
    ensures { result.now ≡ octets_of payload.now }
{
    match payload {
        Data::Absent => b"",
        Data::Octet(octets) | Data::Struct(_, octets) => octets.slice(),
    }
}

fn has_control(mode: Mode) -> bool
    ensures { result ≡ has_control mode }
{
    matches!(mode, Mode::ConvSends)
}

fn message_of<'a>(alloc: Global, octets: &[u8]) -> Result<Outcome<'a>, NoMemory>
    ensures { IfOk result (λ says. body_of says ≡ message_of octets.now) }
{
    let payload = Data::Octet(Octets::of(alloc, octets)?);
    Ok(Outcome::Made(Body::Op(Op::Send(0, no_flags(), false, payload))))
}

// With control CHAT sends what it joined, without it receives.
fn joins<'a>(alloc: Global, control: bool, octets: Octets) -> Result<Deed<'a>, NoMemory>
    ensures { IfOk result (λ deed. deed_of deed ≡ joins control octets) }
{
    if control {
        let says = message_of(alloc, octets.slice())?;
        return Ok(Deed {
            says,
            doing: Doing::SendsFirst(octets),
        });
    }
    Ok(calls(Op::Receive(0, no_flags()), Doing::Receives(octets)))
}

// So it does with at most 65,536 octets.
fn joined<'a>(alloc: Global, control: bool, octets: Octets) -> Result<Deed<'a>, NoMemory>
    ensures deed { IfOk result (λ deed. deed_of deed ≡ joined control octets) }
    ensures small { IfOk result (λ deed. IsSmall deed.doing) }
{
    if octets.slice().len() > MOST_JOINED {
        return Ok(done_by(Outcome::Returned(Rval::Fail, 5, None)));
    }
    joins(alloc, control, octets)
}

/// CHAT.
#[tactic(auto, unfolding(crate::specs::Calling::chats))]
pub fn chat<'a>(alloc: Global, mode: Mode, payload: &Data) -> Result<Deed<'a>, NoMemory>
    ensures deed { IfOk result (λ deed. deed_of deed ≡ chats mode payload.now) }
    ensures small { IfOk result (λ deed. IsSmall deed.doing) }
{
    let octets = Octets::of(alloc, octets_of(payload))?;
    joined(alloc, has_control(mode), octets)
}

// These octets, and the message's.
fn with_more(alloc: Global, octets: &[u8], more: &Data) -> Result<Octets, NoMemory>
    ensures { IfOk result (λ both. both ≡ octets.now ++ octets_of more.now) }
{
    let mut both = Vec::from_slice(alloc, octets)?;
    both.extend_from_slice(octets_of(more))?;
    Ok(Octets::from_vec(both))
}

fn reversed(alloc: Global, octets: &[u8]) -> Result<Octets, NoMemory>
    ensures { IfOk result (λ back. back ≡ reverse octets.now) }
{
    let mut back = Vec::from_slice(alloc, octets)?;
    back.reverse();
    Ok(Octets::from_vec(back))
}

fn failed<'a>() -> Deed<'a>
    ensures { deed_of result ≡ failed }
{
    done_by(Outcome::Returned(Rval::Fail, 1, None))
}

fn text(alloc: Global, value: Rval, code: i32, octets: &[u8]) -> Result<Body, NoMemory>
    ensures { IfOk result (λ body. body ≡ Body.Return value code (Data.Octet octets.now)) }
{
    let text = Octets::of(alloc, octets)?;
    Ok(Body::Return(value, code, Data::Octet(text)))
}

fn named_fault<'a>(alloc: Global, fault: Fault) -> Result<Deed<'a>, NoMemory>
    ensures { IfOk result (λ deed. deed_of deed ≡ done_by (named_fault (fault_text fault))) }
{
    let body = text(alloc, Rval::Fail, 1, fault.text().as_bytes())?;
    Ok(done_by(Outcome::Made(body)))
}

fn told_relay(alloc: Global, reply: &Reply) -> Result<Deed<'_>, NoMemory>
    ensures { IfOk result (λ deed. deed_of deed ≡ told_relay reply.now) }
{
    match reply {
        Reply::Answered(_, Answer::Success(code, payload)) => Ok(done_by(Outcome::Returned(
            Rval::Success,
            *code,
            Some(payload),
        ))),
        Reply::Answered(_, Answer::Failed(..)) => named_fault(alloc, Fault::SvcFail),
        Reply::Answered(_, Answer::Error(fault)) => named_fault(alloc, *fault),
        Reply::Fault(fault) => named_fault(alloc, *fault),
        _ => Ok(failed()),
    }
}

fn told_change<'a>(alloc: Global, reply: &Reply) -> Result<Deed<'a>, NoMemory>
    ensures { IfOk result (λ deed. deed_of deed ≡ told_change reply.now) }
{
    let told = match reply {
        Reply::Done => text(alloc, Rval::Success, 0, b"OK")?,
        Reply::Fault(fault) => text(alloc, Rval::Success, 0, fault.text().as_bytes())?,
        _ => return Ok(failed()),
    };
    Ok(done_by(Outcome::Made(told)))
}

fn told_message<'a>(alloc: Global, octets: &[u8], reply: &Reply) -> Result<Deed<'a>, NoMemory>
    ensures deed { IfOk result (λ deed. deed_of deed ≡ told_message octets.now reply.now) }
    ensures small { IfOk result (λ deed. IsSmall deed.doing) }
{
    match reply {
        Reply::Message(payload) => joined(alloc, false, with_more(alloc, octets, payload)?),
        Reply::Event(ConvEvent::SendOnly, _, payload) => {
            joined(alloc, true, with_more(alloc, octets, payload)?)
        }
        _ => Ok(failed()),
    }
}

fn told_first<'a>(alloc: Global, octets: &[u8], reply: &Reply) -> Result<Deed<'a>, NoMemory>
    requires { length octets.now ≤ 65_536 }
    ensures deed { IfOk result (λ deed. deed_of deed ≡ told_first octets.now reply.now) }
    ensures small { IfOk result (λ deed. IsSmall deed.doing) }
{
    let Reply::Done = reply else {
        return Ok(failed());
    };
    let back = reversed(alloc, octets)?;
    Ok(Deed {
        says: message_of(alloc, back.slice())?,
        doing: Doing::SendsLast(octets.len() as u32),
    })
}

fn told_last<'a>(alloc: Global, count: u32, reply: &Reply) -> Result<Deed<'a>, NoMemory>
    requires { count ≤ 65_536 }
    ensures { IfOk result (λ deed. deed_of deed ≡ told_last count reply.now) }
{
    let Reply::Done = reply else {
        return Ok(failed());
    };
    let bye = text(alloc, Rval::Success, count as i32, b"bye")?;
    Ok(done_by(Outcome::Made(bye)))
}

/// What the routine that waits so says to the REPLY.
#[tactic(auto, unfolding(crate::specs::Calling::told))]
pub fn told<'a>(alloc: Global, doing: &Doing, reply: &'a Reply) -> Result<Deed<'a>, NoMemory>
    requires { IsSmall doing.now }
    ensures deed { IfOk result (λ deed. deed_of deed ≡ told doing.now reply.now) }
    ensures small { IfOk result (λ deed. IsSmall deed.doing) }
{
    match doing {
        Doing::Waits => Ok(failed()),
        Doing::Relays => told_relay(alloc, reply),
        Doing::Advertises => told_change(alloc, reply),
        Doing::Receives(octets) => told_message(alloc, octets.slice(), reply),
        Doing::SendsFirst(octets) => told_first(alloc, octets.slice(), reply),
        Doing::SendsLast(count) => told_last(alloc, *count, reply),
    }
}

/// Whether the program that waits so admits the REPLY.
pub fn may_tell(doing: &Doing, reply: &Reply) -> bool
    ensures { result ≡ may_tell doing.now reply.now }
{
    match doing {
        Doing::Waits => false,
        Doing::Relays => match reply {
            Reply::Fault(_) => true,
            Reply::Answered(descriptor, _) => *descriptor == 0,
            _ => false,
        },
        Doing::Advertises => matches!(reply, Reply::Fault(_) | Reply::Done),
        Doing::Receives(_) => matches!(
            reply,
            Reply::Fault(_) | Reply::Message(_) | Reply::Event(..)
        ),
        Doing::SendsFirst(_) | Doing::SendsLast(_) => {
            matches!(reply, Reply::Fault(_) | Reply::Done | Reply::Event(..))
        }
    }
}

/// Whether it waits for a REPLY.
pub fn is_calling(doing: &Doing) -> bool
    ensures { result ≡ is_calling doing.now }
{
    !matches!(doing, Doing::Waits)
}
