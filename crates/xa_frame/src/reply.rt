//! Replies: what a service's call is told.

ghost use Rattle.std.specs.Prelude.{◌≡◌, ◌≤◌, ◌+◌, ◌++◌, ◌∷◌, [], length, OnOk, IfOk};
ghost use Rattle.xa_types.specs.declared.reply.Reply.TheVariants as replies;
ghost use Rattle.xa_frame.specs.declared.frame.Body.TheVariants as bodies;
ghost use Rattle.xa_frame.specs.Spelling.{signed, data_octets, answer_octets, reply_octets, IsData, IsAnswer, IsReply};
ghost use Rattle.xa_frame.specs.Reading.{Reads, Makes, said, fault_at, answer_of, descriptor_of, now_of, answered_of, message_of, event_reply_of, fault_reply_of, done_of, reply_of};

use crate::choices::{event_octet, event_of, fault_octet, fault_of};
use crate::fields::{NoFrame, ReadError, ended, long_at, octet_at, put_long, signed_at};
use crate::frame::Body;
use crate::payload::{data_len, data_of, put_data};
use std::alloc::Global;
use xa_types::{Answer, ConvEvent, Data, Fault, NoMemory, Reply};

fn fault_at(octets: &[u8]) -> Result<(Fault, &[u8]), NoFrame>
    ensures { Reads (λ x. (x.0, x.1.now)) result (fault_at octets.now) }
{
    let (fault, rest) = octet_at(octets)?;
    Ok((fault_of(fault)?, rest))
}

#[tactic(auto, unfolding(crate::specs::Reading::answer_of))]
fn answer_of(alloc: Global, octets: &[u8]) -> Result<Answer, ReadError>
    ensures { Makes result (answer_of octets.now) }
{
    let (which, rest) = octet_at(octets)?;
    match which {
        0 => {
            let (code, rest) = signed_at(rest)?;
            Ok(Answer::Success(code, data_of(alloc, rest)?))
        }
        1 => {
            let (code, rest) = signed_at(rest)?;
            Ok(Answer::Failed(code, data_of(alloc, rest)?))
        }
        2 => {
            let (fault, rest) = fault_at(rest)?;
            ended(rest)?;
            Ok(Answer::Error(fault))
        }
        _ => Err(ReadError::NoFrame),
    }
}

#[tactic(auto, unfolding(crate::specs::Reading::descriptor_of))]
fn descriptor_of(octets: &[u8]) -> Result<Body, ReadError>
    ensures { Makes result (said bodies.Reply descriptor_of octets.now) }
{
    let (descriptor, rest) = long_at(octets)?;
    ended(rest)?;
    Ok(Body::Reply(Reply::Descriptor(descriptor)))
}

#[tactic(auto, unfolding(crate::specs::Reading::now_of))]
fn now_of(octets: &[u8]) -> Result<Body, ReadError>
    ensures { Makes result (said bodies.Reply now_of octets.now) }
{
    let (now, rest) = long_at(octets)?;
    ended(rest)?;
    Ok(Body::Reply(Reply::Now(now)))
}

#[tactic(auto, unfolding(crate::specs::Reading::answered_of))]
fn answered_of(alloc: Global, octets: &[u8]) -> Result<Body, ReadError>
    ensures { Makes result (said bodies.Reply answered_of octets.now) }
{
    let (descriptor, rest) = long_at(octets)?;
    let answer = answer_of(alloc, rest)?;
    Ok(Body::Reply(Reply::Answered(descriptor, answer)))
}

#[tactic(auto, unfolding(crate::specs::Reading::message_of))]
fn message_of(alloc: Global, octets: &[u8]) -> Result<Body, ReadError>
    ensures { Makes result (said bodies.Reply message_of octets.now) }
{
    let payload = data_of(alloc, octets)?;
    Ok(Body::Reply(Reply::Message(payload)))
}

#[tactic(auto, unfolding(crate::specs::Reading::event_reply_of))]
fn event_reply_of(alloc: Global, octets: &[u8]) -> Result<Body, ReadError>
    ensures { Makes result (said bodies.Reply event_reply_of octets.now) }
{
    let (event, rest) = octet_at(octets)?;
    let event = event_of(event)?;
    let (code, rest) = signed_at(rest)?;
    let payload = data_of(alloc, rest)?;
    Ok(Body::Reply(Reply::Event(event, code, payload)))
}

#[tactic(auto, unfolding(crate::specs::Reading::fault_reply_of))]
fn fault_reply_of(octets: &[u8]) -> Result<Body, ReadError>
    ensures { Makes result (said bodies.Reply fault_reply_of octets.now) }
{
    let (fault, rest) = fault_at(octets)?;
    ended(rest)?;
    Ok(Body::Reply(Reply::Fault(fault)))
}

fn done_of(octets: &[u8]) -> Result<Body, ReadError>
    ensures { Makes result (said bodies.Reply done_of octets.now) }
{
    ended(octets)?;
    Ok(Body::Reply(Reply::Done))
}

/// The REPLY whose reply all of the octets are.
#[tactic(auto, unfolding(crate::specs::Reading::reply_of))]
#[inline(never)]
pub fn reply_of(alloc: Global, octets: &[u8]) -> Result<Body, ReadError>
    ensures { Makes result (said bodies.Reply reply_of octets.now) }
{
    let (code, rest) = octet_at(octets)?;
    match code {
        0 => done_of(rest),
        1 => descriptor_of(rest),
        2 => now_of(rest),
        3 => answered_of(alloc, rest),
        4 => message_of(alloc, rest),
        5 => event_reply_of(alloc, rest),
        6 => fault_reply_of(rest),
        _ => Err(ReadError::NoFrame),
    }
}

fn answer_len(answer: &Answer) -> usize
    requires { IsAnswer answer.now }
    ensures length { result ≡ length (answer_octets answer.now) }
    ensures few { result ≤ 65_578 }
{
    match answer {
        Answer::Success(_, payload) | Answer::Failed(_, payload) => 5 + data_len(payload),
        Answer::Error(_) => 2,
    }
}

/// How many octets the reply with an answer has.
pub fn answered_len(answer: &Answer) -> usize
    requires { IsAnswer answer.now }
    ensures length { result ≡ 9 + length (answer_octets answer.now) }
    ensures few { result ≤ 66_000 }
{
    9 + answer_len(answer)
}

/// How many octets the reply has.
pub fn reply_len(reply: &Reply) -> usize
    requires { IsReply reply.now }
    ensures length { result ≡ length (reply_octets reply.now) }
    ensures few { result ≤ 66_000 }
{
    match reply {
        Reply::Done => 1,
        Reply::Descriptor(_) | Reply::Now(_) => 9,
        Reply::Answered(_, answer) => answered_len(answer),
        Reply::Message(payload) => 1 + data_len(payload),
        Reply::Event(_, _, payload) => 6 + data_len(payload),
        Reply::Fault(_) => 2,
    }
}

/// Puts a code and data at the end.
pub fn put_coded(out: &mut Vec<u8>, code: i32, payload: &Data) -> Result<(), NoMemory>
    requires { IsData payload.now }
    ensures { OnOk result (out.new.items ≡ out.old.items ++ (signed code ++ data_octets payload.now)) }
{
    out.extend_from_slice(&code.to_be_bytes())?;
    put_data(out, payload)
}

fn put_answer(out: &mut Vec<u8>, answer: &Answer) -> Result<(), NoMemory>
    requires { IsAnswer answer.now }
    ensures { OnOk result (out.new.items ≡ out.old.items ++ answer_octets answer.now) }
{
    match answer {
        Answer::Success(code, payload) => {
            out.push(0)?;
            put_coded(out, *code, payload)
        }
        Answer::Failed(code, payload) => {
            out.push(1)?;
            put_coded(out, *code, payload)
        }
        Answer::Error(fault) => put_pair(out, 2, fault_octet(*fault)),
    }
}

fn put_pair(out: &mut Vec<u8>, first: u8, second: u8) -> Result<(), NoMemory>
    ensures { OnOk result (out.new.items ≡ out.old.items ++ first ∷ second ∷ []) }
{
    out.extend_from_slice(&[first, second])?;
    Ok(())
}

fn put_done(out: &mut Vec<u8>) -> Result<(), NoMemory>
    ensures { OnOk result (out.new.items ≡ out.old.items ++ 0 ∷ []) }
{
    out.push(0)?;
    Ok(())
}

/// Puts the reply with an answer at the end.
pub fn put_answered(out: &mut Vec<u8>, descriptor: u64, answer: &Answer) -> Result<(), NoMemory>
    requires { IsAnswer answer.now }
    ensures { OnOk result (out.new.items ≡ out.old.items ++ reply_octets (replies.Answered descriptor answer.now)) }
{
    put_long(out, 3, descriptor)?;
    put_answer(out, answer)
}

fn put_message(out: &mut Vec<u8>, payload: &Data) -> Result<(), NoMemory>
    requires { IsData payload.now }
    ensures { OnOk result (out.new.items ≡ out.old.items ++ reply_octets (replies.Message payload.now)) }
{
    out.push(4)?;
    put_data(out, payload)
}

fn put_event(out: &mut Vec<u8>, event: ConvEvent, code: i32, payload: &Data) -> Result<(), NoMemory>
    requires { IsData payload.now }
    ensures { OnOk result (out.new.items ≡ out.old.items ++ reply_octets (replies.Event event code payload.now)) }
{
    put_pair(out, 5, event_octet(event))?;
    put_coded(out, code, payload)
}

/// Puts the reply at the end.
pub fn put_reply(out: &mut Vec<u8>, reply: &Reply) -> Result<(), NoMemory>
    requires { IsReply reply.now }
    ensures { OnOk result (out.new.items ≡ out.old.items ++ reply_octets reply.now) }
{
    match reply {
        Reply::Done => put_done(out),
        Reply::Descriptor(descriptor) => put_long(out, 1, *descriptor),
        Reply::Now(now) => put_long(out, 2, *now),
        Reply::Answered(descriptor, answer) => put_answered(out, *descriptor, answer),
        Reply::Message(payload) => put_message(out, payload),
        Reply::Event(event, code, payload) => put_event(out, *event, *code, payload),
        Reply::Fault(fault) => put_pair(out, 6, fault_octet(*fault)),
    }
}
