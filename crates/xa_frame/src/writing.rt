ghost use Rattle.std.specs.Prelude.{◌≡◌, ◌≤◌, ◌+◌, ◌++◌, length, IfOk, OnOk};
ghost use Rattle.xa_types.specs.declared.call.Mode.{Mode};
ghost use Rattle.xa_types.specs.declared.reply.Reply.TheVariants.{Answered};
ghost use Rattle.xa_frame.specs.declared.frame.Body.TheVariants.{Return, Forward, Invoke, Reply as ReplyBody};
ghost use Rattle.xa_frame.specs.Spelling.{kind_octet, data_octets, body_octets, header, spelled, IsData, IsAnswer, IsReply, IsBody, HasSpelling};

use crate::choices::{mode_octet, rval_octet};
use crate::fields::{put_word, word_len};
use crate::frame::{Body, Frame};
use crate::header::{HEADER, MARK};
use crate::op::{op_len, put_op};
use crate::payload::{data_len, put_data};
use crate::reply::{answered_len, put_answered, put_coded, put_reply, reply_len};
use std::alloc::Global;
use xa_types::{Answer, Data, Mode, Name, NoMemory, Octets, Reply, Rval};

// The kind of a RETURN.
const RETURN: u8 = 0x04;

// The kind of an INVOKE.
const INVOKE: u8 = 0x11;

// The kind of a REPLY.
const REPLY: u8 = 0x12;

/// The kind in the header of a frame with that body.
pub fn kind_octet(body: &Body) -> u8
    ensures { result ≡ kind_octet body.now }
{
    match body {
        Body::Ready(_) => 0x01,
        Body::Next => 0x02,
        Body::Op(_) => 0x03,
        Body::Return(..) => RETURN,
        Body::Forward(..) => 0x05,
        Body::Invoke(..) => INVOKE,
        Body::Reply(_) => REPLY,
        Body::Shutdown => 0x13,
    }
}

fn return_len(payload: &Data) -> usize
    requires { IsData payload.now }
    ensures length { result ≡ 5 + length (data_octets payload.now) }
    ensures few { result ≤ 66_000 }
{
    5 + data_len(payload)
}

fn invoke_len(service: &Name, routine: &Name, payload: &Data) -> usize
    requires { IsData payload.now }
    ensures length { (mode : Mode) → result ≡ length (body_octets (Invoke service.now routine.now mode payload.now)) }
    ensures few { result ≤ 66_000 }
{
    word_len(service.octets()) + word_len(routine.octets()) + 1 + data_len(payload)
}

fn body_len(body: &Body) -> usize
    requires { IsBody body.now }
    ensures { result ≡ length (body_octets body.now) }
{
    match body {
        Body::Ready(name) => word_len(name.octets()),
        Body::Next | Body::Shutdown => 0,
        Body::Op(op) => op_len(op),
        Body::Return(_, _, payload) => return_len(payload),
        Body::Forward(service, payload) => word_len(service.slice()) + data_len(payload),
        Body::Invoke(service, routine, _, payload) => invoke_len(service, routine, payload),
        Body::Reply(reply) => reply_len(reply),
    }
}

fn put_return(out: &mut Vec<u8>, value: Rval, code: i32, payload: &Data) -> Result<(), NoMemory>
    requires { IsData payload.now }
    ensures { OnOk result (out.new.items ≡ out.old.items ++ body_octets (Return value code payload.now)) }
{
    out.push(rval_octet(value))?;
    put_coded(out, code, payload)
}

fn put_forward(out: &mut Vec<u8>, service: &Octets, payload: &Data) -> Result<(), NoMemory>
    requires { IsBody (Forward service.now payload.now) }
    ensures { OnOk result (out.new.items ≡ out.old.items ++ body_octets (Forward service.now payload.now)) }
{
    put_word(out, service.slice())?;
    put_data(out, payload)
}

fn put_invoke(
    out: &mut Vec<u8>,
    service: &Name,
    routine: &Name,
    mode: Mode,
    payload: &Data,
) -> Result<(), NoMemory>
    requires { IsData payload.now }
    ensures { OnOk result (out.new.items ≡ out.old.items ++ body_octets (Invoke service.now routine.now mode payload.now)) }
{
    put_word(out, service.octets())?;
    put_word(out, routine.octets())?;
    out.push(mode_octet(mode))?;
    put_data(out, payload)
}

fn put_body(out: &mut Vec<u8>, body: &Body) -> Result<(), NoMemory>
    requires { IsBody body.now }
    ensures { OnOk result (out.new.items ≡ out.old.items ++ body_octets body.now) }
{
    match body {
        Body::Ready(name) => put_word(out, name.octets()),
        Body::Next | Body::Shutdown => Ok(()),
        Body::Op(op) => put_op(out, op),
        Body::Return(value, code, payload) => put_return(out, *value, *code, payload),
        Body::Forward(service, payload) => put_forward(out, service, payload),
        Body::Invoke(service, routine, mode, payload) => {
            put_invoke(out, service, routine, *mode, payload)
        }
        Body::Reply(reply) => put_reply(out, reply),
    }
}

fn put_header(out: &mut Vec<u8>, kind: u8, size: u32, tag: u32) -> Result<(), NoMemory>
    ensures { OnOk result (out.new.items ≡ out.old.items ++ header kind size tag) }
{
    let [x, a, version] = MARK;
    let [s0, s1, s2, s3] = size.to_be_bytes();
    let [t0, t1, t2, t3] = tag.to_be_bytes();
    out.extend_from_slice(&[x, a, version, kind, s0, s1, s2, s3, t0, t1, t2, t3])?;
    Ok(())
}

// Puts the octets of a frame whose body has that size at the end.
fn put_frame(out: &mut Vec<u8>, frame: &Frame, size: usize) -> Result<(), NoMemory>
    requires spelling { HasSpelling frame.now }
    requires size { size ≡ length (body_octets frame.now.body) }
    ensures { OnOk result (out.new.items ≡ out.old.items ++ spelled frame.now) }
{
    put_header(out, kind_octet(&frame.body), size as u32, frame.tag)?;
    put_body(out, &frame.body)
}

/// Puts the octets of a frame at the end. Its data has at most 65,536 octets and its words 255, and the format has a
/// place for all that it holds. Where memory runs out, nothing is said of what stands there.
pub fn append(out: &mut Vec<u8>, frame: &Frame) -> Result<(), NoMemory>
    requires { HasSpelling frame.now }
    ensures { OnOk result (out.new.items ≡ out.old.items ++ spelled frame.now) }
{
    let size = body_len(&frame.body);
    out.reserve(HEADER + size)?;
    put_frame(out, frame, size)
}

/// The same of a RETURN, whose data stays with the caller.
pub fn append_return(
    out: &mut Vec<u8>,
    tag: u32,
    value: Rval,
    code: i32,
    payload: &Data,
) -> Result<(), NoMemory>
    requires { IsData payload.now }
    ensures { OnOk result (out.new.items ≡ out.old.items ++ spelled (record { tag = tag; body = Return value code payload.now })) }
{
    let size = return_len(payload);
    out.reserve(HEADER + size)?;
    put_header(out, RETURN, size as u32, tag)?;
    put_return(out, value, code, payload)
}

/// The same of an INVOKE, whose data stays with the caller.
pub fn append_invoke(
    out: &mut Vec<u8>,
    tag: u32,
    service: &Name,
    routine: &Name,
    mode: Mode,
    payload: &Data,
) -> Result<(), NoMemory>
    requires { IsData payload.now }
    ensures { OnOk result (out.new.items ≡ out.old.items ++ spelled (record { tag = tag; body = Invoke service.now routine.now mode payload.now })) }
{
    let size = invoke_len(service, routine, payload);
    out.reserve(HEADER + size)?;
    put_header(out, INVOKE, size as u32, tag)?;
    put_invoke(out, service, routine, mode, payload)
}

/// The same of a REPLY, which stays with the caller.
pub fn append_reply(out: &mut Vec<u8>, tag: u32, reply: &Reply) -> Result<(), NoMemory>
    requires { IsReply reply.now }
    ensures { OnOk result (out.new.items ≡ out.old.items ++ spelled (record { tag = tag; body = ReplyBody reply.now })) }
{
    let size = reply_len(reply);
    out.reserve(HEADER + size)?;
    put_header(out, REPLY, size as u32, tag)?;
    put_reply(out, reply)
}

/// The same of a REPLY with an answer, which stays with the caller.
pub fn append_answer(
    out: &mut Vec<u8>,
    tag: u32,
    descriptor: u64,
    answer: &Answer,
) -> Result<(), NoMemory>
    requires { IsAnswer answer.now }
    ensures { OnOk result (out.new.items ≡ out.old.items ++ spelled (record { tag = tag; body = ReplyBody (Answered descriptor answer.now) })) }
{
    let size = answered_len(answer);
    out.reserve(HEADER + size)?;
    put_header(out, REPLY, size as u32, tag)?;
    put_answered(out, descriptor, answer)
}

/// The octets of a frame, which is as for `append`.
pub fn encode(alloc: Global, frame: &Frame) -> Result<Octets, NoMemory>
    requires { HasSpelling frame.now }
    ensures { IfOk result (λ octets. octets ≡ spelled frame.now) }
{
    let size = body_len(&frame.body);
    let mut out = Vec::with_capacity(alloc, HEADER + size)?;
    put_frame(&mut out, frame, size)?;
    Ok(Octets::from_vec(out))
}
