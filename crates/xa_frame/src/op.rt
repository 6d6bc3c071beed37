//! Operations: the calls that a service makes.

ghost use Rattle.std.specs.Prelude.{◌≡◌, ◌≤◌, ◌<◌, ◌^◌, ◌++◌, ◌∷◌, length, OnOk};
ghost use Rattle.xa_types.specs.declared.call.Op.TheVariants as ops;
ghost use Rattle.xa_frame.specs.declared.frame.Body.TheVariants as bodies;
ghost use Rattle.xa_frame.specs.Spelling.{bit, data_octets, op_octets, IsData, IsOp};
ghost use Rattle.xa_frame.specs.Reading.{Reads, Makes, said, flags_at, call_of, acall_of, get_of, get_any_of, cancel_of, connect_of, send_of, receive_of, disconnect_of, priority_of, advertise_of, unadvertise_of, tick_of, op_of};

use crate::choices::{bit, direction_octet, direction_of, flags_octet, flags_of, truth_of};
use crate::fields::{
    NoFrame, ReadError, ended, long_at, number_at, octet_at, put_long, put_word, signed_at,
    word_at, word_len,
};
use crate::frame::Body;
use crate::payload::{data_kind_at, data_kind_len, data_len, data_of, put_data, put_data_kind};
use std::alloc::Global;
use xa_types::{Ask, CallFlags, Data, Direction, Kind, NoMemory, Octets, Op};

fn flags_at(octets: &[u8]) -> Result<(CallFlags, &[u8]), NoFrame>
    ensures { Reads (λ x. (x.0, x.1.now)) result (flags_at octets.now) }
{
    let (flags, rest) = octet_at(octets)?;
    Ok((flags_of(flags)?, rest))
}

#[tactic(auto, unfolding(crate::specs::Reading::call_of))]
fn call_of(alloc: Global, octets: &[u8]) -> Result<Body, ReadError>
    ensures { Makes result (said bodies.Op call_of octets.now) }
{
    let (flags, rest) = flags_at(octets)?;
    let (service, rest) = word_at(rest)?;
    let Ok((expect, rest)) = data_kind_at(rest) else {
        return Err(ReadError::NoFrame);
    };
    let payload = data_of(alloc, rest)?;
    let service = Octets::of(alloc, service)?;
    Ok(Body::Op(Op::Call(Ask {
        service,
        payload,
        flags,
        expect,
        direction: Direction::Neither,
    })))
}

#[tactic(auto, unfolding(crate::specs::Reading::acall_of))]
fn acall_of(alloc: Global, octets: &[u8]) -> Result<Body, ReadError>
    ensures { Makes result (said bodies.Op acall_of octets.now) }
{
    let (flags, rest) = flags_at(octets)?;
    let (service, rest) = word_at(rest)?;
    let payload = data_of(alloc, rest)?;
    let service = Octets::of(alloc, service)?;
    Ok(Body::Op(Op::Acall(Ask {
        service,
        payload,
        flags,
        expect: None,
        direction: Direction::Neither,
    })))
}

#[tactic(auto, unfolding(crate::specs::Reading::get_of))]
fn get_of(octets: &[u8]) -> Result<Body, ReadError>
    ensures { Makes result (said bodies.Op get_of octets.now) }
{
    let (flags, rest) = flags_at(octets)?;
    let (descriptor, rest) = long_at(rest)?;
    let Ok((expect, rest)) = data_kind_at(rest) else {
        return Err(ReadError::NoFrame);
    };
    ended(rest)?;
    Ok(Body::Op(Op::Get(descriptor, flags, expect)))
}

#[tactic(auto, unfolding(crate::specs::Reading::get_any_of))]
fn get_any_of(octets: &[u8]) -> Result<Body, ReadError>
    ensures { Makes result (said bodies.Op get_any_of octets.now) }
{
    let (flags, rest) = flags_at(octets)?;
    let Ok((expect, rest)) = data_kind_at(rest) else {
        return Err(ReadError::NoFrame);
    };
    ended(rest)?;
    Ok(Body::Op(Op::GetAny(flags, expect)))
}

#[tactic(auto, unfolding(crate::specs::Reading::cancel_of))]
fn cancel_of(octets: &[u8]) -> Result<Body, ReadError>
    ensures { Makes result (said bodies.Op cancel_of octets.now) }
{
    let (descriptor, rest) = long_at(octets)?;
    ended(rest)?;
    Ok(Body::Op(Op::Cancel(descriptor)))
}

#[tactic(auto, unfolding(crate::specs::Reading::connect_of))]
fn connect_of(alloc: Global, octets: &[u8]) -> Result<Body, ReadError>
    ensures { Makes result (said bodies.Op connect_of octets.now) }
{
    let (flags, rest) = flags_at(octets)?;
    let (direction, rest) = octet_at(rest)?;
    let direction = direction_of(direction)?;
    let (service, rest) = word_at(rest)?;
    let payload = data_of(alloc, rest)?;
    let service = Octets::of(alloc, service)?;
    Ok(Body::Op(Op::Connect(Ask {
        service,
        payload,
        flags,
        expect: None,
        direction,
    })))
}

#[tactic(auto, unfolding(crate::specs::Reading::send_of))]
fn send_of(alloc: Global, octets: &[u8]) -> Result<Body, ReadError>
    ensures { Makes result (said bodies.Op send_of octets.now) }
{
    let (flags, rest) = flags_at(octets)?;
    let (descriptor, rest) = long_at(rest)?;
    let (recv_only, rest) = octet_at(rest)?;
    let recv_only = truth_of(recv_only)?;
    let payload = data_of(alloc, rest)?;
    Ok(Body::Op(Op::Send(descriptor, flags, recv_only, payload)))
}

#[tactic(auto, unfolding(crate::specs::Reading::receive_of))]
fn receive_of(octets: &[u8]) -> Result<Body, ReadError>
    ensures { Makes result (said bodies.Op receive_of octets.now) }
{
    let (flags, rest) = flags_at(octets)?;
    let (descriptor, rest) = long_at(rest)?;
    ended(rest)?;
    Ok(Body::Op(Op::Receive(descriptor, flags)))
}

#[tactic(auto, unfolding(crate::specs::Reading::disconnect_of))]
fn disconnect_of(octets: &[u8]) -> Result<Body, ReadError>
    ensures { Makes result (said bodies.Op disconnect_of octets.now) }
{
    let (descriptor, rest) = long_at(octets)?;
    ended(rest)?;
    Ok(Body::Op(Op::Disconnect(descriptor)))
}

#[tactic(auto, unfolding(crate::specs::Reading::priority_of))]
fn priority_of(octets: &[u8]) -> Result<Body, ReadError>
    ensures { Makes result (said bodies.Op priority_of octets.now) }
{
    let (absolute, rest) = octet_at(octets)?;
    let absolute = truth_of(absolute)?;
    let (amount, rest) = signed_at(rest)?;
    ended(rest)?;
    Ok(Body::Op(Op::Priority(absolute, amount)))
}

#[tactic(auto, unfolding(crate::specs::Reading::advertise_of))]
fn advertise_of(alloc: Global, octets: &[u8]) -> Result<Body, ReadError>
    ensures { Makes result (said bodies.Op advertise_of octets.now) }
{
    let (service, rest) = word_at(octets)?;
    let (routine, rest) = word_at(rest)?;
    ended(rest)?;
    let service = Octets::of(alloc, service)?;
    let routine = Octets::of(alloc, routine)?;
    Ok(Body::Op(Op::Advertise(service, routine)))
}

#[tactic(auto, unfolding(crate::specs::Reading::unadvertise_of))]
fn unadvertise_of(alloc: Global, octets: &[u8]) -> Result<Body, ReadError>
    ensures { Makes result (said bodies.Op unadvertise_of octets.now) }
{
    let (service, rest) = word_at(octets)?;
    ended(rest)?;
    Ok(Body::Op(Op::Unadvertise(Octets::of(alloc, service)?)))
}

#[tactic(auto, unfolding(crate::specs::Reading::tick_of))]
fn tick_of(octets: &[u8]) -> Result<Body, ReadError>
    ensures { Makes result (said bodies.Op tick_of octets.now) }
{
    let (ticks, rest) = number_at(octets)?;
    ended(rest)?;
    Ok(Body::Op(Op::Tick(ticks)))
}

/// The OP whose operation all of the octets are.
#[tactic(auto, unfolding(crate::specs::Reading::op_of))]
#[inline(never)]
pub fn op_of(alloc: Global, octets: &[u8]) -> Result<Body, ReadError>
    ensures { Makes result (said bodies.Op op_of octets.now) }
{
    let (code, rest) = octet_at(octets)?;
    match code {
        1 => call_of(alloc, rest),
        2 => acall_of(alloc, rest),
        3 => get_of(rest),
        4 => get_any_of(rest),
        5 => cancel_of(rest),
        6 => connect_of(alloc, rest),
        7 => send_of(alloc, rest),
        8 => receive_of(rest),
        9 => disconnect_of(rest),
        10 => priority_of(rest),
        11 => advertise_of(alloc, rest),
        12 => unadvertise_of(alloc, rest),
        13 => tick_of(rest),
        _ => Err(ReadError::NoFrame),
    }
}

/// How many octets the operation has.
pub fn op_len(op: &Op) -> usize
    requires { IsOp op.now }
    ensures length { result ≡ length (op_octets op.now) }
    ensures few { result ≤ 66_000 }
{
    match op {
        Op::Call(ask) => 2
            + word_len(ask.service.slice())
            + data_kind_len(&ask.expect)
            + data_len(&ask.payload),
        Op::Acall(ask) => 2 + word_len(ask.service.slice()) + data_len(&ask.payload),
        Op::Get(_, _, expect) => 10 + data_kind_len(expect),
        Op::GetAny(_, expect) => 2 + data_kind_len(expect),
        Op::Connect(ask) => 3 + word_len(ask.service.slice()) + data_len(&ask.payload),
        Op::Send(_, _, _, payload) => 11 + data_len(payload),
        Op::Receive(..) => 10,
        Op::Cancel(_) | Op::Disconnect(_) => 9,
        Op::Priority(..) => 6,
        Op::Advertise(service, routine) => 1
            + word_len(service.slice())
            + word_len(routine.slice()),
        Op::Unadvertise(service) => 1 + word_len(service.slice()),
        Op::Tick(_) => 5,
    }
}

fn put_call(out: &mut Vec<u8>, ask: &Ask) -> Result<(), NoMemory>
    requires { IsOp (ops.Call ask.now) }
    ensures { OnOk result (out.new.items ≡ out.old.items ++ op_octets (ops.Call ask.now)) }
{
    out.extend_from_slice(&[1, flags_octet(ask.flags)])?;
    put_word(out, ask.service.slice())?;
    put_data_kind(out, &ask.expect)?;
    put_data(out, &ask.payload)
}

fn put_acall(out: &mut Vec<u8>, ask: &Ask) -> Result<(), NoMemory>
    requires { IsOp (ops.Acall ask.now) }
    ensures { OnOk result (out.new.items ≡ out.old.items ++ op_octets (ops.Acall ask.now)) }
{
    out.extend_from_slice(&[2, flags_octet(ask.flags)])?;
    put_word(out, ask.service.slice())?;
    put_data(out, &ask.payload)
}

fn put_get(
    out: &mut Vec<u8>,
    descriptor: u64,
    flags: CallFlags,
    expect: &Option<Kind>,
) -> Result<(), NoMemory>
    requires { IsOp (ops.Get descriptor flags expect.now) }
    ensures { OnOk result (out.new.items ≡ out.old.items ++ op_octets (ops.Get descriptor flags expect.now)) }
{
    out.extend_from_slice(&[3, flags_octet(flags)])?;
    out.extend_from_slice(&descriptor.to_be_bytes())?;
    put_data_kind(out, expect)
}

fn put_get_any(out: &mut Vec<u8>, flags: CallFlags, expect: &Option<Kind>) -> Result<(), NoMemory>
    requires { IsOp (ops.GetAny flags expect.now) }
    ensures { OnOk result (out.new.items ≡ out.old.items ++ op_octets (ops.GetAny flags expect.now)) }
{
    out.extend_from_slice(&[4, flags_octet(flags)])?;
    put_data_kind(out, expect)
}

fn put_connect(out: &mut Vec<u8>, ask: &Ask) -> Result<(), NoMemory>
    requires { IsOp (ops.Connect ask.now) }
    ensures { OnOk result (out.new.items ≡ out.old.items ++ op_octets (ops.Connect ask.now)) }
{
    out.extend_from_slice(&[6, flags_octet(ask.flags), direction_octet(ask.direction)])?;
    put_word(out, ask.service.slice())?;
    put_data(out, &ask.payload)
}

// Puts whether control passes with the data, and the data, at the end.
fn put_passing(out: &mut Vec<u8>, recv_only: bool, payload: &Data) -> Result<(), NoMemory>
    requires { IsData payload.now }
    ensures { OnOk result (out.new.items ≡ out.old.items ++ bit recv_only ∷ data_octets payload.now) }
{
    out.push(bit(recv_only))?;
    put_data(out, payload)
}

fn put_send(
    out: &mut Vec<u8>,
    descriptor: u64,
    flags: CallFlags,
    recv_only: bool,
    payload: &Data,
) -> Result<(), NoMemory>
    requires { IsOp (ops.Send descriptor flags recv_only payload.now) }
    ensures { OnOk result (out.new.items ≡ out.old.items ++ op_octets (ops.Send descriptor flags recv_only payload.now)) }
{
    out.extend_from_slice(&[7, flags_octet(flags)])?;
    out.extend_from_slice(&descriptor.to_be_bytes())?;
    put_passing(out, recv_only, payload)
}

fn put_receive(out: &mut Vec<u8>, descriptor: u64, flags: CallFlags) -> Result<(), NoMemory>
    ensures { OnOk result (out.new.items ≡ out.old.items ++ op_octets (ops.Receive descriptor flags)) }
{
    out.extend_from_slice(&[8, flags_octet(flags)])?;
    out.extend_from_slice(&descriptor.to_be_bytes())?;
    Ok(())
}

fn put_priority(out: &mut Vec<u8>, absolute: bool, amount: i32) -> Result<(), NoMemory>
    ensures { OnOk result (out.new.items ≡ out.old.items ++ op_octets (ops.Priority absolute amount)) }
{
    out.extend_from_slice(&[10, bit(absolute)])?;
    out.extend_from_slice(&amount.to_be_bytes())?;
    Ok(())
}

fn put_advertise(out: &mut Vec<u8>, service: &Octets, routine: &Octets) -> Result<(), NoMemory>
    requires { IsOp (ops.Advertise service.now routine.now) }
    ensures { OnOk result (out.new.items ≡ out.old.items ++ op_octets (ops.Advertise service.now routine.now)) }
{
    out.push(11)?;
    put_word(out, service.slice())?;
    put_word(out, routine.slice())
}

fn put_unadvertise(out: &mut Vec<u8>, service: &Octets) -> Result<(), NoMemory>
    requires { IsOp (ops.Unadvertise service.now) }
    ensures { OnOk result (out.new.items ≡ out.old.items ++ op_octets (ops.Unadvertise service.now)) }
{
    out.push(12)?;
    put_word(out, service.slice())
}

fn put_tick(out: &mut Vec<u8>, ticks: u32) -> Result<(), NoMemory>
    ensures { OnOk result (out.new.items ≡ out.old.items ++ op_octets (ops.Tick ticks)) }
{
    out.push(13)?;
    out.extend_from_slice(&ticks.to_be_bytes())?;
    Ok(())
}

/// Puts the operation at the end.
pub fn put_op(out: &mut Vec<u8>, op: &Op) -> Result<(), NoMemory>
    requires { IsOp op.now }
    ensures { OnOk result (out.new.items ≡ out.old.items ++ op_octets op.now) }
{
    match op {
        Op::Call(ask) => put_call(out, ask),
        Op::Acall(ask) => put_acall(out, ask),
        Op::Get(descriptor, flags, expect) => put_get(out, *descriptor, *flags, expect),
        Op::GetAny(flags, expect) => put_get_any(out, *flags, expect),
        Op::Cancel(descriptor) => put_long(out, 5, *descriptor),
        Op::Connect(ask) => put_connect(out, ask),
        Op::Send(descriptor, flags, recv_only, payload) => put_send(
            out,
            *descriptor,
            *flags,
            *recv_only,
            payload,
        ),
        Op::Receive(descriptor, flags) => put_receive(out, *descriptor, *flags),
        Op::Disconnect(descriptor) => put_long(out, 9, *descriptor),
        Op::Priority(absolute, amount) => put_priority(out, *absolute, *amount),
        Op::Advertise(service, routine) => put_advertise(out, service, routine),
        Op::Unadvertise(service) => put_unadvertise(out, service),
        Op::Tick(ticks) => put_tick(out, *ticks),
    }
}
