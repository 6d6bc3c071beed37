//! The body of a frame, and the frame that stands first.

ghost use Rattle.std.specs.Prelude.{◌≡◌, ◌≤◌, ◌+◌, length, drop, IfErr};
ghost use Rattle.xa_frame.specs.declared.fields.ReadError.TheVariants as errors;
ghost use Rattle.xa_frame.specs.declared.frame.Body.TheVariants.{Ready, Next, Shutdown};
ghost use Rattle.xa_frame.specs.Reading.{Makes, Stands, StandsFirst, last, name_at, nothing, said, return_of, forward_of, invoke_of, body_of, front_at};

use crate::choices::{mode_of, rval_of};
use crate::fields::{ReadError, ended, name_of, octet_at, signed_at, word_at};
use crate::frame::{Body, Frame};
use crate::header::{FrameKind, HEADER, header_at};
use crate::op::op_of;
use crate::payload::data_of;
use crate::reader::NextRefused;
use crate::reply::reply_of;
use std::alloc::Global;
use xa_types::Octets;

#[tactic(auto, unfolding(crate::specs::Reading::name_at))]
#[inline(never)]
fn ready_of(octets: &[u8]) -> Result<Body, ReadError>
    ensures body { Makes result (said Ready (last name_at) octets.now) }
    ensures why { IfErr result (λ why. why ≡ errors.NoFrame) }
{
    let (name, rest) = word_at(octets)?;
    let name = name_of(name)?;
    ended(rest)?;
    Ok(Body::Ready(name))
}

#[tactic(auto, unfolding(crate::specs::Reading::return_of))]
#[inline(never)]
fn return_of(alloc: Global, octets: &[u8]) -> Result<Body, ReadError>
    ensures { Makes result (return_of octets.now) }
{
    let (value, rest) = octet_at(octets)?;
    let value = rval_of(value)?;
    let (code, rest) = signed_at(rest)?;
    let payload = data_of(alloc, rest)?;
    Ok(Body::Return(value, code, payload))
}

#[tactic(auto, unfolding(crate::specs::Reading::forward_of))]
#[inline(never)]
fn forward_of(alloc: Global, octets: &[u8]) -> Result<Body, ReadError>
    ensures { Makes result (forward_of octets.now) }
{
    let (service, rest) = word_at(octets)?;
    let payload = data_of(alloc, rest)?;
    let service = Octets::of(alloc, service)?;
    Ok(Body::Forward(service, payload))
}

#[tactic(auto, unfolding(crate::specs::Reading::invoke_of, crate::specs::Reading::name_at))]
#[inline(never)]
fn invoke_of(alloc: Global, octets: &[u8]) -> Result<Body, ReadError>
    ensures { Makes result (invoke_of octets.now) }
{
    let (service, rest) = word_at(octets)?;
    let service = name_of(service)?;
    let (routine, rest) = word_at(rest)?;
    let routine = name_of(routine)?;
    let (mode, rest) = octet_at(rest)?;
    let mode = mode_of(mode)?;
    let payload = data_of(alloc, rest)?;
    Ok(Body::Invoke(service, routine, mode, payload))
}

#[inline(never)]
fn next_of(octets: &[u8]) -> Result<Body, ReadError>
    ensures body { Makes result (said (λ _. Next) nothing octets.now) }
    ensures why { IfErr result (λ why. why ≡ errors.NoFrame) }
{
    ended(octets)?;
    Ok(Body::Next)
}

#[inline(never)]
fn shutdown_of(octets: &[u8]) -> Result<Body, ReadError>
    ensures body { Makes result (said (λ _. Shutdown) nothing octets.now) }
    ensures why { IfErr result (λ why. why ≡ errors.NoFrame) }
{
    ended(octets)?;
    Ok(Body::Shutdown)
}

/// The body of that kind that all of the octets are.
fn body_of(alloc: Global, kind: FrameKind, octets: &[u8]) -> Result<Body, ReadError>
    ensures { Makes result (body_of kind octets.now) }
{
    match kind {
        FrameKind::Ready => ready_of(octets),
        FrameKind::Next => next_of(octets),
        FrameKind::Op => op_of(alloc, octets),
        FrameKind::Return => return_of(alloc, octets),
        FrameKind::Forward => forward_of(alloc, octets),
        FrameKind::Invoke => invoke_of(alloc, octets),
        FrameKind::Reply => reply_of(alloc, octets),
        FrameKind::Shutdown => shutdown_of(octets),
    }
}

/// The frame that stands first, and in `size` how many octets it has; `None` where more octets are to come. What is no
/// frame stands at that place. Each wrapping of a frame copies it, so its size comes beside it, and it is answered as
/// the reader answers it; what is refused leaves first, since a frame is copied where the ways of a `match` join.
#[tactic(auto, unfolding(crate::specs::Reading::front_at))]
#[inline(never)]
fn front_at(
    alloc: Global,
    octets: &[u8],
    place: u64,
    size: &mut usize,
) -> Result<Option<Frame>, NextRefused>
    ensures { Stands place size.new result (front_at octets.now) }
{
    *size = 0;
    if octets.len() < HEADER {
        return Ok(None);
    }
    let Ok((header, rest)) = header_at(octets) else {
        return Err(NextRefused::BadFrame(place));
    };
    let body_size = header.size as usize;
    if rest.len() < body_size {
        return Ok(None);
    }
    let (octets, _) = rest.split_at(body_size);
    let body = match body_of(alloc, header.kind, octets) {
        Ok(body) => body,
        Err(ReadError::NoFrame) => return Err(NextRefused::BadFrame(place)),
        Err(ReadError::NoMemory) => return Err(NextRefused::NoMemory),
    };
    *size = HEADER + body_size;
    Ok(Some(Frame {
        tag: header.tag,
        body,
    }))
}

/// The same of the octets after so many.
pub fn frame_after(
    alloc: Global,
    octets: &[u8],
    taken: usize,
    place: u64,
    size: &mut usize,
) -> Result<Option<Frame>, NextRefused>
    requires { taken ≤ length octets.now }
    ensures first { StandsFirst (drop taken octets.now) place size.new result }
    ensures within { taken + size.new ≤ length octets.now }
{
    let (_, rest) = octets.split_at(taken);
    front_at(alloc, rest, place, size)
}
