ghost use Rattle.std.specs.Prelude.{◌≡◌};
ghost use Rattle.xa_frame.specs.Reading.{Reads, kind_of, most_octets, after_mark, header_at};

use crate::fields::{NoFrame, number_at, octet_at};

/// How many octets a header has.
pub const HEADER: usize = 12;

/// The octets with which each frame begins, of which the last is the version.
pub const MARK: [u8; 3] = [0x58, 0x41, 0x01];

/// The kind of a frame.
#[derive(Clone, Copy)]
pub enum FrameKind {
    Ready,
    Next,
    Op,
    Return,
    Forward,
    Invoke,
    Reply,
    Shutdown,
}

/// A header: the kind, how many octets the body has, and the tag.
#[derive(Clone, Copy)]
pub struct Header {
    pub kind: FrameKind,
    pub size: u32,
    pub tag: u32,
}

fn kind_of(octet: u8) -> Result<FrameKind, NoFrame>
    ensures { Reads (λ x. x) result (kind_of octet) }
{
    match octet {
        0x01 => Ok(FrameKind::Ready),
        0x02 => Ok(FrameKind::Next),
        0x03 => Ok(FrameKind::Op),
        0x04 => Ok(FrameKind::Return),
        0x05 => Ok(FrameKind::Forward),
        0x11 => Ok(FrameKind::Invoke),
        0x12 => Ok(FrameKind::Reply),
        0x13 => Ok(FrameKind::Shutdown),
        _ => Err(NoFrame),
    }
}

fn most_octets(kind: FrameKind) -> u32
    ensures { result ≡ most_octets kind }
{
    match kind {
        FrameKind::Next | FrameKind::Shutdown => 0,
        FrameKind::Ready
        | FrameKind::Op
        | FrameKind::Return
        | FrameKind::Forward
        | FrameKind::Invoke
        | FrameKind::Reply => 66_000,
    }
}

/// The octets after the mark and the version.
#[tactic(auto, unfolding(crate::specs::Reading::after_mark))]
fn after_mark(octets: &[u8]) -> Result<&[u8], NoFrame>
    ensures { Reads (λ x. x.now) result (after_mark octets.now) }
{
    let (x, rest) = octet_at(octets)?;
    let (a, rest) = octet_at(rest)?;
    let (version, rest) = octet_at(rest)?;
    if [x, a, version] != MARK {
        return Err(NoFrame);
    }
    Ok(rest)
}

/// The header that stands first, and the octets after it.
#[tactic(auto, unfolding(crate::specs::Reading::header_at))]
pub fn header_at(octets: &[u8]) -> Result<(Header, &[u8]), NoFrame>
    ensures { Reads (λ x. (x.0, x.1.now)) result (header_at octets.now) }
{
    let rest = after_mark(octets)?;
    let (kind, rest) = octet_at(rest)?;
    let kind = kind_of(kind)?;
    let (size, rest) = number_at(rest)?;
    let (tag, rest) = number_at(rest)?;
    if size > most_octets(kind) {
        return Err(NoFrame);
    }
    Ok((Header { kind, size, tag }, rest))
}
