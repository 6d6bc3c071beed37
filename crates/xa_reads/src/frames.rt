// Frames, which are read to be measured.
ghost use Rattle.xa_frame.specs.Spelling.{HasSpelling};

use crate::refused::Refused;
use std::alloc::Global;
use std::io::{Read, Write};
use xa_frame::{Frame, NextRefused, Reader, encode};
use xa_types::{NoMemory, Octets};

const PIECE: usize = 65_536;

// More octets than any frame has.
const MOST_PENDING: u32 = 100_000;

/// What is done with the frames.
#[derive(Clone, Copy)]
pub enum Work {
    Copy,
    Read,
    Octets,
}

// Takes the next frame, if it is whole now, and lets go of it.
fn skip(reader: &mut Reader) -> Result<bool, NextRefused> {
    Ok(reader.next()?.is_some())
}

// The octets of the frame, which is let go of.
fn octets_of(alloc: Global, frame: Frame) -> Result<Octets, NoMemory>
    requires { HasSpelling frame }
{
    encode(alloc, &frame)
}

// Counts the frames that are whole now.
fn count(reader: &mut Reader) -> Result<u64, Refused> {
    for frames in 0..u64::MAX {
        if !skip(reader)? {
            return Ok(frames);
        }
    }
    Ok(u64::MAX)
}

// Adds the octets of the frames that are whole now, and counts them.
fn copy(alloc: Global, reader: &mut Reader, out: &mut Vec<u8>) -> Result<u64, Refused> {
    for frames in 0..u64::MAX {
        let Some(frame) = reader.next()? else {
            return Ok(frames);
        };
        let octets = octets_of(alloc, frame)?;
        out.extend_from_slice(octets.slice())?;
    }
    Ok(u64::MAX)
}

// Feeds a piece. What is pending is less than a frame then.
fn feed(reader: &mut Reader, piece: &[u8]) -> Result<(), Refused> {
    if reader.pending() > MOST_PENDING || piece.len() > PIECE {
        return Err(Refused::NoFrame);
    }
    reader.feed(piece)?;
    Ok(())
}

// Takes the next piece, and answers how many frames became whole.
fn take_piece(
    alloc: Global,
    work: Work,
    reader: &mut Reader,
    piece: &[u8],
    out: &mut Vec<u8>,
) -> Result<u64, Refused> {
    match work {
        Work::Copy => {
            feed(reader, piece)?;
            copy(alloc, reader, out)
        }
        Work::Read => {
            feed(reader, piece)?;
            count(reader)
        }
        Work::Octets => {
            let mut frames = 0u64;
            for octet in piece {
                feed(reader, &[*octet])?;
                frames = frames.saturating_add(count(reader)?);
            }
            Ok(frames)
        }
    }
}

/// Reads the frames of the input, and answers how many they are. Copies go to the output.
pub fn read_frames<R: Read, W: Write>(
    alloc: Global,
    work: Work,
    input: &mut R,
    output: &mut W,
) -> Result<u64, Refused> {
    let mut reader = Reader::new(alloc);
    let mut piece = vec![in alloc; 0u8; PIECE]?;
    let mut out = Vec::new(alloc);
    let mut frames = 0u64;
    for _ in 0..u64::MAX {
        let n = input.read(&mut piece)?;
        if n == 0 {
            break;
        }
        let more = take_piece(alloc, work, &mut reader, &piece[..n], &mut out)?;
        frames = frames.saturating_add(more);
        output.write_all(&out)?;
        out.clear();
    }
    if reader.pending() > 0 {
        return Err(Refused::NoFrame);
    }
    Ok(frames)
}
