//! Sources, sinks, links and setups in memory, as the tables of the trials tell them.
ghost use Rattle.std.specs.Prelude.{◌≡◌, ◌<◌, [], IfSome, true};
ghost use Rattle.xa_types.specs.Configured.{is_configured};
ghost use Rattle.xa_link.specs.Memory.{source_gave, sink_took, link_source, link_sink};

use std::alloc::Global;
use xa_link::{MemoryLink, MemorySink, MemorySource, Source};
use xa_types::{Octets, Setup};

/// What a server's program is asked: INVOKE of the service and the routine ECHO with hello, and SHUTDOWN.
pub const ASKED: &[u8] = b"XA\x01\x11\0\0\0\x15\0\0\0\x01\x04ECHO\x04ECHO\0\x01\0\0\0\x05hello\
    XA\x01\x13\0\0\0\0\0\0\0\0";

/// What it says: READY of the server S, NEXT, RETURN of success with code 0 and hello, and NEXT.
pub const SAID: &[u8] = b"XA\x01\x01\0\0\0\x02\0\0\0\0\x01S\
    XA\x01\x02\0\0\0\0\0\0\0\0\
    XA\x01\x04\0\0\0\x0f\0\0\0\x01\0\0\0\0\0\x01\0\0\0\x05hello\
    XA\x01\x02\0\0\0\0\0\0\0\0";

/// The setup of a configuration, where it is read.
pub fn setup_of(alloc: Global, configuration: &[u8]) -> Option<Setup>
    ensures configured { IfSome result (λ setup. is_configured setup ≡ true) }
{
    xa_config::read(alloc, configuration).ok()
}

/// These pieces, one behind the other.
pub fn joined(alloc: Global, pieces: &[&[u8]]) -> Option<Vec<u8>> {
    let mut octets = Vec::new(alloc);
    let mut is_whole = true;
    for piece in pieces {
        is_whole &= octets.extend_from_slice(piece).is_ok();
    }
    is_whole.then_some(octets)
}

/// The source of these octets, of which the read with that number fails, and which gives at most so many; reads are
/// counted from 1.
pub fn source_of(alloc: Global, octets: &[u8], fails: u64, most: u32) -> Option<MemorySource>
    requires { 0 < most }
    ensures gave { IfSome result (λ source. source_gave source ≡ []) }
{
    let fails = Vec::from_slice(alloc, &[fails]).ok()?;
    Some(MemorySource::new(Octets::of(alloc, octets).ok()?, fails, most))
}

/// A sink of which the write with the first number fails, that with the second takes nothing, and the others take at most
/// so many octets.
pub fn sink_of(alloc: Global, fails: u64, idle: u64, most: u32) -> Option<MemorySink>
    requires { 0 < most }
    ensures took { IfSome result (λ sink. sink_took sink ≡ []) }
{
    let fails = Vec::from_slice(alloc, &[fails]).ok()?;
    Some(MemorySink::new(alloc, fails, Vec::from_slice(alloc, &[idle]).ok()?, most))
}

/// A link of both, with the numbers of the read and the write that fail and of the write that takes nothing.
pub fn link_of(alloc: Global, octets: &[u8], faults: [u64; 3], most: u32) -> Option<MemoryLink>
    requires { 0 < most }
    ensures gave { IfSome result (λ link. source_gave (link_source link) ≡ []) }
    ensures took { IfSome result (λ link. sink_took (link_sink link) ≡ []) }
{
    let [reads, writes, idle] = faults;
    let source = source_of(alloc, octets, reads, most)?;
    Some(MemoryLink::new(source, sink_of(alloc, writes, idle, most)?))
}

// Whether a read of 100 octets gives these, or fails where there are none.
fn gives_one<S: Source>(source: &mut S, want: Option<&[u8]>) -> bool {
    let mut piece = [0u8; 100];
    match source.read(&mut piece) {
        Ok(n) => want == Some(&piece[..n]),
        Err(_) => want.is_none(),
    }
}

/// Whether reads of 100 octets give these, and fail where a `None` stands.
pub fn gives<S: Source>(source: &mut S, want: &[Option<&[u8]>]) -> bool {
    let mut given = true;
    for octets in want {
        given &= gives_one(source, *octets);
    }
    given
}
