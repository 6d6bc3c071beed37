// Where octets go.
ghost use Rattle.std.specs.Prelude.{◌⊎◌, ◌≡◌, ◌≤◌, ◌<◌, ◌+◌, [], take, drop, length, IfOk, OnOk, OnErr, IsErr};
ghost use Rattle.xa_link.specs.Links.{SinkShows};
ghost use Rattle.xa_link.specs.Told.{Rose, Grew, GrewByPart};

use crate::Failed;

/// Takes octets, such as a pipe's end or standard output.
pub trait Sink {
    /// What it shows. Its count stands still at 2^64 - 1.
    ghost shows: { Self → SinkShows };

    /// Takes octets off the front of the piece, and answers how many. Where it fails, it took none.
    fn write(&mut self, from: &[u8]) -> Result<usize, Failed>
        ensures bound { IfOk result (λ n. n ≤ length from.now) }
        ensures taken { IfOk result (λ n. Grew (shows self.old).took (shows self.new).took (take n from.now)) }
        ensures same { OnErr result ((shows self.new).took ≡ (shows self.old).took) }

        ensures alone { (shows self.new).beside ≡ (shows self.old).beside }
        ensures later { (shows self.old).faults ≤ (shows self.new).faults }
        ensures cause { IsErr result → Rose (shows self.old).faults (shows self.new).faults }
        ensures nothing { result ≡ Ok 0 → 0 < length from.now → Rose (shows self.old).faults (shows self.new).faults }
        ensures quiet { IfOk result (λ n. (0 < n) ⊎ (from.now ≡ []) → (shows self.new).faults ≡ (shows self.old).faults) };
}

/// Writes the whole piece, in as many writes as that takes. Where one of them fails or takes nothing, it fails, and
/// the sink took a prefix of the piece that is not all of it.
pub fn put<K: Sink>(sink: &mut K, piece: &[u8]) -> Result<(), Failed>
    ensures whole { OnOk result (Grew (K.shows sink.old).took (K.shows sink.new).took piece.now) }
    ensures part { OnErr result (GrewByPart (K.shows sink.old).took (K.shows sink.new).took piece.now) }

    ensures alone { (K.shows sink.new).beside ≡ (K.shows sink.old).beside }
    ensures later { (K.shows sink.old).faults ≤ (K.shows sink.new).faults }
    ensures cause { IsErr result → Rose (K.shows sink.old).faults (K.shows sink.new).faults }
    ensures quiet { OnOk result ((K.shows sink.new).faults ≡ (K.shows sink.old).faults) }
{
    let mut at = 0;
    while at < piece.len() {
        at += put_some(sink, piece, at)?;
    }
    Ok(())
}

// Writes some octets from `at` on, at least one.
fn put_some<K: Sink>(sink: &mut K, piece: &[u8], at: usize) -> Result<usize, Failed>
    requires { at < length piece.now }
    ensures room { IfOk result (λ n. at + n ≤ length piece.now) }
    ensures moves { IfOk result (λ n. 0 < n) }
    ensures taken { IfOk result (λ n. Grew (K.shows sink.old).took (K.shows sink.new).took (take n (drop at piece.now))) }
    ensures same { OnErr result (Grew (K.shows sink.old).took (K.shows sink.new).took []) }

    ensures alone { (K.shows sink.new).beside ≡ (K.shows sink.old).beside }
    ensures later { (K.shows sink.old).faults ≤ (K.shows sink.new).faults }
    ensures cause { IsErr result → Rose (K.shows sink.old).faults (K.shows sink.new).faults }
    ensures quiet { OnOk result ((K.shows sink.new).faults ≡ (K.shows sink.old).faults) }
{
    let n = sink.write(&piece[at..])?;
    if n == 0 {
        return Err(Failed);
    }
    Ok(n)
}
