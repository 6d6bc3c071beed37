// A link in memory.
ghost use Rattle.std.specs.Prelude.{◌≡◌, ◌++◌, [], Some};
ghost use Rattle.xa_link.specs.declared.link.Fate.TheVariants.{Running};

use super::{MemorySink, MemorySource};
use crate::{Closed, Failed, Fate, Link, Sink, Source};
use xa_types::{Generation, Name};

/// The two pipes of a life in memory. It tells all.
#[derive(Drop)]
pub struct MemoryLink {
    source: MemorySource,
    sink: MemorySink,
    whose: Option<(Name, Generation)>,
    fate: Fate,
}

impl MemoryLink {
    ghost use Rattle.xa_link.specs.Memory.{source_left, source_gave, source_faults, sink_took, sink_faults, link_source, link_sink};

    /// What the server writes comes from the source, and what is written to it goes to the sink.
    pub fn new(source: MemorySource, sink: MemorySink) -> MemoryLink
        ensures source { link_source result ≡ source }
        ensures sink { link_sink result ≡ sink }
    {
        MemoryLink {
            source,
            sink,
            whose: None,
            fate: Fate::Running,
        }
    }

    /// The octets that it took.
    pub fn taken(&self) -> &[u8]
        ensures { result.now ≡ sink_took (link_sink self.now) }
    {
        self.sink.taken()
    }

    /// The same octets from the start, as if nothing had been read or written, for that life of the server.
    pub(super) fn begin(&mut self, server: Name, generation: Generation)
        ensures left { source_left (link_source self.new) ≡ source_gave (link_source self.old) ++ source_left (link_source self.old) }
        ensures gave { source_gave (link_source self.new) ≡ [] }
        ensures took { sink_took (link_sink self.new) ≡ [] }
        ensures reads { source_faults (link_source self.new) ≡ 0 }
        ensures writes { sink_faults (link_sink self.new) ≡ 0 }
        ensures whose { self.new.whose ≡ Some (server, generation) }
        ensures runs { self.new.fate ≡ Running }
    {
        self.source.rewind();
        self.sink.rewind();
        self.whose = Some((server, generation));
        self.fate = Fate::Running;
    }
}

impl Source for MemoryLink {
    ghost use Rattle.xa_link.specs.Links.{as_source};
    ghost use Rattle.xa_link.specs.Memory.{link_shows};

    ghost shows = { λ l. as_source (link_shows l) };

    fn read(&mut self, into: &mut [u8]) -> Result<usize, Failed> {
        self.source.read(into)
    }
}

impl Sink for MemoryLink {
    ghost use Rattle.xa_link.specs.Links.{as_sink};
    ghost use Rattle.xa_link.specs.Memory.{link_shows};

    ghost shows = { λ l. as_sink (link_shows l) };

    fn write(&mut self, from: &[u8]) -> Result<usize, Failed> {
        self.sink.write(from)
    }
}

impl Link for MemoryLink {
    ghost use Rattle.std.specs.Prelude.{refl};
    ghost use Rattle.xa_link.specs.Memory.{link_shows};

    ghost shows = { link_shows };

    ghost reads = { λ _. refl };

    ghost writes = { λ _. refl };

    // There is no program to end.
    fn kill(mut self) -> Closed<MemoryLink> {
        self.fate = Fate::Killed;
        Closed::of(self)
    }

    fn close(mut self) -> Closed<MemoryLink> {
        self.fate = Fate::Closed;
        Closed::of(self)
    }
}
