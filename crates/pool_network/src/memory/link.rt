//! A link in memory.

ghost use Rattle.std.specs.Prelude.{◌≡◌, Some};
ghost use Rattle.pool_io.specs.Memory.{sink_seen};

use crate::Link;
use pool_io::{MemSink, MemSource, Sink, SinkFailed, Source, Took};

/// Brings what its source does, and holds what its sink does.
#[derive(Drop)]
pub struct MemLink {
    source: MemSource,
    sink: MemSink,
}

impl MemLink {
    pub fn new(source: MemSource, sink: MemSink) -> MemLink
        ensures { result ≡ record { source = source; sink = sink } }
    {
        MemLink { source, sink }
    }

    /// The bytes that its peer has taken.
    pub fn bytes(&self) -> &[u8]
        ensures { Some result.now ≡ (sink_seen self.now.sink).held }
    {
        self.sink.bytes()
    }
}

impl Link for MemLink {
    ghost use Rattle.pool_network.specs.MemoryLinks.{link_seen};

    ghost seen = { link_seen };

    fn take(&mut self, buffer: &mut [u8]) -> Took {
        self.source.take(buffer)
    }

    fn put(&mut self, piece: &[u8]) -> Result<usize, SinkFailed> {
        self.sink.put(piece)
    }

    fn hang_up(&mut self) {}
}
