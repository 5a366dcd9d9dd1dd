//! A source and a sink as one connection.

use crate::link::Link;
use pool_io::{Sink, SinkFailed, Source, Took};

/// What comes from the source and goes to the sink. Both are its fields, so that they can be taken
/// back.
pub struct Streams<S: Source, T: Sink> {
    pub source: S,
    pub sink: T,
}

impl<S: Source, T: Sink> Link for Streams<S, T> {
    ghost seen = { λ streams. record {
      source = S.seen streams.source;
      sink = T.seen streams.sink;
    } };

    fn take(&mut self, buffer: &mut [u8]) -> Took {
        self.source.take(buffer)
    }

    fn put(&mut self, piece: &[u8]) -> Result<usize, SinkFailed> {
        self.sink.put(piece)
    }

    fn hang_up(&mut self) {}
}
