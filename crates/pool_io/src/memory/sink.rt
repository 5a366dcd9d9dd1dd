//! Sinks in memory.

ghost use Rattle.std.specs.Prelude.{◌≡◌};

use super::failing::FailingCalls;
use crate::{Sink, SinkFailed};
use std::marker::Model;

/// Holds what was put. It never fails but for lack of memory.
#[derive(Drop)]
pub struct SureSink {
    bytes: Vec<u8>,
}

impl Model for SureSink {
    ghost use Rattle.std.specs.Prelude.{ℕ, List};

    ghost Value = { List ℕ };

    ghost view = { λ s. s.bytes.items };
}

impl SureSink {
    /// A sink that holds these bytes already.
    pub fn of(bytes: Vec<u8>) -> SureSink
        ensures { result ≡ bytes.items }
    {
        SureSink { bytes }
    }

    pub fn bytes(&self) -> &[u8]
        ensures { result.now ≡ self.now }
    {
        &self.bytes
    }

    pub fn into_bytes(self) -> Vec<u8>
        ensures { result.items ≡ self }
    {
        self.bytes
    }
}

impl Sink for SureSink {
    ghost use Rattle.std.specs.Prelude.{Some};

    ghost seen = { λ s. record { faults = 0; held = Some s } };

    fn put(&mut self, piece: &[u8]) -> Result<usize, SinkFailed> {
        match self.bytes.extend_from_slice(piece) {
            Ok(()) => Ok(piece.len()),
            Err(_) => Err(SinkFailed::Memory),
        }
    }
}

/// Holds what was put, and fails at the calls whose numbers are listed, the first call being number
/// 0.
#[derive(Drop)]
pub struct MemSink {
    sink: SureSink,
    failing: FailingCalls,
}

impl MemSink {
    ghost use Rattle.std.specs.Prelude.{Some};
    ghost use Rattle.pool_io.specs.Memory.{sink_seen};

    /// A sink that holds these bytes already.
    pub fn new(bytes: Vec<u8>, failing: Vec<u64>) -> MemSink
        ensures { sink_seen result ≡ record { faults = 0; held = Some bytes.items } }
    {
        MemSink {
            sink: SureSink::of(bytes),
            failing: FailingCalls::of(failing),
        }
    }

    pub fn bytes(&self) -> &[u8]
        ensures { Some result.now ≡ (sink_seen self.now).held }
    {
        self.sink.bytes()
    }
}

impl Sink for MemSink {
    ghost use Rattle.pool_io.specs.Memory.{sink_seen};

    ghost seen = { sink_seen };

    fn put(&mut self, piece: &[u8]) -> Result<usize, SinkFailed> {
        if self.failing.next_fails() {
            return Err(SinkFailed::Failed);
        }
        self.sink.put(piece)
    }
}
