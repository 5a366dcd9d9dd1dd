//! An end that is told when it has heard enough.

use crate::pair_link::PairLink;
use pool_io::{SinkFailed, Took};
use pool_network::Link;
use std::sync::Wait;

/// An end whose input ends once so many bytes came. A feed and the session that serves it each go on
/// until the other one leaves, so one of them has to be told when all has been said.
#[derive(Drop)]
pub(crate) struct CountedLink<R: Wait> {
    pub(crate) link: PairLink<R>,
    /// How many bytes are still taken.
    pub(crate) left: usize,
}

impl<R: Wait> Link for CountedLink<R> {
    ghost use Rattle.std.specs.Prelude.{None};

    ghost seen = { λ _. record {
      source = record { faults = 0; left = None };
      sink = record { faults = 0; held = None };
    } };

    fn take(&mut self, buffer: &mut [u8]) -> Took {
        let room = buffer.len().min(self.left);
        if room == 0 {
            return Took::End;
        }
        let took = self.link.take(&mut buffer[..room]);
        if let Took::Bytes(count) = took {
            self.left -= count;
        }
        took
    }

    fn put(&mut self, piece: &[u8]) -> Result<usize, SinkFailed> {
        self.link.put(piece)
    }

    fn hang_up(&mut self) {
        self.link.hang_up();
    }
}
