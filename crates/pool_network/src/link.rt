//! A connection to a peer.

ghost use Rattle.std.specs.Prelude.{◌≡◌, ◌<◌, ◌≤◌, length, take, IfOk, OnErr};
ghost use Rattle.pool_io.specs.Outside.{AddsBytes, CountsFailure, IsWithinRoom, TakesTurn, is_failed_put, is_failed_take};
ghost use Rattle.pool_network.specs.Seen.{LinkSeen};

use pool_io::{SinkFailed, Took};

/// Brings a peer's bytes, turn by turn, and takes bytes for it. Neither side changes what is told
/// of the other.
pub trait Link {
    /// What it brings, as a source, and what its peer took, as a sink.
    ghost seen: { Self → LinkSeen };

    /// Takes the next bytes into the buffer. A piece that is longer than the buffer comes in parts.
    fn take(&mut self, buffer: &mut [u8]) -> Took
        requires { 0 < length buffer.old }
        ensures bound { IsWithinRoom result (length buffer.new) }
        ensures turns { TakesTurn (seen self.old).source.left (seen self.new).source.left result
            buffer.new }
        ensures counts { CountsFailure (is_failed_take result) (seen self.old).source.faults
            (seen self.new).source.faults }
        ensures sink { (seen self.new).sink ≡ (seen self.old).sink };

    /// Puts the first bytes of the piece, as many as it answers.
    fn put(&mut self, piece: &[u8]) -> Result<usize, SinkFailed>
        requires { 0 < length piece.now }
        ensures some { IfOk result (λ n. 0 < n) }
        ensures bound { IfOk result (λ n. n ≤ length piece.now) }
        ensures taken { IfOk result (λ n. AddsBytes (seen self.old).sink.held
            (seen self.new).sink.held (take n piece.now)) }
        ensures refused { OnErr result ((seen self.new).sink.held ≡ (seen self.old).sink.held) }
        ensures counts { CountsFailure (is_failed_put result) (seen self.old).sink.faults
            (seen self.new).sink.faults }
        ensures source { (seen self.new).source ≡ (seen self.old).source };

    /// Says that there will be no more turns. What was put before still comes to the peer; what is put
    /// from then on needn't.
    fn hang_up(&mut self)
        ensures { seen self.new ≡ seen self.old };
}
