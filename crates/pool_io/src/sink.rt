//! Where bytes go.

ghost use Rattle.std.specs.Prelude.{◌≡◌, ◌<◌, ◌≤◌, length, take, IfOk, OnErr};
ghost use Rattle.pool_io.specs.Outside.{AddsBytes, CountsFailure, is_failed_put};
ghost use Rattle.pool_io.specs.Seen.{SinkSeen};

use thiserror::Error;

/// Why a sink took nothing.
#[derive(Clone, Copy, Debug, PartialEq, Eq, Error)]
pub enum SinkFailed {
    #[error("the sink failed")]
    Failed,
    #[error("no memory for the sink")]
    Memory,
}

/// Takes a program's bytes, piece by piece: the program brings one, and the sink answers how much
/// of it was taken.
pub trait Sink {
    /// How often the sink has failed (a counter stays at 2^64 - 1 once it is there), and the bytes
    /// that it has taken, where it tells them.
    ghost seen: { Self → SinkSeen };

    /// Puts the first bytes of the piece, as many as it answers.
    fn put(&mut self, piece: &[u8]) -> Result<usize, SinkFailed>
        requires { 0 < length piece.now }
        ensures some { IfOk result (λ n. 0 < n) }
        ensures bound { IfOk result (λ n. n ≤ length piece.now) }
        ensures taken { IfOk result (λ n. AddsBytes (seen self.old).held (seen self.new).held
            (take n piece.now)) }
        ensures refused { OnErr result ((seen self.new).held ≡ (seen self.old).held) }
        ensures counts { CountsFailure (is_failed_put result) (seen self.old).faults
            (seen self.new).faults };
}
