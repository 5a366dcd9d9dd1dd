//! Where bytes come from.

ghost use Rattle.std.specs.Prelude.{◌<◌, length};
ghost use Rattle.pool_io.specs.Outside.{IsWithinRoom, TakesTurn, CountsFailure, is_failed_take};
ghost use Rattle.pool_io.specs.Seen.{SourceSeen};

/// What a source answered.
#[derive(Clone, Copy, Debug, PartialEq, Eq)]
pub enum Took {
    /// So many bytes stand at the front of the buffer.
    Bytes(usize),
    /// No byte will come any more.
    End,
    /// No byte has come for now.
    Idle,
    /// The source failed; nothing was taken.
    Failed,
}

/// Gives a program its bytes, turn by turn: the program asks, and the source answers with its next
/// turn.
pub trait Source {
    /// How often the source has failed (a counter stays at 2^64 - 1 once it is there), and the turns
    /// still to come, where it tells them.
    ghost seen: { Self → SourceSeen };

    /// Takes the next bytes into the buffer. A piece that is longer than the buffer comes in parts.
    fn take(&mut self, buffer: &mut [u8]) -> Took
        requires { 0 < length buffer.old }
        ensures bound { IsWithinRoom result (length buffer.new) }
        ensures turns { TakesTurn (seen self.old).left (seen self.new).left result buffer.new }
        ensures counts { CountsFailure (is_failed_take result) (seen self.old).faults
            (seen self.new).faults };
}
