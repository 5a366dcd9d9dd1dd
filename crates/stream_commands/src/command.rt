//! What a command does between two pieces of its input.

ghost use Rattle.std.specs.Prelude.{◌≡◌, ◌<◌, ◌≤◌, ◌^◌, ℕ, List, [], ◌++◌, length, IfOk, OnOk, IsErrOf};
ghost use Rattle.stream_commands.specs.Duties.{Duty, IsSoundDuty, RefusesWithin};

use std::alloc::{AllocError, Global};

/// Why a command goes no further.
#[derive(Clone, Copy)]
pub enum Stop {
    /// The input is refused; the text says so, where the command has words for it.
    Refused,
    Memory,
}

impl From<AllocError> for Stop {
    ghost use Rattle.std.specs.Prelude.{◌≡◌};
    ghost use Rattle.stream_commands.specs.declared.command.Stop.TheVariants.{Memory};

    ghost from_gives = { λ _ e. e ≡ Memory };

    fn from(_: AllocError) -> Stop {
        Stop::Memory
    }
}

/// A command that turns the bytes of a stream into text. It reads and writes nothing itself: it is
/// told the bytes piece by piece, and appends to a text.
pub trait StreamCommand: Drop {
    /// What is asked of it.
    type Task;

    /// What can be asked.
    ghost can_run: { Self.Task → Type 0 };

    /// What is owed for a task.
    ghost duty: { Self.Task → Duty };

    ghost asked: { Self → Self.Task };

    /// It is between two pieces.
    ghost is_ready: { Self → Type 0 };

    /// It has read just these bytes, and has told just this text.
    ghost has_read: { Self → List ℕ → List ℕ → Type 0 };

    fn start(alloc: Global, task: &Self::Task) -> Result<Self, AllocError>
        requires { can_run task.now }
        ensures task { IfOk result (λ command. asked command ≡ task.now) }
        ensures ready { IfOk result (λ command. is_ready command) }
        ensures none { IfOk result (λ command. has_read command [] []) };

    /// Reads a piece, up to what refuses the input.
    fn read(&mut self, piece: &[u8], text: &mut Vec<u8>) -> Result<(), Stop>
        requires { is_ready self.old }
        ensures task { asked self.new ≡ asked self.old }
        ensures ready { OnOk result (is_ready self.new) }
        ensures ok { OnOk result ((bytes given : List ℕ) → length (bytes ++ piece.now) ≤ 2 ^ 40
            → has_read self.old bytes (given ++ text.old.items)
            → has_read self.new (bytes ++ piece.now) (given ++ text.new.items)) }
        ensures refused { IsErrOf result Stop.Refused
            → RefusesWithin (has_read self.old) ((duty (asked self.old)).Refused) piece.now
            text.old.items text.new.items };

    /// The input ends here.
    fn end(&mut self, text: &mut Vec<u8>) -> Result<(), Stop>
        requires { is_ready self.old }
        ensures task { asked self.new ≡ asked self.old }
        ensures whole { OnOk result ((bytes given : List ℕ)
            → has_read self.old bytes (given ++ text.old.items)
            → (duty (asked self.old)).Whole bytes (given ++ text.new.items)) }
        ensures cut { IsErrOf result Stop.Refused → (bytes given : List ℕ)
            → has_read self.old bytes (given ++ text.old.items)
            → (duty (asked self.old)).Cut bytes (given ++ text.new.items) };

    /// What was told is what is owed so far.
    ghost owes_so_far: { (command : Self) (bytes text : List ℕ) → has_read command bytes text
        → (duty (asked command)).SoFar bytes text };

    /// Nothing is owed so far for nothing, and no bytes have two verdicts.
    ghost is_sound: { (task : Self.Task) → IsSoundDuty (duty task) };
}
