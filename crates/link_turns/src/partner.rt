//! Who is at the other end of a link.

ghost use Rattle.std.specs.Prelude.{◌≡◌, ℕ, List, [], ◌∷◌, ◌++◌, None, IfOk, OnOk};
ghost use Rattle.pool_io.specs.declared.turn.Turn.{Turn};
ghost use Rattle.pool_io.specs.declared.turn.Turn.TheVariants as turn;
ghost use Rattle.link_turns.specs.Partners.{HasTakenOrEnded};

use std::alloc::AllocError;

/// A machine that takes the turns of a link and says bytes. It reads and writes nothing itself. An
/// answer of `AllocError` leaves it in no state that is told.
pub trait Partner: Drop {
    /// What is asked of it.
    type Task;

    /// How it ends.
    type End: Drop;

    ghost asked: { Self → Self.Task };

    /// It has said nothing yet.
    ghost is_new: { Self → Type 0 };

    /// It is between two turns, and has not ended.
    ghost is_ready: { Self → Type 0 };

    /// It has taken just these turns, the newest first, has said just these bytes, and has not
    /// ended.
    ghost has_taken: { Self → List Turn → List ℕ → Type 0 };

    /// The same, and it has ended so.
    ghost has_ended: { Self → List Turn → List ℕ → Self.End → Type 0 };

    /// Appends what it says before the first turn.
    fn start(&mut self, out: &mut Vec<u8>) -> Result<(), AllocError>
        requires { is_new self.old }
        ensures task { OnOk result (asked self.new ≡ asked self.old) }
        ensures ready { OnOk result (is_ready self.new) }
        ensures told { OnOk result ((given : List ℕ) → given ++ out.old.items ≡ []
            → has_taken self.new [] (given ++ out.new.items)) };

    /// Takes bytes, and appends what it says to them. It may end within them: what follows is not
    /// read.
    fn piece(&mut self, piece: &[u8], out: &mut Vec<u8>) -> Result<Option<Self::End>, AllocError>
        requires { is_ready self.old }
        ensures task { OnOk result (asked self.new ≡ asked self.old) }
        ensures ready { IfOk result (λ end. end ≡ None → is_ready self.new) }
        ensures told { IfOk result (λ end. (past : List Turn) (given : List ℕ)
            → has_taken self.old past (given ++ out.old.items)
            → HasTakenOrEnded has_taken has_ended self.new (turn.Piece piece.now ∷ past)
            (given ++ out.new.items) end) };

    /// No byte came for now. Appends what it says then.
    fn idle(&mut self, out: &mut Vec<u8>) -> Result<Option<Self::End>, AllocError>
        requires { is_ready self.old }
        ensures task { OnOk result (asked self.new ≡ asked self.old) }
        ensures ready { IfOk result (λ end. end ≡ None → is_ready self.new) }
        ensures told { IfOk result (λ end. (past : List Turn) (given : List ℕ)
            → has_taken self.old past (given ++ out.old.items)
            → HasTakenOrEnded has_taken has_ended self.new (turn.Idle ∷ past)
            (given ++ out.new.items) end) };

    /// No byte comes any more. It says nothing to that.
    fn input_end(&mut self) -> Self::End
        requires { is_ready self.old }
        ensures task { asked self.new ≡ asked self.old }
        ensures told { (past : List Turn) (told : List ℕ) → has_taken self.old past told
            → has_ended self.new (turn.End ∷ past) told result };
}
