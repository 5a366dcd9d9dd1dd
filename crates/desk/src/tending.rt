//! Who does tasks at a desk.

ghost use Rattle.std.specs.Prelude.{◌≡◌};
ghost use Rattle.desk.specs.Passes.{IsSamePass, Progress};

use crate::{Desk, Machine, Pass};
use std::sync::Wait;

/// Does tasks, each to its end, by calls of one pass at its desk. Many threads share it.
pub trait Tending<M: Machine, T> {
    /// Whether tasks can be done.
    ghost ready: { Self → Type 0 };

    /// What doing a task does: the task and its pass before it, and after it.
    ghost tends: { Self → T × Progress M.Event M.Request M.Reply M.Fault
        → T × Progress M.Event M.Request M.Reply M.Fault → Type 0 };

    fn tend<R: Wait>(&self, rt: &R, desk: &Desk<M>, task: &mut T, pass: &mut Pass<M>)
        requires ready { ready self.now }
        requires desk { pass.old.table ≡ desk.now.table }
        ensures same { IsSamePass pass.old pass.new }
        ensures tended { tends self.now (task.old, pass.old) (task.new, pass.new) };
}
