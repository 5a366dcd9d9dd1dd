//! Parts of tasks and passes, and tasks and passes of parts.

ghost use Rattle.std.specs.Prelude.{◌≡◌, ◌≤◌, [], vec_len};
ghost use Rattle.std.specs.Vec.{vec_capacity};
ghost use Rattle.desk.specs.Parts.{IsUnpaired, parts_of};

use crate::{Machine, Pass};

/// Gives each task its pass. What is left of both lists is their room.
pub(crate) fn pair<M: Machine, T>(
    tasks: &mut Vec<T>,
    passes: &mut Vec<Pass<M>>,
    parts: &mut Vec<(T, Pass<M>)>,
)
    requires as_many { vec_len passes.old ≡ vec_len tasks.old }
    requires room { vec_len tasks.old ≤ vec_capacity parts.old }
    requires empty { parts.old.items ≡ [] }
    ensures paired { parts.new.items ≡ parts_of tasks.old.items passes.old.items }
    ensures tasks { (tasks.new.items ≡ []) × (vec_capacity tasks.new ≡ vec_capacity tasks.old) }
    ensures passes { (passes.new.items ≡ [])
        × (vec_capacity passes.new ≡ vec_capacity passes.old) }
{
    while let Some(task) = tasks.pop() {
        let popped = passes.pop();
        let Some(pass) = popped else { unreachable!() };
        parts.push_reserved((task, pass));
    }
}

/// Takes parts apart, in the order in which they were made.
pub(crate) fn unpair<M: Machine, T>(
    mut parts: Vec<(T, Pass<M>)>,
    tasks: &mut Vec<T>,
    passes: &mut Vec<Pass<M>>,
)
    requires empty { (tasks.old.items ≡ []) × (passes.old.items ≡ []) }
    requires room { (vec_len parts ≤ vec_capacity tasks.old)
        × (vec_len parts ≤ vec_capacity passes.old) }
    ensures { IsUnpaired parts.items tasks.new.items passes.new.items }
{
    while let Some(part) = parts.pop() {
        let (task, pass) = part;
        tasks.push_reserved(task);
        passes.push_reserved(pass);
    }
    parts.destroy_empty();
}
