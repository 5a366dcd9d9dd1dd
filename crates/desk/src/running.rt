//! All tasks at once, each in a thread of its own, up to the desk's closing.

ghost use Rattle.std.specs.Prelude.{◌≡◌, ◌<◌, ◌≤◌, [], All, length, vec_len};
ghost use Rattle.std.specs.Vec.{vec_capacity};
ghost use Rattle.desk.specs.Closing.{HasClosed, HasEveryWorker};
ghost use Rattle.desk.specs.Passes.{HasJustOpened};
ghost use Rattle.desk.specs.Parts.{AreDone, HasTended, IsTended, TendsByPlace};

use crate::pairing::{pair, unpair};
use crate::tending::Tending;
use crate::{Desk, Machine, Pass};
use std::sync::Wait;
use std::thread;
use std::thread::Threads;

/// Does a part's task to its end.
fn tend_part<R: Wait, M: Machine, T, W: Tending<M, T>>(
    rt: &R,
    desk: &Desk<M>,
    work: &W,
    part: &mut (T, Pass<M>),
)
    requires ready { W.ready work.now }
    requires desk { part.old.1.table ≡ desk.now.table }
    ensures { IsTended (W.tends work.now) part.old part.new }
{
    let (task, pass) = part;
    work.tend(rt, desk, task, pass);
}

/// Does the tasks of all parts, in as many threads.
fn tend_each<R: Threads + Wait + Sync, M: Machine + Send, T: Send, W: Tending<M, T> + Sync>(
    rt: &R,
    desk: &Desk<M>,
    work: &W,
    parts: &mut [(T, Pass<M>)],
)
    requires some { 0 < length parts.old }
    requires ready { W.ready work.now }
    requires desk { All (λ part. part.1.table ≡ desk.now.table) parts.old }
    ensures { TendsByPlace (IsTended (W.tends work.now)) parts.old parts.new }
{
    let threads = parts.len();
    thread::for_each_mut(
        rt,
        parts,
        threads,
        &|_place: usize, part: &mut (T, Pass<M>)|
            requires { (part.now.1.table ≡ desk.now.table) × W.ready work.now }
            ensures { IsTended (W.tends work.entry.now) part.entry.now part.exit.now }
        { tend_part(rt, desk, work, part) },
    );
}

/// Does all tasks, each with its pass, and gives both back in their order.
fn tend_parts<R: Threads + Wait + Sync, M: Machine + Send, T: Send, W: Tending<M, T> + Sync>(
    rt: &R,
    desk: &Desk<M>,
    work: &W,
    tasks: &mut Vec<T>,
    passes: &mut Vec<Pass<M>>,
    mut parts: Vec<(T, Pass<M>)>,
)
    requires ready { W.ready work.now }
    requires some { 0 < vec_len tasks.old }
    requires desk { All (λ pass. pass.table ≡ desk.now.table) passes.old.items }
    requires as_many { vec_len passes.old ≡ vec_len tasks.old }
    requires empty { parts.items ≡ [] }
    requires room { vec_len tasks.old ≤ vec_capacity parts }
    ensures { AreDone (IsTended (W.tends work.now)) tasks.old.items passes.old.items
        tasks.new.items passes.new.items }
{
    pair(tasks, passes, &mut parts);
    tend_each(rt, desk, work, parts.as_mut_slice());
    unpair(parts, tasks, passes);
}

/// Does all tasks at a desk that was just opened, each by a thread of its own with the pass of its
/// place, and closes the desk. Where no thread can be made, they are done one after the other. Takes
/// no memory: the parts have room for all tasks.
pub fn tend_all<R: Threads + Wait + Sync, M: Machine + Send, T: Send, W: Tending<M, T> + Sync>(
    rt: &R,
    desk: Desk<M>,
    mut passes: Vec<Pass<M>>,
    mut tasks: Vec<T>,
    parts: Vec<(T, Pass<M>)>,
    work: &W,
) -> (M, Vec<T>)
    requires ready { W.ready work.now }
    requires opened { HasJustOpened M.events desk.start desk.count desk passes.items }
    requires some { 0 < vec_len tasks }
    requires as_many { vec_len tasks ≡ desk.count }
    requires empty { parts.items ≡ [] }
    requires room { vec_len tasks ≤ vec_capacity parts }
    ensures { HasTended M.answers M.wants_memory M.events M.health (W.tends work.now) desk
        tasks.items result.0 result.1.items }
{
    tend_parts(rt, &desk, work, &mut tasks, &mut passes, parts);
    let machine = close(desk, passes);
    (machine, tasks)
}

/// Closes the desk, to which all passes came back.
fn close<M: Machine>(desk: Desk<M>, passes: Vec<Pass<M>>) -> M
    requires desk { All (λ pass. pass.table ≡ desk.table) passes.items }
    requires complete { HasEveryWorker desk.count passes.items }
    ensures { HasClosed M.answers M.wants_memory M.events M.health desk passes.items result }
{
    match desk.close(passes) {
        Ok(machine) => machine,
        Err(_refused) => unreachable!(),
    }
}
