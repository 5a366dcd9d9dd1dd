//! How a desk closes: all passes come back, and then the machine is in its slot.

ghost use Rattle.std.specs.Prelude.{◌≡◌, ℕ, ◌<◌, All, IsTrue, MatchOption, MatchResult, false, length};
ghost use Rattle.std.specs.List.{AllByRecursion, Contains};
ghost use mathlib.Core.Logic.{◌↔◌};
ghost use Rattle.desk.specs.Plays.{IsSized};
ghost use Rattle.desk.specs.Closing.{HasClosed, HasEveryWorker, IsJoined, IsLeastMissing};
ghost use Rattle.desk.specs.Closing.{IsOfSeat, IsRefused, workers_of};

use crate::desk::Desk;
use crate::machine::Machine;
use crate::pass::Pass;
use crate::plays::{Look, Merge};
use crate::rule::{Board, Held, Key, Place, Slot, Turns, ViewOf};
use atomic_table::Table;
use std::alloc::Global;

/// The desk and the passes as they were, and the least number whose pass is missing.
#[derive(Drop)]
pub struct CloseError<M: Machine> {
    pub desk: Desk<M>,
    pub passes: Vec<Pass<M>>,
    pub place: u32,
}

impl<M: Machine> Desk<M> {
    /// Takes all passes back, and gives the machine. Its events are those of the machine that came
    /// to `new` and what the calls of all passes added. Refused exactly where a pass is missing,
    /// with the least number of one, and then all comes back. Takes no memory.
    pub fn close(self, passes: Vec<Pass<M>>) -> Result<M, CloseError<M>>
        requires { All (λ pass. pass.table ≡ self.table) passes.items }
        ensures { MatchResult result
            (λ machine. HasClosed M.answers M.wants_memory M.events M.health self passes.items
            machine)
            (λ refused. IsRefused self passes.items refused.desk refused.passes.items
            refused.place) }
    {
        if let Some(place) = first_missing(&passes, self.count) {
            return Err(CloseError {
                desk: self,
                passes,
                place,
            });
        }
        let Desk { table, count: _ } = self;
        let seat = join_all(&table.shared, passes);
        Ok(give_up(table, seat))
    }
}

// Whether one of the passes is this worker's.
fn has_worker<M: Machine>(passes: &[Pass<M>], worker: u32) -> bool
    ensures { IsTrue result ↔ Contains (workers_of passes.now) worker }
{
    for pass in passes {
        if pass.worker() == worker {
            return true;
        }
    }
    false
}

// The least number whose pass is missing.
fn first_missing<M: Machine>(passes: &Vec<Pass<M>>, count: u32) -> Option<u32>
    ensures { MatchOption result (HasEveryWorker count passes.now.items)
        (λ place. IsLeastMissing count passes.now.items place) }
{
    for place in 0..count {
        if !has_worker(passes, place) {
            return Some(place);
        }
    }
    None
}

// One seat with the workers and the calls of all passes, which has seen what each of them had seen.
fn join_all<M: Machine>(board: &Board<M>, mut passes: Vec<Pass<M>>) -> Place<M>
    requires board { IsSized board.now.table_id }
    requires some { 0 < length passes.items }
    requires tables { AllByRecursion (λ pass. pass.table ≡ board.now.table_id) passes.items }
    ensures table { result.table_id ≡ board.now.table_id }
    ensures joined { IsJoined passes.items result.me }
{
    let popped = passes.pop();
    let Some(pass) = popped else { unreachable!() };
    let Pass {
        worker: _,
        mut seat,
    } = pass;
    while let Some(pass) = passes.pop() {
        let Pass {
            worker: _,
            seat: other,
        } = pass;
        board.join_seat::<Merge>(&mut seat, other);
        board.load::<Look<M>>(&mut seat, 0);
    }
    passes.destroy_empty();
    seat
}

// The machine, once one seat has every worker.
fn give_up<M: Machine>(
    table: Table<Slot<M>, ViewOf<M>, Key<M>, Turns<M>, Global>,
    seat: Place<M>,
) -> M
    requires table { IsSized table.shared.table_id × (seat.table_id ≡ table.shared.table_id) }
    requires rests { seat.me.0.has_turn ≡ false }
    requires every { (worker : ℕ) → worker < table.shared.key.count
        → Contains seat.me.0.workers worker }
    ensures { IsOfSeat M.answers M.wants_memory M.events M.health table.shared.key.start.value
        seat.me.0 result }
{
    let mut closed = table.close_with(seat);
    let slot = closed.take(0);
    closed.free();
    let Some(held) = slot else { unreachable!() };
    let Held { machine, note: _ } = held;
    machine
}
