//! How a desk opens: the machine goes into its slot, and every worker gets a pass.

ghost use Rattle.std.specs.Prelude.{◌≡◌, ◌<◌, ◌≤◌, [], ◌∷◌, MatchResult, Some, None};
ghost use Rattle.std.specs.Vec.{vec_capacity};
ghost use Rattle.desk.specs.Views.{fresh_view, workers_from};
ghost use Rattle.desk.specs.Plays.{IsSized};
ghost use Rattle.desk.specs.Passes.{HasJustOpened, fresh_passes};

use crate::desk::Desk;
use crate::machine::Machine;
use crate::pass::Pass;
use crate::plays::Deal;
use crate::rule::{Board, Held, Key, Place, Slot};
use atomic_table::{Refused, Table};
use std::alloc::{AllocError, AllocFailed, Global};
use std::snapshot::Snapshot;

impl<M: Machine> Desk<M> {
    /// Opens a desk with so many passes, numbered from 0, each for a worker of that number. Each has
    /// seen what the machine has, and made no call. Without memory the machine comes back.
    pub fn new(
        alloc: Global,
        machine: M,
        count: u32,
    ) -> Result<(Desk<M>, Vec<Pass<M>>), (M, AllocError)>
        requires { 0 < count }
        ensures { MatchResult result
            (λ opened. HasJustOpened M.events machine count opened.0 opened.1.items)
            (λ refused. refused.0 ≡ machine) }
    {
        let Ok(passes) = Vec::with_capacity(alloc, count as usize) else {
            return Err((machine, AllocError));
        };
        let key = Key {
            start: Snapshot::of(&machine),
            count,
        };
        let slots = match slots_of(alloc, machine) {
            Ok(slots) => slots,
            Err(machine) => {
                passes.destroy_empty();
                return Err((machine, AllocError));
            }
        };
        match Table::new(alloc, &[0], slots, &key) {
            Ok((table, seat)) => {
                let passes = deal(&table.shared, passes, seat, count);
                Ok((Desk { table, count }, passes))
            }
            Err(Refused { slots }) => {
                passes.destroy_empty();
                Err((machine_of(slots), AllocError))
            }
        }
    }
}

// The slot with the machine, that made no call yet.
fn slots_of<M: Machine>(alloc: Global, machine: M) -> Result<Vec<Slot<M>>, M>
    ensures { MatchResult result
        (λ slots. slots.items ≡ Some (record { machine = machine; note = None }) ∷ [])
        (λ back. back ≡ machine) }
{
    let mut slots = Vec::new(alloc);
    let held = Held {
        machine,
        note: None,
    };
    match slots.push(Some(held)) {
        Ok(()) => Ok(slots),
        Err(AllocFailed { value }) => {
            slots.destroy_empty();
            let Some(held) = value else { unreachable!() };
            let Held { machine, note: _ } = held;
            Err(machine)
        }
    }
}

// The machine of such a slot.
fn machine_of<M: Machine>(mut slots: Vec<Slot<M>>) -> M
    requires { (machine : M) × (slots.items ≡ Some (record { machine = machine; note = None }) ∷ []) }
    ensures { slots.items ≡ Some (record { machine = result; note = None }) ∷ [] }
{
    let popped = slots.pop();
    let Some(slot) = popped else { unreachable!() };
    slots.destroy_empty();
    let Some(held) = slot else { unreachable!() };
    let Held { machine, note: _ } = held;
    machine
}

// A pass for each worker.
fn deal<M: Machine>(
    board: &Board<M>,
    mut passes: Vec<Pass<M>>,
    mut seat: Place<M>,
    count: u32,
) -> Vec<Pass<M>>
    requires board { IsSized board.now.table_id × (seat.table_id ≡ board.now.table_id) }
    requires seat { seat.me ≡ (fresh_view seat.me.0.seen (workers_from 0 count), []) }
    requires room { (passes.items ≡ []) × (count ≤ vec_capacity passes) × (0 < count) }
    ensures { result.items ≡ fresh_passes board.now.table_id seat.me.0.seen (workers_from 0 count) }
{
    for worker in 0..count - 1 {
        let next = board.split_seat::<Deal>(&mut seat);
        passes.push_reserved(Pass { worker, seat: next });
    }
    passes.push_reserved(Pass {
        worker: count - 1,
        seat,
    });
    passes
}
