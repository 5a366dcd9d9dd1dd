//! The turn at a desk: it is taken with the machine, and given back with the machine and its call.

ghost use Rattle.std.specs.Prelude.{◌≡◌, ℕ, ◌^◌, ◌≤◌, ◌<◌, [], ◌∷◌, Some, None};
ghost use Rattle.desk.specs.Machines.{IsLaterHealth, MakesTurn};
ghost use Rattle.desk.specs.Plays.{IsTaken, IsSized, IsNextCall, call_of, called_view};

use crate::machine::Machine;
use crate::plays::{Put, Take};
use crate::rule::{Board, Held, Note, NoteOf, Place};
use crossbeam_utils::Backoff;
use std::snapshot::Snapshot;
use std::sync::Wait;

// So many calls a desk takes.
const MOST_CALLS: u64 = 1 << 62;

/// Waits until no other seat has the turn: it pauses some hundred times, as most turns are short, and
/// then yields the processor between two looks. Answers the count of calls so far; a desk that has made
/// 2^62 of them gives no turn.
pub fn take_turn<M: Machine, R: Wait>(rt: &R, board: &Board<M>, seat: &mut Place<M>) -> u64
    requires board { IsSized board.now.table_id × (seat.old.table_id ≡ board.now.table_id) }
    requires seat { (worker : ℕ) × (seat.old.me.0.workers ≡ worker ∷ []) × (seat.old.me.1 ≡ []) }
    ensures same { seat.new.table_id ≡ seat.old.table_id }
    ensures taken { IsTaken M.events M.health seat.old.me result seat.new.me }
    ensures fits { result < 2 ^ 62 }
{
    let backoff = Backoff::new();
    for _ in rt.forever() {
        let found = board.peek(0);
        if found % 2 == 0
            && found / 2 < MOST_CALLS
            && board.compare_exchange::<Take<M>>(seat, 0, found, found + 1) == found
        {
            return found / 2;
        }
        backoff.snooze();
    }
    unreachable!()
}

/// Takes the machine out of the slot of a seat that has the turn.
pub fn take_machine<M: Machine>(board: &Board<M>, seat: &mut Place<M>) -> M
    requires board { IsSized board.now.table_id × (seat.old.table_id ≡ board.now.table_id) }
    requires carried { (held : _) × (seat.old.me.1 ≡ (0, Some held) ∷ []) }
    ensures same { (seat.new.table_id ≡ seat.old.table_id)
        × (seat.new.me ≡ (seat.old.me.0, (0, None) ∷ [])) }
    ensures taken { (held : _) × (seat.old.me.1 ≡ (0, Some held) ∷ []) × (held.machine ≡ result) }
{
    let slot = board.exchange(seat, 0, None);
    let Some(held) = slot else { unreachable!() };
    let Held { machine, note: _ } = held;
    machine
}

/// The machine answers a request. The note says what was asked and answered.
pub fn answer<M: Machine>(
    machine: &mut M,
    worker: u32,
    request: M::Request,
) -> (Result<M::Reply, M::Fault>, NoteOf<M>)
    ensures turn { MakesTurn M.answers M.wants_memory (M.events machine.old) (M.health machine.old).faults
        worker request (M.events machine.new) (M.health machine.new).faults result.0 }
    ensures later { IsLaterHealth (M.health machine.old) (M.health machine.new) }
    ensures note { (result.1.worker ≡ worker) × (result.1.asked.value ≡ request)
        × (result.1.answer.value ≡ result.0) }
{
    let asked = Snapshot::of(&request);
    let answer = machine.act(worker, request);
    let note = Note {
        worker,
        asked,
        answer: Snapshot::of(&answer),
    };
    (answer, note)
}

/// Puts the machine back with the call that it answered, and gives the turn back.
pub fn put_back<M: Machine>(
    board: &Board<M>,
    seat: &mut Place<M>,
    machine: M,
    note: NoteOf<M>,
    count: u64,
)
    requires board { IsSized board.now.table_id × (seat.old.table_id ≡ board.now.table_id) }
    requires carried { seat.old.me.1 ≡ (0, None) ∷ [] }
    requires count { (seat.old.me.0.known ≡ count) × (count < 2 ^ 62) }
    requires call { IsNextCall M.answers M.wants_memory seat.old.me.0 (M.events machine)
        (M.health machine) note }
    ensures same { seat.new.table_id ≡ seat.old.table_id }
    ensures called { seat.new.me ≡ (
      called_view seat.old.me.0 (M.events machine)
          (call_of seat.old.me.0 (M.events machine) (M.health machine) note),
      [],
    ) }
{
    let held = Held {
        machine,
        note: Some(note),
    };
    let slot = board.exchange(seat, 0, Some(held));
    let None = slot else { unreachable!() };
    board.store::<Put<M>>(seat, 0, 2 * count + 2);
}
