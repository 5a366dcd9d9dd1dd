//! The desk itself.

ghost use Rattle.std.specs.Prelude.{◌≡◌, ◌≤◌, ◌<◌, ◌^◌};
ghost use Rattle.desk.specs.Passes.{CallsRise, HasMet, IsAnswered, IsSamePass, answered_front};

use crate::machine::Machine;
use crate::pass::Pass;
use crate::plays::{Look, Merge, Tell};
use crate::rule::{Key, Slot, Turns, ViewOf};
use crate::turn::{answer, put_back, take_machine, take_turn};
use atomic_table::Table;
use std::alloc::Global;
use std::marker::Model;
use std::sync::Wait;

/// One machine for many passes. To contracts it is which desk it is, the machine that it was opened
/// with, and how many passes it dealt.
#[derive(Drop)]
pub struct Desk<M: Machine> {
    pub(crate) table: Table<Slot<M>, ViewOf<M>, Key<M>, Turns<M>, Global>,
    pub(crate) count: u32,
}

impl<M: Machine> Model for Desk<M> {
    ghost use Rattle.std.specs.Prelude.{◌≡◌, ◌<◌};
    ghost use Rattle.desk.specs.Passes.{Opening};
    ghost use Rattle.desk.specs.Plays.{IsSized};

    ghost Value = { Opening M };

    ghost view = { λ desk. record {
      table = desk.table.shared.table_id;
      start = desk.table.shared.key.start.value;
      count = desk.count;
    } };

    ghost invariant = { λ desk. IsSized desk.table.shared.table_id
        × (desk.count ≡ desk.table.shared.key.count) × (0 < desk.count) };
}

impl<M: Machine> Desk<M> {
    /// Has the machine answer a request, as the pass's worker. Waits until no other pass has the
    /// turn; a desk that has made 2^62 calls waits for good. Answers how many events there were at
    /// the call, with the machine's reply or fault. A fault leaves the history as it was there.
    pub fn act(
        &self,
        rt: &impl Wait,
        pass: &mut Pass<M>,
        request: M::Request,
    ) -> Result<(u64, M::Reply), (u64, M::Fault)>
        requires { pass.old.table ≡ self.now.table }
        ensures same { IsSamePass pass.old pass.new }
        ensures call { IsAnswered M.answers M.wants_memory pass.old pass.new request result }
        ensures few { answered_front result < 2 ^ 62 }
        ensures rise { CallsRise pass.new }
    {
        let board = &self.table.shared;
        let count = take_turn(rt, board, &mut pass.seat);
        let mut machine = take_machine(board, &mut pass.seat);
        let front = machine.length();
        let (answered, note) = answer(&mut machine, pass.worker, request);
        put_back(board, &mut pass.seat, machine, note, count);
        match answered {
            Ok(reply) => Ok((front, reply)),
            Err(fault) => Err((front, fault)),
        }
    }

    /// How many calls were made, by one load. Waits for nobody.
    pub fn look(&self, pass: &mut Pass<M>) -> u64
        requires { pass.old.table ≡ self.now.table }
        ensures answer { pass.old.known ≤ result }
        ensures pass { pass.new ≡ record pass.old { known = result } }
        ensures rise { CallsRise pass.new }
    {
        self.table.shared.load::<Look<M>>(&mut pass.seat, 0) / 2
    }

    /// How many calls were made, as `look` of the first pass; afterwards it has seen all that the
    /// other had seen. Waits for nobody.
    pub fn meet(&self, to: &mut Pass<M>, from: &mut Pass<M>) -> u64
        requires { (to.old.table ≡ self.now.table) × (from.old.table ≡ self.now.table) }
        ensures answer { (to.old.known ≤ result) × (from.old.known ≤ result) }
        ensures to { HasMet to.old from.old to.new result }
        ensures from { from.new ≡ from.old }
        ensures rise { CallsRise to.new }
    {
        let board = &self.table.shared;
        let told = board.split_seat::<Tell>(&mut from.seat);
        board.join_seat::<Merge>(&mut to.seat, told);
        board.load::<Look<M>>(&mut to.seat, 0) / 2
    }
}
