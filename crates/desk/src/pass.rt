//! What a thread calls a desk with.

ghost use Rattle.std.specs.Prelude.{◌≡◌};

use crate::machine::Machine;
use crate::rule::Place;
use std::marker::Model;

/// The right to call one desk's machine as one worker. It remembers nothing but the worker's number;
/// to contracts it is what it has seen, the number of calls that it knows of, and its own calls.
#[derive(Drop)]
pub struct Pass<M: Machine> {
    pub(crate) worker: u32,
    pub(crate) seat: Place<M>,
}

impl<M: Machine> Model for Pass<M> {
    ghost use Rattle.desk.specs.Passes.{Progress, progress_of, IsResting};

    ghost Value = { Progress M.Event M.Request M.Reply M.Fault };

    ghost view = { λ pass. progress_of pass.worker pass.seat.table_id pass.seat.me.0 };

    ghost invariant = { λ pass. IsResting pass.worker pass.seat.me };
}

impl<M: Machine> Pass<M> {
    /// The worker that it calls for.
    pub fn worker(&self) -> u32
        ensures { result ≡ self.now.worker }
    {
        self.worker
    }
}
