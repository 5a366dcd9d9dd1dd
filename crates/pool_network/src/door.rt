//! A door.

ghost use Rattle.std.specs.Prelude.{◌<◌};
ghost use Rattle.pool_network.specs.Doors.{AnswersSo, TakesBack, came_seen};
ghost use Rattle.pool_network.specs.Seen.{DoorSeen};

use crate::Link;

/// What a door answered.
#[derive(Drop)]
pub enum Came<L> {
    /// Somebody called.
    Caller(L),
    /// Nobody has called for now.
    Idle,
    /// Nobody will call any more.
    Closed,
    /// The door failed; nobody was let in.
    Failed,
    /// There was no memory for a caller.
    Memory,
}

/// One answer of a door that is still to come. After all of them it is closed.
#[derive(Drop)]
pub enum Arrival<L> {
    /// Somebody calls.
    Caller(L),
    /// Nobody calls for now.
    Idle,
}

/// Lets callers in, one after the other, and takes their connections back. A connection isn't
/// `Drop`, so it can't be lost.
pub trait Door {
    type L: Link;

    /// How often the door has failed and how often it was asked (counters that stay at 2^64 - 1 once
    /// they are there), the answers still to come, how many connections are out, and those that came
    /// back.
    ghost seen: { Self → DoorSeen };

    /// Asks who has called. A caller's connection is out until it is done.
    fn accept(&mut self) -> Came<Self::L>
        ensures { AnswersSo (seen self.old) (seen self.new) (came_seen Self.L.seen result) };

    /// Takes a connection back, without memory.
    fn done(&mut self, link: Self::L)
        requires { 0 < (seen self.old).out }
        ensures { TakesBack (seen self.old) (seen self.new) (Self.L.seen link) };
}
