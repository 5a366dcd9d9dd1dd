//! Who answers the requests of a session.

ghost use Rattle.std.specs.Prelude.{◌≡◌, ◌<◌, ◌^◌, ℕ};
ghost use Rattle.pool_history.specs.Calls.{PoolCall};
ghost use Rattle.v2_sessions.specs.Answerers.{MakesCall, RollsAsBriefed};

use pool_history::{BookError, Reply, Request};

/// What became of a request: how many events were before it, and its reply or its fault.
#[derive(Drop)]
pub struct Acted {
    pub front: u64,
    pub outcome: Result<Reply, BookError>,
}

/// Answers the requests of one worker, one after the other. A book does, and so does a pass at a
/// desk.
pub trait Acting {
    /// The number of the worker.
    ghost worker: { Self → ℕ };

    /// Whether it can be asked.
    ghost ready: { Self → Type 0 };

    /// What one call does: who answers before it, the call, and who answers after it.
    ghost does: { Self → PoolCall → Self → Type 0 };

    fn act(&mut self, request: Request) -> Acted
        requires { ready self.old }
        ensures ready { ready self.new }
        ensures call { MakesCall worker does self.old request result self.new }
        ensures few { result.front < 2 ^ 62 }
        ensures rolls { RollsAsBriefed request result.outcome };
}
