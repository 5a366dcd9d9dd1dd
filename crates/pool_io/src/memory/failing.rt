//! Which calls of an object in memory fail, and how many have: for any object of this kind, also in
//! other crates.

ghost use Rattle.std.specs.Prelude.{◌≡◌, ◌↔◌, Contains, IsTrue};
ghost use Rattle.pool_io.specs.Outside.{CountsFailure, next_count};

/// Counts an object's calls, and those that failed. Both counts stay at 2^64 - 1 once they are
/// there.
#[derive(Drop)]
pub struct FailingCalls {
    pub calls: u64,
    pub failing: Vec<u64>,
    pub faults: u64,
}

impl FailingCalls {
    /// No call has been made. Those whose numbers are listed are to fail, the first being number 0.
    pub fn of(failing: Vec<u64>) -> FailingCalls
        ensures first { result.calls ≡ 0 }
        ensures listed { result.failing ≡ failing }
        ensures fresh { result.faults ≡ 0 }
    {
        FailingCalls {
            calls: 0,
            failing,
            faults: 0,
        }
    }

    /// Counts the next call, and tells whether it fails.
    pub fn next_fails(&mut self) -> bool
        ensures listed { IsTrue result ↔ Contains self.old.failing.items self.old.calls }
        ensures calls { self.new.calls ≡ next_count self.old.calls }
        ensures stays { self.new.failing ≡ self.old.failing }
        ensures counts { CountsFailure result self.old.faults self.new.faults }
    {
        let call = self.calls;
        self.calls = call.saturating_add(1);
        let fails = self.failing.contains(&call);
        if fails {
            self.fail();
        }
        fails
    }

    /// Counts one failure more.
    pub(crate) fn fail(&mut self)
        ensures { self.new ≡ record self.old { faults = next_count self.old.faults } }
    {
        self.faults = self.faults.saturating_add(1);
    }
}
