//! What can stand at a desk.

ghost use Rattle.std.specs.Prelude.{◌≡◌, ℕ, ◌<◌, ◌≤◌, ◌^◌, List, Bool, length};
ghost use Rattle.desk.specs.Machines.{Health, IsLaterHealth, MakesTurn};

/// A machine that keeps a list of events, counts its faults, and answers one request after another.
pub trait Machine {
    type Event;

    type Request;

    type Reply;

    type Fault;

    // The events so far.
    ghost events: { Self → List Self.Event };

    // The count of faults, and what it tells of what it keeps.
    ghost health: { Self → Health };

    // The faults that are for lack of memory, and say nothing of the count.
    ghost wants_memory: { Self.Fault → Bool };

    // After these events, this caller's request adds these events and has this reply.
    ghost answers: { List Self.Event → ℕ → Self.Request → List Self.Event → Self.Reply → Type 0 };

    /// How many events there are: fewer than 2^62.
    fn length(&self) -> u64
        ensures count { result ≡ length (events self.now) }
        ensures few { result < 2 ^ 62 };

    /// Answers the caller's request. A reply adds the events that the machine answers with, a fault
    /// none; one that isn't a lack of memory comes only where the count of faults rose in this call.
    fn act(&mut self, caller: u32, request: Self::Request) -> Result<Self::Reply, Self::Fault>
        ensures turn { MakesTurn answers wants_memory (events self.old) (health self.old).faults caller
            request (events self.new) (health self.new).faults result }
        ensures later { IsLaterHealth (health self.old) (health self.new) };
}
