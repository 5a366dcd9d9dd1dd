//! What one thread has in hand.

use crate::DoorEnd;
use session_steps::SessionEnd;

/// A link, or a door, and how that ended, once it did.
pub enum ThreadTask<D, L> {
    Link(L, Option<SessionEnd>),
    Door(D, Option<DoorEnd>),
}

/// A task, and how many of its calls a fault answered.
pub struct ThreadPart<D, L> {
    pub task: ThreadTask<D, L>,
    pub faults: u64,
}
