//! What a worker's sessions have in common.

use pool_history::Role;

/// How sessions are held.
#[derive(Clone, Copy)]
pub struct Manner {
    pub role: Role,
    /// Whether versions may be rolled.
    pub rolling: bool,
    /// Whether miners may declare jobs of their own: then payloads may be longer.
    pub declares: bool,
    /// After so many Idle turns in a row a session ends.
    pub idle_turns: u64,
}
