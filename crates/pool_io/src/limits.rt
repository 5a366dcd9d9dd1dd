//! How long sessions and doors are waited for.

/// After so many Idle answers in a row a session ends, and a door is asked no more. Both are at
/// least 1 wherever they are used.
#[derive(Clone, Copy, Debug, PartialEq, Eq)]
pub struct Limits {
    pub idle_turns: u64,
    pub door_turns: u64,
}
