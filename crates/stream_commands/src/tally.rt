//! How far a reading has come towards its limits.

/// What was taken so far.
#[derive(Clone, Copy)]
pub struct Tally {
    /// The bytes that were taken.
    pub taken: u64,
    /// The Idle answers in a row.
    pub idles: u64,
}
