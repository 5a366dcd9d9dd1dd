//! The places since which jobs are live.

/// Bounds of the places of the history since which the live jobs are live: none is below `oldest`,
/// and none above `newest`.
#[derive(Clone, Copy)]
pub struct LiveSpan {
    pub oldest: u64,
    pub newest: u64,
}
