//! Why no book is resumed.

use thiserror::Error;

/// Why records lead to no book. A ledger's first defect is told, as an audit tells it.
#[derive(Clone, Copy, Debug, Error)]
pub enum ResumeError {
    /// At a place of the bytes there is no magic of format 2, or no whole record; or they are a
    /// ledger, and the record that begins there isn't cut as it was kept.
    #[error("not a ledger at {0}")]
    NotALedger(u64),
    /// What follows the record with a number, from 0 on, isn't the hash over it.
    #[error("broken chain {0}")]
    Broken(u64),
    /// The record with a number isn't legal after those before it.
    #[error("illegal {0}")]
    Illegal(u64),
    /// Out of memory.
    #[error("out of memory")]
    Memory,
}
