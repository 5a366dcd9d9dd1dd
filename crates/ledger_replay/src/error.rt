//! Why an event isn't taken.

use pool_history::Cause;
use thiserror::Error;

/// Why an event isn't taken.
#[derive(Clone, Copy, Debug, Drop, Error)]
pub enum ReplayError {
    #[error("{0}")]
    Illegal(Cause),
    #[error("out of memory")]
    Memory,
}
