//! Why a payload is no message.

use sv2_types::ReadError;
use thiserror::Error;

/// The first defect of a kind and its payload, from left to right.
#[derive(Clone, Copy, Debug, PartialEq, Eq, Error)]
pub enum MsgError {
    /// No message of the protocol has this kind.
    #[error("no message has the kind {0}")]
    UnknownKind(u8),
    /// The field at this place, counted from 0, can't be read.
    #[error("field {0} can't be read: {1}")]
    BadField(usize, ReadError),
    /// All fields are read, and this many bytes follow.
    #[error("{0} bytes follow the last field")]
    Trailing(usize),
}
