//! Why a field could not be read.

use thiserror::Error;

/// The first defect of a field, from left to right. A length or a count that is too great is found
/// before the bytes after it are looked at.
#[derive(Clone, Copy, Debug, PartialEq, Eq, Error)]
pub enum ReadError {
    /// The bytes end before the value does.
    #[error("the bytes end inside a field")]
    Short = 1,
    /// The length of a B0_32 is over 32.
    #[error("a length is over its field's limit")]
    LengthTooGreat = 2,
    /// The content of a STR0_255 is not UTF-8.
    #[error("a text is not UTF-8")]
    NotUtf8 = 3,
    /// The count of an OPTION is over 1.
    #[error("the count of an optional value is over 1")]
    CountTooGreat = 4,
}
