//! Why a listing goes no further.

use sv2_messages::MsgError;

/// Why the first bad frame is bad.
#[derive(Clone, Copy)]
pub enum Flaw {
    /// Its payload is no message of its kind.
    Payload(MsgError),
    /// Its header says a payload of this many bytes, over the limit.
    Length(u32),
    /// The input ended with this many bytes of it.
    Cut(usize),
}
