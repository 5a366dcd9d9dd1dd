//! What a frame leads to.

use pool_history::Request;
use sv2_types::Blob;

/// Why a setup is refused. Where several reasons hold, the first in this order is told.
#[derive(Clone, Copy)]
pub enum SetupCode {
    /// It is no mining connection.
    Protocol,
    /// Version 2 isn't among those that it takes.
    Version,
    /// It asks for features that aren't offered.
    Flags,
}

/// What a session makes of a frame.
#[derive(Drop)]
pub enum Step {
    /// It isn't taken.
    Ignore,
    Ask(Request),
    /// These bytes are said, and nothing is asked.
    Say(Blob),
    /// The setup is refused, with the flags that aren't offered.
    RefuseSetup(SetupCode, u32),
    /// The first message is no setup.
    BadSetup,
    /// The payload of this kind isn't its message.
    BadMessage(u8),
}
