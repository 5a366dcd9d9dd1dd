//! What a message is to a session.

use pool_history::Request;
use session_steps::About;

#[derive(Drop)]
pub(crate) enum Meaning {
    /// It asks for a setup.
    Setup {
        protocol: u8,
        min_version: u16,
        max_version: u16,
        flags: u32,
    },
    /// It answers the pool's setup.
    SetUp {
        used_version: u16,
        flags: u32,
    },
    /// It asks for this, and the answer will be about that.
    Work(Request, About),
    /// No session takes it once it is set up.
    Other,
}
