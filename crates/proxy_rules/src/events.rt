//! The events of a proxy.

use sv2_types::{Blob, Str255};

/// What became of a proxy: its start, and what it was brought. The number of the last three is the
/// caller's.
#[derive(Drop)]
pub enum ProxyEvent {
    /// The user that the channel is opened for, and the class whose difficulty is shown as 1.
    Start(Str255, u8),
    /// The bytes of a frame of the upstream.
    Up(Blob),
    /// The upstream ended.
    UpEnd,
    Join(u32),
    /// A line of a miner, without its end.
    Line(u32, Blob),
    Leave(u32),
}
