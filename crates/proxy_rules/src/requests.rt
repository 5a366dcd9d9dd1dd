//! What a proxy is asked, and what it answers.

use sv2_types::Blob;

/// What is asked of a proxy, by a caller with a number.
#[derive(Drop)]
pub enum ProxyRequest {
    /// The bytes of a frame of the upstream.
    Up(Blob),
    /// The upstream ended.
    UpEnd,
    Join,
    /// A line of the caller, without its end.
    Line(Blob),
    Leave,
    /// The caller's output from this place on; that of caller 0 is the upstream's.
    Poll(u64),
}

#[derive(Drop)]
pub enum ProxyReply {
    Taken,
    /// A line, or a leaving, of who isn't joined.
    NotJoined,
    /// A join of who is.
    Again,
    Bytes(Blob),
}
