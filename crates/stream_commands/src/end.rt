//! How a command over a stream ends.

/// How a run from a source to a sink ended.
#[derive(Clone, Copy)]
pub enum End {
    /// The input was read to its end, and it was whole.
    Done,
    /// The input was refused, by what came or since it ended too early.
    Refused,
    /// No byte came for too long.
    IdleOut,
    /// Too many bytes came.
    BytesOut,
    /// A read failed.
    ReadFault,
    /// A write failed.
    WriteFault,
    /// There was no memory.
    Memory,
}
