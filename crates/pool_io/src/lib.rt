//! The outside as traits (sources, sinks, keepers, hosts), and forms of them in memory. Nothing here
//! touches a real file, stream or socket.
#![tactic(auto)]

mod host;
mod keeper;
mod limits;
mod memory;
mod opening;
mod shelf;
mod sink;
mod source;
mod turn;

pub use host::{Host, HostError};
pub use keeper::{Keeper, KeeperFailed};
pub use limits::Limits;
pub use memory::failing::FailingCalls;
pub use memory::host::{MemFile, MemHost, Script};
pub use memory::keeper::{KeptRecord, MemKeeper, SureKeeper};
pub use memory::sink::{MemSink, SureSink};
pub use memory::source::{MemSource, SureSource};
pub use opening::{Name, Opening};
pub use shelf::Shelf;
pub use sink::{Sink, SinkFailed};
pub use source::{Source, Took};
pub use turn::{Piece, Turn};

/// The most bytes that are taken.
pub const MOST_BYTES: u64 = 1 << 40;

/// The most bytes that are taken at once.
pub const PIECE_LEN: usize = 4096;
