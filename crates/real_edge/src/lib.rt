//! The adapters of the real system: standard input and output, files, disks over files, and TCP, as
//! the sources, sinks, keepers, disks, links and doors that commands ask for. They judge nothing, and
//! tell nothing of what they bring or hold.
#![tactic(auto)]

mod edge;
#[cfg(test)]
mod edge_tests;
mod file_disk;
mod file_keeper;
mod stream_host;
mod tcp;
#[cfg(test)]
mod tcp_tests;

pub use edge::{Incoming, ReadSource, Waiting, WriteSink};
pub use file_disk::{FileDisk, FileDisks};
pub use file_keeper::FileKeeper;
pub use stream_host::StreamHost;
pub use tcp::{TcpDoor, TcpLink, TcpNetwork};
