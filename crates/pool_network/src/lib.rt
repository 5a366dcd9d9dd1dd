//! Connections and what gives them: a link to a peer, a door where callers come in, and a network,
//! which is asked for both by an address. Forms of all three in memory. Nothing here opens a socket
//! or listens at an address.
#![tactic(auto)]

mod door;
mod link;
mod memory;
mod network;
mod putting;
mod streams;

pub use door::{Arrival, Came, Door};
pub use link::Link;
pub use memory::door::MemDoor;
pub use memory::link::MemLink;
pub use memory::network::MemNetwork;
pub use network::{Network, Reaching};
pub use putting::put_whole;
pub use streams::Streams;
