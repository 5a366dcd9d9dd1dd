//! Links, doors and networks in memory.

pub mod door;
pub mod link;
pub mod network;
