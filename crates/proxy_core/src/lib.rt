//! A proxy as a machine: it is brought frames of one upstream (Stratum V2) and lines of many miners
//! (Stratum V1) that share its channel, and keeps what goes to each until it is asked for. It reads no
//! stream, and starts no thread.
#![tactic(auto)]

mod calling;
mod channel;
mod frames;
mod jobs;
mod machine;
mod miners;
mod opening;
mod proxy;
mod relay;
mod sharing;
mod subscribing;
mod waiting;

pub use proxy::Proxy;
