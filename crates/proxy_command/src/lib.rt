//! The command `proxy UPSTREAM USER ADDRESS COUNT`, over any host and any network: many miners of Stratum
//! V1 share one channel of an upstream. Nothing here opens a socket.
#![tactic(auto)]

mod command;
mod serving;
mod status;

pub use command::proxy;
pub use serving::{Reached, proxy_on_network};
