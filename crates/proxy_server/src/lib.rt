//! The links of a proxy: what a miner's lines and an upstream's frames ask of it, and what is put of
//! its answers, over whoever answers what a proxy is asked. Nothing here opens a connection, starts a
//! thread or knows a desk.
//!
//! Workers of a proxy: a pass at its desk is who answers for one caller; a miner's link and the upstream's
//! are served by its calls; and at a door each who calls is served and handed back before the door is asked
//! again. Nothing here opens a door or starts a thread.
//!
//! A proxy that many miners share, at once: its upstream's link and the callers of any number of doors, each
//! served by a thread of its own at one desk, with one list of events left behind. Nothing here opens a
//! connection or a door.
#![tactic(auto)]

mod asking;
mod caller;
mod doors;
mod miner;
mod news;
mod parts;
mod phase;
mod serving;
mod upstream;
mod upstream_serving;
mod workers;
mod working;

pub use asking::ProxyAsking;
pub use caller::ProxyCaller;
pub use doors::{Proxied, serve_proxy};
pub use phase::UpPhase;
pub use serving::serve_miner;
pub use upstream_serving::{UpstreamEnd, serve_upstream};
pub use workers::{serve_miner_link, serve_upstream_link};
pub use working::work;
