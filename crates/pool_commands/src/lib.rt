//! The commands `solo SETTINGS LEDGER` and `declare SETTINGS LEDGER`: one session of both roles over
//! standard input and output, by the rules of a settings file, kept in a new ledger. The second takes
//! declarations of jobs.
//!
//! The command `serve SETTINGS LEDGER`, over any host and any network: sessions on links to a feed
//! and to miners, all on one book, until the feed's session is over and no door is asked any more.
//! Nothing here opens a socket or a file.
//!
//! The commands over a ledger on a disk: `durable solo SETTINGS LEDGER` and `durable serve SETTINGS
//! LEDGER` serve as the plain ones and go on with the ledger that is there, and `durable audit LEDGER`
//! audits what is found on it. Nothing here opens a socket or a file.
#![tactic(auto)]

mod durable_audit;
mod durable_laws;
mod durable_serve;
mod durable_session;
mod durable_solo;
mod durable_status;
mod serve;
mod serve_pool;
mod serve_report;
mod serve_status;
mod solo;
mod solo_status;

pub use durable_audit::audit_on_disk;
pub use durable_laws::commands_are_runs;
pub use durable_serve::serve_on_disk;
pub use durable_session::{DiskEnd, ServedDisk, serve_disk};
pub use durable_solo::solo_on_disk;
pub use serve::serve_by_settings;
pub use serve_pool::{Reached, serve_on_network};
pub use serve_report::print_report;
pub use serve_status::served_status;
pub use solo::{declare_by_settings, solo_by_settings};
pub use solo_status::session_status;
