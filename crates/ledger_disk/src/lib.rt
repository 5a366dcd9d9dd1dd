//! A disk as a trait that tells what it did, call by call, and its form in memory, which can crash; and
//! what gives disks by their names, as a trait and in memory. Nothing here touches a real file.
//!
//! A ledger on a disk: an entry is there for good before its append is answered, and of one that
//! wasn't answered a crash leaves all or nothing. Nothing here knows what entries say.
#![tactic(auto)]

mod disk;
mod disks;
mod ledger;
mod memory;
mod named;
mod opening;
mod past;
mod reading;
mod steps;
mod tearing;

pub use disk::{Disk, DiskFailed, Doing};
pub use disks::Disks;
pub use ledger::DiskLedger;
pub use memory::{Failures, MemDisk};
pub use named::{MemDisks, NamedDisk};
pub use opening::DiskOpenError;
