//! The header of a share and its hash, which need no history. It judges nothing, and copies no
//! coinbase and no path.
//!
//! Headers of shares that were foreseen, four worked out side by side. They are asked for by what
//! the share was submitted with, so that one that was foreseen wrongly is never used.
#![tactic(auto)]

mod briefs;
mod checking;
mod foresight;
mod four;
mod hashing;
mod laws;
mod parts;
mod roots;
mod shares;

pub use briefs::{brief_of, is_brief_of, parts_of};
pub use checking::{check, header_by_parts};
pub use foresight::{Foresight, SharesAhead};
pub use four::Candidate;
pub use hashing::{header_of, rolled_length, whole_extranonce};
pub use laws::checked_headers_are_rebuilt;
pub use parts::Parts;
pub use pool_history::{Brief, Checked, Kind, Lead, Submission};
pub use shares::ForeseenShares;
