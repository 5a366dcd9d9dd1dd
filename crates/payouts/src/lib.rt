//! Payouts: the tally of credits, and the settlements of blocks. It keeps no credit that counts
//! nothing for a later block, and pays nobody: what is paid is what its settlements say.
//!
//! The text of a summary: how many sessions, events, credits and blocks there were, what stayed
//! with the pool, and what each account has worked and is owed. It sums nothing up by itself: the
//! numbers are those of a tally.
#![tactic(auto)]

mod accounts;
mod lines;
mod places;
mod quotients;
mod settlement;
mod sums;
mod tally;
mod weights;
mod window;
mod writing;

pub use lines::put_line;
pub use quotients::quotient;
pub use settlement::{Payout, Payouts, Settlement};
pub use tally::{AccountSums, Rule, Tally, TallyPlan};
pub use writing::write_summary;
