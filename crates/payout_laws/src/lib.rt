//! The laws of payouts: what each legal history keeps of its rewards. It settles no block: the
//! definitions of `pool_history` do, and each law is the contract of a function with nothing to
//! compute.
#![tactic(auto)]

mod fees;
mod laws;

pub use fees::fee_of;
pub use laws::{
    balances_are_rewards, balances_are_sums, blocks_are_credits, blocks_by_places,
    payouts_are_quotients, rewards_are_conserved, settlements_are_of_blocks,
    summaries_are_of_blocks, weights_by_places,
};
