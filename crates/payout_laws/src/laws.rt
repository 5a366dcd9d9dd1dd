//! What each block and each history keep of their rewards.

ghost use Rattle.payout_laws.specs.Blocks.{BalancesAreRewards, BlocksAreCredits, SettlementsAreOfBlocks};
ghost use Rattle.payout_laws.specs.Conservation.{RewardsAreConserved};
ghost use Rattle.payout_laws.specs.Payouts.{BalancesAreSums, PayoutsAreQuotients};
ghost use Rattle.payout_laws.specs.Placed.{BlocksByPlaces};
ghost use Rattle.payout_laws.specs.Summaries.{SummariesAreOfBlocks};
ghost use Rattle.payout_laws.specs.Weights.{WeightsByPlaces};

/// Each block of a legal history: its reward is its payouts plus the pool's part. The part beyond
/// the fee is less than one satoshi for each account with a weight, and each payout is its exact
/// share, rounded down.
pub fn rewards_are_conserved()
    ensures { RewardsAreConserved }
{}

/// An account's weight in a block is the sum of its credits' parts, each by its place: by the
/// proportional rule its work where no block stands between, by PPLNS what the window has left
/// after the work behind it. All weights are the sum of all parts.
pub fn weights_by_places()
    ensures { WeightsByPlaces }
{}

/// An account is paid the quotient of its weight by all weights, both by the places of credits, of
/// the reward after the fee, and nothing without a weight.
pub fn payouts_are_quotients()
    ensures { PayoutsAreQuotients }
{}

/// The blocks are the credits with a reward, each with the credits up to it, and no others.
pub fn blocks_are_credits()
    ensures { BlocksAreCredits }
{}

/// A credit of a legal history is a block of it, with its job's reward and the credits before it,
/// exactly where its hash is at most the target of the tip that it was booked with.
pub fn blocks_by_places()
    ensures { BlocksByPlaces }
{}

/// The settlements are those of the blocks, one for each, in their order.
pub fn settlements_are_of_blocks()
    ensures { SettlementsAreOfBlocks }
{}

/// An account's balance is the sum of what it is due of all blocks.
pub fn balances_are_sums()
    ensures { BalancesAreSums }
{}

/// The balances of all accounts and what the pool has are together the rewards of all blocks.
pub fn balances_are_rewards()
    ensures { BalancesAreRewards }
{}

/// The summary of a history that begins with rules has each account with a credit once, and no
/// other, with the work of its credits and what all blocks owe it, what the pool keeps of them, and
/// how many blocks and credits there are. In a legal history the credits are its Credit events.
pub fn summaries_are_of_blocks()
    ensures { SummariesAreOfBlocks }
{}
