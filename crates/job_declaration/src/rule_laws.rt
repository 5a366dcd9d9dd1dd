//! What follows from the definitions alone.

ghost use Rattle.job_declaration.specs.RuleLaws.{AllAskedPathsAreOfTransactions, GivenWereGranted, ListsWaitForMissing};

/// Each path that a Grant is asked for is that of the ids of transactions, which have the witness ids
/// that its declaration lists, in their order.
pub fn asked_paths_are_of_transactions()
    ensures { AllAskedPathsAreOfTransactions }
{}

/// A declaration with a good token and coinbase waits where a place of its list is missing, and is
/// accepted where none is.
pub fn lists_wait_for_missing()
    ensures { ListsWaitForMissing }
{}

/// Each token that was given was granted when the session had asked for one for its user: a token
/// that answers a declaration is none of these.
pub fn given_tokens_were_granted()
    ensures { GivenWereGranted }
{}
