//! What a session that takes declarations leaves.

ghost use Rattle.pool_promises.specs.DeclaredLedgers.{DeclarationsAreAnswered, DeclareLeavesDeclared, HistoriesFixListedPaths};

use crate::{
    declarations_are_by_the_rules, declared_grants_are_answered, fixed_paths_are_asked_for,
    fixed_paths_are_of_listed_transactions,
};

/// Each path that the history of a session fixes is that of the transactions which a declaration of
/// the session listed, in their order.
pub fn histories_fix_listed_paths()
    ensures { HistoriesFixListedPaths }
{
    fixed_paths_are_asked_for();
    fixed_paths_are_of_listed_transactions();
}

/// Each declaration that has a Grant asked for is answered by the next step, unless the ledger, the
/// write or memory fails there.
pub fn declarations_are_answered()
    ensures { DeclarationsAreAnswered }
{
    declared_grants_are_answered();
}

/// So it is with what each row of the command `declare` leaves: with its whole history, and with each
/// declaration of its session. Each frame of one is answered by the rules.
pub fn declare_leaves_declared()
    ensures { DeclareLeavesDeclared }
{
    declarations_are_by_the_rules();
    declarations_are_answered();
    histories_fix_listed_paths();
}
