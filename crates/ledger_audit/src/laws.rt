//! What is said of the ledgers that a pool keeps.

ghost use Rattle.ledger_audit.specs.Verdicts.{KeptLedgersAreLegal, OldLedgersAreLegal, VerdictsAreOne};

/// The ledger of a legal history that has records is legal.
pub fn kept_ledgers_are_legal()
    ensures { KeptLedgersAreLegal }
{}

/// So is its ledger of format 1.
pub fn old_ledgers_are_legal()
    ensures { OldLedgersAreLegal }
{}

/// No bytes have two verdicts.
pub fn verdicts_are_one()
    ensures { VerdictsAreOne }
{}
