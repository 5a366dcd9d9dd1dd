//! What the credits of a legal history are.

ghost use Rattle.history_laws.specs.Credited.{CreditsAreBooked, CreditsFit, CreditsHaveHeaders, NoShareTwice};

/// A credit was admitted with the channel, the job and the tip that it is booked with, its hash
/// meets its class, and its header and its work are added to those of the earlier ones.
pub fn credits_are_booked()
    ensures { CreditsAreBooked }
{}

/// The header of each Credit of a legal history is among those that no later share may have.
pub fn credits_have_headers()
    ensures { CreditsHaveHeaders }
{}

/// In a legal history no header is credited twice.
pub fn no_share_twice()
    ensures { NoShareTwice }
{}

/// What a credit of a legal history counts is in its ranges: an account of 1 to 255 bytes, a work
/// of 1 to 2^60, and a reward below 2^40.
pub fn credits_fit()
    ensures { CreditsFit }
{}
