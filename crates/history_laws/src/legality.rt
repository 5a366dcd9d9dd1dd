//! When a history is legal.

ghost use Rattle.history_laws.specs.Legality.{EmptyIsLegal, FirstIllegalIsOne, LegalHistoriesStart, LegalityByPlaces, LegalityIsDecided, OneMoreIsLegal, PrefixesAreLegal, StartIsLegal};

/// The history of no event is legal.
pub fn empty_is_legal()
    ensures { EmptyIsLegal }
{}

/// A Start with rules in their ranges is legal as the first event.
pub fn start_is_legal()
    ensures { StartIsLegal }
{}

/// Each front of a legal history is legal.
pub fn prefixes_are_legal()
    ensures { PrefixesAreLegal }
{}

/// What one more event needs to keep a history legal: that it has no cause.
pub fn one_more_is_legal()
    ensures { OneMoreIsLegal }
{}

/// A history is legal exactly where no event of it, wherever it stands, has a cause after the
/// events before it.
pub fn legality_by_places()
    ensures { LegalityByPlaces }
{}

/// A history is legal, or it has a first event that isn't.
pub fn legality_is_decided()
    ensures { LegalityIsDecided }
{}

/// A history that has a first illegal event isn't legal, and it has no other, with no other cause.
pub fn first_illegal_is_one()
    ensures { FirstIllegalIsOne }
{}

/// A legal history is empty, or begins with the Start of its rules.
pub fn legal_histories_start()
    ensures { LegalHistoriesStart }
{}
