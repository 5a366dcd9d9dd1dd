//! What follows from the definitions alone.

ghost use Rattle.job_declaration.specs.Laws.{PathsAreShort, PathsLeadToTheRoot};

/// An id with the path of those behind it leads to the root over it and them.
pub fn paths_lead_to_the_root()
    ensures { PathsLeadToTheRoot }
{}

/// A path has few hashes: at most 16 for 65,535 ids.
pub fn paths_are_short()
    ensures { PathsAreShort }
{}
