//! What the definitions say in two ways is the same.

ghost use Rattle.pool_history.specs.ByPlaces.{ClassesByPlaces, JobsByPlaces, StatesByPlaces};

/// The jobs that the recursion over the past gives are those that the words by places give: which
/// are future and live, each with the place since when it is.
pub fn jobs_by_places()
    ensures { JobsByPlaces }
{}

/// The state of a number, future, live, stale or unknown, is the one that the words by places say.
pub fn states_by_places()
    ensures { StatesByPlaces }
{}

/// The class of an open channel at a job is that of its last Class event before the job became
/// live, or else of its opening.
pub fn classes_by_places()
    ensures { ClassesByPlaces }
{}
