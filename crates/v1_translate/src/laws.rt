//! What holds of every session, whatever it heard.

ghost use Rattle.v1_translate.specs.Laws.{
  FewJobsAreHeld,
  MasksAreCut,
  NoRequestIsLost,
  RequestsAreAnsweredOnce,
  SessionsAskOnTheirChannel,
  StatesAreOfWhatWasHeard,
  VersionsAreTheJobs,
};

/// The channel and the held jobs are of the messages alone, the mask of the lines alone, and the
/// sequence number of the shares that were sent on.
pub fn states_are_of_what_was_heard()
    ensures { StatesAreOfWhatWasHeard }
{}

/// No request is answered twice, and none is answered that waits.
pub fn requests_are_answered_once()
    ensures { RequestsAreAnsweredOnce }
{}

/// Where openings and names are answered before the next line, each request is answered or waits.
pub fn no_request_is_lost()
    ensures { NoRequestIsLost }
{}

/// At most 16 future and 64 live jobs are held, and none twice.
pub fn few_jobs_are_held()
    ensures { FewJobsAreHeld }
{}

/// A channel is opened once, and all else is asked on it, a name only for a known account.
pub fn sessions_ask_on_their_channel()
    ensures { SessionsAskOnTheirChannel }
{}

/// A mask has no bits but those that the rules let roll.
pub fn masks_are_cut()
    ensures { MasksAreCut }
{}

/// A share's version is its job's but for bits that may be rolled.
pub fn versions_are_the_jobs()
    ensures { VersionsAreTheJobs }
{}
