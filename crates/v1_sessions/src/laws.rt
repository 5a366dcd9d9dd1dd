//! What holds of each session of lines.

ghost use Rattle.v1_sessions.specs.Laws.{RequestsAreAnswered, SaidIsPut, SessionsAreFolds, TakenIsHeard};

/// However the bytes came, those that a session took are the lines that it heard, each with its end,
/// and then what isn't heard.
pub fn taken_bytes_are_heard()
    ensures { TakenIsHeard }
{}

/// What a session knows of Stratum V1 is the fold over all that it heard: its lines, and what its
/// calls were answered.
pub fn sessions_are_folds()
    ensures { SessionsAreFolds }
{}

/// Where no put failed, a session put the lines of all that it says to what it heard, in order.
pub fn said_is_put()
    ensures { SaidIsPut }
{}

/// Where the pool replies to each request, each line that asks is answered, once, before the next one
/// is heard.
pub fn requests_are_answered()
    ensures { RequestsAreAnswered }
{}
