//! What the calls that made a history leave.

ghost use Rattle.history_laws.specs.Serving.{CallsAreAnswered, CallsAreJudged, CallsKeepLegality, CreditsAreCalled, SessionsAskBehindTheirEnter};

/// Good calls that part a history from a legal beginning on leave it legal, in whatever order they
/// came and whatever failed.
pub fn calls_keep_legality()
    ensures { CallsKeepLegality }
{}

/// A call that was answered was answered by the history before it.
pub fn calls_are_answered()
    ensures { CallsAreAnswered }
{}

/// A share that such a call was to book, and that was answered, is judged by the history before the
/// call.
pub fn calls_are_judged()
    ensures { CallsAreJudged }
{}

/// Each Credit behind the first events was booked by one of the calls, for its own session, where
/// the history before it fails no condition.
pub fn credits_are_called()
    ensures { CreditsAreCalled }
{}

/// What a caller asks behind the call that entered its session finds the session entered, whatever
/// others called.
pub fn sessions_ask_behind_their_enter()
    ensures { SessionsAskBehindTheirEnter }
{}
