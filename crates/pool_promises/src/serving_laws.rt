//! What each caller of a served pool was answered.

ghost use Rattle.pool_promises.specs.Order.{FramesStandInOrder, LinesStandInOrder};
ghost use Rattle.pool_promises.specs.Serving.{LineSessionsAreAnswered, ServedCallersAreAnswered};
ghost use Rattle.pool_promises.specs.Shares.{FrameSessionsAreAnswered};

/// The pool replies to each request of a session of lines, or the keeper fails, whatever others
/// call: so each id is answered just as often as it was asked.
pub fn line_sessions_are_answered()
    ensures { LineSessionsAreAnswered }
{}

/// The pool replies to each share of a session of frames, or the call is a fault: so the shares that were
/// met are those that were answered, in their order, each by its own Success or Error.
pub fn frame_sessions_are_answered()
    ensures { FrameSessionsAreAnswered }
{}

/// So it is with each caller of each door, in whichever language.
pub fn served_callers_are_answered()
    ensures { ServedCallersAreAnswered }
{}

/// A session of frames goes on only once an answer is kept, and then put: behind a put that failed, and
/// behind a call that is a fault, it takes no turn and puts nothing.
pub fn frames_stand_in_order()
    ensures { FramesStandInOrder }
{}

/// So does one of lines.
pub fn lines_stand_in_order()
    ensures { LinesStandInOrder }
{}
