//! What each end of a session of lines comes from.

ghost use Rattle.v1_sessions.specs.LimitLaws.{GoodLinesEndWell, LineEndsHaveCauses, LineSessionsEnterFirst, LineSessionsKeepLimits};

/// A session is done only where its input ended and all of it was heard. It ends for its Idle turns,
/// its bytes, a full pool, its ledger, a read or a write only where the limit was reached, the pool
/// answered so, or that failed; in the middle of a line only at the end of the input; for a line
/// that is too long only where the bytes that aren't heard begin with one; and for no frame.
pub fn line_ends_have_causes()
    ensures { LineEndsHaveCauses }
{}

/// No session takes a turn once a limit is reached.
pub fn line_sessions_keep_limits()
    ensures { LineSessionsKeepLimits }
{}

/// A session asks to enter first, and never again.
pub fn line_sessions_enter_first()
    ensures { LineSessionsEnterFirst }
{}

/// Whole lines of at most 4,096 bytes each that reach no limit are served to their end, or memory ran
/// out, where nothing else failed and the pool wasn't full.
pub fn good_lines_end_well()
    ensures { GoodLinesEndWell }
{}
