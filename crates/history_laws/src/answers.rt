//! What answers do to a legal history.

ghost use Rattle.history_laws.specs.Answered.{AnswersKeepLegality, BriefsRoll, CreditsAreCommitted, SharesAreBriefed, SharesAreJudged, SharesNeedASession};
ghost use Rattle.history_laws.specs.Fitting.{AnswersFit};

/// The events of an answer keep a legal history legal.
pub fn answers_keep_legality()
    ensures { AnswersKeepLegality }
{}

/// A share that is to be booked is credited exactly where none of the nine conditions fails, and
/// else refused by the first that fails, without event.
pub fn shares_are_judged()
    ensures { SharesAreJudged }
{}

/// A share whose header is still to be computed makes no event; it is refused by the first
/// condition that fails where that is one of the first six, and else told what its header is made
/// of.
pub fn shares_are_briefed()
    ensures { SharesAreBriefed }
{}

/// A submission that is answered by a Brief has just the bytes that the Brief's kind and lead roll.
pub fn briefs_roll()
    ensures { BriefsRoll }
{}

/// A worker may submit shares, or each of its shares is answered that it has no session, without
/// event.
pub fn shares_need_a_session()
    ensures { SharesNeedASession }
{}

/// Only a share that is to be booked makes a Credit: that of its worker's own session, where no
/// condition fails.
pub fn credits_are_committed()
    ensures { CreditsAreCommitted }
{}

/// What the answer to any request on a legal history says is in the ranges of its types: classes,
/// leads, sessions and scripts, and each note of the news; and no refusal in it is a lack of memory.
pub fn answers_fit()
    ensures { AnswersFit }
{}
