//! The limits that a legal history keeps.

ghost use Rattle.history_laws.specs.Limits.{JobsSpendTokens, LegalHistoriesKeepLimits, OwnJobsAreRead};

/// Enters, openings, open channels of a session, templates, tokens and credits are within their
/// limits, and there are no more jobs of miners' own than tokens: each of them spends one. All
/// other jobs are those of templates.
pub fn legal_histories_keep_limits()
    ensures { LegalHistoriesKeepLimits }
{}

/// Each job of a miner's own spends the token of an earlier Grant, which no other job spends.
pub fn jobs_spend_tokens()
    ensures { JobsSpendTokens }
{}

/// Each job of a miner's own was put together by the pool's script: its outputs are read, there is
/// one at least, what has a value pays to that script, and together they pay its reward, which is
/// below 2^40 satoshis.
pub fn own_jobs_are_read()
    ensures { OwnJobsAreRead }
{}
