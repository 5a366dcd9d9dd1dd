//! The live job that a share is mined on.

ghost use Rattle.std.specs.Prelude.{◌≡◌, ◌++◌, ◌&&◌, List, ℕ, Ok, Err, IfErr, IfOk, IfSome, IsTrue, None};
ghost use Rattle.std.specs.Option.{option_copied, option_map};
ghost use Rattle.history_laws.specs.KeptJobs.{is_mineable_by, state_by};
ghost use Rattle.pool_history.specs.Jobs.{job_numbered};
ghost use Rattle.pool_history.specs.Judging.{is_known_state, min_ntime_of, share_of, version_of};
ghost use Rattle.pool_tables.specs.Admission.{Mined as MinedJob, mined_by, mined_on, rolled_for};
ghost use Rattle.template_jobs.specs.HeldJobs.{HasCoinbase, as_job};
ghost use Rattle.template_jobs.specs.Tables.{HasCoinbases, kept_jobs};

use crate::conditions::{is_in_window, is_version_of};
use pool_history::{Failed, JobState, Rules, Submission, TipData};
use template_jobs::{Job, Jobs};

/// A live job, since when it is, and the tip that it builds upon.
#[derive(Clone, Copy)]
pub(crate) struct Mined<'a> {
    pub job: &'a Job,
    pub live_at: u64,
    pub tip: &'a TipData,
}

/// The live job of a share: the third and the fourth condition.
pub(crate) fn mined_job<'a>(jobs: &'a Jobs, sub: &Submission) -> Result<Mined<'a>, Failed>
    ensures found { IfOk result (λ mined. mined_by (kept_jobs jobs.now) (share_of sub.now)
        ≡ Ok (mined_on mined.job.now mined.live_at mined.tip.now)) }
    ensures coinbase { IfOk result (λ mined. (script : List ℕ) → HasCoinbases script jobs.now
        → HasCoinbase script mined.job.now) }
    ensures refused { IfErr result (λ code.
        mined_by (kept_jobs jobs.now) (share_of sub.now) ≡ Err code) }
{
    if !is_known(jobs, sub.channel, sub.job) {
        return Err(Failed::Job);
    }
    let Some(job) = live_job(jobs, sub.job) else {
        return Err(Failed::Stale);
    };
    let Some(live_at) = job.live_at() else {
        return Err(Failed::Stale);
    };
    let Some(tip) = jobs.tip() else {
        return Err(Failed::Stale);
    };
    Ok(Mined { job, live_at, tip })
}

/// Why a miner may not roll a share so: the fifth and the sixth condition.
pub(crate) fn rolled_too_far(rules: &Rules, sub: &Submission, mined: Mined<'_>) -> Option<Failed>
    ensures none { result ≡ None → rolled_for rules.now (share_of sub.now)
        (mined_on mined.entry.job.now mined.entry.live_at mined.entry.tip.now)
        ≡ Ok (mined_on mined.entry.job.now mined.entry.live_at mined.entry.tip.now) }
    ensures some { IfSome result (λ code. rolled_for rules.now (share_of sub.now)
        (mined_on mined.entry.job.now mined.entry.live_at mined.entry.tip.now) ≡ Err code) }
{
    if !is_version_of(rules, sub.version, mined.job.version()) {
        return Some(Failed::Version);
    }
    if !is_in_window(rules, least_time(mined.job, mined.tip), sub.ntime) {
        return Some(Failed::Ntime);
    }
    None
}

/// The least time of a live job's shares: the tip's, or that of a miner's own job.
fn least_time(job: &Job, tip: &TipData) -> u32
    ensures { result ≡ min_ntime_of job.now.source tip.now }
{
    match job.min_ntime() {
        Some(least) => least,
        None => tip.header_timestamp,
    }
}

/// Whether a number is that of a job that is or was live, and no other channel's own.
fn is_known(jobs: &Jobs, channel: u32, job: u32) -> bool
    ensures { result ≡ (is_known_state (state_by (kept_jobs jobs.now) job)
        && is_mineable_by (kept_jobs jobs.now) channel job) }
{
    match jobs.state(job) {
        JobState::Live | JobState::Stale => jobs.is_mineable(channel, job),
        JobState::Unknown | JobState::Future => false,
    }
}

/// The live job with a number that isn't a future one's.
fn live_job(jobs: &Jobs, job: u32) -> Option<&Job>
    requires { IsTrue (is_known_state (state_by (kept_jobs jobs.now) job)) }
    ensures job { option_map as_job (option_copied result)
        ≡ job_numbered job ((kept_jobs jobs.now).live ++ (kept_jobs jobs.now).custom) }
    ensures coinbase { (script : List ℕ) → HasCoinbases script jobs.now
        → IfSome (option_copied result) (HasCoinbase script) }
{
    jobs.job(job)
}
