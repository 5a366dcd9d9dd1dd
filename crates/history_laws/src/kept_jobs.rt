//! What has to be kept of jobs.

ghost use Rattle.history_laws.specs.KeptJobs.{KeptJobsMove, KeptJobsSuffice};

/// What is kept of jobs after a template, a tip or a miner's own job is told by what was kept
/// before it.
pub fn kept_jobs_move()
    ensures { KeptJobsMove }
{}

/// What is read of a history's jobs is read of what is kept, so stale templates needn't be.
pub fn kept_jobs_suffice()
    ensures { KeptJobsSuffice }
{}
