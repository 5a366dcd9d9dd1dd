//! Lists of jobs, the oldest first.

ghost use Rattle.std.specs.Prelude.{◌≡◌, ◌+◌, ◌<◌, ◌≤◌, ◌==◌, ◌||◌, ◌∷◌, [], ◌++◌, IfNone, OnSome, count_by, find, length, map, position, vec_capacity, vec_len};
ghost use Rattle.std.specs.List.{list_any};
ghost use Rattle.std.specs.Option.{option_copied, option_map};
ghost use Rattle.pool_history.specs.Jobs.{has_template, is_own, last, last_of};
ghost use Rattle.template_jobs.specs.HeldJobs.{as_job};
ghost use Rattle.pool_history.specs.Refusing.{is_template_known};
ghost use Rattle.template_jobs.specs.Lists.{of_template, surplus, turned_live, without_surplus};

use crate::job::Job;

/// Whether a job with a number is among these.
pub(crate) fn has_number(jobs: &[Job], number: u32) -> bool
    ensures { result ≡ list_any (λ job. job.number == number) jobs.now }
{
    jobs.iter().any(|job| job.number() == number)
}

/// Whether a job with a number is among the one or the other.
pub(crate) fn has_number_in(jobs: &[Job], others: &[Job], number: u32) -> bool
    ensures { result ≡ (list_any (λ job. job.number == number) jobs.now
        || list_any (λ job. job.number == number) others.now) }
{
    has_number(jobs, number) || has_number(others, number)
}

/// The job with a number among these.
pub(crate) fn job_numbered(jobs: &[Job], number: u32) -> Option<&Job>
    ensures { option_copied result ≡ find (λ job. job.number == number) jobs.now }
{
    jobs.iter().find(|job| job.number() == number)
}

/// Whether a job of a template is among these.
fn has_template_in(jobs: &[Job], id: u64) -> bool
    ensures { result ≡ list_any (λ job. has_template id job.source) jobs.now }
{
    jobs.iter().any(|job| job.has_template(id))
}

/// Whether a job of a template is among the one or the other.
pub(crate) fn is_template_known(jobs: &[Job], others: &[Job], id: u64) -> bool
    ensures { result ≡ is_template_known (map as_job (jobs.now ++ others.now)) id }
{
    has_template_in(jobs, id) || has_template_in(others, id)
}

/// The number of a template's job among these.
pub(crate) fn number_of_template(jobs: &[Job], id: u64) -> Option<u32>
    ensures { result ≡ option_map (λ job. job.number) (of_template id jobs.now) }
{
    match jobs.iter().find(|job| job.has_template(id)) {
        Some(job) => Some(job.number()),
        None => None,
    }
}

/// The number of the last of these.
pub(crate) fn last_number(jobs: &[Job]) -> Option<u32>
    ensures { result ≡ option_map (λ job. job.number) (last_of jobs.now) }
{
    match jobs.last() {
        Some(job) => Some(job.number()),
        None => None,
    }
}

/// The place of a template's job among these.
fn place_of_template(jobs: &[Job], id: u64) -> Option<usize>
    ensures { result ≡ position (λ job. has_template id job.source) jobs.now }
{
    jobs.iter().position(|job| job.has_template(id))
}

/// How many of these are a channel's own.
fn own_count(jobs: &[Job], channel: u32) -> usize
    ensures { result ≡ count_by (λ job. is_own channel job.source) jobs.now }
{
    jobs.iter().filter(|job| job.is_own(channel)).count()
}

/// The place of the first of a channel's own among these.
fn place_of_own(jobs: &[Job], channel: u32) -> Option<usize>
    ensures { result ≡ position (λ job. is_own channel job.source) jobs.now }
{
    jobs.iter().position(|job| job.is_own(channel))
}

/// The place of the oldest of a channel's own jobs, where they are more than sixteen.
fn surplus_at(jobs: &[Job], channel: u32) -> Option<usize>
    ensures { result ≡ surplus channel jobs.now }
{
    if own_count(jobs, channel) > 16 {
        place_of_own(jobs, channel)
    } else {
        None
    }
}

/// Puts a job behind the others, for which there is room.
fn put(jobs: &mut Vec<Job>, job: Job)
    requires { vec_len jobs.old < vec_capacity jobs.old }
    ensures items { jobs.new.items ≡ jobs.old.items ++ job ∷ [] }
    ensures len { vec_len jobs.new ≡ vec_len jobs.old + 1 }
{
    let _done = jobs.push(job);
}

/// Puts a job behind the others, for which there is room, and drops the oldest where they are then
/// more than so many.
pub(crate) fn put_last(jobs: &mut Vec<Job>, most: usize, job: Job)
    requires room { vec_len jobs.old < vec_capacity jobs.old }
    requires few { length jobs.old.items ≤ most }
    ensures items { jobs.new.items ≡ last most (jobs.old.items ++ job ∷ []) }
    ensures few { length jobs.new.items ≤ most }
{
    put(jobs, job);
    if jobs.as_slice().len() > most {
        jobs.remove(0);
    }
}

/// Puts a channel's own job behind the others, for which there is room, and drops that channel's
/// oldest where they are then more than sixteen.
pub(crate) fn put_own(jobs: &mut Vec<Job>, channel: u32, job: Job)
    requires room { vec_len jobs.old < vec_capacity jobs.old }
    ensures { jobs.new.items ≡ without_surplus channel (jobs.old.items ++ job ∷ []) }
{
    put(jobs, job);
    if let Some(at) = surplus_at(jobs, channel) {
        jobs.remove(at);
    }
}

/// Makes the job of a template live and drops the others; answers its number. Where there is none,
/// nothing changes.
pub(crate) fn make_live(jobs: &mut Vec<Job>, id: u64, at: u64) -> Option<u32>
    ensures number { result ≡ option_map (λ job. job.number) (of_template id jobs.old.items) }
    ensures live { OnSome result (jobs.new.items ≡ turned_live at (of_template id jobs.old.items)) }
    ensures none { IfNone result (jobs.new ≡ jobs.old) }
{
    let Some(place) = place_of_template(jobs, id) else {
        return None;
    };
    let mut job = jobs.remove(place);
    job.turn_live(at);
    let number = job.number();
    jobs.clear();
    put(jobs, job);
    Some(number)
}
