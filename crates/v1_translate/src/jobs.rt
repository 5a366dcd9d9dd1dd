//! The jobs that a session holds.

ghost use Rattle.std.specs.Prelude.{◌≡◌, ◌==◌, ◌∷◌, IfOk, option_map, position, take};
ghost use Rattle.v1_translate.specs.Messages as messages;
ghost use Rattle.v1_translate.specs.Submitting as submitting;

use crate::rolled_version;
use mining_msgs::NewExtendedMiningJob;
use std::alloc::{AllocError, Global};
use std::marker::Model;
use sv2_types::U256;
use v1_lines::NotifiedJob;

/// How many future jobs are held at most.
const MOST_FUTURE: usize = 16;

/// How many live jobs are held at most.
const MOST_LIVE: usize = 64;

/// A job that a session may be told of again.
#[derive(Drop)]
pub(crate) struct HeldJob {
    number: u32,
    version: u32,
    path: Vec<[u8; 32]>,
    prefix: Vec<u8>,
    suffix: Vec<u8>,
}

impl Model for HeldJob {
    ghost use Rattle.v1_translate.specs.Heard.{ToldJob};

    ghost Value = { ToldJob };

    ghost view = { λ job. record {
      number = job.number;
      version = job.version;
      path = job.path.items;
      prefix = job.prefix.items;
      suffix = job.suffix.items;
    } };
}

impl HeldJob {
    ghost use Rattle.std.specs.Prelude.{◌≡◌, IfOk};
    ghost use Rattle.v1_lines.specs.Jobs.{job_of};
    ghost use Rattle.v1_translate.specs.Messages as messages;
    ghost use Rattle.v1_translate.specs.State as state;
    ghost use Rattle.v1_translate.specs.SentMessages.{job_in};

    /// A copy of a message's own part.
    pub(crate) fn of(
        alloc: Global,
        message: &NewExtendedMiningJob<'_>,
    ) -> Result<HeldJob, AllocError>
        ensures { IfOk result (λ job. job ≡ job_in message.now) }
    {
        let path = Vec::from_slice(alloc, message.merkle_path.items())?;
        let prefix = Vec::from_slice(alloc, message.coinbase_tx_prefix)?;
        let suffix = Vec::from_slice(alloc, message.coinbase_tx_suffix)?;
        Ok(HeldJob {
            number: message.job_id,
            version: message.version,
            path,
            prefix,
            suffix,
        })
    }

    pub(crate) fn number(&self) -> u32
        ensures { result ≡ self.now.number }
    {
        self.number
    }

    pub(crate) fn version(&self) -> u32
        ensures { result ≡ self.now.version }
    {
        self.version
    }

    /// The job over a tip, as it is told.
    pub(crate) fn notified<'a>(
        &'a self,
        tip: &'a HeldTip,
        min_ntime: u32,
        clean_jobs: bool,
    ) -> NotifiedJob<'a>
        ensures { state.Job (job_of result)
            ≡ messages.notified self.now tip.now min_ntime clean_jobs }
    {
        NotifiedJob {
            job_id: self.number,
            prev_hash: tip.prev_hash.bytes(),
            prefix: self.prefix.as_slice(),
            suffix: self.suffix.as_slice(),
            path: self.path.as_slice(),
            version: self.version,
            nbits: tip.nbits,
            min_ntime,
            clean_jobs,
        }
    }
}

/// The tip that live jobs are over.
#[derive(Drop)]
pub(crate) struct HeldTip {
    prev_hash: U256,
    nbits: u32,
}

impl Model for HeldTip {
    ghost use Rattle.v1_translate.specs.State.{Tip};

    ghost Value = { Tip };

    ghost view = { λ tip. record { prev_hash = tip.prev_hash; nbits = tip.nbits } };
}

impl HeldTip {
    ghost use Rattle.std.specs.Prelude.{◌≡◌};

    pub(crate) fn new(prev_hash: U256, nbits: u32) -> HeldTip
        ensures { result ≡ record { prev_hash = prev_hash; nbits = nbits } }
    {
        HeldTip { prev_hash, nbits }
    }
}

/// The jobs that are held, the newest first, and the last tip.
#[derive(Drop)]
pub(crate) struct Jobs {
    future: Vec<HeldJob>,
    live: Vec<HeldJob>,
    tip: Option<HeldTip>,
}

impl Model for Jobs {
    ghost use Rattle.v1_translate.specs.State.{HeldJobs};

    ghost Value = { HeldJobs };

    ghost view = { λ jobs. record {
      future = jobs.future.items;
      live = jobs.live.items;
      tip = jobs.tip;
    } };
}

impl Jobs {
    ghost use Rattle.std.specs.Prelude.{◌≡◌, IfOk, Some, [], option_map};
    ghost use Rattle.v1_translate.specs.Messages as messages;
    ghost use Rattle.v1_translate.specs.State.{no_jobs};
    ghost use Rattle.v1_translate.specs.Submitting as submitting;

    /// No job.
    pub(crate) fn new(alloc: Global) -> Jobs
        ensures { result ≡ no_jobs }
    {
        Jobs {
            future: Vec::new(alloc),
            live: Vec::new(alloc),
            tip: None,
        }
    }

    pub(crate) fn tip(&self) -> Option<&HeldTip>
        ensures { option_map (λ tip. tip.now) result ≡ self.now.tip }
    {
        self.tip.as_ref()
    }

    /// The job of a number, where it is held.
    pub(crate) fn held(&self, number: u32) -> Option<&HeldJob>
        ensures { option_map (λ job. job.now) result ≡ submitting.held_job self.now number }
    {
        match job_among(self.live.as_slice(), number) {
            Some(job) => Some(job),
            None => job_among(self.future.as_slice(), number),
        }
    }

    /// The version of a share for a job: 0 where it isn't held.
    pub(crate) fn share_version(&self, number: u32, mask: u32, bits: Option<u32>) -> u32
        ensures { result
            ≡ submitting.share_version (submitting.held_job self.now number) mask bits }
    {
        match self.held(number) {
            Some(job) => rolled_version(job.version(), mask, bits),
            None => 0,
        }
    }

    /// Holds a future job, in place of an older one of its number.
    pub(crate) fn add_future(&mut self, job: HeldJob) -> Result<(), AllocError>
        ensures { IfOk result (λ done. self.new ≡ messages.with_future job self.old) }
    {
        let number = job.number();
        remove(&mut self.future, number);
        remove(&mut self.live, number);
        put_newest(&mut self.future, job, MOST_FUTURE)
    }

    /// Holds a live job, in place of an older one of its number.
    pub(crate) fn add_live(&mut self, job: HeldJob) -> Result<(), AllocError>
        ensures { IfOk result (λ done. self.new ≡ messages.with_live job self.old) }
    {
        let number = job.number();
        remove(&mut self.future, number);
        remove(&mut self.live, number);
        put_newest(&mut self.live, job, MOST_LIVE)
    }

    /// Holds the job of a tip alone, as the live one, where it was held.
    pub(crate) fn over_tip(&mut self, number: u32, tip: HeldTip) -> Result<(), AllocError>
        ensures { IfOk result (λ done. self.new
            ≡ record {
              future = [];
              live = messages.alone (submitting.held_job self.old number);
              tip = Some tip;
            }) }
    {
        let job = match take_job(&mut self.live, number) {
            Some(job) => Some(job),
            None => take_job(&mut self.future, number),
        };
        self.future.clear();
        self.live.clear();
        self.tip = Some(tip);
        match job {
            Some(job) => Ok(self.live.push(job)?),
            None => Ok(()),
        }
    }
}

/// The first job of a number.
fn job_among(jobs: &[HeldJob], number: u32) -> Option<&HeldJob>
    ensures { option_map (λ job. job.now) result ≡ submitting.job_among number jobs.now }
{
    match place_among(jobs, number) {
        Some(place) => Some(&jobs[place]),
        None => None,
    }
}

/// Takes the first job of a number out of its list.
fn take_job(jobs: &mut Vec<HeldJob>, number: u32) -> Option<HeldJob>
    ensures { result ≡ submitting.job_among number jobs.old.items }
{
    match place_among(jobs.as_slice(), number) {
        Some(place) => Some(jobs.remove(place)),
        None => None,
    }
}

/// The place of the first job of a number.
fn place_among(jobs: &[HeldJob], number: u32) -> Option<usize>
    ensures { result ≡ position (λ job. job.number == number) jobs.now }
{
    jobs.iter().position(|job| job.number() == number)
}

/// Lets go of the jobs of a number.
fn remove(jobs: &mut Vec<HeldJob>, number: u32)
    ensures { jobs.new.items ≡ messages.without number jobs.old.items }
{
    jobs.retain(|job| job.number() != number);
}

/// Puts a job before the others, of which the oldest goes where there are too many.
fn put_newest(jobs: &mut Vec<HeldJob>, job: HeldJob, most: usize) -> Result<(), AllocError>
    ensures { IfOk result (λ done. jobs.new.items ≡ take most (job ∷ jobs.old.items)) }
{
    jobs.insert(0, job)?;
    jobs.truncate(most);
    Ok(())
}
