//! The jobs of the upstream that are held.

ghost use Rattle.std.specs.Prelude.{◌≡◌, IfOk, count_by, map, position};
ghost use Rattle.proxy_rules.specs.Jobs as jobs;
ghost use Rattle.v1_translate.specs.SentMessages.{job_in};

use mining_msgs::{Mining, NewExtendedMiningJob, SetNewPrevHash};
use std::alloc::{AllocError, Global};
use std::marker::Model;
use sv2_types::{Seq32, U256};

/// How many future jobs are held at most.
const MOST_FUTURE: usize = 16;

/// How many live jobs are held at most.
const MOST_LIVE: usize = 64;

/// A job of the upstream, and its time; a future job has none.
#[derive(Drop)]
pub(crate) struct RelayedJob {
    number: u32,
    version: u32,
    path: Vec<[u8; 32]>,
    prefix: Vec<u8>,
    suffix: Vec<u8>,
    min_ntime: Option<u32>,
}

impl Model for RelayedJob {
    ghost use Rattle.std.specs.Prelude.{◌<◌, ◌^◌, length};
    ghost use Rattle.proxy_rules.specs.State as state;

    ghost Value = { state.RelayedJob };

    ghost view = { λ j. record {
      job = record {
        number = j.number;
        version = j.version;
        path = j.path.items;
        prefix = j.prefix.items;
        suffix = j.suffix.items;
      };
      min_ntime = j.min_ntime;
    } };

    ghost invariant = { λ j. length j.path.items < 2 ^ 16 };
}

impl RelayedJob {
    ghost use Rattle.std.specs.Prelude.{◌≡◌, Some, IfOk};
    ghost use Rattle.v1_translate.specs.Heard.{told_by, told_job};
    ghost use Rattle.v1_translate.specs.SentMessages.{job_in};
    ghost use Rattle.proxy_rules.specs.Jobs as jobs;

    /// A copy of what the message says.
    pub(crate) fn of(
        alloc: Global,
        message: &NewExtendedMiningJob<'_>,
    ) -> Result<RelayedJob, AllocError>
        ensures { IfOk result (λ job. job
            ≡ record { job = job_in message.now; min_ntime = message.now.min_ntime }) }
    {
        let path = Vec::from_slice(alloc, message.merkle_path.items())?;
        let prefix = Vec::from_slice(alloc, message.coinbase_tx_prefix)?;
        let suffix = Vec::from_slice(alloc, message.coinbase_tx_suffix)?;
        Ok(RelayedJob {
            number: message.job_id,
            version: message.version,
            path,
            prefix,
            suffix,
            min_ntime: message.min_ntime,
        })
    }

    pub(crate) fn number(&self) -> u32
        ensures { result ≡ self.now.job.number }
    {
        self.number
    }

    pub(crate) fn is_job(&self, number: u32) -> bool
        ensures { result ≡ jobs.is_job number self.now }
    {
        self.number == number
    }

    pub(crate) fn is_live(&self) -> bool
        ensures { result ≡ jobs.is_live self.now }
    {
        self.min_ntime.is_some()
    }

    /// Whether it is of the live jobs, or of the others.
    pub(crate) fn is_of_kind(&self, live: bool) -> bool
        ensures { result ≡ jobs.is_of_kind live self.now }
    {
        if live {
            self.is_live()
        } else {
            !self.is_live()
        }
    }

    /// A tip over it makes it live.
    pub(crate) fn go_live(&mut self, min_ntime: u32)
        ensures { self.new ≡ jobs.gone_live min_ntime self.old }
    {
        self.min_ntime = Some(min_ntime);
    }

    /// The message by which a session of Stratum V1 hears of it with this time, or without one.
    pub(crate) fn message(&self, min_ntime: Option<u32>) -> Mining<'_>
        ensures { told_by result ≡ told_job min_ntime self.now.job }
    {
        Mining::NewExtendedMiningJob(NewExtendedMiningJob {
            channel_id: 0,
            job_id: self.number,
            min_ntime,
            version: self.version,
            version_rolling_allowed: true,
            merkle_path: Seq32::of(self.path.as_slice()),
            coinbase_tx_prefix: self.prefix.as_slice(),
            coinbase_tx_suffix: self.suffix.as_slice(),
        })
    }

    /// The message with its own time.
    pub(crate) fn own_message(&self) -> Mining<'_>
        ensures { told_by result ≡ jobs.job_told self.now }
    {
        self.message(self.min_ntime)
    }
}

/// The last tip.
#[derive(Drop)]
pub(crate) struct RelayedTip {
    job: u32,
    prev_hash: U256,
    min_ntime: u32,
    nbits: u32,
}

impl Model for RelayedTip {
    ghost use Rattle.v1_translate.specs.Heard.{ToldTip};

    ghost Value = { ToldTip };

    ghost view = { λ t. record {
      job = t.job;
      prev_hash = t.prev_hash;
      min_ntime = t.min_ntime;
      nbits = t.nbits;
    } };
}

impl RelayedTip {
    ghost use Rattle.std.specs.Prelude.{◌≡◌};
    ghost use Rattle.v1_translate.specs.Heard.{Tipped, told_by};
    ghost use Rattle.v1_translate.specs.SentMessages.{tip_in};

    pub(crate) fn of(message: &SetNewPrevHash) -> RelayedTip
        ensures { result ≡ tip_in message.now }
    {
        RelayedTip {
            job: message.job_id,
            prev_hash: message.prev_hash,
            min_ntime: message.min_ntime,
            nbits: message.nbits,
        }
    }

    pub(crate) fn job(&self) -> u32
        ensures { result ≡ self.now.job }
    {
        self.job
    }

    pub(crate) fn min_ntime(&self) -> u32
        ensures { result ≡ self.now.min_ntime }
    {
        self.min_ntime
    }

    /// The message by which a session of Stratum V1 hears of it.
    pub(crate) fn message(&self) -> Mining<'static>
        ensures { told_by result ≡ Tipped self.now }
    {
        Mining::SetNewPrevHash(SetNewPrevHash {
            channel_id: 0,
            job_id: self.job,
            prev_hash: self.prev_hash,
            min_ntime: self.min_ntime,
            nbits: self.nbits,
        })
    }
}

/// Holds a copy of the job that a message says, as one more.
pub(crate) fn hold_job(
    alloc: Global,
    held: &mut Vec<RelayedJob>,
    message: &NewExtendedMiningJob<'_>,
) -> Result<(), AllocError>
    ensures { IfOk result (λ done. held.new.items ≡ jobs.with_job
        (record { job = job_in message.now; min_ntime = message.now.min_ntime })
        held.old.items) }
{
    let job = RelayedJob::of(alloc, message)?;
    add_job(held, job)
}

/// Holds a job behind the others, in place of an older one of its number.
fn add_job(held: &mut Vec<RelayedJob>, job: RelayedJob) -> Result<(), AllocError>
    ensures { IfOk result (λ done. held.new.items ≡ jobs.with_job job held.old.items) }
{
    let number = job.number();
    let live = job.is_live();
    remove(held, number);
    held.push(job)?;
    limit(held, live);
    Ok(())
}

/// Lets go of the jobs of a number.
fn remove(held: &mut Vec<RelayedJob>, number: u32)
    ensures { held.new.items ≡ jobs.without number held.old.items }
{
    held.retain(|job| !job.is_job(number));
}

/// Lets go of the oldest of a kind, where there are too many.
fn limit(held: &mut Vec<RelayedJob>, live: bool)
    ensures { held.new.items ≡ jobs.limited live held.old.items }
{
    let most = if live { MOST_LIVE } else { MOST_FUTURE };
    if count(held.as_slice(), live) > most {
        remove_first(held, live);
    }
}

fn count(held: &[RelayedJob], live: bool) -> usize
    ensures { result ≡ count_by (jobs.is_of_kind live) held.now }
{
    held.iter().filter(|job| job.is_of_kind(live)).count()
}

/// Lets go of the oldest of a kind.
fn remove_first(held: &mut Vec<RelayedJob>, live: bool)
    ensures { held.new.items ≡ jobs.without_first (jobs.is_of_kind live) held.old.items }
{
    match first_of(held.as_slice(), live) {
        Some(place) => {
            held.remove(place);
        }
        None => {}
    }
}

fn first_of(held: &[RelayedJob], live: bool) -> Option<usize>
    ensures { result ≡ position (jobs.is_of_kind live) held.now }
{
    held.iter().position(|job| job.is_of_kind(live))
}

/// Holds the job of a tip alone, as a live one.
pub(crate) fn tip_jobs(held: &mut Vec<RelayedJob>, tip: &RelayedTip)
    ensures { held.new.items ≡ jobs.over_tip tip.now held.old.items }
{
    keep(held, tip.job());
    all_live(held, tip.min_ntime());
}

/// Lets go of all jobs but those of a number.
fn keep(held: &mut Vec<RelayedJob>, number: u32)
    ensures { held.new.items ≡ jobs.only number held.old.items }
{
    held.retain(|job| job.is_job(number));
}

fn all_live(held: &mut Vec<RelayedJob>, min_ntime: u32)
    ensures { held.new.items ≡ map (jobs.gone_live min_ntime) held.old.items }
{
    for job in held.iter_mut() {
        job.go_live(min_ntime);
    }
}
