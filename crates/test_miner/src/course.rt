//! Where a miner stands between two frames.

ghost use Rattle.std.specs.Prelude.{◌≡◌, ◌==◌, ◌<◌, ◌^◌, None, IsSome, OnOk, find, reverse};
ghost use Rattle.std.specs.Option.{option_copied};
ghost use Rattle.test_miner.specs.Courses.{
  cut_off,
  credit,
  due,
  hear,
  job_named,
  job_taken,
  open_channel,
  reject,
  set_up,
  share_found,
  tip_taken,
  tries_made,
  with_current,
  with_job,
};

use crate::notice::Notice;
use crate::trying::{CurrentJob, MinedShare, Try, make_tries};
use mining_msgs::{NewMiningJob, SetNewPrevHash};
use std::alloc::{AllocError, Global};
use std::marker::Model;

/// The version of the protocol.
const VERSION: u16 = 2;

/// The id of the miner's one request.
const REQUEST: u32 = 1;

/// How many sequence numbers there are.
const NUMBERS: u64 = 1 << 32;

/// How a miner ends, and how many of its submissions were credited.
#[derive(Clone, Copy)]
pub enum MinerEnd {
    /// As many as were wanted.
    Mined(u32),
    /// The other end refused it, said no message where one was due, or said no more.
    Ended(u32),
}

/// What a miner knows.
#[derive(Drop)]
pub struct Course {
    is_set_up: bool,
    channel: Option<u32>,
    jobs: Vec<NewMiningJob>,
    tip: Option<SetNewPrevHash>,
    current: Option<CurrentJob>,
    next_try: Option<Try>,
    submitted: u64,
    waiting: Option<u32>,
    credited: u32,
    wanted: u32,
    end: Option<MinerEnd>,
}

impl Model for Course {
    ghost use Rattle.test_miner.specs.States.{MinerState, IsSoundState};

    ghost Value = { MinerState };

    ghost view = { λ c. record {
      is_set_up = c.is_set_up;
      channel = c.channel;
      jobs = c.jobs.items;
      tip = c.tip;
      current = c.current;
      next_try = c.next_try;
      submitted = c.submitted;
      waiting = c.waiting;
      credited = c.credited;
      wanted = c.wanted;
      end = c.end;
    } };

    ghost invariant = { λ c. IsSoundState c.submitted c.credited c.wanted c.end };
}

impl Course {
    ghost use Rattle.test_miner.specs.Courses.{new_state};

    /// A miner that has heard nothing, and wants so many credits.
    pub fn new(alloc: Global, wanted: u32) -> Course
        requires { 0 < wanted }
        ensures { result ≡ new_state wanted }
    {
        Course {
            is_set_up: false,
            channel: None,
            jobs: Vec::new(alloc),
            tip: None,
            current: None,
            next_try: None,
            submitted: 0,
            waiting: None,
            credited: 0,
            wanted,
            end: None,
        }
    }

    /// Whether its connection was accepted.
    pub fn is_set_up(&self) -> bool
        ensures { result ≡ self.now.is_set_up }
    {
        self.is_set_up
    }

    /// How it ended, if it has.
    pub fn end(&self) -> Option<MinerEnd>
        ensures { result ≡ self.now.end }
    {
        self.end
    }

    /// Hears what a frame says. Once it has ended it hears nothing.
    pub fn hear(&mut self, notice: Notice) -> Result<(), AllocError>
        ensures { OnOk result (self.new ≡ hear notice self.old) }
    {
        if self.end.is_some() {
            return Ok(());
        }
        match notice {
            Notice::SetUp(version) => self.set_up(version),
            Notice::Refused | Notice::NoMessage => self.cut_off(),
            Notice::Opened(request, channel) => self.open_channel(request, channel),
            Notice::Job(job) => return self.take_job(&job),
            Notice::Tip(tip) => self.take_tip(tip),
            Notice::Credited(channel, number) => self.credit(channel, number),
            Notice::Rejected(channel, number) => self.reject(channel, number),
            Notice::Other => {}
        }
        Ok(())
    }

    /// The run ends here, where it hasn't ended before.
    pub fn cut_off(&mut self)
        ensures { self.new ≡ cut_off self.old }
    {
        if self.end.is_none() {
            self.end = Some(MinerEnd::Ended(self.credited));
        }
    }

    fn set_up(&mut self, version: u16)
        ensures { self.new ≡ set_up version self.old }
    {
        if version == VERSION {
            self.is_set_up = true;
        } else {
            self.cut_off();
        }
    }

    fn open_channel(&mut self, request: u32, channel: u32)
        ensures { self.new ≡ open_channel request channel self.old }
    {
        if self.is_set_up && request == REQUEST && self.channel.is_none() {
            self.channel = Some(channel);
        }
    }

    fn take_job(&mut self, job: &NewMiningJob) -> Result<(), AllocError>
        ensures { OnOk result (self.new ≡ job_taken job.now self.old) }
    {
        if self.channel != Some(job.channel_id) {
            return Ok(());
        }
        self.jobs.push(*job)?;
        self.work_by(job);
        Ok(())
    }

    /// Begins the tries on a job that has its time, where there is a tip.
    fn work_by(&mut self, job: &NewMiningJob)
        ensures { self.new ≡ with_job job.now.min_ntime self.old.tip job.now self.old }
    {
        let tip = self.tip;
        if let Some(tip) = tip
            && let Some(min_ntime) = job.min_ntime
        {
            self.work_on(job, &tip, min_ntime);
        }
    }

    fn take_tip(&mut self, tip: SetNewPrevHash)
        ensures { self.new ≡ tip_taken tip self.old }
    {
        if self.channel != Some(tip.channel_id) {
            return;
        }
        self.tip = Some(tip);
        match self.job_named(tip.job_id) {
            Some(job) => self.work_on(&job, &tip, tip.min_ntime),
            None => {
                self.current = None;
                self.next_try = None;
            }
        }
    }

    /// The last job that was sent with this id.
    fn job_named(&self, id: u32) -> Option<NewMiningJob>
        ensures { result ≡ job_named id self.now.jobs }
    {
        last_with(&self.jobs, id).copied()
    }

    /// Begins the tries on a job.
    fn work_on(&mut self, job: &NewMiningJob, tip: &SetNewPrevHash, min_ntime: u32)
        ensures { self.new ≡ with_current job.now tip.now min_ntime self.old }
    {
        self.current = Some(CurrentJob {
            job: *job,
            prev_hash: tip.prev_hash,
            nbits: tip.nbits,
            min_ntime,
        });
        self.next_try = Some(Try {
            ntime: min_ntime,
            nonce: 0,
        });
    }

    fn credit(&mut self, channel: u32, number: u32)
        requires { self.old.end ≡ None }
        ensures { self.new ≡ credit channel number self.old }
    {
        if self.channel != Some(channel) || self.waiting != Some(number) {
            return;
        }
        self.waiting = None;
        self.credited += 1;
        if self.credited == self.wanted {
            self.end = Some(MinerEnd::Mined(self.credited));
        }
    }

    fn reject(&mut self, channel: u32, number: u32)
        ensures { self.new ≡ reject channel number self.old }
    {
        if self.channel == Some(channel) && self.waiting == Some(number) {
            self.waiting = None;
        }
    }

    /// The job to make tries on, where no submission waits and a number is left for one.
    fn due(&self) -> Option<CurrentJob>
        ensures job { result ≡ due self.now }
        ensures left { IsSome result → self.now.submitted < 2 ^ 32 }
    {
        if self.end.is_some() || self.waiting.is_some() || self.submitted >= NUMBERS {
            return None;
        }
        self.current
    }

    /// Makes at most so many tries, where they are due. What meets the class is a share, which then
    /// waits for its answer.
    pub fn make_tries(&mut self, class: u8, tries: u32) -> Option<MinedShare>
        ensures share { result ≡ share_found class tries self.old }
        ensures state { self.new ≡ tries_made class tries self.old }
    {
        let job = self.due()?;
        let made = make_tries(class, &job, tries, self.next_try);
        self.next_try = made.next;
        let at = made.found?;
        let number = self.submitted as u32;
        self.waiting = Some(number);
        self.submitted += 1;
        Some(MinedShare { job, at, number })
    }
}

/// The last job with this id.
fn last_with(jobs: &[NewMiningJob], id: u32) -> Option<&NewMiningJob>
    ensures { option_copied result ≡ find (λ job. job.job_id == id) (reverse jobs.now) }
{
    jobs.iter().rev().find(|job| job.job_id == id)
}
