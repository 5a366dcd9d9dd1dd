//! The table of jobs.

use crate::content::JobContent;
use crate::job::Job;
use crate::lists::{
    has_number, has_number_in, is_template_known, job_numbered, last_number, make_live,
    number_of_template, put_last, put_own,
};
use crate::origin::Shelf;
use crate::owner::{Owner, is_others, put_owner};
use coinbase::OutputsError;
use pool_history::{CustomData, JobError, JobState, LiveSpan, TemplateData, TipData};
use std::alloc::{AllocError, Global};
use std::marker::Model;
use std::mem;

/// The jobs that are future or live, the last tip, how many jobs there were, and whose each miner's
/// own job is. Contracts see these, bounds of the places since which jobs are live, and for how many
/// more jobs there is room.
#[derive(Drop)]
pub struct Jobs {
    alloc: Global,
    count: u32,
    templates: u32,
    owners: Vec<Owner>,
    future: Vec<Job>,
    live: Vec<Job>,
    custom: Vec<Job>,
    tip: Option<TipData>,
    /// Bounds of the places since which jobs are live.
    span: LiveSpan,
}

impl Model for Jobs {
    ghost use Rattle.std.specs.Prelude.{◌-◌, map, min, vec_capacity, vec_len};
    ghost use Rattle.template_jobs.specs.Tables.{AreJobsHeld, JobTable};
    ghost use Rattle.template_jobs.specs.Owners.{own_job};

    ghost Value = { JobTable };

    ghost view = { λ jobs. record {
      count = jobs.count;
      own = map own_job jobs.owners.items;
      future = jobs.future.items;
      live = jobs.live.items;
      custom = jobs.custom.items;
      tip = jobs.tip;
      span = jobs.span;
      room = min (min (vec_capacity jobs.owners - vec_len jobs.owners)
          (vec_capacity jobs.future - vec_len jobs.future))
          (min (vec_capacity jobs.live - vec_len jobs.live)
          (vec_capacity jobs.custom - vec_len jobs.custom));
    } };

    ghost invariant = { λ jobs. AreJobsHeld jobs.count jobs.templates jobs.owners.items
        jobs.future.items jobs.live.items jobs.custom.items jobs.span };
}

/// A job that was planned, with its memory.
#[derive(Drop)]
pub struct JobPlan {
    session: u32,
    at: u64,
    content: JobContent,
}

impl Model for JobPlan {
    ghost use Rattle.template_jobs.specs.Plans.{PlannedJob};

    ghost Value = { PlannedJob };

    ghost view = { λ plan. record {
      session = plan.session;
      at = plan.at;
      source = plan.content.source;
      coinbase = plan.content.coinbase;
    } };
}

impl Jobs {
    ghost use Rattle.std.specs.Prelude.{◌≡◌, ◌+◌, ◌^◌, ◌<◌, ◌≤◌, ◌++◌, List, ℕ, IfOk, IfSome, OnErr, OnOk, length, map, []};
    ghost use Rattle.std.specs.Option.{option_copied, option_map};
    ghost use Rattle.coinbase.specs.Custom.{custom_assembly};
    ghost use Rattle.history_laws.specs.AskedPlaces.{AreLiveWithin};
    ghost use Rattle.history_laws.specs.KeptJobs.{is_mineable_by, kept_jobs_of, state_by};
    ghost use Rattle.pool_history.specs.Conditions.{found};
    ghost use Rattle.pool_history.specs.Jobs.{FromMiner, FromTemplate, Brought, Came, Tipped, future_in, job_numbered, jobs_told, last_of};
    ghost use Rattle.pool_history.specs.Judging.{custom_terms};
    ghost use Rattle.template_jobs.specs.HeldJobs.{HasCoinbase, as_job, shelf_of};
    ghost use Rattle.template_jobs.specs.Plans.{IsPlannedAs};
    ghost use Rattle.pool_history.specs.JobRefusals.{RefusesAsTold};
    ghost use Rattle.template_jobs.specs.Refusals.{RefusesAsMade};
    ghost use Rattle.template_jobs.specs.Tables.{AppliesPlan, Fits, HasCoinbases, IsSameButRoom, TakesMove, Admits, held_jobs, kept_jobs, refusal_of};

    /// No job was told, and no tip.
    pub fn new(alloc: Global) -> Jobs
        ensures told { kept_jobs result ≡ kept_jobs_of (jobs_told []) }
        ensures spans { result.span ≡ record { oldest = 0; newest = 0 } }
        ensures coinbases { (script : List ℕ) → HasCoinbases script result }
    {
        Jobs {
            alloc,
            count: 0,
            templates: 0,
            owners: Vec::new(alloc),
            future: Vec::new(alloc),
            live: Vec::new(alloc),
            custom: Vec::new(alloc),
            tip: None,
            span: LiveSpan {
                oldest: 0,
                newest: 0,
            },
        }
    }

    /// The job's state.
    pub fn state(&self, id: u32) -> JobState
        ensures { result ≡ state_by (kept_jobs self.now) id }
    {
        if has_number(&self.future, id) {
            JobState::Future
        } else if has_number_in(&self.live, &self.custom, id) {
            JobState::Live
        } else if is_counted(self.count, id) {
            JobState::Stale
        } else {
            JobState::Unknown
        }
    }

    /// The job with a number; none exactly where it is neither future nor live.
    pub fn job(&self, id: u32) -> Option<&Job>
        ensures found { option_map as_job (option_copied result)
            ≡ job_numbered id (map as_job (held_jobs self.now)) }
        ensures coinbase { (script : List ℕ) → HasCoinbases script self.now
            → IfSome (option_copied result) (HasCoinbase script) }
    {
        if let Some(job) = job_numbered(&self.future, id) {
            return Some(job);
        }
        if let Some(job) = job_numbered(&self.live, id) {
            return Some(job);
        }
        job_numbered(&self.custom, id)
    }

    /// The number of the future job of a template.
    pub fn future_of(&self, template_id: u64) -> Option<u32>
        ensures { result ≡ option_map (λ job. job.number)
            (future_in (kept_jobs self.now).future template_id) }
    {
        number_of_template(&self.future, template_id)
    }

    /// The number of the newest live job of a template.
    pub fn newest(&self) -> Option<u32>
        ensures { result ≡ option_map (λ job. job.number) (last_of (kept_jobs self.now).live) }
    {
        last_number(&self.live)
    }

    /// The last tip.
    pub fn tip(&self) -> Option<&TipData>
        ensures { option_copied result ≡ self.now.tip }
    {
        self.tip.as_ref()
    }

    /// Bounds of the places since which jobs are live: at these alone, and at places to come, a
    /// channel's class is asked for.
    pub fn live_span(&self) -> LiveSpan
        ensures value { result ≡ self.now.span }
        ensures within { AreLiveWithin result
            ((kept_jobs self.now).live ++ (kept_jobs self.now).custom) }
    {
        self.span
    }

    /// Whether a channel may mine on the job with a number, which may be stale: there is such a job,
    /// and it is no other channel's own.
    pub fn is_mineable(&self, channel: u32, id: u32) -> bool
        ensures { result ≡ is_mineable_by (kept_jobs self.now) channel id }
    {
        is_counted(self.count, id) && !is_others(&self.owners, channel, id)
    }

    /// How many jobs there were, future, live and stale.
    pub fn count(&self) -> u32
        ensures value { result ≡ self.now.count }
        ensures few { result < 2 ^ 21 }
    {
        self.count
    }

    /// How many jobs the miners brought.
    pub fn own_count(&self) -> u32
        ensures { result ≡ length self.now.own }
    {
        self.count - self.templates
    }

    /// Takes in a template that a session sent, whose event is at a place of the history, with the
    /// pool's script; answers its job's number.
    pub fn add_template(
        &mut self,
        session: u32,
        at: u64,
        template: &TemplateData,
        script: &[u8],
    ) -> Result<u32, JobError>
        requires some { 1 ≤ length script.now }
        requires short { length script.now ≤ 100 }
        ensures refusal { RefusesAsTold result (refusal_of script.now self.old template.now) }
        ensures number { IfOk result (λ number. number ≡ self.old.count + 1) }
        ensures takes { OnOk result
            (TakesMove script.now (Came at session template.now) self.old self.new) }
        ensures refused { OnErr result (IsSameButRoom self.old self.new) }
    {
        let plan = self.plan_template(session, at, template, script)?;
        Ok(self.apply(plan))
    }

    /// Takes in a miner's own job, whose event is at a place of the history, with the pool's script;
    /// answers its number.
    pub fn add_custom(
        &mut self,
        at: u64,
        custom: &CustomData,
        script: &[u8],
    ) -> Result<u32, OutputsError>
        requires some { 1 ≤ length script.now }
        requires short { length script.now ≤ 100 }
        requires few { length self.old.own < 2 ^ 18 }
        ensures refusal { RefusesAsMade result
            (custom_assembly (custom_terms custom.now) script.now) }
        ensures number { IfOk result (λ number. number ≡ self.old.count + 1) }
        ensures takes { OnOk result
            (TakesMove script.now (Brought at custom.now) self.old self.new) }
        ensures refused { OnErr result (IsSameButRoom self.old self.new) }
    {
        let plan = self.plan_custom(at, custom, script)?;
        Ok(self.apply(plan))
    }

    /// Takes in a tip, whose event is at a place of the history; answers the number of the job that
    /// it makes live. It takes no memory.
    pub fn set_tip(&mut self, at: u64, tip: &TipData) -> Result<u32, JobError>
        ensures number { result ≡ found (JobError.UnknownTemplate tip.now.template_id)
            (option_map (λ job. job.number)
            (future_in (kept_jobs self.old).future tip.now.template_id)) }
        ensures takes { (script : List ℕ)
            → OnOk result (TakesMove script (Tipped at tip.now) self.old self.new) }
        ensures refused { OnErr result (self.new ≡ self.old) }
    {
        let Some(number) = make_live(&mut self.future, tip.template_id, at) else {
            return Err(JobError::UnknownTemplate(tip.template_id));
        };
        self.live.clear();
        self.custom.clear();
        mem::swap(&mut self.future, &mut self.live);
        self.tip = Some(*tip);
        self.span = LiveSpan {
            oldest: at,
            newest: at,
        };
        Ok(number)
    }

    /// Plans `add_template`, and takes its memory.
    pub fn plan_template(
        &mut self,
        session: u32,
        at: u64,
        template: &TemplateData,
        script: &[u8],
    ) -> Result<JobPlan, JobError>
        requires some { 1 ≤ length script.now }
        requires short { length script.now ≤ 100 }
        ensures same { IsSameButRoom self.old self.new }
        ensures refusal { RefusesAsTold result (refusal_of script.now self.old template.now) }
        ensures planned { IfOk result
            (IsPlannedAs session at (FromTemplate template.now) script.now) }
        ensures fits { IfOk result (Fits self.new) }
    {
        self.admit(template)?;
        let content = JobContent::of_template(self.alloc, template, script)?;
        if self.make_room().is_err() {
            return Err(JobError::Memory);
        }
        Ok(JobPlan {
            session,
            at,
            content,
        })
    }

    /// Plans `add_custom`, and takes its memory.
    pub fn plan_custom(
        &mut self,
        at: u64,
        custom: &CustomData,
        script: &[u8],
    ) -> Result<JobPlan, OutputsError>
        requires some { 1 ≤ length script.now }
        requires short { length script.now ≤ 100 }
        requires few { length self.old.own < 2 ^ 18 }
        ensures same { IsSameButRoom self.old self.new }
        ensures refusal { RefusesAsMade result
            (custom_assembly (custom_terms custom.now) script.now) }
        ensures planned { IfOk result (IsPlannedAs 0 at (FromMiner custom.now) script.now) }
        ensures fits { IfOk result (Fits self.new) }
    {
        let content = JobContent::of_custom(self.alloc, custom, script)?;
        if self.make_room().is_err() {
            return Err(OutputsError::Memory);
        }
        Ok(JobPlan {
            session: 0,
            at,
            content,
        })
    }

    /// Does what was planned, and answers the job's number. It takes no memory.
    pub fn apply(&mut self, plan: JobPlan) -> u32
        requires fits { Fits self.old plan }
        ensures number { result ≡ self.old.count + 1 }
        ensures applied { AppliesPlan plan self.old self.new }
    {
        match plan.content.shelf() {
            Shelf::Future => self.join_future(plan),
            Shelf::Live => self.join_live(plan),
            Shelf::Own(channel) => self.join_own(channel, plan),
        }
    }

    // The plan's job joins the future ones.
    fn join_future(&mut self, plan: JobPlan) -> u32
        requires fits { Fits self.old plan }
        requires shelf { shelf_of plan.source ≡ Shelf.Future }
        ensures number { result ≡ self.old.count + 1 }
        ensures applied { AppliesPlan plan self.old self.new }
    {
        let JobPlan {
            session,
            at,
            content,
        } = plan;
        let number = self.count + 1;
        let job = Job::of(number, session, at, None, content);
        put_last(&mut self.future, 16, job);
        self.count = number;
        self.templates += 1;
        number
    }

    // The plan's job joins the live ones of templates.
    fn join_live(&mut self, plan: JobPlan) -> u32
        requires fits { Fits self.old plan }
        requires shelf { shelf_of plan.source ≡ Shelf.Live }
        ensures number { result ≡ self.old.count + 1 }
        ensures applied { AppliesPlan plan self.old self.new }
    {
        let JobPlan {
            session,
            at,
            content,
        } = plan;
        let number = self.count + 1;
        let job = Job::of(number, session, at, Some(at), content);
        put_last(&mut self.live, 64, job);
        let span = widened(self.span, at);
        self.span = span;
        self.count = number;
        self.templates += 1;
        number
    }

    // The plan's job joins the miners' own.
    fn join_own(&mut self, channel: u32, plan: JobPlan) -> u32
        requires fits { Fits self.old plan }
        requires shelf { shelf_of plan.source ≡ Shelf.Own channel }
        ensures number { result ≡ self.old.count + 1 }
        ensures applied { AppliesPlan plan self.old self.new }
    {
        let JobPlan {
            session: _,
            at,
            content,
        } = plan;
        let number = self.count + 1;
        let job = Job::of(number, 0, at, Some(at), content);
        put_own(&mut self.custom, channel, job);
        let span = widened(self.span, at);
        self.span = span;
        put_owner(
            &mut self.owners,
            Owner {
                job: number,
                channel,
            },
        );
        self.count = number;
        number
    }

    // Whether a template is refused before its coinbase is looked at.
    fn admit(&self, template: &TemplateData) -> Result<(), JobError>
        ensures { Admits self.now template.now result }
    {
        if self.templates >= 1 << 20 {
            return Err(JobError::TooMany(self.templates));
        }
        let id = template.template_id;
        if is_template_known(&self.future, &self.live, id) {
            return Err(JobError::TemplateKnown(id));
        }
        if !template.future_template && self.tip.is_none() {
            return Err(JobError::NoTip);
        }
        Ok(())
    }

    // Room for a job.
    fn make_room(&mut self) -> Result<(), AllocError>
        ensures same { IsSameButRoom self.old self.new }
        ensures room { OnOk result (1 ≤ self.new.room) }
    {
        self.owners.reserve(1)?;
        self.future.reserve(1)?;
        self.live.reserve(1)?;
        self.custom.reserve(1)
    }
}

ghost use Rattle.std.specs.Prelude.{◌≡◌, ◌&&◌, nat_le};
ghost use Rattle.template_jobs.specs.Spans.{Widens, widened_by};

// Whether a number is one of so many, counted from 1.
fn is_counted(count: u32, number: u32) -> bool
    ensures { result ≡ (nat_le 1 number && nat_le number count) }
{
    1 <= number && number <= count
}

// Bounds that hold what these hold, and a place.
fn widened(span: LiveSpan, at: u64) -> LiveSpan
    ensures value { result ≡ widened_by at span }
    ensures widens { Widens span result at }
{
    LiveSpan {
        oldest: span.oldest.min(at),
        newest: span.newest.max(at),
    }
}
