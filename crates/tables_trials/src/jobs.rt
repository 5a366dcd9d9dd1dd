//! The table of jobs, told of the messages that they come from.

use crate::reading::{refuse, tell_some, tell_truth};
use mining_msgs::Mining;
use pool_history::{CustomData, JobState, TemplateData, TipData};
use std::alloc::Global;
use std::fmt::Display;
use template_jobs::{Job, Jobs, custom_of, template_of, tip_of};
use template_msgs::Template;
use trial_cases::{Found, Subject, word};

/// The script of the pool.
const SCRIPT: [u8; 1] = [0x51];

/// A table of jobs.
#[derive(Drop)]
pub(crate) struct Told {
    jobs: Jobs,
}

impl Subject for Told {
    fn begin(alloc: Global) -> Option<Told> {
        let jobs = Jobs::new(alloc);
        Some(Told { jobs })
    }

    fn act(&mut self, found: &mut Found, words: &str) {
        match word(words, 0) {
            "newest" => tell_some(found, self.jobs.newest()),
            "counts" => tell_counts(found, &self.jobs),
            "span" => {
                let span = self.jobs.live_span();
                found.tell(&span.oldest);
                found.say(" ");
                found.tell(&span.newest);
            }
            operation => {
                let number = found.number(word(words, 1));
                self.act_on(found, words, operation, number);
            }
        }
    }
}

impl Told {
    /// Carries out an operation on the job, the place, the session or the channel of this number.
    fn act_on(&mut self, found: &mut Found, words: &str, operation: &str, number: u64) {
        let id = (number & 0xffff_ffff) as u32;
        match operation {
            "template" => add_template(found, &mut self.jobs, words, false),
            "apply-template" => add_template(found, &mut self.jobs, words, true),
            "own" => add_own(found, &mut self.jobs, number, words, false),
            "apply-own" => add_own(found, &mut self.jobs, number, words, true),
            "tip" => set_tip(found, &mut self.jobs, number, words),
            "state" => found.say(word_of(self.jobs.state(id))),
            "job" => match self.jobs.job(id) {
                Some(job) => tell_job(found, job),
                None => found.say("none"),
            },
            "coinbase" => match self.jobs.job(id) {
                Some(job) => tell_coinbase(found, job),
                None => refuse(found),
            },
            "future-of" => tell_some(found, self.jobs.future_of(number)),
            "mineable" => {
                let job = found.short_number(word(words, 2));
                tell_truth(found, self.jobs.is_mineable(id, job));
            }
            _ => refuse(found),
        }
    }
}

fn tell_counts(found: &mut Found, jobs: &Jobs) {
    found.say("jobs ");
    found.tell(&jobs.count());
    found.say(" own ");
    found.tell(&jobs.own_count());
    found.say(" tip ");
    found.tell(&jobs.tip().is_some());
}

/// The template in the payload of a NewTemplate.
fn template(alloc: Global, payload: &[u8]) -> Option<TemplateData> {
    let read = template_msgs::read(0x71, payload);
    match &read {
        Ok(Template::NewTemplate(template)) if template.merkle_path.items().len() <= 255 => {
            template_of(alloc, template).ok()
        }
        _ => None,
    }
}

/// The tip in the payload of a SetNewPrevHash.
fn tip(payload: &[u8]) -> Option<TipData> {
    let read = template_msgs::read(0x72, payload);
    match &read {
        Ok(Template::SetNewPrevHash(tip)) => Some(tip_of(tip)),
        _ => None,
    }
}

/// The job in the payload of a SetCustomMiningJob.
fn custom(alloc: Global, payload: &[u8]) -> Option<CustomData> {
    let read = mining_msgs::read(0x22, payload);
    match &read {
        Ok(Mining::SetCustomMiningJob(job)) if job.merkle_path.items().len() <= 255 => {
            custom_of(alloc, job).ok()
        }
        _ => None,
    }
}

/// Tells the number of a job that was made.
fn tell_number(found: &mut Found, number: u32) {
    found.say("job ");
    found.tell(&number);
}

/// The same, or why none was made.
fn tell_made<E: Display + Drop>(found: &mut Found, made: Result<u32, E>) {
    match made {
        Ok(number) => tell_number(found, number),
        Err(error) => found.tell(&error),
    }
}

/// Adds the job of a template, in one step or by a plan.
fn add_template(found: &mut Found, jobs: &mut Jobs, words: &str, by_plan: bool) {
    let session = found.short_number(word(words, 1));
    let at = found.number(word(words, 2));
    let payload = found.bytes_of(word(words, 3));
    match template(found.alloc(), &payload) {
        Some(template) if by_plan => match jobs.plan_template(session, at, &template, &SCRIPT) {
            Ok(plan) => tell_number(found, jobs.apply(plan)),
            Err(error) => found.tell(&error),
        },
        Some(template) => tell_made(found, jobs.add_template(session, at, &template, &SCRIPT)),
        None => refuse(found),
    }
}

/// Adds a miner's own job, in one step or by a plan.
fn add_own(found: &mut Found, jobs: &mut Jobs, at: u64, words: &str, by_plan: bool) {
    let payload = found.bytes_of(word(words, 2));
    match custom(found.alloc(), &payload) {
        Some(_) if jobs.own_count() >= 1 << 18 => refuse(found),
        Some(custom) if by_plan => match jobs.plan_custom(at, &custom, &SCRIPT) {
            Ok(plan) => tell_number(found, jobs.apply(plan)),
            Err(error) => found.tell(&error),
        },
        Some(custom) => tell_made(found, jobs.add_custom(at, &custom, &SCRIPT)),
        None => refuse(found),
    }
}

fn set_tip(found: &mut Found, jobs: &mut Jobs, at: u64, words: &str) {
    let payload = found.bytes_of(word(words, 2));
    match tip(&payload) {
        Some(tip) => tell_made(found, jobs.set_tip(at, &tip)),
        None => refuse(found),
    }
}

fn word_of(state: JobState) -> &'static str {
    match state {
        JobState::Unknown => "unknown",
        JobState::Future => "future",
        JobState::Live => "live",
        JobState::Stale => "stale",
    }
}

/// A job's fields; of those that it may lack, a word for each that it has.
fn tell_job(found: &mut Found, job: &Job) {
    tell_named(found, "number ", &job.number());
    tell_named(found, " session ", &job.session());
    tell_named(found, " template ", &job.template_id());
    tell_named(found, " reward ", &job.reward());
    found.say(" version ");
    found.hex(job.version().to_be_bytes().as_slice());
    tell_named(found, " path ", &job.root().path.items().len());
    tell_lackable(found, job);
}

fn tell_lackable(found: &mut Found, job: &Job) {
    if let Some(at) = job.live_at() {
        tell_named(found, " live ", &at);
    }
    if let Some(channel) = job.channel() {
        tell_named(found, " channel ", &channel);
    }
    if let Some(least) = job.min_ntime() {
        tell_named(found, " least ", &least);
    }
}

fn tell_named(found: &mut Found, name: &str, value: &impl Display) {
    found.say(name);
    found.tell(value);
}

/// A job's whole coinbase, with an extranonce of zeros.
fn tell_coinbase(found: &mut Found, job: &Job) {
    match job.root().coinbase.whole(&[0; 12]) {
        Ok(whole) => found.hex(&whole),
        Err(_) => found.done(false),
    }
}
