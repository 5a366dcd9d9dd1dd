//! What a session is told of one event, from what is kept.

ghost use Rattle.std.specs.Prelude.{◌≡◌, ℕ, ◌-◌, ◌++◌, Some, IfOk, List, OnOk, length, slice_get};
ghost use Rattle.std.specs.Option.{option_copied};
ghost use Rattle.history_laws.specs.Fitting.{ScriptFits};
ghost use Rattle.pool_history.specs.Headers.{rolled_length};
ghost use Rattle.pool_history.specs.News.{job_note};
ghost use Rattle.event_store.specs.Solving.{solved_by};
ghost use Rattle.event_store.specs.declared.marks.OpeningMark.{OpeningMark as Mark};
ghost use Rattle.event_store.specs.Telling.{CanTell, HasFutures, RollsItsBytes};
ghost use Rattle.event_store.specs.Told as told;

use crate::audience::Heard;
use crate::hearing::alone;
use crate::index::Index;
use crate::marks::{FutureMark, JobPlace, OpeningMark, TipMark};
use crate::notes::{
    SolvedShare, ToldJob, coinbase_of, job_note, prev_hash_note, solution_note, tell_job, tell_tip,
};
use pool_history::{Event, Note, Rules, TemplateData, TipData};
use std::alloc::{AllocError, Global};

// The template of an event.
fn event_template(events: &[Event], at: u64) -> Option<&TemplateData>
    ensures { option_copied result ≡ told.event_template (slice_get events.now at) }
{
    match events.get(at as usize) {
        Some(Event::Template { template, .. }) => Some(template.get()),
        _ => None,
    }
}

// The tip of an event.
fn event_tip(events: &[Event], at: u64) -> Option<&TipData>
    ensures { option_copied result ≡ told.event_tip (slice_get events.now at) }
{
    match events.get(at as usize) {
        Some(Event::Tip { tip, .. }) => Some(tip.get()),
        _ => None,
    }
}

// Whether a session sent the template of an event.
fn is_sent_by(session: u32, events: &[Event], at: u64) -> bool
    ensures { result ≡ told.is_sent_by session (slice_get events.now at) }
{
    match events.get(at as usize) {
        Some(Event::Template { session: feed, .. }) => *feed == session,
        _ => false,
    }
}

/// A session's news of a pool's events are told by these.
#[derive(Clone, Copy)]
pub(crate) struct Teller<'a> {
    pub alloc: Global,
    pub rules: &'a Rules,
    pub events: &'a [Event],
    pub index: &'a Index,
    pub session: u32,
}

impl Teller<'_> {
    /// What is told of an event at a place, which has this detail, behind the other notes.
    pub(crate) fn tell(
        &self,
        place: u64,
        detail: u32,
        event: &Event,
        notes: &mut Vec<Note>,
    ) -> Result<(), AllocError>
        requires able { CanTell self.now.rules.now self.now.events.now self.now.index.now.parts }
        requires rolls { RollsItsBytes self.now.index.now.parts event.now }
        requires here { slice_get self.now.events.now place ≡ Some event.now }
        ensures { OnOk result (notes.new.items ≡ notes.old.items
            ++ told.event_told self.now.rules.now self.now.events.now self.now.index.now.parts
            self.now.session place detail event.now) }
    {
        match event {
            Event::Open { session, .. } if *session == self.session => {
                self.tell_opening(detail, notes)
            }
            Event::Template { template, .. } => {
                self.tell_template(place, detail, template.get(), notes)
            },
            Event::Tip { tip, .. } => self.tell_tip(place, detail, tip.get(), notes),
            Event::Credit {
                channel,
                job,
                nonce,
                ntime,
                version,
                extranonce,
                ..
            } if detail == 1 => {
                let solved = SolvedShare {
                    version: *version,
                    ntime: *ntime,
                    nonce: *nonce,
                    extranonce,
                };
                self.tell_block(*channel, *job, &solved, notes)
            }
            _ => Ok(()),
        }
    }

    // What the channel of an opening is told.
    fn tell_opening(&self, detail: u32, notes: &mut Vec<Note>) -> Result<(), AllocError>
        requires able { CanTell self.now.rules.now self.now.events.now self.now.index.now.parts }
        ensures { OnOk result (notes.new.items ≡ notes.old.items
            ++ told.marked_opening_told self.now.rules.now self.now.events.now
            self.now.index.now.parts (slice_get self.now.index.now.parts.openings detail)) }
    {
        let Some(mark) = self.index.opening(detail as usize) else {
            return Ok(());
        };
        let to = alone(&mark.listener);
        self.tell_present(mark.live, mark.tip, &to, notes)?;
        self.tell_futures(self.index.futures(mark), &to, notes)
    }

    // The newest live job, and the tip.
    fn tell_present(
        &self,
        live: Option<JobPlace>,
        tip: Option<TipMark>,
        to: &Heard,
        notes: &mut Vec<Note>,
    ) -> Result<(), AllocError>
        requires able { CanTell self.now.rules.now self.now.events.now self.now.index.now.parts }
        ensures { OnOk result (notes.new.items ≡ notes.old.items
            ++ told.present_told self.now.rules.now self.now.events.now (told.heard_as to.now)
            live tip) }
    {
        let (Some(job), Some(tipped)) = (live, tip) else {
            return Ok(());
        };
        let Some(template) = event_template(self.events, job.at) else {
            return Ok(());
        };
        let Some(tip) = event_tip(self.events, tipped.at) else {
            return Ok(());
        };
        notes.push(self.untimed_note(job.number, template, to)?)?;
        notes.push(prev_hash_note(tip, job.number, to))?;
        Ok(())
    }

    // The jobs of the future.
    fn tell_futures(
        &self,
        marks: &[FutureMark],
        to: &Heard,
        notes: &mut Vec<Note>,
    ) -> Result<(), AllocError>
        requires able { CanTell self.now.rules.now self.now.events.now self.now.index.now.parts }
        ensures { OnOk result (notes.new.items ≡ notes.old.items
            ++ told.futures_told self.now.rules.now self.now.events.now (told.heard_as to.now)
            marks.now) }
    {
        for mark in marks {
            self.tell_future(mark.job, to, notes)?;
        }
        Ok(())
    }

    // One of them.
    fn tell_future(
        &self,
        job: JobPlace,
        to: &Heard,
        notes: &mut Vec<Note>,
    ) -> Result<(), AllocError>
        requires able { CanTell self.now.rules.now self.now.events.now self.now.index.now.parts }
        ensures { OnOk result (notes.new.items ≡ notes.old.items
            ++ told.future_told self.now.rules.now (told.heard_as to.now) job.number
            (told.event_template (slice_get self.now.events.now job.at))) }
    {
        if let Some(template) = event_template(self.events, job.at) {
            notes.push(self.untimed_note(job.number, template, to)?)?;
        }
        Ok(())
    }

    // A job without a least time.
    fn untimed_note(
        &self,
        number: u32,
        template: &TemplateData,
        to: &Heard,
    ) -> Result<Note, AllocError>
        requires script { ScriptFits self.now.rules.now.pool_script }
        requires accepted { told.IsAccepted self.now.rules.now.pool_script template.now }
        ensures { IfOk result (λ note. note ≡ job_note self.now.rules.now None
            (told.told_job number template.now) (told.heard_as to.now)) }
    {
        let job = ToldJob {
            number,
            min_ntime: None,
            template,
            coinbase: coinbase_of(self.alloc, template, self.rules.pool_script.bytes())?,
        };
        job_note(self.alloc, self.rules, &job, to)
    }

    // A template's job.
    fn tell_template(
        &self,
        place: u64,
        detail: u32,
        template: &TemplateData,
        notes: &mut Vec<Note>,
    ) -> Result<(), AllocError>
        requires able { CanTell self.now.rules.now self.now.events.now self.now.index.now.parts }
        requires accepted { told.IsAccepted self.now.rules.now.pool_script template.now }
        ensures { OnOk result (notes.new.items ≡ notes.old.items
            ++ told.job_told self.now.rules.now template.now
            (slice_get self.now.index.now.parts.jobs detail)
            (told.audience_at self.now.index.now.parts self.now.session place)) }
    {
        let Some(mark) = self.index.job(detail as usize) else {
            return Ok(());
        };
        let to = self.index.audience(self.alloc, self.session, place)?;
        if to.is_empty() {
            return Ok(());
        }
        let job = ToldJob {
            number: mark.number,
            min_ntime: mark.min_ntime,
            template,
            coinbase: coinbase_of(self.alloc, template, self.rules.pool_script.bytes())?,
        };
        tell_job(self.alloc, self.rules, &job, &to, notes)
    }

    // A tip, with the number of the job that it made live.
    fn tell_tip(
        &self,
        place: u64,
        number: u32,
        tip: &TipData,
        notes: &mut Vec<Note>,
    ) -> Result<(), AllocError>
        requires able { CanTell self.now.rules.now self.now.events.now self.now.index.now.parts }
        ensures { OnOk result (notes.new.items ≡ notes.old.items
            ++ told.tip_told tip.now number
            (told.audience_at self.now.index.now.parts self.now.session place)) }
    {
        if number == 0 {
            return Ok(());
        }
        let to = self.index.audience(self.alloc, self.session, place)?;
        tell_tip(tip, number, &to, notes)
    }

    // The solution of a block.
    fn tell_block(
        &self,
        channel: u32,
        job: u32,
        solved: &SolvedShare<'_>,
        notes: &mut Vec<Note>,
    ) -> Result<(), AllocError>
        requires able { CanTell self.now.rules.now self.now.events.now self.now.index.now.parts }
        requires rolls { (mark : Mark)
            → slice_get self.now.index.now.parts.openings (channel - 1) ≡ Some mark
            → length solved.now.extranonce.now
            ≡ rolled_length mark.listener.kind mark.listener.lead }
        ensures { OnOk result (notes.new.items ≡ notes.old.items
            ++ told.solution_told self.now.rules.now self.now.events.now
            self.now.index.now.parts self.now.session channel job (solved_by solved.now)) }
    {
        let Some(source) = self.index.job(before(job)) else {
            return Ok(());
        };
        if !is_sent_by(self.session, self.events, source.at) {
            return Ok(());
        }
        let Some(template) = event_template(self.events, source.at) else {
            return Ok(());
        };
        let Some(mark) = self.index.opening(before(channel)) else {
            return Ok(());
        };
        let listener = &mark.listener;
        notes.push(solution_note(self.alloc, self.rules, template, solved, listener)?)?;
        Ok(())
    }
}

// The place of what has a number, among those that are numbered from 1 on.
fn before(number: u32) -> usize
    ensures { result ≡ number - 1 }
{
    (number as usize).saturating_sub(1)
}
