//! The marks of a history. It is exact to what it is told.

ghost use Rattle.std.specs.Prelude.{◌≡◌, ◌+◌, ◌<◌, ◌≤◌, ◌==◌, length, [], ◌∷◌, ◌++◌, find, vec_capacity, vec_len};
ghost use Rattle.std.specs.Option.{option_map};
ghost use Rattle.event_store.specs.Index.{live_number, marked_ntime};

use crate::audience::Heard;
use crate::hearing::{flags_at, has_left, hear, listeners_at, openings_since};
use crate::marks::{FutureMark, JobMark, JobPlace, Listener, OpeningMark, SessionMark, TipMark};
use pool_history::{Event, Kind, Lead, TemplateData, TipData};
use std::alloc::{AllocError, Global};
use std::marker::Model;

/// The marks of a history.
#[derive(Drop)]
pub(crate) struct Index {
    /// By the numbers of the jobs, from 1 on.
    jobs: Vec<JobMark>,
    futures: Vec<FutureMark>,
    /// By the ids of the channels, from 1 on.
    openings: Vec<OpeningMark>,
    /// By the numbers of the sessions, from 0 on.
    sessions: Vec<SessionMark>,
    live: Option<JobPlace>,
    tip: Option<TipMark>,
    first_future: usize,
}

impl Model for Index {
    ghost use Rattle.event_store.specs.Index.{KeptIndex};

    ghost Value = { KeptIndex };

    ghost use Rattle.std.specs.Prelude.{◌-◌, ◌≤◌, length, min, vec_capacity, vec_len};

    ghost view = { λ index. record {
      parts = record {
        jobs = index.jobs.items;
        futures = index.futures.items;
        openings = index.openings.items;
        sessions = index.sessions.items;
        live = index.live;
        tip = index.tip;
        first_future = index.first_future;
      };
      room = min
          (min (vec_capacity index.jobs - vec_len index.jobs)
          (vec_capacity index.futures - vec_len index.futures))
          (min (vec_capacity index.openings - vec_len index.openings)
          (vec_capacity index.sessions - vec_len index.sessions));
    } };

    ghost invariant = { λ index. index.first_future ≤ length index.futures.items };
}

impl Index {
    ghost use Rattle.std.specs.Prelude.{◌≡◌, ◌-◌, ◌<◌, ◌≤◌, ◌^◌, IfOk, OnOk, drop, length, map, slice_get, take};
    ghost use Rattle.std.specs.Option.{option_copied};
    ghost use Rattle.pool_history.specs.Headers.{IsBriefing};
    ghost use Rattle.event_store.specs.Chains.{MarksAreChained};
    ghost use Rattle.event_store.specs.Marking.{CanMark};
    ghost use Rattle.event_store.specs.Places.{OpeningsRise, openings_since};
    ghost use Rattle.event_store.specs.Telling.{HasFutures};
    ghost use Rattle.event_store.specs.Told.{audience_at, heard_as};
    ghost use Rattle.event_store.specs.Index.{detail_after, empty_index, index_after, live_number, with_brought, with_came, with_closed, with_entered, with_left, with_opened, with_tipped};

    pub(crate) fn new(alloc: Global) -> Index
        ensures { result.parts ≡ empty_index }
    {
        Index {
            jobs: Vec::new(alloc),
            futures: Vec::new(alloc),
            openings: Vec::new(alloc),
            sessions: Vec::new(alloc),
            live: None,
            tip: None,
            first_future: 0,
        }
    }

    /// Takes memory for the marks of one event.
    pub(crate) fn reserve(&mut self) -> Result<(), AllocError>
        ensures same { self.new.parts ≡ self.old.parts }
        ensures room { OnOk result (1 ≤ self.new.room) }
    {
        self.jobs.reserve(1)?;
        self.futures.reserve(1)?;
        self.openings.reserve(1)?;
        self.sessions.reserve(1)?;
        Ok(())
    }

    /// The marks of one event more. Answers the event's detail.
    pub(crate) fn add(&mut self, at: u64, event: &Event, is_block: bool) -> u32
        requires room { 1 ≤ self.old.room }
        requires fits { CanMark self.old.parts event.now }
        ensures marks { self.new.parts ≡ index_after at event.now self.old.parts }
        ensures detail { result ≡ detail_after is_block event.now self.old.parts self.new.parts }
    {
        match event {
            Event::Enter { flags, .. } => self.enter(at, *flags),
            Event::Leave { session } => self.leave(at, *session),
            Event::Template { template, .. } => return self.add_template(at, template.get()),
            Event::Tip { tip, .. } => return self.set_tip(at, tip.get()),
            Event::Custom { .. } => self.add_custom(at),
            Event::Open {
                session,
                kind,
                lead,
                ..
            } => return self.open(at, *session, *kind, lead_of(lead.bytes())),
            Event::Close { channel, .. } => self.close(at, *channel),
            Event::Credit { .. } => return u32::from(is_block),
            Event::Start(_) | Event::Name { .. } | Event::Class { .. } | Event::Grant { .. } => {}
        }
        0
    }

    fn enter(&mut self, at: u64, flags: u32)
        requires { 1 ≤ self.old.room }
        ensures { self.new.parts ≡ with_entered at flags self.old.parts }
    {
        put(
            &mut self.sessions,
            SessionMark {
                at,
                flags,
                last: None,
                left: None,
            },
        );
    }

    fn leave(&mut self, at: u64, session: u32)
        ensures { self.new.parts ≡ with_left at session self.old.parts }
    {
        if let Some(mark) = self.sessions.get_mut(session as usize) {
            mark.left = mark.left.or(Some(at));
        }
    }

    /// A template's job. Answers the place of its mark.
    fn add_template(&mut self, at: u64, template: &TemplateData) -> u32
        requires room { 1 ≤ self.old.room }
        requires few { length self.old.parts.jobs < 2 ^ 32 - 1 }
        ensures marks { self.new.parts ≡ with_came at template.now self.old.parts }
        ensures place { result ≡ length self.old.parts.jobs }
    {
        let place = self.jobs.len() as u32;
        let job = JobPlace {
            number: place + 1,
            at,
        };
        if template.future_template {
            let template_id = template.template_id;
            put(&mut self.futures, FutureMark { job, template_id });
            self.first_future = self.first_future.max(self.futures.len().saturating_sub(16));
        } else {
            self.live = Some(job);
        }
        let min_ntime = min_ntime(template.future_template, self.tip);
        put(
            &mut self.jobs,
            JobMark {
                number: job.number,
                at,
                min_ntime,
            },
        );
        place
    }

    /// A tip. Answers the number of the job that it made live, 0 where there is none.
    fn set_tip(&mut self, at: u64, tip: &TipData) -> u32
        ensures marks { self.new.parts ≡ with_tipped at tip.now self.old.parts }
        ensures number { result ≡ live_number self.new.parts.live }
    {
        self.live = job_of(&self.futures[self.first_future..], tip.template_id);
        self.tip = Some(TipMark {
            at,
            ntime: tip.header_timestamp,
        });
        self.first_future = self.futures.len();
        number_of(self.live)
    }

    /// A miner's own job.
    fn add_custom(&mut self, at: u64)
        requires room { 1 ≤ self.old.room }
        requires few { length self.old.parts.jobs < 2 ^ 32 - 1 }
        ensures { self.new.parts ≡ with_brought at self.old.parts }
    {
        let number = self.jobs.len() as u32 + 1;
        put(
            &mut self.jobs,
            JobMark {
                number,
                at,
                min_ntime: None,
            },
        );
    }

    /// Answers the place of the opening's mark.
    fn open(&mut self, at: u64, session: u32, kind: Kind, lead: Lead) -> u32
        requires room { 1 ≤ self.old.room }
        requires few { length self.old.parts.openings < 2 ^ 32 - 1 }
        requires whole { IsBriefing kind lead }
        ensures marks { self.new.parts ≡ with_opened at session kind lead self.old.parts }
        ensures place { result ≡ length self.old.parts.openings }
    {
        let place = self.openings.len() as u32;
        let mut before = None;
        if let Some(mark) = self.sessions.get_mut(session as usize) {
            before = mark.last;
            mark.last = Some(place);
        }
        put(
            &mut self.openings,
            OpeningMark {
                listener: Listener {
                    id: place + 1,
                    kind,
                    lead,
                },
                session,
                at,
                before,
                closed: None,
                live: self.live,
                tip: self.tip,
                first_future: self.first_future,
                end_future: self.futures.len(),
            },
        );
        place
    }

    /// The mark of a job by its place among the jobs.
    pub(crate) fn job(&self, place: usize) -> Option<&JobMark>
        ensures { option_copied result ≡ slice_get self.now.parts.jobs place }
    {
        self.jobs.get(place)
    }

    /// The mark of an opening by its place among the openings.
    pub(crate) fn opening(&self, place: usize) -> Option<&OpeningMark>
        ensures { option_copied result ≡ slice_get self.now.parts.openings place }
    {
        self.openings.get(place)
    }

    fn openings(&self) -> &[OpeningMark]
        ensures { result.now ≡ self.now.parts.openings }
    {
        &self.openings
    }

    // The mark of a session by its number.
    fn session(&self, session: u32) -> Option<&SessionMark>
        ensures { option_copied result ≡ slice_get self.now.parts.sessions session }
    {
        self.sessions.get(session as usize)
    }

    /// The templates that were of the future at an opening.
    pub(crate) fn futures(&self, mark: &OpeningMark) -> &[FutureMark]
        requires { HasFutures (length self.now.parts.futures) mark.now }
        ensures { result.now ≡ drop mark.now.first_future
            (take mark.now.end_future self.now.parts.futures) }
    {
        &self.futures[..mark.end_future][mark.first_future..]
    }

    /// Whom a session is told for at a place.
    pub(crate) fn audience(
        &self,
        alloc: Global,
        session: u32,
        place: u64,
    ) -> Result<Vec<Heard>, AllocError>
        requires chained { MarksAreChained self.now.parts }
        requires few { length self.now.parts.sessions ≤ 2 ^ 31 }
        ensures { IfOk result (λ heard. map heard_as heard.items
            ≡ audience_at self.now.parts session place) }
    {
        let Some(mark) = self.session(session) else {
            return Ok(Vec::new(alloc));
        };
        if has_left(mark, place) {
            return Ok(Vec::new(alloc));
        }
        let listeners = listeners_at(alloc, self.openings(), mark.last, session, place)?;
        hear(alloc, session, flags_at(mark, place), &listeners)
    }

    /// The places of a session's openings from one on.
    pub(crate) fn openings_since(
        &self,
        alloc: Global,
        session: u32,
        from: u64,
    ) -> Result<Vec<u64>, AllocError>
        requires chained { MarksAreChained self.now.parts }
        requires rising { OpeningsRise self.now.parts.openings }
        ensures { IfOk result (λ places. places.items
            ≡ openings_since self.now.parts.openings session from) }
    {
        let Some(mark) = self.session(session) else {
            return Ok(Vec::new(alloc));
        };
        openings_since(alloc, self.openings(), mark.last, session, from)
    }

    fn close(&mut self, at: u64, channel: u32)
        ensures { self.new.parts ≡ with_closed at channel self.old.parts }
    {
        if let Some(mark) = self.openings.get_mut((channel as usize).saturating_sub(1)) {
            mark.closed = mark.closed.or(Some(at));
        }
    }
}

// The lead that these bytes are.
fn lead_of(bytes: &[u8]) -> Lead
    requires some { 1 ≤ length bytes.now }
    requires most { length bytes.now ≤ 4 }
    ensures { result ≡ bytes.now }
{
    match bytes {
        [a] => Lead::of(1, [*a, 0, 0, 0]),
        [a, b] => Lead::of(2, [*a, *b, 0, 0]),
        [a, b, c] => Lead::of(3, [*a, *b, *c, 0]),
        [a, b, c, d] => Lead::of(4, [*a, *b, *c, *d]),
        _ => unreachable!(),
    }
}

// The least time of a template's job: the last tip's, and none where it is of the future.
fn min_ntime(future: bool, tip: Option<TipMark>) -> Option<u32>
    ensures { result ≡ marked_ntime future tip }
{
    if future {
        return None;
    }
    match tip {
        Some(mark) => Some(mark.ntime),
        None => None,
    }
}

// The job of a template among these.
fn job_of(futures: &[FutureMark], id: u64) -> Option<JobPlace>
    ensures { result
        ≡ option_map (λ mark. mark.job) (find (λ mark. mark.template_id == id) futures.now) }
{
    match futures.iter().find(|mark| mark.template_id == id) {
        Some(mark) => Some(mark.job),
        None => None,
    }
}

// The number of a job, 0 where there is none.
fn number_of(job: Option<JobPlace>) -> u32
    ensures { result ≡ live_number job }
{
    match job {
        Some(job) => job.number,
        None => 0,
    }
}

// Puts an element behind the others, for which there is room.
pub(crate) fn put<T: Drop>(items: &mut Vec<T>, item: T)
    requires { vec_len items.old < vec_capacity items.old }
    ensures items { items.new.items ≡ items.old.items ++ item ∷ [] }
    ensures len { vec_len items.new ≡ vec_len items.old + 1 }
{
    let _done = items.push(item);
}
