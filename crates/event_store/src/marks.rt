//! What is kept beside the events. A mark says what the news of an event need of the events before
//! it.

use pool_history::{Kind, Lead};
use std::marker::Model;

/// A job and the place of its event.
#[derive(Clone, Copy)]
pub(crate) struct JobPlace {
    pub number: u32,
    pub at: u64,
}

/// A job, by the place of its event, with the least time that it is told with.
#[derive(Clone, Copy)]
pub(crate) struct JobMark {
    pub number: u32,
    pub at: u64,
    pub min_ntime: Option<u32>,
}

/// A template that was of the future when it came.
#[derive(Clone, Copy)]
pub(crate) struct FutureMark {
    pub job: JobPlace,
    pub template_id: u64,
}

/// A tip, by its place and its time.
#[derive(Clone, Copy)]
pub(crate) struct TipMark {
    pub at: u64,
    pub ntime: u32,
}

/// A session: the place at which it was entered, its flags, the place of its last opening's mark,
/// and the place at which it left.
#[derive(Clone, Copy)]
pub(crate) struct SessionMark {
    pub at: u64,
    pub flags: u32,
    pub last: Option<u32>,
    pub left: Option<u64>,
}

/// A channel as news are made for it. A standard one's lead has four bytes.
#[derive(Clone, Copy)]
pub(crate) struct Listener {
    pub id: u32,
    pub kind: Kind,
    pub lead: Lead,
}

impl Model for Listener {
    ghost use Rattle.event_store.specs.Listening.{Listening};
    ghost use Rattle.pool_history.specs.Headers.{IsBriefing};

    ghost Value = { Listening };

    ghost view = { λ listener. record {
      id = listener.id;
      kind = listener.kind;
      lead = listener.lead;
    } };

    ghost invariant = { λ listener. IsBriefing listener.kind listener.lead };

    ghost inverse = { λ listener. record {
      id = listener.id;
      kind = listener.kind;
      lead = listener.lead;
    } };
}

/// An opening: its channel and session, its place, the place of the mark of the session's opening
/// before, the place at which the channel was closed, and how the jobs stood: the newest live one,
/// the last tip, and the future ones from a mark to another.
#[derive(Clone, Copy)]
pub(crate) struct OpeningMark {
    pub listener: Listener,
    pub session: u32,
    pub at: u64,
    pub before: Option<u32>,
    pub closed: Option<u64>,
    pub live: Option<JobPlace>,
    pub tip: Option<TipMark>,
    pub first_future: usize,
    pub end_future: usize,
}
