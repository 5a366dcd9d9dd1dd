//! The twelve kinds of event.

use crate::boxed::Boxed;
use crate::settings::Rules;
use crate::templates::{CustomData, TemplateData, TipData};
use sv2_types::{Blob, Hashes, Str255};

/// What a session may do.
#[derive(Clone, Copy)]
pub enum Role {
    /// A miner, which opens channels and submits shares.
    Miner,
    /// A template provider, which sends templates and tips.
    Feed,
    /// Both in one.
    Solo,
}

/// The kind of a channel (Stratum V2, "Channels").
#[derive(Clone, Copy)]
pub enum Kind {
    /// Its extranonce is fixed, and its miner rolls none of it.
    Standard,
    /// Its miner rolls the bytes behind its lead.
    Extended,
    /// As extended, and it gets its account after it was opened.
    V1,
}

/// Where a job stands.
#[derive(Clone, Copy)]
pub enum JobState {
    Unknown,
    Future,
    Live,
    Stale,
}

/// One event of a history. Sessions, channels, jobs and grants go by their numbers.
#[derive(Drop)]
pub enum Event {
    /// The rules of the pool, which stand first and once.
    Start(Boxed<Rules>),
    /// A worker's session begins.
    Enter {
        worker: u32,
        role: Role,
        flags: u32,
    },
    Template {
        session: u32,
        template: Boxed<TemplateData>,
    },
    Tip {
        session: u32,
        tip: Boxed<TipData>,
    },
    /// A channel is opened; its account is empty for V1.
    Open {
        session: u32,
        kind: Kind,
        account: Str255,
        class: u8,
        lead: Blob,
    },
    /// A V1 channel gets its account.
    Name {
        session: u32,
        channel: u32,
        account: Str255,
    },
    Class {
        session: u32,
        channel: u32,
        class: u8,
    },
    Close {
        session: u32,
        channel: u32,
    },
    Leave {
        session: u32,
    },
    /// A share is booked.
    Credit {
        session: u32,
        channel: u32,
        job: u32,
        nonce: u32,
        ntime: u32,
        version: u32,
        extranonce: Blob,
    },
    /// A token for a job of the miner's own, for any merkle path or for one that is fixed.
    Grant {
        session: u32,
        account: Str255,
        fixed: bool,
        path: Hashes,
    },
    Custom {
        session: u32,
        custom: Boxed<CustomData>,
    },
}
