//! Events that are planned, with all the memory that they take.

use channels::ChannelPlan;
use payouts::TallyPlan;
use pool_history::{Event, Reply, Role, TipData};
use sv2_types::{Blob, Hashes, Str255};
use template_jobs::JobPlan;

/// What an event changes in the tables.
#[derive(Drop)]
pub(crate) enum Change {
    Enter {
        worker: u32,
        role: Role,
        flags: u32,
    },
    Leave {
        session: u32,
    },
    Template(JobPlan),
    Tip(TipData),
    Channel(ChannelPlan),
    Close {
        session: u32,
        channel: u32,
    },
    Credit(Crediting),
    Grant {
        account: Str255,
        fixed: bool,
        path: Hashes,
    },
    Custom {
        plan: JobPlan,
        token: Blob,
    },
}

/// What a credit changes.
#[derive(Drop)]
pub(crate) struct Crediting {
    pub plan: TallyPlan,
    pub header: [u8; 80],
    pub is_block: bool,
}

/// An event that is to be kept, what it changes, and the reply to its request.
#[derive(Drop)]
pub(crate) struct Planned {
    pub event: Event,
    pub change: Change,
    pub reply: Reply,
}

/// How a request is answered: at once, or by an event.
#[derive(Drop)]
pub(crate) enum Step {
    Answer(Reply),
    Move(Planned),
}
