//! Changes of a table that were planned.

ghost use Rattle.std.specs.Prelude.{◌≡◌};
ghost use Rattle.channels.specs.Plans.{opened_by};

use pool_history::{Class, Kind, LiveSpan, Opened};
use sv2_types::Str255;

/// A change of a table that was planned, with the memory that it needs.
#[derive(Drop)]
pub enum ChannelPlan {
    /// A channel is opened, at a place of the history; its account is empty for V1.
    Open {
        at: u64,
        session: u32,
        kind: Kind,
        account: Str255,
        opened: Opened,
    },
    /// A channel gets an account, where it has none.
    Name {
        channel: u32,
        account: Str255,
    },
    /// A channel's class is set, at a place of the history, while jobs are live within a span.
    Class {
        at: u64,
        channel: u32,
        class: Class,
        span: LiveSpan,
    },
}

impl ChannelPlan {
    /// What an opening will give.
    pub fn opened(&self) -> Option<Opened>
        ensures { result ≡ opened_by self.now }
    {
        match self {
            ChannelPlan::Open { opened, .. } => Some(*opened),
            ChannelPlan::Name { .. } => None,
            ChannelPlan::Class { .. } => None,
        }
    }
}
