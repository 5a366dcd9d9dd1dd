//! The summary of what was replayed.

use crate::replay::Replay;
use payouts::write_summary;
use std::alloc::AllocError;

impl Replay {
    ghost use Rattle.std.specs.Prelude.{◌≡◌, ◌++◌, List, OnErr, OnOk};
    ghost use Rattle.pool_history.specs.declared.events.Event.{Event};
    ghost use Rattle.pool_history.specs.Summary.{summary_of, summary_text};
    ghost use Rattle.ledger_replay.specs.Replays.{WasReplayed};

    /// Appends the summary of the events that were told. Lack of memory leaves `out` as it was.
    pub fn write_summary(&self, out: &mut Vec<u8>) -> Result<(), AllocError>
        ensures ok { OnOk result ((past : List Event) → WasReplayed self.now past
            → out.new.items ≡ out.old.items ++ summary_text (summary_of past)) }
        ensures err { OnErr result (out.new.items ≡ out.old.items) }
    {
        write_summary(self.sessions.count(), self.events, &self.tally, out)
    }
}
