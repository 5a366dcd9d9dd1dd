//! Credits that come next: their headers are worked out side by side before they are told.

ghost use Rattle.std.specs.Prelude.{◌≡◌};

use crate::replay::Replay;
use channels::Channels;
use pool_tables::admit;
use share_headers::{Candidate, SharesAhead};
use std::alloc::AllocError;

impl Replay {
    /// Whether the record that comes next was foreseen. It is to be asked once before each record.
    pub fn count_down(&mut self) -> bool
        ensures { self.new ≡ self.old }
    {
        self.foresight.count_down()
    }

    /// Works out the headers of a session's credits that stand behind one another, by what their
    /// channels and their job are now. Nothing is told, and nothing is told otherwise for it.
    pub fn foresee(&mut self, session: u32, ahead: &SharesAhead) -> Result<(), AllocError>
        ensures { self.new ≡ self.old }
    {
        let placed = on_their_channels(&self.channels, ahead);
        let sub = placed.first().sub;
        match admit(&self.rules, &self.channels, &self.jobs, session, &sub) {
            Ok(found) => self.foresight.foresee(self.alloc, &found.parts(), &placed),
            Err(_) => Ok(()),
        }
    }
}

/// The same shares, by what their channels give.
fn on_their_channels(channels: &Channels, ahead: &SharesAhead) -> SharesAhead {
    let mut placed = SharesAhead::of(on_its_channel(channels, ahead.first()));
    'others: for candidate in ahead.shares().iter().skip(1) {
        if !placed.push(on_its_channel(channels, *candidate)) {
            break 'others;
        }
    }
    placed
}

/// The same share, by what its channel gives. Where that isn't open, it stays as it is.
fn on_its_channel(channels: &Channels, candidate: Candidate) -> Candidate {
    match channels.channel(candidate.sub.channel) {
        Some(channel) => {
            let mut sub = candidate.sub;
            sub.kind = channel.kind;
            Candidate {
                sub,
                lead: channel.lead,
                kind: channel.kind,
            }
        }
        None => candidate,
    }
}
