//! The shares with which the bytes go on that came in one piece: their headers are worked out side
//! by side before they are met. Nothing that is promised rests on it.

ghost use Rattle.std.specs.Prelude.{◌≡◌};
ghost use Rattle.block_header.specs.Hash.{dsha};
ghost use Rattle.pool_history.specs.Headers.{rolled_length};
ghost use Rattle.share_headers.specs.Submitted.{submitted_header};

use crate::asking::mining_meaning;
use crate::meaning::Meaning;
use pool_history::{Brief, Checked, Kind, Lead, Submission};
use session_steps::About;
use share_headers::{Candidate, Foresight, Parts, SharesAhead, brief_of, parts_of};
use std::alloc::{AllocError, Global};
use sv2_messages::kinds;

/// As many bytes as two frames of shares have at least.
const TWO_SHARES: usize = 60;

/// Of so many channels a session keeps what they give to a header.
const MOST_CHANNELS: usize = 64;

/// What a share was briefed by, and the job that this brief is of.
#[derive(Drop)]
struct Briefed {
    job: u32,
    brief: Brief,
}

/// An open channel, and what it gives to a header.
#[derive(Clone, Copy)]
struct Known {
    channel: u32,
    lead: Lead,
    kind: Kind,
}

/// What a session knows of the shares that come next.
#[derive(Drop)]
pub(crate) struct Foreseeing {
    /// The last brief.
    briefed: Option<Briefed>,
    /// The channels whose shares were briefed.
    channels: Vec<Known>,
    foresight: Foresight,
    /// Whether bytes stand behind the frame that is met now.
    goes_on: bool,
}

impl Foreseeing {
    pub(crate) fn new(alloc: Global) -> Foreseeing {
        Foreseeing {
            briefed: None,
            channels: Vec::new(alloc),
            foresight: Foresight::none(),
            goes_on: false,
        }
    }

    /// What `check` of `share_check` gives. The brief is kept where shares may come behind this one.
    pub(crate) fn check(&mut self, brief: Brief, sub: Submission) -> Checked
        requires { sub.extranonce_len ≡ rolled_length brief.kind brief.lead }
        ensures brief { result.brief ≡ brief }
        ensures sub { result.sub ≡ sub }
        ensures header { result.header ≡ submitted_header brief sub }
        ensures hash { result.hash ≡ dsha result.header }
    {
        if self.goes_on {
            self.keep_brief(&parts_of(&brief), sub.job);
            self.keep_channel(sub.channel, brief.lead, brief.kind);
        }
        self.foresight.check(brief, sub)
    }

    /// A share that wasn't briefed costs no hash, nor may those behind it.
    pub(crate) fn forget(&mut self) {
        self.briefed = None;
    }

    fn keep_brief(&mut self, parts: &Parts<'_>, job: u32) {
        if let Some(known) = &self.briefed
            && known.job == job
        {
            return;
        }
        self.briefed = match brief_of(parts) {
            Ok(brief) => Some(Briefed { job, brief }),
            Err(_) => None,
        };
    }

    /// It takes no memory: where no room was made, the channel stays unknown.
    fn keep_channel(&mut self, channel: u32, lead: Lead, kind: Kind) {
        if known_channel(&self.channels, channel).is_some() {
            return;
        }
        if self.channels.len() >= MOST_CHANNELS {
            self.channels.clear();
        }
        if self.channels.len() < self.channels.capacity() {
            let _kept = self.channels.push(Known {
                channel,
                lead,
                kind,
            });
        }
    }

    /// Looks at the bytes behind a frame. Where they begin with two shares or more of the job that was
    /// briefed last, on channels that are known, the headers of the first four are worked out. Room
    /// for what is kept of channels is made here.
    pub(crate) fn look_ahead(&mut self, alloc: Global, bytes: &[u8]) -> Result<(), AllocError> {
        self.goes_on = bytes.len() >= TWO_SHARES;
        if self.foresight.count_down() || !self.goes_on {
            return Ok(());
        }
        if self.channels.capacity() == 0 {
            self.channels.reserve(MOST_CHANNELS)?;
        }
        let Some(known) = &self.briefed else {
            return Ok(());
        };
        match shares_ahead(alloc, &self.channels, bytes, known.job) {
            Some(ahead) => self
                .foresight
                .foresee(alloc, &parts_of(&known.brief), &ahead),
            None => Ok(()),
        }
    }
}

/// The first four shares of a job with which the bytes begin.
fn shares_ahead(alloc: Global, channels: &[Known], bytes: &[u8], job: u32) -> Option<SharesAhead> {
    let (first, mut rest) = share_at(alloc, bytes)?;
    if first.job != job {
        return None;
    }
    let mut ahead = SharesAhead::of(on_its_channel(channels, first)?);
    'others: for _ in 1..4 {
        let Some((sub, behind)) = share_at(alloc, rest) else {
            break 'others;
        };
        match on_its_channel(channels, sub) {
            Some(candidate) if ahead.push(candidate) => rest = behind,
            _ => break 'others,
        }
    }
    Some(ahead)
}

/// A share by what its channel gives, where that is known.
fn on_its_channel(channels: &[Known], sub: Submission) -> Option<Candidate> {
    let Known { lead, kind, .. } = known_channel(channels, sub.channel)?;
    Some(Candidate { sub, lead, kind })
}

fn known_channel(channels: &[Known], channel: u32) -> Option<Known> {
    channels
        .iter()
        .find(|known| known.channel == channel)
        .copied()
}

/// The share with whose frame the bytes begin, and what stands behind it.
fn share_at(alloc: Global, bytes: &[u8]) -> Option<(Submission, &[u8])> {
    let (kind, payload, behind) = frame_at(bytes)?;
    let sub = share_of(alloc, kind, payload)?;
    Some((sub, behind))
}

/// The kind and the payload of the frame with which the bytes begin, and what stands behind it. A
/// frame of an extension is none that a session takes.
fn frame_at(bytes: &[u8]) -> Option<(u8, &[u8], &[u8])> {
    let [0, 0 | 0x80, kind, low, middle, high, rest @ ..] = bytes else {
        return None;
    };
    let len = usize::from(*low) + 256 * (usize::from(*middle) + 256 * usize::from(*high));
    if rest.len() < len {
        return None;
    }
    let (payload, behind) = rest.split_at(len);
    Some((*kind, payload, behind))
}

fn share_of(alloc: Global, kind: u8, payload: &[u8]) -> Option<Submission> {
    if kind != kinds::SUBMIT_SHARES_STANDARD && kind != kinds::SUBMIT_SHARES_EXTENDED {
        return None;
    }
    let read = mining_msgs::read(kind, payload);
    match &read {
        Err(_) => None,
        Ok(message) => match mining_meaning(alloc, message) {
            Ok(Meaning::Work(_, About::Share(sub))) => Some(sub),
            _ => None,
        },
    }
}
