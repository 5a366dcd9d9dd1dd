//! The script feed.

ghost use Rattle.std.specs.Prelude.{◌≡◌, Some, OnOk};
ghost use Rattle.mining_msgs.specs.Seen.{mining_message};
ghost use Rattle.template_msgs.specs.Seen.{template_message};
ghost use Rattle.test_miner.specs.FeedHearing.{
  asks_for_templates,
  closed_feed,
  cut_feed,
  hear_first,
  hear_in_feed,
  hear_later,
  is_setup,
  judged,
  new_feed,
  refused_by_kind,
  solved,
  solved_by_fields,
  suits,
};
ghost use Rattle.test_miner.specs.Solutions.{solution_value};

use crate::notice::CHANNEL_BIT;
use crate::script::Script;
use mining_msgs::Mining;
use std::alloc::{AllocError, Global};
use std::marker::Model;
use sv2_frames::Frame;
use sv2_messages::kinds;
use template_msgs::{SubmitSolution, Template};

/// How a feed ends.
#[derive(Clone, Copy)]
pub enum FeedEnd {
    /// Its caller said no more.
    Done,
    /// Its caller didn't begin with a setup, or said no message where a solution was due, or ended
    /// within a frame.
    BadPeer,
}

/// What came of a solution.
#[derive(Clone, Copy)]
pub struct Verdict {
    /// The template that it names.
    pub id: u64,
    pub is_valid: bool,
}

/// What a feed knows.
#[derive(Drop)]
pub struct FeedCourse {
    script: Script,
    is_set_up: bool,
    verdicts: Vec<Verdict>,
    end: Option<FeedEnd>,
}

impl Model for FeedCourse {
    ghost use Rattle.test_miner.specs.FeedStates.{FeedState};

    ghost Value = { FeedState };

    ghost view = { λ c. record {
      script = c.script;
      is_set_up = c.is_set_up;
      verdicts = c.verdicts.items;
      end = c.end;
    } };
}

impl FeedCourse {
    /// A feed that has heard nothing.
    pub fn new(alloc: Global, script: Script) -> FeedCourse
        ensures { result ≡ new_feed script }
    {
        FeedCourse {
            script,
            is_set_up: false,
            verdicts: Vec::new(alloc),
            end: None,
        }
    }

    /// Whether its caller has set up.
    pub fn is_set_up(&self) -> bool
        ensures { result ≡ self.now.is_set_up }
    {
        self.is_set_up
    }

    /// How it ended, if it has.
    pub fn end(&self) -> Option<FeedEnd>
        ensures { result ≡ self.now.end }
    {
        self.end
    }

    /// The script that it gives.
    pub fn script(&self) -> &Script
        ensures { result.now ≡ self.now.script }
    {
        &self.script
    }

    /// What came of the solutions so far, in their order.
    pub fn verdicts(&self) -> &[Verdict]
        ensures { result.now ≡ self.now.verdicts }
    {
        self.verdicts.as_slice()
    }

    /// Hears a frame. Once it has ended it hears nothing.
    pub fn hear(&mut self, frame: Frame<'_>) -> Result<(), AllocError>
        ensures { OnOk result (self.new ≡ hear_in_feed (record {
          ext = frame.entry.ext;
          kind = frame.entry.kind;
          payload = frame.entry.payload.now;
        }) self.old) }
    {
        if self.end.is_some() {
            return Ok(());
        }
        if self.is_set_up {
            return self.hear_later(frame);
        }
        self.hear_first(frame);
        Ok(())
    }

    fn hear_first(&mut self, frame: Frame<'_>)
        ensures { self.new ≡ hear_first (record {
          ext = frame.entry.ext;
          kind = frame.entry.kind;
          payload = frame.entry.payload.now;
        }) self.old }
    {
        if is_setup(frame) {
            self.is_set_up = true;
        } else {
            self.end = Some(FeedEnd::BadPeer);
        }
    }

    fn hear_later(&mut self, frame: Frame<'_>) -> Result<(), AllocError>
        ensures { OnOk result (self.new ≡ hear_later (record {
          ext = frame.entry.ext;
          kind = frame.entry.kind;
          payload = frame.entry.payload.now;
        }) self.old) }
    {
        if frame.ext % CHANNEL_BIT != 0 {
            return Ok(());
        }
        self.solve(frame.kind, frame.payload)
    }

    /// Judges the solution that a payload spells.
    fn solve(&mut self, kind: u8, payload: &[u8]) -> Result<(), AllocError>
        ensures { OnOk result (self.new ≡ solved kind payload.now self.old) }
    {
        let read = template_msgs::read(kind, payload);
        match &read {
            Ok(message) => self.take_message(message),
            Err(_) => {
                self.refuse(kind);
                Ok(())
            }
        }
    }

    fn refuse(&mut self, kind: u8)
        ensures { self.new ≡ refused_by_kind kind self.old }
    {
        if kind == kinds::SUBMIT_SOLUTION {
            self.end = Some(FeedEnd::BadPeer);
        }
    }

    fn take_message(&mut self, message: &Template<'_>) -> Result<(), AllocError>
        ensures { let seen = template_message message.now in OnOk result
            (self.new ≡ solved_by_fields seen.kind seen.fields self.old) }
    {
        match message {
            Template::SubmitSolution(solution) => self.judge(solution),
            Template::CoinbaseOutputConstraints(_)
            | Template::NewTemplate(_)
            | Template::SetNewPrevHash(_)
            | Template::RequestTransactionData(_)
            | Template::RequestTransactionDataSuccess(_)
            | Template::RequestTransactionDataError(_) => Ok(()),
        }
    }

    fn judge(&mut self, solution: &SubmitSolution<'_>) -> Result<(), AllocError>
        ensures { OnOk result (self.new ≡ judged (solution_value solution.now) self.old) }
    {
        let is_valid = self.script.accepts(solution)?;
        let id = solution.template_id;
        self.verdicts.push(Verdict { id, is_valid })?;
        Ok(())
    }

    /// The caller is none that it can serve, where it hasn't ended before.
    pub fn cut_off(&mut self)
        ensures { self.new ≡ cut_feed self.old }
    {
        if self.end.is_none() {
            self.end = Some(FeedEnd::BadPeer);
        }
    }

    /// The input ends, with so many bytes of a frame held.
    pub fn close(&mut self, held: usize) -> FeedEnd
        ensures state { self.new ≡ closed_feed held self.old }
        ensures end { self.new.end ≡ Some result }
    {
        match self.end {
            Some(end) => end,
            None => {
                let end = if self.is_set_up && held == 0 {
                    FeedEnd::Done
                } else {
                    FeedEnd::BadPeer
                };
                self.end = Some(end);
                end
            }
        }
    }
}

/// Whether a frame sets a feed up.
fn is_setup(frame: Frame<'_>) -> bool
    ensures { result ≡ is_setup (record {
      ext = frame.entry.ext;
      kind = frame.entry.kind;
      payload = frame.entry.payload.now;
    }) }
{
    if frame.ext % CHANNEL_BIT != 0 {
        return false;
    }
    suits(frame.kind, frame.payload)
}

fn suits(kind: u8, payload: &[u8]) -> bool
    ensures { result ≡ suits kind payload.now }
{
    let read = mining_msgs::read(kind, payload);
    match &read {
        Ok(message) => asks_for_templates(message),
        Err(_) => false,
    }
}

/// Whether a message is a setup for template distribution in version 2.
fn asks_for_templates(message: &Mining<'_>) -> bool
    ensures { let seen = mining_message message.now in
        result ≡ asks_for_templates seen.kind seen.fields }
{
    match message {
        Mining::SetupConnection(setup) => {
            setup.protocol == 2 && setup.min_version <= 2 && 2 <= setup.max_version
        }
        Mining::SetupConnectionSuccess(_)
        | Mining::SetupConnectionError(_)
        | Mining::OpenStandardMiningChannel(_)
        | Mining::OpenStandardMiningChannelSuccess(_)
        | Mining::OpenMiningChannelError(_)
        | Mining::OpenExtendedMiningChannel(_)
        | Mining::OpenExtendedMiningChannelSuccess(_)
        | Mining::NewMiningJob(_)
        | Mining::UpdateChannel(_)
        | Mining::UpdateChannelError(_)
        | Mining::CloseChannel(_)
        | Mining::SetExtranoncePrefix(_)
        | Mining::SubmitSharesStandard(_)
        | Mining::SubmitSharesExtended(_)
        | Mining::SubmitSharesSuccess(_)
        | Mining::SubmitSharesError(_)
        | Mining::NewExtendedMiningJob(_)
        | Mining::SetNewPrevHash(_)
        | Mining::SetTarget(_)
        | Mining::SetCustomMiningJob(_)
        | Mining::SetCustomMiningJobSuccess(_)
        | Mining::SetCustomMiningJobError(_) => false,
    }
}
