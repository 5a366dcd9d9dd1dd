//! What a proxy knows, and what it makes of each event.

use crate::calling::{
    hear_line, is_joined, join, leave, output_of, relay, seat_of, take_name, take_share,
};
use crate::channel::UpChannel;
use crate::frames::message_in;
use crate::jobs::{RelayedJob, RelayedTip, hold_job, tip_jobs};
use crate::miners::Miner;
use crate::opening::{put_opening, terms_of};
use crate::sharing::sent_from;
use crate::subscribing::{offer, subscribe_at};
use crate::waiting::{SharesSent, Verdict, say_code_at};
use mining_msgs::{
    Mining, NewExtendedMiningJob, OpenExtendedMiningChannelSuccess, SetNewPrevHash, put_plain_setup,
};
use proxy_rules::{ProxyEvent, ProxyRefusal};
use std::alloc::{AllocError, Global};
use std::marker::Model;
use sv2_types::{Str255, U256};
use v1_translate::{CheckedShare, LineId, V1Ask, V1Terms};

/// The version of a setup that was asked for.
const VERSION: u16 = 2;

/// What a proxy knows.
#[derive(Drop)]
pub(crate) struct Relay {
    alloc: Global,
    terms: V1Terms,
    user: Str255,
    is_set_up: bool,
    opened: Option<UpChannel>,
    // the oldest first
    jobs: Vec<RelayedJob>,
    tip: Option<RelayedTip>,
    is_ended: bool,
    shares: SharesSent,
    miners: Vec<Miner>,
    output: Vec<u8>,
}

impl Model for Relay {
    ghost use Rattle.std.specs.Prelude.{◌≡◌};
    ghost use Rattle.proxy_core.specs.Codes.{relay_code};
    ghost use Rattle.proxy_rules.specs.State as state;

    ghost Value = { state.Relay };

    ghost coded = { relay_code };

    ghost view = { λ r. record {
      user = r.user;
      base = r.terms.base;
      is_set_up = r.is_set_up;
      opened = r.opened;
      jobs = r.jobs.items;
      tip = r.tip;
      is_ended = r.is_ended;
      sent = r.shares.count;
      waiting = r.shares.waiting;
      miners = r.miners.items;
      output = r.output.items;
    } };

    ghost invariant = { λ r. r.terms ≡ state.terms_of r.terms.base };
}

impl Relay {
    ghost use Rattle.std.specs.Prelude.{◌≡◌, ◌<◌, ◌≤◌, IfOk, Ok};
    ghost use Rattle.std.specs.Result.{ForOk};
    ghost use Rattle.proxy_core.specs.Reading.{channel_in, told_by_message};
    ghost use Rattle.proxy_core.specs.Verdicts as verdicts;
    ghost use Rattle.proxy_rules.specs.declared.events.ProxyEvent.TheVariants as event;
    ghost use Rattle.proxy_rules.specs.Frames.{set_up_by, told_up};
    ghost use Rattle.proxy_rules.specs.Miners as callers;
    ghost use Rattle.proxy_rules.specs.State.{terms_of};
    ghost use Rattle.proxy_rules.specs.Steps as steps;
    ghost use Rattle.v1_translate.specs.Heard as heard;
    ghost use Rattle.v1_translate.specs.Heard.{told_by, told_job};
    ghost use Rattle.v1_translate.specs.SentMessages.{job_in, tip_in};
    ghost use Rattle.v1_translate.specs.Saying.{asking_of};

    /// A proxy that starts.
    #[tactic(auto, unfolding(v1_translate::specs::Saying::frame_of_message))]
    pub(crate) fn new(alloc: Global, user: Str255, base: u8) -> Result<Relay, AllocError>
        requires { base ≤ 60 }
        ensures { IfOk result (λ relay. relay ≡ steps.started user base) }
    {
        let mut output = Vec::new(alloc);
        put_plain_setup(&mut output, 0)?;
        Ok(Relay {
            alloc,
            terms: terms_of(alloc, base),
            user,
            is_set_up: false,
            opened: None,
            jobs: Vec::new(alloc),
            tip: None,
            is_ended: false,
            shares: SharesSent::new(alloc),
            miners: Vec::new(alloc),
            output,
        })
    }

    pub(crate) fn is_joined(&self, caller: u32) -> bool
        ensures { result ≡ callers.is_joined caller self.now.miners }
    {
        is_joined(self.miners.as_slice(), caller)
    }

    /// How many submissions went upstream.
    pub(crate) fn sent(&self) -> u32
        ensures { result ≡ self.now.sent }
    {
        self.shares.count()
    }

    /// All that was written upstream.
    pub(crate) fn output(&self) -> &[u8]
        ensures { result.now ≡ self.now.output }
    {
        self.output.as_slice()
    }

    /// What was written to a caller since it last joined.
    pub(crate) fn output_of(&self, caller: u32) -> &[u8]
        ensures { result.now ≡ callers.output_in (callers.miner_of caller self.now.miners) }
    {
        output_of(self.miners.as_slice(), caller)
    }

    /// Takes an event. Where memory runs out, nothing is told of what is known.
    pub(crate) fn step(&mut self, event: &ProxyEvent) -> Result<(), AllocError>
        ensures { IfOk result (λ done. self.new ≡ steps.step self.old event.now) }
    {
        match event {
            ProxyEvent::Start(_, _) => Ok(()),
            ProxyEvent::Up(bytes) => self.hear_up(bytes.bytes()),
            ProxyEvent::UpEnd => self.end(),
            ProxyEvent::Join(caller) => self.join(*caller),
            ProxyEvent::Line(caller, line) => self.hear_line(*caller, line.bytes()),
            ProxyEvent::Leave(caller) => {
                self.leave(*caller);
                Ok(())
            }
        }
    }

    /// A frame of the upstream.
    fn hear_up(&mut self, bytes: &[u8]) -> Result<(), AllocError>
        ensures { IfOk result (λ done. self.new
            ≡ steps.heard_up self.old (told_up bytes.now)) }
    {
        let found = message_in(bytes);
        match &found {
            Some(message) => self.hear(message),
            None => Ok(()),
        }
    }

    /// A message of the upstream.
    #[tactic(auto, using(crate::proofs::Heard::job_is_heard))]
    fn hear(&mut self, message: &Mining<'_>) -> Result<(), AllocError>
        ensures { IfOk result (λ done. self.new
            ≡ steps.heard_up self.old (told_by_message message.now)) }
    {
        match message {
            Mining::SetupConnectionSuccess(accepted) => self.set_up(accepted.used_version),
            Mining::OpenExtendedMiningChannelSuccess(opened) => self.open(opened),
            Mining::SetTarget(set) => self.retarget(set.maximum_target, message),
            Mining::SubmitSharesSuccess(taken) => {
                self.answer_by((Verdict::UpTo(taken.last_sequence_number),))
            }
            Mining::SubmitSharesError(refused) => {
                let number = refused.sequence_number;
                self.answer_by((Verdict::Refused(number, refused.error_code),))
            }
            Mining::NewExtendedMiningJob(job) => self.add_job(job, message),
            Mining::SetNewPrevHash(tip) => self.take_tip(tip, message),
            _ => Ok(()),
        }
    }

    /// The setup was accepted with a version: where it is the one that was asked for, the channel is
    /// asked for once.
    fn set_up(&mut self, version: u16) -> Result<(), AllocError>
        ensures { IfOk result (λ done. self.new
            ≡ steps.heard_up self.old (set_up_by version)) }
    {
        if version != VERSION || self.is_set_up {
            return Ok(());
        }
        put_opening(&self.user, self.terms.base(), &mut self.output)?;
        self.is_set_up = true;
        Ok(())
    }

    /// A channel is opened: the first is the one.
    fn open(&mut self, message: &OpenExtendedMiningChannelSuccess<'_>) -> Result<(), AllocError>
        ensures { IfOk result (λ done. self.new
            ≡ steps.heard self.old (heard.Opened (channel_in message.now))) }
    {
        if self.opened.is_none() {
            self.opened = Some(UpChannel::of(self.alloc, message)?);
        }
        Ok(())
    }

    /// Another target.
    fn retarget(&mut self, target: U256, message: &Mining<'_>) -> Result<(), AllocError>
        requires { told_by message.now ≡ heard.Target target }
        ensures { IfOk result (λ done. self.new ≡ steps.heard self.old (heard.Target target)) }
    {
        if let Some(channel) = &mut self.opened {
            channel.retarget(target);
        }
        relay(self.alloc, &self.terms, &mut self.miners, message)
    }

    /// A job.
    fn add_job(
        &mut self,
        job: &NewExtendedMiningJob<'_>,
        message: &Mining<'_>,
    ) -> Result<(), AllocError>
        requires { told_by message.now ≡ told_job job.now.min_ntime (job_in job.now) }
        ensures { IfOk result (λ done. self.new ≡ steps.job_heard self.old
            (record { job = job_in job.now; min_ntime = job.now.min_ntime })) }
    {
        hold_job(self.alloc, &mut self.jobs, job)?;
        relay(self.alloc, &self.terms, &mut self.miners, message)
    }

    /// A tip.
    fn take_tip(&mut self, tip: &SetNewPrevHash, message: &Mining<'_>) -> Result<(), AllocError>
        requires { told_by message.now ≡ heard.Tipped (tip_in tip.now) }
        ensures { IfOk result (λ done. self.new
            ≡ steps.heard self.old (heard.Tipped (tip_in tip.now))) }
    {
        let held = RelayedTip::of(tip);
        tip_jobs(&mut self.jobs, &held);
        self.tip = Some(held);
        relay(self.alloc, &self.terms, &mut self.miners, message)
    }

    /// Answers the submissions that a verdict is about.
    fn answer_by(&mut self, verdict: (Verdict<'_>,)) -> Result<(), AllocError>
        ensures { IfOk result (λ done. self.new
            ≡ steps.answer_those (verdicts.is_about verdict.entry.0)
            (verdicts.said_by verdict.entry.0) self.old) }
    {
        self.shares.answer(self.alloc, &verdict.0, &mut self.miners)
    }

    /// The upstream ended: nothing waits any more.
    fn end(&mut self) -> Result<(), AllocError>
        ensures { IfOk result (λ done. self.new ≡ steps.ended self.old) }
    {
        self.answer_by((Verdict::Lost,))?;
        self.is_ended = true;
        Ok(())
    }

    /// A caller that isn't joined joins.
    fn join(&mut self, caller: u32) -> Result<(), AllocError>
        ensures { IfOk result (λ done. self.new ≡ steps.step self.old (event.Join caller)) }
    {
        if self.is_joined(caller) {
            return Ok(());
        }
        join(self.alloc, &mut self.miners, caller)
    }

    /// A caller leaves: what it sent is answered to nobody.
    fn leave(&mut self, caller: u32)
        ensures { self.new ≡ steps.parted self.old caller }
    {
        self.shares.forget(caller);
        leave(&mut self.miners, caller);
    }

    /// A line of a caller.
    fn hear_line(&mut self, caller: u32, line: &[u8]) -> Result<(), AllocError>
        ensures { IfOk result (λ done. self.new ≡ steps.line_heard self.old caller line.now) }
    {
        let ask = hear_line(self.alloc, &self.terms, &mut self.miners, caller, line)?;
        self.answer(caller, ask)
    }

    /// Answers what a caller's session asks of its pool.
    fn answer(&mut self, caller: u32, ask: V1Ask) -> Result<(), AllocError>
        ensures { IfOk result (λ done. self.new
            ≡ steps.asked self.old caller (asking_of ask)) }
    {
        match ask {
            V1Ask::Nothing | V1Ask::Update(_, _) => Ok(()),
            V1Ask::Open(_) => self.subscribe(caller),
            V1Ask::Name(account) => {
                take_name(self.alloc, &mut self.miners, caller, account.text())
            }
            V1Ask::Share(share) => self.share(caller, &share),
        }
    }

    /// A caller subscribes.
    fn subscribe(&mut self, caller: u32) -> Result<(), AllocError>
        ensures { IfOk result (λ done. self.new ≡ steps.changed self.old caller
            (steps.subscribed (terms_of self.old.base) self.old.tip self.old.jobs
            (steps.offer self.old))) }
    {
        let opened = self.opened.as_ref();
        let offer = offer(self.alloc, self.is_ended, opened, self.miners.as_slice())?;
        let (tip, jobs) = (self.tip.as_ref(), self.jobs.as_slice());
        subscribe_at(
            self.alloc,
            &self.terms,
            tip,
            jobs,
            offer,
            &mut self.miners,
            caller,
        )
    }

    /// A caller submits a share.
    fn share(&mut self, caller: u32, share: &CheckedShare) -> Result<(), AllocError>
        ensures { IfOk result (λ done. self.new ≡ steps.shared_from self.old caller share.now
            (callers.session_of caller self.old.miners)) }
    {
        let seat = seat_of(self.miners.as_slice(), caller);
        let sent = sent_from(self.alloc, self.is_ended, self.shares.count(), share, seat)?;
        match take_share(&mut self.miners, caller, share.sequence()) {
            Some(id) => self.send(caller, id, sent),
            None => Ok(()),
        }
    }

    /// Sends a share upstream, or refuses it.
    fn send(
        &mut self,
        caller: u32,
        id: LineId,
        sent: Result<CheckedShare, ProxyRefusal>,
    ) -> Result<(), AllocError>
        requires { ForOk sent (λ share. self.old.sent < steps.most_sent) }
        ensures { IfOk result (λ done. self.new ≡ steps.shared self.old caller id sent) }
    {
        match sent {
            Ok(share) => self.send_up(caller, id, &share),
            Err(refusal) => {
                say_code_at(self.alloc, &mut self.miners, caller, id, refusal.code())
            }
        }
    }

    /// Sends a share upstream, where it waits.
    fn send_up(&mut self, caller: u32, id: LineId, share: &CheckedShare) -> Result<(), AllocError>
        requires { self.old.sent < steps.most_sent }
        ensures { IfOk result (λ done. self.new ≡ steps.shared self.old caller id (Ok share.now)) }
    {
        share.put(&mut self.output)?;
        self.shares.add(caller, id)
    }
}
