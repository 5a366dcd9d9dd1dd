//! What one session knows, and its public calls.

use crate::asking::{V1Ask, put_ask};
use crate::configuring::{configuration_in, configured_value, granted};
use crate::ids::LineId;
use crate::jobs::{HeldJob, HeldTip, Jobs};
use crate::sayings::{refuse, say_answer, say_code, say_difficulty, say_job, say_refusal};
use crate::step::V1Step;
use crate::submissions::{CheckedShare, NotSent, say_not_sent, works_for};
use crate::terms::V1Terms;
use crate::waiting::{WaitingName, WaitingShare, put_waiting, take_waiting};
use crate::{
    AskedShare, Method, are_within, asked_difficulty, asked_share, class_of_difficulty,
    difficulty_of, extranonce_in, subscription_value,
};
use mining_msgs::{Mining, NewExtendedMiningJob, OpenExtendedMiningChannelSuccess, SetNewPrevHash};
use pool_history::{Class, account_in, is_known_account};
use serde_json::Value;
use std::alloc::{AllocError, Global};
use std::marker::Model;
use sv2_types::Str255;
use v1_lines::{MethodCall, V1Error, call_in, hex_number, is_blank_line, line_value};

/// A session of Stratum V1. Contracts see what `v1_rules` says that it knows.
#[derive(Drop)]
pub struct V1Session {
    mask: u32,
    subscriber: Option<LineId>,
    channel: Option<u32>,
    naming: Option<WaitingName>,
    account: Option<Str255>,
    sequence: u32,
    // the last first
    waiting: Vec<WaitingShare>,
    jobs: Jobs,
}

impl Model for V1Session {
    ghost use Rattle.v1_translate.specs.State.{V1State};
    ghost use Rattle.v1_translate.specs.Codes.{state_code};

    ghost Value = { V1State };

    ghost coded = { state_code };

    ghost view = { λ session. record {
      mask = session.mask;
      subscriber = session.subscriber;
      channel = session.channel;
      naming = session.naming;
      account = session.account;
      sequence = session.sequence;
      waiting = session.waiting.items;
      jobs = session.jobs;
    } };
}

impl V1Session {
    ghost use Rattle.std.specs.Prelude.{◌≡◌, ◌++◌, IfOk, Ok, Some, option_map};
    ghost use Rattle.serde_json.specs.Find.{get_item};
    ghost use Rattle.serde_json.specs.View.{items_view, view};
    ghost use Rattle.v1_lines.specs.Requests as requests;
    ghost use Rattle.v1_translate.specs.Configuring as configuring;
    ghost use Rattle.v1_translate.specs.Difficulty.{asked_difficulty};
    ghost use Rattle.v1_translate.specs.Heard as told;
    ghost use Rattle.v1_translate.specs.Heard.{told_by, told_job};
    ghost use Rattle.v1_translate.specs.Lines as lines;
    ghost use Rattle.v1_translate.specs.Messages as messages;
    ghost use Rattle.v1_translate.specs.State as state;
    ghost use Rattle.v1_translate.specs.Submitting as submitting;
    ghost use Rattle.v1_translate.specs.AskedUpstream as asked;
    ghost use Rattle.v1_translate.specs.SentMessages.{job_in, tip_in};
    ghost use Rattle.v1_translate.specs.Shares.{checked_by};
    ghost use Rattle.v1_translate.specs.Saying.{Asks, Says, asking_of, line_of};

    /// A session that heard nothing.
    pub fn new(alloc: Global) -> V1Session
        ensures { result ≡ state.start }
    {
        V1Session {
            mask: 0,
            subscriber: None,
            channel: None,
            naming: None,
            account: None,
            sequence: 0,
            waiting: Vec::new(alloc),
            jobs: Jobs::new(alloc),
        }
    }

    /// The channel, once it is open.
    pub fn channel(&self) -> Option<u32>
        ensures { result ≡ self.now.channel }
    {
        self.channel
    }

    /// The account, once one was taken.
    pub fn account(&self) -> Option<&Str255>
        ensures { option_map (λ account. account.now) result ≡ self.now.account }
    {
        self.account.as_ref()
    }

    /// Takes the last submission with a sequence number from those that wait, and gives the id of
    /// its line, which is then the caller's to answer.
    pub fn take_share(&mut self, sequence: u32) -> Option<LineId>
        ensures id { result ≡ messages.answered sequence self.old.waiting }
        ensures rest { self.new
            ≡ record self.old { waiting = messages.still_waiting sequence self.old.waiting } }
    {
        take_waiting(&mut self.waiting, sequence)
    }

    /// Hears a line of the miner, without its end. Appends what is said to `out`, and to `up` the
    /// frame of what is asked of the pool. Where memory runs out, nothing is told of what was
    /// appended or of the state.
    pub fn on_line(
        &mut self,
        alloc: Global,
        terms: &V1Terms,
        line: &[u8],
        up: &mut Vec<u8>,
        out: &mut Vec<u8>,
    ) -> Result<V1Step, AllocError>
        ensures says { IfOk result (λ step. Says
            (lines.line_reaction terms.now self.old line.now)
            self.new out.old.items out.new.items) }
        ensures asks { IfOk result (λ step. Asks
            (lines.line_reaction terms.now self.old line.now).asks
            step up.old.items up.new.items) }
    {
        let ask = self.hear_line(alloc, terms, line, out)?;
        put_ask(ask, up)
    }

    /// Hears a line of the miner, without its end. Appends what is said to `out`, and answers what
    /// is asked of the pool. Where memory runs out, nothing is told of what was appended or of the
    /// state.
    #[tactic(auto, unfolding(crate::specs::Lines::line_reaction))]
    pub fn hear_line(
        &mut self,
        alloc: Global,
        terms: &V1Terms,
        line: &[u8],
        out: &mut Vec<u8>,
    ) -> Result<V1Ask, AllocError>
        ensures says { IfOk result (λ ask. Says
            (lines.line_reaction terms.now self.old line.now)
            self.new out.old.items out.new.items) }
        ensures asks { IfOk result (λ ask. asking_of ask
            ≡ (lines.line_reaction terms.now self.old line.now).asks) }
    {
        if is_blank_line(line) {
            return Ok(V1Ask::Nothing);
        }
        match line_value(alloc, line)? {
            Some(value) => self.on_value(alloc, terms, &value, out),
            None => refuse(alloc, LineId::none(), V1Error::MalformedRequest, out),
        }
    }

    /// A line that is JSON.
    fn on_value(
        &mut self,
        alloc: Global,
        terms: &V1Terms,
        value: &Value,
        out: &mut Vec<u8>,
    ) -> Result<V1Ask, AllocError>
        ensures says { IfOk result (λ ask. Says
            (lines.by_value terms.now self.old (Some (view value.now)))
            self.new out.old.items out.new.items) }
        ensures asks { IfOk result (λ ask. asking_of ask
            ≡ (lines.by_value terms.now self.old (Some (view value.now))).asks) }
    {
        let id = LineId::of(value)?;
        match call_in(value) {
            Some(call) => self.on_call(alloc, terms, id, &call, out),
            None => refuse(alloc, id, V1Error::MalformedRequest, out),
        }
    }

    /// A request.
    fn on_call(
        &mut self,
        alloc: Global,
        terms: &V1Terms,
        id: LineId,
        call: &MethodCall<'_>,
        out: &mut Vec<u8>,
    ) -> Result<V1Ask, AllocError>
        ensures says { IfOk result (λ ask. Says
            (lines.by_method terms.now self.old id (items_view call.now.params.now)
            (lines.method_of call.now.method.now))
            self.new out.old.items out.new.items) }
        ensures asks { IfOk result (λ ask. asking_of ask
            ≡ (lines.by_method terms.now self.old id (items_view call.now.params.now)
            (lines.method_of call.now.method.now)).asks) }
    {
        match Method::of(call.method) {
            Method::Configure => self.configure(alloc, terms, id, call, out),
            Method::Subscribe => self.subscribe(alloc, terms, id, out),
            Method::Authorize => self.authorize(alloc, terms, id, call, out),
            Method::SuggestDifficulty => self.suggest(alloc, terms, id, call, out),
            Method::SubscribeExtranonce => {
                say_answer(alloc, id, Value::Bool(true), out)?;
                Ok(V1Ask::Nothing)
            }
            Method::Submit => self.submit(alloc, id, call, out),
            Method::Unknown => refuse(alloc, id, V1Error::UnknownMethod, out),
        }
    }

    /// `mining.configure`.
    fn configure(
        &mut self,
        alloc: Global,
        terms: &V1Terms,
        id: LineId,
        call: &MethodCall<'_>,
        out: &mut Vec<u8>,
    ) -> Result<V1Ask, AllocError>
        ensures says { IfOk result (λ ask. Says
            (configuring.configured terms.now self.old id
            (configuring.configuration_in (items_view call.now.params.now)))
            self.new out.old.items out.new.items) }
        ensures asks { IfOk result (λ ask. asking_of ask
            ≡ (configuring.configured terms.now self.old id
            (configuring.configuration_in (items_view call.now.params.now))).asks) }
    {
        let Some(configuration) = configuration_in(alloc, call)? else {
            return refuse(alloc, id, V1Error::MalformedRequest, out);
        };
        let mask = granted(terms.rules(), &configuration);
        let answer = configured_value(alloc, configuration.names.as_slice(), mask)?;
        if let Some(mask) = mask {
            self.mask = mask;
        }
        say_answer(alloc, id, answer, out)?;
        Ok(V1Ask::Nothing)
    }

    /// `mining.subscribe`: one opening, once more until it succeeds.
    fn subscribe(
        &mut self,
        alloc: Global,
        terms: &V1Terms,
        id: LineId,
        out: &mut Vec<u8>,
    ) -> Result<V1Ask, AllocError>
        ensures says { IfOk result (λ ask. Says
            (lines.subscribed terms.now self.old id self.old.channel)
            self.new out.old.items out.new.items) }
        ensures asks { IfOk result (λ ask. asking_of ask
            ≡ (lines.subscribed terms.now self.old id self.old.channel).asks) }
    {
        if self.channel.is_some() {
            return refuse(alloc, id, V1Error::AlreadySubscribed, out);
        }
        self.subscriber = Some(id);
        Ok(V1Ask::Open(Class::of(terms.base())))
    }

    /// `mining.authorize`: the pool is asked where the account is known.
    fn authorize(
        &mut self,
        alloc: Global,
        terms: &V1Terms,
        id: LineId,
        call: &MethodCall<'_>,
        out: &mut Vec<u8>,
    ) -> Result<V1Ask, AllocError>
        ensures says { IfOk result (λ ask. Says
            (lines.with_channel self.old id (λ channel. lines.authorized terms.now self.old id
            (requests.text_at 0 (items_view call.now.params.now))) self.old.channel)
            self.new out.old.items out.new.items) }
        ensures asks { IfOk result (λ ask. asking_of ask
            ≡ (lines.with_channel self.old id (λ channel. lines.authorized terms.now self.old id
            (requests.text_at 0 (items_view call.now.params.now))) self.old.channel).asks
            ) }
    {
        if self.channel.is_none() {
            return refuse(alloc, id, V1Error::NotSubscribed, out);
        }
        match call.text_at(0) {
            Some(user) => self.ask_name(alloc, terms, id, account_in(user), out),
            None => refuse(alloc, id, V1Error::MalformedRequest, out),
        }
    }

    /// Asks for an account, where it is known.
    fn ask_name(
        &mut self,
        alloc: Global,
        terms: &V1Terms,
        id: LineId,
        account: &str,
        out: &mut Vec<u8>,
    ) -> Result<V1Ask, AllocError>
        ensures says { IfOk result (λ ask. Says
            (asked.name_asked terms.now self.old id account.now)
            self.new out.old.items out.new.items) }
        ensures asks { IfOk result (λ ask. asking_of ask
            ≡ (asked.name_asked terms.now self.old id account.now).asks) }
    {
        if !is_known_account(terms.rules(), account) {
            return refuse(alloc, id, V1Error::UnauthorizedWorker, out);
        }
        let asked = Str255::of(alloc, account)?;
        let kept = Str255::of(alloc, account)?;
        self.naming = Some(WaitingName::new(id, kept));
        Ok(V1Ask::Name(asked))
    }

    /// `mining.suggest_difficulty`: another target is asked for, where there is a channel.
    fn suggest(
        &self,
        alloc: Global,
        terms: &V1Terms,
        id: LineId,
        call: &MethodCall<'_>,
        out: &mut Vec<u8>,
    ) -> Result<V1Ask, AllocError>
        ensures says { IfOk result (λ step. out.new.items
            ≡ out.old.items ++ line_of (state.Answer id lines.yes)) }
        ensures asks { IfOk result (λ ask. asking_of ask
            ≡ (lines.suggested terms.now self.now.channel
            (asked_difficulty (get_item 0 (items_view call.now.params.now))))) }
    {
        say_answer(alloc, id, Value::Bool(true), out)?;
        let Some(channel) = self.channel else {
            return Ok(V1Ask::Nothing);
        };
        match asked_difficulty(call.params.first()) {
            Some(difficulty) => {
                let class = class_of_difficulty(terms.base(), difficulty);
                Ok(V1Ask::Update(channel, Class::of(class)))
            }
            None => Ok(V1Ask::Nothing),
        }
    }

    /// Hears a message of the pool, and appends what is said. Where memory runs out, nothing is told
    /// of what was appended or of the state.
    #[tactic(auto, unfolding(crate::specs::Messages::message_reaction))]
    pub fn on_message(
        &mut self,
        alloc: Global,
        terms: &V1Terms,
        message: &Mining<'_>,
        out: &mut Vec<u8>,
    ) -> Result<(), AllocError>
        ensures { IfOk result (λ done. Says
            (messages.message_reaction terms.now self.old (told_by message.now))
            self.new out.old.items out.new.items) }
    {
        match message {
            Mining::OpenExtendedMiningChannelSuccess(opened) => {
                self.on_opened(alloc, terms, opened, out)
            }
            Mining::OpenMiningChannelError(refused) => {
                self.on_not_opened(alloc, refused.error_code, out)
            }
            Mining::SetTarget(set) => {
                say_difficulty(alloc, difficulty_of(terms.base(), &set.maximum_target), out)
            }
            Mining::SubmitSharesSuccess(taken) => {
                self.on_accepted(alloc, taken.last_sequence_number, out)
            }
            Mining::SubmitSharesError(refused) => {
                self.on_refused(alloc, refused.sequence_number, refused.error_code, out)
            }
            Mining::NewExtendedMiningJob(job) => self.on_job(alloc, job, out),
            Mining::SetNewPrevHash(tip) => self.on_tip(alloc, tip, out),
            _ => Ok(()),
        }
    }

    /// A channel is open: its lead and its difficulty are said.
    #[tactic(auto, unfolding(crate::specs::Messages::message_reaction))]
    fn on_opened(
        &mut self,
        alloc: Global,
        terms: &V1Terms,
        opened: &OpenExtendedMiningChannelSuccess<'_>,
        out: &mut Vec<u8>,
    ) -> Result<(), AllocError>
        ensures { IfOk result (λ done. Says
            (messages.message_reaction terms.now self.old
            (told_by (Mining.OpenExtendedMiningChannelSuccess opened.now)))
            self.new out.old.items out.new.items) }
    {
        let subscriber = self.subscriber.take();
        self.channel = Some(opened.channel_id);
        let difficulty = difficulty_of(terms.base(), &opened.target);
        if let Some(id) = subscriber {
            let lead = opened.extranonce_prefix;
            let answer = subscription_value(alloc, lead, opened.extranonce_size)?;
            say_answer(alloc, id, answer, out)?;
        }
        say_difficulty(alloc, difficulty, out)
    }

    /// An opening is refused.
    fn on_not_opened(
        &mut self,
        alloc: Global,
        code: &str,
        out: &mut Vec<u8>,
    ) -> Result<(), AllocError>
        ensures { IfOk result (λ done. Says
            (asked.not_opened self.old code.now) self.new out.old.items out.new.items) }
    {
        match self.subscriber.take() {
            Some(id) => say_code(alloc, id, code, out),
            None => Ok(()),
        }
    }

    /// A share is taken.
    fn on_accepted(
        &mut self,
        alloc: Global,
        sequence: u32,
        out: &mut Vec<u8>,
    ) -> Result<(), AllocError>
        ensures { IfOk result (λ done. Says
            (messages.share_answered self.old sequence (λ id. state.Answer id lines.yes))
            self.new out.old.items out.new.items) }
    {
        match take_waiting(&mut self.waiting, sequence) {
            Some(id) => say_answer(alloc, id, Value::Bool(true), out),
            None => Ok(()),
        }
    }

    /// A share is refused.
    fn on_refused(
        &mut self,
        alloc: Global,
        sequence: u32,
        code: &str,
        out: &mut Vec<u8>,
    ) -> Result<(), AllocError>
        ensures { IfOk result (λ done. Says
            (messages.share_answered self.old sequence (λ id. state.CodeRefusal id code.now))
            self.new out.old.items out.new.items) }
    {
        match take_waiting(&mut self.waiting, sequence) {
            Some(id) => say_code(alloc, id, code, out),
            None => Ok(()),
        }
    }

    /// A job without a time is future, one with a time is live.
    fn on_job(
        &mut self,
        alloc: Global,
        message: &NewExtendedMiningJob<'_>,
        out: &mut Vec<u8>,
    ) -> Result<(), AllocError>
        ensures { IfOk result (λ done. Says
            (messages.jobs_told self.old (told_job message.now.min_ntime (job_in message.now)))
            self.new out.old.items out.new.items) }
    {
        let job = HeldJob::of(alloc, message)?;
        match message.min_ntime {
            None => self.jobs.add_future(job),
            Some(min_ntime) => self.on_live(alloc, job, min_ntime, out),
        }
    }

    /// A live job is told where there is a tip.
    fn on_live(
        &mut self,
        alloc: Global,
        job: HeldJob,
        min_ntime: u32,
        out: &mut Vec<u8>,
    ) -> Result<(), AllocError>
        ensures { IfOk result (λ done. Says
            (messages.jobs_told self.old (told.Live job min_ntime))
            self.new out.old.items out.new.items) }
    {
        if let Some(tip) = self.jobs.tip() {
            say_job(alloc, &job.notified(tip, min_ntime, false), out)?;
        }
        self.jobs.add_live(job)
    }

    /// A tip is told where its job is held, which is the only one from then on.
    fn on_tip(
        &mut self,
        alloc: Global,
        message: &SetNewPrevHash,
        out: &mut Vec<u8>,
    ) -> Result<(), AllocError>
        ensures { IfOk result (λ done. Says
            (messages.jobs_told self.old (told.Tipped (tip_in message.now)))
            self.new out.old.items out.new.items) }
    {
        let tip = HeldTip::new(message.prev_hash, message.nbits);
        if let Some(job) = self.jobs.held(message.job_id) {
            say_job(alloc, &job.notified(&tip, message.min_ntime, true), out)?;
        }
        self.jobs.over_tip(message.job_id, tip)
    }

    /// Hears whether the account that was asked for was taken, and appends what is said. Where memory
    /// runs out, nothing is told of what was appended or of the state.
    #[tactic(auto, unfolding(crate::specs::Messages::name_reaction))]
    pub fn on_named(
        &mut self,
        alloc: Global,
        named: bool,
        out: &mut Vec<u8>,
    ) -> Result<(), AllocError>
        ensures { IfOk result (λ done. Says
            (messages.name_reaction self.old named) self.new out.old.items out.new.items) }
    {
        match self.naming.take() {
            Some(naming) => self.name(alloc, naming, named, out),
            None => Ok(()),
        }
    }

    /// The account that was asked for becomes the channel's, where it was taken.
    fn name(
        &mut self,
        alloc: Global,
        naming: WaitingName,
        named: bool,
        out: &mut Vec<u8>,
    ) -> Result<(), AllocError>
        ensures { IfOk result (λ done. Says
            (asked.named self.old naming named) self.new out.old.items out.new.items) }
    {
        let (id, account) = naming.into_parts();
        if named {
            self.account = Some(account);
            say_answer(alloc, id, Value::Bool(true), out)
        } else {
            say_refusal(alloc, id, V1Error::UnauthorizedWorker, out)
        }
    }

    /// `mining.submit`.
    fn submit(
        &mut self,
        alloc: Global,
        id: LineId,
        call: &MethodCall<'_>,
        out: &mut Vec<u8>,
    ) -> Result<V1Ask, AllocError>
        ensures says { IfOk result (λ ask. Says
            (lines.with_channel self.old id (λ channel. submitting.submitted self.old id channel
            (submitting.asked_share (items_view call.now.params.now))) self.old.channel)
            self.new out.old.items out.new.items) }
        ensures asks { IfOk result (λ ask. asking_of ask
            ≡ (lines.with_channel self.old id (λ channel. submitting.submitted self.old id channel
            (submitting.asked_share (items_view call.now.params.now))) self.old.channel).asks) }
    {
        let Some(channel) = self.channel else {
            return refuse(alloc, id, V1Error::NotSubscribed, out);
        };
        match asked_share(call) {
            Some(asked) => self.submit_asked(alloc, id, channel, &asked, out),
            None => refuse(alloc, id, V1Error::MalformedRequest, out),
        }
    }

    /// A submission, or the first reason why it isn't sent on.
    fn submit_asked(
        &mut self,
        alloc: Global,
        id: LineId,
        channel: u32,
        asked: &AskedShare<'_>,
        out: &mut Vec<u8>,
    ) -> Result<V1Ask, AllocError>
        ensures says { IfOk result (λ ask. Says
            (submitting.sent_or_refused self.old id
            (submitting.checked_share self.old channel (submitting.asked_by asked.now)))
            self.new out.old.items out.new.items) }
        ensures asks { IfOk result (λ ask. asking_of ask
            ≡ (submitting.sent_or_refused self.old id
            (submitting.checked_share self.old channel (submitting.asked_by asked.now))).asks) }
    {
        match self.checked(alloc, channel, asked)? {
            Ok(share) => self.send(id, share),
            Err(why) => {
                say_not_sent(alloc, id, why, out)?;
                Ok(V1Ask::Nothing)
            }
        }
    }

    /// What is sent on, or the first reason why it isn't.
    fn checked(
        &self,
        alloc: Global,
        channel: u32,
        asked: &AskedShare<'_>,
    ) -> Result<Result<CheckedShare, NotSent>, AllocError>
        ensures { IfOk result (λ checked. checked_by checked
            ≡ submitting.checked_share self.now channel (submitting.asked_by asked.now)) }
    {
        if !works_for(self.account.as_ref(), asked.worker) {
            return Ok(Err(NotSent::ByError(V1Error::UnauthorizedWorker)));
        }
        let Some(job) = hex_number(asked.job) else {
            return Ok(Err(NotSent::ByError(V1Error::JobNotFound)));
        };
        let Some(extranonce) = extranonce_in(alloc, asked.extranonce)? else {
            return Ok(Err(NotSent::ByCode("invalid-extranonce-size")));
        };
        if !are_within(self.mask, asked.bits) {
            return Ok(Err(NotSent::ByCode("invalid-version")));
        }
        Ok(Ok(CheckedShare {
            channel,
            sequence: self.sequence,
            job,
            nonce: asked.nonce,
            ntime: asked.ntime,
            version: self.jobs.share_version(job, self.mask, asked.bits),
            extranonce,
        }))
    }

    /// Sends a share on, and waits for its answer.
    fn send(&mut self, id: LineId, share: CheckedShare) -> Result<V1Ask, AllocError>
        ensures after { IfOk result (λ ask. self.new
            ≡ (submitting.sent_or_refused self.old id (Ok share)).after) }
        ensures asks { IfOk result (λ ask. asking_of ask ≡ state.Share share) }
    {
        put_waiting(&mut self.waiting, self.sequence, id)?;
        self.sequence = self.sequence.wrapping_add(1);
        Ok(V1Ask::Share(share))
    }
}
