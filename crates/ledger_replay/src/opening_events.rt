//! Channels that are opened.

use crate::channel_events::class_in_range;
use crate::error::ReplayError;
use crate::replay::Replay;
use crate::sessions_by::{Right, session_cause};
use channels::{ChannelPlan, Channels};
use pool_history::{Cause, Class, Kind, Lead, OpenAsk, OpenError, Opened, Rules, is_known_account};
use pool_tables::{other_events_leave_grants, other_events_leave_sessions};
use std::alloc::Global;
use sv2_types::{Str255, U256};

impl Replay {
    ghost use Rattle.std.specs.Prelude.{◌≡◌, ℕ, ◌+◌, ◌<◌, ◌-◌, ◌^◌, List, IfErr, IfOk, OnOk};
    ghost use Rattle.pool_history.specs.declared.events.Event.{Event};
    ghost use Rattle.pool_history.specs.declared.events.Event.TheVariants as event;
    ghost use Rattle.ledger_replay.specs.Replays.{HasCause, IsOpened, Judges, WasReplayed, event_count};

    /// An Open.
    pub fn open(
        &mut self,
        session: u32,
        kind: Kind,
        account: Str255,
        class: u8,
        lead: &[u8],
    ) -> Result<(), ReplayError>
        requires { event_count self.old < 2 ^ 64 - 1 }
        ensures judged { Judges self.old (event.Open session kind account class lead.now)
            result self.new }
        ensures counts { OnOk result (event_count self.new ≡ event_count self.old + 1) }
    {
        other_events_leave_sessions();
        other_events_leave_grants();
        let class = match self.opening_class(session, kind, account.text(), class) {
            Ok(class) => class,
            Err(cause) => return Err(ReplayError::Illegal(cause)),
        };
        let len = length_to_try(kind, lead.len());
        let next = match next_opening(self.alloc, &mut self.channels, &self.rules, session, len) {
            Ok(next) => next,
            Err(refusal) => return Err(opening_error(refusal)),
        };
        if !is_lead(kind, lead, next.lead) {
            return Err(ReplayError::Illegal(Cause::BadLead));
        }
        self.channels.apply(ChannelPlan::Open {
            at: self.events,
            session,
            kind,
            account,
            opened: Opened {
                channel: next.channel,
                class,
                lead: next.lead,
            },
        });
        self.events += 1;
        Ok(())
    }

    /// The class of a channel that a session may open with an account, or the cause for which it
    /// may not, whatever the lead is.
    fn opening_class(
        &self,
        session: u32,
        kind: Kind,
        account: &str,
        class: u8,
    ) -> Result<Class, Cause>
        ensures opens { IfOk result (λ given. (given ≡ class)
            × IsOpened self.now session kind account.now class) }
        ensures refused { IfErr result (λ cause. (past : List Event) (lead : List ℕ)
            → WasReplayed self.now past
            → HasCause past (event.Open session kind account.now class lead) cause) }
    {
        if let Some(cause) = session_cause(&self.sessions, Right::Mine, session) {
            return Err(cause);
        }
        if !opens_with(&self.rules, kind, account) {
            return Err(Cause::UnknownUser);
        }
        match class_in_range(&self.rules, class) {
            Some(class) => Ok(class),
            None => Err(Cause::BadClass),
        }
    }
}

ghost use Rattle.std.specs.Prelude.{◌≡◌, ℕ, ◌≤◌, ◌⊎◌, Err, Ok, true, IfErr, IfOk, length};
ghost use Rattle.channels.specs.Plans.{MayOpenNext};
ghost use Rattle.channels.specs.Tables.{ShowsSameChannels};
ghost use Rattle.pool_history.specs.declared.events.Kind.TheVariants.{V1};
ghost use Rattle.pool_history.specs.Legal.{is_lead_length, is_opening_account};
ghost use Rattle.ledger_replay.specs.Openings.{is_said_lead, next_lead_on};
ghost use Rattle.ledger_replay.specs.Replays.{opening_error_of};

/// Whether a channel of a kind is opened with an account: a V1 channel with none.
fn opens_with(rules: &Rules, kind: Kind, account: &str) -> bool
    ensures { result ≡ is_opening_account rules.now kind account.now }
{
    match kind {
        Kind::Standard | Kind::Extended => is_known_account(rules, account),
        Kind::V1 => account.is_empty(),
    }
}

/// A length that leads have: that of the lead, where a channel of the kind has such leads.
fn length_to_try(kind: Kind, len: usize) -> u8
    ensures some { 1 ≤ result }
    ensures most { result ≤ 4 }
    ensures same { is_lead_length kind len ≡ true → result ≡ len }
{
    if has_lead_length(kind, len) {
        len as u8
    } else {
        4
    }
}

/// Whether a channel of a kind has leads of a length.
fn has_lead_length(kind: Kind, len: usize) -> bool
    ensures value { result ≡ is_lead_length kind len }
    ensures some { result ≡ true → 1 ≤ len }
    ensures most { result ≡ true → len ≤ 4 }
{
    match kind {
        Kind::Standard => len == 4,
        Kind::Extended | Kind::V1 => 1 <= len && len <= 4,
    }
}

/// What the next channel of a session gets whose lead has so many bytes, with room for it. It is
/// asked for as one of V1, which may have any such lead, needs no account, and has the same lead as
/// any other.
fn next_opening(
    alloc: Global,
    channels: &mut Channels,
    rules: &Rules,
    session: u32,
    len: u8,
) -> Result<Opened, OpenError>
    requires least { rules.now.least_class ≤ 60 }
    requires some { 1 ≤ len }
    requires most { len ≤ 4 }
    ensures opened { IfOk result (λ next. next_lead_on channels.old session len ≡ Ok next.lead) }
    ensures refused { IfErr result (λ refusal. (refusal ≡ OpenError.Memory)
        ⊎ (next_lead_on channels.old session len ≡ Err refusal)) }
    ensures ready { IfOk result (MayOpenNext channels.new session V1) }
    ensures same { ShowsSameChannels channels.old channels.new }
{
    let Ok(identity) = Str255::of(alloc, "") else {
        return Err(OpenError::Memory);
    };
    let ask = OpenAsk {
        kind: Kind::V1,
        identity,
        max_target: U256::of([0xff; 32]),
        min_size: 12 - u16::from(len),
    };
    match channels.plan_open(session, 0, &ask, rules) {
        Ok(plan) => match plan.opened() {
            Some(opened) => Ok(opened),
            None => Err(OpenError::NoSpace),
        },
        Err(refusal) => Err(refusal),
    }
}

/// Whether a lead is one of its kind, and just this one.
fn is_lead(kind: Kind, said: &[u8], lead: Lead) -> bool
    ensures { result ≡ is_said_lead kind said.now lead }
{
    has_lead_length(kind, said.len()) && said == lead.bytes()
}

/// What an opening's refusal is called.
fn opening_error(refusal: OpenError) -> ReplayError
    ensures { result ≡ opening_error_of refusal }
{
    match refusal {
        OpenError::TooManyChannels(..) => ReplayError::Illegal(Cause::TooManyChannels),
        OpenError::Memory => ReplayError::Memory,
        OpenError::UnknownUser
        | OpenError::TargetOutOfRange(_)
        | OpenError::SizeTooLarge(_)
        | OpenError::NoSpace => ReplayError::Illegal(Cause::BadLead),
    }
}
