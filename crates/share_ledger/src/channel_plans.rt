//! Channels that are opened, named, classed and closed.

use crate::planning::{Change, Planned, Step};
use crate::tables::Tables;
use block_header::class_of_target;
use channels::{ChannelPlan, Channels, SetError, class_given, tables_show_histories};
use pool_history::{Class, Event, NameError, OpenAsk, OpenError, Opened, Reply, UpdateError};
use std::alloc::{AllocError, Global};
use sv2_types::{Blob, Str255, U256};

impl Tables {
    ghost use Rattle.std.specs.Prelude.{◌≡◌, IfOk};
    ghost use Rattle.pool_history.specs.declared.asking.Request.TheVariants as request;
    ghost use Rattle.share_ledger.specs.Planning.{IsStepWithin};

    /// A channel that is opened.
    pub(crate) fn plan_open(
        &mut self,
        alloc: Global,
        session: u32,
        ask: OpenAsk,
    ) -> Result<Step, AllocError>
        ensures same { self.new.history ≡ self.old.history }
        ensures step { IfOk result (IsStepWithin self.old self.new session (request.Open ask)) }
    {
        tables_show_histories();
        let at = self.history.len();
        match self
            .channels
            .plan_open(session, at, &ask, self.history.rules())
        {
            Ok(plan) => opening_step(alloc, plan),
            Err(OpenError::Memory) => Err(AllocError),
            Err(refusal) => Ok(Step::Answer(Reply::OpenRefused(refusal))),
        }
    }

    /// A channel that gets its account.
    pub(crate) fn plan_name(
        &mut self,
        alloc: Global,
        session: u32,
        channel: u32,
        identity: Str255,
    ) -> Result<Step, AllocError>
        ensures same { self.new.history ≡ self.old.history }
        ensures step { IfOk result
            (IsStepWithin self.old self.new session (request.Name channel identity)) }
    {
        tables_show_histories();
        let unnamed = is_unnamed(&self.channels, session, channel);
        let rules = self.history.rules();
        match self
            .channels
            .plan_name(session, channel, identity.text(), rules)
        {
            Ok(plan) => {
                if unnamed {
                    naming_step(alloc, session, plan)
                } else {
                    Ok(Step::Answer(Reply::Named))
                }
            }
            Err(NameError::Memory) => Err(AllocError),
            Err(refusal) => Ok(Step::Answer(Reply::NameRefused(refusal))),
        }
    }

    /// A channel whose class is set.
    pub(crate) fn plan_update(
        &mut self,
        session: u32,
        channel: u32,
        target: U256,
    ) -> Result<Step, AllocError>
        ensures same { self.new.history ≡ self.old.history }
        ensures step { IfOk result
            (IsStepWithin self.old self.new session (request.Update channel target)) }
    {
        tables_show_histories();
        let Some(present) = class_of(&self.channels, session, channel) else {
            return Ok(refused_update(UpdateError::NotOpen));
        };
        let asked = class_of_target(&target);
        if 60 < asked {
            return Ok(refused_update(UpdateError::TargetOutOfRange(asked)));
        }
        let class = class_given(self.history.rules(), &target);
        if class.value() == present.value() {
            return Ok(Step::Answer(Reply::Target(channel, class)));
        }
        let at = self.history.len();
        let span = self.jobs.live_span();
        match self.channels.plan_class(session, channel, at, class, span) {
            Ok(plan) => Ok(classing_step(session, channel, class, plan)),
            Err(SetError::Memory) => Err(AllocError),
            Err(SetError::NotOpen) => Ok(refused_update(UpdateError::NotOpen)),
        }
    }

    /// A channel that is closed.
    pub(crate) fn plan_close(&self, session: u32, channel: u32) -> Step
        ensures { IsStepWithin self.now self.now session (request.Close channel) result }
    {
        tables_show_histories();
        match self.channels.own(session, channel) {
            Some(_) => Step::Move(Planned {
                event: Event::Close { session, channel },
                change: Change::Close { session, channel },
                reply: Reply::Closed,
            }),
            None => Step::Answer(Reply::NotOpen),
        }
    }
}

ghost use Rattle.std.specs.Prelude.{◌≡◌, Some, false, IfOk};
ghost use Rattle.std.specs.Option.{option_map, option_map_or};
ghost use Rattle.pool_history.specs.declared.replies.Reply.TheVariants as reply;
ghost use Rattle.pool_history.specs.Accounts.{is_empty};
ghost use Rattle.pool_history.specs.Channels.{channel_in, channels_in, present_class};
ghost use Rattle.share_ledger.specs.ChannelSteps.{IsNamingPlan, IsOpeningPlan, class_step, name_step, open_step};
ghost use Rattle.share_ledger.specs.declared.planning.Step.TheVariants as step;

/// An opening that was planned, as its event.
fn opening_step(alloc: Global, plan: ChannelPlan) -> Result<Step, AllocError>
    requires { IsOpeningPlan plan }
    ensures { IfOk result (λ made. made ≡ open_step plan) }
{
    let (event, opened) = opening_event(alloc, &plan)?;
    Ok(Step::Move(Planned {
        event,
        change: Change::Channel(plan),
        reply: Reply::Opened(opened),
    }))
}

ghost use Rattle.share_ledger.specs.ChannelSteps.{opening_of, named_account};

fn opening_event(alloc: Global, plan: &ChannelPlan) -> Result<(Event, Opened), AllocError>
    requires { IsOpeningPlan plan.now }
    ensures { IfOk result (λ made. opening_of plan.now ≡ Some made) }
{
    match plan {
        ChannelPlan::Open {
            session,
            kind,
            account,
            opened,
            ..
        } => Ok((
            Event::Open {
                session: *session,
                kind: *kind,
                account: Str255::of(alloc, account.text())?,
                class: opened.class.value(),
                lead: Blob::of(alloc, opened.lead.bytes())?,
            },
            *opened,
        )),
        _ => unreachable!(),
    }
}

/// A naming that was planned, as its event.
fn naming_step(alloc: Global, session: u32, plan: ChannelPlan) -> Result<Step, AllocError>
    requires { IsNamingPlan plan }
    ensures { IfOk result (λ made. made ≡ name_step session plan) }
{
    let event = naming_event(alloc, session, &plan)?;
    Ok(Step::Move(Planned {
        event,
        change: Change::Channel(plan),
        reply: Reply::Named,
    }))
}

fn naming_event(alloc: Global, session: u32, plan: &ChannelPlan) -> Result<Event, AllocError>
    requires { IsNamingPlan plan.now }
    ensures { IfOk result (λ made. named_account session plan.now ≡ Some made) }
{
    match plan {
        ChannelPlan::Name { channel, account } => Ok(Event::Name {
            session,
            channel: *channel,
            account: Str255::of(alloc, account.text())?,
        }),
        _ => unreachable!(),
    }
}

/// A class that is to be set, as its event.
fn classing_step(session: u32, channel: u32, class: Class, plan: ChannelPlan) -> Step
    ensures { result ≡ class_step session channel class plan }
{
    Step::Move(Planned {
        event: Event::Class {
            session,
            channel,
            class: class.value(),
        },
        change: Change::Channel(plan),
        reply: Reply::Target(channel, class),
    })
}

fn refused_update(refusal: UpdateError) -> Step
    ensures { result ≡ step.Answer (reply.UpdateRefused refusal) }
{
    Step::Answer(Reply::UpdateRefused(refusal))
}

/// Whether a session's open channel has no account yet.
fn is_unnamed(channels: &Channels, session: u32, channel: u32) -> bool
    ensures { result ≡ option_map_or (λ there. is_empty there.account)
        (channel_in (channels_in channels.now.open_channels session) channel) false }
{
    match channels.own(session, channel) {
        Some(there) => there.account.text().is_empty(),
        None => false,
    }
}

/// The class of a session's open channel.
fn class_of(channels: &Channels, session: u32, channel: u32) -> Option<Class>
    ensures { result ≡ option_map present_class
        (channel_in (channels_in channels.now.open_channels session) channel) }
{
    match channels.own(session, channel) {
        Some(there) => Some(there.class),
        None => None,
    }
}
