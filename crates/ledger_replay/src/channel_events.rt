//! Channels that are opened, named, set a class, and closed.

use crate::error::ReplayError;
use crate::replay::Replay;
use crate::sessions_by::{Right, session_cause};
use channels::{Channel, ChannelPlan};
use pool_history::{Cause, Class, Kind, Rules, is_known_account};
use pool_tables::{other_events_leave_grants, other_events_leave_sessions};
use sv2_types::Str255;

impl Replay {
    ghost use Rattle.std.specs.Prelude.{◌≡◌, ◌+◌, ◌<◌, ◌-◌, ◌^◌, OnOk};
    ghost use Rattle.pool_history.specs.declared.events.Event.TheVariants as event;
    ghost use Rattle.ledger_replay.specs.Replays.{ForgetsClasses, Judges, event_count};

    /// A Name.
    pub fn name(&mut self, session: u32, channel: u32, account: Str255) -> Result<(), ReplayError>
        requires { event_count self.old < 2 ^ 64 - 1 }
        ensures judged { Judges self.old (event.Name session channel account) result self.new }
        ensures counts { OnOk result (event_count self.new ≡ event_count self.old + 1) }
    {
        other_events_leave_sessions();
        other_events_leave_grants();
        if let Some(cause) = session_cause(&self.sessions, Right::Mine, session) {
            return Err(ReplayError::Illegal(cause));
        }
        if !may_be_named(
            self.channels.own(session, channel),
            &self.rules,
            account.text(),
        ) {
            return Err(ReplayError::Illegal(Cause::BadName));
        }
        self.channels.apply(ChannelPlan::Name { channel, account });
        self.events += 1;
        Ok(())
    }

    /// A Class.
    pub fn set_class(&mut self, session: u32, channel: u32, class: u8) -> Result<(), ReplayError>
        requires { event_count self.old < 2 ^ 64 - 1 }
        ensures judged { Judges self.old (event.Class session channel class) result self.new }
        ensures cut { OnOk result (ForgetsClasses self.old channel class self.new) }
        ensures counts { OnOk result (event_count self.new ≡ event_count self.old + 1) }
    {
        other_events_leave_sessions();
        other_events_leave_grants();
        if let Some(cause) = session_cause(&self.sessions, Right::Mine, session) {
            return Err(ReplayError::Illegal(cause));
        }
        let Some(class) = class_in_range(&self.rules, class) else {
            return Err(ReplayError::Illegal(Cause::BadClass));
        };
        if !may_change_to(self.channels.own(session, channel), class) {
            return Err(ReplayError::Illegal(Cause::BadClass));
        }
        let span = self.jobs.live_span();
        match self
            .channels
            .set_class(session, channel, self.events, class, span)
        {
            Ok(()) => {
                self.events += 1;
                Ok(())
            }
            Err(_) => Err(ReplayError::Memory),
        }
    }

    /// A Close.
    pub fn close(&mut self, session: u32, channel: u32) -> Result<(), ReplayError>
        requires { event_count self.old < 2 ^ 64 - 1 }
        ensures judged { Judges self.old (event.Close session channel) result self.new }
        ensures counts { OnOk result (event_count self.new ≡ event_count self.old + 1) }
    {
        other_events_leave_sessions();
        other_events_leave_grants();
        if let Some(cause) = session_cause(&self.sessions, Right::Mine, session) {
            return Err(ReplayError::Illegal(cause));
        }
        match self.channels.close(session, channel) {
            Ok(()) => {
                self.events += 1;
                Ok(())
            }
            Err(_) => Err(ReplayError::Illegal(Cause::NotOpen)),
        }
    }
}

ghost use Rattle.std.specs.Prelude.{◌≡◌, false, None, IfSome, IsTrue};
ghost use Rattle.std.specs.Option.{option_copied, option_map};
ghost use Rattle.pool_history.specs.Legal.{is_class, is_nameless};
ghost use Rattle.channels.specs.Tables.{kept_of};
ghost use Rattle.ledger_replay.specs.Kept.{may_become_kept, may_get_kept};

/// Whether a channel may get an account.
fn may_be_named(there: Option<&Channel>, rules: &Rules, account: &str) -> bool
    ensures { result
        ≡ may_get_kept rules.now account.now (option_map kept_of (option_copied there.entry)) }
{
    match there {
        Some(channel) => {
            is_without_account(channel.kind, channel.account.text())
                && is_known_account(rules, account)
        }
        None => false,
    }
}

/// Whether a channel is one of V1 without account.
fn is_without_account(kind: Kind, account: &str) -> bool
    ensures { result ≡ is_nameless kind account.now }
{
    match kind {
        Kind::Standard | Kind::Extended => false,
        Kind::V1 => account.is_empty(),
    }
}

/// The class, where a channel may have it.
pub(crate) fn class_in_range(rules: &Rules, class: u8) -> Option<Class>
    ensures some { IfSome result (λ given. (given ≡ class) × IsTrue (is_class rules.now class)) }
    ensures none { result ≡ None → is_class rules.now class ≡ false }
{
    if rules.least_class <= class && class <= 60 {
        Some(Class::of(class))
    } else {
        None
    }
}

/// Whether there is a channel, with another present class.
fn may_change_to(there: Option<&Channel>, class: Class) -> bool
    ensures { result ≡ may_become_kept class (option_map kept_of (option_copied there.entry)) }
{
    match there {
        Some(channel) => channel.class.value() != class.value(),
        None => false,
    }
}
