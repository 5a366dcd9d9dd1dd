//! The table of open channels.

use crate::changes::{
    close_all, close_kept, hold, put_account, put_channel, put_class, reserve_class,
};
use crate::channel::Channel;
use crate::listing::{count_of, ids_of, list_opening, reserve_listing, take_list, unlist};
use crate::openings::{class_given, lead_len, opening_account, opening_refusal};
use crate::plan::ChannelPlan;
use crate::settings::Settings;
use indexmap::IndexMap;
use pool_history::{
    Class, Kind, Lead, LiveSpan, NameError, OpenAsk, OpenError, Opened, Rules, account_in,
    is_known_account,
};
use prefix_space::Space;
use std::alloc::{AllocError, Global};
use std::marker::Model;
use sv2_types::Str255;
use thiserror::Error;

/// The session has no such open channel.
#[derive(Clone, Copy, Debug, Drop, Error)]
#[error("invalid-channel-id")]
pub struct NotOpen;

/// Why a channel's class isn't set.
#[derive(Clone, Copy, Debug, Drop, Error)]
pub enum SetError {
    #[error("invalid-channel-id")]
    NotOpen,
    #[error("out of memory")]
    Memory,
}

/// The open channels, and the leads that they hold. Contracts see the channels in the order of their
/// ids, how many were opened, and for how many more there is room.
#[derive(Drop)]
pub struct Channels {
    opened: u32,
    /// In whatever order.
    channels: IndexMap<u32, Channel>,
    space: Space,
    /// The ids of each session's channels, in rising order; a session that isn't there has none.
    lists: IndexMap<u32, Vec<u32>>,
}

impl Model for Channels {
    ghost use Rattle.channels.specs.Tables.{ChannelTable};

    ghost Value = { ChannelTable };

    ghost use Rattle.std.specs.Prelude.{map, min};
    ghost use Rattle.indexmap.specs.IndexMap.{spare};
    ghost use Rattle.channels.specs.Orders.{by_id};
    ghost use Rattle.channels.specs.Tables.{AreKept, ListsChannels, list_rooms, rooms_of, shown_channel};

    ghost view = { λ table. record {
      opened = table.opened;
      open_channels = map (λ entry. shown_channel entry.0 entry.1)
          (by_id table.channels.entries);
      opening_room = min (spare table.channels) table.space.spare;
      session_rooms = list_rooms table.lists.entries;
      setting_rooms = rooms_of (by_id table.channels.entries);
    } };

    ghost invariant = { λ table.
        AreKept table.opened (by_id table.channels.entries) table.space.held
        × ListsChannels table.lists.entries (by_id table.channels.entries) };
}

impl Channels {
    ghost use Rattle.std.specs.Prelude.{◌≡◌, ◌↔◌, ◌⊎◌, ℕ, ◌≤◌, Bool, None, List, [], ◌∷◌, IfErr, IfOk, IsErr, IsTrue, OnErr, OnOk, is_some, map, nat_eq};
    ghost use Rattle.std.specs.Map.{lookup};
    ghost use Rattle.std.specs.Option.{option_copied, option_map};
    ghost use Rattle.pool_history.specs.Accounts.{account_of};
    ghost use Rattle.pool_history.specs.Answering.{account_for};
    ghost use Rattle.pool_history.specs.Channels.{ChannelMove, Closes, Leaves, Names, Opens, Sets, channel_in, channels_in, class_at};
    ghost use Rattle.pool_history.specs.Refusing.{nameable};
    ghost use Rattle.pool_history.specs.Conditions.{found};
    ghost use Rattle.channels.specs.declared.plan.ChannelPlan.TheVariants as plan;
    ghost use Rattle.channels.specs.Cuts.{IsAskedWithin, with_cut};
    ghost use Rattle.channels.specs.Plans.{CanApply, CutsAsPlanned, IsAskedAsPlanned, IsDoneUnless, IsNextOpening, IsUnless, MayOpenNext, MaySetClass, opened_by, opening_on, opening_plan, plan_for, planned_move};
    ghost use Rattle.channels.specs.Tables.{IsTold, ShowsSameChannels, count_kept, kept_channel, kept_of};

    /// No channel is open, and none was.
    pub fn new(alloc: Global) -> Result<Channels, AllocError>
        ensures { IfOk result (λ table. (is_asked : ℕ → Bool) → IsTold is_asked table []) }
    {
        let space = Space::new(alloc)?;
        Ok(Channels {
            opened: 0,
            channels: IndexMap::new(alloc),
            space,
            lists: IndexMap::new(alloc),
        })
    }

    /// An open channel; none where it isn't open.
    pub fn channel(&self, channel: u32) -> Option<&Channel>
        ensures { option_map kept_of (option_copied result)
            ≡ option_map kept_channel (channel_in self.now.open_channels channel) }
    {
        kept_under(&self.channels, channel)
    }

    /// A session's open channel; none where it isn't open, or is another session's.
    pub fn own(&self, session: u32, channel: u32) -> Option<&Channel>
        ensures { option_map kept_of (option_copied result) ≡ option_map kept_channel
            (channel_in (channels_in self.now.open_channels session) channel) }
    {
        own_channel(&self.channels, session, channel)
    }

    /// The class of an open channel at a job that is live since a place: the last kept one that was
    /// set before that place, which is the history's wherever it may be asked for. None where the
    /// channel isn't open.
    pub fn class_at(&self, channel: u32, live_at: u64) -> Option<Class>
        ensures { result
            ≡ option_map (λ shown. class_at shown live_at)
            (channel_in self.now.open_channels channel) }
    {
        match kept_under(&self.channels, channel) {
            Some(there) => Some(there.settings.class_at(live_at, there.opening_class)),
            None => None,
        }
    }

    /// The open channels of a session, in rising order.
    pub fn of_session(&self, session: u32) -> Result<Vec<u32>, AllocError>
        ensures { IfOk result (λ ids. ids.items
            ≡ map (λ shown. shown.id) (channels_in self.now.open_channels session)) }
    {
        ids_of(&self.lists, session)
    }

    /// Closes an open channel of a session, and gives its lead back.
    pub fn close(&mut self, session: u32, channel: u32) -> Result<(), NotOpen>
        ensures not_open { IsErr result
            ↔ (channel_in (channels_in self.old.open_channels session) channel ≡ None) }
        ensures told { OnOk result ((is_asked : ℕ → Bool) (moves : List ChannelMove)
            → IsTold is_asked self.old moves
            → IsTold is_asked self.new (Closes channel ∷ moves)) }
        ensures refused { OnErr result (self.new ≡ self.old) }
    {
        let Some(_lead) = own_lead(&self.channels, session, channel) else {
            return Err(NotOpen);
        };
        close_kept(&mut self.channels, &mut self.space, channel);
        unlist(&mut self.lists, session, channel);
        Ok(())
    }

    /// Closes all open channels of a session, and gives their leads back. It takes no memory.
    pub fn leave(&mut self, session: u32)
        ensures { (is_asked : ℕ → Bool) (moves : List ChannelMove)
            → IsTold is_asked self.old moves
            → IsTold is_asked self.new (Leaves session ∷ moves) }
    {
        // Says that no id is kept twice.
        let _count = self.channels.len();
        let ids = take_list(&mut self.lists, session);
        close_all(&mut self.channels, &mut self.space, ids);
    }

    /// Opens a channel of a session, at a place of the history.
    pub fn open(
        &mut self,
        session: u32,
        at: u64,
        ask: &OpenAsk,
        rules: &Rules,
    ) -> Result<Opened, OpenError>
        requires { rules.now.least_class ≤ 60 }
        ensures answer { IsUnless OpenError.Memory result
            (opening_on self.old rules.now session ask.now) }
        ensures told { IfOk result (λ opened. (is_asked : ℕ → Bool) (moves : List ChannelMove)
            → IsTold is_asked self.old moves
            → IsTold is_asked self.new (Opens at session ask.now.kind
            (account_for ask.now.kind ask.now.identity) opened.class opened.lead ∷ moves)) }
        ensures refused { OnErr result (ShowsSameChannels self.old self.new) }
    {
        match self.ready_opening(session, ask, rules) {
            Ok((opened, account)) => Ok(self.take_opening(session, ask.kind, account, opened)),
            Err(refusal) => Err(refusal),
        }
    }

    /// Gives an open channel of a session the account of a user; the first account stays.
    pub fn name(
        &mut self,
        session: u32,
        channel: u32,
        identity: &str,
        rules: &Rules,
    ) -> Result<(), NameError>
        ensures answer { IsDoneUnless NameError.Memory result (nameable rules.now
            (account_of identity.now)
            (channel_in (channels_in self.old.open_channels session) channel)) }
        ensures told { OnOk result ((is_asked : ℕ → Bool) (moves : List ChannelMove)
            → IsTold is_asked self.old moves
            → IsTold is_asked self.new (Names channel (account_of identity.now) ∷ moves)) }
        ensures refused { OnErr result (ShowsSameChannels self.old self.new) }
    {
        match self.plan_name(session, channel, identity, rules) {
            Ok(plan) => {
                self.apply(plan);
                Ok(())
            }
            Err(refusal) => Err(refusal),
        }
    }

    /// Sets the class of an open channel of a session, at a place of the history, while jobs are
    /// live within a span. It forgets what neither they nor later jobs ask for.
    pub fn set_class(
        &mut self,
        session: u32,
        channel: u32,
        at: u64,
        class: Class,
        span: LiveSpan,
    ) -> Result<(), SetError>
        ensures answer { IsDoneUnless SetError.Memory result (found SetError.NotOpen
            (channel_in (channels_in self.old.open_channels session) channel)) }
        ensures told { OnOk result ((is_asked : ℕ → Bool) (moves : List ChannelMove)
            → IsAskedWithin is_asked span at → IsTold is_asked self.old moves
            → IsTold is_asked self.new (Sets at channel class ∷ moves)) }
        ensures cut { OnOk result (self.new.open_channels
            ≡ map (with_cut at channel class span) self.old.open_channels) }
        ensures refused { OnErr result (ShowsSameChannels self.old self.new) }
    {
        match self.plan_class(session, channel, at, class, span) {
            Ok(plan) => {
                self.apply(plan);
                Ok(())
            }
            Err(refusal) => Err(refusal),
        }
    }

    /// Plans `open`, with the memory that it takes.
    pub fn plan_open(
        &mut self,
        session: u32,
        at: u64,
        ask: &OpenAsk,
        rules: &Rules,
    ) -> Result<ChannelPlan, OpenError>
        requires { rules.now.least_class ≤ 60 }
        ensures answer { IsUnless OpenError.Memory result
            (opening_plan session at ask.now (opening_on self.old rules.now session ask.now)) }
        ensures ready { IfOk result (CanApply self.new) }
        ensures same { ShowsSameChannels self.old self.new }
    {
        match self.ready_opening(session, ask, rules) {
            Ok((opened, account)) => Ok(ChannelPlan::Open {
                at,
                session,
                kind: ask.kind,
                account,
                opened,
            }),
            Err(refusal) => Err(refusal),
        }
    }

    /// Plans `name`, with the memory that it takes.
    pub fn plan_name(
        &mut self,
        session: u32,
        channel: u32,
        identity: &str,
        rules: &Rules,
    ) -> Result<ChannelPlan, NameError>
        ensures answer { IsUnless NameError.Memory result
            (plan_for (plan.Name channel (account_of identity.now))
            (nameable rules.now (account_of identity.now)
            (channel_in (channels_in self.old.open_channels session) channel))) }
        ensures ready { IfOk result (CanApply self.new) }
        ensures same { ShowsSameChannels self.old self.new }
    {
        let account = account_in(identity);
        if let Some(refusal) = name_refusal(&self.channels, session, channel, account, rules) {
            return Err(refusal);
        }
        let Ok(account) = Str255::of(*self.channels.allocator(), account) else {
            return Err(NameError::Memory);
        };
        Ok(ChannelPlan::Name { channel, account })
    }

    /// Plans `set_class`, with the memory that it takes.
    pub fn plan_class(
        &mut self,
        session: u32,
        channel: u32,
        at: u64,
        class: Class,
        span: LiveSpan,
    ) -> Result<ChannelPlan, SetError>
        ensures answer { IsUnless SetError.Memory result
            (plan_for (plan.Class at channel class span) (found SetError.NotOpen
            (channel_in (channels_in self.old.open_channels session) channel))) }
        ensures ready { IfOk result (CanApply self.new) }
        ensures same { ShowsSameChannels self.old self.new }
    {
        let Some(_lead) = own_lead(&self.channels, session, channel) else {
            return Err(SetError::NotOpen);
        };
        let Ok(()) = self.make_class_room(channel) else {
            return Err(SetError::Memory);
        };
        Ok(ChannelPlan::Class {
            at,
            channel,
            class,
            span,
        })
    }

    /// Does what was planned, on the table as it was then. It takes no memory.
    pub fn apply(&mut self, plan: ChannelPlan) -> Option<Opened>
        requires { CanApply self.old plan }
        ensures opened { result ≡ opened_by plan }
        ensures told { (is_asked : ℕ → Bool) (moves : List ChannelMove)
            → IsAskedAsPlanned is_asked plan → IsTold is_asked self.old moves
            → IsTold is_asked self.new (planned_move plan ∷ moves) }
        ensures cut { CutsAsPlanned plan self.old self.new }
    {
        match plan {
            ChannelPlan::Open {
                session,
                kind,
                account,
                opened,
                ..
            } => Some(self.take_opening(session, kind, account, opened)),
            ChannelPlan::Name { channel, account } => {
                self.take_name(channel, account);
                None
            }
            ChannelPlan::Class {
                at,
                channel,
                class,
                span,
            } => {
                self.take_class(at, channel, class, span);
                None
            }
        }
    }

    /// What an opening would give, or why it is refused. It takes no memory.
    fn opening(&self, session: u32, ask: &OpenAsk, rules: &Rules) -> Result<Opened, OpenError>
        requires { rules.now.least_class ≤ 60 }
        ensures value { result ≡ opening_on self.now rules.now session ask.now }
        ensures next { IfOk result (λ opened. IsNextOpening self.now session ask.now.kind opened) }
    {
        let count = count_of(&self.lists, session);
        if let Some(refusal) = opening_refusal(rules, count, self.opened, ask) {
            return Err(refusal);
        }
        let Some(lead) = self.space.lowest(lead_len(ask.kind, ask.min_size)) else {
            return Err(OpenError::NoSpace);
        };
        Ok(Opened {
            channel: self.opened + 1,
            class: class_given(rules, &ask.max_target),
            lead,
        })
    }

    /// What an opening gives, and its account, with the memory that it takes.
    fn ready_opening(
        &mut self,
        session: u32,
        ask: &OpenAsk,
        rules: &Rules,
    ) -> Result<(Opened, Str255), OpenError>
        requires { rules.now.least_class ≤ 60 }
        ensures opened { IfOk result (λ ready.
            opening_on self.old rules.now session ask.now ≡ Ok ready.0) }
        ensures account { IfOk result (λ ready.
            ready.1 ≡ account_for ask.now.kind ask.now.identity) }
        ensures ready { IfOk result (λ ready. MayOpenNext self.new session ask.now.kind ready.0) }
        ensures refused { IfErr result (λ refusal. (refusal ≡ OpenError.Memory)
            ⊎ (opening_on self.old rules.now session ask.now ≡ Err refusal)) }
        ensures same { ShowsSameChannels self.old self.new }
    {
        let opened = match self.opening(session, ask, rules) {
            Ok(opened) => opened,
            Err(refusal) => return Err(refusal),
        };
        let alloc = *self.channels.allocator();
        let Ok(account) = opening_account(alloc, ask.kind, ask.identity.text()) else {
            return Err(OpenError::Memory);
        };
        let Ok(()) = self.make_room(session) else {
            return Err(OpenError::Memory);
        };
        Ok((opened, account))
    }

    /// Room for an opening of a session.
    fn make_room(&mut self, session: u32) -> Result<(), AllocError>
        ensures same { ShowsSameChannels self.old self.new }
        ensures room { OnOk result (1 ≤ self.new.opening_room) }
        ensures listed { OnOk result
            (1 ≤ count_kept (lookup (nat_eq session) self.new.session_rooms)) }
    {
        self.channels.reserve(1)?;
        reserve_listing(&mut self.lists, session)?;
        self.space.reserve()
    }

    /// Room for a class that is set for an open channel.
    fn make_class_room(&mut self, channel: u32) -> Result<(), AllocError>
        requires { IsTrue (is_some (channel_in self.old.open_channels channel)) }
        ensures same { ShowsSameChannels self.old self.new }
        ensures ready { OnOk result (MaySetClass self.new channel) }
    {
        reserve_class(&mut self.channels, channel)
    }

    /// Opens a channel, for which there is room.
    fn take_opening(&mut self, session: u32, kind: Kind, account: Str255, opened: Opened) -> Opened
        requires { MayOpenNext self.old session kind opened }
        ensures value { result ≡ opened }
        ensures told { (at : ℕ) (is_asked : ℕ → Bool) (moves : List ChannelMove)
            → IsTold is_asked self.old moves → IsTold is_asked self.new
            (Opens at session kind account opened.class opened.lead ∷ moves) }
    {
        let alloc = *self.channels.allocator();
        list_opening(&mut self.lists, session, opened.channel);
        hold(&mut self.space, opened.lead);
        let channel = Channel {
            session,
            kind,
            account,
            lead: opened.lead,
            opening_class: opened.class,
            class: opened.class,
            settings: Settings::new(alloc),
        };
        put_channel(&mut self.channels, opened.channel, channel);
        self.opened = opened.channel;
        opened
    }

    /// Gives a channel an account, where it has none.
    fn take_name(&mut self, channel: u32, account: Str255)
        ensures { (is_asked : ℕ → Bool) (moves : List ChannelMove)
            → IsTold is_asked self.old moves
            → IsTold is_asked self.new (Names channel account ∷ moves) }
    {
        put_account(&mut self.channels, channel, account);
    }

    /// Sets the class of an open channel, for which there is room.
    fn take_class(&mut self, at: u64, channel: u32, class: Class, span: LiveSpan)
        requires { MaySetClass self.old channel }
        ensures told { (is_asked : ℕ → Bool) (moves : List ChannelMove)
            → IsAskedWithin is_asked span at → IsTold is_asked self.old moves
            → IsTold is_asked self.new (Sets at channel class ∷ moves) }
        ensures cut { self.new.open_channels
            ≡ map (with_cut at channel class span) self.old.open_channels }
    {
        put_class(&mut self.channels, channel, at, class, span);
    }
}

/// Two different open channels search no space together: no twelve bytes are in both.
pub fn spaces_apart(channels: &Channels, a: u32, b: u32)
    requires { ¬ (a ≡ b) }
    ensures { AreSpacesApart channels.now.open_channels a b }
{
    // Says that the tables fit each other.
    let _space = &channels.space;
}

ghost use Rattle.std.specs.Option.{option_copied};
ghost use Rattle.std.specs.Prelude.{◌≡◌, ◌≤◌, ◌==◌, ◌&&◌, None, length, nat_eq, not};
ghost use Rattle.std.specs.Str.{bytes_eq};
ghost use Rattle.pool_history.specs.Accounts.{is_empty};
ghost use Rattle.channels.specs.Plans.{naming_refusal};
ghost use Rattle.std.specs.List.{IsDistinct};
ghost use Rattle.std.specs.Map.{keys_of, lookup};
ghost use Rattle.channels.specs.Orders.{by_id};
ghost use Rattle.channels.specs.Tables.{AreSpacesApart, channel_if_own, lead_if_own};

/// What is kept under an id.
fn kept_under(channels: &IndexMap<u32, Channel>, id: u32) -> Option<&Channel>
    ensures value { option_copied result ≡ lookup (nat_eq id) (by_id channels.now.entries) }
    ensures unique { IsDistinct nat_eq (keys_of (by_id channels.now.entries)) }
{
    // Says that no id is kept twice.
    let _count = channels.len();
    channels.get(&id)
}

/// A session's channel; none where the session has no such channel.
fn own_channel(channels: &IndexMap<u32, Channel>, session: u32, channel: u32) -> Option<&Channel>
    ensures value { option_copied result
        ≡ channel_if_own session (lookup (nat_eq channel) (by_id channels.now.entries)) }
    ensures unique { IsDistinct nat_eq (keys_of (by_id channels.now.entries)) }
{
    match kept_under(channels, channel) {
        Some(there) => {
            if there.session == session {
                Some(there)
            } else {
                None
            }
        }
        None => None,
    }
}

/// The lead of a session's channel; none where the session has no such channel.
fn own_lead(channels: &IndexMap<u32, Channel>, session: u32, channel: u32) -> Option<Lead>
    ensures value { result
        ≡ lead_if_own session (lookup (nat_eq channel) (by_id channels.now.entries)) }
    ensures unique { IsDistinct nat_eq (keys_of (by_id channels.now.entries)) }
{
    match own_channel(channels, session, channel) {
        Some(there) => Some(there.lead),
        None => None,
    }
}

/// Why a session's channel doesn't get an account.
fn name_refusal(
    channels: &IndexMap<u32, Channel>,
    session: u32,
    channel: u32,
    account: &str,
    rules: &Rules,
) -> Option<NameError>
    ensures refusal { result ≡ naming_refusal rules.now account.now session
        (lookup (nat_eq channel) (by_id channels.now.entries)) }
    ensures short { result ≡ None → length account.now ≤ 255 }
    ensures unique { IsDistinct nat_eq (keys_of (by_id channels.now.entries)) }
{
    match kept_under(channels, channel) {
        Some(there) => {
            if there.session != session {
                Some(NameError::NotOpen)
            } else if !is_known_account(rules, account) {
                Some(NameError::UnknownUser)
            } else if has_other_account(there, account) {
                Some(NameError::OtherAccount)
            } else {
                None
            }
        }
        None => Some(NameError::NotOpen),
    }
}

/// Whether a channel has an account, and another one.
fn has_other_account(channel: &Channel, account: &str) -> bool
    ensures { result ≡ (not (is_empty channel.now.account)
        && not (bytes_eq channel.now.account account.now)) }
{
    let text = channel.account.text();
    !text.is_empty() && text != account
}
