//! Changes of the channels that are kept.

ghost use Rattle.std.specs.Prelude.{◌≡◌, ℕ, ◌<◌, ◌≤◌, Some, [], ◌∷◌, ◌++◌, IsPermutation, OnOk, length, nat_eq};
ghost use Rattle.std.specs.List.{AllByRecursion};
ghost use Rattle.std.specs.Map.{lookup, remove_entry};
ghost use Rattle.pool_history.specs.Spaces.{lowest};
ghost use Rattle.indexmap.specs.IndexMap.{spare};
ghost use Rattle.channels.specs.Orders.{by_id};
ghost use Rattle.channels.specs.Tables.{HoldsLeads, count_kept, named_channel, reclassed_channel, roomed_channel, rooms_of, with_changed, without_ids};

use crate::channel::Channel;
use indexmap::IndexMap;
use pool_history::{Class, Lead, LiveSpan};
use prefix_space::Space;
use std::alloc::AllocError;
use sv2_types::Str255;

/// Keeps a channel under an id that is new, and for which there is room.
pub(crate) fn put_channel(channels: &mut IndexMap<u32, Channel>, id: u32, channel: Channel)
    requires room { 1 ≤ spare channels.old }
    requires above { AllByRecursion (λ entry. entry.0 < id) (by_id channels.old.entries) }
    ensures { by_id channels.new.entries ≡ by_id channels.old.entries ++ (id, channel) ∷ [] }
{
    let Ok(_old) = channels.insert(id, channel) else {
        return;
    };
}

/// Holds the lowest free lead of a length, for which there is room.
pub(crate) fn hold(space: &mut Space, lead: Lead)
    requires room { 1 ≤ space.old.spare }
    requires lowest { lowest (length lead) space.old.held ≡ Some lead }
    ensures { IsPermutation (lead ∷ space.old.held) space.new.held }
{
    let _taken = space.take(lead.len());
}

/// Gives a channel an account, where it has none.
pub(crate) fn put_account(channels: &mut IndexMap<u32, Channel>, id: u32, account: Str255)
    ensures { by_id channels.new.entries
        ≡ with_changed (named_channel account) id (by_id channels.old.entries) }
{
    if let Some(there) = channels.get_mut(&id) {
        if there.account.text().is_empty() {
            there.account = account;
        }
    }
}

/// Makes room for a class that is set for a channel.
pub(crate) fn reserve_class(
    channels: &mut IndexMap<u32, Channel>,
    id: u32,
) -> Result<(), AllocError>
    ensures { (room : ℕ) × (by_id channels.new.entries
        ≡ with_changed (roomed_channel room) id (by_id channels.old.entries))
        × OnOk result (1 ≤ room) }
{
    match channels.get_mut(&id) {
        Some(there) => there.settings.reserve(),
        None => Ok(()),
    }
}

/// Sets the class of a channel at a place, for which there is room, while jobs are live within a
/// span.
pub(crate) fn put_class(
    channels: &mut IndexMap<u32, Channel>,
    id: u32,
    at: u64,
    class: Class,
    span: LiveSpan,
)
    requires { 1 ≤ count_kept (lookup (nat_eq id) (rooms_of (by_id channels.old.entries))) }
    ensures { (room : ℕ) × (by_id channels.new.entries
        ≡ with_changed (reclassed_channel room at class span) id (by_id channels.old.entries)) }
{
    if let Some(there) = channels.get_mut(&id) {
        there.class = class;
        there.settings.set(at, class, span);
    }
}

/// Closes the channel with an id, if there is one, and gives its lead back.
pub(crate) fn close_kept(channels: &mut IndexMap<u32, Channel>, space: &mut Space, id: u32)
    requires { HoldsLeads space.old.held (by_id channels.old.entries) }
    ensures closed { by_id channels.new.entries
        ≡ remove_entry (nat_eq id) (by_id channels.old.entries) }
    ensures held { HoldsLeads space.new.held (by_id channels.new.entries) }
{
    // Says that no id is kept twice.
    let _count = channels.len();
    if let Some(channel) = channels.swap_remove(&id) {
        space.give(channel.lead);
    }
}

/// Closes the channels with these ids, and gives their leads back.
pub(crate) fn close_all(channels: &mut IndexMap<u32, Channel>, space: &mut Space, mut ids: Vec<u32>)
    requires { HoldsLeads space.old.held (by_id channels.old.entries) }
    ensures closed { by_id channels.new.entries
        ≡ without_ids ids.items (by_id channels.old.entries) }
    ensures held { HoldsLeads space.new.held (by_id channels.new.entries) }
{
    while let Some(id) = ids.pop() {
        close_kept(channels, space, id);
    }
}
