//! What is kept of the classes that were set for one channel. It knows no other.

use pool_history::{Class, LiveSpan};
use std::alloc::{AllocError, Global};
use std::marker::Model;

/// A class that was set, and at which place.
#[derive(Clone, Copy)]
pub(crate) struct Setting {
    pub at: u64,
    pub class: Class,
}

/// What is kept of the classes that were set for a channel. Contracts see it with the last one first,
/// and for how many more there is room.
#[derive(Drop)]
pub struct Settings {
    /// In the order in which they were set.
    settings: Vec<Setting>,
    /// Whether no place is below one before, as a history's are: then one is found by halves.
    rising: bool,
}

impl Model for Settings {
    ghost use Rattle.channels.specs.ClassSettings.{ClassSettings};

    ghost Value = { ClassSettings };

    ghost use Rattle.std.specs.Prelude.{◌-◌, IsTrue, vec_capacity, vec_len};
    ghost use Rattle.std.specs.List.Sorted.{IsNonDecreasingBy};
    ghost use Rattle.channels.specs.ClassSettings.{sets_of};

    ghost view = { λ settings. record {
      sets = sets_of settings.settings.items;
      room = vec_capacity settings.settings - vec_len settings.settings;
    } };

    ghost invariant = { λ settings. IsTrue settings.rising
        → IsNonDecreasingBy (λ setting. setting.at) settings.settings.items };
}

impl Settings {
    ghost use Rattle.std.specs.Prelude.{◌≡◌, ◌≤◌, [], OnOk};
    ghost use Rattle.pool_history.specs.Channels.{class_before};
    ghost use Rattle.channels.specs.Cuts.{cut_sets};

    /// None was set.
    pub(crate) fn new(alloc: Global) -> Settings
        ensures { result.sets ≡ [] }
    {
        Settings {
            settings: Vec::new(alloc),
            rising: true,
        }
    }

    /// Room for one that is set.
    pub(crate) fn reserve(&mut self) -> Result<(), AllocError>
        ensures same { self.new.sets ≡ self.old.sets }
        ensures room { OnOk result (1 ≤ self.new.room) }
    {
        self.settings.reserve(1)
    }

    /// Sets a class at a place, for which there is room, while jobs are live within a span, and
    /// forgets the classes that neither they nor later jobs ask for.
    pub(crate) fn set(&mut self, at: u64, class: Class, span: LiveSpan)
        requires { 1 ≤ self.old.room }
        ensures { self.new.sets ≡ cut_sets at class span self.old.sets }
    {
        forget_last(&mut self.settings, span.newest);
        self.rising = self.rising && is_behind(&self.settings, at);
        self.settings.push_reserved(Setting { at, class });
        forget_first(&mut self.settings, span.oldest);
    }

    /// The last kept class that was set before a place, or else that of the opening.
    pub(crate) fn class_at(&self, place: u64, opening: Class) -> Class
        ensures { result ≡ class_before place self.now.sets opening }
    {
        if self.rising {
            class_by_halves(&self.settings, place, opening)
        } else {
            class_by_walk(&self.settings, place, opening)
        }
    }
}

ghost use Rattle.std.specs.Option.{option_copied};
ghost use Rattle.std.specs.Prelude.{◌≡◌, ◌-◌, ◌<◌, ◌≤◌, IsTrue, true, false, drop, find, length, nat_lt, reverse, slice_index_or, take, vec_capacity, vec_len};
ghost use Rattle.std.specs.List.Sorted.{IsNonDecreasingBy, IsPartitionPoint};
ghost use Rattle.pool_history.specs.Channels.{class_before};
ghost use Rattle.channels.specs.ClassSettings.{sets_of};
ghost use Rattle.channels.specs.Cuts.{asked_since, without_unasked};
ghost use Rattle.channels.specs.declared.settings.Setting.{Setting};

/// Whether a place isn't below that of the last setting.
fn is_behind(settings: &[Setting], at: u64) -> bool
    ensures { IsTrue result → (other : Setting) → 0 < length settings.now
        → (slice_index_or settings.now (length settings.now - 1) other).at ≤ at }
{
    match settings.last() {
        Some(setting) => setting.at <= at,
        None => true,
    }
}

/// Forgets the last setting where no live job is behind its place; the newest is live since a place.
fn forget_last(settings: &mut Vec<Setting>, newest: u64)
    ensures sets { sets_of settings.new.items
        ≡ without_unasked newest (sets_of settings.old.items) }
    ensures rising { IsNonDecreasingBy (λ setting. setting.at) settings.old.items
        → IsNonDecreasingBy (λ setting. setting.at) settings.new.items }
    ensures room { vec_capacity settings.old - vec_len settings.old
        ≤ vec_capacity settings.new - vec_len settings.new }
{
    let count = count_asked(settings, newest);
    settings.truncate(count);
}

/// How many settings stay where the last may be forgotten.
fn count_asked(settings: &[Setting], newest: u64) -> usize
    ensures { sets_of (take result settings.now) ≡ without_unasked newest (sets_of settings.now) }
{
    let count = settings.len();
    if 0 < count && newest <= settings[count - 1].at {
        return count - 1;
    }
    count
}

/// Forgets the settings before the last one that stands before a place: the oldest job that is live
/// asks for none of them.
fn forget_first(settings: &mut Vec<Setting>, oldest: u64)
    ensures sets { sets_of settings.new.items ≡ asked_since oldest (sets_of settings.old.items) }
    ensures rising { IsNonDecreasingBy (λ setting. setting.at) settings.old.items
        → IsNonDecreasingBy (λ setting. setting.at) settings.new.items }
{
    let count = count_unasked(settings, oldest);
    settings.drain(..count);
}

/// How many settings stand before the last one that stands before a place.
fn count_unasked(settings: &[Setting], oldest: u64) -> usize
    ensures within { result ≤ length settings.now }
    ensures sets { sets_of (drop result settings.now) ≡ asked_since oldest (sets_of settings.now) }
{
    let mut count = settings.len();
    while 0 < count {
        count -= 1;
        if settings[count].at < oldest {
            return count;
        }
    }
    0
}

/// How many settings have a place before this one, where the places rise.
fn count_before(settings: &[Setting], place: u64) -> usize
    requires { IsNonDecreasingBy (λ setting. setting.at) settings.now }
    ensures within { result ≤ length settings.now }
    ensures parted { IsPartitionPoint (λ setting. nat_lt setting.at place ≡ true)
        (λ setting. nat_lt setting.at place ≡ false) settings.now result }
{
    settings.partition_point(|setting| setting.at < place)
}

/// The class at a place, where the places rise.
fn class_by_halves(settings: &[Setting], place: u64, opening: Class) -> Class
    requires { IsNonDecreasingBy (λ setting. setting.at) settings.now }
    ensures { result ≡ class_before place (sets_of settings.now) opening }
{
    let count = count_before(settings, place);
    if count == 0 {
        return opening;
    }
    settings[count - 1].class
}

/// The last setting before a place.
fn last_before(settings: &[Setting], place: u64) -> Option<&Setting>
    ensures { option_copied result
        ≡ find (λ setting. nat_lt setting.at place) (reverse settings.now) }
{
    settings.iter().rev().find(|setting| setting.at < place)
}

/// The class at a place, in whatever order the places are.
fn class_by_walk(settings: &[Setting], place: u64, opening: Class) -> Class
    ensures { result ≡ class_before place (sets_of settings.now) opening }
{
    match last_before(settings, place) {
        Some(setting) => setting.class,
        None => opening,
    }
}
