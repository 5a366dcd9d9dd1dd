//! What a disk in memory did, and what a crash leaves of it.

ghost use Rattle.std.specs.Prelude.{◌≡◌, ◌≤◌, ◌<◌, ◌++◌, ◌∷◌, [], IfOk, List, OnErr, OnOk, length, vec_capacity, vec_len, reverse};
ghost use Rattle.ledger_disk.specs.declared.disk.Doing.TheVariants.{Synced};
ghost use Rattle.ledger_disk.specs.Memory.{HaveRoom, LeavesCall};
ghost use Rattle.ledger_disk.specs.Moments.{MayLeave, Moment, last_content, with_call};

use crate::Doing;
use crate::tearing::{Rest, rest_of, tear_cut, tear_write};
use std::alloc::{AllocError, Global};
use std::marker::Model;
use std::mem;

/// A call, and what there was behind it.
#[derive(Drop)]
pub(crate) struct MemMoment {
    doing: Doing,
    content: Vec<u8>,
}

impl Model for MemMoment {
    ghost use Rattle.ledger_disk.specs.Moments.{Moment};

    ghost Value = { Moment };

    ghost view = { λ m. record { doing = m.doing; content = m.content.items } };
}

/// The calls of a disk, of which the first one is a sync.
#[derive(Drop)]
pub(crate) struct Past {
    earlier: Vec<MemMoment>,
    latest: MemMoment,
    /// Has room for each content that there was, unless there was only one: so a crash takes no
    /// memory.
    spare: Vec<u8>,
}

impl Model for Past {
    ghost use Rattle.std.specs.Prelude.{◌-◌, ◌≡◌, ◌⊎◌, ◌∷◌, [], reverse, vec_capacity, vec_len};
    ghost use Rattle.ledger_disk.specs.Memory.{HaveRoom, PastSeen};

    ghost Value = { PastSeen };

    ghost view = { λ p. record {
      log = p.latest ∷ reverse p.earlier.items;
      places = vec_capacity p.earlier - vec_len p.earlier;
      room = vec_capacity p.spare;
    } };

    ghost invariant = { λ p. (p.earlier.items ≡ [])
        ⊎ HaveRoom (vec_capacity p.spare) (p.latest ∷ p.earlier.items) };
}

impl Past {
    /// One sync, which left this content.
    pub(crate) fn new(alloc: Global, content: Vec<u8>) -> Past
        ensures { result.log ≡ with_call Synced content.items [] }
    {
        Past {
            earlier: Vec::new(alloc),
            latest: MemMoment {
                doing: Doing::Synced,
                content,
            },
            spare: Vec::new(alloc),
        }
    }

    /// What a read gives.
    pub(crate) fn content(&self) -> &[u8]
        ensures { result.now ≡ last_content self.now.log }
    {
        &self.latest.content
    }

    /// Makes room for one more call with a content of so many bytes.
    pub(crate) fn reserve(&mut self, size: usize) -> Result<(), AllocError>
        ensures same { self.new.log ≡ self.old.log }
        ensures place { OnOk result (0 < self.new.places) }
        ensures room { OnOk result (size ≤ self.new.room) }
    {
        self.earlier.reserve(1)?;
        self.spare.reserve(size)
    }

    /// Tells one more call, for which there is room, as for the content before it.
    pub(crate) fn push(&mut self, doing: Doing, content: Vec<u8>)
        requires place { 0 < self.old.places }
        requires room { length content.items ≤ self.old.room }
        requires before { length (last_content self.old.log) ≤ self.old.room }
        ensures { self.new.log ≡ with_call doing content.items self.old.log }
    {
        push_moment(
            &mut self.earlier,
            &mut self.latest,
            MemMoment { doing, content },
        );
    }

    /// What a crash leaves: for each call behind the last sync the next byte of the pick says how much
    /// of it is done.
    pub(crate) fn left(self, pick: u64) -> Vec<u8>
        ensures { MayLeave self.log result.items }
    {
        let Past {
            earlier,
            latest,
            spare,
        } = self;
        let MemMoment { doing, content } = latest;
        if earlier.is_empty() {
            return content;
        }
        let mut left = spare;
        left.clear();
        let last_pick = tear_all(&mut left, &earlier, pick, pick);
        tear(&mut left, doing, &content, rest_of(last_pick));
        left
    }
}

/// A moment takes the place of the latest one, for which there is room.
fn push_moment(earlier: &mut Vec<MemMoment>, latest: &mut MemMoment, next: MemMoment)
    requires { vec_len earlier.old < vec_capacity earlier.old }
    ensures told { latest.new ∷ reverse earlier.new.items
        ≡ next ∷ latest.old ∷ reverse earlier.old.items }
    ensures earlier { earlier.new.items ≡ earlier.old.items ++ latest.old ∷ [] }
    ensures latest { latest.new ≡ next }
{
    let before = mem::replace(latest, next);
    earlier.push(before).unwrap();
}

/// Leaves of one call what the crash leaves, over what it had left before.
fn tear(left: &mut Vec<u8>, doing: Doing, content: &[u8], rest: Rest)
    requires { length content.now ≤ vec_capacity left.old }
    ensures left { LeavesCall (record { doing = doing; content = content.now }) left.old.items
        left.new.items }
    ensures room { vec_capacity left.old ≤ vec_capacity left.new }
{
    match doing {
        Doing::Wrote { at, count } => tear_write(left, at, count, content, rest),
        Doing::CutTo { length } => tear_cut(left, length, rest),
        Doing::Synced => {
            left.clear();
            left.extend_from_slice(content).unwrap();
        }
    }
}

/// The same for calls one behind the other. Answers the pick for the next one: after a sync it is
/// whole again.
fn tear_all(left: &mut Vec<u8>, moments: &[MemMoment], pick: u64, whole: u64) -> u64
    requires { HaveRoom (vec_capacity left.old) moments.now }
    ensures left { (older : List Moment) → MayLeave older left.old.items
        → MayLeave (reverse moments.now ++ older) left.new.items }
    ensures room { vec_capacity left.old ≤ vec_capacity left.new }
{
    match moments {
        [] => pick,
        [moment, later @ ..] => {
            tear(left, moment.doing, &moment.content, rest_of(pick));
            tear_all(left, later, next_pick(moment.doing, pick, whole), whole)
        }
    }
}

/// The pick for the call behind this one.
fn next_pick(doing: Doing, pick: u64, whole: u64) -> u64 {
    match doing {
        Doing::Synced => whole,
        Doing::Wrote { .. } | Doing::CutTo { .. } => pick.rotate_right(8),
    }
}
