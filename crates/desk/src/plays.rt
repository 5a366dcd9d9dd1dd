//! What each step on the table tells the seat that makes it.

use crate::machine::Machine;
use crate::rule::{SeatView, Slot, ViewOf};
use atomic_table::{Join, Play, Split};
use std::marker::PhantomData;

/// The turn is taken, with the machine, or nothing was learnt.
pub struct Take<M> {
    machine: PhantomData<M>,
}

impl<M: Machine> Play<Slot<M>, ViewOf<M>> for Take<M> {
    ghost use Rattle.desk.specs.Plays.{Takes};

    ghost then = { Takes M.events M.health };
}

/// The machine is put back, with the call that it answered.
pub struct Put<M> {
    machine: PhantomData<M>,
}

impl<M: Machine> Play<Slot<M>, ViewOf<M>> for Put<M> {
    ghost use Rattle.desk.specs.Plays.{Puts};

    ghost then = { Puts M.events M.health };
}

/// The count of calls is seen, and what was told is known to be a front of the history.
pub struct Look<M> {
    machine: PhantomData<M>,
}

impl<M: Machine> Play<Slot<M>, ViewOf<M>> for Look<M> {
    ghost use Rattle.desk.specs.Plays.{Looks};

    ghost then = { Looks };
}

/// The first worker goes to a seat of its own.
pub struct Deal;

impl<E, Q, R, F> Split<SeatView<E, Q, R, F>> for Deal {
    ghost use Rattle.desk.specs.Views.{dealt_view, left_view};

    ghost left = { left_view };

    ghost right = { dealt_view };
}

/// What was seen goes to a seat of its own.
pub struct Tell;

impl<E, Q, R, F> Split<SeatView<E, Q, R, F>> for Tell {
    ghost use Rattle.desk.specs.Views.{telling_view};

    ghost left = { λ view. view };

    ghost right = { telling_view };
}

/// One seat takes over another's workers and calls, and is told what it had seen.
pub struct Merge;

impl<E, Q, R, F> Join<SeatView<E, Q, R, F>> for Merge {
    ghost use Rattle.desk.specs.Views.{joined_view, spent_view};

    ghost both = { joined_view };

    ghost spent = { spent_view };
}
