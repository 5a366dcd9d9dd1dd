//! What a desk keeps in its slot, what each seat knows, and the rule that ties the two. No value of
//! what a seat knows is made.

use crate::machine::Machine;
use atomic_table::{Seat, Shared, TableRule};
use std::marker::{Model, PhantomData};
use std::snapshot::Snapshot;

/// The call that was made last: who asked for what, and how it ended.
#[derive(Drop)]
pub struct Note<Q, R, F> {
    pub worker: u32,
    pub asked: Snapshot<Q>,
    pub answer: Snapshot<Result<R, F>>,
}

/// The machine, with the call that it answered last.
#[derive(Drop)]
pub struct Held<M, Q, R, F> {
    pub machine: M,
    pub note: Option<Note<Q, R, F>>,
}

/// The machine that a desk was opened with, and how many passes it dealt.
#[derive(Drop)]
pub struct Key<M> {
    pub start: Snapshot<M>,
    pub count: u32,
}

/// What a seat at the table knows.
pub struct SeatView<E, Q, R, F> {
    marker: PhantomData<(E, Q, R, F)>,
}

impl<E, Q, R, F> Model for SeatView<E, Q, R, F> {
    ghost use Rattle.desk.specs.Views.{View, spent_view};

    ghost Value = { View E Q R F };

    ghost view = { λ _. spent_view };
}

/// One call after the other.
pub struct Turns<M> {
    machine: PhantomData<M>,
}

pub type Slot<M: Machine> = Option<Held<M, M::Request, M::Reply, M::Fault>>;

pub type NoteOf<M: Machine> = Note<M::Request, M::Reply, M::Fault>;

pub type ViewOf<M: Machine> = SeatView<M::Event, M::Request, M::Reply, M::Fault>;

pub type Board<M: Machine> = Shared<Slot<M>, ViewOf<M>, Key<M>, Turns<M>>;

pub type Place<M: Machine> = Seat<Slot<M>, ViewOf<M>>;

impl<M: Machine> TableRule<Slot<M>, ViewOf<M>, Key<M>> for Turns<M> {
    ghost use Rattle.desk.specs.Views.{fresh_view, workers_from};
    ghost use Rattle.desk.specs.Rule.{IsOneHistory};

    ghost holds = { λ key. IsOneHistory M.answers M.wants_memory M.events M.health key.start.value
        key.count };

    ghost first = { λ key. fresh_view (M.events key.start.value) (workers_from 0 key.count) };
}
