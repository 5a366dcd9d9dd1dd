//! What one thread has in hand, and its work.

ghost use Rattle.std.specs.Prelude.{◌≡◌, ◌<◌};
ghost use Rattle.pool_server.specs.Parts as manners;
ghost use Rattle.pool_server.specs.Parts.{IsAttended, seeing_of, service_of};

use crate::{DeskWorker, serve_link, work};
use desk::{Desk, Pass, Tending};
use door_threads::{ThreadPart, ThreadTask};
use pool_history::Role;
use pool_io::{Keeper, Limits};
use pool_network::Door;
use session_steps::Manner;
use share_ledger::Book;
use std::alloc::Global;
use std::sync::Wait;
use v1_translate::V1Terms;

/// What all threads share: how sessions are held.
#[derive(Drop)]
pub(crate) struct Attending<'t> {
    pub(crate) alloc: Global,
    pub(crate) terms: &'t V1Terms,
    pub(crate) limits: Limits,
}

impl<K: Keeper, D: Door> Tending<Book<K>, ThreadPart<D, D::L>> for Attending<'_> {
    ghost use Rattle.std.specs.Prelude.{◌<◌};
    ghost use Rattle.pool_server.specs.Parts.{IsAttended, seeing_of, service_of};

    ghost ready = { λ work. (0 < work.limits.idle_turns) × (0 < work.limits.door_turns) };

    ghost tends = { λ work. IsAttended (seeing_of D.seen D.L.seen
        (service_of work.terms.now work.limits)) };

    fn tend<R: Wait>(
        &self,
        rt: &R,
        desk: &Desk<Book<K>>,
        part: &mut ThreadPart<D, D::L>,
        pass: &mut Pass<Book<K>>,
    ) {
        attend(rt, self.alloc, desk, self.terms, self.limits, part, pass)
    }
}

/// Does a part's task to its end, by calls of a pass.
fn attend<R: Wait, K: Keeper, D: Door>(
    rt: &R,
    alloc: Global,
    desk: &Desk<Book<K>>,
    terms: &V1Terms,
    limits: Limits,
    part: &mut ThreadPart<D, D::L>,
    pass: &mut Pass<Book<K>>,
)
    requires desk { pass.old.table ≡ desk.now.table }
    requires waits { (0 < limits.idle_turns) × (0 < limits.door_turns) }
    ensures { IsAttended (seeing_of D.seen D.L.seen (service_of terms.now limits))
        (part.old, pass.old) (part.new, pass.new) }
{
    let ThreadPart { task, faults } = part;
    let mut asker = DeskWorker {
        rt,
        desk,
        pass,
        faults: *faults,
    };
    match task {
        ThreadTask::Link(link, end) => {
            let manner = manner_of(Role::Feed, terms, limits);
            *end = Some(serve_link(alloc, &mut asker, link, manner, terms));
        }
        ThreadTask::Door(door, end) => {
            let manner = manner_of(Role::Miner, terms, limits);
            let ended = work(alloc, &mut asker, door, manner, terms, limits.door_turns);
            *end = Some(ended);
        }
    }
    let DeskWorker {
        rt: _,
        desk: _,
        pass: _,
        faults: counted,
    } = asker;
    *faults = counted;
}

/// How this role's sessions are held.
fn manner_of(role: Role, terms: &V1Terms, limits: Limits) -> Manner
    ensures { result ≡ manners.manner_of (service_of terms.now limits) role }
{
    Manner {
        role,
        rolling: terms.rules().version_rolling,
        declares: false,
        idle_turns: limits.idle_turns,
    }
}
