//! The pass at its desk.

ghost use Rattle.std.specs.Prelude.{◌≡◌, ◌<◌, ◌^◌, List};
ghost use Rattle.pool_history.specs.Calls.{PoolCall, has_keeper_failed};
ghost use Rattle.v2_sessions.specs.Answerers.{Acts, RollsAsBriefed, outcome_of};
ghost use Rattle.pool_server.specs.Calling.{AddsCalls, CallsDesk, IsCallOf, PoolPass};

use desk::{Desk, Pass};
use history_laws::briefs_roll;
use ledger_records::request_fits;
use pool_history::{BookError, Request};
use pool_io::Keeper;
use share_ledger::Book;
use std::sync::Wait;
use v2_sessions::{Acted, Acting};

/// A pass of a desk, which asks the desk's book. It counts its calls that were answered by the
/// keeper's fault, up to 2^64 - 1.
pub struct DeskWorker<'a, R: Wait, K: Keeper> {
    pub rt: &'a R,
    pub desk: &'a Desk<Book<K>>,
    pub pass: &'a mut Pass<Book<K>>,
    pub faults: u64,
}

impl<R: Wait, K: Keeper> Acting for DeskWorker<'_, R, K> {
    ghost use Rattle.pool_server.specs.Calling as calling;

    ghost worker = { λ asker. asker.pass.now.worker };

    ghost ready = { λ asker. asker.pass.now.table ≡ asker.desk.now.table };

    ghost does = { λ old call new. (new.pass.ghost_name ≡ old.pass.ghost_name)
        × (new.faults ≡ calling.faults_after old.faults call.outcome)
        × calling.CallsDesk old.pass.now call new.pass.now };

    fn act(&mut self, request: Request) -> Acted {
        let acted = ask(self.rt, self.desk, self.pass, request);
        if is_keeper_fault(&acted) {
            self.faults = self.faults.saturating_add(1);
        }
        acted
    }
}

/// One request, asked by the pass.
fn ask<R: Wait, K: Keeper>(
    rt: &R,
    desk: &Desk<Book<K>>,
    pass: &mut Pass<Book<K>>,
    request: Request,
) -> Acted
    requires { pass.old.table ≡ desk.now.table }
    ensures call { (call : PoolCall) × IsCallOf call pass.old.worker request result
        × CallsDesk pass.old call pass.new }
    ensures few { result.front < 2 ^ 62 }
    ensures rolls { RollsAsBriefed request result.outcome }
{
    briefs_roll();
    request_fits(&request);
    match desk.act(rt, pass, request) {
        Ok((front, reply)) => Acted {
            front,
            outcome: Ok(reply),
        },
        Err((front, fault)) => Acted {
            front,
            outcome: Err(fault),
        },
    }
}

/// Whether a request was answered by the keeper's fault.
fn is_keeper_fault(acted: &Acted) -> bool
    ensures { result ≡ has_keeper_failed (outcome_of acted.now.outcome) }
{
    match acted.outcome {
        Ok(_) | Err(BookError::Memory) => false,
        Err(BookError::KeeperFault) => true,
    }
}

/// Calls of one pass go on, whoever calls between them: they are what became of the pass's own
/// calls, each stands at a front of what the pass has seen in the end and is answered by it, and
/// their numbers and fronts rise.
pub fn desk_calls_go_on()
    ensures { (old new : PoolPass) (calls : List PoolCall)
        → Acts CallsDesk old calls new → AddsCalls old calls new }
{}
