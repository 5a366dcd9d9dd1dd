//! The book and its one worker.

ghost use Rattle.std.specs.Prelude.{List};
ghost use Rattle.pool_history.specs.Calls.{PoolCall};
ghost use Rattle.v2_sessions.specs.Answerers.{Acts};
ghost use Rattle.share_ledger.specs.Books.{BookSeen};
ghost use Rattle.pool_sessions.specs.Calling.{CallsBook, GoesOn};

use history_laws::{answers_keep_legality, briefs_roll};
use ledger_records::request_fits;
use pool_history::Request;
use pool_io::Keeper;
use share_ledger::Book;
use v2_sessions::{Acted, Acting};

/// A book, and the number of the worker that asks it.
#[derive(Drop)]
pub struct SoleBook<K: Keeper> {
    pub book: Book<K>,
    pub worker: u32,
}

impl<K: Keeper> Acting for SoleBook<K> {
    ghost use Rattle.pool_sessions.specs.Calling as calling;

    ghost worker = { λ sole. sole.worker };

    ghost ready = { λ _. Unit {0} };

    ghost does = { λ old call new. calling.CallsBook old.book call new.book };

    fn act(&mut self, request: Request) -> Acted {
        briefs_roll();
        request_fits(&request);
        let front = self.book.len();
        Acted {
            front,
            outcome: self.book.act(self.worker, request),
        }
    }
}

/// Calls of a book by itself go on: each stands at the whole history before it and is answered by
/// it, and what they added is what the history and the ledger got.
pub fn sole_calls_go_on()
    ensures { (old new : BookSeen) (calls : List PoolCall)
        → Acts CallsBook old calls new → GoesOn old calls new }
{
    answers_keep_legality();
}
