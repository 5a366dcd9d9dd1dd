//! The book as the machine of a desk, which many threads call.

use crate::book::Book;
use desk::Machine;
use pool_history::{BookError, Event, Reply, Request};
use pool_io::Keeper;

impl<K: Keeper> Machine for Book<K> {
    ghost use Rattle.pool_history.specs.Answering.{Answer};
    ghost use Rattle.pool_history.specs.Calls as pool_calls;
    ghost use Rattle.share_ledger.specs.Books.{health_of};

    type Event = Event;

    type Request = Request;

    type Reply = Reply;

    type Fault = BookError;

    ghost events = { λ book. book.events };

    ghost health = { health_of };

    ghost wants_memory = { pool_calls.wants_memory };

    ghost answers = { Answer };

    fn length(&self) -> u64 {
        self.len()
    }

    fn act(&mut self, caller: u32, request: Request) -> Result<Reply, BookError> {
        Book::act(self, caller, request)
    }
}
