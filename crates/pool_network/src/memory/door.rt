//! A door in memory.

ghost use Rattle.std.specs.Prelude.{◌≡◌, [], Some, map};
ghost use Rattle.pool_network.specs.MemoryDoors.{arrival_seen, door_seen};

use crate::door::{Arrival, Came, Door};
use crate::link::Link;
use pool_io::{FailingCalls, Shelf};
use std::alloc::Global;
use std::collections::VecDeque;

/// Lets in those that it was made with, and then is closed. It fails at the calls of `accept` whose
/// numbers are listed, the first call being number 0.
#[derive(Drop)]
pub struct MemDoor<L> {
    coming: VecDeque<Arrival<L>>,
    links: Shelf<L>,
    failing: FailingCalls,
}

impl<L: Link> MemDoor<L> {
    pub fn new(alloc: Global, coming: VecDeque<Arrival<L>>, failing: Vec<u64>) -> MemDoor<L>
        ensures { door_seen L.seen result ≡ record {
          faults = 0;
          asked = 0;
          coming = Some (map (arrival_seen L.seen) coming.items);
          out = 0;
          back = Some [];
        } }
    {
        MemDoor {
            coming,
            links: Shelf::new(alloc),
            failing: FailingCalls::of(failing),
        }
    }

    /// The connections that came back, in their order.
    pub fn links(&self) -> &[L]
        ensures { Some (map L.seen result.now) ≡ (door_seen L.seen self.now).back }
    {
        self.links.items()
    }
}

impl<L: Link> Door for MemDoor<L> {
    type L = L;

    ghost seen = { door_seen L.seen };

    fn accept(&mut self) -> Came<L> {
        if self.failing.next_fails() {
            return Came::Failed;
        }
        if self.links.lend().is_err() {
            return Came::Memory;
        }
        match self.coming.pop_front() {
            Some(Arrival::Caller(link)) => Came::Caller(link),
            Some(Arrival::Idle) => {
                self.links.unlend();
                Came::Idle
            }
            None => {
                self.links.unlend();
                Came::Closed
            }
        }
    }

    fn done(&mut self, link: L) {
        self.links.take_back(link);
    }
}
