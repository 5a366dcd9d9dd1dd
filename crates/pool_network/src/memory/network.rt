//! A network in memory.

ghost use Rattle.std.specs.Prelude.{◌≡◌, ◌<◌, ◌++◌, [], ◌∷◌, Some, map, vec_len, vec_capacity};
ghost use Rattle.pool_io.specs.declared.host.HostError.TheVariants as error;
ghost use Rattle.pool_io.specs.Lending.{with_back};
ghost use Rattle.pool_io.specs.Outside.{next_count};
ghost use Rattle.pool_network.specs.MemoryNetworks.{network_seen};

use crate::door::Door;
use crate::link::Link;
use crate::network::{Network, Reaching};
use pool_io::{HostError, Name, Shelf};
use std::alloc::Global;
use std::collections::VecDeque;
use std::mem;

/// Gives the connections that it was made with, one after the other, and its doors to the first who
/// asks for just as many, whatever the addresses. Where it has none to give, it fails.
#[derive(Drop)]
pub struct MemNetwork<L, D> {
    alloc: Global,
    to_dial: VecDeque<L>,
    to_open: Vec<D>,
    faults: u64,
    calls: Vec<Reaching>,
    links: Shelf<L>,
    doors: Shelf<Vec<D>>,
}

impl<L: Link, D: Door> MemNetwork<L, D> {
    pub fn new(alloc: Global, to_dial: VecDeque<L>, to_open: Vec<D>) -> MemNetwork<L, D>
        ensures { network_seen L.seen D.seen result ≡ record {
          faults = 0;
          calls = Some [];
          to_dial = Some (map L.seen to_dial.items);
          to_open = Some (map D.seen to_open.items);
          links = record { lent = 0; back = [] };
          doors = record { lent = 0; back = [] };
        } }
    {
        MemNetwork {
            alloc,
            to_dial,
            to_open,
            faults: 0,
            calls: Vec::new(alloc),
            links: Shelf::new(alloc),
            doors: Shelf::new(alloc),
        }
    }

    /// The calls that named an address so far, in their order.
    pub fn calls(&self) -> &[Reaching]
        ensures { Some result.now ≡ (network_seen L.seen D.seen self.now).calls }
    {
        &self.calls
    }

    /// The connections that came back, in their order.
    pub fn links(&self) -> &[L]
        ensures { map L.seen result.now ≡ (network_seen L.seen D.seen self.now).links.back }
    {
        self.links.items()
    }

    /// The lists of doors that came back, in their order.
    pub fn doors(&self) -> &[Vec<D>]
        ensures { map (λ doors. map D.seen doors.items) result.now
            ≡ (network_seen L.seen D.seen self.now).doors.back }
    {
        self.doors.items()
    }

    /// Tells one more call that failed, for which there is room.
    fn refuse(&mut self, call: Reaching) -> HostError
        requires { vec_len self.old.calls < vec_capacity self.old.calls }
        ensures error { result ≡ error.Failed }
        ensures called { self.new.calls.items ≡ self.old.calls.items ++ call ∷ [] }
        ensures counts { self.new.faults ≡ next_count self.old.faults }
        ensures stays { self.new ≡ record self.old {
          calls = self.new.calls;
          faults = self.new.faults;
        } }
    {
        self.calls.push(call).unwrap();
        self.faults = self.faults.saturating_add(1);
        HostError::Failed
    }
}

impl<D: Door> Network for MemNetwork<D::L, D> {
    type D = D;

    ghost seen = { network_seen D.L.seen D.seen };

    fn dial(&mut self, address: &str) -> Result<D::L, HostError> {
        let Ok(named) = Name::of(self.alloc, address) else {
            return Err(HostError::Memory);
        };
        if self.calls.reserve(1).is_err() {
            return Err(HostError::Memory);
        }
        if self.to_dial.is_empty() {
            return Err(self.refuse(Reaching::Dial(named)));
        }
        if self.links.lend().is_err() {
            return Err(HostError::Memory);
        }
        self.calls.push(Reaching::Dial(named)).unwrap();
        match self.to_dial.pop_front() {
            Some(link) => Ok(link),
            None => unreachable!(),
        }
    }

    fn open_doors(&mut self, address: &str, count: u32) -> Result<Vec<D>, HostError> {
        let Ok(named) = Name::of(self.alloc, address) else {
            return Err(HostError::Memory);
        };
        if self.calls.reserve(1).is_err() {
            return Err(HostError::Memory);
        }
        if self.to_open.len() != count as usize {
            return Err(self.refuse(Reaching::Doors(named, count)));
        }
        if self.doors.lend().is_err() {
            return Err(HostError::Memory);
        }
        self.calls.push(Reaching::Doors(named, count)).unwrap();
        Ok(mem::replace(&mut self.to_open, Vec::new(self.alloc)))
    }

    fn done_link(&mut self, link: D::L) {
        self.links.take_back(link);
    }

    fn done_doors(&mut self, doors: Vec<D>)
        requires { 0 < self.old.doors.lent }
        ensures { network_seen D.L.seen D.seen self.new
            ≡ record (network_seen D.L.seen D.seen self.old) {
              doors = with_back (network_seen D.L.seen D.seen self.old).doors (map D.seen doors.items);
            } }
    {
        self.doors.take_back(doors);
    }
}
