//! Disks in memory, by their names.

ghost use Rattle.std.specs.Prelude.{◌≡◌, ◌<◌, ◌++◌, [], ◌∷◌, IfOk, Some, vec_len, vec_capacity};
ghost use Rattle.ledger_disk.specs.Calls.{fresh_disk};
ghost use Rattle.ledger_disk.specs.MemoryDisks.{content_named, disks_seen};

use crate::disks::Disks;
use crate::memory::{Failures, MemDisk};
use pool_io::{FailingCalls, HostError, Name, Shelf};
use std::alloc::Global;

/// A disk of a name, which holds the same whenever it is opened.
#[derive(Drop)]
pub struct NamedDisk {
    pub name: Name,
    pub content: Vec<u8>,
}

/// Gives the disks that it was made with, and empty ones for all other names. What is written to one
/// comes back with it, and is not found by opening its name again. It fails at the opening calls whose
/// numbers are listed, the first being number 0.
#[derive(Drop)]
pub struct MemDisks {
    alloc: Global,
    named: Vec<NamedDisk>,
    /// How the first disk fails that it gives.
    first: Option<Failures>,
    failing: FailingCalls,
    calls: Vec<Name>,
    disks: Shelf<MemDisk>,
}

impl MemDisks {
    /// None of the calls of its disks fails.
    pub fn new(alloc: Global, named: Vec<NamedDisk>, failing: Vec<u64>) -> MemDisks
        ensures { disks_seen result ≡ record {
          faults = 0;
          calls = Some [];
          holds = λ name. Some (content_named named.items name);
          disks = record { lent = 0; back = [] };
        } }
    {
        MemDisks {
            alloc,
            named,
            first: None,
            failing: FailingCalls::of(failing),
            calls: Vec::new(alloc),
            disks: Shelf::new(alloc),
        }
    }

    /// The same, where the next disk that it gives fails so.
    pub fn with_failures(self, failures: Failures) -> MemDisks
        ensures { disks_seen result ≡ disks_seen self }
    {
        let mut disks = self;
        disks.first = Some(failures);
        disks
    }

    /// The names that were asked for so far, in their order.
    pub fn calls(&self) -> &[Name]
        ensures { Some result.now ≡ (disks_seen self.now).calls }
    {
        &self.calls
    }

    /// The disks that came back, in their order.
    pub fn disks(&self) -> &[MemDisk]
        ensures { result.now ≡ (disks_seen self.now).disks.back }
    {
        self.disks.items()
    }
}

/// What the first disk of this name holds.
fn content_under<'a>(named: &'a [NamedDisk], name: &str) -> &'a [u8]
    ensures { result.now ≡ content_named named.now name.now }
{
    match named {
        [] => &[],
        [disk, rest @ ..] => {
            if disk.name.text() == name {
                &disk.content
            } else {
                content_under(rest, name)
            }
        }
    }
}

/// Tells one more name, for which there is room.
fn tell(calls: &mut Vec<Name>, name: Name)
    requires { vec_len calls.old < vec_capacity calls.old }
    ensures { calls.new.items ≡ calls.old.items ++ name ∷ [] }
{
    calls.push(name).unwrap();
}

/// A disk with this content, which fails so, if at all.
fn disk_of(alloc: Global, content: Vec<u8>, failures: Option<Failures>) -> MemDisk
    ensures { result ≡ fresh_disk content.items }
{
    let disk = MemDisk::new(alloc, content);
    match failures {
        Some(failures) => disk.with_failures(failures),
        None => disk,
    }
}

impl Disks for MemDisks {
    type Z = MemDisk;

    ghost seen = { disks_seen };

    fn open_disk(&mut self, name: &str) -> Result<MemDisk, HostError> {
        let Ok(named) = Name::of(self.alloc, name) else {
            return Err(HostError::Memory);
        };
        let Ok(content) = Vec::from_slice(self.alloc, content_under(&self.named, name)) else {
            return Err(HostError::Memory);
        };
        if self.calls.reserve(1).is_err() {
            return Err(HostError::Memory);
        }
        if self.disks.lend().is_err() {
            return Err(HostError::Memory);
        }
        tell(&mut self.calls, named);
        if self.failing.next_fails() {
            self.disks.unlend();
            return Err(HostError::Failed);
        }
        Ok(disk_of(self.alloc, content, self.first.take()))
    }

    fn done_disk(&mut self, disk: MemDisk) {
        self.disks.take_back(disk);
    }
}
