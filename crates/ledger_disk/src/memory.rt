//! A disk in memory. It keeps what it did, so that it can crash.

ghost use Rattle.std.specs.Prelude.{◌≡◌, ◌⊎◌, ◌≤◌, ◌↔◌, ◌<◌, ◌+◌, Contains, IfOk, IsTrue, OnOk, Some, length, max, vec_capacity};
ghost use Rattle.std.specs.Option.{option_map};
ghost use Rattle.pool_io.specs.Outside.{CountsFailure};
ghost use Rattle.ledger_disk.specs.Calls.{fresh_disk, is_failed_call};
ghost use Rattle.ledger_disk.specs.Memory.{CutsOff, IsLeftBy, WritesOver};
ghost use Rattle.ledger_disk.specs.Moments.{last_content};

use crate::past::Past;
use crate::tearing::put_over;
use crate::{Disk, DiskFailed, Doing};
use pool_io::FailingCalls;
use std::alloc::{AllocError, Global};
use std::marker::Model;

/// Which calls of a disk fail, the first being number 0, and how much they do all the same.
#[derive(Drop)]
pub struct Failures {
    /// The numbers of calls that fail.
    pub listed: Vec<u64>,
    /// From this many calls on, every call fails.
    pub from: u64,
    /// A write that fails writes its first so many bytes, and a cut that fails cuts off the last so
    /// many.
    pub part: u64,
}

/// Does each call at once, and tells it. It fails as it is told to.
#[derive(Drop)]
pub struct MemDisk {
    alloc: Global,
    past: Past,
    failing: FailingCalls,
    from: u64,
    part: u64,
}

impl Model for MemDisk {
    ghost use Rattle.std.specs.Prelude.{Some};
    ghost use Rattle.ledger_disk.specs.Calls.{DiskSeen};

    ghost Value = { DiskSeen };

    ghost view = { λ d. record { faults = d.failing.faults; log = Some d.past.log } };
}

impl MemDisk {
    /// A disk with these bytes, all of them on it for good. None of its calls fails.
    pub fn new(alloc: Global, content: Vec<u8>) -> MemDisk
        ensures { result ≡ fresh_disk content.items }
    {
        MemDisk {
            alloc,
            past: Past::new(alloc, content),
            failing: FailingCalls::of(Vec::new(alloc)),
            from: u64::MAX,
            part: 0,
        }
    }

    /// The same disk, of whose calls from here on these fail.
    pub fn with_failures(self, failures: Failures) -> MemDisk
        ensures { result ≡ record self { faults = 0 } }
    {
        let mut disk = self;
        disk.failing = FailingCalls::of(failures.listed);
        disk.from = failures.from;
        disk.part = failures.part;
        disk
    }

    /// What a read gives.
    pub fn content(&self) -> &[u8]
        ensures { option_map last_content self.now.log ≡ Some result.now }
    {
        self.past.content()
    }

    /// One of the disks that a crash may leave now, without memory. Each call behind the last sync
    /// takes another byte of the pick, from the lowest on and round again: for 0 it is done, for 1 it
    /// isn't, for greater odd numbers it is done in part, and for even ones the places that it wrote
    /// hold junk. None of that disk's calls fails.
    pub fn crash(self, pick: u64) -> MemDisk
        ensures { IsLeftBy self result }
    {
        let MemDisk { alloc, past, .. } = self;
        MemDisk::new(alloc, past.left(pick))
    }
}

/// Whether the next call fails; it is counted.
fn next_fails(failing: &mut FailingCalls, from: u64) -> bool
    ensures listed { IsTrue result
        ↔ (Contains failing.old.failing.items failing.old.calls ⊎ (from ≤ failing.old.calls)) }
    ensures counts { CountsFailure result failing.old.faults failing.new.faults }
{
    let is_late = from <= failing.calls;
    let fails = failing.next_fails();
    if is_late && !fails {
        failing.faults = failing.faults.saturating_add(1);
    }
    is_late || fails
}

/// A copy of what a read gives, with room for so many bytes; and room for one more call.
fn next_content(alloc: Global, past: &mut Past, size: usize) -> Result<Vec<u8>, AllocError>
    requires { length (last_content past.old.log) ≤ size }
    ensures log { past.new.log ≡ past.old.log }
    ensures same { IfOk result (λ content. content.items ≡ last_content past.old.log) }
    ensures room { IfOk result (λ content. size ≤ vec_capacity content) }
    ensures place { OnOk result (0 < past.new.places) }
    ensures spare { OnOk result (size ≤ past.new.room) }
{
    let mut content = Vec::with_capacity(alloc, size)?;
    content.extend_from_slice(past.content()).unwrap();
    past.reserve(size)?;
    Ok(content)
}

/// Writes bytes over a content, or the first few of them where the write fails.
fn write_over(
    content: &mut Vec<u8>,
    at: u64,
    bytes: &[u8],
    fails: bool,
    part: u64,
) -> Result<(), DiskFailed>
    requires inside { at ≤ length content.old.items }
    requires room { at + length bytes.now ≤ vec_capacity content.old }
    ensures writes { WritesOver at bytes.now result content.old.items content.new.items }
    ensures answer { is_failed_call result ≡ fails }
    ensures size { length content.new.items ≤ max (length content.old.items) (at + length bytes.now) }
{
    if fails {
        let done = bytes.len().min(part as usize);
        put_over(content, at as usize, &bytes[..done]);
        return Err(DiskFailed::Failed);
    }
    put_over(content, at as usize, bytes);
    Ok(())
}

/// Cuts a content, or a few bytes off its end where the cut fails.
fn cut_off(content: &mut Vec<u8>, count: u64, fails: bool, part: u64) -> Result<(), DiskFailed>
    ensures cuts { CutsOff count result content.old.items content.new.items }
    ensures answer { is_failed_call result ≡ fails }
    ensures size { length content.new.items ≤ length content.old.items }
{
    if fails {
        let least = content.len().saturating_sub(part as usize);
        content.truncate(least.max(count as usize));
        return Err(DiskFailed::Failed);
    }
    content.truncate(count as usize);
    Ok(())
}

impl Disk for MemDisk {
    ghost seen = { λ d. d };

    fn length(&mut self) -> Result<u64, DiskFailed> {
        if next_fails(&mut self.failing, self.from) {
            return Err(DiskFailed::Failed);
        }
        Ok(self.past.content().len() as u64)
    }

    fn read_at(&mut self, at: u64, buffer: &mut [u8]) -> Result<(), DiskFailed> {
        if next_fails(&mut self.failing, self.from) {
            return Err(DiskFailed::Failed);
        }
        let from = at as usize;
        buffer.copy_from_slice(&self.past.content()[from..from + buffer.len()]);
        Ok(())
    }

    fn write_at(&mut self, at: u64, bytes: &[u8]) -> Result<(), DiskFailed> {
        let size = self.past.content().len().max(at as usize + bytes.len());
        let Ok(mut content) = next_content(self.alloc, &mut self.past, size) else {
            return Err(DiskFailed::Memory);
        };
        let fails = next_fails(&mut self.failing, self.from);
        let answer = write_over(&mut content, at, bytes, fails, self.part);
        let count = bytes.len() as u64;
        self.past.push(Doing::Wrote { at, count }, content);
        answer
    }

    fn cut(&mut self, count: u64) -> Result<(), DiskFailed> {
        let size = self.past.content().len();
        let Ok(mut content) = next_content(self.alloc, &mut self.past, size) else {
            return Err(DiskFailed::Memory);
        };
        let fails = next_fails(&mut self.failing, self.from);
        let answer = cut_off(&mut content, count, fails, self.part);
        self.past.push(Doing::CutTo { length: count }, content);
        answer
    }

    fn sync(&mut self) -> Result<(), DiskFailed> {
        let size = self.past.content().len();
        let Ok(content) = next_content(self.alloc, &mut self.past, size) else {
            return Err(DiskFailed::Memory);
        };
        if next_fails(&mut self.failing, self.from) {
            return Err(DiskFailed::Failed);
        }
        self.past.push(Doing::Synced, content);
        Ok(())
    }
}
