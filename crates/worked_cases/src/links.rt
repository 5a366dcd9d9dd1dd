//! Links that wait for each other, so that sessions meet in one process, and the doors to them.

use pool_io::{FailingCalls, SinkFailed, Took};
use pool_network::{Came, Door, Link, MemDoor};
use std::collections::VecDeque;
use std::sync::atomic::{AtomicU64, Ordering};
use std::thread;

/// How far a link is.
#[derive(Drop)]
pub struct Progress {
    /// How many bytes its peer has taken.
    pub taken: AtomicU64,
    /// How many of its frames were met: more was asked for behind them.
    pub met: AtomicU64,
}

impl Progress {
    pub fn new() -> Progress {
        Progress {
            taken: AtomicU64::new(0),
            met: AtomicU64::new(0),
        }
    }
}

/// Lets the other threads come on: a command without settings waits for a certain number of Idle turns, which
/// pass here without a clock.
fn linger() {
    for _turn in 0..40 {
        thread::yield_now();
    }
}

/// How far a link has to be for a gate to open.
#[derive(Clone, Copy)]
pub enum Gate {
    /// So many bytes were put to it.
    Taken(u64),
    /// So many of its frames were met.
    Met(u64),
}

/// A frame that comes once the link at a place is so far. One without bytes is the end.
#[derive(Drop)]
pub struct Gated {
    pub place: usize,
    pub gate: Gate,
    pub frame: Vec<u8>,
    /// How many of the frame's bytes have come.
    pub given: usize,
}

/// Brings frames, each once its gate is open, and is Idle until then; some of its calls fail. It tells nothing
/// else.
#[derive(Drop)]
pub struct GatedLink<'a> {
    pub coming: VecDeque<Gated>,
    pub held: Vec<u8>,
    pub place: usize,
    /// How many frames were given whole.
    pub given: u64,
    pub takes: FailingCalls,
    pub puts: FailingCalls,
    /// Whether there are no more turns. What is put then is lost.
    pub is_over: bool,
    /// How far each link is, by its place.
    pub progress: &'a [Progress],
}

impl GatedLink<'_> {
    /// Whether the next frame may come.
    fn is_open(&self, gated: &Gated) -> bool {
        let progress = self.progress;
        let Some(link) = progress.get(gated.place) else {
            return false;
        };
        match gated.gate {
            Gate::Taken(bytes) => link.taken.load(Ordering::Acquire) >= bytes,
            Gate::Met(frames) => link.met.load(Ordering::Acquire) >= frames,
        }
    }

    /// Tells the others that what was given is met.
    fn meet(&self) {
        let progress = self.progress;
        if let Some(link) = progress.get(self.place) {
            link.met.store(self.given, Ordering::Release);
        }
    }
}

impl Link for GatedLink<'_> {
    ghost use Rattle.std.specs.Prelude.{None};

    ghost seen = { λ link. record {
      source = record { faults = link.takes.faults; left = None };
      sink = record { faults = link.puts.faults; held = None };
    } };

    fn take(&mut self, buffer: &mut [u8]) -> Took {
        if self.takes.next_fails() {
            return Took::Failed;
        }
        if self.is_over {
            return Took::End;
        }
        self.meet();
        let Some(mut gated) = self.coming.pop_front() else {
            return Took::End;
        };
        let is_open = self.is_open(&gated);
        let rest = gated.frame.get(gated.given..).unwrap_or(b"");
        let count = if is_open {
            rest.len().min(buffer.len())
        } else {
            0
        };
        buffer[..count].copy_from_slice(&rest[..count]);
        let is_whole = is_open && count == rest.len();
        gated.given = gated.given.saturating_add(count);
        if is_whole {
            self.given = self.given.saturating_add(1);
        } else if self.coming.push_front(gated).is_err() {
            return Took::End;
        }
        match (is_open, count) {
            (false, _) => {
                linger();
                Took::Idle
            }
            (true, 0) => Took::End,
            (true, _) => Took::Bytes(count),
        }
    }

    fn put(&mut self, piece: &[u8]) -> Result<usize, SinkFailed> {
        if self.puts.next_fails() {
            return Err(SinkFailed::Failed);
        }
        if self.is_over {
            return Ok(piece.len());
        }
        if self.held.extend_from_slice(piece).is_err() {
            return Err(SinkFailed::Memory);
        }
        let progress = self.progress;
        if let Some(link) = progress.get(self.place) {
            link.taken.fetch_add(piece.len() as u64, Ordering::Release);
        }
        Ok(piece.len())
    }

    fn hang_up(&mut self) {
        self.is_over = true;
    }
}

/// A door in memory, or one that has no memory for anybody. It tells nothing.
#[derive(Drop)]
pub struct CaseDoor<'a> {
    door: MemDoor<GatedLink<'a>>,
    is_starved: bool,
    asked: u64,
}

impl<'a> CaseDoor<'a> {
    pub fn new(door: MemDoor<GatedLink<'a>>, is_starved: bool) -> CaseDoor<'a> {
        CaseDoor {
            door,
            is_starved,
            asked: 0,
        }
    }

    /// The connections that came back, in their order.
    pub fn links(&self) -> &[GatedLink<'a>] {
        self.door.links()
    }

    /// How often it was asked.
    pub fn asked(&self) -> u64 {
        self.asked
    }
}

impl<'a> Door for CaseDoor<'a> {
    ghost use Rattle.std.specs.Prelude.{None};

    type L = GatedLink<'a>;

    ghost seen = { λ door. record {
      faults = door.door.failing.faults;
      asked = door.asked;
      coming = None;
      out = door.door.links.lent;
      back = None;
    } };

    fn accept(&mut self) -> Came<GatedLink<'a>> {
        self.asked = self.asked.saturating_add(1);
        if self.is_starved {
            return Came::Memory;
        }
        self.door.accept()
    }

    fn done(&mut self, link: GatedLink<'a>) {
        self.door.done(link);
    }
}
