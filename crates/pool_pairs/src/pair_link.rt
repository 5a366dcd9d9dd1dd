//! Both ends of a connection within one process.

ghost use Rattle.std.specs.Prelude.{◌≡◌, ◌++◌, ◌<◌, length, OnErr, OnOk};
ghost use Rattle.pool_pairs.specs.Queues.{TakesFirst};

use pool_io::{SinkFailed, Took};
use pool_network::Link;
use std::alloc::{AllocError, Global};
use std::sync::{Arc, Mutex, Wait};
use std::thread;

/// What one end put and the other has not taken yet.
#[derive(Drop)]
pub(crate) struct Queue {
    bytes: Vec<u8>,
    /// Whether nothing more is put.
    has_ended: bool,
}

impl Queue {
    fn new(alloc: Global) -> Queue {
        Queue {
            bytes: Vec::new(alloc),
            has_ended: false,
        }
    }

    /// Takes the first bytes into the buffer, as many as there is room for.
    fn take(&mut self, buffer: &mut [u8]) -> Took
        requires { 0 < length buffer.old }
        ensures room { length buffer.new ≡ length buffer.old }
        ensures first { TakesFirst self.old self.new result buffer.new }
    {
        let count = self.bytes.len().min(buffer.len());
        if count == 0 {
            return if self.has_ended {
                Took::End
            } else {
                Took::Idle
            };
        }
        buffer[..count].copy_from_slice(&self.bytes[..count]);
        self.bytes.rotate_left(count);
        self.bytes.truncate(self.bytes.len() - count);
        Took::Bytes(count)
    }

    /// Puts bytes behind those that are there.
    fn put(&mut self, piece: &[u8]) -> Result<(), AllocError>
        ensures ok { OnOk result (self.new.bytes.items ≡ self.old.bytes.items ++ piece.now) }
        ensures err { OnErr result (self.new.bytes.items ≡ self.old.bytes.items) }
        ensures ended { self.new.has_ended ≡ self.old.has_ended }
    {
        self.bytes.extend_from_slice(piece)
    }
}

/// One end of a connection: it takes what the other end put, and is Idle where that is nothing for
/// now. It has the handle by which it waits for a queue, since a link is passed none. It tells
/// nothing.
#[derive(Drop)]
pub(crate) struct PairLink<R: Wait> {
    rt: R,
    incoming: Arc<Mutex<Queue>>,
    outgoing: Arc<Mutex<Queue>>,
}

impl<R: Wait> Link for PairLink<R> {
    ghost use Rattle.std.specs.Prelude.{None};

    ghost seen = { λ _. record {
      source = record { faults = 0; left = None };
      sink = record { faults = 0; held = None };
    } };

    fn take(&mut self, buffer: &mut [u8]) -> Took {
        let took = self.incoming.lock(&self.rt).take(buffer);
        if took == Took::Idle {
            thread::yield_now();
        }
        took
    }

    fn put(&mut self, piece: &[u8]) -> Result<usize, SinkFailed> {
        match self.outgoing.lock(&self.rt).put(piece) {
            Ok(()) => Ok(piece.len()),
            Err(_) => Err(SinkFailed::Memory),
        }
    }

    /// The other end finds its end behind what was put. Where an end is only let go, the other one
    /// stays Idle.
    fn hang_up(&mut self) {
        self.outgoing.lock(&self.rt).has_ended = true;
    }
}

/// A connection's two ends.
pub(crate) fn pair<R: Wait + Copy + Drop>(
    rt: R,
    alloc: Global,
) -> Result<(PairLink<R>, PairLink<R>), AllocError> {
    let one = Arc::new(alloc, Mutex::new(Queue::new(alloc)))?;
    let other = Arc::new(alloc, Mutex::new(Queue::new(alloc)))?;
    let first = PairLink {
        rt,
        incoming: Arc::try_clone(&one)?,
        outgoing: Arc::try_clone(&other)?,
    };
    let second = PairLink {
        rt,
        incoming: other,
        outgoing: one,
    };
    Ok((first, second))
}
