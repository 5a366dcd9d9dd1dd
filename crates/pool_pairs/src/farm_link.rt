//! A miner of Stratum V1 that says its lines by itself.

use crate::pair_link::PairLink;
use pool_io::{SinkFailed, Took};
use pool_network::Link;
use std::alloc::Global;
use std::sync::Wait;
use std::sync::atomic::{AtomicU64, Ordering};
use std::{str, thread};

const SUBSCRIBE: &[u8] = b"{\"id\":1,\"method\":\"mining.subscribe\",\"params\":[]}\n";

const AUTHORIZE: &[u8] = b"{\"id\":2,\"method\":\"mining.authorize\",\"params\":[\"rig\",\"\"]}\n";

const SHARES: &[u8] = b"\
{\"id\":3,\"method\":\"mining.submit\",\"params\":[\"rig\",\"1\",\"000000000000\",\"000f4240\",\"00000000\"]}\n\
{\"id\":4,\"method\":\"mining.submit\",\"params\":[\"rig\",\"1\",\"000000000001\",\"000f4240\",\"00000000\"]}\n";

/// Lets the other threads come to the proxy's desk, which each Idle turn of a link asks.
fn linger() {
    for _turn in 0..100 {
        thread::yield_now();
    }
}

/// What a miner waits for.
#[derive(Clone, Copy, PartialEq, Eq)]
enum Step {
    Beginning,
    Subscribing,
    Meeting,
    Authorizing,
    Submitting,
    Gone,
}

/// How many miners there are.
pub(crate) const MINERS: u64 = 2;

/// How many of the miners have come so far that they have a job to search, and how many are gone.
#[derive(Drop)]
pub(crate) struct Farm {
    there: AtomicU64,
    gone: AtomicU64,
}

impl Farm {
    pub(crate) fn new() -> Farm {
        Farm {
            there: AtomicU64::new(0),
            gone: AtomicU64::new(0),
        }
    }
}

/// A connection on which a miner subscribes, until there is an upstream, authorizes once all miners have a job
/// to search, so that each has a lead of its own, submits two shares, and ends once both were answered. It tells
/// nothing.
#[derive(Drop)]
pub(crate) struct FarmLink<'a> {
    farm: &'a Farm,
    step: Step,
    /// What is left to say of the lines that it says.
    saying: &'static [u8],
    held: Vec<u8>,
}

impl<'a> FarmLink<'a> {
    pub(crate) fn new(alloc: Global, farm: &'a Farm) -> FarmLink<'a> {
        FarmLink {
            farm,
            step: Step::Beginning,
            saying: b"",
            held: Vec::new(alloc),
        }
    }

    /// Whether it was told this.
    fn was_told(&self, words: &str) -> bool {
        match str::from_utf8(self.held.as_slice()) {
            Ok(text) => text.find(words).is_some(),
            Err(_) => false,
        }
    }

    /// What it says next, where it has heard what it waits for.
    fn next_lines(&mut self) -> &'static [u8] {
        match self.step {
            Step::Beginning => {
                self.step = Step::Subscribing;
                SUBSCRIBE
            }
            Step::Subscribing if self.was_told("no upstream") => {
                self.held.clear();
                SUBSCRIBE
            }
            Step::Subscribing if self.was_told("\"method\":\"mining.notify\"") => {
                self.step = Step::Meeting;
                self.farm.there.fetch_add(1, Ordering::Release);
                b""
            }
            Step::Meeting if self.farm.there.load(Ordering::Acquire) >= MINERS => {
                self.step = Step::Authorizing;
                AUTHORIZE
            }
            Step::Authorizing if self.was_told("\"id\":2,\"result\":true") => {
                self.step = Step::Submitting;
                SHARES
            }
            Step::Submitting if self.has_answers() => {
                self.step = Step::Gone;
                self.farm.gone.fetch_add(1, Ordering::Release);
                b""
            }
            _ => b"",
        }
    }

    /// Whether it was given this lead behind the upstream's prefix, and six bytes to roll.
    pub(crate) fn has_lead(&self, lead_and_size: &str) -> bool {
        self.was_told(lead_and_size)
    }

    /// Whether both shares were credited.
    pub(crate) fn has_answers(&self) -> bool {
        self.was_told("\"id\":3,\"result\":true") && self.was_told("\"id\":4,\"result\":true")
    }
}

impl Link for FarmLink<'_> {
    ghost use Rattle.std.specs.Prelude.{None};

    ghost seen = { λ _. record {
      source = record { faults = 0; left = None };
      sink = record { faults = 0; held = None };
    } };

    fn take(&mut self, buffer: &mut [u8]) -> Took {
        if self.saying.is_empty() {
            self.saying = self.next_lines();
        }
        let count = self.saying.len().min(buffer.len());
        if self.step == Step::Gone {
            return Took::End;
        }
        if count == 0 {
            linger();
            return Took::Idle;
        }
        buffer[..count].copy_from_slice(&self.saying[..count]);
        self.saying = &self.saying[count..];
        Took::Bytes(count)
    }

    fn put(&mut self, piece: &[u8]) -> Result<usize, SinkFailed> {
        match self.held.extend_from_slice(piece) {
            Ok(()) => Ok(piece.len()),
            Err(_) => Err(SinkFailed::Memory),
        }
    }

    fn hang_up(&mut self) {}
}

/// A link of the proxy, whose links are all of one type: a miner's; or its upstream's, whose input ends once
/// all miners are gone. A proxy and the session that serves it each go on until the other one leaves, so one of
/// them has to be told when all has been said.
#[derive(Drop)]
pub(crate) enum HallLink<'a, R: Wait> {
    Miner(FarmLink<'a>),
    Upstream { link: PairLink<R>, farm: &'a Farm },
}

impl<R: Wait> Link for HallLink<'_, R> {
    ghost use Rattle.std.specs.Prelude.{None};

    ghost seen = { λ _. record {
      source = record { faults = 0; left = None };
      sink = record { faults = 0; held = None };
    } };

    fn take(&mut self, buffer: &mut [u8]) -> Took {
        match self {
            HallLink::Miner(miner) => miner.take(buffer),
            HallLink::Upstream { link, farm } => {
                if farm.gone.load(Ordering::Acquire) >= MINERS {
                    return Took::End;
                }
                let took = link.take(buffer);
                if took == Took::Idle {
                    linger();
                }
                took
            }
        }
    }

    fn put(&mut self, piece: &[u8]) -> Result<usize, SinkFailed> {
        match self {
            HallLink::Miner(miner) => miner.put(piece),
            HallLink::Upstream { link, .. } => link.put(piece),
        }
    }

    fn hang_up(&mut self) {
        match self {
            HallLink::Miner(miner) => miner.hang_up(),
            HallLink::Upstream { link, .. } => link.hang_up(),
        }
    }
}
