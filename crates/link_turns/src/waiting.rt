//! How long a peer is waited for.

ghost use Rattle.std.specs.Prelude.{◌≡◌, ◌<◌, length};
ghost use Rattle.pool_io.specs.Outside.{IsWithinRoom};

use pool_io::{MOST_BYTES, Took};
use pool_network::Link;

/// What was waited for too long, or came too often.
#[derive(Clone, Copy)]
pub enum Limit {
    /// So many Idle turns came in a row.
    IdleOut,
    /// So many bytes came.
    BytesOut,
}

/// How many Idle turns in a row, and how many bytes, are still taken.
#[derive(Drop)]
pub struct Waiting {
    /// So many Idle turns in a row are the limit.
    pub idle_turns: u64,
    /// So many more of them are.
    pub idles: u64,
    /// So many more bytes are the other limit.
    pub bytes: u64,
}

impl Waiting {
    ghost use Rattle.link_turns.specs.Waits.{IsBelowLimits, IsLimitOf, IsNearer, TakesOf, new_waiting, waiting_after};

    /// Before the first turn. `MOST_BYTES` bytes are the limit.
    pub fn new(idle_turns: u64) -> Waiting
        ensures { result ≡ new_waiting idle_turns }
    {
        Waiting {
            idle_turns,
            idles: idle_turns,
            bytes: MOST_BYTES,
        }
    }

    /// Counts a turn that was taken.
    fn count(&mut self, took: Took)
        requires below { IsBelowLimits self.old }
        requires within { IsWithinRoom took self.old.bytes }
        ensures counted { self.new ≡ waiting_after took self.old }
        ensures nearer { IsNearer took self.old self.new }
    {
        match took {
            Took::Bytes(count) => {
                self.idles = self.idle_turns;
                self.bytes -= count as u64;
            }
            Took::Idle => self.idles -= 1,
            Took::End | Took::Failed => {}
        }
    }

    /// Takes the next turn of a link, and counts it. No more bytes are taken than the limit leaves.
    pub fn take<L: Link>(&mut self, link: &mut L, buffer: &mut [u8]) -> Took
        requires below { IsBelowLimits self.old }
        requires room { 0 < length buffer.old }
        ensures bound { IsWithinRoom result (length buffer.new) }
        ensures within { IsWithinRoom result self.old.bytes }
        ensures takes { TakesOf result buffer.new (L.seen link.old) (L.seen link.new) }
        ensures counted { self.new ≡ waiting_after result self.old }
        ensures nearer { IsNearer result self.old self.new }
    {
        let room = buffer.len().min(self.bytes as usize);
        let took = link.take(&mut buffer[..room]);
        self.count(took);
        took
    }

    /// Whether another turn may be taken, or which limit was reached.
    pub fn limit(&self) -> Option<Limit>
        ensures { IsLimitOf self.now result }
    {
        if self.idles == 0 {
            return Some(Limit::IdleOut);
        }
        if self.bytes == 0 {
            return Some(Limit::BytesOut);
        }
        None
    }
}
