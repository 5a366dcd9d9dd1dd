//! Double hashes of four headers, which mostly begin alike.

ghost use Rattle.std.specs.Prelude.{◌≡◌, ◌↔◌, IsTrue, map, take, drop};
ghost use Rattle.block_header.specs.Hash.{dsha};
ghost use Rattle.stream_programs.specs.Fronts.{BeginWith};
ghost use Rattle.sha256_lanes.specs.Lanes.{IsBehind};

use sha256_lanes::{Kept, double_80};

/// The first 64 bytes of the headers that came last, and what is kept of them. Headers of one job
/// and version have them alike.
#[derive(Clone, Copy)]
pub struct KeptFront {
    front: [u8; 64],
    kept: Kept,
    ghost behind: { IsBehind front kept },
}

impl KeptFront {
    pub fn of(front: &[u8; 64]) -> KeptFront
        ensures { result.front ≡ front.now }
    {
        KeptFront {
            front: *front,
            kept: Kept::behind(front),
        }
    }

    /// The double hashes of the headers. What they begin with is hashed once where it is the same.
    pub fn hashes(&mut self, headers: &[[u8; 80]; 4]) -> [[u8; 32]; 4]
        ensures { result ≡ map dsha headers.now }
    {
        let front = front_of(&headers[0]);
        if !begin_with(headers, &front) {
            return double_80(headers);
        }
        self.turn_to(&front);
        self.kept.double_80(&tails_of(headers))
    }

    fn turn_to(&mut self, front: &[u8; 64])
        ensures { self.new.front ≡ front.now }
    {
        if !is_same(&self.front, front) {
            *self = KeptFront::of(front);
        }
    }
}

fn is_same(front: &[u8; 64], other: &[u8; 64]) -> bool
    ensures { IsTrue result ↔ (front.now ≡ other.now) }
{
    front == other
}

fn front_of(header: &[u8; 80]) -> [u8; 64]
    ensures { result ≡ take 64 header.now }
{
    let mut front = [0; 64];
    front.copy_from_slice(&header[..64]);
    front
}

fn tail_of(header: &[u8; 80]) -> [u8; 16]
    ensures { result ≡ drop 64 header.now }
{
    let mut tail = [0; 16];
    tail.copy_from_slice(&header[64..]);
    tail
}

fn tails_of(headers: &[[u8; 80]; 4]) -> [[u8; 16]; 4]
    ensures { result ≡ map (drop 64) headers.now }
{
    [
        tail_of(&headers[0]),
        tail_of(&headers[1]),
        tail_of(&headers[2]),
        tail_of(&headers[3]),
    ]
}

fn begins_with(header: &[u8; 80], front: &[u8; 64]) -> bool
    ensures { IsTrue result ↔ (take 64 header.now ≡ front.now) }
{
    header[..64] == front[..]
}

fn begin_with(headers: &[[u8; 80]; 4], front: &[u8; 64]) -> bool
    ensures { IsTrue result → BeginWith front.now headers.now }
{
    begins_with(&headers[0], front)
        && begins_with(&headers[1], front)
        && begins_with(&headers[2], front)
        && begins_with(&headers[3], front)
}
