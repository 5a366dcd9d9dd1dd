//! The table of what was foreseen.

ghost use Rattle.std.specs.Prelude.{◌≡◌, ◌↔◌, IsTrue, IsSome, IfSome, Contains};
ghost use Rattle.block_header.specs.Hash.{dsha};

use crate::fronts::KeptFront;
use std::marker::Model;

/// Four headers with their double hashes, which contracts see as the headers.
#[derive(Drop)]
pub struct Foreseen {
    headers: [[u8; 80]; 4],
    hashes: [[u8; 32]; 4],
    front: KeptFront,
}

impl Model for Foreseen {
    ghost use Rattle.std.specs.Prelude.{ℕ, List};
    ghost use Rattle.stream_programs.specs.Fronts.{HaveHashes};

    ghost Value = { List (List ℕ) };

    ghost view = { λ foreseen. foreseen.headers };

    ghost invariant = { λ foreseen. HaveHashes foreseen.headers foreseen.hashes };
}

impl Foreseen {
    /// Hashes four headers at once.
    pub fn of(headers: &[[u8; 80]; 4]) -> Foreseen
        ensures { result ≡ headers.now }
    {
        let mut front = KeptFront::of(&[0; 64]);
        Foreseen {
            headers: *headers,
            hashes: front.hashes(headers),
            front,
        }
    }

    /// Hashes four headers at once, and forgets those before.
    pub fn foresee(&mut self, headers: &[[u8; 80]; 4])
        ensures { self.new ≡ headers.now }
    {
        self.hashes = self.front.hashes(headers);
        self.headers = *headers;
    }

    /// The double hash of a header that was foreseen.
    pub fn find(&self, header: &[u8; 80]) -> Option<[u8; 32]>
        ensures hash { IfSome result (λ hash. hash ≡ dsha header.now) }
        ensures found { IsSome result ↔ Contains self.now header.now }
    {
        'lanes: for i in 0..4 {
            if is_same(&self.headers[i], header) {
                return Some(self.hashes[i]);
            }
        }
        None
    }
}

fn is_same(header: &[u8; 80], other: &[u8; 80]) -> bool
    ensures { IsTrue result ↔ (header.now ≡ other.now) }
{
    header == other
}
