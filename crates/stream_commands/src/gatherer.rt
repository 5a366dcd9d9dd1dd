//! Bytes that come piece by piece, kept as they are.

use crate::{Stop, StreamCommand};
use std::alloc::{AllocError, Global};

/// Tells the bytes that it reads, and refuses more than its limit.
#[derive(Drop)]
pub struct Gatherer {
    pub most: u64,
    pub taken: u64,
}

impl StreamCommand for Gatherer {
    ghost use Rattle.std.specs.Prelude.{◌≤◌, ◌≡◌, length};
    ghost use Rattle.stream_commands.specs.Gathering.{IsGathered, gathering_duty};
    ghost use Rattle.stream_commands.specs.Sound.{gathering_is_sound};

    /// The most bytes that are kept.
    type Task = u64;

    ghost can_run = { λ _. Unit {0} };

    ghost duty = { gathering_duty };

    ghost asked = { λ gatherer. gatherer.most };

    ghost is_ready = { λ gatherer. gatherer.taken ≤ gatherer.most };

    ghost has_read = { λ gatherer bytes text. IsGathered gatherer.most bytes text
        × (length bytes ≡ gatherer.taken) };

    fn start(_alloc: Global, most: &u64) -> Result<Gatherer, AllocError> {
        Ok(Gatherer {
            most: *most,
            taken: 0,
        })
    }

    fn read(&mut self, piece: &[u8], text: &mut Vec<u8>) -> Result<(), Stop> {
        if piece.len() as u64 > self.most - self.taken {
            return Err(Stop::Refused);
        }
        text.extend_from_slice(piece)?;
        self.taken += piece.len() as u64;
        Ok(())
    }

    fn end(&mut self, _text: &mut Vec<u8>) -> Result<(), Stop> {
        Ok(())
    }

    ghost owes_so_far = { λ gatherer bytes text read. read.0 };

    ghost is_sound = { gathering_is_sound };
}
