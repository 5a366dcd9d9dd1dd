//! The front of a header that most shares of a job have alike, hashed once.

ghost use Rattle.std.specs.Prelude.{◌≡◌};
ghost use Rattle.block_header.specs.Hash.{dsha};
ghost use Rattle.block_header.specs.Layout.{header_bytes};

use crate::judge::Job;
use sha2::{Digest, Sha256};
use std::marker::Model;

/// A version, and the hash's state behind the first 68 bytes of its headers: the version, the hash
/// of the block before and the merkle root. The first 64 of them are a block of SHA-256 (FIPS 180-4,
/// 5.2.1), and time and nonce come behind it.
#[derive(Drop)]
pub struct Front {
    version: u32,
    job: Job,
    state: Sha256,
}

impl Model for Front {
    ghost use Rattle.stream_programs.specs.FixedFronts.{HeaderFront};

    ghost Value = { HeaderFront };

    ghost use Rattle.stream_programs.specs.FixedFronts.{HoldsFront};

    ghost view = { λ front. record {
      version = front.version;
      job = front.job;
    } };

    ghost invariant = { λ front. HoldsFront front.version front.job front.state };
}

impl Front {
    pub fn new(version: u32, job: &Job) -> Front
        ensures version { result.version ≡ version }
        ensures job { result.job ≡ job.now }
    {
        let mut state = Sha256::new();
        state.update(version.to_le_bytes());
        state.update(&job.prev_hash);
        state.update(&job.root);
        Front {
            version,
            job: *job,
            state,
        }
    }

    pub fn version(&self) -> u32
        ensures { result ≡ self.now.version }
    {
        self.version
    }

    /// The double hash of the header with this time and nonce.
    pub fn hash(&self, ntime: u32, nonce: u32) -> [u8; 32]
        ensures { result ≡ dsha (header_bytes self.now.version self.now.job.prev_hash
            self.now.job.root ntime self.now.job.nbits nonce) }
    {
        let Ok(mut state) = self.state.clone() else {
            unreachable!();
        };
        state.update(ntime.to_le_bytes());
        state.update(self.job.nbits.to_le_bytes());
        state.update(nonce.to_le_bytes());
        Sha256::digest(state.finalize())
    }
}
