//! The tries on a job.

ghost use Rattle.std.specs.Prelude.{◌≡◌};
ghost use Rattle.block_header.specs.Hash.{dsha, meets};
ghost use Rattle.test_miner.specs.Trying.{first_meeting, following, header_tried};

use block_header::{Header, dsha, meets_class};
use mining_msgs::NewMiningJob;
use sv2_types::U256;

/// A job that can be worked on, on a tip.
#[derive(Clone, Copy)]
pub struct CurrentJob {
    pub job: NewMiningJob,
    /// 32 bytes as they stand in a block header.
    pub prev_hash: U256,
    /// The compact target, as in the block header.
    pub nbits: u32,
    /// Seconds since 1970: the time that the tries begin with.
    pub min_ntime: u32,
}

/// What a try rolls of the header.
#[derive(Clone, Copy)]
pub struct Try {
    /// Seconds since 1970.
    pub ntime: u32,
    pub nonce: u32,
}

/// What came of some tries.
#[derive(Clone, Copy)]
pub struct Tries {
    /// The one that meets the class.
    pub found: Option<Try>,
    /// Where to go on.
    pub next: Option<Try>,
}

/// A share that was found.
#[derive(Clone, Copy)]
pub struct MinedShare {
    pub job: CurrentJob,
    pub at: Try,
    /// The sequence number of its submission.
    pub number: u32,
}

impl Try {
    /// The next try: by nonce, then by time. After the last time there is none.
    fn following(self) -> Option<Try>
        ensures { result ≡ following self }
    {
        if self.nonce < u32::MAX {
            Some(Try {
                ntime: self.ntime,
                nonce: self.nonce + 1,
            })
        } else if self.ntime < u32::MAX {
            Some(Try {
                ntime: self.ntime + 1,
                nonce: 0,
            })
        } else {
            None
        }
    }
}

/// Whether the header of a try meets the class.
fn meets(class: u8, job: &CurrentJob, at: Try) -> bool
    ensures { result ≡ meets (dsha (header_tried job.now at)) class }
{
    let header = Header {
        version: job.job.version,
        prev_hash: *job.prev_hash.bytes(),
        root: *job.job.merkle_root.bytes(),
        ntime: at.ntime,
        nbits: job.nbits,
        nonce: at.nonce,
    };
    meets_class(&dsha(&header.bytes()), class)
}

/// Makes at most so many tries from this one on, up to the first that meets the class.
pub(crate) fn make_tries(class: u8, job: &CurrentJob, tries: u32, from: Option<Try>) -> Tries
    ensures { result ≡ first_meeting class job.now tries from }
{
    let mut next = from;
    for _made in 0..tries {
        let Some(at) = next else {
            return Tries { found: None, next };
        };
        next = at.following();
        if meets(class, job, at) {
            return Tries {
                found: Some(at),
                next,
            };
        }
    }
    Tries { found: None, next }
}
