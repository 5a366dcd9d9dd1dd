//! Four shares with their headers.

ghost use Rattle.std.specs.Prelude.{◌≡◌, IsTrue, IfSome};
ghost use Rattle.block_header.specs.Hash.{dsha};
ghost use Rattle.pool_history.specs.Headers.{Briefing};
ghost use Rattle.share_headers.specs.Foreseeing.{HaveHeaders, share_header};

use pool_history::{Kind, Lead, Submission};

/// A share that may come, and what its channel gives to its header.
#[derive(Clone, Copy)]
pub struct Candidate {
    pub sub: Submission,
    pub lead: Lead,
    pub kind: Kind,
}

/// Four shares of one job, the header of each and its double hash.
#[derive(Drop)]
pub(crate) struct Four {
    pub(crate) candidates: [Candidate; 4],
    pub(crate) headers: [[u8; 80]; 4],
    pub(crate) hashes: [[u8; 32]; 4],
}

impl Four {
    /// The header of a share that is one of them, with its double hash.
    pub(crate) fn find(&self, candidate: &Candidate) -> Option<([u8; 80], [u8; 32])>
        ensures { (brief : Briefing)
            → HaveHeaders brief self.now.candidates self.now.headers self.now.hashes
            → IfSome result (λ found. (found.0 ≡ share_header brief candidate.now)
            × (found.1 ≡ dsha found.0)) }
    {
        'lanes: for i in 0..4 {
            if is_same(&self.candidates[i], candidate) {
                return Some((self.headers[i], self.hashes[i]));
            }
        }
        None
    }
}

/// Whether two shares have the same header by each job.
fn is_same(candidate: &Candidate, other: &Candidate) -> bool
    ensures { IsTrue result
        → (brief : Briefing) → share_header brief candidate.now ≡ share_header brief other.now }
{
    candidate.kind == other.kind
        && candidate.lead.bytes() == other.lead.bytes()
        && candidate.sub.version == other.sub.version
        && candidate.sub.ntime == other.sub.ntime
        && candidate.sub.nonce == other.sub.nonce
        && candidate.sub.extranonce_len == other.sub.extranonce_len
        && candidate.sub.extranonce == other.sub.extranonce
}
