//! Parts that are kept, and borrowed again.

ghost use Rattle.std.specs.Prelude.{◌≡◌, ◌↔◌, IfOk, IsTrue};
ghost use Rattle.pool_history.specs.declared.shares.RootSource.{RootSource};
ghost use Rattle.share_headers.specs.Roots.{HaveSameBytes};

use crate::parts::Parts;
use pool_history::{Brief, RootSource};
use std::alloc::{AllocError, Global};
use std::sync::Arc;

/// The parts, kept: the brief shares what the job gives to the root, and copies nothing of it.
pub fn brief_of(parts: &Parts<'_>) -> Result<Brief, AllocError>
    ensures { IfOk result (λ brief. brief ≡ parts.now) }
{
    Ok(Brief {
        root: Arc::try_clone(parts.root)?,
        prev_hash: parts.prev_hash,
        nbits: parts.nbits,
        lead: parts.lead,
        kind: parts.kind,
    })
}

/// The parts that a brief keeps, borrowed from it.
pub fn parts_of(brief: &Brief) -> Parts<'_>
    ensures { result ≡ brief.now }
{
    Parts {
        root: &brief.root,
        prev_hash: brief.prev_hash,
        nbits: brief.nbits,
        lead: brief.lead,
        kind: brief.kind,
    }
}

/// Whether a brief has these parts. It takes no memory.
pub fn is_brief_of(brief: &Brief, parts: &Parts<'_>) -> bool
    ensures { IsTrue result ↔ (brief.now ≡ parts.now) }
{
    brief.kind == parts.kind
        && brief.nbits == parts.nbits
        && brief.lead.bytes() == parts.lead.bytes()
        && brief.prev_hash == parts.prev_hash
        && is_same_root(&*brief.root, &**parts.root)
}

/// Whether two jobs give the same bytes to a root.
fn is_same_root(root: &RootSource, other: &RootSource) -> bool
    ensures { IsTrue result ↔ HaveSameBytes root.now other.now }
{
    is_same_path(root.path.items(), other.path.items())
        && root.coinbase.prefix() == other.coinbase.prefix()
        && root.coinbase.suffix() == other.coinbase.suffix()
}

fn is_same_path(path: &[[u8; 32]], other: &[[u8; 32]]) -> bool
    ensures { IsTrue result ↔ (path.now ≡ other.now) }
{
    path == other
}
