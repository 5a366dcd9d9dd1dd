//! All of a piece, put in as many calls as the link wants.

ghost use Rattle.std.specs.Prelude.{◌≡◌, ℕ, List, OnOk, OnErr};
ghost use Rattle.pool_base.specs.Lists.{Begins};
ghost use Rattle.pool_io.specs.Outside.{AddsBytes, CountsFailure, is_failed_put};

use crate::link::Link;
use pool_io::SinkFailed;

/// Puts all bytes. After an `Err` the peer has some front of them.
pub fn put_whole<L: Link>(link: &mut L, bytes: &[u8]) -> Result<(), SinkFailed>
    ensures ok { OnOk result (AddsBytes (L.seen link.old).sink.held (L.seen link.new).sink.held
        bytes.now) }
    ensures err { OnErr result ((front : List ℕ) × Begins front bytes.now
        × AddsBytes (L.seen link.old).sink.held (L.seen link.new).sink.held front) }
    ensures counts { CountsFailure (is_failed_put result) (L.seen link.old).sink.faults
        (L.seen link.new).sink.faults }
    ensures source { (L.seen link.new).source ≡ (L.seen link.old).source }
{
    let mut rest = bytes;
    while !rest.is_empty() {
        let count = link.put(rest)?;
        rest = &rest[count..];
    }
    Ok(())
}
