//! All of a piece, put in as many calls as the sink wants.

ghost use Rattle.std.specs.Prelude.{ℕ, List, OnOk, OnErr};
ghost use Rattle.pool_base.specs.Lists.{Begins};
ghost use Rattle.pool_io.specs.Outside.{AddsBytes, CountsFailure, is_failed_put};

use pool_io::{Sink, SinkFailed};

/// Puts all bytes. After an `Err` the sink has some front of them.
pub fn put_all<T: Sink>(sink: &mut T, bytes: &[u8]) -> Result<(), SinkFailed>
    ensures ok { OnOk result (AddsBytes (T.seen sink.old).held (T.seen sink.new).held bytes.now) }
    ensures err { OnErr result ((front : List ℕ) × Begins front bytes.now
        × AddsBytes (T.seen sink.old).held (T.seen sink.new).held front) }
    ensures counts { CountsFailure (is_failed_put result) (T.seen sink.old).faults (T.seen sink.new).faults }
{
    let mut rest = bytes;
    while !rest.is_empty() {
        let count = sink.put(rest)?;
        rest = &rest[count..];
    }
    Ok(())
}
