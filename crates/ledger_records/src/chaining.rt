//! The hashes of a ledger of format 2, and the pieces in which it is kept.

ghost use Rattle.std.specs.Prelude.{◌≡◌, [], ◌∷◌, ◌++◌, List, length, OnOk, OnErr, IfOk};
ghost use Rattle.pool_history.specs.declared.events.Event.{Event};
ghost use Rattle.ledger_records.specs.Growing.{hash_after};
ghost use Rattle.sha2.specs.Sha256.{sha256};
ghost use Rattle.pool_base.specs.Lists.{Begins};
ghost use Rattle.pool_history.specs.Ledger.{HasRecord, magic_2, record_of};
ghost use Rattle.pool_history.specs.Ledger as ledger;
ghost use Rattle.ledger_records.specs.Pieces.{first_piece, piece_behind};

use crate::writing::write_record;
use pool_history::Event;
use sha2::{Digest, Sha256};
use std::alloc::AllocError;

/// What a ledger of format 2 begins with, in ASCII.
pub const MAGIC: &[u8; 8] = b"SV2LEDG2";

/// The hash that stands behind a record: SHA-256 (FIPS 180-4) of the hash before it followed by
/// the record, which these bytes are. It takes no memory.
pub fn chain(before: &[u8; 32], bytes: &[u8]) -> [u8; 32]
    ensures { result ≡ ledger.chain before.now bytes.now }
{
    let mut hasher = Sha256::new();
    hasher.update(before.as_slice());
    hasher.update(bytes);
    hasher.finalize()
}

/// The hash before the first record: that of the magic.
pub fn magic_hash() -> [u8; 32]
    ensures { result ≡ sha256 magic_2 }
{
    Sha256::digest(MAGIC.as_slice())
}

/// Appends a later piece of a ledger: the event's record, and its hash behind the hash before it.
/// Answers that hash. Lack of memory leaves `out` as it was.
pub fn write_piece(
    before: &[u8; 32],
    event: &Event,
    out: &mut Vec<u8>,
) -> Result<[u8; 32], AllocError>
    requires { HasRecord event.now }
    ensures ok { OnOk result (out.new.items
        ≡ out.old.items ++ piece_behind before.now event.now) }
    ensures hash { IfOk result (λ hash. hash ≡ ledger.chain before.now (record_of event.now)) }
    // Behind the hash over a history it is the one over the history with the event.
    ensures over { (history : List Event) → before.now ≡ hash_after history
        → IfOk result (λ hash. hash ≡ hash_after (history ++ event.now ∷ [])) }
    ensures err { OnErr result (out.new.items ≡ out.old.items) }
{
    let start = out.len();
    match put_piece(before, event, out) {
        Ok(hash) => Ok(hash),
        Err(error) => {
            out.truncate(start);
            Err(error)
        }
    }
}

/// Appends the first piece of a ledger: the magic, Start's record, and its hash. Answers that hash.
/// Lack of memory leaves `out` as it was.
pub fn write_first_piece(event: &Event, out: &mut Vec<u8>) -> Result<[u8; 32], AllocError>
    requires { HasRecord event.now }
    // It is the ledger of this event alone.
    ensures ok { OnOk result (out.new.items
        ≡ out.old.items ++ ledger.ledger_text (event.now ∷ [])) }
    ensures hash { IfOk result (λ hash. hash ≡ hash_after (event.now ∷ [])) }
    ensures err { OnErr result (out.new.items ≡ out.old.items) }
{
    let start = out.len();
    match put_first_piece(event, out) {
        Ok(hash) => Ok(hash),
        Err(error) => {
            out.truncate(start);
            Err(error)
        }
    }
}

/// As `write_first_piece`; lack of memory can leave some bytes behind the old ones.
fn put_first_piece(event: &Event, out: &mut Vec<u8>) -> Result<[u8; 32], AllocError>
    requires { HasRecord event.now }
    ensures ok { OnOk result (out.new.items
        ≡ out.old.items ++ first_piece event.now) }
    ensures hash { IfOk result
        (λ hash. hash ≡ ledger.chain (sha256 magic_2) (record_of event.now)) }
    ensures err { OnErr result (Begins out.old.items out.new.items) }
{
    out.extend_from_slice(MAGIC.as_slice())?;
    let hash = write_piece(&magic_hash(), event, out)?;
    Ok(hash)
}

/// As `write_piece`; lack of memory can leave some bytes behind the old ones.
fn put_piece(before: &[u8; 32], event: &Event, out: &mut Vec<u8>) -> Result<[u8; 32], AllocError>
    requires { HasRecord event.now }
    ensures ok { OnOk result (out.new.items
        ≡ out.old.items ++ piece_behind before.now event.now) }
    ensures hash { IfOk result (λ hash. hash ≡ ledger.chain before.now (record_of event.now)) }
    ensures err { OnErr result (Begins out.old.items out.new.items) }
{
    let start = out.len();
    write_record(event, out)?;
    let hash = chain(before, &out.as_slice()[start..]);
    out.extend_from_slice(hash.as_slice())?;
    Ok(hash)
}
