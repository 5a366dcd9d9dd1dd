//! Transactions that were brought, one by one.

ghost use Rattle.std.specs.Prelude.{◌≡◌, [], ◌∷◌, IfOk, MatchOption};
ghost use Rattle.coinbase.specs.Reading.{tx_of};
ghost use Rattle.job_declaration.specs.Filling.{id_by};
ghost use Rattle.sv2_types.specs.Reading.{parts_at};

use block_header::dsha;
use coinbase::{Tx, TxError};
use std::alloc::{AllocError, Global};
use sv2_types::SeqBytes;

/// The first of byte strings, and those behind it, which lie where they lay.
pub(crate) fn split_first<'a>(parts: SeqBytes<'a>) -> Option<(&'a [u8], SeqBytes<'a>)>
    ensures { MatchOption result (parts_at parts.entry.count parts.entry.spelled.now ≡ [])
        (λ split. parts_at parts.entry.count parts.entry.spelled.now
        ≡ split.0.now ∷ parts_at split.1.count split.1.spelled.now) }
{
    let first = parts.get(0)?;
    let others = SeqBytes {
        spelled: &parts.spelled[3 + first.len()..],
        count: parts.count - 1,
    };
    Some((first, others))
}

/// The id of what was brought, where it is the transaction with this witness id. The transaction is
/// dropped.
pub(crate) fn id_of(
    alloc: Global,
    wtxid: &[u8; 32],
    bytes: &[u8],
) -> Result<Option<[u8; 32]>, AllocError>
    ensures { IfOk result (λ id. id ≡ id_by wtxid.now (tx_of bytes.now)) }
{
    let tx = match Tx::read(alloc, bytes) {
        Ok(tx) => tx,
        Err(TxError::Memory) => return Err(AllocError),
        Err(_) => return Ok(None),
    };
    if dsha(bytes) != *wtxid {
        return Ok(None);
    }
    if tx.witnesses.items().is_empty() {
        return Ok(Some(*wtxid));
    }
    Ok(Some(tx.txid()?))
}
