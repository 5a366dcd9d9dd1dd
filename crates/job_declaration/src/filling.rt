//! What a declaration lists, and the ids of all of it.

ghost use Rattle.std.specs.Prelude.{◌≡◌, IfOk, map};
ghost use Rattle.job_declaration.specs.Filling as rules;
ghost use Rattle.job_declaration.specs.Filled.{IsFilled, IsNext, parts_of};

use crate::brought::{id_of, split_first};
use crate::transaction_ids::Ids;
use crate::{Listed, TxIds};
use std::alloc::{AllocError, Global};
use sv2_types::SeqBytes;

/// Witness ids, with the ids that are known.
pub(crate) fn listed_by(
    alloc: Global,
    known: &Ids,
    wtxids: &[[u8; 32]],
) -> Result<Vec<Listed>, AllocError>
    ensures { IfOk result (λ listed. listed.items ≡ rules.listed_by known.now wtxids.now) }
{
    let mut listed = Vec::with_capacity(alloc, wtxids.len())?;
    for wtxid in wtxids {
        let txid = known.get(wtxid);
        let wtxid = *wtxid;
        listed.push(Listed { wtxid, txid })?;
    }
    Ok(listed)
}

/// The ids of all that is listed, those that weren't known by what was brought for them; none where
/// others were brought, or more, or fewer. Each transaction that was brought is read, hashed and
/// dropped before the next.
pub(crate) fn filled(
    alloc: Global,
    listed: &[Listed],
    brought: SeqBytes<'_>,
) -> Result<Option<Vec<TxIds>>, AllocError>
    ensures { IfOk result (λ ids. IsFilled ids
        (rules.filled listed.now (parts_of brought.entry))) }
{
    let mut left = brought;
    let mut transactions = Vec::with_capacity(alloc, listed.len())?;
    for entry in listed {
        let Some(next) = next_id(alloc, entry, left)? else {
            return Ok(None);
        };
        left = next.left;
        transactions.push(next.ids)?;
    }
    if left.is_empty() {
        Ok(Some(transactions))
    } else {
        Ok(None)
    }
}

/// An entry with its id, and the transactions that are left behind it.
#[derive(Clone, Copy)]
struct Next<'a> {
    ids: TxIds,
    left: SeqBytes<'a>,
}

/// An entry with its id, by the first of the transactions where it isn't known.
fn next_id<'a>(
    alloc: Global,
    entry: &Listed,
    left: SeqBytes<'a>,
) -> Result<Option<Next<'a>>, AllocError>
    ensures { IfOk result (IsNext entry.now left.entry) }
{
    let wtxid = entry.wtxid;
    if let Some(txid) = entry.txid {
        let ids = TxIds { wtxid, txid };
        return Ok(Some(Next { ids, left }));
    }
    let Some((first, left)) = split_first(left) else {
        return Ok(None);
    };
    let Some(txid) = id_of(alloc, &wtxid, first)? else {
        return Ok(None);
    };
    let ids = TxIds { wtxid, txid };
    Ok(Some(Next { ids, left }))
}

/// The ids without the witness ids.
pub(crate) fn txids_of(alloc: Global, transactions: &[TxIds]) -> Result<Vec<[u8; 32]>, AllocError>
    ensures { IfOk result (λ txids. txids.items ≡ map (λ ids. ids.txid) transactions.now) }
{
    let mut txids = Vec::with_capacity(alloc, transactions.len())?;
    for ids in transactions {
        let txid = ids.txid;
        txids.push(txid)?;
    }
    Ok(txids)
}
