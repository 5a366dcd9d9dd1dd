//! Events that are kept before they take effect.

ghost use Rattle.std.specs.Prelude.{◌≡◌, ◌∷◌, [], ◌++◌, ◌≤◌, List, length, IfOk, IfErr, OnErr, OnOk};
ghost use Rattle.pool_history.specs.declared.events.Event.{Event};
ghost use Rattle.pool_history.specs.Ledger.{HasRecord, kept_records, ledger_text};
ghost use Rattle.ledger_records.specs.Growing.{hash_after};
ghost use Rattle.ledger_records.specs.Pieces.{piece_behind};
ghost use Rattle.pool_io.specs.Outside.{AddsRecord, CountsFailure};
ghost use Rattle.ledger_records.specs.Keeping.{KeepsOn};
ghost use Rattle.share_ledger.specs.Books.{KeepsInstead, KeepsLedger, is_keeper_fault};
ghost use Rattle.share_ledger.specs.Recovery.{IsRecoverable, KeepsBeginning, RecoversNext, pieces_of};
ghost use Rattle.share_ledger.specs.Planning.{Changes, IsNext, IsReady, MakesStep};

use crate::planning::{Planned, Step};
use crate::tables::Tables;
use ledger_records::{ledgers_grow, pieces_grow, write_first_piece, write_piece};
use pool_history::{BookError, Event, Reply};
use pool_io::{Keeper, KeeperFailed};
use std::alloc::{AllocError, Global};

/// Makes a step: its reply is answered, and its event is kept and takes effect. The record is written
/// into `piece`, whose room is kept for the next.
pub(crate) fn carry_out<K: Keeper>(
    piece: &mut Vec<u8>,
    keeper: &mut K,
    hash: &mut [u8; 32],
    tables: &mut Tables,
    step: Result<Step, AllocError>,
) -> Result<Reply, BookError>
    requires ready { IfOk step (IsReady tables.old) }
    requires hashed { hash.old ≡ hash_after tables.old.history.events }
    requires kept { KeepsLedger (K.seen keeper.old).records tables.old.history.events }
    requires recovers { IsRecoverable (K.seen keeper.old) (K.may_find keeper.old)
        tables.old.history.events }
    ensures made { IfOk result
        (MakesStep step tables.old.history.events tables.new.history.events) }
    ensures same { OnErr result (tables.new.history.events ≡ tables.old.history.events) }
    ensures hash { hash.new ≡ hash_after tables.new.history.events }
    ensures kept { KeepsInstead (K.seen keeper.old).records (K.seen keeper.new).records
        tables.new.history.events }
    ensures recovers { IsRecoverable (K.seen keeper.new) (K.may_find keeper.new)
        tables.new.history.events }
    ensures begun { KeepsBeginning (K.seen keeper.old) (K.seen keeper.new) }
    ensures counts { CountsFailure (is_keeper_fault result) (K.seen keeper.old).faults
        (K.seen keeper.new).faults }
{
    pieces_grow();
    ledgers_grow();
    tables.are_kept();
    match step {
        Ok(Step::Answer(reply)) => Ok(reply),
        Ok(Step::Move(planned)) => commit(piece, keeper, hash, tables, planned),
        Err(_) => Err(BookError::Memory),
    }
}

/// Keeps a planned event and lets it take effect, in this order.
fn commit<K: Keeper>(
    piece: &mut Vec<u8>,
    keeper: &mut K,
    hash: &mut [u8; 32],
    tables: &mut Tables,
    planned: Planned,
) -> Result<Reply, BookError>
    requires next { IsNext tables.old planned.event }
    requires changes { Changes tables.old planned.event planned.change }
    requires hashed { hash.old ≡ hash_after tables.old.history.events }
    ensures reply { IfOk result (λ reply. reply ≡ planned.reply) }
    ensures events { OnOk result (tables.new.history.events
        ≡ tables.old.history.events ++ planned.event ∷ []) }
    ensures hash { OnOk result (hash.new ≡ hash_after tables.new.history.events) }
    ensures kept { OnOk result (AddsRecord (K.seen keeper.old).records (K.seen keeper.new).records
        (piece_behind hash.old planned.event)) }
    ensures counts { CountsFailure (is_keeper_fault result) (K.seen keeper.old).faults
        (K.seen keeper.new).faults }
    ensures same { OnErr result (tables.new ≡ tables.old) }
    ensures same_hash { OnErr result (hash.new ≡ hash.old) }
    ensures same_records { OnErr result ((K.seen keeper.new).records ≡ (K.seen keeper.old).records) }
    ensures recovers { pieces_of (tables.old.history.events ++ planned.event ∷ [])
        ≡ pieces_of tables.old.history.events ++ piece_behind hash.old planned.event ∷ []
        → IsRecoverable (K.seen keeper.old) (K.may_find keeper.old) tables.old.history.events
        → RecoversNext result (K.seen keeper.new) (K.may_find keeper.new) tables.old.history.events
        planned.event }
    ensures begun { IsRecoverable (K.seen keeper.old) (K.may_find keeper.old)
        tables.old.history.events → KeepsBeginning (K.seen keeper.old) (K.seen keeper.new) }
{
    let Planned {
        event,
        change,
        reply,
    } = planned;
    let next = match keep(piece, keeper, hash, &event) {
        Ok(next) => next,
        Err(error) => return Err(error),
    };
    tables.apply(event, change);
    *hash = next;
    Ok(reply)
}

/// Keeps an event's record, with its hash behind the hash before it. Answers that hash.
fn keep<K: Keeper>(
    piece: &mut Vec<u8>,
    keeper: &mut K,
    hash: &[u8; 32],
    event: &Event,
) -> Result<[u8; 32], BookError>
    requires { HasRecord event.now }
    ensures over { (history : List Event) → hash.now ≡ hash_after history
        → IfOk result (λ next. next ≡ hash_after (history ++ event.now ∷ [])) }
    ensures kept { OnOk result (AddsRecord (K.seen keeper.old).records (K.seen keeper.new).records
        (piece_behind hash.now event.now)) }
    ensures same { OnErr result ((K.seen keeper.new).records ≡ (K.seen keeper.old).records) }
    ensures recovers { (history : List Event) → KeepsOn history (event.now ∷ [])
        → pieces_of (history ++ event.now ∷ [])
        ≡ pieces_of history ++ piece_behind hash.now event.now ∷ []
        → IsRecoverable (K.seen keeper.old) (K.may_find keeper.old) history
        → RecoversNext result (K.seen keeper.new) (K.may_find keeper.new) history event.now }
    ensures begun { (history : List Event)
        → IsRecoverable (K.seen keeper.old) (K.may_find keeper.old) history
        → KeepsBeginning (K.seen keeper.old) (K.seen keeper.new) }
    ensures counts { CountsFailure (is_keeper_fault result) (K.seen keeper.old).faults
        (K.seen keeper.new).faults }
{
    piece.clear();
    let Ok(next) = write_piece(hash, event, piece) else {
        return Err(BookError::Memory);
    };
    match append(keeper, piece.as_slice()) {
        Ok(()) => Ok(next),
        Err(error) => Err(error),
    }
}

/// Keeps the first piece of a ledger, that of the Start. Answers its hash.
pub(crate) fn keep_start<K: Keeper>(
    alloc: Global,
    keeper: &mut K,
    event: &Event,
) -> Result<[u8; 32], BookError>
    requires { HasRecord event.now }
    ensures hash { IfOk result (λ next. next ≡ hash_after (event.now ∷ [])) }
    ensures kept { OnOk result (AddsRecord (K.seen keeper.old).records (K.seen keeper.new).records
        (ledger_text (event.now ∷ []))) }
    ensures same { OnErr result ((K.seen keeper.new).records ≡ (K.seen keeper.old).records) }
    ensures recovers { KeepsOn [] (event.now ∷ [])
        → IsRecoverable (K.seen keeper.old) (K.may_find keeper.old) []
        → RecoversNext result (K.seen keeper.new) (K.may_find keeper.new) [] event.now }
    ensures begun { IsRecoverable (K.seen keeper.old) (K.may_find keeper.old) []
        → KeepsBeginning (K.seen keeper.old) (K.seen keeper.new) }
    ensures counts { CountsFailure (is_keeper_fault result) (K.seen keeper.old).faults
        (K.seen keeper.new).faults }
{
    let mut piece = Vec::new(alloc);
    let Ok(next) = write_first_piece(event, &mut piece) else {
        return Err(BookError::Memory);
    };
    match append(keeper, piece.as_slice()) {
        Ok(()) => Ok(next),
        Err(error) => Err(error),
    }
}

/// Appends a piece; a keeper's lack of memory is the book's.
fn append<K: Keeper>(keeper: &mut K, piece: &[u8]) -> Result<(), BookError>
    requires { length piece.now ≤ 300100 }
    ensures kept { OnOk result (AddsRecord (K.seen keeper.old).records (K.seen keeper.new).records
        piece.now) }
    ensures same { OnErr result ((K.seen keeper.new).records ≡ (K.seen keeper.old).records) }
    ensures recovers { (history : List Event) (next : Event) → KeepsOn history (next ∷ [])
        → pieces_of (history ++ next ∷ []) ≡ pieces_of history ++ piece.now ∷ []
        → IsRecoverable (K.seen keeper.old) (K.may_find keeper.old) history
        → RecoversNext result (K.seen keeper.new) (K.may_find keeper.new) history next }
    ensures begun { (history : List Event)
        → IsRecoverable (K.seen keeper.old) (K.may_find keeper.old) history
        → KeepsBeginning (K.seen keeper.old) (K.seen keeper.new) }
    ensures counts { CountsFailure (is_keeper_fault result) (K.seen keeper.old).faults
        (K.seen keeper.new).faults }
{
    match keeper.append(piece) {
        Ok(()) => Ok(()),
        Err(KeeperFailed::Failed) => Err(BookError::KeeperFault),
        Err(KeeperFailed::Memory) => Err(BookError::Memory),
    }
}
