//! The book itself.

use crate::keeping::{carry_out, keep_start};
use crate::tables::Tables;
use event_store::History;
use payouts::write_summary;
use pool_history::{BookError, Reply, Request, Rules};
use pool_io::Keeper;
use std::alloc::{AllocError, Global};
use std::marker::Model;

/// The history of a pool, kept record by record. Contracts see its events and its keeper.
#[derive(Drop)]
pub struct Book<K: Keeper> {
    alloc: Global,
    keeper: K,
    /// The hash behind the last record that was kept.
    hash: [u8; 32],
    /// Room for the next record's piece; what stands in it is of no account.
    piece: Vec<u8>,
    /// On the heap, so that who takes the book in turn with others moves no more than a word of them.
    tables: Box<Tables>,
}

impl<K: Keeper> Model for Book<K> {
    ghost use Rattle.std.specs.Prelude.{◌≡◌};
    ghost use Rattle.ledger_records.specs.Growing.{hash_after};
    ghost use Rattle.share_ledger.specs.Books.{BookSeen, KeepsLedger};
    ghost use Rattle.share_ledger.specs.Recovery.{IsRecoverable};

    ghost Value = { BookSeen };

    ghost view = { λ book. record {
      events = book.tables.value.history.events;
      keeper = K.seen book.keeper;
    } };

    ghost invariant = { λ book. (book.hash ≡ hash_after book.tables.value.history.events)
        × KeepsLedger (K.seen book.keeper).records
        book.tables.value.history.events
        × IsRecoverable (K.seen book.keeper) (K.may_find book.keeper)
        book.tables.value.history.events };
}

impl<K: Keeper> Book<K> {
    ghost use Rattle.std.specs.Prelude.{◌≡◌, ◌++◌, ◌<◌, ◌^◌, Some, [], ◌∷◌, length, IfErr, IfOk, IsTrue, OnErr, OnOk};
    ghost use Rattle.pool_history.specs.declared.events.Event.TheVariants as event;
    ghost use Rattle.pool_history.specs.Accounts.{are_in_range};
    ghost use Rattle.pool_history.specs.Sessions.{past_of};
    ghost use Rattle.pool_history.specs.Summary.{summary_of, summary_text};
    ghost use Rattle.pool_history.specs.Calls.{blames_keeper};
    ghost use Rattle.ledger_records.specs.Growing.{hash_after};
    ghost use Rattle.ledger_records.specs.Keeping.{IsKept};
    ghost use Rattle.pool_io.specs.Outside.{CountsFailure};
    ghost use Rattle.share_ledger.specs.Books.{IsReplied, IsUnused, KeepsInstead, KeepsLedger, is_keeper_fault};
    ghost use Rattle.share_ledger.specs.Recovery.{IsRecoverable, IsStored, KeepsBeginning};

    /// The book of a pool that starts, with a keeper that keeps nothing yet: the magic and the Start
    /// record are kept as one piece.
    pub fn new(alloc: Global, rules: Rules, keeper: K) -> Result<Book<K>, (K, BookError)>
        requires rules { IsTrue (are_in_range rules) }
        requires unused { IsUnused (K.seen keeper).records }
        requires recovers { IsRecoverable (K.seen keeper) (K.may_find keeper) [] }
        ensures ok { IfOk result (λ book. book.events ≡ event.Start rules ∷ []) }
        ensures kept { IfOk result (λ book.
            KeepsInstead (K.seen keeper).records book.keeper.records book.events) }
        ensures counts { IfOk result (λ book. book.keeper.faults ≡ (K.seen keeper).faults) }
        ensures begun { IfOk result (λ book. KeepsBeginning (K.seen keeper) book.keeper) }
        ensures refused { IfErr result (λ failed. (K.seen failed.0).records ≡ (K.seen keeper).records) }
        ensures fault { IfErr result (λ failed. CountsFailure (blames_keeper failed.1)
            (K.seen keeper).faults (K.seen failed.0).faults) }
        ensures unbegun { IfErr result (λ failed.
            IsRecoverable (K.seen failed.0) (K.may_find failed.0) []) }
        ensures stands { IfErr result (λ failed. KeepsBeginning (K.seen keeper) (K.seen failed.0)) }
    {
        let tables = match start_tables(alloc, rules) {
            Ok(tables) => tables,
            Err(_) => return Err((keeper, BookError::Memory)),
        };
        tables.are_kept();
        let mut keeper = keeper;
        match keep_start(alloc, &mut keeper, tables.first()) {
            Ok(hash) => Ok(Book {
                alloc,
                keeper,
                hash,
                piece: Vec::new(alloc),
                tables,
            }),
            Err(error) => Err((keeper, error)),
        }
    }

    /// The book of a history that was kept before, with the hash behind its last record, and with a
    /// keeper that has just its records or tells none.
    pub fn of_tables(
        alloc: Global,
        tables: Tables,
        hash: [u8; 32],
        keeper: K,
    ) -> Result<Book<K>, (K, AllocError)>
        requires hashed { hash ≡ hash_after tables.history.events }
        requires ledger { KeepsLedger (K.seen keeper).records tables.history.events }
        requires recovers { IsRecoverable (K.seen keeper) (K.may_find keeper)
            tables.history.events }
        ensures events { IfOk result (λ book. book.events ≡ tables.history.events) }
        ensures keeper { IfOk result (λ book. book.keeper ≡ K.seen keeper) }
        ensures refused { IfErr result (λ failed. failed.0 ≡ keeper) }
    {
        match Box::new(alloc, tables) {
            Ok(tables) => Ok(Book {
                alloc,
                keeper,
                hash,
                piece: Vec::new(alloc),
                tables,
            }),
            Err(_) => Err((keeper, AllocError)),
        }
    }

    /// Answers a worker's request by the history. An event is kept before it takes effect; after
    /// `KeeperFault` and `Memory` the history and the records are as before.
    pub fn act(&mut self, worker: u32, request: Request) -> Result<Reply, BookError>
        ensures answer { IfOk result
            (IsReplied self.old.events self.new.events worker request) }
        ensures refused { OnErr result (self.new.events ≡ self.old.events) }
        ensures kept { KeepsInstead self.old.keeper.records self.new.keeper.records
            self.new.events }
        ensures begun { KeepsBeginning self.old.keeper self.new.keeper }
        ensures counts { CountsFailure (is_keeper_fault result) self.old.keeper.faults
            self.new.keeper.faults }
    {
        let step = self.tables.prepare(self.alloc, worker, request);
        carry_out(
            &mut self.piece,
            &mut self.keeper,
            &mut self.hash,
            &mut *self.tables,
            step,
        )
    }

    /// Appends the summary of the history, as text.
    pub fn summary(&self, out: &mut Vec<u8>) -> Result<(), AllocError>
        ensures ok { OnOk result (out.new.items
            ≡ out.old.items ++ summary_text (summary_of (past_of self.now.events))) }
        ensures err { OnErr result (out.new.items ≡ out.old.items) }
    {
        let Tables {
            history,
            sessions,
            tally,
            ..
        } = &*self.tables;
        write_summary(sessions.count(), history.len(), tally, out)
    }

    /// How many events there are.
    pub fn len(&self) -> u64
        ensures value { result ≡ length self.now.events }
        ensures few { result < 2 ^ 62 }
    {
        self.tables.history.len()
    }

    /// That the history is legal and has a ledger, and that the keeper has just that ledger, where it
    /// tells its records, all of it for good, where it tells that.
    pub fn history_is_kept(&self)
        ensures history { IsKept self.now.events }
        ensures ledger { KeepsLedger self.now.keeper.records self.now.events }
        ensures stored { IsStored self.now.keeper self.now.events }
    {
        self.tables.are_kept()
    }

    /// The keeper, of which a crash left nothing but fronts of the history, and the history.
    pub fn into_parts(self) -> (K, History)
        ensures keeper { K.seen result.0 ≡ self.keeper }
        ensures recovers { IsRecoverable (K.seen result.0) (K.may_find result.0) self.events }
        ensures history { result.1.events ≡ self.events }
    {
        let Book {
            alloc: _,
            keeper,
            hash: _,
            piece: _,
            tables,
        } = self;
        (keeper, Box::into_inner(tables).into_history())
    }
}

ghost use Rattle.std.specs.Prelude.{◌≡◌, [], ◌∷◌, IfOk, IsTrue};
ghost use Rattle.pool_history.specs.declared.events.Event.TheVariants as event;
ghost use Rattle.pool_history.specs.Accounts.{are_in_range};

/// The tables of a pool that starts.
fn start_tables(alloc: Global, rules: Rules) -> Result<Box<Tables>, AllocError>
    requires { IsTrue (are_in_range rules) }
    ensures { IfOk result (λ tables. tables.value.history.events ≡ event.Start rules ∷ []) }
{
    let tables = Tables::start(alloc, rules)?;
    Ok(Box::new(alloc, tables)?)
}
