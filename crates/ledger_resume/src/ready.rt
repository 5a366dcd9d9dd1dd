//! A disk's ledger is opened, and a book made of it.

ghost use Rattle.std.specs.Prelude.{◌≡◌, [], IfErr, IfOk, IsTrue};
ghost use Rattle.pool_io.specs.Crashes.{IsSettledWith};
ghost use Rattle.pool_history.specs.Accounts.{are_in_range};
ghost use Rattle.ledger_disk.specs.Crashes.{MayBeFound, counts_told, entries_told};
ghost use Rattle.ledger_resume.specs.Refusals.{TellsJust};
ghost use Rattle.ledger_resume.specs.Books.{HasNoBook, HasEndedSessions, IsJustOpened, IsMadeOf, IsNotMadeOf, IsOpenedLedger, IsReadyBook, HasNotBegun, HasUnendedSession, IsUnopened};

use crate::cause::{NoBook, keeping_cause, opening_cause, refusal_cause};
use crate::leaving::end_sessions;
use crate::resume;
use crate::starting::begin_with_start;
use ledger_disk::{Disk, DiskLedger};
use pool_history::Rules;
use share_ledger::Book;
use std::alloc::Global;
use sv2_types::Blob;

/// A book on a disk that was just opened: a new one with a Start of these rules where the disk has no
/// record; else that of the records, which have to begin with this very Start, once each worker's
/// Leave was answered.
pub fn ready_book<D: Disk>(
    alloc: Global,
    rules: Rules,
    disk: D,
) -> Result<Book<DiskLedger<D>>, (D, NoBook)>
    requires rules { IsTrue (are_in_range rules) }
    requires opened { IsJustOpened (D.seen disk) }
    ensures ready { IfOk result (λ book. IsReadyBook rules (D.seen disk) book) }
    ensures none { IfErr result (λ back. HasNoBook rules (D.seen disk) (D.seen back.0) back.1) }
{
    match open_ledger(alloc, disk) {
        Ok((ledger, records)) => make_book(alloc, rules, ledger, &records),
        Err(back) => Err(back),
    }
}

/// The ledger on a disk that was just opened, with its records.
pub fn open_ledger<D: Disk>(
    alloc: Global,
    disk: D,
) -> Result<(DiskLedger<D>, Vec<Blob>), (D, NoBook)>
    requires { IsJustOpened (D.seen disk) }
    ensures opened { IfOk result (λ opened. IsOpenedLedger (D.seen disk) opened.0 opened.1.items) }
    ensures unopened { IfErr result (λ back. IsUnopened (D.seen disk) (D.seen back.0) back.1) }
{
    match DiskLedger::open(alloc, disk) {
        Ok(opened) => Ok(opened),
        Err((disk, error)) => Err((disk, opening_cause(error))),
    }
}

/// The book over a ledger that holds just these records.
fn make_book<D: Disk>(
    alloc: Global,
    rules: Rules,
    ledger: DiskLedger<D>,
    records: &[Blob],
) -> Result<Book<DiskLedger<D>>, (D, NoBook)>
    requires rules { IsTrue (are_in_range rules) }
    requires told { TellsJust (entries_told ledger) records.now }
    requires settled { IsSettledWith (counts_told ledger) (MayBeFound ledger) records.now }
    ensures made { IfOk result (λ book. IsMadeOf rules ledger records.now book) }
    ensures none { IfErr result
        (λ back. IsNotMadeOf rules ledger records.now (D.seen back.0) back.1) }
{
    if records.is_empty() {
        begin(alloc, rules, ledger)
    } else {
        go_on(alloc, rules, ledger, records)
    }
}

/// A new book over a ledger without records.
fn begin<D: Disk>(
    alloc: Global,
    rules: Rules,
    ledger: DiskLedger<D>,
) -> Result<Book<DiskLedger<D>>, (D, NoBook)>
    requires rules { IsTrue (are_in_range rules) }
    requires told { TellsJust (entries_told ledger) [] }
    requires settled { IsSettledWith (counts_told ledger) (MayBeFound ledger) [] }
    ensures made { IfOk result (λ book. IsMadeOf rules ledger [] book) }
    ensures none { IfErr result (λ back. HasNotBegun [] ledger (D.seen back.0) back.1) }
{
    match Book::new(alloc, rules, ledger) {
        Ok(book) => {
            book.history_is_kept();
            Ok(book)
        }
        Err((ledger, error)) => Err((ledger.into_disk(), keeping_cause(error))),
    }
}

/// The book of these records, whose sessions are over.
fn go_on<D: Disk>(
    alloc: Global,
    rules: Rules,
    ledger: DiskLedger<D>,
    records: &[Blob],
) -> Result<Book<DiskLedger<D>>, (D, NoBook)>
    requires rules { IsTrue (are_in_range rules) }
    requires told { TellsJust (entries_told ledger) records.now }
    requires settled { IsSettledWith (counts_told ledger) (MayBeFound ledger) records.now }
    requires found { records.now ≡ [] → ⊥ }
    ensures made { IfOk result (λ book. IsMadeOf rules ledger records.now book) }
    ensures none { IfErr result
        (λ back. IsNotMadeOf rules ledger records.now (D.seen back.0) back.1) }
{
    match begin_with_start(alloc, rules, records) {
        Ok(true) => {}
        Ok(false) => return Err((ledger.into_disk(), NoBook::WrongLedger)),
        Err(_) => return Err((ledger.into_disk(), NoBook::Memory)),
    }
    match resume(alloc, ledger, records) {
        Ok(book) => end_earlier(book),
        Err((ledger, error)) => Err((ledger.into_disk(), refusal_cause(error))),
    }
}

/// The same book once each worker's Leave was answered.
fn end_earlier<D: Disk>(book: Book<DiskLedger<D>>) -> Result<Book<DiskLedger<D>>, (D, NoBook)>
    ensures left { IfOk result (λ ended. HasEndedSessions book ended) }
    ensures stands { IfErr result (λ back. HasUnendedSession book (D.seen back.0) back.1) }
{
    let mut book = book;
    let answered = end_sessions(&mut book);
    book.history_is_kept();
    match answered {
        Ok(()) => Ok(book),
        Err(error) => {
            let (ledger, _history) = book.into_parts();
            Err((ledger.into_disk(), keeping_cause(error)))
        }
    }
}
