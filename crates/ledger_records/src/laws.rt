//! What the bytes of a ledger say, and how it grows.

ghost use Rattle.ledger_records.specs.Growing.{LedgersGrow, PiecesGrow};
ghost use Rattle.ledger_records.specs.Keeping.{AnswersCanBeKept, CallsCanBeKept, KeptLedgersAreOfOneHistory, StartsAreKept};
ghost use Rattle.ledger_records.specs.OneLedger.{FormatsDiffer, LedgersAreOfOneHistory, LedgersBeginAlike, NoRecordBeginsAnother, OldLedgersAreOfOneHistory, OldLedgersBeginAlike, RecordsAreOfOneEvent, RecordsAreReadBack};

/// Bytes that begin with a record begin with that of no other event, and what follows it is the
/// same.
pub fn records_are_read_back()
    ensures { RecordsAreReadBack }
{}

/// Two events with the same record are one.
pub fn records_are_of_one_event()
    ensures { RecordsAreOfOneEvent }
{}

/// No record begins another.
pub fn no_record_begins_another()
    ensures { NoRecordBeginsAnother }
{}

/// Two histories with the same ledger of format 2 are one.
pub fn ledgers_are_of_one_history()
    ensures { LedgersAreOfOneHistory }
{}

/// Bytes are the ledger of one history at most that is legal and has records.
pub fn kept_ledgers_are_of_one_history()
    ensures { KeptLedgersAreOfOneHistory }
{}

/// Two histories with the same ledger of format 1 are one.
pub fn old_ledgers_are_of_one_history()
    ensures { OldLedgersAreOfOneHistory }
{}

/// Where the same bytes begin with the ledgers of format 2 of two histories, one history begins the
/// other.
pub fn ledgers_begin_alike()
    ensures { LedgersBeginAlike }
{}

/// Where the same bytes begin with the ledgers of format 1 of two histories, one history begins the
/// other.
pub fn old_ledgers_begin_alike()
    ensures { OldLedgersBeginAlike }
{}

/// No bytes begin with a ledger of format 2 and with one of format 1.
pub fn formats_differ()
    ensures { FormatsDiffer }
{}

/// One more event adds its record, and in format 2 the hash over all records behind it.
pub fn ledgers_grow()
    ensures { LedgersGrow }
{}

/// A ledger in pieces gets one piece more for each event after the first.
pub fn pieces_grow()
    ensures { PiecesGrow }
{}

/// A Start whose fields are of their types and whose rules are in their ranges is legal and has a
/// ledger.
pub fn starts_are_kept()
    ensures { StartsAreKept }
{}

/// Where a history is legal and has a ledger, so it is with the events of each answer to a request
/// whose fields are of their types.
pub fn answers_can_be_kept()
    ensures { AnswersCanBeKept }
{}

/// Where calls part a history from a front on that is legal and has a ledger, the whole history is
/// and has one too, if each call's fields are of their types. It holds whatever was asked, in
/// whatever order, and whatever failed.
pub fn calls_can_be_kept()
    ensures { CallsCanBeKept }
{}
