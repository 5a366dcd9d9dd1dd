//! The records of a ledger, one after the other: each is read, its hash compared, and its event
//! replayed.

ghost use Rattle.std.specs.Prelude.{◌≡◌, ◌≢◌, ◌⊎◌, ◌↔◌, ◌+◌, ◌-◌, ◌<◌, ◌≤◌, ◌^◌, List, ℕ, [], ◌++◌, length, IsTrue, OnErr, OnOk, IfErr, IfNone, IfOk, IfSome};
ghost use Rattle.pool_history.specs.declared.events.Event.{Event as Happened};
ghost use Rattle.pool_history.specs.Ledger.{EventFits};
ghost use Rattle.pool_history.specs.Sessions.{past_of};
ghost use Rattle.pool_history.specs.Summary.{summary_of, summary_text};
ghost use Rattle.ledger_audit.specs.declared.format.Format.{Format as Layout};
ghost use Rattle.ledger_records.specs.Records.{BeginsWithNoRecord, IsRecordOf};
ghost use Rattle.ledger_audit.specs.Auditing.{CountsEventsWithinPlace, DecidesRecord, IsBehindLedger, IsBroken, IsNextHash, IsReplayOf, IsReplayed, IsToldOrCaused, magic_of, told_count};
ghost use Rattle.ledger_audit.specs.Units.{lacking, unit_len};
ghost use Rattle.ledger_audit.specs.Verdicts.{HasNoMagic};

use crate::ahead::look_ahead;
use crate::format::Format;
use crate::verdict::Verdict;
use ledger_records::{MAGIC, RecordError, chain, magic_hash, read_record};
use ledger_replay::{Replay, ReplayError};
use payouts::{Rule, Tally, write_summary};
use pool_history::Event;
use std::alloc::{AllocError, Global};

/// The magic of format 1.
const OLD_MAGIC: [u8; 8] = *b"SV2LEDG1";

/// Why an audit goes no further.
#[derive(Clone, Copy)]
pub(crate) enum Halt {
    /// The ledger has a defect; never `Legal`.
    Defect(Verdict),
    Memory,
}

/// What was read of a ledger behind its magic.
#[derive(Drop)]
pub(crate) struct Records {
    pub(crate) format: Format,
    /// Where the next record begins.
    pub(crate) place: u64,
    /// The hash over the records so far, where the format has hashes.
    pub(crate) hash: [u8; 32],
    /// What was told of their events; none before the first.
    pub(crate) replay: Option<Replay>,
}

impl Records {
    /// No record yet, behind a magic of eight bytes.
    pub(crate) fn behind(magic: &[u8]) -> Result<Records, Halt>
        requires eight { length magic.now ≡ 8 }
        ensures none { OnErr result (HasNoMagic magic.now) }
        ensures defect { IfErr result (λ halt. halt ≡ Halt.Defect (Verdict.NotALedger 0)) }
        ensures read { IfOk result (λ records. IsBehindLedger records magic.now []) }
        ensures place { IfOk result (λ records. records.place ≡ 8) }
        ensures counted { IfOk result (λ records. CountsEventsWithinPlace records) }
    {
        match format_of(magic) {
            Some(format) => Ok(Records {
                format,
                place: 8,
                hash: magic_hash(),
                replay: None,
            }),
            None => Err(Halt::Defect(Verdict::NotALedger(0))),
        }
    }

    /// Takes a record that is all there with its hash, or that says too long a body.
    pub(crate) fn take(&mut self, alloc: Global, unit: &[u8]) -> Result<(), Halt>
        requires whole { lacking self.old.format unit.now ≡ 0 }
        requires one { length unit.now ≤ unit_len self.old.format unit.now }
        requires few { self.old.place + length unit.now ≤ 2 ^ 40 }
        requires counted { CountsEventsWithinPlace self.old }
        ensures decides { (bytes : List ℕ) → IsBehindLedger self.old bytes unit.now
            → DecidesRecord self.new bytes result }
        ensures place { OnOk result (self.new.place ≡ self.old.place + length unit.now) }
        ensures format { self.new.format ≡ self.old.format }
        ensures counted { OnOk result (CountsEventsWithinPlace self.new) }
    {
        let (event, len) = self.event_of(alloc, unit)?;
        let (record, behind) = unit.split_at(len);
        let hash = self.next_hash(record, behind)?;
        self.tell(alloc, event)?;
        self.hash = hash;
        self.place += unit.len() as u64;
        Ok(())
    }

    /// The event of a record, and the record's length.
    fn event_of(&self, alloc: Global, unit: &[u8]) -> Result<(Event, usize), Halt>
        requires { lacking self.now.format unit.now ≡ 0 }
        ensures read { IfOk result (λ read. IsRecordOf unit.now read.1 read.0) }
        ensures within { IfOk result (λ read. read.1 ≤ length unit.now) }
        ensures defect { IfErr result (λ halt. (halt ≡ Halt.Memory)
            ⊎ ((halt ≡ Halt.Defect (Verdict.NotALedger self.now.place))
            × BeginsWithNoRecord unit.now)) }
    {
        match read_record(alloc, unit) {
            Ok(read) => Ok(read),
            Err(RecordError::Memory) => Err(Halt::Memory),
            Err(RecordError::NotWhole | RecordError::NoRecord) => {
                Err(Halt::Defect(Verdict::NotALedger(self.place)))
            }
        }
    }

    /// The hash over a record and all before it, which stands behind it where the format has
    /// hashes.
    fn next_hash(&self, bytes: &[u8], behind: &[u8]) -> Result<[u8; 32], Halt>
        ensures chained { IfOk result
            (λ hash. IsNextHash self.now.format self.now.hash bytes.now behind.now hash) }
        ensures broken { IfErr result
            (λ halt. IsBroken self.now bytes.now behind.now halt) }
    {
        match self.format {
            Format::Plain => Ok(self.hash),
            Format::Chained => {
                let hash = chain(&self.hash, bytes);
                if is_hash(behind, &hash) {
                    Ok(hash)
                } else {
                    Err(Halt::Defect(Verdict::BrokenChain(self.number())))
                }
            }
        }
    }

    /// The number of the next record.
    fn number(&self) -> u64
        ensures { result ≡ told_count self.now.replay }
    {
        match &self.replay {
            Some(replay) => replay.events(),
            None => 0,
        }
    }

    /// Tells one event more.
    fn tell(&mut self, alloc: Global, event: Event) -> Result<(), Halt>
        requires count { told_count self.old.replay < 2 ^ 64 - 1 }
        requires fits { EventFits event }
        ensures judged { (history : List Happened) → IsReplayOf self.old.replay history
            → IsToldOrCaused self.new.replay history event result }
        ensures counted { OnOk result (told_count self.new.replay
            ≡ told_count self.old.replay + 1) }
        ensures same { self.new ≡ record self.old { replay = self.new.replay } }
    {
        let number = self.number();
        match self.replay_one(alloc, event) {
            Ok(()) => Ok(()),
            Err(ReplayError::Memory) => Err(Halt::Memory),
            Err(ReplayError::Illegal(cause)) => Err(Halt::Defect(Verdict::Illegal(number, cause))),
        }
    }

    /// Replays one event more, or begins with it.
    fn replay_one(&mut self, alloc: Global, event: Event) -> Result<(), ReplayError>
        requires count { told_count self.old.replay < 2 ^ 64 - 1 }
        requires fits { EventFits event }
        ensures judged { (history : List Happened) → IsReplayOf self.old.replay history
            → IsReplayed self.new.replay history event result }
        ensures counted { OnOk result (told_count self.new.replay
            ≡ told_count self.old.replay + 1) }
        ensures same { self.new ≡ record self.old { replay = self.new.replay } }
    {
        match &mut self.replay {
            Some(replay) => replay.take(event),
            None => {
                self.replay = Some(Replay::begin(alloc, event)?);
                Ok(())
            }
        }
    }

    /// Looks at the bytes behind the records so far. What comes of them doesn't change by it.
    pub(crate) fn look_ahead(&mut self, alloc: Global, bytes: &[u8]) -> Result<(), AllocError>
        ensures { self.new ≡ self.old }
    {
        let hash_len = self.format.hash_len();
        match &mut self.replay {
            Some(replay) => look_ahead(replay, alloc, bytes, hash_len),
            None => Ok(()),
        }
    }

    /// Appends the summary of the events so far. Lack of memory leaves `out` as it was.
    pub(crate) fn write_summary(&self, alloc: Global, out: &mut Vec<u8>) -> Result<(), AllocError>
        ensures ok { OnOk result ((history : List Happened)
            → IsReplayOf self.now.replay history
            → out.new.items ≡ out.old.items ++ summary_text (summary_of (past_of history))) }
        ensures err { OnErr result (out.new.items ≡ out.old.items) }
    {
        match &self.replay {
            Some(replay) => replay.write_summary(out),
            None => write_summary(0, 0, &Tally::new(alloc, Rule::Proportional)?, out),
        }
    }
}

/// The format that begins with eight bytes.
fn format_of(magic: &[u8]) -> Option<Format>
    ensures some { IfSome result (λ format. magic.now ≡ magic_of format) }
    ensures none { IfNone result ((format : Layout) → magic.now ≢ magic_of format) }
{
    if magic == MAGIC.as_slice() {
        Some(Format::Chained)
    } else if magic == OLD_MAGIC.as_slice() {
        Some(Format::Plain)
    } else {
        None
    }
}

/// Whether bytes are a hash.
fn is_hash(bytes: &[u8], hash: &[u8; 32]) -> bool
    ensures { IsTrue result ↔ (bytes.now ≡ hash.now) }
{
    bytes == hash.as_slice()
}
