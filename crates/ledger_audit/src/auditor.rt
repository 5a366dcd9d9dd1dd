//! The bytes of a ledger, cut into its magic and its records.

ghost use Rattle.std.specs.Prelude.{◌≡◌, ◌⊎◌, ◌+◌, ◌-◌, ◌<◌, ◌≤◌, ◌^◌, ℕ, List, [], ◌++◌, length, take, IfOk, IsErrOf, OnErr, OnOk, Some};
ghost use Rattle.ledger_audit.specs.Lines.{verdict_line};

use crate::format::{BODY_LIMIT, Format, HEAD_LEN, body_len};
use crate::records::{Halt, Records};
use crate::verdict::{Verdict, write_verdict};
use pool_io::MOST_BYTES;
use std::alloc::{AllocError, Global};
use stream_commands::{Stop, StreamCommand};

/// Holds less than a record, and what was told of those before it.
#[derive(Drop)]
pub struct Auditor {
    pub(crate) alloc: Global,
    /// What came behind the last record; the magic so far before the first.
    pub(crate) held: Vec<u8>,
    /// The records behind the magic, once it came.
    pub(crate) records: Option<Records>,
}

/// How long the magic is.
const MAGIC_LEN: usize = 8;

impl Auditor {
    ghost use Rattle.ledger_audit.specs.Auditing.{GoesOnOrIsRefused, HasAudited, HasReadBytes, HoldsBytes, HoldsSome, IsBetweenRecords, held_place, lacking_of};
    ghost use Rattle.ledger_audit.specs.Duty.{IsPrinted, IsRefusedAs};

    /// How many bytes have come.
    fn taken(&self) -> u64
        requires { held_place self.now.records + length self.now.held.items ≤ 2 ^ 40 }
        ensures { result ≡ held_place self.now.records + length self.now.held.items }
    {
        let place = match &self.records {
            Some(records) => records.place,
            None => 0,
        };
        place + self.held.len() as u64
    }

    /// How many bytes are lacking of what is held.
    fn lacking(&self) -> usize
        ensures { result ≡ lacking_of self.now.records self.now.held.items }
    {
        match &self.records {
            Some(records) => lacking(records.format, &self.held),
            None => MAGIC_LEN.saturating_sub(self.held.len()),
        }
    }

    /// The bytes that come next may begin with a record. Without memory none is looked at.
    fn look_ahead(&mut self, piece: &[u8])
        ensures { self.new ≡ self.old }
    {
        if let Some(records) = &mut self.records
            && self.held.is_empty()
        {
            let _looked = records.look_ahead(self.alloc, piece);
        }
    }

    /// Takes what is lacking from the front of a piece, and answers how many bytes it took.
    fn feed(&mut self, piece: &[u8]) -> Result<usize, AllocError>
        requires between { IsBetweenRecords self.old }
        requires some { 0 < length piece.now }
        requires few { held_place self.old.records + length self.old.held.items + length piece.now
            ≤ 2 ^ 40 }
        ensures some { IfOk result (λ count. 0 < count) }
        ensures within { IfOk result (λ count. count ≤ length piece.now) }
        ensures held { IfOk result
            (λ count. self.new.held.items ≡ self.old.held.items ++ take count piece.now) }
        ensures records { self.new.records ≡ self.old.records }
        ensures one { OnOk result (HoldsSome self.new) }
    {
        self.look_ahead(piece);
        let count = piece.len().min(self.lacking());
        self.held.extend_from_slice(&piece[..count])?;
        Ok(count)
    }

    /// Reads what is held, if nothing is lacking of it.
    fn advance(&mut self) -> Result<(), Halt>
        requires { HoldsSome self.old }
        ensures between { OnOk result (IsBetweenRecords self.new) }
        ensures taken { OnOk result (held_place self.new.records + length self.new.held.items
            ≡ held_place self.old.records + length self.old.held.items) }
        ensures goes { (bytes : List ℕ) → HasReadBytes self.old.records self.old.held.items bytes
            → GoesOnOrIsRefused self.new bytes result }
    {
        if self.lacking() > 0 {
            return Ok(());
        }
        match &mut self.records {
            Some(records) => records.take(self.alloc, &self.held)?,
            None => begin(&mut self.records, Records::behind(&self.held)?),
        }
        self.held.clear();
        Ok(())
    }

    /// The same, and says where the ledger goes no further.
    fn step(&mut self, text: &mut Vec<u8>) -> Result<(), Stop>
        requires { HoldsSome self.old }
        ensures between { OnOk result (IsBetweenRecords self.new) }
        ensures taken { OnOk result (held_place self.new.records + length self.new.held.items
            ≡ held_place self.old.records + length self.old.held.items) }
        ensures ok { OnOk result ((bytes given : List ℕ)
            → HoldsBytes self.old bytes (given ++ text.old.items)
            → HasAudited self.new bytes (given ++ text.new.items)) }
        ensures refused { IsErrOf result Stop.Refused → (bytes given : List ℕ)
            → HoldsBytes self.old bytes (given ++ text.old.items)
            → IsPrinted (IsRefusedAs bytes) (given ++ text.new.items) }
    {
        match self.advance() {
            Ok(()) => Ok(()),
            Err(Halt::Memory) => Err(Stop::Memory),
            Err(Halt::Defect(verdict)) => Err(refuse(verdict, text)),
        }
    }
}

impl Auditor {
    ghost use Rattle.ledger_audit.specs.Auditing.{HasReadBytes, IsBetweenRecords, lacking_of};
    ghost use Rattle.ledger_audit.specs.Judging.{GoesOnOrHasVerdict};
    ghost use Rattle.ledger_audit.specs.Verdicts.{IsVerdictOf};

    /// Nothing was read yet.
    pub(crate) fn begin(alloc: Global) -> Auditor
        ensures between { IsBetweenRecords result }
        ensures none { HasReadBytes result.records result.held.items [] }
    {
        Auditor {
            alloc,
            held: Vec::new(alloc),
            records: None,
        }
    }

    /// Reads a piece, or says what verdict the bytes have, whatever follows them.
    pub(crate) fn hear(&mut self, piece: &[u8]) -> Result<(), Halt>
        requires { IsBetweenRecords self.old }
        ensures between { OnOk result (IsBetweenRecords self.new) }
        ensures goes { (bytes : List ℕ) → HasReadBytes self.old.records self.old.held.items bytes
            → GoesOnOrHasVerdict self.new (bytes ++ piece.now) result }
    {
        if piece.len() as u64 > MOST_BYTES - self.taken() {
            return Err(Halt::Memory);
        }
        let mut rest = piece;
        while !rest.is_empty() {
            let count = match self.feed(rest) {
                Ok(count) => count,
                Err(_) => return Err(Halt::Memory),
            };
            rest = &rest[count..];
            self.advance()?;
        }
        Ok(())
    }

    /// What the bytes are, as they end here.
    pub(crate) fn verdict(&self) -> Verdict
        requires { 0 < lacking_of self.now.records self.now.held.items }
        ensures { (bytes : List ℕ) → HasReadBytes self.now.records self.now.held.items bytes
            → IsVerdictOf bytes result }
    {
        match &self.records {
            Some(_) if self.held.is_empty() => Verdict::Legal,
            Some(records) => Verdict::NotALedger(records.place),
            None => Verdict::NotALedger(0),
        }
    }
}

ghost use Rattle.ledger_audit.specs.Units as units;

/// How many bytes are lacking of a record and its hash.
fn lacking(format: Format, bytes: &[u8]) -> usize
    ensures { result ≡ units.lacking format bytes.now }
{
    let Some(len) = body_len(bytes) else {
        return HEAD_LEN - bytes.len();
    };
    if len > BODY_LIMIT {
        return 0;
    }
    (HEAD_LEN + len + format.hash_len()).saturating_sub(bytes.len())
}

/// Puts the records behind the magic in their place. A function of its own, so that what was there
/// is let go of here.
fn begin(records: &mut Option<Records>, first: Records)
    ensures { records.new ≡ Some first }
{
    *records = Some(first);
}

/// Says why a ledger goes no further.
fn refuse(verdict: Verdict, text: &mut Vec<u8>) -> Stop
    ensures { result ≡ Stop.Refused → text.new.items ≡ text.old.items ++ verdict_line verdict }
{
    match write_verdict(verdict, text) {
        Ok(()) => Stop::Refused,
        Err(_) => Stop::Memory,
    }
}

impl StreamCommand for Auditor {
    ghost use Rattle.ledger_audit.specs.Auditing.{HasAudited, IsBetweenRecords};
    ghost use Rattle.ledger_audit.specs.Duty.{audit_duty};
    ghost use Rattle.ledger_audit.specs.Sound.{audit_duty_is_sound, audit_owes_so_far};

    type Task = ();

    ghost can_run = { λ _. Unit {0} };

    ghost duty = { λ _. audit_duty };

    ghost asked = { λ _. tt };

    ghost is_ready = { λ auditor. IsBetweenRecords auditor };

    ghost has_read = { λ auditor bytes text. HasAudited auditor bytes text };

    fn start(alloc: Global, _task: &()) -> Result<Auditor, AllocError> {
        Ok(Auditor {
            alloc,
            held: Vec::new(alloc),
            records: None,
        })
    }

    fn read(&mut self, piece: &[u8], text: &mut Vec<u8>) -> Result<(), Stop> {
        // No run takes more.
        if piece.len() as u64 > MOST_BYTES - self.taken() {
            return Err(Stop::Memory);
        }
        let mut rest = piece;
        while !rest.is_empty() {
            let count = self.feed(rest)?;
            rest = &rest[count..];
            self.step(text)?;
        }
        Ok(())
    }

    fn end(&mut self, text: &mut Vec<u8>) -> Result<(), Stop> {
        match &self.records {
            Some(records) if self.held.is_empty() => {
                write_verdict(Verdict::Legal, text)?;
                records.write_summary(self.alloc, text)?;
                Ok(())
            }
            Some(records) => Err(refuse(Verdict::NotALedger(records.place), text)),
            None => Err(refuse(Verdict::NotALedger(0), text)),
        }
    }

    ghost owes_so_far = { audit_owes_so_far };

    ghost is_sound = { λ _. audit_duty_is_sound };
}
