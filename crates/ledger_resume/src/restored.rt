//! A history and its tables, restored record by record.

ghost use Rattle.std.specs.Prelude.{◌≡◌, ◌-◌, ◌<◌, ◌^◌, IfNone, IfOk, IfSome, List};
ghost use Rattle.pool_history.specs.declared.events.Event.{Event as Happened};
ghost use Rattle.pool_history.specs.Ledger.{EventFits};
ghost use Rattle.ledger_replay.specs.Replays.{WasReplayed, event_count};
ghost use Rattle.ledger_resume.specs.Restoring.{BeginsNothing, HaveNoHistory, IsBegunBy, IsRestored, IsRestoredFrom, ReplaysOne, TakesPiece};

use crate::units::{behind_magic, read_again, read_unit};
use event_store::History;
use ledger_audit::look_ahead_in_records;
use ledger_records::magic_hash;
use ledger_replay::{Replay, ReplayError, ReplayedTables};
use pool_history::Event;
use share_ledger::Tables;
use std::alloc::{AllocError, Global};
use sv2_types::Blob;

/// What was read so far: the events, what was told of them, and the hash behind the last record.
#[derive(Drop)]
pub(crate) struct Restored {
    pub(crate) alloc: Global,
    pub(crate) history: History,
    pub(crate) replay: Replay,
    pub(crate) hash: [u8; 32],
}

impl Restored {
    /// Begins with the first record; none where no history begins with it.
    pub(crate) fn begin(alloc: Global, bytes: &[u8]) -> Result<Option<Restored>, AllocError>
        ensures some { IfOk result (λ found. IfSome found (IsBegunBy bytes.now)) }
        ensures none { IfOk result (λ found. IfNone found (BeginsNothing bytes.now)) }
    {
        let Some(unit) = behind_magic(bytes) else {
            return Ok(None);
        };
        let mut hash = magic_hash();
        let Some(event) = read_unit(alloc, &mut hash, unit)? else {
            return Ok(None);
        };
        // The replay takes the event, and the history wants it too.
        let again = read_again(alloc, unit)?;
        let Event::Start(rules) = again else {
            return Ok(None);
        };
        let replay = match Replay::begin(alloc, event) {
            Ok(replay) => replay,
            Err(ReplayError::Illegal(_)) => return Ok(None),
            Err(ReplayError::Memory) => return Err(AllocError),
        };
        let history = History::start(alloc, rules.into_inner())?;
        Ok(Some(Restored {
            alloc,
            history,
            replay,
            hash,
        }))
    }

    /// Takes one record more, and says whether a history goes on with it.
    pub(crate) fn take(&mut self, bytes: &[u8]) -> Result<bool, AllocError>
        requires { IsRestored self.old }
        ensures { TakesPiece self.old.history.events bytes.now self.new result }
    {
        let mut hash = self.hash;
        let Some(event) = read_unit(self.alloc, &mut hash, bytes)? else {
            return Ok(false);
        };
        // The replay takes the event, and the history wants it too.
        let again = read_again(self.alloc, bytes)?;
        self.history.reserve()?;
        // There are fewer than 2^62.
        let _count = self.history.len();
        let Some(is_block) = replay_one(&mut self.replay, event)? else {
            return Ok(false);
        };
        self.history.push(again, is_block);
        self.hash = hash;
        Ok(true)
    }

    /// Of all records, those behind what was read may be credits whose headers are worked out now,
    /// side by side. What comes of them doesn't change by it, and without memory none is.
    pub(crate) fn look_ahead(&mut self, records: &[Blob])
        ensures { self.new ≡ self.old }
    {
        let read = records.len().min(self.history.len() as usize);
        let _looked = look_ahead_in_records(&mut self.replay, self.alloc, &records[read..]);
    }

    /// The history, and the tables that were told it.
    pub(crate) fn into_tables(self) -> Tables
        requires { IsRestored self }
        ensures { result.history.events ≡ self.history.events }
    {
        let Restored {
            alloc: _,
            history,
            replay,
            hash: _,
        } = self;
        let ReplayedTables {
            rules: _,
            sessions,
            channels,
            jobs,
            grants,
            tally,
            headers,
        } = replay.into_tables();
        Tables {
            history,
            sessions,
            channels,
            jobs,
            grants,
            tally,
            headers,
        }
    }
}

/// Replays one event more, and says whether it is a block; none where it isn't legal.
fn replay_one(replay: &mut Replay, event: Event) -> Result<Option<bool>, AllocError>
    requires count { event_count replay.old < 2 ^ 64 - 1 }
    requires fits { EventFits event }
    ensures { (past : List Happened) → WasReplayed replay.old past
        → ReplaysOne past event replay.new result }
{
    let blocks = replay.blocks();
    match replay.take(event) {
        Ok(()) => Ok(Some(replay.blocks() != blocks)),
        Err(ReplayError::Illegal(_)) => Ok(None),
        Err(ReplayError::Memory) => Err(AllocError),
    }
}

/// The history that has these records, with its tables; none where no history has them.
pub(crate) fn restore(alloc: Global, records: &[Blob]) -> Result<Option<Restored>, AllocError>
    ensures some { IfOk result (λ found. IfSome found (IsRestoredFrom records.now)) }
    ensures none { IfOk result (λ found. IfNone found (HaveNoHistory records.now)) }
{
    let Some((first, later)) = records.split_first() else {
        return Ok(None);
    };
    let Some(mut restored) = Restored::begin(alloc, first.bytes())? else {
        return Ok(None);
    };
    for record in later {
        if !restored.take(record.bytes())? {
            return Ok(None);
        }
        restored.look_ahead(records);
    }
    Ok(Some(restored))
}
