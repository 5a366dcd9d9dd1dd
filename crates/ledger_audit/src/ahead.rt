//! Credits that stand behind one another in a ledger: their headers are worked out side by side
//! before their records are taken. Nothing that is promised rests on it.

ghost use Rattle.std.specs.Prelude.{◌≡◌};

use ledger_records::{RecordError, read_record};
use ledger_replay::{Credited, Replay, submission_of};
use pool_history::{Event, Kind, Lead, Submission};
use share_headers::{Candidate, SharesAhead};
use std::alloc::{AllocError, Global};
use sv2_types::Blob;

/// The kind of a Credit's record, the first of its bytes.
const CREDIT: u8 = 9;

/// Up to four credits of one session and job.
#[derive(Drop)]
struct CreditsAhead {
    /// The session, and the shares.
    credits: Option<(u32, SharesAhead)>,
}

impl CreditsAhead {
    /// None yet.
    fn none() -> CreditsAhead {
        CreditsAhead { credits: None }
    }

    /// Takes the credit whose record the bytes begin with, where it goes on those before it, and
    /// says how many bytes the record has.
    fn push(&mut self, alloc: Global, bytes: &[u8]) -> Result<Option<usize>, AllocError> {
        let Some((session, sub, len)) = credit_at(alloc, bytes)? else {
            return Ok(None);
        };
        let goes_on = match &mut self.credits {
            Some((first, shares)) => session == *first && shares.push(unplaced(sub)),
            None => {
                self.credits = Some((session, SharesAhead::of(unplaced(sub))));
                true
            }
        };
        Ok(if goes_on { Some(len) } else { None })
    }

    /// Has a replay work out their headers, where there are two or more.
    fn foresee_by(&self, replay: &mut Replay) -> Result<(), AllocError>
        ensures { replay.new ≡ replay.old }
    {
        match &self.credits {
            Some((session, shares)) if shares.shares().len() > 1 => {
                replay.foresee(*session, shares)
            }
            _ => Ok(()),
        }
    }
}

/// A share whose channel isn't known here: the replay knows it.
fn unplaced(sub: Submission) -> Candidate {
    Candidate {
        sub,
        lead: Lead::of(1, [0; 4]),
        kind: Kind::Extended,
    }
}

/// The session and the share of the Credit whose record the bytes begin with, and how many bytes
/// the record has.
fn credit_at(alloc: Global, bytes: &[u8]) -> Result<Option<(u32, Submission, usize)>, AllocError> {
    if bytes.first().copied() != Some(CREDIT) {
        return Ok(None);
    }
    match read_record(alloc, bytes) {
        Ok((event, len)) => Ok(credit_of(&event).map(|(session, sub)| (session, sub, len))),
        Err(RecordError::Memory) => Err(AllocError),
        Err(_) => Ok(None),
    }
}

/// The session and the share of a Credit.
fn credit_of(event: &Event) -> Option<(u32, Submission)> {
    match event {
        Event::Credit {
            session,
            channel,
            job,
            nonce,
            ntime,
            version,
            extranonce,
        } if extranonce.bytes().len() <= 32 => {
            let share = Credited {
                channel: *channel,
                job: *job,
                nonce: *nonce,
                ntime: *ntime,
                version: *version,
                extranonce: extranonce.bytes(),
            };
            Some((*session, submission_of(Kind::Extended, &share)))
        }
        _ => None,
    }
}

/// Looks at the bytes behind the records that a replay was told, each of which has a hash of so many
/// bytes behind it: the headers of the credits with which they begin may be worked out now.
pub(crate) fn look_ahead(
    replay: &mut Replay,
    alloc: Global,
    bytes: &[u8],
    hash_len: usize,
) -> Result<(), AllocError>
    ensures { replay.new ≡ replay.old }
{
    if replay.count_down() {
        return Ok(());
    }
    let mut ahead = CreditsAhead::none();
    let mut rest = bytes;
    'credits: for _ in 0..4 {
        let Some(len) = ahead.push(alloc, rest)? else {
            break 'credits;
        };
        rest = behind(behind(rest, len), hash_len);
    }
    ahead.foresee_by(replay)
}

/// Looks at the records that a replay is told next: the headers of the credits with which they begin
/// may be worked out now. What comes of them doesn't change by it, also where there is no memory.
pub fn look_ahead_in_records(
    replay: &mut Replay,
    alloc: Global,
    records: &[Blob],
) -> Result<(), AllocError>
    ensures { replay.new ≡ replay.old }
{
    if replay.count_down() {
        return Ok(());
    }
    let mut ahead = CreditsAhead::none();
    'credits: for record in records.iter().take(4) {
        if ahead.push(alloc, record.bytes())?.is_none() {
            break 'credits;
        }
    }
    ahead.foresee_by(replay)
}

/// What stands behind so many bytes.
fn behind(bytes: &[u8], len: usize) -> &[u8] {
    &bytes[len.min(bytes.len())..]
}
