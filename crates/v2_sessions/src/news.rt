//! The frames of what a session is told of events.

ghost use Rattle.std.specs.Prelude.{◌≡◌, ◌++◌, ◌<◌, ◌^◌, [], ◌∷◌, length, map, IfOk, OnOk, OnErr};
ghost use Rattle.pool_history.specs.Telling.{NoteFits};
ghost use Rattle.pool_history.specs.declared.telling.Note.TheVariants as note;
ghost use Rattle.session_steps.specs.Told.{note_frame};
ghost use Rattle.sv2_types.specs.Fields.{FitsPerhaps};
ghost use Rattle.v2_sessions.specs.Parts.{IsPart};

use mining_msgs::{Mining, NewExtendedMiningJob, NewMiningJob, SetNewPrevHash};
use pool_history::{Note, Notes};
use std::alloc::AllocError;
use sv2_types::{Blob, Seq32, U256};
use template_msgs::{SubmitSolution, Template};

/// Appends the frame of the note with the number `part`, and counts it, or says that there is none.
pub(crate) fn put_note(notes: &Notes, part: &mut u64, out: &mut Vec<u8>) -> Result<bool, AllocError>
    ensures ok { IfOk result (λ more. IsPart more (map note_frame notes.now) part.old part.new
        out.old.items out.new.items) }
    ensures err { OnErr result ((part.new ≡ part.old) × (out.new.items ≡ out.old.items)) }
{
    let items = notes.items();
    let Some(note) = items.get(*part as usize) else {
        return Ok(false);
    };
    put_frame_of(note, out)?;
    *part += 1;
    Ok(true)
}

/// Appends the frame of a note, or nothing where memory runs out.
fn put_frame_of(note: &Note, out: &mut Vec<u8>) -> Result<(), AllocError>
    requires { NoteFits note.now }
    ensures ok { OnOk result (out.new.items ≡ out.old.items ++ note_frame note.now) }
    ensures err { OnErr result (out.new.items ≡ out.old.items) }
{
    match note {
        Note::Extended {
            channel_id,
            job_id,
            min_ntime,
            version,
            version_rolling_allowed,
            merkle_path,
            coinbase_tx_prefix,
            coinbase_tx_suffix,
        } => {
            let message = (
                Mining::NewExtendedMiningJob(NewExtendedMiningJob {
                    channel_id: *channel_id,
                    job_id: *job_id,
                    min_ntime: same_time(*min_ntime),
                    version: *version,
                    version_rolling_allowed: *version_rolling_allowed,
                    merkle_path: Seq32::of(merkle_path.items()),
                    coinbase_tx_prefix: coinbase_tx_prefix.bytes(),
                    coinbase_tx_suffix: coinbase_tx_suffix.bytes(),
                }),
            );
            message.0.frame(out)
        }
        Note::Standard {
            channel_id,
            job_id,
            min_ntime,
            version,
            merkle_root,
        } => put_job(
            *channel_id,
            *job_id,
            *min_ntime,
            *version,
            *merkle_root,
            out,
        ),
        Note::PrevHash {
            channel_id,
            job_id,
            prev_hash,
            min_ntime,
            nbits,
        } => put_tip(*channel_id, *job_id, *prev_hash, *min_ntime, *nbits, out),
        Note::Solution {
            template_id,
            version,
            header_timestamp,
            header_nonce,
            coinbase_tx,
        } => put_solution(
            *template_id,
            *version,
            *header_timestamp,
            *header_nonce,
            coinbase_tx,
            out,
        ),
    }
}

fn put_job(
    channel_id: u32,
    job_id: u32,
    min_ntime: Option<u32>,
    version: u32,
    merkle_root: U256,
    out: &mut Vec<u8>,
) -> Result<(), AllocError>
    ensures ok { OnOk result (out.new.items ≡ out.old.items
        ++ note_frame (note.Standard channel_id job_id min_ntime version merkle_root)) }
    ensures err { OnErr result (out.new.items ≡ out.old.items) }
{
    let _ = merkle_root.bytes();
    let message = (
        Mining::NewMiningJob(NewMiningJob {
            channel_id,
            job_id,
            min_ntime: same_time(min_ntime),
            version,
            merkle_root,
        }),
    );
    message.0.frame(out)
}

fn put_tip(
    channel_id: u32,
    job_id: u32,
    prev_hash: U256,
    min_ntime: u32,
    nbits: u32,
    out: &mut Vec<u8>,
) -> Result<(), AllocError>
    ensures ok { OnOk result (out.new.items ≡ out.old.items
        ++ note_frame (note.PrevHash channel_id job_id prev_hash min_ntime nbits)) }
    ensures err { OnErr result (out.new.items ≡ out.old.items) }
{
    let _ = prev_hash.bytes();
    let message = (
        Mining::SetNewPrevHash(SetNewPrevHash {
            channel_id,
            job_id,
            prev_hash,
            min_ntime,
            nbits,
        }),
    );
    message.0.frame(out)
}

fn put_solution(
    template_id: u64,
    version: u32,
    header_timestamp: u32,
    header_nonce: u32,
    coinbase_tx: &Blob,
    out: &mut Vec<u8>,
) -> Result<(), AllocError>
    requires { length coinbase_tx.now < 2 ^ 16 }
    ensures ok { OnOk result (out.new.items ≡ out.old.items
        ++ note_frame
        (note.Solution template_id version header_timestamp header_nonce coinbase_tx.now)) }
    ensures err { OnErr result (out.new.items ≡ out.old.items) }
{
    let message = (
        Template::SubmitSolution(SubmitSolution {
            template_id,
            version,
            header_timestamp,
            header_nonce,
            coinbase_tx: coinbase_tx.bytes(),
        }),
    );
    message.0.frame(out)
}

/// The time itself, which has 32 bits where it is there.
fn same_time(time: Option<u32>) -> Option<u32>
    ensures value { result ≡ time }
    ensures fits { FitsPerhaps result }
{
    match time {
        Some(time) => Some(time),
        None => None,
    }
}
