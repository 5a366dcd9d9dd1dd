//! The lines that are said to what a reply tells, those of one message at a time.

ghost use Rattle.std.specs.Prelude.{◌≡◌, ◌++◌, [], ◌∷◌, IfOk, OnOk, map};
ghost use Rattle.pool_history.specs.Telling.{NoteFits};
ghost use Rattle.v2_sessions.specs.Links.{PutsOut, fault_of};
ghost use Rattle.session_steps.specs.Steps.{bytes_of_frames};
ghost use Rattle.block_header.specs.Target.{target};
ghost use Rattle.v1_translate.specs.Heard as heard;
ghost use Rattle.v1_translate.specs.Heard.{Message, Named};
ghost use Rattle.v1_translate.specs.Messages.{message_reaction};
ghost use Rattle.v1_translate.specs.State.{Terms};
ghost use Rattle.v1_translate.specs.Saying.{Says};
ghost use Rattle.v1_sessions.specs.Told.{answer_told, is_named, note_told, opened_told, told_in};
ghost use Rattle.v1_sessions.specs.Asking.{heard_by};
ghost use Rattle.v1_sessions.specs.States.{lines_after, v1_after};
ghost use Rattle.v1_sessions.specs.Parts.{IsToldPart, TellsOnly};

use block_header::target_of;
use mining_msgs::{
    Mining, NewExtendedMiningJob, OpenExtendedMiningChannelSuccess, OpenMiningChannelError,
    SetNewPrevHash, SetTarget, SubmitSharesError, SubmitSharesSuccess,
};
use pool_history::{Class, Note, Notes, Opened, Reply};
use pool_io::SinkFailed;
use pool_network::Link;
use session_steps::About;
use std::alloc::{AllocError, Global};
use sv2_types::Seq32;
use v1_translate::{V1Session, V1Terms};
use v2_sessions::put_bytes;

/// The bytes of an extranonce.
const EXTRANONCE_LEN: u16 = 12;

/// What a reply tells a session.
#[derive(Clone, Copy)]
pub(crate) enum Telling {
    /// The messages by which a session of frames is answered.
    Messages,
    /// Whether a name was taken.
    Name,
}

/// Tells a session what a reply tells, and puts the lines that it says to that.
pub(crate) fn tell<L: Link>(
    alloc: Global,
    v1: &mut V1Session,
    terms: &V1Terms,
    telling: Telling,
    about: About,
    reply: &Reply,
    link: &mut L,
) -> Result<(), SinkFailed>
    ensures puts { PutsOut (bytes_of_frames
        (lines_after terms.now v1.old (heard_by telling about reply.now))) (fault_of result)
        (L.seen link.old) (L.seen link.new) }
    ensures told { OnOk result (v1.new
        ≡ v1_after terms.now v1.old (heard_by telling about reply.now)) }
{
    match telling {
        Telling::Messages => tell_messages(alloc, v1, terms, about, reply, link),
        Telling::Name => tell_name(alloc, v1, reply, link),
    }
}

/// Tells a session whether a name was taken.
fn tell_name<L: Link>(
    alloc: Global,
    v1: &mut V1Session,
    reply: &Reply,
    link: &mut L,
) -> Result<(), SinkFailed>
    ensures puts { (terms : Terms) → PutsOut (bytes_of_frames
        (lines_after terms v1.old (Named (is_named reply.now) ∷ []))) (fault_of result)
        (L.seen link.old) (L.seen link.new) }
    ensures told { (terms : Terms) → OnOk result (v1.new
        ≡ v1_after terms v1.old (Named (is_named reply.now) ∷ [])) }
{
    let mut lines = Vec::new(alloc);
    match v1.on_named(alloc, is_named(reply), &mut lines) {
        Ok(()) => put_bytes(link, &lines),
        Err(_) => Err(SinkFailed::Memory),
    }
}

/// Whether a name was taken.
fn is_named(reply: &Reply) -> bool
    ensures { result ≡ is_named reply.now }
{
    match reply {
        Reply::Named => true,
        _ => false,
    }
}

/// Tells a session the messages of a reply, and puts the lines that it says to each before the next
/// one is told.
fn tell_messages<L: Link>(
    alloc: Global,
    v1: &mut V1Session,
    terms: &V1Terms,
    about: About,
    reply: &Reply,
    link: &mut L,
) -> Result<(), SinkFailed>
    ensures puts { PutsOut (bytes_of_frames
        (lines_after terms.now v1.old (map Message (told_in about reply.now)))) (fault_of result)
        (L.seen link.old) (L.seen link.new) }
    ensures told { OnOk result (v1.new
        ≡ v1_after terms.now v1.old (map Message (told_in about reply.now))) }
{
    let mut lines = Vec::new(alloc);
    let mut part = 0;
    loop {
        lines.clear();
        match tell_part(alloc, v1, terms, about, reply, &mut part, &mut lines) {
            Ok(true) => {}
            Ok(false) => return Ok(()),
            Err(_) => return Err(SinkFailed::Memory),
        }
        put_bytes(link, &lines)?;
    }
}

/// Tells a session the message with the number `part` of what a reply tells, appends what it says,
/// and counts it, or says that there is none.
fn tell_part(
    alloc: Global,
    v1: &mut V1Session,
    terms: &V1Terms,
    about: About,
    reply: &Reply,
    part: &mut u64,
    out: &mut Vec<u8>,
) -> Result<bool, AllocError>
    ensures { IfOk result (λ more. IsToldPart more terms.now (told_in about reply.now) part.old
        part.new v1.old v1.new out.old.items out.new.items) }
{
    if let Reply::News(_, notes) = reply {
        return tell_note(alloc, v1, terms, notes, part, out);
    }
    if *part > 0 || !tell_answer(alloc, v1, terms, about, reply, out)? {
        return Ok(false);
    }
    *part = 1;
    Ok(true)
}

/// Tells the note with the number `part`.
fn tell_note(
    alloc: Global,
    v1: &mut V1Session,
    terms: &V1Terms,
    notes: &Notes,
    part: &mut u64,
    out: &mut Vec<u8>,
) -> Result<bool, AllocError>
    ensures { IfOk result (λ more. IsToldPart more terms.now (map note_told notes.now) part.old
        part.new v1.old v1.new out.old.items out.new.items) }
{
    let items = notes.items();
    let Some(note) = items.get(*part as usize) else {
        return Ok(false);
    };
    say_note(alloc, v1, terms, note, out)?;
    *part += 1;
    Ok(true)
}

/// Appends what is said to a note: a job or a tip, and nothing to others.
#[tactic(auto, unfolding(v1_translate::specs::Messages::message_reaction))]
fn say_note(
    alloc: Global,
    v1: &mut V1Session,
    terms: &V1Terms,
    note: &Note,
    out: &mut Vec<u8>,
) -> Result<(), AllocError>
    requires { NoteFits note.now }
    ensures { IfOk result (λ done. Says (message_reaction terms.now v1.old (note_told note.now))
        v1.new out.old.items out.new.items) }
{
    match note {
        Note::Extended {
            channel_id,
            job_id,
            min_ntime,
            version,
            version_rolling_allowed,
            merkle_path,
            coinbase_tx_prefix,
            coinbase_tx_suffix,
        } => {
            let message = (
                Mining::NewExtendedMiningJob(NewExtendedMiningJob {
                    channel_id: *channel_id,
                    job_id: *job_id,
                    min_ntime: *min_ntime,
                    version: *version,
                    version_rolling_allowed: *version_rolling_allowed,
                    merkle_path: Seq32::of(merkle_path.items()),
                    coinbase_tx_prefix: coinbase_tx_prefix.bytes(),
                    coinbase_tx_suffix: coinbase_tx_suffix.bytes(),
                }),
            );
            v1.on_message(alloc, terms, &message.0, out)
        }
        Note::PrevHash {
            channel_id,
            job_id,
            prev_hash,
            min_ntime,
            nbits,
        } => {
            let message = (
                Mining::SetNewPrevHash(SetNewPrevHash {
                    channel_id: *channel_id,
                    job_id: *job_id,
                    prev_hash: *prev_hash,
                    min_ntime: *min_ntime,
                    nbits: *nbits,
                }),
            );
            v1.on_message(alloc, terms, &message.0, out)
        }
        Note::Standard { .. } | Note::Solution { .. } => Ok(()),
    }
}

/// Tells an answer, and appends what is said to it, or says that it tells nothing. News are no
/// answer.
fn tell_answer(
    alloc: Global,
    v1: &mut V1Session,
    terms: &V1Terms,
    about: About,
    reply: &Reply,
    out: &mut Vec<u8>,
) -> Result<bool, AllocError>
    ensures { IfOk result (λ more. TellsOnly more terms.now (answer_told about reply.now) v1.old
        v1.new out.old.items out.new.items) }
{
    match (reply, about) {
        (Reply::Opened(opened), _) => say_opened(alloc, v1, terms, opened, out)?,
        (Reply::OpenRefused(error), _) => say_not_opened(alloc, v1, terms, error.code(), out)?,
        (Reply::Target(channel, class), _) => say_target(alloc, v1, terms, *channel, class, out)?,
        (Reply::Credited(work), About::Share(sub)) => {
            say_credited(alloc, v1, terms, sub.sequence, *work, out)?
        }
        (Reply::Refused(failed), About::Share(sub)) => {
            say_refused(alloc, v1, terms, sub.sequence, failed.code(), out)?
        }
        _ => return Ok(false),
    }
    Ok(true)
}

fn say_opened(
    alloc: Global,
    v1: &mut V1Session,
    terms: &V1Terms,
    opened: &Opened,
    out: &mut Vec<u8>,
) -> Result<(), AllocError>
    ensures { IfOk result (λ done. Says
        (message_reaction terms.now v1.old (opened_told opened.now))
        v1.new out.old.items out.new.items) }
{
    let lead = opened.lead;
    let message = (
        Mining::OpenExtendedMiningChannelSuccess(OpenExtendedMiningChannelSuccess {
            request_id: 0,
            channel_id: opened.channel,
            target: target_of(opened.class.value()),
            extranonce_size: EXTRANONCE_LEN - u16::from(lead.len()),
            extranonce_prefix: lead.bytes(),
        }),
    );
    v1.on_message(alloc, terms, &message.0, out)
}

fn say_not_opened(
    alloc: Global,
    v1: &mut V1Session,
    terms: &V1Terms,
    code: &str,
    out: &mut Vec<u8>,
) -> Result<(), AllocError>
    ensures { IfOk result (λ done. Says (message_reaction terms.now v1.old (heard.NotOpened code.now))
        v1.new out.old.items out.new.items) }
{
    let message = (
        Mining::OpenMiningChannelError(OpenMiningChannelError {
            request_id: 0,
            error_code: code,
        }),
    );
    v1.on_message(alloc, terms, &message.0, out)
}

fn say_target(
    alloc: Global,
    v1: &mut V1Session,
    terms: &V1Terms,
    channel_id: u32,
    class: &Class,
    out: &mut Vec<u8>,
) -> Result<(), AllocError>
    ensures { IfOk result (λ done. Says
        (message_reaction terms.now v1.old (heard.Target (target class.now)))
        v1.new out.old.items out.new.items) }
{
    let message = (
        Mining::SetTarget(SetTarget {
            channel_id,
            maximum_target: target_of(class.value()),
        }),
    );
    v1.on_message(alloc, terms, &message.0, out)
}

fn say_credited(
    alloc: Global,
    v1: &mut V1Session,
    terms: &V1Terms,
    sequence: u32,
    work: u64,
    out: &mut Vec<u8>,
) -> Result<(), AllocError>
    ensures { IfOk result (λ done. Says (message_reaction terms.now v1.old (heard.Accepted sequence))
        v1.new out.old.items out.new.items) }
{
    let message = (
        Mining::SubmitSharesSuccess(SubmitSharesSuccess {
            channel_id: 0,
            last_sequence_number: sequence,
            new_submits_accepted_count: 1,
            new_shares_sum: work,
        }),
    );
    v1.on_message(alloc, terms, &message.0, out)
}

fn say_refused(
    alloc: Global,
    v1: &mut V1Session,
    terms: &V1Terms,
    sequence: u32,
    code: &str,
    out: &mut Vec<u8>,
) -> Result<(), AllocError>
    ensures { IfOk result (λ done. Says
        (message_reaction terms.now v1.old (heard.Refused sequence code.now))
        v1.new out.old.items out.new.items) }
{
    let message = (
        Mining::SubmitSharesError(SubmitSharesError {
            channel_id: 0,
            sequence_number: sequence,
            error_code: code,
        }),
    );
    v1.on_message(alloc, terms, &message.0, out)
}
