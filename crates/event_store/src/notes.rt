//! The notes themselves, each from what it says.

ghost use Rattle.std.specs.Prelude.{◌≡◌, ◌++◌, ◌∷◌, [], IfOk, OnOk, length, map};
ghost use Rattle.block_header.specs.Hash.{dsha};
ghost use Rattle.block_header.specs.Root.{root};
ghost use Rattle.coinbase.specs.Coin.{template_parts};
ghost use Rattle.coinbase.specs.Parts.{coin};
ghost use Rattle.pool_history.specs.declared.events.Kind.TheVariants.{Standard};
ghost use Rattle.history_laws.specs.Fitting.{ScriptFits};
ghost use Rattle.pool_history.specs.Headers.{extranonce_prefix, rolled_length};
ghost use Rattle.pool_history.specs.Judging.{template_terms};
ghost use Rattle.pool_history.specs.News.{id_of, job_note};
ghost use Rattle.pool_history.specs.News as news;
ghost use Rattle.event_store.specs.Solving.{solved_by};
ghost use Rattle.event_store.specs.Told.{IsAccepted, heard_as, prev_hash_note, solution_note, told_job};

use crate::audience::Heard;
use crate::marks::Listener;
use block_header::root_of;
use coinbase::Assembly;
use pool_history::{JobError, Kind, Lead, Note, Rules, TemplateData, TipData, template_coinbase};
use share_headers::whole_extranonce;
use std::alloc::{AllocError, Global};
use sv2_types::{Blob, Hashes, U256};

/// A template's job as it is told.
#[derive(Drop)]
pub(crate) struct ToldJob<'a> {
    pub number: u32,
    pub min_ntime: Option<u32>,
    pub template: &'a TemplateData,
    pub coinbase: Assembly,
}

/// What a solution says of its credit.
#[derive(Clone, Copy)]
pub(crate) struct SolvedShare<'a> {
    pub version: u32,
    pub ntime: u32,
    pub nonce: u32,
    pub extranonce: &'a Blob,
}

/// The coinbase of a template that was accepted, with the pool's script.
pub(crate) fn coinbase_of(
    alloc: Global,
    template: &TemplateData,
    script: &[u8],
) -> Result<Assembly, AllocError>
    requires script { ScriptFits script.now }
    requires accepted { IsAccepted script.now template.now }
    ensures { IfOk result (λ parts. parts
        ≡ template_parts (template_terms template.now) script.now) }
{
    match template_coinbase(alloc, template, script) {
        Ok(coinbase) => Ok(coinbase),
        Err(JobError::Memory) => Err(AllocError),
        Err(_) => unreachable!(),
    }
}

// The root of a standard channel's job.
fn root_for(coinbase: &Assembly, path: &[[u8; 32]], lead: &Lead) -> [u8; 32]
    requires { length lead.now ≡ 4 }
    ensures { result
        ≡ root (dsha (coin coinbase.now (extranonce_prefix Standard lead.now))) path.now }
{
    root_of(
        &coinbase.txid_with(&whole_extranonce(Kind::Standard, lead, &[])),
        path,
    )
}

/// A template's job as it is told to a channel or a group.
pub(crate) fn job_note(
    alloc: Global,
    rules: &Rules,
    job: &ToldJob<'_>,
    to: &Heard,
) -> Result<Note, AllocError>
    requires { job.now.coinbase
        ≡ template_parts (template_terms job.now.template.now) rules.now.pool_script }
    ensures { IfOk result (λ note. note ≡ job_note rules.now job.now.min_ntime
        (told_job job.now.number job.now.template.now) (heard_as to.now)) }
{
    match to {
        Heard::Single(channel) => Ok(Note::Standard {
            channel_id: channel.id,
            job_id: job.number,
            min_ntime: job.min_ntime,
            version: job.template.version,
            merkle_root: U256::of(root_for(
                &job.coinbase,
                job.template.merkle_path.items(),
                &channel.lead,
            )),
        }),
        Heard::Rolling(id) | Heard::Group(id) => extended_note(alloc, rules, job, *id),
    }
}

// A job for a channel that rolls, or for a group.
fn extended_note(
    alloc: Global,
    rules: &Rules,
    job: &ToldJob<'_>,
    id: u32,
) -> Result<Note, AllocError>
    requires { job.now.coinbase
        ≡ template_parts (template_terms job.now.template.now) rules.now.pool_script }
    ensures { IfOk result (λ note. note ≡ job_note rules.now job.now.min_ntime
        (told_job job.now.number job.now.template.now) (news.Rolling id)) }
{
    Ok(Note::Extended {
        channel_id: id,
        job_id: job.number,
        min_ntime: job.min_ntime,
        version: job.template.version,
        version_rolling_allowed: rules.version_rolling,
        merkle_path: Hashes::of(alloc, job.template.merkle_path.items())?,
        coinbase_tx_prefix: Blob::of(alloc, job.coinbase.prefix())?,
        coinbase_tx_suffix: Blob::of(alloc, job.coinbase.suffix())?,
    })
}

/// A tip as it is told with the number of the job that it made live.
pub(crate) fn prev_hash_note(tip: &TipData, number: u32, to: &Heard) -> Note
    ensures { result ≡ prev_hash_note tip.now number (heard_as to.now) }
{
    Note::PrevHash {
        channel_id: id_of(to),
        job_id: number,
        prev_hash: tip.prev_hash,
        min_ntime: tip.header_timestamp,
        nbits: tip.nbits,
    }
}

fn id_of(to: &Heard) -> u32
    ensures { result ≡ id_of (heard_as to.now) }
{
    match to {
        Heard::Rolling(id) | Heard::Group(id) => *id,
        Heard::Single(channel) => channel.id,
    }
}

/// A block's solution, of the job of a template that was accepted.
pub(crate) fn solution_note(
    alloc: Global,
    rules: &Rules,
    template: &TemplateData,
    solved: &SolvedShare<'_>,
    listener: &Listener,
) -> Result<Note, AllocError>
    requires script { ScriptFits rules.now.pool_script }
    requires accepted { IsAccepted rules.now.pool_script template.now }
    requires rolls { length solved.now.extranonce.now
        ≡ rolled_length listener.now.kind listener.now.lead }
    ensures { IfOk result (λ note. note
        ≡ solution_note rules.now.pool_script template.now (solved_by solved.now) listener.now) }
{
    let coinbase = coinbase_of(alloc, template, rules.pool_script.bytes())?;
    let sent = solved.extranonce.bytes();
    let extranonce = whole_extranonce(listener.kind, &listener.lead, sent);
    Ok(Note::Solution {
        template_id: template.template_id,
        version: solved.version,
        header_timestamp: solved.ntime,
        header_nonce: solved.nonce,
        coinbase_tx: Blob::from_vec(coinbase.whole(&extranonce)?),
    })
}

/// A job to each of these.
pub(crate) fn tell_job(
    alloc: Global,
    rules: &Rules,
    job: &ToldJob<'_>,
    to: &[Heard],
    notes: &mut Vec<Note>,
) -> Result<(), AllocError>
    requires { job.now.coinbase
        ≡ template_parts (template_terms job.now.template.now) rules.now.pool_script }
    ensures { OnOk result (notes.new.items ≡ notes.old.items
        ++ map (job_note rules.now job.now.min_ntime
        (told_job job.now.number job.now.template.now)) (map heard_as to.now)) }
{
    for heard in to {
        notes.push(job_note(alloc, rules, job, heard)?)?;
    }
    Ok(())
}

/// A tip to each of these.
pub(crate) fn tell_tip(
    tip: &TipData,
    number: u32,
    to: &[Heard],
    notes: &mut Vec<Note>,
) -> Result<(), AllocError>
    ensures { OnOk result (notes.new.items ≡ notes.old.items
        ++ map (prev_hash_note tip.now number) (map heard_as to.now)) }
{
    for heard in to {
        notes.push(prev_hash_note(tip, number, heard))?;
    }
    Ok(())
}
