//! Notices: lines that answer no request.

ghost use Rattle.std.specs.Prelude.{◌≡◌, ◌++◌, false, IfOk, map};
ghost use Rattle.serde_json.specs.Data.{array};
ghost use Rattle.serde_json.specs.View.{items_of, view};
ghost use Rattle.serde_json.specs.Written.{has_float};
ghost use Rattle.v1_lines.specs.Jobs as jobs;
ghost use Rattle.v1_lines.specs.Replies as replies;

use crate::hex_numbers::{number_text, word_text};
use serde_json::{Map, Value, json, put};
use std::alloc::{AllocError, Global};

/// A job, as `mining.notify` tells it.
#[derive(Drop)]
pub struct NotifiedJob<'a> {
    pub job_id: u32,
    /// The hash of the block before it, as a header has it.
    pub prev_hash: &'a [u8; 32],
    /// The coinbase before the extranonce.
    pub prefix: &'a [u8],
    /// The coinbase behind the extranonce.
    pub suffix: &'a [u8],
    /// The merkle branch, from below.
    pub path: &'a [[u8; 32]],
    pub version: u32,
    pub nbits: u32,
    pub min_ntime: u32,
    /// Whether all jobs before it are stale.
    pub clean_jobs: bool,
}

/// A notice: a method and its parameters.
pub fn notice_value(alloc: Global, method: &str, params: Value) -> Result<Value, AllocError>
    ensures { IfOk result (λ notice. view notice
        ≡ replies.notice_value method.now (view params)) }
{
    let mut members = Map::new(alloc);
    put(&mut members, alloc, "id", Value::Null)?;
    let name = Value::try_from_str(alloc, method)?;
    put(&mut members, alloc, "method", name)?;
    put(&mut members, alloc, "params", params)?;
    Ok(Value::Object(members))
}

/// `mining.set_difficulty`.
pub fn set_difficulty_value(alloc: Global, difficulty: u64) -> Result<Value, AllocError>
    ensures { IfOk result (λ notice. view notice ≡ replies.set_difficulty_value difficulty) }
{
    let params = json!(in alloc; [difficulty])?;
    notice_value(alloc, "mining.set_difficulty", params)
}

/// `mining.notify`.
pub fn notify_value(alloc: Global, job: &NotifiedJob<'_>) -> Result<Value, AllocError>
    ensures notice { IfOk result (λ notice. view notice ≡ jobs.notify_value (jobs.job_of job.now)) }
    ensures whole { IfOk result (λ notice. has_float (view notice) ≡ false) }
{
    let params = notify_params(alloc, job)?;
    notice_value(alloc, "mining.notify", params)
}

fn notify_params(alloc: Global, job: &NotifiedJob<'_>) -> Result<Value, AllocError>
    ensures { IfOk result (λ params. view params
        ≡ array (items_of (jobs.notify_params (jobs.job_of job.now)))) }
{
    let mut params = params_before(alloc, job)?;
    params.push(branch_value(alloc, job.path)?)?;
    push_behind(alloc, job, &mut params)?;
    Ok(Value::Array(params))
}

/// The parameters that come from the tip and the coinbase.
fn params_before(alloc: Global, job: &NotifiedJob<'_>) -> Result<Vec<Value>, AllocError>
    ensures { IfOk result (λ params. map view params.items
        ≡ jobs.params_before (jobs.job_of job.now)) }
{
    let prev_hash = job.prev_hash;
    let swapped = swap_words(alloc, prev_hash)?;
    let mut params = Vec::new(alloc);
    params.push(Value::String(number_text(alloc, job.job_id)?))?;
    params.push(hex_value(alloc, &swapped)?)?;
    params.push(hex_value(alloc, job.prefix)?)?;
    params.push(hex_value(alloc, job.suffix)?)?;
    Ok(params)
}

/// Appends the parameters that come from the header.
fn push_behind(
    alloc: Global,
    job: &NotifiedJob<'_>,
    params: &mut Vec<Value>,
) -> Result<(), AllocError>
    ensures { IfOk result (λ done. map view params.new.items
        ≡ map view params.old.items ++ jobs.params_behind (jobs.job_of job.now)) }
{
    params.push(word_value(alloc, job.version)?)?;
    params.push(word_value(alloc, job.nbits)?)?;
    params.push(word_value(alloc, job.min_ntime)?)?;
    params.push(Value::Bool(job.clean_jobs))?;
    Ok(())
}

/// The bytes of each word of four reversed.
fn swap_words(alloc: Global, bytes: &[u8]) -> Result<Vec<u8>, AllocError>
    ensures { IfOk result (λ swapped. swapped.items ≡ jobs.swapped_words bytes.now) }
{
    let mut swapped = Vec::with_capacity(alloc, bytes.len())?;
    let mut rest = bytes;
    while rest.len() >= 4 {
        let (word, more) = rest.split_at(4);
        swapped.extend_from_slice(&[word[3], word[2], word[1], word[0]])?;
        rest = more;
    }
    swapped.extend_from_slice(rest)?;
    Ok(swapped)
}

/// The merkle branch, a text for each hash.
fn branch_value(alloc: Global, path: &[[u8; 32]]) -> Result<Value, AllocError>
    ensures { IfOk result (λ branch. view branch
        ≡ array (items_of (map jobs.hex_value path.now))) }
{
    let mut texts = Vec::new(alloc);
    for hash in path {
        texts.push(hex_value(alloc, hash)?)?;
    }
    Ok(Value::Array(texts))
}

fn hex_value(alloc: Global, bytes: &[u8]) -> Result<Value, AllocError>
    ensures { IfOk result (λ text. view text ≡ jobs.hex_value bytes.now) }
{
    Ok(Value::String(hex::encode(alloc, bytes)?))
}

fn word_value(alloc: Global, word: u32) -> Result<Value, AllocError>
    ensures { IfOk result (λ text. view text ≡ jobs.word_value word) }
{
    Ok(Value::String(word_text(alloc, word)?))
}
