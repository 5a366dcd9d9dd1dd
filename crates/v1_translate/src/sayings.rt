//! What is said to the miner, a line each.

ghost use Rattle.std.specs.Prelude.{◌≡◌, ◌++◌, false, IfOk};
ghost use Rattle.serde_json.specs.View.{view};
ghost use Rattle.serde_json.specs.Written.{has_float};
ghost use Rattle.v1_lines.specs.Jobs.{job_of};
ghost use Rattle.v1_translate.specs.State as state;
ghost use Rattle.v1_translate.specs.declared.asking.V1Ask.TheVariants as asks;
ghost use Rattle.v1_translate.specs.Saying.{line_of};

use crate::asking::V1Ask;
use crate::ids::LineId;
use serde_json::Value;
use std::alloc::{AllocError, Global};
use v1_lines::{
    NotifiedJob, V1Error, answer_value, error_reply, notify_value, put_line, refusal_reply,
    set_difficulty_value,
};

/// Appends the answer to a request.
#[tactic(auto, unfolding(crate::specs::Saying::line_of))]
pub fn say_answer(
    alloc: Global,
    id: LineId,
    answer: Value,
    out: &mut Vec<u8>,
) -> Result<(), AllocError>
    requires { has_float (view answer) ≡ false }
    ensures { IfOk result (λ done. out.new.items
        ≡ out.old.items ++ line_of (state.Answer id (view answer))) }
{
    let reply = answer_value(alloc, id.into_value(), answer)?;
    put_line(alloc, &reply, out)
}

/// Appends the error that a request is refused by.
#[tactic(auto, unfolding(crate::specs::Saying::line_of))]
pub(crate) fn say_refusal(
    alloc: Global,
    id: LineId,
    error: V1Error,
    out: &mut Vec<u8>,
) -> Result<(), AllocError>
    ensures { IfOk result (λ done. out.new.items
        ≡ out.old.items ++ line_of (state.Refusal id error)) }
{
    let reply = error_reply(alloc, id.into_value(), error)?;
    put_line(alloc, &reply, out)
}

/// Appends the error that a request is refused by: nothing is asked of the pool.
pub(crate) fn refuse(
    alloc: Global,
    id: LineId,
    error: V1Error,
    out: &mut Vec<u8>,
) -> Result<V1Ask, AllocError>
    ensures says { IfOk result (λ ask. out.new.items
        ≡ out.old.items ++ line_of (state.Refusal id error)) }
    ensures asks { IfOk result (λ ask. ask ≡ asks.Nothing) }
{
    say_refusal(alloc, id, error, out)?;
    Ok(V1Ask::Nothing)
}

/// Appends the error that a code of Stratum V2 becomes.
#[tactic(auto, unfolding(crate::specs::Saying::line_of))]
pub fn say_code(alloc: Global, id: LineId, code: &str, out: &mut Vec<u8>) -> Result<(), AllocError>
    ensures { IfOk result (λ done. out.new.items
        ≡ out.old.items ++ line_of (state.CodeRefusal id code.now)) }
{
    let reply = refusal_reply(alloc, id.into_value(), code)?;
    put_line(alloc, &reply, out)
}

/// Appends the notice of a difficulty.
#[tactic(auto, unfolding(crate::specs::Saying::line_of))]
pub(crate) fn say_difficulty(
    alloc: Global,
    difficulty: u64,
    out: &mut Vec<u8>,
) -> Result<(), AllocError>
    ensures { IfOk result (λ done. out.new.items
        ≡ out.old.items ++ line_of (state.Difficulty difficulty)) }
{
    let notice = set_difficulty_value(alloc, difficulty)?;
    put_line(alloc, &notice, out)
}

/// Appends the notice of a job.
#[tactic(auto, unfolding(crate::specs::Saying::line_of))]
pub(crate) fn say_job(
    alloc: Global,
    job: &NotifiedJob<'_>,
    out: &mut Vec<u8>,
) -> Result<(), AllocError>
    ensures { IfOk result (λ done. out.new.items
        ≡ out.old.items ++ line_of (state.Job (job_of job.now))) }
{
    let notice = notify_value(alloc, job)?;
    put_line(alloc, &notice, out)
}
