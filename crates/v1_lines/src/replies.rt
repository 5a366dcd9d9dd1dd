//! How a reply is written.

ghost use Rattle.std.specs.Prelude.{◌≡◌, ◌++◌, false, IfOk, OnOk, OnErr};
ghost use Rattle.serde_json.specs.View.{view};
ghost use Rattle.serde_json.specs.Written.{has_float};
ghost use Rattle.v1_lines.specs.Replies as replies;

use crate::errors::V1Error;
use serde_json::{Map, Value, json, put};
use std::alloc::{AllocError, Global};

/// The number of an error that has none of its own.
const OTHER_ERROR: u64 = 20;

/// Appends a value's line with its end, or nothing where memory runs out.
pub fn put_line(alloc: Global, value: &Value, out: &mut Vec<u8>) -> Result<(), AllocError>
    requires { has_float (view value.now) ≡ false }
    ensures ok { OnOk result
        (out.new.items ≡ out.old.items ++ replies.written_line (view value.now)) }
    ensures err { OnErr result (out.new.items ≡ out.old.items) }
{
    let mut line = value.to_vec(alloc)?;
    line.push(b'\n')?;
    out.extend_from_slice(&line)
}

/// A reply: what went wrong or null, the id that is answered, and the answer or null.
pub fn reply_value(
    alloc: Global,
    error: Value,
    id: Value,
    answer: Value,
) -> Result<Value, AllocError>
    ensures { IfOk result (λ reply. view reply
        ≡ replies.reply_value (view error) (view id) (view answer)) }
{
    let mut members = Map::new(alloc);
    put(&mut members, alloc, "error", error)?;
    put(&mut members, alloc, "id", id)?;
    put(&mut members, alloc, "result", answer)?;
    Ok(Value::Object(members))
}

/// The reply to a request that is answered.
pub fn answer_value(alloc: Global, id: Value, answer: Value) -> Result<Value, AllocError>
    ensures { IfOk result (λ reply. view reply ≡ replies.answer_value (view id) (view answer)) }
{
    reply_value(alloc, Value::Null, id, answer)
}

/// The reply to a request that is refused.
pub fn error_reply(alloc: Global, id: Value, error: V1Error) -> Result<Value, AllocError>
    ensures { IfOk result (λ reply. view reply ≡ replies.error_reply (view id) error) }
{
    let error = error_value(alloc, error.number(), error.text())?;
    reply_value(alloc, error, id, Value::Null)
}

/// The reply to a request that is refused by this error code of Stratum V2, or by a text that is
/// none of its codes.
pub fn refusal_reply(alloc: Global, id: Value, code: &str) -> Result<Value, AllocError>
    ensures { IfOk result (λ reply. view reply ≡ replies.refusal_reply (view id) code.now) }
{
    match V1Error::for_code(code) {
        Some(error) => error_reply(alloc, id, error),
        None => {
            let error = error_value(alloc, OTHER_ERROR, code)?;
            reply_value(alloc, error, id, Value::Null)
        }
    }
}

/// An error: its number, its text, and null.
fn error_value(alloc: Global, number: u64, text: &str) -> Result<Value, AllocError>
    ensures { IfOk result (λ error. view error ≡ replies.error_value number text.now) }
{
    json!(in alloc; [number, text, null])
}
