//! What a line asks.

ghost use Rattle.std.specs.Prelude.{◌≡◌, false, IfOk, Some, codes, option_map};
ghost use Rattle.serde_json.specs.Find.{get};
ghost use Rattle.serde_json.specs.View.{items_view, view};
ghost use Rattle.serde_json.specs.Written.{has_float};
ghost use Rattle.v1_lines.specs.Requests as requests;

use serde_json::Value;
use std::alloc::{AllocError, Global};

/// A request: the method that it names, and its parameters.
#[derive(Drop)]
pub struct MethodCall<'a> {
    pub method: &'a str,
    pub params: &'a [Value],
}

impl<'a> MethodCall<'a> {
    /// The text at a place among the parameters.
    pub fn text_at(&self, place: usize) -> Option<&'a str>
        ensures { option_map (λ text. text.now) result
            ≡ requests.text_at place (items_view self.now.params.now) }
    {
        match self.params.get(place) {
            Some(param) => param.as_str(),
            None => None,
        }
    }
}

/// Whether a line is empty, or has spaces, tabs and carriage returns alone.
pub fn is_blank_line(line: &[u8]) -> bool
    ensures { result ≡ requests.is_blank_line line.now }
{
    line.iter()
        .all(|byte| *byte == b' ' || *byte == b'\t' || *byte == b'\r')
}

/// The value of a line, where it is JSON: UTF-8 that `serde_json` accepts, of at most 127 levels.
#[tactic(auto, using(crate::proofs::Values::line_read, crate::proofs::Values::line_refused))]
pub fn line_value(alloc: Global, line: &[u8]) -> Result<Option<Value>, AllocError>
    ensures { IfOk result (λ value. option_map view value ≡ requests.line_value line.now) }
{
    match Value::from_slice(alloc, line) {
        Ok(value) => Ok(Some(value)),
        Err(error) => {
            if error.is_memory() {
                Err(AllocError)
            } else {
                Ok(None)
            }
        }
    }
}

/// The request that a value is: an object with a text as its `method`, and an array as its `params`,
/// where it has any.
pub fn call_in(value: &Value) -> Option<MethodCall<'_>>
    ensures { option_map
        (λ call. requests.method_call call.method.now (items_view call.params.now)) result
        ≡ requests.call_in (view value.now) }
{
    let method = value.get("method").and_then(Value::as_str)?;
    let params = params_in(value)?;
    Some(MethodCall { method, params })
}

/// The parameters of a request, none where it names none.
fn params_in(value: &Value) -> Option<&[Value]>
    ensures { option_map (λ params. items_view params.now) result
        ≡ requests.params_in (get (codes "params") (view value.now)) }
{
    match value.get("params") {
        None => Some(&[]),
        Some(params) => params.as_array().map(|items| items.as_slice()),
    }
}

/// The id of the answer to a request: its own where that is a whole number or a text, else null.
pub fn answer_id(value: &Value) -> Result<Value, AllocError>
    ensures id { IfOk result (λ id. view id ≡ requests.answer_id (view value.now)) }
    ensures whole { IfOk result (λ id. has_float (view id) ≡ false) }
{
    match value.get("id") {
        None => Ok(Value::Null),
        Some(id) => answered_id(id),
    }
}

fn answered_id(id: &Value) -> Result<Value, AllocError>
    ensures id { IfOk result (λ said. view said ≡ requests.answered_id (Some (view id.now))) }
    ensures whole { IfOk result (λ said. has_float (view said) ≡ false) }
{
    match id {
        Value::Number(number) => {
            if number.is_f64() {
                Ok(Value::Null)
            } else {
                Ok(Value::Number(*number))
            }
        }
        Value::String(text) => Ok(Value::String(text.clone()?)),
        _ => Ok(Value::Null),
    }
}
