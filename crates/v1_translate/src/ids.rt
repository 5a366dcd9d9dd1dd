//! The ids of requests that wait for their answer.

use serde_json::Value;
use std::alloc::AllocError;
use std::marker::Model;
use v1_lines::answer_id;

/// The id that a request is answered by: a whole number, a text or null.
#[derive(Drop)]
pub struct LineId {
    value: Value,
}

impl Model for LineId {
    ghost use Rattle.std.specs.Prelude.{◌≡◌, false};
    ghost use Rattle.serde_json.specs.Data.{Data};
    ghost use Rattle.serde_json.specs.View.{view as data_of};
    ghost use Rattle.serde_json.specs.Written.{has_float};
    ghost use Rattle.v1_translate.specs.Codes.{data_code};

    ghost Value = { Data };

    ghost coded = { data_code };

    ghost view = { λ id. data_of id.value };

    ghost invariant = { λ id. has_float (data_of id.value) ≡ false };
}

impl LineId {
    ghost use Rattle.std.specs.Prelude.{◌≡◌, false, IfOk};
    ghost use Rattle.serde_json.specs.Data.{null};
    ghost use Rattle.serde_json.specs.View.{view};
    ghost use Rattle.serde_json.specs.Written.{has_float};
    ghost use Rattle.v1_lines.specs.Requests as requests;

    /// The id of a request.
    pub(crate) fn of(request: &Value) -> Result<LineId, AllocError>
        ensures { IfOk result (λ id. id ≡ requests.answer_id (view request.now)) }
    {
        let value = answer_id(request)?;
        Ok(LineId { value })
    }

    /// That of a line that is no JSON.
    pub(crate) fn none() -> LineId
        ensures { result ≡ null }
    {
        LineId { value: Value::Null }
    }

    pub(crate) fn into_value(self) -> Value
        ensures value { view result ≡ self }
        ensures whole { has_float (view result) ≡ false }
    {
        self.value
    }
}
