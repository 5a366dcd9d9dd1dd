//! Answers that have parts.

ghost use Rattle.std.specs.Prelude.{◌≡◌, IfOk};
ghost use Rattle.serde_json.specs.View.{view};
ghost use Rattle.v1_translate.specs.Messages as messages;

use serde_json::Value;
use std::alloc::{AllocError, Global};

/// The answer to a subscribe: the notices that are subscribed to, the lead, and how many bytes are
/// rolled behind it.
pub fn subscription_value(alloc: Global, lead: &[u8], rolled: u16) -> Result<Value, AllocError>
    ensures { IfOk result (λ answer. view answer ≡ messages.subscription_value lead.now rolled) }
{
    let mut notices = Vec::new(alloc);
    notices.push(notice_of(alloc, "mining.set_difficulty", lead)?)?;
    notices.push(notice_of(alloc, "mining.notify", lead)?)?;
    let mut parts = Vec::new(alloc);
    parts.push(Value::Array(notices))?;
    parts.push(Value::String(hex::encode(alloc, lead)?))?;
    parts.push(Value::from(u64::from(rolled)))?;
    Ok(Value::Array(parts))
}

/// A notice that is subscribed to, under the lead.
fn notice_of(alloc: Global, method: &str, lead: &[u8]) -> Result<Value, AllocError>
    ensures { IfOk result (λ notice. view notice ≡ messages.notice_of method.now lead.now) }
{
    let mut parts = Vec::new(alloc);
    parts.push(Value::try_from_str(alloc, method)?)?;
    parts.push(Value::String(hex::encode(alloc, lead)?))?;
    Ok(Value::Array(parts))
}
