//! Reads the body of a Start: its fields, and the accounts behind them.

ghost use Rattle.std.specs.Prelude.{◌≡◌, ◌≤◌, ℕ, Option, length, IfSome, IfNone};
ghost use Rattle.ledger_records.specs.Bodies.{DecidesBody, ReadsRules};
ghost use Rattle.ledger_records.specs.Fields.{rule_byte, window_field};

use crate::error::RecordError;
use crate::events::truth_of;
use crate::users::read_users;
use crate::{fields_fit, texts_are_utf8};
use pool_history::{Boxed, Event, Rules};
use std::alloc::Global;
use sv2_messages::FieldReader;
use sv2_types::Blob;

/// How many bytes the fields before the accounts have beside the pool's script.
const FIELDS_LEN: usize = 24;

/// The window that is said by a rule and a number.
fn window_of(rule: u8, window: u64) -> Option<Option<u64>>
    ensures some { IfSome result
        (λ found. (rule_byte found ≡ rule) × (window_field found ≡ window)) }
    ensures none { IfNone result ((found : Option ℕ)
        → rule_byte found ≡ rule → window_field found ≡ window → ⊥) }
{
    match rule {
        0 if window == 0 => Some(None),
        1 => Some(Some(window)),
        _ => None,
    }
}

/// The rules of these fields and these accounts.
#[tactic(auto, unfolding(sv2_messages::specs::Reading::values_of))]
fn read_rules(alloc: Global, head: &[u8], accounts: &[u8]) -> Result<Rules, RecordError>
    ensures { ReadsRules head.now accounts.now result }
{
    let mut fields = FieldReader::new(head);
    let pool_script = fields.b255()?;
    let least_class = fields.u8()?;
    let fee = fields.u16()?;
    let rule = fields.u8()?;
    let window = fields.u64()?;
    let ntime_window = fields.u32()?;
    let credit_limit = fields.u32()?;
    let rolling = fields.u8()?;
    let count = fields.u16()?;
    fields.end()?;
    let Some(window) = window_of(rule, window) else {
        return Err(RecordError::NoRecord);
    };
    let Some(version_rolling) = truth_of(rolling) else {
        return Err(RecordError::NoRecord);
    };
    match read_users(alloc, count, accounts) {
        Ok(users) => Ok(Rules {
            pool_script: Blob::of(alloc, pool_script)?,
            least_class,
            fee,
            window,
            ntime_window,
            credit_limit,
            version_rolling,
            users,
        }),
        Err(error) => Err(error),
    }
}

/// The Start whose body this is.
pub(crate) fn read_start(alloc: Global, body: &[u8]) -> Result<Event, RecordError>
    requires { length body.now ≤ 300000 }
    ensures { DecidesBody 0 body.now result }
{
    if body.is_empty() {
        return Err(RecordError::NoRecord);
    }
    let len = FIELDS_LEN + body[0] as usize;
    if body.len() < len {
        return Err(RecordError::NoRecord);
    }
    let (head, accounts) = body.split_at(len);
    match read_rules(alloc, head, accounts) {
        Ok(rules) => {
            let start = Event::Start(Boxed::new(alloc, rules)?);
            fields_fit(&start);
            texts_are_utf8(&start);
            Ok(start)
        }
        Err(error) => Err(error),
    }
}
