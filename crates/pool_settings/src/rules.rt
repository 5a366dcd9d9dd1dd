//! The rules that settings say.

ghost use Rattle.std.specs.Prelude.{◌≡◌, Option, List, ℕ, codes, map, string_bytes};
ghost use Rattle.serde_json.specs.View.{items_view, view};
ghost use Rattle.pool_settings.specs.Reading.{IsAnswered, IsSaid, rules_in, script_at, short_text, texts_of, users_at, window_at, window_by};

use crate::settings::SettingsError;
use crate::values::{flag_of, number_of};
use hex::FromHexError;
use pool_history::{Rules, Users, are_rules_in_range};
use serde_json::Value;
use std::alloc::Global;
use sv2_types::{Blob, Str255};

/// The rules of the pool.
pub(crate) fn rules_of(alloc: Global, settings: &Value) -> Result<Rules, SettingsError>
    ensures { IsAnswered (rules_in (view settings.now)) result }
{
    let pool_script = script_of(alloc, settings)?;
    let least_class = number_of(settings, "least_class", None, 0, 60)?;
    let fee = number_of(settings, "fee", None, 0, 10_000)?;
    let window = window_of(settings)?;
    let ntime_window = number_of(settings, "ntime_window", Some(7_200), 0, 86_400)?;
    let credit_limit = number_of(settings, "credit_limit", Some(16_777_215), 1, 16_777_215)?;
    let version_rolling = flag_of(settings, "version_rolling", true)?;
    let users = users_of(alloc, settings)?;
    let rules = Rules {
        pool_script,
        least_class: least_class as u8,
        fee: fee as u16,
        window,
        ntime_window: ntime_window as u32,
        credit_limit: credit_limit as u32,
        version_rolling,
        users,
    };
    if are_rules_in_range(&rules) {
        Ok(rules)
    } else {
        Err(SettingsError::Bad)
    }
}

/// The pool's script, from hexadecimal.
fn script_of(alloc: Global, settings: &Value) -> Result<Blob, SettingsError>
    ensures { IsSaid (script_at (view settings.now)) result }
{
    match settings.get("pool_script").and_then(Value::as_str) {
        None => Err(SettingsError::Bad),
        Some(text) => match hex::decode(alloc, text) {
            Ok(bytes) => Ok(Blob::from_vec(bytes)),
            Err(FromHexError::OutOfMemory) => Err(SettingsError::Memory),
            Err(_) => Err(SettingsError::Bad),
        },
    }
}

/// The window of the rule, where it has one.
fn window_of(settings: &Value) -> Result<Option<u64>, SettingsError>
    ensures { IsSaid (window_at (view settings.now)) result }
{
    match settings.get("rule").and_then(Value::as_str) {
        None => Err(SettingsError::Bad),
        Some(rule) => window_by(settings, rule),
    }
}

/// The window of this rule.
fn window_by(settings: &Value, rule: &str) -> Result<Option<u64>, SettingsError>
    ensures { IsSaid (window_by rule.now (view settings.now)) result }
{
    if rule == "proportional" {
        return match settings.get("window") {
            None => Ok(None),
            Some(_) => Err(SettingsError::Bad),
        };
    }
    if rule == "pplns" {
        let window = number_of(settings, "window", None, 1, u64::MAX)?;
        return Ok(Some(window));
    }
    Err(SettingsError::Bad)
}

/// The accounts that are listed.
fn users_of(alloc: Global, settings: &Value) -> Result<Users, SettingsError>
    ensures { IsSaid (users_at (view settings.now)) result }
{
    match settings.get("users") {
        None => Ok(Users::of(Vec::new(alloc))),
        Some(users) => match users.as_array() {
            Some(users) => texts_of(alloc, users.as_slice()),
            None => Err(SettingsError::Bad),
        },
    }
}

/// Texts of at most 255 bytes.
fn texts_of(alloc: Global, values: &[Value]) -> Result<Users, SettingsError>
    ensures { IsSaid (texts_of (items_view values.now)) result }
{
    let mut texts = Vec::new(alloc);
    for value in values {
        let text = short_text(alloc, value)?;
        if texts.push(text).is_err() {
            return Err(SettingsError::Memory);
        }
    }
    Ok(Users::of(texts))
}

/// A text of at most 255 bytes.
fn short_text(alloc: Global, value: &Value) -> Result<Str255, SettingsError>
    ensures { IsSaid (short_text (view value.now)) result }
{
    match value.as_str() {
        Some(text) => {
            if text.len() <= 255 {
                Str255::of(alloc, text).map_err(|_| SettingsError::Memory)
            } else {
                Err(SettingsError::Bad)
            }
        }
        None => Err(SettingsError::Bad),
    }
}
