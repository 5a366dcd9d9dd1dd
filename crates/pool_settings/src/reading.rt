//! The settings of a file's bytes.

ghost use Rattle.std.specs.Prelude.{◌≡◌, IfOk, Err, string_bytes};
ghost use Rattle.serde_json.specs.Find.{as_object};
ghost use Rattle.serde_json.specs.View.{view};
ghost use Rattle.pool_settings.specs.declared.settings.Settings.{Settings};
ghost use Rattle.std.specs.List.{list_all};
ghost use Rattle.pool_settings.specs.Keys.{is_known_key, is_settings_object};
ghost use Rattle.pool_settings.specs.Reading.{AreInRange, AreSettings, IsAnswered, limits_in, settings_in};

use crate::rules::rules_of;
use crate::settings::{Settings, SettingsError};
use crate::values::{number_of, text_of};
use pool_io::Limits;
use serde_json::{Map, Value};
use std::alloc::Global;

/// The settings of a file: one JSON object of at most 65,536 bytes, with the keys of a settings
/// file alone. `Bad` where the bytes are no settings.
pub fn read_settings(alloc: Global, bytes: &[u8]) -> Result<Settings, SettingsError>
    ensures ok { IfOk result (λ settings. AreSettings bytes.now settings) }
    ensures ranges { IfOk result AreInRange }
    ensures bad { result ≡ Err SettingsError.Bad
        → (settings : Settings) → ¬ AreSettings bytes.now settings }
{
    if bytes.len() > 65_536 {
        return Err(SettingsError::Bad);
    }
    match Value::from_slice(alloc, bytes) {
        Ok(value) => settings_of(alloc, &value),
        Err(error) => {
            if error.is_memory() {
                Err(SettingsError::Memory)
            } else {
                Err(SettingsError::Bad)
            }
        }
    }
}

/// The settings that a value says.
fn settings_of(alloc: Global, settings: &Value) -> Result<Settings, SettingsError>
    ensures { IsAnswered (settings_in (view settings.now)) result }
{
    if !has_known_keys(settings) {
        return Err(SettingsError::Bad);
    }
    let rules = rules_of(alloc, settings)?;
    let base = number_of(settings, "v1_base", Some(32), 0, 60)?;
    let limits = limits_of(settings)?;
    let workers = number_of(settings, "workers", Some(4), 1, 64)?;
    let address = text_of(alloc, settings, "address", "127.0.0.1:3333")?;
    let feed = text_of(alloc, settings, "feed", "127.0.0.1:8442")?;
    Ok(Settings {
        rules,
        base: base as u8,
        limits,
        workers: workers as u32,
        address,
        feed,
    })
}

/// How long sessions and doors are waited for.
fn limits_of(settings: &Value) -> Result<Limits, SettingsError>
    ensures { IsAnswered (limits_in (view settings.now)) result }
{
    let idle_turns = number_of(
        settings,
        "idle_turns",
        Some(36_000),
        1,
        9_223_372_036_854_775_807,
    )?;
    let door_turns = number_of(
        settings,
        "door_turns",
        Some(36_000),
        1,
        9_223_372_036_854_775_807,
    )?;
    Ok(Limits {
        idle_turns,
        door_turns,
    })
}

/// Whether a value is an object without other keys.
#[tactic(auto, using(crate::proofs::Members::known_members))]
fn has_known_keys(settings: &Value) -> bool
    ensures { result ≡ is_settings_object (as_object (view settings.now)) }
{
    match settings.as_object() {
        Some(members) => are_known(members),
        None => false,
    }
}

/// Whether a settings file has all these keys.
fn are_known(members: &Map<String, Value>) -> bool
    ensures { result ≡ list_all (λ entry. is_known_key (string_bytes entry.0)) members.now.entries }
{
    members.iter().all(|(key, _)| is_known_key(key.as_str()))
}

/// Whether a settings file has such a key.
#[tactic(auto, unfolding(crate::specs::Keys::is_known_key))]
fn is_known_key(key: &str) -> bool
    ensures { result ≡ is_known_key key.now }
{
    matches!(
        key,
        "pool_script"
            | "least_class"
            | "fee"
            | "rule"
            | "window"
            | "ntime_window"
            | "credit_limit"
            | "users"
            | "version_rolling"
            | "v1_base"
            | "idle_turns"
            | "door_turns"
            | "workers"
            | "address"
            | "feed"
    )
}
