//! What the value of one key says, in its range.

ghost use Rattle.std.specs.Prelude.{◌≡◌, ◌≤◌, IfOk};
ghost use Rattle.serde_json.specs.View.{view};
ghost use Rattle.pool_settings.specs.Reading.{IsSaid, flag_at, number_at, text_at};

use crate::settings::SettingsError;
use serde_json::Value;
use std::alloc::Global;
use sv2_types::Str255;

/// The number of a key in its range.
pub(crate) fn number_of(
    settings: &Value,
    key: &str,
    default: Option<u64>,
    least: u64,
    most: u64,
) -> Result<u64, SettingsError>
    ensures said { IsSaid (number_at key.now default least most (view settings.now)) result }
    ensures within { IfOk result (λ number. number ≤ most) }
{
    let number = match settings.get(key) {
        None => default,
        Some(value) => value.as_u64(),
    };
    match number {
        Some(number) => {
            if least <= number && number <= most {
                Ok(number)
            } else {
                Err(SettingsError::Bad)
            }
        }
        None => Err(SettingsError::Bad),
    }
}

/// The truth of a key.
pub(crate) fn flag_of(settings: &Value, key: &str, default: bool) -> Result<bool, SettingsError>
    ensures { IsSaid (flag_at key.now default (view settings.now)) result }
{
    match settings.get(key) {
        None => Ok(default),
        Some(value) => match value.as_bool() {
            Some(flag) => Ok(flag),
            None => Err(SettingsError::Bad),
        },
    }
}

/// The text of a key, of 1 to 255 bytes.
pub(crate) fn text_of(
    alloc: Global,
    settings: &Value,
    key: &str,
    default: &str,
) -> Result<Str255, SettingsError>
    ensures { IsSaid (text_at key.now default.now (view settings.now)) result }
{
    let text = match settings.get(key) {
        None => Some(default),
        Some(value) => value.as_str(),
    };
    match text {
        Some(text) => {
            if 1 <= text.len() && text.len() <= 255 {
                Str255::of(alloc, text).map_err(|_| SettingsError::Memory)
            } else {
                Err(SettingsError::Bad)
            }
        }
        None => Err(SettingsError::Bad),
    }
}
