//! The settings of a pool, read from a file's bytes, and from a file that a host opens. It opens
//! nothing else, and hands the file back.
#![tactic(auto)]

mod opening;
mod reading;
mod rules;
mod settings;
mod values;

pub use opening::{NoSettings, open_settings};
pub use reading::read_settings;
pub use settings::{Settings, SettingsError};
