//! What a settings file says.

use pool_history::Rules;
use pool_io::Limits;
use sv2_types::Str255;
use thiserror::Error;

/// The settings of a pool.
#[derive(Debug, Drop)]
pub struct Settings {
    pub rules: Rules,
    /// The class that difficulty 1 of Stratum V1 stands for: 0 to 60.
    pub base: u8,
    pub limits: Limits,
    /// How many miners are served at once: 1 to 64.
    pub workers: u32,
    /// Where miners come.
    pub address: Str255,
    /// Where the template provider is.
    pub feed: Str255,
}

/// Why there are no settings.
#[derive(Clone, Copy, Debug, Drop, Error)]
pub enum SettingsError {
    #[error("these are no settings")]
    Bad,
    #[error("out of memory")]
    Memory,
}
