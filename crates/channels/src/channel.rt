//! An open channel as it is kept.

ghost use Rattle.std.specs.Prelude.{◌≡◌, length};
ghost use Rattle.pool_history.specs.declared.events.Kind.TheVariants.{Standard};

use crate::settings::Settings;
use pool_history::{Class, Kind, Lead};
use sv2_types::Str255;

/// An open channel.
#[derive(Drop)]
pub struct Channel {
    pub session: u32,
    pub kind: Kind,
    /// Empty where there is none yet.
    pub account: Str255,
    /// Four bytes for a standard channel.
    pub lead: Lead,
    /// The class that it was opened with.
    pub opening_class: Class,
    /// The present one.
    pub class: Class,
    /// What is kept of the classes that were set since.
    pub(crate) settings: Settings,
    pub ghost standard_is_whole: { kind ≡ Standard → length lead ≡ 4 },
}
