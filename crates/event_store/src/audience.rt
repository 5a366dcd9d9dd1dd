//! Whom a message is for.

ghost use Rattle.std.specs.Prelude.{◌≡◌, length};

use pool_history::Lead;

/// An open standard channel.
#[derive(Clone, Copy)]
pub(crate) struct StandardChannel {
    pub id: u32,
    pub lead: Lead,
    pub ghost whole: { length lead ≡ 4 },
}

/// A channel that rolls, a standard one, or the group of a session, by the id that messages are
/// sent on.
#[derive(Clone, Copy)]
pub(crate) enum Heard {
    Rolling(u32),
    Single(StandardChannel),
    Group(u32),
}
