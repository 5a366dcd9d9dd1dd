//! Laws of messages.

ghost use Rattle.sv2_messages.specs.Messages.{WrittenIsReadBack};

/// A law of the format: a message that fits is written as a frame of a payload that is read as the
/// same message.
pub fn written_is_read_back()
    ensures { WrittenIsReadBack }
{}
