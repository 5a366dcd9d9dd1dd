//! Laws of the definitions.

ghost use Rattle.stream_programs.specs.Laws.{HasOneReading};

/// Bytes are the frames of one list of submissions, up to where they stop being such frames: so the
/// answers that a run owes are determined by its input.
pub fn has_one_reading()
    ensures { HasOneReading }
{}
