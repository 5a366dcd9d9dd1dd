//! Laws of the spellings.

ghost use Rattle.sv2_types.specs.Reading.{NoSpellingBeginsAnother, SpellingHasNoDefect, WrittenIsSpelling};

/// A law of the format: bytes begin with one value of a type at most.
pub fn no_spelling_begins_another()
    ensures { NoSpellingBeginsAnother }
{}

/// A law of the format: a value that is there is never refused.
pub fn spelling_has_no_defect()
    ensures { SpellingHasNoDefect }
{}

/// A law of the format: a value is written as one of its spellings.
pub fn written_is_spelling()
    ensures { WrittenIsSpelling }
{}
