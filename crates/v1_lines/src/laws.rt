//! That the lines of a stream don't depend on how it is cut.

ghost use Rattle.v1_lines.specs.Reading.{CutsDontMatter, LinesAreFound, LinesAreUnique, ReadersFindLines};

/// In a stream there are lines and a rest, or lines and one that is too long.
pub fn lines_are_found()
    ensures { LinesAreFound }
{}

/// In a stream there are no other lines, and no other rest.
pub fn lines_are_unique()
    ensures { LinesAreUnique }
{}

/// Whatever pieces a reader is fed, and whenever a line is asked for, it gives the lines of the
/// stream, and holds what is behind them.
pub fn readers_find_lines()
    ensures { ReadersFindLines }
{}

/// Readers of one stream give the same lines, however each is fed.
pub fn cuts_dont_matter()
    ensures { CutsDontMatter }
{}
