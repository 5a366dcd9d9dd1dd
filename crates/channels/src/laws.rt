//! What is said of the tables of whole histories.

ghost use Rattle.channels.specs.Histories.{TablesShowHistories};

/// A table that was told the moves of a history shows how many channels were opened in it, and
/// channels that answer for those that are open after it.
pub fn tables_show_histories()
    ensures { TablesShowHistories }
{}
