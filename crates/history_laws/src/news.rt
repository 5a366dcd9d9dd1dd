//! What a session is told, and that a poll goes on where the last one ended.

ghost use Rattle.history_laws.specs.News.{NewsByPlaces, NewsGoOn};

/// The news since a place are what is owed for each event from there on, once and in order, by the
/// history up to and with that event.
pub fn news_by_places()
    ensures { NewsByPlaces }
{}

/// The news over a longer history are those of the shorter one, and then those from its length on.
pub fn news_go_on()
    ensures { NewsGoOn }
{}
