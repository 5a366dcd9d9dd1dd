//! How a session takes its input and puts its output: in pieces of at most 4,096 bytes, and frame by
//! frame, so that it holds little.

use crate::asking::tell_of;
use crate::books::{begun, rules_of};
use crate::links::serve;
use crate::steps::turns_of;
use pool_io::{SinkFailed, Source, SureKeeper, SureSource, Took};
use pool_network::Link;
use std::sync::Wait;
use trial_cases::{Found, role, word};

/// A link that keeps the greatest room that it was given, takes at most so many bytes of a piece, and
/// keeps how long each piece was.
#[derive(Drop)]
struct MeasuredLink {
    source: SureSource,
    greatest: usize,
    most: usize,
    lengths: Vec<usize>,
}

impl Link for MeasuredLink {
    ghost use Rattle.std.specs.Prelude.{None};

    ghost seen = { λ _. record {
      source = record { faults = 0; left = None };
      sink = record { faults = 0; held = None };
    } };

    fn take(&mut self, buffer: &mut [u8]) -> Took {
        self.greatest = self.greatest.max(buffer.len());
        self.source.take(buffer)
    }

    fn put(&mut self, piece: &[u8]) -> Result<usize, SinkFailed> {
        match self.lengths.push(piece.len()) {
            Ok(()) => Ok(piece.len().min(self.most).max(1)),
            Err(_) => Err(SinkFailed::Memory),
        }
    }

    fn hang_up(&mut self) {}
}

/// A session of its own for each line. It has to end well.
pub(crate) fn play(rt: &impl Wait, found: &mut Found, words: &str) {
    let number = found.short_number(word(words, 2));
    let mut steps = Found::new(found.alloc());
    if word(words, 0) == "lengths" {
        steps.say(word(words, 3));
    } else {
        steps.say("00000f");
        steps.hex(&number.to_le_bytes()[..3]);
        tell_of(&mut steps, " 00*", &number);
    }
    steps.say("|idle");
    let mut link = MeasuredLink {
        source: SureSource::of(turns_of(found, steps.text(), '|', 0)),
        greatest: 0,
        most: number as usize,
        lengths: Vec::new(found.alloc()),
    };
    let keeper = SureKeeper::new(found.alloc());
    let rules = rules_of(found, true, 3, "");
    let mut end = Found::new(found.alloc());
    if let Some(book) = begun(found, rules, keeper) {
        serve(rt, &mut end, book, &mut link, role(word(words, 1)));
    }
    if end.text() != "Done" {
        found.say("another end ");
    }
    tell_measured(found, &link, word(words, 0));
}

fn tell_measured(found: &mut Found, link: &MeasuredLink, form: &str) {
    if form == "lengths" {
        found.say("pieces");
        for length in &link.lengths {
            tell_of(found, " ", length);
        }
    } else {
        found.tell(&link.greatest);
    }
}
