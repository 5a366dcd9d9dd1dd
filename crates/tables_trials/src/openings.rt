//! The table of open channels.

ghost use Rattle.std.specs.Prelude.{◌≤◌};

use crate::reading::{refuse, text};
use channels::{Channel, Channels};
use pool_history::{Class, Kind, LiveSpan, OpenAsk, Opened as Opening, Rules, Users};
use std::alloc::{AllocError, Global};
use std::fmt::Display;
use sv2_types::{Blob, Str255, U256};
use trial_cases::{Found, Subject, kind, word};

/// A table of open channels, and rules by which the user a is known and the least class is 58.
#[derive(Drop)]
pub(crate) struct Opened {
    rules: Rules,
    channels: Channels,
}

impl Subject for Opened {
    fn begin(alloc: Global) -> Option<Opened> {
        let rules = rules(alloc).ok()?;
        let channels = Channels::new(alloc).ok()?;
        Some(Opened { rules, channels })
    }

    fn act(&mut self, found: &mut Found, words: &str) {
        let operation = word(words, 0);
        if operation == "plan" || operation == "apply" {
            let words = words.split_once(' ').unwrap_or(("", "")).1;
            return plan(found, self, words, operation == "apply");
        }
        let number = found.short_number(word(words, 1));
        match operation {
            "open" => open(found, self, number, words),
            "name" => name(found, self, number, words),
            "class" => set_class(found, &mut self.channels, number, words),
            "close" => {
                let channel = found.short_number(word(words, 2));
                tell_done(found, "closed", self.channels.close(number, channel));
            }
            "leave" => {
                self.channels.leave(number);
                found.say("left");
            }
            _ => tell(found, &self.channels, operation, number, words),
        }
    }
}

fn rules(alloc: Global) -> Result<Rules, AllocError> {
    let mut users = Vec::new(alloc);
    users.push(Str255::of(alloc, "a")?)?;
    Ok(Rules {
        pool_script: Blob::of(alloc, b"\x51")?,
        least_class: 58,
        fee: 0,
        window: None,
        ntime_window: 600,
        credit_limit: 100,
        version_rolling: true,
        users: Users::of(users),
    })
}

/// Tells what the table has of a channel or of a session.
fn tell(found: &mut Found, channels: &Channels, operation: &str, number: u32, words: &str) {
    match operation {
        "channel" => tell_channel(found, channels.channel(number)),
        "own" => {
            let channel = found.short_number(word(words, 2));
            tell_channel(found, channels.own(number, channel));
        }
        "class-at" => {
            let place = found.number(word(words, 2));
            match channels.class_at(number, place) {
                Some(class) => found.tell(&class.value()),
                None => found.say("none"),
            }
        }
        "of" => match channels.of_session(number) {
            Ok(ids) => {
                found.tell(&ids.len());
                found.say(" channels");
            }
            Err(_) => found.done(false),
        },
        _ => refuse(found),
    }
}

/// Tells this word where something was done, and else why it wasn't.
fn tell_done<E: Display + Drop>(found: &mut Found, word: &str, done: Result<(), E>) {
    match done {
        Ok(()) => found.say(word),
        Err(error) => found.tell(&error),
    }
}

/// What an opening asks for: from the second word on its kind, its user, the 25th byte of its target,
/// which has ff before and 00 behind, and how many bytes it wants to roll.
fn ask(found: &mut Found, words: &str) -> Option<OpenAsk> {
    let kind = kind(word(words, 2));
    let identity = text(words, 3);
    if identity.len() > 255 {
        return None;
    }
    let mut target = [0; 32];
    for (at, byte) in target.iter_mut().enumerate() {
        if at < 24 {
            *byte = 0xff;
        }
    }
    target[24] = (found.hex_number(word(words, 4)) & 0xff) as u8;
    let min_size = (found.short_number(word(words, 5)) & 0xffff) as u16;
    let identity = Str255::of(found.alloc(), identity).ok()?;
    Some(OpenAsk {
        kind,
        identity,
        max_target: U256::of(target),
        min_size: match kind {
            Kind::Standard => 0,
            Kind::Extended | Kind::V1 => min_size,
        },
    })
}

fn open(found: &mut Found, opened: &mut Opened, session: u32, words: &str) {
    let Opened { rules, channels } = opened;
    match ask(found, words) {
        Some(ask) if rules.least_class <= 60 => match channels.open(session, 5, &ask, rules) {
            Ok(opening) => tell_opening(found, &opening),
            Err(error) => found.tell(&error),
        },
        _ => refuse(found),
    }
}

fn tell_opening(found: &mut Found, opening: &Opening) {
    found.say("channel ");
    found.tell(&opening.channel);
    found.say(" class ");
    found.tell(&opening.class.value());
    found.say(" lead ");
    found.hex(opening.lead.bytes());
}

fn name(found: &mut Found, opened: &mut Opened, session: u32, words: &str) {
    let channel = found.short_number(word(words, 2));
    let Opened { rules, channels } = opened;
    let named = channels.name(session, channel, word(words, 3), rules);
    tell_done(found, "named", named);
}

/// The class at a place of a line, which is at most 60.
fn class(found: &mut Found, words: &str, at: usize) -> Class {
    let class = found.short_number(word(words, at)).min(60) as u8;
    Class::of(class)
}

/// The bounds of the places since which jobs are live: the sixth and the seventh word, or else all.
fn span(words: &str) -> LiveSpan {
    LiveSpan {
        oldest: word(words, 5).parse().unwrap_or(0),
        newest: word(words, 6).parse().unwrap_or(u64::MAX),
    }
}

fn set_class(found: &mut Found, channels: &mut Channels, session: u32, words: &str) {
    let channel = found.short_number(word(words, 2));
    let at = found.number(word(words, 3));
    let class = class(found, words, 4);
    let set = channels.set_class(session, channel, at, class, span(words));
    tell_done(found, "set", set);
}

fn tell_channel(found: &mut Found, channel: Option<&Channel>) {
    let Some(channel) = channel else {
        return found.say("none");
    };
    found.say("session ");
    found.tell(&channel.session);
    found.say(" class ");
    found.tell(&channel.class.value());
    found.say(" account ");
    found.say(match channel.account.text() {
        "" => "-",
        account => account,
    });
}

/// Plans an operation and, where it is said, applies the plan.
fn plan(found: &mut Found, opened: &mut Opened, words: &str, applies: bool) {
    let Opened { rules, channels } = opened;
    match word(words, 0) {
        "open" => plan_opening(found, channels, rules, words, applies),
        "name" => plan_naming(found, channels, rules, words, applies),
        "class" => plan_setting(found, channels, words, applies),
        _ => refuse(found),
    }
}

fn plan_opening(
    found: &mut Found,
    channels: &mut Channels,
    rules: &Rules,
    words: &str,
    applies: bool,
) {
    let session = found.short_number(word(words, 1));
    match ask(found, words) {
        Some(ask) if rules.least_class <= 60 => {
            match channels.plan_open(session, 5, &ask, rules) {
                Ok(plan) if applies => tell_planned(found, channels.apply(plan)),
                Ok(plan) => tell_planned(found, plan.opened()),
                Err(error) => found.tell(&error),
            }
        }
        _ => refuse(found),
    }
}

fn tell_planned(found: &mut Found, opening: Option<Opening>) {
    match opening {
        Some(opening) => tell_opening(found, &opening),
        None => found.say("none"),
    }
}

fn plan_naming(
    found: &mut Found,
    channels: &mut Channels,
    rules: &Rules,
    words: &str,
    applies: bool,
) {
    let session = found.short_number(word(words, 1));
    let channel = found.short_number(word(words, 2));
    match channels.plan_name(session, channel, word(words, 3), rules) {
        Ok(plan) => {
            if applies {
                let _none = channels.apply(plan);
            }
            found.say("planned");
        }
        Err(error) => found.tell(&error),
    }
}

fn plan_setting(found: &mut Found, channels: &mut Channels, words: &str, applies: bool) {
    let session = found.short_number(word(words, 1));
    let channel = found.short_number(word(words, 2));
    let at = found.number(word(words, 3));
    let class = class(found, words, 4);
    match channels.plan_class(session, channel, at, class, span(words)) {
        Ok(plan) => {
            if applies {
                let _none = channels.apply(plan);
            }
            found.say("planned");
        }
        Err(error) => found.tell(&error),
    }
}
