//! Whole conversations with the test miner and with the script feed, turn by turn.

ghost use Rattle.std.specs.Prelude.{◌≡◌, None, IfOk};

use std::alloc::AllocError;
use sv2_types::Str255;
use test_miner::{Feed, FeedEnd, Miner, MinerEnd, MinerTask, Partner, Script};
use trial_cases::{Case, Found, word};

/// What a miner for a user, a class and a count says, and how it ends.
pub(crate) fn find_miner(found: &mut Found, case: Case<'_>) {
    let words = case.given;
    let user = word(words, 0);
    let class = found.number(word(words, 1)).min(60) as u8;
    let count = found.short_number(word(words, 2)).max(1);
    if user.len() <= 255
        && let Ok(user) = Str255::of(found.alloc(), user)
        && let Ok(mut miner) = Miner::new(found.alloc(), MinerTask { user, class, count })
    {
        match converse(found, &mut miner, words, 3) {
            Some(MinerEnd::Mined(count)) => tell_counted(found, "mined ", count),
            Some(MinerEnd::Ended(count)) => tell_counted(found, "ended ", count),
            None => found.say("on"),
        }
    }
}

fn tell_counted(found: &mut Found, text: &str, count: u32) {
    found.say(text);
    found.tell(&count);
}

/// What a feed of a script says, how it ends, and what comes of the solutions.
pub(crate) fn find_feed(found: &mut Found, case: Case<'_>) {
    let bytes = found.bytes_of(word(case.given, 0));
    match Script::read(found.alloc(), &bytes) {
        Ok(script) => match Feed::new(found.alloc(), script) {
            Ok(mut feed) => {
                let end = match converse(found, &mut feed, case.given, 1) {
                    Some(FeedEnd::Done) => "done",
                    Some(FeedEnd::BadPeer) => "bad-peer",
                    None => "on",
                };
                found.say(end);
                tell_verdicts(found, &feed);
            }
            Err(_) => found.done(false),
        },
        Err(error) => found.tell(&error),
    }
}

fn tell_verdicts(found: &mut Found, feed: &Feed) {
    for verdict in feed.ear.course.verdicts() {
        found.say(" ");
        found.tell(&verdict.id);
        found.say(if verdict.is_valid {
            " valid"
        } else {
            " invalid"
        });
    }
}

/// Tells a partner the turns, which are all words but some first ones, and tells what it says: first
/// of all, and then to each turn, up to its end, where it comes to one.
fn converse<P: Partner>(
    found: &mut Found,
    partner: &mut P,
    words: &str,
    first: usize,
) -> Option<P::End>
    requires { P.is_new partner.old }
{
    let mut out = Vec::new(found.alloc());
    if partner.start(&mut out).is_err() {
        return None;
    }
    tell_said(found, &out);
    for turn in words.split_whitespace().skip(first) {
        match take(found, partner, turn) {
            Ok(None) => {}
            Ok(end) => return end,
            Err(_) => return None,
        }
    }
    None
}

/// Tells a partner one turn: `idle`, `end`, or the bytes of a piece.
fn take<P: Partner>(
    found: &mut Found,
    partner: &mut P,
    turn: &str,
) -> Result<Option<P::End>, AllocError>
    requires { P.is_ready partner.old }
    ensures { IfOk result (λ end. end ≡ None → P.is_ready partner.new) }
{
    let mut out = Vec::new(found.alloc());
    let end = match turn {
        "idle" => partner.idle(&mut out)?,
        "end" => Some(partner.input_end()),
        digits => {
            let piece = found.bytes_of(digits);
            partner.piece(&piece, &mut out)?
        }
    };
    tell_said(found, &out);
    Ok(end)
}

fn tell_said(found: &mut Found, bytes: &[u8]) {
    if bytes.is_empty() {
        found.say("-");
    }
    found.hex(bytes);
    found.say(" ");
}
