//! What causes, codes, refusals and verdicts print as, and fees.

use crate::reading::{refuse, tell_lines};
use channels::SetError;
use ledger_audit::{Verdict, write_verdict};
use payout_laws::fee_of;
use pool_history::{Cause, CustomError, Failed, OpenError, UpdateError};
use prefix_space::SpaceError;
use std::alloc::Global;
use std::fmt::Debug;
use trial_cases::{Found, Subject, word};

/// The conditions of a share.
const CONDITIONS: [Failed; 9] = [
    Failed::Channel,
    Failed::ExtranonceSize,
    Failed::Job,
    Failed::Stale,
    Failed::Version,
    Failed::Ntime,
    Failed::Difficulty,
    Failed::Duplicate,
    Failed::Full,
];

/// The causes that are no share's.
const CAUSES: [Cause; 19] = [
    Cause::BadStart,
    Cause::PoolFull,
    Cause::BadFlags,
    Cause::NoSession,
    Cause::BadRole,
    Cause::BadTemplate,
    Cause::BadTip,
    Cause::UnknownUser,
    Cause::BadClass,
    Cause::TooManyChannels,
    Cause::BadLead,
    Cause::BadName,
    Cause::NotOpen,
    Cause::TooManyGrants,
    Cause::BadPath,
    Cause::BadToken,
    Cause::StalePrevHash,
    Cause::BadNtime,
    Cause::BadCoinbase,
];

/// Reasons why no channel is opened.
const OPENINGS: [OpenError; 5] = [
    OpenError::UnknownUser,
    OpenError::TargetOutOfRange(61),
    OpenError::SizeTooLarge(12),
    OpenError::TooManyChannels(1024, 0),
    OpenError::NoSpace,
];

/// Reasons why no class is set.
const UPDATES: [UpdateError; 2] = [UpdateError::NotOpen, UpdateError::TargetOutOfRange(61)];

/// Reasons why no job of a miner's own is taken.
const OWN_JOBS: [CustomError; 5] = [
    CustomError::NotOpen,
    CustomError::BadToken,
    CustomError::StaleTip,
    CustomError::EarlyTime(0),
    CustomError::BadPath(0),
];

/// Nothing is kept from line to line.
#[derive(Drop)]
pub(crate) struct Printed;

impl Subject for Printed {
    fn begin(_alloc: Global) -> Option<Printed> {
        Some(Printed)
    }

    fn act(&mut self, found: &mut Found, words: &str) {
        match word(words, 0) {
            "memory" => {
                found.tell(&SpaceError::Memory);
                found.say(", ");
                found.tell(&SetError::Memory);
            }
            "verdict" => tell_verdict_of(found, words),
            "fee" => tell_fee(found, words),
            operation => {
                let number = found.short_number(word(words, 1)) as usize;
                tell_printed(found, operation, number);
            }
        }
    }
}

/// What the value of a list prints as that has this number.
fn tell_printed(found: &mut Found, operation: &str, number: usize) {
    match operation {
        "condition" => match CONDITIONS.get(number) {
            Some(failed) => tell_condition(found, *failed),
            None => refuse(found),
        },
        "cause" => match CAUSES.get(number) {
            Some(cause) => {
                found.debug(cause);
                found.say(" ");
                found.tell(cause);
            }
            None => refuse(found),
        },
        "opening" => match OPENINGS.get(number) {
            Some(error) => tell_coded(found, error, error.code()),
            None => refuse(found),
        },
        "update" => match UPDATES.get(number) {
            Some(error) => tell_coded(found, error, error.code()),
            None => refuse(found),
        },
        "own-job" => match OWN_JOBS.get(number) {
            Some(error) => tell_coded(found, error, error.code()),
            None => refuse(found),
        },
        _ => refuse(found),
    }
}

/// A refusal by its name, and its code.
fn tell_coded<E: Debug>(found: &mut Found, error: &E, code: &str) {
    found.debug(error);
    found.say(" ");
    found.say(code);
}

/// A condition's code, and what it and its cause print as.
fn tell_condition(found: &mut Found, failed: Failed) {
    tell_coded(found, &failed, failed.code());
    found.say(" ");
    found.tell(&failed);
    found.say(" ");
    found.tell(&Cause::Share(failed));
}

/// The verdict of a word, with its number and the number of its cause.
fn tell_verdict_of(found: &mut Found, words: &str) {
    let number = match word(words, 1) {
        "legal" => 0,
        _ => found.number(word(words, 2)),
    };
    match word(words, 1) {
        "legal" => tell_verdict(found, Verdict::Legal),
        "broken" => tell_verdict(found, Verdict::BrokenChain(number)),
        "none" => tell_verdict(found, Verdict::NotALedger(number)),
        "illegal" => {
            let cause = found.short_number(word(words, 3)) as usize;
            match CAUSES.get(cause) {
                Some(cause) => tell_verdict(found, Verdict::Illegal(number, *cause)),
                None => refuse(found),
            }
        }
        _ => {
            let failed = found.short_number(word(words, 3)) as usize;
            match CONDITIONS.get(failed) {
                Some(failed) => {
                    tell_verdict(found, Verdict::Illegal(number, Cause::Share(*failed)));
                }
                None => refuse(found),
            }
        }
    }
}

/// A verdict's line, in brackets in place of its end.
fn tell_verdict(found: &mut Found, verdict: Verdict) {
    let mut line = Vec::new(found.alloc());
    found.done(write_verdict(verdict, &mut line).is_ok());
    tell_lines(found, &line, "[", "]");
}

fn tell_fee(found: &mut Found, words: &str) {
    let reward = found.number(word(words, 1));
    let basis_points = found.short_number(word(words, 2));
    if reward < 1 << 40 && basis_points <= 10_000 {
        found.tell(&fee_of(reward, basis_points as u16));
    } else {
        refuse(found);
    }
}
