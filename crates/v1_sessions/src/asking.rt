//! What a line asks of the pool, as requests.

ghost use Rattle.std.specs.Prelude.{◌≡◌, ◌≤◌, IfOk, IfSome, length, option_map};
ghost use Rattle.v1_translate.specs.Submitting.{share_of};
ghost use Rattle.v1_translate.specs.Saying.{asking_of};
ghost use Rattle.v1_sessions.specs.Asking.{IsWish, wish_request};
ghost use Rattle.v1_sessions.specs.Requests.{IsRequestFor, IsSubmissionOf, OpensV1, SharesV1, update_request};

use crate::telling::Telling;
use block_header::target_of;
use pool_history::{Class, Kind, OpenAsk, Request, Submission};
use session_steps::About;
use std::alloc::{AllocError, Global};
use sv2_types::Str255;
use v1_translate::{SentShare, V1Ask};
use v2_sessions::padded;

/// How many bytes a miner of Stratum V1 rolls.
const ROLLED: u16 = 8;

/// What a line asks of the pool.
#[derive(Drop)]
pub(crate) struct Wish {
    pub(crate) request: Request,
    /// What its answer will be about.
    pub(crate) about: About,
    /// What its answer tells.
    pub(crate) telling: Telling,
}

/// What a session asks for what a line asked, on this channel.
pub(crate) fn wish_for(
    alloc: Global,
    channel: Option<u32>,
    ask: V1Ask,
) -> Result<Option<Wish>, AllocError>
    ensures request { IfOk result (λ wish. IsRequestFor channel (asking_of ask)
        (option_map wish_request wish)) }
    ensures wish { IfOk result (λ wish. IfSome wish IsWish) }
{
    match ask {
        V1Ask::Nothing => Ok(None),
        V1Ask::Open(class) => Ok(Some(opening(alloc, class)?)),
        V1Ask::Update(channel, class) => Ok(Some(update(channel, class))),
        V1Ask::Share(share) => Ok(Some(brief(&share.as_sent()))),
        V1Ask::Name(account) => match channel {
            Some(channel) => Ok(Some(Wish {
                request: Request::Name(channel, account),
                about: About::Nothing,
                telling: Telling::Name,
            })),
            None => Ok(None),
        },
    }
}

/// Asks for a V1 channel, which has no user yet.
fn opening(alloc: Global, class: Class) -> Result<Wish, AllocError>
    ensures request { IfOk result (λ wish. OpensV1 class (wish_request wish)) }
    ensures wish { IfOk result IsWish }
{
    let ask = OpenAsk {
        kind: Kind::V1,
        identity: Str255::of(alloc, "")?,
        max_target: target_of(class.value()),
        min_size: ROLLED,
    };
    Ok(Wish {
        request: Request::Open(ask),
        about: About::Opening(0, Kind::V1),
        telling: Telling::Messages,
    })
}

/// Asks for another target.
fn update(channel: u32, class: Class) -> Wish
    ensures request { wish_request result ≡ update_request channel class }
    ensures wish { IsWish result }
{
    Wish {
        request: Request::Update(channel, target_of(class.value())),
        about: About::Channel(channel),
        telling: Telling::Messages,
    }
}

/// Asks for what the header of a share is computed from.
fn brief(share: &SentShare<'_>) -> Wish
    requires { length share.now.extranonce.now ≤ 32 }
    ensures request { SharesV1 (share_of share.now) (wish_request result) }
    ensures wish { IsWish result }
{
    let sub = submission_of(share);
    Wish {
        request: Request::Brief(sub),
        about: About::Share(sub),
        telling: Telling::Messages,
    }
}

/// A share, as one of an extended channel.
fn submission_of(share: &SentShare<'_>) -> Submission
    requires { length share.now.extranonce.now ≤ 32 }
    ensures { IsSubmissionOf (share_of share.now) result }
{
    Submission {
        kind: Kind::Extended,
        channel: share.channel,
        sequence: share.sequence,
        job: share.job,
        nonce: share.nonce,
        ntime: share.ntime,
        version: share.version,
        extranonce: padded(share.extranonce),
        extranonce_len: share.extranonce.len() as u8,
    }
}
