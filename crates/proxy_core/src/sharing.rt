//! Submissions as they go upstream.

ghost use Rattle.std.specs.Prelude.{◌≡◌, ◌<◌, IfOk, option_map, length};
ghost use Rattle.std.specs.Result.{ForOk};
ghost use Rattle.proxy_rules.specs.Steps as steps;

use crate::channel::Seat;
use proxy_rules::ProxyRefusal;
use std::alloc::{AllocError, Global};
use v1_translate::CheckedShare;

/// How many submissions go upstream.
const MOST_SENT: u32 = u32::MAX;

/// A submission of who has this seat, with the lead before what was rolled.
fn sent_by(
    alloc: Global,
    seat: &Seat,
    number: u32,
    share: &CheckedShare,
) -> Result<CheckedShare, AllocError>
    requires { length share.now.extranonce ≡ seat.now.rolled }
    ensures { IfOk result (λ up. up ≡ steps.sent_by seat.now number share.now) }
{
    let mut extranonce = Vec::with_capacity(alloc, 2 + usize::from(seat.rolled()))?;
    extranonce.extend_from_slice(&seat.lead().to_be_bytes())?;
    extranonce.extend_from_slice(share.extranonce())?;
    Ok(share.passed_on(seat.channel(), number, extranonce))
}

/// What goes upstream of a share, or why nothing does.
pub(crate) fn sent_from(
    alloc: Global,
    is_ended: bool,
    number: u32,
    share: &CheckedShare,
    seat: Option<&Seat>,
) -> Result<Result<CheckedShare, ProxyRefusal>, AllocError>
    ensures value { IfOk result (λ sent. sent ≡ steps.sent_from is_ended number share.now
        (option_map (λ seat. seat.now) seat.entry)) }
    ensures few { IfOk result (λ sent. ForOk sent (λ share. number < steps.most_sent)) }
{
    let Some(seat) = seat else {
        return Ok(Err(ProxyRefusal::NoUpstream));
    };
    if share.extranonce().len() != usize::from(seat.rolled()) {
        return Ok(Err(ProxyRefusal::WrongSize));
    }
    if is_ended {
        return Ok(Err(ProxyRefusal::UpstreamLost));
    }
    if number == MOST_SENT {
        return Ok(Err(ProxyRefusal::TooManyShares));
    }
    Ok(Ok(sent_by(alloc, seat, number, share)?))
}
