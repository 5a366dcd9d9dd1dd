//! What the upstream is asked for, and the terms of the sessions.

ghost use Rattle.std.specs.Prelude.{◌≡◌, ◌++◌, ◌≤◌, IfOk};
ghost use Rattle.proxy_rules.specs.State.{terms_of};
ghost use Rattle.proxy_rules.specs.Steps.{opening_message};
ghost use Rattle.v1_translate.specs.Saying.{frame_of_message};

use block_header::target_of;
use mining_msgs::{Mining, OpenExtendedMiningChannel};
use pool_history::{Rules, Users};
use std::alloc::{AllocError, Global};
use sv2_types::{Blob, Str255};
use v1_translate::V1Terms;

/// How many bytes are to be rolled at least.
const LEAST_ROLLED: u16 = 8;

/// Appends the request for the channel.
#[tactic(auto, using(crate::proofs::Openings::opening_fits), unfolding(v1_translate::specs::Saying::frame_of_message))]
pub(crate) fn put_opening(user: &Str255, base: u8, out: &mut Vec<u8>) -> Result<(), AllocError>
    requires { base ≤ 60 }
    ensures { IfOk result (λ done. out.new.items
        ≡ out.old.items ++ frame_of_message (opening_message user.now base)) }
{
    // In a tuple, since no proof covers a local of an enum whose structs borrow.
    let message = (
        Mining::OpenExtendedMiningChannel(OpenExtendedMiningChannel {
            request_id: 1,
            user_identity: user.text(),
            nominal_hash_rate: [0; 4],
            max_target: target_of(base),
            min_extranonce_size: LEAST_ROLLED,
        }),
    );
    message.0.frame(out)
}

/// Miners may roll all bits that anybody may, and each account is known.
pub(crate) fn terms_of(alloc: Global, base: u8) -> V1Terms
    requires { base ≤ 60 }
    ensures { result ≡ terms_of base }
{
    let rules = Rules {
        pool_script: Blob::from_vec(Vec::new(alloc)),
        least_class: 0,
        fee: 0,
        window: None,
        ntime_window: 0,
        credit_limit: 0,
        version_rolling: true,
        users: Users::of(Vec::new(alloc)),
    };
    V1Terms::new(rules, base)
}
