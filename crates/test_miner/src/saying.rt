//! The frames that a miner says.

ghost use Rattle.std.specs.Prelude.{◌≡◌, ◌≤◌, ◌++◌, OnOk};
ghost use Rattle.test_miner.specs.Saying.{opening_frame, setup_frame, share_frame};

use crate::trying::MinedShare;
use block_header::target_of;
use mining_msgs::{Mining, OpenStandardMiningChannel, SubmitSharesStandard, put_plain_setup};
use std::alloc::AllocError;
use sv2_types::Str255;

/// Appends the setup of a miner whose jobs are standard ones.
pub(crate) fn put_setup(out: &mut Vec<u8>) -> Result<(), AllocError>
    ensures { OnOk result (out.new.items ≡ out.old.items ++ setup_frame) }
{
    put_plain_setup(out, 1)
}

/// Appends the request for a standard channel of this user and class.
pub(crate) fn put_opening(out: &mut Vec<u8>, user: &Str255, class: u8) -> Result<(), AllocError>
    requires { class ≤ 60 }
    ensures { OnOk result (out.new.items ≡ out.old.items ++ opening_frame user.now class) }
{
    // In a tuple, since no proof covers a local of an enum whose structs borrow.
    let opening = (
        Mining::OpenStandardMiningChannel(OpenStandardMiningChannel {
            request_id: 1,
            user_identity: user.text(),
            nominal_hash_rate: [0; 4],
            max_target: target_of(class),
        }),
    );
    opening.0.frame(out)
}

/// Appends the submission of a share.
pub(crate) fn put_share(out: &mut Vec<u8>, share: MinedShare) -> Result<(), AllocError>
    ensures { OnOk result (out.new.items ≡ out.old.items ++ share_frame share) }
{
    let submission = (
        Mining::SubmitSharesStandard(SubmitSharesStandard {
            channel_id: share.job.job.channel_id,
            sequence_number: share.number,
            job_id: share.job.job.job_id,
            nonce: share.at.nonce,
            ntime: share.at.ntime,
            version: share.job.job.version,
        }),
    );
    submission.0.frame(out)
}
