//! The answers to shares (Stratum V2, "SubmitShares.Success" and "SubmitShares.Error").

ghost use Rattle.std.specs.Prelude.{◌≡◌, ◌≤◌, ◌++◌, OnOk, OnErr};
ghost use Rattle.sv2_messages.specs.Messages.{FitsFrame, message_frame};
ghost use Rattle.sv2_messages.specs.Tables.{mining_table};
ghost use Rattle.mining_msgs.specs.Seen.{mining_message};
ghost use Rattle.stream_programs.specs.Answers.{answer_of};

use crate::judge::Refusal;
use mining_msgs::{Mining, SubmitSharesError, SubmitSharesStandard, SubmitSharesSuccess};
use std::alloc::AllocError;

/// Appends the answer's frame, or nothing where memory runs out.
pub fn put_answer(
    answers: &mut Vec<u8>,
    class: u8,
    share: SubmitSharesStandard,
    refusal: Option<Refusal>,
) -> Result<(), AllocError>
    requires { class ≤ 60 }
    ensures ok { OnOk result (answers.new.items ≡ answers.old.items
        ++ answer_of class share refusal) }
    ensures err { OnErr result (answers.new.items ≡ answers.old.items) }
{
    // In a tuple, since no proof covers a local of an enum whose structs borrow.
    let answer = (answer_to(class, share, refusal),);
    answer.0.frame(answers)
}

/// Credits one share of the class's work, or tells why none is credited.
fn answer_to(class: u8, share: SubmitSharesStandard, refusal: Option<Refusal>) -> Mining<'static>
    requires { class ≤ 60 }
    ensures fits { FitsFrame mining_table (mining_message result) }
    ensures frame { message_frame mining_table (mining_message result)
        ≡ answer_of class share refusal }
{
    match refusal {
        None => Mining::SubmitSharesSuccess(SubmitSharesSuccess {
            channel_id: share.channel_id,
            last_sequence_number: share.sequence_number,
            new_submits_accepted_count: 1,
            new_shares_sum: 1 << class,
        }),
        Some(refusal) => Mining::SubmitSharesError(SubmitSharesError {
            channel_id: share.channel_id,
            sequence_number: share.sequence_number,
            error_code: refusal.code(),
        }),
    }
}
