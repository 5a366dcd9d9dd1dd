//! The frames of answers.

ghost use Rattle.std.specs.Prelude.{◌≡◌, ◌^◌, ◌<◌, ◌++◌, IfOk, OnOk, OnErr, length};
ghost use Rattle.std.specs.List.{flat_map};
ghost use Rattle.job_declaration.specs.Declaring as rules;
ghost use Rattle.job_declaration.specs.Filling as filling;

use crate::lacking::missing_places;
use crate::{Asked, DeclareError, Listed};
use declare_msgs::{
    Declare, DeclareMiningJobError, DeclareMiningJobSuccess, ProvideMissingTransactions,
};
use pool_history::Reply;
use std::alloc::{AllocError, Global};
use sv2_types::SeqU16;

/// Appends the frame that asks for what isn't known, or nothing where memory runs out.
pub(crate) fn put_missing(
    alloc: Global,
    request_id: u32,
    listed: &[Listed],
    out: &mut Vec<u8>,
) -> Result<(), AllocError>
    requires { length listed.now < 2 ^ 16 }
    ensures ok { OnOk result (out.new.items ≡ out.old.items
        ++ rules.missing_frame request_id (filling.missing_places listed.now)) }
    ensures err { OnErr result (out.new.items ≡ out.old.items) }
{
    let spelled = missing_places(alloc, listed)?;
    let message = (
        Declare::ProvideMissingTransactions(ProvideMissingTransactions {
            request_id,
            unknown_tx_position_list: SeqU16::of(&spelled),
        }),
    );
    message.0.frame(out)
}

/// Appends the frame that gives an accepted declaration's token, or nothing where memory runs out.
pub fn put_success(request_id: u32, number: u64, out: &mut Vec<u8>) -> Result<(), AllocError>
    ensures ok { OnOk result (out.new.items ≡ out.old.items
        ++ rules.success_frame request_id number) }
    ensures err { OnErr result (out.new.items ≡ out.old.items) }
{
    let token = number.to_le_bytes();
    let message = (
        Declare::DeclareMiningJobSuccess(DeclareMiningJobSuccess {
            request_id,
            new_mining_job_token: &token,
        }),
    );
    message.0.frame(out)
}

/// Appends the frame that refuses a declaration, or nothing where memory runs out.
pub fn put_error(request_id: u32, error: DeclareError, out: &mut Vec<u8>) -> Result<(), AllocError>
    ensures ok { OnOk result (out.new.items ≡ out.old.items
        ++ rules.error_frame request_id error) }
    ensures err { OnErr result (out.new.items ≡ out.old.items) }
{
    let message = (
        Declare::DeclareMiningJobError(DeclareMiningJobError {
            request_id,
            error_code: error.code(),
            error_details: &[],
        }),
    );
    message.0.frame(out)
}

/// Appends what answers a declaration by a reply, if the reply does.
pub(crate) fn put_reply(asked: &Asked, reply: &Reply, out: &mut Vec<u8>) -> Result<(), AllocError>
    ensures ok { OnOk result (out.new.items ≡ out.old.items
        ++ flat_map (λ frame. frame) (rules.reply_frames asked.now reply.now)) }
    ensures err { OnErr result (out.new.items ≡ out.old.items) }
{
    let Asked::Declared(request_id) = asked else {
        return Ok(());
    };
    match reply {
        Reply::Granted(number, _) => put_success(*request_id, *number, out),
        Reply::GrantRefused(_) => put_error(*request_id, DeclareError::TooManyGrants, out),
        _ => Ok(()),
    }
}
