//! What the messages of each protocol ask for.

ghost use Rattle.std.specs.Prelude.{◌≡◌, ◌≤◌, [], ◌∷◌, ◌++◌, length, take, IfOk};
ghost use Rattle.sv2_types.specs.Fields.{Bytes};
ghost use Rattle.sv2_messages.specs.Tables.{declare_table, mining_table, template_table};
ghost use Rattle.declare_msgs.specs.Seen.{declare_message};
ghost use Rattle.mining_msgs.specs.Seen.{mining_message, submit_shares_extended, submit_shares_standard};
ghost use Rattle.mining_msgs.specs.declared.message.Mining.TheVariants as mining;
ghost use Rattle.template_msgs.specs.Seen.{template_message};
ghost use Rattle.pool_history.specs.declared.asking.Request.TheVariants as request;
ghost use Rattle.pool_history.specs.declared.events.Kind.TheVariants as kind;
ghost use Rattle.session_steps.specs.Asking.{share_fields};
ghost use Rattle.session_steps.specs.declared.about.About.TheVariants as topic;
ghost use Rattle.v2_sessions.specs.declared.meaning.Meaning.TheVariants as meanings;
ghost use Rattle.v2_sessions.specs.Meanings.{IsMeaningOf, IsSpelled};

use crate::meaning::Meaning;
use declare_msgs::Declare;
use mining_msgs::{
    Mining, OpenExtendedMiningChannel, OpenStandardMiningChannel, SubmitSharesExtended,
    SubmitSharesStandard,
};
use pool_history::{Kind, OpenAsk, Request, Submission};
use session_steps::About;
use std::alloc::{AllocError, Global};
use sv2_types::Str255;
use template_jobs::{custom_of, template_of, tip_of};
use template_msgs::Template;

/// What a common message or one of the mining protocol is.
pub(crate) fn mining_meaning(alloc: Global, message: &Mining<'_>) -> Result<Meaning, AllocError>
    requires { IsSpelled mining_table (mining_message message.now) }
    ensures { IfOk result (IsMeaningOf (mining_message message.now)) }
{
    match message {
        Mining::SetupConnection(setup) => Ok(Meaning::Setup {
            protocol: setup.protocol,
            min_version: setup.min_version,
            max_version: setup.max_version,
            flags: setup.flags,
        }),
        Mining::SetupConnectionSuccess(success) => Ok(Meaning::SetUp {
            used_version: success.used_version,
            flags: success.flags,
        }),
        Mining::OpenStandardMiningChannel(opening) => standard_opening(alloc, opening),
        Mining::OpenExtendedMiningChannel(opening) => extended_opening(alloc, opening),
        Mining::UpdateChannel(update) => Ok(Meaning::Work(
            Request::Update(update.channel_id, update.maximum_target),
            About::Channel(update.channel_id),
        )),
        Mining::CloseChannel(close) => Ok(Meaning::Work(
            Request::Close(close.channel_id),
            About::Nothing,
        )),
        Mining::SubmitSharesStandard(share) => Ok(sharing(standard_share(share))),
        Mining::SubmitSharesExtended(share) => Ok(sharing(extended_share(share))),
        Mining::SetCustomMiningJob(job) => Ok(Meaning::Work(
            Request::Custom(custom_of(alloc, job)?),
            About::OwnJob(job.channel_id, job.request_id),
        )),
        Mining::SetupConnectionError(_)
        | Mining::OpenStandardMiningChannelSuccess(_)
        | Mining::OpenMiningChannelError(_)
        | Mining::OpenExtendedMiningChannelSuccess(_)
        | Mining::NewMiningJob(_)
        | Mining::UpdateChannelError(_)
        | Mining::SetExtranoncePrefix(_)
        | Mining::SubmitSharesSuccess(_)
        | Mining::SubmitSharesError(_)
        | Mining::NewExtendedMiningJob(_)
        | Mining::SetNewPrevHash(_)
        | Mining::SetTarget(_)
        | Mining::SetCustomMiningJobSuccess(_)
        | Mining::SetCustomMiningJobError(_) => Ok(Meaning::Other),
    }
}

/// What a message of template distribution is.
pub(crate) fn template_meaning(alloc: Global, message: &Template<'_>) -> Result<Meaning, AllocError>
    requires { IsSpelled template_table (template_message message.now) }
    ensures { IfOk result (IsMeaningOf (template_message message.now)) }
{
    Ok(match message {
        Template::NewTemplate(template) => Meaning::Work(
            Request::Template(template_of(alloc, template)?),
            About::Nothing,
        ),
        Template::SetNewPrevHash(tip) => Meaning::Work(Request::Tip(tip_of(tip)), About::Nothing),
        Template::CoinbaseOutputConstraints(_)
        | Template::RequestTransactionData(_)
        | Template::RequestTransactionDataSuccess(_)
        | Template::RequestTransactionDataError(_)
        | Template::SubmitSolution(_) => Meaning::Other,
    })
}

/// What a message of job declaration is.
pub(crate) fn declare_meaning(alloc: Global, message: &Declare<'_>) -> Result<Meaning, AllocError>
    requires { IsSpelled declare_table (declare_message message.now) }
    ensures { IfOk result (IsMeaningOf (declare_message message.now)) }
{
    Ok(match message {
        Declare::AllocateMiningJobToken(token) => Meaning::Work(
            Request::Grant(Str255::of(alloc, token.user_identifier)?, None),
            About::Token(token.request_id),
        ),
        Declare::AllocateMiningJobTokenSuccess(_)
        | Declare::ProvideMissingTransactions(_)
        | Declare::ProvideMissingTransactionsSuccess(_)
        | Declare::DeclareMiningJob(_)
        | Declare::DeclareMiningJobSuccess(_)
        | Declare::DeclareMiningJobError(_)
        | Declare::PushSolution(_) => Meaning::Other,
    })
}

fn standard_opening(
    alloc: Global,
    opening: &OpenStandardMiningChannel<'_>,
) -> Result<Meaning, AllocError>
    requires { length opening.now.user_identity.now ≤ 255 }
    ensures { IfOk result
        (IsMeaningOf (mining_message (mining.OpenStandardMiningChannel opening.now))) }
{
    let ask = OpenAsk {
        kind: Kind::Standard,
        identity: Str255::of(alloc, opening.user_identity)?,
        max_target: opening.max_target,
        min_size: 0,
    };
    Ok(Meaning::Work(
        Request::Open(ask),
        About::Opening(opening.request_id, Kind::Standard),
    ))
}

fn extended_opening(
    alloc: Global,
    opening: &OpenExtendedMiningChannel<'_>,
) -> Result<Meaning, AllocError>
    requires { length opening.now.user_identity.now ≤ 255 }
    ensures { IfOk result
        (IsMeaningOf (mining_message (mining.OpenExtendedMiningChannel opening.now))) }
{
    let ask = OpenAsk {
        kind: Kind::Extended,
        identity: Str255::of(alloc, opening.user_identity)?,
        max_target: opening.max_target,
        min_size: opening.min_extranonce_size,
    };
    Ok(Meaning::Work(
        Request::Open(ask),
        About::Opening(opening.request_id, Kind::Extended),
    ))
}

/// A share is briefed first.
fn sharing(sub: Submission) -> Meaning
    ensures { result ≡ meanings.Work (request.Brief sub) (topic.Share sub) }
{
    Meaning::Work(Request::Brief(sub), About::Share(sub))
}

fn standard_share(share: &SubmitSharesStandard) -> Submission
    ensures kind { result.kind ≡ kind.Standard }
    ensures fields { share_fields result ≡ submit_shares_standard share.now }
    ensures none { result.extranonce_len ≡ 0 }
{
    Submission {
        kind: Kind::Standard,
        channel: share.channel_id,
        sequence: share.sequence_number,
        job: share.job_id,
        nonce: share.nonce,
        ntime: share.ntime,
        version: share.version,
        extranonce: [0; 32],
        extranonce_len: 0,
    }
}

fn extended_share(share: &SubmitSharesExtended<'_>) -> Submission
    requires { length share.now.extranonce.now ≤ 32 }
    ensures kind { result.kind ≡ kind.Extended }
    ensures fields { share_fields result
        ++ Bytes (take result.extranonce_len result.extranonce) ∷ []
        ≡ submit_shares_extended share.now }
{
    Submission {
        kind: Kind::Extended,
        channel: share.channel_id,
        sequence: share.sequence_number,
        job: share.job_id,
        nonce: share.nonce,
        ntime: share.ntime,
        version: share.version,
        extranonce: padded(share.extranonce),
        extranonce_len: share.extranonce.len() as u8,
    }
}

/// The bytes with zeros behind them.
pub fn padded(sent: &[u8]) -> [u8; 32]
    requires { length sent.now ≤ 32 }
    ensures { take (length sent.now) result ≡ sent.now }
{
    let mut bytes = [0; 32];
    bytes[..sent.len()].copy_from_slice(sent);
    bytes
}
