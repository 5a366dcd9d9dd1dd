//! The frames of answers.

ghost use Rattle.std.specs.Prelude.{◌≡◌, ◌≤◌, ◌+◌, ◌++◌, [], ◌∷◌, ℕ, length, take, OnOk, OnErr};
ghost use Rattle.block_header.specs.Target.{target};
ghost use Rattle.coinbase.specs.Coin.{pool_output};
ghost use Rattle.coinbase.specs.Form.{output_bytes};
ghost use Rattle.pool_history.specs.declared.events.Kind.TheVariants as kind;
ghost use Rattle.pool_history.specs.declared.events.Role.TheVariants as role;
ghost use Rattle.pool_history.specs.Headers.{extranonce_prefix};
ghost use Rattle.session_steps.specs.Answers.{constraints_frame, credit_frames, grant_error_frames, greeting, only_frames, open_error_frames, opened_frames, opening_frames, own_job_error_frames, own_job_frames, own_setup_frame, refusal_frame, setup_code, setup_frames, share_error_frames, token_frame, token_frames, update_error_frames};
ghost use Rattle.session_steps.specs.Steps.{bytes_of_frames};
ghost use Rattle.session_steps.specs.Told.{mining_frame};
ghost use Rattle.sv2_types.specs.Fields.{Bytes, Number};
ghost use Rattle.sv2_messages.specs.declared.kinds.TheConstants as message_kinds;
ghost use Rattle.v2_sessions.specs.Parts.{PutsOnly};

use block_header::target_of;
use declare_msgs::{AllocateMiningJobTokenSuccess, Declare};
use job_declaration::{DeclareError, put_error, put_success};
use mining_msgs::{
    Mining, OpenExtendedMiningChannelSuccess, OpenMiningChannelError,
    OpenStandardMiningChannelSuccess, SetCustomMiningJobError, SetCustomMiningJobSuccess,
    SetTarget, SetupConnection, SetupConnectionError, SetupConnectionSuccess, SubmitSharesError,
    SubmitSharesSuccess, UpdateChannelError,
};
use pool_history::{Class, Kind, Lead, Opened, Reply, Role, Script, SessionNumber};
use session_steps::{About, SetupCode};
use std::alloc::AllocError;
use template_msgs::{CoinbaseOutputConstraints, Template};

/// The version of the protocol.
const VERSION: u16 = 2;

/// The protocol of template distribution.
const TEMPLATE_DISTRIBUTION: u8 = 2;

/// An output with a script of 100 bytes.
const OUTPUT_SIZE: u32 = 109;

const OUTPUT_SIGOPS: u16 = 400;

/// The bytes of an extranonce.
const EXTRANONCE_LEN: u16 = 12;

/// The group ids of sessions begin here.
const FIRST_GROUP: u32 = 1 << 31;

/// Appends the frame that refuses a setup, or nothing where memory runs out.
pub fn put_refusal(code: SetupCode, flags: u32, out: &mut Vec<u8>) -> Result<(), AllocError>
    ensures ok { OnOk result (out.new.items ≡ out.old.items ++ refusal_frame code flags) }
    ensures err { OnErr result (out.new.items ≡ out.old.items) }
{
    let message = (
        Mining::SetupConnectionError(SetupConnectionError {
            flags,
            error_code: code_of(code),
        }),
    );
    message.0.frame(out)
}

fn code_of(code: SetupCode) -> &'static str
    ensures code { result.now ≡ setup_code code }
    ensures short { length result.now ≤ 255 }
{
    match code {
        SetupCode::Protocol => "unsupported-protocol",
        SetupCode::Version => "protocol-version-mismatch",
        SetupCode::Flags => "unsupported-feature-flags",
    }
}

/// Appends what a feed is greeted with, or nothing where memory runs out.
pub(crate) fn put_greeting(out: &mut Vec<u8>) -> Result<(), AllocError>
    ensures ok { OnOk result (out.new.items
        ≡ out.old.items ++ bytes_of_frames (greeting role.Feed)) }
    ensures err { OnErr result (out.new.items ≡ out.old.items) }
{
    let start = out.len();
    put_own_setup(out)?;
    let put = put_constraints(out);
    if put.is_err() {
        out.truncate(start);
    }
    put
}

/// Appends the pool's own setup with a feed.
fn put_own_setup(out: &mut Vec<u8>) -> Result<(), AllocError>
    ensures ok { OnOk result (out.new.items ≡ out.old.items ++ own_setup_frame) }
    ensures err { OnErr result (out.new.items ≡ out.old.items) }
{
    let message = (
        Mining::SetupConnection(SetupConnection {
            protocol: TEMPLATE_DISTRIBUTION,
            min_version: VERSION,
            max_version: VERSION,
            flags: 0,
            endpoint_host: "",
            endpoint_port: 0,
            vendor: "",
            hardware_version: "",
            firmware: "",
            device_id: "",
        }),
    );
    message.0.frame(out)
}

/// Appends how much room the pool's output wants.
fn put_constraints(out: &mut Vec<u8>) -> Result<(), AllocError>
    ensures ok { OnOk result (out.new.items ≡ out.old.items ++ constraints_frame) }
    ensures err { OnErr result (out.new.items ≡ out.old.items) }
{
    let message = (
        Template::CoinbaseOutputConstraints(CoinbaseOutputConstraints {
            max_additional_size: OUTPUT_SIZE,
            max_additional_sigops: OUTPUT_SIGOPS,
        }),
    );
    message.0.frame(out)
}

/// Appends the only frame that answers a reply, or says that there is none. News are no answer.
pub(crate) fn put_answer(
    role: Role,
    number: SessionNumber,
    about: &About,
    reply: &Reply,
    out: &mut Vec<u8>,
) -> Result<bool, AllocError>
    ensures { PutsOnly result (only_frames role number about.now reply.now)
        out.old.items out.new.items }
{
    match reply {
        Reply::Entered(_) => put_setup_success(role, out),
        Reply::Opened(opened) => put_opening(about, number, opened, out),
        Reply::OpenRefused(error) => put_open_error(about, error.code(), out),
        Reply::Target(channel, class) => put_target(*channel, class, out),
        Reply::UpdateRefused(error) => put_update_error(about, error.code(), out),
        Reply::Credited(work) => put_credit(about, *work, out),
        Reply::Refused(failed) => put_share_error(about, failed.code(), out),
        Reply::Granted(grant, script) => put_token(about, *grant, script, out),
        Reply::GrantRefused(_) => put_grant_error(about, out),
        Reply::CustomJob(job) => put_own_job(about, *job, out),
        Reply::CustomRefused(error) => put_own_job_error(about, error.code(), out),
        Reply::PoolFull(_)
        | Reply::NoSession
        | Reply::Left
        | Reply::Job(_)
        | Reply::TemplateRefused(_)
        | Reply::Named
        | Reply::NameRefused(_)
        | Reply::Closed
        | Reply::NotOpen
        | Reply::Brief(_)
        | Reply::News(_, _) => Ok(false),
    }
}

fn put_setup_success(role: Role, out: &mut Vec<u8>) -> Result<bool, AllocError>
    ensures { PutsOnly result (setup_frames role) out.old.items out.new.items }
{
    if role == Role::Feed {
        return Ok(false);
    }
    let message = (
        Mining::SetupConnectionSuccess(SetupConnectionSuccess {
            used_version: VERSION,
            flags: 0,
        }),
    );
    message.0.frame(out)?;
    Ok(true)
}

fn put_opening(
    about: &About,
    number: SessionNumber,
    opened: &Opened,
    out: &mut Vec<u8>,
) -> Result<bool, AllocError>
    ensures { PutsOnly result (opening_frames about.now number opened.now)
        out.old.items out.new.items }
{
    let About::Opening(request_id, kind) = about else {
        return Ok(false);
    };
    match kind {
        Kind::Standard => {
            put_standard(
                *request_id,
                number,
                opened.channel,
                opened.class,
                opened.lead,
                out,
            )
        }
        Kind::Extended => put_extended(*request_id, opened.channel, opened.class, opened.lead, out),
        Kind::V1 => Ok(false),
    }
}

fn put_standard(
    request_id: u32,
    number: SessionNumber,
    channel_id: u32,
    class: Class,
    lead: Lead,
    out: &mut Vec<u8>,
) -> Result<bool, AllocError>
    ensures { PutsOnly result (opened_frames kind.Standard request_id number
        (record { channel = channel_id; class = class; lead = lead })) out.old.items out.new.items }
{
    let (prefix, length) = standard_prefix(&lead);
    let message = (
        Mining::OpenStandardMiningChannelSuccess(OpenStandardMiningChannelSuccess {
            request_id,
            channel_id,
            target: target_of(class.value()),
            extranonce_prefix: &prefix[..length],
            group_channel_id: FIRST_GROUP + number.value(),
        }),
    );
    message.0.frame(out)?;
    Ok(true)
}

/// A standard channel's lead with eight zero bytes behind it, and how many bytes these are.
fn standard_prefix(lead: &Lead) -> ([u8; 12], usize)
    ensures count { result.1 ≡ length lead.now + 8 }
    ensures few { result.1 ≤ 12 }
    ensures prefix { take result.1 result.0 ≡ extranonce_prefix kind.Standard lead.now }
{
    let count = usize::from(lead.len());
    let mut prefix = [0; 12];
    prefix[..count].copy_from_slice(lead.bytes());
    (prefix, count + 8)
}

fn put_extended(
    request_id: u32,
    channel_id: u32,
    class: Class,
    lead: Lead,
    out: &mut Vec<u8>,
) -> Result<bool, AllocError>
    ensures { PutsOnly result (opened_frames kind.Extended request_id 0
        (record { channel = channel_id; class = class; lead = lead })) out.old.items out.new.items }
{
    let message = (
        Mining::OpenExtendedMiningChannelSuccess(OpenExtendedMiningChannelSuccess {
            request_id,
            channel_id,
            target: target_of(class.value()),
            extranonce_size: EXTRANONCE_LEN - u16::from(lead.len()),
            extranonce_prefix: lead.bytes(),
        }),
    );
    message.0.frame(out)?;
    Ok(true)
}

fn put_open_error(about: &About, code: &str, out: &mut Vec<u8>) -> Result<bool, AllocError>
    requires { length code.now ≤ 255 }
    ensures { PutsOnly result (open_error_frames about.now code.now) out.old.items out.new.items }
{
    let About::Opening(request_id, _) = about else {
        return Ok(false);
    };
    let message = (
        Mining::OpenMiningChannelError(OpenMiningChannelError {
            request_id: *request_id,
            error_code: code,
        }),
    );
    message.0.frame(out)?;
    Ok(true)
}

fn put_target(channel_id: u32, class: &Class, out: &mut Vec<u8>) -> Result<bool, AllocError>
    ensures { PutsOnly result
        (mining_frame message_kinds.SET_TARGET
        (Number channel_id ∷ Bytes (target class.now) ∷ []) ∷ []) out.old.items out.new.items }
{
    let message = (
        Mining::SetTarget(SetTarget {
            channel_id,
            maximum_target: target_of(class.value()),
        }),
    );
    message.0.frame(out)?;
    Ok(true)
}

fn put_update_error(about: &About, code: &str, out: &mut Vec<u8>) -> Result<bool, AllocError>
    requires { length code.now ≤ 255 }
    ensures { PutsOnly result (update_error_frames about.now code.now)
        out.old.items out.new.items }
{
    let About::Channel(channel_id) = about else {
        return Ok(false);
    };
    let message = (
        Mining::UpdateChannelError(UpdateChannelError {
            channel_id: *channel_id,
            error_code: code,
        }),
    );
    message.0.frame(out)?;
    Ok(true)
}

fn put_credit(about: &About, work: u64, out: &mut Vec<u8>) -> Result<bool, AllocError>
    ensures { PutsOnly result (credit_frames about.now work) out.old.items out.new.items }
{
    let About::Share(sub) = about else {
        return Ok(false);
    };
    let (channel_id, last_sequence_number) = (sub.channel, sub.sequence);
    let message = (
        Mining::SubmitSharesSuccess(SubmitSharesSuccess {
            channel_id,
            last_sequence_number,
            new_submits_accepted_count: 1,
            new_shares_sum: work,
        }),
    );
    message.0.frame(out)?;
    Ok(true)
}

fn put_share_error(about: &About, code: &str, out: &mut Vec<u8>) -> Result<bool, AllocError>
    requires { length code.now ≤ 255 }
    ensures { PutsOnly result (share_error_frames about.now code.now) out.old.items out.new.items }
{
    let About::Share(sub) = about else {
        return Ok(false);
    };
    let (channel_id, sequence_number) = (sub.channel, sub.sequence);
    let message = (
        Mining::SubmitSharesError(SubmitSharesError {
            channel_id,
            sequence_number,
            error_code: code,
        }),
    );
    message.0.frame(out)?;
    Ok(true)
}

fn put_token(
    about: &About,
    grant: u64,
    script: &Script,
    out: &mut Vec<u8>,
) -> Result<bool, AllocError>
    ensures { PutsOnly result (token_frames about.now grant script.now)
        out.old.items out.new.items }
{
    match about {
        About::Token(request_id) => {
            put_grant(*request_id, grant, script, out)?;
            Ok(true)
        }
        About::Declared(request_id) => {
            put_success(*request_id, grant, out)?;
            Ok(true)
        }
        _ => Ok(false),
    }
}

fn put_grant_error(about: &About, out: &mut Vec<u8>) -> Result<bool, AllocError>
    ensures { PutsOnly result (grant_error_frames about.now) out.old.items out.new.items }
{
    let About::Declared(request_id) = about else {
        return Ok(false);
    };
    put_error(*request_id, DeclareError::TooManyGrants, out)?;
    Ok(true)
}

fn put_grant(
    request_id: u32,
    grant: u64,
    script: &Script,
    out: &mut Vec<u8>,
) -> Result<(), AllocError>
    ensures ok { OnOk result (out.new.items ≡ out.old.items
        ++ token_frame request_id grant script.now) }
    ensures err { OnErr result (out.new.items ≡ out.old.items) }
{
    let (output, length) = empty_output(script);
    let token = grant.to_le_bytes();
    let message = (
        Declare::AllocateMiningJobTokenSuccess(AllocateMiningJobTokenSuccess {
            request_id,
            mining_job_token: &token,
            coinbase_tx_outputs: &output[..length],
        }),
    );
    message.0.frame(out)
}

/// An output that pays nothing to the script, and how many bytes it has.
fn empty_output(script: &Script) -> ([u8; 109], usize)
    ensures few { result.1 ≤ 109 }
    ensures bytes { take result.1 result.0 ≡ output_bytes (pool_output 0 script.now) }
{
    let bytes = script.bytes();
    let mut output = [0; 109];
    output[8] = bytes.len() as u8;
    place(&mut output, 9, bytes);
    (output, 9 + bytes.len())
}

fn place(bytes: &mut [u8], at: usize, part: &[u8])
    requires { at + length part.now ≤ length bytes.old }
    ensures { take (at + length part.now) bytes.new ≡ take at bytes.old ++ part.now }
{
    bytes[at..at + part.len()].copy_from_slice(part);
}

fn put_own_job(about: &About, job_id: u32, out: &mut Vec<u8>) -> Result<bool, AllocError>
    ensures { PutsOnly result (own_job_frames about.now job_id) out.old.items out.new.items }
{
    let About::OwnJob(channel_id, request_id) = about else {
        return Ok(false);
    };
    let message = (
        Mining::SetCustomMiningJobSuccess(SetCustomMiningJobSuccess {
            channel_id: *channel_id,
            request_id: *request_id,
            job_id,
        }),
    );
    message.0.frame(out)?;
    Ok(true)
}

fn put_own_job_error(about: &About, code: &str, out: &mut Vec<u8>) -> Result<bool, AllocError>
    requires { length code.now ≤ 255 }
    ensures { PutsOnly result (own_job_error_frames about.now code.now)
        out.old.items out.new.items }
{
    let About::OwnJob(channel_id, request_id) = about else {
        return Ok(false);
    };
    let message = (
        Mining::SetCustomMiningJobError(SetCustomMiningJobError {
            channel_id: *channel_id,
            request_id: *request_id,
            error_code: code,
        }),
    );
    message.0.frame(out)?;
    Ok(true)
}
