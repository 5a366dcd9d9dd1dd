//! Reads the bodies of records, a function for each kind. What stands in a body is gone through
//! before memory is taken.

ghost use Rattle.std.specs.Prelude.{◌≡◌, ℕ, Bool, IfSome, IfNone};
ghost use Rattle.pool_history.specs.declared.events.Kind.{Kind};
ghost use Rattle.pool_history.specs.declared.events.Role.{Role};
ghost use Rattle.pool_history.specs.Ledger as ledger;
ghost use Rattle.ledger_records.specs.Bodies.{ReadsBody};
ghost use Rattle.ledger_records.specs.Fields.{truth_byte};

use crate::error::RecordError;
use pool_history::{Boxed, CustomData, Event, Kind, Role, TemplateData, TipData};
use std::alloc::Global;
use sv2_messages::FieldReader;
use sv2_types::{Blob, Hashes, Str255};

/// The most bytes of a text.
const TEXT_LIMIT: usize = 255;

/// The most hashes of a path.
const PATH_LIMIT: usize = 255;

/// The role with this number.
fn role_of(number: u8) -> Option<Role>
    ensures some { IfSome result (λ role. ledger.role_number role ≡ number) }
    ensures none { IfNone result ((role : Role) → ledger.role_number role ≡ number → ⊥) }
{
    match number {
        0 => Some(Role::Miner),
        1 => Some(Role::Feed),
        2 => Some(Role::Solo),
        _ => None,
    }
}

/// The kind of a channel with this number.
fn kind_of(number: u8) -> Option<Kind>
    ensures some { IfSome result (λ kind. ledger.kind_number kind ≡ number) }
    ensures none { IfNone result ((kind : Kind) → ledger.kind_number kind ≡ number → ⊥) }
{
    match number {
        0 => Some(Kind::Standard),
        1 => Some(Kind::Extended),
        2 => Some(Kind::V1),
        _ => None,
    }
}

/// The truth with this number. A record says it by 0 or 1 alone.
pub(crate) fn truth_of(number: u8) -> Option<bool>
    ensures some { IfSome result (λ truth. truth_byte truth ≡ number) }
    ensures none { IfNone result ((truth : Bool) → truth_byte truth ≡ number → ⊥) }
{
    match number {
        0 => Some(false),
        1 => Some(true),
        _ => None,
    }
}

#[tactic(auto, unfolding(sv2_messages::specs::Reading::values_of))]
pub(crate) fn read_enter(body: &[u8]) -> Result<Event, RecordError>
    ensures { ReadsBody 1 body.now result }
{
    let mut fields = FieldReader::new(body);
    let worker = fields.u32()?;
    let role = fields.u8()?;
    let flags = fields.u32()?;
    fields.end()?;
    match role_of(role) {
        Some(role) => Ok(Event::Enter {
            worker,
            role,
            flags,
        }),
        None => Err(RecordError::NoRecord),
    }
}

#[tactic(auto, unfolding(sv2_messages::specs::Reading::values_of))]
pub(crate) fn read_template(alloc: Global, body: &[u8]) -> Result<Event, RecordError>
    ensures { ReadsBody 2 body.now result }
{
    let mut fields = FieldReader::new(body);
    let session = fields.u32()?;
    let template_id = fields.u64()?;
    let future = fields.u8()?;
    let version = fields.u32()?;
    let coinbase_tx_version = fields.u32()?;
    let prefix = fields.b255()?;
    let coinbase_tx_input_sequence = fields.u32()?;
    let coinbase_tx_value_remaining = fields.u64()?;
    let coinbase_tx_outputs_count = fields.u32()?;
    let outputs = fields.b64k()?;
    let coinbase_tx_locktime = fields.u32()?;
    let path = fields.seq_u256()?;
    fields.end()?;
    let Some(future_template) = truth_of(future) else {
        return Err(RecordError::NoRecord);
    };
    if path.items().len() > PATH_LIMIT {
        return Err(RecordError::NoRecord);
    }
    let template = TemplateData {
        template_id,
        future_template,
        version,
        coinbase_tx_version,
        coinbase_prefix: Blob::of(alloc, prefix)?,
        coinbase_tx_input_sequence,
        coinbase_tx_value_remaining,
        coinbase_tx_outputs_count,
        coinbase_tx_outputs: Blob::of(alloc, outputs)?,
        coinbase_tx_locktime,
        merkle_path: Hashes::of(alloc, path.items())?,
    };
    Ok(Event::Template {
        session,
        template: Boxed::new(alloc, template)?,
    })
}

#[tactic(auto, unfolding(sv2_messages::specs::Reading::values_of))]
pub(crate) fn read_tip(alloc: Global, body: &[u8]) -> Result<Event, RecordError>
    ensures { ReadsBody 3 body.now result }
{
    let mut fields = FieldReader::new(body);
    let session = fields.u32()?;
    let tip = TipData {
        template_id: fields.u64()?,
        prev_hash: fields.u256()?,
        header_timestamp: fields.u32()?,
        nbits: fields.u32()?,
        target: fields.u256()?,
    };
    fields.end()?;
    Ok(Event::Tip {
        session,
        tip: Boxed::new(alloc, tip)?,
    })
}

#[tactic(auto, unfolding(sv2_messages::specs::Reading::values_of))]
pub(crate) fn read_open(alloc: Global, body: &[u8]) -> Result<Event, RecordError>
    ensures { ReadsBody 4 body.now result }
{
    let mut fields = FieldReader::new(body);
    let session = fields.u32()?;
    let kind = fields.u8()?;
    let account = fields.str255()?;
    let class = fields.u8()?;
    let lead = fields.b32()?;
    fields.end()?;
    let Some(kind) = kind_of(kind) else {
        return Err(RecordError::NoRecord);
    };
    if account.len() > TEXT_LIMIT {
        return Err(RecordError::NoRecord);
    }
    Ok(Event::Open {
        session,
        kind,
        account: Str255::of(alloc, account)?,
        class,
        lead: Blob::of(alloc, lead)?,
    })
}

#[tactic(auto, unfolding(sv2_messages::specs::Reading::values_of))]
pub(crate) fn read_name(alloc: Global, body: &[u8]) -> Result<Event, RecordError>
    ensures { ReadsBody 5 body.now result }
{
    let mut fields = FieldReader::new(body);
    let session = fields.u32()?;
    let channel = fields.u32()?;
    let account = fields.str255()?;
    fields.end()?;
    if account.len() > TEXT_LIMIT {
        return Err(RecordError::NoRecord);
    }
    Ok(Event::Name {
        session,
        channel,
        account: Str255::of(alloc, account)?,
    })
}

#[tactic(auto, unfolding(sv2_messages::specs::Reading::values_of))]
pub(crate) fn read_class(body: &[u8]) -> Result<Event, RecordError>
    ensures { ReadsBody 6 body.now result }
{
    let mut fields = FieldReader::new(body);
    let session = fields.u32()?;
    let channel = fields.u32()?;
    let class = fields.u8()?;
    fields.end()?;
    Ok(Event::Class {
        session,
        channel,
        class,
    })
}

#[tactic(auto, unfolding(sv2_messages::specs::Reading::values_of))]
pub(crate) fn read_close(body: &[u8]) -> Result<Event, RecordError>
    ensures { ReadsBody 7 body.now result }
{
    let mut fields = FieldReader::new(body);
    let session = fields.u32()?;
    let channel = fields.u32()?;
    fields.end()?;
    Ok(Event::Close { session, channel })
}

#[tactic(auto, unfolding(sv2_messages::specs::Reading::values_of))]
pub(crate) fn read_leave(body: &[u8]) -> Result<Event, RecordError>
    ensures { ReadsBody 8 body.now result }
{
    let mut fields = FieldReader::new(body);
    let session = fields.u32()?;
    fields.end()?;
    Ok(Event::Leave { session })
}

#[tactic(auto, unfolding(sv2_messages::specs::Reading::values_of))]
pub(crate) fn read_credit(alloc: Global, body: &[u8]) -> Result<Event, RecordError>
    ensures { ReadsBody 9 body.now result }
{
    let mut fields = FieldReader::new(body);
    let session = fields.u32()?;
    let channel = fields.u32()?;
    let job = fields.u32()?;
    let nonce = fields.u32()?;
    let ntime = fields.u32()?;
    let version = fields.u32()?;
    let extranonce = fields.b32()?;
    fields.end()?;
    Ok(Event::Credit {
        session,
        channel,
        job,
        nonce,
        ntime,
        version,
        extranonce: Blob::of(alloc, extranonce)?,
    })
}

#[tactic(auto, unfolding(sv2_messages::specs::Reading::values_of))]
pub(crate) fn read_grant(alloc: Global, body: &[u8]) -> Result<Event, RecordError>
    ensures { ReadsBody 10 body.now result }
{
    let mut fields = FieldReader::new(body);
    let session = fields.u32()?;
    let account = fields.str255()?;
    let fixed = fields.u8()?;
    let path = fields.seq_u256()?;
    fields.end()?;
    let Some(fixed) = truth_of(fixed) else {
        return Err(RecordError::NoRecord);
    };
    if account.len() > TEXT_LIMIT || (!fixed && !path.items().is_empty()) {
        return Err(RecordError::NoRecord);
    }
    Ok(Event::Grant {
        session,
        account: Str255::of(alloc, account)?,
        fixed,
        path: Hashes::of(alloc, path.items())?,
    })
}

#[tactic(auto, unfolding(sv2_messages::specs::Reading::values_of))]
pub(crate) fn read_custom(alloc: Global, body: &[u8]) -> Result<Event, RecordError>
    ensures { ReadsBody 11 body.now result }
{
    let mut fields = FieldReader::new(body);
    let session = fields.u32()?;
    let channel_id = fields.u32()?;
    let token = fields.b255()?;
    let version = fields.u32()?;
    let prev_hash = fields.u256()?;
    let min_ntime = fields.u32()?;
    let nbits = fields.u32()?;
    let coinbase_tx_version = fields.u32()?;
    let prefix = fields.b255()?;
    let coinbase_tx_input_sequence = fields.u32()?;
    let outputs = fields.b64k()?;
    let coinbase_tx_locktime = fields.u32()?;
    let path = fields.seq_u256()?;
    fields.end()?;
    if path.items().len() > PATH_LIMIT {
        return Err(RecordError::NoRecord);
    }
    let custom = CustomData {
        channel_id,
        token: Blob::of(alloc, token)?,
        version,
        prev_hash,
        min_ntime,
        nbits,
        coinbase_tx_version,
        coinbase_prefix: Blob::of(alloc, prefix)?,
        coinbase_tx_input_sequence,
        coinbase_tx_outputs: Blob::of(alloc, outputs)?,
        coinbase_tx_locktime,
        merkle_path: Hashes::of(alloc, path.items())?,
    };
    Ok(Event::Custom {
        session,
        custom: Boxed::new(alloc, custom)?,
    })
}
