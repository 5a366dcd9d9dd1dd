//! The parts of records that are more than a field.

ghost use Rattle.std.specs.Prelude.{◌≡◌, ◌≤◌, ◌<◌, ◌^◌, ◌++◌, length, OnOk, OnErr};
ghost use Rattle.std.specs.List.{flat_map};
ghost use Rattle.sv2_types.specs.Spelling.{spelled_str255, spelled_seq_u256};
ghost use Rattle.pool_history.specs.Ledger as ledger;

use pool_history::{CustomData, Kind, Role, Rules, TemplateData, TipData};
use std::alloc::AllocError;
use sv2_types::{
    Hashes, Seq32, Str255, put_b64k, put_b255, put_boolean, put_seq_u256, put_str255, put_u8,
    put_u16, put_u32, put_u64, put_u256,
};

/// The byte of a role.
pub(crate) fn role_number(role: Role) -> u8
    ensures { result ≡ ledger.role_number role }
{
    match role {
        Role::Miner => 0,
        Role::Feed => 1,
        Role::Solo => 2,
    }
}

/// The byte of a channel's kind.
pub(crate) fn kind_number(kind: Kind) -> u8
    ensures { result ≡ ledger.kind_number kind }
{
    match kind {
        Kind::Standard => 0,
        Kind::Extended => 1,
        Kind::V1 => 2,
    }
}

/// One byte of count, then the hashes.
pub(crate) fn put_path(out: &mut Vec<u8>, path: &Hashes) -> Result<(), AllocError>
    requires { length path.now < 2 ^ 8 }
    ensures { OnOk result (out.new.items ≡ out.old.items ++ spelled_seq_u256 path.now) }
{
    put_seq_u256(out, Seq32::of(path.items()))
}

/// Which rule it is, and its window.
fn put_rule(out: &mut Vec<u8>, window: Option<u64>) -> Result<(), AllocError>
    ensures { OnOk result (out.new.items ≡ out.old.items ++ ledger.spelled_rule window) }
{
    match window {
        None => {
            put_u8(out, 0)?;
            put_u64(out, 0)
        }
        Some(window) => {
            put_u8(out, 1)?;
            put_u64(out, window)
        }
    }
}

/// The accounts one after the other.
fn put_accounts(out: &mut Vec<u8>, accounts: &[Str255]) -> Result<(), AllocError>
    ensures { OnOk result (out.new.items
        ≡ out.old.items ++ flat_map spelled_str255 accounts.now) }
{
    for account in accounts {
        put_str255(out, account.text())?;
    }
    Ok(())
}

/// The rules.
pub(crate) fn put_rules(out: &mut Vec<u8>, rules: &Rules) -> Result<(), AllocError>
    requires { ledger.RulesFit rules.now }
    ensures { OnOk result (out.new.items ≡ out.old.items ++ ledger.spelled_rules rules.now) }
{
    put_b255(out, rules.pool_script.bytes())?;
    put_u8(out, rules.least_class)?;
    put_u16(out, rules.fee)?;
    put_rule(out, rules.window)?;
    put_u32(out, rules.ntime_window)?;
    put_u32(out, rules.credit_limit)?;
    put_boolean(out, rules.version_rolling)?;
    put_u16(out, rules.users.accounts().len() as u16)?;
    put_accounts(out, rules.users.accounts())
}

/// A template.
pub(crate) fn put_template(out: &mut Vec<u8>, template: &TemplateData) -> Result<(), AllocError>
    requires { ledger.TemplateFits template.now }
    ensures { OnOk result (out.new.items
        ≡ out.old.items ++ ledger.spelled_template template.now) }
{
    put_u64(out, template.template_id)?;
    put_boolean(out, template.future_template)?;
    put_u32(out, template.version)?;
    put_u32(out, template.coinbase_tx_version)?;
    put_b255(out, template.coinbase_prefix.bytes())?;
    put_u32(out, template.coinbase_tx_input_sequence)?;
    put_u64(out, template.coinbase_tx_value_remaining)?;
    put_u32(out, template.coinbase_tx_outputs_count)?;
    put_b64k(out, template.coinbase_tx_outputs.bytes())?;
    put_u32(out, template.coinbase_tx_locktime)?;
    put_path(out, &template.merkle_path)
}

/// A tip.
pub(crate) fn put_tip(out: &mut Vec<u8>, tip: &TipData) -> Result<(), AllocError>
    ensures { OnOk result (out.new.items ≡ out.old.items ++ ledger.spelled_tip tip.now) }
{
    put_u64(out, tip.template_id)?;
    put_u256(out, tip.prev_hash)?;
    put_u32(out, tip.header_timestamp)?;
    put_u32(out, tip.nbits)?;
    put_u256(out, tip.target)
}

/// A miner's own job.
pub(crate) fn put_custom(out: &mut Vec<u8>, custom: &CustomData) -> Result<(), AllocError>
    requires { ledger.CustomFits custom.now }
    ensures { OnOk result (out.new.items ≡ out.old.items ++ ledger.spelled_custom custom.now) }
{
    put_u32(out, custom.channel_id)?;
    put_b255(out, custom.token.bytes())?;
    put_u32(out, custom.version)?;
    put_u256(out, custom.prev_hash)?;
    put_u32(out, custom.min_ntime)?;
    put_u32(out, custom.nbits)?;
    put_u32(out, custom.coinbase_tx_version)?;
    put_b255(out, custom.coinbase_prefix.bytes())?;
    put_u32(out, custom.coinbase_tx_input_sequence)?;
    put_b64k(out, custom.coinbase_tx_outputs.bytes())?;
    put_u32(out, custom.coinbase_tx_locktime)?;
    put_path(out, &custom.merkle_path)
}
