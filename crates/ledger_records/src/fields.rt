//! That each event which a program holds is well formed and has UTF-8 texts: what the types of its
//! fields say, told to contracts.

ghost use Rattle.std.specs.List.{AllByRecursion};
ghost use Rattle.std.specs.Str.{IsUtf8};
ghost use Rattle.pool_history.specs.Ledger.{TextsFit};
ghost use Rattle.ledger_records.specs.WellFormed.{AreHashes, AreRules, IsCustom, IsHash, IsTemplate, IsText, IsTip, IsU16, IsU32, IsU64, IsU8, IsWellFormed, IsWindow};

use pool_history::{CustomData, Event, Rules, TemplateData, TipData};
use sv2_types::{Hashes, Str255, U256};

/// Each field of an event is of its type. So an event that a program holds can be kept where it has
/// a record.
pub fn fields_fit(event: &Event)
    ensures { IsWellFormed event.now }
{
    match event {
        Event::Start(rules) => rules_fit(rules.get()),
        Event::Enter { worker, flags, .. } => {
            u32_fits(*worker);
            u32_fits(*flags)
        }
        Event::Template { session, template } => {
            u32_fits(*session);
            template_fits(template.get())
        }
        Event::Tip { session, tip } => {
            u32_fits(*session);
            tip_fits(tip.get())
        }
        Event::Open {
            session,
            account,
            class,
            ..
        } => {
            u32_fits(*session);
            u8_fits(*class);
            text_fits(account)
        }
        Event::Name {
            session,
            channel,
            account,
        } => {
            u32_fits(*session);
            u32_fits(*channel);
            text_fits(account)
        }
        Event::Class {
            session,
            channel,
            class,
        } => {
            u32_fits(*session);
            u32_fits(*channel);
            u8_fits(*class)
        }
        Event::Close { session, channel } => {
            u32_fits(*session);
            u32_fits(*channel)
        }
        Event::Leave { session } => u32_fits(*session),
        Event::Credit {
            session,
            channel,
            job,
            nonce,
            ntime,
            version,
            ..
        } => {
            u32_fits(*session);
            u32_fits(*channel);
            u32_fits(*job);
            u32_fits(*nonce);
            u32_fits(*ntime);
            u32_fits(*version)
        }
        Event::Grant {
            session,
            account,
            path,
            ..
        } => {
            u32_fits(*session);
            text_fits(account);
            hashes_fit(path)
        }
        Event::Custom { session, custom } => {
            u32_fits(*session);
            custom_fits(custom.get())
        }
    }
}

/// Each text of an event is UTF-8: the account of an Open, a Name and a Grant, and each user of a
/// Start.
pub fn texts_are_utf8(event: &Event)
    ensures { TextsFit event.now }
{
    match event {
        Event::Start(rules) => accounts_are_utf8(rules.get().users.accounts()),
        Event::Open { account, .. } => text_is_utf8(account),
        Event::Name { account, .. } => text_is_utf8(account),
        Event::Grant { account, .. } => text_is_utf8(account),
        _ => {}
    }
}

pub(crate) fn u8_fits(n: u8)
    ensures { IsU8 n }
{
    let _ = n;
}

pub(crate) fn u16_fits(n: u16)
    ensures { IsU16 n }
{
    let _ = n;
}

pub(crate) fn u32_fits(n: u32)
    ensures { IsU32 n }
{
    let _ = n;
}

pub(crate) fn u64_fits(n: u64)
    ensures { IsU64 n }
{
    let _ = n;
}

fn window_fits(window: Option<u64>)
    ensures { IsWindow window }
{
    match window {
        Some(window) => u64_fits(window),
        None => {}
    }
}

pub(crate) fn text_fits(text: &Str255)
    ensures { IsText text.now }
{
    let _text = text.text();
}

pub(crate) fn hash_fits(hash: &U256)
    ensures { IsHash hash.now }
{
    let _bytes = hash.bytes();
}

pub(crate) fn hashes_fit(hashes: &Hashes)
    ensures { AreHashes hashes.now }
{
    let _items = hashes.items();
}

fn texts_fit(texts: &[Str255])
    ensures { AllByRecursion IsText texts.now }
{
    for text in texts {
        text_fits(text);
    }
}

fn rules_fit(rules: &Rules)
    ensures { AreRules rules.now }
{
    u8_fits(rules.least_class);
    u16_fits(rules.fee);
    window_fits(rules.window);
    u32_fits(rules.ntime_window);
    u32_fits(rules.credit_limit);
    texts_fit(rules.users.accounts())
}

pub(crate) fn template_fits(template: &TemplateData)
    ensures { IsTemplate template.now }
{
    u64_fits(template.template_id);
    u32_fits(template.version);
    u32_fits(template.coinbase_tx_version);
    u32_fits(template.coinbase_tx_input_sequence);
    u64_fits(template.coinbase_tx_value_remaining);
    u32_fits(template.coinbase_tx_outputs_count);
    u32_fits(template.coinbase_tx_locktime);
    hashes_fit(&template.merkle_path)
}

pub(crate) fn tip_fits(tip: &TipData)
    ensures { IsTip tip.now }
{
    u64_fits(tip.template_id);
    u32_fits(tip.header_timestamp);
    u32_fits(tip.nbits);
    hash_fits(&tip.prev_hash);
    hash_fits(&tip.target)
}

pub(crate) fn custom_fits(custom: &CustomData)
    ensures { IsCustom custom.now }
{
    u32_fits(custom.channel_id);
    u32_fits(custom.version);
    u32_fits(custom.min_ntime);
    u32_fits(custom.nbits);
    u32_fits(custom.coinbase_tx_version);
    u32_fits(custom.coinbase_tx_input_sequence);
    u32_fits(custom.coinbase_tx_locktime);
    hash_fits(&custom.prev_hash);
    hashes_fit(&custom.merkle_path)
}

pub(crate) fn text_is_utf8(text: &Str255)
    ensures { IsUtf8 text.now }
{
    let _text = text.text();
}

fn accounts_are_utf8(accounts: &[Str255])
    ensures { AllByRecursion IsUtf8 accounts.now }
{
    for account in accounts {
        text_is_utf8(account);
    }
}
