//! `mining.configure` (BIP 310): what is asked for, and what is granted of it.

ghost use Rattle.std.specs.Prelude.{◌≡◌, false, codes, IfOk, Some, map, option_map};
ghost use Rattle.std.specs.List.{list_any};
ghost use Rattle.std.specs.Str.{bytes_eq};
ghost use Rattle.serde_json.specs.View.{items_view, members_view, view};
ghost use Rattle.serde_json.specs.Written.{has_float};
ghost use Rattle.v1_translate.specs.Configuring as configuring;
ghost use Rattle.v1_translate.specs.AskedUpstream.{configuration_by};

use crate::{asked_mask, granted_mask};
use pool_history::Rules;
use serde_json::{Map, Value, put};
use std::alloc::{AllocError, Global};
use v1_lines::{MethodCall, word_text};

/// What a request asks for: names, and a mask.
#[derive(Drop)]
pub(crate) struct Configuration<'a> {
    pub(crate) names: Vec<&'a str>,
    pub(crate) asked: u32,
}

/// What the parameters ask for, where they begin with texts and a mask has eight digits.
pub(crate) fn configuration_in<'a>(
    alloc: Global,
    call: &MethodCall<'a>,
) -> Result<Option<Configuration<'a>>, AllocError>
    ensures { IfOk result (λ found. option_map configuration_by found
        ≡ configuring.configuration_in (items_view call.now.params.now)) }
{
    let Some(names) = names_in(alloc, call)? else {
        return Ok(None);
    };
    match asked_mask(mask_option(call)) {
        Some(asked) => Ok(Some(Configuration { names, asked })),
        None => Ok(None),
    }
}

/// The option that asks for a mask.
fn mask_option<'a>(call: &MethodCall<'a>) -> Option<&'a Value>
    ensures { option_map (λ value. view value.now) result
        ≡ configuring.mask_option (items_view call.now.params.now) }
{
    match call.params.get(1) {
        Some(options) => options.get("version-rolling.mask"),
        None => None,
    }
}

/// The names of what is asked for.
fn names_in<'a>(alloc: Global, call: &MethodCall<'a>) -> Result<Option<Vec<&'a str>>, AllocError>
    ensures { IfOk result (λ found. option_map (λ names. map (λ name. name.now) names.items) found
        ≡ configuring.names_in (items_view call.now.params.now)) }
{
    match call.params.first().and_then(Value::as_array) {
        Some(items) => texts_in(alloc, items.as_slice()),
        None => Ok(None),
    }
}

/// The texts of an array of texts alone.
fn texts_in<'a>(alloc: Global, items: &'a [Value]) -> Result<Option<Vec<&'a str>>, AllocError>
    ensures { IfOk result (λ found. option_map (λ texts. map (λ text. text.now) texts.items) found
        ≡ configuring.texts_in (items_view items.now)) }
{
    let mut texts = Vec::new(alloc);
    for item in items {
        match item.as_str() {
            Some(text) => texts.push(text)?,
            None => return Ok(None),
        }
    }
    Ok(Some(texts))
}

/// The mask that is granted, where one is.
pub(crate) fn granted(rules: &Rules, configuration: &Configuration<'_>) -> Option<u32>
    ensures { result ≡ configuring.mask_for rules.now
        (configuration_by configuration.now).names configuration.now.asked }
{
    if may_roll(rules, configuration.names.as_slice()) {
        Some(granted_mask(configuration.asked))
    } else {
        None
    }
}

/// Whether versions are rolled: it is asked for, and the rules allow it.
fn may_roll(rules: &Rules, names: &[&str]) -> bool
    ensures { result ≡ configuring.may_roll rules.now (map (λ name. name.now) names.now) }
{
    rules.version_rolling && asks_to_roll(names)
}

/// Whether the rolling of versions is among the names.
fn asks_to_roll(names: &[&str]) -> bool
    ensures { result ≡ list_any (λ name. bytes_eq (codes "version-rolling") name.now) names.now }
{
    names.iter().any(|name| is_rolling(name))
}

/// Whether a name is that of the rolling of versions.
fn is_rolling(name: &str) -> bool
    ensures { result ≡ bytes_eq (codes "version-rolling") name.now }
{
    "version-rolling" == name
}

/// The answer: the mask where one is granted, and false for each other name.
pub(crate) fn configured_value(
    alloc: Global,
    names: &[&str],
    mask: Option<u32>,
) -> Result<Value, AllocError>
    ensures answer { IfOk result (λ answer. view answer
        ≡ configuring.configured_value (map (λ name. name.now) names.now) mask) }
    ensures whole { IfOk result (λ answer. has_float (view answer) ≡ false) }
{
    let members = configured_members(alloc, names, mask)?;
    Ok(Value::Object(members))
}

fn configured_members(
    alloc: Global,
    names: &[&str],
    mask: Option<u32>,
) -> Result<Map<String, Value>, AllocError>
    ensures { IfOk result (λ members. members_view members.entries
        ≡ configuring.with_mask mask
        (configuring.refused_names (map (λ name. name.now) names.now))) }
{
    let mut members = refused_names(alloc, names)?;
    match mask {
        None => Ok(members),
        Some(mask) => {
            put_mask(alloc, &mut members, mask)?;
            Ok(members)
        }
    }
}

fn put_mask(alloc: Global, members: &mut Map<String, Value>, mask: u32) -> Result<(), AllocError>
    ensures { IfOk result (λ done. members_view members.new.entries
        ≡ configuring.with_mask (Some mask) (members_view members.old.entries)) }
{
    put(members, alloc, "version-rolling", Value::Bool(true))?;
    let text = word_text(alloc, mask)?;
    put(members, alloc, "version-rolling.mask", Value::String(text))?;
    Ok(())
}

/// False for each name.
fn refused_names(alloc: Global, names: &[&str]) -> Result<Map<String, Value>, AllocError>
    ensures { IfOk result (λ members. members_view members.entries
        ≡ configuring.refused_names (map (λ name. name.now) names.now)) }
{
    let mut members = Map::new(alloc);
    let mut left = names.len();
    while left > 0 {
        left -= 1;
        put(&mut members, alloc, names[left], Value::Bool(false))?;
    }
    Ok(members)
}
