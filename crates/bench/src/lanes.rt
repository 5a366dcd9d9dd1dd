//! Hashes of four messages at once, and of the same messages one by one.

ghost use Rattle.std.specs.Prelude.{◌≡◌, ◌+◌, ◌-◌, ◌^◌, ◌<◌, map};
ghost use Rattle.bench.specs.Fours.{hashes_from, last_hashes};
ghost use Rattle.block_header.specs.Hash.{dsha};
ghost use Rattle.sha2.specs.Sha256.{sha256};

use crate::numbered::four_from;
use anyhow::{Result, bail};
use block_header::dsha;
use sha2::{Digest, Sha256};
use sha256_lanes as lanes;
use std::alloc::Global;

/// What is hashed, and how often.
#[derive(Clone, Copy)]
pub enum Form {
    Digest64,
    Double64,
    Double80,
}

/// How four messages are hashed.
#[derive(Clone, Copy)]
pub enum Way {
    AtOnce,
    OneByOne,
}

fn digests<const N: usize>(messages: &[[u8; N]; 4]) -> [[u8; 32]; 4]
    ensures { result ≡ map sha256 messages.now }
{
    [
        Sha256::digest(&messages[0]),
        Sha256::digest(&messages[1]),
        Sha256::digest(&messages[2]),
        Sha256::digest(&messages[3]),
    ]
}

fn doubles<const N: usize>(messages: &[[u8; N]; 4]) -> [[u8; 32]; 4]
    ensures { result ≡ map dsha messages.now }
{
    [
        dsha(&messages[0]),
        dsha(&messages[1]),
        dsha(&messages[2]),
        dsha(&messages[3]),
    ]
}

fn digests_64(way: Way, messages: &[[u8; 64]; 4]) -> [[u8; 32]; 4]
    ensures { result ≡ map sha256 messages.now }
{
    match way {
        Way::AtOnce => lanes::sha256_64(messages),
        Way::OneByOne => digests(messages),
    }
}

fn doubles_64(way: Way, messages: &[[u8; 64]; 4]) -> [[u8; 32]; 4]
    ensures { result ≡ map dsha messages.now }
{
    match way {
        Way::AtOnce => lanes::double_64(messages),
        Way::OneByOne => doubles(messages),
    }
}

fn doubles_80(way: Way, messages: &[[u8; 80]; 4]) -> [[u8; 32]; 4]
    ensures { result ≡ map dsha messages.now }
{
    match way {
        Way::AtOnce => lanes::double_80(messages),
        Way::OneByOne => doubles(messages),
    }
}

/// The hashes of the messages for a number and the three behind it.
fn hash_from(way: Way, form: Form, number: u64) -> [[u8; 32]; 4]
    requires { number + 3 < 2 ^ 64 }
    ensures { result ≡ hashes_from form number }
{
    match form {
        Form::Digest64 => digests_64(way, &four_from(number)),
        Form::Double64 => doubles_64(way, &four_from(number)),
        Form::Double80 => doubles_80(way, &four_from(number)),
    }
}

/// The last hashes of so many fours.
fn last_four(way: Way, form: Form, count: u32) -> [[u8; 32]; 4]
    ensures { 0 < count → result ≡ last_hashes form (count - 1) }
{
    let mut hashes = [[0; 32]; 4];
    for four in 0..count {
        hashes = hash_from(way, form, u64::from(four) * 4);
    }
    hashes
}

fn form_of(word: &str) -> Option<Form> {
    match word {
        "digest-64" => Some(Form::Digest64),
        "double-64" => Some(Form::Double64),
        "double-80" => Some(Form::Double80),
        _ => None,
    }
}

/// Hashes so many fours of messages by a form, and tells the last hash as it is displayed.
pub fn report(alloc: Global, way: Way, form: &str, count: u32) -> Result<String> {
    let Some(form) = form_of(form) else {
        bail!("want digest-64, double-64 or double-80");
    };
    let [.., mut hash] = last_four(way, form, count);
    hash.reverse();
    Ok(hex::encode(alloc, &hash[..])?)
}
