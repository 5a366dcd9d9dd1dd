//! The tokens that were granted, and those that are spent.

use crate::reading::refuse;
use pool_tables::Grants;
use std::alloc::Global;
use sv2_types::{Hashes, Str255};
use trial_cases::{Found, Subject, word};

/// Grants.
#[derive(Drop)]
pub(crate) struct Granted {
    grants: Grants,
}

impl Subject for Granted {
    fn begin(alloc: Global) -> Option<Granted> {
        let grants = Grants::new(alloc);
        Some(Granted { grants })
    }

    fn act(&mut self, found: &mut Found, words: &str) {
        let account = word(words, 2);
        match word(words, 0) {
            "grant" => grant(found, &mut self.grants, word(words, 1), account == "fixed"),
            "unspent" => {
                let token = found.bytes_of(word(words, 1));
                tell_unspent(found, &self.grants, &token, account);
            }
            "spend" => {
                let token = found.bytes_of(word(words, 1));
                spend(found, &mut self.grants, &token, account);
            }
            "count" => found.tell(&self.grants.count()),
            _ => refuse(found),
        }
    }
}

/// Grants an account a token, for a path of one hash.
fn grant(found: &mut Found, grants: &mut Grants, account: &str, fixed: bool) {
    if account.len() > 255 {
        return refuse(found);
    }
    match Str255::of(found.alloc(), account) {
        Ok(account) => grant_path(found, grants, account, fixed),
        Err(_) => found.done(false),
    }
}

fn grant_path(found: &mut Found, grants: &mut Grants, account: Str255, fixed: bool) {
    match (
        Hashes::of(found.alloc(), [[7; 32]].as_slice()),
        grants.reserve(),
    ) {
        (Ok(path), Ok(())) if grants.count() < 1000 => {
            found.say("token ");
            found.tell(&grants.grant(account, fixed, path));
        }
        _ => found.done(false),
    }
}

fn tell_unspent(found: &mut Found, grants: &Grants, token: &[u8], account: &str) {
    found.say(match grants.unspent(token, account) {
        Some(granted) if granted.fixed => "fixed",
        Some(_) => "free",
        None => "none",
    });
}

fn spend(found: &mut Found, grants: &mut Grants, token: &[u8], account: &str) {
    if grants.unspent(token, account).is_none() {
        return refuse(found);
    }
    grants.spend(token);
    found.say("spent");
}
