//! Shares: their headers and hashes, by Bitcoin's public record, and the headers that were credited.

ghost use Rattle.std.specs.Prelude.{◌≡◌, ◌+◌, ◌<◌, ◌≤◌, length};

use crate::reading::{refuse, tell_truth};
use coinbase::Assembly;
use hex::FromHex;
use pool_history::{Kind, Lead, RootSource, Submission};
use pool_tables::Headers;
use share_headers::{
    Parts, brief_of, check, header_by_parts, header_of, is_brief_of, parts_of, rolled_length,
};
use std::alloc::Global;
use std::sync::Arc;
use sv2_types::Hashes;
use trial_cases::{Found, Subject, kind, word};

/// The headers that were credited.
#[derive(Drop)]
pub(crate) struct Credited {
    headers: Headers,
}

impl Subject for Credited {
    fn begin(alloc: Global) -> Option<Credited> {
        let headers = Headers::new(alloc);
        Some(Credited { headers })
    }

    fn act(&mut self, found: &mut Found, words: &str) {
        match <[u8; 80]>::from_hex(word(words, 1)) {
            Ok(header) => self.act_on(found, words, &header),
            Err(_) => refuse(found),
        }
    }
}

impl Credited {
    fn act_on(&mut self, found: &mut Found, words: &str, header: &[u8; 80]) {
        match word(words, 0) {
            "share" => hash_share(found, header, words),
            "credit" => match self.headers.reserve() {
                Ok(()) => {
                    self.headers.insert(*header);
                    found.say("credited");
                }
                Err(_) => found.done(false),
            },
            "knows" => tell_truth(found, self.headers.contains(header)),
            _ => refuse(found),
        }
    }
}

/// The hash, as it is displayed, of the header that a share of this coinbase and path has.
fn hash_share(found: &mut Found, header: &[u8; 80], words: &str) {
    let place = found.number(word(words, 3));
    let coinbase = found.bytes_of(word(words, 4));
    let path = path_in(found, words);
    if place < 200 && place as usize + 12 <= coinbase.len() {
        hash_parts(
            found,
            header,
            kind(word(words, 2)),
            place as usize,
            &coinbase,
            &path,
        );
    } else {
        refuse(found);
    }
}

/// The hashes of a path, which are the words behind the fourth.
fn path_in(found: &mut Found, words: &str) -> Vec<[u8; 32]> {
    let mut path = Vec::new(found.alloc());
    for word in words.split_whitespace().skip(5) {
        let hash = found.hash_of(word);
        found.done(path.push(hash).is_ok());
    }
    path
}

/// The same, of a coinbase with twelve bytes of extranonce at a place, of which four are the lead.
fn hash_parts(
    found: &mut Found,
    header: &[u8; 80],
    kind: Kind,
    place: usize,
    coinbase: &[u8],
    path: &[[u8; 32]],
)
    requires small { place < 200 }
    requires inside { place + 12 ≤ length coinbase.now }
{
    let (front, suffix) = coinbase.split_at(place + 12);
    let (prefix, extranonce) = front.split_at(place);
    let (lead, rolled) = extranonce.split_at(4);
    let lead = Lead::of(4, [lead[0], lead[1], lead[2], lead[3]]);
    let mut prev_hash = [0; 32];
    prev_hash.copy_from_slice(&header[4..36]);
    let sent = match kind {
        Kind::Standard => &rolled[..0],
        Kind::Extended | Kind::V1 => rolled,
    };
    match root_source(found.alloc(), prefix, suffix, path) {
        Some(root) => {
            let parts = Parts {
                root: &root,
                prev_hash,
                nbits: number_at(header, 72),
                lead,
                kind,
            };
            tell_hash(found, &parts, header, submission(kind, header, sent));
        }
        None => refuse(found),
    }
}

/// What a job of this coinbase and path gives to a root.
fn root_source(
    alloc: Global,
    prefix: &[u8],
    suffix: &[u8],
    path: &[[u8; 32]],
) -> Option<Arc<RootSource, Global>> {
    if prefix.len() < 4 || suffix.len() < 4 {
        return None;
    }
    let coinbase = Assembly::of_parts(
        prefix.to_vec(alloc).ok()?,
        suffix.to_vec(alloc).ok()?,
        false,
    );
    let path = Hashes::of(alloc, path).ok()?;
    Arc::new(alloc, RootSource { coinbase, path }).ok()
}

/// A number in a header.
fn number_at(header: &[u8; 80], place: usize) -> u32
    requires { place + 4 ≤ 80 }
{
    u32::from_le_bytes([
        header[place],
        header[place + 1],
        header[place + 2],
        header[place + 3],
    ])
}

/// The submission that gives this header, with these bytes of extranonce.
fn submission(kind: Kind, header: &[u8; 80], sent: &[u8]) -> Submission
    requires { length sent.now ≤ 32 }
    ensures { result.extranonce_len ≡ length sent.now }
{
    let mut extranonce = [0; 32];
    extranonce[..sent.len()].copy_from_slice(sent);
    Submission {
        kind,
        channel: 1,
        sequence: 9,
        job: 1,
        nonce: number_at(header, 76),
        ntime: number_at(header, 68),
        version: number_at(header, 0),
        extranonce,
        extranonce_len: sent.len() as u8,
    }
}

/// The hash of a share by the call that hashes, which those that keep what they hash have to give as
/// well.
fn tell_hash(found: &mut Found, parts: &Parts<'_>, header: &[u8; 80], sub: Submission) {
    if sub.extranonce_len != rolled_length(parts.kind, &parts.lead) {
        return refuse(found);
    }
    match brief_of(parts) {
        Ok(brief) => {
            let (rebuilt, hash) = header_of(parts, &sub);
            let checked = check(brief, sub);
            let kept = header_by_parts(&checked, parts);
            if rebuilt != *header || checked.header != *header || checked.hash != hash {
                found.say("another header");
            } else if !is_brief_of(&checked.brief, parts)
                || !is_brief_of(&checked.brief, &parts_of(&checked.brief))
                || kept.0 != *header
                || kept.1 != hash
            {
                found.say("another brief");
            } else {
                found.display(&hash);
            }
        }
        Err(_) => found.done(false),
    }
}
