//! Headers, roots, paths, classes and targets, by Bitcoin's public record.

use block_header::{Header, class_of_target, dsha, meets_class, meets_target, root_of, target_of};
use job_declaration::merkle_path;
use sv2_types::U256;
use trial_cases::{Case, Found, word};

/// Hashes of blocks and transactions are given as they are displayed; hashes and targets that are
/// tested, as their bytes stand.
pub(crate) fn find(found: &mut Found, case: Case<'_>) {
    let (what, bound) = (case.part(2), case.part(3));
    match case.part(0) {
        "hash" => find_hash(found, what),
        "root" => {
            let path = displayed_all(found, bound);
            let id = found.displayed(what);
            found.display(&root_of(&id, &path));
        }
        "target_of" => {
            let class = found.number(what).min(60) as u8;
            found.hex(target_of(class).bytes());
        }
        "class_of_target" => {
            let target = U256::of(found.hash_of(what));
            found.tell(&class_of_target(&target));
        }
        "meets_class" => {
            let class = found.number(bound).min(255) as u8;
            let hash = found.hash_of(what);
            found.tell(&meets_class(&hash, class));
        }
        _ => {
            let target = U256::of(found.hash_of(bound));
            let hash = found.hash_of(what);
            found.tell(&meets_target(&hash, &target));
        }
    }
}

/// The hash of a header: its version, the hash before, its root, its time, its bits and its nonce.
fn find_hash(found: &mut Found, words: &str) {
    let header = Header {
        version: found.short_number(word(words, 0)),
        prev_hash: found.displayed(word(words, 1)),
        root: found.displayed(word(words, 2)),
        ntime: found.short_number(word(words, 3)),
        nbits: found.hex_number(word(words, 4)),
        nonce: found.short_number(word(words, 5)),
    };
    found.display(&dsha(&header.bytes()));
}

/// The path beside the first of a block's ids, or the root to which it leads from there. All hashes
/// are given as they are displayed.
pub(crate) fn find_path(found: &mut Found, case: Case<'_>) {
    let ids = displayed_all(found, case.part(2));
    let (first, others) = ids.split_first().unwrap_or((&[0; 32], &[]));
    match merkle_path(found.alloc(), others) {
        Ok(path) if case.part(0) == "root" => found.display(&root_of(first, &path)),
        Ok(path) => display_all(found, &path),
        Err(_) => found.done(false),
    }
}

/// Hashes that words spell, or for `FROM..TO` the numbers from FROM to the last before TO.
fn displayed_all(found: &mut Found, words: &str) -> Vec<[u8; 32]> {
    let mut hashes = Vec::new(found.alloc());
    for word in words.split_whitespace() {
        match word.split_once("..") {
            Some((from, to)) => put_numbers(found, &mut hashes, from, to),
            None => {
                let hash = found.displayed(word);
                found.done(hashes.push(hash).is_ok());
            }
        }
    }
    hashes
}

fn put_numbers(found: &mut Found, hashes: &mut Vec<[u8; 32]>, from: &str, to: &str) {
    for number in found.short_number(from)..found.short_number(to) {
        let mut hash = [0; 32];
        hash[..4].copy_from_slice(&number.to_le_bytes());
        found.done(hashes.push(hash).is_ok());
    }
}

fn display_all(found: &mut Found, hashes: &[[u8; 32]]) {
    found.say(if hashes.is_empty() { "-" } else { "" });
    for hash in hashes {
        found.display(hash);
        found.say(" ");
    }
}
