//! Transactions, and the coinbases of templates and of miners' own jobs, with the pool's script 51.

use coinbase::{Assembly, CustomRecipe, Recipe, Tx, TxError};
use trial_cases::{Case, Found, Spelling, word};

/// The script that is paid to.
const SCRIPT: &[u8] = b"\x51";

/// The two ids of a transaction, and what is otherwise than it should be; or the first defect of what
/// is none. Each word of the bytes spells a field.
pub(crate) fn find_transaction(found: &mut Found, case: Case<'_>) {
    let spelling = found.spelled(case.part(1));
    match Tx::read(found.alloc(), &spelling.bytes) {
        Ok(tx) => tell_transaction(found, &tx, &spelling),
        Err(defect) => found.tell(&defect),
    }
}

fn tell_transaction(found: &mut Found, tx: &Tx, spelling: &Spelling) {
    tell_id(found, tx.txid().ok());
    tell_id(found, tx.wtxid().ok());
    let mut written = Vec::new(found.alloc());
    found.done(tx.write(&mut written).is_ok());
    if written != spelling.bytes {
        found.say(", written otherwise");
    }
    if !is_short_where_cut(found, spelling) {
        found.say(", cut at a byte it isn't short in that field");
    }
}

fn tell_id(found: &mut Found, id: Option<[u8; 32]>) {
    found.display(&id.unwrap_or([0; 32]));
    found.say(" ");
}

/// Cut at any byte, the field that is cut passes the end.
fn is_short_where_cut(found: &Found, spelling: &Spelling) -> bool {
    let mut is_short = true;
    for (end, _) in spelling.bytes.iter().enumerate() {
        let defect = Tx::read(found.alloc(), &spelling.bytes[..end]).err();
        is_short &= defect == Some(TxError::Short(spelling.word_begin(end)));
    }
    is_short
}

/// The coinbase of a template, or of a miner's own job with its reward; or why there is none.
pub(crate) fn find_assembly(found: &mut Found, case: Case<'_>) {
    let outputs = found.bytes_of(case.part(3));
    let terms = case.part(2);
    let prefix = found.bytes_of(word(terms, 1));
    if case.part(0) == "miner" {
        find_of_miner(found, terms, &prefix, &outputs);
    } else {
        find_of_template(found, terms, &prefix, &outputs);
    }
}

fn find_of_template(found: &mut Found, terms: &str, prefix: &[u8], outputs: &[u8]) {
    let recipe = Recipe {
        tx_version: found.short_number(word(terms, 0)),
        prefix,
        sequence: found.hex_number(word(terms, 2)),
        reward: found.number(word(terms, 3)),
        outputs_count: found.short_number(word(terms, 4)),
        outputs,
        lock_time: found.short_number(word(terms, 5)),
    };
    match Assembly::of(found.alloc(), &recipe, SCRIPT) {
        Ok(assembly) => tell_assembly(found, &assembly),
        Err(error) => found.tell(&error),
    }
}

fn find_of_miner(found: &mut Found, terms: &str, prefix: &[u8], outputs: &[u8]) {
    let recipe = CustomRecipe {
        tx_version: found.short_number(word(terms, 0)),
        prefix,
        sequence: found.hex_number(word(terms, 2)),
        outputs,
        lock_time: found.short_number(word(terms, 3)),
    };
    match Assembly::of_outputs(found.alloc(), &recipe, SCRIPT) {
        Ok((assembly, reward)) => {
            found.tell(&reward);
            found.say(" ");
            tell_assembly(found, &assembly);
        }
        Err(error) => found.tell(&error),
    }
}

/// The parts of a coinbase, its id, and its whole form, with an extranonce of zeros.
fn tell_assembly(found: &mut Found, assembly: &Assembly) {
    found.hex(assembly.prefix());
    found.say(" ");
    found.hex(assembly.suffix());
    found.say(" ");
    found.display(&assembly.txid_with(&[0; 12]));
    found.say(" ");
    match assembly.whole(&[0; 12]) {
        Ok(whole) => found.hex(&whole),
        Err(_) => found.done(false),
    }
}
