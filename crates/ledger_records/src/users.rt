//! Reads the accounts of a Start.

ghost use Rattle.ledger_records.specs.Bodies.{ReadsUsers};

use crate::error::RecordError;
use pool_history::Users;
use std::alloc::Global;
use sv2_types::{Reader, Str255};

/// So many accounts, and nothing else.
pub(crate) fn read_users(alloc: Global, count: u16, accounts: &[u8]) -> Result<Users, RecordError>
    ensures { ReadsUsers count accounts.now result }
{
    let mut reader = Reader::new(accounts);
    let mut users = Vec::new(alloc);
    for _place in 0..count {
        match reader.str255() {
            Ok(text) => users.push(Str255::of(alloc, text)?)?,
            Err(_) => return Err(RecordError::NoRecord),
        }
    }
    if reader.left() > 0 {
        return Err(RecordError::NoRecord);
    }
    Ok(Users::of(users))
}
