//! The places of transactions that are missing.

ghost use Rattle.std.specs.Prelude.{◌≡◌, ◌^◌, ◌<◌, IfOk, length};
ghost use Rattle.std.specs.List.{flat_map};
ghost use Rattle.job_declaration.specs.Filling as rules;
ghost use Rattle.sv2_types.specs.Spelling.{spelled_u16};

use crate::Listed;
use std::alloc::{AllocError, Global};

/// The places of what isn't known, in rising order, each as two bytes, the low byte first.
pub(crate) fn missing_places(alloc: Global, listed: &[Listed]) -> Result<Vec<u8>, AllocError>
    requires { length listed.now < 2 ^ 16 }
    ensures { IfOk result (λ spelled. spelled.items
        ≡ flat_map spelled_u16 (rules.missing_places listed.now)) }
{
    let mut spelled = Vec::new(alloc);
    for (place, entry) in listed.iter().enumerate() {
        if entry.txid.is_none() {
            spelled.extend_from_slice(&(place as u16).to_le_bytes())?;
        }
    }
    Ok(spelled)
}
