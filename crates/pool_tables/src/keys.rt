//! A header as the key of a set.

ghost use Rattle.std.specs.Prelude.{[], ◌∷◌};
ghost use Rattle.std.specs.Cmp.{partial_equiv_from_equiv};
ghost use Rattle.std.specs.Cmp.Lexicographic.{nat_list_eq_equiv};
ghost use Rattle.std.specs.Hash.{same_Alike};
ghost use Rattle.std.specs.Str.{bytes_eq};
ghost use Rattle.std.proofs.lemmas.Slice.Eq.{bytes_eq-Decides};

use std::hash::{Hash, Hasher};
use std::marker::Model;

/// A header that is hashed in one write. An array's own hash takes one for each of its bytes, which
/// costs nearly half a block of SHA-256. Contracts see the bytes.
#[derive(Drop)]
pub(crate) struct HeaderKey {
    bytes: [u8; 80],
}

impl Model for HeaderKey {
    ghost use Rattle.std.specs.Prelude.{ℕ, List};

    ghost Value = { List ℕ };

    ghost view = { λ key. key.bytes };
}

impl HeaderKey {
    ghost use Rattle.std.specs.Prelude.{◌≡◌};

    pub(crate) fn of(bytes: [u8; 80]) -> HeaderKey
        ensures { result ≡ bytes }
    {
        HeaderKey { bytes }
    }
}

impl PartialEq for HeaderKey {
    ghost eq = { bytes_eq };

    ghost laws = { partial_equiv_from_equiv nat_list_eq_equiv };

    fn eq(&self, other: &HeaderKey) -> bool {
        self.bytes == other.bytes
    }
}

impl Eq for HeaderKey {
    ghost laws = { nat_list_eq_equiv };
}

impl Hash for HeaderKey {
    ghost hash_input = { λ key. key ∷ [] };

    ghost respects_eq = { (same_Alike (λ key. key ∷ []) bytes_eq-Decides).fed };

    fn hash<H: Hasher>(&self, state: &mut H) {
        state.write(&self.bytes);
    }
}
