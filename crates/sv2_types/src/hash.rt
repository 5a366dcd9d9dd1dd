//! 256 bits, carried as bytes.

ghost use Rattle.std.specs.Prelude.{◌≡◌, length};

use std::marker::Model;

/// 32 bytes in the order in which they stand in a header or a message; as a number the first byte
/// is the lowest (Stratum V2, U256).
#[derive(Clone, Copy, Debug)]
pub struct U256 {
    bytes: [u8; 32],
}

impl Model for U256 {
    ghost use Rattle.std.specs.Prelude.{◌≡◌, List, ℕ, length};

    ghost Value = { List ℕ };

    ghost view = { λ hash. hash.bytes };

    ghost invariant = { λ hash. length hash.bytes ≡ 32 };

    ghost inverse = { λ bytes. record { bytes = bytes } };
}

impl U256 {
    /// The number with these bytes.
    pub fn of(bytes: [u8; 32]) -> U256
        ensures value { result ≡ bytes }
        ensures length { length result ≡ 32 }
    {
        U256 { bytes }
    }

    /// The bytes, as they stand.
    pub fn bytes(&self) -> &[u8; 32]
        ensures value { result.now ≡ self.now }
        ensures length { length self.now ≡ 32 }
    {
        &self.bytes
    }
}
