//! Strings of at most four bytes, on the way to a node or a lead.

ghost use Rattle.std.specs.Prelude.{◌≡◌, ◌-◌, ◌<◌, ◌≤◌, [], ◌∷◌, ◌++◌, length, take, replicate};
ghost use Rattle.std.specs.Int.{from_be_bytes, w64};
ghost use Rattle.prefix_space.specs.Paths.{IsShort, lead_key, node_key};

use pool_history::Lead;
use std::marker::Model;

/// A string of at most four bytes. Contracts see the list.
#[derive(Clone, Copy)]
pub(crate) struct Path {
    len: u8,
    bytes: [u8; 4],
}

impl Model for Path {
    ghost use Rattle.std.specs.Prelude.{ℕ, List};

    ghost Value = { List ℕ };

    ghost use Rattle.std.specs.Prelude.{◌-◌, ◌++◌, length, take, replicate};
    ghost use Rattle.prefix_space.specs.Paths.{IsPath};

    ghost view = { λ path. take path.len path.bytes };

    ghost invariant = { λ path. IsPath path.len path.bytes };

    ghost inverse = { λ bytes. record {
      len = length bytes;
      bytes = bytes ++ replicate (4 - length bytes) 0;
    } };
}

impl Path {
    /// The empty string.
    pub(crate) fn root() -> Path
        ensures { result ≡ [] }
    {
        Path {
            len: 0,
            bytes: [0; 4],
        }
    }

    pub(crate) fn len(&self) -> u8
        ensures value { result ≡ length self.now }
        ensures most { result ≤ 4 }
    {
        self.len
    }

    /// The first bytes of a lead.
    pub(crate) fn front(lead: &Lead, len: u8) -> Path
        requires { len < length lead.now }
        ensures { result ≡ take len lead.now }
    {
        let [a, b, c, _] = *lead.padded();
        match len {
            0 => Path::root(),
            1 => Path {
                len,
                bytes: [a, 0, 0, 0],
            },
            2 => Path {
                len,
                bytes: [a, b, 0, 0],
            },
            _ => Path {
                len,
                bytes: [a, b, c, 0],
            },
        }
    }

    /// The string with one more byte.
    pub(crate) fn then(&self, byte: u8) -> Path
        requires { length self.now < 4 }
        ensures { result ≡ self.now ++ byte ∷ [] }
    {
        let [a, b, c, _] = self.bytes;
        match self.len {
            0 => Path {
                len: 1,
                bytes: [byte, 0, 0, 0],
            },
            1 => Path {
                len: 2,
                bytes: [a, byte, 0, 0],
            },
            2 => Path {
                len: 3,
                bytes: [a, b, byte, 0],
            },
            _ => Path {
                len: 4,
                bytes: [a, b, c, byte],
            },
        }
    }

    /// The number that a node stands under.
    pub(crate) fn key(&self) -> u32
        requires { length self.now ≤ 3 }
        ensures { result ≡ node_key self.now }
    {
        let [a, b, c, _] = self.bytes;
        u32::from_be_bytes([self.len, a, b, c])
    }

    /// The lead of so many bytes that begins with the string, and has zeros behind it.
    pub(crate) fn lead(&self, len: u8) -> Lead
        requires some { 1 ≤ len }
        requires most { len ≤ 4 }
        requires within { length self.now ≤ len }
        ensures { result ≡ self.now ++ replicate (len - length self.now) 0 }
    {
        Lead::of(len, self.bytes)
    }
}

/// The number that a lead is held under.
pub(crate) fn key_of(lead: &Lead) -> u64
    ensures value { result ≡ lead_key lead.now }
    ensures short { IsShort lead.now }
{
    let [a, b, c, d] = *lead.padded();
    spelled(lead.len(), a, b, c, d)
}

fn spelled(len: u8, a: u8, b: u8, c: u8, d: u8) -> u64
    ensures value { result ≡ from_be_bytes w64 (0 ∷ 0 ∷ 0 ∷ len ∷ a ∷ b ∷ c ∷ d ∷ []) }
    ensures bytes { (a < 256) × (b < 256) × (c < 256) × (d < 256) }
{
    u64::from_be_bytes([0, 0, 0, len, a, b, c, d])
}
