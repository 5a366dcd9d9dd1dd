//! The lead of a channel's extranonces.

use std::marker::Model;

/// The bytes that each extranonce of a channel begins with, one to four of them. Contracts see the
/// list.
#[derive(Clone, Copy)]
pub struct Lead {
    len: u8,
    bytes: [u8; 4],
}

impl Model for Lead {
    ghost use Rattle.std.specs.Prelude.{ℕ, List};

    ghost Value = { List ℕ };

    ghost use Rattle.std.specs.Prelude.{◌-◌, ◌++◌, length, take, replicate};
    ghost use Rattle.pool_history.specs.Leads.{IsLead};

    ghost view = { λ lead. take lead.len lead.bytes };

    ghost invariant = { λ lead. IsLead lead.len lead.bytes };

    ghost inverse = { λ bytes. record {
      len = length bytes;
      bytes = bytes ++ replicate (4 - length bytes) 0;
    } };
}

impl Lead {
    ghost use Rattle.std.specs.Prelude.{◌≡◌, ◌-◌, ◌++◌, ◌≤◌, length, take, replicate};

    /// The first `len` of four bytes, the others being 0.
    pub fn of(len: u8, bytes: [u8; 4]) -> Lead
        requires some { 1 ≤ len }
        requires most { len ≤ 4 }
        requires padded { take len bytes ++ replicate (4 - len) 0 ≡ bytes }
        ensures { result ≡ take len bytes }
    {
        Lead { len, bytes }
    }

    /// How many bytes it has: 1 to 4.
    pub fn len(&self) -> u8
        ensures value { result ≡ length self.now }
        ensures some { 1 ≤ result }
        ensures most { result ≤ 4 }
    {
        self.len
    }

    pub fn bytes(&self) -> &[u8]
        ensures { result.now ≡ self.now }
    {
        &self.bytes[..usize::from(self.len)]
    }

    /// The bytes with zeros behind them, as they stand at the front of an extranonce.
    pub fn padded(&self) -> &[u8; 4]
        ensures { result.now ≡ self.now ++ replicate (4 - length self.now) 0 }
    {
        &self.bytes
    }
}
