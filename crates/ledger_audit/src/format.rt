//! The formats of a ledger, and how long its records are.

ghost use Rattle.std.specs.Prelude.{◌≡◌, ◌<◌, ◌≤◌, IfNone, IfSome, length};
ghost use Rattle.ledger_records.specs.Records.{said_body_len};
ghost use Rattle.ledger_audit.specs.Units as units;

/// A record's kind and the length of its body, in bytes.
pub const HEAD_LEN: usize = 4;

/// The longest body of a record, in bytes.
pub const BODY_LIMIT: usize = 300_000;

/// How a ledger's records stand, one behind the other.
#[derive(Clone, Copy)]
pub enum Format {
    /// Format 1: nothing between them.
    Plain,
    /// Format 2: behind each the hash of it and of all before it.
    Chained,
}

impl Format {
    /// How many bytes of a hash stand behind each record.
    pub fn hash_len(self) -> usize
        ensures { result ≡ units.hash_len self }
    {
        match self {
            Format::Plain => 0,
            Format::Chained => 32,
        }
    }
}

/// The length of the body that a record's first four bytes say, where they are there.
pub fn body_len(bytes: &[u8]) -> Option<usize>
    ensures value { IfSome result (λ len. len ≡ said_body_len bytes.now) }
    ensures there { IfSome result (λ _. 4 ≤ length bytes.now) }
    ensures none { IfNone result (length bytes.now < 4) }
{
    match bytes {
        [_, low, middle, high, ..] => {
            Some(*low as usize + 256 * (*middle as usize + 256 * *high as usize))
        }
        _ => None,
    }
}
