//! The lines of a summary.

ghost use Rattle.std.specs.Prelude.{◌≡◌, ◌++◌, OnOk, OnErr};
ghost use Rattle.pool_base.specs.Lists.{Begins};
ghost use Rattle.pool_history.specs.Summary.{account_line, line};

use itoa::Buffer;
use std::alloc::AllocError;

/// Appends a word and its number, as a line. Lack of memory can leave some of it.
pub fn put_line(out: &mut Vec<u8>, word: &[u8], number: u64) -> Result<(), AllocError>
    ensures ok { OnOk result (out.new.items ≡ out.old.items ++ line word.now number) }
    ensures err { OnErr result (Begins out.old.items out.new.items) }
{
    let mut buffer = Buffer::new();
    out.extend_from_slice(word)?;
    out.extend_from_slice(b" ")?;
    out.extend_from_slice(buffer.format(number).as_bytes())?;
    out.extend_from_slice(b"\n")
}

/// Appends an account's work and balance.
pub(crate) fn put_account(
    out: &mut Vec<u8>,
    account: &str,
    work: u128,
    balance: u64,
) -> Result<(), AllocError>
    ensures ok { OnOk result (out.new.items ≡ out.old.items
        ++ account_line (record { account = account.now; work = work; balance = balance })) }
    ensures err { OnErr result (Begins out.old.items out.new.items) }
{
    let mut buffer = Buffer::new();
    out.extend_from_slice(b"account ")?;
    out.extend_from_slice(account.as_bytes())?;
    out.extend_from_slice(b" ")?;
    out.extend_from_slice(buffer.format(work).as_bytes())?;
    out.extend_from_slice(b" ")?;
    out.extend_from_slice(buffer.format(balance).as_bytes())?;
    out.extend_from_slice(b"\n")
}
