//! What a crash makes of one call of a disk in memory.

ghost use Rattle.std.specs.Prelude.{◌≡◌, ◌≤◌, ◌+◌, length, vec_capacity};
ghost use Rattle.ledger_disk.specs.Calls.{overwritten};
ghost use Rattle.ledger_disk.specs.Moments.{TornCut, TornWrite};

/// How much of a call a crash leaves.
#[derive(Clone, Copy, Debug, PartialEq, Eq)]
pub(crate) enum Rest {
    /// The first so many of the bytes that were written, or that were cut off from the end.
    First(u64),
    /// This byte in the first places that were written; a cut isn't done.
    Junk(u8),
}

/// All of it for 0, nothing for 1. Odd numbers leave more and more bytes, even ones junk.
pub(crate) fn rest_of(pick: u64) -> Rest {
    let choice = pick % 256;
    if choice == 0 {
        Rest::First(u64::MAX)
    } else if choice % 2 == 1 {
        Rest::First(choice / 2)
    } else {
        Rest::Junk((choice / 2 - 1) as u8)
    }
}

/// Puts bytes over a content and past its end, where it has room for them.
pub(crate) fn put_over(content: &mut Vec<u8>, at: usize, bytes: &[u8])
    requires inside { at ≤ length content.old.items }
    requires room { at + length bytes.now ≤ vec_capacity content.old }
    ensures written { content.new.items ≡ overwritten at bytes.now content.old.items }
    ensures room { vec_capacity content.old ≤ vec_capacity content.new }
{
    let covered = bytes.len().min(content.len() - at);
    content.as_mut_slice()[at..at + covered].copy_from_slice(&bytes[..covered]);
    content.extend_from_slice(&bytes[covered..]).unwrap();
}

/// Leaves of a write what the crash leaves, over what it had left before.
pub(crate) fn tear_write(left: &mut Vec<u8>, at: u64, count: u64, content: &[u8], rest: Rest)
    requires { length content.now ≤ vec_capacity left.old }
    ensures torn { TornWrite at count left.old.items left.new.items }
    ensures room { vec_capacity left.old ≤ vec_capacity left.new }
{
    let from = at as usize;
    if left.len() < from || content.len() < from {
        return;
    }
    let most = (count as usize).min(content.len() - from);
    match rest {
        Rest::First(size) => {
            let size = most.min(size as usize);
            put_over(left, from, &content[from..from + size]);
        }
        Rest::Junk(byte) => put_over(left, from, &[byte; 32][..most.min(32)]),
    }
}

/// Leaves of a cut what the crash leaves.
pub(crate) fn tear_cut(left: &mut Vec<u8>, length: u64, rest: Rest)
    ensures torn { TornCut length left.old.items left.new.items }
    ensures room { vec_capacity left.old ≤ vec_capacity left.new }
{
    if let Rest::First(most) = rest {
        let shortest = left.len().saturating_sub(most as usize);
        left.truncate(shortest.max(length as usize));
    }
}
