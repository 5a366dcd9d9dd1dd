//! What is printed of a feed's solutions.

ghost use Rattle.std.specs.Prelude.{◌≡◌, ◌++◌, IfOk, OnOk};
ghost use Rattle.peer_commands.specs.Feeding.{verdict_line, verdict_lines, verdict_word};

use itoa::Buffer;
use std::alloc::{AllocError, Global};
use test_miner::Verdict;

/// A line for each solution, in their order.
pub(crate) fn lines_of(alloc: Global, verdicts: &[Verdict]) -> Result<Vec<u8>, AllocError>
    ensures { IfOk result (λ text. text.items ≡ verdict_lines verdicts.now) }
{
    let mut text = Vec::new(alloc);
    for verdict in verdicts {
        put_verdict(&mut text, *verdict)?;
    }
    Ok(text)
}

/// Appends the line of a solution.
fn put_verdict(text: &mut Vec<u8>, verdict: Verdict) -> Result<(), AllocError>
    ensures { OnOk result (text.new.items ≡ text.old.items ++ verdict_line verdict) }
{
    let mut buffer = Buffer::new();
    text.extend_from_slice(b"solution ")?;
    text.extend_from_slice(buffer.format(verdict.id).as_bytes())?;
    text.extend_from_slice(word_of(verdict.is_valid).as_bytes())
}

fn word_of(is_valid: bool) -> &'static str
    ensures { result.now ≡ verdict_word is_valid }
{
    if is_valid { " valid\n" } else { " invalid\n" }
}
