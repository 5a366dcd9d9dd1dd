//! Whether records begin with a Start.

ghost use Rattle.std.specs.Prelude.{◌≡◌, ◌↔◌, ◌∷◌, [], IfOk, IsTrue, List};
ghost use Rattle.pool_base.specs.Lists.{Begins};
ghost use Rattle.pool_history.specs.declared.events.Event.{Event as Happened};
ghost use Rattle.pool_history.specs.declared.events.Event.TheVariants as event;
ghost use Rattle.pool_history.specs.Accounts.{are_in_range};
ghost use Rattle.ledger_records.specs.WellFormed.{CanBeKept};
ghost use Rattle.ledger_records.specs.Pieces.{first_piece};
ghost use Rattle.ledger_resume.specs.Histories.{IsHistoryOf};

use ledger_records::{fields_fit, starts_are_kept, write_first_piece};
use pool_history::{Boxed, Event, Rules};
use std::alloc::{AllocError, Global};
use sv2_types::Blob;

/// Whether the history of these records, if they have one, begins with the Start of these rules.
pub(crate) fn begin_with_start(
    alloc: Global,
    rules: Rules,
    records: &[Blob],
) -> Result<bool, AllocError>
    requires { IsTrue (are_in_range rules) }
    ensures { IfOk result (λ same. (past : List Happened) → IsHistoryOf records.now past
        → IsTrue same ↔ Begins (event.Start rules ∷ []) past) }
{
    let Some((first, _later)) = records.split_first() else {
        return Ok(false);
    };
    is_piece_of_start(alloc, rules, first.bytes())
}

/// Whether bytes are the piece of the Start of these rules, which can be kept.
fn is_piece_of_start(alloc: Global, rules: Rules, bytes: &[u8]) -> Result<bool, AllocError>
    requires { IsTrue (are_in_range rules) }
    ensures kept { IfOk result (λ same. CanBeKept (event.Start rules)) }
    ensures same { IfOk result (λ same. IsTrue same ↔ (bytes.now ≡ first_piece (event.Start rules))) }
{
    let start = Event::Start(Boxed::new(alloc, rules)?);
    fields_fit(&start);
    starts_are_kept();
    let mut piece = Vec::new(alloc);
    write_first_piece(&start, &mut piece)?;
    Ok(are_same(bytes, &piece))
}

/// Whether these are the same bytes.
fn are_same(bytes: &[u8], others: &[u8]) -> bool
    ensures { IsTrue result ↔ (bytes.now ≡ others.now) }
{
    bytes == others
}
