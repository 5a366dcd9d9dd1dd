//! The session, from its rules to the text of what it left.

ghost use Rattle.std.specs.Prelude.{◌≡◌, ◌++◌, ◌∷◌, [], IfOk, IsTrue, OnOk};
ghost use Rattle.pool_io.specs.declared.turn.Turn.TheVariants as turn;
ghost use Rattle.pool_history.specs.declared.events.Event.TheVariants as event;
ghost use Rattle.pool_history.specs.Accounts.{are_in_range};
ghost use Rattle.load_command.specs.Frames as frames;
ghost use Rattle.load_command.specs.Loads.{IsLoadText};
ghost use Rattle.load_command.specs.Loads as loads;

use crate::counting::count_credits;
use crate::{STEPS, put_load};
use event_store::History;
use payouts::put_line;
use pool_history::{Rules, Users};
use pool_io::{Limits, Piece, SureKeeper, SureSink, SureSource, Turn};
use pool_sessions::{ServedBook, serve_book};
use share_ledger::Book;
use std::alloc::{AllocError, Global};
use sv2_types::Blob;
use v2_sessions::SessionEnd;

/// The input is all there, so that nothing is waited for.
const LIMITS: Limits = Limits {
    idle_turns: 1,
    door_turns: 1,
};

/// What the session of a number left, as text.
pub(crate) fn load_text(alloc: Global, number: u64) -> Result<Vec<u8>, AllocError>
    ensures { IfOk result (λ text. IsLoadText number STEPS text.items) }
{
    let book = load_book(alloc)?;
    let source = load_source(alloc, number)?;
    let sink = SureSink::of(Vec::new(alloc));
    let ServedBook {
        source: _,
        sink: _,
        book,
        end,
    } = serve_book(alloc, book, source, sink, true, false, LIMITS);
    let mut summary = Vec::new(alloc);
    book.summary(&mut summary)?;
    let (_keeper, history) = book.into_parts();
    match end {
        SessionEnd::Done => text_of(alloc, number, &history, &summary),
        SessionEnd::Memory => Err(AllocError),
        // The frames are good, they reach no limit, and nothing fails in memory.
        _ => unreachable!(),
    }
}

/// A book of the rules that a generated session goes by.
fn load_book(alloc: Global) -> Result<Book<SureKeeper>, AllocError>
    ensures events { IfOk result (λ book. book.events ≡ event.Start loads.load_rules ∷ []) }
    ensures counts { IfOk result (λ book. book.keeper.faults ≡ 0) }
{
    match Book::new(alloc, load_rules(alloc)?, SureKeeper::new(alloc)) {
        Ok(book) => Ok(book),
        Err(_) => Err(AllocError),
    }
}

fn load_rules(alloc: Global) -> Result<Rules, AllocError>
    ensures rules { IfOk result (λ rules. rules ≡ loads.load_rules) }
    ensures range { IfOk result (λ rules. IsTrue (are_in_range rules)) }
{
    Ok(Rules {
        pool_script: Blob::of(alloc, b"\x51")?,
        least_class: 0,
        fee: 200,
        window: Some(1000),
        ntime_window: 600,
        credit_limit: 16_777_215,
        version_rolling: true,
        users: Users::of(Vec::new(alloc)),
    })
}

/// All frames of a number at once.
fn load_source(alloc: Global, number: u64) -> Result<SureSource, AllocError>
    ensures { IfOk result (λ source.
        source ≡ turn.Piece (frames.load_frames number STEPS) ∷ []) }
{
    let mut bytes = Vec::new(alloc);
    put_load(number, STEPS, &mut bytes)?;
    let mut turns = Vec::new(alloc);
    turns.push(Turn::Piece(Piece::of(bytes)))?;
    Ok(SureSource::of(turns))
}

/// What was left, as text: the counts of a history, and its summary.
fn text_of(
    alloc: Global,
    number: u64,
    history: &History,
    summary: &[u8],
) -> Result<Vec<u8>, AllocError>
    ensures { IfOk result (λ text. text.items
        ≡ loads.counts_text number STEPS history.now.events ++ summary.now) }
{
    let mut text = Vec::new(alloc);
    put_counts(number, history, &mut text)?;
    text.extend_from_slice(summary)?;
    Ok(text)
}

/// Appends how many submissions there were, and how many of them were accepted and refused.
fn put_counts(number: u64, history: &History, text: &mut Vec<u8>) -> Result<(), AllocError>
    ensures { OnOk result (text.new.items
        ≡ text.old.items ++ loads.counts_text number STEPS history.now.events) }
{
    let submissions = u64::from(STEPS);
    let accepted = count_credits(history);
    put_line(text, b"load", number)?;
    put_line(text, b"submissions", submissions)?;
    put_line(text, b"accepted", accepted)?;
    put_line(text, b"refused", submissions.saturating_sub(accepted))
}
