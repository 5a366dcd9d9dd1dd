//! What ends a session.

ghost use Rattle.std.specs.Prelude.{◌≡◌, ℕ, List, length};
ghost use Rattle.session_steps.specs.States as states;
ghost use Rattle.v2_sessions.specs.Meeting.{Leaves};
ghost use Rattle.v2_sessions.specs.Standing.{GoesOnOrEnds, end_at_limit};
ghost use Rattle.session_steps.specs.States.{end_after_fault};

use crate::SessionEnd;
use crate::acting::{Acted, Acting};
use link_turns::{Limit, Waiting};
use pool_history::{BookError, Request};

/// Leaves, where it entered.
pub fn leave<A: Acting>(entered: bool, end: SessionEnd, acting: &mut A) -> SessionEnd
    requires { A.ready acting.old }
    ensures ready { A.ready acting.new }
    ensures leaves { Leaves A.worker A.does entered end acting.old result acting.new }
{
    if !entered {
        return end;
    }
    let Acted { front: _, outcome } = acting.act(Request::Leave);
    match outcome {
        Ok(_) => end,
        Err(cause) => left_end(end, cause),
    }
}

/// A leaving that isn't answered.
fn left_end(end: SessionEnd, cause: BookError) -> SessionEnd
    ensures { result ≡ end_after_fault end cause }
{
    match end {
        SessionEnd::Done => SessionEnd::from(cause),
        _ => end,
    }
}

/// Another turn is taken, or a limit is reached.
pub fn keep_limits(waiting: &Waiting) -> Result<(), SessionEnd>
    ensures { GoesOnOrEnds waiting.now result }
{
    match waiting.limit() {
        None => Ok(()),
        Some(limit) => Err(limit_end(limit)),
    }
}

/// A limit of what is waited for.
fn limit_end(limit: Limit) -> SessionEnd
    ensures { result ≡ end_at_limit limit }
{
    match limit {
        Limit::IdleOut => SessionEnd::IdleOut,
        Limit::BytesOut => SessionEnd::BytesOut,
    }
}

/// The end of the input, where so many bytes are held.
pub fn input_end(held: usize) -> SessionEnd
    ensures { (bytes : List ℕ) → length bytes ≡ held → result ≡ states.input_end bytes }
{
    match held {
        0 => SessionEnd::Done,
        count => SessionEnd::CutFrame(count),
    }
}
