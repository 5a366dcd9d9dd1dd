//! One turn after the other, up to an end.

ghost use Rattle.std.specs.Prelude.{◌≡◌, ◌<◌, length, OnOk};
ghost use Rattle.link_turns.specs.Waits.{IsBelowLimits, turns_left};
ghost use Rattle.link_hearing.specs.Hearing.{HearsAll, IsKept, TakesTurnOrEnds, hearing_at};

use crate::hearer::TurnHearer;
use link_turns::Waiting;
use pool_io::{PIECE_LEN, Took};
use pool_network::Link;
use session_steps::SessionEnd;
use v2_sessions::keep_limits;

/// Goes on with what was heard, unless it is over or a limit is reached.
fn keep(heard: Result<(), SessionEnd>, waiting: &Waiting) -> Result<(), SessionEnd>
    ensures { IsKept heard waiting.now result }
{
    heard?;
    keep_limits(waiting)
}

/// Takes one turn of the link, and has it heard.
fn turn<L: Link, H: TurnHearer>(
    waiting: &mut Waiting,
    hearer: &mut H,
    buffer: &mut [u8],
    link: &mut L,
) -> Result<(), SessionEnd>
    requires ready { H.sound hearer.old × H.ready hearer.old }
    requires below { IsBelowLimits waiting.old }
    requires room { length buffer.old ≡ PIECE_LEN }
    ensures sound { H.sound hearer.new }
    ensures ready { OnOk result (H.ready hearer.new) }
    ensures below { OnOk result (IsBelowLimits waiting.new) }
    ensures nearer { OnOk result (turns_left waiting.new < turns_left waiting.old) }
    ensures hears { TakesTurnOrEnds H.hears (hearing_at waiting.old hearer.old (L.seen link.old))
        result (hearing_at waiting.new hearer.new (L.seen link.new)) }
{
    match waiting.take(link, buffer) {
        Took::Bytes(count) => keep(hearer.piece(&buffer[..count], link), waiting),
        Took::Idle => keep(hearer.idle(link), waiting),
        Took::End => Err(hearer.input_end()),
        Took::Failed => Err(SessionEnd::ReadFault),
    }
}

/// Tells the turns of a link to who hears them, one after the other, up to an end. So much is still
/// waited for.
pub fn hear_turns<L: Link, H: TurnHearer>(
    link: &mut L,
    hearer: &mut H,
    mut waiting: Waiting,
) -> SessionEnd
    requires ready { H.sound hearer.old × H.ready hearer.old }
    requires below { IsBelowLimits waiting }
    ensures sound { H.sound hearer.new }
    ensures hears { HearsAll H.hears (hearing_at waiting hearer.old (L.seen link.old)) result
        hearer.new (L.seen link.new) }
{
    let mut buffer = [0; PIECE_LEN];
    loop {
        if let Err(end) = turn(&mut waiting, hearer, &mut buffer, link) {
            return end;
        }
    }
}
