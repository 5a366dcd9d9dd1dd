//! Who hears the turns of a link.

ghost use Rattle.std.specs.Prelude.{◌≡◌, ◌<◌, length, OnOk, Option, Some};
ghost use Rattle.pool_io.specs.declared.turn.Turn.{Turn};
ghost use Rattle.pool_io.specs.declared.turn.Turn.TheVariants as turn;
ghost use Rattle.pool_io.specs.Seen.{SinkSeen};
ghost use Rattle.session_steps.specs.declared.ends.SessionEnd.{SessionEnd};
ghost use Rattle.link_hearing.specs.Hearing.{end_of};

use pool_network::Link;
use session_steps::SessionEnd;

/// Hears the turns of a link, and puts what it answers. What hearing one turn does is a relation
/// between who hears and what the link's peer had got before it, the turn, how it is over if it is,
/// and both after it.
pub trait TurnHearer {
    /// What holds of it always.
    ghost sound: { Self → Type 0 };

    /// Whether it can be told anything: it isn't over.
    ghost ready: { Self → Type 0 };

    /// What hearing one turn does.
    ghost hears: { Self → SinkSeen → Turn → Option SessionEnd → Self → SinkSeen → Type 0 };

    /// Hears bytes that came, and puts what it answers.
    fn piece<L: Link>(&mut self, piece: &[u8], link: &mut L) -> Result<(), SessionEnd>
        requires ready { sound self.old × ready self.old }
        requires some { 0 < length piece.now }
        ensures sound { sound self.new }
        ensures ready { OnOk result (ready self.new) }
        ensures source { (L.seen link.new).source ≡ (L.seen link.old).source }
        ensures heard { hears self.old (L.seen link.old).sink (turn.Piece piece.now) (end_of result)
            self.new (L.seen link.new).sink };

    /// Hears that no byte came for now, and puts what it says to that.
    fn idle<L: Link>(&mut self, link: &mut L) -> Result<(), SessionEnd>
        requires { sound self.old × ready self.old }
        ensures sound { sound self.new }
        ensures ready { OnOk result (ready self.new) }
        ensures source { (L.seen link.new).source ≡ (L.seen link.old).source }
        ensures heard { hears self.old (L.seen link.old).sink turn.Idle (end_of result) self.new
            (L.seen link.new).sink };

    /// Hears that no byte will come any more, and says how it is over.
    fn input_end(&mut self) -> SessionEnd
        requires { sound self.old × ready self.old }
        ensures sound { sound self.new }
        ensures heard { (sink : SinkSeen) → hears self.old sink turn.End (Some result) self.new sink };
}
