//! Who hears the lines of a link.

ghost use Rattle.session_steps.specs.declared.ends.SessionEnd.{SessionEnd};
ghost use Rattle.line_turns.specs.Hearing.{Hearing, HearsIdle, HearsLine, HearsLines};

use pool_network::Link;
use session_steps::SessionEnd;

/// Hears lines and Idle turns, and puts what it answers. What it does is a relation between two
/// moments of it and its link.
pub trait LineTalker {
    /// Whether it can be told anything.
    ghost ready: { Self → Type 0 };

    /// What it does from one moment to another at which it goes on.
    ghost goes_on: { Hearing Self → Hearing Self → Type 0 };

    /// What it does from a moment up to one at which it is over for this reason.
    ghost ends: { Hearing Self → SessionEnd → Hearing Self → Type 0 };

    /// Hears a line, without its end, and puts what it answers.
    fn line<L: Link>(&mut self, line: &[u8], link: &mut L) -> Result<(), SessionEnd>
        requires { ready self.old }
        ensures ready { ready self.new }
        ensures hears { HearsLine goes_on ends line.now self.old (L.seen link.old) result self.new
            (L.seen link.new) };

    /// Hears that no byte came for now, and puts what it says to that.
    fn idle<L: Link>(&mut self, link: &mut L) -> Result<(), SessionEnd>
        requires { ready self.old }
        ensures ready { ready self.new }
        ensures hears { HearsIdle goes_on ends self.old (L.seen link.old) result self.new
            (L.seen link.new) };

    /// What it does goes on, whatever comes over the link.
    ghost hears_lines: { HearsLines goes_on ends };
}
