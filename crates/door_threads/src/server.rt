//! Who serves those who call at a door.

ghost use Rattle.pool_network.specs.Seen.{LinkSeen};

use pool_network::Link;

/// Serves one link after the other, each up to its end. What that does is a relation between who
/// serves before it, the link as it came and as it went, and who serves after it.
pub trait LinkServer {
    /// Whether it can serve.
    ghost ready: { Self → Type 0 };

    /// What serving one link does.
    ghost serves: { Self → LinkSeen → LinkSeen → Self → Type 0 };

    fn serve<L: Link>(&mut self, link: &mut L)
        requires { ready self.old }
        ensures ready { ready self.new }
        ensures served { serves self.old (L.seen link.old) (L.seen link.new) self.new };
}
