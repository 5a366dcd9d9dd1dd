//! A network: what is asked by an address.

ghost use Rattle.std.specs.Prelude.{◌≡◌, ◌<◌, [], ◌∷◌, IfOk, OnErr, map, vec_len};
ghost use Rattle.pool_io.specs.Lending.{lent_one, with_back};
ghost use Rattle.pool_io.specs.Outside.{CountsFailure, is_failed_gift};
ghost use Rattle.pool_network.specs.declared.network.Reaching.TheVariants as reaching;
ghost use Rattle.pool_network.specs.Networks.{GivesNext, NetworkSeen, calls_after};

use crate::Door;
use pool_io::{HostError, Name};

/// A call that named an address.
#[derive(Debug, Drop)]
pub enum Reaching {
    /// For a connection to the peer there.
    Dial(Name),
    /// For so many doors there.
    Doors(Name, u32),
}

/// Gives connections to peers, and doors where callers come, and takes both back. What it gave isn't
/// `Drop`, so it can't be lost.
pub trait Network {
    type D: Door;

    /// How often the network has failed (a counter stays at 2^64 - 1 once it is there), what it gives,
    /// what is out, and what has come back.
    ghost seen: { Self → NetworkSeen };

    /// A connection to the peer at this address.
    fn dial(&mut self, address: &str) -> Result<<Self::D as Door>::L, HostError>
        ensures given { IfOk result (λ link. GivesNext (seen self.old).to_dial (seen self.new).to_dial
            (Self.D.L.seen link ∷ [])) }
        ensures lent { IfOk result (λ link. (seen self.new).links ≡ lent_one (seen self.old).links) }
        ensures stays { IfOk result (λ link. seen self.new ≡ record (seen self.old) {
          calls = (seen self.new).calls;
          to_dial = (seen self.new).to_dial;
          links = (seen self.new).links;
        }) }
        ensures refused { OnErr result (seen self.new ≡ record (seen self.old) {
          faults = (seen self.new).faults;
          calls = (seen self.new).calls;
        }) }
        ensures counts { CountsFailure (is_failed_gift result) (seen self.old).faults
            (seen self.new).faults }
        ensures called { (seen self.new).calls
            ≡ calls_after (reaching.Dial address.now) result (seen self.old).calls };

    /// So many doors at this address.
    fn open_doors(&mut self, address: &str, count: u32) -> Result<Vec<Self::D>, HostError>
        ensures given { IfOk result (λ doors. GivesNext (seen self.old).to_open (seen self.new).to_open
            (map Self.D.seen doors.items)) }
        ensures as_many { IfOk result (λ doors. vec_len doors ≡ count) }
        ensures lent { IfOk result (λ doors. (seen self.new).doors ≡ lent_one (seen self.old).doors) }
        ensures stays { IfOk result (λ doors. seen self.new ≡ record (seen self.old) {
          calls = (seen self.new).calls;
          to_open = (seen self.new).to_open;
          doors = (seen self.new).doors;
        }) }
        ensures refused { OnErr result (seen self.new ≡ record (seen self.old) {
          faults = (seen self.new).faults;
          calls = (seen self.new).calls;
        }) }
        ensures counts { CountsFailure (is_failed_gift result) (seen self.old).faults
            (seen self.new).faults }
        ensures called { (seen self.new).calls
            ≡ calls_after (reaching.Doors address.now count) result (seen self.old).calls };

    /// Takes a connection back, without memory.
    fn done_link(&mut self, link: <Self::D as Door>::L)
        requires { 0 < (seen self.old).links.lent }
        ensures back { seen self.new ≡ record (seen self.old) {
          links = with_back (seen self.old).links (Self.D.L.seen link);
        } };

    /// Takes doors back, without memory.
    fn done_doors(&mut self, doors: Vec<Self::D>)
        requires { 0 < (seen self.old).doors.lent }
        ensures back { seen self.new ≡ record (seen self.old) {
          doors = with_back (seen self.old).doors (map Self.D.seen doors.items);
        } };
}
