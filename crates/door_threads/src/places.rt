//! The link and the doors, from the dialling of the peer to the return of both.

ghost use Rattle.std.specs.Prelude.{◌≡◌, ◌<◌, IfOk, OnErr, map, vec_len};
ghost use Rattle.pool_io.specs.Lending.{lent_one, with_back};
ghost use Rattle.door_threads.specs.Places.{AreUnlent, OpensPlaces};

use pool_io::HostError;
use pool_network::{Door, Network};

/// A link and doors that a network gave.
pub struct Opened<D, L> {
    pub link: L,
    pub doors: Vec<D>,
}

/// Dials a peer, and then opens so many doors at an address. Where no doors are given, the link is handed
/// back.
pub fn open_places<N: Network>(
    network: &mut N,
    peer: &str,
    address: &str,
    count: u32,
) -> Result<Opened<N::D, <N::D as Door>::L>, HostError>
    ensures places { OpensPlaces N.D.seen N.D.L.seen
        (record { peer = peer.now; address = address.now; doors = count })
        (N.seen network.old) (N.seen network.new) result }
    ensures as_many { IfOk result (λ opened. vec_len opened.doors ≡ count) }
    ensures links { IfOk result (λ opened. (N.seen network.new).links ≡ lent_one (N.seen network.old).links) }
    ensures lists { IfOk result (λ opened. (N.seen network.new).doors ≡ lent_one (N.seen network.old).doors) }
    ensures unlent { OnErr result (AreUnlent (N.seen network.old) (N.seen network.new)) }
{
    let link = network.dial(peer)?;
    match network.open_doors(address, count) {
        Ok(doors) => Ok(Opened { link, doors }),
        Err(error) => {
            network.done_link(link);
            Err(error)
        }
    }
}

/// Hands the doors and the link back.
pub fn leave_places<N: Network>(network: &mut N, opened: Opened<N::D, <N::D as Door>::L>)
    requires links { 0 < (N.seen network.old).links.lent }
    requires lists { 0 < (N.seen network.old).doors.lent }
    ensures { N.seen network.new ≡ record (N.seen network.old) {
      links = with_back (N.seen network.old).links (N.D.L.seen opened.link);
      doors = with_back (N.seen network.old).doors (map N.D.seen opened.doors.items);
    } }
{
    let Opened { link, doors } = opened;
    network.done_doors(doors);
    network.done_link(link);
}
