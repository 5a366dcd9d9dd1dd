//! Connections and doors over TCP. They tell nothing of what they bring or hold.

ghost use Rattle.std.specs.Prelude.{◌≡◌, ◌<◌, [], IfOk, vec_len};
ghost use Rattle.pool_io.specs.Lending.{with_back};
ghost use Rattle.pool_io.specs.Outside.{next_count};
ghost use Rattle.pool_network.specs.declared.door.Came.TheVariants as came;

use crate::edge::{TURN_MILLIS, put_into, take_from};
use pool_io::{HostError, Shelf, SinkFailed, Took};
use pool_network::{Came, Door, Link, Network};
use std::alloc::Global;
use std::io::Error;
use std::net::{Net, OpenListener, Shutdown, TcpListener, TcpStream};
use std::time::{Clock, Duration};
use std::{io, thread};

/// A stream, which is read and written by one handle.
#[derive(Drop)]
pub struct TcpLink {
    stream: TcpStream,
    read_faults: u64,
    write_faults: u64,
}

impl Link for TcpLink {
    ghost use Rattle.real_edge.specs.Connections.{link_seen};

    ghost seen = { link_seen };

    fn take(&mut self, buffer: &mut [u8]) -> Took {
        take_from(&mut self.stream, &mut self.read_faults, buffer)
    }

    fn put(&mut self, piece: &[u8]) -> Result<usize, SinkFailed> {
        put_into(&mut self.stream, &mut self.write_faults, piece)
    }

    /// Shuts both sides down, also where this fails: the peer is gone then.
    fn hang_up(&mut self) {
        let _ = self.stream.shutdown(Shutdown::Both);
    }
}

/// A write that waits longer has failed.
const WRITE_MILLIS: u64 = 5_000;

/// A stream as a link, with its time limits: a read that waits longer than a turn is Idle.
pub fn link_over(stream: TcpStream) -> io::Result<TcpLink>
    ensures { IfOk result (λ link. (link.read_faults ≡ 0) × (link.write_faults ≡ 0)) }
{
    stream.set_nodelay(true)?;
    stream.set_read_timeout(Some(Duration::from_millis(TURN_MILLIS)))?;
    stream.set_write_timeout(Some(Duration::from_millis(WRITE_MILLIS)))?;
    Ok(TcpLink {
        stream,
        read_faults: 0,
        write_faults: 0,
    })
}

/// A listener at an address, whose `accept` doesn't wait.
fn listener_at<N: Net<Listener = TcpListener, Stream = TcpStream>>(
    system: &N,
    address: &str,
) -> io::Result<TcpListener> {
    let listener = TcpListener::bind(system, address)?;
    listener.set_nonblocking(true)?;
    Ok(listener)
}

/// The errors of Linux's `accept` that are of one caller, of the network, or of what the system has
/// left for now: EPERM, EINTR, EAGAIN, ENOMEM, ENFILE, EMFILE, ENOSR, ENONET, EPROTO, ENOPROTOOPT,
/// EPROTONOSUPPORT, ESOCKTNOSUPPORT, EOPNOTSUPP, ENETDOWN, ENETUNREACH, ECONNABORTED, ECONNRESET,
/// ENOBUFS, ETIMEDOUT, EHOSTDOWN, EHOSTUNREACH.
const PASSING: [i32; 21] = [
    1, 4, 11, 12, 23, 24, 63, 64, 71, 92, 93, 94, 95, 100, 101, 103, 104, 105, 110, 112, 113,
];

/// Whether an error of `accept` passes: the listener itself is well, and may let the next one in.
fn is_passing(error: &Error) -> bool {
    error
        .raw_os_error()
        .is_some_and(|number| PASSING.contains(&number))
}

/// A listener as a door. Where nobody has called, or who did can't be let in, it waits a turn and is
/// Idle; it is never closed.
#[derive(Drop)]
pub struct TcpDoor<L: OpenListener<Stream = TcpStream> + Drop, C: Clock + Drop> {
    listener: L,
    clock: C,
    out: u64,
    faults: u64,
    asked: u64,
}

impl<L: OpenListener<Stream = TcpStream> + Drop, C: Clock + Drop> TcpDoor<L, C> {
    /// A door at a listener that doesn't wait.
    pub fn new(listener: L, clock: C) -> TcpDoor<L, C>
        ensures { (result.out ≡ 0) × (result.faults ≡ 0) }
    {
        TcpDoor {
            listener,
            clock,
            out: 0,
            faults: 0,
            asked: 0,
        }
    }

    /// A turn in which nobody was let in.
    fn idle(&self) -> Came<TcpLink>
        ensures { result ≡ came.Idle }
    {
        thread::sleep(&self.clock, Duration::from_millis(TURN_MILLIS));
        Came::Idle
    }

    /// One more failure.
    fn fail(&mut self) -> Came<TcpLink>
        ensures failed { result ≡ came.Failed }
        ensures counts { self.new ≡ record self.old { faults = next_count self.old.faults } }
    {
        self.faults = self.faults.saturating_add(1);
        Came::Failed
    }
}

impl<L: OpenListener<Stream = TcpStream> + Drop, C: Clock + Drop> Door for TcpDoor<L, C> {
    ghost use Rattle.real_edge.specs.Connections.{door_seen};

    type L = TcpLink;

    ghost seen = { door_seen };

    fn accept(&mut self) -> Came<TcpLink> {
        self.asked = self.asked.saturating_add(1);
        if self.out == u64::MAX {
            return Came::Memory;
        }
        match self.listener.accept() {
            Ok((stream, _)) => match link_over(stream) {
                Ok(link) => {
                    self.out += 1;
                    Came::Caller(link)
                }
                Err(_) => self.idle(),
            },
            Err(error) if is_passing(&error) => self.idle(),
            Err(_) => self.fail(),
        }
    }

    fn done(&mut self, _link: TcpLink) {
        self.out -= 1;
    }
}

/// The network of a system `N`. It tells neither its calls nor what they will give.
#[derive(Drop)]
pub struct TcpNetwork<N: Net<Listener = TcpListener, Stream = TcpStream> + Clock + Copy + Drop> {
    alloc: Global,
    system: N,
    faults: u64,
    links: Shelf<TcpLink>,
    doors: Shelf<Vec<TcpDoor<TcpListener, N>>>,
}

impl<N: Net<Listener = TcpListener, Stream = TcpStream> + Clock + Copy + Drop> TcpNetwork<N> {
    /// A network that has given nothing.
    pub fn new(alloc: Global, system: N) -> TcpNetwork<N>
        ensures fresh { result.faults ≡ 0 }
        ensures links { result.links ≡ record { lent = 0; back = [] } }
        ensures doors { result.doors ≡ record { lent = 0; back = [] } }
    {
        TcpNetwork {
            alloc,
            system,
            faults: 0,
            links: Shelf::new(alloc),
            doors: Shelf::new(alloc),
        }
    }

    /// So many doors at one listener, each by a handle of its own.
    fn doors_at(&self, address: &str, count: u32) -> Result<Vec<TcpDoor<TcpListener, N>>, HostError>
        ensures { IfOk result (λ doors. vec_len doors ≡ count) }
    {
        let listener = listener_at(&self.system, address).map_err(|_| HostError::Failed)?;
        let mut doors = Vec::new(self.alloc);
        while doors.len() < count as usize {
            let Ok(another) = listener.try_clone() else {
                return Err(HostError::Failed);
            };
            let door = TcpDoor::new(another, self.system);
            doors.push(door).map_err(|_| HostError::Memory)?;
        }
        Ok(doors)
    }
}

impl<N: Net<Listener = TcpListener, Stream = TcpStream> + Clock + Copy + Drop> Network
    for TcpNetwork<N> {
    ghost use Rattle.std.specs.Prelude.{None, map};
    ghost use Rattle.pool_io.specs.Lending.{lending_seen};
    ghost use Rattle.real_edge.specs.Connections.{door_seen, link_seen};

    type D = TcpDoor<TcpListener, N>;

    ghost seen = { λ network. record {
      faults = network.faults;
      calls = None;
      to_dial = None;
      to_open = None;
      links = lending_seen link_seen network.links;
      doors = lending_seen (λ doors. map door_seen doors.items) network.doors;
    } };

    fn dial(&mut self, address: &str) -> Result<TcpLink, HostError> {
        let dialled = TcpStream::connect(&self.system, address).and_then(link_over);
        let Ok(link) = dialled else {
            self.faults = self.faults.saturating_add(1);
            return Err(HostError::Failed);
        };
        if self.links.lend().is_err() {
            return Err(HostError::Memory);
        }
        Ok(link)
    }

    fn open_doors(
        &mut self,
        address: &str,
        count: u32,
    ) -> Result<Vec<TcpDoor<TcpListener, N>>, HostError> {
        let doors = match self.doors_at(address, count) {
            Ok(doors) => doors,
            Err(HostError::Failed) => {
                self.faults = self.faults.saturating_add(1);
                return Err(HostError::Failed);
            }
            Err(HostError::Memory) => return Err(HostError::Memory),
        };
        if self.doors.lend().is_err() {
            return Err(HostError::Memory);
        }
        Ok(doors)
    }

    fn done_link(&mut self, link: TcpLink) {
        self.links.take_back(link);
    }

    fn done_doors(&mut self, doors: Vec<TcpDoor<TcpListener, N>>)
        requires { 0 < self.old.doors.lent }
        ensures { self.new ≡ record self.old { doors = with_back self.old.doors doors } }
    {
        self.doors.take_back(doors);
    }
}
