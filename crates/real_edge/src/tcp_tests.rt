//! What no clause says of connections and doors over TCP: that they meet, that every byte goes over
//! as it is, what waits and for how long, and after which failures a door goes on.

ghost use Rattle.std.specs.Prelude.{◌<◌, length};

use crate::edge_tests::{Counting, pattern};
use crate::tcp::{TcpDoor, TcpLink, TcpNetwork, link_over};
use pool_io::{HostError, SinkFailed, Took};
use pool_network::{Came, Door, Link, Network};
use std::alloc::Global;
use std::cell::Cell;
use std::fs::File;
use std::net::{Net, OpenListener, SocketAddr, TcpListener, TcpStream};
use std::os::fd::OwnedFd;
use std::process::Abort;
use std::rt::Files;
use std::test::Fail;
use std::time::{Clock, Duration};
use std::{io, process};

/// The system, which keeps the address of the last listener and how long was slept in all.
#[derive(Clone, Copy)]
struct Watched<'a, R: Copy> {
    system: R,
    bound: &'a Cell<Option<SocketAddr>>,
    slept: &'a Cell<Duration>,
}

impl<R: Net<Listener = TcpListener, Stream = TcpStream> + Copy> Net for Watched<'_, R> {
    type Stream = TcpStream;

    type Listener = TcpListener;

    fn bind(&self, address: SocketAddr) -> io::Result<TcpListener> {
        let listener = self.system.bind(address)?;
        self.bound.set(Some(listener.local_addr()?));
        Ok(listener)
    }

    fn connect(&self, address: SocketAddr) -> io::Result<TcpStream> {
        self.system.connect(address)
    }
}

impl<R: Clock + Copy> Clock for Watched<'_, R> {
    fn monotonic(&self) -> io::Result<Duration> {
        self.system.monotonic()
    }

    fn since_1970(&self) -> io::Result<Duration> {
        self.system.since_1970()
    }

    fn sleep(&self, duration: Duration) {
        self.slept.set(self.slept.get().saturating_add(duration));
        self.system.sleep(duration)
    }
}

fn watching<'a, R: Copy>(
    system: R,
    bound: &'a Cell<Option<SocketAddr>>,
    slept: &'a Cell<Duration>,
) -> Watched<'a, R> {
    Watched {
        system,
        bound,
        slept,
    }
}

/// The address that the system bound last, as a text.
fn address_of(alloc: Global, bound: &Cell<Option<SocketAddr>>) -> Result<String, Fail> {
    match bound.get() {
        Some(address) => Ok(format!(in alloc; "{address}")?),
        None => Err(Fail::new("nothing was bound")),
    }
}

/// The next caller at a door, who may still be on the way, and how often nobody came before.
fn caller_behind<L: OpenListener<Stream = TcpStream> + Drop, C: Clock + Drop>(
    rt: &impl Abort,
    door: &mut TcpDoor<L, C>,
) -> (TcpLink, u32)
    ensures { 0 < door.new.out }
{
    for idle in 0..50 {
        match door.accept() {
            Came::Caller(link) => return (link, idle),
            Came::Idle => {}
            Came::Closed | Came::Failed | Came::Memory => panic!(rt; "the door is shut"),
        }
    }
    panic!(rt; "nobody came")
}

/// The next caller at a door.
fn caller_at<C: Clock + Drop>(rt: &impl Abort, door: &mut TcpDoor<TcpListener, C>) -> TcpLink
    ensures { 0 < door.new.out }
{
    caller_behind(rt, door).0
}

/// What a link brings next, which may still be on the way.
fn heard(link: &mut TcpLink, buffer: &mut [u8]) -> Took
    requires { 0 < length buffer.old }
{
    for _ in 0..50 {
        let took = link.take(buffer);
        if took != Took::Idle {
            return took;
        }
    }
    Took::Idle
}

/// Hears these bytes on a link, whole.
fn hear(rt: &impl Abort, link: &mut TcpLink, buffer: &mut [u8], wanted: &[u8])
    requires { 0 < length buffer.old }
{
    let mut rest = wanted;
    for _ in 0..wanted.len() {
        if rest.is_empty() {
            break;
        }
        let room = buffer.len().min(rest.len());
        let Took::Bytes(count) = heard(link, &mut buffer[..room]) else {
            panic!(rt; "nothing came before {} bytes", rest.len())
        };
        let Some((front, behind)) = rest.split_at_checked(count) else {
            panic!(rt; "too much came")
        };
        assert!(rt; buffer.starts_with(front), "before {} bytes", rest.len());
        rest = behind;
    }
    assert!(rt; rest.is_empty());
}

/// Carries a text from one link to the other, in puts of so many bytes, and in takes of so much room.
fn carry(
    rt: &impl Abort,
    from: &mut TcpLink,
    to: &mut TcpLink,
    most: usize,
    buffer: &mut [u8],
    text: &[u8],
)
    requires some { 0 < most }
    requires room { 0 < length buffer.old }
{
    let mut rest = text;
    for _ in 0..text.len() {
        if rest.is_empty() {
            break;
        }
        let Ok(count) = from.put(&rest[..rest.len().min(most)]) else {
            panic!(rt; "{} bytes don't go", rest.len())
        };
        hear(rt, to, buffer, &rest[..count]);
        rest = &rest[count..];
    }
    assert!(rt; rest.is_empty());
    assert_eq!(rt; to.take(buffer), Took::Idle);
}

/// Puts a text again and again until a put fails, since nobody hears. Answers how much has gone.
fn put_until_it_fails(rt: &impl Abort, link: &mut TcpLink, text: &[u8]) -> usize {
    let mut gone = 0usize;
    let mut rest = text;
    for _ in 0..100_000 {
        if rest.is_empty() {
            rest = text;
        }
        assert!(rt; !rest.is_empty());
        match link.put(rest) {
            Ok(count) => {
                gone = gone.saturating_add(count);
                rest = &rest[count..];
            }
            Err(error) => {
                assert_eq!(rt; error, SinkFailed::Failed);
                return gone;
            }
        }
    }
    panic!(rt; "no put failed")
}

/// Hears so many bytes of a text that comes again and again.
fn hear_again(rt: &impl Abort, link: &mut TcpLink, room: &mut [u8], text: &[u8], gone: usize)
    requires { 0 < length room.old }
{
    let mut left = gone;
    for _ in 0..100_000 {
        let piece = &text[..left.min(text.len())];
        hear(rt, link, room, piece);
        left -= piece.len();
    }
    assert_eq!(rt; left, 0);
    assert_eq!(rt; link.take(room), Took::Idle);
}

/// A caller, and the link by which it was let in.
fn meet<N: Net<Listener = TcpListener, Stream = TcpStream> + Clock + Copy + Drop>(
    rt: &impl Abort,
    network: &mut TcpNetwork<N>,
    door: &mut TcpDoor<TcpListener, N>,
    address: &str,
) -> (TcpLink, TcpLink)
    ensures { 0 < door.new.out }
{
    match network.dial(address) {
        Ok(caller) => (caller, caller_at(rt, door)),
        Err(_) => panic!(rt; "nobody is reached"),
    }
}

/// Carries texts both ways, in takes of so much room, and one way in puts of as many bytes.
fn carry_both_ways(
    rt: &impl Abort,
    caller: &mut TcpLink,
    link: &mut TcpLink,
    size: usize,
    text: &[u8],
) {
    let mut room = [0; 65_536];
    let (Some(buffer), Some(first), Some(second)) = (
        room.get_mut(..size),
        text.get(..60_000),
        text.get(200_000..260_000),
    ) else {
        panic!(rt; "no room, or no text")
    };
    assert!(rt; size > 0 && !buffer.is_empty());
    carry(rt, caller, link, 50_000, buffer, first);
    carry(rt, link, caller, size, buffer, second);
}

/// Waits for what doesn't come, a tenth of a second or more.
fn wait_for_nothing(rt: &(impl Abort + Clock), link: &mut TcpLink) -> Result<(), Fail> {
    let before = rt.monotonic()?;
    assert_eq!(rt; link.take(&mut [0; 8]), Took::Idle);
    let waited = rt.monotonic()?.saturating_sub(before);
    assert!(rt; waited >= Duration::from_millis(90));
    Ok(())
}

/// Puts until a put fails, which waits five seconds, and hears just what is said to have gone; then
/// the caller is gone.
fn hear_to_the_end(
    rt: &(impl Abort + Clock),
    mut caller: TcpLink,
    link: &mut TcpLink,
    text: &[u8],
) -> Result<(), Fail> {
    let mut room = [0; 65_536];
    let before = rt.monotonic()?;
    let gone = put_until_it_fails(rt, &mut caller, text);
    let waited = rt.monotonic()?.saturating_sub(before);
    assert!(rt; waited >= Duration::from_millis(4_900));
    hear_again(rt, link, &mut room, text, gone);
    carry(rt, &mut caller, link, 6, &mut room, b"and on");
    drop(caller);
    assert_eq!(rt; heard(link, &mut room), Took::End);
    assert_eq!(rt; link.take(&mut room), Took::End);
    Ok(())
}

#[test]
fn each_byte_goes_over_as_it_is(rt: HostRuntime) -> Result<(), Fail> {
    let bound = Cell::new(None);
    let slept = Cell::new(Duration::ZERO);
    let mut network = TcpNetwork::new(rt.alloc(), watching(rt, &bound, &slept));
    let mut doors = network.open_doors("127.0.0.1:0", 1)?;
    let address = address_of(rt.alloc(), &bound)?;
    let text = pattern(rt.alloc(), 300_007)?;
    let Some(door) = doors.first_mut() else {
        panic!(rt; "no door")
    };
    let (mut caller, mut link) = meet(&rt, &mut network, door, address.as_str());
    for size in [1, 22, 26, 336, 999, 1_000, 1_001, 4_096, 65_536] {
        carry_both_ways(&rt, &mut caller, &mut link, size, &text);
    }
    wait_for_nothing(&rt, &mut caller)?;
    wait_for_nothing(&rt, &mut link)?;
    hear_to_the_end(&rt, caller, &mut link, &text)
}

#[test]
fn who_is_hung_up_on_hears_the_end(rt: HostRuntime) -> Result<(), Fail> {
    let bound = Cell::new(None);
    let slept = Cell::new(Duration::ZERO);
    let mut network = TcpNetwork::new(rt.alloc(), watching(rt, &bound, &slept));
    let mut doors = network.open_doors("127.0.0.1:0", 1)?;
    let address = address_of(rt.alloc(), &bound)?;
    let text = pattern(rt.alloc(), 60_000)?;
    let Some(door) = doors.first_mut() else {
        panic!(rt; "no door")
    };
    let (mut caller, mut link) = meet(&rt, &mut network, door, address.as_str());
    assert!(rt; !text.is_empty());
    assert_eq!(rt; caller.put(b"unheard"), Ok(7));
    assert_eq!(rt; link.put(&text), Ok(60_000));
    link.hang_up();
    link.hang_up();
    assert_eq!(rt; link.put(b"more"), Err(SinkFailed::Failed));
    let mut room = [0; 65_536];
    hear(&rt, &mut caller, &mut room, &text);
    assert_eq!(rt; heard(&mut caller, &mut room), Took::End);
    // What it puts finds that nobody hears it, and doesn't wait.
    let before = rt.monotonic()?;
    put_until_it_fails(&rt, &mut caller, &text);
    let waited = rt.monotonic()?.saturating_sub(before);
    assert!(rt; waited < Duration::from_secs(1));
    caller.hang_up();
    Ok(())
}

/// Lets in one who hangs up on what it hasn't read.
fn meet_one_who_hangs_up<N: Net<Listener = TcpListener, Stream = TcpStream> + Clock + Copy + Drop>(
    rt: &impl Abort,
    network: &mut TcpNetwork<N>,
    door: &mut TcpDoor<TcpListener, N>,
    address: &str,
) {
    let (mut caller, mut link) = meet(rt, network, door, address);
    assert_eq!(rt; link.put(b"unread"), Ok(6));
    assert_eq!(rt; heard(&mut caller, &mut [0; 1]), Took::Bytes(1));
    drop(caller);
    assert_eq!(rt; heard(&mut link, &mut [0; 1]), Took::Failed);
}

/// Calls under a number, which it says, but each third says nothing, and each second is gone again.
fn call<N: Net<Listener = TcpListener, Stream = TcpStream> + Clock + Copy + Drop>(
    rt: &impl Abort,
    network: &mut TcpNetwork<N>,
    address: &str,
    number: u8,
) -> Option<TcpLink> {
    let Ok(mut caller) = network.dial(address) else {
        panic!(rt; "nobody is reached")
    };
    if number % 3 > 0 {
        assert_eq!(rt; caller.put(&[number]), Ok(1));
    }
    if number % 2 > 0 { Some(caller) } else { None }
}

/// Lets in the caller of a number, hears it, and is done with it.
fn let_in<C: Clock + Drop>(rt: &impl Abort, door: &mut TcpDoor<TcpListener, C>, number: u8) {
    let mut link = caller_at(rt, door);
    let mut buffer = [0; 2];
    if number % 3 > 0 {
        assert_eq!(rt; heard(&mut link, &mut buffer), Took::Bytes(1), "{number}");
        assert_eq!(rt; buffer[0], number);
    }
    if number % 2 > 0 {
        assert_eq!(rt; link.take(&mut buffer), Took::Idle, "{number}");
    } else {
        assert_eq!(rt; heard(&mut link, &mut buffer), Took::End, "{number}");
    }
    door.done(link);
}

/// Nine wait at once at two doors, one of which was used by one who hung up; each is let in, in its
/// turn, and nobody else.
fn let_all_in<N: Net<Listener = TcpListener, Stream = TcpStream> + Clock + Copy + Drop>(
    rt: &impl Abort,
    network: &mut TcpNetwork<N>,
    doors: &mut [TcpDoor<TcpListener, N>],
    address: &str,
    mut callers: Vec<TcpLink>,
) -> Result<(), Fail> {
    let [first, second] = doors else {
        panic!(rt; "no two doors")
    };
    assert!(rt; matches!(second.accept(), Came::Idle));
    meet_one_who_hangs_up(rt, network, first, address);
    for number in 0..9 {
        if let Some(caller) = call(rt, network, address, number) {
            callers.push(caller)?;
        }
    }
    for number in 0..9 {
        if number / 4 == 1 {
            let_in(rt, second, number);
        } else {
            let_in(rt, first, number);
        }
    }
    assert!(rt; matches!(first.accept(), Came::Idle));
    for caller in &mut callers {
        assert_eq!(rt; heard(caller, &mut [0; 1]), Took::End);
    }
    Ok(())
}

/// Lets in so many, one after the other: each is heard, answered and let go of.
fn let_many_in<N: Net<Listener = TcpListener, Stream = TcpStream> + Clock + Copy + Drop>(
    rt: &impl Abort,
    network: &mut TcpNetwork<N>,
    door: &mut TcpDoor<TcpListener, N>,
    address: &str,
    count: u32,
) {
    let mut buffer = [0; 2];
    for number in 0..count {
        let said = (number % 251) as u8;
        let (mut caller, mut link) = meet(rt, network, door, address);
        assert_eq!(rt; caller.put(&[said]), Ok(1));
        assert_eq!(rt; heard(&mut link, &mut buffer), Took::Bytes(1), "{number}");
        assert_eq!(rt; link.put(&[buffer[0], 7]), Ok(2));
        assert_eq!(rt; heard(&mut caller, &mut buffer), Took::Bytes(2), "{number}");
        assert_eq!(rt; buffer, [said, 7]);
        door.done(link);
        assert_eq!(rt; heard(&mut caller, &mut buffer), Took::End, "{number}");
    }
}

#[test]
fn a_door_lets_in_as_many_as_come(rt: HostRuntime) -> Result<(), Fail> {
    let bound = Cell::new(None);
    let slept = Cell::new(Duration::ZERO);
    let mut network = TcpNetwork::new(rt.alloc(), watching(rt, &bound, &slept));
    let mut doors = network.open_doors("127.0.0.1:0", 64)?;
    let address = address_of(rt.alloc(), &bound)?;
    assert_eq!(rt; doors.len(), 64);
    let Some(door) = doors.last_mut() else {
        panic!(rt; "no door")
    };
    let_many_in(&rt, &mut network, door, address.as_str(), 300);
    Ok(())
}

#[test]
fn callers_come_in_their_order_whoever_hangs_up(rt: HostRuntime) -> Result<(), Fail> {
    let bound = Cell::new(None);
    let slept = Cell::new(Duration::ZERO);
    let mut network = TcpNetwork::new(rt.alloc(), watching(rt, &bound, &slept));
    let mut doors = network.open_doors("127.0.0.1:0", 2)?;
    let address = address_of(rt.alloc(), &bound)?;
    let callers = Vec::new(rt.alloc());
    let_all_in(&rt, &mut network, &mut doors, address.as_str(), callers)?;
    assert!(rt; slept.get() >= Duration::from_millis(200));
    Ok(())
}

/// A loopback address that no other process of this number's machine takes.
pub fn own_address(alloc: Global, process: u32) -> Result<String, Fail> {
    let (high, middle, low) = (process >> 16 & 63, process >> 8 & 255, process & 255);
    Ok(format!(in alloc; "127.{}.{middle}.{low}:3333", high + 1)?)
}

#[test]
fn an_address_is_reached_where_it_is_one_and_free(rt: HostRuntime) -> Result<(), Fail> {
    let bound = Cell::new(None);
    let slept = Cell::new(Duration::ZERO);
    let mut network = TcpNetwork::new(rt.alloc(), watching(rt, &bound, &slept));
    let _doors = network.open_doors("127.0.0.1:0", 1)?;
    let taken = address_of(rt.alloc(), &bound)?;
    for address in [taken.as_str(), "", "nowhere", "127.0.0.1:65536"] {
        let opened = network.open_doors(address, 1);
        assert!(rt; matches!(opened, Err(HostError::Failed)), "{address}");
    }
    // An address of this process's own, with a port of its own; and all that the machine has.
    let own = own_address(rt.alloc(), process::id(rt.process()))?;
    let _own_doors = network.open_doors(own.as_str(), 4)?;
    assert_eq!(rt; address_of(rt.alloc(), &bound)?.as_str(), own.as_str());
    assert!(rt; network.dial(own.as_str()).is_ok());
    let _all_doors = network.open_doors("0.0.0.0:0", 1)?;
    assert!(rt; address_of(rt.alloc(), &bound)?.starts_with("0.0.0.0:"));
    // Nobody listens at port 1.
    for address in ["127.0.0.1:1", "", "nowhere", "127.0.0.1:65536"] {
        let dialled = network.dial(address);
        assert!(rt; matches!(dialled, Err(HostError::Failed)), "{address}");
    }
    Ok(())
}

#[test]
fn a_link_has_its_limits(rt: HostRuntime) -> Result<(), Fail> {
    let listener = TcpListener::bind(&rt, "127.0.0.1:0")?;
    let stream = TcpStream::connect(&rt, listener.local_addr()?)?;
    // It shares the options.
    let other = stream.try_clone()?;
    let _link = link_over(stream)?;
    assert_eq!(rt; other.read_timeout()?, Some(Duration::from_millis(100)));
    assert_eq!(rt; other.write_timeout()?, Some(Duration::from_secs(5)));
    assert!(rt; other.nodelay()?);
    Ok(())
}

/// Answers `accept` with the error of a number, and where it is 0 with a caller whose options can't
/// be set, since it is no socket.
#[derive(Drop)]
struct Refusing<'a, R: Files<File = File> + Drop> {
    system: R,
    error: &'a Cell<i32>,
}

impl<R: Files<File = File> + Drop> OpenListener for Refusing<'_, R> {
    type Stream = TcpStream;

    fn accept(&self) -> io::Result<(TcpStream, SocketAddr)> {
        let error = self.error.get();
        if error != 0 {
            return Err(io::Error::from_raw_os_error(error));
        }
        let file = File::open(&self.system, "/dev/null")?;
        let address = SocketAddr::from(([127, 0, 0, 1], 1));
        Ok((TcpStream::from(OwnedFd::from(file)), address))
    }
}

/// The errors of Linux's accept(2) that are of one caller, of the network, or of what the system has
/// left: EPERM, EINTR, EAGAIN, ENOMEM, ENFILE, EMFILE, ENOSR, ENONET, EPROTO, ENOPROTOOPT,
/// EPROTONOSUPPORT, ESOCKTNOSUPPORT, EOPNOTSUPP, ENETDOWN, ENETUNREACH, ECONNABORTED, ECONNRESET,
/// ENOBUFS, ETIMEDOUT, EHOSTDOWN, EHOSTUNREACH.
const PASSING: [i32; 21] = [
    1, 4, 11, 12, 23, 24, 63, 64, 71, 92, 93, 94, 95, 100, 101, 103, 104, 105, 110, 112, 113,
];

#[test]
fn a_door_goes_on_a_turn_later_unless_its_listener_failed(rt: HostRuntime) {
    let slept = Cell::new(Duration::ZERO);
    let error = Cell::new(0);
    let listener = Refusing {
        system: rt,
        error: &error,
    };
    let mut door = TcpDoor::new(listener, Counting(&slept));
    for number in 0..134 {
        error.set(number);
        slept.set(Duration::ZERO);
        let came = door.accept();
        if number == 0 || PASSING.contains(&number) {
            assert!(rt; matches!(came, Came::Idle), "{number}");
            assert_eq!(rt; slept.get(), Duration::from_millis(100), "{number}");
        } else {
            assert!(rt; matches!(came, Came::Failed), "{number}");
        }
    }
    // However long nobody comes, a door goes on.
    error.set(11);
    slept.set(Duration::ZERO);
    for number in 0..100_000 {
        assert!(rt; matches!(door.accept(), Came::Idle), "{number}");
    }
    assert_eq!(rt; slept.get(), Duration::from_secs(10_000));
}
