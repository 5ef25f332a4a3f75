//! Links and a door over TCP for a thread that serves many links: no call waits but `rest`.

ghost use Rattle.std.specs.Prelude.{◌≡◌, ◌≤◌, ◌<◌, None, length, IfOk, IfSome};
ghost use Rattle.std.specs.Io.{WritesAtMost};
ghost use Rattle.jp_types.specs.Faults.{HasCause, Rose};
ghost use Rattle.links.specs.Scripts.{none_received};

use crate::came::Came;
use crate::link::Link;
use crate::peer::{Door, Peer};
use crate::received::Receipts;
use crate::tcp::is_quiet;
use jp_types::fault::Failed;
use mio::net::{TcpListener, TcpStream};
use mio::{Events, Interest, Poll, Token};
use std::alloc::Global;
use std::io;
use std::io::{ErrorKind, Read, Write};
use std::marker::Model;
use std::net::{Net, SocketAddr};
use std::time::Duration;

/// How many bytes a link takes at most that its client lets lie.
pub const MOST_WAITING: usize = 1_048_576;

/// How long `rest` waits at most, in milliseconds.
pub const REST: u64 = 1;

/// Bytes that the system has not taken yet, up to a limit.
#[derive(Drop)]
struct Outgoing {
    bytes: Vec<u8>,
    /// How many of them the system has taken.
    taken: usize,
    ghost within: { taken ≤ length bytes.items },
}

impl Outgoing {
    fn new(alloc: Global) -> Outgoing {
        Outgoing {
            bytes: Vec::new(alloc),
            taken: 0,
        }
    }

    fn is_empty(&self) -> bool {
        self.taken == self.bytes.len()
    }

    /// Keeps a piece behind what waits. Where too much waits, or memory is wanted, it keeps nothing.
    fn keep(&mut self, piece: &[u8]) -> Result<(), Failed> {
        let waiting = self.bytes.len() - self.taken;
        if piece.len() > MOST_WAITING || waiting > MOST_WAITING - piece.len() {
            return Err(Failed);
        }
        if self.taken > waiting {
            self.bytes.drain(..self.taken);
            self.taken = 0;
        }
        self.bytes.extend_from_slice(piece).map_err(|_| Failed)
    }

    /// Gives the system what it takes without waiting.
    fn write_to(&mut self, stream: &TcpStream) -> io::Result<()> {
        let count = write_some(stream, &self.bytes[self.taken..])?;
        self.taken += count;
        if self.is_empty() {
            self.bytes.clear();
            self.taken = 0;
        }
        Ok(())
    }
}

/// Writes what the system takes without waiting, which may be nothing.
fn write_some(stream: &TcpStream, piece: &[u8]) -> io::Result<usize>
    ensures { WritesAtMost result piece.now }
{
    if piece.is_empty() {
        return Ok(0);
    }
    let mut writer = stream;
    match writer.write(piece) {
        Ok(0) => Err(io::Error::from(ErrorKind::WriteZero)),
        Ok(count) => Ok(count),
        Err(error) if is_quiet(&error) => Ok(0),
        Err(error) => Err(error),
    }
}

/// A link over a TCP connection of which no call waits: a receive is Quiet at once, and a send keeps what the system does
/// not take at once, and hands it on at later calls. It has failed where more than 1 MiB would be kept, so a client that
/// reads nothing holds up nobody else. It tells nothing of its bytes.
#[derive(Drop)]
pub struct DoorLink {
    stream: TcpStream,
    outgoing: Outgoing,
    faults: u64,
    received: Receipts,
}

impl Model for DoorLink {
    ghost use Rattle.links.specs.Adapters.{Socketed};

    ghost Value = { Socketed };

    ghost view = { λ l. record { faults = l.faults; received = l.received } };
}

impl DoorLink {
    fn failed(&mut self) -> Failed
        ensures rose { Rose self.old.faults self.new.faults }
        ensures later { self.old.faults ≤ self.new.faults }
        ensures received { self.new.received ≡ self.old.received }
    {
        self.faults = self.faults.saturating_add(1);
        Failed
    }

    /// Hands on what was kept, and then what the system takes of the piece; the rest of the piece is kept.
    fn pass_on(&mut self, piece: &[u8]) -> Result<(), Failed>
        ensures faults { self.new.faults ≡ self.old.faults }
        ensures received { self.new.received ≡ self.old.received }
    {
        self.outgoing.write_to(&self.stream).map_err(|_| Failed)?;
        let count = if self.outgoing.is_empty() {
            write_some(&self.stream, piece).map_err(|_| Failed)?
        } else {
            0
        };
        self.outgoing.keep(&piece[count..])
    }
}

impl Link for DoorLink {
    ghost left = { λ _. None };

    ghost sent = { λ _. None };

    ghost faults = { λ l. l.faults };

    ghost quiets = { λ l. l.received.quiets };

    ghost endings = { λ l. l.received.endings };

    ghost given = { λ l. l.received.given };

    /// Takes a piece whole.
    fn send(&mut self, piece: &[u8]) -> Result<usize, Failed> {
        match self.pass_on(piece) {
            Ok(()) => Ok(piece.len()),
            Err(_) => Err(self.failed()),
        }
    }

    /// Hands on what was kept, too.
    fn receive(&mut self, room: &mut [u8]) -> Result<Came, Failed> {
        if self.outgoing.write_to(&self.stream).is_err() {
            return Err(self.failed());
        }
        let came = match self.stream.read(room) {
            Ok(0) => Came::Ended,
            Ok(count) => Came::Bytes(count),
            Err(error) if is_quiet(&error) => Came::Quiet,
            Err(_) => return Err(self.failed()),
        };
        self.received.count(came);
        Ok(came)
    }
}

/// The clients that connect to one address over TCP. It is not dialled: each dial fails.
#[derive(Drop)]
pub struct TcpDoor {
    alloc: Global,
    listener: TcpListener,
    poll: Poll,
    events: Events,
    faults: u64,
    nones: u64,
}

impl Model for TcpDoor {
    ghost use Rattle.links.specs.Adapters.{Reached};

    ghost Value = { Reached };

    ghost view = { λ d. record { faults = d.faults; nones = d.nones } };
}

impl TcpDoor {
    /// A door at an address. Port 0 lets the system choose one.
    pub fn open<R: Net>(rt: &R, alloc: Global, at: SocketAddr) -> io::Result<TcpDoor>
        ensures { IfOk result (λ door. door ≡ record { faults = 0; nones = 0 }) }
    {
        let mut listener = TcpListener::bind(rt, at)?;
        let poll = Poll::new(rt)?;
        poll.registry()
            .register(&mut listener, Token(0), Interest::READABLE)?;
        Ok(TcpDoor {
            alloc,
            listener,
            poll,
            events: Events::with_capacity(alloc, 128)?,
            faults: 0,
            nones: 0,
        })
    }

    /// Where it stands.
    pub fn at(&self) -> io::Result<SocketAddr> {
        self.listener.local_addr()
    }

    fn failed(&mut self) -> Failed
        ensures rose { Rose self.old.faults self.new.faults }
        ensures later { self.old.faults ≤ self.new.faults }
        ensures nones { self.new.nones ≡ self.old.nones }
    {
        self.faults = self.faults.saturating_add(1);
        Failed
    }

    /// The next connection, if one waits. `rest` looks at it too from then on, until it is closed.
    fn waiting(&self) -> io::Result<Option<DoorLink>>
        ensures { IfOk result (λ found. IfSome found (λ link. link ≡ record { faults = 0; received = none_received })) }
    {
        let mut stream = match self.listener.accept() {
            Ok((stream, _)) => stream,
            Err(error) if is_quiet(&error) => return Ok(None),
            Err(error) => return Err(error),
        };
        stream.set_nodelay(true)?;
        self.poll
            .registry()
            .register(&mut stream, Token(1), Interest::READABLE)?;
        Ok(Some(DoorLink {
            stream,
            outgoing: Outgoing::new(self.alloc),
            faults: 0,
            received: Receipts::new(),
        }))
    }
}

impl Peer for TcpDoor {
    type L = DoorLink;

    ghost faults = { λ d. d.faults };

    ghost nones = { λ d. d.nones };

    fn dial(&mut self) -> Result<DoorLink, Failed> {
        Err(self.failed())
    }

    fn accept(&mut self) -> Result<Option<DoorLink>, Failed> {
        match self.waiting() {
            Ok(Some(link)) => Ok(Some(link)),
            Ok(None) => {
                self.nones = self.nones.saturating_add(1);
                Ok(None)
            }
            Err(_) => Err(self.failed()),
        }
    }
}

impl Door for TcpDoor {
    /// A wait that the system cut short is as good as one that ended.
    fn rest(&mut self) {
        let _ = self
            .poll
            .poll(&mut self.events, Some(Duration::from_millis(REST)));
    }
}

#[cfg(test)]
mod tests {
    use super::*;
    use crate::tcp::TcpPeer;
    use std::net::Ipv4Addr;
    use std::test::Fail;

    /// What a link receives within a thousand rests.
    fn receives(
        door: &mut TcpDoor,
        link: &mut DoorLink,
        room: &mut [u8; 4],
    ) -> Result<Came, Failed> {
        for _ in 0..1000 {
            let came = link.receive(room)?;
            if came != Came::Quiet {
                return Ok(came);
            }
            door.rest();
        }
        Ok(Came::Quiet)
    }

    #[test]
    fn a_client_that_reads_nothing_is_given_up(rt: HostRuntime) -> Result<(), Fail> {
        let here = SocketAddr::from((Ipv4Addr::LOCALHOST, 0));
        let mut door = TcpDoor::open(&rt, rt.alloc(), here)?;
        assert!(rt; door.accept().is_ok_and(|found| found.is_none()));
        assert!(rt; door.dial().is_err());
        let mut client = TcpPeer::to_dial(&rt, door.at()?)
            .dial()
            .map_err(|_| "no dial")?;
        let found = door.accept().map_err(|_| "no accept")?;
        let mut session = found.ok_or("no link")?;
        let mut room = [0; 4];
        assert_eq!(rt; session.receive(&mut room), Ok(Came::Quiet));
        assert_eq!(rt; client.send(b"ab"), Ok(2));
        assert_eq!(rt;
            receives(&mut door, &mut session, &mut room),
            Ok(Came::Bytes(2))
        );
        assert_eq!(rt; session.send(b"c"), Ok(1));
        assert_eq!(rt; client.receive(&mut room), Ok(Came::Bytes(1)));
        let piece = Vec::from_elem(rt.alloc(), 7u8, 65_536)?;
        let mut given_up = None;
        for sent in 0..1000 {
            if session.send(&piece).is_err() {
                given_up = Some(sent);
                break;
            }
        }
        // More than was allowed to lie was taken before, and the system took some of it.
        assert!(rt; given_up.is_some_and(|sent| sent >= 16));
        drop(client);
        Ok(())
    }
}
