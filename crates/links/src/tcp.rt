//! Links and peers over TCP for a thread that serves one link: calls wait, but never for long.

ghost use Rattle.std.specs.Prelude.{◌≡◌, ◌≤◌, None, IfOk, IfSome};
ghost use Rattle.jp_types.specs.Faults.{HasCause, Rose};
ghost use Rattle.links.specs.Scripts.{none_received};

use crate::came::Came;
use crate::link::Link;
use crate::peer::Peer;
use crate::received::Receipts;
use jp_types::fault::Failed;
use mio::{Events, Interest, Poll, Token};
use std::alloc::Global;
use std::io;
use std::io::{ErrorKind, Read, Write};
use std::marker::Model;
use std::net::{Net, SocketAddr, TcpStream};
use std::time::Duration;

/// How long a receive and an accept wait for the other side, in milliseconds.
pub const QUIET_AFTER: u64 = 20;

/// How long a dial and a send wait for the other side, in milliseconds.
pub const FAILS_AFTER: u64 = 1000;

/// Whether an error says only that nothing came while the call waited.
pub(crate) fn is_quiet(error: &io::Error) -> bool {
    matches!(
        error.kind(),
        ErrorKind::WouldBlock | ErrorKind::TimedOut | ErrorKind::Interrupted
    )
}

/// A link over a TCP connection. A receive is Quiet after 20 milliseconds, and a send of which no byte is taken within a
/// second has failed. It tells nothing of its bytes.
#[derive(Drop)]
pub struct TcpLink {
    stream: TcpStream,
    faults: u64,
    received: Receipts,
}

impl Model for TcpLink {
    ghost use Rattle.links.specs.Adapters.{Socketed};

    ghost Value = { Socketed };

    ghost view = { λ l. record { faults = l.faults; received = l.received } };
}

impl TcpLink {
    /// A link over a connection that blocks. What is sent is not held back to be joined with what follows.
    fn over(stream: TcpStream) -> io::Result<TcpLink>
        ensures { IfOk result (λ link. link ≡ record { faults = 0; received = none_received }) }
    {
        stream.set_nodelay(true)?;
        stream.set_read_timeout(Some(Duration::from_millis(QUIET_AFTER)))?;
        stream.set_write_timeout(Some(Duration::from_millis(FAILS_AFTER)))?;
        Ok(TcpLink {
            stream,
            faults: 0,
            received: Receipts::new(),
        })
    }

    fn failed(&mut self) -> Failed
        ensures rose { Rose self.old.faults self.new.faults }
        ensures later { self.old.faults ≤ self.new.faults }
        ensures received { self.new.received ≡ self.old.received }
    {
        self.faults = self.faults.saturating_add(1);
        Failed
    }
}

impl Link for TcpLink {
    ghost left = { λ _. None };

    ghost sent = { λ _. None };

    ghost faults = { λ l. l.faults };

    ghost quiets = { λ l. l.received.quiets };

    ghost endings = { λ l. l.received.endings };

    ghost given = { λ l. l.received.given };

    fn send(&mut self, piece: &[u8]) -> Result<usize, Failed> {
        match self.stream.write(piece) {
            Ok(count) if count > 0 || piece.is_empty() => Ok(count),
            _ => Err(self.failed()),
        }
    }

    fn receive(&mut self, room: &mut [u8]) -> Result<Came, Failed> {
        let came = match self.stream.read(room) {
            Ok(0) => Came::Ended,
            Ok(count) => Came::Bytes(count),
            Err(error) if is_quiet(&error) => Came::Quiet,
            Err(_) => return Err(self.failed()),
        };
        self.received.count(came);
        Ok(came)
    }
}

/// A socket at which connections are accepted, and what is needed to wait for one.
#[derive(Drop)]
struct Listening {
    listener: mio::net::TcpListener,
    poll: Poll,
    events: Events,
}

impl Listening {
    fn open<R: Net>(rt: &R, alloc: Global, at: SocketAddr) -> io::Result<Listening> {
        let mut listener = mio::net::TcpListener::bind(rt, at)?;
        let poll = Poll::new(rt)?;
        poll.registry()
            .register(&mut listener, Token(0), Interest::READABLE)?;
        Ok(Listening {
            listener,
            poll,
            events: Events::with_capacity(alloc, 1)?,
        })
    }

    /// The next connection, if one waits.
    fn waiting(&self) -> io::Result<Option<TcpLink>>
        ensures { IfOk result (λ found. IfSome found (λ link. link ≡ record { faults = 0; received = none_received })) }
    {
        match self.listener.accept() {
            Ok((stream, _)) => {
                let stream = TcpStream::from(stream);
                stream.set_nonblocking(false)?;
                Ok(Some(TcpLink::over(stream)?))
            }
            Err(error) if is_quiet(&error) => Ok(None),
            Err(error) => Err(error),
        }
    }

    /// The next connection, or none after 20 milliseconds.
    fn accept(&mut self) -> io::Result<Option<TcpLink>>
        ensures { IfOk result (λ found. IfSome found (λ link. link ≡ record { faults = 0; received = none_received })) }
    {
        if let Some(link) = self.waiting()? {
            return Ok(Some(link));
        }
        self.poll
            .poll(&mut self.events, Some(Duration::from_millis(QUIET_AFTER)))?;
        self.waiting()
    }
}

/// Another process over TCP: it is dialled at one address, and its dials are accepted at another. Without an address to
/// dial each dial fails, and without one to accept at each accept does.
#[derive(Drop)]
pub struct TcpPeer<'r, R> {
    rt: &'r R,
    to: Option<SocketAddr>,
    listening: Option<Listening>,
    faults: u64,
    nones: u64,
}

impl<'r, R> Model for TcpPeer<'r, R> {
    ghost use Rattle.links.specs.Adapters.{Reached};

    ghost Value = { Reached };

    ghost view = { λ p. record { faults = p.faults; nones = p.nones } };
}

impl<'r, R: Net<Stream = TcpStream>> TcpPeer<'r, R> {
    /// A peer that is dialled at one address.
    pub fn to_dial(rt: &'r R, to: SocketAddr) -> TcpPeer<'r, R>
        ensures { result ≡ record { faults = 0; nones = 0 } }
    {
        TcpPeer {
            rt,
            to: Some(to),
            listening: None,
            faults: 0,
            nones: 0,
        }
    }

    /// A peer whose dials are accepted at one address. Port 0 lets the system choose one.
    pub fn to_accept(rt: &'r R, alloc: Global, at: SocketAddr) -> io::Result<TcpPeer<'r, R>>
        ensures { IfOk result (λ peer. peer ≡ record { faults = 0; nones = 0 }) }
    {
        Ok(TcpPeer {
            rt,
            to: None,
            listening: Some(Listening::open(rt, alloc, at)?),
            faults: 0,
            nones: 0,
        })
    }

    /// Where its dials are accepted, if they are.
    pub fn accepts_at(&self) -> Option<SocketAddr> {
        self.listening.as_ref()?.listener.local_addr().ok()
    }

    fn failed(&mut self) -> Failed
        ensures rose { Rose self.old.faults self.new.faults }
        ensures later { self.old.faults ≤ self.new.faults }
        ensures nones { self.new.nones ≡ self.old.nones }
    {
        self.faults = self.faults.saturating_add(1);
        Failed
    }

    fn connect(&self) -> io::Result<TcpLink>
        ensures { IfOk result (λ link. link ≡ record { faults = 0; received = none_received }) }
    {
        let to = self.to.ok_or(io::Error::from(ErrorKind::NotConnected))?;
        let most = Duration::from_millis(FAILS_AFTER);
        TcpLink::over(TcpStream::connect_timeout(self.rt, &to, most)?)
    }
}

impl<'r, R: Net<Stream = TcpStream> + Sync> Peer for TcpPeer<'r, R> {
    type L = TcpLink;

    ghost faults = { λ p. p.faults };

    ghost nones = { λ p. p.nones };

    fn dial(&mut self) -> Result<TcpLink, Failed> {
        match self.connect() {
            Ok(link) => Ok(link),
            Err(_) => Err(self.failed()),
        }
    }

    fn accept(&mut self) -> Result<Option<TcpLink>, Failed> {
        let found = match &mut self.listening {
            Some(listening) => listening.accept(),
            None => Err(io::Error::from(ErrorKind::NotConnected)),
        };
        match found {
            Ok(Some(link)) => Ok(Some(link)),
            Ok(None) => {
                self.nones = self.nones.saturating_add(1);
                Ok(None)
            }
            Err(_) => Err(self.failed()),
        }
    }
}

#[cfg(test)]
mod tests {
    use super::*;
    use std::net::Ipv4Addr;
    use std::test::Fail;

    #[test]
    fn bytes_go_both_ways_over_loopback(rt: HostRuntime) -> Result<(), Fail> {
        let here = SocketAddr::from((Ipv4Addr::LOCALHOST, 0));
        let mut acceptor = TcpPeer::to_accept(&rt, rt.alloc(), here)?;
        assert!(rt; acceptor.accept().is_ok_and(|found| found.is_none()));
        let at = acceptor.accepts_at().ok_or("no address")?;
        let mut dialler = TcpPeer::to_dial(&rt, at);
        let mut near = dialler.dial().map_err(|_| "no dial")?;
        let found = acceptor.accept().map_err(|_| "no accept")?;
        let mut far = found.ok_or("no link")?;
        let mut room = [0; 4];
        assert_eq!(rt; near.receive(&mut room), Ok(Came::Quiet));
        assert_eq!(rt; far.send(b"ab"), Ok(2));
        assert_eq!(rt; near.receive(&mut room), Ok(Came::Bytes(2)));
        assert_eq!(rt; room, [97, 98, 0, 0]);
        assert_eq!(rt; near.send(b"c"), Ok(1));
        assert_eq!(rt; far.receive(&mut room), Ok(Came::Bytes(1)));
        drop(near);
        assert_eq!(rt; far.receive(&mut room), Ok(Came::Ended));
        drop(acceptor);
        assert!(rt; dialler.dial().is_err());
        assert!(rt; dialler.accept().is_err());
        Ok(())
    }
}
