// Connections over TCP.
ghost use Rattle.std.specs.Prelude.{◌≡◌, false};

use crate::source::{Connection, Source};
use std::io::{ErrorKind, Read, Write};
use std::marker::Model;
use std::net::{Shutdown, TcpListener, TcpStream};
use std::sync::Wait;
use std::sync::atomic::{AtomicU64, Ordering};
use std::time::{Clock, Duration};
use std::{io, thread};

// A call that waits for the peer is made again after so many seconds, and looks in between whether
// another connection waits for a worker.
const TURN_SECS: u64 = 1;

const MILLIS: u64 = 1000;

// So many seconds a peer may bring no record to its end and take no byte of a reply, while no other
// connection waits, and while one does. A turn that times out counts as one of them.
const SECS_ALONE: u64 = 300;

const SECS_WHILE_OTHERS_WAIT: u64 = 5;

// How many milliseconds a peer that still sends is waited for once its connection is closed, for
// each piece, and how many pieces of what it sends are taken.
const LINGER_MILLIS: u64 = 250;

const LAST_PIECES: usize = 8;

const LAST_PIECE_BYTES: usize = 32768;

// How long it rests before it tries again to take a connection: each time twice as long, up to a
// second.
const FIRST_PAUSE_MILLIS: u64 = 10;

const LAST_PAUSE_MILLIS: u64 = 1000;

// Why the system may refuse a connection for a while: EINTR, ENOMEM, ENFILE, EMFILE, EPROTO,
// ENETDOWN, ECONNABORTED and ENOBUFS.
const PASSING: [i32; 8] = [4, 12, 23, 24, 71, 100, 103, 105];

/// The connections that wait for a worker. A port and its connections share it, so that who holds a
/// worker without need makes room.
#[derive(Drop)]
pub struct WaitingConnections {
    waiting: AtomicU64,
}

impl WaitingConnections {
    /// Nobody waits.
    pub fn new() -> WaitingConnections {
        WaitingConnections {
            waiting: AtomicU64::new(0),
        }
    }

    fn join(&self) {
        self.waiting.fetch_add(1, Ordering::SeqCst);
    }

    fn leave(&self) {
        self.waiting.fetch_sub(1, Ordering::SeqCst);
    }

    fn is_empty(&self) -> bool {
        self.waiting.load(Ordering::SeqCst) == 0
    }
}

/// A connection that came to a port. Its calls fail once the peer has brought no record to its end,
/// and has taken no byte of a reply, for some minutes, and for some seconds where another
/// connection waits for a worker.
pub struct Peer<'l, R: Clock> {
    stream: TcpStream,
    waiting: &'l WaitingConnections,
    rt: &'l R,
    // When a worker took it, or the peer last took a byte of a reply, in milliseconds of the clock.
    // Each record has a reply, so that this is also the time of the last record.
    since: AtomicU64,
}

impl<'l, R: Clock> Drop for Peer<'l, R> {
    fn drop(self) {
        let Peer {
            stream: _,
            waiting: _,
            rt: _,
            since: _,
        } = self;
    }
}

impl<'l, R: Clock> Peer<'l, R> {
    // A connection that was just taken, and waits for a worker.
    fn new(rt: &'l R, stream: TcpStream, waiting: &'l WaitingConnections) -> Peer<'l, R> {
        // It is slower with Nagle's delay, and else the same. The system takes each limit of time
        // but 0.
        let _ = stream.set_nodelay(true);
        let turn = Duration::from_secs(TURN_SECS);
        let _ = stream.set_read_timeout(Some(turn));
        let _ = stream.set_write_timeout(Some(turn));
        waiting.join();
        Peer {
            stream,
            waiting,
            rt,
            since: AtomicU64::new(millis(rt)),
        }
    }

    // The peer has done something that counts.
    fn begin_anew(&self) {
        self.since.store(millis(self.rt), Ordering::SeqCst);
    }

    // For how many seconds it has done nothing that counts.
    fn secs_since(&self) -> u64 {
        let since = self.since.load(Ordering::SeqCst);
        millis(self.rt).saturating_sub(since) / MILLIS
    }

    // Whether the peer is waited for no longer after so many seconds.
    fn is_over(&self, secs: u64) -> bool {
        secs >= SECS_ALONE || (secs >= SECS_WHILE_OTHERS_WAIT && !self.waiting.is_empty())
    }
}

// The time of the clock in milliseconds, or 0 where it cannot be read: then the turns alone count.
fn millis<R: Clock>(rt: &R) -> u64 {
    match rt.monotonic() {
        Ok(time) => time
            .as_secs()
            .saturating_mul(MILLIS)
            .saturating_add(u64::from(time.subsec_millis())),
        Err(_) => 0,
    }
}

// Whether a call has timed out.
fn has_timed_out(call: &io::Result<usize>) -> bool {
    match call {
        Ok(_) => false,
        Err(e) => e.kind() == ErrorKind::WouldBlock,
    }
}

impl<R: Clock> Connection for Peer<'_, R> {
    fn begin(&self) {
        self.waiting.leave();
        self.begin_anew();
    }

    // The time counts from the last reply on, and not from the last byte: a peer that sends a byte
    // now and then would else hold its worker for good.
    fn receive(&self, into: &mut [u8]) -> io::Result<usize> {
        let mut stream = &self.stream;
        for turns in 0..SECS_ALONE {
            if self.is_over(turns.max(self.secs_since())) {
                return Err(ErrorKind::TimedOut.into());
            }
            let received = stream.read(into);
            if !has_timed_out(&received) {
                return received;
            }
        }
        Err(ErrorKind::TimedOut.into())
    }

    fn send(&self, from: &[u8]) -> io::Result<usize> {
        let mut stream = &self.stream;
        for turns in 0..SECS_ALONE {
            if self.is_over(turns) {
                return Err(ErrorKind::TimedOut.into());
            }
            let sent = stream.write(from);
            if !has_timed_out(&sent) {
                self.begin_anew();
                return sent;
            }
        }
        Err(ErrorKind::TimedOut.into())
    }

    // A socket that is closed with input unread is reset, and replies on their way are lost with
    // it. So the peer is told that no more comes, and what it still sends is taken for a while.
    fn close(self) {
        let mut stream = &self.stream;
        let linger = Duration::from_millis(LINGER_MILLIS);
        let lingers = stream.set_read_timeout(Some(linger)).is_ok();
        if stream.shutdown(Shutdown::Write).is_err() || !lingers {
            return;
        }
        let mut rest = [0u8; LAST_PIECE_BYTES];
        for _ in 0..LAST_PIECES {
            match stream.read(&mut rest) {
                Ok(0) | Err(_) => return,
                Ok(_) => {}
            }
        }
    }
}

/// What connections are taken from.
pub trait Port {
    /// Takes the next connection. It may wait for one.
    fn take(&self) -> io::Result<TcpStream>;
}

impl Port for TcpListener {
    fn take(&self) -> io::Result<TcpStream> {
        match self.accept() {
            Ok((stream, _)) => Ok(stream),
            Err(e) => Err(e),
        }
    }
}

/// The connections that come to a TCP port, up to a number of them. The port is closed once so many
/// were taken, or one could not be. Each has Nagle's delay off, since a reply is sent whole.
///
/// Where taking one fails for a reason that passes, as want of memory or of open files, it is tried
/// again after a pause.
///
/// Contracts see how many were taken, and whether taking one failed.
pub struct Listening<'l, R: Clock, P: Port + Drop = TcpListener> {
    port: Option<P>,
    waiting: &'l WaitingConnections,
    rt: &'l R,
    wanted: u64,
    taken: u64,
    has_failed: bool,
}

impl<'l, R: Clock, P: Port + Drop> Drop for Listening<'l, R, P> {
    fn drop(self) {
        let Listening {
            port: _,
            waiting: _,
            rt: _,
            wanted: _,
            taken: _,
            has_failed: _,
        } = self;
    }
}

impl<'l, R: Clock, P: Port + Drop> Model for Listening<'l, R, P> {
    ghost use Rattle.journal_server.specs.Sources.{PortState};

    ghost Value = { PortState };

    ghost view = { λ port. record { taken = port.taken; has_failed = port.has_failed } };
}

impl<'l, R: Clock, P: Port + Drop> Listening<'l, R, P> {
    /// Takes as many connections as are wanted. They wait until a worker begins to serve them.
    pub fn new(
        rt: &'l R,
        port: P,
        wanted: u64,
        waiting: &'l WaitingConnections,
    ) -> Listening<'l, R, P>
        ensures { result ≡ record { taken = 0; has_failed = false } }
    {
        Listening {
            port: (wanted > 0).then_some(port),
            waiting,
            rt,
            wanted,
            taken: 0,
            has_failed: false,
        }
    }

    /// Whether the system refused a connection for a reason that does not pass, after which no more
    /// are taken.
    pub fn has_failed(&self) -> bool
        ensures { result ≡ self.now.has_failed }
    {
        self.has_failed
    }
}

// Takes a connection. Where that fails for a reason that passes it rests, and tries again.
fn accept<R: Clock, P: Port>(rt: &R, port: &P) -> io::Result<TcpStream> {
    let mut pause = FIRST_PAUSE_MILLIS;
    for _ in 0..u64::MAX {
        match port.take() {
            Ok(stream) => return Ok(stream),
            Err(e) if !passes(&e) => return Err(e),
            Err(_) => {}
        }
        thread::sleep(rt, Duration::from_millis(pause));
        pause = pause.saturating_mul(2).min(LAST_PAUSE_MILLIS);
    }
    Err(io::Error::from(ErrorKind::ConnectionAborted))
}

// Whether the reason for which no connection could be taken passes by itself.
fn passes(fault: &io::Error) -> bool {
    match fault.raw_os_error() {
        Some(number) => PASSING.contains(&number),
        None => false,
    }
}

impl<'l, R: Clock, P: Port + Drop> Source for Listening<'l, R, P> {
    type Connection = Peer<'l, R>;

    ghost given = { λ port. port.taken };

    fn next<H: Wait>(&mut self, _rt: &H) -> Option<Peer<'l, R>> {
        if self.taken >= self.wanted {
            return None;
        }
        let port = self.port.take()?;
        let Ok(stream) = accept(self.rt, &port) else {
            self.has_failed = true;
            return None;
        };
        self.taken += 1;
        if self.taken < self.wanted {
            self.port = Some(port);
        }
        Some(Peer::new(self.rt, stream, self.waiting))
    }
}
