// Where connections come in.
ghost use Rattle.std.specs.Prelude.{IsTrue, IsNone, IfOk};
ghost use Rattle.journal_connections.specs.Listeners.{IsSocket};

use crate::load::Load;
use std::net::{IpAddr, Shutdown, TcpListener, TcpStream};
use std::os::fd::OwnedFd;
use std::os::unix::net::UnixListener;
use std::time::{Clock, Duration};
use std::{io, thread};

// How long a listener rests before it tries again to accept: each time twice as long, up to a
// second.
const FIRST_PAUSE_MILLIS: u64 = 10;

const LAST_PAUSE_MILLIS: u64 = 1000;

// Why the system may refuse a connection for a while: EINTR, ENOMEM, ENFILE, EMFILE, EPROTO,
// ENETDOWN, ECONNABORTED and ENOBUFS.
const PASSING: [i32; 8] = [4, 12, 23, 24, 71, 100, 103, 105];

/// A listener, from which connections are accepted.
#[derive(Drop)]
pub enum Listener {
    /// A socket in the file system. Who can open it may end the service.
    Socket(UnixListener),
    /// A port of this machine. Each program on it can open it, and none may end the service.
    Port(TcpListener),
}

// A connection that was accepted. One of a Unix socket is kept as one of TCP, because the calls
// that are made of both are the same.
#[derive(Drop)]
pub(crate) struct Accepted {
    pub stream: TcpStream,
    // Whether its peer may end the service.
    pub may_stop: bool,
    // The address of its peer, where it came to a port.
    pub peer: Option<IpAddr>,
}

// Why no connection is accepted any more.
#[derive(Clone, Copy, Debug, PartialEq, Eq)]
pub(crate) enum NoMore {
    // The service has ended.
    Ended,
    // None could be accepted, for a reason that does not pass.
    CannotAccept,
}

impl Listener {
    // A handle that closes the listener while another thread waits at it.
    pub(crate) fn closer(&self) -> io::Result<Closer> {
        let copy = match self {
            Listener::Socket(listener) => OwnedFd::from(listener.try_clone()?),
            Listener::Port(listener) => OwnedFd::from(listener.try_clone()?),
        };
        Ok(Closer {
            listener: TcpStream::from(copy),
        })
    }

    // Accepts the next connection. Where the system refuses one for a reason that passes, room is
    // made and it is tried again after a pause.
    pub(crate) fn next<R: Clock, F: FnMut()>(
        &self,
        rt: &R,
        load: &Load,
        mut make_room: F,
    ) -> Result<Accepted, NoMore>
        requires { F.IsAlwaysCallable make_room }
    {
        let mut pause = FIRST_PAUSE_MILLIS;
        for _ in 0..u64::MAX {
            let accepted = self.accept();
            if load.has_ended() {
                return Err(NoMore::Ended);
            }
            match accepted {
                Ok(accepted) => return Ok(accepted),
                Err(e) if !passes(&e) => return Err(NoMore::CannotAccept),
                Err(_) => {}
            }
            make_room();
            thread::sleep(rt, Duration::from_millis(pause));
            pause = pause.saturating_mul(2).min(LAST_PAUSE_MILLIS);
        }
        Err(NoMore::CannotAccept)
    }

    // Accepts the next connection. It may wait for one. Only one of a socket may end the service,
    // and only one of a socket has no address. An address of version 4 of IP that comes as one of
    // version 6 is told as what it is.
    fn accept(&self) -> io::Result<Accepted>
        ensures stops { IfOk result (λ accepted. IsTrue accepted.may_stop → IsSocket self.now) }
        ensures peer { IfOk result (λ accepted. IsNone accepted.peer → IsSocket self.now) }
    {
        match self {
            Listener::Socket(listener) => {
                let (stream, _) = listener.accept()?;
                Ok(Accepted {
                    stream: TcpStream::from(OwnedFd::from(stream)),
                    may_stop: true,
                    peer: None,
                })
            }
            Listener::Port(listener) => {
                let (stream, from) = listener.accept()?;
                Ok(Accepted {
                    stream,
                    may_stop: false,
                    peer: Some(from.ip().to_canonical()),
                })
            }
        }
    }
}

// Closes a listener: who waits there for a connection waits no longer.
#[derive(Drop)]
pub(crate) struct Closer {
    // The listener's socket, of which nothing is asked but to shut down.
    listener: TcpStream,
}

impl Closer {
    // Wakes who waits there for a connection. Where the system refuses that, the next connection
    // does.
    pub fn close(&self) {
        let _ = self.listener.shutdown(Shutdown::Both);
    }
}

// Whether the reason for which no connection could be accepted passes by itself.
fn passes(fault: &io::Error) -> bool {
    match fault.raw_os_error() {
        Some(number) => PASSING.contains(&number),
        None => false,
    }
}
