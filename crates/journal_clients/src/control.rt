// The socket by which a service is asked to end.

use std::io::{Read, Write};
use std::net::{Shutdown, TcpStream};
use std::os::fd::OwnedFd;
use std::os::unix::net::{UnixListener, UnixStream};
use std::sync::atomic::{AtomicBool, Ordering};
use std::sync::{Mutex, Wait};
use std::time::{Clock, Duration};
use std::{io, thread};

/// The bytes that ask a service at its socket to end.
pub const STOP: &[u8; 5] = b"stop\n";

/// The answer of the service, once its disk is closed and unlocked: all commits are stable.
pub const STOPPED: &[u8] = b"stopped\n";

/// Its answer then where not all commits may be stable.
pub const FAILED: &[u8] = b"failed\n";

// How long a client is waited for that says nothing, and how long the listener rests where the
// system refuses a connection, in milliseconds.
const PATIENCE_MILLIS: u64 = 1000;

const PAUSE_MILLIS: u64 = 100;

/// The socket by which a service is asked to end. Who can open it may ask.
#[derive(Drop)]
pub struct Control {
    listener: UnixListener,
    // The listener's socket, of which nothing is asked but to shut down.
    closer: TcpStream,
    has_ended: AtomicBool,
    // Who has asked, and waits for the end.
    asker: Mutex<Option<UnixStream>>,
}

impl Control {
    /// The control of a service at this socket.
    ///
    /// # Errors
    /// - The system's reason, where it refuses another number of the socket.
    pub fn over(listener: UnixListener) -> io::Result<Control> {
        let copy = OwnedFd::from(listener.try_clone()?);
        Ok(Control {
            listener,
            closer: TcpStream::from(copy),
            has_ended: AtomicBool::new(false),
            asker: Mutex::new(None),
        })
    }

    /// Answers who asked the service to end, if anybody has. The disk is closed then.
    pub fn answer<W: Wait>(&self, rt: &W, is_stable: bool) {
        let Some(mut stream) = self.asker.lock(rt).take() else {
            return;
        };
        // Who has gone away is not answered.
        let _ = if is_stable {
            stream.write_all(STOPPED)
        } else {
            stream.write_all(FAILED)
        };
    }

    /// Waits until a client asks the service to end, or until it has ended.
    pub(crate) fn await_stop<R: Clock + Wait>(&self, rt: &R) {
        for _ in rt.forever() {
            let accepted = self.listener.accept();
            if self.has_ended.load(Ordering::SeqCst) {
                return;
            }
            match accepted {
                Ok((stream, _)) => {
                    if let Some(asker) = asker_of(stream) {
                        *self.asker.lock(rt) = Some(asker);
                        return;
                    }
                }
                Err(_) => thread::sleep(rt, Duration::from_millis(PAUSE_MILLIS)),
            }
        }
        unreachable!()
    }

    /// Wakes who waits for a client. Where the system refuses that, the next client does.
    pub(crate) fn close(&self) {
        self.has_ended.store(true, Ordering::SeqCst);
        let _ = self.closer.shutdown(Shutdown::Both);
    }
}

// The connection, if its client asks the service to end.
fn asker_of(stream: UnixStream) -> Option<UnixStream> {
    let mut stream = stream;
    let patience = Duration::from_millis(PATIENCE_MILLIS);
    stream.set_read_timeout(Some(patience)).ok()?;
    let mut word = [0u8; STOP.len()];
    stream.read_exact(&mut word).ok()?;
    if word == *STOP { Some(stream) } else { None }
}
