// A service is ended.
ghost use Rattle.std.specs.Prelude.{◌≤◌, IfOk};
ghost use Rattle.jnlfs.specs.declared.stopping.TheConstants.{ANSWER_BYTES};

use journal_clients::{FAILED, STOP, STOPPED};
use journal_commands::Fault;
use std::io;
use std::io::{ErrorKind, Read, Write};
use std::net::Net;
use std::os::unix::net::UnixStream;
use std::time::Duration;

// How long an answer is waited for. A service that has ended its port has the calls under way to
// answer, and the log to make stable.
const PATIENCE_SECS: u64 = 60;

// Room for the longest answer, and for a byte more.
const ANSWER_BYTES: usize = 9;

/// Ends the service whose control is the socket, and waits until all is stable, the disk is closed
/// and unlocked, and the socket is gone.
///
/// # Errors
/// - `File`: no service listens there, or the system's reason.
/// - `NoAnswer`: the service gives no answer, or another one. It was killed, or is none of files.
/// - `NotEnded`: it has not ended within a minute.
/// - `NotStable`: it has ended, and its device has failed.
pub fn stop<'w, R: Net>(rt: &R, socket: &'w str) -> Result<(), Fault<'w>> {
    let mut stream = match UnixStream::connect(rt, socket) {
        Ok(stream) => stream,
        Err(why) => return Err(Fault::File { path: socket, why }),
    };
    let mut room = [0u8; ANSWER_BYTES];
    let answer = match ask(&mut stream, &mut room) {
        Ok(size) => &room[..size],
        Err(why) if why.kind() == ErrorKind::WouldBlock => {
            return Err(Fault::NotEnded { socket });
        }
        Err(_) => return Err(Fault::NoAnswer { socket }),
    };
    if answer == STOPPED {
        Ok(())
    } else if answer == FAILED {
        Err(Fault::NotStable { socket })
    } else {
        Err(Fault::NoAnswer { socket })
    }
}

// Asks the service to end, and takes its answer up to the end of the connection. Answers how many
// bytes that has.
fn ask(stream: &mut UnixStream, room: &mut [u8; ANSWER_BYTES]) -> io::Result<usize>
    ensures { IfOk result (λ size. size ≤ ANSWER_BYTES) }
{
    stream.set_read_timeout(Some(Duration::from_secs(PATIENCE_SECS)))?;
    stream.write_all(STOP)?;
    let mut size = 0;
    for _ in 0..ANSWER_BYTES {
        let taken = stream.read(&mut room[size..])?;
        if taken == 0 {
            break;
        }
        size += taken;
    }
    Ok(size)
}
