// A service is ended.

use journal_commands::Fault;
use journal_records::{
    Answer, FIRST_VERSION, RECORD_BYTES, Refused as Answered, Request, read_answer, write_request,
};
use journal_rpc::{FeedRefused, Marking, Records};
use std::alloc::Global;
use std::fs::Files;
use std::io::{ErrorKind, Read, Write};
use std::net::Net;
use std::os::unix::fs::MetadataExt;
use std::os::unix::net::UnixStream;
use std::time::{Clock, Duration, SystemTime};
use std::{fs, io, thread};

// The most bytes that are read at once.
const PIECE_BYTES: usize = 4096;

// How often it is looked whether a service has ended, and how long the looks are apart: a minute in
// all.
const LOOKS: u64 = 6000;

const PAUSE_MILLIS: u64 = 10;

/// Ends the service at the socket, and waits until all its commits are stable, the disk is closed
/// and unlocked, and the socket is gone.
///
/// # Errors
/// - `File`, `NoAnswer`: no service answers there.
/// - `NotStopped`: it refuses to end.
/// - `NotEnded`: it has not ended within a minute.
/// - `NotStable`: its device has failed. It ends by itself, which was waited for.
pub fn stop<'w, R: Files + Net + Clock>(
    rt: &R,
    alloc: Global,
    socket: &'w str,
) -> Result<(), Fault<'w>> {
    let node = node_at(rt, socket);
    let is_stable = match ask_to_stop(rt, alloc, socket) {
        Ok(()) => true,
        Err(
            Fault::NotStopped {
                why: Answered::DeviceFailed,
                ..
            },
        ) => false,
        Err(fault) => return Err(fault),
    };
    await_end(rt, socket, &node)?;
    if is_stable {
        Ok(())
    } else {
        Err(Fault::NotStable { socket })
    }
}

// Waits until the node is gone from the socket's path. A service removes its socket once its disk
// is closed. Another one may be there by then.
fn await_end<'w, R: Files + Clock>(
    rt: &R,
    socket: &'w str,
    node: &io::Result<Node>,
) -> Result<(), Fault<'w>> {
    for _ in 0..LOOKS {
        if !is_there(rt, socket, node) {
            return Ok(());
        }
        thread::sleep(rt, Duration::from_millis(PAUSE_MILLIS));
    }
    Err(Fault::NotEnded { socket })
}

// A node is known by these two: its number in its file system, and the moment since which it is
// there. A file system may give a number again.
#[derive(Clone, Copy, PartialEq, Eq)]
struct Node {
    number: u64,
    born: Option<SystemTime>,
}

// The node at the path of a socket.
fn node_at<R: Files>(rt: &R, socket: &str) -> io::Result<Node> {
    let found = fs::symlink_metadata(rt, socket)?;
    Ok(Node {
        number: found.ino(),
        born: found.created().ok(),
    })
}

// True if the node is at the path, or the system does not say whether it is.
fn is_there<R: Files>(rt: &R, socket: &str, node: &io::Result<Node>) -> bool {
    match (node_at(rt, socket), node) {
        (Ok(found), Ok(node)) => found == *node,
        (Err(why), _) => why.kind() != ErrorKind::NotFound,
        (Ok(_), Err(_)) => true,
    }
}

// Asks the service at the socket to end, and waits until all its commits are stable.
fn ask_to_stop<'w, R: Net>(rt: &R, alloc: Global, socket: &'w str) -> Result<(), Fault<'w>> {
    let mut stream = match UnixStream::connect(rt, socket) {
        Ok(stream) => stream,
        Err(why) => return Err(Fault::File { path: socket, why }),
    };
    let mut records = answers_of(alloc);
    // Each version of the service speaks the first one.
    for request in [Request::Hello(FIRST_VERSION), Request::Stop] {
        match ask(alloc, &mut stream, &mut records, &request, socket)? {
            Answer::Hello { .. } => {}
            Answer::Stopping => return Ok(()),
            Answer::Refused(why) => return Err(Fault::NotStopped { socket, why }),
            _ => return Err(Fault::NoAnswer { socket }),
        }
    }
    Err(Fault::NoAnswer { socket })
}

/// The answers that a service sends.
pub fn answers_of(alloc: Global) -> Records {
    Records::new(alloc, Marking::by_length(RECORD_BYTES))
}

/// Asks a request, and waits for its answer.
///
/// # Errors
/// - `NoMemory`: memory is refused for the request or for its answer.
/// - `NoAnswer`: the connection ends, or what comes is no answer.
pub fn ask<'w>(
    alloc: Global,
    stream: &mut UnixStream,
    records: &mut Records,
    request: &Request,
    socket: &'w str,
) -> Result<Answer, Fault<'w>> {
    let Ok(record) = write_request(alloc, request) else {
        return Err(Fault::NoMemory);
    };
    if stream.write_all(&record).is_err() {
        return Err(Fault::NoAnswer { socket });
    }
    for _ in 0..u64::MAX {
        if let Some(record) = records.next() {
            return match read_answer(alloc, record.as_bytes()) {
                Ok(answer) => Ok(answer),
                Err(_) => Err(Fault::NoAnswer { socket }),
            };
        }
        feed(stream, records, socket)?;
    }
    Err(Fault::NoAnswer { socket })
}

// Takes a piece of what the service sends.
fn feed<'w>(
    stream: &mut UnixStream,
    records: &mut Records,
    socket: &'w str,
) -> Result<(), Fault<'w>> {
    let mut piece = [0u8; PIECE_BYTES];
    let size = match stream.read(&mut piece) {
        Ok(size) if size > 0 => size,
        _ => return Err(Fault::NoAnswer { socket }),
    };
    match records.feed(&piece[..size]) {
        Ok(taken) if taken == size => Ok(()),
        Ok(_) | Err(FeedRefused::TooLong) => Err(Fault::NoAnswer { socket }),
        Err(FeedRefused::NoMemory) => Err(Fault::NoMemory),
    }
}
