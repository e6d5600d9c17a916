// A connection between its turns.

use std::io::Read;
use std::net::{Shutdown, TcpStream};
use std::time::Duration;

// A call that waits for the peer is made again after so many milliseconds, and looks in between
// whether the service has ended, and whether other connections wait.
pub(crate) const TURN_MILLIS: u64 = 250;

// How many pieces of what a peer still sends are taken once its connection is closed.
const LAST_PIECES: usize = 8;

const LAST_PIECE_BYTES: usize = 32_768;

// A connection that no worker serves now. One of a Unix socket is kept as one of TCP, because the
// calls that are made of both are the same.
#[derive(Drop)]
pub(crate) struct Connection<S> {
    pub stream: TcpStream,
    // The state that its service keeps of it.
    pub session: S,
    // How many were admitted before it.
    pub number: u64,
    // Since when it rests, in milliseconds of the clock.
    pub since: u64,
}

// Sets what is asked of the system for each connection.
pub(crate) fn prepare(stream: &TcpStream) {
    // A Unix socket has no Nagle's delay, and refuses this. Each limit of time but 0 is taken.
    let _ = stream.set_nodelay(true);
    let turn = Duration::from_millis(TURN_MILLIS);
    let _ = stream.set_read_timeout(Some(turn));
    let _ = stream.set_write_timeout(Some(turn));
}

// Ends a connection. A socket that is closed with input unread is reset, and answers on their way
// are lost with it. So what the peer still sends is taken for a while, after it was notified that
// no more comes.
pub(crate) fn close(stream: TcpStream) {
    let mut stream = &stream;
    if stream.shutdown(Shutdown::Write).is_err() {
        return;
    }
    let mut rest = [0u8; LAST_PIECE_BYTES];
    for _ in 0..LAST_PIECES {
        match stream.read(&mut rest) {
            Ok(0) | Err(_) => return,
            Ok(_) => {}
        }
    }
}

// Ends a connection that rests, of which nothing is unread. It does not wait for the peer.
pub(crate) fn close_at_rest(stream: TcpStream) {
    let _ = stream.set_nonblocking(true);
    close(stream);
}
