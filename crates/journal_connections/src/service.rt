// The service that answers connections.
ghost use Rattle.std.specs.Prelude.{◌<◌, length};

use crate::peer::Peer;
use std::net::IpAddr;
use std::sync::Wait;
use std::time::Clock;

/// How a turn of a connection has ended.
#[derive(Clone, Copy, Debug, PartialEq, Eq)]
pub enum Turned {
    /// All that came was answered, and the peer may send more.
    Paused,
    /// The connection has ended, or is given up.
    Ended,
    /// It has ended, and so does the service.
    Stopped,
}

/// A service that answers connections.
pub trait Service {
    /// The state of a connection between its turns.
    type Session: Drop + Send;

    /// Begins a connection, whose peer may end the service or not. Its address is that of its peer,
    /// or `None` where it came to a socket in the file system. `None` refuses the connection.
    fn begin<W: Wait>(
        &self,
        rt: &W,
        may_stop: bool,
        address: Option<IpAddr>,
    ) -> Option<Self::Session>;

    /// Answers what comes from the peer, until the connection ends, or it pauses because the peer
    /// says so (`Peer::is_to_pause`). It reads into the buffer, which has room.
    fn turn<R: Clock + Wait>(
        &self,
        rt: &R,
        session: &mut Self::Session,
        peer: &Peer<'_, '_, '_, R>,
        buffer: &mut [u8],
    ) -> Turned
        requires { 0 < length buffer.old };

    /// Ends a connection that paused or has ended. Called once for each that was begun, last of
    /// all.
    fn end<W: Wait>(&self, rt: &W, session: Self::Session);
}
