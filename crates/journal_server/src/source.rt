// Where connections come from.
ghost use Rattle.std.specs.Prelude.{◌≡◌, ◌+◌, IsSome, IsNone};
ghost use Rattle.std.specs.Io.{ReadsAtMost, WritesAtMost};

use std::io;
use std::sync::Wait;

/// A connection with a peer.
pub trait Connection {
    /// A worker has taken it. Called once, before all else.
    fn begin(&self) {}

    /// Takes bytes from the peer, and answers how many: none only where the peer sends no more, or
    /// where there is no room. It may wait for the peer, and fail where that takes too long.
    fn receive(&self, into: &mut [u8]) -> io::Result<usize>
        ensures bound { ReadsAtMost result into.new };

    /// Gives bytes to the peer, and answers how many it took. It may wait for the peer, and fail
    /// where that takes too long.
    fn send(&self, from: &[u8]) -> io::Result<usize>
        ensures bound { WritesAtMost result from.now };

    /// Ends the connection, so that what was sent can still reach the peer.
    fn close(self);
}

/// What gives connections, one after another.
pub trait Source {
    ghost use Rattle.std.specs.Prelude.{ℕ};

    /// What it gives.
    type Connection: Connection;

    /// How many it has given.
    ghost given: { Self → ℕ };

    /// The next connection, or `None` where no more will come. It may wait for one.
    fn next<H: Wait>(&mut self, rt: &H) -> Option<Self::Connection>
        ensures given { IsSome result → given self.new ≡ given self.old + 1 }
        ensures ended { IsNone result → given self.new ≡ given self.old };
}
