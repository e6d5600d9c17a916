// The two ends of a connection, as a reader and a writer.
use crate::source::Connection;
use std::io;
use std::io::{Read, Write};

// What comes from the peer.
pub(crate) struct Incoming<'c, S: Connection>(pub &'c S);

// What goes to the peer.
pub(crate) struct Outgoing<'c, S: Connection>(pub &'c S);

impl<'c, S: Connection> Drop for Incoming<'c, S> {
    fn drop(self) {
        let Incoming(_) = self;
    }
}

impl<'c, S: Connection> Drop for Outgoing<'c, S> {
    fn drop(self) {
        let Outgoing(_) = self;
    }
}

impl<'c, S: Connection> Read for Incoming<'c, S> {
    fn read(&mut self, buffer: &mut [u8]) -> io::Result<usize> {
        self.0.receive(buffer)
    }
}

impl<'c, S: Connection> Write for Outgoing<'c, S> {
    fn write(&mut self, bytes: &[u8]) -> io::Result<usize> {
        self.0.send(bytes)
    }

    fn flush(&mut self) -> io::Result<()> {
        Ok(())
    }
}
