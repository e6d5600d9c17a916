// The connections that have nothing to read.

use crate::connection::Connection;
use crate::load::Load;
use mio::unix::SourceFd;
use mio::{Interest, Registry, Token};
use std::alloc::Global;
use std::collections::BTreeMap;
use std::net::TcpStream;
use std::os::fd::AsRawFd;
use std::sync::{Mutex, Wait};

// Connections under numbers that rise, so the first one has rested for the longest time.
struct Numbered<S> {
    next: usize,
    // The number under which a visitor was last put.
    visitor: Option<usize>,
    connections: BTreeMap<usize, Connection<S>>,
}

impl<S: Drop> Drop for Numbered<S> {
    fn drop(self) {
        let Numbered {
            next: _,
            visitor: _,
            connections: _,
        } = self;
    }
}

// The connections that rest. The thread that watches them is notified of the number under which
// something came.
pub(crate) struct Resting<S> {
    numbered: Mutex<Numbered<S>>,
    registry: Registry,
}

impl<S: Drop> Drop for Resting<S> {
    fn drop(self) {
        let Resting {
            numbered: _,
            registry: _,
        } = self;
    }
}

impl<S: Drop> Resting<S> {
    // Nobody rests.
    pub fn new(alloc: Global, registry: Registry) -> Resting<S> {
        Resting {
            numbered: Mutex::new(Numbered {
                next: 0,
                visitor: None,
                connections: BTreeMap::new(alloc),
            }),
            registry,
        }
    }

    /// Lets a connection rest.
    ///
    /// # Errors
    /// - The connection: the service has ended, memory is refused, or the system does not watch it.
    pub fn put<W: Wait>(
        &self,
        rt: &W,
        load: &Load,
        connection: Connection<S>,
    ) -> Result<(), Connection<S>> {
        let mut guard = self.numbered.lock(rt);
        if load.has_ended() {
            return Err(connection);
        }
        let numbered = &mut *guard;
        let number = numbered.next;
        if self.watch(&connection.stream, number).is_err() {
            return Err(connection);
        }
        numbered.next = number.wrapping_add(1);
        if load.is_visitor(connection.number) {
            numbered.visitor = Some(number);
        }
        match numbered.connections.insert(number, connection) {
            Ok(_) => Ok(()),
            Err(refused) => {
                let (_, connection) = refused.value;
                self.forget(&connection.stream);
                Err(connection)
            }
        }
    }

    // Takes the connection of this number, if it rests.
    pub fn take<W: Wait>(&self, rt: &W, number: usize) -> Option<Connection<S>> {
        let mut guard = self.numbered.lock(rt);
        let connection = guard.connections.remove(&number)?;
        self.forget(&connection.stream);
        Some(connection)
    }

    // Takes the visitor, if it rests since this moment or an earlier one.
    pub fn take_visitor<W: Wait>(&self, rt: &W, load: &Load, latest: u64) -> Option<Connection<S>> {
        let mut guard = self.numbered.lock(rt);
        let number = guard.visitor?;
        let visitor = guard.connections.get(&number)?;
        if visitor.since > latest || !load.is_visitor(visitor.number) {
            return None;
        }
        let connection = guard.connections.remove(&number)?;
        self.forget(&connection.stream);
        Some(connection)
    }

    // Takes the connection that has rested for the longest time, if it rests since this moment or
    // an earlier one.
    pub fn take_first<W: Wait>(&self, rt: &W, latest: u64) -> Option<Connection<S>> {
        let mut guard = self.numbered.lock(rt);
        let (_, first) = guard.connections.first_key_value()?;
        if first.since > latest {
            return None;
        }
        let (_, connection) = guard.connections.pop_first()?;
        self.forget(&connection.stream);
        Some(connection)
    }

    // Has the system tell when something comes under this number.
    fn watch(&self, stream: &TcpStream, number: usize) -> std::io::Result<()> {
        let fd = stream.as_raw_fd();
        self.registry
            .register(&mut SourceFd(&fd), Token(number), Interest::READABLE)
    }

    // Ends that. A connection that is not watched is closed all the same.
    fn forget(&self, stream: &TcpStream) {
        let fd = stream.as_raw_fd();
        let _ = self.registry.deregister(&mut SourceFd(&fd));
    }
}
