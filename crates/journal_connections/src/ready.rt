// The connections that have something to read, or may have, and wait for a worker.

use crate::connection::Connection;
use crate::load::Load;
use std::alloc::Global;
use std::collections::VecDeque;
use std::sync::{Condvar, Mutex, Wait};

// The queue of these connections. The first that came is served first.
pub(crate) struct Ready<S> {
    connections: Mutex<VecDeque<Connection<S>>>,
    changed: Condvar,
}

impl<S: Drop> Drop for Ready<S> {
    fn drop(self) {
        let Ready {
            connections: _,
            changed: _,
        } = self;
    }
}

impl<S: Drop> Ready<S> {
    // An empty queue.
    pub fn new(alloc: Global) -> Ready<S> {
        Ready {
            connections: Mutex::new(VecDeque::new(alloc)),
            changed: Condvar::new(),
        }
    }

    /// Puts a connection at the end.
    ///
    /// # Errors
    /// - The connection: the service has ended, or memory is refused.
    pub fn put<W: Wait>(
        &self,
        rt: &W,
        load: &Load,
        connection: Connection<S>,
    ) -> Result<(), Connection<S>> {
        let mut connections = self.connections.lock(rt);
        if load.has_ended() {
            return Err(connection);
        }
        match connections.push_back(connection) {
            Ok(()) => {
                load.counts.ready.add(1);
                self.changed.notify_one();
                Ok(())
            }
            Err(refused) => Err(refused.value),
        }
    }

    // Takes the connection that was put first, and waits for one where there is none. `None` says
    // that the service has ended, and that no connection is left.
    pub fn take<W: Wait>(&self, rt: &W, load: &Load) -> Option<Connection<S>> {
        let mut connections = self.connections.lock(rt);
        for _ in rt.forever() {
            if let Some(connection) = connections.pop_front() {
                load.counts.ready.take();
                return Some(connection);
            }
            if load.has_ended() {
                return None;
            }
            load.begin_wait();
            connections = self.changed.wait(rt, connections);
            load.end_wait();
        }
        unreachable!()
    }

    // Ends the service: no further connection is put. It is noted under the lock, so that nobody
    // goes to sleep in between.
    pub fn end<W: Wait>(&self, rt: &W, load: &Load) {
        let connections = self.connections.lock(rt);
        load.end();
        self.changed.notify_all();
        drop(connections);
    }
}
