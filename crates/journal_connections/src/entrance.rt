// Where connections come in, and what ends that.

use crate::allowed::AllowedAddresses;
use crate::listener::{Closer, Listener};
use crate::load::Load;
use mio::{Poll, Registry, Token, Waker};
use std::alloc::Global;
use std::io;
use std::net::Net;

// The number under which the end of a service is told.
const END: usize = usize::MAX;

/// Where a service takes connections from, and by what it learns which of them sent something.
#[derive(Drop)]
pub struct Entrance {
    pub(crate) listeners: Vec<Listener>,
    pub(crate) allowed: AllowedAddresses,
    pub(crate) poll: Poll,
    pub(crate) registry: Registry,
}

impl Entrance {
    /// Connections come to these listeners, from all addresses.
    ///
    /// # Errors
    ///
    /// Where the system refuses to watch connections.
    pub fn new<N: Net>(net: &N, listeners: Vec<Listener>) -> io::Result<Entrance> {
        let poll = Poll::new(net)?;
        let registry = poll.registry().try_clone()?;
        Ok(Entrance {
            listeners,
            allowed: AllowedAddresses::All,
            poll,
            registry,
        })
    }

    /// The same, where those that come to a port are served only if these addresses have theirs.
    pub fn only_from(self, allowed: AllowedAddresses) -> Entrance {
        Entrance { allowed, ..self }
    }
}

/// The end of a service. It knows the connections only by their number, so any thread may have it,
/// whatever they are answered by.
pub struct Ending<'l> {
    pub(crate) load: &'l Load,
    closers: Vec<Closer>,
    waker: Waker,
}

impl<'l> Drop for Ending<'l> {
    fn drop(self) {
        let Ending {
            load: _,
            closers: _,
            waker: _,
        } = self;
    }
}

impl<'l> Ending<'l> {
    /// The end of the service whose connections come in by the entrance.
    ///
    /// # Errors
    ///
    /// Where memory or another number of a file is refused.
    pub fn new(alloc: Global, load: &'l Load, entrance: &Entrance) -> io::Result<Ending<'l>> {
        let mut closers = Vec::new(alloc);
        for listener in entrance.listeners.iter() {
            closers.push(listener.closer()?)?;
        }
        let waker = Waker::new(&entrance.registry, Token(END))?;
        Ok(Ending {
            load,
            closers,
            waker,
        })
    }

    /// True if the service has ended.
    pub fn has_ended(&self) -> bool {
        self.load.has_ended()
    }

    /// Ends the service: no connection is accepted, and nothing more is read of those that are
    /// open. Who watches the connections that rest looks for the end now and then, so it is noticed
    /// even where the system wakes nobody.
    pub fn end(&self) {
        self.load.end();
        for closer in self.closers.iter() {
            closer.close();
        }
        let _ = self.waker.wake();
    }
}
