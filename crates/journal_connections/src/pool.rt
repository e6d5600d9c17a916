// Who serves connections, who accepts them, and who watches those that rest.
ghost use Rattle.std.specs.Prelude.{◌<◌, length, IsTrue};
ghost use Rattle.journal_connections.specs.Ranges.{allows_peer};

use crate::allowed::AllowedAddresses;
use crate::clock::millis;
use crate::connection::{Connection, TURN_MILLIS, close, close_at_rest, prepare};
use crate::entrance::{Ending, Entrance};
use crate::listener::{Accepted, Listener, NoMore};
use crate::load::Load;
use crate::peer::{MILLIS_ALONE, MILLIS_IN_CROWD, Peer};
use crate::ready::Ready;
use crate::resting::Resting;
use crate::service::{Service, Turned};
use mio::{Events, Poll};
use std::alloc::Global;
use std::sync::Wait;
use std::sync::atomic::{AtomicBool, Ordering};
use std::thread;
use std::thread::Threads;
use std::time::{Clock, Duration};

// The most bytes that are read at once. The requests of a piece that wait are waited for once.
const PIECE_BYTES: usize = 131_072;

// How many connections that have something to read are told at once.
const EVENTS_AT_ONCE: usize = 64;

// How often it is looked whether there is a place for one more connection.
const LOOK_MILLIS: u64 = 10;

// For how many milliseconds a connection has rested at least that is ended where the system has no
// file number left. So none is ended whose peer makes one call after the other.
const MILLIS_AT_REST: u64 = 1_000;

// For how many milliseconds a visitor has rested at least that is ended for another one.
const MILLIS_OF_VISITOR: u64 = 250;

/// Why a service did not begin, or ended without having been asked to.
#[derive(Clone, Copy, Debug, PartialEq, Eq)]
pub enum PoolFault {
    /// Memory or a thread was refused.
    NoMemory,
    /// No connection could be accepted, for a reason that does not pass.
    CannotAccept,
}

/// Serves what comes in by the entrance, until a client ends the service or another thread does.
///
/// # Errors
///
/// - `NoMemory`: nothing was served, or no more is.
/// - `CannotAccept`: those that were accepted have been served.
///
/// The service has ended then.
pub fn serve<S: Service + Sync, R: Clock + Threads + Wait + Sync>(
    rt: &R,
    alloc: Global,
    service: &S,
    ending: &Ending<'_>,
    entrance: Entrance,
) -> Result<(), PoolFault> {
    let Entrance {
        listeners,
        allowed,
        poll,
        registry,
    } = entrance;
    let pool = Pool {
        service,
        allowed,
        load: ending.load,
        ending,
        ready: Ready::new(alloc),
        resting: Resting::new(alloc, registry),
        has_failed: AtomicBool::new(false),
    };
    pool.serve(rt, alloc, &listeners, poll)
}

// The state that the threads of a service share.
struct Pool<'s, 'l, S: Service> {
    service: &'s S,
    // The addresses whose connections are served.
    allowed: AllowedAddresses,
    load: &'l Load,
    ending: &'s Ending<'l>,
    ready: Ready<S::Session>,
    resting: Resting<S::Session>,
    // Whether a listener could accept no connection, for a reason that does not pass.
    has_failed: AtomicBool,
}

impl<'s, 'l, S: Service> Drop for Pool<'s, 'l, S> {
    fn drop(self) {
        let Pool {
            service: _,
            allowed: _,
            load: _,
            ending: _,
            ready: _,
            resting: _,
            has_failed: _,
        } = self;
    }
}

impl<'s, 'l, S: Service + Sync> Pool<'s, 'l, S> {
    // Serves what the listeners accept, by as many workers as the load says.
    fn serve<R: Clock + Threads + Wait + Sync>(
        &self,
        rt: &R,
        alloc: Global,
        listeners: &[Listener],
        poll: Poll,
    ) -> Result<(), PoolFault> {
        thread::scope(thread::scope_env(), rt, |scope| -> Result<(), PoolFault> {
            for worker in 0..self.load.size.workers {
                if scope
                    .spawn(move || self.work(rt, alloc, worker as usize))
                    .is_err()
                {
                    self.end(rt);
                    return Err(PoolFault::NoMemory);
                }
            }
            for listener in listeners.iter() {
                if scope.spawn(move || self.accept_all(rt, listener)).is_err() {
                    self.end(rt);
                    return Err(PoolFault::NoMemory);
                }
            }
            self.watch(rt, alloc, poll)
        })?;
        if self.has_failed.load(Ordering::SeqCst) {
            return Err(PoolFault::CannotAccept);
        }
        Ok(())
    }

    // Ends the service, and wakes the workers that wait.
    fn end<W: Wait>(&self, rt: &W) {
        self.ready.end(rt, self.load);
        self.ending.end();
    }

    // Accepts connections until the service has ended. Where none can be accepted it ends the
    // service.
    fn accept_all<R: Clock + Wait>(&self, rt: &R, listener: &Listener) {
        for _ in rt.forever() {
            let load = self.load;
            match listener.next(rt, load, || {
                self.end_first(rt, MILLIS_AT_REST);
            }) {
                Ok(accepted) => self.receive(rt, accepted),
                Err(NoMore::Ended) => break,
                Err(NoMore::CannotAccept) => {
                    self.has_failed.store(true, Ordering::SeqCst);
                    break;
                }
            }
        }
        self.end(rt);
    }

    // Begins a connection whose peer is allowed. Another one is closed at once: nothing of it is
    // read, nothing is sent to it, and it takes no place.
    fn receive<R: Clock + Wait>(&self, rt: &R, accepted: Accepted) {
        if self.allowed.allows_peer(accepted.peer) {
            self.admit(rt, accepted);
        } else {
            self.load.counts.refused.add(1);
        }
    }

    // Begins a connection, once there is a place for it. It is closed where the service has ended.
    fn admit<R: Clock + Wait>(&self, rt: &R, accepted: Accepted)
        requires { IsTrue (allows_peer self.now.allowed accepted.peer) }
    {
        let load = self.load;
        let Some(number) = self.await_place(rt) else {
            return;
        };
        let Accepted {
            stream,
            may_stop,
            peer: address,
        } = accepted;
        prepare(&stream);
        let Some(session) = self.service.begin(rt, may_stop, address) else {
            load.counts.open.take();
            return;
        };
        let connection = Connection {
            stream,
            session,
            number,
            since: millis(rt),
        };
        if load.is_crowded() {
            self.let_rest(rt, connection);
        } else {
            self.make_ready(rt, connection);
        }
    }

    // Takes a place for one more connection, and answers its number. Where there is none it waits.
    // `None` says that the service has ended.
    fn await_place<R: Clock + Wait>(&self, rt: &R) -> Option<u64> {
        let load = self.load;
        if let Some(number) = load.take_place(millis(rt)) {
            return Some(number);
        }
        load.begin_knock();
        let place = self.make_room(rt);
        load.end_knock();
        place
    }

    // Takes a place once there is one. One that has rested for some seconds is ended for it, or
    // else the visitor.
    fn make_room<R: Clock + Wait>(&self, rt: &R) -> Option<u64> {
        for _ in rt.forever() {
            if self.load.has_ended() {
                return None;
            }
            if let Some(number) = self.load.take_place(millis(rt)) {
                return Some(number);
            }
            if !self.end_first(rt, MILLIS_IN_CROWD) && !self.end_visitor(rt) {
                thread::sleep(rt, Duration::from_millis(LOOK_MILLIS));
            }
        }
        unreachable!()
    }

    // Ends the visitor, if it has rested for a while, and answers whether it did.
    fn end_visitor<R: Clock + Wait>(&self, rt: &R) -> bool {
        let Some(latest) = millis(rt).checked_sub(MILLIS_OF_VISITOR) else {
            return false;
        };
        let Some(connection) = self.resting.take_visitor(rt, self.load, latest) else {
            return false;
        };
        self.load.counts.crowded_out.add(1);
        self.finish_at_rest(rt, connection);
        true
    }

    // Ends the connection that has rested for the longest time, if it has rested for so many
    // milliseconds, and answers whether it did.
    fn end_first<R: Clock + Wait>(&self, rt: &R, millis_at_least: u64) -> bool {
        let latest = millis(rt).checked_sub(millis_at_least);
        let Some(latest) = latest else {
            return false;
        };
        let Some(connection) = self.resting.take_first(rt, latest) else {
            return false;
        };
        self.load.counts.crowded_out.add(1);
        self.finish_at_rest(rt, connection);
        true
    }

    // Serves one connection after another for a turn, until the service has ended. The buffer is
    // made for the first one. Where memory for it is refused, the connection is ended.
    fn work<R: Clock + Wait>(&self, rt: &R, alloc: Global, worker: usize) {
        let mut buffer = Vec::new(alloc);
        for _ in rt.forever() {
            let Some(connection) = self.ready.take(rt, self.load) else {
                return;
            };
            if buffer.is_empty() {
                let _ = buffer.resize(PIECE_BYTES, 0u8);
            }
            self.serve_turn(rt, connection, worker, &mut buffer);
        }
    }

    // Serves a connection for a turn, into a buffer that has room.
    fn serve_turn<R: Clock + Wait>(
        &self,
        rt: &R,
        connection: Connection<S::Session>,
        worker: usize,
        buffer: &mut [u8],
    ) {
        if buffer.is_empty() {
            return self.finish(rt, connection);
        }
        let Connection {
            stream,
            mut session,
            number,
            since: _,
        } = connection;
        let peer = Peer::new(rt, self.load, &stream, worker);
        let service = self.service;
        let turned = service.turn(rt, &mut session, &peer, buffer);
        peer.give_room_back();
        drop(peer);
        let since = millis(rt);
        let connection = Connection {
            stream,
            session,
            number,
            since,
        };
        match turned {
            Turned::Paused => self.pause(rt, connection),
            Turned::Ended => self.finish(rt, connection),
            Turned::Stopped => {
                self.finish(rt, connection);
                self.end(rt);
            }
        }
    }

    // Lets a connection rest that has paused, unless it is a visitor that is to leave.
    fn pause<W: Wait>(&self, rt: &W, connection: Connection<S::Session>) {
        if self.load.is_to_leave(connection.number, connection.since) {
            self.load.counts.crowded_out.add(1);
            return self.finish(rt, connection);
        }
        self.let_rest(rt, connection);
    }

    // Lets a connection rest. Where that is refused it is ended.
    fn let_rest<W: Wait>(&self, rt: &W, connection: Connection<S::Session>) {
        if let Err(connection) = self.resting.put(rt, self.load, connection) {
            self.finish(rt, connection);
        }
    }

    // Ends a connection.
    fn finish<W: Wait>(&self, rt: &W, connection: Connection<S::Session>) {
        let Connection {
            stream,
            session,
            number: _,
            since: _,
        } = connection;
        self.service.end(rt, session);
        close(stream);
        self.load.counts.open.take();
    }

    // Ends a connection that rested.
    fn finish_at_rest<W: Wait>(&self, rt: &W, connection: Connection<S::Session>) {
        let Connection {
            stream,
            session,
            number: _,
            since: _,
        } = connection;
        self.service.end(rt, session);
        close_at_rest(stream);
        self.load.counts.open.take();
    }

    // Watches the connections that rest, until the service has ended. Then it wakes the workers,
    // because who has ended the service may not know them, and ends what rests.
    fn watch<R: Clock + Wait>(
        &self,
        rt: &R,
        alloc: Global,
        mut poll: Poll,
    ) -> Result<(), PoolFault> {
        let Ok(mut events) = Events::with_capacity(alloc, EVENTS_AT_ONCE) else {
            self.end(rt);
            return Err(PoolFault::NoMemory);
        };
        let turn = Duration::from_millis(TURN_MILLIS);
        for _ in rt.forever() {
            if self.load.has_ended() {
                break;
            }
            if poll.poll(&mut events, Some(turn)).is_err() {
                thread::sleep(rt, turn);
            }
            for event in events.iter() {
                self.wake_up(rt, event.token().0);
            }
            self.end_silent(rt);
        }
        self.end(rt);
        self.end_all(rt);
        Ok(())
    }

    // The connection of this number has something to read.
    fn wake_up<W: Wait>(&self, rt: &W, number: usize) {
        if let Some(connection) = self.resting.take(rt, number) {
            self.make_ready(rt, connection);
        }
    }

    // Puts a connection at the end of the queue. Where that is refused it is ended.
    fn make_ready<W: Wait>(&self, rt: &W, connection: Connection<S::Session>) {
        if let Err(connection) = self.ready.put(rt, self.load, connection) {
            self.finish(rt, connection);
        }
    }

    // Ends the connections that have rested for minutes.
    fn end_silent<R: Clock + Wait>(&self, rt: &R) {
        let Some(latest) = millis(rt).checked_sub(MILLIS_ALONE) else {
            return;
        };
        for _ in 0..EVENTS_AT_ONCE {
            let Some(connection) = self.resting.take_first(rt, latest) else {
                return;
            };
            self.finish_at_rest(rt, connection);
        }
    }

    // Ends the connections that rest.
    fn end_all<W: Wait>(&self, rt: &W) {
        for _ in rt.forever() {
            let Some(connection) = self.resting.take_first(rt, u64::MAX) else {
                return;
            };
            self.finish_at_rest(rt, connection);
        }
    }
}
