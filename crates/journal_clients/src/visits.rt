// A protocol over a journal, for the connections of a pool.
ghost use Rattle.std.specs.Prelude.{◌<◌, length};

use crate::clock::WallClock;
use journal_connections::{Incoming, Outgoing, Peer, Service, Turned};
use journal_disk::BlockDisk;
use journal_gate::OpenGate;
use journal_history::{Naming, Session};
use journal_protocol::{Answerer, Pace, Progress, Protocol, serve_to_pause};
use journal_twophase::Journal;
use journal_world::MapRule;
use std::alloc::Global;
use std::net::IpAddr;
use std::sync::Wait;
use std::sync::atomic::{AtomicU64, Ordering};
use std::time::Clock;

/// A protocol for each client of a service.
pub trait ByClient {
    /// The protocol.
    type Protocol;

    /// The protocol by which a client at this address is answered, or one that has none.
    fn for_client(&self, address: Option<IpAddr>) -> Self::Protocol;
}

/// A protocol over a journal, as what the connections of a pool are answered by: each under a
/// session of its own, which is fenced at the connection's end.
pub struct Visits<'s, 'b, D: BlockDisk, M: MapRule, J: Naming, P> {
    alloc: Global,
    journal: &'s Journal<'b, D, M, J>,
    protocol: &'s P,
    // The number of the next connection.
    next: AtomicU64,
}

impl<'s, 'b, D: BlockDisk, M: MapRule, J: Naming, P> Drop for Visits<'s, 'b, D, M, J, P> {
    fn drop(self) {
        let Visits {
            alloc: _,
            journal: _,
            protocol: _,
            next: _,
        } = self;
    }
}

impl<'s, 'b, D: BlockDisk, M: MapRule, J: Naming, P> Visits<'s, 'b, D, M, J, P> {
    /// The protocol over the journal. No connection has come.
    pub fn new(
        alloc: Global,
        journal: &'s Journal<'b, D, M, J>,
        protocol: &'s P,
    ) -> Visits<'s, 'b, D, M, J, P> {
        Visits {
            alloc,
            journal,
            protocol,
            next: AtomicU64::new(0),
        }
    }
}

/// The same where each client has a protocol of its own, by its address. No program uses it yet.
pub struct VisitsByClient<'s, 'b, D: BlockDisk, M: MapRule, J: Naming, C> {
    alloc: Global,
    journal: &'s Journal<'b, D, M, J>,
    clients: &'s C,
    // The number of the next connection.
    next: AtomicU64,
}

impl<'s, 'b, D: BlockDisk, M: MapRule, J: Naming, C> Drop for VisitsByClient<'s, 'b, D, M, J, C> {
    fn drop(self) {
        let VisitsByClient {
            alloc: _,
            journal: _,
            clients: _,
            next: _,
        } = self;
    }
}

impl<'s, 'b, D: BlockDisk, M: MapRule, J: Naming, C> VisitsByClient<'s, 'b, D, M, J, C> {
    /// The protocols over the journal. No connection has come.
    pub fn new(
        alloc: Global,
        journal: &'s Journal<'b, D, M, J>,
        clients: &'s C,
    ) -> VisitsByClient<'s, 'b, D, M, J, C> {
        VisitsByClient {
            alloc,
            journal,
            clients,
            next: AtomicU64::new(0),
        }
    }
}

/// A connection between its turns: its session, its number, the address of its client, and the
/// number of its calls that were answered.
pub struct Visit<'b, M: MapRule, J: Naming> {
    session: Session<'b, J, M>,
    number: u64,
    address: Option<IpAddr>,
    answered: u64,
}

impl<'b, M: MapRule, J: Naming> Drop for Visit<'b, M, J> {
    fn drop(self) {
        let Visit {
            session: _,
            number: _,
            address: _,
            answered: _,
        } = self;
    }
}

// That a connection pauses where its worker is to serve others.
struct Fair<'p, 'c, 'l, 'r, R: Clock + Wait>(&'p Peer<'c, 'l, 'r, R>);

impl<'p, 'c, 'l, 'r, R: Clock + Wait> Drop for Fair<'p, 'c, 'l, 'r, R> {
    fn drop(self) {
        let Fair(_) = self;
    }
}

impl<'p, 'c, 'l, 'r, R: Clock + Wait> Pace for Fair<'p, 'c, 'l, 'r, R> {
    fn is_to_pause(&self) -> bool {
        self.0.is_to_pause()
    }

    fn note_begun(&self, bytes: usize) {
        self.0.note_begun(bytes);
    }
}

impl<
    's,
    'b,
    D: BlockDisk,
    M: MapRule + Send,
    J: Naming + Send,
    P: Protocol<Session = Session<'b, J, M>>,
> Service for Visits<'s, 'b, D, M, J, P> {
    type Session = Visit<'b, M, J>;

    fn begin<W: Wait>(
        &self,
        rt: &W,
        _may_stop: bool,
        address: Option<IpAddr>,
    ) -> Option<Visit<'b, M, J>> {
        begin(rt, self.journal, &self.next, address)
    }

    fn turn<R: Clock + Wait>(
        &self,
        rt: &R,
        visit: &mut Visit<'b, M, J>,
        peer: &Peer<'_, '_, '_, R>,
        buffer: &mut [u8],
    ) -> Turned {
        turn(rt, self.alloc, self.protocol, visit, peer, buffer)
    }

    // A session that ended by itself is fenced already, and is not changed by it.
    fn end<W: Wait>(&self, rt: &W, mut visit: Visit<'b, M, J>) {
        self.protocol.fence(rt, &mut visit.session);
    }
}

impl<
    's,
    'b,
    D: BlockDisk,
    M: MapRule + Send,
    J: Naming + Send,
    P: Protocol<Session = Session<'b, J, M>> + Drop,
    C: ByClient<Protocol = P>,
> Service for VisitsByClient<'s, 'b, D, M, J, C> {
    type Session = Visit<'b, M, J>;

    fn begin<W: Wait>(
        &self,
        rt: &W,
        _may_stop: bool,
        address: Option<IpAddr>,
    ) -> Option<Visit<'b, M, J>> {
        begin(rt, self.journal, &self.next, address)
    }

    fn turn<R: Clock + Wait>(
        &self,
        rt: &R,
        visit: &mut Visit<'b, M, J>,
        peer: &Peer<'_, '_, '_, R>,
        buffer: &mut [u8],
    ) -> Turned {
        let protocol = self.clients.for_client(visit.address);
        turn(rt, self.alloc, &protocol, visit, peer, buffer)
    }

    // A session that ended by itself is fenced already, and is not changed by it.
    fn end<W: Wait>(&self, rt: &W, mut visit: Visit<'b, M, J>) {
        let protocol = self.clients.for_client(visit.address);
        protocol.fence(rt, &mut visit.session);
    }
}

// Begins a connection of a client at this address.
fn begin<'b, D: BlockDisk, M: MapRule, J: Naming, W: Wait>(
    rt: &W,
    journal: &Journal<'b, D, M, J>,
    next: &AtomicU64,
    address: Option<IpAddr>,
) -> Option<Visit<'b, M, J>> {
    let session = journal.session(rt).ok()?;
    let number = next.fetch_add(1, Ordering::SeqCst);
    Some(Visit {
        session,
        number,
        address,
        answered: 0,
    })
}

// Answers a connection for a turn, by a protocol.
fn turn<'b, M: MapRule, J: Naming, P: Protocol<Session = Session<'b, J, M>>, R: Clock + Wait>(
    rt: &R,
    alloc: Global,
    protocol: &P,
    visit: &mut Visit<'b, M, J>,
    peer: &Peer<'_, '_, '_, R>,
    buffer: &mut [u8],
) -> Turned
    requires { 0 < length buffer.old }
{
    let clock = WallClock(rt);
    let answerer = Answerer {
        alloc,
        protocol,
        clock: &clock,
        gate: &OpenGate,
        number: visit.number,
    };
    let progress = serve_to_pause(
        rt,
        &answerer,
        &mut visit.session,
        &Fair(peer),
        &mut Incoming(peer),
        &mut Outgoing(peer),
        buffer,
        &mut visit.answered,
    );
    match progress {
        Ok(Progress::Paused) => Turned::Paused,
        Ok(Progress::Ended(_)) | Err(_) => Turned::Ended,
    }
}
