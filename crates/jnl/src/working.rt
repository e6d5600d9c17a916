// A disk that is served, and what its connections are answered.
ghost use Rattle.std.specs.Prelude.{◌≡◌};
ghost use Rattle.journal_world.specs.Files.{shape};

use crate::counts::{AnswerCounts, DiskCounts, Figures};
use journal_connections::{Ending, Incoming, Load, Outgoing, Peer, Service, Turned};
use journal_disk::BlockDisk;
use journal_history::{Naming, Session};
use journal_port::{Counting, End, Pace, Port, Progress, Rights, Terms, serve_to_pause};
use journal_twophase::Journal;
use journal_world::{AnyMap, Layout};
use std::alloc::Global;
use std::net::IpAddr;
use std::sync::Wait;
use std::thread;
use std::time::{Clock, Duration};

// How many milliseconds a service goes on after its device has failed.
const LAST_MILLIS: u64 = 250;

/// A journal that admits every map.
pub type OpenJournal<'b, D, J> = Journal<'b, D, AnyMap, J>;

/// The disk that is served.
pub struct OpenDisk<'j, 'b, D: BlockDisk, J: Naming> {
    /// The allocator.
    pub alloc: Global,
    /// The journal.
    pub journal: &'j OpenJournal<'b, D, J>,
    /// The layout by which it was opened.
    pub layout: Layout,
    /// The number of the opening.
    pub number: u64,
    /// When it was opened, in microseconds of the clock, where this could be read.
    pub opened_at: Option<u64>,
    /// The counts of the calls of its disk.
    pub counts: &'j DiskCounts,
    /// Whether transactions may write.
    pub may_write: bool,
    pub ghost is_its_layout: { shape layout ≡ J.layout },
}

impl<'j, 'b, D: BlockDisk, J: Naming> Drop for OpenDisk<'j, 'b, D, J> {
    fn drop(self) {
        let OpenDisk {
            alloc: _,
            journal: _,
            layout: _,
            number: _,
            opened_at: _,
            counts: _,
            may_write: _,
        } = self;
    }
}

/// The answers to requests, as what connections are answered by.
pub struct Answering<'s, 'j, 'b, D: BlockDisk, J: Naming> {
    /// The disk that is served.
    pub disk: &'s OpenDisk<'j, 'b, D, J>,
    /// The counts of the answers.
    pub answers: &'s AnswerCounts,
    /// The connections.
    pub load: &'s Load,
}

impl<'s, 'j, 'b, D: BlockDisk, J: Naming> Drop for Answering<'s, 'j, 'b, D, J> {
    fn drop(self) {
        let Answering {
            disk: _,
            answers: _,
            load: _,
        } = self;
    }
}

/// A connection's session with the journal, whether its peer may end the service, and how many
/// requests were answered.
pub struct Visit<'b, J: Naming> {
    session: Session<'b, J, AnyMap>,
    may_stop: bool,
    answered: u64,
}

impl<'b, J: Naming> Drop for Visit<'b, J> {
    fn drop(self) {
        let Visit {
            session: _,
            may_stop: _,
            answered: _,
        } = self;
    }
}

// That a connection pauses where its worker is to serve others.
struct Fair<'p, 'c, 'l, 'r, R: Clock + Wait>(&'p Peer<'c, 'l, 'r, R>);

impl<'p, 'c, 'l, 'r, R: Clock + Wait> Drop for Fair<'p, 'c, 'l, 'r, R> {
    fn drop(self) {
        let Fair(_) = self;
    }
}

impl<'p, 'c, 'l, 'r, R: Clock + Wait> Pace for Fair<'p, 'c, 'l, 'r, R> {
    fn is_to_pause(&self) -> bool {
        self.0.is_to_pause()
    }

    fn note_begun(&self, bytes: usize) {
        self.0.note_begun(bytes);
    }
}

impl<'s, 'j, 'b, D: BlockDisk, J: Naming + Send> Service for Answering<'s, 'j, 'b, D, J> {
    type Session = Visit<'b, J>;

    fn begin<W: Wait>(
        &self,
        rt: &W,
        may_stop: bool,
        _address: Option<IpAddr>,
    ) -> Option<Visit<'b, J>> {
        let session = self.disk.journal.session(rt).ok()?;
        Some(Visit {
            session,
            may_stop,
            answered: 0,
        })
    }

    fn turn<R: Clock + Wait>(
        &self,
        rt: &R,
        visit: &mut Visit<'b, J>,
        peer: &Peer<'_, '_, '_, R>,
        buffer: &mut [u8],
    ) -> Turned {
        let figures = self.figures(rt, peer.worker());
        let port = self.port(&figures, visit.may_stop);
        let progress = serve_to_pause(
            rt,
            &port,
            &mut visit.session,
            &Fair(peer),
            &mut Incoming(peer),
            &mut Outgoing(peer),
            buffer,
            &mut visit.answered,
        );
        match progress {
            Ok(Progress::Paused) => Turned::Paused,
            Ok(Progress::Ended(served)) if served.end == End::Stopped => Turned::Stopped,
            Ok(Progress::Ended(_)) | Err(_) => Turned::Ended,
        }
    }

    // A session that ended by itself is fenced already, and is not changed by it.
    fn end<W: Wait>(&self, rt: &W, mut visit: Visit<'b, J>) {
        let own = visit.session.number();
        let _ = self.disk.journal.fence(rt, &mut visit.session, own);
    }
}

impl<'s, 'j, 'b, D: BlockDisk, J: Naming> Answering<'s, 'j, 'b, D, J> {
    // The numbers that a client is told.
    fn figures<'x, R>(&'x self, rt: &'x R, worker: usize) -> Figures<'x, 'j, 'b, D, J, R> {
        Figures {
            rt,
            disk: self.disk,
            answers: self.answers,
            load: self.load,
            worker,
        }
    }

    // The port by which the requests of a connection are answered.
    fn port<'x, C: Counting>(&'x self, counting: &'x C, may_stop: bool) -> Port<'x, 'b, D, J, C> {
        let disk = self.disk;
        Port {
            alloc: disk.alloc,
            journal: disk.journal,
            counting,
            terms: Terms {
                layout: disk.layout,
                number: disk.number,
                rights: Rights {
                    may_stop,
                    may_write: disk.may_write,
                },
            },
        }
    }
}

/// Ends the service because its device has failed, unless it has ended. A moment before, each
/// request is still answered, by J6.
pub fn fail<R: Clock + Wait>(rt: &R, ending: &Ending<'_>) {
    if ending.has_ended() {
        return;
    }
    thread::sleep(rt, Duration::from_millis(LAST_MILLIS));
    ending.end();
}
