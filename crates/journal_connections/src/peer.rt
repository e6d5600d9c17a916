// A connection that is served, and how long its peer is waited for.
ghost use Rattle.std.specs.Io.{ReadsAtMost, WritesAtMost};

use crate::clock::millis;
use crate::connection::TURN_MILLIS;
use crate::counts::LaneCount;
use crate::load::Load;
use std::io;
use std::io::{ErrorKind, Read, Write};
use std::net::TcpStream;
use std::sync::Wait;
use std::sync::atomic::{AtomicBool, AtomicU64, Ordering};
use std::time::Clock;

// For so many milliseconds a peer may bring no record to its end and take no byte of an answer, and
// for so many where others wait, or the service has ended.
pub(crate) const MILLIS_ALONE: u64 = 300_000;

pub(crate) const MILLIS_IN_CROWD: u64 = 5_000;

// A record of which no more has come needs no room for a long one.
const SHORT_RECORD_BYTES: usize = 131_072;

/// A connection that a worker serves. Its calls fail once the peer has brought no record to its end
/// and has taken no byte of an answer for five minutes, or for five seconds where others wait. Once
/// the service has ended nothing more is taken from the peer, and it has five seconds to take its
/// answers.
pub struct Peer<'c, 'l, 'r, R: Clock + Wait> {
    stream: &'c TcpStream,
    load: &'l Load,
    rt: &'r R,
    // The number of the worker.
    worker: usize,
    // When a worker took it, or the peer last took a byte of an answer, in milliseconds of the
    // clock. Each record has an answer, so this is also the time of the last record. A peer that
    // sends a byte now and then gains nothing by it.
    since: AtomicU64,
    // How many calls have timed out since then: what counts where the clock cannot be read.
    turns: AtomicU64,
    // Whether anything was read in this turn.
    has_read: AtomicBool,
    // Whether it has room for a long record.
    has_room: AtomicBool,
}

impl<'c, 'l, 'r, R: Clock + Wait> Drop for Peer<'c, 'l, 'r, R> {
    fn drop(self) {
        let Peer {
            stream: _,
            load: _,
            rt: _,
            worker: _,
            since: _,
            turns: _,
            has_read: _,
            has_room: _,
        } = self;
    }
}

impl<'c, 'l, 'r, R: Clock + Wait> Peer<'c, 'l, 'r, R> {
    // A connection that a worker has just taken.
    pub(crate) fn new(
        rt: &'r R,
        load: &'l Load,
        stream: &'c TcpStream,
        worker: usize,
    ) -> Peer<'c, 'l, 'r, R> {
        Peer {
            stream,
            load,
            rt,
            worker,
            since: AtomicU64::new(millis(rt)),
            turns: AtomicU64::new(0),
            has_read: AtomicBool::new(false),
            has_room: AtomicBool::new(false),
        }
    }

    /// The number of the worker that serves the connection, from 0.
    pub fn worker(&self) -> usize {
        self.worker
    }

    /// True if the connection is to pause now, so that its worker serves others. Asked where no
    /// record is begun and no answer owed. The first time it is false: something has come.
    pub fn is_to_pause(&self) -> bool {
        self.has_read.swap(true, Ordering::SeqCst)
            && self.load.is_to_pause()
            && !self.load.has_ended()
    }

    /// Called before more is read, with the number of bytes that have come of a record that has
    /// begun. Where they are many, it waits until there is room for a long record. The connection
    /// that has waited longest has room first.
    pub fn note_begun(&self, bytes: usize) {
        let is_long = bytes > SHORT_RECORD_BYTES;
        if is_long == self.has_room.load(Ordering::SeqCst) {
            return;
        }
        if !is_long {
            self.give_room_back();
            return;
        }
        self.load.begin_wait_for_room();
        let has_room = self.load.records.take(self.rt, self.load);
        self.load.end_wait_for_room();
        self.has_room.store(has_room, Ordering::SeqCst);
        self.begin_anew();
    }

    // Gives the room for a long record back, where it has any.
    pub(crate) fn give_room_back(&self) {
        if self.has_room.swap(false, Ordering::SeqCst) {
            self.load.records.give_back(self.rt);
        }
    }

    // The peer has done something that counts.
    fn begin_anew(&self) {
        self.since.store(millis(self.rt), Ordering::SeqCst);
        self.turns.store(0, Ordering::SeqCst);
    }

    // True if the peer is waited for no longer.
    fn is_over(&self) -> bool {
        let since = self.since.load(Ordering::SeqCst);
        let by_clock = millis(self.rt).saturating_sub(since);
        let turns = self.turns.load(Ordering::SeqCst);
        let waited = by_clock.max(turns.saturating_mul(TURN_MILLIS));
        if waited >= MILLIS_ALONE {
            return true;
        }
        if waited < MILLIS_IN_CROWD {
            return false;
        }
        let is_crowded = self.load.has_waiting();
        if is_crowded {
            self.load.counts.crowded_out.add(1);
        }
        is_crowded || self.load.has_ended()
    }

    // Takes bytes from the peer: none where it sends no more, or where the service has ended. Where
    // nothing comes for a while it answers `WouldBlock`.
    fn receive(&self, into: &mut [u8]) -> io::Result<usize>
        ensures { ReadsAtMost result into.new }
    {
        if self.load.has_ended() {
            return Ok(0);
        }
        if self.is_over() {
            return Err(ErrorKind::TimedOut.into());
        }
        let mut stream = self.stream;
        let received = stream.read(into);
        if has_timed_out(&received) {
            self.turns.fetch_add(1, Ordering::SeqCst);
        }
        self.count_bytes(&self.load.counts.received, &received);
        received
    }

    // Gives bytes to the peer.
    fn send(&self, from: &[u8]) -> io::Result<usize>
        ensures { WritesAtMost result from.now }
    {
        let mut stream = self.stream;
        for _ in 0..MILLIS_ALONE {
            if self.is_over() {
                return Err(ErrorKind::TimedOut.into());
            }
            let sent = stream.write(from);
            if !has_timed_out(&sent) {
                self.begin_anew();
                self.count_bytes(&self.load.counts.sent, &sent);
                return sent;
            }
            self.turns.fetch_add(1, Ordering::SeqCst);
        }
        Err(ErrorKind::TimedOut.into())
    }

    // Counts the bytes of a call, where it has taken or given any.
    fn count_bytes(&self, count: &LaneCount, call: &io::Result<usize>) {
        if let Ok(bytes) = call {
            count.add(self.worker, *bytes as u64);
        }
    }
}

/// The bytes that come from the peer.
pub struct Incoming<'p, 'c, 'l, 'r, R: Clock + Wait>(pub &'p Peer<'c, 'l, 'r, R>);

/// The bytes that go to the peer.
pub struct Outgoing<'p, 'c, 'l, 'r, R: Clock + Wait>(pub &'p Peer<'c, 'l, 'r, R>);

impl<'p, 'c, 'l, 'r, R: Clock + Wait> Drop for Incoming<'p, 'c, 'l, 'r, R> {
    fn drop(self) {
        let Incoming(_) = self;
    }
}

impl<'p, 'c, 'l, 'r, R: Clock + Wait> Drop for Outgoing<'p, 'c, 'l, 'r, R> {
    fn drop(self) {
        let Outgoing(_) = self;
    }
}

impl<'p, 'c, 'l, 'r, R: Clock + Wait> Read for Incoming<'p, 'c, 'l, 'r, R> {
    fn read(&mut self, buffer: &mut [u8]) -> io::Result<usize> {
        self.0.receive(buffer)
    }
}

impl<'p, 'c, 'l, 'r, R: Clock + Wait> Write for Outgoing<'p, 'c, 'l, 'r, R> {
    fn write(&mut self, bytes: &[u8]) -> io::Result<usize> {
        self.0.send(bytes)
    }

    fn flush(&mut self) -> io::Result<()> {
        Ok(())
    }
}

// Whether a call has timed out.
fn has_timed_out(call: &io::Result<usize>) -> bool {
    match call {
        Ok(_) => false,
        Err(e) => e.kind() == ErrorKind::WouldBlock,
    }
}
