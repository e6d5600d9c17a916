// How many connections there are beside the workers, and whether the service has ended.

use crate::counts::{ConnectionCounts, Count};
use crate::record_room::RecordRoom;
use std::alloc::{AllocError, Global};
use std::sync::atomic::{AtomicBool, AtomicU64, Ordering};

// The number of no connection.
const NO_NUMBER: u64 = u64::MAX;

// How many milliseconds a visitor has where another connection waits, even if it goes on asking.
const VISIT_MILLIS: u64 = 500;

/// How many workers serve connections, and how many connections are open at most.
#[derive(Clone, Copy, Debug, PartialEq, Eq)]
pub struct PoolSize {
    /// The workers, at least one.
    pub workers: u64,
    /// The connections, at least one. One more is admitted as a visitor, which is ended where
    /// another one comes. Further ones wait with the system.
    pub connections: u64,
}

/// The numbers of connections, which all threads of a service know without a lock.
#[derive(Drop)]
pub struct Load {
    /// The counts.
    pub counts: ConnectionCounts,
    pub(crate) size: PoolSize,
    // Workers that wait for a connection.
    free: Count,
    // Connections that were accepted and wait for a place.
    knocking: Count,
    // Connections that wait for room for a long record.
    waiting: Count,
    // The number of the one that was last admitted above the limit, and when that was, in
    // milliseconds of the clock.
    visitor: AtomicU64,
    visit_began: AtomicU64,
    // Room for long records.
    pub(crate) records: RecordRoom,
    has_ended: AtomicBool,
}

impl Load {
    /// Of a service that has no connection yet.
    ///
    /// # Errors
    ///
    /// Where memory is refused.
    pub fn new(alloc: Global, size: PoolSize) -> Result<Load, AllocError> {
        Ok(Load {
            counts: ConnectionCounts::new(alloc, size.workers)?,
            size,
            free: Count::new(),
            knocking: Count::new(),
            waiting: Count::new(),
            visitor: AtomicU64::new(NO_NUMBER),
            visit_began: AtomicU64::new(0),
            records: RecordRoom::new(),
            has_ended: AtomicBool::new(false),
        })
    }

    /// True if the service has ended.
    pub fn has_ended(&self) -> bool {
        self.has_ended.load(Ordering::SeqCst)
    }

    // Ends the service.
    pub(crate) fn end(&self) {
        self.has_ended.store(true, Ordering::SeqCst);
    }

    // True if there are more connections than workers.
    pub(crate) fn is_crowded(&self) -> bool {
        self.counts.open.value() > self.size.workers
    }

    // True if a visitor is open: one connection above the limit.
    fn has_visitor(&self) -> bool {
        self.counts.open.value() > self.size.connections
    }

    // Takes a place for one more connection at this moment, and answers its number. Where as many
    // are open as may be it is a visitor, and one that was a visitor before is none any more.
    // `None` says that a visitor is open too. It counts before it looks, because another listener
    // may take the last place in between.
    pub(crate) fn take_place(&self, now: u64) -> Option<u64> {
        if self.has_visitor() {
            return None;
        }
        let others = self.counts.open.next();
        if others > self.size.connections {
            self.counts.open.take();
            return None;
        }
        let number = self.counts.taken.next();
        if others == self.size.connections {
            self.visit_began.store(now, Ordering::SeqCst);
            self.visitor.store(number, Ordering::SeqCst);
        }
        Some(number)
    }

    // True if the connection of this number is the visitor.
    pub(crate) fn is_visitor(&self, number: u64) -> bool {
        self.has_visitor() && number == self.visitor.load(Ordering::SeqCst)
    }

    // True if the connection of this number, which pauses at this moment, is to leave: it is the
    // visitor, has been here for long enough, and another one waits for a place.
    pub(crate) fn is_to_leave(&self, number: u64, now: u64) -> bool {
        let visited = now.saturating_sub(self.visit_began.load(Ordering::SeqCst));
        self.knocking.value() > 0 && self.is_visitor(number) && visited >= VISIT_MILLIS
    }

    // True if a connection waits for a worker, for a place, or for room for its record.
    pub(crate) fn has_waiting(&self) -> bool {
        self.counts.ready.value() > 0 || self.knocking.value() > 0 || self.waiting.value() > 0
    }

    // True if a worker that has served its connection is to serve others now. As long as half of
    // the workers are free a worker stays: a request that comes then is read at once.
    pub(crate) fn is_to_pause(&self) -> bool {
        self.is_crowded()
            && (self.has_waiting() || self.free.value() < self.size.workers.div_ceil(2))
    }

    // A worker waits for a connection.
    pub(crate) fn begin_wait(&self) {
        self.free.add(1);
    }

    // It waits no longer.
    pub(crate) fn end_wait(&self) {
        self.free.take();
    }

    // A connection that was accepted waits for a place.
    pub(crate) fn begin_knock(&self) {
        self.knocking.add(1);
    }

    // It waits no longer.
    pub(crate) fn end_knock(&self) {
        self.knocking.take();
    }

    // A connection waits for room for a long record.
    pub(crate) fn begin_wait_for_room(&self) {
        self.waiting.add(1);
    }

    // It waits no longer.
    pub(crate) fn end_wait_for_room(&self) {
        self.waiting.take();
    }
}
