// The counts of connections.

use std::alloc::{AllocError, Global};
use std::sync::atomic::{AtomicU64, Ordering};

// As many words as keep two counts on lines of memory of their own.
const PADDING_WORDS: usize = 15;

/// A number that threads count.
#[derive(Drop)]
pub struct Count(AtomicU64);

impl Count {
    /// Nothing was counted.
    pub fn new() -> Count {
        Count(AtomicU64::new(0))
    }

    /// The count.
    pub fn value(&self) -> u64 {
        self.0.load(Ordering::SeqCst)
    }

    /// Counts so many more.
    pub fn add(&self, more: u64) {
        self.0.fetch_add(more, Ordering::SeqCst);
    }

    // Counts one more, and answers what was counted before.
    pub(crate) fn next(&self) -> u64 {
        self.0.fetch_add(1, Ordering::SeqCst)
    }

    /// Counts one less.
    pub fn take(&self) {
        self.0.fetch_sub(1, Ordering::SeqCst);
    }
}

// The count of one worker.
#[derive(Drop)]
struct Lane {
    // Keeps the count on a line of memory of its own: another processor that counts takes the line.
    _padding: [u64; PADDING_WORDS],
    count: Count,
}

/// A number to which each worker adds in a lane of its own, because all add to it at each request.
#[derive(Drop)]
pub struct LaneCount {
    lanes: Vec<Lane>,
}

impl LaneCount {
    /// Nothing was counted, by as many workers.
    ///
    /// # Errors
    ///
    /// Where memory is refused.
    pub fn new(alloc: Global, workers: u64) -> Result<LaneCount, AllocError> {
        let mut lanes = Vec::new(alloc);
        for _ in 0..workers {
            lanes.push(Lane {
                _padding: [0; PADDING_WORDS],
                count: Count::new(),
            })?;
        }
        Ok(LaneCount { lanes })
    }

    /// The sum of all workers.
    pub fn value(&self) -> u64 {
        let mut counted: u64 = 0;
        for lane in self.lanes.iter() {
            counted = counted.saturating_add(lane.count.value());
        }
        counted
    }

    /// The worker of this number, from 0, counts so many more.
    pub fn add(&self, worker: usize, more: u64) {
        if let Some(lane) = self.lanes.get(worker) {
            lane.count.add(more);
        }
    }
}

/// The counts of the connections of a service.
#[derive(Drop)]
pub struct ConnectionCounts {
    /// The connections that are open now.
    pub open: Count,
    /// Of these, those that have something to read and wait for a worker.
    pub ready: Count,
    /// The connections that were accepted.
    pub taken: Count,
    /// Those that were ended because others waited.
    pub crowded_out: Count,
    /// The connections that were not taken, because their addresses are not allowed.
    pub refused: Count,
    /// The bytes that came.
    pub received: LaneCount,
    /// The bytes that were sent.
    pub sent: LaneCount,
}

impl ConnectionCounts {
    /// Of a service that has no connection yet, and as many workers.
    ///
    /// # Errors
    ///
    /// Where memory is refused.
    pub fn new(alloc: Global, workers: u64) -> Result<ConnectionCounts, AllocError> {
        Ok(ConnectionCounts {
            open: Count::new(),
            ready: Count::new(),
            taken: Count::new(),
            crowded_out: Count::new(),
            refused: Count::new(),
            received: LaneCount::new(alloc, workers)?,
            sent: LaneCount::new(alloc, workers)?,
        })
    }
}
