// The counts of a service.

use crate::working::OpenDisk;
use journal_connections::{Count, LaneCount, Load};
use journal_disk::BlockDisk;
use journal_history::Naming;
use journal_port::Counting;
use journal_records::{Answer, Counter, Refused};
use journal_world::LOG_POSITIONS;
use std::alloc::{AllocError, Global};
use std::sync::Wait;
use std::sync::atomic::{AtomicBool, Ordering};
use std::time::Clock;

// How many classes of lengths of time there are. Class k has those of at least 2^k microseconds,
// but for class 0, and below 2^(k + 1), but for the last.
const CLASSES: usize = 32;

// The name of the counter of class 0 of the syncs, and of that of the groups. The others follow.
const FIRST_SYNC_CLASS: u32 = 64;

const FIRST_GROUP_CLASS: u32 = 96;

/// Counts of a kind of work that takes time.
#[derive(Drop)]
pub struct LengthCounts {
    // How often it was done.
    times: Count,
    // How many microseconds all of it took.
    micros: Count,
    // How often it took a length of each class.
    classes: Vec<Count>,
}

impl LengthCounts {
    /// The counts of work that was not done yet.
    ///
    /// # Errors
    ///
    /// Where memory is refused.
    pub fn new(alloc: Global) -> Result<LengthCounts, AllocError> {
        let mut classes = Vec::new(alloc);
        for _ in 0..CLASSES {
            classes.push(Count::new())?;
        }
        Ok(LengthCounts {
            times: Count::new(),
            micros: Count::new(),
            classes,
        })
    }

    /// Counts that it was done once, in as many microseconds.
    pub fn add(&self, micros: u64) {
        self.times.add(1);
        self.micros.add(micros);
        if let Some(class) = self.classes.get(class_of(micros)) {
            class.add(1);
        }
    }
}

// The class of as many microseconds.
fn class_of(micros: u64) -> usize {
    let bits = 64 - (micros | 1).leading_zeros();
    (bits as usize).saturating_sub(1).min(CLASSES - 1)
}

/// Counts of the calls of a disk.
#[derive(Drop)]
pub struct DiskCounts {
    /// The syncs.
    pub syncs: LengthCounts,
    /// The groups of its log, each from its first write to the end of the sync after its last one.
    pub groups: LengthCounts,
    has_opened: AtomicBool,
}

impl DiskCounts {
    /// The counts of a disk that is not opened yet.
    ///
    /// # Errors
    ///
    /// Where memory is refused.
    pub fn new(alloc: Global) -> Result<DiskCounts, AllocError> {
        Ok(DiskCounts {
            syncs: LengthCounts::new(alloc)?,
            groups: LengthCounts::new(alloc)?,
            has_opened: AtomicBool::new(false),
        })
    }

    /// From now on groups are counted: what an opening writes of the log is none.
    pub fn note_opened(&self) {
        self.has_opened.store(true, Ordering::SeqCst);
    }

    /// True if the disk was opened.
    pub fn has_opened(&self) -> bool {
        self.has_opened.load(Ordering::SeqCst)
    }
}

/// Counts of the answers of a service.
#[derive(Drop)]
pub struct AnswerCounts {
    /// The answers.
    pub answers: LaneCount,
    /// Those that say that a compared value was another.
    pub conflicts: Count,
}

impl AnswerCounts {
    /// The counts of a service that has answered nothing, by as many workers.
    ///
    /// # Errors
    /// - Memory is refused.
    pub fn new(alloc: Global, workers: u64) -> Result<AnswerCounts, AllocError> {
        Ok(AnswerCounts {
            answers: LaneCount::new(alloc, workers)?,
            conflicts: Count::new(),
        })
    }
}

/// The numbers of a service, as a client is told them.
pub struct Figures<'s, 'j, 'b, D: BlockDisk, J: Naming, R> {
    /// The runtime, whose clock is read.
    pub rt: &'s R,
    /// The disk that is served.
    pub disk: &'s OpenDisk<'j, 'b, D, J>,
    /// The counts of the answers.
    pub answers: &'s AnswerCounts,
    /// The connections.
    pub load: &'s Load,
    /// The number of the worker that serves the client.
    pub worker: usize,
}

impl<'s, 'j, 'b, D: BlockDisk, J: Naming, R> Drop for Figures<'s, 'j, 'b, D, J, R> {
    fn drop(self) {
        let Figures {
            rt: _,
            disk: _,
            answers: _,
            load: _,
            worker: _,
        } = self;
    }
}

impl<'s, 'j, 'b, D: BlockDisk, J: Naming, R: Clock + Wait> Counting
    for Figures<'s, 'j, 'b, D, J, R> {
    ghost tells = { λ _ _. Unit {0} };

    fn counters(&self, alloc: Global) -> Result<Vec<Counter>, AllocError> {
        let mut counters = Vec::new(alloc);
        self.add_log(&mut counters)?;
        self.add_connections(&mut counters)?;
        self.add_disk(&mut counters)?;
        Ok(counters)
    }

    fn note(&self, told: &Answer) {
        self.answers.answers.add(self.worker, 1);
        if matches!(told, Answer::Refused(Refused::Conflict)) {
            self.answers.conflicts.add(1);
        }
    }
}

impl<'s, 'j, 'b, D: BlockDisk, J: Naming, R: Clock + Wait> Figures<'s, 'j, 'b, D, J, R> {
    // Adds those of the log. The mark is at most the number of commits, and the start at most the
    // end.
    fn add_log(&self, counters: &mut Vec<Counter>) -> Result<(), AllocError> {
        let stat = self.disk.journal.stat(self.rt);
        add(counters, 1, stat.commits)?;
        add(counters, 2, stat.floor)?;
        add(counters, 5, stat.end.saturating_sub(stat.start))?;
        add(counters, 6, LOG_POSITIONS)?;
        add(counters, 7, self.disk.journal.room_waits())
    }

    // Adds those of the connections, and the seconds since the opening where the clock can be read.
    fn add_connections(&self, counters: &mut Vec<Counter>) -> Result<(), AllocError> {
        let counts = &self.load.counts;
        add(counters, 8, self.answers.conflicts.value())?;
        add(counters, 9, self.answers.answers.value())?;
        add(counters, 10, counts.open.value())?;
        add(counters, 11, counts.ready.value())?;
        add(counters, 12, counts.taken.value())?;
        add(counters, 13, counts.crowded_out.value())?;
        add(counters, 14, counts.received.value())?;
        add(counters, 15, counts.sent.value())?;
        match (micros(self.rt), self.disk.opened_at) {
            (Some(now), Some(opened)) => add(counters, 16, now.saturating_sub(opened) / 1_000_000),
            _ => Ok(()),
        }
    }

    // Adds those of the disk.
    fn add_disk(&self, counters: &mut Vec<Counter>) -> Result<(), AllocError> {
        let DiskCounts {
            syncs,
            groups,
            has_opened: _,
        } = self.disk.counts;
        add(counters, 3, groups.times.value())?;
        add(counters, 4, syncs.times.value())?;
        add(counters, 17, syncs.micros.value())?;
        add(counters, 18, groups.micros.value())?;
        add_classes(counters, FIRST_SYNC_CLASS, syncs)?;
        add_classes(counters, FIRST_GROUP_CLASS, groups)
    }
}

// Adds those of classes of lengths, of which the first has this name.
fn add_classes(
    counters: &mut Vec<Counter>,
    first: u32,
    lengths: &LengthCounts,
) -> Result<(), AllocError> {
    let mut name = first;
    for class in lengths.classes.iter() {
        add(counters, name, class.value())?;
        name = name.saturating_add(1);
    }
    Ok(())
}

fn add(counters: &mut Vec<Counter>, name: u32, value: u64) -> Result<(), AllocError> {
    counters.push(Counter { name, value })?;
    Ok(())
}

/// The time of the clock in microseconds, or `None` where it cannot be read.
pub fn micros<R: Clock>(rt: &R) -> Option<u64> {
    let time = rt.monotonic().ok()?;
    Some(
        time.as_secs()
            .saturating_mul(1_000_000)
            .saturating_add(u64::from(time.subsec_micros())),
    )
}
