// A disk whose syncs and groups are counted.
ghost use Rattle.std.specs.Prelude.{◌≡◌};

use crate::counts::{DiskCounts, micros};
use journal_block::Block;
use journal_disk::{BlockDisk, DiskFault};
use journal_world::FIRST_HOME;
use std::time::Clock;

// The block that is written last of each group of the log, and once.
const LAST_OF_GROUP: u64 = 0;

// The first of the blocks of the log. Those from FIRST_HOME on are not of it.
const FIRST_OF_LOG: u64 = 2;

// How far the group has come that is written now, and when its first block was written, in
// microseconds of the clock.
#[derive(Clone, Copy)]
enum Group {
    // Nothing of one is written that is not synced.
    None,
    // Some of its blocks are written.
    Begun(u64),
    // All of them are.
    Written(u64),
}

/// A disk that counts its syncs and the groups of its log, and how long they take. As a disk it is
/// the one that it has.
pub struct CountedDisk<'c, D: BlockDisk, R> {
    disk: D,
    counts: &'c DiskCounts,
    rt: &'c R,
    group: Group,
}

impl<'c, D: BlockDisk + Drop, R> Drop for CountedDisk<'c, D, R> {
    fn drop(self) {
        let CountedDisk {
            disk: _,
            counts: _,
            rt: _,
            group: _,
        } = self;
    }
}

impl<'c, D: BlockDisk, R> CountedDisk<'c, D, R> {
    /// The disk, whose syncs are counted from now on.
    pub fn over(rt: &'c R, disk: D, counts: &'c DiskCounts) -> CountedDisk<'c, D, R>
        ensures { result.disk ≡ disk }
    {
        CountedDisk {
            disk,
            counts,
            rt,
            group: Group::None,
        }
    }

    /// The disk itself, whose syncs are not counted from then on.
    pub fn into_inner(self) -> D
        ensures { result ≡ self.entry.disk }
    {
        let CountedDisk {
            disk,
            counts: _,
            rt: _,
            group: _,
        } = self;
        disk
    }
}

impl<'c, D: BlockDisk, R: Clock> BlockDisk for CountedDisk<'c, D, R> {
    ghost state = { λ counted. D.state counted.disk };

    fn size(&self) -> u64 {
        self.disk.size()
    }

    fn failures(&self) -> u64 {
        self.disk.failures()
    }

    fn read(&mut self, block: u64, into: &mut Block) -> Result<(), DiskFault> {
        self.disk.read(block, into)
    }

    fn write(&mut self, block: u64, from: &Block) -> Result<(), DiskFault> {
        if block < FIRST_HOME && self.counts.has_opened() {
            self.group = group_after(self.group, block, self.rt);
        }
        self.disk.write(block, from)
    }

    fn barrier(&mut self) -> Result<(), DiskFault> {
        let begun = micros(self.rt);
        let synced = self.disk.barrier();
        let ended = micros(self.rt);
        if let (Some(begun), Some(ended)) = (begun, ended) {
            self.counts.syncs.add(ended.saturating_sub(begun));
        }
        if let (Group::Written(begun), Some(ended), Ok(())) = (self.group, ended, &synced) {
            self.counts.groups.add(ended.saturating_sub(begun));
            self.group = Group::None;
        }
        synced
    }
}

// How far the group has come once this block below FIRST_HOME is written. The clock is read at its
// first block alone. Where it cannot be read, the group is not counted.
fn group_after<R: Clock>(group: Group, block: u64, rt: &R) -> Group {
    match group {
        Group::Begun(begun) if block == LAST_OF_GROUP => Group::Written(begun),
        Group::None if block == LAST_OF_GROUP => micros(rt).map_or(Group::None, Group::Written),
        Group::None if block >= FIRST_OF_LOG => micros(rt).map_or(Group::None, Group::Begun),
        other => other,
    }
}
