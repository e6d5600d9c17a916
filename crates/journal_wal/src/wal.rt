// The write-ahead log, and its facts that take no step.
ghost use Rattle.std.specs.Prelude.{ℕ, ◌≡◌, ◌≤◌, ◌<◌, ◌↔◌, ◌⊎◌, true, false, IsTrue, OnOk, OnErr, IsErr, IfErr};
ghost use Rattle.journal_circ.specs.Ring.{IsFault};
ghost use Rattle.journal_circ.specs.Mending.{IsMendable};
ghost use Rattle.journal_disk.specs.Images.{EveryImage};
ghost use Rattle.journal_wal.specs.Wal.{OnlyReads, Crashes, MayStandFor, size_of, blocks_now, log_steps};

use crate::disk_log::DiskLog;
use journal_block::Block;
use journal_disk::{BlockDisk, MemDisk};
use journal_memlog::MemLog;
use journal_world::Refusal;
use std::alloc::Global;
use std::marker::Model;

/// A write-ahead log over a disk.
///
/// The updates in memory and the log on the disk are apart. A group is taken in memory alone, if
/// the disk has not failed. A read looks into memory first, and then at the disk. The logger and
/// the installer write each log block and each home block from memory, and note the end of a cycle
/// there.
#[derive(Drop)]
pub struct Wal<D: BlockDisk> {
    pub(crate) alloc: Global,
    pub(crate) memory: MemLog,
    pub(crate) on_disk: DiskLog<D>,
}

impl<D: BlockDisk> Model for Wal<D> {
    ghost use Rattle.journal_wal.specs.Wal.{WalState};
    ghost use Rattle.journal_wal.specs.States.{logging_of, installing_of, IsWal};

    ghost Value = { WalState };

    ghost view = { λ w. record {
      ring = w.on_disk.circ;
      log = w.memory;
      logging = logging_of w.on_disk.logger;
      installing = installing_of w.on_disk.installer;
    } };

    ghost invariant = { λ w. IsWal (record {
      ring = w.on_disk.circ;
      log = w.memory;
      logging = logging_of w.on_disk.logger;
      installing = installing_of w.on_disk.installer;
    }) };
}

impl<D: BlockDisk> Wal<D> {
    /// The number of blocks of the disk.
    pub fn size(&self) -> u64
        ensures { result ≡ size_of self.now }
    {
        self.on_disk.circ.size()
    }

    /// The start and the end of the log on the disk, as last synced: positions, of which there are
    /// at most 511.
    pub fn log_range(&self) -> (u64, u64)
        ensures { result ≡ (self.now.log.start, self.now.log.logged) }
    {
        let bounds = self.memory.bounds();
        (bounds.start, bounds.logged)
    }

    /// True if the log on the disk is sealed: a group of k blocks takes k + 2 steps, and k + 3 of a
    /// plain log.
    pub fn is_sealed(&self) -> bool
        ensures { result ≡ self.now.ring.sealed }
    {
        self.on_disk.circ.is_sealed()
    }

    /// True if a device call failed, so that every step, read and group answers J6. A crash leaves
    /// the blocks of the last group whose cycle ended, or those of the last cut.
    pub fn is_faulted(&self) -> bool
        ensures faulted { result ≡ self.now.ring.faulted }
        ensures images { IsTrue self.now.ring.disk.honest → EveryImage self.now.ring.disk.past (MayStandFor self.now) }
    {
        self.on_disk.circ.is_faulted()
    }

    /// True if a group is in flight.
    pub fn is_logging(&self) -> bool
        ensures group { IsTrue result ↔ (self.now.log.logged < self.now.log.cut) }
        ensures steps { self.now.ring.faulted ≡ false → IsTrue result → 0 < log_steps self.now }
        ensures rest { IsTrue result ⊎ ((log_steps self.now ≡ 0) × (self.now.log.logged ≡ self.now.log.cut)) }
    {
        let bounds = self.memory.bounds();
        bounds.logged < bounds.cut
    }

    /// Copies the block with all updates. It is read from the device only if it is not in memory.
    /// The log and the disk's content are as they were, whatever it answers.
    ///
    /// # Errors
    /// - `J6 DeviceFailed`: the device failed, now or before. The content of `into` is not
    ///   specified.
    pub fn read(&mut self, block: u64, into: &mut Block) -> Result<(), Refusal<()>>
        requires { block < size_of self.old }
        ensures refusal { IfErr result (IsFault self.old.ring.faulted self.old.ring.disk self.new.ring.disk) }
        ensures faulted { IsTrue self.old.ring.faulted → IsErr result × (self.new ≡ self.old) }
        ensures reads { OnlyReads self.old self.new }
        ensures ok { OnOk result ((self.old.ring.faulted ≡ false) × (self.new.ring.faulted ≡ false)) }
        ensures err { OnErr result (self.new.ring.faulted ≡ true) }
        ensures value { IsTrue self.old.ring.disk.honest → OnOk result (into.new ≡ blocks_now self.old block) }
        ensures crash { Crashes self.old self.new }
    {
        if self.on_disk.circ.is_faulted() {
            return Err(Refusal::DeviceFailed(()));
        }
        if let Some(found) = self.memory.latest(block) {
            into.copy_from(found);
            return Ok(());
        }
        self.on_disk.circ.read(block, into)
    }

    /// The disk, lent.
    pub fn disk(&self) -> &D
        ensures { D.state result.now ≡ self.now.ring.disk }
    {
        self.on_disk.circ.disk()
    }

    /// Gives the disk up, as it is. It can be mended once a failed barrier, a kill or a crash has
    /// left it, also after a fault.
    pub fn into_disk(self) -> D
        ensures disk { D.state result ≡ self.ring.disk }
        ensures mendable { IsTrue self.ring.disk.honest → IsMendable self.ring.disk.past }
    {
        let Wal {
            alloc: _,
            memory: _,
            on_disk,
        } = self;
        let DiskLog {
            circ,
            logger: _,
            installer: _,
        } = on_disk;
        circ.into_disk()
    }
}

impl Wal<MemDisk> {
    /// Makes the k-th device call from now on fail.
    pub fn fail_in(&mut self, k: u64)
        ensures { self.new ≡ self.old }
    {
        self.on_disk.circ.fail_in(k);
    }
}
