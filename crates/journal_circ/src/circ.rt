// A circular log on its disk.
ghost use Rattle.std.specs.Prelude.{ℕ, ◌≡◌, ◌<◌, ◌≤◌, ◌+◌, ◌-◌, ◌^◌, slice_get, Some, true, IsTrue, OnOk, OnErr, IfOk, IfErr, IsErr};
ghost use Rattle.journal_world.specs.declared.layout.TheConstants.{FIRST_HOME, LOG_POSITIONS};
ghost use Rattle.journal_disk.specs.Disks.{Keeps};
ghost use Rattle.journal_circ.specs.Ring.{log_of, home_of, IsFault};
ghost use Rattle.journal_circ.specs.Mending.{IsMendable};

use crate::extent::Extent;
use crate::fail_stop::FailStop;
use crate::layout::{home_at, log_block};
use crate::tag::put_back;
use journal_block::Block;
use journal_disk::{BlockDisk, MemDisk};
use journal_world::Refusal;
use std::marker::Model;

pub mod installer;
pub mod logger;
mod mending;
mod opening;
mod seal;

pub use opening::Opened;

/// A disk with its circular log.
///
/// Once the device failed in a step or a read, each step and read answers J6 `DeviceFailed` without
/// a device call. The state that was passed to the failed step is gone. After a failed step each
/// image still stands for one of the contents that it might have stood for during the step. The
/// disk stays here until `into_disk`.
#[derive(Drop)]
pub struct Circ<D: BlockDisk> {
    device: FailStop<D>,
    // Block 0 as the next group has it.
    header: Block,
    // True if block 0 is of the sealed form. Contracts see it (`sealed`), and `IsCirc` ties it to
    // block 0, so that no layer above reads block 0.
    sealed: bool,
    // Of a sealed log, the tag that each log block has as it reads: byte s is the tag of block 2 +
    // s.
    tags: Block,
    // The buffer from which a tagged log block is written, so that no step allocates.
    scratch: Block,
    // Block 1 as it was read, with the last start that was put. So its bytes from 8 on, the label,
    // stay, and a program can say there what the disk is. A whole block, so that no step takes
    // memory.
    start_block: Block,
    extent: Extent,
    // The position that is put next.
    next: u64,
}

impl<D: BlockDisk> Model for Circ<D> {
    ghost use Rattle.journal_circ.specs.Log.{label_of};
    ghost use Rattle.journal_circ.specs.Ring.{Ring};
    ghost use Rattle.journal_circ.specs.Soundness.{IsCirc};

    ghost Value = { Ring };

    ghost view = { λ c. record {
      disk = D.state c.device.disk;
      header = c.header;
      tags = c.tags;
      label = label_of c.start_block;
      sealed = c.sealed;
      extent = c.extent;
      next = c.next;
      faulted = c.device.faulted;
    } };

    ghost invariant = { λ c. IsCirc (record {
      disk = D.state c.device.disk;
      header = c.header;
      tags = c.tags;
      label = label_of c.start_block;
      sealed = c.sealed;
      extent = c.extent;
      next = c.next;
      faulted = c.device.faulted;
    }) };
}

impl<D: BlockDisk> Circ<D> {
    /// Reads a block of the disk, as its last write left it, whatever update the log has of it.
    ///
    /// # Errors
    /// - `J6 DeviceFailed`: the device failed, in this call or before. The content of `into` is not
    ///   specified. The images are as before.
    pub fn read(&mut self, block: u64, into: &mut Block) -> Result<(), Refusal<()>>
        requires { block < self.old.disk.past.size }
        ensures refusal { IfErr result (IsFault self.old.faulted self.old.disk self.new.disk) }
        ensures faulted { IsTrue self.old.faulted → IsErr result × (self.new ≡ self.old) }
        ensures keeps { Keeps self.old.disk self.new.disk }
        ensures same { IsTrue self.old.disk.honest → self.new.disk.past ≡ self.old.disk.past }
        ensures value { IsTrue self.old.disk.honest → OnOk result (into.new ≡ home_of self.old block) }
        ensures ok { OnOk result (self.new ≡ record self.old { disk = self.new.disk }) }
        ensures err { OnErr result (self.new ≡ record self.old { disk = self.new.disk; faulted = true }) }
    {
        self.device.read(block, into)
    }

    // By position, so that a recovery need not know the block of a position.
    /// Reads the log block of a position from the start to the one that is put next, and gives the
    /// number of its home block.
    ///
    /// # Errors
    /// - `J6 DeviceFailed`: the device failed, in this call or before. The content of `into` is not
    ///   specified. The images are as before.
    pub fn read_logged(&mut self, position: u64, into: &mut Block) -> Result<u64, Refusal<()>>
        requires from_start { self.old.extent.start ≤ position }
        requires put { position < self.old.next }
        ensures refusal { IfErr result (IsFault self.old.faulted self.old.disk self.new.disk) }
        ensures faulted { IsTrue self.old.faulted → IsErr result × (self.new ≡ self.old) }
        ensures keeps { Keeps self.old.disk self.new.disk }
        ensures same { IsTrue self.old.disk.honest → self.new.disk.past ≡ self.old.disk.past }
        ensures update { IsTrue self.old.disk.honest → IfOk result (λ block.
            slice_get (log_of self.old) (position - self.old.extent.start) ≡ Some (record { block = block; bytes = into.new })) }
        ensures home { IfOk result (λ block. (FIRST_HOME ≤ block) × (block < self.old.disk.past.size)) }
        ensures ok { OnOk result (self.new ≡ record self.old { disk = self.new.disk }) }
        ensures err { OnErr result (self.new ≡ record self.old { disk = self.new.disk; faulted = true }) }
    {
        self.device.read(log_block(position), into)?;
        put_back(&self.header, position, into);
        Ok(home_at(&self.header, position))
    }

    /// The number of blocks of the disk.
    pub fn size(&self) -> u64
        ensures { result ≡ self.now.disk.past.size }
    {
        self.device.disk.size()
    }

    /// The position where the log begins on the disk, as last synced.
    pub fn start(&self) -> u64
        ensures start { result ≡ self.now.extent.start }
        ensures order { result ≤ self.now.extent.end }
    {
        self.extent.start
    }

    /// The position where the log ends on the disk, as last synced.
    pub fn end(&self) -> u64
        ensures end { result ≡ self.now.extent.end }
        ensures small { result < 2 ^ 62 }
        ensures fits { result ≤ self.now.extent.start + LOG_POSITIONS }
    {
        self.extent.end
    }

    /// The position that is put next.
    pub fn next(&self) -> u64
        ensures { result ≡ self.now.next }
    {
        self.next
    }

    /// True if the log is of the sealed form: a group takes one barrier.
    pub fn is_sealed(&self) -> bool
        ensures { result ≡ self.now.sealed }
    {
        self.sealed
    }

    /// True if a device call failed, so that every step and read answers J6.
    pub fn is_faulted(&self) -> bool
        ensures { result ≡ self.now.faulted }
    {
        self.device.faulted
    }

    /// The disk, lent.
    pub fn disk(&self) -> &D
        ensures { D.state result.now ≡ self.now.disk }
    {
        &self.device.disk
    }

    /// Gives the disk up, with all that is pending on it. It can be mended once a failed barrier, a
    /// kill or a crash has left it, also after a fault.
    pub fn into_disk(self) -> D
        ensures disk { D.state result ≡ self.disk }
        ensures mendable { IsTrue self.disk.honest → IsMendable self.disk.past }
    {
        let Circ { device, .. } = self;
        let FailStop { disk, .. } = device;
        disk
    }
}

impl Circ<MemDisk> {
    /// Makes the `call`-th device call from now on fail, be it a read, a write or a barrier. No
    /// other call fails, whatever an earlier `fail_in` said. At 0 none fails.
    pub fn fail_in(&mut self, call: u64)
        ensures { self.new ≡ self.old }
    {
        self.device.disk.fail_in(call);
    }
}
