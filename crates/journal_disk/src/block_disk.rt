// A disk as the layers above see it.
ghost use Rattle.std.specs.Prelude.{ℕ, ◌≡◌, ◌<◌, IsTrue, OnOk, OnErr};
ghost use Rattle.journal_block.specs.Block.{Bytes};
ghost use Rattle.journal_disk.specs.Disks.{Past, DiskState, write, barrier, read_of, past_after, MayHaveHappened, Keeps, HasFailed};
ghost use Rattle.journal_disk.specs.Images.{IsImage, IsOldOrWritten, reading};
ghost use Rattle.journal_disk.specs.Moments.{LeavesOnly};
ghost use Rattle.journal_disk.specs.Laws.{reading_is_image, leaves_by_write, leaves_by_barrier};

use journal_block::Block;
use std::error::Error;
use std::fmt;

/// A device call failed.
#[derive(Clone, Copy, Debug, PartialEq, Eq)]
pub struct DiskFault;

impl fmt::Display for DiskFault {
    ghost use Rattle.std.specs.Prelude.{Some, codes};

    ghost output = { λ _. Some (codes "the device failed") };

    fn fmt<W: fmt::Write>(&self, f: &mut fmt::Formatter<W>) -> fmt::Result {
        write!(f, "the device failed")
    }
}

impl Error for DiskFault {}

/// A disk of blocks of 4096 bytes. Its calls may fail, and a crash may leave any of its images.
///
/// An honest disk alone owes what the clauses say of the blocks. Every disk owes all else. No call
/// makes a disk honest or dishonest.
pub trait BlockDisk {
    /// The disk's state, as contracts see it.
    ghost state: { Self → DiskState };

    /// The number of blocks, which never changes.
    fn size(&self) -> u64
        ensures { result ≡ (state self.now).past.size };

    /// How many calls failed. It never falls, and stops at 2^64 - 1.
    fn failures(&self) -> u64
        ensures { result ≡ (state self.now).failures };

    /// Copies a block of the disk, as its last write left it.
    ///
    /// # Errors
    /// - `DiskFault`: the device failed. The content of `into` is not specified.
    fn read(&mut self, block: u64, into: &mut Block) -> Result<(), DiskFault>
        requires { block < (state self.old).past.size }
        ensures keeps { Keeps (state self.old) (state self.new) }
        ensures cause { OnErr result (HasFailed (state self.old) (state self.new)) }
        ensures value { IsTrue (state self.old).honest →
            OnOk result (into.new ≡ read_of (state self.old).past block) }
        ensures same { IsTrue (state self.old).honest → (state self.new).past ≡ (state self.old).past };

    /// Overwrites a block of the disk. The write is pending until a barrier succeeds.
    ///
    /// # Errors
    /// - `DiskFault`: the device failed. The write may be pending or not.
    fn write(&mut self, block: u64, from: &Block) -> Result<(), DiskFault>
        requires { block < (state self.old).past.size }
        ensures keeps { Keeps (state self.old) (state self.new) }
        ensures cause { OnErr result (HasFailed (state self.old) (state self.new)) }
        ensures written { IsTrue (state self.old).honest →
            OnOk result ((state self.new).past ≡ past_after (write block from.now) (state self.old).past) }
        ensures written_or_not { IsTrue (state self.old).honest →
            MayHaveHappened (write block from.now) (state self.old).past (state self.new).past };

    /// Makes the pending writes stable, of each block its last.
    ///
    /// # Errors
    /// - `DiskFault`: the device failed. The pending writes are still pending.
    fn barrier(&mut self) -> Result<(), DiskFault>
        ensures keeps { Keeps (state self.old) (state self.new) }
        ensures cause { OnErr result (HasFailed (state self.old) (state self.new)) }
        ensures synced { IsTrue (state self.old).honest →
            OnOk result ((state self.new).past ≡ past_after barrier (state self.old).past) }
        ensures not_synced { IsTrue (state self.old).honest →
            OnErr result ((state self.new).past ≡ (state self.old).past) };

    // These laws follow for every disk, and each has its proof. So a disk states nothing but its
    // state.

    /// The disk as it reads is one of its images.
    ghost reads_as_image: { (past : Past) → IsImage past (reading past) } = { reading_is_image };

    /// At each moment of a write, done or failed, an image has the block as it was or as written,
    /// never a part of both.
    ghost writes_whole: { (old new : Past) (block : ℕ) (bytes : Bytes)
        → block < old.size → MayHaveHappened (write block bytes) old new
        → LeavesOnly old new (IsOldOrWritten old block bytes) } = { leaves_by_write };

    /// At each moment of a barrier, done or failed, an image is one from before it.
    ghost barriers_narrow: { (old new : Past) → MayHaveHappened barrier old new
        → LeavesOnly old new (IsImage old) } = { leaves_by_barrier };
}
