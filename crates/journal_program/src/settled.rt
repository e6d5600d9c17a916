// Disks on which nothing is pending.
ghost use Rattle.std.specs.Prelude.{◌≡◌, ◌≤◌, IsTrue, IfOk, IfErr};
ghost use Rattle.journal_world.specs.declared.layout.TheConstants.{MIN_BLOCKS};
ghost use Rattle.journal_disk.specs.Disks.{IsSettled, LostNone};
ghost use Rattle.journal_circ.specs.Mending.{IsMendable};
ghost use Rattle.journal_circ.specs.Ring.{IsOpenRefusal};

use crate::disk::SizedDisk;
use journal_circ::Circ;
use journal_disk::BlockDisk;
use journal_world::Refused;
use std::alloc::Global;

/// A disk on which nothing is pending, and of which nothing is lost. One in a file is mounted, and
/// given up, in no other way.
#[derive(Drop)]
pub struct Settled<D: BlockDisk = SizedDisk> {
    inner: D,
    ghost settled: { IsTrue (D.state inner).honest → IsSettled (D.state inner).past },
}

impl<D: BlockDisk> Settled<D> {
    /// Makes stable what the disk reads, whatever a crash, a process that was killed, or a sync
    /// that failed has left of it: `Circ::mend`, which says what it writes.
    ///
    /// # Errors
    /// - J1 `NoMemory`: memory is refused. Nothing is written.
    /// - J6 `DeviceFailed`: the device failed. The disk reads as before, and can be mended again.
    /// - J7 `BadLog`: the log is not well formed. Nothing is written.
    ///
    /// A refusal hands the disk back.
    pub(crate) fn mended(alloc: Global, disk: D) -> Result<Settled<D>, Refused<D, ()>>
        requires in_range { MIN_BLOCKS ≤ (D.state disk).past.size }
        requires mendable { IsTrue (D.state disk).honest → IsMendable (D.state disk).past }
        ensures size { IfOk result (λ settled. (D.state settled.inner).past.size ≡ (D.state disk).past.size) }
        ensures settled { IfOk result (λ settled. IsTrue (D.state settled.inner).honest → IsSettled (D.state settled.inner).past) }
        ensures refusal { IfErr result (λ refused.
            IsOpenRefusal (D.state disk) (D.state refused.disk) refused.refusal) }
    {
        match Circ::mend(alloc, disk) {
            Ok(disk) => Ok(Settled { inner: disk }),
            Err(refused) => Err(refused),
        }
    }

    /// Makes all writes to the disk stable that this program made. None was lost before, because
    /// the disk was mended when it was opened.
    ///
    /// # Errors
    /// - The disk: the sync failed.
    pub fn by_barrier(disk: D) -> Result<Settled<D>, D>
        requires lost { IsTrue (D.state disk).honest → LostNone (D.state disk).past }
        ensures size { IfOk result (λ settled. (D.state settled.inner).past.size ≡ (D.state disk).past.size) }
    {
        let mut inner = disk;
        match inner.barrier() {
            Ok(()) => Ok(Settled { inner }),
            Err(_) => Err(inner),
        }
    }

    /// A disk to which nobody wrote: it may only be read, or a mount of it was refused, which wrote
    /// nothing.
    pub fn unwritten(disk: D) -> Settled<D>
        requires settled { IsTrue (D.state disk).honest → IsSettled (D.state disk).past }
        ensures { result.inner ≡ disk }
    {
        Settled { inner: disk }
    }

    /// The disk, to be mounted.
    pub fn disk(self) -> D
        ensures disk { result ≡ self.inner }
        ensures settled { IsTrue (D.state result).honest → IsSettled (D.state result).past }
    {
        self.inner
    }
}

impl Settled<SizedDisk> {
    /// The same, whose disk holds what it has of the log only until the journal is open.
    pub(crate) fn to_be_opened(self) -> Settled
        ensures { result.inner ≡ self.inner }
    {
        Settled {
            inner: self.inner.to_be_opened(),
        }
    }
}
