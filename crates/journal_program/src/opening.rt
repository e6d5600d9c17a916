// Disks that are opened to be written.
ghost use Rattle.std.specs.Prelude.{◌≡◌, ◌≤◌, IfOk};
ghost use Rattle.journal_world.specs.declared.layout.TheConstants.{MIN_BLOCKS};

use crate::disk::SizedDisk;
use crate::fault::OpenFault;
use crate::file::{LockedFile, open_to_write};
use crate::inspecting::{DiskFacts, InspectedDisk, inspect_file};
use crate::settled::Settled;
use journal_world::Refused;
use std::alloc::Global;
use std::fs::{File, Files, OpenFile};

/// A disk in a file that no other program uses as long as it is open. Its log is well formed, and
/// nothing was written to it.
#[derive(Drop)]
pub struct FoundDisk {
    /// The facts that its blocks have.
    pub facts: DiskFacts,
    disk: SizedDisk,
    ghost sized: { disk.size ≡ facts.blocks },
}

impl FoundDisk {
    /// Makes stable what the disk reads, as `Circ::mend` does: each block of the log, and each home
    /// block that the log names, is written as it reads, and all writes to the disk are made
    /// stable. These are also writes of a process that was killed, which only the system has, and
    /// of one whose sync failed.
    ///
    /// # Errors
    /// - The system's reason: a block cannot be read or written, or the sync fails. What the disk
    ///   reads has not changed then.
    /// - J1 `NoMemory`, with nothing written.
    pub fn settle(self, alloc: Global) -> Result<Settled, OpenFault>
        ensures { IfOk result (λ settled. settled.inner.size ≡ self.facts.blocks) }
    {
        settle(alloc, self.disk)
    }
}

/// Looks at the disk in the file at the path, which no other program uses as long as it is open. It
/// is to be written, so it is settled once the caller has looked whether it is the disk that it
/// wants.
///
/// # Errors
/// The first of these that applies. Nothing was written.
/// - `File`: the system's reason, which is `WouldBlock` where another program has the lock of the
///   file, or that of the device by its number.
/// - `Device`: it is neither a file nor a block device, or the lock of the device cannot be had.
/// - `Label`: its label is not well formed, or names more blocks than the file has.
/// - `NoDisk`: no disk has this number of blocks.
/// - `Refused`: J1 `NoMemory`; J6 `DeviceFailed`, where the device fails; J7 `BadLog`, where the
///   log is not well formed.
pub fn find_disk<R: Files<File = File>>(
    rt: &R,
    alloc: Global,
    path: &str,
) -> Result<FoundDisk, OpenFault> {
    let LockedFile { file, lock } = open_to_write(rt, alloc, path)?;
    let InspectedDisk { facts, disk } = inspect_file(alloc, file)?;
    Ok(FoundDisk {
        facts,
        disk: disk.locked(lock),
    })
}

/// The disk in the file at the path, on which nothing is pending, and which no other program uses
/// as long as it is open.
///
/// # Errors
/// - Those of `find_disk`. Nothing was written.
/// - Those of `FoundDisk::settle`.
pub fn open_settled<R: Files<File = File>>(
    rt: &R,
    alloc: Global,
    path: &str,
) -> Result<Settled, OpenFault> {
    find_disk(rt, alloc, path)?.settle(alloc)
}

/// The disk in a file, once what it reads is stable. Refused for the system's reason where there is
/// one, and as `Settled::mended` is. The file is closed then.
pub(crate) fn settle(alloc: Global, disk: SizedDisk) -> Result<Settled, OpenFault>
    requires in_range { MIN_BLOCKS ≤ disk.size }
    ensures { IfOk result (λ settled. settled.inner.size ≡ disk.size) }
{
    match Settled::mended(alloc, disk) {
        Ok(settled) => Ok(settled.to_be_opened()),
        Err(Refused { refusal, disk }) => match disk.into_failure() {
            Some(why) => Err(OpenFault::File(why)),
            None => Err(OpenFault::Refused(refusal)),
        },
    }
}
