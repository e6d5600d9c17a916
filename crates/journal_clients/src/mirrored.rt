// Disks that are served from the file, or from memory.
ghost use Rattle.std.specs.Prelude.{◌≡◌, IfOk};
ghost use Rattle.journal_disk.specs.Disks.{IsSettled};

use crate::fault::ServiceFault;
use journal_mirror::Mirror;
use journal_program::{Settled, SizedDisk};
use journal_world::Refused;
use std::alloc::Global;
use std::io;

/// Where the reads of a disk that is served come from.
#[derive(Clone, Copy, Debug, PartialEq, Eq)]
pub enum Reads {
    /// From the file.
    FromFile,
    /// From memory, into which each block is read once, at the start. No premise on what the file
    /// answers to a read is left then.
    FromMemory,
}

/// A disk in a file, as it is or mirrored.
pub trait Explained {
    /// The system's reason for which the first call of the file failed that did. The file is
    /// closed.
    fn into_reason(self) -> Option<io::Error>;
}

impl Explained for SizedDisk {
    fn into_reason(self) -> Option<io::Error> {
        self.into_failure()
    }
}

impl Explained for Mirror<SizedDisk> {
    fn into_reason(self) -> Option<io::Error> {
        self.into_disk().into_failure()
    }
}

/// The disk, whose blocks are then also in memory.
///
/// # Errors
/// - `DeviceFailed`: a block cannot be read, for the system's reason.
/// - `Refused`: memory is refused.
///
/// Nothing was written, and the file is closed.
pub fn mirror(alloc: Global, disk: Settled) -> Result<Mirror<SizedDisk>, ServiceFault>
    ensures size { IfOk result (λ mirror. mirror.past.size ≡ disk.inner.size) }
    ensures settled { IfOk result (λ mirror. IsSettled mirror.past) }
{
    match Mirror::over(alloc, disk.disk()) {
        Ok(mirror) => Ok(mirror),
        Err(Refused { refusal, disk }) => Err(ServiceFault::refused(refusal).or_of_device(disk)),
    }
}
