// Disks that are opened to be read alone.
ghost use Rattle.std.specs.Prelude.{◌≡◌};

use crate::disk::SizedDisk;
use crate::fault::OpenFault;
use crate::file::{LockedFile, open_to_share};
use crate::inspecting::{DiskFacts, InspectedDisk, inspect_file};
use std::alloc::Global;
use std::fs::{File, Files};

/// A disk in a file that may be read alone, and that no program writes as long as it is open. Its
/// log is well formed.
#[derive(Drop)]
pub struct SharedDisk {
    /// The facts that its blocks have.
    pub facts: DiskFacts,
    file: File,
    disk: SizedDisk,
    ghost sized: { disk.size ≡ facts.blocks },
}

impl SharedDisk {
    /// The disk. Each write to it and each sync that has something to write fails, because the
    /// system refuses it.
    pub fn disk(self) -> SizedDisk
        ensures { result.size ≡ self.facts.blocks }
    {
        self.disk
    }

    /// The file of the disk.
    pub(crate) fn file(&self) -> &File {
        &self.file
    }
}

/// Looks at the disk in the file at the path, and opens it to be read alone: together with others
/// that only read it, and with none that writes it. Nothing is written, and nothing is made stable.
///
/// # Errors
/// - Those of `find_disk`.
pub fn share_disk<R: Files<File = File>>(
    rt: &R,
    alloc: Global,
    path: &str,
) -> Result<SharedDisk, OpenFault> {
    let LockedFile { file, lock } = open_to_share(rt, alloc, path)?;
    let InspectedDisk { facts, disk } = inspect_file(alloc, file.try_clone()?)?;
    Ok(SharedDisk {
        facts,
        file,
        disk: disk.locked(lock).to_be_opened(),
    })
}
