// Disks that are opened to be checked.

use crate::device::{DeviceLock, Medium, lock_medium, medium_of};
use crate::fault::{DeviceFault, OpenFault};
use crate::file::{LockedFile, lock, open_file, open_to_write};
use crate::inspecting::{DiskFacts, InspectedDisk, inspect_file};
use crate::settled::Settled;
use crate::system::{KEEPS_NO_LOCKS, TAKES_NO_SYNC, is_done, is_locked, may_only_be_read};
use os::RangeLock;
use std::alloc::Global;
use std::fs::{File, Files, OpenFile, OpenOptions};
use std::io::Write;

/// A disk that is to be checked.
#[derive(Drop)]
pub struct ToCheck {
    /// The disk. Nothing is written to it.
    pub disk: Settled,
    /// The facts that its blocks have.
    pub facts: DiskFacts,
}

/// The disk in the file at the path, to be checked. A file that may only be read, or that others
/// only read, is locked together with others that read it, unless its file system keeps no locks. A
/// warning is printed for each thing that the system refuses of such a file.
///
/// # Errors
/// Nothing was written.
/// - `File`: the system's reason, which is `WouldBlock` where a program that writes the disk has
///   its lock.
/// - `Device`, `Label`, `NoDisk`, `Refused`: those of `find_disk`.
pub fn open_to_check<R: Files<File = File>, E: Write>(
    rt: &R,
    alloc: Global,
    path: &str,
    faults: &mut E,
) -> Result<ToCheck, OpenFault> {
    let LockedFile { file, lock } = open_file_to_check(rt, alloc, path, faults)?;
    let InspectedDisk { facts, disk } = inspect_file(alloc, file)?;
    Ok(ToCheck {
        disk: Settled::unwritten(disk.locked(lock).to_be_opened()),
        facts,
    })
}

// Opens and locks the file, and makes stable what earlier programs wrote to it, as far as the
// system lets.
fn open_file_to_check<R: Files<File = File>, E: Write>(
    rt: &R,
    alloc: Global,
    path: &str,
    faults: &mut E,
) -> Result<LockedFile, OpenFault> {
    match open_to_write(rt, alloc, path) {
        Ok(locked) => {
            locked.file.sync_data()?;
            Ok(locked)
        }
        Err(OpenFault::File(e)) if may_only_be_read(&e) || is_locked(&e) => {
            open_to_read(rt, alloc, path, faults)
        }
        Err(why) => Err(why),
    }
}

// Opens a file that may only be read, or that others only read. Where a warning cannot be printed,
// nobody can be warned.
fn open_to_read<R: Files<File = File>, E: Write>(
    rt: &R,
    alloc: Global,
    path: &str,
    faults: &mut E,
) -> Result<LockedFile, OpenFault> {
    let file = open_file(rt, &mut OpenOptions::new(), path)?;
    let medium = medium_of(&file)?;
    let has_lock = is_done(lock(&file, RangeLock::Shared), KEEPS_NO_LOCKS)?;
    let lock = lock_to_read(rt, alloc, medium)?;
    if !has_lock || lock.is_none() && medium != Medium::Ordinary {
        let _ = writeln!(faults, "{path} is checked without a lock");
    }
    if !is_done(file.sync_data(), TAKES_NO_SYNC)? {
        let _ = writeln!(faults, "{path} is checked without a sync");
    }
    Ok(LockedFile { file, lock })
}

// Locks the device that the medium is, together with others that read it. `None` also where the
// file of its lock cannot be had.
fn lock_to_read<R: Files<File = File>>(
    rt: &R,
    alloc: Global,
    medium: Medium,
) -> Result<Option<DeviceLock>, OpenFault> {
    match lock_medium(rt, alloc, medium, RangeLock::Shared) {
        Err(OpenFault::Device(DeviceFault::NoLock { .. })) => Ok(None),
        locked => locked,
    }
}
