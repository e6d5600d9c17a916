// Disks in files.
ghost use Rattle.std.specs.Prelude.{◌≤◌};
ghost use Rattle.journal_world.specs.declared.layout.TheConstants.{MIN_BLOCKS, MAX_BLOCKS};
ghost use Rattle.journal_program.specs.Labels.{IsLabel};

use journal_clients::{ServiceFault, now};
use journal_disk::BlockDisk;
use journal_form::{FileFormat, LogForm, change_form};
use journal_inode::FormatVersion;
use journal_program::{
    FoundDisk, Label, Room, Settled, SizedDisk, create_disk, create_labeled_disk, find_disk,
};
use journal_world::{Layout, Moment, Refusal, Refused};
use std::alloc::Global;
use std::fs::{File, Files};
use std::io::ErrorKind;
use std::time::Clock;
use std::{fs, io};

/// Makes a disk of version 2 without files, of so many blocks, in the file at the path. The file is
/// made, or what it held is gone. Its log and what describes it have their room in the file system
/// then, and its name is stable.
///
/// # Errors
/// - `File`: the system's reason, which is `WouldBlock` where a program uses the disk in the file.
///   Nothing of that one is gone.
/// - `Refused`: memory is refused, or the device fails. The old content of the file is gone.
pub fn format<R: Files<File = File> + Clock>(
    rt: &R,
    alloc: Global,
    path: &str,
    blocks: u64,
) -> Result<(), ServiceFault>
    requires { (MIN_BLOCKS ≤ blocks) × (blocks ≤ MAX_BLOCKS) }
{
    let disk = match create_disk(rt, alloc, path, blocks) {
        Ok(disk) => disk,
        Err(why) => return Err(ServiceFault::File(why)),
    };
    match journal_inode::format(alloc, disk, now(rt), FormatVersion::Two) {
        Ok(_) => Ok(()),
        Err(Refused { refusal, .. }) => Err(ServiceFault::refused(refusal)),
    }
}

/// Makes a disk of version 2 without files in a new file at the path, with a sealed log and this
/// label, and with this room in its file system. Its owner alone may use it. Its name is stable
/// then.
///
/// # Errors
/// - `File`: the system refuses the file, as where anything is at the path, which stays as it is.
/// - `Refused`: no disk of files has so many blocks, or memory is refused, or the device fails.
///
/// A file that was begun is removed.
pub fn make<R: Files<File = File> + Clock>(
    rt: &R,
    alloc: Global,
    path: &str,
    label: &Label,
    room: Room,
) -> Result<(), ServiceFault>
    requires { IsLabel label.now }
{
    let disk = match create_labeled_disk(rt, alloc, path, label, room) {
        Ok(disk) => disk,
        Err(why) => return Err(ServiceFault::unopened(why)),
    };
    let made = format_sealed(alloc, disk, now(rt));
    if made.is_err() {
        // The first fault is answered, whether this succeeds or not.
        let _ = fs::remove_file(rt, path);
    }
    made
}

// Makes a disk of zeros one without files, and seals its log.
fn format_sealed(alloc: Global, disk: SizedDisk, moment: Moment) -> Result<(), ServiceFault> {
    if Layout::new(disk.size()).is_none() {
        return Err(ServiceFault::Refused(Refusal::BadSuper));
    }
    let disk = match journal_inode::format(alloc, disk, moment, FormatVersion::Two) {
        Ok(disk) => disk,
        Err(Refused { refusal, disk }) => {
            return Err(ServiceFault::refused(refusal).or_of_device(disk));
        }
    };
    match change_form(alloc, disk, LogForm::Sealed) {
        Ok(_) => Ok(()),
        Err(Refused { refusal, disk }) => Err(ServiceFault::refused(refusal).or_of_device(disk)),
    }
}

/// The disk of the file service in the file at the path, which no other program uses as long as it
/// is open. Nothing of it is pending.
///
/// Refused, with no byte changed, as `find_disk` is, but by J8 `BadSuper` where no disk has so many
/// blocks; and by J8 where it has no flat files.
pub(crate) fn open<R: Files<File = File>>(
    rt: &R,
    alloc: Global,
    path: &str,
) -> Result<Settled, ServiceFault> {
    match find_disk(rt, alloc, path) {
        Ok(found) if found.facts.files == Some(FileFormat::Flat) => settle(alloc, found),
        Ok(_) => Err(ServiceFault::Refused(Refusal::BadSuper)),
        Err(why) => Err(ServiceFault::unopened(why)),
    }
}

// The disk that was found, once what it reads is stable.
fn settle(alloc: Global, found: FoundDisk) -> Result<Settled, ServiceFault> {
    match found.settle(alloc) {
        Ok(disk) => Ok(disk),
        Err(why) => Err(ServiceFault::unopened(why)),
    }
}

/// The disk that was given back, once all that was written to it is stable.
pub(crate) fn settled(disk: SizedDisk) -> Result<Settled, ServiceFault> {
    match Settled::by_barrier(disk) {
        Ok(disk) => Ok(disk),
        Err(disk) => Err(ServiceFault::File(reason_of(disk))),
    }
}

// Why the first call of the disk failed that did.
fn reason_of(disk: SizedDisk) -> io::Error {
    match disk.into_failure() {
        Some(why) => why,
        None => io::Error::from(ErrorKind::Other),
    }
}
