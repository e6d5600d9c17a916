// Whether the disk in a file is sound.
ghost use Rattle.std.specs.Prelude.{◌≡◌};
ghost use Rattle.journal_world.specs.Files.{files};

use crate::mounting::{Tried, mount, slot_cell};
use crate::serving::close;
use journal_clients::{ServiceFault, begin_session, print_line};
use journal_filestore::{Fault, FileStore, Handle};
use journal_history::{Book, Naming, Session};
use journal_inode::{INODES, SoundFiles, Version, VersionOne, VersionTwo};
use journal_lockmap::SlotCell;
use journal_program::{Settled, SizedDisk, open_to_check};
use std::alloc::Global;
use std::fs::{File, Files};
use std::io::Write;
use std::marker::Brand;
use std::sync::Wait;

/// The root directory's number and generation.
pub(crate) const ROOT: u32 = 1;

/// Mounts the disk in the file, and prints that it is sound, its version and how many files it has.
/// The files are not changed, and nothing is written to the disk.
///
/// Where the file may only be read, and the system locks or syncs no such file, that is told as a
/// fault, and the disk is checked all the same.
///
/// # Errors
/// - `File`, `Device`, `Label`: those of a disk that is opened to be read.
/// - `Refused`, `CannotWrite`: those of `check_disk`.
pub fn check<R: Files<File = File> + Wait, O: Write, E: Write>(
    rt: &R,
    alloc: Global,
    path: &str,
    output: &mut O,
    faults: &mut E,
) -> Result<(), ServiceFault> {
    match open_to_check(rt, alloc, path, faults) {
        Ok(opened) => check_disk(rt, alloc, opened.disk, output),
        Err(why) => Err(ServiceFault::unopened(why)),
    }
}

/// Mounts the disk, and prints that it is sound, its version and how many files it has. The files
/// are not changed, and nothing is written to the disk.
///
/// # Errors
/// - `Refused`: J7 `BadLog`, where its log is not well formed; J8 `BadSuper`, where its files are
///   sound in no version; J1 `NoMemory`; J6 `DeviceFailed`.
/// - `CannotWrite`: the output fails.
pub fn check_disk<W: Wait, O: Write>(
    rt: &W,
    alloc: Global,
    disk: Settled,
    output: &mut O,
) -> Result<(), ServiceFault> {
    match count_in::<VersionTwo, W>(rt, alloc, disk)? {
        Tried::Sound(files) => print_line(output, "sound version 2 files", files),
        Tried::Other(disk) => {
            let files = count_in::<VersionOne, W>(rt, alloc, disk)?.sound()?;
            print_line(output, "sound version 1 files", files)
        }
    }
}

// How many files the disk has, where they are sound in a version.
fn count_in<V: Version, W: Wait>(
    rt: &W,
    alloc: Global,
    settled: Settled,
) -> Result<Tried<u64>, ServiceFault> {
    let book: Book<SoundFiles<V>> = Book::open::<()>().unwrap();
    let cell = slot_cell(alloc)?;
    files_of::<Brand, V, W>(rt, alloc, &book, cell, settled.disk())
}

// Mounts the disk, and answers how many files it has.
fn files_of<J: Naming, V: Version, W: Wait>(
    rt: &W,
    alloc: Global,
    book: &Book<SoundFiles<V>>,
    cell: SlotCell,
    disk: SizedDisk,
) -> Result<Tried<u64>, ServiceFault>
    requires book { book.now ≡ J.book }
    requires cell { cell ≡ J.cell }
    requires layout { J.layout ≡ files disk.size }
{
    let files: FileStore<SizedDisk, J, V> = match mount(alloc, book, cell, disk)? {
        Tried::Sound(files) => files,
        Tried::Other(disk) => return Ok(Tried::Other(disk)),
    };
    let counted = count(rt, &files);
    close(rt, files)?;
    Ok(Tried::Sound(counted?))
}

// How many names are files.
fn count<'b, J: Naming, V: Version, W: Wait>(
    rt: &W,
    files: &FileStore<'b, SizedDisk, J, V>,
) -> Result<u64, ServiceFault> {
    let mut session = begin_session(rt, files.journal())?;
    let mut found: u64 = 0;
    for number in ROOT + 1..INODES {
        if is_file(rt, files, &mut session, number)? {
            found = found.saturating_add(1);
        }
    }
    Ok(found)
}

// Whether there is a file of the name of this number.
fn is_file<'b, J: Naming, V: Version, W: Wait>(
    rt: &W,
    files: &FileStore<'b, SizedDisk, J, V>,
    session: &mut Session<'b, J, SoundFiles<V>>,
    number: u32,
) -> Result<bool, ServiceFault> {
    let Some(root) = Handle::new(ROOT, ROOT) else {
        return Ok(false);
    };
    match files.lookup(rt, session, root, &name_of(number)) {
        Ok(answer) => Ok(answer.is_ok()),
        Err(Fault::Refused(why) | Fault::Unsure(why)) => Err(ServiceFault::refused(why)),
    }
}

/// The name of the file of a number: f and three decimal digits.
pub(crate) fn name_of(number: u32) -> [u8; 4] {
    [b'f', digit(number / 100), digit(number / 10), digit(number)]
}

// The last decimal digit of a number.
fn digit(number: u32) -> u8 {
    b'0' + (number % 10) as u8
}
