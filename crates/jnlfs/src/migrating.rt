// The flat files of a disk are written to a new disk with a tree.

use crate::disks::{HeldFiles, OpenedToRead, share};
use crate::making::{disk_number, tree_cut};
use crate::unserved::unserved;
use journal_clients::ServiceFault;
use journal_commands::Fault;
use journal_program::{FoundDisk, Room, SharedDisk, find_disk, rename_new_file, share_disk};
use journal_service::FlatFile;
use journal_treeservice::{NewFile, cut_of};
use std::alloc::Global;
use std::fs::{File, Files};
use std::io::{ErrorKind, Write};
use std::random::RandomSource;
use std::sync::Wait;
use std::thread::Threads;
use std::time::Clock;
use std::{fs, io};

// A disk with a tree that is to hold the files of a flat one has a fiftieth more blocks than that,
// and these. It has as many blocks for files then, and one for the root directory: its inodes take
// the others.
const MORE_BLOCKS: u64 = 130;

const FIFTIETH: u64 = 50;

/// A disk with a tree that is to have the files of a flat one.
#[derive(Clone, Copy, Debug, PartialEq, Eq)]
pub struct Migration<'w> {
    /// The path of the disk with flat files.
    pub old: &'w str,
    /// The path of the new file.
    pub new: &'w str,
    /// How many blocks the new disk is to have, where that is named.
    pub blocks: Option<u64>,
    /// How many inodes it is to have, where that is named.
    pub inodes: Option<u64>,
}

// The files of a disk, and its number of blocks.
#[derive(Drop)]
struct OldFiles {
    blocks: u64,
    files: Vec<FlatFile>,
}

/// Makes a disk of version 3 in a new file whose root directory has the files of a flat disk, each
/// with its bytes and its time, and prints their number. The flat disk is only read. The new disk
/// gets its own path once it is whole and stable, and has been read back. No program can write the
/// flat disk before that.
///
/// # Errors
/// Nothing is at the path of the new disk, but for `AlreadyExists`, and where its name could not be
/// made stable.
/// - Those of `share`. `NotFlat`: the disk has a tree. `Refused`: its files are not sound.
/// - `NoSuchDisk`: no disk has the numbers that were asked for. `NoRandom`: as `make`.
/// - `File`: by `AlreadyExists` where anything is at the path of the new disk, or the flat disk is
///   where it is made, which stays as it is; and for the system's reason. `HasNewPart`: something
///   else is where it is made.
/// - `NoRoom`: the new disk has too few blocks or inodes for all files.
/// - `DeviceFailed`: its device fails, as where its file system is full. `NoMemory`, and `Refused`
///   by J1: memory is refused.
/// - `Differs`: the new disk did not read as it was written.
/// - `CannotWrite`: the output fails. The new disk is there.
pub fn migrate_to_tree<
    'w,
    R: Files<File = File> + Clock + RandomSource + Threads + Wait + Sync,
    O: Write,
>(rt: &R, alloc: Global, migration: Migration<'w>, output: &mut O) -> Result<(), Fault<'w>> {
    let Migration { old: path, new, .. } = migration;
    // As long as this is open, no program writes the flat disk.
    let _held = share(rt, alloc, path)?;
    let old = read_old(rt, alloc, path)?;
    refuse_taken(rt, new)?;
    let Ok(part) = format!(in alloc; "{new}.part") else {
        return Err(Fault::NoMemory);
    };
    if part.as_str() == path {
        return Err(taken(path));
    }
    make_part(rt, alloc, migration, part.as_str(), old.blocks)?;
    let made = fill_part(rt, alloc, new, part.as_str(), &old.files);
    if made.is_err() {
        // The first fault is answered, whether this succeeds or not.
        let _ = fs::remove_file(rt, part.as_str());
    }
    made?;
    print_count(output, old.files.len())
}

// Reads the files of the flat disk.
fn read_old<'w, R: Files<File = File> + Wait>(
    rt: &R,
    alloc: Global,
    path: &'w str,
) -> Result<OldFiles, Fault<'w>> {
    let OpenedToRead { disk, files } = share(rt, alloc, path)?;
    if let HeldFiles::Tree(_) = files {
        return Err(Fault::NotFlat { path });
    }
    let blocks = disk.facts.blocks;
    match journal_service::read_files(rt, alloc, disk) {
        Ok(files) => Ok(OldFiles { blocks, files }),
        Err(why) => Err(unserved(path, why)),
    }
}

// Wants nothing at the path.
fn refuse_taken<'w, R: Files<File = File>>(rt: &R, path: &'w str) -> Result<(), Fault<'w>> {
    match fs::symlink_metadata(rt, path) {
        Ok(_) => Err(taken(path)),
        Err(why) if why.kind() == ErrorKind::NotFound => Ok(()),
        Err(why) => Err(Fault::File { path, why }),
    }
}

// Something is at the path.
fn taken(path: &str) -> Fault<'_> {
    Fault::File {
        path,
        why: io::Error::from(ErrorKind::AlreadyExists),
    }
}

// Makes the new disk, without files, where it is until it is whole.
fn make_part<'w, R: Files<File = File> + Clock + RandomSource>(
    rt: &R,
    alloc: Global,
    migration: Migration<'w>,
    part: &str,
    old_blocks: u64,
) -> Result<(), Fault<'w>> {
    let new = migration.new;
    let blocks = migration.blocks.unwrap_or(blocks_for(old_blocks));
    let cut = tree_cut(blocks, migration.inodes)?;
    let number = disk_number(rt)?;
    match journal_treeservice::make(rt, alloc, part, cut, number, Room::Log) {
        Ok(()) => Ok(()),
        Err(ServiceFault::File(why)) if why.kind() == ErrorKind::AlreadyExists => {
            Err(Fault::HasNewPart { new })
        }
        Err(why) => Err(unserved(new, why)),
    }
}

// How many blocks a disk with a tree has for the files of a flat one of this number of blocks.
fn blocks_for(old: u64) -> u64 {
    old.saturating_add(old / FIFTIETH)
        .saturating_add(MORE_BLOCKS)
}

// Writes the files to the new disk, reads them back, and gives it its own path.
fn fill_part<'w, R: Files<File = File> + Clock + Threads + Wait + Sync>(
    rt: &R,
    alloc: Global,
    new: &'w str,
    part: &str,
    files: &[FlatFile],
) -> Result<(), Fault<'w>> {
    let mut wanted = Vec::new(alloc);
    for file in files.iter() {
        let file = NewFile {
            name: &file.name,
            mtime: file.mtime,
            bytes: &file.bytes,
        };
        if wanted.push(file).is_err() {
            return Err(Fault::NoMemory);
        }
    }
    write_part(rt, alloc, new, part, &wanted)?;
    read_part_back(rt, alloc, new, part, &wanted)?;
    match rename_new_file(rt, part, new) {
        Ok(()) => Ok(()),
        Err(why) => Err(Fault::File { path: new, why }),
    }
}

// Writes the files to the new disk.
fn write_part<'w, R: Files<File = File> + Clock + Threads + Wait + Sync>(
    rt: &R,
    alloc: Global,
    new: &'w str,
    part: &str,
    wanted: &[NewFile<'_>],
) -> Result<(), Fault<'w>> {
    let found: FoundDisk = match find_disk(rt, alloc, part) {
        Ok(found) => found,
        Err(why) => return Err(Fault::unopened(new, why)),
    };
    let Some(cut) = cut_of(&found.facts) else {
        return Err(Fault::NotCut { path: new });
    };
    let disk = match found.settle(alloc) {
        Ok(disk) => disk,
        Err(why) => return Err(Fault::unopened(new, why)),
    };
    match journal_treeservice::fill(rt, alloc, disk, cut, wanted) {
        Ok(Ok(())) => Ok(()),
        Ok(Err(_)) => Err(Fault::NoRoom { path: new }),
        Err(why) => Err(unserved(new, why)),
    }
}

// Reads the new disk, and wants the files that were written to it.
fn read_part_back<'w, R: Files<File = File> + Clock + Wait>(
    rt: &R,
    alloc: Global,
    new: &'w str,
    part: &str,
    wanted: &[NewFile<'_>],
) -> Result<(), Fault<'w>> {
    let disk: SharedDisk = match share_disk(rt, alloc, part) {
        Ok(disk) => disk,
        Err(why) => return Err(Fault::unopened(new, why)),
    };
    let Some(cut) = cut_of(&disk.facts) else {
        return Err(Fault::NotCut { path: new });
    };
    match journal_treeservice::has_files(rt, alloc, disk, cut, wanted) {
        Ok(true) => Ok(()),
        Ok(false) => Err(Fault::Differs { path: new }),
        Err(why) => Err(unserved(new, why)),
    }
}

// Prints how many files the new disk has.
fn print_count<'w, O: Write>(output: &mut O, count: usize) -> Result<(), Fault<'w>> {
    match writeln!(output, "version 3 files {count}").and_then(|()| output.flush()) {
        Ok(()) => Ok(()),
        Err(_) => Err(Fault::CannotWrite),
    }
}
