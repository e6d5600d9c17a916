// The subcommands on disks of files.

use crate::unserved::unserved;
use journal_commands::{Fault, find, open_to_read, refuse_other_regions};
use journal_form::FileFormat;
use journal_program::{DiskFacts, Settled, SharedDisk, share_disk};
use journal_treeservice::{TreeCut, cut_of};
use std::alloc::Global;
use std::fs::{File, Files};
use std::io::Write;
use std::sync::Wait;

/// The files of a disk.
#[derive(Clone, Copy, Debug)]
pub enum HeldFiles {
    /// Flat files: version 1 or 2.
    Flat,
    /// A tree, cut so: version 3.
    Tree(TreeCut),
}

/// Prints that the files of the disk in the file at the path are sound, in which version of the
/// format, and how many there are, or how many nodes a tree has. Nothing is written to it.
///
/// # Errors
/// - Those of a disk that is opened to be read.
/// - Those of `files_of`.
/// - `Refused`: its files are not sound, or memory is refused, or the device fails.
pub fn check<'w, R: Files<File = File> + Wait, O: Write, E: Write>(
    rt: &R,
    alloc: Global,
    path: &'w str,
    output: &mut O,
    faults: &mut E,
) -> Result<(), Fault<'w>> {
    let opened = open_to_read(rt, alloc, path, faults)?;
    let checked = match files_of(path, &opened.facts)? {
        HeldFiles::Flat => journal_service::check_disk(rt, alloc, opened.disk, output),
        HeldFiles::Tree(cut) => {
            journal_treeservice::check_disk(rt, alloc, opened.disk, cut, output)
        }
    };
    match checked {
        Ok(()) => Ok(()),
        Err(why) => Err(unserved(path, why)),
    }
}

/// Makes the disk in the file at the path one of version 2, with the same files, and prints its
/// version then.
///
/// # Errors
/// - Those of `open`.
/// - `HasTree`: it has a tree. Nothing was written.
/// - Those of `journal_service::migrate_disk`. The disk has the same files, in version 1 or 2.
pub fn migrate<'w, R: Files<File = File> + Wait, O: Write>(
    rt: &R,
    alloc: Global,
    path: &'w str,
    output: &mut O,
) -> Result<(), Fault<'w>> {
    let OpenedDisk { disk, files } = open(rt, alloc, path)?;
    if let HeldFiles::Tree(_) = files {
        return Err(Fault::HasTree { path });
    }
    match journal_service::migrate_disk(rt, alloc, disk, output) {
        Ok(()) => Ok(()),
        Err(why) => Err(unserved(path, why)),
    }
}

/// A disk of files, and which these are.
#[derive(Drop)]
pub struct OpenedDisk {
    pub disk: Settled,
    pub files: HeldFiles,
}

/// The disk of files in the file at the path, which no other program uses as long as it is open.
/// All that it reads is stable.
///
/// # Errors
/// - Those of a disk that is opened to be written.
/// - Those of `files_of`. Nothing was written.
pub fn open<'w, R: Files<File = File>>(
    rt: &R,
    alloc: Global,
    path: &'w str,
) -> Result<OpenedDisk, Fault<'w>> {
    let found = find(rt, alloc, path)?;
    let files = files_of(path, &found.facts)?;
    match found.settle(alloc) {
        Ok(disk) => Ok(OpenedDisk { disk, files }),
        Err(why) => Err(Fault::unopened(path, why)),
    }
}

/// A disk of files that is only read, and which these are.
#[derive(Drop)]
pub struct OpenedToRead {
    pub disk: SharedDisk,
    pub files: HeldFiles,
}

/// The disk of files in the file at the path, to be read alone. No program writes it as long as it
/// is open, and nothing is written to it.
///
/// # Errors
/// - Those of `share_disk`.
/// - Those of `files_of`.
pub fn share<'w, R: Files<File = File>>(
    rt: &R,
    alloc: Global,
    path: &'w str,
) -> Result<OpenedToRead, Fault<'w>> {
    match share_disk(rt, alloc, path) {
        Ok(disk) => {
            let files = files_of(path, &disk.facts)?;
            Ok(OpenedToRead { disk, files })
        }
        Err(why) => Err(Fault::unopened(path, why)),
    }
}

/// The files of the disk at the path that has these facts.
///
/// # Errors
/// - `HasNoFiles`: it is no disk of files, by its block 513.
/// - `OtherRegions`: it has flat files, and its label names other regions than theirs.
/// - `NotCut`: it has a tree, and no label that says how it is cut.
pub fn files_of<'w>(path: &'w str, facts: &DiskFacts) -> Result<HeldFiles, Fault<'w>> {
    match facts.files {
        None => Err(Fault::HasNoFiles { path }),
        Some(FileFormat::Flat) => {
            refuse_other_regions(path, facts)?;
            Ok(HeldFiles::Flat)
        }
        Some(FileFormat::Tree) => match cut_of(facts) {
            Some(cut) => Ok(HeldFiles::Tree(cut)),
            None => Err(Fault::NotCut { path }),
        },
    }
}
