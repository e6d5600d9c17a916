// A copy of a disk in a file.
ghost use Rattle.std.specs.Prelude.{◌≤◌};
ghost use Rattle.journal_world.specs.declared.layout.TheConstants.{MAX_LAYOUT_BLOCKS};

use crate::fault::OpenFault;
use crate::file::{LockedFile, create_new_file, open_to_write, remove_unless};
use crate::room::sync_folder;
use crate::sharing::share_disk;
use journal_world::BLOCK_BYTES;
use std::alloc::Global;
use std::fs::{File, Files, OpenFile};
use std::io::ErrorKind;
use std::os::unix::fs::FileExt;
use std::{fs, io};

/// Where a copy of a disk is made.
#[derive(Clone, Copy, Debug)]
pub struct CopyPaths<'p> {
    /// The path of the copy.
    pub copy: &'p str,
    /// Its path until it is whole, in the same folder.
    pub part: &'p str,
    /// Whether it takes the place of a file that is at its path.
    pub replaces: bool,
}

/// Why a disk was not copied.
#[derive(Debug, Drop)]
pub enum CopyFault {
    /// The disk was not opened.
    Disk(OpenFault),
    /// Something is at the path of the copy until it is whole.
    HasPart,
    /// The copy was not made, or the disk was not read to its end, for the system's reason.
    Copy(io::Error),
}

/// Copies the disk in the file at the path to a new file that its owner alone may read and write,
/// and answers how many blocks it has. Blocks of zeros take no room there. Programs that only read
/// the disk may use it meanwhile.
///
/// The copy gets its own path once it is whole and stable, and that is made stable then.
///
/// # Errors
/// - `Disk`, as `find_disk` is refused. Nothing was made.
/// - `HasPart`. What is there stays, and nothing was made.
/// - `Copy`, by `AlreadyExists` where something is at the path of the copy, by `WouldBlock` where
///   a program uses the disk that is to be replaced there, by `InvalidInput` where that is no
///   ordinary file, and for the system's reason. Nothing is left at `part`, unless the system
///   refuses to remove it. Where it refuses to make the name of the copy stable, the copy is
///   there.
pub fn copy_disk<R: Files<File = File>>(
    rt: &R,
    alloc: Global,
    path: &str,
    paths: CopyPaths<'_>,
) -> Result<u64, CopyFault> {
    let disk = match share_disk(rt, alloc, path) {
        Ok(disk) => disk,
        Err(why) => return Err(CopyFault::Disk(why)),
    };
    let blocks = disk.facts.blocks;
    let replaced = find_replaced(rt, alloc, paths)?;
    let part = match create_new_file(rt, paths.part) {
        Ok(part) => part,
        Err(why) if why.kind() == ErrorKind::AlreadyExists => return Err(CopyFault::HasPart),
        Err(why) => return Err(CopyFault::Copy(why)),
    };
    let made = fill_and_name(rt, disk.file(), &part, blocks, paths);
    drop(replaced);
    match made {
        Ok(()) => Ok(blocks),
        Err(why) => Err(CopyFault::Copy(why)),
    }
}

// Wants nothing at the path of the copy, or takes the lock of the file that is to be replaced
// there.
fn find_replaced<R: Files<File = File>>(
    rt: &R,
    alloc: Global,
    paths: CopyPaths<'_>,
) -> Result<Option<LockedFile>, CopyFault> {
    if let Err(why) = fs::symlink_metadata(rt, paths.copy) {
        return if why.kind() == ErrorKind::NotFound {
            Ok(None)
        } else {
            Err(CopyFault::Copy(why))
        };
    }
    if !paths.replaces {
        return Err(refused_copy(ErrorKind::AlreadyExists));
    }
    match open_to_write(rt, alloc, paths.copy) {
        // The node of a device does not become a file.
        Ok(LockedFile { lock: Some(_), .. }) => Err(refused_copy(ErrorKind::InvalidInput)),
        Ok(replaced) => Ok(Some(replaced)),
        Err(OpenFault::File(why)) => Err(CopyFault::Copy(why)),
        Err(_) => Err(refused_copy(ErrorKind::InvalidInput)),
    }
}

// The copy is refused for this reason.
fn refused_copy(why: ErrorKind) -> CopyFault {
    CopyFault::Copy(io::Error::from(why))
}

// Fills the new file and gives it its path, or removes it.
fn fill_and_name<R: Files<File = File>>(
    rt: &R,
    disk: &File,
    part: &File,
    blocks: u64,
    paths: CopyPaths<'_>,
) -> io::Result<()>
    requires { blocks ≤ MAX_LAYOUT_BLOCKS }
{
    let named = match fill(disk, part, blocks) {
        Ok(()) => name(rt, paths),
        Err(why) => Err(why),
    };
    remove_unless(rt, paths.part, named.is_ok() && paths.replaces);
    named?;
    sync_folder(rt, paths.copy)
}

// Copies so many blocks to an empty file, and makes it stable. Blocks of zeros stay holes.
fn fill(from: &File, to: &File, blocks: u64) -> io::Result<()>
    requires { blocks ≤ MAX_LAYOUT_BLOCKS }
{
    to.set_len(blocks * BLOCK_BYTES as u64)?;
    let zeros = [0u8; BLOCK_BYTES];
    let mut block = [0u8; BLOCK_BYTES];
    for number in 0..blocks {
        let at = number * BLOCK_BYTES as u64;
        from.read_exact_at(&mut block, at)?;
        if block != zeros {
            to.write_all_at(&block, at)?;
        }
    }
    to.sync_all()
}

// Gives the copy its path. One that replaces nothing is refused where something is there by now,
// and keeps its other path too.
fn name<R: Files>(rt: &R, paths: CopyPaths<'_>) -> io::Result<()> {
    if paths.replaces {
        fs::rename(rt, paths.part, paths.copy)
    } else {
        fs::hard_link(rt, paths.part, paths.copy)
    }
}
