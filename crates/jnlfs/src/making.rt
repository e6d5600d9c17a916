// Disks of files are made.
ghost use Rattle.std.specs.Prelude.{IfOk};
ghost use Rattle.journal_treeform.specs.NewCuts.{IsNewCut};

use crate::unserved::unserved;
use journal_commands::{Fault, label_of, regions_of_files};
use journal_program::Room;
use journal_treeform::{NoCut, default_inodes, new_cut};
use journal_treestore::Cut;
use std::alloc::Global;
use std::fs::{File, Files};
use std::random::RandomSource;
use std::time::Clock;

/// A disk that is asked for.
#[derive(Clone, Copy, Debug, PartialEq, Eq)]
pub struct NewDisk<'w> {
    /// The path of its new file.
    pub path: &'w str,
    /// How many blocks it is to have.
    pub blocks: u64,
    /// The files that it is to have.
    pub files: NewFiles,
    /// The room in its file system that it is to have at once.
    pub room: Room,
}

/// The files that a new disk is to have.
#[derive(Clone, Copy, Debug, PartialEq, Eq)]
pub enum NewFiles {
    /// Flat files: version 2.
    Flat,
    /// A tree: version 3.
    Tree {
        /// How many inodes it is to have, where that is named.
        inodes: Option<u64>,
    },
}

// The fewest blocks of a disk with a tree: with the fewest inodes, one is left for files.
const FEWEST_TREE_BLOCKS: u64 = 645;

// Why there is no such disk.
const FLAT_BLOCKS: &str = "a disk of version 2 has 532 to 33299 blocks";

/// Why no tree has as many blocks.
pub const TREE_BLOCKS: &str = "a disk of version 3 has 645 to 4294967296 blocks";

const TREE_INODES: &str = "a disk of version 3 has 1024 to 134217728 inodes, a multiple of 8";

const NO_DATA: &str = "so many inodes leave no block of the disk for files";

/// Makes a disk without files in a new file. Its log is sealed, and its label has the regions of
/// its files.
///
/// # Errors
/// - `NoSuchDisk`: no disk has this number of blocks, or of inodes.
/// - `NoRandom`: the system gives no random number, by which handles of the disk differ from those
///   of others. Nothing was made.
/// - `File`: anything is at the path, which stays as it is; or the system's reason, for which the
///   new file is removed.
/// - `Refused`: memory is refused, or the device fails. The new file is removed.
pub fn make<'w, R: Files<File = File> + Clock + RandomSource>(
    rt: &R,
    alloc: Global,
    disk: NewDisk<'w>,
) -> Result<(), Fault<'w>> {
    match disk.files {
        NewFiles::Flat => make_flat(rt, alloc, disk),
        NewFiles::Tree { inodes } => make_tree(rt, alloc, disk, inodes),
    }
}

// Makes a disk of version 2.
fn make_flat<'w, R: Files<File = File> + Clock>(
    rt: &R,
    alloc: Global,
    disk: NewDisk<'w>,
) -> Result<(), Fault<'w>> {
    let NewDisk {
        path,
        blocks,
        room,
        ..
    } = disk;
    let regions = regions_of_files(blocks);
    if regions.is_none() {
        return Err(Fault::NoSuchDisk { why: FLAT_BLOCKS });
    }
    let Some(label) = label_of(blocks, regions) else {
        return Err(Fault::NoSuchDisk { why: FLAT_BLOCKS });
    };
    match journal_service::make(rt, alloc, path, &label, room) {
        Ok(()) => Ok(()),
        Err(why) => Err(unserved(path, why)),
    }
}

// Makes a disk of version 3.
fn make_tree<'w, R: Files<File = File> + Clock + RandomSource>(
    rt: &R,
    alloc: Global,
    disk: NewDisk<'w>,
    inodes: Option<u64>,
) -> Result<(), Fault<'w>> {
    let NewDisk {
        path,
        blocks,
        room,
        ..
    } = disk;
    let cut = tree_cut(blocks, inodes)?;
    let number = disk_number(rt)?;
    match journal_treeservice::make(rt, alloc, path, cut, number, room) {
        Ok(()) => Ok(()),
        Err(why) => Err(unserved(path, why)),
    }
}

/// How a disk with a tree is cut of this number of blocks, and of inodes where that is named.
///
/// # Errors
/// - `NoSuchDisk`: no disk has these.
pub fn tree_cut<'w>(blocks: u64, inodes: Option<u64>) -> Result<Cut, Fault<'w>>
    ensures { IfOk result IsNewCut }
{
    if blocks < FEWEST_TREE_BLOCKS {
        return Err(Fault::NoSuchDisk { why: TREE_BLOCKS });
    }
    match new_cut(blocks, inodes.unwrap_or(default_inodes(blocks))) {
        Ok(cut) => Ok(cut),
        Err(why) => Err(Fault::NoSuchDisk { why: words_of(why) }),
    }
}

// The words for a disk that is cut in no way.
fn words_of(why: NoCut) -> &'static str {
    match why {
        NoCut::Blocks => TREE_BLOCKS,
        NoCut::Inodes => TREE_INODES,
        NoCut::NoData => NO_DATA,
    }
}

/// 64 random bits of the system, the number of a new disk with a tree.
///
/// # Errors
/// - `NoRandom`: it gives none.
pub fn disk_number<'w, R: RandomSource>(rt: &R) -> Result<u64, Fault<'w>> {
    let mut bytes = [0u8; 8];
    match rt.fill_bytes(&mut bytes) {
        Ok(()) => Ok(u64::from_le_bytes(bytes)),
        Err(_) => Err(Fault::NoRandom),
    }
}
