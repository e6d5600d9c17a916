// Mounting a disk of either version of the format.
ghost use Rattle.std.specs.Prelude.{◌≡◌, IsTrue};
ghost use Rattle.journal_world.specs.Files.{files};
ghost use Rattle.journal_disk.specs.Disks.{IsSettled};

use journal_clients::ServiceFault;
use journal_disk::BlockDisk;
use journal_filestore::FileStore;
use journal_history::{Book, Naming};
use journal_inode::{SoundFiles, Version};
use journal_lockmap::SlotCell;
use journal_mirror::Mirror;
use journal_program::{Settled, SizedDisk};
use journal_world::{Refusal, Refused};
use std::alloc::Global;

/// The outcome of a mount under the rule of a version.
#[derive(Drop)]
pub(crate) enum Tried<T, D: BlockDisk = SizedDisk> {
    /// Its files are sound in the version, and this came of them.
    Sound(T),
    /// They are not. The disk is as it was.
    Other(Settled<D>),
}

impl<T: Drop, D: BlockDisk + Drop> Tried<T, D> {
    /// The outcome of a disk whose files are sound.
    ///
    /// # Errors
    /// - J8 `BadSuper`: they are not sound. The disk is given up.
    pub fn sound(self) -> Result<T, ServiceFault> {
        match self {
            Tried::Sound(value) => Ok(value),
            Tried::Other(_) => Err(ServiceFault::Refused(Refusal::BadSuper)),
        }
    }
}

/// The outcome of a mount of a disk that is in memory no more.
pub(crate) fn unmirrored(tried: Tried<Mirror<SizedDisk>, Mirror<SizedDisk>>) -> Tried<SizedDisk> {
    match tried {
        Tried::Sound(mirror) => Tried::Sound(mirror.into_disk()),
        Tried::Other(settled) => Tried::Other(Settled::unwritten(settled.disk().into_disk())),
    }
}

/// The cell of a mount's slots. Refused by J1.
pub(crate) fn slot_cell(alloc: Global) -> Result<SlotCell, ServiceFault> {
    match SlotCell::open(alloc) {
        Ok(cell) => Ok(cell),
        Err(_) => Err(ServiceFault::Refused(Refusal::NoMemory)),
    }
}

/// Mounts the disk under the rule of a version. Refused as a mount is, but for J8, which hands the
/// disk back.
pub(crate) fn mount<'b, D: BlockDisk + Drop, J: Naming, V: Version>(
    alloc: Global,
    book: &'b Book<SoundFiles<V>>,
    cell: SlotCell,
    disk: D,
) -> Result<Tried<FileStore<'b, D, J, V>, D>, ServiceFault>
    requires book { book.now ≡ J.book }
    requires cell { cell ≡ J.cell }
    requires layout { J.layout ≡ files (D.state disk).past.size }
    requires settled { IsTrue (D.state disk).honest → IsSettled (D.state disk).past }
{
    match FileStore::mount(alloc, book, cell, disk) {
        Ok(files) => Ok(Tried::Sound(files)),
        Err(
            Refused {
                refusal: Refusal::BadSuper,
                disk,
            },
        ) => Ok(Tried::Other(Settled::unwritten(disk))),
        Err(Refused { refusal, .. }) => Err(ServiceFault::refused(refusal)),
    }
}
