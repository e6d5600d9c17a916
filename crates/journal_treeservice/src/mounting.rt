// A disk with a tree is mounted, and given up.
ghost use Rattle.std.specs.Prelude.{◌≡◌, IsTrue, IfOk};
ghost use Rattle.journal_disk.specs.Disks.{IsSettled};
ghost use Rattle.journal_treestore.specs.Places.{shape_of, IsCut};
ghost use Rattle.journal_treeobjects.specs.Maps.{IsWhole};

use journal_clients::{ServiceFault, begin_session};
use journal_disk::BlockDisk;
use journal_history::{Book, Naming};
use journal_lockmap::SlotCell;
use journal_treefs::TreeStore;
use journal_treerule::SoundTree;
use journal_treestore::Cut;
use journal_twophase::MAX_CACHED_BLOCKS;
use journal_world::{Refusal, Refused};
use std::alloc::Global;
use std::sync::Wait;

/// The cell of a mount's slots. Refused by J1.
pub(crate) fn slot_cell(alloc: Global) -> Result<SlotCell, ServiceFault> {
    match SlotCell::open(alloc) {
        Ok(cell) => Ok(cell),
        Err(_) => Err(ServiceFault::Refused(Refusal::NoMemory)),
    }
}

/// Mounts a disk that is cut so, under the rule of a sound tree.
///
/// # Errors
/// - `Refused`: as a mount is, by J8 `BadSuper` where the disk has no sound tree that is cut so.
///   The disk is as it was.
pub(crate) fn mount<'b, D: BlockDisk + Drop, J: Naming>(
    alloc: Global,
    book: &'b Book<SoundTree>,
    cell: SlotCell,
    cut: Cut,
    disk: D,
) -> Result<TreeStore<'b, D, SoundTree, J>, ServiceFault>
    requires book { book.now ≡ J.book }
    requires cell { cell ≡ J.cell }
    requires cut { IsCut cut }
    requires whole { IsWhole cut }
    requires layout { J.layout ≡ shape_of cut }
    requires settled { IsTrue (D.state disk).honest → IsSettled (D.state disk).past }
    ensures cut { IfOk result (λ store. store.cut ≡ cut) }
{
    let rule = SoundTree::new(alloc);
    match TreeStore::mount(alloc, book, cell, cut, disk, &rule, MAX_CACHED_BLOCKS) {
        Ok(store) => Ok(store),
        Err(Refused { refusal, .. }) => Err(ServiceFault::refused(refusal)),
    }
}

/// Gives the disk up.
pub(crate) fn close<'b, D: BlockDisk + Drop, J: Naming, W: Wait>(
    rt: &W,
    store: TreeStore<'b, D, SoundTree, J>,
) -> Result<D, ServiceFault> {
    let mut session = begin_session(rt, store.journal())?;
    match store.close(&mut session) {
        Ok(disk) => Ok(disk),
        Err(Refused { refusal, .. }) => Err(ServiceFault::refused(refusal)),
    }
}
