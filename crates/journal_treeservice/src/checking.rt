// A disk with a tree is checked.
ghost use Rattle.std.specs.Prelude.{◌≡◌};
ghost use Rattle.journal_treestore.specs.Places.{shape_of, IsCut};
ghost use Rattle.journal_treeobjects.specs.Maps.{IsWhole};

use crate::counting::count_used;
use crate::cutting::TreeCut;
use crate::looking::Looker;
use crate::mounting::{close, mount, slot_cell};
use journal_clients::{ServiceFault, print_line};
use journal_history::{Book, Naming};
use journal_lockmap::SlotCell;
use journal_program::{Settled, SizedDisk};
use journal_treefs::TreeStore;
use journal_treerule::SoundTree;
use journal_treestore::Cut;
use std::alloc::Global;
use std::io::Write;
use std::marker::Brand;
use std::sync::Wait;

/// Mounts the disk, and prints that it is sound, its version and how many nodes its tree has, with
/// the root. Nothing is written to the disk.
///
/// # Errors
/// - `Refused`: J7 `BadLog`, where its log is not well formed; J8 `BadSuper`, where it has no sound
///   tree that is cut so; J1 `NoMemory`; J6 `DeviceFailed`.
/// - `CannotWrite`: the output fails.
pub fn check_disk<W: Wait, O: Write>(
    rt: &W,
    alloc: Global,
    disk: Settled,
    cut: TreeCut,
    output: &mut O,
) -> Result<(), ServiceFault> {
    let book: Book<SoundTree> = Book::open::<()>().unwrap();
    let cell = slot_cell(alloc)?;
    let nodes = nodes_of::<Brand, W>(rt, alloc, &book, cell, cut.cut, disk.disk())?;
    print_line(output, "sound version 3 nodes", nodes)
}

// Mounts the disk, and answers how many nodes its tree has.
fn nodes_of<J: Naming, W: Wait>(
    rt: &W,
    alloc: Global,
    book: &Book<SoundTree>,
    cell: SlotCell,
    cut: Cut,
    disk: SizedDisk,
) -> Result<u64, ServiceFault>
    requires book { book.now ≡ J.book }
    requires cell { cell ≡ J.cell }
    requires cut { IsCut cut }
    requires whole { IsWhole cut }
    requires layout { J.layout ≡ shape_of cut }
{
    let store: TreeStore<SizedDisk, SoundTree, J> = mount(alloc, book, cell, cut, disk)?;
    let counted = count_nodes(rt, alloc, &store, cut);
    close(rt, store)?;
    counted
}

/// How many nodes the tree has, with the root.
///
/// # Errors
/// - `Refused`: a session or a read was refused.
pub(crate) fn count_nodes<'b, J: Naming, W: Wait>(
    rt: &W,
    alloc: Global,
    store: &TreeStore<'b, SizedDisk, SoundTree, J>,
    cut: Cut,
) -> Result<u64, ServiceFault>
    requires { IsCut cut }
{
    let mut looker = Looker::new(rt, alloc, store.journal(), cut)?;
    match count_used(rt, &mut looker) {
        Ok(used) => Ok(used.numbers),
        Err(why) => Err(ServiceFault::Refused(why)),
    }
}
