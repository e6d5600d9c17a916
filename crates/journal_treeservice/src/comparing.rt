// Files of a tree are compared with those that it is to have.
ghost use Rattle.std.specs.Prelude.{◌≡◌};
ghost use Rattle.journal_treestore.specs.Places.{shape_of, IsCut};
ghost use Rattle.journal_treeobjects.specs.Maps.{IsWhole};

use crate::checking::count_nodes;
use crate::cutting::TreeCut;
use crate::filling::{FILE_MODE, NewFile};
use crate::making::{SUPERUSER, time_at};
use crate::mounting::{close, mount, slot_cell};
use crate::root::{ROOT_HANDLE, call_by_root};
use journal_clients::{ServiceFault, begin_session};
use journal_history::{Book, Naming, Session};
use journal_lockmap::SlotCell;
use journal_program::{Settled, SharedDisk, SizedDisk};
use journal_tree::{Found, Handle, Kind};
use journal_treefs::TreeStore;
use journal_treeobjects::{Lookup, Read};
use journal_treerule::SoundTree;
use journal_treestore::Cut;
use std::alloc::Global;
use std::marker::Brand;
use std::sync::Wait;
use std::time::Clock;

/// True if the tree of a disk that is cut so has these files in its root directory, as `fill` wrote
/// them, and no other node. Nothing is written to the disk.
///
/// # Errors
/// - `Refused`: J7 `BadLog`, where its log is not well formed; J8 `BadSuper`, where it has no sound
///   tree that is cut so; J1 `NoMemory`; J6 `DeviceFailed`.
pub fn has_files<R: Clock + Wait>(
    rt: &R,
    alloc: Global,
    disk: SharedDisk,
    cut: TreeCut,
    files: &[NewFile<'_>],
) -> Result<bool, ServiceFault> {
    let book: Book<SoundTree> = Book::open::<()>().unwrap();
    let cell = slot_cell(alloc)?;
    let disk = Settled::unwritten(disk.disk());
    compare_mounted::<Brand, R>(rt, alloc, &book, cell, cut.cut, disk.disk(), files)
}

// Mounts the disk, and compares its tree.
fn compare_mounted<J: Naming, R: Clock + Wait>(
    rt: &R,
    alloc: Global,
    book: &Book<SoundTree>,
    cell: SlotCell,
    cut: Cut,
    disk: SizedDisk,
    files: &[NewFile<'_>],
) -> Result<bool, ServiceFault>
    requires book { book.now ≡ J.book }
    requires cell { cell ≡ J.cell }
    requires cut { IsCut cut }
    requires whole { IsWhole cut }
    requires layout { J.layout ≡ shape_of cut }
{
    let store: TreeStore<SizedDisk, SoundTree, J> = mount(alloc, book, cell, cut, disk)?;
    let compared = compare(rt, alloc, &store, cut, files);
    close(rt, store)?;
    compared
}

// True if the tree has the files, and no other node but its root.
fn compare<'b, J: Naming, R: Clock + Wait>(
    rt: &R,
    alloc: Global,
    store: &TreeStore<'b, SizedDisk, SoundTree, J>,
    cut: Cut,
    files: &[NewFile<'_>],
) -> Result<bool, ServiceFault>
    requires { IsCut cut }
{
    let nodes = count_nodes(rt, alloc, store, cut)?;
    if nodes != files.len() as u64 + 1 {
        return Ok(false);
    }
    let mut session = begin_session(rt, store.journal())?;
    for file in files.iter() {
        if !has_file(rt, store, &mut session, file)? {
            return Ok(false);
        }
    }
    Ok(true)
}

// True if the root directory has the file.
fn has_file<'b, J: Naming, R: Clock + Wait>(
    rt: &R,
    store: &TreeStore<'b, SizedDisk, SoundTree, J>,
    session: &mut Session<'b, J, SoundTree>,
    file: &NewFile<'_>,
) -> Result<bool, ServiceFault> {
    let lookup = Lookup {
        directory: ROOT_HANDLE,
        name: file.name,
    };
    let found = match call_by_root(rt, store, session, &lookup)? {
        Ok(found) => found,
        Err(_) => return Ok(false),
    };
    let Ok(count) = u32::try_from(file.bytes.len()) else {
        return Ok(false);
    };
    let read = Read {
        handle: Handle {
            number: found.node.number,
            generation: found.generation,
        },
        offset: 0,
        count,
    };
    match call_by_root(rt, store, session, &read)? {
        Ok(reply) => Ok(is_found(&found, file) && reply.bytes.as_slice() == file.bytes),
        Err(_) => Ok(false),
    }
}

// True if what was found is a file of this size and this time, and is root's.
fn is_found(found: &Found, file: &NewFile<'_>) -> bool {
    let node = found.node;
    let attributes = node.attributes;
    node.kind == Kind::File
        && node.size == file.bytes.len() as u64
        && attributes.mode == FILE_MODE
        && attributes.owner == SUPERUSER
        && attributes.group == SUPERUSER
        && attributes.mtime == time_at(file.mtime)
}
