// The nodes of numbers and handles.
ghost use Rattle.std.specs.Prelude.{◌≡◌, [], IfOk};
ghost use Rattle.journal_treecalls.specs.Disks.{Learns};
ghost use Rattle.journal_treecalls.specs.Targets.{IsInode, IsTarget, IsDirectoryFor, current_of, directory_of, told_of};

use crate::TreeDisk;
use journal_tree::{Caller, Handle, Kind, Status, Told};
use journal_treestore::{Head, INODE_BYTES, Inode};

// An inode in use, as it was read.
#[derive(Clone, Copy)]
pub(crate) struct Record {
    pub(crate) head: Head,
    pub(crate) bytes: [u8; INODE_BYTES],
}

// The inode of a number.
pub(crate) fn inode_of<T: TreeDisk>(disk: &mut T, number: u32) -> Result<Inode, T::Fault>
    requires first { T.writes disk.old ≡ [] }
    ensures learns { IfOk result (λ inode. Learns (T.may_be disk.old) (T.may_be disk.new) (λ V. IsInode V number inode)) }
    ensures first { T.writes disk.new ≡ [] }
{
    let bytes = disk.inode(number)?;
    Ok(Inode::read(&bytes))
}

// The inode of the node that a handle names, if it names one.
pub(crate) fn node<T: TreeDisk>(disk: &mut T, handle: Handle) -> Result<Option<Record>, T::Fault>
    requires first { T.writes disk.old ≡ [] }
    ensures learns { IfOk result (λ found. Learns (T.may_be disk.old) (T.may_be disk.new) (λ V. IsTarget V handle found)) }
    ensures first { T.writes disk.new ≡ [] }
{
    let count = disk.numbers();
    let number = u64::from(handle.number);
    if count <= number {
        return Ok(None);
    }
    let bytes = disk.inode(handle.number)?;
    match Inode::read(&bytes) {
        Inode::Used(head) => Ok(current(head, bytes, handle)),
        Inode::Free(_) => Ok(None),
    }
}

// The inode, if it is that of the handle's generation.
fn current(head: Head, bytes: [u8; INODE_BYTES], handle: Handle) -> Option<Record>
    ensures { result ≡ current_of head bytes handle }
{
    if head.generation == handle.generation {
        Some(Record { head, bytes })
    } else {
        None
    }
}

// The inode of a directory that a caller may search.
pub(crate) fn searched<T: TreeDisk>(
    disk: &mut T,
    caller: &Caller,
    handle: Handle,
) -> Result<Result<Record, Status>, T::Fault>
    requires first { T.writes disk.old ≡ [] }
    ensures learns { IfOk result (λ found. Learns (T.may_be disk.old) (T.may_be disk.new) (λ V. IsDirectoryFor V caller.now handle found)) }
    ensures first { T.writes disk.new ≡ [] }
{
    match node(disk, handle)? {
        None => Ok(Err(Status::Stale)),
        Some(target) => Ok(directory_for(caller, target)),
    }
}

// The inode, if it is that of a directory that the caller may search.
pub(crate) fn directory_for(caller: &Caller, found: Record) -> Result<Record, Status>
    ensures { result ≡ directory_of caller.now found }
{
    let may = caller.may_search(&found.head.attributes);
    match found.head.kind {
        Kind::File | Kind::Link => Err(Status::NotDirectory),
        Kind::Directory => {
            if may {
                Ok(found)
            } else {
                Err(Status::NoAccess)
            }
        }
    }
}

// A node in a reply.
pub(crate) fn told(number: u32, head: &Head) -> Told
    ensures { result ≡ told_of number head.now }
{
    Told {
        number,
        kind: head.kind,
        size: head.size,
        attributes: head.attributes,
    }
}
