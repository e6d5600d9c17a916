// A walk from a directory up to the root.
ghost use Rattle.std.specs.Prelude.{◌≡◌, [], IfOk};
ghost use Rattle.journal_treecalls.specs.Disks.{Learns};
ghost use Rattle.journal_treecalls.specs.Renamings.{TellsAbove};

use crate::TreeDisk;
use crate::node::inode_of;
use journal_tree::ROOT;
use journal_treestore::Inode;

// True if a directory is this node, or lies below it. The way from the directory up to the root is
// read, an inode for each step, and it has no more steps than the disk has inodes.
pub(crate) fn is_above<T: TreeDisk>(
    disk: &mut T,
    node: u32,
    directory: u32,
) -> Result<bool, T::Fault>
    requires first { T.writes disk.old ≡ [] }
    ensures learns { IfOk result (λ is. Learns (T.may_be disk.old) (T.may_be disk.new) (λ V. TellsAbove V node directory is)) }
    ensures first { T.writes disk.new ≡ [] }
{
    let numbers = disk.numbers();
    let mut at = directory;
    for _step in 0..numbers {
        if at == node {
            return Ok(true);
        }
        if at == ROOT {
            return Ok(false);
        }
        match inode_of(disk, at)? {
            Inode::Used(head) => at = head.directory,
            Inode::Free(_) => return Ok(false),
        }
    }
    Ok(at == node)
}
