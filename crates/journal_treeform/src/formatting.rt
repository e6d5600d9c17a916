// The making of a disk with a tree.
ghost use Rattle.std.specs.Prelude.{ℕ, ◌≡◌, ◌<◌, IsTrue, IfOk, IfErr, OnOk};
ghost use Rattle.journal_world.specs.Maps.{Map};
ghost use Rattle.journal_object.specs.Objects.{IsMapOf};
ghost use Rattle.journal_disk.specs.Disks.{Keeps, IsSettled, LostNone, read_of, past_after};
ghost use Rattle.journal_disk.specs.Disks.{write as written, barrier};
ghost use Rattle.journal_tree.specs.declared.limits.TheConstants.{MODES};
ghost use Rattle.journal_tree.specs.Times.{IsTime};
ghost use Rattle.journal_treestore.specs.Places.{shape_of, IsCut};
ghost use Rattle.journal_treeobjects.specs.Maps.{IsWhole};
ghost use Rattle.journal_treeform.specs.NewDisks.{IsNewMap};
ghost use Rattle.journal_treeform.specs.Formats.{AreZeros, HasBlocksOf, IsWritingRefusal};

use crate::NewTree;
use journal_block::Block;
use journal_disk::BlockDisk;
use journal_world::{Refusal, Refused, SUPERBLOCK};
use std::alloc::Global;

/// Makes a disk with this tree of a disk of zeros: writes the two blocks that are no zeros. The log
/// is empty, because its headers are zeros. Nothing is pending then. If no failed barrier lost a
/// write of the disk before, none is lost.
///
/// # Errors
/// The disk is given back, and the content of its blocks is not specified.
/// - `J1 NoMemory`: memory for a block is refused.
/// - `J6 DeviceFailed`: the device failed meanwhile.
pub fn format<D: BlockDisk>(alloc: Global, disk: D, tree: NewTree) -> Result<D, Refused<D, ()>>
    requires cut { IsCut tree.cut }
    requires whole { IsWhole tree.cut }
    requires new { tree.cut.size ≡ tree.cut.base }
    requires mode { tree.mode < MODES }
    requires made { IsTime tree.made }
    requires size { (D.state disk).past.size ≡ tree.cut.blocks }
    requires zeros { IsTrue (D.state disk).honest → AreZeros (D.state disk).past }
    ensures keeps { IfOk result (λ formatted. Keeps (D.state disk) (D.state formatted)) }
    ensures blocks { IsTrue (D.state disk).honest → IfOk result (λ formatted. HasBlocksOf tree (D.state formatted).past) }
    ensures settled { IsTrue (D.state disk).honest → LostNone (D.state disk).past
        → IfOk result (λ formatted. IsSettled (D.state formatted).past) }

    // The map that its blocks are is a disk with the tree.
    ensures sound { IsTrue (D.state disk).honest → IfOk result (λ formatted. (m : Map)
        → m.layout ≡ shape_of tree.cut → IsMapOf (read_of (D.state formatted).past) m → IsNewMap tree m) }

    ensures refusal { IfErr result (λ refused. IsWritingRefusal (D.state disk) (D.state refused.disk) refused.refusal) }
    ensures handed_back { IfErr result (λ refused. Keeps (D.state disk) (D.state refused.disk)) }
{
    let mut disk = disk;
    match write_all(alloc, &mut disk, &tree) {
        Ok(()) => Ok(disk),
        Err(refusal) => Err(Refused { refusal, disk }),
    }
}

// Writes the blocks that are no zeros, and makes them stable.
fn write_all<D: BlockDisk>(alloc: Global, disk: &mut D, tree: &NewTree) -> Result<(), Refusal<()>>
    requires cut { IsCut tree.now.cut }
    requires size { (D.state disk.old).past.size ≡ tree.now.cut.blocks }
    requires zeros { IsTrue (D.state disk.old).honest → AreZeros (D.state disk.old).past }
    ensures keeps { Keeps (D.state disk.old) (D.state disk.new) }
    ensures blocks { IsTrue (D.state disk.old).honest → OnOk result (HasBlocksOf tree.now (D.state disk.new).past) }
    ensures settled { IsTrue (D.state disk.old).honest → LostNone (D.state disk.old).past → OnOk result (IsSettled (D.state disk.new).past) }
    ensures refusal { IfErr result (IsWritingRefusal (D.state disk.old) (D.state disk.new)) }
{
    let inodes = tree.cut.first_inodes();
    let description = tree.block(alloc, SUPERBLOCK)?;
    let root = tree.block(alloc, inodes)?;
    write(disk, SUPERBLOCK, &description)?;
    write(disk, inodes, &root)?;
    sync(disk)
}

// Writes a block. If that is refused the write may be pending or not.
fn write<D: BlockDisk>(disk: &mut D, block: u64, bytes: &Block) -> Result<(), Refusal<()>>
    requires { block < (D.state disk.old).past.size }
    ensures keeps { Keeps (D.state disk.old) (D.state disk.new) }
    ensures written { IsTrue (D.state disk.old).honest → OnOk result
        ((D.state disk.new).past ≡ past_after (written block bytes.now) (D.state disk.old).past) }
    ensures refusal { IfErr result (IsWritingRefusal (D.state disk.old) (D.state disk.new)) }
{
    match disk.write(block, bytes) {
        Ok(()) => Ok(()),
        Err(_) => Err(Refusal::DeviceFailed(())),
    }
}

// Makes the pending writes stable.
fn sync<D: BlockDisk>(disk: &mut D) -> Result<(), Refusal<()>>
    ensures keeps { Keeps (D.state disk.old) (D.state disk.new) }
    ensures synced { IsTrue (D.state disk.old).honest → OnOk result
        ((D.state disk.new).past ≡ past_after barrier (D.state disk.old).past) }
    ensures refusal { IfErr result (IsWritingRefusal (D.state disk.old) (D.state disk.new)) }
{
    match disk.barrier() {
        Ok(()) => Ok(()),
        Err(_) => Err(Refusal::DeviceFailed(())),
    }
}
