// The growth of a disk with a tree.
ghost use Rattle.std.specs.Prelude.{◌≡◌, ◌<◌, IsTrue, OnOk, OnErr, IfErr};
ghost use Rattle.journal_disk.specs.Disks.{Keeps, HasFailed, IsSettled, LostNone, MayHaveHappened, read_of, past_after};
ghost use Rattle.journal_disk.specs.Disks.{write as written};
ghost use Rattle.journal_treestore.specs.Places.{IsCut};
ghost use Rattle.journal_treestore.specs.Growths.{IsGrowth};
ghost use Rattle.journal_treeform.specs.Formats.{IsWritingRefusal};
ghost use Rattle.journal_treeform.specs.GrownDisks.{HasRecords, WritesAfter, ReadsFirst, LeavesFirst};

use journal_block::Block;
use journal_disk::{BlockDisk, DiskFault};
use journal_treestore::Cut;
use journal_world::Refusal;
use std::alloc::Global;

/// Copies the records of later blocks to where they lie once the disk has grown, and makes that
/// stable. All blocks before stay, whatever a crash leaves. Nothing is copied of a disk that did
/// not grow before.
///
/// # Errors
/// Some of the records may be copied.
/// - `J1 NoMemory`: memory for a block is refused.
/// - `J6 DeviceFailed`: the device failed meanwhile.
pub fn move_records<D: BlockDisk>(
    alloc: Global,
    disk: &mut D,
    old: Cut,
    new: Cut,
) -> Result<(), Refusal<()>>
    requires cut { IsCut old }
    requires growth { IsGrowth old new }
    requires size { (D.state disk.old).past.size ≡ new.size }
    ensures keeps { Keeps (D.state disk.old) (D.state disk.new) }
    ensures records { IsTrue (D.state disk.old).honest → OnOk result (HasRecords old new (read_of (D.state disk.old).past) (read_of (D.state disk.new).past)) }
    ensures first { IsTrue (D.state disk.old).honest → ReadsFirst new.blocks (D.state disk.old).past (D.state disk.new).past }
    ensures crash { IsTrue (D.state disk.old).honest → IsSettled (D.state disk.old).past → LeavesFirst new.blocks (D.state disk.old).past (D.state disk.new).past }
    ensures settled { IsTrue (D.state disk.old).honest → IsSettled (D.state disk.old).past → OnOk result (IsSettled (D.state disk.new).past) }
    ensures refusal { IfErr result (IsWritingRefusal (D.state disk.old) (D.state disk.new)) }
{
    let mut room = Block::try_new(alloc)?;
    match copy_records(disk, old, new, &mut room) {
        Ok(()) => Ok(()),
        Err(_) => Err(Refusal::DeviceFailed(())),
    }
}

// Copies the records, and makes that stable.
fn copy_records<D: BlockDisk>(
    disk: &mut D,
    old: Cut,
    new: Cut,
    room: &mut Block,
) -> Result<(), DiskFault>
    requires cut { IsCut old }
    requires growth { IsGrowth old new }
    requires size { (D.state disk.old).past.size ≡ new.size }
    ensures keeps { Keeps (D.state disk.old) (D.state disk.new) }
    ensures cause { OnErr result (HasFailed (D.state disk.old) (D.state disk.new)) }
    ensures records { IsTrue (D.state disk.old).honest → OnOk result (HasRecords old new (read_of (D.state disk.old).past) (read_of (D.state disk.new).past)) }
    ensures after { IsTrue (D.state disk.old).honest → WritesAfter new.blocks (D.state disk.old).past (D.state disk.new).past }
    ensures settled { IsTrue (D.state disk.old).honest → LostNone (D.state disk.old).past → OnOk result (IsSettled (D.state disk.new).past) }
{
    for index in 0..old.later_owners() {
        copy(disk, old.blocks + index, new.blocks + index, room)?;
    }
    disk.barrier()
}

// Copies a block.
fn copy<D: BlockDisk>(disk: &mut D, from: u64, to: u64, room: &mut Block) -> Result<(), DiskFault>
    requires from { from < (D.state disk.old).past.size }
    requires to { to < (D.state disk.old).past.size }
    ensures keeps { Keeps (D.state disk.old) (D.state disk.new) }
    ensures cause { OnErr result (HasFailed (D.state disk.old) (D.state disk.new)) }
    ensures copied { IsTrue (D.state disk.old).honest → OnOk result
        ((D.state disk.new).past ≡ past_after (written to (read_of (D.state disk.old).past from)) (D.state disk.old).past) }
    ensures copied_or_not { IsTrue (D.state disk.old).honest →
        MayHaveHappened (written to (read_of (D.state disk.old).past from)) (D.state disk.old).past (D.state disk.new).past }
{
    disk.read(from, room)?;
    disk.write(to, room)
}
