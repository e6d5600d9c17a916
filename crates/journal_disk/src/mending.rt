// How the writes that a failed barrier lost are written again.
ghost use Rattle.std.specs.Prelude.{ℕ, ◌≡◌, ◌<◌, ◌≤◌, IsTrue, OnOk, OnErr, IfOk};
ghost use Rattle.journal_disk.specs.Disks.{Past, write, barrier, read_of, IsKeptAt, past_after, MayHaveHappened, Keeps, HasFailed};
ghost use Rattle.journal_disk.specs.Images.{IsRewritten};

use crate::{BlockDisk, DiskFault};
use journal_block::Block;

/// Writes a block as it reads. It adds no image, and reads give the same as before. The next
/// barrier makes the block's lost writes stable.
///
/// # Errors
/// - `DiskFault`: the device failed to read or write it. The write may be pending or not.
pub fn rewrite<D: BlockDisk>(disk: &mut D, block: u64, scratch: &mut Block) -> Result<(), DiskFault>
    requires { block < (D.state disk.old).past.size }
    ensures keeps { Keeps (D.state disk.old) (D.state disk.new) }
    ensures cause { OnErr result (HasFailed (D.state disk.old) (D.state disk.new)) }
    ensures rewritten { IsTrue (D.state disk.old).honest →
        IsRewritten (D.state disk.old).past (D.state disk.new).past }
    ensures kept { IsTrue (D.state disk.old).honest → OnOk result (IsKeptAt (D.state disk.new).past block) }
{
    disk.read(block, scratch)?;
    disk.write(block, scratch)
}

/// Writes the first blocks of a disk as they read.
///
/// # Errors
/// - `DiskFault`: the device failed. Some of the writes may be pending.
pub fn rewrite_first<D: BlockDisk>(
    disk: &mut D,
    blocks: u64,
    scratch: &mut Block,
) -> Result<(), DiskFault>
    requires { blocks ≤ (D.state disk.old).past.size }
    ensures keeps { Keeps (D.state disk.old) (D.state disk.new) }
    ensures cause { OnErr result (HasFailed (D.state disk.old) (D.state disk.new)) }
    ensures rewritten { IsTrue (D.state disk.old).honest →
        IsRewritten (D.state disk.old).past (D.state disk.new).past }
    ensures kept { IsTrue (D.state disk.old).honest → OnOk result
        ((b : ℕ) → b < blocks → IsKeptAt (D.state disk.new).past b) }
{
    for block in 0..blocks {
        rewrite(disk, block, scratch)?;
    }
    Ok(())
}
