// Bytes of a disk's blocks.
ghost use Rattle.std.specs.Prelude.{◌≡◌, ◌⊎◌, ◌<◌, ◌≤◌, ◌+◌, IfOk, IfErr, IsOkUnless, OnOk, OnErr, slice_range, length};
ghost use Rattle.journal_block.specs.Block.{with_bytes};
ghost use Rattle.journal_disk.specs.Disks.{read_of, past_after, MayHaveHappened, write as written, barrier};

use journal_block::Block;
use journal_disk::{BlockDisk, MemDisk};
use journal_world::{Refusal, Value};
use std::alloc::Global;

/// Bytes of a block.
///
/// # Errors
/// - `J1 NoMemory`: memory is refused. Nothing changed.
pub fn bytes_of<C>(alloc: Global, block: &Block, at: u32, len: u32) -> Result<Value, Refusal<C>>
    requires inside { at + len ≤ 4096 }
    ensures bytes { IfOk result (λ value. value ≡ slice_range block.now at (at + len)) }
    ensures len { IfOk result (λ value. length value ≡ len) }
    ensures refusal { IsOkUnless result Refusal.NoMemory }
{
    let (start, end) = (at as usize, at as usize + len as usize);
    Ok(Value::new(block.as_bytes()[start..end].to_vec(alloc)?))
}

/// Overwrites bytes of a block, at once stable.
///
/// # Errors
/// The write may be pending.
/// - `J1 NoMemory`: memory is refused.
/// - `J6 DeviceFailed`: the device fails.
pub fn overwrite(
    alloc: Global,
    disk: &mut MemDisk,
    block: u64,
    at: usize,
    bytes: &[u8],
) -> Result<(), Refusal<()>>
    requires block { block < disk.old.past.size }
    requires inside { at + length bytes.now ≤ 4096 }
    ensures size { disk.new.past.size ≡ disk.old.past.size }
    ensures poked { OnOk result (disk.new.past ≡ past_after barrier
        (past_after (written block (with_bytes (read_of disk.old.past block) at bytes.now)) disk.old.past)) }
    ensures left { OnErr result (MayHaveHappened (written block (with_bytes (read_of disk.old.past block) at bytes.now)) disk.old.past disk.new.past) }
    ensures refusal { IfErr result (λ why. (why ≡ Refusal.NoMemory) ⊎ (why ≡ Refusal.DeviceFailed tt)) }
{
    let mut copy = Block::try_new(alloc)?;
    disk.peek(block, &mut copy);
    copy.copy_range(at, bytes);
    write(disk, block, &copy)?;
    sync(disk)
}

// Writes a block.
fn write(disk: &mut MemDisk, block: u64, bytes: &Block) -> Result<(), Refusal<()>>
    requires block { block < disk.old.past.size }
    ensures size { disk.new.past.size ≡ disk.old.past.size }
    ensures written { OnOk result (disk.new.past ≡ past_after (written block bytes.now) disk.old.past) }
    ensures left { OnErr result (MayHaveHappened (written block bytes.now) disk.old.past disk.new.past) }
    ensures refusal { IsOkUnless result (Refusal.DeviceFailed tt) }
{
    match disk.write(block, bytes) {
        Ok(()) => Ok(()),
        Err(_) => Err(Refusal::DeviceFailed(())),
    }
}

// Makes the write stable.
fn sync(disk: &mut MemDisk) -> Result<(), Refusal<()>>
    ensures size { disk.new.past.size ≡ disk.old.past.size }
    ensures synced { OnOk result (disk.new.past ≡ past_after barrier disk.old.past) }
    ensures left { OnErr result (disk.new.past ≡ disk.old.past) }
    ensures refusal { IsOkUnless result (Refusal.DeviceFailed tt) }
{
    match disk.barrier() {
        Ok(()) => Ok(()),
        Err(_) => Err(Refusal::DeviceFailed(())),
    }
}
