// The making of a disk without files.
ghost use Rattle.std.specs.Prelude.{ℕ, ◌≡◌, ◌≢◌, ◌<◌, ◌≤◌, ◌+◌, ◌*◌, ◌-◌, nat_le, IsTrue, IfOk, IfErr, OnOk, IsOkUnless, slice_range};
ghost use Rattle.journal_world.specs.declared.layout.TheConstants.{MIN_BLOCKS, MAX_BLOCKS, FIRST_DATA, BLOCK_BITS};
ghost use Rattle.journal_world.specs.Addresses.{zeros_of};
ghost use Rattle.journal_world.specs.Files.{files};
ghost use Rattle.journal_block.specs.Block.{bit_of, with_bytes};
ghost use Rattle.journal_disk.specs.Disks.{Keeps, IsSettled, LostNone, read_of, past_after};
ghost use Rattle.journal_disk.specs.Disks.{write as written, barrier};
ghost use Rattle.journal_world.specs.Maps.{Map};
ghost use Rattle.journal_object.specs.Objects.{IsMapOf};
ghost use Rattle.journal_inode.specs.Nodes.{inode_bytes};
ghost use Rattle.journal_inode.specs.Sound.{superblock_of, HasSoundFiles};
ghost use Rattle.journal_inode.specs.Formats.{AreZeros, IsFormatted, IsWritingRefusal};

use crate::superblock::front;
use crate::{FormatVersion, NODE_BYTES, Node, Time};
use journal_block::Block;
use journal_disk::BlockDisk;
use journal_world::{
    BITMAP, BLOCK_BITS, FIRST_DATA, FIRST_INODES, Kind, Moment, Refusal, Refused, SUPERBLOCK,
};
use std::alloc::Global;

/// Makes a disk of this version without files of a disk of zeros: writes its superblock, the bitmap
/// of its data blocks, and the root directory's inode, with this moment as its time. The log is
/// empty, because its headers are zeros. Nothing is pending then. If no failed barrier lost a write
/// of the disk before, none is lost.
///
/// # Errors
/// The disk is given back, and the content of its blocks is not specified.
/// - `J1 NoMemory`: memory for a block is refused.
/// - `J6 DeviceFailed`: the device failed meanwhile.
pub fn format<D: BlockDisk>(
    alloc: Global,
    disk: D,
    moment: Moment,
    version: FormatVersion,
) -> Result<D, Refused<D, ()>>
    requires blocks { (MIN_BLOCKS ≤ (D.state disk).past.size) × ((D.state disk).past.size ≤ MAX_BLOCKS) }
    requires zeros { IsTrue (D.state disk).honest →
        AreZeros (D.state disk).past.size (read_of (D.state disk).past) }
    ensures keeps { IfOk result (λ formatted. Keeps (D.state disk) (D.state formatted)) }
    ensures blocks { IsTrue (D.state disk).honest → IfOk result (λ formatted.
        IsFormatted version (D.state disk).past.size (record { secs = moment.secs; nanos = moment.nanos })
        (read_of (D.state formatted).past)) }
    ensures settled { IsTrue (D.state disk).honest → LostNone (D.state disk).past → IfOk result (λ formatted.
        IsSettled (D.state formatted).past) }

    // The map that its blocks make is one of sound files.
    ensures sound { IsTrue (D.state disk).honest → IfOk result (λ formatted. (m : Map)
        → m.layout ≡ files (D.state disk).past.size → IsMapOf (read_of (D.state formatted).past) m → HasSoundFiles version m) }

    ensures refusal { IfErr result (λ refused.
        IsWritingRefusal (D.state disk) (D.state refused.disk) refused.refusal) }
    ensures handed_back { IfErr result (λ refused. Keeps (D.state disk) (D.state refused.disk)) }
{
    let mut disk = disk;
    match write_all(alloc, &mut disk, moment, version) {
        Ok(()) => Ok(disk),
        Err(refusal) => Err(Refused { refusal, disk }),
    }
}

// Writes the blocks that are not all zeros, and makes them stable.
fn write_all<D: BlockDisk>(
    alloc: Global,
    disk: &mut D,
    moment: Moment,
    version: FormatVersion,
) -> Result<(), Refusal<()>>
    requires blocks { (MIN_BLOCKS ≤ (D.state disk.old).past.size) × ((D.state disk.old).past.size ≤ MAX_BLOCKS) }
    requires zeros { IsTrue (D.state disk.old).honest →
        AreZeros (D.state disk.old).past.size (read_of (D.state disk.old).past) }
    ensures keeps { Keeps (D.state disk.old) (D.state disk.new) }
    ensures blocks { IsTrue (D.state disk.old).honest → OnOk result
        (IsFormatted version (D.state disk.old).past.size (record { secs = moment.secs; nanos = moment.nanos })
        (read_of (D.state disk.new).past)) }
    ensures settled { IsTrue (D.state disk.old).honest → LostNone (D.state disk.old).past → OnOk result (IsSettled (D.state disk.new).past) }
    ensures refusal { IfErr result (IsWritingRefusal (D.state disk.old) (D.state disk.new)) }
{
    let blocks = disk.size();
    let superblock = super_block(alloc, version, blocks)?;
    let bitmap = bitmap(alloc, blocks)?;
    let inodes = first_inodes(alloc, Time::at(moment))?;
    write(disk, SUPERBLOCK, &superblock)?;
    write(disk, BITMAP, &bitmap)?;
    write(disk, FIRST_INODES, &inodes)?;
    sync(disk)
}

// The superblock of a disk of this version with `blocks` blocks.
fn super_block(alloc: Global, version: FormatVersion, blocks: u64) -> Result<Block, Refusal<()>>
    ensures bytes { IfOk result (λ block. block ≡ superblock_of version blocks) }
    ensures refusal { IsOkUnless result Refusal.NoMemory }
{
    let mut block = Block::try_new(alloc)?;
    block.copy_range(0, &front(version, blocks));
    Ok(block)
}

// The bitmap: the bit of each data block is clear, and all others are set.
fn bitmap(alloc: Global, blocks: u64) -> Result<Block, Refusal<()>>
    requires from { FIRST_DATA ≤ blocks }
    requires to { blocks ≤ MAX_BLOCKS }
    ensures bits { IfOk result (λ block. (k : ℕ) → k < BLOCK_BITS
        → bit_of block k ≡ nat_le (blocks - FIRST_DATA) k) }
    ensures refusal { IsOkUnless result Refusal.NoMemory }
{
    let mut block = Block::try_new(alloc)?;
    let data = (blocks - FIRST_DATA) as usize;
    for i in data..BLOCK_BITS as usize {
        block.set_bit(i, true);
    }
    Ok(block)
}

// The first block of inodes: the root directory's among zeros.
fn first_inodes(alloc: Global, made: Time) -> Result<Block, Refusal<()>>
    ensures root { IfOk result (λ block. slice_range block 128 256 ≡ inode_bytes (Node.Root made)) }
    ensures others { IfOk result (λ block. (i : ℕ) → i < 32 → i ≢ 1
        → slice_range block (i * 128) (i * 128 + 128) ≡ inode_bytes (Node.Free 0)) }
    ensures refusal { IsOkUnless result Refusal.NoMemory }
{
    let mut block = Block::try_new(alloc)?;
    block.copy_range(NODE_BYTES, &Node::Root(made).bytes());
    Ok(block)
}

// Writes a block. If that is refused the write may be pending or not.
fn write<D: BlockDisk>(disk: &mut D, block: u64, bytes: &Block) -> Result<(), Refusal<()>>
    requires { block < (D.state disk.old).past.size }
    ensures keeps { Keeps (D.state disk.old) (D.state disk.new) }
    ensures written { IsTrue (D.state disk.old).honest → OnOk result
        ((D.state disk.new).past ≡ past_after (written block bytes.now) (D.state disk.old).past) }
    ensures refusal { IfErr result (IsWritingRefusal (D.state disk.old) (D.state disk.new)) }
{
    match disk.write(block, bytes) {
        Ok(()) => Ok(()),
        Err(_) => Err(Refusal::DeviceFailed(())),
    }
}

// Makes the pending writes stable.
fn sync<D: BlockDisk>(disk: &mut D) -> Result<(), Refusal<()>>
    ensures keeps { Keeps (D.state disk.old) (D.state disk.new) }
    ensures synced { IsTrue (D.state disk.old).honest → OnOk result
        ((D.state disk.new).past ≡ past_after barrier (D.state disk.old).past) }
    ensures refusal { IfErr result (IsWritingRefusal (D.state disk.old) (D.state disk.new)) }
{
    match disk.barrier() {
        Ok(()) => Ok(()),
        Err(_) => Err(Refusal::DeviceFailed(())),
    }
}
