// The blocks of a file, many at once.
ghost use Rattle.std.specs.Prelude.{ℕ, ◌≡◌, ◌<◌, ◌≤◌, ◌+◌, ◌*◌, ◌-◌, ◌^◌, [], ◌++◌, length, take, drop, slice_index, replicate, false, IsTrue, IfOk, IfErr, OnOk, if◌then◌else◌};
ghost use Rattle.std.specs.List.Sorted.{IsStrictlyIncreasing};
ghost use Rattle.std.specs.List.{AllByRecursion};
ghost use Rattle.journal_world.specs.declared.layout.TheConstants.{BLOCK_BYTES};
ghost use Rattle.journal_inode.specs.Places.{HasFiles};
ghost use Rattle.journal_inode.specs.declared.node.TheConstants.{MORE_BLOCKS};
ghost use Rattle.journal_inode.specs.declared.node.Node.TheVariants.{File};
ghost use Rattle.journal_inode.specs.Nodes.{Fits};
ghost use Rattle.journal_inode.specs.declared.place.TheConstants.{INODES};
ghost use Rattle.journal_inode.specs.Sound.{held};
ghost use Rattle.journal_attempts.specs.Refusals.{IsAttemptEnd};
ghost use Rattle.journal_filestore.specs.Changes.{extra_blocks_of, with_blocks};
ghost use Rattle.journal_filestore.specs.Doing.{LearnsThat, WritesEach, HasReadNoBlocks, HasReadNoData, HasBit, AreClear, AreFresh, bits_written, blocks_written, file_written};

use crate::block_reservation::BlockReservation;
use crate::objects::{read_bit, read_block, write_bit, write_block, write_node};
use crate::operation::AttemptEnd;
use crate::store::FileTxn;
use journal_attempts::AttemptFault;
use journal_disk::BlockDisk;
use journal_history::Naming;
use journal_inode::{FileNode, MORE_BLOCKS, Node, Time, Version};
use journal_world::{BLOCK_BYTES, Refusal};
use std::alloc::Global;
use std::sync::Wait;

// The content of data blocks, one after another.
pub(crate) fn read_blocks<'j, 'b, D: BlockDisk, J: Naming, V: Version, W: Wait>(
    rt: &W,
    txn: &mut FileTxn<'j, 'b, D, J, V>,
    numbers: &[u64],
) -> Result<Vec<u8>, AttemptEnd<'b, J, V>>
    requires cut { HasFiles J.layout }
    requires some { 0 < length numbers.now }
    requires unread { HasReadNoBlocks txn.old }
    requires writes { txn.old.writes ≡ [] }
    ensures told { IfOk result (λ bytes. LearnsThat V.VERSION J.layout txn.old txn.new (λ m. held m numbers.now ≡ bytes.items)) }
    ensures whole { IfOk result (λ bytes. length bytes.items ≡ BLOCK_BYTES * length numbers.now) }
    ensures refusal { IfErr result IsAttemptEnd }
{
    let mut bytes = read_block(rt, txn, numbers[0])?.into_bytes();
    for j in 1..numbers.len() {
        // No sound file has a block twice.
        if numbers[..j].contains(&numbers[j]) {
            return Err(AttemptFault::Refused(Refusal::BadAddress));
        }
        let block = read_block(rt, txn, numbers[j])?;
        bytes.extend_from_slice(block.bytes())?;
    }
    Ok(bytes)
}

// True if the bits of these blocks are clear. The numbers rise.
fn are_clear<'j, 'b, D: BlockDisk, J: Naming, V: Version, W: Wait>(
    rt: &W,
    txn: &mut FileTxn<'j, 'b, D, J, V>,
    numbers: &[u64],
) -> Result<bool, AttemptEnd<'b, J, V>>
    requires cut { HasFiles J.layout }
    requires rising { IsStrictlyIncreasing numbers.now }
    requires unread { HasReadNoData txn.old }
    requires writes { txn.old.writes ≡ [] }
    ensures told { IfOk result (λ clear. LearnsThat V.VERSION J.layout txn.old txn.new (λ m. IsTrue clear → AreClear m numbers.now)) }
    ensures bits { IfOk result (λ clear. IsTrue clear → AllByRecursion HasBit numbers.now) }
    ensures unread { OnOk result (HasReadNoBlocks txn.new) }
    ensures refusal { IfErr result IsAttemptEnd }
{
    for number in numbers {
        if read_bit(rt, txn, *number)? {
            return Ok(false);
        }
    }
    Ok(true)
}

// Takes `count` blocks that no file has, if as many are handed out: their bits are clear. `count`
// is above 0.
pub(crate) fn take_blocks<'j, 'b, D: BlockDisk, J: Naming, V: Version, W: Wait>(
    rt: &W,
    txn: &mut FileTxn<'j, 'b, D, J, V>,
    space: &mut BlockReservation,
    count: usize,
) -> Result<bool, AttemptEnd<'b, J, V>>
    requires cut { HasFiles J.layout }
    requires space { space.old.taken.items ≡ [] }
    requires unread { HasReadNoData txn.old }
    requires writes { txn.old.writes ≡ [] }
    ensures told { IfOk result (λ took. LearnsThat V.VERSION J.layout txn.old txn.new (λ m. IsTrue took → AreClear m space.new.taken.items)) }
    ensures fresh { IfOk result (λ took. IsTrue took → AreFresh count space.new.taken.items) }
    ensures short { IfOk result (λ took. took ≡ false → 0 < count) }
    ensures unread { OnOk result (HasReadNoBlocks txn.new) }
    ensures refusal { IfErr result IsAttemptEnd }
{
    if count == 0 {
        return Ok(true);
    }
    if !space.take(rt, count)? {
        return Ok(false);
    }
    are_clear(rt, txn, &space.taken)
}

// Sets or clears the bits of data blocks.
pub(crate) fn write_bits<'j, 'b, D: BlockDisk, J: Naming, V: Version, W: Wait>(
    rt: &W,
    txn: &mut FileTxn<'j, 'b, D, J, V>,
    numbers: &[u64],
    is_set: bool,
) -> Result<(), AttemptEnd<'b, J, V>>
    requires cut { HasFiles J.layout }
    ensures writes { OnOk result (WritesEach J.layout txn.old txn.new (bits_written (if is_set then 1 else 0) numbers.now)) }
    ensures refusal { IfErr result IsAttemptEnd }
{
    for number in numbers {
        write_bit(rt, txn, *number, is_set)?;
    }
    Ok(())
}

// Overwrites data blocks by consecutive bytes.
fn write_blocks<'j, 'b, D: BlockDisk, J: Naming, V: Version, W: Wait>(
    rt: &W,
    txn: &mut FileTxn<'j, 'b, D, J, V>,
    numbers: &[u64],
    bytes: &[u8],
) -> Result<(), AttemptEnd<'b, J, V>>
    requires cut { HasFiles J.layout }
    requires whole { length bytes.now ≡ BLOCK_BYTES * length numbers.now }
    ensures writes { OnOk result (WritesEach J.layout txn.old txn.new (blocks_written numbers.now bytes.now)) }
    ensures refusal { IfErr result IsAttemptEnd }
{
    for j in 0..numbers.len() {
        let from = j * BLOCK_BYTES;
        write_block(rt, txn, numbers[j], &bytes[from..from + BLOCK_BYTES])?;
    }
    Ok(())
}

// Overwrites a file's inode, the bits of its new blocks, and the blocks that get these bytes.
pub(crate) fn write_file<'j, 'b, D: BlockDisk, J: Naming, V: Version, W: Wait>(
    rt: &W,
    txn: &mut FileTxn<'j, 'b, D, J, V>,
    number: u32,
    file: FileNode,
    fresh: &[u64],
    numbers: &[u64],
    bytes: &[u8],
) -> Result<(), AttemptEnd<'b, J, V>>
    requires cut { HasFiles J.layout }
    requires number { number < INODES }
    requires whole { length bytes.now ≡ BLOCK_BYTES * length numbers.now }
    ensures writes { OnOk result (WritesEach J.layout txn.old txn.new (file_written number file fresh.now numbers.now bytes.now)) }
    ensures refusal { IfErr result IsAttemptEnd }
{
    write_bits(rt, txn, fresh, true)?;
    write_blocks(rt, txn, numbers, bytes)?;
    write_node(rt, txn, number, &Node::File(file))
}

// The content of `count` blocks in a row: first these data blocks, then zeros.
pub(crate) fn read_span<'j, 'b, D: BlockDisk, J: Naming, V: Version, W: Wait>(
    rt: &W,
    txn: &mut FileTxn<'j, 'b, D, J, V>,
    numbers: &[u64],
    count: usize,
    alloc: Global,
) -> Result<Vec<u8>, AttemptEnd<'b, J, V>>
    requires cut { HasFiles J.layout }
    requires fits { length numbers.now ≤ count }
    requires few { count ≤ 1 + MORE_BLOCKS }
    requires unread { HasReadNoBlocks txn.old }
    requires writes { txn.old.writes ≡ [] }
    ensures told { IfOk result (λ bytes. LearnsThat V.VERSION J.layout txn.old txn.new
        (λ m. bytes.items ≡ held m numbers.now ++ replicate (BLOCK_BYTES * count - BLOCK_BYTES * length numbers.now) 0)) }
    ensures whole { IfOk result (λ bytes. length bytes.items ≡ BLOCK_BYTES * count) }
    ensures refusal { IfErr result IsAttemptEnd }
{
    if numbers.is_empty() {
        return Ok(vec![in alloc; 0; count * BLOCK_BYTES]?);
    }
    let mut bytes = read_blocks(rt, txn, numbers)?;
    bytes.resize(count * BLOCK_BYTES, 0)?;
    Ok(bytes)
}

// The inode of a file with another size and time: it keeps some of its further blocks, and gets new
// ones after them.
pub(crate) fn with_blocks(
    file: FileNode,
    kept: usize,
    fresh: &[u64],
    size: u64,
    mtime: Time,
) -> FileNode
    requires fits { Fits (File file) }
    requires room { kept + length fresh.now ≤ MORE_BLOCKS }
    ensures node { result ≡ with_blocks file kept fresh.now size mtime }
    ensures fits { Fits (File result) }
{
    FileNode {
        size,
        more: extra_blocks_of(&file.more[..kept], fresh),
        mtime,
        ..file
    }
}

// The further blocks of an inode: these numbers, and then the new ones.
pub(crate) fn extra_blocks_of(kept: &[u64], fresh: &[u64]) -> [u64; MORE_BLOCKS]
    requires { length kept.now + length fresh.now ≤ MORE_BLOCKS }
    ensures numbers { result ≡ extra_blocks_of kept.now fresh.now }
    ensures fits { (k : ℕ) → slice_index result k < 2 ^ 64 }
{
    let mut more = [0; MORE_BLOCKS];
    put(&mut more, 0, kept);
    put(&mut more, kept.len(), fresh);
    more
}

// Writes numbers over others, from a place on.
fn put(numbers: &mut [u64], at: usize, piece: &[u64])
    requires { at + length piece.now ≤ length numbers.old }
    ensures { numbers.new ≡ take at numbers.old ++ piece.now ++ drop (at + length piece.now) numbers.old }
{
    numbers[at..at + piece.len()].copy_from_slice(piece);
}
