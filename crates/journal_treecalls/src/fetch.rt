// Bytes of a file, from its blocks.
ghost use Rattle.std.specs.Prelude.{◌≡◌, ◌<◌, ◌≤◌, ◌+◌, ◌-◌, ◌*◌, ◌^◌, [], IfOk, length, get_or};
ghost use Rattle.journal_tree.specs.declared.limits.TheConstants.{MOST_FILE_BLOCKS};
ghost use Rattle.journal_treestore.specs.declared.inode.TheConstants.{INDEX_NUMBERS};
ghost use Rattle.journal_treecalls.specs.Disks.{Learns};
ghost use Rattle.journal_treecalls.specs.Fetches.{file_blocks, number_at, leaf_begin, first_block, last_block, first_leaf, last_leaf, IsBlank, is_in, is_whole, is_needed, Fills, FillsBlock, FillsBlocks, IsFetched};

use crate::TreeDisk;
use crate::bytes::put;
use crate::index::index_block;
use journal_tree::{BLOCK_BYTES, MOST_BYTES, MOST_FILE_BLOCKS};
use journal_treestore::{DIRECT_BLOCKS, Head, INDEX_NUMBERS, number_at};

// Bytes of a file: those from one on that come before another.
#[derive(Clone, Copy)]
pub(crate) struct Span {
    pub(crate) from: u64,
    pub(crate) to: u64,
}

// Puts the bytes of a file from an offset on, as many as there are zeros. A block that lies in a
// span as a whole is not read, and its bytes stay zero. Each block is read once, but that with the
// numbers of the index blocks for each of these in which numbers are needed.
pub(crate) fn fetch<T: TreeDisk>(
    disk: &mut T,
    head: &Head,
    offset: u64,
    but: Span,
    bytes: &mut [u8],
) -> Result<(), T::Fault>
    requires first { T.writes disk.old ≡ [] }
    requires blank { IsBlank bytes.old }
    requires few { offset + length bytes.old < 2 ^ 64 }
    ensures learns { IfOk result (λ _. Learns (T.may_be disk.old) (T.may_be disk.new) (λ V. IsFetched V (file_blocks V head.now) but offset MOST_FILE_BLOCKS bytes.new)) }
    ensures long { length bytes.new ≡ length bytes.old }
    ensures first { T.writes disk.new ≡ [] }
{
    fetch_direct(disk, &head.blocks, offset, but, bytes)?;
    let begin = first_leaf(offset);
    let last = last_leaf(offset + bytes.len() as u64);
    for i in begin..last {
        fetch_leaf(disk, head, i, offset, but, bytes)?;
    }
    Ok(())
}

// The block in which a byte lies. It may be one more than a file may have.
fn first_block(from: u64) -> u64
    ensures { result ≡ first_block from }
{
    (from / BLOCK_BYTES).min(MOST_FILE_BLOCKS)
}

// How many blocks a file may have before a byte.
pub(crate) fn last_block(to: u64) -> u64
    ensures { result ≡ last_block to }
{
    (to.min(MOST_BYTES) + (BLOCK_BYTES - 1)) / BLOCK_BYTES
}

// The index block in which the number of the block lies that has a byte.
fn first_leaf(from: u64) -> u64
    ensures { result ≡ first_leaf from }
{
    first_block(from).saturating_sub(DIRECT_BLOCKS as u64) / INDEX_NUMBERS as u64
}

// How many index blocks a file may have before a byte.
pub(crate) fn last_leaf(to: u64) -> u64
    ensures { result ≡ last_leaf to }
{
    let numbers = INDEX_NUMBERS as u64;
    let after = last_block(to).saturating_sub(DIRECT_BLOCKS as u64);
    (after + (numbers - 1)) / numbers
}

// Puts the bytes of the first blocks of a file, of these numbers.
fn fetch_direct<T: TreeDisk>(
    disk: &mut T,
    blocks: &[u32; DIRECT_BLOCKS],
    offset: u64,
    but: Span,
    bytes: &mut [u8],
) -> Result<(), T::Fault>
    requires first { T.writes disk.old ≡ [] }
    requires few { offset + length bytes.old < 2 ^ 64 }
    ensures learns { IfOk result (λ _. Learns (T.may_be disk.old) (T.may_be disk.new) (λ V. FillsBlocks V (λ j. get_or blocks.now j 0) but 0 DIRECT_BLOCKS offset bytes.old bytes.new)) }
    ensures long { length bytes.new ≡ length bytes.old }
    ensures first { T.writes disk.new ≡ [] }
{
    let most = DIRECT_BLOCKS as u64;
    let begin = first_block(offset).min(most);
    let last = last_block(offset + bytes.len() as u64).min(most);
    for j in begin..last {
        fetch_block(disk, blocks[j as usize], j, offset, but, bytes)?;
    }
    Ok(())
}

// Puts the bytes of the blocks of a file whose numbers lie in index block i.
fn fetch_leaf<T: TreeDisk>(
    disk: &mut T,
    head: &Head,
    i: u64,
    offset: u64,
    but: Span,
    bytes: &mut [u8],
) -> Result<(), T::Fault>
    requires first { T.writes disk.old ≡ [] }
    requires low { i < INDEX_NUMBERS }
    requires few { offset + length bytes.old < 2 ^ 64 }
    ensures learns { IfOk result (λ _. Learns (T.may_be disk.old) (T.may_be disk.new) (λ V. FillsBlocks V (file_blocks V head.now) but (leaf_begin i) (leaf_begin (i + 1)) offset bytes.old bytes.new)) }
    ensures long { length bytes.new ≡ length bytes.old }
    ensures first { T.writes disk.new ≡ [] }
{
    let number = index_block(disk, head, i as usize)?;
    if number == 0 {
        return Ok(());
    }
    let leaf = disk.block(number)?;
    fetch_numbers(disk, leaf.bytes(), i, offset, but, bytes)
}

// Puts them, where index block i has these bytes.
fn fetch_numbers<T: TreeDisk>(
    disk: &mut T,
    leaf: &[u8],
    i: u64,
    offset: u64,
    but: Span,
    bytes: &mut [u8],
) -> Result<(), T::Fault>
    requires first { T.writes disk.old ≡ [] }
    requires whole { length leaf.now ≡ 4096 }
    requires low { i < INDEX_NUMBERS }
    requires few { offset + length bytes.old < 2 ^ 64 }
    ensures learns { IfOk result (λ _. Learns (T.may_be disk.old) (T.may_be disk.new) (λ V. FillsBlocks V (λ j. number_at leaf.now (j - leaf_begin i)) but (leaf_begin i) (leaf_begin (i + 1)) offset bytes.old bytes.new)) }
    ensures long { length bytes.new ≡ length bytes.old }
    ensures first { T.writes disk.new ≡ [] }
{
    let numbers = INDEX_NUMBERS as u64;
    let most = DIRECT_BLOCKS as u64 + numbers * i;
    let begin = first_block(offset).max(most).min(most + numbers);
    let last = last_block(offset + bytes.len() as u64).min(most + numbers);
    for j in begin..last {
        let number = number_at(leaf, (j - most) as usize);
        fetch_block(disk, number, j, offset, but, bytes)?;
    }
    Ok(())
}

// Puts the bytes of block j of a file, which has this number. Block 0 is none.
fn fetch_block<T: TreeDisk>(
    disk: &mut T,
    number: u32,
    j: u64,
    offset: u64,
    but: Span,
    bytes: &mut [u8],
) -> Result<(), T::Fault>
    requires first { T.writes disk.old ≡ [] }
    requires low { j < MOST_FILE_BLOCKS }
    requires few { offset + length bytes.old < 2 ^ 64 }
    ensures learns { IfOk result (λ _. Learns (T.may_be disk.old) (T.may_be disk.new) (λ V. FillsBlock V number (is_whole but j) j offset bytes.old bytes.new)) }
    ensures long { length bytes.new ≡ length bytes.old }
    ensures first { T.writes disk.new ≡ [] }
{
    if number == 0 {
        return Ok(());
    }
    let end = offset + bytes.len() as u64;
    if !is_needed(but, offset, end, j) {
        return Ok(());
    }
    let block = disk.block(number)?;
    fill(bytes, offset, block.bytes(), j);
    Ok(())
}

// True if block j of a file has bytes from one to before another, and does not lie in the span as a
// whole.
fn is_needed(but: Span, from: u64, to: u64, j: u64) -> bool
    requires { j < MOST_FILE_BLOCKS }
    ensures { result ≡ is_needed but from to j }
{
    is_in(from, to, j) && !is_whole(but, j)
}

// True if block j of a file has bytes from one to before another.
pub(crate) fn is_in(from: u64, to: u64, j: u64) -> bool
    requires { j < MOST_FILE_BLOCKS }
    ensures { result ≡ is_in from to j }
{
    BLOCK_BYTES * j < to && from < BLOCK_BYTES * (j + 1)
}

// True if all bytes of block j are in the span.
fn is_whole(span: Span, j: u64) -> bool
    requires { j < MOST_FILE_BLOCKS }
    ensures { result ≡ is_whole span j }
{
    span.from <= BLOCK_BYTES * j && BLOCK_BYTES * (j + 1) <= span.to
}

// Puts the bytes of block j of a file that are among those from an offset on.
fn fill(bytes: &mut [u8], offset: u64, block: &[u8], j: u64)
    requires whole { length block.now ≡ 4096 }
    requires low { j < MOST_FILE_BLOCKS }
    requires few { offset + length bytes.old < 2 ^ 64 }
    requires before { 4096 * j < offset + length bytes.old }
    requires after { offset < 4096 * (j + 1) }
    ensures { Fills block.now j offset bytes.old bytes.new }
{
    let begin = BLOCK_BYTES * j;
    let end = offset + bytes.len() as u64;
    let from = begin.max(offset);
    let to = end.min(begin + BLOCK_BYTES);
    let piece = &block[(from - begin) as usize..(to - begin) as usize];
    put(bytes, (from - offset) as usize, piece);
}
