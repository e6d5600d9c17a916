// The blocks of an inode, at the places that records of who has a block name. The numbers of those
// of a file that come after its first 48 lie in index blocks, whose numbers lie in a block too.
ghost use Rattle.std.specs.Prelude.{◌≡◌, ◌<◌, ◌*◌, ◌/◌, ◌%◌, [], IfOk};
ghost use Rattle.journal_treestore.specs.declared.inode.TheConstants.{INDEX_NUMBERS};
ghost use Rattle.journal_treestore.specs.Views.{number_in};
ghost use Rattle.journal_treecalls.specs.Disks.{Learns};
ghost use Rattle.journal_treecalls.specs.Fetches.{file_blocks, file_index};

use crate::TreeDisk;
use journal_tree::MOST_FILE_BLOCKS;
use journal_treestore::{
    DIRECT_BLOCKS, FIRST_INDEX_PLACE, Head, INDEX_NUMBERS, INDEX_PLACE, number_at,
};

// The block that an inode has at a place, 0 where it has none.
pub(crate) fn block_at<T: TreeDisk>(disk: &mut T, head: &Head, place: u32) -> Result<u32, T::Fault>
    requires first { T.writes disk.old ≡ [] }
    ensures learns { IfOk result (λ block. Learns (T.may_be disk.old) (T.may_be disk.new) (λ V. file_blocks V head.now place ≡ block)) }
    ensures first { T.writes disk.new ≡ [] }
{
    let at = place as usize;
    if at < DIRECT_BLOCKS {
        return Ok(head.blocks[at]);
    }
    if u64::from(place) < MOST_FILE_BLOCKS {
        return indexed_block(disk, head, at - DIRECT_BLOCKS);
    }
    if place == INDEX_PLACE {
        return Ok(head.index);
    }
    if place < FIRST_INDEX_PLACE {
        return Ok(0);
    }
    let i = (place - FIRST_INDEX_PLACE) as usize;
    if INDEX_NUMBERS <= i {
        return Ok(0);
    }
    index_block(disk, head, i)
}

// A block of a file whose number lies in one of its index blocks, by the number of those before it
// there.
fn indexed_block<T: TreeDisk>(disk: &mut T, head: &Head, after: usize) -> Result<u32, T::Fault>
    requires first { T.writes disk.old ≡ [] }
    requires low { after < INDEX_NUMBERS * INDEX_NUMBERS }
    ensures learns { IfOk result (λ block. Learns (T.may_be disk.old) (T.may_be disk.new) (λ V. number_in V (file_index V head.now (after / INDEX_NUMBERS)) (after % INDEX_NUMBERS) ≡ block)) }
    ensures first { T.writes disk.new ≡ [] }
{
    let leaf = index_block(disk, head, after / INDEX_NUMBERS)?;
    number_in(disk, leaf, after % INDEX_NUMBERS)
}

// Index block i of a file, 0 where it has none.
pub(crate) fn index_block<T: TreeDisk>(disk: &mut T, head: &Head, i: usize) -> Result<u32, T::Fault>
    requires first { T.writes disk.old ≡ [] }
    requires low { i < INDEX_NUMBERS }
    ensures learns { IfOk result (λ block. Learns (T.may_be disk.old) (T.may_be disk.new) (λ V. file_index V head.now i ≡ block)) }
    ensures first { T.writes disk.new ≡ [] }
{
    number_in(disk, head.index, i)
}

// Number k of a block of numbers. Block 0 is none, and its numbers are 0.
pub(crate) fn number_in<T: TreeDisk>(disk: &mut T, block: u32, k: usize) -> Result<u32, T::Fault>
    requires first { T.writes disk.old ≡ [] }
    requires low { k < INDEX_NUMBERS }
    ensures learns { IfOk result (λ number. Learns (T.may_be disk.old) (T.may_be disk.new) (λ V. number_in V block k ≡ number)) }
    ensures first { T.writes disk.new ≡ [] }
{
    if block == 0 {
        return Ok(0);
    }
    let numbers = disk.block(block)?;
    Ok(number_at(numbers.bytes(), k))
}
