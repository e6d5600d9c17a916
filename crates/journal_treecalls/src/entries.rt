// Whether a directory has entries.
ghost use Rattle.std.specs.Prelude.{◌≡◌, [], IfOk, length};
ghost use Rattle.journal_treecalls.specs.Disks.{Learns};
ghost use Rattle.journal_treecalls.specs.Directories.{IsEntryIn, IsEntryOfBlock, IsEntryOfBlocks, IsEntryOf};
ghost use Rattle.journal_treecalls.specs.Seats.{AreWhole};

use crate::TreeDisk;
use crate::seats::{BlockNumbers, block_count, block_numbers};
use journal_treestore::{Entry, Head, PLACES};

// The number of a node that a directory has an entry for, if it has an entry.
pub(crate) fn find_entry<T: TreeDisk>(
    disk: &mut T,
    directory: &Head,
) -> Result<Option<u32>, T::Fault>
    requires first { T.writes disk.old ≡ [] }
    ensures learns { IfOk result (λ found. Learns (T.may_be disk.old) (T.may_be disk.new) (λ V. IsEntryOf V directory.now found)) }
    ensures first { T.writes disk.new ≡ [] }
{
    let numbers = block_numbers(disk, directory)?;
    let count = block_count(directory);
    find_in_blocks(disk, &numbers, count)
}

// The same of its first blocks, which have these numbers.
fn find_in_blocks<T: TreeDisk>(
    disk: &mut T,
    numbers: &BlockNumbers,
    count: u64,
) -> Result<Option<u32>, T::Fault>
    requires first { T.writes disk.old ≡ [] }
    requires whole { AreWhole numbers.now }
    ensures learns { IfOk result (λ found. Learns (T.may_be disk.old) (T.may_be disk.new) (λ V. IsEntryOfBlocks V numbers.now count found)) }
    ensures first { T.writes disk.new ≡ [] }
{
    for j in 0..count {
        match entry_of_block(disk, numbers.number(j))? {
            Some(other) => return Ok(Some(other)),
            None => {}
        }
    }
    Ok(None)
}

// The same of a block of this number. Block 0 is none.
fn entry_of_block<T: TreeDisk>(disk: &mut T, number: u32) -> Result<Option<u32>, T::Fault>
    requires first { T.writes disk.old ≡ [] }
    ensures learns { IfOk result (λ found. Learns (T.may_be disk.old) (T.may_be disk.new) (λ V. IsEntryOfBlock V number found)) }
    ensures first { T.writes disk.new ≡ [] }
{
    if number == 0 {
        return Ok(None);
    }
    let block = disk.block(number)?;
    Ok(entry_in(block.bytes()))
}

// The number that the first entry of a block names.
fn entry_in(block: &[u8]) -> Option<u32>
    requires { length block.now ≡ 4096 }
    ensures { IsEntryIn block.now result }
{
    for at in 0..PLACES {
        let number = Entry::read(block, at).number;
        if number != 0 {
            return Some(number);
        }
    }
    None
}
