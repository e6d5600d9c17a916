// The nodes and the blocks of a tree are counted.
ghost use Rattle.journal_treestore.specs.Places.{IsCut};

use crate::looking::{Looker, number_of};
use journal_disk::BlockDisk;
use journal_history::Naming;
use journal_tree::Free;
use journal_treefs::TreeRule;
use journal_treestore::{Cut, Head, INDEX_NUMBERS, Inode};
use journal_world::Refusal;
use std::sync::Wait;

/// How many numbers and blocks of a disk are in use.
#[derive(Clone, Copy, Debug, PartialEq, Eq)]
pub(crate) struct Used {
    /// The nodes, with the root.
    pub numbers: u64,
    /// The blocks that nodes have.
    pub blocks: u64,
}

impl Used {
    /// So much is in use beside.
    pub fn and(self, numbers: u64, blocks: u64) -> Used {
        Used {
            numbers: self.numbers.saturating_add(numbers),
            blocks: self.blocks.saturating_add(blocks),
        }
    }

    /// How much of a disk that is cut so is free. Number 0 is no node's.
    pub fn free(self, cut: Cut) -> Free
        requires { IsCut cut }
    {
        Free {
            blocks: cut.data_blocks().saturating_sub(self.blocks),
            numbers: (cut.numbers - 1).saturating_sub(self.numbers),
        }
    }
}

/// Counts what is in use, by one look at each inode and at each index block.
///
/// # Errors
/// - Those of a read.
pub(crate) fn count_used<D: BlockDisk, R: TreeRule, J: Naming, W: Wait>(
    rt: &W,
    looker: &mut Looker<'_, '_, D, R, J>,
) -> Result<Used, Refusal<()>> {
    let mut used = Used {
        numbers: 0,
        blocks: 0,
    };
    let count = looker.cut().numbers;
    for index in 0..count.min(u64::from(u32::MAX)) {
        if let Inode::Used(head) = looker.inode(rt, index as u32)? {
            used = used.and(1, blocks_of(rt, looker, &head)?);
        }
    }
    Ok(used)
}

// How many blocks an inode has. Where it has none, the number is 0.
fn blocks_of<D: BlockDisk, R: TreeRule, J: Naming, W: Wait>(
    rt: &W,
    looker: &mut Looker<'_, '_, D, R, J>,
    head: &Head,
) -> Result<u64, Refusal<()>> {
    let first = head.blocks.iter().filter(|block| **block != 0).count() as u64;
    let indexed = indexed_blocks(rt, looker, head.index)?;
    Ok(indexed.saturating_add(first))
}

// How many blocks an inode has whose numbers lie in index blocks, with these, and with the block
// that has the numbers of these.
fn indexed_blocks<D: BlockDisk, R: TreeRule, J: Naming, W: Wait>(
    rt: &W,
    looker: &mut Looker<'_, '_, D, R, J>,
    index: u32,
) -> Result<u64, Refusal<()>> {
    let Some(numbers) = looker.numbers(rt, index)? else {
        return Ok(0);
    };
    let mut count: u64 = 1;
    for place in 0..INDEX_NUMBERS {
        let block = number_of(numbers.bytes(), place);
        if let Some(leaf) = looker.numbers(rt, block)? {
            count = count
                .saturating_add(1)
                .saturating_add(count_numbers(leaf.bytes()));
        }
    }
    Ok(count)
}

// How many of the numbers of a block are not 0.
fn count_numbers(bytes: &[u8]) -> u64 {
    let mut count: u64 = 0;
    for place in 0..INDEX_NUMBERS {
        if number_of(bytes, place) != 0 {
            count = count.saturating_add(1);
        }
    }
    count
}
