// Entries of directories are put at their places, several at once. A block in which several lie is
// read once and written once.
ghost use Rattle.std.specs.Prelude.{◌≡◌, ◌≤◌, [], IfOk, length};
ghost use Rattle.journal_treecalls.specs.Changes.{AreInside, IsInside, is_of, is_in, last_block, changed_by, changed_block, block_count, PutsBlocks, PutsChanges};

use crate::TreeDisk;
use crate::bytes::put_entry;
use journal_treestore::Entry;
use journal_world::Value;

// An entry, and the place of a block where it is put.
#[derive(Clone, Copy)]
pub(crate) struct PlacedEntry {
    pub(crate) block: u32,
    pub(crate) at: usize,
    pub(crate) entry: Entry,
}

// Entries are put at their places, one after the other.
pub(crate) fn put_changes<T: TreeDisk>(
    disk: &mut T,
    changes: &[Option<PlacedEntry>],
) -> Result<(), T::Fault>
    requires first { T.writes disk.old ≡ [] }
    requires inside { AreInside changes.now }
    ensures puts { IfOk result (λ _. PutsChanges (T.may_be disk.old) (T.may_be disk.new) (T.writes disk.new) changes.now) }
    ensures few { IfOk result (λ _. length (T.writes disk.new) ≤ block_count changes.now) }
{
    put_blocks(disk, changes, changes)
}

// The blocks of some of the changes are written, each with all of the changes. All blocks are read
// before the first is written.
fn put_blocks<T: TreeDisk>(
    disk: &mut T,
    changes: &[Option<PlacedEntry>],
    some: &[Option<PlacedEntry>],
) -> Result<(), T::Fault>
    requires first { T.writes disk.old ≡ [] }
    requires inside { AreInside changes.now }
    ensures puts { IfOk result (λ _. PutsBlocks (T.may_be disk.old) (T.may_be disk.new) (T.writes disk.new) changes.now some.now) }
    ensures few { IfOk result (λ _. length (T.writes disk.new) ≤ block_count some.now) }
{
    let Some((change, others)) = some.split_first() else {
        return Ok(());
    };
    match last_block(change, others) {
        None => put_blocks(disk, changes, others),
        Some(number) => {
            let block = disk.block(number)?;
            let changed = changed_block(block, number, changes);
            put_blocks(disk, changes, others)?;
            disk.put_block(number, changed)
        }
    }
}

// The block of a change, if none of the others is in it.
fn last_block(change: &Option<PlacedEntry>, others: &[Option<PlacedEntry>]) -> Option<u32>
    ensures { result ≡ last_block change.now others.now }
{
    match change {
        None => None,
        Some(placed) => {
            if is_in(placed.block, others) {
                None
            } else {
                Some(placed.block)
            }
        }
    }
}

// True if one of the changes is in the block.
fn is_in(number: u32, changes: &[Option<PlacedEntry>]) -> bool
    ensures { result ≡ is_in changes.now number }
{
    let mut rest = changes;
    while let Some((change, others)) = rest.split_first() {
        if is_of(number, change) {
            return true;
        }
        rest = others;
    }
    false
}

// True if the change is in the block.
fn is_of(number: u32, change: &Option<PlacedEntry>) -> bool
    ensures { result ≡ is_of change.now number }
{
    match change {
        None => false,
        Some(placed) => placed.block == number,
    }
}

// The block with the changes that are in it.
fn changed_block(block: Value, number: u32, changes: &[Option<PlacedEntry>]) -> Value
    requires whole { length block ≡ 4096 }
    requires inside { AreInside changes.now }
    ensures is { result ≡ changed_block changes.now number block }
    ensures whole { length result ≡ 4096 }
{
    let mut rest = changes;
    let mut changed = block;
    while let Some((change, others)) = rest.split_first() {
        changed = changed_by(changed, number, change);
        rest = others;
    }
    changed
}

// The block with one change, if that is in it.
fn changed_by(block: Value, number: u32, change: &Option<PlacedEntry>) -> Value
    requires whole { length block ≡ 4096 }
    requires inside { IsInside change.now }
    ensures is { result ≡ changed_by change.now number block }
    ensures whole { length result ≡ 4096 }
{
    match change {
        None => block,
        Some(placed) => {
            if placed.block == number {
                put_entry(block, placed.at, placed.entry)
            } else {
                block
            }
        }
    }
}
