// A node gets blocks.
ghost use Rattle.std.specs.Prelude.{◌≡◌, ◌<◌, ◌≤◌, ◌+◌, ◌^◌, IfOk, length, slice_set};
ghost use Rattle.journal_tree.specs.declared.limits.TheConstants.{MOST_BLOCKS};
ghost use Rattle.journal_treestore.specs.Owners.{owner_from};
ghost use Rattle.journal_treecalls.specs.Blocks.{owner_of};
ghost use Rattle.journal_treecalls.specs.Overlays.{LaysBlocks, laying_at};
ghost use Rattle.journal_treecalls.specs.Reaches.{reach_count};
ghost use Rattle.journal_treecalls.specs.Rooms.{IsFitGrowth, IsInsidePlace, further_number, grown_head};
ghost use Rattle.journal_treecalls.specs.Symlinks.{IsApartUnless, IsUnreachedUnless, with_first};

use crate::TreeDisk;
use crate::overlay::put_places;
use crate::reach::{Changing, reach_count, reach_place};
use crate::room::NewPlace;
use journal_tree::BLOCK_BYTES;
use journal_treestore::{DIRECT_BLOCKS, Head, OWNER_BYTES, Owner};

// A block that a directory gets: which of its blocks, and the numbers of its blocks before and
// after.
#[derive(Drop)]
pub(crate) struct Growth {
    pub(crate) j: u64,
    pub(crate) change: Changing,
}

// The bytes of the record of a block that an inode has at a place.
pub(crate) fn owner_at(number: u32, place: u64) -> [u8; OWNER_BYTES]
    requires { place < 2 ^ 32 }
    ensures { owner_from result ≡ owner_of number place }
{
    let place = place as u32;
    let owner = Owner { number, place };
    owner.bytes()
}

// ── a directory ──

// The directory with the block that it gets.
pub(crate) fn grown(directory: &Head, growth: &Growth) -> Head
    requires { growth.now.j < MOST_BLOCKS }
    ensures { result ≡ grown_head directory.now growth.now }
{
    let head = *directory;
    Head {
        size: head.size.max(BLOCK_BYTES * (growth.j + 1)),
        blocks: growth.change.new.direct,
        index: growth.change.new.index,
        ..head
    }
}

// The number of the block that it gets.
pub(crate) fn further_number(growth: &Growth) -> u32
    requires { IsFitGrowth growth.now }
    ensures { result ≡ further_number growth.now }
{
    growth.change.new.number(growth.change.reach, growth.j)
}

// The blocks that it gets are written: its further block, with these bytes, and the index blocks
// whose numbers are others. So are the records of those that are new.
pub(crate) fn put_growth<T: TreeDisk>(
    disk: &mut T,
    number: u32,
    growth: &Growth,
    bytes: &[u8],
) -> Result<(), T::Fault>
    requires fits { IsFitGrowth growth.now }
    requires whole { length bytes.now ≡ 4096 }
    ensures lays { IfOk result (λ _. LaysBlocks (T.may_be disk.old) (T.may_be disk.new) (T.writes disk.old) (T.writes disk.new) number (laying_at growth.now.change bytes.now) (reach_count growth.now.change.reach)) }
    ensures few { IfOk result (λ _. length (T.writes disk.new) ≤ length (T.writes disk.old) + 6) }
{
    put_places(disk, number, &growth.change, bytes)
}

// True if the block is one of those that a directory gets or has for this place.
pub(crate) fn is_taken(place: &NewPlace, block: u32) -> bool
    requires { IsInsidePlace place.now }
    ensures { IsApartUnless place.now block result }
{
    match place {
        NewPlace::Here(_) => false,
        NewPlace::Further(growth) => is_reached(growth, block),
    }
}

// The same of a further block.
fn is_reached(growth: &Growth, block: u32) -> bool
    requires { IsFitGrowth growth.now }
    ensures { IsUnreachedUnless growth.now block result }
{
    let reach = growth.change.reach;
    for m in 0..reach_count(reach) {
        if growth.change.new.number(reach, reach_place(reach, m)) == block {
            return true;
        }
    }
    false
}

// ── a link ──

// A node with this as its first block.
pub(crate) fn with_first(head: &Head, block: u32) -> Head
    ensures { result ≡ with_first head.now block }
{
    let old = *head;
    Head {
        blocks: with_block(old.blocks, 0, block),
        ..old
    }
}

// The blocks, with another one at a place.
fn with_block(blocks: [u32; DIRECT_BLOCKS], at: usize, block: u32) -> [u32; DIRECT_BLOCKS]
    requires { at < DIRECT_BLOCKS }
    ensures { result ≡ slice_set blocks at block }
{
    let mut changed = blocks;
    changed[at] = block;
    changed
}
