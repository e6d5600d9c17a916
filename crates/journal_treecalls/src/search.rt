// A name is looked for in a directory.
ghost use Rattle.std.specs.Prelude.{◌≡◌, ◌<◌, [], length, IfOk};
ghost use Rattle.journal_treestore.specs.declared.level.TheConstants.{LEVELS};
ghost use Rattle.journal_treecalls.specs.Disks.{Learns};
ghost use Rattle.journal_treecalls.specs.Targets.{IsInside, NamedBy, HasName, has_tag, IsHitAt, HitsIn, HitsBlock, HitsFirst, HitsNumbers, HitsLevels, Hits, level_number};

use crate::TreeDisk;
use crate::index::index_block;
use crate::name::are_same;
use journal_tree::FIRST_BLOCKS;
use journal_treestore::{
    DIRECT_BLOCKS, Entry, Head, INODE_BYTES, Inode, LEVELS, PLACES, level_block, name_in,
    number_at, tag_of,
};

// A node that has the name that is looked for.
#[derive(Clone, Copy)]
pub(crate) struct Hit {
    pub(crate) number: u32,
    pub(crate) head: Head,
    // Where its entry lies: which of the directory's blocks, its number, and the place in it.
    pub(crate) j: u64,
    pub(crate) block: u32,
    pub(crate) at: usize,
}

// A block of a directory: which one it is, and its number. Number 0 is no block.
#[derive(Clone, Copy)]
pub(crate) struct DirectoryBlock {
    pub(crate) j: u64,
    pub(crate) number: u32,
}

// The inode of a number, if it has the name.
fn named<T: TreeDisk>(disk: &mut T, number: u32, name: &[u8]) -> Result<Option<Head>, T::Fault>
    requires first { T.writes disk.old ≡ [] }
    ensures learns { IfOk result (λ found. Learns (T.may_be disk.old) (T.may_be disk.new) (λ V. HasName V number name.now found)) }
    ensures first { T.writes disk.new ≡ [] }
{
    let bytes = disk.inode(number)?;
    match Inode::read(&bytes) {
        Inode::Used(head) => Ok(if_named(head, &bytes, name)),
        Inode::Free(_) => Ok(None),
    }
}

// The inode, if its bytes have the name.
fn if_named(head: Head, bytes: &[u8], name: &[u8]) -> Option<Head>
    requires { length bytes.now ≡ INODE_BYTES }
    ensures { NamedBy bytes.now name.now head result }
{
    if !are_same(name_in(bytes), name) {
        return None;
    }
    Some(head)
}

// The node of the name that the entry at a place of a block names, if it does.
fn hit_at<T: TreeDisk>(
    disk: &mut T,
    which: DirectoryBlock,
    block: &[u8],
    tag: u32,
    name: &[u8],
    at: usize,
) -> Result<Option<Hit>, T::Fault>
    requires whole { length block.now ≡ 4096 }
    requires inside { at < PLACES }
    requires first { T.writes disk.old ≡ [] }
    ensures learns { IfOk result (λ found. Learns (T.may_be disk.old) (T.may_be disk.new) (λ V. IsHitAt V which block.now tag name.now at found)) }
    ensures inside { IfOk result IsInside }
    ensures first { T.writes disk.new ≡ [] }
{
    let entry = Entry::read(block, at);
    if !has_tag(entry, tag) {
        return Ok(None);
    }
    match named(disk, entry.number, name)? {
        Some(head) => Ok(Some(Hit {
            number: entry.number,
            head,
            j: which.j,
            block: which.number,
            at,
        })),
        None => Ok(None),
    }
}

// True if an entry is one, and has the tag.
fn has_tag(entry: Entry, tag: u32) -> bool
    ensures { result ≡ has_tag entry tag }
{
    entry.number != 0 && entry.tag == tag
}

// The node of the name that an entry of a block names.
fn hit_in<T: TreeDisk>(
    disk: &mut T,
    which: DirectoryBlock,
    block: &[u8],
    tag: u32,
    name: &[u8],
) -> Result<Option<Hit>, T::Fault>
    requires whole { length block.now ≡ 4096 }
    requires first { T.writes disk.old ≡ [] }
    ensures learns { IfOk result (λ found. Learns (T.may_be disk.old) (T.may_be disk.new) (λ V. HitsIn V which block.now tag name.now found)) }
    ensures inside { IfOk result IsInside }
    ensures first { T.writes disk.new ≡ [] }
{
    for at in 0..PLACES {
        match hit_at(disk, which, block, tag, name, at)? {
            Some(hit) => return Ok(Some(hit)),
            None => {}
        }
    }
    Ok(None)
}

// The same of a block of this number. Block 0 is none.
fn hit_in_block<T: TreeDisk>(
    disk: &mut T,
    which: DirectoryBlock,
    tag: u32,
    name: &[u8],
) -> Result<Option<Hit>, T::Fault>
    requires first { T.writes disk.old ≡ [] }
    ensures learns { IfOk result (λ found. Learns (T.may_be disk.old) (T.may_be disk.new) (λ V. HitsBlock V which tag name.now found)) }
    ensures inside { IfOk result IsInside }
    ensures first { T.writes disk.new ≡ [] }
{
    if which.number == 0 {
        return Ok(None);
    }
    let block = disk.block(which.number)?;
    hit_in(disk, which, block.bytes(), tag, name)
}

// The node that a directory has under a name. Of entries of the name's tag, the inodes are read.
pub(crate) fn find<T: TreeDisk>(
    disk: &mut T,
    directory: &Head,
    name: &[u8],
) -> Result<Option<Hit>, T::Fault>
    requires first { T.writes disk.old ≡ [] }
    ensures learns { IfOk result (λ found. Learns (T.may_be disk.old) (T.may_be disk.new) (λ V. Hits V directory.now name.now found)) }
    ensures inside { IfOk result IsInside }
    ensures first { T.writes disk.new ≡ [] }
{
    let tag = tag_of(name);
    match find_first(disk, &directory.blocks, tag, name)? {
        Some(hit) => Ok(Some(hit)),
        None => find_above(disk, directory, tag, name),
    }
}

// The same in the first blocks of the directory, of these numbers.
fn find_first<T: TreeDisk>(
    disk: &mut T,
    blocks: &[u32; DIRECT_BLOCKS],
    tag: u32,
    name: &[u8],
) -> Result<Option<Hit>, T::Fault>
    requires first { T.writes disk.old ≡ [] }
    ensures learns { IfOk result (λ found. Learns (T.may_be disk.old) (T.may_be disk.new) (λ V. HitsFirst V blocks.now tag name.now found)) }
    ensures inside { IfOk result IsInside }
    ensures first { T.writes disk.new ≡ [] }
{
    for j in 0..DIRECT_BLOCKS {
        let which = DirectoryBlock {
            j: j as u64,
            number: blocks[j],
        };
        match hit_in_block(disk, which, tag, name)? {
            Some(hit) => return Ok(Some(hit)),
            None => {}
        }
    }
    Ok(None)
}

// The same in its levels. The numbers of their blocks lie in its first index block.
fn find_above<T: TreeDisk>(
    disk: &mut T,
    directory: &Head,
    tag: u32,
    name: &[u8],
) -> Result<Option<Hit>, T::Fault>
    requires first { T.writes disk.old ≡ [] }
    ensures learns { IfOk result (λ found. Learns (T.may_be disk.old) (T.may_be disk.new) (λ V. HitsLevels V directory.now tag name.now found)) }
    ensures inside { IfOk result IsInside }
    ensures first { T.writes disk.new ≡ [] }
{
    let number = index_block(disk, directory, 0)?;
    if number == 0 {
        return Ok(None);
    }
    let numbers = disk.block(number)?;
    find_in_levels(disk, numbers.bytes(), tag, name)
}

// The same, where these are the numbers.
fn find_in_levels<T: TreeDisk>(
    disk: &mut T,
    numbers: &[u8],
    tag: u32,
    name: &[u8],
) -> Result<Option<Hit>, T::Fault>
    requires whole { length numbers.now ≡ 4096 }
    requires first { T.writes disk.old ≡ [] }
    ensures learns { IfOk result (λ found. Learns (T.may_be disk.old) (T.may_be disk.new) (λ V. HitsNumbers V numbers.now tag name.now found)) }
    ensures inside { IfOk result IsInside }
    ensures first { T.writes disk.new ≡ [] }
{
    for level in 0..LEVELS {
        let which = level_number(numbers, tag, level);
        match hit_in_block(disk, which, tag, name)? {
            Some(hit) => return Ok(Some(hit)),
            None => {}
        }
    }
    Ok(None)
}

// The block of a level, by these numbers of blocks.
pub(crate) fn level_number(numbers: &[u8], tag: u32, level: u64) -> DirectoryBlock
    requires whole { length numbers.now ≡ 4096 }
    requires low { level < LEVELS }
    ensures { result ≡ level_number numbers.now tag level }
{
    let j = level_block(tag, level);
    DirectoryBlock {
        j,
        number: number_at(numbers, (j - FIRST_BLOCKS) as usize),
    }
}
