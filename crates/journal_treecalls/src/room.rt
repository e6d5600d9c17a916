// Room for a new node: a number that is free, and a place in its directory.
ghost use Rattle.std.specs.Prelude.{◌≡◌, ◌<◌, ◌*◌, [], IfOk, length};
ghost use Rattle.journal_treecalls.specs.Disks.{Learns};
ghost use Rattle.journal_treecalls.specs.Blocks.{IsFreeBlock, IsThis, if_nobodys, IsHad};
ghost use Rattle.journal_treecalls.specs.Rooms.{if_young, IsFreeNumber, IsYoung, IsEmptyIn, IsPlaceIn, IsFirstPlace, IsLevelPlace, IsPlaceOf, IsPlaceInside, IsHoleIn, IsFurtherBlock, IsLowBlock, IsGrowthAt, IsFitGrowthAt, room_of, IsPlaceFor, IsFitPlace, IsInsidePlace, place_number, IsRoomFor, IsFitRoom};

use crate::TreeDisk;
use crate::fetch::Span;
use crate::growth::Growth;
use crate::index::{block_at, index_block};
use crate::node::inode_of;
use crate::reach::{Changing, numbers_of, reach_for, take_places};
use crate::search::{DirectoryBlock, level_number};
use journal_tree::{BLOCK_BYTES, BLOCK_PLACES, LAST_GENERATION, MOST_BLOCKS};
use journal_treestore::{DIRECT_BLOCKS, Entry, Head, Inode, LEVELS, Owner, PLACES, level_block};

/// Numbers and blocks that may be free. A call takes the first that is, and looks at each: they are
/// no more than hints.
#[derive(Clone, Copy)]
pub struct Spare<'a> {
    pub numbers: &'a [u32],
    pub blocks: &'a [u32],
}

// A number that is free, and the generation of its last node.
#[derive(Clone, Copy)]
pub(crate) struct FreeNumber {
    pub(crate) number: u32,
    pub(crate) generation: u32,
}

// A place of a directory without an entry: which of its blocks, the number of that, and where it
// lies in it.
#[derive(Clone, Copy)]
pub(crate) struct FreePlace {
    pub(crate) j: u64,
    pub(crate) block: u32,
    pub(crate) at: usize,
}

// Where an entry is put: at a place that the directory has, or at the first one of a further block.
#[derive(Drop)]
pub(crate) enum NewPlace {
    Here(FreePlace),
    Further(Growth),
}

// A number and a place.
#[derive(Drop)]
pub(crate) struct FreeRoom {
    pub(crate) number: FreeNumber,
    pub(crate) place: NewPlace,
}

// Room for a new node of a directory, under a name of this tag.
pub(crate) fn find_room<T: TreeDisk>(
    disk: &mut T,
    directory: &Head,
    tag: u32,
    spare: &Spare,
) -> Result<Option<FreeRoom>, T::Fault>
    requires first { T.writes disk.old ≡ [] }
    ensures learns { IfOk result (λ found. Learns (T.may_be disk.old) (T.may_be disk.new) (λ V. IsRoomFor V directory.now tag found)) }
    ensures fits { IfOk result IsFitRoom }
    ensures first { T.writes disk.new ≡ [] }
{
    let numbers = spare.numbers;
    let blocks = spare.blocks;
    match find_number(disk, numbers)? {
        None => Ok(None),
        Some(number) => {
            let place = find_place(disk, directory, tag, blocks)?;
            Ok(room_of(number, place))
        }
    }
}

// The number and the place, if there is one.
fn room_of(number: FreeNumber, place: Option<NewPlace>) -> Option<FreeRoom>
    ensures { result ≡ room_of number place }
{
    match place {
        None => None,
        Some(place) => Some(FreeRoom { number, place }),
    }
}

// ── a number ──

// The first of these numbers that is free.
fn find_number<T: TreeDisk>(disk: &mut T, numbers: &[u32]) -> Result<Option<FreeNumber>, T::Fault>
    requires first { T.writes disk.old ≡ [] }
    ensures learns { IfOk result (λ found. Learns (T.may_be disk.old) (T.may_be disk.new) (λ V. IsFreeNumber V found)) }
    ensures young { IfOk result IsYoung }
    ensures first { T.writes disk.new ≡ [] }
{
    for number in numbers {
        match free_number(disk, *number)? {
            Some(free) => return Ok(Some(free)),
            None => {}
        }
    }
    Ok(None)
}

// The number, if it is free and may have one more node.
fn free_number<T: TreeDisk>(disk: &mut T, number: u32) -> Result<Option<FreeNumber>, T::Fault>
    requires first { T.writes disk.old ≡ [] }
    ensures learns { IfOk result (λ found. Learns (T.may_be disk.old) (T.may_be disk.new) (λ V. IsFreeNumber V found)) }
    ensures young { IfOk result IsYoung }
    ensures first { T.writes disk.new ≡ [] }
{
    let count = disk.numbers();
    let index = u64::from(number);
    if number == 0 {
        return Ok(None);
    }
    if count <= index {
        return Ok(None);
    }
    match inode_of(disk, number)? {
        Inode::Free(generation) => Ok(if_young(number, generation)),
        Inode::Used(_) => Ok(None),
    }
}

// The number, if it may have one more node.
fn if_young(number: u32, generation: u32) -> Option<FreeNumber>
    ensures { result ≡ if_young number generation }
{
    if generation < LAST_GENERATION {
        Some(FreeNumber { number, generation })
    } else {
        None
    }
}

// ── a place ──

// A place for an entry of a directory, in a block in which a name of this tag may lie. The
// directory gets a further block only where these have no place.
pub(crate) fn find_place<T: TreeDisk>(
    disk: &mut T,
    directory: &Head,
    tag: u32,
    blocks: &[u32],
) -> Result<Option<NewPlace>, T::Fault>
    requires first { T.writes disk.old ≡ [] }
    ensures learns { IfOk result (λ found. Learns (T.may_be disk.old) (T.may_be disk.new) (λ V. IsPlaceFor V directory.now tag found)) }
    ensures fits { IfOk result IsFitPlace }
    ensures first { T.writes disk.new ≡ [] }
{
    match empty_place(disk, directory, tag)? {
        Some(place) => Ok(Some(NewPlace::Here(place))),
        None => further_place(disk, directory, tag, blocks),
    }
}

// The first place without an entry of those blocks of a directory in which a name of this tag may
// lie.
fn empty_place<T: TreeDisk>(
    disk: &mut T,
    directory: &Head,
    tag: u32,
) -> Result<Option<FreePlace>, T::Fault>
    requires first { T.writes disk.old ≡ [] }
    ensures learns { IfOk result (λ found. Learns (T.may_be disk.old) (T.may_be disk.new) (λ V. IsPlaceOf V directory.now tag found)) }
    ensures inside { IfOk result IsPlaceInside }
    ensures first { T.writes disk.new ≡ [] }
{
    match empty_first(disk, &directory.blocks)? {
        Some(place) => Ok(Some(place)),
        None => empty_above(disk, directory, tag),
    }
}

// The same of the first blocks of the directory, of these numbers.
fn empty_first<T: TreeDisk>(
    disk: &mut T,
    blocks: &[u32; DIRECT_BLOCKS],
) -> Result<Option<FreePlace>, T::Fault>
    requires first { T.writes disk.old ≡ [] }
    ensures learns { IfOk result (λ found. Learns (T.may_be disk.old) (T.may_be disk.new) (λ V. IsFirstPlace V blocks.now found)) }
    ensures inside { IfOk result IsPlaceInside }
    ensures first { T.writes disk.new ≡ [] }
{
    for j in 0..DIRECT_BLOCKS {
        let which = DirectoryBlock {
            j: j as u64,
            number: blocks[j],
        };
        match place_in(disk, which)? {
            Some(place) => return Ok(Some(place)),
            None => {}
        }
    }
    Ok(None)
}

// The same of its levels. The numbers of their blocks lie in its first index block.
fn empty_above<T: TreeDisk>(
    disk: &mut T,
    directory: &Head,
    tag: u32,
) -> Result<Option<FreePlace>, T::Fault>
    requires first { T.writes disk.old ≡ [] }
    ensures learns { IfOk result (λ found. Learns (T.may_be disk.old) (T.may_be disk.new) (λ V. IsPlaceOf V directory.now tag found)) }
    ensures inside { IfOk result IsPlaceInside }
    ensures first { T.writes disk.new ≡ [] }
{
    let number = index_block(disk, directory, 0)?;
    if number == 0 {
        return Ok(None);
    }
    let numbers = disk.block(number)?;
    empty_in_levels(disk, numbers.bytes(), tag)
}

// The same, where these are the numbers.
fn empty_in_levels<T: TreeDisk>(
    disk: &mut T,
    numbers: &[u8],
    tag: u32,
) -> Result<Option<FreePlace>, T::Fault>
    requires whole { length numbers.now ≡ 4096 }
    requires first { T.writes disk.old ≡ [] }
    ensures learns { IfOk result (λ found. Learns (T.may_be disk.old) (T.may_be disk.new) (λ V. IsLevelPlace V numbers.now tag found)) }
    ensures inside { IfOk result IsPlaceInside }
    ensures first { T.writes disk.new ≡ [] }
{
    for level in 0..LEVELS {
        let which = level_number(numbers, tag, level);
        match place_in(disk, which)? {
            Some(place) => return Ok(Some(place)),
            None => {}
        }
    }
    Ok(None)
}

// The first place without an entry in a block of a directory. Block 0 is none.
fn place_in<T: TreeDisk>(disk: &mut T, which: DirectoryBlock) -> Result<Option<FreePlace>, T::Fault>
    requires few { which.j < MOST_BLOCKS }
    requires first { T.writes disk.old ≡ [] }
    ensures learns { IfOk result (λ found. Learns (T.may_be disk.old) (T.may_be disk.new) (λ V. IsPlaceIn V which found)) }
    ensures inside { IfOk result IsPlaceInside }
    ensures first { T.writes disk.new ≡ [] }
{
    if which.number == 0 {
        return Ok(None);
    }
    let block = disk.block(which.number)?;
    match empty_in(block.bytes()) {
        Some(at) => Ok(Some(FreePlace {
            j: which.j,
            block: which.number,
            at,
        })),
        None => Ok(None),
    }
}

// The first place of a block that has no entry.
fn empty_in(block: &[u8]) -> Option<usize>
    requires { length block.now ≡ 4096 }
    ensures { IsEmptyIn block.now result }
{
    for at in 0..PLACES {
        if Entry::read(block, at).number == 0 {
            return Some(at);
        }
    }
    None
}

// The number of a place. That in a further block is the first.
pub(crate) fn place_number(place: &NewPlace) -> u32
    requires { IsInsidePlace place.now }
    ensures { result ≡ place_number place.now }
{
    match place {
        NewPlace::Here(here) => (BLOCK_PLACES * here.j + here.at as u64) as u32,
        NewPlace::Further(growth) => first_place(growth.j),
    }
}

// The number of the first place of a directory's block.
pub(crate) fn first_place(j: u64) -> u32
    requires { j < MOST_BLOCKS }
    ensures { result ≡ 512 * j }
{
    (BLOCK_PLACES * j) as u32
}

// ── a further block ──

// The first place of a block that the directory gets, if there is one in which a name of this tag
// may lie, and enough of these blocks are free.
fn further_place<T: TreeDisk>(
    disk: &mut T,
    directory: &Head,
    tag: u32,
    blocks: &[u32],
) -> Result<Option<NewPlace>, T::Fault>
    requires first { T.writes disk.old ≡ [] }
    ensures learns { IfOk result (λ found. Learns (T.may_be disk.old) (T.may_be disk.new) (λ V. IsPlaceFor V directory.now tag found)) }
    ensures fits { IfOk result IsFitPlace }
    ensures first { T.writes disk.new ≡ [] }
{
    match further_block(disk, directory, tag)? {
        None => Ok(None),
        Some(j) => match growth_at(disk, directory, j, blocks)? {
            None => Ok(None),
            Some(growth) => Ok(Some(NewPlace::Further(growth))),
        },
    }
}

// Which of its blocks a directory gets for a name of this tag: block 0 if it has not that, and else
// that of the first level that it has not. It may have them all.
fn further_block<T: TreeDisk>(
    disk: &mut T,
    directory: &Head,
    tag: u32,
) -> Result<Option<u64>, T::Fault>
    requires first { T.writes disk.old ≡ [] }
    ensures learns { IfOk result (λ found. Learns (T.may_be disk.old) (T.may_be disk.new) (λ V. IsFurtherBlock V directory.now tag found)) }
    ensures few { IfOk result IsLowBlock }
    ensures first { T.writes disk.new ≡ [] }
{
    if directory.blocks[0] == 0 {
        return Ok(Some(0));
    }
    let number = index_block(disk, directory, 0)?;
    if number == 0 {
        return Ok(Some(level_block(tag, 0)));
    }
    let numbers = disk.block(number)?;
    Ok(hole_in(numbers.bytes(), tag))
}

// The block of the first level that a directory has not, where these are the numbers.
fn hole_in(numbers: &[u8], tag: u32) -> Option<u64>
    requires whole { length numbers.now ≡ 4096 }
    ensures { IsHoleIn numbers.now tag result }
{
    for level in 0..LEVELS {
        let which = level_number(numbers, tag, level);
        if which.number == 0 {
            return Some(which.j);
        }
    }
    None
}

// Block j for a directory that has it not, if enough of these blocks are free: the block, and the
// index blocks that it lacks for the number of that.
fn growth_at<T: TreeDisk>(
    disk: &mut T,
    directory: &Head,
    j: u64,
    blocks: &[u32],
) -> Result<Option<Growth>, T::Fault>
    requires few { j < MOST_BLOCKS }
    requires first { T.writes disk.old ≡ [] }
    ensures learns { IfOk result (λ found. Learns (T.may_be disk.old) (T.may_be disk.new) (λ V. IsGrowthAt V directory.now j found)) }
    ensures fits { IfOk result IsFitGrowthAt }
    ensures first { T.writes disk.new ≡ [] }
{
    let reach = reach_for(Span {
        from: BLOCK_BYTES * j,
        to: BLOCK_BYTES * (j + 1),
    });
    let old = numbers_of(disk, directory, reach)?;
    match take_places(disk, reach, &old, blocks)? {
        None => Ok(None),
        Some(new) => {
            let change = Changing { reach, old, new };
            Ok(Some(Growth { j, change }))
        }
    }
}

// ── a block that nobody has ──

// The block, if it is one of data and nobody has it.
pub(crate) fn free_block<T: TreeDisk>(disk: &mut T, block: u32) -> Result<Option<u32>, T::Fault>
    requires first { T.writes disk.old ≡ [] }
    ensures learns { IfOk result (λ found. Learns (T.may_be disk.old) (T.may_be disk.new) (λ V. IsFreeBlock V found)) }
    ensures same { IfOk result (IsThis block) }
    ensures first { T.writes disk.new ≡ [] }
{
    let begin = disk.first_data();
    let count = disk.data_blocks();
    let index = u64::from(block);
    if index < begin {
        return Ok(None);
    }
    let after = index - begin;
    if count <= after {
        return Ok(None);
    }
    let bytes = disk.owner(block)?;
    let owner = Owner::read(&bytes);
    let had = is_had(disk, block, owner)?;
    Ok(if_nobodys(block, had))
}

// The block, if nobody has it.
fn if_nobodys(block: u32, had: bool) -> Option<u32>
    ensures { result ≡ if_nobodys block had }
{
    if had { None } else { Some(block) }
}

// True if the inode that a block's record names has the block at the record's place.
fn is_had<T: TreeDisk>(disk: &mut T, block: u32, owner: Owner) -> Result<bool, T::Fault>
    requires first { T.writes disk.old ≡ [] }
    ensures learns { IfOk result (λ had. Learns (T.may_be disk.old) (T.may_be disk.new) (λ V. IsHad V block owner had)) }
    ensures first { T.writes disk.new ≡ [] }
{
    let count = disk.numbers();
    let number = u64::from(owner.number);
    if count <= number {
        return Ok(false);
    }
    match inode_of(disk, owner.number)? {
        Inode::Used(head) => {
            let has = block_at(disk, &head, owner.place)?;
            Ok(has == block)
        }
        Inode::Free(_) => Ok(false),
    }
}
