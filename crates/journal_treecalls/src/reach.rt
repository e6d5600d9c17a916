// The numbers of the blocks of a file that a WRITE reaches, and the blocks that the file gets.
ghost use Rattle.std.specs.Prelude.{ℕ, ◌≡◌, ◌≢◌, ◌<◌, ◌≤◌, ◌+◌, ◌*◌, ◌^◌, ◌==◌, if◌then◌else◌, [], IfOk, length};
ghost use Rattle.journal_tree.specs.declared.limits.TheConstants.{MOST_BYTES};
ghost use Rattle.std.specs.Int.{w32, to_le_bytes};
ghost use Rattle.journal_treestore.specs.Bytes.{with_piece};
ghost use Rattle.journal_treestore.specs.Views.{bytes_in};
ghost use Rattle.journal_treecalls.specs.Disks.{Learns};
ghost use Rattle.journal_treecalls.specs.Fetches.{leaf_begin};
ghost use Rattle.journal_treecalls.specs.Reaches.{leaf_of, reach_for, reach_count, reach_place, IsReach, IsKnown, numbered, root_bytes, AreSized, CopiesBlock, HasLeaves, HasNumbers, AreSame, is_repeated, IsNextSpare, IsNextWithin, IsSpareHere, IsWithin, TakesOne, IsTaken, IsSizedTaken};

use crate::TreeDisk;
use crate::bytes::put;
use crate::fetch::Span;
use crate::room::free_block;
use journal_tree::{BLOCK_BYTES, MOST_FILE_BLOCKS};
use journal_treestore::{
    DIRECT_BLOCKS, FIRST_INDEX_PLACE, Head, INDEX_NUMBERS, INDEX_PLACE, number_at,
};

// The blocks of a file that are reached: those in which bytes lie, the index blocks with their
// numbers, and, where there are any of these, the block with the numbers of the index blocks.
#[derive(Clone, Copy)]
pub(crate) struct Reach {
    // The first block in which bytes lie, and how many there are.
    pub(crate) block: u64,
    pub(crate) blocks: u64,
    // The first index block, and how many there are.
    pub(crate) leaf: u64,
    pub(crate) leaves: u64,
}

// Numbers of blocks of a file.
#[derive(Drop)]
pub(crate) struct Numbers {
    // The numbers of its first blocks.
    pub(crate) direct: [u32; DIRECT_BLOCKS],
    // The number of the block with the numbers of the index blocks.
    pub(crate) index: u32,
    // The bytes of that block, if index blocks are reached.
    pub(crate) root: Vec<u8>,
    // The bytes of the index blocks that are reached, one after another.
    pub(crate) leaves: Vec<u8>,
}

// Numbers of blocks of a file before it gets blocks, and after it.
#[derive(Drop)]
pub(crate) struct Changing {
    pub(crate) reach: Reach,
    pub(crate) old: Numbers,
    pub(crate) new: Numbers,
}

// A spare block that nobody has, and how many of the spare ones are used then.
#[derive(Clone, Copy)]
pub(crate) struct SpareBlock {
    pub(crate) block: u32,
    pub(crate) next: usize,
}

// ── which blocks are reached ──

// The blocks that a WRITE of these bytes reaches.
pub(crate) fn reach_for(span: Span) -> Reach
    requires some { span.from < span.to }
    requires fits { span.to ≤ MOST_BYTES }
    ensures is { result ≡ reach_for span.from span.to }
    ensures fits { IsReach result }
{
    let block = span.from / BLOCK_BYTES;
    let end = (span.to + BLOCK_BYTES - 1) / BLOCK_BYTES;
    let leaf = leaf_of(block);
    let last = leaf_of(end + INDEX_NUMBERS as u64 - 1);
    Reach {
        block,
        blocks: end - block,
        leaf,
        leaves: last - leaf,
    }
}

// The index block with the number of a block. That of one of the first blocks is none, and gives 0.
fn leaf_of(j: u64) -> u64
    ensures { result ≡ leaf_of j }
{
    j.saturating_sub(DIRECT_BLOCKS as u64) / INDEX_NUMBERS as u64
}

// How many blocks are reached.
pub(crate) fn reach_count(reach: Reach) -> u64
    requires fits { IsReach reach }
    ensures { result ≡ reach_count reach }
{
    if reach.leaves == 0 {
        reach.blocks
    } else {
        reach.blocks + reach.leaves + 1
    }
}

// The place of block m of those that are reached.
pub(crate) fn reach_place(reach: Reach, m: u64) -> u64
    requires fits { IsReach reach }
    requires low { m < reach_count reach }
    ensures { result ≡ reach_place reach m }
{
    if m < reach.blocks {
        return reach.block + m;
    }
    if m < reach.blocks + reach.leaves {
        return u64::from(FIRST_INDEX_PLACE) + (reach.leaf + (m - reach.blocks));
    }
    u64::from(INDEX_PLACE)
}

// ── the numbers that a file has ──

// The numbers that a file has where it is reached.
pub(crate) fn numbers_of<T: TreeDisk>(
    disk: &mut T,
    head: &Head,
    reach: Reach,
) -> Result<Numbers, T::Fault>
    requires first { T.writes disk.old ≡ [] }
    requires fits { IsReach reach }
    ensures learns { IfOk result (λ numbers. Learns (T.may_be disk.old) (T.may_be disk.new) (λ V. HasNumbers V head.now reach numbers)) }
    ensures sized { IfOk result (AreSized reach) }
    ensures first { T.writes disk.new ≡ [] }
{
    let root = root_of(disk, head, reach)?;
    let leaves = leaves_of(disk, &root, reach)?;
    Ok(Numbers {
        direct: head.blocks,
        index: head.index,
        root,
        leaves,
    })
}

// The bytes of the block with the numbers of the index blocks, if any are reached. Where there is
// none, they are zeros.
fn root_of<T: TreeDisk>(disk: &mut T, head: &Head, reach: Reach) -> Result<Vec<u8>, T::Fault>
    requires first { T.writes disk.old ≡ [] }
    ensures learns { IfOk result (λ root. Learns (T.may_be disk.old) (T.may_be disk.new) (λ V. reach.leaves ≢ 0 → root.items ≡ bytes_in V head.now.index)) }
    ensures long { IfOk result (λ root. length root.items ≡ root_bytes reach) }
    ensures first { T.writes disk.new ≡ [] }
{
    if reach.leaves == 0 {
        return disk.zeros(0);
    }
    let mut root = disk.zeros(BLOCK_BYTES as usize)?;
    copy_block(disk, head.index, &mut root, 0)?;
    Ok(root)
}

// The bytes of the index blocks that are reached. Where there is none, they are zeros.
fn leaves_of<T: TreeDisk>(disk: &mut T, root: &[u8], reach: Reach) -> Result<Vec<u8>, T::Fault>
    requires first { T.writes disk.old ≡ [] }
    requires fits { IsReach reach }
    requires long { length root.now ≡ root_bytes reach }
    ensures learns { IfOk result (λ leaves. Learns (T.may_be disk.old) (T.may_be disk.new) (λ V. HasLeaves V reach root.now reach.leaves leaves.items)) }
    ensures long { IfOk result (λ leaves. length leaves.items ≡ 4096 * reach.leaves) }
    ensures first { T.writes disk.new ≡ [] }
{
    let count = reach.leaves as usize;
    let mut leaves = disk.zeros(BLOCK_BYTES as usize * count)?;
    for i in 0..count {
        let number = number_at(root, reach.leaf as usize + i);
        copy_block(disk, number, &mut leaves, BLOCK_BYTES as usize * i)?;
    }
    Ok(leaves)
}

// Puts the bytes of a block over others from a place on. Block 0 is none, and they stay.
fn copy_block<T: TreeDisk>(
    disk: &mut T,
    number: u32,
    bytes: &mut Vec<u8>,
    at: usize,
) -> Result<(), T::Fault>
    requires first { T.writes disk.old ≡ [] }
    requires fits { at + 4096 ≤ length bytes.old.items }
    ensures learns { IfOk result (λ _. Learns (T.may_be disk.old) (T.may_be disk.new) (λ V. CopiesBlock V number at bytes.old.items bytes.new.items)) }
    ensures long { length bytes.new.items ≡ length bytes.old.items }
    ensures first { T.writes disk.new ≡ [] }
{
    if number == 0 {
        return Ok(());
    }
    let block = disk.block(number)?;
    put(bytes, at, block.bytes());
    Ok(())
}

// ── one number ──

impl Numbers {
    // The number of the block at a place.
    pub(crate) fn number(&self, reach: Reach, place: u64) -> u32
        requires fits { IsReach reach }
        requires sized { AreSized reach self.now }
        requires known { IsKnown reach place }
        ensures { (others : ℕ → ℕ) → result ≡ numbered others reach self.now place }
    {
        let index = u64::from(INDEX_PLACE);
        let first = u64::from(FIRST_INDEX_PLACE);
        if place < DIRECT_BLOCKS as u64 {
            return self.direct[place as usize];
        }
        if place < MOST_FILE_BLOCKS {
            let begin = leaf_begin(reach.leaf);
            return number_at(&self.leaves, (place - begin) as usize);
        }
        if place == index {
            return self.index;
        }
        number_at(&self.root, (place - first) as usize)
    }

    // Makes it another.
    fn set_number(&mut self, reach: Reach, place: u64, number: u32)
        requires fits { IsReach reach }
        requires sized { AreSized reach self.old }
        requires known { IsKnown reach place }
        ensures set { (others : ℕ → ℕ) (p : ℕ) → numbered others reach self.new p ≡ (if p == place then number else numbered others reach self.old p) }
        ensures sized { AreSized reach self.new }
    {
        let index = u64::from(INDEX_PLACE);
        let first = u64::from(FIRST_INDEX_PLACE);
        if place < DIRECT_BLOCKS as u64 {
            self.direct[place as usize] = number;
        } else if place < MOST_FILE_BLOCKS {
            let begin = leaf_begin(reach.leaf);
            put_number(&mut self.leaves, (place - begin) as usize, number);
        } else if place == index {
            self.index = number;
        } else {
            put_number(&mut self.root, (place - first) as usize, number);
        }
    }
}

// The first of the blocks whose numbers lie in index block i.
fn leaf_begin(i: u64) -> u64
    requires { i ≤ INDEX_NUMBERS }
    ensures { result ≡ leaf_begin i }
{
    DIRECT_BLOCKS as u64 + INDEX_NUMBERS as u64 * i
}

// Puts number k of a block of numbers, or of several.
fn put_number(bytes: &mut Vec<u8>, k: usize, number: u32)
    requires inside { 4 * k + 4 ≤ length bytes.old.items }
    ensures put { bytes.new.items ≡ with_piece bytes.old.items (4 * k) (to_le_bytes w32 number) }
    ensures long { length bytes.new.items ≡ length bytes.old.items }
    ensures fits { number < 2 ^ 32 }
{
    put(bytes, 4 * k, &number.to_le_bytes());
}

// The same numbers, in memory that is taken for them.
fn copy_of<T: TreeDisk>(disk: &T, numbers: &Numbers) -> Result<Numbers, T::Fault>
    ensures { IfOk result (AreSame numbers.now) }
{
    let mut root = disk.zeros(numbers.root.len())?;
    put(&mut root, 0, &numbers.root);
    let mut leaves = disk.zeros(numbers.leaves.len())?;
    put(&mut leaves, 0, &numbers.leaves);
    Ok(Numbers {
        direct: numbers.direct,
        index: numbers.index,
        root,
        leaves,
    })
}

// ── the blocks that a file gets ──

// The numbers, once the file has a block at each place that is reached. Where it has none, it gets
// the first of the spare blocks that nobody has, and none of them twice. There may be too few.
pub(crate) fn take_places<T: TreeDisk>(
    disk: &mut T,
    reach: Reach,
    old: &Numbers,
    spare: &[u32],
) -> Result<Option<Numbers>, T::Fault>
    requires first { T.writes disk.old ≡ [] }
    requires fits { IsReach reach }
    requires sized { AreSized reach old.now }
    ensures learns { IfOk result (λ taken. Learns (T.may_be disk.old) (T.may_be disk.new) (λ V. IsTaken V reach old.now taken)) }
    ensures sized { IfOk result (IsSizedTaken reach) }
    ensures first { T.writes disk.new ≡ [] }
{
    let mut new = copy_of(disk, old)?;
    let mut at = 0;
    for m in 0..reach_count(reach) {
        match take_place(disk, reach, &mut new, m, spare, at)? {
            Some(next) => at = next,
            None => return Ok(None),
        }
    }
    Ok(Some(new))
}

// Gives the file a block at place m of those that are reached, if it has none there: the first of
// the spare blocks from one on that nobody has. Answers how many of these are used then.
fn take_place<T: TreeDisk>(
    disk: &mut T,
    reach: Reach,
    numbers: &mut Numbers,
    m: u64,
    spare: &[u32],
    at: usize,
) -> Result<Option<usize>, T::Fault>
    requires first { T.writes disk.old ≡ [] }
    requires fits { IsReach reach }
    requires sized { AreSized reach numbers.old }
    requires low { m < reach_count reach }
    requires within { at ≤ length spare.now }
    ensures learns { IfOk result (λ next. Learns (T.may_be disk.old) (T.may_be disk.new) (λ V. TakesOne V reach numbers.old numbers.new spare.now m at next)) }
    ensures sized { IfOk result (λ _. AreSized reach numbers.new) }
    ensures within { IfOk result (IsWithin spare.now) }
    ensures first { T.writes disk.new ≡ [] }
{
    let place = reach_place(reach, m);
    if numbers.number(reach, place) != 0 {
        return Ok(Some(at));
    }
    match next_spare(disk, spare, at)? {
        None => Ok(None),
        Some(found) => {
            numbers.set_number(reach, place, found.block);
            Ok(Some(found.next))
        }
    }
}

// The first of the spare blocks from one on that nobody has, and that is none of those before it.
fn next_spare<T: TreeDisk>(
    disk: &mut T,
    spare: &[u32],
    from: usize,
) -> Result<Option<SpareBlock>, T::Fault>
    requires first { T.writes disk.old ≡ [] }
    ensures learns { IfOk result (λ found. Learns (T.may_be disk.old) (T.may_be disk.new) (λ V. IsNextSpare V spare.now from found)) }
    ensures within { IfOk result (IsNextWithin spare.now) }
    ensures first { T.writes disk.new ≡ [] }
{
    for at in from..spare.len() {
        match spare_at(disk, spare, at)? {
            Some(block) => return Ok(Some(SpareBlock {
                block,
                next: at + 1,
            })),
            None => {}
        }
    }
    Ok(None)
}

// The spare block at a place of their list, if nobody has it, and it is none of those before it.
fn spare_at<T: TreeDisk>(disk: &mut T, spare: &[u32], at: usize) -> Result<Option<u32>, T::Fault>
    requires first { T.writes disk.old ≡ [] }
    requires low { at < length spare.now }
    ensures learns { IfOk result (λ found. Learns (T.may_be disk.old) (T.may_be disk.new) (λ V. IsSpareHere V spare.now at found)) }
    ensures first { T.writes disk.new ≡ [] }
{
    if is_repeated(spare, at) {
        return Ok(None);
    }
    free_block(disk, spare[at])
}

// True if the spare block at a place of their list is one of those before it.
fn is_repeated(spare: &[u32], at: usize) -> bool
    requires { at < length spare.now }
    ensures { result ≡ is_repeated spare.now at }
{
    spare[..at].contains(&spare[at])
}
