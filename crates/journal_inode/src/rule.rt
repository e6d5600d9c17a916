// The rule of sound files.
ghost use Rattle.std.specs.Prelude.{ℕ, ◌≡◌, ◌<◌, ◌≤◌, ◌+◌, ◌↔◌, length, unwrap_or, slice_get, true, IsTrue, IfOk, IfErr, IfSome, MatchOption};
ghost use Rattle.std.specs.List.{AllByRecursion};
ghost use Rattle.journal_inode.specs.Sound.{superblock_of, node_at, IsDataBlock, IsInPlace, IsSoundFile};
ghost use Rattle.journal_world.specs.Refusals.{IsReadingRefusal};
ghost use Rattle.journal_inode.specs.Places.{HasFiles, object};
ghost use Rattle.journal_inode.specs.Places.Object.{superblock};
ghost use Rattle.journal_inode.specs.Admitting.{AllZero, IsSoundBlock, AreSoundBlocks, MarksOrMeets, IsSoundInode, HasDataBlocks, AreSoundBelow, AreOwners, Claims, AreAsked, AreBitsBelow};

use crate::superblock::{are_zero, is_superblock};
use crate::{
    FileNode, FormatVersion, INODES, Node, Version, VersionOne, bit_addr, block_addr, inode_addr,
};
use journal_world::{
    Addr, BLOCK_BITS, BLOCK_BYTES, FIRST_DATA, MAX_NANOS, MapRule, ObjectReader, Refusal,
    SUPERBLOCK,
};
use std::alloc::Global;
use std::marker::PhantomData;
use std::sync::OnceLock;

// The number of bits that are read at once.
const WORD_BITS: u32 = 64;

// It looks first whether the disk is cut for files (`HasFiles`): else it would admit a map of other
// regions.
/// The rule of sound files of a version: the disk has the layout of files, the superblock is the
/// disk's, each inode is in its place, each file is sound, no two files have one block, and the
/// bitmap says which data blocks are taken.
///
/// It keeps an allocator, for the table of the blocks that files have, and the first such table
/// that it made.
#[derive(Drop)]
pub struct SoundFiles<V = VersionOne> {
    alloc: Global,
    owners: OnceLock<Vec<bool>>,
    version: PhantomData<V>,
}

impl<V: Version> SoundFiles<V> {
    /// The rule, with the allocator that `admit` takes memory from.
    pub fn new(alloc: Global) -> SoundFiles<V> {
        SoundFiles {
            alloc,
            owners: OnceLock::new(),
            version: PhantomData,
        }
    }

    /// The table that `admit` made of the first map whose inodes were sound: for each data block,
    /// whether a file has it. It is a hint, and no clause speaks of it.
    pub fn into_owners(self) -> Option<Vec<bool>> {
        let SoundFiles {
            alloc: _,
            owners,
            version: _,
        } = self;
        owners.into_inner()
    }

    // Keeps the table, if it is the first.
    fn keep(&self, owners: Vec<bool>) {
        let _is_first = self.owners.try_set(owners).is_ok();
    }
}

impl<V: Version> MapRule for SoundFiles<V> {
    ghost use Rattle.journal_inode.specs.Sound.{HasSoundFiles};
    ghost use Rattle.journal_inode.specs.SameFiles.{Sound-same};

    ghost statement = { HasSoundFiles V.VERSION };

    ghost respects = { Sound-same V.VERSION };

    fn admit<O: ObjectReader>(&self, reader: &mut O) -> Result<bool, Refusal<O::Cause>> {
        let version = V::VERSION;
        if !reader.layout().is_of_files() || !has_superblock(reader, version)? {
            return Ok(false);
        }
        match owners(reader, version, self.alloc)? {
            None => Ok(false),
            Some(owners) => {
                let answer = are_bits_sound(reader, &owners);
                self.keep(owners);
                answer
            }
        }
    }
}

// True if the superblock is that of the disk. The map stays.
fn has_superblock<O: ObjectReader>(
    reader: &mut O,
    version: FormatVersion,
) -> Result<bool, Refusal<O::Cause>>
    requires { HasFiles (O.map reader.old).layout }
    ensures sound { IsTrue (O.trusted reader.old) → IfOk result (λ has.
        IsTrue has ↔ (object (O.map reader.old) superblock ≡ superblock_of version (O.map reader.old).layout.blocks)) }
    ensures refusal { IfErr result (IsReadingRefusal (O.failed reader.new)) }
    ensures stays_failed { IsTrue (O.failed reader.old) → IsTrue (O.failed reader.new) }
    ensures same_map { O.map reader.new ≡ O.map reader.old }
    ensures same_trust { O.trusted reader.new ≡ O.trusted reader.old }
{
    let blocks = reader.layout().blocks;
    let addr = Addr {
        block: SUPERBLOCK,
        off: 0,
    };
    let value = reader.read(addr)?;
    Ok(is_superblock(value.bytes(), version, blocks))
}

// True if the inode may have the number i.
fn is_in_place(i: u32, node: Node) -> bool
    ensures { IsTrue result ↔ IsInPlace i node }
{
    match node {
        Node::Free(generation) => i >= 2 || i == 0 && generation == 0,
        Node::Root(mtime) => i == 1 && mtime.nanos <= MAX_NANOS,
        Node::File(_) => i >= 2,
    }
}

// True if a file is sound by itself. The map stays.
fn is_file_sound<O: ObjectReader>(
    reader: &mut O,
    version: FormatVersion,
    file: FileNode,
) -> Result<bool, Refusal<O::Cause>>
    requires { HasFiles (O.map reader.old).layout }
    ensures sound { IsTrue (O.trusted reader.old) → IfOk result (λ sound.
        IsTrue sound ↔ IsSoundFile version (O.map reader.old) file) }
    ensures in_range { IfOk result (λ sound. IsTrue sound → HasDataBlocks version (O.map reader.old).layout.blocks (Node.File file)) }
    ensures refusal { IfErr result (IsReadingRefusal (O.failed reader.new)) }
    ensures stays_failed { IsTrue (O.failed reader.old) → IsTrue (O.failed reader.new) }
    ensures same_map { O.map reader.new ≡ O.map reader.old }
    ensures same_trust { O.trusted reader.new ≡ O.trusted reader.old }
{
    let size = file.size;
    if file.generation == 0 || size > version.most_bytes() || file.mtime.nanos > MAX_NANOS {
        return Ok(false);
    }
    let more = version.extra_count(size);
    if !are_absent(&file.more[more..]) {
        return Ok(false);
    }
    are_blocks_sound(reader, &file.numbers()[..=more], size)
}

// True if all numbers are 0.
fn are_absent(numbers: &[u64]) -> bool
    ensures { IsTrue result ↔ AllZero numbers.now }
{
    numbers.iter().all(|number| *number == 0)
}

// True if these are data blocks, and their bytes from a size on are zero. The map stays. Each block
// has 4096 bytes (`IsSoundFile.sized`): a rule speaks of any map, and the length of all blocks of a
// file does not give that of each.
fn are_blocks_sound<O: ObjectReader>(
    reader: &mut O,
    blocks: &[u64],
    size: u64,
) -> Result<bool, Refusal<O::Cause>>
    requires { HasFiles (O.map reader.old).layout }
    ensures sound { IsTrue (O.trusted reader.old) → IfOk result (λ sound.
        IsTrue sound ↔ AreSoundBlocks (O.map reader.old) size blocks.now) }
    ensures in_range { IfOk result (λ sound. IsTrue sound
        → AllByRecursion (IsDataBlock (O.map reader.old).layout.blocks) blocks.now) }
    ensures refusal { IfErr result (IsReadingRefusal (O.failed reader.new)) }
    ensures stays_failed { IsTrue (O.failed reader.old) → IsTrue (O.failed reader.new) }
    ensures same_map { O.map reader.new ≡ O.map reader.old }
    ensures same_trust { O.trusted reader.new ≡ O.trusted reader.old }
{
    let mut left = size;
    for block in blocks {
        if !is_block_sound(reader, *block, left)? {
            return Ok(false);
        }
        left = left.saturating_sub(BLOCK_BYTES as u64);
    }
    Ok(true)
}

// True if this is a data block, and its bytes from a size on are zero. The block is read only if
// there are such bytes. The map stays.
fn is_block_sound<O: ObjectReader>(
    reader: &mut O,
    block: u64,
    size: u64,
) -> Result<bool, Refusal<O::Cause>>
    requires { HasFiles (O.map reader.old).layout }
    ensures sound { IsTrue (O.trusted reader.old) → IfOk result (λ sound.
        IsTrue sound ↔ IsSoundBlock (O.map reader.old) size block) }
    ensures in_range { IfOk result (λ sound. IsTrue sound → IsDataBlock (O.map reader.old).layout.blocks block) }
    ensures refusal { IfErr result (IsReadingRefusal (O.failed reader.new)) }
    ensures stays_failed { IsTrue (O.failed reader.old) → IsTrue (O.failed reader.new) }
    ensures same_map { O.map reader.new ≡ O.map reader.old }
    ensures same_trust { O.trusted reader.new ≡ O.trusted reader.old }
{
    let blocks = reader.layout().blocks;
    if block < FIRST_DATA || block >= blocks {
        return Ok(false);
    }
    if size >= BLOCK_BYTES as u64 {
        // The file goes on after the block, so none of its bytes has to be zero.
        return Ok(true);
    }
    let value = reader.read(block_addr(block))?;
    Ok(are_zero(&value.bytes()[size as usize..]))
}

// The inode of a number, or `None` if it is not sound. The map stays.
fn sound_inode<O: ObjectReader>(
    reader: &mut O,
    version: FormatVersion,
    i: u32,
) -> Result<Option<Node>, Refusal<O::Cause>>
    requires known { i < INODES }
    requires cut { HasFiles (O.map reader.old).layout }
    ensures sound { IsTrue (O.trusted reader.old) → IfOk result (λ found.
        MatchOption found (IsSoundInode version (O.map reader.old) i → ⊥)
        (λ node. (node_at (O.map reader.old) i ≡ node) × IsSoundInode version (O.map reader.old) i)) }
    ensures in_range { IfOk result (λ found. IfSome found (HasDataBlocks version (O.map reader.old).layout.blocks)) }
    ensures refusal { IfErr result (IsReadingRefusal (O.failed reader.new)) }
    ensures stays_failed { IsTrue (O.failed reader.old) → IsTrue (O.failed reader.new) }
    ensures same_map { O.map reader.new ≡ O.map reader.old }
    ensures same_trust { O.trusted reader.new ≡ O.trusted reader.old }
{
    let value = reader.read(inode_addr(i))?;
    let node = Node::read(value.bytes());
    if node.bytes().as_slice() != value.bytes() || !is_in_place(i, node) {
        return Ok(None);
    }
    if let Node::File(file) = node {
        if !is_file_sound(reader, version, file)? {
            return Ok(None);
        }
    }
    Ok(Some(node))
}

// The table of owners, which says of each data block whether a file has it. `None` if an inode is
// not sound, or two files have one block. The map stays.
fn owners<O: ObjectReader>(
    reader: &mut O,
    version: FormatVersion,
    alloc: Global,
) -> Result<Option<Vec<bool>>, Refusal<O::Cause>>
    requires { HasFiles (O.map reader.old).layout }
    ensures sound { IsTrue (O.trusted reader.old) → IfOk result (λ found.
        MatchOption found (AreSoundBelow version (O.map reader.old) INODES → ⊥)
        (λ owners. AreSoundBelow version (O.map reader.old) INODES × AreOwners version (O.map reader.old) INODES owners.items)) }
    ensures whole { IfOk result (λ found. IfSome found (λ owners.
        FIRST_DATA + length owners.items ≡ (O.map reader.old).layout.blocks)) }
    ensures refusal { IfErr result (IsReadingRefusal (O.failed reader.new)) }
    ensures stays_failed { IsTrue (O.failed reader.old) → IsTrue (O.failed reader.new) }
    ensures same_map { O.map reader.new ≡ O.map reader.old }
    ensures same_trust { O.trusted reader.new ≡ O.trusted reader.old }
{
    let blocks = reader.layout().blocks;
    let mut owners = vec![in alloc; false; (blocks - FIRST_DATA) as usize]?;
    for i in 0..INODES {
        let Some(node) = sound_inode(reader, version, i)? else {
            return Ok(None);
        };
        if !claim(&mut owners, version, node) {
            return Ok(None);
        }
    }
    Ok(Some(owners))
}

// Notes the blocks of an inode as owned. False if one of them is owned already.
fn claim(owners: &mut Vec<bool>, version: FormatVersion, node: Node) -> bool
    requires { HasDataBlocks version (FIRST_DATA + length owners.old.items) node }
    ensures claims { Claims version node owners.old.items owners.new.items result }
    ensures length { length owners.new.items ≡ length owners.old.items }
{
    match node {
        Node::File(file) => {
            let more = version.extra_count(file.size);
            mark(owners, &file.numbers()[..=more])
        }
        _ => true,
    }
}

// Notes blocks as owned. False if one of them is owned already.
fn mark(owners: &mut Vec<bool>, blocks: &[u64]) -> bool
    requires { AllByRecursion (IsDataBlock (FIRST_DATA + length owners.old.items)) blocks.now }
    ensures marks { MarksOrMeets blocks.now owners.old.items owners.new.items result }
    ensures length { length owners.new.items ≡ length owners.old.items }
{
    for block in blocks {
        let place = (*block - FIRST_DATA) as usize;
        if owners[place] {
            return false;
        }
        owners[place] = true;
    }
    true
}

// True if each bit of the bitmap is as the table says, and set past its end. The map stays.
fn are_bits_sound<O: ObjectReader>(
    reader: &mut O,
    owners: &[bool],
) -> Result<bool, Refusal<O::Cause>>
    requires { HasFiles (O.map reader.old).layout }
    ensures sound { IsTrue (O.trusted reader.old) → IfOk result (λ sound.
        IsTrue sound ↔ AreBitsBelow (O.map reader.old) owners.now BLOCK_BITS) }
    ensures refusal { IfErr result (IsReadingRefusal (O.failed reader.new)) }
    ensures stays_failed { IsTrue (O.failed reader.old) → IsTrue (O.failed reader.new) }
    ensures same_map { O.map reader.new ≡ O.map reader.old }
    ensures same_trust { O.trusted reader.new ≡ O.trusted reader.old }
{
    for word in 0..BLOCK_BITS / WORD_BITS {
        let first = WORD_BITS * word;
        let bits = reader.read_bits(bit_addr(FIRST_DATA + u64::from(first)))?;
        if !are_bits_asked(bits, owners, first as usize) {
            return Ok(false);
        }
    }
    Ok(true)
}

// True if the bits of a number are those that the table asks for, from a place of it on.
fn are_bits_asked(bits: u64, owners: &[bool], first: usize) -> bool
    requires { first ≤ BLOCK_BITS }
    ensures { IsTrue result ↔ AreAsked owners.now first WORD_BITS bits }
{
    for i in 0..WORD_BITS {
        let is_set = (bits >> i) & 1 == 1;
        if is_set != is_taken(owners, first + i as usize) {
            return false;
        }
    }
    true
}

// True if the bit of a place has to be set: its block has an owner, or is not there.
fn is_taken(owners: &[bool], k: usize) -> bool
    ensures { result ≡ unwrap_or (slice_get owners.now k) true }
{
    k >= owners.len() || owners[k]
}
