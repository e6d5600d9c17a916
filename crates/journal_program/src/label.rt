// The label of a disk.
ghost use Rattle.std.specs.Prelude.{ℕ, ◌≡◌, ◌≢◌, ◌↔◌, ◌≤◌, ◌+◌, Some, None, Ok, IsTrue, IsSome, IfSome, List};
ghost use Rattle.journal_world.specs.declared.layout.Region.{Region};
ghost use Rattle.journal_world.specs.declared.layout.TheConstants.{MIN_BLOCKS, MAX_LAYOUT_BLOCKS};
ghost use Rattle.journal_world.specs.Addresses.{are_regions, bits_of};
ghost use Rattle.journal_block.specs.Block.{u64_at};
ghost use Rattle.journal_program.specs.Labels.{IsLabel, AreTold, AreUnused, UnusedAreBlocks, regions_told, HasRegions, HasZeros, HasLabel};

use journal_block::Block;
use journal_world::{
    BLOCK_BITS, Kind, Layout, MAX_LAYOUT_BLOCKS, MIN_BLOCKS, REGIONS, RecordSize, Region, UNUSED,
};

// The first bytes of a label: the bytes of JNLLABEL.
const MAGIC: u64 = 0x4c45_4241_4c4c_4e4a;

// The version of the label.
const VERSION: u64 = 1;

// Where its numbers lie. Each takes eight bytes, the lowest first.
const NUMBER_BYTES: usize = 8;

const MAGIC_AT: usize = 8;

const VERSION_AT: usize = 16;

const BLOCKS_AT: usize = 24;

// Where the first block of the first region lies, and how many bits its objects are apart. A region
// takes both numbers.
const FIRSTS_AT: usize = 32;

const KINDS_AT: usize = 40;

const REGION_BYTES: usize = 16;

// How many numbers a block has, and which is the first behind the label.
const PLACES: usize = 512;

const FIRST_ZERO: usize = 20;

/// The regions of a label that tells none: none is in use.
pub const UNTOLD: [Region; REGIONS] = [Region {
    first: UNUSED,
    kind: Kind::Block,
}; REGIONS];

/// The label of a disk: how many blocks it has, and the regions of its layout.
/// `docs/FORMATS.md` has its bytes.
#[derive(Clone, Copy, Debug, PartialEq, Eq)]
pub struct Label {
    /// How many blocks the disk has: 532 to 2^40.
    pub blocks: u64,
    /// The regions of its layout, or as many that are not in use, where they are to be named each
    /// time.
    pub regions: [Region; REGIONS],
}

/// The label of a disk is not well formed: it begins with its name, and the rest is no label's.
#[derive(Clone, Copy, Debug, PartialEq, Eq)]
pub struct BadLabel;

impl Label {
    /// The label of a disk of so many blocks with these regions.
    ///
    /// `None` where there are fewer than 532 or more than 2^40 blocks; and where regions are in
    /// use, but do not begin at block 513, do not rise, or have one in use behind one that is not;
    /// and where one that is not in use has another kind than that of blocks.
    pub fn new(blocks: u64, regions: [Region; REGIONS]) -> Option<Label>
        ensures valid { IsSome result ↔ IsLabel (record { blocks = blocks; regions = regions }) }
        ensures value { IfSome result (λ label. label ≡ record { blocks = blocks; regions = regions }) }
    {
        let is_label = is_disk_size(blocks) && are_told(&regions);
        is_label.then_some(Label { blocks, regions })
    }

    /// The regions of the disk's layout, where the label tells any.
    pub fn told(&self) -> Option<[Region; REGIONS]>
        ensures told { result ≡ regions_told self.now }
        ensures rise { IsLabel self.now → IfSome result (λ regions. IsTrue (are_regions regions)) }
    {
        if self.regions[0].first == UNUSED {
            return None;
        }
        Some(self.regions)
    }

    /// Writes the label into block 1. The start of the log, bytes 0 to 7, stays.
    pub fn write(&self, block: &mut Block)
        ensures label { HasLabel block.new self.now }
        ensures start { u64_at block.new 0 ≡ u64_at block.old 0 }
    {
        block.put_u64(MAGIC_AT, MAGIC);
        block.put_u64(VERSION_AT, VERSION);
        block.put_u64(BLOCKS_AT, self.blocks);
        write_regions(block, &self.regions);
        write_zeros(block);
    }

    /// Writes the name of a label into block 1, and no label of any version: `Label::read` refuses
    /// it. So each program refuses a disk that is not made to its end.
    pub(crate) fn write_unfinished(block: &mut Block)
        ensures named { u64_at block.new 8 ≡ MAGIC }
        ensures no_label { (label : Label) → HasLabel block.new label → ⊥ }
    {
        block.put_u64(MAGIC_AT, MAGIC);
        block.put_u64(VERSION_AT, 0);
    }

    /// Reads the label in block 1: `None` where it does not begin with the label's name.
    ///
    /// # Errors
    /// - `BadLabel`: it begins with the name, and is no label of version 1. Its number of blocks is
    ///   that of no disk, its regions are none of a layout, or another byte is not zero.
    pub fn read(block: &Block) -> Result<Option<Label>, BadLabel>
        ensures none { (result ≡ Ok None) ↔ (u64_at block.now 8 ≢ MAGIC) }
        ensures label { (label : Label) → (result ≡ Ok (Some label)) ↔ (IsLabel label × HasLabel block.now label) }
    {
        if block.get_u64(MAGIC_AT) != MAGIC {
            return Ok(None);
        }
        match read_named(block) {
            Some(label) => Ok(Some(label)),
            None => Err(BadLabel),
        }
    }
}

// Reads the label of a block that begins with the label's name.
fn read_named(block: &Block) -> Option<Label>
    requires { u64_at block.now 8 ≡ MAGIC }
    ensures { (label : Label) → (result ≡ Some label) ↔ (IsLabel label × HasLabel block.now label) }
{
    if block.get_u64(VERSION_AT) != VERSION || !has_zeros(block) {
        return None;
    }
    Label::new(block.get_u64(BLOCKS_AT), read_regions(block)?)
}

/// Whether a disk of some layout has so many blocks.
pub fn is_disk_size(blocks: u64) -> bool
    ensures { IsTrue result ↔ ((MIN_BLOCKS ≤ blocks) × (blocks ≤ MAX_LAYOUT_BLOCKS)) }
{
    (MIN_BLOCKS..=MAX_LAYOUT_BLOCKS).contains(&blocks)
}

// Whether a layout has such regions, or none is in use.
fn are_told(regions: &[Region; REGIONS]) -> bool
    ensures { IsTrue result ↔ AreTold regions.now }
{
    if !unused_are_blocks(regions) {
        return false;
    }
    if regions[0].first == UNUSED {
        return are_unused(regions);
    }
    // Whether regions rise does not depend on the number of blocks.
    Layout::with_regions(MIN_BLOCKS, *regions).is_some()
}

// Whether no region is in use.
fn are_unused(regions: &[Region; REGIONS]) -> bool
    ensures { IsTrue result ↔ AreUnused regions.now }
{
    for index in 0..REGIONS {
        if regions[index].first != UNUSED {
            return false;
        }
    }
    true
}

// True if each region that is not in use has the kind of blocks, as `Label::write` has it.
fn unused_are_blocks(regions: &[Region; REGIONS]) -> bool
    ensures { IsTrue result ↔ UnusedAreBlocks regions.now }
{
    for index in 0..REGIONS {
        if regions[index].first == UNUSED && !is_block(regions[index].kind) {
            return false;
        }
    }
    true
}

// True if the kind is that of blocks.
fn is_block(kind: Kind) -> bool
    ensures { IsTrue result ↔ (kind ≡ Kind.Block) }
{
    matches!(kind, Kind::Block)
}

// Writes the two numbers of each region.
fn write_regions(block: &mut Block, regions: &[Region; REGIONS])
    ensures regions { HasRegions block.new regions.now }
    ensures before { (k : ℕ) → k + 8 ≤ 32 → u64_at block.new k ≡ u64_at block.old k }
{
    for index in 0..REGIONS {
        block.put_u64(FIRSTS_AT + REGION_BYTES * index, regions[index].first);
        block.put_u64(KINDS_AT + REGION_BYTES * index, bits(regions[index].kind));
    }
}

// Reads the regions that the numbers of a block tell.
fn read_regions(block: &Block) -> Option<[Region; REGIONS]>
    ensures { (regions : List Region) → (result ≡ Some regions) ↔ HasRegions block.now regions }
{
    let mut regions = UNTOLD;
    for index in 0..REGIONS {
        let kind = kind_of(block.get_u64(KINDS_AT + REGION_BYTES * index))?;
        let first = block.get_u64(FIRSTS_AT + REGION_BYTES * index);
        regions[index] = Region { first, kind };
    }
    Some(regions)
}

// Writes zeros behind the label.
fn write_zeros(block: &mut Block)
    ensures zeros { HasZeros block.new }
    ensures before { (k : ℕ) → k + 8 ≤ 160 → u64_at block.new k ≡ u64_at block.old k }
{
    for place in FIRST_ZERO..PLACES {
        block.put_u64(NUMBER_BYTES * place, 0);
    }
}

// Whether a block has zeros behind the label.
fn has_zeros(block: &Block) -> bool
    ensures { IsTrue result ↔ HasZeros block.now }
{
    for place in FIRST_ZERO..PLACES {
        if block.get_u64(NUMBER_BYTES * place) != 0 {
            return false;
        }
    }
    true
}

// How many bits the objects of a kind are apart.
fn bits(kind: Kind) -> u64
    ensures { result ≡ bits_of kind }
{
    match kind {
        Kind::Bit => 1,
        Kind::Record(size) => 8 * size.bytes() as u64,
        Kind::Block => u64::from(BLOCK_BITS),
    }
}

// The kind whose objects are so many bits apart.
fn kind_of(bits: u64) -> Option<Kind>
    ensures { (kind : Kind) → (result ≡ Some kind) ↔ (bits_of kind ≡ bits) }
{
    let kind = match bits {
        1 => Kind::Bit,
        64 => Kind::Record(RecordSize::Bytes8),
        128 => Kind::Record(RecordSize::Bytes16),
        256 => Kind::Record(RecordSize::Bytes32),
        512 => Kind::Record(RecordSize::Bytes64),
        1024 => Kind::Record(RecordSize::Bytes128),
        2048 => Kind::Record(RecordSize::Bytes256),
        4096 => Kind::Record(RecordSize::Bytes512),
        8192 => Kind::Record(RecordSize::Bytes1024),
        16384 => Kind::Record(RecordSize::Bytes2048),
        32768 => Kind::Block,
        _ => return None,
    };
    Some(kind)
}
