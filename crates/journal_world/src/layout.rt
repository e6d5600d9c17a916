// The layout of a disk: how many blocks there are, what their objects are, and the slot of each
// address.
ghost use Rattle.std.specs.Prelude.{◌≡◌, ◌≤◌, ◌<◌, ◌+◌, ◌*◌, ◌%◌, ◌↔◌, IsTrue, IsSome, IfSome};
ghost use Rattle.journal_world.specs.Addresses.{kind_of, is_valid, are_regions, bits_of, slot_of};
ghost use Rattle.journal_world.specs.declared.layout.TheConstants.{MIN_BLOCKS, MAX_BLOCKS, MAX_LAYOUT_BLOCKS, MAX_SLOTS, SLOTS, BLOCK_BITS};

use crate::address::{Addr, Kind, RecordSize};

/// The fewest blocks of a disk.
pub const MIN_BLOCKS: u64 = 532;
/// The most blocks of a disk with the layout of files.
pub const MAX_BLOCKS: u64 = 33299;
/// The most blocks of a disk of any layout.
pub const MAX_LAYOUT_BLOCKS: u64 = 1 << 40;
/// The number of positions of the log.
pub const LOG_POSITIONS: u64 = 511;
/// The first block after the log.
pub const FIRST_HOME: u64 = 513;
/// The first block that has objects, the superblock. The log is below it.
pub const SUPERBLOCK: u64 = 513;
/// The block whose objects are bits, where the layout is that of files.
pub const BITMAP: u64 = 514;
/// The first block whose objects are inodes, where the layout is that of files.
pub const FIRST_INODES: u64 = 515;
/// The first block of data, where the layout is that of files.
pub const FIRST_DATA: u64 = 531;
/// The bytes of a block.
pub const BLOCK_BYTES: usize = 4096;
/// The bits of a block.
pub const BLOCK_BITS: u32 = 32768;

/// The number of slots of a layout that asks for no other number.
pub const SLOTS: u16 = 257;
/// The most slots of a layout, the greatest prime number below 2^16.
pub const MAX_SLOTS: u16 = 65521;

/// The number of regions of a layout, in use or not.
pub const REGIONS: usize = 8;
/// The first block of a region that is not in use.
pub const UNUSED: u64 = u64::MAX;

/// A region of a disk: the blocks from `first` on, up to the next region or the end of the disk.
/// All their objects are of one kind.
#[derive(Clone, Copy, Debug, PartialEq, Eq)]
pub struct Region {
    /// The first block, or `UNUSED`.
    pub first: u64,
    /// The kind of the objects.
    pub kind: Kind,
}

/// The layout of a disk: which addresses name an object, the kind of each, and the number of slots
/// of a journal over it. The number of slots is odd.
#[derive(Clone, Copy, Debug, PartialEq, Eq)]
pub struct Layout {
    pub blocks: u64,
    pub regions: [Region; REGIONS],
    pub slots: u16,
    pub ghost in_range: { (MIN_BLOCKS ≤ blocks) × (blocks ≤ MAX_LAYOUT_BLOCKS) },
    pub ghost odd: { slots % 2 ≡ 1 },
}

// A region that is not in use.
const NONE: Region = Region {
    first: UNUSED,
    kind: Kind::Block,
};

// The regions of a disk with files.
const FILES: [Region; REGIONS] = [
    Region {
        first: SUPERBLOCK,
        kind: Kind::Block,
    },
    Region {
        first: BITMAP,
        kind: Kind::Bit,
    },
    Region {
        first: FIRST_INODES,
        kind: Kind::Record(RecordSize::Bytes128),
    },
    Region {
        first: FIRST_DATA,
        kind: Kind::Block,
    },
    NONE,
    NONE,
    NONE,
    NONE,
];

impl Layout {
    ghost use Rattle.journal_world.specs.Files.{shape, files};

    // At most 33299 blocks, because the files' one block of bits has no bit for a further block.
    // `with_regions` takes 2^40, whose bytes fit the numbers of a file.
    /// The layout of a disk of `blocks` blocks with files: the superblock, one block of bits, 16
    /// blocks of 32 inodes each, and data.
    ///
    /// `None` for fewer than 532 blocks and for more than 33299.
    pub fn new(blocks: u64) -> Option<Layout>
        ensures valid { IsSome result ↔ ((MIN_BLOCKS ≤ blocks) × (blocks ≤ MAX_BLOCKS)) }
        ensures value { IfSome result (λ layout. shape layout ≡ files blocks) }
    {
        if blocks > MAX_BLOCKS {
            return None;
        }
        Layout::with_regions(blocks, FILES)
    }

    /// The layout of a disk of `blocks` blocks with these regions, and 257 slots. The disk does not
    /// record it, so each opening needs the same layout.
    ///
    /// `None` for fewer than 532 blocks and for more than 2^40. `None` also unless the first region
    /// begins at block 513, the regions rise, and those in use come before all others.
    pub fn with_regions(blocks: u64, regions: [Region; REGIONS]) -> Option<Layout>
        ensures valid { IsSome result
            ↔ ((MIN_BLOCKS ≤ blocks) × (blocks ≤ MAX_LAYOUT_BLOCKS) × IsTrue (are_regions regions)) }
        ensures value { IfSome result (λ layout. shape layout ≡ record { blocks = blocks; regions = regions; slots = SLOTS }) }
    {
        if blocks < MIN_BLOCKS || blocks > MAX_LAYOUT_BLOCKS || !are_regions(&regions) {
            return None;
        }
        Some(Layout {
            blocks,
            regions,
            slots: SLOTS,
        })
    }

    /// The same layout with this number of slots. With more slots, transactions meet less often by
    /// chance: two that use k random addresses each share a slot with a probability of about k^2 /
    /// slots. The number is odd, so that neighbouring whole blocks have different slots.
    ///
    /// `None` where the number is even or above 65521.
    pub fn with_slots(self, slots: u16) -> Option<Layout>
        ensures valid { IsSome result ↔ ((slots % 2 ≡ 1) × (slots ≤ MAX_SLOTS)) }
        ensures value { IfSome result (λ layout. shape layout ≡ record (shape self) { slots = slots }) }
    {
        if slots % 2 == 0 || slots > MAX_SLOTS {
            return None;
        }
        let same_regions = self.regions;
        Some(Layout {
            blocks: self.blocks,
            regions: same_regions,
            slots,
        })
    }

    /// True if it is the layout of a disk with files, with 257 slots.
    pub fn is_of_files(&self) -> bool
        ensures { IsTrue result ↔ (shape self.now ≡ files self.now.blocks) }
    {
        self.slots == SLOTS && are_same(&self.regions, &FILES)
    }

    /// The kind of a block's objects, or `None` where it has none.
    pub fn kind(&self, block: u64) -> Option<Kind>
        ensures { result ≡ kind_of (shape self.now) block }
    {
        if block < SUPERBLOCK || block >= self.blocks {
            return None;
        }
        // Regions rise, so the last one that begins at the block or below it has it.
        for index in (0..REGIONS).rev() {
            if self.regions[index].first <= block {
                return Some(self.regions[index].kind);
            }
        }
        None
    }

    /// The kind of the object that the address names, or `None` where it names none.
    pub fn kind_at(&self, addr: Addr) -> Option<Kind>
        ensures valid { IsSome result ↔ IsTrue (is_valid (shape self.now) addr) }
        ensures kind { IfSome result (λ kind. kind_of (shape self.now) addr.block ≡ Some kind) }
        ensures inside { IfSome result (λ kind. addr.off < BLOCK_BITS) }
        ensures multiple { IfSome result (λ kind. addr.off % bits_of kind ≡ 0) }
    {
        let kind = self.kind(addr.block)?;
        kind.begins_at(addr.off).then_some(kind)
    }

    /// True if the address names an object.
    pub fn is_valid(&self, addr: Addr) -> bool
        ensures { result ≡ is_valid (shape self.now) addr }
    {
        self.kind_at(addr).is_some()
    }

    /// The slot of an address, below the number of slots. Transactions that use addresses of one
    /// slot exclude one another.
    pub fn slot_of(&self, addr: Addr) -> u16
        ensures slot { result ≡ slot_of (shape self.now) addr }
        ensures in_range { result < self.now.slots }
    {
        if self.slots == SLOTS {
            slot_among_257(addr)
        } else {
            slot_among(addr, self.slots)
        }
    }
}

// The slot of an address among 257, which most layouts have. A division by a number that the
// compiler knows takes a fifth of the time. A sum below twice that number needs no division. That
// step also keeps the compiler from joining this function with `slot_among`.
fn slot_among_257(addr: Addr) -> u16
    ensures slot { result ≡ (addr.block * BLOCK_BITS + addr.off) % SLOTS }
    ensures in_range { result < SLOTS }
{
    let slots = u64::from(SLOTS);
    let block = addr.block % slots * u64::from(BLOCK_BITS) % slots;
    let slot = block + u64::from(addr.off) % slots;
    if slot < slots {
        slot as u16
    } else {
        (slot - slots) as u16
    }
}

// The slot of an address among this number of slots.
fn slot_among(addr: Addr, slots: u16) -> u16
    requires some { 0 < slots }
    ensures slot { result ≡ (addr.block * BLOCK_BITS + addr.off) % slots }
    ensures in_range { result < slots }
{
    let slots = u64::from(slots);
    let block = addr.block % slots * u64::from(BLOCK_BITS);
    ((block + u64::from(addr.off)) % slots) as u16
}

// True if the regions begin at block 513, those in use rise, and all others come after them. Judged
// where a layout is made, and nowhere else: the kind of a block is that of the last region that
// begins at the block or below it, whatever the list, so no proof above needs the order.
fn are_regions(regions: &[Region; REGIONS]) -> bool
    ensures { result ≡ are_regions regions.now }
{
    let mut before = 0;
    for index in 0..REGIONS {
        let first = regions[index].first;
        if first <= before && first != UNUSED {
            return false;
        }
        before = first;
    }
    regions[0].first == SUPERBLOCK
}

// True if the regions are the same.
fn are_same(regions: &[Region; REGIONS], others: &[Region; REGIONS]) -> bool
    ensures { IsTrue result ↔ (regions.now ≡ others.now) }
{
    for index in 0..REGIONS {
        if !is_same(regions[index], others[index]) {
            return false;
        }
    }
    true
}

// True if the two are one region. Kinds are compared by their bits.
fn is_same(region: Region, other: Region) -> bool
    ensures { IsTrue result ↔ (region ≡ other) }
{
    region.first == other.first && region.kind.bits() == other.kind.bits()
}
