// How a disk with a tree is cut, and where its objects lie.
ghost use Rattle.std.specs.Prelude.{◌≡◌, ◌<◌, ◌≤◌, ◌+◌, ◌↔◌, IsTrue, nat_lt};
ghost use Rattle.journal_world.specs.Files.{shape};
ghost use Rattle.journal_treestore.specs.Places.{made_cut, first_inodes, first_data, data_blocks, HasRoom, later_owners, later_region, record_in, shape_of, IsCut, addr_of};
ghost use Rattle.journal_treestore.specs.Places.Object.{owner_of, inode_of, data_block};

use journal_tree::ROOT;
use journal_world::{Addr, Kind, Layout, RecordSize, Region, SUPERBLOCK, UNUSED};

/// The first block of owners' records. The block before it has the description.
pub const FIRST_OWNERS: u64 = 514;

/// How many owners' records lie in a block.
pub const BLOCK_OWNERS: u64 = 512;

/// How many inodes lie in a block.
pub const BLOCK_INODES: u64 = 8;

/// The slots of a journal over a disk with a tree. A page of a listing holds some 230, so with few
/// slots the pages of four clients meet by chance, and are done again. The number is prime and far
/// from each power of 2: near 65536 the inodes of a disk would meet the blocks of its directories.
pub const TREE_SLOTS: u16 = 57329;

/// The fewest blocks of a disk with a tree.
pub const FEWEST_BLOCKS: u64 = 600;

/// The most blocks of a disk with a tree.
pub const MOST_DISK_BLOCKS: u64 = 1 << 32;

/// The most inodes of a disk with a tree. Number 0 is none.
pub const MOST_NUMBERS: u64 = 1 << 27;

/// How a disk with a tree is cut. First come the log, the description and an owner's record of each
/// block, then the inodes, and the rest is data. Once the disk grew, its last blocks have the
/// owner's records of the blocks that came later.
#[derive(Clone, Copy, Debug, PartialEq, Eq)]
pub struct Cut {
    /// How many blocks the disk has.
    pub size: u64,
    /// How many of these have an owner's record: all before the records of later blocks.
    pub blocks: u64,
    /// How many inodes.
    pub numbers: u64,
    /// How many blocks the disk had when it was made.
    pub base: u64,
}

impl Cut {
    /// How a disk that did not grow is cut, with these numbers of blocks and inodes.
    pub fn new(blocks: u64, numbers: u64) -> Cut
        ensures { result ≡ made_cut blocks numbers }
    {
        Cut {
            size: blocks,
            blocks,
            numbers,
            base: blocks,
        }
    }

    /// True if a disk may be cut so: the numbers are within their bounds, there is a root, and at
    /// least one block was left for data when the disk was made. The records of later blocks have
    /// room.
    pub fn is_possible(&self) -> bool
        ensures { IsTrue result ↔ IsCut self.now }
    {
        let fits = FEWEST_BLOCKS <= self.base && self.size <= MOST_DISK_BLOCKS;
        let rooted = u64::from(ROOT) < self.numbers && self.numbers <= MOST_NUMBERS;
        fits && rooted && self.has_room() && self.leaves_data()
    }

    // True if the records of later blocks have room, and a disk without such blocks has no more.
    fn has_room(&self) -> bool
        requires size { self.now.size ≤ MOST_DISK_BLOCKS }
        ensures { IsTrue result ↔ HasRoom self.now }
    {
        if self.blocks < self.base || self.size < self.blocks {
            return false;
        }
        if self.blocks == self.base {
            return self.size == self.base;
        }
        (self.blocks - self.base).div_ceil(BLOCK_OWNERS) <= self.size - self.blocks
    }

    // True if a block was left for data.
    fn leaves_data(&self) -> bool
        requires base { self.now.base ≤ MOST_DISK_BLOCKS }
        requires numbers { self.now.numbers ≤ MOST_NUMBERS }
        ensures { IsTrue result ↔ (first_data self.now < self.now.base) }
    {
        let inodes = FIRST_OWNERS + self.base.div_ceil(BLOCK_OWNERS);
        inodes + self.numbers.div_ceil(BLOCK_INODES) < self.base
    }

    /// True if the disk has more blocks than when it was made.
    pub fn grew(&self) -> bool
        ensures { result ≡ nat_lt self.now.base self.now.blocks }
    {
        self.base < self.blocks
    }

    /// The first block of inodes.
    pub fn first_inodes(&self) -> u64
        requires { IsCut self.now }
        ensures { result ≡ first_inodes self.now }
    {
        FIRST_OWNERS + self.base.div_ceil(BLOCK_OWNERS)
    }

    /// The first block of data.
    pub fn first_data(&self) -> u64
        requires { IsCut self.now }
        ensures { result ≡ first_data self.now }
    {
        self.first_inodes() + self.numbers.div_ceil(BLOCK_INODES)
    }

    /// How many blocks of data there are.
    pub fn data_blocks(&self) -> u64
        requires { IsCut self.now }
        ensures { result ≡ data_blocks self.now }
    {
        self.blocks - self.first_data()
    }

    /// How many blocks have the records of blocks that came later, from block `blocks` on.
    pub fn later_owners(&self) -> u64
        requires { IsCut self.now }
        ensures { result ≡ later_owners self.now }
    {
        (self.blocks - self.base).div_ceil(BLOCK_OWNERS)
    }

    /// The layout of the disk: a block for the description, records of 8 bytes, records of 512
    /// bytes, and blocks. Once the disk grew also later blocks, and their records of 8 bytes.
    pub fn layout(&self) -> Layout
        requires { IsCut self.now }
        ensures { shape result ≡ shape_of self.now }
    {
        let unused = region(UNUSED, Kind::Block);
        let regions = [
            region(SUPERBLOCK, Kind::Block),
            region(FIRST_OWNERS, Kind::Record(RecordSize::Bytes8)),
            region(self.first_inodes(), Kind::Record(RecordSize::Bytes512)),
            region(self.first_data(), Kind::Block),
            self.later_region(self.base, Kind::Block),
            self.later_region(self.blocks, Kind::Record(RecordSize::Bytes8)),
            unused,
            unused,
        ];
        Layout {
            blocks: self.size,
            regions,
            slots: TREE_SLOTS,
        }
    }

    // A region that the disk has once it grew.
    fn later_region(&self, first: u64, kind: Kind) -> Region
        ensures { result ≡ later_region (nat_lt self.now.base self.now.blocks) first kind }
    {
        if self.grew() {
            region(first, kind)
        } else {
            region(UNUSED, Kind::Block)
        }
    }

    /// The address of the record of who has a block.
    pub fn owner_addr(&self, block: u64) -> Addr
        requires cut { IsCut self.now }
        requires inside { block < self.now.blocks }
        ensures { result ≡ addr_of self.now (owner_of block) }
    {
        if block < self.base {
            record_in(FIRST_OWNERS, block)
        } else {
            record_in(self.blocks, block - self.base)
        }
    }

    /// The address of the inode of a number.
    pub fn inode_addr(&self, number: u64) -> Addr
        requires cut { IsCut self.now }
        requires inside { number < self.now.numbers }
        ensures { result ≡ addr_of self.now (inode_of number) }
    {
        Addr {
            block: self.first_inodes() + number / BLOCK_INODES,
            off: (number % BLOCK_INODES) as u32 * 4096,
        }
    }

    /// The address of a block of data.
    pub fn block_addr(&self, block: u64) -> Addr
        ensures { result ≡ addr_of self.now (data_block block) }
    {
        Addr { block, off: 0 }
    }
}

// Where a record of who has a block lies, by its number among those from a block on.
fn record_in(first: u64, index: u64) -> Addr
    requires first { first ≤ MOST_DISK_BLOCKS }
    requires index { index < MOST_DISK_BLOCKS }
    ensures { result ≡ record_in first index }
{
    Addr {
        block: first + index / BLOCK_OWNERS,
        off: (index % BLOCK_OWNERS) as u32 * 64,
    }
}

// A region of a layout.
fn region(first: u64, kind: Kind) -> Region
    ensures { result ≡ record { first = first; kind = kind } }
{
    Region { first, kind }
}
