// The places of the table's rows on the disk.
ghost use Rattle.std.specs.Prelude.{◌≡◌, ◌≤◌, ◌<◌, ◌+◌, ◌*◌, ◌^◌, ◌↔◌, IsTrue, IsSome, IfSome};
ghost use Rattle.journal_world.specs.Addresses.{is_valid};
ghost use Rattle.journal_world.specs.Files.{shape};
ghost use Rattle.journal_world.specs.declared.layout.TheConstants.{MAX_LAYOUT_BLOCKS, BLOCK_BITS};
ghost use Rattle.journal_table.specs.Tables.{table_shape, HasRoom, bit_of, record_of};

use journal_world::{
    Addr, BLOCK_BITS, Kind, Layout, REGIONS, RecordSize, Region, SUPERBLOCK, UNUSED,
};

/// The head of the table: an object of a whole block, in the first block that has objects.
pub const HEAD: Addr = Addr {
    block: SUPERBLOCK,
    off: 0,
};

/// The number of bytes of a row.
pub const ROW_BYTES: usize = 64;

// The first block of the free list.
const FIRST_BITS: u64 = SUPERBLOCK + 1;

// The number of places of a block of the free list: one for each of its bits.
const PLACES_A_BLOCK: u64 = BLOCK_BITS as u64;

// The number of rows of a block of rows, and of bits of the block that each of them takes.
const ROWS_A_BLOCK: u64 = 64;

const ROW_BITS: u32 = 512;

// The number of blocks of the rows for which one block of the free list has the bits.
const BLOCKS_OF_ROWS: u64 = PLACES_A_BLOCK / ROWS_A_BLOCK;

// A region that is not in use.
const NONE: Region = Region {
    first: UNUSED,
    kind: Kind::Block,
};

/// A table: how a disk is divided into the head, the free list and the rows. It takes no more
/// memory for a large disk.
///
/// A place has a bit of the free list, which is 1 if the place has a row, and a record of 64 bytes
/// for the row.
#[derive(Clone, Copy, Debug)]
pub struct Table {
    /// The layout by which the journal opens the disk.
    pub layout: Layout,
    // The number of blocks of the free list.
    free_list: u64,
    ghost cut: { (shape layout ≡ table_shape layout.blocks free_list) × HasRoom layout.blocks free_list },
}

/// The two objects of a place.
#[derive(Clone, Copy, Debug)]
pub struct Place {
    /// The bit of the free list.
    pub bit: Addr,
    /// The record of the row.
    pub record: Addr,
}

impl Table {
    /// The table on a disk of `blocks` blocks, with as many places as it has room for.
    ///
    /// `None` for fewer than 1027 blocks and for more than 2^40.
    pub fn new(blocks: u64) -> Option<Table>
        ensures valid { IsSome result ↔ ((1027 ≤ blocks) × (blocks ≤ MAX_LAYOUT_BLOCKS)) }
        ensures blocks { IfSome result (λ table. table.layout.blocks ≡ blocks) }
    {
        let free_list = blocks.checked_sub(FIRST_BITS)? / (1 + BLOCKS_OF_ROWS);
        let layout = Layout::with_regions(blocks, regions(free_list))?;
        Some(Table { layout, free_list })
    }

    /// The number of places.
    pub fn places(&self) -> u64
        ensures { result ≡ self.now.free_list * BLOCK_BITS }
    {
        self.free_list * PLACES_A_BLOCK
    }

    /// The objects of the place of this number, from 0 on. Each has another bit and another record.
    ///
    /// `None` if the number is not below the number of places.
    pub fn place(&self, number: u64) -> Option<Place>
        ensures some { IsSome result ↔ number < self.now.free_list * BLOCK_BITS }
        ensures bit { IfSome result (λ place. place.bit ≡ bit_of number) }
        ensures record { IfSome result (λ place. place.record ≡ record_of self.now.free_list number) }
        ensures valid { IfSome result (λ place. IsTrue (is_valid (shape self.now.layout) place.bit)
            × IsTrue (is_valid (shape self.now.layout) place.record)) }
    {
        if number >= self.places() {
            return None;
        }
        Some(Place {
            bit: Addr {
                block: FIRST_BITS + number / PLACES_A_BLOCK,
                off: (number % PLACES_A_BLOCK) as u32,
            },
            record: Addr {
                block: FIRST_BITS + self.free_list + number / ROWS_A_BLOCK,
                off: (number % ROWS_A_BLOCK) as u32 * ROW_BITS,
            },
        })
    }
}

// The head, `free_list` blocks of the free list, and then rows to the end of the disk. A region
// ends where the next one begins.
fn regions(free_list: u64) -> [Region; REGIONS]
    requires { 514 + free_list < 2 ^ 64 }
    ensures { result ≡ (table_shape 0 free_list).regions }
{
    [
        Region {
            first: SUPERBLOCK,
            kind: Kind::Block,
        },
        Region {
            first: FIRST_BITS,
            kind: Kind::Bit,
        },
        Region {
            first: FIRST_BITS + free_list,
            kind: Kind::Record(RecordSize::Bytes64),
        },
        NONE,
        NONE,
        NONE,
        NONE,
        NONE,
    ]
}
