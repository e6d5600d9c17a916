// The description of a disk with a tree.
ghost use Rattle.std.specs.Prelude.{◌≡◌, ◌<◌, ◌^◌, ◌↔◌, IsTrue, length, replicate};
ghost use Rattle.journal_treestore.specs.Descriptions.{AllZero, description_front, description_bytes, description_from};

use crate::bytes::{long, put};

/// The bytes of a description's block.
pub const DESCRIPTION_BYTES: usize = 4096;

// The first bytes of a description.
const MAGIC: &[u8; 8] = b"GJNLDSK1";

// The version of a disk with a tree.
const VERSION: u64 = 3;

// The bytes that are not always zero.
const FRONT_BYTES: usize = 40;

// Where the fields lie.
const VERSION_AT: usize = 8;

const BLOCKS_AT: usize = 16;

const NUMBERS_AT: usize = 24;

const DISK_AT: usize = 32;

/// The description of a disk with a tree, in the first block after its log.
#[derive(Clone, Copy, Debug, PartialEq, Eq)]
pub struct Description {
    /// How many blocks it had when it was made. It may have more.
    pub blocks: u64,
    /// How many inodes.
    pub numbers: u64,
    /// 8 bytes of its own, drawn when it is made. Each handle has them, so that a handle of another
    /// disk names nothing here.
    pub disk: u64,
}

impl Description {
    /// The numbers in the bytes of a description's block. `is_written_in` says if they are one.
    pub fn read(block: &[u8]) -> Description
        requires { length block.now ≡ DESCRIPTION_BYTES }
        ensures read { result ≡ description_from block.now }

        // It is read back as it was written.
        ensures read_back { (description : Description) → description.blocks < 2 ^ 64 → description.numbers < 2 ^ 64 → description.disk < 2 ^ 64
            → block.now ≡ description_bytes description → result ≡ description }
    {
        Description {
            blocks: long(block, BLOCKS_AT),
            numbers: long(block, NUMBERS_AT),
            disk: long(block, DISK_AT),
        }
    }

    /// True if these are the bytes of its block, to the last one.
    pub fn is_written_in(&self, block: &[u8]) -> bool
        requires { length block.now ≡ DESCRIPTION_BYTES }
        ensures { IsTrue result ↔ (block.now ≡ description_bytes self.now) }
    {
        let front = self.front();
        if !are_same(&block[..FRONT_BYTES], &front) {
            return false;
        }
        are_zero(&block[FRONT_BYTES..])
    }

    /// Writes it into a block of zeros.
    pub fn put(&self, block: &mut [u8])
        requires { block.old ≡ replicate 4096 0 }
        ensures { block.new ≡ description_bytes self.now }
    {
        put(block, 0, &self.front());
    }

    // The bytes that are not always zero.
    fn front(&self) -> [u8; FRONT_BYTES]
        ensures { result ≡ description_front self.now }
    {
        let mut front = [0; FRONT_BYTES];
        put(&mut front, 0, MAGIC);
        put(&mut front, VERSION_AT, &VERSION.to_le_bytes());
        put(&mut front, BLOCKS_AT, &self.blocks.to_le_bytes());
        put(&mut front, NUMBERS_AT, &self.numbers.to_le_bytes());
        put(&mut front, DISK_AT, &self.disk.to_le_bytes());
        front
    }
}

fn are_same(left: &[u8], right: &[u8]) -> bool
    ensures { IsTrue result ↔ (left.now ≡ right.now) }
{
    left == right
}

// True if all bytes are zero.
fn are_zero(bytes: &[u8]) -> bool
    ensures { IsTrue result ↔ AllZero bytes.now }
{
    bytes.iter().all(|byte| *byte == 0)
}
