// The addresses of the files' objects.
ghost use Rattle.std.specs.Prelude.{◌≡◌, ◌<◌, ◌≤◌, ◌+◌, ◌-◌};
ghost use Rattle.journal_inode.specs.Places.{addr_of};
ghost use Rattle.journal_inode.specs.Places.Object.{bit, inode, block};

use journal_world::{Addr, BITMAP, BLOCK_BITS, FIRST_DATA, FIRST_INODES};

/// The number of inodes.
pub const INODES: u32 = 512;

/// The address of inode `i`.
pub fn inode_addr(i: u32) -> Addr
    requires { i < INODES }
    ensures { result ≡ addr_of (inode i) }
{
    Addr {
        block: FIRST_INODES + u64::from(i / 32),
        off: i % 32 * 1024,
    }
}

/// The address of a data block's bit.
pub fn bit_addr(number: u64) -> Addr
    requires from { FIRST_DATA ≤ number }
    requires to { number < FIRST_DATA + BLOCK_BITS }
    ensures { result ≡ addr_of (bit (number - FIRST_DATA)) }
{
    Addr {
        block: BITMAP,
        off: (number - FIRST_DATA) as u32,
    }
}

/// The address of a data block.
pub fn block_addr(number: u64) -> Addr
    ensures { result ≡ addr_of (block number) }
{
    Addr {
        block: number,
        off: 0,
    }
}
