// The superblock.
ghost use Rattle.std.specs.Prelude.{◌≡◌, ◌↔◌, length, IsTrue};
ghost use Rattle.journal_world.specs.declared.layout.TheConstants.{BLOCK_BYTES};
ghost use Rattle.journal_inode.specs.Sound.{superblock_head, superblock_of};
ghost use Rattle.journal_inode.specs.Admitting.{AllZero};

use crate::FormatVersion;
use crate::node::put;

/// The first bytes of a superblock.
const MAGIC: &[u8; 8] = b"GJNLDSK1";
/// The byte of the version.
const VERSION_AT: usize = 8;
/// The byte of the number of blocks.
const BLOCKS_AT: usize = 16;
/// The number of bytes of a superblock that are not all zero.
pub(crate) const FRONT_BYTES: usize = 24;

// The name of the format, its version and the number of blocks.
pub(crate) fn front(version: FormatVersion, blocks: u64) -> [u8; FRONT_BYTES]
    ensures { result ≡ superblock_head version blocks }
{
    let mut front = [0; FRONT_BYTES];
    put(&mut front, 0, MAGIC);
    put(&mut front, VERSION_AT, &version.number().to_le_bytes());
    put(&mut front, BLOCKS_AT, &blocks.to_le_bytes());
    front
}

// True if these are the bytes of the superblock.
pub(crate) fn is_superblock(bytes: &[u8], version: FormatVersion, blocks: u64) -> bool
    requires { length bytes.now ≡ BLOCK_BYTES }
    ensures { IsTrue result ↔ (bytes.now ≡ superblock_of version blocks) }
{
    let front = front(version, blocks);
    if !are_same(&bytes[..FRONT_BYTES], &front) {
        return false;
    }
    are_zero(&bytes[FRONT_BYTES..])
}

fn are_same(left: &[u8], right: &[u8]) -> bool
    ensures { IsTrue result ↔ (left.now ≡ right.now) }
{
    left == right
}

// True if all bytes are zero.
pub(crate) fn are_zero(bytes: &[u8]) -> bool
    ensures { IsTrue result ↔ AllZero bytes.now }
{
    bytes.iter().all(|byte| *byte == 0)
}
