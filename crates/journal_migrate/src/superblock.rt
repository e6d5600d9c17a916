// The version of a superblock.
ghost use Rattle.std.specs.Prelude.{◌≡◌, ◌<◌, ◌↔◌, length, IsTrue, IfOk};
ghost use Rattle.journal_migrate.specs.Superblocks.{version_byte, in_version_two};

use journal_inode::FormatVersion;
use journal_world::{Addr, SUPERBLOCK};
use std::alloc::{AllocError, Global};

/// Where the superblock lies.
pub(crate) const SUPERBLOCK_ADDR: Addr = Addr {
    block: SUPERBLOCK,
    off: 0,
};

// Where a superblock has the lowest byte of its version.
const VERSION_AT: usize = 8;

/// True if a superblock is of version 1.
pub(crate) fn is_of_version_one(superblock: &[u8]) -> bool
    requires { VERSION_AT < length superblock.now }
    ensures { IsTrue result ↔ (version_byte superblock.now ≡ 1) }
{
    u64::from(superblock[VERSION_AT]) == FormatVersion::One.number()
}

/// A superblock of version 1, as one of version 2.
pub(crate) fn upgraded(alloc: Global, superblock: &[u8]) -> Result<Vec<u8>, AllocError>
    requires { VERSION_AT < length superblock.now }
    ensures { IfOk result (λ bytes. bytes.items ≡ in_version_two superblock.now) }
{
    let mut bytes = superblock.to_vec(alloc)?;
    bytes[VERSION_AT] = FormatVersion::Two.number() as u8;
    Ok(bytes)
}
