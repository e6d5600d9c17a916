// The record of the inode that has a block.
ghost use Rattle.std.specs.Prelude.{◌≡◌, ◌<◌, ◌^◌, length};
ghost use Rattle.journal_treestore.specs.Owners.{owner_bytes, owner_from};

use crate::bytes::{put, word};

/// The bytes of an owner's record.
pub const OWNER_BYTES: usize = 8;

/// The inode that has a block, and which of its blocks this is. Each block of a disk has such a
/// record. It counts only where the inode has the block at that place, so that a block is freed
/// without a write to its record.
#[derive(Clone, Copy, Debug, PartialEq, Eq)]
pub struct Owner {
    /// The inode's number. 0 is none: the block was never taken.
    pub number: u32,
    /// Which of the inode's blocks it is.
    pub place: u32,
}

impl Owner {
    /// The record of a block that was never taken.
    pub const NONE: Owner = Owner {
        number: 0,
        place: 0,
    };

    /// The record that these bytes are.
    pub fn read(bytes: &[u8]) -> Owner
        requires { length bytes.now ≡ OWNER_BYTES }
        ensures read { result ≡ owner_from bytes.now }

        // It is read back as it was written.
        ensures read_back { (owner : Owner) → owner.number < 2 ^ 32 → owner.place < 2 ^ 32
            → bytes.now ≡ owner_bytes owner → result ≡ owner }
    {
        Owner {
            number: word(bytes, 0),
            place: word(bytes, 4),
        }
    }

    /// The bytes of the record.
    pub fn bytes(&self) -> [u8; OWNER_BYTES]
        ensures written { result ≡ owner_bytes self.now }
        ensures shown { owner_from result ≡ self.now }
    {
        record_bytes(*self)
    }
}

// The bytes of a record.
fn record_bytes(owner: Owner) -> [u8; OWNER_BYTES]
    ensures written { result ≡ owner_bytes owner }
    ensures shown { owner_from result ≡ owner }
{
    let mut bytes = [0; OWNER_BYTES];
    put(&mut bytes, 0, &owner.number.to_le_bytes());
    put(&mut bytes, 4, &owner.place.to_le_bytes());
    bytes
}
