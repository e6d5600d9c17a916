// The disk and its opening, as a client is given them.
ghost use Rattle.std.specs.Prelude.{◌≡◌};

use journal_xdr::Enumeration;

/// A version of the protocol.
#[derive(Clone, Copy, Debug, PartialEq, Eq)]
pub enum Version {
    /// 1: a client gets the number of blocks.
    One,
    /// 2: a client gets the opening.
    Two,
}

impl Enumeration for Version {
    ghost use Rattle.journal_records.specs.Operations.{version_of, version_number, version_is, version_back};

    ghost meaning = { version_of };

    ghost code = { version_number };

    ghost is_listed = { version_is };

    ghost has_one_number = { version_back };

    fn from_number(number: u32) -> Option<Version> {
        match number {
            1 => Some(Version::One),
            2 => Some(Version::Two),
            _ => None,
        }
    }

    fn number(self) -> u32 {
        match self {
            Version::One => 1,
            Version::Two => 2,
        }
    }
}

/// Blocks whose objects have one kind: from the first one to the block before the next region.
#[derive(Clone, Copy, Debug, PartialEq, Eq)]
pub struct ObjectRegion {
    /// The first block.
    pub first: u64,
    /// How many bits of its block an object has.
    pub bits: u32,
}

/// The opening, as a client of version 2 gets it: the disk, and which opening of it this is.
#[derive(Debug, Drop)]
pub struct Opening {
    /// The number of blocks of the disk.
    pub blocks: u64,
    /// The number of the opening.
    pub number: u64,
    /// The number of slots.
    pub slots: u32,
    /// The most distinct blocks that a transaction may write.
    pub most_blocks: u32,
    /// The regions, by ascending first blocks.
    pub regions: Vec<ObjectRegion>,
}
