// The versions of the format.
ghost use Rattle.std.specs.Prelude.{◌≡◌};
ghost use Rattle.journal_inode.specs.Versions.{number_of, most_bytes, extra_count};
ghost use Rattle.journal_inode.specs.declared.version.FormatVersion.{FormatVersion};

use journal_world::BLOCK_BYTES;

// Its functions have all that differs between the versions. The definitions are by cases, and at
// version 1 they compute to those without versions, so each clause of version 1 is an instance. A
// type as well (`Version`), because the rule of a mount is a type.
/// A version of the format.
#[derive(Clone, Copy, Debug, PartialEq, Eq)]
pub enum FormatVersion {
    /// A file has one block.
    One,
    /// A file has up to twelve blocks.
    Two,
}

impl FormatVersion {
    /// The number that the superblock has.
    pub fn number(self) -> u64
        ensures { result ≡ number_of self }
    {
        match self {
            FormatVersion::One => 1,
            FormatVersion::Two => 2,
        }
    }

    /// The most bytes that a file has.
    pub fn most_bytes(self) -> u64
        ensures { result ≡ most_bytes self }
    {
        match self {
            FormatVersion::One => 4096,
            FormatVersion::Two => 49152,
        }
    }

    /// The number of blocks of a file of `size` bytes beside its first.
    pub fn extra_count(self, size: u64) -> usize
        ensures { result ≡ extra_count self size }
    {
        match self {
            FormatVersion::One => 0,
            FormatVersion::Two => (size.saturating_sub(1) / BLOCK_BYTES as u64) as usize,
        }
    }
}

/// A version as a type, so that the rule of a mount may have it.
pub trait Version {
    /// The version.
    const VERSION: FormatVersion;

    ghost VERSION: { FormatVersion };
}

/// Version 1 as a type.
#[derive(Clone, Copy, Debug, PartialEq, Eq)]
pub struct VersionOne;

impl Version for VersionOne {
    ghost use Rattle.journal_inode.specs.declared.version.FormatVersion.TheVariants.{One};

    const VERSION: FormatVersion = FormatVersion::One;

    ghost VERSION = { One };
}

/// Version 2 as a type.
#[derive(Clone, Copy, Debug, PartialEq, Eq)]
pub struct VersionTwo;

impl Version for VersionTwo {
    ghost use Rattle.journal_inode.specs.declared.version.FormatVersion.TheVariants.{Two};

    const VERSION: FormatVersion = FormatVersion::Two;

    ghost VERSION = { Two };
}
