// The arguments of procedures.
ghost use Rattle.std.specs.Prelude.{◌≡◌};
ghost use Rattle.journal_nfs3_wire.specs.Profile.{stability_told};

use journal_file_types::NewTime;
use journal_inode::Time;
use journal_xdr::Enumeration;

/// The attributes that are to be set (RFC 1813, section 2.5, sattr3). `None` leaves one as it is.
#[derive(Clone, Copy, Debug)]
pub struct NewAttributes {
    pub mode: Option<u32>,
    pub uid: Option<u32>,
    pub gid: Option<u32>,
    pub size: Option<u64>,
    pub atime: NewTime,
    pub mtime: NewTime,
}

/// A directory's handle and a name in it (RFC 1813, section 2.5, diropargs3).
#[derive(Clone, Copy, Debug)]
pub struct DirectoryEntry<'a> {
    pub directory: &'a [u8],
    pub name: &'a [u8],
}

/// How stable a write has to be before its reply (RFC 1813, section 3.3.7, stable_how).
#[derive(Clone, Copy, Debug, PartialEq, Eq)]
pub enum StableHow {
    Unstable,
    DataSync,
    FileSync,
}

impl StableHow {
    /// How stable a write is, once it is answered: one that waits is stable with all its
    /// attributes.
    pub fn committed(self) -> StableHow
        ensures { result ≡ stability_told self }
    {
        match self {
            StableHow::Unstable => StableHow::Unstable,
            StableHow::DataSync | StableHow::FileSync => StableHow::FileSync,
        }
    }
}

impl Enumeration for StableHow {
    ghost use Rattle.journal_nfs3_wire.specs.Arguments.{stable_how_of, stable_how_number, stable_how_is, stable_how_back};

    ghost meaning = { stable_how_of };

    ghost code = { stable_how_number };

    ghost is_listed = { stable_how_is };

    ghost has_one_number = { stable_how_back };

    fn from_number(number: u32) -> Option<StableHow> {
        match number {
            0 => Some(StableHow::Unstable),
            1 => Some(StableHow::DataSync),
            2 => Some(StableHow::FileSync),
            _ => None,
        }
    }

    fn number(self) -> u32 {
        match self {
            StableHow::Unstable => 0,
            StableHow::DataSync => 1,
            StableHow::FileSync => 2,
        }
    }
}

/// How a file is to be made (RFC 1813, section 3.3.8, createhow3).
#[derive(Clone, Copy, Debug)]
pub enum CreateHow<'a> {
    Unchecked(NewAttributes),
    Guarded(NewAttributes),
    // With a verifier of 8 bytes.
    Exclusive(&'a [u8]),
}

/// The arguments of SETATTR (RFC 1813, section 3.3.2).
#[derive(Clone, Copy, Debug)]
pub struct SetArguments<'a> {
    pub handle: &'a [u8],
    pub attributes: NewAttributes,
    // The time of the last change that the caller knows.
    pub guard: Option<Time>,
}

/// A part of a file: the arguments of READ and COMMIT (RFC 1813, sections 3.3.6 and 3.3.21).
#[derive(Clone, Copy, Debug)]
pub struct FileRange<'a> {
    pub handle: &'a [u8],
    pub offset: u64,
    pub count: u32,
}

/// The arguments of WRITE (RFC 1813, section 3.3.7).
#[derive(Clone, Copy, Debug)]
pub struct WriteArguments<'a> {
    pub handle: &'a [u8],
    pub offset: u64,
    pub count: u32,
    pub how: StableHow,
    pub bytes: &'a [u8],
}

/// The arguments of CREATE (RFC 1813, section 3.3.8).
#[derive(Clone, Copy, Debug)]
pub struct CreateArguments<'a> {
    pub entry: DirectoryEntry<'a>,
    pub how: CreateHow<'a>,
}

/// A procedure with its arguments (RFC 1813, section 3.3). Handles are as the caller sent them, of
/// at most 64 bytes.
#[derive(Clone, Copy, Debug)]
pub enum Operation<'a> {
    Null,
    GetAttributes(&'a [u8]),
    SetAttributes(SetArguments<'a>),
    Lookup(DirectoryEntry<'a>),
    Read(FileRange<'a>),
    Write(WriteArguments<'a>),
    Create(CreateArguments<'a>),
    Remove(DirectoryEntry<'a>),
    Commit(FileRange<'a>),
}
