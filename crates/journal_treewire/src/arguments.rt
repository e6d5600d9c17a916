// The requests of callers.
use journal_nfs3_wire::{DirectoryEntry, NewAttributes, Operation, Query};

/// The number of a device (RFC 1813, section 2.5, specdata3).
#[derive(Clone, Copy, Debug, PartialEq, Eq)]
pub struct Device {
    pub major: u32,
    pub minor: u32,
}

/// The node that MKNOD is to make, by its type (RFC 1813, section 3.3.11, mknoddata3).
#[derive(Clone, Copy, Debug)]
pub enum NodeData {
    Regular,
    Directory,
    BlockDevice(NewAttributes, Device),
    CharacterDevice(NewAttributes, Device),
    SymbolicLink,
    Socket(NewAttributes),
    Fifo(NewAttributes),
}

/// The arguments of SYMLINK (RFC 1813, section 3.3.10).
#[derive(Clone, Copy, Debug)]
pub struct LinkArguments<'a> {
    pub entry: DirectoryEntry<'a>,
    pub attributes: NewAttributes,
    /// The path that the link is to have.
    pub path: &'a [u8],
}

/// A procedure of directories and links with its arguments (RFC 1813, section 3.3). Handles are as
/// the caller sent them, of at most 64 bytes.
#[derive(Clone, Copy, Debug)]
pub enum DirectoryOperation<'a> {
    ReadLink(&'a [u8]),
    MakeDirectory(DirectoryEntry<'a>, NewAttributes),
    MakeLink(LinkArguments<'a>),
    MakeNode(DirectoryEntry<'a>, NodeData),
    RemoveDirectory(DirectoryEntry<'a>),
    /// The old name, and the new one.
    Rename(DirectoryEntry<'a>, DirectoryEntry<'a>),
    /// The file's handle, and its new name.
    Link(&'a [u8], DirectoryEntry<'a>),
}

/// The request of a call to NFS in its version 3: a procedure, with its arguments.
#[derive(Clone, Copy, Debug)]
pub enum Requested<'a> {
    /// One of the nine that a flat directory has too.
    File(Operation<'a>),
    /// A query.
    Query(Query<'a>),
    /// One of directories and links.
    Directory(DirectoryOperation<'a>),
}
