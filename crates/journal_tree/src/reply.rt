// What replies tell.
use crate::time::Time;

/// The attributes of a node.
#[derive(Clone, Copy, Debug, PartialEq, Eq)]
pub struct Attributes {
    /// Its mode: set-user-ID, set-group-ID, sticky, and the nine bits of the rights.
    pub mode: u16,
    /// The user who owns it.
    pub owner: u32,
    /// Its group.
    pub group: u32,
    /// When its bytes or entries last changed, or what a client has set in place of that.
    pub mtime: Time,
    /// When anything of it last changed. It grows with each change.
    pub ctime: Time,
    /// The verifier of the exclusive CREATE that made it, as long as nothing of it was changed
    /// since. No reply has it.
    pub verifier: Option<u64>,
}

/// The kinds of node.
#[derive(Clone, Copy, Debug, PartialEq, Eq)]
pub enum Kind {
    Directory,
    File,
    /// A symbolic link.
    Link,
}

/// What a handle names: a number, and which of its nodes.
#[derive(Clone, Copy, Debug, PartialEq, Eq)]
pub struct Handle {
    pub number: u32,
    pub generation: u32,
}

/// A node in a reply.
#[derive(Clone, Copy, Debug, PartialEq, Eq)]
pub struct Told {
    pub number: u32,
    pub kind: Kind,
    /// Its size in bytes: of a directory, that of its blocks; of a link, that of its text.
    pub size: u64,
    pub attributes: Attributes,
}

/// A node before and after a call.
#[derive(Clone, Copy, Debug, PartialEq, Eq)]
pub struct Changed {
    pub before: Told,
    pub after: Told,
}

/// A node that was found, and the directory in which it was looked for.
#[derive(Clone, Copy, Debug, PartialEq, Eq)]
pub struct Found {
    /// The node's generation, which its handle has beside its number.
    pub generation: u32,
    pub node: Told,
    pub directory: Told,
}

/// A node that was made, or was there already, and its directory.
#[derive(Clone, Copy, Debug, PartialEq, Eq)]
pub struct Made {
    /// The node's generation, which its handle has beside its number.
    pub generation: u32,
    pub node: Told,
    pub directory: Changed,
}

/// The two directories of a RENAME: the one from which the node goes, and the one to which it goes.
/// Within one directory both are the same.
#[derive(Clone, Copy, Debug, PartialEq, Eq)]
pub struct Renamed {
    pub source: Changed,
    pub goal: Changed,
}

/// What a new node is given: its number, and the place of its entry in the directory.
#[derive(Clone, Copy, Debug, PartialEq, Eq)]
pub struct Room {
    pub number: u32,
    pub place: u64,
}

/// How many blocks and numbers a disk has free.
#[derive(Clone, Copy, Debug, PartialEq, Eq)]
pub struct Free {
    pub blocks: u64,
    pub numbers: u64,
}

/// What FSSTAT tells.
#[derive(Clone, Copy, Debug, PartialEq, Eq)]
pub struct Space {
    pub node: Told,
    /// The bytes of all blocks for files and directories.
    pub total_bytes: u64,
    pub free_bytes: u64,
    /// How many nodes there may be.
    pub total_nodes: u64,
    pub free_nodes: u64,
}
