// The answers of operations.
use journal_inode::Time;

/// The attributes in which the root and the files differ.
#[derive(Clone, Copy, Debug, PartialEq, Eq)]
pub struct Attributes {
    /// The inode's number. The root's is 1.
    pub number: u32,
    /// The number of bytes of the file. The root has 0.
    pub size: u64,
    /// The time of the file's last change, or of the root's making.
    pub mtime: Time,
}

/// A file's attributes before and after a change.
#[derive(Clone, Copy, Debug, PartialEq, Eq)]
pub struct Changed {
    pub before: Attributes,
    pub after: Attributes,
}

/// A file that was found or made, and the root.
#[derive(Clone, Copy, Debug, PartialEq, Eq)]
pub struct Found {
    /// The file's generation, which its handle has beside its number.
    pub generation: u32,
    pub file: Attributes,
    pub root: Attributes,
}
