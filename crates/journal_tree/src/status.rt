// How a call is answered that is refused.

/// How a call is answered that is refused: the statuses of RFC 1813 that a tree gives. A refusal
/// leaves the tree as it was.
#[derive(Clone, Copy, Debug, PartialEq, Eq)]
pub enum Status {
    /// NFS3ERR_PERM: the caller is not the owner, or not root.
    NotOwner,
    /// NFS3ERR_NOENT: the directory has no node of the name.
    NoEntry,
    /// NFS3ERR_ACCES: the mode does not let the caller do it.
    NoAccess,
    /// NFS3ERR_EXIST: the directory has a node of the name already.
    Exists,
    /// NFS3ERR_NOTDIR: a directory is needed.
    NotDirectory,
    /// NFS3ERR_ISDIR: a node that is no directory is needed.
    IsDirectory,
    /// NFS3ERR_INVAL: an argument has no meaning there.
    Invalid,
    /// NFS3ERR_FBIG: no file has so many bytes.
    TooBig,
    /// NFS3ERR_NOSPC: no block, no number or no entry is free.
    NoSpace,
    /// NFS3ERR_NAMETOOLONG: the name has more than `MOST_NAME` bytes.
    NameTooLong,
    /// NFS3ERR_NOTEMPTY: the directory has entries.
    NotEmpty,
    /// NFS3ERR_STALE: the handle's node was removed.
    Stale,
    /// NFS3ERR_NOT_SYNC: the node's ctime is not the one that the guard has.
    NotSync,
    /// NFS3ERR_NOTSUPP: this tree does not have the call.
    NotSupported,
    /// NFS3ERR_TOOSMALL: the reply has no room for one line of the listing.
    TooSmall,
}
