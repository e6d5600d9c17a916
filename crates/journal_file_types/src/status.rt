// The answers of operations that are no success.

/// The answer of an operation that is no success: a case of the file service, which leaves the
/// files as they were. It is an answer like any other, and the operation's transaction is
/// committed.
#[derive(Clone, Copy, Debug, PartialEq, Eq)]
pub enum Status {
    /// There is no file of the name.
    NoEntry,
    /// There is a file of the name already.
    Exists,
    /// The handle is a file's, and a directory's is needed.
    NotDirectory,
    /// An argument has no meaning there.
    Invalid,
    /// No file of the disk's version has this many bytes.
    TooBig,
    /// The blocks that are needed are not free, or the number has had all its generations.
    NoSpace,
    /// The handle's file was removed.
    Stale,
    /// The file's time is not the guard's.
    NotSync,
    /// It is not supported.
    NotSupported,
}

/// The answer of an operation: a success, or the case that is none. Either is committed.
pub type Answer<A> = Result<A, Status>;
