// The settings of a file.
use journal_inode::Time;

/// The new time of a file.
#[derive(Clone, Copy, Debug, PartialEq, Eq)]
pub enum NewTime {
    /// It is not asked for: the time stays, or is the moment of the call if a size is given.
    Leave,
    /// The moment of the call.
    Server,
    /// This time. If its nanoseconds are a full second or more, the operation is refused.
    Client(Time),
}

/// The settings of a file.
#[derive(Clone, Copy, Debug, PartialEq, Eq)]
pub struct Settings {
    /// Its size in bytes. Bytes past it become zero.
    pub size: Option<u64>,
    /// Its time.
    pub mtime: NewTime,
}

/// How a file is created.
#[derive(Clone, Copy, Debug, PartialEq, Eq)]
pub enum CreateMode {
    /// If the file is there, it is set.
    Unchecked(Settings),
    /// If the file is there, the call is refused.
    Guarded(Settings),
    /// By a verifier. It is not supported.
    Exclusive,
}

/// The stability that a write waits for.
#[derive(Clone, Copy, Debug, PartialEq, Eq)]
pub enum Stability {
    /// It does not: a crash may take it back, until a COMMIT is answered.
    Unstable,
    /// It waits until data and attributes are stable.
    Stable,
}
