// What a call asks to be set.
use crate::time::Time;

/// What becomes of a node's mtime.
#[derive(Clone, Copy, Debug, PartialEq, Eq)]
pub enum NewTime {
    /// It is not asked for: it stays, or is the time of the call where a size is given.
    Leave,
    /// The time of the call.
    Server,
    /// This time. Where its nanoseconds are a full second or more, the call is refused.
    Client(Time),
}

/// What is asked of a node's attributes. The time of the last access is not among them: a tree has
/// none, and replies give mtime in its place.
#[derive(Clone, Copy, Debug, PartialEq, Eq)]
pub struct Settings {
    /// Its mode, modulo `MODES`.
    pub mode: Option<u32>,
    /// Its owner.
    pub owner: Option<u32>,
    /// Its group.
    pub group: Option<u32>,
    /// The size of a file, in bytes. Bytes past it go, and where it grows zeros come.
    pub size: Option<u64>,
    /// Its mtime.
    pub mtime: NewTime,
}

/// What CREATE does where the name is there.
#[derive(Clone, Copy, Debug, PartialEq, Eq)]
pub enum CreateMode {
    /// A file is taken as it is, but for its size.
    Unchecked(Settings),
    /// The call is refused.
    Guarded(Settings),
    /// A file is taken as it is if an exclusive CREATE of this verifier made it and nothing of it
    /// was changed since. Else the call is refused.
    Exclusive(u64),
}
