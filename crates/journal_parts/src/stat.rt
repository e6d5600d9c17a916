// The numbers of a mounted journal.

/// The numbers of a mount.
#[derive(Clone, Copy, Debug, PartialEq, Eq)]
pub struct Stat {
    /// The number of commits of the history.
    pub commits: u64,
    /// The number of commits that are marked as stable.
    pub floor: u64,
    /// The start of the log on the disk, as last synced: a position.
    pub start: u64,
    /// The end of the log there.
    pub end: u64,
}
