// The positions of a log, as callers are given them.

/// The positions at which the parts of a log begin, each at most the next one.
#[derive(Clone, Copy, Debug, PartialEq, Eq)]
pub struct Bounds {
    /// The first position that the log holds.
    pub start: u64,
    /// The first position that the disk's log may lack.
    pub logged: u64,
    /// The first position of the tail.
    pub cut: u64,
    /// The position that the next fresh block gets.
    pub next: u64,
}

/// The positions of a group: from `first` on, those before `end`.
#[derive(Clone, Copy, Debug, PartialEq, Eq)]
pub struct Group {
    /// The first position.
    pub first: u64,
    /// The position after the last.
    pub end: u64,
}
