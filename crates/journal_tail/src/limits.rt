// The limits of what is appended.

/// The most distinct blocks that a transaction may write.
pub const MAX_UPDATES: usize = 128;
/// The most blocks of the tail.
pub const MAX_TAIL: u64 = 255;
/// Each position of the log is below this.
pub const MAX_POSITION: u64 = 1 << 62;
