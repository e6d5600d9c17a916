// The limits of a history.

/// The history's length and the sessions' numbers are below this.
pub(crate) const MAX_HISTORY_LENGTH: u64 = 1 << 62;
