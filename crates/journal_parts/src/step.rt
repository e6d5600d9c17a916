// The outcome of a step of the logger.

// Each layer's step says what it did, so threads are woken by the step that was made, and no layer
// compares the state before and after.
/// The outcome of a step of the logger.
#[derive(Clone, Copy, Debug, PartialEq, Eq)]
pub enum LogStep {
    /// There was nothing to do.
    Idle,
    /// The log's tail was cut into a group.
    Cut,
    /// A step of the group in flight was made, and its cycle goes on.
    Put,
    /// The cycle of the group in flight ended: it is logged.
    Logged,
    /// The first n commits were marked as stable.
    Marked(u64),
}
