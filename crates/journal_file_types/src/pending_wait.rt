// The wait that is pending for an operation that is committed.
use crate::Answer;

/// The wait that is pending for a committed operation, before it may be answered.
#[derive(Debug, Drop)]
pub enum PendingWait<P> {
    /// Nothing: the operation does not wait, or its answer is no success.
    Nothing,
    /// The wait until the commit of this receipt is stable.
    Wait(P),
}

/// An operation that is committed: its answer, and the wait before it.
#[derive(Drop)]
pub struct Committed<A, P> {
    /// Its answer.
    pub answer: Answer<A>,
    /// The wait before the answer may be sent.
    pub wait: PendingWait<P>,
}
