// The answers.
use crate::greeting::Opening;
use crate::refused::Refused;
use journal_world::Value;

// The status of an answer that it was done.
pub(crate) const DONE: u32 = 0;

// The status of a commit that is in the history, and is not known to be stable.
pub(crate) const UNSURE: u32 = 65;

/// A counter of the service.
#[derive(Clone, Copy, Debug, PartialEq, Eq)]
pub struct Counter {
    /// The number of the counter's row in the protocol.
    pub name: u32,
    /// Its value.
    pub value: u64,
}

/// The answer to a client.
#[derive(Debug, Drop)]
pub enum Answer {
    /// Version 1 is spoken, and the disk has this many blocks.
    Hello {
        /// The blocks.
        blocks: u64,
    },
    /// Version 2 is spoken, and this is the opening.
    Opening(Opening),
    /// The transaction was committed. If it had to wait it is stable.
    Committed {
        /// Its place in the history, from 0.
        place: u64,
        /// The number of commits up to it.
        commits: u64,
    },
    /// The values of the addresses, in the order in which they were asked for.
    Values(Vec<Value>),
    /// This many commits are stable.
    Flushed(u64),
    /// The counts of the history.
    Stat {
        /// The number of commits.
        commits: u64,
        /// The number of stable commits.
        stable: u64,
    },
    /// The service ends.
    Stopping,
    /// The counters of the service.
    Counters(Vec<Counter>),
    /// The bits of a block that were found, by their numbers in it.
    Bits(Vec<u32>),
    /// The transaction was committed and had to wait, and is not known to be stable.
    Unsure {
        /// Its place in the history, from 0.
        place: u64,
        /// The number of commits up to it.
        commits: u64,
    },
    /// Nothing was done.
    Refused(Refused),
}
