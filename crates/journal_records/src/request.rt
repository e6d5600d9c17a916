// The requests.
ghost use Rattle.std.specs.Prelude.{◌≡◌};

use journal_world::{Addr, Value};
use journal_xdr::Enumeration;

/// The action of a part of a transaction at its address.
#[derive(Clone, Copy, Debug, PartialEq, Eq)]
pub enum Action {
    /// The map has to give the address the part's value.
    Compare,
    /// The address gets the part's value.
    Write,
}

impl Enumeration for Action {
    ghost use Rattle.journal_records.specs.Operations.{action_of, action_number, action_is, action_back};

    ghost meaning = { action_of };

    ghost code = { action_number };

    ghost is_listed = { action_is };

    ghost has_one_number = { action_back };

    fn from_number(number: u32) -> Option<Action> {
        match number {
            0 => Some(Action::Compare),
            1 => Some(Action::Write),
            _ => None,
        }
    }

    fn number(self) -> u32 {
        match self {
            Action::Compare => 0,
            Action::Write => 1,
        }
    }
}

/// A part of a transaction.
#[derive(Debug, Drop)]
pub struct Part {
    /// Its action.
    pub action: Action,
    /// The address.
    pub addr: Addr,
    /// The value.
    pub value: Value,
}

/// The request of a client.
#[derive(Debug, Drop)]
pub enum Request {
    /// To describe the disk, in the version of the protocol that it names.
    Hello(u32),
    /// To commit the parts as one transaction.
    Commit {
        /// Its compares and writes.
        parts: Vec<Part>,
        /// True if it is answered once it is stable.
        waits: bool,
    },
    /// To read these addresses.
    Read(Vec<Addr>),
    /// To make all commits stable that were made before.
    Flush,
    /// To count the commits.
    Stat,
    /// To end the service.
    Stop,
    /// To give the service's counters.
    Counters,
    /// To find bits of a block that have a value.
    Scan {
        /// The block.
        block: u64,
        /// The first bit that is looked at.
        first: u32,
        /// The value.
        value: bool,
        /// The most bits that are wanted.
        most: u32,
    },
}
