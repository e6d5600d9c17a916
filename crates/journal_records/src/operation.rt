// The operations.
ghost use Rattle.std.specs.Prelude.{◌≡◌};

use journal_xdr::Enumeration;

/// The operation that a request asks for. Its number is the first word of a request, and of an
/// answer that it was done.
#[derive(Clone, Copy, Debug, PartialEq, Eq)]
pub enum Operation {
    /// To agree on a version of the protocol, and to describe the disk.
    Hello,
    /// To commit a transaction.
    Commit,
    /// To read objects at one place of the history.
    Read,
    /// To make all commits stable.
    Flush,
    /// To count the commits, and those that are stable.
    Stat,
    /// To end the service.
    Stop,
    /// To read the service's counters.
    Counters,
    /// To find bits of a block that have a value.
    Scan,
}

impl Enumeration for Operation {
    ghost use Rattle.journal_records.specs.Operations.{operation_of, operation_number, operation_is, operation_back};

    ghost meaning = { operation_of };

    ghost code = { operation_number };

    ghost is_listed = { operation_is };

    ghost has_one_number = { operation_back };

    fn from_number(number: u32) -> Option<Operation> {
        match number {
            0 => Some(Operation::Hello),
            1 => Some(Operation::Commit),
            2 => Some(Operation::Read),
            3 => Some(Operation::Flush),
            4 => Some(Operation::Stat),
            5 => Some(Operation::Stop),
            6 => Some(Operation::Counters),
            7 => Some(Operation::Scan),
            _ => None,
        }
    }

    fn number(self) -> u32 {
        match self {
            Operation::Hello => 0,
            Operation::Commit => 1,
            Operation::Read => 2,
            Operation::Flush => 3,
            Operation::Stat => 4,
            Operation::Stop => 5,
            Operation::Counters => 6,
            Operation::Scan => 7,
        }
    }
}
