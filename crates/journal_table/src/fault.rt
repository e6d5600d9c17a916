// Why the table is not used.

use journal_twophase::WaitFault;
use journal_world::Refusal;
use std::alloc::{AllocError, AllocFailed};
use std::fmt;

/// Why the table is not used. A server decides by the journal's refusal how to go on. This program
/// ends.
#[derive(Clone, Copy, Debug, PartialEq, Eq)]
pub enum Fault {
    /// Memory was refused, or the journal refused.
    Refused,
    /// The disk has room for no place, or its head is another table's.
    OtherTable,
    /// No place is free.
    Full,
    /// A row is not where it was.
    NotThere,
    /// The free list has a row at a place, and its record is none.
    Torn,
}

impl fmt::Display for Fault {
    fn fmt<W: fmt::Write>(&self, f: &mut fmt::Formatter<W>) -> fmt::Result {
        f.write_str(match self {
            Fault::Refused => "the journal refused",
            Fault::OtherTable => "the disk has another table",
            Fault::Full => "no place is free",
            Fault::NotThere => "a row is not where it was",
            Fault::Torn => "a row is torn",
        })
    }
}

impl<C: Drop> From<Refusal<C>> for Fault {
    fn from(_why: Refusal<C>) -> Fault {
        Fault::Refused
    }
}

impl<P: Drop, C: Drop> From<WaitFault<P, C>> for Fault {
    fn from(_why: WaitFault<P, C>) -> Fault {
        Fault::Refused
    }
}

impl From<AllocError> for Fault {
    fn from(_why: AllocError) -> Fault {
        Fault::Refused
    }
}

impl<T: Drop> From<AllocFailed<T>> for Fault {
    fn from(_why: AllocFailed<T>) -> Fault {
        Fault::Refused
    }
}
