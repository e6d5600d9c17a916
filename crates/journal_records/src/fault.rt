// Why a record is not read or written.
use std::alloc::{AllocError, AllocFailed};
use thiserror::Error;

/// Why a record's bytes are not read.
#[derive(Clone, Copy, Debug, PartialEq, Eq, Error)]
pub enum ReadFault {
    /// A growth was refused.
    #[error("no memory")]
    NoMemory,
    /// The first word is the number of no operation.
    #[error("no operation has this number")]
    UnknownOperation,
    /// The bytes spell nothing: there are too few or too many, a number is not listed, or one is
    /// above a limit.
    #[error("the record is malformed")]
    Malformed,
}

impl From<AllocError> for ReadFault {
    ghost use Rattle.std.specs.Prelude.{◌≡◌};
    ghost use Rattle.journal_records.specs.declared.fault.ReadFault.TheVariants.{NoMemory};

    ghost from_gives = { λ _ why. why ≡ NoMemory };

    fn from(_error: AllocError) -> ReadFault {
        ReadFault::NoMemory
    }
}

impl<T: Drop> From<AllocFailed<T>> for ReadFault {
    ghost use Rattle.std.specs.Prelude.{◌≡◌};
    ghost use Rattle.journal_records.specs.declared.fault.ReadFault.TheVariants.{NoMemory};

    ghost from_gives = { λ _ why. why ≡ NoMemory };

    fn from(_error: AllocFailed<T>) -> ReadFault {
        ReadFault::NoMemory
    }
}

/// Why a record is not written.
#[derive(Clone, Copy, Debug, PartialEq, Eq, Error)]
pub enum WriteFault {
    /// A growth was refused.
    #[error("no memory")]
    NoMemory,
    /// No record can hold it: it has too many parts, addresses or values, a value is too long, or
    /// all together are.
    #[error("no record can hold it")]
    TooLong,
}

impl From<AllocError> for WriteFault {
    ghost use Rattle.std.specs.Prelude.{◌≡◌};
    ghost use Rattle.journal_records.specs.declared.fault.WriteFault.TheVariants.{NoMemory};

    ghost from_gives = { λ _ why. why ≡ NoMemory };

    fn from(_error: AllocError) -> WriteFault {
        WriteFault::NoMemory
    }
}
