// Why a call on a disk with a tree is given up.
use std::alloc::{AllocError, AllocFailed};

/// Why a call on a disk with a tree is given up.
#[derive(Clone, Copy, Debug, PartialEq, Eq)]
pub enum TreeFault {
    /// A number names no object of the disk. A sound disk names none such.
    NoObject,
    /// Memory is refused.
    NoMemory,
    /// The transaction refuses. `TreeTransaction::give_up` returns its reason.
    Transaction,
}

impl From<AllocError> for TreeFault {
    ghost use Rattle.std.specs.Prelude.{◌≡◌};
    ghost use Rattle.journal_treeobjects.specs.declared.fault.TreeFault.TheVariants.{NoMemory};

    ghost from_gives = { λ _ fault. fault ≡ NoMemory };

    fn from(_error: AllocError) -> TreeFault {
        TreeFault::NoMemory
    }
}

impl<T: Drop> From<AllocFailed<T>> for TreeFault {
    ghost use Rattle.std.specs.Prelude.{◌≡◌};
    ghost use Rattle.journal_treeobjects.specs.declared.fault.TreeFault.TheVariants.{NoMemory};

    ghost from_gives = { λ _ fault. fault ≡ NoMemory };

    fn from(_error: AllocFailed<T>) -> TreeFault {
        TreeFault::NoMemory
    }
}
