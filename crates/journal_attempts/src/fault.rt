// Why an attempt is undone.
ghost use Rattle.std.specs.Prelude.{◌≡◌};
ghost use Rattle.journal_attempts.specs.Refusals.{fault_at};

use journal_world::{Addr, Refusal};
use std::alloc::AllocError;

/// How often an attempt is made again after J5.
pub const RETRIES: u32 = 8;

/// Why an attempt at a call is undone. It has no commit, and changed nothing.
#[derive(Debug, Drop)]
pub enum AttemptFault<C> {
    /// Another transaction holds the slot of this address, below one that the attempt holds.
    Held(Addr),
    /// The journal refuses, or there is no memory, or a number on the disk names no object of it,
    /// which is `J2 BadAddress`.
    Refused(Refusal<C>),
}

impl<C> AttemptFault<C> {
    /// The reason of a call that asked for the address.
    pub fn at(addr: Addr, refusal: Refusal<C>) -> AttemptFault<C>
        ensures { result ≡ fault_at addr refusal }
    {
        match refusal {
            Refusal::Busy => AttemptFault::Held(addr),
            refusal => AttemptFault::Refused(refusal),
        }
    }
}

impl<C> From<AllocError> for AttemptFault<C> {
    ghost use Rattle.journal_world.specs.declared.refusal.Refusal.TheVariants.{NoMemory};
    ghost use Rattle.journal_attempts.specs.declared.fault.AttemptFault.TheVariants.{Refused};

    ghost from_gives = { λ _ fault. fault ≡ Refused NoMemory };

    fn from(_error: AllocError) -> AttemptFault<C> {
        AttemptFault::Refused(Refusal::NoMemory)
    }
}
