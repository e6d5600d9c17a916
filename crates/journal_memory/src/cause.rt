// Why a step is refused, and the history that it had seen.
ghost use Rattle.std.specs.Prelude.{◌≡◌, option_copied, IsErr, IfOk, IfErr};
ghost use Rattle.journal_memory.specs.Causes.{IsUnexplained, IsExplained, raised_of};

use crate::refusal_number::RefusalNumber;
use journal_history::{Front, Naming};
use journal_world::{MapRule, Refusal};
use std::marker::Model;

// Only J9 and J10 hold a history. At J6 and J11 to J13 the number is all, because the refusal's own
// clause says the rest. J14 needs no cause: the session has then seen its fence, which says more.
/// The cause in those refusals that only a step of the core can find. Only a step of the core makes
/// one, for the refusal of one number, and it cannot be copied. So no other call answers such a
/// refusal unless a step gave it, and none answers another refusal with it. Contracts see the
/// number, and the history that it has, if any.
#[derive(Drop)]
pub struct Cause<'b, J: Naming, R: MapRule> {
    // The refusal that it was made for. Contracts alone ask for it.
    number: RefusalNumber,
    // At J9 the history that is longer than the core's. At J10 the one that has the strange entry.
    front: Option<Front<'b, J, R>>,
}

impl<'b, J: Naming, R: MapRule> Model for Cause<'b, J, R> {
    ghost use Rattle.journal_memory.specs.Causes.{CauseState};

    ghost Value = { CauseState };

    ghost view = { λ cause. record { number = cause.number; story = cause.front } };
}

impl<'b, J: Naming, R: MapRule> Cause<'b, J, R> {
    // The cause of the refusal of this number, which no history explains.
    pub(crate) fn none(number: RefusalNumber) -> Cause<'b, J, R>
        ensures { IsUnexplained number result }
    {
        Cause {
            number,
            front: None,
        }
    }

    // The cause of the refusal of this number, which the history explains that was seen.
    pub(crate) fn of(number: RefusalNumber, front: Front<'b, J, R>) -> Cause<'b, J, R>
        ensures { IsExplained number front.entry result }
    {
        Cause {
            number,
            front: Some(front),
        }
    }

    /// The history that explains the refusal, if one does: at J9 and J10.
    pub fn front(&self) -> Option<&Front<'b, J, R>>
        ensures { option_copied result ≡ self.now.story }
    {
        self.front.as_ref()
    }
}

/// The refusal of a lower layer, as the core's.
pub(crate) fn raised<'b, J: Naming, R: MapRule>(refusal: Refusal<()>) -> Refusal<Cause<'b, J, R>>
    ensures { result ≡ raised_of refusal }
{
    match refusal {
        Refusal::NoMemory => Refusal::NoMemory,
        Refusal::BadAddress => Refusal::BadAddress,
        Refusal::BadSize => Refusal::BadSize,
        Refusal::TooLarge => Refusal::TooLarge,
        Refusal::Busy => Refusal::Busy,
        Refusal::DeviceFailed(()) => Refusal::DeviceFailed(Cause::none(RefusalNumber::J6)),
        Refusal::BadLog => Refusal::BadLog,
        Refusal::BadSuper => Refusal::BadSuper,
        Refusal::Stale(()) => Refusal::Stale(Cause::none(RefusalNumber::J9)),
        Refusal::Stranger(()) => Refusal::Stranger(Cause::none(RefusalNumber::J10)),
        Refusal::Worn(()) => Refusal::Worn(Cause::none(RefusalNumber::J11)),
        Refusal::Full(()) => Refusal::Full(Cause::none(RefusalNumber::J12)),
        Refusal::Closed(()) => Refusal::Closed(Cause::none(RefusalNumber::J13)),
        Refusal::Fenced => Refusal::Fenced,
    }
}

/// The answer of a lower layer, as the core's.
pub(crate) fn raise<'b, T, J: Naming, R: MapRule>(
    answer: Result<T, Refusal<()>>,
) -> Result<T, Refusal<Cause<'b, J, R>>>
    ensures ok { IfOk answer (λ value. result ≡ Ok value) }
    ensures err { IfErr answer (λ refusal. result ≡ Err (raised_of refusal)) }
    ensures only_ok { IfOk result (λ value. answer ≡ Ok value) }
    ensures only_err { IsErr result → IsErr answer }
{
    match answer {
        Ok(value) => Ok(value),
        Err(refusal) => Err(raised(refusal)),
    }
}
