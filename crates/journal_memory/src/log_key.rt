// The calls of memory, and the refusals, that only the part with the log may make.
ghost use Rattle.std.specs.Prelude.{◌≡◌, IsErr, IfOk, IfErr};
ghost use Rattle.journal_memory.specs.Causes.{IsExplained, raised_of};

use crate::cause::{Cause, raise, raised};
use crate::refusal_number::RefusalNumber;
use journal_history::{Front, Naming};
use journal_lockmap::SlotCounts;
use journal_world::{MapRule, Refusal};
use std::marker::{Model, PhantomData};

/// The key to the calls that move commits from memory to the log: a cut, a mark, a trim, and the
/// note of a fault. It also makes the causes of the log's refusals. It cannot be copied. The part
/// with the log keeps it private, so only its holds do these, and no crate above makes a cause.
#[derive(Drop)]
pub struct LogKey<J: Naming> {
    journal: PhantomData<J>,
}

impl<J: Naming> Model for LogKey<J> {
    ghost Value = { Unit {0} };

    ghost view = { λ key. tt };
}

impl<J: Naming> LogKey<J> {
    /// The key of a mount that is being opened. Only the opening has the counts of its slots: they
    /// are made once, and the ledger takes them then.
    pub fn of(_counts: &SlotCounts<J>) -> LogKey<J> {
        LogKey {
            journal: PhantomData,
        }
    }

    /// A cause of the refusal of this number, which the history explains that was seen.
    pub fn cause<'b, R: MapRule>(
        &self,
        number: RefusalNumber,
        front: Front<'b, J, R>,
    ) -> Cause<'b, J, R>
        ensures { IsExplained number front.entry result }
    {
        Cause::of(number, front)
    }

    /// The refusal of a lower layer, as the journal's.
    pub fn raised<'b, R: MapRule>(&self, refusal: Refusal<()>) -> Refusal<Cause<'b, J, R>>
        ensures { result ≡ raised_of refusal }
    {
        raised(refusal)
    }

    /// The answer of a lower layer, as the journal's.
    ///
    /// # Errors
    /// - The refusal that the layer answered. A cause in it has its number, and no history.
    pub fn raise<'b, T, R: MapRule>(
        &self,
        answer: Result<T, Refusal<()>>,
    ) -> Result<T, Refusal<Cause<'b, J, R>>>
        ensures ok { IfOk answer (λ value. result ≡ Ok value) }
        ensures err { IfErr answer (λ refusal. result ≡ Err (raised_of refusal)) }
        ensures only_ok { IfOk result (λ value. answer ≡ Ok value) }
        ensures only_err { IsErr result → IsErr answer }
    {
        raise(answer)
    }
}
