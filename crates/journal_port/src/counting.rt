// What a program has counted.
ghost use Rattle.std.specs.Prelude.{◌≡◌, List, IfOk};
ghost use Rattle.std.specs.List.Sorted.{IsNonDecreasingBy, IsPermutation};
ghost use Rattle.journal_history.specs.Tokens.{SessionState};
ghost use Rattle.journal_records.specs.declared.answer.Counter.{Counter};
ghost use Rattle.journal_port.specs.Answers.{IsCountersAnswer, name_of};

use journal_records::{Answer, Counter, Refused};
use std::alloc::{AllocError, Global};

/// What a program counts while its journal is served, for clients that ask.
pub trait Counting {
    /// Which counters it may tell.
    ghost tells: { Self → List Counter → Type 0 };

    /// The counters as they are now, in any order, each name once, at most 256 of them.
    ///
    /// # Errors
    ///
    /// Where memory is refused. Nothing has changed then.
    fn counters(&self, alloc: Global) -> Result<Vec<Counter>, AllocError>
        ensures { IfOk result (λ counters. tells self.now counters.items) };

    /// Takes note of an answer that was given.
    fn note(&self, told: &Answer);
}

// Answers just the counters that the program tells, by ascending names.
pub(crate) fn count<C: Counting>(alloc: Global, counting: &C) -> Answer
    ensures { (session : SessionState) → IsCountersAnswer (C.tells counting.now) session session result }
{
    match sorted(alloc, counting) {
        Ok(counters) => Answer::Counters(counters),
        Err(_) => Answer::Refused(Refused::NoMemory),
    }
}

// The counters with their names ascending.
fn sorted<C: Counting>(alloc: Global, counting: &C) -> Result<Vec<Counter>, AllocError>
    ensures { IfOk result (λ sorted. (told : List Counter) × C.tells counting.now told
        × IsPermutation told sorted.items × IsNonDecreasingBy name_of sorted.items) }
{
    let mut counters = counting.counters(alloc)?;
    counters.sort_by_key(|counter| counter.name)?;
    Ok(counters)
}
