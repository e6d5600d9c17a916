// How memory is cut, marked and trimmed, and which copies it keeps.
ghost use Rattle.std.specs.Prelude.{◌≡◌, ◌<◌, ◌≤◌, ◌⊎◌, ◌++◌, ◌∷◌, [], length, IsTrue, IsOkUnless, IfOk, IfErr, OnOk, OnErr, All};
ghost use Rattle.journal_world.specs.Histories.{is_trusted, count, floor, latest};
ghost use Rattle.journal_world.specs.Histories.Entry.{stable};
ghost use Rattle.journal_memlog.specs.Logs.{HasDistinctBlocks, tail_of};
ghost use Rattle.journal_tail.specs.Homes.{AreHomes};
ghost use Rattle.journal_tail.specs.Tails.{DropsCuts, cut_after};
ghost use Rattle.journal_tail.specs.declared.limits.TheConstants.{MAX_TAIL};
ghost use Rattle.journal_memory.specs.Ledgers.{IsMarkRefusal};
ghost use Rattle.journal_memory.specs.Updates.{HaveAllSince, AreObjectsOf};
ghost use Rattle.journal_memory.specs.VolatileHolds.{KeepsCopies};

use crate::cause::{Cause, raise};
use crate::fetched::Fetched;
use crate::log_key::LogKey;
use crate::volatile::Volatile;
use journal_block::Update;
use journal_history::Naming;
use journal_world::{CommitCount, MapRule, Position, Refusal};

impl<'b, R: MapRule, J: Naming> Volatile<'b, R, J> {
    /// Part of a hold of both: cuts. It hands out a copy of all blocks that commits wrote since the
    /// last cut, as the last of them left them.
    ///
    /// # Errors
    /// - `J1 NoMemory`: the memory for the copy is refused. All is as it was.
    pub fn cut(&mut self, _key: &LogKey<J>) -> Result<Vec<Update>, Refusal<Cause<'b, J, R>>>
        ensures group { IfOk result (λ group. group.items ≡ tail_of self.old.tail.log) }
        ensures all { IsTrue (is_trusted self.old.ledger.history) → IfOk result (λ group. HaveAllSince J.layout self.old.ledger.history self.old.ledger.cut group.items) }
        ensures few { IfOk result (λ group. length group.items ≤ MAX_TAIL) }
        ensures homes { IfOk result (λ group. AreHomes J.layout.blocks group.items) }
        ensures distinct { IfOk result (λ group. HasDistinctBlocks group.items) }
        ensures ok { OnOk result (self.new ≡ record self.old {
          ledger = record self.old.ledger { cut = count self.old.ledger.history };
          tail = cut_after self.old.tail (count self.old.ledger.history);
        }) }
        ensures err { OnErr result (self.new ≡ self.old) }
        ensures refusal { IsOkUnless result Refusal.NoMemory }
    {
        let group = raise(self.tail.cut(self.ledger.count()))?;
        self.ledger.note_cut();
        Ok(group)
    }

    /// Part of a hold of memory alone: makes the copy of the home block the most recently used, if
    /// there is one.
    pub fn touch(&mut self, block: u64)
        ensures event { KeepsCopies J.layout self.old self.new }
    {
        self.touch_copy(block);
        self.prove_invariant();
    }

    fn touch_copy(&mut self, block: u64)
        ensures { self.new ≡ record self.old { tail = record self.old.tail { cache = self.new.tail.cache } } }
    {
        self.tail.touch(block);
    }

    // No condition: it tests itself that the history goes on from the fetch's front, and that
    // memory has what commits wrote after the fetch. Where memory for a copy is refused the block
    // is not kept, and no call is refused for it.
    /// Part of a hold of memory alone: keeps copies of the fetched blocks for later reads and
    /// commits, unless memory has dropped the writes of later commits. Above the limit those copies
    /// are dropped that were used least recently. One for which memory is refused is not kept.
    pub fn keep(&mut self, fetched: Fetched<'b, J, R>)
        ensures event { KeepsCopies J.layout self.old self.new }
    {
        self.keep_copies(fetched);
        self.prove_invariant();
    }

    fn keep_copies(&mut self, fetched: Fetched<'b, J, R>)
        ensures { self.new ≡ record self.old { tail = record self.old.tail { cache = self.new.tail.cache } } }
    {
        if self.can_keep(&fetched) {
            let Fetched { updates, .. } = fetched;
            self.tail.keep(updates);
        }
    }

    // True if the writes of all commits after the fetch are in memory.
    fn can_keep(&self, fetched: &Fetched<'b, J, R>) -> bool
        ensures { IsTrue result → IsTrue (is_trusted self.now.ledger.history)
            → AreObjectsOf J.layout (latest self.now.ledger.history) (fetched.now.updates ++ self.now.tail.log.updates) }
    {
        let Ok(_front) = self.front_over(&fetched.front) else {
            return false;
        };
        self.tail.trimmed() <= fetched.commits
    }

    /// Part of a hold of both: drops the updates of each cut that ends at the position or before
    /// it, which are at home. They overwrite the copies of their blocks.
    pub fn trim(&mut self, _key: &LogKey<J>, upto: Position)
        ensures drops { DropsCuts self.old.tail upto self.new.tail }
        ensures left { All (λ c. upto < c.end) self.new.tail.cuts }
        ensures others { self.new ≡ record self.old { tail = self.new.tail } }
    {
        self.tail.trim(upto);
    }

    /// Part of a hold of both: marks the first n commits as stable, those at the last cut or all,
    /// and publishes the mark.
    ///
    /// # Errors
    /// All is as it was.
    /// - `J11 Worn`: the history's length would reach 2^62.
    /// - `J9 Stale`: the history is longer.
    pub fn mark(&mut self, _key: &LogKey<J>, n: CommitCount) -> Result<(), Refusal<Cause<'b, J, R>>>
        requires rises { floor self.old.ledger.history ≤ n }
        requires made { n ≤ count self.old.ledger.history }
        requires due { (n ≡ self.old.ledger.cut) ⊎ (n ≡ count self.old.ledger.history) }
        ensures added { OnOk result (self.new ≡ record self.old {
          ledger = record self.old.ledger { history = self.old.ledger.history ++ stable n ∷ []; cut = n };
        }) }
        ensures refusal { IfErr result (IsMarkRefusal self.old.ledger.history) }
        ensures same { OnErr result (self.new ≡ self.old) }
    {
        self.ledger.mark(n)
    }
}
