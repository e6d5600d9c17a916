// The home blocks that are to be put.
ghost use Rattle.std.specs.Prelude.{ℕ, ◌≡◌, ◌≤◌, ◌-◌, ◌∷◌, [], None, Some, cond, length, IfOk, IfSome, IfNone};
ghost use Rattle.std.specs.BTreeMap.{is_at};
ghost use Rattle.std.specs.Ordering.{nat_cmp};
ghost use Rattle.journal_memlog.specs.Logs.{next_position};
ghost use Rattle.journal_wal.specs.Wal.{planned, distinct_blocks, IsPlanOf};
ghost use Rattle.journal_wal.specs.States.{updates_to};

use journal_memlog::MemLog;
use std::alloc::{AllocError, Global};
use std::collections::BTreeMap;

// Planned once, at the installer's first step, with a `BTreeMap` from block to last position: it
// gives the ascending order and the last position of each. This is the one step that may answer J1.
// Contracts see the plan, so each step takes its head, and the last frees exactly what was planned.
/// The home blocks still to be put, each with the position of its last log block.
#[derive(Drop)]
pub(crate) struct Plan {
    pub(crate) homes: BTreeMap<u64, u64>,
    pub(crate) upto: u64,
}

impl Plan {
    /// All blocks that the positions before `upto` update.
    pub(crate) fn up_to(alloc: Global, memory: &MemLog, upto: u64) -> Result<Plan, AllocError>
        requires from_start { memory.now.start ≤ upto }
        requires to_next { upto ≤ next_position memory.now }
        ensures plan { IfOk result (λ plan. IsPlanOf (updates_to memory.now upto) memory.now.start plan.homes.entries) }
        ensures number { IfOk result (λ plan. length plan.homes.entries ≡ distinct_blocks (updates_to memory.now upto)) }
        ensures upto { IfOk result (λ plan. plan.upto ≡ upto) }
    {
        let mut homes = BTreeMap::new(alloc);
        for position in memory.bounds().start..upto {
            homes.insert(memory.at(position).block, position)?;
        }
        Ok(Plan { homes, upto })
    }

    /// Takes the least of the blocks left, with its position.
    pub(crate) fn next(&mut self) -> Option<(u64, u64)>
        ensures some { IfSome result (λ home. self.old.homes.entries ≡ home ∷ self.new.homes.entries) }
        ensures found { IfSome result (λ home. planned self.old.homes.entries home.0 ≡ Some home.1) }
        ensures left { IfSome result (λ home. (b : ℕ) →
            planned self.new.homes.entries b ≡ cond (is_at (nat_cmp home.0) b) None (planned self.old.homes.entries b)) }
        ensures none { IfNone result ((self.old.homes.entries ≡ []) × (self.new.homes.entries ≡ [])) }
        ensures upto { self.new.upto ≡ self.old.upto }
    {
        self.homes.pop_first()
    }
}
