// Holds of both parts. Each tests the facts that it needs of the other part, and requires nothing
// that ties them.
ghost use Rattle.std.specs.Prelude.{◌≡◌, ◌<◌, ◌≤◌, [], false, IsTrue, IfOk, IfErr, OnOk, OnErr, All};
ghost use Rattle.journal_world.specs.Histories.{is_trusted};
ghost use Rattle.journal_disk.specs.Images.{EveryImage};
ghost use Rattle.journal_memlog.specs.Logs.{tail_of};
ghost use Rattle.journal_tail.specs.Tails.{DropsCuts};
ghost use Rattle.journal_wal.specs.Wal.{with_room};
ghost use Rattle.journal_objlog.specs.ObjectLogs.{end_of, IsCutLogged};
ghost use Rattle.journal_parts.specs.Cores.{Leaves as LeavesHistory};
ghost use Rattle.journal_parts.specs.Durables.{Crashes, disk_of};
ghost use Rattle.journal_parts.specs.Pairs.{Tied, IsMarkDue, IsCutDue, IsRestDue, CutsBoth, MarksBoth, MarksAll, DoesWhatIsDue, IsUntied, IsCutRefusal, IsMarkingRefusal, IsRestRefusal, IsDueRefusal};

use crate::durable::Durable;
use crate::step::LogStep;
use journal_disk::BlockDisk;
use journal_history::Naming;
use journal_memory::{Cause, RefusalNumber, Volatile};
use journal_world::{MapRule, Position, Refusal};

impl<'b, D: BlockDisk, R: MapRule, J: Naming> Durable<'b, D, R, J> {
    /// The disk, lent, if all marks of the whole history are its own. Each image that a crash may
    /// leave of it opens then as the map after a front of the history that has every marked commit.
    ///
    /// # Errors
    /// - `J9 Stale`: the history that this part has seen is the longer, or it lacks a mark. Nothing
    ///   changed.
    pub(crate) fn disk_under(
        &self,
        volatile: &Volatile<'b, R, J>,
    ) -> Result<&D, Refusal<Cause<'b, J, R>>>
        ensures disk { IfOk result (λ disk. D.state disk.now ≡ disk_of self.now) }
        ensures size { (disk_of self.now).past.size ≡ J.layout.blocks }
        ensures trusted { OnOk result (is_trusted volatile.now.ledger.history ≡ (disk_of self.now).honest) }
        ensures images { IsTrue (disk_of self.now).honest → IfOk result (λ _. EveryImage (disk_of self.now).past (LeavesHistory volatile.now.ledger.history)) }
        ensures refusal { IfErr result (IsUntied volatile.now self.now self.now.marked) }
        ensures only { Tied volatile.now self.now → IfErr result (λ _. ⊥) }
    {
        let front = volatile.front_over(&self.front)?;
        if self.marked < volatile.floor() {
            return Err(Refusal::Stale(self.key.cause(RefusalNumber::J9, front)));
        }
        Ok(self.objects.log.disk())
    }

    // Room in the disk's log comes first, then the copy of the tail, and then both change. So want
    // of memory leaves both as they were.
    /// Cuts: the blocks that commits wrote since the last cut become the group in flight, with the
    /// history that has these commits. False if a group is in flight, if nothing was written, and
    /// if the log lacks a position for a block.
    ///
    /// # Errors
    /// The first that applies is answered. All is as it was, but may have more room in memory.
    /// - `J9 Stale`: the history that this part has seen is the longer, or it lacks a mark.
    /// - `J6 DeviceFailed`: the device failed before.
    /// - `J11 Worn`: a position would reach 2^62.
    /// - `J1 NoMemory`: memory is refused.
    pub(crate) fn cut(
        &mut self,
        volatile: &mut Volatile<'b, R, J>,
    ) -> Result<bool, Refusal<Cause<'b, J, R>>>
        ensures cuts { IfOk result (λ done. IsTrue done → CutsBoth volatile.old self.old volatile.new self.new) }
        ensures idle { IfOk result (λ done. done ≡ false → (volatile.new ≡ volatile.old) × (self.new ≡ self.old)) }
        ensures only { IfOk result (λ done. done ≡ false → IsCutDue volatile.old self.old → ⊥) }
        ensures refusal { IfErr result (IsCutRefusal volatile.old self.old) }
        ensures volatile { OnErr result (volatile.new ≡ volatile.old) }
        ensures durable { OnErr result (self.new ≡ record self.old { objects = with_room self.old.objects self.new.objects.log.room }) }
        ensures tied { Tied volatile.old self.old → Tied volatile.new self.new }
        ensures crash { Crashes self.old self.new }
    {
        // Called for their contracts: memory's invariant, and that its tail is short.
        volatile.prove_invariant();
        volatile.prove_short_tail();
        let front = volatile.front_over(&self.front)?;
        let floor = volatile.floor();
        if self.marked < floor {
            return Err(Refusal::Stale(self.key.cause(RefusalNumber::J9, front)));
        }
        if self.logged < volatile.last_cut() {
            return Ok(false);
        }
        let blocks = volatile.tail_len() as usize;
        if !self.reserve(blocks)? {
            return Ok(false);
        }
        let group = volatile.cut(&self.key)?;
        self.take(group, front, volatile.commits());
        Ok(true)
    }

    // The test of a cut is `memory.cut <= logged`, that of a mark `memory.cut = logged`: a mark is
    // of the commits at the last cut, because the ledger counts beside the history only for those
    // (`MarkedLengths`).
    /// Marks what is logged, in the history and beside the log. False if the last cut is not logged
    /// yet, or is marked already.
    ///
    /// # Errors
    /// Nothing is then marked.
    /// - `J9 Stale`: the history that this part has seen is the longer, the history has a greater
    ///   mark than what is logged, or it is longer.
    /// - `J11 Worn`: the history's length would reach 2^62.
    pub(crate) fn mark(
        &mut self,
        volatile: &mut Volatile<'b, R, J>,
    ) -> Result<bool, Refusal<Cause<'b, J, R>>>
        ensures marks { IfOk result (λ done. IsTrue done → MarksBoth volatile.old self.old volatile.new self.new) }
        ensures idle { IfOk result (λ done. done ≡ false → (volatile.new ≡ volatile.old) × (self.new ≡ self.old)) }
        ensures only { IfOk result (λ done. done ≡ false → IsMarkDue volatile.old self.old → ⊥) }
        ensures refusal { IfErr result (IsMarkingRefusal volatile.old self.old) }
        ensures same { OnErr result ((volatile.new ≡ volatile.old) × (self.new ≡ self.old)) }
        ensures tied { Tied volatile.old self.old → Tied volatile.new self.new }
        ensures crash { Crashes self.old self.new }
    {
        // Called for its contract: memory's invariant.
        volatile.prove_invariant();
        let front = volatile.front_over(&self.front)?;
        let marked = volatile.floor();
        if self.logged < marked {
            return Err(Refusal::Stale(self.key.cause(RefusalNumber::J9, front)));
        }
        if volatile.last_cut() != self.logged || marked == self.logged {
            return Ok(false);
        }
        volatile.mark(&self.key, self.logged)?;
        self.set_marked(volatile.front());
        Ok(true)
    }

    // A step of its own for commits that wrote nothing. It moves `logged` and `coming` too, which
    // is true because nothing was written after the last cut.
    /// Marks all commits if nothing awaits logging: those since the last cut wrote nothing. False
    /// if something does, or if all are marked.
    ///
    /// # Errors
    /// Nothing is then marked.
    /// - `J9 Stale`: the history that this part has seen is the longer, or the history is longer.
    /// - `J11 Worn`: the history's length would reach 2^62.
    pub(crate) fn mark_rest(
        &mut self,
        volatile: &mut Volatile<'b, R, J>,
    ) -> Result<bool, Refusal<Cause<'b, J, R>>>
        ensures marks { IfOk result (λ done. IsTrue done → MarksAll volatile.old self.old volatile.new self.new) }
        ensures idle { IfOk result (λ done. done ≡ false → (volatile.new ≡ volatile.old) × (self.new ≡ self.old)) }
        ensures only { IfOk result (λ done. done ≡ false → IsRestDue volatile.old self.old → ⊥) }
        ensures refusal { IfErr result (IsRestRefusal volatile.old self.old) }
        ensures same { OnErr result ((volatile.new ≡ volatile.old) × (self.new ≡ self.old)) }
        ensures tied { Tied volatile.old self.old → Tied volatile.new self.new }
        ensures crash { Crashes self.old self.new }
    {
        // Called for its contract: memory's invariant.
        volatile.prove_invariant();
        volatile.front_over(&self.front)?;
        let commits = volatile.commits();
        if self.awaits_logging(volatile) || commits <= volatile.floor() {
            return Ok(false);
        }
        volatile.mark(&self.key, commits)?;
        self.set_all_marked(volatile.front(), commits);
        Ok(true)
    }

    /// Does the work of both parts that is due when no device call is: marks what is logged; else
    /// cuts; else marks commits that wrote nothing. It is idle if none of these is due.
    pub(crate) fn do_due(
        &mut self,
        volatile: &mut Volatile<'b, R, J>,
    ) -> Result<LogStep, Refusal<Cause<'b, J, R>>>
        ensures ok { IfOk result (λ step. DoesWhatIsDue volatile.old self.old step volatile.new self.new) }
        ensures refusal { IfErr result (λ why. IsDueRefusal volatile.old self.old why self.new) }
        ensures volatile { OnErr result (volatile.new ≡ volatile.old) }
        ensures tied { Tied volatile.old self.old → Tied volatile.new self.new }
        ensures crash { Crashes self.old self.new }
    {
        let logged = self.logged;
        if self.mark(volatile)? {
            return Ok(LogStep::Marked(logged.get()));
        }
        if self.cut(volatile)? {
            return Ok(LogStep::Cut);
        }
        let commits = volatile.commits();
        if self.mark_rest(volatile)? {
            return Ok(LogStep::Marked(commits.get()));
        }
        Ok(LogStep::Idle)
    }

    // True if blocks that commits wrote are not logged yet.
    fn awaits_logging(&self, volatile: &Volatile<'b, R, J>) -> bool
        ensures cut { result ≡ false → volatile.now.ledger.cut ≤ self.now.logged }
        ensures rest { result ≡ false → IsCutLogged self.now.objects }
        ensures tail { result ≡ false → tail_of volatile.now.tail.log ≡ [] }
        ensures only { IsTrue result → IsRestDue volatile.now self.now → ⊥ }
    {
        self.logged < volatile.last_cut()
            || self.objects.log.is_logging()
            || volatile.tail_len() > 0
    }

    /// Drops the updates that are at home from memory: those of each cut that ends at the position
    /// or before it.
    pub(crate) fn trim_memory(&self, volatile: &mut Volatile<'b, R, J>, upto: Position)
        ensures drops { DropsCuts volatile.old.tail upto volatile.new.tail }
        ensures left { All (λ c. upto < c.end) volatile.new.tail.cuts }
        ensures others { volatile.new ≡ record volatile.old { tail = volatile.new.tail } }
        ensures tied { upto ≤ end_of self.now.objects → Tied volatile.old self.now → Tied volatile.new self.now }
    {
        volatile.trim(&self.key, upto);
    }
}
