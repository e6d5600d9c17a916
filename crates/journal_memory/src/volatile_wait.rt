// How sessions learn of marks, and the numbers of the volatile part.
ghost use Rattle.std.specs.Prelude.{◌≡◌, ◌≤◌, ◌↔◌, false, length, IsTrue, IfOk, IfErr, OnOk, OnErr};
ghost use mathlib.Core.List.{IsPrefix};
ghost use Rattle.journal_world.specs.Histories.{commits_of, count, floor};
ghost use Rattle.journal_history.specs.Tokens.{made, IsExact, OnlyExtends};
ghost use Rattle.journal_memlog.specs.Logs.{tail_of};
ghost use Rattle.journal_memory.specs.Ledgers.{IsStaleRefusal, IsStrayRefusal};
ghost use Rattle.journal_memory.specs.Volatiles.{outset_of, used_positions, HasNothingToLog};
ghost use Rattle.journal_memory.specs.Waits.{MayWait, IsWaitRefusal, IsFlushRefusal};
ghost use Rattle.journal_memory.specs.VolatileHolds.{AnswersWait, AnswersFlush, AnswersShow};

use crate::cause::Cause;
use crate::volatile::Volatile;
use journal_history::{Naming, Session};
use journal_world::{CommitCount, LOG_POSITIONS, MapRule, Position, Refusal};
use std::sync::Wait;

impl<'b, R: MapRule, J: Naming> Volatile<'b, R, J> {
    // Refused, it leaves the session as it was, so after an `Unsure` commit the session is exact. A
    // longer history is found by a load of HEAD of its own, and every later commit finds it again.
    /// A hold of memory alone: true if the first n commits are marked as stable. The session has
    /// then seen the whole history, and is exact.
    ///
    /// # Errors
    /// The first that applies is answered. The session is as it was.
    /// - `J13 Closed`: it was stopped, and the first n commits are not marked.
    /// - `J6 DeviceFailed`: the device failed before, and the first n commits are not marked.
    /// - `J9 Stale`: the history is longer.
    /// - `J10 Stranger`: the history has a commit under the session's number that the session did
    ///   not make.
    pub fn wait_step<W: Wait>(
        &mut self,
        rt: &W,
        session: &mut Session<'b, J, R>,
        n: CommitCount,
    ) -> Result<bool, Refusal<Cause<'b, J, R>>>
        ensures same { self.new ≡ self.old }
        ensures answer { IfOk result (λ marked. IsTrue marked ↔ (n ≤ floor self.old.ledger.history)) }
        ensures goes_on { OnOk result (MayWait (outset_of self.old) n) }
        ensures shown { OnOk result (session.new.seen ≡ self.old.ledger.history) }
        ensures exact { OnOk result (IsExact session.new) }
        ensures extends { OnlyExtends session.old session.new }
        ensures refusal { IfErr result (IsWaitRefusal (outset_of self.old) session.old n) }
        ensures stays { OnErr result (session.new ≡ session.old) }
        ensures event { AnswersWait self.old session.old n result session.new }
    {
        self.find_mark(rt, session, n)
    }

    // Looks for a mark as `wait_step` does.
    fn find_mark<W: Wait>(
        &mut self,
        rt: &W,
        session: &mut Session<'b, J, R>,
        n: CommitCount,
    ) -> Result<bool, Refusal<Cause<'b, J, R>>>
        ensures same { self.new ≡ self.old }
        ensures answer { IfOk result (λ marked. IsTrue marked ↔ (n ≤ floor self.old.ledger.history)) }
        ensures goes_on { OnOk result (MayWait (outset_of self.old) n) }
        ensures shown { OnOk result (session.new.seen ≡ self.old.ledger.history) }
        ensures exact { OnOk result (IsExact session.new) }
        ensures extends { OnlyExtends session.old session.new }
        ensures refusal { IfErr result (IsWaitRefusal (outset_of self.old) session.old n) }
        ensures stays { OnErr result (session.new ≡ session.old) }
    {
        let marked = n <= self.ledger.floor();
        if !marked {
            self.check_running()?;
        }
        self.check_session(rt, session)?;
        self.ledger.show_whole(session);
        Ok(marked)
    }

    // J9 and J10 come before J13 and J6: a session that a stop or a fault refuses has then seen the
    // whole history. Where it has to wait its session stays as it was, so that the next look is for
    // the same commits.
    /// A hold of memory alone: true if all commits that the session has seen are marked as stable.
    /// It has then seen the whole history, and is exact, even after a stop or a fault. If false the
    /// session is as it was, so that the same is asked again later.
    ///
    /// # Errors
    /// The first that applies is answered.
    /// - `J9 Stale`: the history is longer. The session is as it was.
    /// - `J10 Stranger`: the history has a commit under the session's number that the session did
    ///   not make. The session is as it was.
    /// - `J13 Closed`: it was stopped, and not all of these commits are marked. The session has
    ///   then seen the whole history.
    /// - `J6 DeviceFailed`: the device failed before, and not all of these commits are marked. The
    ///   session has then seen the whole history.
    pub fn flush_step<W: Wait>(
        &mut self,
        rt: &W,
        session: &mut Session<'b, J, R>,
    ) -> Result<bool, Refusal<Cause<'b, J, R>>>
        ensures same { self.new ≡ self.old }
        ensures answer { IfOk result (λ marked. IsTrue marked ↔ (count session.old.seen ≤ floor self.old.ledger.history)) }
        ensures goes_on { OnOk result (MayWait (outset_of self.old) (count session.old.seen)) }
        ensures shown { IfOk result (λ marked. IsTrue marked → session.new.seen ≡ self.old.ledger.history) }
        ensures exact { IfOk result (λ marked. IsTrue marked → IsExact session.new) }
        ensures stays { IfOk result (λ marked. marked ≡ false → session.new ≡ session.old) }
        ensures extends { OnlyExtends session.old session.new }
        ensures refusal { IfErr result (IsFlushRefusal (outset_of self.old) session.old session.new) }
        ensures event { AnswersFlush self.old session.old result session.new }
    {
        self.find_marks(rt, session)
    }

    // Looks for the marks of all that the session has seen, as `flush_step` does.
    fn find_marks<W: Wait>(
        &mut self,
        rt: &W,
        session: &mut Session<'b, J, R>,
    ) -> Result<bool, Refusal<Cause<'b, J, R>>>
        ensures same { self.new ≡ self.old }
        ensures answer { IfOk result (λ marked. IsTrue marked ↔ (count session.old.seen ≤ floor self.old.ledger.history)) }
        ensures goes_on { OnOk result (MayWait (outset_of self.old) (count session.old.seen)) }
        ensures shown { IfOk result (λ marked. IsTrue marked → session.new.seen ≡ self.old.ledger.history) }
        ensures exact { IfOk result (λ marked. IsTrue marked → IsExact session.new) }
        ensures stays { IfOk result (λ marked. marked ≡ false → session.new ≡ session.old) }
        ensures extends { OnlyExtends session.old session.new }
        ensures refusal { IfErr result (IsFlushRefusal (outset_of self.old) session.old session.new) }
    {
        self.check_session(rt, session)?;
        if self.ledger.has_marked(session) {
            self.ledger.show_whole(session);
            return Ok(true);
        }
        match self.check_running() {
            Ok(()) => Ok(false),
            Err(why) => {
                self.ledger.show_whole(session);
                Err(why)
            }
        }
    }

    // Refuses by J9 if the history is longer, or the session has seen more. Nothing changes.
    fn check_session<W: Wait>(
        &mut self,
        rt: &W,
        session: &mut Session<'b, J, R>,
    ) -> Result<(), Refusal<Cause<'b, J, R>>>
        ensures same { self.new ≡ self.old }
        ensures session { session.new ≡ session.old }
        ensures seen { OnOk result (IsPrefix session.old.seen self.old.ledger.history) }
        ensures own { OnOk result (length (commits_of session.old.number self.old.ledger.history) ≡ made session.old) }
        ensures refusal { IfErr result (IsStrayRefusal self.old.ledger.history session.old) }
    {
        self.ledger.check_session(rt, session)
    }

    /// A hold of memory alone: shows the session the whole history.
    ///
    /// # Errors
    /// - `J9 Stale`: the session had seen more of the history. The session may then have seen more.
    pub fn show_step(&self, session: &mut Session<'b, J, R>) -> Result<(), Refusal<Cause<'b, J, R>>>
        ensures extends { OnlyExtends session.old session.new }
        ensures shown { OnOk result (session.new.seen ≡ self.now.ledger.history) }
        ensures refusal { IfErr result (IsStaleRefusal self.now.ledger.history) }
        ensures event { AnswersShow self.now session.old result session.new }
    {
        self.ledger.show(session)
    }

    /// The number of commits of the history.
    pub fn commits(&self) -> CommitCount
        ensures { result ≡ count self.now.ledger.history }
    {
        self.ledger.count()
    }

    /// The number of commits that are marked as stable.
    pub fn floor(&self) -> CommitCount
        ensures { result ≡ floor self.now.ledger.history }
    {
        self.ledger.floor()
    }

    /// The number of blocks that the next cut hands out: those that commits wrote since the last
    /// one.
    pub fn tail_len(&self) -> u64
        ensures { result ≡ length (tail_of self.now.tail.log) }
    {
        self.tail.tail_len()
    }

    /// The number of positions of the log that have updates up to the last cut, if the log starts
    /// at this one. The durable part gives the start, because memory has no cut of the updates that
    /// the log had at its opening.
    pub fn used_positions(&self, start: Position) -> u64
        ensures { result ≡ used_positions self.now start }
    {
        self.tail.bounds().cut.saturating_sub(start.get())
    }

    /// True if the logger has nothing to do, as far as memory alone can know, where the log starts
    /// at this position: the last cut is marked, and the tail is empty with no commit after the
    /// mark, or the log has no room for the tail.
    pub fn has_nothing_to_log(&self, start: Position) -> bool
        ensures { IsTrue result ↔ HasNothingToLog self.now start }
    {
        let floor = self.ledger.floor();
        if floor < self.ledger.cut() {
            return false;
        }
        let tail = self.tail.tail_len();
        if tail == 0 {
            return self.ledger.count() <= floor;
        }
        LOG_POSITIONS.saturating_sub(self.used_positions(start)) < tail
    }
}
