// Waiting for a mark.
ghost use Rattle.std.specs.Prelude.{◌≡◌, ◌≤◌, ◌↔◌, ◌⊎◌, IsTrue, IfOk, IfErr, IsErrAnd, OnOk, OnErr, IfSome, IsSome, IsNone};
ghost use Rattle.journal_world.specs.Maps.{Map, Agrees, overwritten};
ghost use Rattle.journal_world.specs.Histories.{count, floor};
ghost use Rattle.journal_history.specs.Tokens.{IsExact, OnlyExtends};
ghost use Rattle.journal_twophase.specs.Journals.{IsKnown, IsLogRefusal};
ghost use Rattle.journal_twophase.specs.Loggers.{IsGroupEnd};
ghost use Rattle.journal_twophase.specs.Transactions.{core_of};
ghost use Rattle.journal_twophase.specs.Waits.{HasEnded, IsStable, CommitsAndWaits, IsWaitRefusal, IsEndedUnmarked, IsUnsure, IsWaitFault};

use crate::locked_parts::{AnsweredCommit, JournalRefusal, LockedParts, UnderMemoryLock, WhenFull};
use crate::txn::{Txn, release_all};
use journal_disk::BlockDisk;
use journal_history::{Naming, Receipt, Session, StableNote};
use journal_memory::{Cause, Volatile};
use journal_parts::LogStep;
use journal_world::{CommitCount, MapRule, Refusal};
use std::sync::{MutexGuard, Wait};
use std::time::Duration;

// How many seconds a thread sleeps at most before it looks again. A mark, a stop or a fault wakes
// it before.
const LONGEST_SLEEP: u64 = 3600;

/// Why a commit that has to be stable has no note of it.
#[derive(Debug, Drop)]
pub enum WaitFault<P, C> {
    /// The transaction was refused, and the history lacks it, as tests count.
    Refused(Refusal<C>),
    /// It was committed: the history has it at this place. But the wait was refused, so it is not
    /// known to be stable: after a crash it may be there or not.
    Unsure(P, Refusal<C>),
}

/// A commit that waited: its receipt and a note, or why it has none.
pub type Waited<'b, J, R> = Result<
    (Receipt<'b, J, R>, StableNote<'b, J, R>),
    WaitFault<Receipt<'b, J, R>, Cause<'b, J, R>>,
>;

impl<'b, D: BlockDisk, R: MapRule, J: Naming> LockedParts<'b, D, R, J> {
    // Waits until the first n commits are marked as stable. Answers J13, J6, J9 and J10.
    pub(crate) fn wait_stable<W: Wait>(
        &self,
        rt: &W,
        session: &mut Session<'b, J, R>,
        commits: CommitCount,
    ) -> Result<StableNote<'b, J, R>, JournalRefusal<'b, J, R>>
        ensures stable { IfOk result (λ note. IsStable commits note session.new) }
        ensures exact { OnOk result (IsExact session.new) }
        ensures session { OnlyExtends session.old session.new }
        ensures refusal { IfErr result (IsWaitRefusal session.new) }
        ensures unmarked { IfErr result (IsEndedUnmarked commits session.new) }
    {
        let memory = self.lock_memory(rt);
        self.wait_in(rt, memory, session, commits)
    }

    // Waits until all commits that the session has seen are marked, and for no others. Answers J9,
    // J10, J13 and J6.
    pub(crate) fn flush<W: Wait>(
        &self,
        rt: &W,
        session: &mut Session<'b, J, R>,
    ) -> Result<StableNote<'b, J, R>, JournalRefusal<'b, J, R>>
        ensures stable { IfOk result (λ note. IsStable (count session.old.seen) note session.new) }
        ensures exact { OnOk result (IsExact session.new) }
        ensures session { OnlyExtends session.old session.new }
        ensures refusal { IfErr result (IsWaitRefusal session.new) }
        ensures unmarked { IfErr result (IsEndedUnmarked (count session.old.seen) session.new) }
    {
        let mut memory = self.lock_memory(rt);
        for _ in rt.forever() {
            if let Some(note) = flush_step(rt, &mut memory.volatile, session)? {
                return Ok(note);
            }
            memory = self.lead_or_sleep(rt, memory);
        }
        unreachable!()
    }

    // Waits, with the lock held at first, until the first n commits are marked.
    fn wait_in<'s, W: Wait>(
        &'s self,
        rt: &W,
        memory: MutexGuard<'s, UnderMemoryLock<'b, R, J>>,
        session: &mut Session<'b, J, R>,
        commits: CommitCount,
    ) -> Result<StableNote<'b, J, R>, JournalRefusal<'b, J, R>>
        ensures stable { IfOk result (λ note. IsStable commits note session.new) }
        ensures exact { OnOk result (IsExact session.new) }
        ensures keeps { IsExact session.old → IsExact session.new }
        ensures session { OnlyExtends session.old session.new }
        ensures refusal { IfErr result (IsWaitRefusal session.new) }
        ensures unmarked { IfErr result (IsEndedUnmarked commits session.new) }
    {
        let mut memory = memory;
        for _ in rt.forever() {
            if wait_step(rt, &mut memory.volatile, session, commits)? {
                return Ok(StableNote::new(&session.front(), commits));
            }
            memory = self.lead_or_sleep(rt, memory);
        }
        unreachable!()
    }

    // Waits until a mark is made or all are woken. If it may lead, the thread makes the logger's
    // steps itself up to a mark, for all commits that have come.
    fn lead_or_sleep<'s, W: Wait>(
        &'s self,
        rt: &W,
        memory: MutexGuard<'s, UnderMemoryLock<'b, R, J>>,
    ) -> MutexGuard<'s, UnderMemoryLock<'b, R, J>> {
        let mut memory = memory;
        memory.waiters.add();
        if memory.may_lead() {
            memory.is_led = true;
            self.led.set(true);
            drop(memory);
            return self.lead(rt);
        }
        let wake = memory.wake_to_watch();
        self.wake_logger(wake);
        let mut memory = self.sleep(rt, memory);
        memory.waiters.remove();
        memory
    }

    // Makes the logger's steps up to one that is a mark, idle or refused. Another thread may lead
    // before any thread is woken for that step: the woken threads may make the next group.
    fn lead<'s, W: Wait>(&'s self, rt: &W) -> MutexGuard<'s, UnderMemoryLock<'b, R, J>> {
        let answer = self.make_group(rt);
        let mut memory = self.lock_memory(rt);
        memory.is_led = false;
        self.led.set(false);
        memory.waiters.remove();
        let wake = memory.wake_to_watch();
        drop(memory);
        self.wake_after_step(rt, &answer);
        self.wake_logger(wake);
        self.lock_memory(rt)
    }

    // Leaves the logging to the logger, if no thread waits for it.
    fn let_log<W: Wait>(&self, rt: &W) {
        let wake = self.lock_memory(rt).wake_to_watch();
        self.wake_logger(wake);
    }

    // Makes the logger's steps, and answers the first that is a mark, idle or refused. Threads that
    // wait for one of the others are woken.
    fn make_group<W: Wait>(&self, rt: &W) -> Result<LogStep, JournalRefusal<'b, J, R>>
        ensures ends { IfOk result IsGroupEnd }
        ensures refusal { IfErr result IsLogRefusal }
    {
        for _ in rt.forever() {
            let answer = self.log_call(rt);
            if !is_within_group(&answer) {
                return answer;
            }
            self.wake_after_step(rt, &answer);
        }
        unreachable!()
    }

    // Sleeps until a mark is made or all are woken. `wait` ends in the lock's own wait, where each
    // woken thread sleeps once more. If few threads sleep, they try for the lock in place of that.
    // Few threads alone: trying makes 1.05 to 1.1 times as many commits with four threads, and 0.68
    // with 64, which take the processors from one another. How many are awaited says too little:
    // nobody is, once a group is cut.
    fn sleep<'s, W: Wait>(
        &'s self,
        rt: &W,
        memory: MutexGuard<'s, UnderMemoryLock<'b, R, J>>,
    ) -> MutexGuard<'s, UnderMemoryLock<'b, R, J>> {
        if !memory.waiters.are_few() {
            return self.marked.wait(rt, memory);
        }
        let seen = self.marked.notifications();
        drop(memory);
        self.marked
            .sleep(rt, seen, Duration::from_secs(LONGEST_SLEEP));
        self.lock_memory(rt)
    }

    // Sleeps until the commit of the receipt is marked, in the hold of the lock of that commit. The
    // session is exact before and after. The slots were given up in the hold that committed, so
    // that nobody waits for a barrier to use them. Given up after it, four threads that wait in
    // memory shared groups of 3.1 in place of 3.9 commits.
    fn await_mark<'s, W: Wait>(
        &'s self,
        rt: &W,
        memory: MutexGuard<'s, UnderMemoryLock<'b, R, J>>,
        session: &mut Session<'b, J, R>,
        receipt: Receipt<'b, J, R>,
    ) -> Waited<'b, J, R>
        ensures stable { IfOk result (λ done. IsStable done.0.count done.1 session.new) }
        ensures receipt { IfOk result (λ done. done.0 ≡ receipt.entry) }
        ensures fault { IfErr result (IsUnsure receipt.entry session.new) }
        ensures keeps { IsExact session.old → IsExact session.new }
        ensures session { OnlyExtends session.old session.new }
        ensures known { IsKnown R.statement J.layout session.new.seen }
    {
        let answer = self.wait_in(rt, memory, session, receipt.count());
        // Called for its contract: the history that the session has then seen is sound.
        let _seen = session.seen();
        match answer {
            Ok(note) => Ok((receipt, note)),
            Err(why) => {
                self.let_log(rt);
                Err(WaitFault::Unsure(receipt, why))
            }
        }
    }
}

impl<'j, 'b, D: BlockDisk, R: MapRule, J: Naming> Txn<'j, 'b, D, R, J> {
    // In this module, because no guard leaves the modules of the locks. Between this call and the
    // exchange of HEAD are seven functions alone.
    /// Commits the transaction as `commit` does, and waits until it is stable: until a mark covers
    /// it, so that no crash loses it. Its slots are released before it waits. The note covers it.
    /// The session has seen the mark, and is exact.
    ///
    /// # Errors
    /// - `Refused`: `commit` refuses it, for the same reasons. The history then lacks it, as tests
    ///   count.
    /// - `Unsure`: it is in the history, by the receipt, but the wait is refused. The session is
    ///   exact. The reason is one of the next four.
    /// - `J9 Stale`: the history is longer than the core's.
    /// - `J10 Stranger`: the history has a commit under the session's number that the session did
    ///   not make.
    /// - `J13 Closed`: the journal was stopped, and no mark covers the commit. The session has then
    ///   seen a history without one.
    /// - `J6 DeviceFailed`: the device failed, and no mark covers the commit. The session has then
    ///   seen a history without one.
    pub fn commit_wait<W: Wait>(self, rt: &W, session: &mut Session<'b, J, R>) -> Waited<'b, J, R>
        requires rule { (m : Map) → m.layout ≡ J.layout → R.statement m → Agrees m self.reads
            → R.statement (overwritten m self.writes) }
        ensures committed { IfOk result (λ done. CommitsAndWaits R.statement J.layout self.entry.began (core_of self.entry) session.old session.new done.0) }
        ensures stable { IfOk result (λ done. IsStable done.0.count done.1 session.new) }
        ensures fault { IfErr result (IsWaitFault R.statement J.layout self.entry.began (core_of self.entry) session.old session.new) }
    {
        let Txn {
            journal,
            alloc,
            began: _,
            transaction,
            held,
            known: _,
            last_block: _,
        } = self;
        let mut held = held;
        let mut spares = transaction.spares(alloc);
        let core = &journal.core;
        let when_full = WhenFull::Wait;
        let AnsweredCommit {
            memory,
            answer,
            spent: _spent,
        } = core.commit_under(rt, session, transaction, &mut held, &mut spares, when_full);
        release_all(rt, &journal.slots, held);
        core.wake_after_fault(&answer);
        match answer {
            Ok(receipt) => core.await_mark(rt, memory, session, receipt),
            Err(why) => Err(WaitFault::Refused(why)),
        }
    }
}

// True if a step of the logger is one of those that come before a mark.
fn is_within_group<C>(answer: &Result<LogStep, Refusal<C>>) -> bool
    ensures { IsTrue result ⊎ IfOk answer.now IsGroupEnd }
{
    matches!(answer, Ok(LogStep::Cut | LogStep::Put | LogStep::Logged))
}

// Asks the volatile part whether the first n commits are marked. If a stop or a fault refuses that,
// the session has then seen the history that has no such mark: a wait for no commit shows it.
fn wait_step<'b, R: MapRule, J: Naming, W: Wait>(
    rt: &W,
    volatile: &mut Volatile<'b, R, J>,
    session: &mut Session<'b, J, R>,
    commits: CommitCount,
) -> Result<bool, JournalRefusal<'b, J, R>>
    ensures marked { IfOk result (λ marked. IsTrue marked → commits ≤ floor session.new.seen) }
    ensures shown { OnOk result (session.new.seen ≡ volatile.old.ledger.history) }
    ensures exact { OnOk result (IsExact session.new) }
    ensures keeps { IsExact session.old → IsExact session.new }
    ensures session { OnlyExtends session.old session.new }
    ensures refusal { IfErr result (IsWaitRefusal session.new) }
    ensures unmarked { IfErr result (IsEndedUnmarked commits session.new) }
{
    let answer = volatile.wait_step(rt, session, commits);
    if is_end(&answer) {
        volatile.wait_step(rt, session, CommitCount::default())?;
    }
    answer
}

// True if the answer is that the journal goes on no more.
fn is_end<T, C>(answer: &Result<T, Refusal<C>>) -> bool
    ensures { IsTrue result ↔ IsErrAnd answer.now HasEnded }
{
    matches!(answer, Err(Refusal::Closed(_) | Refusal::DeviceFailed(_)))
}

// Asks the volatile part whether all commits that the session has seen are marked, and notes it. If
// not, the session stays as it was, so that the same commits are asked for again.
fn flush_step<'b, R: MapRule, J: Naming, W: Wait>(
    rt: &W,
    volatile: &mut Volatile<'b, R, J>,
    session: &mut Session<'b, J, R>,
) -> Result<Option<StableNote<'b, J, R>>, JournalRefusal<'b, J, R>>
    ensures stable { IfOk result (λ noted. IfSome noted (λ note. IsStable (count session.old.seen) note session.new)) }
    ensures exact { IfOk result (λ noted. IsSome noted → IsExact session.new) }
    ensures stays { IfOk result (λ noted. IsNone noted → session.new ≡ session.old) }
    ensures session { OnlyExtends session.old session.new }
    ensures refusal { IfErr result (IsWaitRefusal session.new) }
    ensures unmarked { IfErr result (IsEndedUnmarked (count session.old.seen) session.new) }
{
    if !volatile.flush_step(rt, session)? {
        return Ok(None);
    }
    Ok(Some(StableNote::new(&session.front(), volatile.floor())))
}
