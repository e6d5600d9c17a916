// The core's two parts, as threads share them: one function for each of their events.
//
// Only this file, `device.rt`, `prefetch.rt`, `scanning.rt` and `waiting.rt` take the memory lock,
// and only `device.rt` and `scanning.rt` take the disk's. Neither a part nor a guard of it leaves
// these five. The contracts speak of sessions, transactions and receipts, because no fact of a part
// stays true after its lock is released.
ghost use Rattle.std.specs.Prelude.{◌≡◌, ◌≢◌, ◌↔◌, ◌<◌, ◌≤◌, ◌⊎◌, true, false, length, IsTrue, IfOk, IfErr, IsErrAnd, IfSome, OnOk, OnErr, All};
ghost use Rattle.journal_world.specs.Addresses.{is_valid};
ghost use Rattle.journal_world.specs.Files.{shape};
ghost use Rattle.journal_world.specs.Maps.{Map, Agrees, overwritten};
ghost use Rattle.journal_object.specs.Objects.{size_at};
ghost use Rattle.journal_world.specs.Histories.{count, is_fenced};
ghost use Rattle.journal_disk.specs.Disks.{IsSettled};
ghost use Rattle.journal_history.specs.Tokens.{made, IsExact, OnlyExtends};
ghost use Rattle.journal_memory.specs.SlotCounts.{AgreeUpTo, AreUnder};
ghost use Rattle.journal_memory.specs.Volatiles.{HasNothingToLog};
ghost use Rattle.journal_parts.specs.Openings.{HasWellFormedLog, IsLayoutRefusal, OnlyReadsDisk};
ghost use Rattle.journal_twophase.specs.Journals.{BeginsWith, IsSessionRefusal, IsFenceRefusal};
ghost use Rattle.journal_twophase.specs.Loggers.{IsWakeFrom};
ghost use Rattle.journal_twophase.specs.Transactions.{KeepsHeld, ReadsObject, IsCheckRefusal, IsEndRefusal};
ghost use Rattle.journal_twophase.specs.Commits.{IsCommitted, ShowsFence, IsAwaited, IsRefusedWhenFull};
ghost use Rattle.journal_twophase.specs.declared.waiters.TheConstants.{FEW};

use crate::hint::Hint;
use crate::spent::SpentTransaction;
use crate::waiters::MarkWaiters;
use journal_disk::BlockDisk;
use journal_history::{Book, Front, Naming, Receipt, Session};
use journal_lockmap::{Held, SlotCell, Slots};
use journal_memory::{Cause, Fetched, ReadResult, Spares, Transaction, Volatile};
use journal_parts::{Durable, open_parts};
use journal_world::{
    Addr, CommitCount, Layout, MapRule, Position, Refusal, Refused, SessionNumber,
};
use std::alloc::Global;
use std::hint::spin_loop;
use std::rt::Clock;
use std::sync::atomic::AtomicU64;
use std::sync::{Condvar, CondvarTimeouts, Mutex, MutexGuard, Wait};
use std::time::Duration;

/// Why a journal refuses.
pub type JournalRefusal<'b, J, R> = Refusal<Cause<'b, J, R>>;

// The state under the memory lock. No thread that holds the lock waits for a device.
#[derive(Drop)]
pub(crate) struct UnderMemoryLock<'b, R: MapRule, J: Naming> {
    // Keeps the lock's word and the state under it on separate cache lines: each thread that tries
    // the lock takes the word's line from the holder, which writes the other lines.
    pub(crate) padding: [u64; PADDING_WORDS],
    pub(crate) volatile: Volatile<'b, R, J>,
    // The start of the log on the disk. Updates that were in the log at its opening are in no part
    // of memory, but take room.
    pub(crate) log_start: Position,
    pub(crate) logger: LoggerState,
    // True while a thread that waits for a mark makes the logger's steps, up to a mark.
    pub(crate) is_led: bool,
    // The number of commits at the logger's last look.
    pub(crate) seen_commits: CommitCount,
    // The threads that wait for a mark.
    pub(crate) waiters: MarkWaiters,
}

// How a commit acts while the log's tail has no room.
#[derive(Clone, Copy, Drop)]
pub(crate) enum WhenFull {
    // It waits for the room that a cut makes.
    Wait,
    // It is refused by J12.
    Refuse,
}

impl WhenFull {
    // True if a commit with this answer waits for room, to be tried again.
    pub(crate) fn waits<T, C>(self, answer: &Result<T, Refusal<C>>) -> bool
        ensures { IsTrue result ↔ IsErrAnd answer.now (IsAwaited self) }
    {
        match answer {
            Ok(_) => false,
            Err(refusal) => matches!(self, WhenFull::Wait) && matches!(refusal, Refusal::Full(_)),
        }
    }
}

// A commit that was answered, and the memory lock, still held.
#[derive(Drop)]
pub(crate) struct AnsweredCommit<'s, 'b, R: MapRule, J: Naming> {
    pub(crate) memory: MutexGuard<'s, UnderMemoryLock<'b, R, J>>,
    pub(crate) answer: Result<Receipt<'b, J, R>, JournalRefusal<'b, J, R>>,
    pub(crate) spent: SpentTransaction<'b, J, R>,
}

// The state of the logger. While it does not step, a thread that waits for a mark may make its
// steps.
#[derive(Clone, Copy, Drop)]
pub(crate) enum LoggerState {
    // It makes a step, or is between two of them.
    Steps,
    // It sleeps until there is something to do, and no thread woke it yet.
    Sleeps,
    // It waits for a while, and no thread ended that wait yet.
    Delays,
    // It was woken, and has not had the lock again.
    Woken,
}

// The wait from which the logger has to be woken.
#[derive(Clone, Copy, Drop)]
pub(crate) enum LoggerWake {
    None,
    // There is something to do.
    Work,
    // The next group is full.
    GroupFull,
}

impl<'b, R: MapRule, J: Naming> UnderMemoryLock<'b, R, J> {
    // Which condition variable to notify after a commit that no thread waits for yet. The caller
    // must notify it: the flag is cleared here, and the next commit does not notify it again.
    pub(crate) fn wake_after<T>(
        &mut self,
        answer: &Result<T, JournalRefusal<'b, J, R>>,
    ) -> LoggerWake
        ensures { IsWakeFrom self.old.logger result self.new.logger }
    {
        match self.logger {
            _ if answer.is_err() => LoggerWake::None,
            LoggerState::Sleeps if may_log(self) => self.wake(LoggerWake::Work),
            LoggerState::Delays if self.has_full_group() => self.wake(LoggerWake::GroupFull),
            _ => LoggerWake::None,
        }
    }

    // Notes that the logger is woken.
    fn wake(&mut self, wake: LoggerWake) -> LoggerWake
        ensures same { result ≡ wake }
        ensures woken { self.new.logger ≡ LoggerState.Woken }
    {
        self.logger = LoggerState::Woken;
        wake
    }

    // True if the logger waits and no other thread makes its steps.
    fn is_unled(&self) -> bool
        ensures rests { IsTrue result → self.now.logger ≢ LoggerState.Steps }
        ensures alone { IsTrue result → self.now.is_led ≡ false }
    {
        !self.is_led && !matches!(self.logger, LoggerState::Steps)
    }

    // True if all awaited threads have come, and there is something to log.
    fn has_whole_group(&self) -> bool
        ensures work { IsTrue result → HasNothingToLog self.now.volatile self.now.log_start → ⊥ }
        ensures come { IsTrue result → (self.now.waiters.awaited ≤ self.now.waiters.asleep) ⊎ (self.now.waiters.enough ≤ count self.now.volatile.ledger.history) }
    {
        !self.waiters.should_delay(self.volatile.commits())
            && !self.volatile.has_nothing_to_log(self.log_start)
            && self.volatile.check_running().is_ok()
    }

    // True if the next group is one for which a waiting thread may make the logger's steps: few
    // threads are awaited, and if they are several, they wrote few blocks.
    fn is_small_group(&self) -> bool
        ensures few { IsTrue result → self.now.waiters.awaited ≤ FEW }
    {
        self.waiters.may_be_led()
            && (!self.waiters.are_several() || self.volatile.tail_len() <= FEW_BLOCKS)
    }

    // True if a thread that is about to sleep until a mark makes the logger's steps. It is the last
    // of the awaited threads, and the group is small.
    pub(crate) fn may_lead(&self) -> bool
        ensures rests { IsTrue result → self.now.logger ≢ LoggerState.Steps }
        ensures alone { IsTrue result → self.now.is_led ≡ false }
        ensures few { IsTrue result → self.now.waiters.awaited ≤ FEW }
        ensures work { IsTrue result → HasNothingToLog self.now.volatile self.now.log_start → ⊥ }
        ensures come { IsTrue result → (self.now.waiters.awaited ≤ self.now.waiters.asleep) ⊎ (self.now.waiters.enough ≤ count self.now.volatile.ledger.history) }
    {
        self.is_unled() && self.is_small_group() && self.has_whole_group()
    }

    // Which condition variable to notify before a thread sleeps until a mark, or after it made the
    // logger's steps. The logger makes the steps of many threads, and watches over threads of which
    // some come too late or not at all. The caller must notify it.
    pub(crate) fn wake_to_watch(&mut self) -> LoggerWake
        ensures { IsWakeFrom self.old.logger result self.new.logger }
    {
        match self.logger {
            LoggerState::Sleeps if self.is_to_watch() => self.wake(LoggerWake::Work),
            LoggerState::Delays if self.has_full_group() || self.is_for_logger() => {
                self.wake(LoggerWake::GroupFull)
            }
            _ => LoggerWake::None,
        }
    }

    // True if no thread makes the logger's steps, and there is something to log or several threads
    // wait or are awaited.
    fn is_to_watch(&self) -> bool {
        !self.is_led && (self.waiters.are_several() || may_log(self))
    }

    // True if all awaited threads have come, no thread makes the logger's steps, and the group is
    // not small.
    fn is_for_logger(&self) -> bool {
        !self.is_led && !self.is_small_group() && self.has_whole_group()
    }

    // True if the logger has something to do that no other thread does, or would be refused.
    fn has_log_work(&self) -> bool {
        self.volatile.check_running().is_err() || (!self.is_led && may_log(self))
    }

    // How long the logger waits before it looks again, or none if it makes its next step.
    fn pause(&mut self) -> Option<Duration> {
        let seen = self.seen_commits;
        self.seen_commits = self.volatile.commits();
        if self.is_logger_due(seen) {
            return None;
        }
        let micros = if self.waiters.are_several() {
            GROUP_DELAY_MICROS
        } else {
            UNAWAITED_DELAY_MICROS
        };
        Some(Duration::from_micros(micros))
    }

    // True if the logger makes its next step, where `seen` commits had come at its last look. It
    // logs the commits of that look, whichever threads are missing. While commits come it does not
    // go to sleep, so that no commit has to wake it.
    fn is_logger_due(&self, seen: CommitCount) -> bool {
        if self.volatile.check_running().is_err() {
            return true;
        }
        if self.is_led {
            return false;
        }
        let commits = self.volatile.commits();
        if self.volatile.has_nothing_to_log(self.log_start) {
            return commits <= seen;
        }
        let have_come = !self.waiters.are_none() && !self.waiters.should_delay(commits);
        have_come || self.volatile.floor() < seen || self.has_full_group()
    }

    // True if there are enough blocks to cut that the group is delayed no more. With fewer there is
    // room for any commit.
    fn has_full_group(&self) -> bool {
        self.volatile.tail_len() >= GROUP_BLOCKS
    }
}

/// The core of a journal, a part under each of two locks.
///
/// There is one condition variable for each reason to wait, so that no thread is woken for
/// another's reason. All belong to the memory lock, so that no waiting thread has the disk's. Each
/// is notified after unlocking, unless the notifying thread is about to wait itself and still holds
/// the lock.
#[derive(Drop)]
pub(crate) struct LockedParts<'b, D: BlockDisk, R: MapRule, J: Naming> {
    pub(crate) alloc: Global,
    // Order of locks: `durable`, then `memory`. A thread that has `memory` takes neither.
    //
    // Between any two holds the two parts are as `IsBetween` of journal_parts says: `IsDurable`,
    // `IsVolatile`, and `Tied`, which no type keeps, but each hold of both does.
    //
    // The disk's lock. Invariant: `IsDurable`.
    pub(crate) durable: Mutex<Durable<'b, D, R, J>>,
    // The memory lock. Invariant: `IsVolatile` of its `volatile`.
    pub(crate) memory: Mutex<UnderMemoryLock<'b, R, J>>,
    // A commit waits for room in the log's tail, which a cut makes.
    pub(crate) room: Condvar,
    // How many commits waited for it.
    pub(crate) room_waits: AtomicU64,
    // A commit that has to be stable waits for its mark.
    pub(crate) marked: Condvar,
    // The logger waits for a commit, or for free positions.
    pub(crate) logging: Condvar,
    // The logger waits for a while: until as many commits have come as a mark woke threads, or as
    // many of them sleep again; until a group that no thread waits for has grown; or while another
    // thread makes its steps.
    pub(crate) group_full: Condvar,
    // The installer waits for a log past its threshold.
    pub(crate) installing: Condvar,
    // The journal was stopped, or the device failed. Set before the memory lock is released under
    // which the end was noted. A step that reads it unset is ordered before the end.
    pub(crate) ended: Hint,
    // A group is cut and not marked. Meanwhile the logger does not wait, because the group's
    // commits wait for it.
    pub(crate) group_in_flight: Hint,
    // A thread that waits for a mark makes the logger's steps. Copies `is_led` under the memory
    // lock.
    pub(crate) led: Hint,
}

// The result of an opening: the core, the history that it begins with, and the slots, all free.
#[derive(Drop)]
pub(crate) struct OpenedCore<'b, D: BlockDisk, R: MapRule, J: Naming> {
    pub(crate) core: LockedParts<'b, D, R, J>,
    pub(crate) start: Front<'b, J, R>,
    pub(crate) slots: Slots<J>,
}

impl<'b, D: BlockDisk, R: MapRule, J: Naming> LockedParts<'b, D, R, J> {
    // Opens a disk as `open_parts` does.
    pub(crate) fn open(
        alloc: Global,
        book: &'b Book<R>,
        cell: SlotCell,
        layout: Layout,
        disk: D,
        rule: &R,
        copies: usize,
    ) -> Result<OpenedCore<'b, D, R, J>, Refused<D, Cause<'b, J, R>>>
        requires some { 0 < copies }
        requires book { book.now ≡ J.book }
        requires cell { cell ≡ J.cell }
        requires layout { shape layout ≡ J.layout }
        requires settled { IsTrue (D.state disk).honest → IsSettled (D.state disk).past }
        ensures begun { IfOk result (λ opened. BeginsWith R.statement J.layout (D.state disk) opened.start) }
        ensures well_formed { IsTrue (D.state disk).honest → OnOk result (HasWellFormedLog (D.state disk)) }
        ensures refusal { IfErr result (λ refused. IsLayoutRefusal R.statement J.layout (D.state disk) (D.state refused.disk) refused.refusal) }
        ensures left { IfErr result (λ refused. OnlyReadsDisk (D.state disk) (D.state refused.disk)) }
    {
        let (durable, volatile, slots) = open_parts(alloc, book, cell, layout, disk, rule, copies)?;
        let start = volatile.front();
        let (log_start, _) = durable.log_range();
        let core = LockedParts {
            alloc,
            durable: Mutex::new(durable),
            memory: Mutex::new(UnderMemoryLock {
                padding: [0; PADDING_WORDS],
                volatile,
                log_start,
                logger: LoggerState::Steps,
                is_led: false,
                seen_commits: CommitCount::new(0),
                waiters: MarkWaiters::default(),
            }),
            room: Condvar::new(),
            room_waits: AtomicU64::new(0),
            marked: Condvar::new(),
            logging: Condvar::new(),
            group_full: Condvar::new(),
            installing: Condvar::new(),
            ended: Hint::new(),
            group_in_flight: Hint::new(),
            led: Hint::new(),
        };
        Ok(OpenedCore { core, start, slots })
    }

    // The memory lock. A hold of it is shorter than a sleep and a wake, so it is tried for a while
    // before the thread sleeps. No word beside the lock says whether it is free: it would take two
    // more exchanges a hold (not measured). Between two tries a thread pauses longer each time, up
    // to 128 pauses: with at most 64 pipelined GETATTR over four connections make 0.92 times as
    // many calls, with 32 0.87.
    pub(crate) fn lock_memory<W: Wait>(&self, rt: &W) -> MutexGuard<'_, UnderMemoryLock<'b, R, J>> {
        for turn in 0..LOCK_TURNS {
            if let Some(guard) = self.memory.try_lock() {
                return guard;
            }
            for _ in 0..(1u32 << turn.min(7)) {
                spin_loop();
            }
        }
        self.memory.lock(rt)
    }

    // A further session, which has seen the whole history. Answers J11.
    pub(crate) fn session<W: Wait>(
        &self,
        rt: &W,
    ) -> Result<Session<'b, J, R>, JournalRefusal<'b, J, R>>
        ensures made { IfOk result (λ session. made session ≡ 0) }
        ensures exact { IfOk result IsExact }
        ensures unfenced { IfOk result (λ session. is_fenced session.number session.seen ≡ false) }
        ensures refusal { IfErr result IsSessionRefusal }
    {
        self.memory.lock(rt).volatile.session()
    }

    // Fences a session. Answers J13, J6 of an earlier fault, J9, J11 and J1. The threads that wait
    // for room are woken: one may wait under the fenced session, and is then refused.
    pub(crate) fn fence<W: Wait>(
        &self,
        rt: &W,
        session: &mut Session<'b, J, R>,
        target: SessionNumber,
    ) -> Result<(), JournalRefusal<'b, J, R>>
        ensures fenced { OnOk result (is_fenced target session.new.seen ≡ true) }
        ensures refusal { IfErr result IsFenceRefusal }
        ensures session { OnlyExtends session.old session.new }
    {
        let answer = self
            .memory
            .lock(rt)
            .volatile
            .fence_step(rt, session, target);
        self.room.notify_all();
        answer
    }

    // Answers J13 if the core was stopped, J6 if the device failed before, and nothing else.
    pub(crate) fn check_running<W: Wait>(&self, rt: &W) -> Result<(), JournalRefusal<'b, J, R>>
        ensures { IfErr result IsEndRefusal }
    {
        self.memory.lock(rt).volatile.check_running()
    }

    // Answers as `check_running` does, and takes the memory lock only if something may be refused.
    // Each step asks this inside the disk's lock, so a hold of the memory lock would be one for
    // each device call.
    pub(crate) fn check_step<W: Wait>(&self, rt: &W) -> Result<(), JournalRefusal<'b, J, R>>
        ensures { IfErr result IsEndRefusal }
    {
        if self.ended.is_set() {
            return self.check_running(rt);
        }
        Ok(())
    }

    // Refuses a read as `read` does, but for a new J6: J13, J6 of an earlier fault, and J9.
    pub(crate) fn check_read<W: Wait>(
        &self,
        rt: &W,
        transaction: &Transaction<'b, J, R>,
        held: &mut [Held<J>],
        known: usize,
        addr: Addr,
    ) -> Result<(), JournalRefusal<'b, J, R>>
        requires valid { IsTrue (is_valid J.layout addr) }
        requires under { AreUnder J.layout held.old transaction.now.seen transaction.now.reads }
        requires known { AgreeUpTo J.layout transaction.now.seen known held.old }
        ensures held { held.new ≡ held.old }
        ensures refusal { IfErr result (IsCheckRefusal transaction.now) }
    {
        let mut memory = self.memory.lock(rt);
        memory
            .volatile
            .check_read(rt, transaction, held, known, addr)
    }

    // Reads the value that the map gives the address, for the transaction to remember. The held
    // slots agree with the history that it found. It answers J13, J6 of an earlier fault, and J9,
    // then a new J6. If `touches`, the block is then the one that was used last.
    pub(crate) fn read<W: Wait>(
        &self,
        rt: &W,
        transaction: &Transaction<'b, J, R>,
        held: &mut [Held<J>],
        known: usize,
        addr: Addr,
        touches: bool,
        into: &mut Vec<u8>,
    ) -> Result<ReadResult<'b, J, R>, JournalRefusal<'b, J, R>>
        requires valid { IsTrue (is_valid J.layout addr) }
        requires under { AreUnder J.layout held.old transaction.now.seen transaction.now.reads }
        requires known { AgreeUpTo J.layout transaction.now.seen known held.old }
        requires size { length into.old.items ≡ size_at J.layout addr }
        ensures read { IfOk result (ReadsObject J.layout transaction.now addr held.new into.new.items) }
        ensures held { held.new ≡ held.old }
        ensures refusal { IfErr result (IsCheckRefusal transaction.now) }
    {
        let answer = self.read_or_fetch(rt, transaction, held, known, addr, touches, into);
        self.wake_after_fault(&answer);
        answer
    }

    // Reads it from memory, or if memory lacks its block, fetches the block first.
    fn read_or_fetch<W: Wait>(
        &self,
        rt: &W,
        transaction: &Transaction<'b, J, R>,
        held: &mut [Held<J>],
        known: usize,
        addr: Addr,
        touches: bool,
        into: &mut Vec<u8>,
    ) -> Result<ReadResult<'b, J, R>, JournalRefusal<'b, J, R>>
        requires valid { IsTrue (is_valid J.layout addr) }
        requires under { AreUnder J.layout held.old transaction.now.seen transaction.now.reads }
        requires known { AgreeUpTo J.layout transaction.now.seen known held.old }
        requires size { length into.old.items ≡ size_at J.layout addr }
        ensures read { IfOk result (ReadsObject J.layout transaction.now addr held.new into.new.items) }
        ensures held { held.new ≡ held.old }
        ensures refusal { IfErr result (IsCheckRefusal transaction.now) }
    {
        let nothing = self.empty_fetch(transaction);
        match self.read_in(rt, transaction, held, known, addr, touches, &nothing, into)? {
            Some(found) => Ok(found),
            None => self.read_fetched(rt, transaction, held, known, addr, nothing, into),
        }
    }

    // Reads it in one hold of the memory lock. Answers none if its block has to be fetched. A touch
    // of the block writes lines of memory that all threads read, so several reads of one block need
    // one.
    pub(crate) fn read_in<W: Wait>(
        &self,
        rt: &W,
        transaction: &Transaction<'b, J, R>,
        held: &mut [Held<J>],
        known: usize,
        addr: Addr,
        touches: bool,
        fetched: &Fetched<'b, J, R>,
        into: &mut Vec<u8>,
    ) -> Result<Option<ReadResult<'b, J, R>>, JournalRefusal<'b, J, R>>
        requires valid { IsTrue (is_valid J.layout addr) }
        requires under { AreUnder J.layout held.old transaction.now.seen transaction.now.reads }
        requires known { AgreeUpTo J.layout transaction.now.seen known held.old }
        requires size { length into.old.items ≡ size_at J.layout addr }
        requires front { fetched.now.front ≡ transaction.now.seen }
        ensures read { IfOk result (λ found. IfSome found (ReadsObject J.layout transaction.now addr held.new into.new.items)) }
        ensures held { held.new ≡ held.old }
        ensures size { length into.new.items ≡ length into.old.items }
        ensures below { addr.block < J.layout.blocks }
        ensures refusal { IfErr result (IsCheckRefusal transaction.now) }
    {
        let mut memory = self.lock_memory(rt);
        let answer = memory
            .volatile
            .read(rt, transaction, held, known, addr, fetched, into);
        if touches {
            memory.volatile.touch(addr.block);
        }
        answer
    }

    // Reads it as `read_in` does, with the fetched block, and keeps that in memory if it is used.
    // Answers none also if the fetch has seen more of the history than there is, which no fetch
    // from the same core has.
    pub(crate) fn read_with<W: Wait>(
        &self,
        rt: &W,
        transaction: &Transaction<'b, J, R>,
        held: &mut [Held<J>],
        known: usize,
        addr: Addr,
        fetched: Fetched<'b, J, R>,
        into: &mut Vec<u8>,
    ) -> Result<Option<ReadResult<'b, J, R>>, JournalRefusal<'b, J, R>>
        requires valid { IsTrue (is_valid J.layout addr) }
        requires under { AreUnder J.layout held.old transaction.now.seen transaction.now.reads }
        requires known { AgreeUpTo J.layout transaction.now.seen known held.old }
        requires size { length into.old.items ≡ size_at J.layout addr }
        ensures read { IfOk result (λ found. IfSome found (ReadsObject J.layout transaction.now addr held.new into.new.items)) }
        ensures held { held.new ≡ held.old }
        ensures size { length into.new.items ≡ length into.old.items }
        ensures refusal { IfErr result (IsCheckRefusal transaction.now) }
    {
        let mut memory = self.lock_memory(rt);
        memory
            .volatile
            .check_read(rt, transaction, held, known, addr)?;
        match memory
            .volatile
            .read(rt, transaction, held, known, addr, &fetched, into)
        {
            Ok(Some(found)) => {
                memory.volatile.keep(fetched);
                Ok(Some(found))
            }
            Ok(None) => Ok(None),
            Err(_) => Ok(None),
        }
    }

    // The fetch of no block.
    pub(crate) fn empty_fetch(&self, transaction: &Transaction<'b, J, R>) -> Fetched<'b, J, R>
        ensures { result.front ≡ transaction.now.seen }
    {
        Fetched::empty(self.alloc, transaction.front().again())
    }

    // Commits the session's next transaction, and wakes the logger.
    pub(crate) fn commit<W: Wait>(
        &self,
        rt: &W,
        session: &mut Session<'b, J, R>,
        transaction: Transaction<'b, J, R>,
        held: &mut [Held<J>],
        spares: &mut Spares,
        when_full: WhenFull,
    ) -> Result<Receipt<'b, J, R>, JournalRefusal<'b, J, R>>
        requires rule { (m : Map) → m.layout ≡ J.layout → R.statement m → Agrees m transaction.reads
            → R.statement (overwritten m transaction.writes) }
        requires held { KeepsHeld J.layout held.old transaction }
        ensures committed { IfOk result (IsCommitted R.statement J.layout transaction.entry.seen transaction.entry session.old session.new) }
        ensures refusal { IfErr result (IsRefusedWhenFull when_full transaction.entry session.old) }
        ensures fenced { IfErr result (ShowsFence session.new) }
        ensures session { OnErr result (OnlyExtends session.old session.new) }
    {
        let AnsweredCommit {
            mut memory,
            answer,
            spent: _spent,
        } = self.commit_under(rt, session, transaction, held, spares, when_full);
        let wake = memory.wake_after(&answer);
        drop(memory);
        self.wake_logger(wake);
        self.wake_after_fault(&answer);
        answer
    }

    // Wakes the logger from the wait that was ended.
    pub(crate) fn wake_logger(&self, wake: LoggerWake) {
        match wake {
            LoggerWake::Work => self.logging.notify_all(),
            LoggerWake::GroupFull => self.group_full.notify_all(),
            LoggerWake::None => {}
        }
    }

    // Waits until the logger has something to do that no other thread does, or would be refused. It
    // looks at memory alone. Changes of the log on the disk wake it.
    pub(crate) fn await_log_work<W: Wait>(&self, rt: &W) {
        let mut memory = self.memory.lock(rt);
        memory.logger = LoggerState::Sleeps;
        for _ in rt.forever() {
            if memory.has_log_work() || matches!(memory.logger, LoggerState::Woken) {
                memory.logger = LoggerState::Steps;
                return;
            }
            memory = self.logging.wait(rt, memory);
        }
    }

    // Waits while another thread makes the logger's steps, and while a group is growing: until as
    // many threads have committed, or wait for a mark, as the last mark woke. If no thread waits,
    // it waits until the group has many blocks. It looks again and again, but waits at most twice
    // if there is something to log and no other thread logs it. By the clock and not by yields,
    // because on a busy machine a yield may take milliseconds. `log_step` waits for nobody, for
    // callers that make the steps by hand.
    pub(crate) fn wait_for_group<W: Wait + Clock>(&self, rt: &W) {
        if self.group_in_flight.is_set() && !self.led.is_set() {
            return;
        }
        let mut memory = self.memory.lock(rt);
        for _ in rt.forever() {
            let Some(pause) = memory.pause() else {
                break;
            };
            memory.logger = LoggerState::Delays;
            (memory, _) = self.group_full.wait_timeout(rt, memory, pause);
        }
        memory.logger = LoggerState::Steps;
    }

    // Waits until the log is past its threshold, or the installer would be refused.
    pub(crate) fn await_install_work<W: Wait>(&self, rt: &W) {
        let mut memory = self.memory.lock(rt);
        for _ in rt.forever() {
            if may_install(&memory) {
                return;
            }
            memory = self.installing.wait(rt, memory);
        }
    }

    // True if the log is past its threshold, or a step of the installer would be refused.
    pub(crate) fn has_install_work<W: Wait>(&self, rt: &W) -> bool {
        may_install(&self.memory.lock(rt))
    }

    // Stops the core, and wakes all threads.
    pub(crate) fn stop<W: Wait>(&self, rt: &W) {
        let mut memory = self.memory.lock(rt);
        self.ended.set(true);
        memory.volatile.stop();
        drop(memory);
        self.wake_all();
    }

    // Wakes all threads if the device failed.
    pub(crate) fn wake_after_fault<T>(&self, answer: &Result<T, JournalRefusal<'b, J, R>>) {
        if matches!(answer, Err(Refusal::DeviceFailed(_))) {
            self.wake_all();
        }
    }

    pub(crate) fn wake_all(&self) {
        self.room.notify_all();
        self.marked.notify_all();
        self.logging.notify_all();
        self.group_full.notify_all();
        self.installing.notify_all();
    }
}

// How long, in microseconds, the logger waits for woken threads to commit again: a few barriers of
// a fast device, or one round trip of a client.
const GROUP_DELAY_MICROS: u64 = 200;

// Two cache lines, because processors fetch them by pairs.
pub(crate) const PADDING_WORDS: usize = 16;

// How often the memory lock is tried before a thread sleeps.
const LOCK_TURNS: u32 = 40;

// How long, in microseconds, the logger delays a group at most that no thread waits for. A logger
// that cut at once made a group of every few commits, and each took the device, a barrier and the
// memory lock from the clients. The delay is not in `await_log_work`, which has no clock: a caller
// that asks `is_stable` again and again would not see the mark.
const UNAWAITED_DELAY_MICROS: u64 = 1000;

// The number of blocks that ends that delay. A tail takes 255 blocks, and a commit has 128 at most,
// so with fewer blocks none waits for room.
const GROUP_BLOCKS: u64 = 128;

// A group of several threads with more blocks is logged by the logger. A group's blocks are copied
// into memory of the thread that cuts it, and other threads free that. If each group is another
// thread's, much of such memory goes back to the system every time. That the logger makes the steps
// did not change what goes back, so this rule may go.
const FEW_BLOCKS: u64 = 16;

// The installer waits until more positions of the log than this are used. The log has 511
// positions, so a full tail of 255 still fits. More than 256 are at least two groups, so one of
// them is logged and can be installed.
const INSTALL_THRESHOLD: u64 = 256;

// True if the log is so full that positions have to be freed.
pub(crate) fn is_past_threshold<'b, R: MapRule, J: Naming>(
    memory: &UnderMemoryLock<'b, R, J>,
) -> bool {
    memory.volatile.used_positions(memory.log_start) > INSTALL_THRESHOLD
}

// True if the logger has something to do, or would be refused.
fn may_log<'b, R: MapRule, J: Naming>(memory: &UnderMemoryLock<'b, R, J>) -> bool {
    memory.volatile.check_running().is_err()
        || !memory.volatile.has_nothing_to_log(memory.log_start)
}

// True if the log is past its threshold, or the installer would be refused.
fn may_install<'b, R: MapRule, J: Naming>(memory: &UnderMemoryLock<'b, R, J>) -> bool {
    memory.volatile.check_running().is_err() || is_past_threshold(memory)
}
