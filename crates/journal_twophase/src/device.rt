// The disk's lock: device calls, the holds of both parts, and commits, which may have to fetch.
//
// A hold of the disk's lock makes at most one device call that changes the disk. Once that call is
// over the hold may take the memory lock inside: to cut, to mark, to trim, or to note that the
// device failed.
ghost use Rattle.std.specs.Prelude.{true, ◌≡◌, ◌≢◌, ◌<◌, [], length, IsTrue, IsOkUnless, IfOk, IfErr, OnOk, OnErr, MatchResult, All};
ghost use Rattle.journal_world.specs.Addresses.{is_valid};
ghost use Rattle.journal_world.specs.Maps.{Map, Agrees, overwritten};
ghost use Rattle.journal_world.specs.Histories.{is_trusted};
ghost use Rattle.journal_object.specs.Objects.{size_at};
ghost use Rattle.journal_disk.specs.Disks.{IsSettled};
ghost use Rattle.journal_disk.specs.Images.{EveryImage};
ghost use Rattle.journal_circ.specs.Mending.{IsMendable};
ghost use Rattle.journal_history.specs.Tokens.{OnlyExtends};
ghost use Rattle.journal_parts.specs.Cores.{Leaves};
ghost use Rattle.journal_parts.specs.Durables.{disk_of, is_faulted};
ghost use Rattle.journal_memory.specs.SlotCounts.{AgreeUpTo, AreUnder};
ghost use Rattle.journal_twophase.specs.Journals.{IsLogRefusal, IsInstallRefusal, IsFetchRefusal, IsCloseRefusal, IsImageRefusal};
ghost use Rattle.journal_twophase.specs.Transactions.{KeepsHeld, ReadsObject, IsCheckRefusal};
ghost use Rattle.journal_twophase.specs.Commits.{IsCommitted, ShowsFence, IsTryRefusal, IsRefusedWhenFull};

use crate::journal::{DiskLeft, RefusedClose};
use crate::locked_parts::{
    AnsweredCommit, JournalRefusal, LockedParts, UnderMemoryLock, WhenFull, is_past_threshold,
};
use crate::spent::SpentTransaction;
use journal_block::Block;
use journal_disk::{BlockDisk, MemDisk};
use journal_history::{Naming, Receipt, Session};
use journal_lockmap::Held;
use journal_memory::{
    Cause, CommitStep, Fetched, ReadResult, Spares, Transaction, Volatile, fetch_buffers,
};
use journal_parts::{
    Durable, InstallCall, InstallFault, InstallStep, LogCall, LogStep, RestingLog, Stat,
    UnnotedFault,
};
use journal_world::{Addr, MapRule, Refusal};
use std::rt::Clock;
use std::sync::atomic::Ordering;
use std::sync::{MutexGuard, Wait};

impl<'b, D: BlockDisk, R: MapRule, J: Naming> LockedParts<'b, D, R, J> {
    // Makes the next step of the logger.
    pub(crate) fn log_step<W: Wait>(&self, rt: &W) -> Result<LogStep, JournalRefusal<'b, J, R>>
        ensures { IfErr result IsLogRefusal }
    {
        let answer = self.log_call(rt);
        self.wake_after_step(rt, &answer);
        answer
    }

    // Makes the next step of the logger once the group is full: as many threads have committed as
    // the last mark woke, or have had their time to. No thread that waits for a mark makes the
    // logger's steps then. Without this wait the first of these threads that commits again would
    // have a group for itself, and the others would wait for the next.
    pub(crate) fn log_step_grouped<W: Wait + Clock>(
        &self,
        rt: &W,
    ) -> Result<LogStep, JournalRefusal<'b, J, R>>
        ensures { IfErr result IsLogRefusal }
    {
        self.wait_for_group(rt);
        self.log_step(rt)
    }

    // Makes the device call of the group in flight that is due, or if none is in flight does the
    // work of both parts that is due.
    pub(crate) fn log_call<W: Wait>(&self, rt: &W) -> Result<LogStep, JournalRefusal<'b, J, R>>
        ensures { IfErr result IsLogRefusal }
    {
        let mut durable = self.durable.lock(rt);
        self.check_step(rt)?;
        match durable.log_call() {
            Ok(LogCall::Put) => Ok(LogStep::Put),
            Ok(LogCall::Logged) => Ok(LogStep::Logged),
            Ok(LogCall::AtRest(rest)) => self.mark_or_cut(rt, &mut durable, rest),
            Err(fault) => Err(self.note_fault(rt, &durable, fault)),
        }
    }

    // Marks, cuts, or is idle, in a hold of both locks. The threads that a mark is about to wake
    // are counted in the same hold. After a cut the logger waits for no thread.
    fn mark_or_cut<W: Wait>(
        &self,
        rt: &W,
        durable: &mut Durable<'b, D, R, J>,
        rest: RestingLog,
    ) -> Result<LogStep, JournalRefusal<'b, J, R>>
        ensures { IfErr result IsLogRefusal }
    {
        let mut memory = self.lock_memory(rt);
        let answer = durable.mark_or_cut(&mut memory.volatile, rest);
        let commits = memory.volatile.commits();
        match answer {
            Ok(LogStep::Marked(_)) => {
                memory.waiters.wake(commits);
                self.group_in_flight.set(false);
            }
            Ok(LogStep::Cut) => {
                memory.waiters.cut();
                self.group_in_flight.set(true);
            }
            _ => {}
        }
        answer
    }

    // Wakes the threads that a step of the logger concerns, and all threads if no other step can
    // follow it.
    pub(crate) fn wake_after_step<W: Wait>(
        &self,
        rt: &W,
        answer: &Result<LogStep, JournalRefusal<'b, J, R>>,
    ) {
        match answer {
            Ok(LogStep::Cut) => self.room.notify_all(),
            Ok(LogStep::Marked(_)) => self.marked.notify_all(),
            Ok(LogStep::Logged) if is_past_threshold(&self.memory.lock(rt)) => self
                .installing
                .notify_all(),
            Err(Refusal::Stale(_)) => self.wake_all(),
            _ => self.wake_after_fault(answer),
        }
    }

    // Makes the next step of the installer.
    pub(crate) fn install_step<W: Wait>(
        &self,
        rt: &W,
    ) -> Result<InstallStep, JournalRefusal<'b, J, R>>
        ensures { IfErr result IsInstallRefusal }
    {
        let answer = self.install_call(rt);
        if matches!(answer, Ok(InstallStep::Freed(_))) {
            self.logging.notify_all();
            self.group_full.notify_all();
        }
        self.wake_after_fault(&answer);
        answer
    }

    // Makes the installer's next device call. Blocks that are then at home are dropped from memory.
    // One device call a hold, also beside a thread that makes the logger's steps. Up to sixteen in
    // one hold made 1.01 to 1.02 times as many commits, which is too little for a second kind of
    // hold; an installer that waits while a thread leads 0.98 to 1.03.
    fn install_call<W: Wait>(&self, rt: &W) -> Result<InstallStep, JournalRefusal<'b, J, R>>
        ensures { IfErr result IsInstallRefusal }
    {
        let mut durable = self.durable.lock(rt);
        self.check_step(rt)?;
        match durable.install_call() {
            Ok(InstallCall::Idle) => Ok(InstallStep::Idle),
            Ok(InstallCall::Put) => Ok(InstallStep::Put),
            Ok(InstallCall::Freed(freed)) => {
                let mut memory = self.memory.lock(rt);
                memory.log_start = freed.upto();
                Ok(durable.trim(&mut memory.volatile, freed))
            }
            Err(InstallFault::NoMemory) => Err(Refusal::NoMemory),
            Err(InstallFault::Failed(fault)) => Err(self.note_fault(rt, &durable, fault)),
        }
    }

    // Makes the next step of the installer if the log is past its threshold, and is idle otherwise.
    pub(crate) fn install_past_threshold<W: Wait>(
        &self,
        rt: &W,
    ) -> Result<InstallStep, JournalRefusal<'b, J, R>>
        ensures { IfErr result IsInstallRefusal }
    {
        if self.has_install_work(rt) {
            return self.install_step(rt);
        }
        Ok(InstallStep::Idle)
    }

    // Reads an object, and fetches its block if memory still lacks it. The disk's lock is held from
    // the fetch to the next look in memory. So if several threads need one block, the first fetches
    // it for all. A block that was fetched and used is kept in memory.
    pub(crate) fn read_fetched<W: Wait>(
        &self,
        rt: &W,
        transaction: &Transaction<'b, J, R>,
        held: &mut [Held<J>],
        known: usize,
        addr: Addr,
        nothing: Fetched<'b, J, R>,
        into: &mut Vec<u8>,
    ) -> Result<ReadResult<'b, J, R>, JournalRefusal<'b, J, R>>
        requires valid { IsTrue (is_valid J.layout addr) }
        requires below { addr.block < J.layout.blocks }
        requires under { AreUnder J.layout held.old transaction.now.seen transaction.now.reads }
        requires known { AgreeUpTo J.layout transaction.now.seen known held.old }
        requires size { length into.old.items ≡ size_at J.layout addr }
        ensures read { IfOk result (ReadsObject J.layout transaction.now addr held.new into.new.items) }
        ensures held { held.new ≡ held.old }
        ensures refusal { IfErr result (IsCheckRefusal transaction.now) }
    {
        let mut fetched = nothing;
        let mut durable = self.durable.lock(rt);
        for _ in rt.forever() {
            if let Some(found) = self.read_with(
                rt,
                transaction,
                held,
                known,
                addr,
                fetched,
                into,
            )? {
                return Ok(found);
            }
            fetched = self.fetch(rt, &mut durable, &[addr.block])?;
        }
        unreachable!()
    }

    // Commits under the memory lock, which is held in the end. Blocks that it needs and memory
    // lacks are fetched first. One that waits for room is tried again in each hold of the lock
    // after a cut. The transaction is spent, so no caller commits it a second time.
    pub(crate) fn commit_under<'s, W: Wait>(
        &'s self,
        rt: &W,
        session: &mut Session<'b, J, R>,
        transaction: Transaction<'b, J, R>,
        held: &mut [Held<J>],
        spares: &mut Spares,
        when_full: WhenFull,
    ) -> AnsweredCommit<'s, 'b, R, J>
        requires rule { (m : Map) → m.layout ≡ J.layout → R.statement m → Agrees m transaction.reads
            → R.statement (overwritten m transaction.writes) }
        requires held { KeepsHeld J.layout held.old transaction }
        ensures committed { IfOk result.answer (IsCommitted R.statement J.layout transaction.entry.seen transaction.entry session.old session.new) }
        ensures refusal { IfErr result.answer (IsRefusedWhenFull when_full transaction.entry session.old) }
        ensures fenced { IfErr result.answer (ShowsFence session.new) }
        ensures session { OnErr result.answer (OnlyExtends session.old session.new) }
        ensures held { OnErr result.answer (held.new ≡ held.old) }
    {
        let mut memory = self.lock_memory(rt);
        let mut has_waited = false;
        for _ in rt.forever() {
            let nothing = self.empty_fetch(&transaction);
            let step = memory
                .volatile
                .commit(rt, session, &transaction, held, spares, &nothing);
            // Called for its contract: the history that the session has then seen is sound.
            let _seen = session.seen();
            let (guard, answer) = match step {
                Ok(CommitStep::Done(receipt)) => (memory, Ok(receipt)),
                Ok(CommitStep::Missing(_blocks)) => {
                    drop(memory);
                    self.commit_fetched(rt, session, &transaction, held, spares)
                }
                Err(why) => (memory, Err(why)),
            };
            if when_full.waits(&answer) {
                memory = self.await_room(rt, guard, &mut has_waited);
            } else {
                return AnsweredCommit {
                    memory: guard,
                    answer,
                    spent: SpentTransaction::new(transaction),
                };
            }
        }
        unreachable!()
    }

    // Waits for room, which a cut makes. A commit that waits again is counted once.
    fn await_room<'s, W: Wait>(
        &'s self,
        rt: &W,
        memory: MutexGuard<'s, UnderMemoryLock<'b, R, J>>,
        has_waited: &mut bool,
    ) -> MutexGuard<'s, UnderMemoryLock<'b, R, J>>
        ensures noted { has_waited.new ≡ true }
    {
        if !*has_waited {
            *has_waited = true;
            self.room_waits.fetch_add(1, Ordering::SeqCst);
        }
        self.room.wait(rt, memory)
    }

    // Commits, and fetches the blocks that memory still lacks, as `read_fetched` does. The memory
    // lock is held in the end. It is lent the transaction, so `commit_under` alone calls it.
    fn commit_fetched<'s, W: Wait>(
        &'s self,
        rt: &W,
        session: &mut Session<'b, J, R>,
        transaction: &Transaction<'b, J, R>,
        held: &mut [Held<J>],
        spares: &mut Spares,
    ) -> (
        MutexGuard<'s, UnderMemoryLock<'b, R, J>>,
        Result<Receipt<'b, J, R>, JournalRefusal<'b, J, R>>,
    )
        requires rule { (m : Map) → m.layout ≡ J.layout → R.statement m → Agrees m transaction.now.reads
            → R.statement (overwritten m transaction.now.writes) }
        requires held { KeepsHeld J.layout held.old transaction.now }
        ensures committed { IfOk result.1 (IsCommitted R.statement J.layout transaction.now.seen transaction.now session.old session.new) }
        ensures refusal { IfErr result.1 (IsTryRefusal transaction.now session.old) }
        ensures fenced { IfErr result.1 (ShowsFence session.new) }
        ensures session { OnErr result.1 (OnlyExtends session.old session.new) }
        ensures held { OnErr result.1 (held.new ≡ held.old) }
    {
        let mut fetched = self.empty_fetch(transaction);
        let mut durable = self.durable.lock(rt);
        for _ in rt.forever() {
            let mut memory = self.memory.lock(rt);
            let answer = memory
                .volatile
                .commit(rt, session, transaction, held, spares, &fetched);
            // Called for its contract: the history that the session has then seen is sound.
            let _seen = session.seen();
            let missing = match answer {
                Ok(CommitStep::Missing(blocks)) => blocks,
                Ok(CommitStep::Done(receipt)) => {
                    memory.volatile.keep(fetched);
                    return (memory, Ok(receipt));
                }
                Err(why) => return (memory, Err(why)),
            };
            drop(memory);
            match self.fetch(rt, &mut durable, &missing) {
                Ok(blocks) => fetched = blocks,
                Err(why) => return (self.memory.lock(rt), Err(why)),
            }
        }
        unreachable!()
    }

    // Reads blocks as they are logged. Answers J1, and J6 if the device failed in this call or
    // before.
    pub(crate) fn fetch<W: Wait>(
        &self,
        rt: &W,
        durable: &mut Durable<'b, D, R, J>,
        blocks: &[u64],
    ) -> Result<Fetched<'b, J, R>, JournalRefusal<'b, J, R>>
        requires below { All (λ b. b < J.layout.blocks) blocks.now }
        ensures refusal { IfErr result IsFetchRefusal }
    {
        match durable.fetch(fetch_buffers(self.alloc, blocks)?) {
            Ok(fetched) => Ok(fetched),
            Err(fault) => Err(self.note_fault(rt, durable, fault)),
        }
    }

    // Notes in memory that a device call failed, in the same hold of the disk's lock, and gives the
    // refusal.
    fn note_fault<W: Wait>(
        &self,
        rt: &W,
        durable: &Durable<'b, D, R, J>,
        fault: UnnotedFault<'b, J, R>,
    ) -> JournalRefusal<'b, J, R>
        requires fault { IsTrue (is_faulted durable.now) }
        ensures { result ≡ fault.entry }
    {
        let mut memory = self.memory.lock(rt);
        self.ended.set(true);
        durable.note_fault(&mut memory.volatile, fault)
    }

    // The numbers of commits and of marks, and the log's range on the disk.
    pub(crate) fn stat<W: Wait>(&self, rt: &W) -> Stat {
        let durable = self.durable.lock(rt);
        let memory = self.memory.lock(rt);
        let (start, end) = durable.log_range();
        Stat {
            commits: memory.volatile.commits().get(),
            floor: memory.volatile.floor().get(),
            start: start.get(),
            end: end.get(),
        }
    }

    // How many commits waited for room.
    pub(crate) fn room_waits(&self) -> u64 {
        self.room_waits.load(Ordering::SeqCst)
    }

    // Shows the session the whole history, and gives the disk up. Answers J9.
    pub(crate) fn close(
        self,
        session: &mut Session<'b, J, R>,
    ) -> Result<D, RefusedClose<'b, D, R, J>>
        ensures session { OnlyExtends session.old session.new }
        ensures size { IfOk result (λ disk. (D.state disk).past.size ≡ J.layout.blocks) }
        ensures trusted { IfOk result (λ disk. is_trusted session.new.seen ≡ (D.state disk).honest) }
        ensures images { IfOk result (λ disk. IsTrue (D.state disk).honest → EveryImage (D.state disk).past (Leaves session.new.seen)) }
        ensures mendable { MatchResult result
            (λ disk. IsTrue (D.state disk).honest → IsMendable (D.state disk).past)
            (λ refused. IsTrue (D.state refused.left.disk).honest → IsMendable (D.state refused.left.disk).past) }
        ensures refusal { IfErr result (λ refused. IsCloseRefusal refused.refusal) }
        ensures left_size { IfErr result (λ refused. (D.state refused.left.disk).past.size ≡ J.layout.blocks) }
        ensures left_images { IfErr result (λ refused. IsTrue (D.state refused.left.disk).honest → EveryImage (D.state refused.left.disk).past (Leaves refused.left.front)) }
        ensures begun { IfErr result (λ refused. refused.left.front ≢ []) }
    {
        let (durable, volatile) = self.into_parts();
        match show_images(&durable, &volatile, session) {
            Ok(()) => Ok(durable.into_disk()),
            Err(refusal) => Err(RefusedClose {
                refusal,
                left: disk_left(durable),
            }),
        }
    }

    // Gives the disk up, with the history as far as the disk's part has seen it.
    pub(crate) fn into_disk(self) -> DiskLeft<'b, D, R, J>
        ensures size { (D.state result.disk).past.size ≡ J.layout.blocks }
        ensures images { IsTrue (D.state result.disk).honest → EveryImage (D.state result.disk).past (Leaves result.front) }
        ensures mendable { IsTrue (D.state result.disk).honest → IsMendable (D.state result.disk).past }
        ensures begun { result.front ≢ [] }
    {
        let (durable, _) = self.into_parts();
        disk_left(durable)
    }

    fn into_parts(self) -> (Durable<'b, D, R, J>, Volatile<'b, R, J>) {
        let LockedParts {
            alloc: _,
            durable,
            memory,
            room: _,
            room_waits: _,
            marked: _,
            logging: _,
            group_full: _,
            installing: _,
            ended: _,
            group_in_flight: _,
            led: _,
        } = self;
        let UnderMemoryLock {
            padding: _,
            volatile,
            log_start: _,
            logger: _,
            is_led: _,
            seen_commits: _,
            waiters: _,
        } = memory.into_inner();
        (durable.into_inner(), volatile)
    }
}

impl<'b, R: MapRule, J: Naming> LockedParts<'b, MemDisk, R, J> {
    // Copies a block of the disk as a read of it would.
    pub(crate) fn inspect<W: Wait>(&self, rt: &W, block: u64, into: &mut Block)
        requires { block < J.layout.blocks }
    {
        self.durable.lock(rt).disk().peek(block, into);
    }

    // Each block that has pending writes and their number. Answers J1.
    pub(crate) fn pending<W: Wait>(
        &self,
        rt: &W,
    ) -> Result<Vec<(u64, u64)>, JournalRefusal<'b, J, R>>
        ensures { IsOkUnless result Refusal.NoMemory }
    {
        self.durable.lock(rt).disk().pending()
    }

    // Shows the session the whole history, and makes an image of the disk by this choice. Answers
    // J1 and J9.
    pub(crate) fn image<W: Wait>(
        &self,
        rt: &W,
        session: &mut Session<'b, J, R>,
        choice: &[u32],
    ) -> Result<MemDisk, JournalRefusal<'b, J, R>>
        ensures session { OnlyExtends session.old session.new }
        ensures size { IfOk result (λ image. image.past.size ≡ J.layout.blocks) }
        ensures settled { IfOk result (λ image. IsSettled image.past) }
        ensures stands { IfOk result (λ image. IsTrue (is_trusted session.new.seen) → Leaves session.new.seen image.past.first) }
        ensures images { IfOk result (λ image. IsTrue (is_trusted session.new.seen) → EveryImage image.past (Leaves session.new.seen)) }
        ensures refusal { IfErr result IsImageRefusal }
    {
        let durable = self.durable.lock(rt);
        let memory = self.memory.lock(rt);
        show_images(&durable, &memory.volatile, session)?;
        durable.disk().image(choice)
    }

    // Makes the k-th device call from now on fail.
    pub(crate) fn fail_in<W: Wait>(&self, rt: &W, k: u64) {
        self.durable.lock(rt).fail_in(k);
    }
}

// Gives the disk up, with the history as far as the disk's part has seen it.
fn disk_left<'b, D: BlockDisk, R: MapRule, J: Naming>(
    durable: Durable<'b, D, R, J>,
) -> DiskLeft<'b, D, R, J>
    ensures size { (D.state result.disk).past.size ≡ J.layout.blocks }
    ensures images { IsTrue (D.state result.disk).honest → EveryImage (D.state result.disk).past (Leaves result.front) }
    ensures mendable { IsTrue (D.state result.disk).honest → IsMendable (D.state result.disk).past }
    ensures begun { result.front ≢ [] }
{
    let front = durable.front();
    let disk = durable.into_disk();
    DiskLeft { disk, front }
}

// Shows the session the whole history, whose marks are all the disk's: each image that a crash may
// leave of it opens as the map after a front of the history that the session has then seen. Answers
// J9.
fn show_images<'b, D: BlockDisk, R: MapRule, J: Naming>(
    durable: &Durable<'b, D, R, J>,
    volatile: &Volatile<'b, R, J>,
    session: &mut Session<'b, J, R>,
) -> Result<(), JournalRefusal<'b, J, R>>
    ensures session { OnlyExtends session.old session.new }
    ensures trusted { OnOk result (is_trusted session.new.seen ≡ (disk_of durable.now).honest) }
    ensures images { OnOk result (IsTrue (disk_of durable.now).honest → EveryImage (disk_of durable.now).past (Leaves session.new.seen)) }
    ensures refusal { IfErr result IsCloseRefusal }
{
    match durable.show_disk(volatile, session) {
        Ok(_disk) => Ok(()),
        Err(why) => Err(why),
    }
}
