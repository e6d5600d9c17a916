// The journal, and its calls that belong to no transaction.
ghost use Rattle.std.specs.Prelude.{◌≡◌, ◌≢◌, ◌≤◌, ◌<◌, [], length, true, false, IsTrue, IfOk, IfErr, OnOk, MatchResult, IsOkUnless};
ghost use mathlib.Core.List.{IsPrefix};
ghost use Rattle.journal_world.specs.Addresses.{slot_of};
ghost use Rattle.journal_world.specs.Files.{shape, files};
ghost use Rattle.journal_world.specs.Histories.{is_trusted, is_fenced, count};
ghost use Rattle.journal_disk.specs.Disks.{IsSettled};
ghost use Rattle.journal_disk.specs.Images.{EveryImage};
ghost use Rattle.journal_circ.specs.Mending.{IsMendable};
ghost use Rattle.journal_history.specs.Tokens.{made, IsExact, OnlyExtends};
ghost use Rattle.journal_parts.specs.Cores.{Leaves};
ghost use Rattle.journal_parts.specs.Openings.{HasWellFormedLog, IsInRange, IsLayoutRefusal, IsOpenRefusal, OnlyReadsDisk};
ghost use Rattle.journal_twophase.specs.Journals.{BeginsWith, LeavesFront, IsKnown, IsSessionRefusal, IsFenceRefusal, IsLogRefusal, IsInstallRefusal, IsCloseRefusal, IsImageRefusal};
ghost use Rattle.journal_twophase.specs.Waits.{IsStable, IsWaitRefusal, IsEndedUnmarked};
ghost use Rattle.journal_twophase.specs.Transactions.{begun};
ghost use Rattle.journal_twophase.specs.declared.journal.TheConstants.{MAX_CACHED_BLOCKS};

use crate::locked_parts::{JournalRefusal, LockedParts, OpenedCore};
use crate::txn::Txn;
use journal_block::Block;
use journal_disk::{BlockDisk, MemDisk};
use journal_history::{Book, Front, Naming, Receipt, Session, StableNote};
use journal_lockmap::{LockMap, SlotCell, SlotLocks};
use journal_memory::Cause;
use journal_parts::{InstallStep, LogStep, Stat};
use journal_world::{Addr, Layout, MapRule, Refusal, Refused, SessionNumber, Step};
use std::alloc::Global;
use std::marker::Model;
use std::rt::Clock;
use std::sync::Wait;

/// The most blocks at home of which `Journal::open` keeps copies in memory.
pub const CACHED_BLOCKS: usize = 64;

/// The most copies that `Journal::open_with_cache` keeps: 64 MiB.
pub const MAX_CACHED_BLOCKS: usize = 16384;

/// The rest of a journal that was ended: its disk, as it is, and a front of its history. That has
/// each commit that a crash may leave of the disk, and no mark that the disk lacks.
#[derive(Drop)]
pub struct DiskLeft<'b, D: BlockDisk, R: MapRule, J: Naming> {
    /// The disk.
    pub disk: D,
    /// The history as far as the disk's part of the journal has seen it.
    pub front: Front<'b, J, R>,
}

// Why a journal was not closed, with its disk and history.
#[derive(Drop)]
pub(crate) struct RefusedClose<'b, D: BlockDisk, R: MapRule, J: Naming> {
    pub(crate) refusal: JournalRefusal<'b, J, R>,
    pub(crate) left: DiskLeft<'b, D, R, J>,
}

/// A journal over a disk, lent the book of its history, which threads share by `&`. Contracts see
/// the history at its opening.
#[derive(Drop)]
pub struct Journal<'b, D: BlockDisk, R: MapRule, J: Naming> {
    pub(crate) layout: Layout,
    pub(crate) slots: LockMap<J>,
    pub(crate) core: LockedParts<'b, D, R, J>,
    start: Front<'b, J, R>,
}

impl<'b, D: BlockDisk, R: MapRule, J: Naming> Model for Journal<'b, D, R, J> {
    ghost use Rattle.std.specs.Prelude.{◌≡◌, length};
    ghost use Rattle.journal_world.specs.Files.{shape};
    ghost use Rattle.journal_twophase.specs.Journals.{JournalState};

    ghost Value = { JournalState };

    ghost view = { λ j. record { start = j.start } };

    ghost invariant = { λ j. (shape j.layout ≡ J.layout) × (length j.start ≡ 1) };
}

impl<'b, D: BlockDisk, R: MapRule, J: Naming> Journal<'b, D, R, J> {
    /// Opens a disk on which nothing is pending: begins the book's history with the map that the
    /// disk holds, if the rule admits it. The updates in the disk's log are read into memory, and
    /// nothing is written. Memory keeps copies of at most 64 blocks that are at home.
    ///
    /// # Errors
    /// A refusal gives the disk back, with nothing written, and leaves the book as it was; the cell
    /// is spent. The first that applies is answered; J1 and J6 are answered where they occur.
    /// - `J8 BadSuper`: the number of blocks is out of range.
    /// - `J7 BadLog`: the disk's log is not well formed.
    /// - `J8 BadSuper`: the rule does not hold of the map.
    /// - `J9 Stale`: the book has a history already.
    /// - `J1 NoMemory`: memory is refused.
    /// - `J6 DeviceFailed`: the device fails, or the rule says so.
    pub fn open(
        alloc: Global,
        book: &'b Book<R>,
        cell: SlotCell,
        disk: D,
        rule: &R,
    ) -> Result<Journal<'b, D, R, J>, Refused<D, Cause<'b, J, R>>>
        requires book { book.now ≡ J.book }
        requires cell { cell ≡ J.cell }
        requires layout { J.layout ≡ files (D.state disk).past.size }
        requires settled { IsTrue (D.state disk).honest → IsSettled (D.state disk).past }
        ensures begun { IfOk result (λ journal. BeginsWith R.statement J.layout (D.state disk) journal.start) }
        ensures range { OnOk result (IsInRange (D.state disk)) }
        ensures well_formed { IsTrue (D.state disk).honest → OnOk result (HasWellFormedLog (D.state disk)) }
        ensures refusal { IfErr result (λ refused. IsOpenRefusal R.statement (D.state disk) (D.state refused.disk) refused.refusal) }
        ensures left { IfErr result (λ refused. OnlyReadsDisk (D.state disk) (D.state refused.disk)) }
    {
        Journal::open_with_cache(alloc, book, cell, disk, rule, CACHED_BLOCKS)
    }

    /// Opens a disk as `open` does. Memory keeps at most `cached` copies of blocks that are at
    /// home, from 1 to 16384. Once it has as many, one that was not used for long goes for each
    /// new one. A read or a commit that finds its block there makes no device call. The answers of
    /// reads and commits do not depend on it.
    ///
    /// # Errors
    /// Those of `open`.
    pub fn open_with_cache(
        alloc: Global,
        book: &'b Book<R>,
        cell: SlotCell,
        disk: D,
        rule: &R,
        cached: usize,
    ) -> Result<Journal<'b, D, R, J>, Refused<D, Cause<'b, J, R>>>
        requires some { 1 ≤ cached }
        requires most { cached ≤ MAX_CACHED_BLOCKS }
        requires book { book.now ≡ J.book }
        requires cell { cell ≡ J.cell }
        requires layout { J.layout ≡ files (D.state disk).past.size }
        requires settled { IsTrue (D.state disk).honest → IsSettled (D.state disk).past }
        ensures begun { IfOk result (λ journal. BeginsWith R.statement J.layout (D.state disk) journal.start) }
        ensures range { OnOk result (IsInRange (D.state disk)) }
        ensures well_formed { IsTrue (D.state disk).honest → OnOk result (HasWellFormedLog (D.state disk)) }
        ensures refusal { IfErr result (λ refused. IsOpenRefusal R.statement (D.state disk) (D.state refused.disk) refused.refusal) }
        ensures left { IfErr result (λ refused. OnlyReadsDisk (D.state disk) (D.state refused.disk)) }
    {
        let Some(layout) = Layout::new(disk.size()) else {
            return Err(Refused {
                refusal: Refusal::BadSuper,
                disk,
            });
        };
        Journal::open_layout(alloc, book, cell, layout, disk, rule, cached)
    }

    /// Opens a disk by a layout, as `open_with_cache` does by that of files. The disk does not
    /// record its layout, so each opening needs the same one. Each of its slots takes some 30 bytes
    /// of memory, and 160 if there are at most 1024.
    ///
    /// # Errors
    /// A refusal gives the disk back, with nothing written, and leaves the book as it was; the cell
    /// is spent.
    /// - `J8 BadSuper`: the disk has another number of blocks than the layout.
    /// - All others: those of `open`.
    pub fn open_layout(
        alloc: Global,
        book: &'b Book<R>,
        cell: SlotCell,
        layout: Layout,
        disk: D,
        rule: &R,
        cached: usize,
    ) -> Result<Journal<'b, D, R, J>, Refused<D, Cause<'b, J, R>>>
        requires some { 1 ≤ cached }
        requires most { cached ≤ MAX_CACHED_BLOCKS }
        requires book { book.now ≡ J.book }
        requires cell { cell ≡ J.cell }
        requires layout { shape layout ≡ J.layout }
        requires settled { IsTrue (D.state disk).honest → IsSettled (D.state disk).past }
        ensures begun { IfOk result (λ journal. BeginsWith R.statement J.layout (D.state disk) journal.start) }
        ensures well_formed { IsTrue (D.state disk).honest → OnOk result (HasWellFormedLog (D.state disk)) }
        ensures refusal { IfErr result (λ refused. IsLayoutRefusal R.statement J.layout (D.state disk) (D.state refused.disk) refused.refusal) }
        ensures left { IfErr result (λ refused. OnlyReadsDisk (D.state disk) (D.state refused.disk)) }
    {
        if disk.size() != layout.blocks {
            return Err(Refused {
                refusal: Refusal::BadSuper,
                disk,
            });
        }
        let Ok(slot_locks) = SlotLocks::new(alloc, layout) else {
            return Err(Refused {
                refusal: Refusal::NoMemory,
                disk,
            });
        };
        // Only the core's opening can refuse from here on, so a refusal leaves the book as it was.
        let OpenedCore { core, start, slots } = LockedParts::open(
            alloc, book, cell, layout, disk, rule, cached,
        )?;
        Ok(Journal {
            layout,
            slots: LockMap::new(slot_locks, slots),
            core,
            start,
        })
    }

    /// A session of a number that no session had before. The history has no commit and no fence of
    /// it. It has seen the whole history, which goes on from the journal's opening. The call takes
    /// no memory.
    ///
    /// # Errors
    /// - `J11 Worn`: the number would reach 2^62. Nothing changed.
    pub fn session<W: Wait>(&self, rt: &W) -> Result<Session<'b, J, R>, JournalRefusal<'b, J, R>>
        ensures made { IfOk result (λ session. made session ≡ 0) }
        ensures exact { IfOk result IsExact }
        ensures unfenced { IfOk result (λ session. is_fenced session.number session.seen ≡ false) }
        ensures start { IfOk result (λ session. IsPrefix self.now.start session.seen) }
        ensures known { IfOk result (λ session. IsKnown R.statement J.layout session.seen) }
        ensures refusal { IfErr result IsSessionRefusal }
    {
        let session = self.core.session(rt)?;
        self.prove_begins(&session);
        Ok(session)
    }

    // No clause says that no other session is fenced: above memory the session has then seen other
    // threads' fences too. `did` of `Volatile::fence_step` says it of the hold.
    /// Fences a session by its number, by an entry of the history, if it has no fence yet. None of
    /// its commits is added from then on, and no session gets the number. Reads and aborts go on.
    /// The session that is lent has then seen the fence. It may be the one that is fenced. A commit
    /// under the fenced number that waits for room is refused by J14 `Fenced`. The call adds this
    /// fence alone, and no other session's.
    ///
    /// Sessions have later numbers than any that is fenced: after a fence of 2^62 - 1, the greatest
    /// number that can be fenced, each later `session` answers J11 `Worn`.
    ///
    /// # Errors
    /// The first that applies is answered. No fence is then added.
    /// - `J13 Closed`: the journal was stopped.
    /// - `J6 DeviceFailed`: the device failed before.
    /// - `J9 Stale`: the history is longer than the core's.
    /// - `J11 Worn`: it has no fence yet, and the history's length or the number to fence would
    ///   reach 2^62.
    /// - `J1 NoMemory`: memory is refused.
    pub fn fence<W: Wait>(
        &self,
        rt: &W,
        session: &mut Session<'b, J, R>,
        target: u64,
    ) -> Result<(), JournalRefusal<'b, J, R>>
        ensures fenced { OnOk result (is_fenced target session.new.seen ≡ true) }
        ensures refusal { IfErr result IsFenceRefusal }
        ensures session { OnlyExtends session.old session.new }
    {
        self.core.fence(rt, session, SessionNumber::new(target))
    }

    /// The slot of an address, below the number of slots. A transaction that takes its slots in
    /// ascending order waits for each of them, and no call of it is refused because another
    /// transaction holds one.
    pub fn slot_of(&self, addr: Addr) -> u16
        ensures slot { result ≡ slot_of J.layout addr }
        ensures in_range { result < J.layout.slots }
    {
        self.layout.slot_of(addr)
    }

    // Called for its contract: all that a session has seen begins with the journal's opening,
    // because both are of one history.
    fn prove_begins(&self, session: &Session<'b, J, R>)
        ensures start { IsPrefix self.now.start session.now.seen }
        ensures known { IsKnown R.statement J.layout session.now.seen }
    {
        let _seen = session.seen();
        let mut start = self.start.again();
        start.see(&session.front());
    }

    /// A transaction that has done nothing yet, after all of the history as it is now, which the
    /// session has then seen. It must be ended, by `commit`, `try_commit` or `abort`, and a commit
    /// is under this session. The call does not block and takes no memory.
    pub fn begin<'j>(
        &'j self,
        alloc: Global,
        session: &mut Session<'b, J, R>,
    ) -> Txn<'j, 'b, D, R, J>
        ensures session { OnlyExtends session.old session.new }
        ensures begun { result ≡ begun session.new.seen }
    {
        session.observe();
        Txn::new(self, alloc, session)
    }

    /// Makes the next step of the logger, with at most one device call that changes the disk: the
    /// device call of the group in flight that is due, else a mark, else a cut. It is idle if there
    /// is nothing to log and nothing to mark.
    ///
    /// # Errors
    /// Nothing is then marked. J13 comes before all others.
    /// - `J13 Closed`: the journal was stopped.
    /// - `J6 DeviceFailed`: the device failed, in this call or before.
    /// - `J9 Stale`: the history is longer than the core's.
    /// - `J11 Worn`: the history's length would reach 2^62.
    /// - `J1 NoMemory`: memory is refused. The step can be tried again.
    pub fn log_step<W: Wait>(&self, rt: &W) -> Result<Step, JournalRefusal<'b, J, R>>
        ensures { IfErr result IsLogRefusal }
    {
        Ok(log_moved(self.core.log_step(rt)?))
    }

    /// Makes the next step of the logger as `log_step` does, but first waits for a full group. The
    /// group is full once as many commits came as threads were woken by the last mark, or as many
    /// threads wait for the next one. So their next commits share a group. While it waits, a thread
    /// that waits for a mark may make the logger's steps in its place, and it goes on waiting as
    /// long as one does. A thread may have nothing to commit. So it looks again after 200
    /// microseconds if several threads wait or are awaited, else after a millisecond, and logs the
    /// commits that it found at the look before. It does not wait if 128 blocks are to be logged,
    /// and a stop or a device that failed ends the wait.
    ///
    /// # Errors
    /// Those of `log_step`.
    pub fn log_step_grouped<W: Wait + Clock>(
        &self,
        rt: &W,
    ) -> Result<Step, JournalRefusal<'b, J, R>>
        ensures { IfErr result IsLogRefusal }
    {
        Ok(log_moved(self.core.log_step_grouped(rt)?))
    }

    /// Makes the next step of the installer, with at most one device call that changes the disk. It
    /// is idle if all that is logged is at home.
    ///
    /// # Errors
    /// The history stays. J13 comes before all others.
    /// - `J13 Closed`: the journal was stopped.
    /// - `J6 DeviceFailed`: the device failed, in this call or before.
    /// - `J1 NoMemory`: memory is refused. The step can be tried again.
    pub fn install_step<W: Wait>(&self, rt: &W) -> Result<Step, JournalRefusal<'b, J, R>>
        ensures { IfErr result IsInstallRefusal }
    {
        Ok(install_moved(self.core.install_step(rt)?))
    }

    /// The numbers of commits and of marks, and the log's range on the disk.
    pub fn stat<W: Wait>(&self, rt: &W) -> Stat {
        self.core.stat(rt)
    }

    /// How many commits had to wait for room in the log's tail since the disk was opened. A commit
    /// that waited several times counts once.
    pub fn room_waits(&self) -> u64 {
        self.core.room_waits()
    }

    /// Waits until the commit of the receipt is stable: until a mark covers it, so that no crash
    /// loses it. The session has then seen the mark, and is exact.
    ///
    /// # Errors
    /// The first that applies is answered.
    /// - `J9 Stale`: the history is longer than the core's.
    /// - `J10 Stranger`: it has a commit under the session's number that the session did not make.
    /// - `J13 Closed`: the journal was stopped, and no mark covers the receipt. The session has
    ///   then seen a history without one.
    /// - `J6 DeviceFailed`: the device failed, and no mark covers the receipt. The session has then
    ///   seen a history without one.
    pub fn wait_stable<W: Wait>(
        &self,
        rt: &W,
        session: &mut Session<'b, J, R>,
        receipt: &Receipt<'b, J, R>,
    ) -> Result<StableNote<'b, J, R>, JournalRefusal<'b, J, R>>
        ensures stable { IfOk result (λ note. IsStable receipt.now.count note session.new) }
        ensures exact { OnOk result (IsExact session.new) }
        ensures session { OnlyExtends session.old session.new }
        ensures refusal { IfErr result (IsWaitRefusal session.new) }
        ensures unmarked { IfErr result (IsEndedUnmarked receipt.now.count session.new) }
    {
        self.core.wait_stable(rt, session, receipt.count())
    }

    /// Waits until all commits are stable that the session has seen, as `wait_stable` does, and for
    /// no others. The session has then seen such a mark, and is exact. If they are marked already
    /// it does not wait, even after a stop or a fault of the device.
    ///
    /// # Errors
    /// The first that applies is answered.
    /// - `J9 Stale`: the history is longer than the core's.
    /// - `J10 Stranger`: it has a commit under the session's number that the session did not make.
    /// - `J13 Closed`: the journal was stopped, and not all of these commits are marked. The
    ///   session has then seen a history in which they are not.
    /// - `J6 DeviceFailed`: the device failed, and not all of these commits are marked. The session
    ///   has then seen a history in which they are not.
    pub fn flush<W: Wait>(
        &self,
        rt: &W,
        session: &mut Session<'b, J, R>,
    ) -> Result<StableNote<'b, J, R>, JournalRefusal<'b, J, R>>
        ensures stable { IfOk result (λ note. IsStable (count session.old.seen) note session.new) }
        ensures exact { OnOk result (IsExact session.new) }
        ensures session { OnlyExtends session.old session.new }
        ensures refusal { IfErr result (IsWaitRefusal session.new) }
        ensures unmarked { IfErr result (IsEndedUnmarked (count session.old.seen) session.new) }
    {
        self.core.flush(rt, session)
    }

    /// Stops the journal. Reads, commits and steps are refused by J13 `Closed` from then on, and so
    /// are waits for marks that are not made yet. All waiting threads are woken.
    pub fn stop<W: Wait>(&self, rt: &W) {
        self.core.stop(rt);
    }

    /// Makes the next step of the installer as `install_step` does, but only if more than 256
    /// positions of the log are used. Otherwise it is idle, so that the device's time is the
    /// logger's until the log needs room.
    ///
    /// # Errors
    /// Those of `install_step`.
    pub fn install_past_threshold<W: Wait>(&self, rt: &W) -> Result<Step, JournalRefusal<'b, J, R>>
        ensures { IfErr result IsInstallRefusal }
    {
        Ok(install_moved(self.core.install_past_threshold(rt)?))
    }

    /// Waits until `log_step` has something to do or is refused for good: a commit was made,
    /// positions of a full log became free, the journal was stopped, or the device failed. While it
    /// waits, a thread that waits for a mark may make the logger's steps in its place, and wakes it
    /// if something is left to do.
    pub fn await_log_work<W: Wait>(&self, rt: &W) {
        self.core.await_log_work(rt);
    }

    /// Waits until `install_past_threshold` has something to do or is refused for good.
    pub fn await_install_work<W: Wait>(&self, rt: &W) {
        self.core.await_install_work(rt);
    }

    /// Ends the journal, and gives the disk up as it is, with the history as far as the disk's part
    /// has seen it, which goes on from the journal's opening. Each image that a crash may leave of
    /// the disk opens as the map after some first commits of that history, no fewer than its
    /// greatest mark. If there is a session, `close` says the same of the whole history.
    pub fn into_disk(self) -> DiskLeft<'b, D, R, J>
        ensures size { (D.state result.disk).past.size ≡ J.layout.blocks }
        ensures images { IsTrue (D.state result.disk).honest → EveryImage (D.state result.disk).past (Leaves result.front) }
        ensures mendable { IsTrue (D.state result.disk).honest → IsMendable (D.state result.disk).past }
        ensures start { IsPrefix self.entry.start result.front }
    {
        let Journal {
            layout: _,
            slots: _,
            core,
            start,
        } = self;
        let left = core.into_disk();
        prove_goes_on(&start, &left.front);
        left
    }

    /// Ends the journal, and gives the disk up as it is. The session has then seen the whole
    /// history, and each image that a crash may leave of the disk opens as the map after a front of
    /// it that has every marked commit.
    ///
    /// # Errors
    /// - `J9 Stale`: the session had seen more of the history than the core. The disk is given up
    ///   too: each image that a crash may leave of it opens as the map after some first commits of
    ///   a history that goes on from the journal's opening, no fewer than its greatest mark.
    pub fn close(self, session: &mut Session<'b, J, R>) -> Result<D, Refused<D, Cause<'b, J, R>>>
        ensures session { OnlyExtends session.old session.new }
        ensures size { IfOk result (λ disk. (D.state disk).past.size ≡ J.layout.blocks) }
        ensures trusted { IfOk result (λ disk. is_trusted session.new.seen ≡ (D.state disk).honest) }
        ensures images { IfOk result (λ disk. IsTrue (D.state disk).honest → EveryImage (D.state disk).past (Leaves session.new.seen)) }
        ensures mendable { MatchResult result
            (λ disk. IsTrue (D.state disk).honest → IsMendable (D.state disk).past)
            (λ refused. IsTrue (D.state refused.disk).honest → IsMendable (D.state refused.disk).past) }
        ensures refusal { IfErr result (λ refused. IsCloseRefusal refused.refusal) }
        ensures left_size { IfErr result (λ refused. (D.state refused.disk).past.size ≡ J.layout.blocks) }
        ensures left { IfErr result (λ refused. LeavesFront self.entry.start (D.state refused.disk)) }
    {
        let Journal {
            layout: _,
            slots: _,
            core,
            start,
        } = self;
        match core.close(session) {
            Ok(disk) => Ok(disk),
            Err(RefusedClose { refusal, left }) => {
                prove_goes_on(&start, &left.front);
                let DiskLeft { disk, front: _ } = left;
                Err(Refused { refusal, disk })
            }
        }
    }
}

impl<'b, R: MapRule, J: Naming> Journal<'b, MemDisk, R, J> {
    /// Copies a block of the disk as a read of it would. It makes no device call.
    pub fn inspect<W: Wait>(&self, rt: &W, block: u64, into: &mut Block)
        requires { block < J.layout.blocks }
    {
        self.core.inspect(rt, block, into);
    }

    /// Each block that has pending writes and their number, blocks ascending. It takes the disk's
    /// lock alone.
    ///
    /// # Errors
    /// - `J1 NoMemory`: the memory for the list is refused. Nothing changed.
    pub fn pending<W: Wait>(&self, rt: &W) -> Result<Vec<(u64, u64)>, JournalRefusal<'b, J, R>>
        ensures { IsOkUnless result Refusal.NoMemory }
    {
        self.core.pending(rt)
    }

    /// A copy of the disk as a crash would leave it now, by a choice as of `MemDisk::crash`. The
    /// session has then seen the whole history, and the image opens as the map after a front of it
    /// that has every marked commit.
    ///
    /// # Errors
    /// The first that applies is answered. The disk is as it was.
    /// - `J9 Stale`: the session had seen more of the history than the core.
    /// - `J1 NoMemory`: the memory for the image is refused.
    pub fn image<W: Wait>(
        &self,
        rt: &W,
        session: &mut Session<'b, J, R>,
        choice: &[u32],
    ) -> Result<MemDisk, JournalRefusal<'b, J, R>>
        ensures session { OnlyExtends session.old session.new }
        ensures size { IfOk result (λ image. image.past.size ≡ J.layout.blocks) }
        ensures settled { IfOk result (λ image. IsSettled image.past) }
        ensures stands { IfOk result (λ image. IsTrue (is_trusted session.new.seen) → Leaves session.new.seen image.past.first) }
        ensures images { IfOk result (λ image. IsTrue (is_trusted session.new.seen) → EveryImage image.past (Leaves session.new.seen)) }
        ensures refusal { IfErr result IsImageRefusal }
    {
        self.core.image(rt, session, choice)
    }

    /// Makes the k-th device call from now on fail.
    pub fn fail_in<W: Wait>(&self, rt: &W, k: u64) {
        self.core.fail_in(rt, k);
    }
}

// Called for its contract: each history that has an entry goes on from the journal's opening,
// because both are of one book.
fn prove_goes_on<'b, R: MapRule, J: Naming>(start: &Front<'b, J, R>, front: &Front<'b, J, R>)
    requires one { length start.now ≡ 1 }
    requires begun { front.now ≢ [] }
    ensures { IsPrefix start.now front.now }
{
    let mut longer = start.again();
    longer.see(front);
}

// The step of a journal that a step of the logger is.
fn log_moved(step: LogStep) -> Step {
    match step {
        LogStep::Idle => Step::Idle,
        _ => Step::Moved,
    }
}

// The step of a journal that a step of the installer is.
fn install_moved(step: InstallStep) -> Step {
    match step {
        InstallStep::Idle => Step::Idle,
        _ => Step::Moved,
    }
}
