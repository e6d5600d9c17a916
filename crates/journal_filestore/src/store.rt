// The store: its journal, and the numbers of its free blocks.
ghost use Rattle.std.specs.Prelude.{◌≡◌, ◌≤◌, IsTrue, IfOk, OnOk, IfErr, OnErr, MatchResult};
ghost use Rattle.journal_world.specs.Files.{files};
ghost use Rattle.journal_world.specs.Maps.{Map, Agrees, overwritten};
ghost use Rattle.journal_world.specs.Histories.{is_trusted};
ghost use Rattle.journal_disk.specs.Disks.{IsSettled};
ghost use Rattle.journal_disk.specs.Images.{EveryImage};
ghost use Rattle.journal_circ.specs.Mending.{IsMendable};
ghost use Rattle.journal_history.specs.Tokens.{OnlyExtends, IsExact};
ghost use Rattle.journal_parts.specs.Cores.{Leaves};
ghost use Rattle.journal_parts.specs.Openings.{HasWellFormedLog, IsOpenRefusal, OnlyReadsDisk};
ghost use Rattle.journal_inode.specs.Sound.{HasSoundFiles};
ghost use Rattle.journal_twophase.specs.Journals.{BeginsWith, IsCloseRefusal};
ghost use Rattle.journal_twophase.specs.Waits.{IsWaitRefusal};
ghost use Rattle.journal_twophase.specs.declared.journal.TheConstants.{MAX_CACHED_BLOCKS};
ghost use Rattle.journal_tail.specs.declared.limits.TheConstants.{MAX_UPDATES};
ghost use Rattle.journal_tail.specs.Writes.{written_blocks};
ghost use Rattle.journal_filestore.specs.Done.{IsAnswered, IsAnsweredNoWait, IsWaitOver, IsWait, Ends, pending_wait_for};
ghost use Rattle.journal_filestore.specs.Faults.{IsFilesRefusal, IsFaultOf};

use crate::block_reservation::BlockReservation;
use crate::operation::Operation;
use crate::{Answer, Committed, Fault, PendingWait};
use journal_alloc::Alloc;
use journal_attempts::{AttemptFault, RETRIES};
use journal_disk::BlockDisk;
use journal_history::{Book, Naming, Receipt, Session};
use journal_inode::{FormatVersion, SoundFiles, Version, VersionOne};
use journal_lockmap::SlotCell;
use journal_memory::Cause;
use journal_twophase::{CACHED_BLOCKS, Journal, MAX_CACHED_BLOCKS, Txn};
use journal_world::{Addr, FIRST_DATA, Refusal, Refused};
use std::alloc::Global;
use std::marker::Model;
use std::sync::{Mutex, Wait};

/// Why an operation on files has no answer.
pub type FileFault<'b, J, V = VersionOne> = Fault<Cause<'b, J, SoundFiles<V>>>;

/// The result of an operation that is not waited for: committed, or refused by the journal, without
/// a commit.
pub type CommitResult<'b, J, A, V = VersionOne> = Result<
    Committed<A, Receipt<'b, J, SoundFiles<V>>>,
    Refusal<Cause<'b, J, SoundFiles<V>>>,
>;

/// Why the journal below refuses.
pub(crate) type FileRefusal<'b, J, V> = Refusal<Cause<'b, J, SoundFiles<V>>>;

/// A transaction on files.
pub(crate) type FileTxn<'j, 'b, D, J, V> = Txn<'j, 'b, D, SoundFiles<V>, J>;

/// The files of a disk, which threads share by `&`. Contracts see the history at the opening of its
/// journal.
#[derive(Drop)]
pub struct FileStore<'b, D: BlockDisk, J: Naming, V: Version = VersionOne> {
    pub(crate) alloc: Global,
    journal: Journal<'b, D, SoundFiles<V>, J>,
    // The numbers of the blocks that no file has. The block of a file that is being made is among
    // the others.
    pub(crate) free: Mutex<Alloc>,
}

impl<'b, D: BlockDisk, J: Naming, V: Version> Model for FileStore<'b, D, J, V> {
    ghost use Rattle.journal_inode.specs.Places.{HasFiles};
    ghost use Rattle.journal_twophase.specs.Journals.{JournalState};

    ghost Value = { JournalState };

    ghost view = { λ store. store.journal };

    ghost invariant = { λ store. HasFiles J.layout };
}

impl<'b, D: BlockDisk, J: Naming, V: Version> FileStore<'b, D, J, V> {
    /// Mounts a disk on which nothing is pending: opens its journal under the rule of sound files,
    /// and finds its free blocks.
    ///
    /// # Errors
    /// A refusal gives the disk back, with nothing written.
    /// - `J8 BadSuper`: the disk's files are not sound.
    /// - All others: those of `Journal::open`.
    pub fn mount(
        alloc: Global,
        book: &'b Book<SoundFiles<V>>,
        cell: SlotCell,
        disk: D,
    ) -> Result<FileStore<'b, D, J, V>, Refused<D, Cause<'b, J, SoundFiles<V>>>>
        requires book { book.now ≡ J.book }
        requires cell { cell ≡ J.cell }
        requires layout { J.layout ≡ files (D.state disk).past.size }
        requires settled { IsTrue (D.state disk).honest → IsSettled (D.state disk).past }
        ensures begun { IfOk result (λ store. BeginsWith (HasSoundFiles V.VERSION) (files (D.state disk).past.size) (D.state disk) store.start) }
        ensures well_formed { IsTrue (D.state disk).honest → OnOk result (HasWellFormedLog (D.state disk)) }
        ensures refusal { IfErr result (λ refused. IsOpenRefusal (HasSoundFiles V.VERSION) (D.state disk) (D.state refused.disk) refused.refusal) }
        ensures left { IfErr result (λ refused. OnlyReadsDisk (D.state disk) (D.state refused.disk)) }
    {
        FileStore::mount_with_cache(alloc, book, cell, disk, CACHED_BLOCKS)
    }

    /// Mounts a disk as `mount` does. Memory keeps at most `cached` copies of blocks that are at
    /// home, as `Journal::open_with_cache` does, from 1 to 16384.
    ///
    /// # Errors
    /// Those of `mount`.
    pub fn mount_with_cache(
        alloc: Global,
        book: &'b Book<SoundFiles<V>>,
        cell: SlotCell,
        disk: D,
        cached: usize,
    ) -> Result<FileStore<'b, D, J, V>, Refused<D, Cause<'b, J, SoundFiles<V>>>>
        requires some { 1 ≤ cached }
        requires most { cached ≤ MAX_CACHED_BLOCKS }
        requires book { book.now ≡ J.book }
        requires cell { cell ≡ J.cell }
        requires layout { J.layout ≡ files (D.state disk).past.size }
        requires settled { IsTrue (D.state disk).honest → IsSettled (D.state disk).past }
        ensures begun { IfOk result (λ store. BeginsWith (HasSoundFiles V.VERSION) (files (D.state disk).past.size) (D.state disk) store.start) }
        ensures well_formed { IsTrue (D.state disk).honest → OnOk result (HasWellFormedLog (D.state disk)) }
        ensures refusal { IfErr result (λ refused. IsOpenRefusal (HasSoundFiles V.VERSION) (D.state disk) (D.state refused.disk) refused.refusal) }
        ensures left { IfErr result (λ refused. OnlyReadsDisk (D.state disk) (D.state refused.disk)) }
    {
        let rule = SoundFiles::new(alloc);
        let journal = Journal::open_with_cache(alloc, book, cell, disk, &rule, cached)?;
        let out = match rule.into_owners() {
            Some(owners) => owners,
            None => Vec::new(alloc),
        };
        Ok(FileStore {
            alloc,
            journal,
            free: Mutex::new(Alloc::new(FIRST_DATA, out)),
        })
    }

    /// The journal, for sessions, and for the steps of the logger and the installer.
    pub fn journal(&self) -> &Journal<'b, D, SoundFiles<V>, J>
        ensures { result.now ≡ self.now }
    {
        &self.journal
    }

    /// The version of the format that the disk is of.
    pub fn version(&self) -> FormatVersion
        ensures { result ≡ V.VERSION }
    {
        V::VERSION
    }

    /// Ends the store, and gives the disk up, as `Journal::close` does. The session has then seen
    /// the whole history, and each image that a crash may leave of the disk opens as the map after
    /// a front of it that has every marked commit.
    ///
    /// # Errors
    /// - `J9 Stale`: the session had seen more of the history than the core. The disk is given up
    ///   too.
    pub fn close(
        self,
        session: &mut Session<'b, J, SoundFiles<V>>,
    ) -> Result<D, Refused<D, Cause<'b, J, SoundFiles<V>>>>
        ensures session { OnlyExtends session.old session.new }
        ensures trusted { IfOk result (λ disk. is_trusted session.new.seen ≡ (D.state disk).honest) }
        ensures images { IfOk result (λ disk. IsTrue (D.state disk).honest → EveryImage (D.state disk).past (Leaves session.new.seen)) }
        ensures mendable { MatchResult result
            (λ disk. IsTrue (D.state disk).honest → IsMendable (D.state disk).past)
            (λ refused. IsTrue (D.state refused.disk).honest → IsMendable (D.state refused.disk).past) }
        ensures refusal { IfErr result (λ refused. IsCloseRefusal refused.refusal) }
    {
        let FileStore {
            alloc: _,
            journal,
            free: _,
        } = self;
        journal.close(session)
    }

    // Does an operation, and waits for its commit if it has to, before it is answered.
    pub(crate) fn run<O: Operation<J, V>, W: Wait>(
        &self,
        rt: &W,
        session: &mut Session<'b, J, SoundFiles<V>>,
        operation: &O,
    ) -> Result<Answer<O::Reply>, FileFault<'b, J, V>>
        ensures answered { IsAnswered V.VERSION (O.is_waiting operation.now) (O.case operation.now) session.old session.new result }
        ensures refusal { IfErr result (IsFaultOf session.new) }
    {
        let Committed { answer, wait } = match self.run_no_wait(rt, session, operation) {
            Ok(done) => done,
            Err(why) => return Err(Fault::Refused(why)),
        };
        let waited = self.wait_for(rt, session, wait);
        // Called for its contract: the history that the session has then seen.
        let _seen = session.seen();
        match waited {
            Ok(()) => Ok(answer),
            Err(why) => Err(Fault::Unsure(why)),
        }
    }

    // Makes the pending wait.
    fn wait_for<W: Wait>(
        &self,
        rt: &W,
        session: &mut Session<'b, J, SoundFiles<V>>,
        wait: PendingWait<Receipt<'b, J, SoundFiles<V>>>,
    ) -> Result<(), FileRefusal<'b, J, V>>
        ensures paid { OnOk result (IsWaitOver wait.entry session.new) }
        ensures owes { OnErr result (IsWait wait.entry) }
        ensures exact { OnOk result (IsExact session.old → IsExact session.new) }
        ensures session { OnlyExtends session.old session.new }
        ensures refusal { IfErr result (IsWaitRefusal session.new) }
    {
        let receipt = match wait {
            PendingWait::Nothing => return Ok(()),
            PendingWait::Wait(receipt) => receipt,
        };
        match self.journal.wait_stable(rt, session, &receipt) {
            Ok(_note) => Ok(()),
            Err(why) => Err(why),
        }
    }

    // Attempts an operation until it is committed, or refused by another number than J5, or refused
    // by J5 once more after the last retry. Before each retry it waits for the slot that was held.
    // So J5 refuses it only if others took slots in between each time. Up to the commit, whose
    // receipt it returns, so that one wait can serve many operations.
    pub(crate) fn run_no_wait<O: Operation<J, V>, W: Wait>(
        &self,
        rt: &W,
        session: &mut Session<'b, J, SoundFiles<V>>,
        operation: &O,
    ) -> CommitResult<'b, J, O::Reply, V>
        ensures answered { IsAnsweredNoWait V.VERSION (O.is_waiting operation.now) (O.case operation.now) session.old session.new result }
        ensures refusal { IfErr result IsFilesRefusal }
    {
        for _ in 0..RETRIES {
            match self.once(rt, session, operation) {
                Ok(outcome) => return outcome,
                Err(held) => self.await_slot(rt, session, held),
            }
        }
        match self.once(rt, session, operation) {
            Ok(outcome) => outcome,
            Err(_held) => Err(Refusal::Busy),
        }
    }

    // Waits until the slot of the address is free, by a transaction that only reads it. It holds no
    // other slot, so it waits for this one. If the read is refused, the next attempt is refused
    // too.
    fn await_slot<W: Wait>(&self, rt: &W, session: &mut Session<'b, J, SoundFiles<V>>, held: Addr)
        ensures { OnlyExtends session.old session.new }
    {
        let mut txn = self.journal.begin(self.alloc, session);
        let _answer = txn.read(rt, held);
        txn.abort(rt);
    }

    // One attempt: committed, or undone. If another holds a slot that it needs, the address of that
    // slot.
    fn once<O: Operation<J, V>, W: Wait>(
        &self,
        rt: &W,
        session: &mut Session<'b, J, SoundFiles<V>>,
        operation: &O,
    ) -> Result<CommitResult<'b, J, O::Reply, V>, Addr>
        ensures answered { IfOk result (IsAnsweredNoWait V.VERSION (O.is_waiting operation.now) (O.case operation.now) session.old session.new) }
        ensures refusal { IfOk result (λ outcome. IfErr outcome IsFilesRefusal) }
        ensures held { OnErr result (OnlyExtends session.old session.new) }
    {
        let mut space = BlockReservation::new(self.alloc, &self.free);
        let mut txn = self.journal.begin(self.alloc, session);
        let answer = match operation.attempt(rt, &mut txn, &mut space) {
            Ok(answer) => answer,
            Err(AttemptFault::Held(addr)) => {
                self.undo(rt, txn, space);
                return Err(addr);
            }
            Err(AttemptFault::Refused(why)) => {
                self.undo(rt, txn, space);
                return Ok(Err(why));
            }
        };
        let waits = is_awaited(operation.waits(), &answer);
        match end(rt, session, txn, waits) {
            Ok(wait) => {
                space.committed(rt);
                Ok(Ok(Committed { answer, wait }))
            }
            Err(why) => {
                space.undone(rt);
                Ok(Err(why))
            }
        }
    }

    // Undoes an attempt: releases its slots, and gives back the blocks that it took.
    fn undo<'j, W: Wait>(&self, rt: &W, txn: FileTxn<'j, 'b, D, J, V>, space: BlockReservation) {
        txn.abort(rt);
        space.undone(rt);
    }
}

// True if the answer waits until it is stable: a success does, of an operation that waits. A
// refused case is committed too, so that the history has every answer. It never waits.
fn is_awaited<A>(waits: bool, answer: &Answer<A>) -> bool
    ensures success { IsTrue waits → OnOk answer.now (IsTrue result) }
    ensures waits { IsTrue result → IsTrue waits }
{
    waits && answer.is_ok()
}

// Commits a transaction. Its receipt is pending if it waits.
fn end<'j, 'b, D: BlockDisk, J: Naming, V: Version, W: Wait>(
    rt: &W,
    session: &mut Session<'b, J, SoundFiles<V>>,
    txn: FileTxn<'j, 'b, D, J, V>,
    waits: bool,
) -> Result<PendingWait<Receipt<'b, J, SoundFiles<V>>>, FileRefusal<'b, J, V>>
    requires rule { (m : Map) → m.layout ≡ J.layout → HasSoundFiles V.VERSION m → Agrees m txn.reads → HasSoundFiles V.VERSION (overwritten m txn.writes) }
    requires few { written_blocks txn.writes ≤ MAX_UPDATES }
    ensures ended { IfOk result (Ends V.VERSION J.layout txn.entry waits session.old session.new) }
    ensures session { OnErr result (OnlyExtends session.old session.new) }
    ensures refusal { IfErr result IsFilesRefusal }
{
    match txn.commit(rt, session) {
        Ok(receipt) => Ok(pending_wait_for(waits, receipt)),
        Err(why) => Err(why),
    }
}

// The wait that a commit leaves pending.
fn pending_wait_for<P: Drop>(waits: bool, receipt: P) -> PendingWait<P>
    ensures { result ≡ pending_wait_for waits receipt }
{
    if waits {
        PendingWait::Wait(receipt)
    } else {
        PendingWait::Nothing
    }
}
