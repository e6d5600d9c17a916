// The store: a journal over a disk that is cut for a tree.
ghost use Rattle.std.specs.Prelude.{◌≡◌, ◌≤◌, ◌⊎◌, IsTrue, IfOk, OnOk, IfErr, OnErr, MatchResult};
ghost use Rattle.journal_world.specs.Histories.{is_trusted};
ghost use Rattle.journal_world.specs.declared.refusal.Refusal.TheVariants.{NoMemory};
ghost use Rattle.journal_disk.specs.Disks.{IsSettled};
ghost use Rattle.journal_disk.specs.Images.{EveryImage};
ghost use Rattle.journal_circ.specs.Mending.{IsMendable};
ghost use Rattle.journal_history.specs.Tokens.{OnlyExtends};
ghost use Rattle.journal_parts.specs.Cores.{Leaves};
ghost use Rattle.journal_parts.specs.Openings.{HasWellFormedLog, IsLayoutRefusal, OnlyReadsDisk};
ghost use Rattle.journal_twophase.specs.Journals.{BeginsWith, IsCloseRefusal};
ghost use Rattle.journal_twophase.specs.declared.journal.TheConstants.{MAX_CACHED_BLOCKS};
ghost use Rattle.journal_tree.specs.Times.{IsTime};
ghost use Rattle.journal_treestore.specs.Places.{shape_of, IsCut};
ghost use Rattle.journal_treeobjects.specs.Maps.{IsWhole};
ghost use Rattle.journal_attempts.specs.declared.fault.AttemptFault.TheVariants.{Refused as RefusedSo};
ghost use Rattle.journal_treefs.specs.Calls.{IsCommittedCall, IsTreeRefusal, IsCallEnd};

use crate::fault::fault_of;
use crate::{JournalTransaction, TreeRule};
use journal_attempts::{AttemptFault, RETRIES};
use journal_disk::BlockDisk;
use journal_history::{Book, Naming, Receipt, Session};
use journal_lockmap::SlotCell;
use journal_memory::Cause;
use journal_treeobjects::{Asking, Finished, GivenUp, TreeOperation, TreeTransaction};
use journal_treestore::Cut;
use journal_twophase::{Journal, MAX_CACHED_BLOCKS};
use journal_world::{Addr, Objects, Refusal, Refused};
use std::alloc::{AllocError, Global};
use std::marker::Model;
use std::sync::Wait;

/// A tree of files on a disk, which threads share by `&`. Contracts see the history at the opening
/// of its journal, and how the disk is cut.
#[derive(Drop)]
pub struct TreeStore<'b, D: BlockDisk, R: TreeRule, J: Naming> {
    alloc: Global,
    cut: Cut,
    journal: Journal<'b, D, R, J>,
}

impl<'b, D: BlockDisk, R: TreeRule, J: Naming> Model for TreeStore<'b, D, R, J> {
    ghost use Rattle.std.specs.Prelude.{◌≡◌};
    ghost use Rattle.journal_treestore.specs.Places.{shape_of, IsCut};
    ghost use Rattle.journal_treeobjects.specs.Maps.{IsWhole};
    ghost use Rattle.journal_treefs.specs.Calls.{StoreState};

    ghost Value = { StoreState };

    ghost view = { λ store. record { start = store.journal.start; cut = store.cut } };

    ghost invariant = { λ store. IsCut store.cut × IsWhole store.cut × (J.layout ≡ shape_of store.cut) };
}

/// A call that is committed.
#[derive(Drop)]
pub struct Committed<A, P> {
    /// Its answer.
    pub reply: A,
    /// The receipt of its commit, for a wait until it is stable.
    pub receipt: P,
}

impl<'b, D: BlockDisk, R: TreeRule, J: Naming> TreeStore<'b, D, R, J> {
    /// Mounts a disk on which nothing is pending: opens its journal under the rule. Memory keeps at
    /// most `cached` copies of blocks that are at home.
    ///
    /// # Errors
    /// A refusal gives the disk back, with nothing written.
    /// - `J8 BadSuper`: the disk has another number of blocks, or no sound tree that is cut so.
    /// - All others: those of `Journal::open_layout`.
    pub fn mount(
        alloc: Global,
        book: &'b Book<R>,
        cell: SlotCell,
        cut: Cut,
        disk: D,
        rule: &R,
        cached: usize,
    ) -> Result<TreeStore<'b, D, R, J>, Refused<D, Cause<'b, J, R>>>
        requires some { 1 ≤ cached }
        requires most { cached ≤ MAX_CACHED_BLOCKS }
        requires book { book.now ≡ J.book }
        requires cell { cell ≡ J.cell }
        requires cut { IsCut cut }
        requires whole { IsWhole cut }
        requires layout { J.layout ≡ shape_of cut }
        requires settled { IsTrue (D.state disk).honest → IsSettled (D.state disk).past }
        ensures begun { IfOk result (λ store. BeginsWith R.statement J.layout (D.state disk) store.start) }
        ensures cut { IfOk result (λ store. store.cut ≡ cut) }
        ensures well_formed { IsTrue (D.state disk).honest → OnOk result (HasWellFormedLog (D.state disk)) }
        ensures refusal { IfErr result (λ refused. IsLayoutRefusal R.statement J.layout (D.state disk) (D.state refused.disk) refused.refusal) }
        ensures left { IfErr result (λ refused. OnlyReadsDisk (D.state disk) (D.state refused.disk)) }
    {
        let layout = cut.layout();
        let journal = Journal::open_layout(alloc, book, cell, layout, disk, rule, cached)?;
        Ok(TreeStore {
            alloc,
            cut,
            journal,
        })
    }

    /// The journal, for sessions, for waits, and for the steps of the logger and the installer.
    pub fn journal(&self) -> &Journal<'b, D, R, J>
        ensures { result.now.start ≡ self.now.start }
    {
        &self.journal
    }

    /// Ends the store, and gives the disk up, as `Journal::close` does.
    ///
    /// # Errors
    /// - `J9 Stale`: the session had seen more of the history than the core. The disk is given up
    ///   too.
    pub fn close(self, session: &mut Session<'b, J, R>) -> Result<D, Refused<D, Cause<'b, J, R>>>
        ensures session { OnlyExtends session.old session.new }
        ensures trusted { IfOk result (λ disk. is_trusted session.new.seen ≡ (D.state disk).honest) }
        ensures images { IfOk result (λ disk. IsTrue (D.state disk).honest → EveryImage (D.state disk).past (Leaves session.new.seen)) }
        ensures mendable { MatchResult result
            (λ disk. IsTrue (D.state disk).honest → IsMendable (D.state disk).past)
            (λ refused. IsTrue (D.state refused.disk).honest → IsMendable (D.state refused.disk).past) }
        ensures refusal { IfErr result (λ refused. IsCloseRefusal refused.refusal) }
    {
        let TreeStore {
            alloc: _,
            cut: _,
            journal,
        } = self;
        journal.close(session)
    }

    /// Does a call that is asked so, and commits it with its answer. An attempt that finds a slot
    /// held is undone, and made again, at most 8 times. The next attempt first reads what this one
    /// had read and the object whose slot was held, in the order of the slots. So it waits for each
    /// of these slots.
    ///
    /// # Errors
    /// The session has no commit of the call then, and may have seen more of the history.
    /// - `J5 Busy`: the last attempt read an object that none before it had read, and another
    ///   transaction held its slot.
    /// - `J2 BadAddress`: a number on the disk names no object of it. A sound disk has none such.
    /// - `J1 NoMemory`: memory is refused.
    /// - `J4 TooLarge`: the call makes more writes than a transaction has room for. Only a WRITE of
    ///   more than `TRANSFER_BYTES` bytes may.
    /// - All others: those of `Txn::read` and `Txn::commit`.
    pub fn run<O: TreeOperation, W: Wait>(
        &self,
        rt: &W,
        session: &mut Session<'b, J, R>,
        asking: Asking,
        operation: &O,
    ) -> Result<Committed<O::Reply, Receipt<'b, J, R>>, Refusal<Cause<'b, J, R>>>
        requires time { IsTime asking.now }
        ensures committed { IfOk result (λ done. IsCommittedCall self.now.cut (O.call operation.now) asking.caller asking.now
            session.old session.new (O.told done.reply) done.receipt) }
        ensures session { OnErr result (OnlyExtends session.old session.new) }
        ensures refusal { IfErr result (IsTreeRefusal (O.most operation.now)) }
    {
        let mut first = Vec::new(self.alloc);
        for _ in 0..RETRIES {
            match self.once(rt, session, asking, operation, &mut first) {
                Ok(done) => return Ok(done),
                Err(AttemptFault::Held(_)) => {}
                Err(AttemptFault::Refused(refusal)) => return Err(refusal),
            }
        }
        match self.once(rt, session, asking, operation, &mut first) {
            Ok(done) => Ok(done),
            Err(AttemptFault::Held(_)) => Err(Refusal::Busy),
            Err(AttemptFault::Refused(refusal)) => Err(refusal),
        }
    }

    // One attempt, which reads these objects first: committed, or undone. One that found a slot
    // held leaves what the next attempt is to read first.
    fn once<O: TreeOperation, W: Wait>(
        &self,
        rt: &W,
        session: &mut Session<'b, J, R>,
        asking: Asking,
        operation: &O,
        first: &mut Vec<Addr>,
    ) -> Result<Committed<O::Reply, Receipt<'b, J, R>>, AttemptFault<Cause<'b, J, R>>>
        requires time { IsTime asking.now }
        ensures committed { IfOk result (λ done. IsCommittedCall self.now.cut (O.call operation.now) asking.caller asking.now
            session.old session.new (O.told done.reply) done.receipt) }
        ensures session { OnErr result (OnlyExtends session.old session.new) }
        ensures refusal { IfErr result (IsCallEnd (O.most operation.now)) }
    {
        let txn = self.journal.begin(self.alloc, session);
        let mut transaction = JournalTransaction { rt, txn };
        if let Err(fault) = transaction.read_all(first) {
            transaction.abort();
            return Err(fault);
        }
        let mut disk = TreeTransaction::begin(self.alloc, self.cut, transaction);
        let reply = match operation.attempt(asking, &mut disk) {
            Ok(reply) => reply,
            Err(fault) => {
                let GivenUp {
                    transaction,
                    fault: refused,
                    read,
                } = disk.give_up();
                transaction.abort();
                return Err(self.undone(fault_of(fault, refused), &read, first));
            }
        };
        let Finished {
            transaction,
            outcome,
            read,
        } = disk.finish();
        if let Err(fault) = outcome {
            transaction.abort();
            return Err(self.undone(fault, &read, first));
        }
        match transaction.commit(session) {
            Ok(receipt) => Ok(Committed { reply, receipt }),
            Err(refusal) => Err(AttemptFault::Refused(refusal)),
        }
    }

    // An attempt that had read this was undone for this reason. Where a slot was held, the next
    // attempt reads these objects first.
    fn undone<C: Drop>(
        &self,
        fault: AttemptFault<C>,
        read: &Objects,
        first: &mut Vec<Addr>,
    ) -> AttemptFault<C>
        ensures { (result ≡ fault) ⊎ (result ≡ RefusedSo NoMemory) }
    {
        match fault {
            AttemptFault::Held(addr) => match self.set_first(read, addr, first) {
                Ok(()) => AttemptFault::Held(addr),
                Err(_) => AttemptFault::Refused(Refusal::NoMemory),
            },
            AttemptFault::Refused(refusal) => AttemptFault::Refused(refusal),
        }
    }

    // The addresses that were read, and the one whose slot was held, in the order of their slots.
    fn set_first(
        &self,
        read: &Objects,
        held: Addr,
        first: &mut Vec<Addr>,
    ) -> Result<(), AllocError> {
        first.clear();
        for (addr, _) in read.iter() {
            first.push(*addr)?;
        }
        first.push(held)?;
        let layout = self.cut.layout();
        first.sort_by_key(|addr| layout.slot_of(*addr))
    }
}
