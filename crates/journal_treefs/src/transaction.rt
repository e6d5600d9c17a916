// A transaction of a journal, as one on objects.
ghost use Rattle.std.specs.Prelude.{◌≡◌, [], IfOk, IfErr, OnErr};
ghost use Rattle.journal_world.specs.Maps.{Map, Agrees, overwritten};
ghost use Rattle.journal_tail.specs.Writes.{written_blocks};
ghost use Rattle.journal_history.specs.Tokens.{OnlyExtends};
ghost use Rattle.journal_twophase.specs.Transactions.{core_of};
ghost use Rattle.journal_twophase.specs.Commits.{IsCommitted};
ghost use Rattle.journal_attempts.specs.Refusals.{IsAttemptEnd};
ghost use Rattle.journal_treefs.specs.Calls.{IsTreeRefusal};

use journal_attempts::{AttemptFault, overwrite, read};
use journal_disk::BlockDisk;
use journal_history::{Naming, Receipt, Session};
use journal_memory::Cause;
use journal_treeobjects::ObjectTransaction;
use journal_twophase::Txn;
use journal_world::{Addr, MapRule, Objects, Refusal, Value};
use std::sync::Wait;

/// An open transaction of a journal, with the runtime by which it waits.
///
/// It must be ended, by `commit` or `abort`: it cannot be dropped.
pub struct JournalTransaction<'t, 'j, 'b, D: BlockDisk, R: MapRule, J: Naming, W: Wait> {
    /// The runtime.
    pub rt: &'t W,
    /// The transaction.
    pub txn: Txn<'j, 'b, D, R, J>,
}

impl<'t, 'j, 'b, D: BlockDisk, R: MapRule, J: Naming, W: Wait> ObjectTransaction
    for JournalTransaction<'t, 'j, 'b, D, R, J, W> {
    ghost use Rattle.journal_attempts.specs.Refusals.{IsAttemptEnd};

    type Fault = AttemptFault<Cause<'b, J, R>>;

    ghost is_fault = { IsAttemptEnd };

    ghost layout = { λ t. J.layout };

    ghost reads = { λ t. t.txn.reads };

    ghost writes = { λ t. t.txn.writes };

    fn read(&mut self, addr: Addr) -> Result<Value, AttemptFault<Cause<'b, J, R>>> {
        let rt = self.rt;
        read(rt, &mut self.txn, addr)
    }

    fn prefetch(&mut self, addrs: &[Addr], found: &mut Objects) {
        let rt = self.rt;
        self.txn.prefetch(rt, addrs, found);
    }

    fn overwrite(&mut self, addr: Addr, bytes: &[u8]) -> Result<(), AttemptFault<Cause<'b, J, R>>> {
        let rt = self.rt;
        overwrite(rt, &mut self.txn, addr, bytes)
    }
}

impl<'t, 'j, 'b, D: BlockDisk, R: MapRule, J: Naming, W: Wait> JournalTransaction<
    't,
    'j,
    'b,
    D,
    R,
    J,
    W,
> {
    // Reads objects. It has overwritten nothing yet.
    pub(crate) fn read_all(&mut self, addrs: &[Addr]) -> Result<(), AttemptFault<Cause<'b, J, R>>>
        requires unwritten { self.old.txn.writes ≡ [] }
        ensures unwritten { self.new.txn.writes ≡ [] }
        ensures fault { IfErr result IsAttemptEnd }
    {
        for addr in addrs {
            self.read(*addr)?;
        }
        Ok(())
    }

    /// Commits the transaction, as `Txn::commit` does.
    ///
    /// # Errors
    /// Those of `Txn::commit`.
    pub fn commit(
        self,
        session: &mut Session<'b, J, R>,
    ) -> Result<Receipt<'b, J, R>, Refusal<Cause<'b, J, R>>>
        requires rule { (m : Map) → m.layout ≡ J.layout → R.statement m → Agrees m self.txn.reads
            → R.statement (overwritten m self.txn.writes) }
        ensures committed { IfOk result (IsCommitted R.statement J.layout self.entry.txn.began (core_of self.entry.txn) session.old session.new) }
        ensures session { OnErr result (OnlyExtends session.old session.new) }
        ensures refusal { IfErr result (IsTreeRefusal (written_blocks self.entry.txn.writes)) }
    {
        let JournalTransaction { rt, txn } = self;
        txn.commit(rt, session)
    }

    /// Ends the transaction without a commit.
    pub fn abort(self) {
        let JournalTransaction { rt, txn } = self;
        txn.abort(rt);
    }
}
