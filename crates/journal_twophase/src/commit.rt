// Commits.
ghost use Rattle.std.specs.Prelude.{◌≡◌, IfOk, IfErr, OnErr};
ghost use Rattle.journal_world.specs.Maps.{Map, Agrees, overwritten};
ghost use Rattle.journal_history.specs.Tokens.{OnlyExtends};
ghost use Rattle.journal_twophase.specs.Transactions.{core_of};
ghost use Rattle.journal_twophase.specs.Commits.{IsCommitted, ShowsFence, IsTryRefusal, IsCommitRefusal};

use crate::locked_parts::{JournalRefusal, WhenFull};
use crate::txn::{Txn, release_all};
use journal_disk::BlockDisk;
use journal_history::{Naming, Receipt, Session};
use journal_world::MapRule;
use std::sync::Wait;

impl<'j, 'b, D: BlockDisk, R: MapRule, J: Naming> Txn<'j, 'b, D, R, J> {
    /// Commits the transaction as the session's next one: adds it to the history, which the session
    /// has then seen, and overwrites the map by its writes, in memory. The receipt has its place:
    /// at or after all that the session had seen when the transaction began, where the map gives
    /// all that was read. It waits while the log's tail has no room. The transaction is ended
    /// either way, and its slots are released.
    ///
    /// # Errors
    /// The first that applies is answered, and of the last two the one that occurs. The history
    /// then lacks the transaction: tests count that, and no clause says it.
    /// - `J13 Closed`: the journal was stopped.
    /// - `J6 DeviceFailed`: the device failed before.
    /// - `J9 Stale`: the history is longer than the core's.
    /// - `J10 Stranger`: the history has a commit under the session's number that the session did
    ///   not make.
    /// - `J14 Fenced`: the session is fenced, and has then seen its fence. Reads and aborts go on,
    ///   commits do not.
    /// - `J4 TooLarge`: more than 128 distinct blocks are written.
    /// - `J11 Worn`: the history's length, the session's number or a position of the log would
    ///   reach 2^62.
    /// - `J1 NoMemory`: memory is refused.
    /// - `J6 DeviceFailed`: the device fails in this call.
    pub fn commit<W: Wait>(
        self,
        rt: &W,
        session: &mut Session<'b, J, R>,
    ) -> Result<Receipt<'b, J, R>, JournalRefusal<'b, J, R>>
        requires rule { (m : Map) → m.layout ≡ J.layout → R.statement m → Agrees m self.reads
            → R.statement (overwritten m self.writes) }
        ensures committed { IfOk result (IsCommitted R.statement J.layout self.entry.began (core_of self.entry) session.old session.new) }
        ensures refusal { IfErr result (IsCommitRefusal (core_of self.entry) session.old) }
        ensures fenced { IfErr result (ShowsFence session.new) }
        ensures session { OnErr result (OnlyExtends session.old session.new) }
    {
        let Txn {
            journal,
            alloc,
            began: _,
            transaction,
            held,
            known: _,
            last_block: _,
        } = self;
        let mut held = held;
        let mut spares = transaction.spares(alloc);
        let core = &journal.core;
        let when_full = WhenFull::Wait;
        let answer = core.commit(rt, session, transaction, &mut held, &mut spares, when_full);
        release_all(rt, &journal.slots, held);
        answer
    }

    /// Commits the transaction as `commit` does, and waits for no room.
    ///
    /// # Errors
    /// Those of `commit`. The history then lacks the transaction: tests count that, and no clause
    /// says it.
    /// - `J12 Full`, after J11: the log's tail has no room for the blocks that are not in it.
    pub fn try_commit<W: Wait>(
        self,
        rt: &W,
        session: &mut Session<'b, J, R>,
    ) -> Result<Receipt<'b, J, R>, JournalRefusal<'b, J, R>>
        requires rule { (m : Map) → m.layout ≡ J.layout → R.statement m → Agrees m self.reads
            → R.statement (overwritten m self.writes) }
        ensures committed { IfOk result (IsCommitted R.statement J.layout self.entry.began (core_of self.entry) session.old session.new) }
        ensures refusal { IfErr result (IsTryRefusal (core_of self.entry) session.old) }
        ensures fenced { IfErr result (ShowsFence session.new) }
        ensures session { OnErr result (OnlyExtends session.old session.new) }
    {
        let Txn {
            journal,
            alloc,
            began: _,
            transaction,
            held,
            known: _,
            last_block: _,
        } = self;
        let mut held = held;
        let mut spares = transaction.spares(alloc);
        let core = &journal.core;
        let when_full = WhenFull::Refuse;
        let answer = core.commit(rt, session, transaction, &mut held, &mut spares, when_full);
        release_all(rt, &journal.slots, held);
        answer
    }
}
