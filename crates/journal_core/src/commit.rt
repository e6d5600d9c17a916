// A commit.
ghost use Rattle.std.specs.Prelude.{◌≡◌, length, IsTrue, IfOk, IfErr, OnOk, OnErr};
ghost use Rattle.journal_world.specs.Maps.{Map, Agrees, overwritten};
ghost use Rattle.journal_world.specs.Histories.{is_trusted, latest};
ghost use Rattle.journal_history.specs.Tokens.{next_transaction, OnlyExtends, IsReceiptFor};
ghost use Rattle.journal_lockmap.specs.Numbers.{AreApart, HoldsSlots, slots_of};
ghost use Rattle.journal_memory.specs.SlotCounts.{AgreeWith, AreUnder};
ghost use Rattle.journal_memory.specs.Transactions.{AreUnmoved};
ghost use Rattle.journal_parts.specs.CoreStates.{Crashes, IsRunning, OnlyReads};
ghost use Rattle.journal_memory.specs.Rules.{KeepsMapRule};
ghost use Rattle.journal_memory.specs.Ledgers.{ShowsLonger};
ghost use Rattle.journal_core.specs.Commits.{IsCommitted, CanCommit, IsCommitRefusal};
ghost use Rattle.journal_core.specs.Interleavings.{AnswersCommit};

use crate::pair_commit::commit_step;
use crate::state::Core;
use journal_disk::BlockDisk;
use journal_history::{Naming, Receipt, Session};
use journal_lockmap::Held;
use journal_memory::{Cause, Transaction};
use journal_tail::Spares;
use journal_world::{MapRule, Refusal};
use std::sync::Wait;

impl<'b, D: BlockDisk, R: MapRule, J: Naming> Core<'b, D, R, J> {
    /// Commits the session's next transaction: adds it to the history, which the session has then
    /// seen, and overwrites the map by its writes, in memory. The receipt has its place. All memory
    /// and all reads from the device come before the history grows. It takes the spares' memory
    /// first.
    ///
    /// The slots of its reads and writes are held, each once. Their tokens are verified first. That
    /// shows that no other commit touched these slots. It does not block and compares no value.
    /// Then the held slots agree with the history too, and a refusal leaves it as it was.
    ///
    /// # Errors
    /// The first that applies is answered, and of the last two the one that occurs. The history,
    /// the map and the pending writes are as they were.
    /// - `J13 Closed`: the core was stopped.
    /// - `J6 DeviceFailed`: the device failed before.
    /// - `J9 Stale`: the session or the transaction has seen more of the history than the core, or
    ///   the history is longer.
    /// - `J10 Stranger`: the history has a commit under the session's number that the session did
    ///   not make.
    /// - `J14 Fenced`: the session is fenced.
    /// - `J4 TooLarge`: more than 128 distinct blocks are written.
    /// - `J11 Worn`: the history's length, the session's number or a position of the log would
    ///   reach 2^62.
    /// - `J12 Full`: the log's tail has no room for the blocks that are not in it.
    /// - `J1 NoMemory`: memory is refused.
    /// - `J6 DeviceFailed`: the device fails in this call.
    pub fn commit_step<W: Wait>(
        &mut self,
        rt: &W,
        session: &mut Session<'b, J, R>,
        transaction: &Transaction<'b, J, R>,
        held: &mut [Held<J>],
        spares: &mut Spares,
    ) -> Result<Receipt<'b, J, R>, Refusal<Cause<'b, J, R>>>
        requires rule { (m : Map) → m.layout ≡ J.layout → R.statement m → Agrees m transaction.now.reads
            → R.statement (overwritten m transaction.now.writes) }
        requires under { AreUnder J.layout held.old transaction.now.seen transaction.now.reads }
        requires covered { HoldsSlots J.layout held.old transaction.now.writes }
        requires apart { AreApart held.old }
        ensures agree { AgreeWith J.layout self.new.history held.new }
        ensures slots { slots_of held.new ≡ slots_of held.old }
        ensures held { OnErr result (held.new ≡ held.old) }
        ensures committed { OnOk result (IsCommitted transaction.now.reads transaction.now.writes session.old session.new self.old self.new) }
        ensures receipt { IfOk result (IsReceiptFor (next_transaction session.old transaction.now.reads transaction.now.writes) self.new.history (length self.old.history)) }
        ensures can { OnOk result (CanCommit self.old session.old transaction.now) }
        ensures agrees { OnOk result (IsTrue (is_trusted self.old.history) → Agrees (latest self.old.history) transaction.now.reads) }
        ensures running { OnOk result (IsRunning self.new) }
        ensures refusal { IfErr result (IsCommitRefusal self.old session.old transaction.now self.new) }
        ensures same { OnErr result (self.new ≡ record self.old { objects = self.new.objects }) }
        ensures left { OnErr result (OnlyReads self.old.objects self.new.objects) }
        ensures session { OnErr result (OnlyExtends session.old session.new) }
        ensures longer { IfErr result (ShowsLonger self.old.history session.new) }
        ensures crash { Crashes self.old self.new }
        ensures event { AnswersCommit self.old session.old transaction.now result self.new session.new }
    {
        self.verify_tokens(rt, held);
        // Called for its contract: the history is sound.
        let _front = self.front();
        self.commit_verified(rt, session, transaction, held, spares)
    }

    // Commits as `commit_step` does, once it was verified that no other commit touched the slots of
    // its reads.
    fn commit_verified<W: Wait>(
        &mut self,
        rt: &W,
        session: &mut Session<'b, J, R>,
        transaction: &Transaction<'b, J, R>,
        held: &mut [Held<J>],
        spares: &mut Spares,
    ) -> Result<Receipt<'b, J, R>, Refusal<Cause<'b, J, R>>>
        requires rule { KeepsMapRule R.statement self.old.history transaction.now }
        requires unmoved { AreUnmoved J.layout self.old.history transaction.now }
        requires covered { HoldsSlots J.layout held.old transaction.now.writes }
        requires apart { AreApart held.old }
        ensures agree { OnOk result (AgreeWith J.layout self.new.history held.new) }
        ensures slots { slots_of held.new ≡ slots_of held.old }
        ensures held { OnErr result (held.new ≡ held.old) }
        ensures committed { OnOk result (IsCommitted transaction.now.reads transaction.now.writes session.old session.new self.old self.new) }
        ensures receipt { IfOk result (IsReceiptFor (next_transaction session.old transaction.now.reads transaction.now.writes) self.new.history (length self.old.history)) }
        ensures can { OnOk result (CanCommit self.old session.old transaction.now) }
        ensures agrees { OnOk result (IsTrue (is_trusted self.old.history) → Agrees (latest self.old.history) transaction.now.reads) }
        ensures running { OnOk result (IsRunning self.new) }
        ensures refusal { IfErr result (IsCommitRefusal self.old session.old transaction.now self.new) }
        ensures same { OnErr result (self.new ≡ record self.old { objects = self.new.objects }) }
        ensures left { OnErr result (OnlyReads self.old.objects self.new.objects) }
        ensures session { OnErr result (OnlyExtends session.old session.new) }
        ensures longer { IfErr result (ShowsLonger self.old.history session.new) }
        ensures crash { Crashes self.old self.new }
        ensures event { AnswersCommit self.old session.old transaction.now result self.new session.new }
    {
        let alloc = self.alloc;
        let Core {
            durable,
            volatile,
            ..
        } = self;
        commit_step(
            rt,
            alloc,
            durable,
            volatile,
            session,
            transaction,
            held,
            spares,
        )
    }
}
