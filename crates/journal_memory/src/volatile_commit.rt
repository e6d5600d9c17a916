// Commits in memory.
ghost use Rattle.std.specs.Prelude.{◌≡◌, ◌≢◌, ◌<◌, ◌+◌, ◌^◌, ◌↔◌, ℕ, [], true, false, IsTrue, length, All, Err, IfOk, IfErr, OnOk, OnErr};
ghost use Rattle.journal_world.specs.declared.refusal.Refusal.TheVariants.{TooLarge};
ghost use Rattle.journal_world.specs.Maps.{Map, Agrees, are_objects, overwritten};
ghost use Rattle.journal_world.specs.Histories.{opened, is_trusted, is_fenced, commits_of, latest};
ghost use Rattle.journal_block.specs.Updates.{updates_block};
ghost use Rattle.journal_tail.specs.ObjectTails.{known_updates, tail_base, missing_blocks, updates_with, TakesPrepared, IfReady, IfMissing as IfUnready};
ghost use Rattle.journal_tail.specs.Writes.{writes_block, IsPrepared};
ghost use Rattle.journal_history.specs.Tokens.{made, next_transaction, OnlyExtends, IsReceiptFor};
ghost use Rattle.journal_lockmap.specs.Numbers.{AreApart, HoldsSlots, slots_of};
ghost use Rattle.journal_memory.specs.Rules.{KeepsMapRule, LeavesMapRule};
ghost use Rattle.journal_memory.specs.Ledgers.{HasSeen, ShowsLonger, IsAdmissionRefusal, IsAddingRefusal};
ghost use Rattle.journal_memory.specs.SlotCounts.{AgreeWith, AreUnder};
ghost use Rattle.journal_memory.specs.Transactions.{AreUnmoved};
ghost use Rattle.journal_memory.specs.Updates.{AreObjectsOf};
ghost use Rattle.journal_memory.specs.Outsets.{CanPrepare, CanCommit, IsCommitRefusal, IsPreparingRefusal};
ghost use Rattle.journal_memory.specs.Volatiles.{outset_of, usable};
ghost use Rattle.journal_memory.specs.VolatileCommits.{DoesCommit, IsAdded, IfDone, IfMissing, with_room};
ghost use Rattle.journal_memory.specs.VolatileHolds.{AnswersCommit};

use crate::cause::{Cause, raise};
use crate::fetched::Fetched;
use crate::limits::MAX_HISTORY_LENGTH;
use crate::refusal_number::RefusalNumber;
use crate::transaction::Transaction;
use crate::volatile::Volatile;
use journal_block::Update;
use journal_history::{Naming, Receipt, Session};
use journal_lockmap::Held;
use journal_tail::{Preparation, Prepared, Spares};
use journal_world::{MapRule, Objects, Refusal};
use std::sync::Wait;

/// The answer of a commit in memory.
#[derive(Drop)]
pub enum CommitStep<T> {
    /// It was made.
    Done(T),
    /// These blocks have to be fetched first, each once, in the order of the writes.
    Missing(Vec<u64>),
}

impl<'b, R: MapRule, J: Naming> Volatile<'b, R, J> {
    /// A hold of memory alone: commits the session's next transaction. It adds it to the history,
    /// which the session has then seen, and overwrites the map by its writes, in memory. A block
    /// that is written in part has to be in memory, or fetched and still usable. If some are not,
    /// nothing is committed, and the answer is these blocks.
    ///
    /// The slots of its reads and writes are held, each once. Their tokens are verified first. That
    /// shows that no other commit touched these slots. It does not block and compares no value.
    /// Then the held slots agree with the history too.
    ///
    /// # Errors
    /// The first that applies is answered. The history and the objects are as they were.
    /// - `J13 Closed`: it was stopped.
    /// - `J6 DeviceFailed`: the device failed before.
    /// - `J9 Stale`: the session, the transaction or the fetch has seen more of the history, or the
    ///   history is longer.
    /// - `J10 Stranger`: the history has a commit under the session's number that the session did
    ///   not make.
    /// - `J14 Fenced`: the session is fenced.
    /// - `J4 TooLarge`: more than 128 distinct blocks are written.
    /// - `J11 Worn`: the history's length, the session's number or a position of the log would
    ///   reach 2^62.
    /// - `J12 Full`: the tail has no room for the blocks that are not in it.
    /// - `J1 NoMemory`: memory is refused.
    pub fn commit<W: Wait>(
        &mut self,
        rt: &W,
        session: &mut Session<'b, J, R>,
        transaction: &Transaction<'b, J, R>,
        held: &mut [Held<J>],
        spares: &mut Spares,
        fetched: &Fetched<'b, J, R>,
    ) -> Result<CommitStep<Receipt<'b, J, R>>, Refusal<Cause<'b, J, R>>>
        requires rule { (m : Map) → m.layout ≡ J.layout → R.statement m → Agrees m transaction.now.reads
            → R.statement (overwritten m transaction.now.writes) }
        requires under { AreUnder J.layout held.old transaction.now.seen transaction.now.reads }
        requires covered { HoldsSlots J.layout held.old transaction.now.writes }
        requires apart { AreApart held.old }
        ensures agree { AgreeWith J.layout self.new.ledger.history held.new }
        ensures slots { slots_of held.new ≡ slots_of held.old }
        ensures held { OnErr result (held.new ≡ held.old) }
        ensures stays { IfOk result (IfMissing (λ _. held.new ≡ held.old)) }
        ensures commit { DoesCommit J.layout self.old session.old transaction.now fetched.now result self.new session.new }
        ensures event { AnswersCommit J.layout self.old session.old transaction.now fetched.now result self.new session.new }
    {
        self.verify_tokens(rt, held);
        // Called for its contract: the history is sound.
        let _front = self.front();
        let answer = self.commit_verified(rt, session, transaction, held, spares, fetched);
        self.prove_invariant();
        answer
    }

    // HEAD is looked at before anything is prepared, so that J9 and J10 come in their place. No
    // clause says so, because no fact of a caller says that a word was loaded. The exchange may
    // still find a longer history.
    /// Commits as `commit` does, once it was verified that no other commit touched the slots of its
    /// reads.
    ///
    /// # Errors
    /// Those of `commit`. The history and the objects are as they were.
    pub fn commit_verified<W: Wait>(
        &mut self,
        rt: &W,
        session: &mut Session<'b, J, R>,
        transaction: &Transaction<'b, J, R>,
        held: &mut [Held<J>],
        spares: &mut Spares,
        fetched: &Fetched<'b, J, R>,
    ) -> Result<CommitStep<Receipt<'b, J, R>>, Refusal<Cause<'b, J, R>>>
        requires rule { KeepsMapRule R.statement self.old.ledger.history transaction.now }
        requires unmoved { AreUnmoved J.layout self.old.ledger.history transaction.now }
        requires covered { HoldsSlots J.layout held.old transaction.now.writes }
        requires apart { AreApart held.old }
        ensures agree { IfOk result (IfDone (λ _. AgreeWith J.layout self.new.ledger.history held.new)) }
        ensures slots { slots_of held.new ≡ slots_of held.old }
        ensures held { OnErr result (held.new ≡ held.old) }
        ensures stays { IfOk result (IfMissing (λ _. held.new ≡ held.old)) }
        ensures commit { DoesCommit J.layout self.old session.old transaction.now fetched.now result self.new session.new }
    {
        self.check_running()?;
        self.admit(rt, session, transaction)?;
        let blocks = match self.usable(fetched) {
            Ok(blocks) => blocks,
            Err(why) => {
                session.see(&fetched.front);
                return Err(why);
            }
        };
        match self.prepare(session, &transaction.writes, spares, blocks)? {
            Preparation::Ready(prepared) => {
                let receipt = self.add(rt, session, transaction, held, prepared)?;
                self.prove_invariant();
                Ok(CommitStep::Done(receipt))
            }
            Preparation::Missing(blocks) => Ok(CommitStep::Missing(blocks)),
        }
    }

    // Refuses a commit by what is known of the session and of what the transaction has seen: J9 and
    // J14. Nothing changes but the history that the session has seen.
    fn admit<W: Wait>(
        &mut self,
        rt: &W,
        session: &mut Session<'b, J, R>,
        transaction: &Transaction<'b, J, R>,
    ) -> Result<(), Refusal<Cause<'b, J, R>>>
        requires unmoved { AreUnmoved J.layout self.old.ledger.history transaction.now }
        ensures same { self.new ≡ self.old }
        ensures own { OnOk result (length (commits_of session.old.number self.old.ledger.history) ≡ made session.old) }
        ensures unmoved { OnOk result (AreUnmoved (opened self.old.ledger.history).layout self.old.ledger.history transaction.now) }
        ensures seen { OnOk result (HasSeen self.old.ledger.history session.old transaction.now) }
        ensures unfenced { OnOk result (is_fenced session.old.number self.old.ledger.history ≡ false) }
        ensures agrees { OnOk result (IsTrue (is_trusted self.old.ledger.history) → Agrees (latest self.old.ledger.history) transaction.now.reads) }
        ensures session { OnlyExtends session.old session.new }
        ensures refusal { IfErr result (IsAdmissionRefusal self.old.ledger.history session.old transaction.now) }
        ensures longer { IfErr result (ShowsLonger self.old.ledger.history session.new) }
    {
        self.ledger.admit(rt, session, transaction)
    }

    // Makes the writes ready, with all the memory that they take, or answers the blocks that have
    // to be fetched first. Refuses by J4, J11 and J12, then J1. J11 comes between J4 and J12: the
    // object log is asked first, and where the history is worn only its J4 is passed on.
    fn prepare(
        &mut self,
        session: &Session<'b, J, R>,
        writes: &Objects,
        spares: &mut Spares,
        blocks: &[Update],
    ) -> Result<Preparation, Refusal<Cause<'b, J, R>>>
        requires objects { IsTrue (are_objects J.layout writes.now) }
        requires latest { IsTrue (is_trusted self.old.ledger.history) → AreObjectsOf J.layout (latest self.old.ledger.history) (known_updates blocks.now self.old.tail) }
        ensures ready { IfOk result (IfReady (TakesPrepared J.layout self.new.tail writes.now)) }
        ensures prepared { IfOk result (IfReady (λ prepared.
            IsPrepared true (tail_base J.layout blocks.now self.new.tail) (updates_with J.layout self.new.tail writes.now prepared) writes.now)) }
        ensures written { IsTrue (is_trusted self.old.ledger.history) → IfOk result (IfReady (λ prepared.
            AreObjectsOf J.layout (overwritten (latest self.old.ledger.history) writes.now) (updates_with J.layout self.new.tail writes.now prepared))) }
        ensures missing { IfOk result (IfUnready (λ missing. missing ≡ missing_blocks J.layout (known_updates blocks.now self.old.tail) writes.now)) }
        ensures below { IfOk result (IfUnready (λ missing. All (λ b. b < J.layout.blocks) missing)) }
        ensures some { IfOk result (IfUnready (λ missing. missing ≢ [])) }
        ensures can { OnOk result (CanPrepare (outset_of self.old) session.now writes.now) }
        ensures room { OnOk result ((length self.old.ledger.history + 1 < 2 ^ 62) × (session.now.number < 2 ^ 62)) }
        ensures refusal { IfErr result (IsPreparingRefusal (outset_of self.old) session.now writes.now) }
        ensures same { self.new ≡ with_room self.old self.new.tail.log.room }
    {
        let Volatile { layout, tail, .. } = self;
        let prepared = tail.prepare(layout.get(), writes, spares, blocks);
        if is_too_large(&prepared) {
            return Err(Refusal::TooLarge);
        }
        if self.ledger.len() >= MAX_HISTORY_LENGTH - 1 || session.number() >= MAX_HISTORY_LENGTH {
            return Err(Refusal::Worn(Cause::none(RefusalNumber::J11)));
        }
        raise(prepared)
    }

    // Adds the transaction to the history, and overwrites the objects.
    fn add<W: Wait>(
        &mut self,
        rt: &W,
        session: &mut Session<'b, J, R>,
        transaction: &Transaction<'b, J, R>,
        held: &mut [Held<J>],
        prepared: Prepared,
    ) -> Result<Receipt<'b, J, R>, Refusal<Cause<'b, J, R>>>
        requires reads { IsTrue (are_objects J.layout transaction.now.reads) }
        requires writes { IsTrue (are_objects J.layout transaction.now.writes) }
        requires rule { LeavesMapRule R.statement self.old.ledger.history transaction.now }
        requires agrees { IsTrue (is_trusted self.old.ledger.history) → Agrees (latest self.old.ledger.history) transaction.now.reads }
        requires own { length (commits_of session.old.number self.old.ledger.history) ≡ made session.old }
        requires unfenced { is_fenced session.old.number self.old.ledger.history ≡ false }
        requires room { length self.old.ledger.history + 1 < 2 ^ 62 }
        requires small { session.old.number < 2 ^ 62 }
        requires ready { TakesPrepared J.layout self.old.tail transaction.now.writes prepared }
        requires named { (b : ℕ) → updates_block (updates_with J.layout self.old.tail transaction.now.writes prepared) b ≡ writes_block transaction.now.writes b }
        requires written { IsTrue (is_trusted self.old.ledger.history)
            → AreObjectsOf J.layout (overwritten (latest self.old.ledger.history) transaction.now.writes) (updates_with J.layout self.old.tail transaction.now.writes prepared) }
        requires covered { HoldsSlots J.layout held.old transaction.now.writes }
        requires apart { AreApart held.old }
        ensures agree { OnOk result (AgreeWith J.layout self.new.ledger.history held.new) }
        ensures slots { slots_of held.new ≡ slots_of held.old }
        ensures held { OnErr result (held.new ≡ held.old) }
        ensures added { OnOk result (IsAdded (next_transaction session.old transaction.now.reads transaction.now.writes)
            (updates_with J.layout self.old.tail transaction.now.writes prepared) session.old session.new self.old self.new) }
        ensures receipt { IfOk result (IsReceiptFor (next_transaction session.old transaction.now.reads transaction.now.writes) self.new.ledger.history (length self.old.ledger.history)) }
        ensures refusal { IfErr result (IsAddingRefusal self.old.ledger.history) }
        ensures same { OnErr result (self.new ≡ self.old) }
        ensures session { OnErr result (OnlyExtends session.old session.new) }
        ensures longer { IfErr result (ShowsLonger self.old.ledger.history session.new) }
    {
        let receipt = self.ledger.commit(rt, session, transaction, held)?;
        // Nothing can fail from here on.
        let Volatile { layout, tail, .. } = self;
        tail.apply(layout.get(), prepared, &transaction.writes);
        Ok(receipt)
    }
}

// True if it is refused by J4.
fn is_too_large<T>(answer: &Result<T, Refusal<()>>) -> bool
    ensures { IsTrue result ↔ (answer.now ≡ Err TooLarge) }
{
    match answer {
        Ok(_) => false,
        Err(refusal) => matches!(refusal, Refusal::TooLarge),
    }
}
