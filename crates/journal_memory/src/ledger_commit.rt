// The entries that the ledger adds to the history.
ghost use Rattle.std.specs.Prelude.{◌≡◌, ◌≢◌, ◌<◌, ◌≤◌, ◌+◌, ◌^◌, ◌++◌, ◌∷◌, ◌⊎◌, [], max, false, IsTrue, length, IfOk, IfErr, OnOk, OnErr};
ghost use Rattle.journal_world.specs.Maps.{Agrees, are_objects};
ghost use Rattle.journal_world.specs.Histories.{opened, is_trusted, is_fenced, commits_of, count, floor, latest};
ghost use Rattle.journal_world.specs.Histories.Entry.{stable};
ghost use Rattle.journal_history.specs.Tokens.{made, next_transaction, OnlyExtends, Commits, IsReceiptFor};
ghost use Rattle.journal_memory.specs.Rules.{LeavesMapRule};
ghost use Rattle.journal_memory.specs.Ledgers.{HasSeen, ShowsLonger, IsStaleRefusal, IsAdmissionRefusal, IsAddingRefusal, IsMarkRefusal};
ghost use Rattle.journal_lockmap.specs.Numbers.{AreApart, HoldsSlots, slots_of};
ghost use Rattle.journal_memory.specs.SlotCounts.{AgreeWith};
ghost use Rattle.journal_memory.specs.Transactions.{AreUnmoved};

use crate::cause::Cause;
use crate::ledger::Ledger;
use crate::limits::MAX_HISTORY_LENGTH;
use crate::refusal_number::RefusalNumber;
use crate::transaction::Transaction;
use journal_history::{Naming, Receipt, Session};
use journal_lockmap::Held;
use journal_world::{CommitCount, HistoryLength, MapRule, Refusal, SessionNumber};
use std::sync::Wait;

impl<'b, R: MapRule, J: Naming> Ledger<'b, R, J> {
    /// Refuses a commit by what is known of the session and of what the transaction has seen: J9
    /// and J14. The session has then seen the history as it is, or the longer one. A check of the
    /// session's token shows that the session made all commits under its number, so J10 never
    /// comes.
    pub(crate) fn admit<W: Wait>(
        &mut self,
        rt: &W,
        session: &mut Session<'b, J, R>,
        transaction: &Transaction<'b, J, R>,
    ) -> Result<(), Refusal<Cause<'b, J, R>>>
        requires unmoved { AreUnmoved J.layout self.old.history transaction.now }
        ensures same { self.new ≡ self.old }
        ensures own { OnOk result (length (commits_of session.old.number self.old.history) ≡ made session.old) }
        ensures unmoved { OnOk result (AreUnmoved (opened self.old.history).layout self.old.history transaction.now) }
        ensures seen { OnOk result (HasSeen self.old.history session.old transaction.now) }
        ensures unfenced { OnOk result (is_fenced session.old.number self.old.history ≡ false) }
        ensures agrees { OnOk result (IsTrue (is_trusted self.old.history) → Agrees (latest self.old.history) transaction.now.reads) }
        ensures session { OnlyExtends session.old session.new }
        ensures refusal { IfErr result (IsAdmissionRefusal self.old.history session.old transaction.now) }
        ensures longer { IfErr result (ShowsLonger self.old.history session.new) }
    {
        // Called for its contract: the layout of the history.
        let _len = self.writer.len();
        self.sessions.verify_session(rt, session);
        self.catch_up(session, transaction)?;
        // Called for its contract: the reads of the transaction.
        let _front = transaction.front();
        if self.fenced.has(SessionNumber::new(session.number())) {
            return Err(Refusal::Fenced);
        }
        Ok(())
    }

    // Shows the session all that is known of the history. Refuses by J9 if that is more than the
    // core knows. J9 lasts without a flag: a refused session has then seen more than the core, so
    // it commits no more. Of other sessions it follows from the book, whose HEAD never falls and
    // which each commit looks at first.
    fn catch_up(
        &self,
        session: &mut Session<'b, J, R>,
        transaction: &Transaction<'b, J, R>,
    ) -> Result<(), Refusal<Cause<'b, J, R>>>
        ensures seen { OnOk result (HasSeen self.now.history session.old transaction.now) }
        ensures whole { OnOk result (session.new.seen ≡ self.now.history) }
        ensures session { OnlyExtends session.old session.new }
        ensures refusal { IfErr result (IsStaleRefusal self.now.history) }
        ensures longer { IfErr result (ShowsLonger self.now.history session.new) }
    {
        session.observe();
        session.see(&transaction.front);
        self.show(session)
    }

    /// Adds the session's next transaction to the history. Refuses by J9. The ledger is then as it
    /// was.
    pub(crate) fn commit<W: Wait>(
        &mut self,
        rt: &W,
        session: &mut Session<'b, J, R>,
        transaction: &Transaction<'b, J, R>,
        held: &mut [Held<J>],
    ) -> Result<Receipt<'b, J, R>, Refusal<Cause<'b, J, R>>>
        requires reads { IsTrue (are_objects J.layout transaction.now.reads) }
        requires writes { IsTrue (are_objects J.layout transaction.now.writes) }
        requires rule { LeavesMapRule R.statement self.old.history transaction.now }
        requires agrees { IsTrue (is_trusted self.old.history) → Agrees (latest self.old.history) transaction.now.reads }
        requires own { length (commits_of session.old.number self.old.history) ≡ made session.old }
        requires unfenced { is_fenced session.old.number self.old.history ≡ false }
        requires room { length self.old.history + 1 < 2 ^ 62 }
        requires small { session.old.number < 2 ^ 62 }
        requires apart { AreApart held.old }
        requires covered { HoldsSlots J.layout held.old transaction.now.writes }
        ensures agree { OnOk result (AgreeWith J.layout self.new.history held.new) }
        ensures slots { slots_of held.new ≡ slots_of held.old }
        ensures held { OnErr result (held.new ≡ held.old) }
        ensures committed { OnOk result (Commits (next_transaction session.old transaction.now.reads transaction.now.writes) session.old session.new self.old.history self.new.history) }
        ensures others { OnOk result (self.new ≡ record self.old { history = self.new.history; next = max self.old.next (session.old.number + 1) }) }
        ensures begun { self.old.history ≢ [] }
        ensures cut { self.new.cut ≡ self.old.cut }
        ensures receipt { IfOk result (IsReceiptFor (next_transaction session.old transaction.now.reads transaction.now.writes) self.new.history (length self.old.history)) }
        ensures refusal { IfErr result (IsAddingRefusal self.old.history) }
        ensures same { OnErr result (self.new ≡ self.old) }
        ensures session { OnErr result (OnlyExtends session.old session.new) }
        ensures longer { IfErr result (ShowsLonger self.old.history session.new) }
    {
        // Called for its contract: there is an opening.
        let _len = self.writer.len();
        let number = SessionNumber::new(session.number());
        let writer = &mut self.writer;
        let receipt = match writer.commit(rt, &mut self.sessions, session, transaction) {
            Ok(receipt) => receipt,
            Err(front) => {
                session.see(&front);
                return Err(Refusal::Stale(Cause::of(RefusalNumber::J9, front)));
            }
        };
        // Nothing can fail from here on.
        self.slots.count_writes(rt, held, &transaction.writes);
        self.next = self.next.past(number);
        Ok(receipt)
    }

    /// The number of commits at the last cut.
    pub(crate) fn cut(&self) -> CommitCount
        ensures { result ≡ self.now.cut }
    {
        self.cut
    }

    /// Notes a cut of all commits that there are.
    pub(crate) fn note_cut(&mut self)
        ensures { self.new ≡ record self.old { cut = count self.old.history } }
    {
        self.cut = self.writer.count();
        self.lengths.cut = HistoryLength::new(self.writer.len());
    }

    /// Marks the first n commits as stable, those at the last cut or all, and publishes the mark.
    /// Refuses by J11 and J9. The ledger is then as it was.
    pub(crate) fn mark(&mut self, n: CommitCount) -> Result<(), Refusal<Cause<'b, J, R>>>
        requires rises { floor self.old.history ≤ n }
        requires made { n ≤ count self.old.history }
        requires due { (n ≡ self.old.cut) ⊎ (n ≡ count self.old.history) }
        ensures added { OnOk result (self.new ≡ record self.old { history = self.old.history ++ stable n ∷ []; cut = n }) }
        ensures begun { self.old.history ≢ [] }
        ensures refusal { IfErr result (IsMarkRefusal self.old.history) }
        ensures same { OnErr result (self.new ≡ self.old) }
    {
        if self.writer.len() >= MAX_HISTORY_LENGTH - 1 {
            return Err(Refusal::Worn(Cause::none(RefusalNumber::J11)));
        }
        if let Err(front) = self.writer.mark(n) {
            return Err(Refusal::Stale(Cause::of(RefusalNumber::J9, front)));
        }
        self.writer.publish_floor();
        self.cut = n;
        if n == self.writer.count() {
            self.lengths.cut = HistoryLength::new(self.writer.len());
        }
        self.lengths.marked = self.lengths.cut;
        Ok(())
    }
}
