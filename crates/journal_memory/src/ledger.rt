// The core's ledger: its history, and the counts beside it.
ghost use Rattle.std.specs.Prelude.{ℕ, ◌≡◌, ◌≢◌, [], false, length, replicate, IsTrue, IfErr, OnOk};
ghost use mathlib.Core.List.{IsPrefix};
ghost use Rattle.journal_world.specs.Histories.{opened, is_fenced, commits, count, floor};
ghost use Rattle.journal_history.specs.Soundness.{IsSound};
ghost use Rattle.journal_memory.specs.Ledgers.{IsCheckRefusal};
ghost use Rattle.journal_memory.specs.SlotCounts.{AgreeUpTo, AgreeWith};

use crate::cause::Cause;
use crate::fenced_sessions::FencedSessions;
use crate::marked_lengths::MarkedLengths;
use crate::refusal_number::RefusalNumber;
use crate::transaction::Transaction;
use journal_history::{Front, Naming, SessionCounts, Writer};
use journal_lockmap::{Held, SlotCounts};
use journal_world::{CommitCount, HistoryLength, MapRule, Refusal, SessionNumber};
use std::alloc::Global;
use std::marker::Model;
use std::sync::Wait;

/// The core's knowledge without its disk: the history, the counts beside it, and the sessions that
/// may go on.
///
/// It holds no device and no log, so none of its functions waits for a device call.
#[derive(Drop)]
pub struct Ledger<'b, R: MapRule, J: Naming> {
    pub(crate) writer: Writer<'b, J, R>,
    // The number of commits at the last cut.
    pub(crate) cut: CommitCount,
    pub(crate) lengths: MarkedLengths,
    // The number of commits of each session, the fenced sessions, and the number of the next
    // session.
    pub(crate) sessions: SessionCounts<J>,
    pub(crate) fenced: FencedSessions,
    pub(crate) next: SessionNumber,
    // It was stopped.
    pub(crate) closed: bool,
    // The number of commits that touched each slot.
    pub(crate) slots: SlotCounts<J>,
}

impl<'b, R: MapRule, J: Naming> Model for Ledger<'b, R, J> {
    ghost use Rattle.journal_memory.specs.Ledgers.{LedgerState, IsLedger};

    ghost Value = { LedgerState };

    ghost view = { λ m. record { history = m.writer; cut = m.cut; next = m.next; closed = m.closed } };

    ghost invariant = { λ m. IsLedger J.layout m.fenced.runs m.sessions m.slots m.lengths (record { history = m.writer; cut = m.cut; next = m.next; closed = m.closed }) };
}

impl<'b, R: MapRule, J: Naming> Ledger<'b, R, J> {
    /// A history without commits and fences, and no session. The call takes no memory.
    pub fn new(
        alloc: Global,
        writer: Writer<'b, J, R>,
        slots: SlotCounts<J>,
        sessions: SessionCounts<J>,
    ) -> Ledger<'b, R, J>
        requires none { commits writer ≡ [] }
        requires unmarked { floor writer ≡ 0 }
        requires unfenced { (s : ℕ) → is_fenced s writer ≡ false }
        requires slots { slots ≡ replicate J.layout.slots 0 }
        requires sessions { sessions ≡ [] }
        ensures { result ≡ record { history = writer.entry; cut = 0; next = 0; closed = false } }
    {
        let len = HistoryLength::new(writer.len());
        Ledger {
            writer,
            cut: CommitCount::new(0),
            lengths: MarkedLengths {
                marked: len,
                cut: len,
            },
            sessions,
            fenced: FencedSessions::new(alloc),
            next: SessionNumber::new(0),
            closed: false,
            slots,
        }
    }

    /// The number of entries of the history.
    pub(crate) fn len(&self) -> u64
        ensures length { result ≡ length self.now.history }
        ensures begun { self.now.history ≢ [] }
    {
        self.writer.len()
    }

    /// The number of commits of the history.
    pub(crate) fn count(&self) -> CommitCount
        ensures { result ≡ count self.now.history }
    {
        self.writer.count()
    }

    /// The greatest mark of the history.
    pub(crate) fn floor(&self) -> CommitCount
        ensures { result ≡ floor self.now.history }
    {
        self.writer.floor()
    }

    /// True if it was stopped.
    pub(crate) fn is_closed(&self) -> bool
        ensures { result ≡ self.now.closed }
    {
        self.closed
    }

    /// The whole history, which is sound.
    pub fn front(&self) -> Front<'b, J, R>
        ensures history { result ≡ self.now.history }
        ensures size { (opened self.now.history).layout ≡ J.layout }
        ensures sound { IsSound R.statement self.now.history }
    {
        // Called for its contract: the history is sound.
        let _len = self.writer.len();
        self.writer.front()
    }

    /// Shows that the held slots agree with the history: as many commits touched each slot as its
    /// token says. Nothing changes.
    pub(crate) fn verify_tokens<W: Wait>(&mut self, rt: &W, held: &mut [Held<J>])
        ensures same { self.new ≡ self.old }
        ensures held { held.new ≡ held.old }
        ensures agree { AgreeWith J.layout self.old.history held.old }
    {
        self.slots.verify_tokens(rt, held, 0);
    }

    /// Shows the same of held slots of which the first `known` agree with the history of a front.
    /// They are not looked at where nothing was added to that history.
    pub(crate) fn verify_new_tokens<W: Wait>(
        &mut self,
        rt: &W,
        front: &Front<'b, J, R>,
        known: usize,
        held: &mut [Held<J>],
    )
        requires known { AgreeUpTo J.layout front.now known held.old }
        ensures same { self.new ≡ self.old }
        ensures held { held.new ≡ held.old }
        ensures agree { AgreeWith J.layout self.old.history held.old }
    {
        let from = if self.is_at(front) { known } else { 0 };
        self.slots.verify_tokens(rt, held, from);
    }

    // True if the front has the whole history.
    fn is_at(&self, front: &Front<'b, J, R>) -> bool
        ensures { IsTrue result → front.now ≡ self.now.history }
    {
        if front.len() != self.writer.len() {
            return false;
        }
        // Called for its contract: the one of two fronts that is not longer begins the other.
        let mut both = self.writer.front();
        both.see(front);
        true
    }

    /// Refuses by J9 a transaction that has seen more of the history.
    pub(crate) fn check_transaction(
        &self,
        transaction: &Transaction<'b, J, R>,
    ) -> Result<(), Refusal<Cause<'b, J, R>>>
        ensures later { OnOk result (IsPrefix transaction.now.seen self.now.history) }
        ensures refusal { IfErr result (IsCheckRefusal self.now.history transaction.now) }
    {
        let mut front = self.writer.front();
        front.see(&transaction.front);
        if front.len() > self.writer.len() {
            return Err(Refusal::Stale(Cause::of(RefusalNumber::J9, front)));
        }
        Ok(())
    }
}
