// The memory part's fences.
ghost use Rattle.std.specs.Prelude.{◌≡◌, ◌<◌, ◌+◌, ◌^◌, true, false, length, IfErr, OnOk, OnErr};
ghost use Rattle.journal_world.specs.Histories.{is_fenced};
ghost use Rattle.journal_history.specs.Tokens.{OnlyExtends};
ghost use Rattle.journal_memory.specs.Ledgers.{IsAddingRefusal};
ghost use Rattle.journal_memory.specs.Fences.{AddsFence, SetsFence, IsFencingRefusal};

use crate::cause::Cause;
use crate::ledger::Ledger;
use crate::limits::MAX_HISTORY_LENGTH;
use crate::refusal_number::RefusalNumber;
use journal_history::{Naming, Session};
use journal_world::{HistoryLength, MapRule, Refusal, SessionNumber};
use std::sync::Wait;

impl<'b, R: MapRule, J: Naming> Ledger<'b, R, J> {
    /// Fences a session, by an entry of the history, if it has no fence yet. The session that is
    /// lent has then seen the whole history. Refuses by J9, J11 and J1. The ledger is then as it
    /// was.
    pub(crate) fn fence<W: Wait>(
        &mut self,
        rt: &W,
        session: &mut Session<'b, J, R>,
        target: SessionNumber,
    ) -> Result<(), Refusal<Cause<'b, J, R>>>
        ensures did { OnOk result (SetsFence target self.old self.new) }
        ensures shown { OnOk result (session.new.seen ≡ self.new.history) }
        ensures fenced { OnOk result (is_fenced target session.new.seen ≡ true) }
        ensures refusal { IfErr result (IsFencingRefusal target self.old.history) }
        ensures same { OnErr result (self.new ≡ self.old) }
        ensures session { OnlyExtends session.old session.new }
    {
        session.observe();
        self.show(session)?;
        if self.fenced.has(target) {
            return Ok(());
        }
        if self.len() >= MAX_HISTORY_LENGTH - 1 || target.get() >= MAX_HISTORY_LENGTH {
            return Err(Refusal::Worn(Cause::none(RefusalNumber::J11)));
        }
        self.add_fence(rt, session, target)
    }

    // Adds the fence to the history, which the session has then seen. Refuses by J1 and J9.
    fn add_fence<W: Wait>(
        &mut self,
        rt: &W,
        session: &mut Session<'b, J, R>,
        target: SessionNumber,
    ) -> Result<(), Refusal<Cause<'b, J, R>>>
        requires free { is_fenced target self.old.history ≡ false }
        requires room { length self.old.history + 1 < 2 ^ 62 }
        requires small { target < 2 ^ 62 }
        requires shown { session.old.seen ≡ self.old.history }
        ensures did { OnOk result (AddsFence target self.old self.new) }
        ensures shown { OnOk result (session.new.seen ≡ self.new.history) }
        ensures fenced { OnOk result (is_fenced target self.new.history ≡ true) }
        ensures refusal { IfErr result (IsAddingRefusal self.old.history) }
        ensures same { OnErr result (self.new ≡ self.old) }
        ensures session { OnlyExtends session.old session.new }
    {
        let len = HistoryLength::new(self.writer.len());
        self.fenced.reserve()?;
        if let Err(front) = self.writer.fence(target.get()) {
            session.see(&front);
            return Err(Refusal::Stale(Cause::of(RefusalNumber::J9, front)));
        }
        // Nothing can fail from here on.
        self.fenced.insert(target);
        self.sessions.raise(rt, target.following().get());
        self.lengths.add_non_commit(len);
        self.next = self.next.past(target);
        session.see(&self.writer.front());
        Ok(())
    }
}
