// Fences, which memory alone adds.
ghost use Rattle.std.specs.Prelude.{◌≡◌, true, IfErr, OnOk, OnErr};
ghost use Rattle.journal_world.specs.Histories.{is_fenced};
ghost use Rattle.journal_history.specs.Tokens.{OnlyExtends};
ghost use Rattle.journal_memory.specs.Fences.{SetsFence, IsFenceRefusal};
ghost use Rattle.journal_memory.specs.Volatiles.{outset_of};
ghost use Rattle.journal_memory.specs.VolatileHolds.{AnswersFence};

use crate::cause::Cause;
use crate::volatile::Volatile;
use journal_history::{Naming, Session};
use journal_world::{MapRule, Refusal, SessionNumber};
use std::sync::Wait;

impl<'b, R: MapRule, J: Naming> Volatile<'b, R, J> {
    // A fenced number is given to no session, so a fence of a much greater number leaves fewer
    // numbers (J11 until the next opening). A program that may fence may also stop the journal.
    /// A hold of memory alone: fences a session, by an entry of the history, if it has no fence
    /// yet. None of its commits is added from then on, and no session gets its number. The session
    /// that is lent has then seen the whole history. It may be the one that is fenced.
    ///
    /// # Errors
    /// The first that applies is answered. The history is as it was, and the session may have seen
    /// more.
    /// - `J13 Closed`: it was stopped.
    /// - `J6 DeviceFailed`: the device failed before.
    /// - `J9 Stale`: the history is longer.
    /// - `J11 Worn`: it has no fence yet, and the history's length or the number to fence would
    ///   reach 2^62.
    /// - `J1 NoMemory`: memory is refused.
    pub fn fence_step<W: Wait>(
        &mut self,
        rt: &W,
        session: &mut Session<'b, J, R>,
        target: SessionNumber,
    ) -> Result<(), Refusal<Cause<'b, J, R>>>
        ensures did { OnOk result (SetsFence target self.old.ledger self.new.ledger) }
        ensures others { self.new ≡ record self.old { ledger = self.new.ledger } }
        ensures shown { OnOk result (session.new.seen ≡ self.new.ledger.history) }
        ensures fenced { OnOk result (is_fenced target session.new.seen ≡ true) }
        ensures refusal { IfErr result (IsFenceRefusal target (outset_of self.old)) }
        ensures same { OnErr result (self.new ≡ self.old) }
        ensures session { OnlyExtends session.old session.new }
        ensures event { AnswersFence J.layout target self.old result self.new }
    {
        let answer = self.set_fence(rt, session, target);
        self.prove_invariant();
        answer
    }

    // Fences a session as `fence_step` does.
    fn set_fence<W: Wait>(
        &mut self,
        rt: &W,
        session: &mut Session<'b, J, R>,
        target: SessionNumber,
    ) -> Result<(), Refusal<Cause<'b, J, R>>>
        ensures did { OnOk result (SetsFence target self.old.ledger self.new.ledger) }
        ensures others { self.new ≡ record self.old { ledger = self.new.ledger } }
        ensures shown { OnOk result (session.new.seen ≡ self.new.ledger.history) }
        ensures fenced { OnOk result (is_fenced target session.new.seen ≡ true) }
        ensures refusal { IfErr result (IsFenceRefusal target (outset_of self.old)) }
        ensures same { OnErr result (self.new ≡ self.old) }
        ensures session { OnlyExtends session.old session.new }
    {
        self.check_running()?;
        self.ledger.fence(rt, session, target)
    }
}
