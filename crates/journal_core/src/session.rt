// A further session.
ghost use Rattle.std.specs.Prelude.{◌≡◌, ◌≤◌, ◌^◌, ◌+◌, ◌↔◌, [], length, IsTrue, IfOk, IfErr, OnOk, OnErr};
ghost use Rattle.journal_world.specs.Histories.{floor};
ghost use Rattle.journal_history.specs.Tokens.{IsExact, OnlyExtends};
ghost use Rattle.journal_memory.specs.Waits.{MayWait, IsWaitRefusal};
ghost use Rattle.journal_parts.specs.CoreStates.{Crashes};
ghost use Rattle.journal_parts.specs.CoreParts.{outset};
ghost use Rattle.journal_core.specs.Steps.{BeginsSession, Stops, IsSessionRefusal, IsShowRefusal};
ghost use Rattle.journal_core.specs.Interleavings.{AnswersSession};

use crate::state::Core;
use journal_disk::BlockDisk;
use journal_history::{Naming, Session};
use journal_memory::Cause;
use journal_world::{CommitCount, MapRule, Refusal};
use std::sync::Wait;

impl<'b, D: BlockDisk, R: MapRule, J: Naming> Core<'b, D, R, J> {
    /// A session of a number that no session had before. The history has no commit and no fence of
    /// it. It has seen the whole history. The call takes no memory.
    ///
    /// # Errors
    /// - `J11 Worn`: the number would reach 2^62. Nothing changed.
    pub fn session_step(&mut self) -> Result<Session<'b, J, R>, Refusal<Cause<'b, J, R>>>
        ensures begun { IfOk result (λ session. BeginsSession self.old session self.new) }
        ensures refusal { IfErr result (IsSessionRefusal self.old) }
        ensures same { OnErr result (self.new ≡ self.old) }
        ensures crash { Crashes self.old self.new }
        ensures event { AnswersSession self.old result self.new }
    {
        self.volatile.session()
    }

    /// True if the first n commits are marked as stable. The session has then seen the whole
    /// history, and is exact.
    ///
    /// # Errors
    /// The first that applies is answered. The session is as it was.
    /// - `J13 Closed`: the core was stopped, and the first n commits are not marked.
    /// - `J6 DeviceFailed`: the device failed before, and the first n commits are not marked.
    /// - `J9 Stale`: the history is longer than the core's.
    /// - `J10 Stranger`: the history has a commit under the session's number that the session did
    ///   not make.
    pub fn wait_step<W: Wait>(
        &mut self,
        rt: &W,
        session: &mut Session<'b, J, R>,
        n: u64,
    ) -> Result<bool, Refusal<Cause<'b, J, R>>>
        ensures same { self.new ≡ self.old }
        ensures answer { IfOk result (λ marked. IsTrue marked ↔ (n ≤ floor self.old.history)) }
        ensures goes_on { OnOk result (MayWait (outset self.old) n) }
        ensures shown { OnOk result (session.new.seen ≡ self.old.history) }
        ensures exact { OnOk result (IsExact session.new) }
        ensures extends { OnlyExtends session.old session.new }
        ensures refusal { IfErr result (IsWaitRefusal (outset self.old) session.old n) }
        ensures stays { OnErr result (session.new ≡ session.old) }
    {
        self.volatile.wait_step(rt, session, CommitCount::new(n))
    }

    /// Stops the core: reads, commits and steps are refused by J13 from then on, and so are waits
    /// for marks that are not made yet. Nothing else changes.
    pub fn stop_step(&mut self)
        ensures stops { Stops self.old self.new }
    {
        self.volatile.stop();
    }

    /// Shows the session the whole history.
    ///
    /// # Errors
    /// - `J9 Stale`: the session had seen more of the history than the core. The session may then
    ///   have seen more.
    pub fn show_step(&self, session: &mut Session<'b, J, R>) -> Result<(), Refusal<Cause<'b, J, R>>>
        ensures extends { OnlyExtends session.old session.new }
        ensures shown { OnOk result (session.new.seen ≡ self.now.history) }
        ensures refusal { IfErr result (IsShowRefusal self.now) }
    {
        self.volatile.show_step(session)
    }
}
