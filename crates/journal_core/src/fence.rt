// A fence.
ghost use Rattle.std.specs.Prelude.{◌≡◌, true, IfErr, OnOk, OnErr};
ghost use Rattle.journal_world.specs.Histories.{is_fenced};
ghost use Rattle.journal_history.specs.Tokens.{OnlyExtends};
ghost use Rattle.journal_parts.specs.CoreStates.{Crashes};
ghost use Rattle.journal_core.specs.FenceSteps.{SetsFence, IsFenceRefusal, AnswersFence};

use crate::state::Core;
use journal_disk::BlockDisk;
use journal_history::{Naming, Session};
use journal_memory::Cause;
use journal_world::{MapRule, Refusal, SessionNumber};
use std::sync::Wait;

impl<'b, D: BlockDisk, R: MapRule, J: Naming> Core<'b, D, R, J> {
    /// Fences a session, by an entry of the history, if it has no fence yet. None of its commits is
    /// added from then on, and no session gets its number. The session that is lent has then seen
    /// the whole history. It may be the one that is fenced. It makes no device call.
    ///
    /// # Errors
    /// The first that applies is answered. The history is as it was, and the session may have seen
    /// more.
    /// - `J13 Closed`: the core was stopped.
    /// - `J6 DeviceFailed`: the device failed before.
    /// - `J9 Stale`: the history is longer than the core's.
    /// - `J11 Worn`: it has no fence yet, and the history's length or the number to fence would
    ///   reach 2^62.
    /// - `J1 NoMemory`: memory is refused.
    pub fn fence_step<W: Wait>(
        &mut self,
        rt: &W,
        session: &mut Session<'b, J, R>,
        target: u64,
    ) -> Result<(), Refusal<Cause<'b, J, R>>>
        ensures did { OnOk result (SetsFence target self.old self.new) }
        ensures shown { OnOk result (session.new.seen ≡ self.new.history) }
        ensures fenced { OnOk result (is_fenced target session.new.seen ≡ true) }
        ensures refusal { IfErr result (IsFenceRefusal target self.old) }
        ensures same { OnErr result (self.new ≡ self.old) }
        ensures session { OnlyExtends session.old session.new }
        ensures crash { Crashes self.old self.new }
        ensures event { AnswersFence target self.old result self.new }
    {
        self.volatile
            .fence_step(rt, session, SessionNumber::new(target))
    }
}
