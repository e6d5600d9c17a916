// A step of the logger, or a mark.
ghost use Rattle.std.specs.Prelude.{IfOk, IfErr, OnOk, OnErr};
ghost use Rattle.journal_parts.specs.CoreStates.{Crashes, IsRunning};
ghost use Rattle.journal_core.specs.Steps.{LogAnswers, IsLogRefusal, LeavesLog, TriesToLog};
ghost use Rattle.journal_core.specs.Interleavings.{AnswersLog};

use crate::pair_steps::log_step;
use crate::state::Core;
use journal_disk::BlockDisk;
use journal_history::Naming;
use journal_memory::Cause;
use journal_parts::LogStep;
use journal_world::{MapRule, Refusal};

impl<'b, D: BlockDisk, R: MapRule, J: Naming> Core<'b, D, R, J> {
    /// Makes the next step of the logger, with at most one device call that changes the disk: the
    /// next step of the group in flight; if its cycle ended, the mark of its commits; a cut; if
    /// nothing awaits logging, the mark of commits that wrote nothing. It is idle if none of these
    /// is due.
    ///
    /// # Errors
    /// Nothing is then marked. J13 comes before all others.
    /// - `J13 Closed`: the core was stopped.
    /// - `J6 DeviceFailed`: the device failed, in this call or before.
    /// - `J9 Stale`: the history is longer than the core's.
    /// - `J11 Worn`: the history's length would reach 2^62.
    /// - `J1 NoMemory`: memory for a group is refused, which is then not cut.
    pub fn log_step(&mut self) -> Result<LogStep, Refusal<Cause<'b, J, R>>>
        ensures ok { IfOk result (λ step. LogAnswers self.old step self.new) }
        ensures running { OnOk result (IsRunning self.old × IsRunning self.new) }
        ensures refusal { IfErr result (IsLogRefusal self.old self.new) }
        ensures left { OnErr result (LeavesLog self.old self.new) }
        ensures tries { OnErr result (TriesToLog self.old self.new) }
        ensures crash { Crashes self.old self.new }
        ensures event { AnswersLog self.old result self.new }
    {
        self.check_running()?;
        let Core {
            durable,
            volatile,
            ..
        } = self;
        log_step(durable, volatile)
    }
}
