// A step of the installer.
ghost use Rattle.std.specs.Prelude.{IfOk, IfErr, OnOk, OnErr};
ghost use Rattle.journal_parts.specs.CoreStates.{Crashes, IsRunning};
ghost use Rattle.journal_core.specs.Steps.{InstallAnswers, IsInstallRefusal, LeavesLog, TriesToInstall};
ghost use Rattle.journal_core.specs.Interleavings.{AnswersInstall};

use crate::pair_steps::install_step;
use crate::state::Core;
use journal_disk::BlockDisk;
use journal_history::Naming;
use journal_memory::Cause;
use journal_wal::InstallStep;
use journal_world::{MapRule, Refusal};

impl<'b, D: BlockDisk, R: MapRule, J: Naming> Core<'b, D, R, J> {
    /// Makes the next step of the installer, with at most one device call that changes the disk:
    /// writes one home block; makes a barrier; writes block 1; makes a barrier, after which the
    /// positions are free. It is idle if all that is logged is at home. The history stays.
    ///
    /// # Errors
    /// The history is as it was. J13 comes before all others.
    /// - `J13 Closed`: the core was stopped.
    /// - `J6 DeviceFailed`: the device failed, in this call or before.
    /// - `J1 NoMemory`: memory for the list of addresses is refused, at the first of these steps.
    pub fn install_step(&mut self) -> Result<InstallStep, Refusal<Cause<'b, J, R>>>
        ensures ok { IfOk result (λ step. InstallAnswers self.old step self.new) }
        ensures running { OnOk result (IsRunning self.old × IsRunning self.new) }
        ensures refusal { IfErr result (IsInstallRefusal self.old self.new) }
        ensures left { OnErr result (LeavesLog self.old self.new) }
        ensures tries { OnErr result (TriesToInstall self.old self.new) }
        ensures crash { Crashes self.old self.new }
        ensures event { AnswersInstall self.old result self.new }
    {
        self.check_running()?;
        let Core {
            durable,
            volatile,
            ..
        } = self;
        install_step(durable, volatile)
    }
}
