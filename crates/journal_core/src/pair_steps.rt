// Steps of both parts for one thread, of a pair that is tied: the same holds as threads make, one
// after the other. Each step makes at most one call of the device. If it fails, both parts know of
// it.
ghost use Rattle.std.specs.Prelude.{◌≡◌, ◌<◌, false, true, map, IsTrue, IfOk, IfErr, OnOk, OnErr, All};
ghost use Rattle.journal_objlog.specs.ObjectLogs.{OnlyReads};
ghost use Rattle.journal_parts.specs.CoreStates.{IsRunning, Crashes};
ghost use Rattle.journal_parts.specs.CoreParts.{IsPair, core_of};
ghost use Rattle.journal_parts.specs.Durables.{IsCallRefusal, Crashes as CrashesDurable};
ghost use Rattle.journal_core.specs.Interleavings.{AnswersFetch};
ghost use Rattle.journal_core.specs.Steps.{LogAnswers, IsLogRefusal, InstallAnswers, IsInstallRefusal, LeavesLog, TriesToLog, TriesToInstall};

use journal_block::Update;
use journal_disk::BlockDisk;
use journal_history::Naming;
use journal_memory::{Cause, Fetched, Volatile};
use journal_parts::{Durable, InstallCall, InstallFault, LogCall, LogStep};
use journal_wal::InstallStep;
use journal_world::{MapRule, Refusal};

/// Makes the next step of the logger: the device call of the group in flight that is due, or if
/// none is in flight the work of both parts that is due.
pub(crate) fn log_step<'b, D: BlockDisk, R: MapRule, J: Naming>(
    durable: &mut Durable<'b, D, R, J>,
    volatile: &mut Volatile<'b, R, J>,
) -> Result<LogStep, Refusal<Cause<'b, J, R>>>
    requires pair { IsPair J.layout volatile.old durable.old }
    requires running { IsRunning (core_of volatile.old durable.old) }
    ensures ok { IfOk result (λ step. LogAnswers (core_of volatile.old durable.old) step (core_of volatile.new durable.new)) }
    ensures running { OnOk result (IsRunning (core_of volatile.new durable.new)) }
    ensures refusal { IfErr result (IsLogRefusal (core_of volatile.old durable.old) (core_of volatile.new durable.new)) }
    ensures left { OnErr result (LeavesLog (core_of volatile.old durable.old) (core_of volatile.new durable.new)) }
    ensures tries { OnErr result (TriesToLog (core_of volatile.old durable.old) (core_of volatile.new durable.new)) }
    ensures pair { IsPair J.layout volatile.new durable.new }
    ensures fine { OnOk result (volatile.new.faulted ≡ false) }
    ensures crash { Crashes (core_of volatile.old durable.old) (core_of volatile.new durable.new) }
{
    match durable.log_call() {
        Ok(LogCall::Put) => Ok(LogStep::Put),
        Ok(LogCall::Logged) => Ok(LogStep::Logged),
        Ok(LogCall::AtRest(rest)) => durable.mark_or_cut(volatile, rest),
        Err(fault) => {
            let why = durable.note_fault(volatile, fault);
            Err(why)
        }
    }
}

/// Makes the next step of the installer. Blocks that are then at home are dropped from memory.
pub(crate) fn install_step<'b, D: BlockDisk, R: MapRule, J: Naming>(
    durable: &mut Durable<'b, D, R, J>,
    volatile: &mut Volatile<'b, R, J>,
) -> Result<InstallStep, Refusal<Cause<'b, J, R>>>
    requires pair { IsPair J.layout volatile.old durable.old }
    requires running { IsRunning (core_of volatile.old durable.old) }
    ensures ok { IfOk result (λ step. InstallAnswers (core_of volatile.old durable.old) step (core_of volatile.new durable.new)) }
    ensures running { OnOk result (IsRunning (core_of volatile.new durable.new)) }
    ensures refusal { IfErr result (IsInstallRefusal (core_of volatile.old durable.old) (core_of volatile.new durable.new)) }
    ensures left { OnErr result (LeavesLog (core_of volatile.old durable.old) (core_of volatile.new durable.new)) }
    ensures tries { OnErr result (TriesToInstall (core_of volatile.old durable.old) (core_of volatile.new durable.new)) }
    ensures pair { IsPair J.layout volatile.new durable.new }
    ensures crash { Crashes (core_of volatile.old durable.old) (core_of volatile.new durable.new) }
{
    match durable.install_call() {
        Ok(InstallCall::Idle) => Ok(InstallStep::Idle),
        Ok(InstallCall::Put) => Ok(InstallStep::Put),
        Ok(InstallCall::Freed(freed)) => Ok(durable.trim(volatile, freed)),
        Err(InstallFault::NoMemory) => Err(Refusal::NoMemory),
        Err(InstallFault::Failed(fault)) => {
            let why = durable.note_fault(volatile, fault);
            Err(why)
        }
    }
}

/// Reads blocks as they are logged.
pub(crate) fn fetch_step<'b, D: BlockDisk, R: MapRule, J: Naming>(
    durable: &mut Durable<'b, D, R, J>,
    volatile: &mut Volatile<'b, R, J>,
    updates: Vec<Update>,
) -> Result<Fetched<'b, J, R>, Refusal<Cause<'b, J, R>>>
    requires blocks { All (λ u. u.block < J.layout.blocks) updates.items }
    requires pair { IsPair J.layout volatile.old durable.old }
    requires running { IsRunning (core_of volatile.old durable.old) }
    ensures front { IfOk result (λ fetched. fetched.front ≡ durable.new.front) }
    ensures commits { IfOk result (λ fetched. fetched.commits ≡ durable.new.logged) }
    ensures named { IfOk result (λ fetched. map (λ u. u.block) fetched.updates ≡ map (λ u. u.block) updates.items) }
    ensures volatile { OnOk result (volatile.new ≡ volatile.old) }
    ensures failed { OnErr result (volatile.new ≡ record volatile.old { faulted = true }) }
    ensures refusal { IfErr result (IsCallRefusal durable.old durable.new) }
    ensures reads { OnlyReads durable.old.objects durable.new.objects }
    ensures others { durable.new ≡ record durable.old { objects = durable.new.objects } }
    ensures pair { IsPair J.layout volatile.new durable.new }
    ensures crash { CrashesDurable durable.old durable.new }
    ensures event { AnswersFetch J.layout (core_of volatile.old durable.old) (map (λ u. u.block) updates.items) result (core_of volatile.new durable.new) }
{
    match durable.fetch(updates) {
        Ok(fetched) => Ok(fetched),
        Err(fault) => {
            let why = durable.note_fault(volatile, fault);
            Err(why)
        }
    }
}
