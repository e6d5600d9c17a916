// One commit becomes stable.
ghost use Rattle.std.specs.Prelude.{◌≡◌, IsTrue, IfOk, IfErr, OnOk, OnErr, false};
ghost use Rattle.journal_disk.specs.Disks.{Keeps};
ghost use Rattle.journal_parts.specs.CoreStates.{disk_of};
ghost use Rattle.journal_migrate.specs.Marking.{AwaitsMark, AddsMark, ComesNearer, IsRunningRefusal};

use journal_core::Core;
use journal_disk::BlockDisk;
use journal_history::Naming;
use journal_memory::Cause;
use journal_parts::LogStep;
use journal_world::{MapRule, Refusal};

/// Makes steps of the logger until the one commit is marked that is not, and a step of the
/// installer if the logger has none, because the log is full.
///
/// # Errors
/// The commit is not marked then.
/// - `J1 NoMemory`: memory is refused.
/// - `J6 DeviceFailed`: the device failed meanwhile.
/// - `J9 Stale`: the history is longer than the core's.
pub(crate) fn make_stable<'b, D: BlockDisk, R: MapRule, J: Naming>(
    core: &mut Core<'b, D, R, J>,
) -> Result<(), Refusal<Cause<'b, J, R>>>
    requires awaits { AwaitsMark core.old }
    ensures marked { OnOk result (AddsMark core.old core.new) }
    ensures refusal { IfErr result (IsRunningRefusal core.old core.new) }
    ensures same { OnErr result (core.new.history ≡ core.old.history) }
    ensures keeps { Keeps (disk_of core.old) (disk_of core.new) }
{
    loop {
        if step(core)? {
            return Ok(());
        }
    }
}

// Makes the next step. True if the commit is then marked.
fn step<'b, D: BlockDisk, R: MapRule, J: Naming>(
    core: &mut Core<'b, D, R, J>,
) -> Result<bool, Refusal<Cause<'b, J, R>>>
    requires awaits { AwaitsMark core.old }
    ensures marked { IfOk result (λ marked. IsTrue marked → AddsMark core.old core.new) }
    ensures goes_on { IfOk result (λ marked. marked ≡ false → ComesNearer core.old core.new) }
    ensures refusal { IfErr result (IsRunningRefusal core.old core.new) }
    ensures same { OnErr result (core.new.history ≡ core.old.history) }
    ensures keeps { Keeps (disk_of core.old) (disk_of core.new) }
{
    match core.log_step()? {
        LogStep::Marked(_) => Ok(true),
        LogStep::Idle => {
            core.install_step()?;
            Ok(false)
        }
        LogStep::Cut | LogStep::Put | LogStep::Logged => Ok(false),
    }
}
