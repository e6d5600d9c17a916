// Why a script was given up.

use journal_world::Refusal;
use std::alloc::AllocError;

/// Why not all lines of a script were read and answered.
#[derive(Debug, Drop)]
pub enum ScriptFault {
    /// The opening before the first line was refused, or the closing after the last.
    Refused(Refusal<()>),
    /// The input failed.
    CannotRead,
    /// The output failed.
    CannotWrite,
}

impl ScriptFault {
    /// It was refused.
    pub(crate) fn refused<C: Drop>(why: Refusal<C>) -> ScriptFault {
        ScriptFault::Refused(why.with_cause(()))
    }
}

impl From<AllocError> for ScriptFault {
    ghost use Rattle.std.specs.Prelude.{◌≡◌};
    ghost use Rattle.journal_script.specs.declared.script_fault.ScriptFault.TheVariants.{Refused};
    ghost use Rattle.journal_world.specs.declared.refusal.Refusal.TheVariants.{NoMemory};

    ghost from_gives = { λ _ stop. stop ≡ Refused NoMemory };

    fn from(_error: AllocError) -> ScriptFault {
        ScriptFault::Refused(Refusal::NoMemory)
    }
}
