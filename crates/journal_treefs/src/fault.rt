// Why an attempt at a call is undone.
ghost use Rattle.std.specs.Prelude.{◌≡◌};
ghost use Rattle.journal_treefs.specs.Calls.{fault_of};

use journal_attempts::AttemptFault;
use journal_treeobjects::TreeFault;
use journal_world::Refusal;

// The reason of a call on a disk with a tree that was given up, whose transaction may have refused.
// A transaction that refuses leaves its reason. A number that names no object of the disk is
// `J2 BadAddress`.
pub(crate) fn fault_of<C: Drop>(
    fault: TreeFault,
    refused: Option<AttemptFault<C>>,
) -> AttemptFault<C>
    ensures { result ≡ fault_of fault refused }
{
    let no_memory = AttemptFault::Refused(Refusal::NoMemory);
    match fault {
        TreeFault::NoObject => AttemptFault::Refused(Refusal::BadAddress),
        TreeFault::NoMemory => no_memory,
        TreeFault::Transaction => refused.unwrap_or(no_memory),
    }
}
