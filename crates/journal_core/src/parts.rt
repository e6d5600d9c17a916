// The core's two parts, apart: for a lock of each.
ghost use Rattle.std.specs.Prelude.{◌≡◌};
ghost use Rattle.journal_parts.specs.CoreParts.{IsPair, core_of};
ghost use Rattle.journal_parts.specs.Holds.{IsBetween};

use crate::state::Core;
use journal_disk::BlockDisk;
use journal_history::Naming;
use journal_memory::Volatile;
use journal_parts::Durable;
use journal_world::MapRule;

impl<'b, D: BlockDisk, R: MapRule, J: Naming> Core<'b, D, R, J> {
    /// Its two parts, for a lock of each. None of their own calls asks for the facts that tie them:
    /// each tests the facts that it needs of the other part where both are held.
    #[tactic(auto, using(journal_parts::proofs::Between::between_pair))]
    pub fn into_parts(self) -> (Durable<'b, D, R, J>, Volatile<'b, R, J>)
        ensures parts { core_of result.1 result.0 ≡ self.entry }
        ensures pair { IsPair J.layout result.1 result.0 }
        ensures between { IsBetween J.layout result.1 result.0 }
    {
        let Core {
            durable,
            volatile,
            ..
        } = self;
        (durable, volatile)
    }
}
