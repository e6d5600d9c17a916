// The order in which the parts of a request are done.
ghost use Rattle.std.specs.Prelude.{◌≡◌, OnOk};
ghost use Rattle.std.specs.List.Sorted.{IsPermutation, IsNonDecreasingBy};
ghost use Rattle.journal_world.specs.Maps.{SamePairs};
ghost use Rattle.journal_port.specs.Requests.{order_of, compared, written};

use journal_disk::BlockDisk;
use journal_history::Naming;
use journal_records::{Action, Part};
use journal_twophase::Journal;
use journal_world::AnyMap;
use std::alloc::AllocError;

// Puts the parts in the order in which they are done. What they compare and write stays.
pub(crate) fn sort<'b, D: BlockDisk, J: Naming>(
    journal: &Journal<'b, D, AnyMap, J>,
    parts: &mut Vec<Part>,
) -> Result<(), AllocError>
    ensures ascending { OnOk result (IsNonDecreasingBy (order_of J.layout) parts.new.items) }
    ensures permutation { OnOk result (IsPermutation parts.old.items parts.new.items) }
    ensures compared { OnOk result (SamePairs (compared parts.new.items) (compared parts.old.items)) }
    ensures written { OnOk result (SamePairs (written parts.new.items) (written parts.old.items)) }
{
    parts.sort_by_key(|part| order(journal, part))?;
    Ok(())
}

// Where a part comes in its transaction: by slot, so that slots are taken in ascending order, and
// under one slot those that compare first.
fn order<'b, D: BlockDisk, J: Naming>(journal: &Journal<'b, D, AnyMap, J>, part: &Part) -> u32
    ensures { result ≡ order_of J.layout part.now }
{
    let slot = u32::from(journal.slot_of(part.addr));
    match part.action {
        Action::Compare => slot * 2,
        Action::Write => slot * 2 + 1,
    }
}
