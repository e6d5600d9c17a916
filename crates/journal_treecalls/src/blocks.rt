// A block for a node that gets one.
ghost use Rattle.std.specs.Prelude.{◌≡◌, [], IfOk};
ghost use Rattle.journal_treecalls.specs.Disks.{Learns};
ghost use Rattle.journal_treecalls.specs.Rooms.{IsInsidePlace};
ghost use Rattle.journal_treecalls.specs.Symlinks.{IsOther};

use crate::TreeDisk;
use crate::growth::is_taken;
use crate::room::{NewPlace, free_block};

// The first of the spare blocks that nobody has, and that the directory does not get for a place.
pub(crate) fn other_of<T: TreeDisk>(
    disk: &mut T,
    place: &NewPlace,
    spare: &[u32],
) -> Result<Option<u32>, T::Fault>
    requires first { T.writes disk.old ≡ [] }
    requires inside { IsInsidePlace place.now }
    ensures learns { IfOk result (λ found. Learns (T.may_be disk.old) (T.may_be disk.new) (λ V. IsOther V place.now found)) }
    ensures first { T.writes disk.new ≡ [] }
{
    for block in spare {
        match other_block(disk, place, *block)? {
            Some(free) => return Ok(Some(free)),
            None => {}
        }
    }
    Ok(None)
}

// The block, if nobody has it, and the directory does not get it.
fn other_block<T: TreeDisk>(
    disk: &mut T,
    place: &NewPlace,
    block: u32,
) -> Result<Option<u32>, T::Fault>
    requires first { T.writes disk.old ≡ [] }
    requires inside { IsInsidePlace place.now }
    ensures learns { IfOk result (λ found. Learns (T.may_be disk.old) (T.may_be disk.new) (λ V. IsOther V place.now found)) }
    ensures first { T.writes disk.new ≡ [] }
{
    if is_taken(place, block) {
        return Ok(None);
    }
    free_block(disk, block)
}
