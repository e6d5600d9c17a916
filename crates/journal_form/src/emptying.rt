// The log becomes empty: each of its updates is brought home.
ghost use Rattle.std.specs.Prelude.{◌≡◌, ◌<◌, ◌≤◌, ◌+◌, false, IsTrue, IsOk, OnOk, OnErr, IfErr};
ghost use Rattle.journal_disk.specs.Disks.{Keeps};
ghost use Rattle.journal_circ.specs.Ring.{IsFault};
ghost use Rattle.journal_form.specs.Emptying.{Rests, StaysThroughout, BringsUpdate, BringsHome, IsEmptied};

use journal_block::Block;
use journal_circ::{Circ, HomesPut};
use journal_disk::BlockDisk;
use journal_world::Refusal;

/// Brings all updates of a log at rest home, in the order of their positions, and frees the
/// positions. To an empty log nothing is done. The disk's content stays in each image of each
/// moment, and so does the label.
///
/// # Errors
/// - `J6 DeviceFailed`: the device failed. Each image holds the same blocks as before.
pub(crate) fn empty<D: BlockDisk>(
    circ: &mut Circ<D>,
    installer: HomesPut,
    room: &mut Block,
) -> Result<(), Refusal<()>>
    requires rests { Rests circ.old }
    ensures refusal { IfErr result (IsFault false circ.old.disk circ.new.disk) }
    ensures keeps { Keeps circ.old.disk circ.new.disk }
    ensures crash { IsTrue circ.old.disk.honest → StaysThroughout circ.old circ.new.disk.past }
    ensures emptied { OnOk result (IsEmptied circ.old circ.new) }
    ensures nothing { circ.old.extent.start ≡ circ.old.extent.end → IsOk result × (circ.new ≡ circ.old) }
{
    let (start, end) = (circ.start(), circ.end());
    if start == end {
        return Ok(());
    }
    let state = install_all(circ, installer, room)?;
    let state = circ.sync_homes(state)?;
    let state = circ.put_start(state, end)?;
    circ.sync_start(state)?;
    Ok(())
}

// Brings all updates home.
fn install_all<D: BlockDisk>(
    circ: &mut Circ<D>,
    installer: HomesPut,
    room: &mut Block,
) -> Result<HomesPut, Refusal<()>>
    requires rests { Rests circ.old }
    ensures refusal { IfErr result (IsFault false circ.old.disk circ.new.disk) }
    ensures keeps { Keeps circ.old.disk circ.new.disk }
    ensures crash { IsTrue circ.old.disk.honest → StaysThroughout circ.old circ.new.disk.past }
    ensures home { OnOk result (BringsHome circ.old circ.old.extent.end circ.new) }
    ensures idle { OnOk result (circ.new.extent.freed ≡ circ.new.extent.start) }
{
    let mut state = installer;
    for position in circ.start()..circ.end() {
        state = install_update(circ, state, position, room)?;
    }
    Ok(state)
}

// Brings the update of one position home.
fn install_update<D: BlockDisk>(
    circ: &mut Circ<D>,
    state: HomesPut,
    position: u64,
    room: &mut Block,
) -> Result<HomesPut, Refusal<()>>
    requires rests { Rests circ.old }
    requires from_start { circ.old.extent.start ≤ position }
    requires before_end { position < circ.old.extent.end }
    ensures refusal { IfErr result (IsFault false circ.old.disk circ.new.disk) }
    ensures keeps { Keeps circ.old.disk circ.new.disk }
    ensures crash { IsTrue circ.old.disk.honest → StaysThroughout circ.old circ.new.disk.past }
    ensures update { OnOk result (BringsUpdate circ.old position circ.new) }
{
    let block = circ.read_logged(position, room)?;
    circ.put_home(state, block, room)
}
