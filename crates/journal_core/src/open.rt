// The opening of a mount, as one core.
ghost use Rattle.std.specs.Prelude.{◌≡◌, ◌<◌, false, length, replicate, IsTrue, OnOk, IfOk, IfErr, IfSome};
ghost use Rattle.journal_world.specs.Files.{shape};
ghost use Rattle.journal_disk.specs.Disks.{IsSettled};
ghost use Rattle.journal_parts.specs.Openings.{HasWellFormedLog, IsLayoutRefusal, OnlyReadsDisk};
ghost use Rattle.journal_parts.specs.Beginnings.{HasBoundsOf, Begins};

use crate::state::Core;
use journal_block::{Block, Update};
use journal_disk::BlockDisk;
use journal_history::{Book, Naming};
use journal_lockmap::{SlotCell, Slots};
use journal_memory::Cause;
use journal_parts::open_parts;
use journal_world::{Layout, MapRule, Refusal, Refused};
use std::alloc::Global;

impl<'b, D: BlockDisk, R: MapRule, J: Naming> Core<'b, D, R, J> {
    /// Opens a disk on which nothing is pending: begins the book's history with the map that the
    /// disk holds, if the rule admits it. The updates in the disk's log are read into memory, and
    /// nothing is written. Memory keeps at most `copies` copies of blocks that are at home. The
    /// slots of the journal, by whose cell it is named, come with it: all are free, and no commit
    /// touched any.
    ///
    /// # Errors
    /// A refusal gives the disk back as it was. The first that applies is answered; J1 and J6 are
    /// answered where they occur.
    /// - `J8 BadSuper`: the disk has another number of blocks than the layout.
    /// - `J7 BadLog`: the disk's log is not well formed.
    /// - `J8 BadSuper`: the rule does not hold of the map.
    /// - `J9 Stale`: the book has a history already.
    /// - `J1 NoMemory`: memory is refused.
    /// - `J6 DeviceFailed`: the device fails in this call.
    pub fn open_step(
        alloc: Global,
        book: &'b Book<R>,
        cell: SlotCell,
        layout: Layout,
        disk: D,
        rule: &R,
        copies: usize,
    ) -> Result<(Core<'b, D, R, J>, Slots<J>), Refused<D, Cause<'b, J, R>>>
        requires some { 0 < copies }
        requires book { book.now ≡ J.book }
        requires cell { cell ≡ J.cell }
        requires layout { shape layout ≡ J.layout }
        requires settled { IsTrue (D.state disk).honest → IsSettled (D.state disk).past }
        ensures begun { IfOk result (λ opened. Begins R.statement J.layout (D.state disk) opened.0) }
        ensures free { IfOk result (λ opened. opened.1 ≡ replicate J.layout.slots false) }
        ensures well_formed { IsTrue (D.state disk).honest → OnOk result (HasWellFormedLog (D.state disk)) }
        ensures bounds { IsTrue (D.state disk).honest → IfOk result (λ opened. HasBoundsOf (D.state disk) opened.0) }
        ensures refusal { IfErr result (λ refused. IsLayoutRefusal R.statement J.layout (D.state disk) (D.state refused.disk) refused.refusal) }
        ensures left { IfErr result (λ refused. OnlyReadsDisk (D.state disk) (D.state refused.disk)) }
    {
        if disk.size() != layout.blocks {
            return Err(Refused {
                refusal: Refusal::BadSuper,
                disk,
            });
        };
        let Some(spare) = spare_block(alloc) else {
            return Err(Refused {
                refusal: Refusal::NoMemory,
                disk,
            });
        };
        let (durable, volatile, slots) = open_parts(alloc, book, cell, layout, disk, rule, copies)?;
        let core = Core {
            alloc,
            durable,
            volatile,
            spare,
        };
        Ok((core, slots))
    }
}

// Memory for one block, if there is any.
fn spare_block(alloc: Global) -> Option<Vec<Update>>
    ensures { IfSome result (λ spare. length spare.items ≡ 1) }
{
    let bytes = Block::try_new::<()>(alloc).ok()?;
    let mut spare = Vec::new(alloc);
    spare.push(Update { block: 0, bytes }).ok()?;
    Some(spare)
}
