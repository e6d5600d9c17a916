// The opening of a mount, as its two parts.
ghost use Rattle.std.specs.Prelude.{◌≡◌, ◌<◌, ◌↔◌, ◌∷◌, [], false, true, replicate, IsTrue, OnOk, IfOk, IfErr, IfSome};
ghost use Rattle.journal_world.specs.Files.{shape};
ghost use Rattle.journal_world.specs.Histories.Entry.{opening};
ghost use Rattle.journal_wal.specs.Wal.{size_of, IsAtRest};
ghost use Rattle.journal_tail.specs.Tails.{empty_tail};
ghost use Rattle.journal_objlog.specs.Maps.{OpensAs};
ghost use Rattle.journal_objlog.specs.ObjectLogs.{map_now, disk_of, end_of};
ghost use Rattle.journal_disk.specs.Disks.{IsSettled};
ghost use Rattle.journal_disk.specs.Images.{EveryImage};
ghost use Rattle.journal_parts.specs.CoreParts.{IsPair, core_of};
ghost use Rattle.journal_parts.specs.Holds.{IsBetween};
ghost use Rattle.journal_parts.specs.Openings.{HasWellFormedLog, IsLayoutRefusal, OnlyReadsDisk};
ghost use Rattle.journal_parts.specs.Beginnings.{HasBoundsOf, Begins};
ghost use Rattle.journal_parts.specs.BeginRefusals.{IsBeginRefusal};

use crate::durable::Durable;
use journal_disk::BlockDisk;
use journal_history::{Book, Naming, Opened, SessionCounts, Writer};
use journal_lockmap::{SlotCell, SlotCounts, Slots};
use journal_memory::{Cause, Ledger, LogKey, RefusalNumber, Volatile};
use journal_objlog::ObjectLog;
use journal_tail::Tail;
use journal_world::{Layout, MapRule, Position, Refusal, Refused};
use std::alloc::Global;

// The map that an object log has now, by a layout.
#[derive(Drop)]
struct MapNow<'a, D: BlockDisk> {
    layout: Layout,
    objects: &'a ObjectLog<D>,
}

impl<'a, D: BlockDisk> Opened for MapNow<'a, D> {
    ghost use Rattle.journal_world.specs.Files.{shape};
    ghost use Rattle.journal_objlog.specs.ObjectLogs.{map_now, disk_of};

    ghost map = { λ now. map_now (shape now.layout) now.objects.now.log };

    ghost trusted = { λ now. (disk_of now.objects.now.log).honest };
}

/// Opens a disk on which nothing is pending, as both parts of a mount and its slots. The book's
/// history begins with the map that the disk holds, if the rule admits it. The updates in the
/// disk's log are read into memory, and nothing is written. Memory keeps at most `copies` copies of
/// blocks that are at home. All slots of the journal, by whose cell it is named, are free, and no
/// commit touched any.
///
/// # Errors
/// A refusal gives the disk back as it was. The first that applies is answered; J1 and J6 are
/// answered where they occur.
/// - `J8 BadSuper`: the disk has another number of blocks than the layout.
/// - `J7 BadLog`: the disk's log is not well formed.
/// - `J8 BadSuper`: the rule does not hold of the map.
/// - `J9 Stale`: the book has a history already.
/// - `J1 NoMemory`: memory is refused.
/// - `J6 DeviceFailed`: the device fails in this call.
pub fn open_parts<'b, D: BlockDisk, R: MapRule, J: Naming>(
    alloc: Global,
    book: &'b Book<R>,
    cell: SlotCell,
    layout: Layout,
    disk: D,
    rule: &R,
    copies: usize,
) -> Result<(Durable<'b, D, R, J>, Volatile<'b, R, J>, Slots<J>), Refused<D, Cause<'b, J, R>>>
    requires some { 0 < copies }
    requires book { book.now ≡ J.book }
    requires cell { cell ≡ J.cell }
    requires layout { shape layout ≡ J.layout }
    requires settled { IsTrue (D.state disk).honest → IsSettled (D.state disk).past }
    ensures begun { IfOk result (λ opened. Begins R.statement J.layout (D.state disk) (core_of opened.1 opened.0)) }
    ensures pair { IfOk result (λ opened. IsPair J.layout opened.1 opened.0) }
    ensures between { IfOk result (λ opened. IsBetween J.layout opened.1 opened.0) }
    ensures free { IfOk result (λ opened. opened.2 ≡ replicate J.layout.slots false) }
    ensures well_formed { IsTrue (D.state disk).honest → OnOk result (HasWellFormedLog (D.state disk)) }
    ensures bounds { IsTrue (D.state disk).honest → IfOk result (λ opened. HasBoundsOf (D.state disk) (core_of opened.1 opened.0)) }
    ensures refusal { IfErr result (λ refused. IsLayoutRefusal R.statement J.layout (D.state disk) (D.state refused.disk) refused.refusal) }
    ensures left { IfErr result (λ refused. OnlyReadsDisk (D.state disk) (D.state refused.disk)) }
{
    if disk.size() != layout.blocks {
        return Err(Refused {
            refusal: Refusal::BadSuper,
            disk,
        });
    };
    let Some((counts, slots, sessions)) = slots_and_counts(alloc, cell, layout) else {
        return Err(Refused {
            refusal: Refusal::NoMemory,
            disk,
        });
    };
    let key = LogKey::of(&counts);
    let objects = match ObjectLog::open(alloc, disk) {
        Ok(objects) => objects,
        Err(Refused { refusal, disk }) => {
            return Err(Refused {
                refusal: key.raised(refusal),
                disk,
            });
        }
    };
    let end = Position::new(objects.log.log_range().1);
    let tail = match Tail::new(alloc, layout.blocks, end, copies) {
        Ok(tail) => tail,
        Err(refusal) => {
            return Err(Refused {
                refusal,
                disk: objects.log.into_disk(),
            });
        }
    };
    let (objects, admitted) = objects.admitted_by(layout, rule);
    match begin(&key, book, layout, &objects, admitted) {
        Ok(writer) => {
            let ledger = Ledger::new(alloc, writer, counts, sessions);
            Ok(begun(layout, objects, ledger, tail, slots, key))
        }
        Err(refusal) => Err(Refused {
            refusal,
            disk: objects.log.into_disk(),
        }),
    }
}

// Both parts of a mount that begins: its history is the opening.
fn begun<'b, D: BlockDisk, R: MapRule, J: Naming>(
    layout: Layout,
    objects: ObjectLog<D>,
    ledger: Ledger<'b, R, J>,
    tail: Tail,
    slots: Slots<J>,
    key: LogKey<J>,
) -> (Durable<'b, D, R, J>, Volatile<'b, R, J>, Slots<J>)
    requires layout { shape layout ≡ J.layout }
    requires size { size_of objects.log ≡ J.layout.blocks }
    requires rest { IsAtRest objects.log }
    requires images { IsTrue (disk_of objects.log).honest → EveryImage (disk_of objects.log).past (OpensAs (map_now J.layout objects.log)) }
    requires begun { ledger ≡ record { history = opening (map_now J.layout objects.log) (disk_of objects.log).honest ∷ []; cut = 0; next = 0; closed = false } }
    requires tail { tail ≡ empty_tail J.layout.blocks (end_of objects.log) tail.log.room }
    ensures core { core_of result.1 result.0 ≡ record {
      objects = record { wal = objects.log; tail = [] };
      history = ledger.entry.history;
      cut = 0;
      logged = 0;
      next = 0;
      closed = false;
    } }
    ensures pair { IsPair J.layout result.1 result.0 }
    ensures slots { result.2 ≡ slots }
{
    let durable = Durable::new(objects, ledger.front(), key);
    let volatile = Volatile::new(layout, ledger, tail);
    durable.prove_invariant();
    volatile.prove_invariant();
    (durable, volatile, slots)
}

// The slots of a history without commits, with their counts and those of its sessions, if there is
// memory. Before the log is read, so that an opening that is refused for them has touched neither
// disk nor book.
fn slots_and_counts<J: Naming>(
    alloc: Global,
    cell: SlotCell,
    layout: Layout,
) -> Option<(SlotCounts<J>, Slots<J>, SessionCounts<J>)>
    requires cell { cell ≡ J.cell }
    requires layout { shape layout ≡ J.layout }
    ensures counts { IfSome result (λ made. made.0 ≡ replicate J.layout.slots 0) }
    ensures free { IfSome result (λ made. made.1 ≡ replicate J.layout.slots false) }
    ensures sessions { IfSome result (λ made. made.2 ≡ []) }
{
    let (counts, slots, sessions) = SlotCounts::begin(alloc, cell, layout).ok()?;
    Some((counts, slots, sessions))
}

// Begins the book's history with the map now, if the rule admitted it.
fn begin<'b, D: BlockDisk, R: MapRule, J: Naming>(
    key: &LogKey<J>,
    book: &'b Book<R>,
    layout: Layout,
    objects: &ObjectLog<D>,
    admitted: Result<bool, Refusal<()>>,
) -> Result<Writer<'b, J, R>, Refusal<Cause<'b, J, R>>>
    requires book { book.now ≡ J.book }
    requires layout { shape layout ≡ J.layout }
    requires admitted { IsTrue (disk_of objects.now.log).honest → IfOk admitted (λ admitted. IsTrue admitted ↔ R.statement (map_now J.layout objects.now.log)) }
    ensures begun { IfOk result (λ writer. writer ≡ opening (map_now J.layout objects.now.log) (disk_of objects.now.log).honest ∷ []) }
    ensures admitted { OnOk result (admitted ≡ Ok true) }
    ensures ruled { OnOk result (IsTrue (disk_of objects.now.log).honest → R.statement (map_now J.layout objects.now.log)) }
    ensures refusal { IfErr result (IsBeginRefusal R.statement J.layout objects.now.log admitted) }
{
    if !key.raise(admitted)? {
        return Err(Refusal::BadSuper);
    }
    let now = MapNow { layout, objects };
    match Writer::begin(book, &now) {
        Ok(writer) => Ok(writer),
        Err(front) => Err(Refusal::Stale(key.cause(RefusalNumber::J9, front))),
    }
}
