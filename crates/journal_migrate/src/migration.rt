// A disk becomes one of version 2.
ghost use Rattle.std.specs.Prelude.{ℕ, ◌≡◌, ◌⊎◌, [], ◌∷◌, IsTrue, false, IfOk, IfErr, OnOk, OnErr};
ghost use Rattle.journal_world.specs.Addresses.{slot_of as slot_number};
ghost use Rattle.journal_world.specs.Addresses.{Shape};
ghost use Rattle.journal_world.specs.Files.{files};
ghost use Rattle.journal_world.specs.Histories.{opened, is_trusted, latest};
ghost use Rattle.journal_world.specs.Maps.{is_object};
ghost use Rattle.journal_disk.specs.Disks.{DiskState, Keeps, IsSettled};
ghost use Rattle.journal_circ.specs.Mending.{IsMendable};
ghost use Rattle.journal_inode.specs.Places.{addr_of, object, HasFiles as IsCut};
ghost use Rattle.journal_inode.specs.Places.Object.{superblock};
ghost use Rattle.journal_inode.specs.declared.version.FormatVersion.TheVariants.{One, Two};
ghost use Rattle.journal_inode.specs.Sound.{HasSoundFiles};
ghost use Rattle.journal_lockmap.specs.Numbers.{slots_of};
ghost use Rattle.journal_parts.specs.CoreStates.{IsRunning, OnlyReads, disk_of, next_of};
ghost use Rattle.journal_parts.specs.Beginnings.{Begins};
ghost use Rattle.journal_memory.specs.SlotCounts.{AgreeWith};
ghost use Rattle.journal_memory.specs.Transactions.{begun};
ghost use Rattle.journal_filestore.specs.Files.{Files};
ghost use Rattle.journal_migrate.specs.Either.{HasEitherFiles};
ghost use Rattle.journal_migrate.specs.Holding.{HasFiles, HasFilesOfEither, LeavesMaps};
ghost use Rattle.journal_migrate.specs.Superblocks.{version_byte, DraftsUpgrade};
ghost use Rattle.journal_migrate.specs.Marking.{IsRunningRefusal};
ghost use Rattle.journal_migrate.specs.Migrations.{IsMigrated, KeepsFiles, KeepsVersionTwo, IsUpgradeRefusal, IsMigrateRefusal};

use crate::either::EitherVersion;
use crate::marking::make_stable;
use crate::superblock::{SUPERBLOCK_ADDR, is_of_version_one, upgraded};
use journal_core::Core;
use journal_disk::BlockDisk;
use journal_history::{Book, Naming};
use journal_lockmap::{Held, LockMap, SlotCell, SlotLocks};
use journal_memory::{Cause, ReadResult, Transaction};
use journal_world::{BLOCK_BYTES, Layout, Refusal, Refused, Value};
use std::alloc::{AllocError, Global};
use std::array;
use std::sync::Wait;

// The number of copies of blocks at home in memory: one, because one block is read, once.
const COPIES: usize = 1;

// Why it is refused.
type MigrationRefusal<'b, J> = Refusal<Cause<'b, J, EitherVersion>>;

/// Makes a disk of version 2 of one on which nothing is pending: opens it under the rule "sound in
/// version 1 or in version 2", overwrites its superblock in one transaction, makes that stable, and
/// gives the disk up. To a disk of version 2 nothing is done. Then every crash leaves a disk of
/// version 2 with the same files.
///
/// # Errors
/// Of the first group nothing was written. The first that applies is answered; J1 and J6 are
/// answered where they occur.
/// - `J8 BadSuper`: the number of blocks is out of range.
/// - `J7 BadLog`: the disk's log is not well formed.
/// - `J8 BadSuper`: the files are sound in neither version.
/// - `J9 Stale`: the book has a history already.
/// - `J1 NoMemory`: memory is refused.
/// - `J6 DeviceFailed`: the device fails.
///
/// Once the disk is opened, every crash leaves it with the same files, in version 1 or in version
/// 2.
/// - `J11 Worn`: the log's positions are used up.
/// - `J1`, `J6`, `J9`: as above.
pub fn migrate<'b, D: BlockDisk, J: Naming, W: Wait>(
    rt: &W,
    alloc: Global,
    book: &'b Book<EitherVersion>,
    cell: SlotCell,
    disk: D,
) -> Result<D, Refused<D, Cause<'b, J, EitherVersion>>>
    requires book { book.now ≡ J.book }
    requires cell { cell ≡ J.cell }
    requires layout { J.layout ≡ files (D.state disk).past.size }
    requires settled { IsTrue (D.state disk).honest → IsSettled (D.state disk).past }
    ensures migrated { IsTrue (D.state disk).honest → IfOk result (λ migrated. IsMigrated (D.state disk) (D.state migrated)) }
    ensures unchanged { IsTrue (D.state disk).honest → IfOk result (λ migrated. KeepsVersionTwo (D.state disk) (D.state migrated)) }
    ensures keeps { IfOk result (λ migrated. Keeps (D.state disk) (D.state migrated)) }
    ensures refusal { IfErr result (λ refused. IsMigrateRefusal (D.state disk) (D.state refused.disk) refused.refusal) }
    ensures left { IsTrue (D.state disk).honest → IfErr result (λ refused. KeepsFiles (D.state disk) (D.state refused.disk)) }
    ensures left_unchanged { IsTrue (D.state disk).honest → IfErr result (λ refused. KeepsVersionTwo (D.state disk) (D.state refused.disk)) }
    ensures handed_back { IfErr result (λ refused. Keeps (D.state disk) (D.state refused.disk)) }
    ensures mendable { IfOk result (λ migrated. IsTrue (D.state migrated).honest → IsMendable (D.state migrated).past) }
    ensures left_mendable { IfErr result (λ refused. IsTrue (D.state refused.disk).honest → IsMendable (D.state refused.disk).past) }
{
    let rule = EitherVersion::new(alloc);
    let Some(layout) = Layout::new(disk.size()) else {
        return Err(Refused {
            refusal: Refusal::BadSuper,
            disk,
        });
    };
    let Ok(slot_locks) = SlotLocks::new(alloc, layout) else {
        return Err(Refused {
            refusal: Refusal::NoMemory,
            disk,
        });
    };
    let (mut core, slots) = Core::open_step(alloc, book, cell, layout, disk, &rule, COPIES)?;
    let slots = LockMap::new(slot_locks, slots);
    // Nobody else takes one of these slots, so this does not block.
    let mut held = slots.acquire(rt, layout.slot_of(SUPERBLOCK_ADDR));
    let answer = upgrade(rt, alloc, &mut core, array::from_mut(&mut held));
    slots.release(rt, held);
    match answer {
        Ok(()) => Ok(core.into_disk()),
        Err(refusal) => Err(Refused {
            refusal,
            disk: core.into_disk(),
        }),
    }
}

// Brings the map of a mount that begins to version 2, under the superblock's slot, and makes that
// stable.
fn upgrade<'b, D: BlockDisk, J: Naming, W: Wait>(
    rt: &W,
    alloc: Global,
    core: &mut Core<'b, D, EitherVersion, J>,
    held: &mut [Held<J>],
) -> Result<(), MigrationRefusal<'b, J>>
    requires cut { IsCut J.layout }
    requires begins { (layout : Shape) × (disk : DiskState) × Begins HasEitherFiles layout disk core.old }
    requires held { slots_of held.old ≡ slot_number J.layout (addr_of superblock) ∷ [] }
    ensures upgraded { IsTrue (is_trusted core.old.history) → OnOk result ((files : Files)
        → HasFilesOfEither files (opened core.old.history) → LeavesMaps (HasFiles Two files) core.new.history) }
    ensures left { IsTrue (is_trusted core.old.history) → OnErr result ((files : Files)
        → HasFilesOfEither files (opened core.old.history) → LeavesMaps (HasFilesOfEither files) core.new.history) }
    ensures unchanged { IsTrue (is_trusted core.old.history) → HasSoundFiles Two (opened core.old.history)
        → (disk_of core.new).past ≡ (disk_of core.old).past }
    ensures refusal { IfErr result (IsUpgradeRefusal (next_of core.old.objects) (disk_of core.old) (disk_of core.new)) }
    ensures keeps { Keeps (disk_of core.old) (disk_of core.new) }
{
    let mut session = core.session_step()?;
    let mut transaction = Transaction::begin(alloc, &session);
    if !draft(rt, alloc, core, &mut transaction, held)? {
        return Ok(());
    }
    let mut spares = transaction.spares(alloc);
    core.commit_step(rt, &mut session, &transaction, held, &mut spares)?;
    make_stable(core)
}

// Reads the superblock, and overwrites it by that of version 2 if it is of version 1. True if it
// is.
fn draft<'b, D: BlockDisk, J: Naming, W: Wait>(
    rt: &W,
    alloc: Global,
    core: &mut Core<'b, D, EitherVersion, J>,
    transaction: &mut Transaction<'b, J, EitherVersion>,
    held: &mut [Held<J>],
) -> Result<bool, MigrationRefusal<'b, J>>
    requires cut { IsCut J.layout }
    requires begun { transaction.old ≡ begun core.old.history }
    requires running { IsRunning core.old }
    ensures drafted { IfOk result (λ of_one. IsTrue of_one → DraftsUpgrade core.old.history transaction.new) }
    ensures agree { OnOk result (AgreeWith J.layout core.new.history held.new) }
    ensures held { held.new ≡ held.old }
    ensures other { IfOk result (λ of_one. of_one ≡ false → IsTrue (is_trusted core.old.history)
        → HasSoundFiles One (latest core.old.history) → ⊥) }
    ensures refusal { IfErr result (IsRunningRefusal core.old core.new) }
    ensures running { OnOk result (IsRunning core.new) }
    ensures reads { OnlyReads core.old.objects core.new.objects }
    ensures others { core.new ≡ record core.old { objects = core.new.objects } }
{
    let mut bytes = vec![in alloc; 0u8; BLOCK_BYTES]?;
    let found = core.read_step(rt, transaction, held, SUPERBLOCK_ADDR, &mut bytes)?;
    if !is_of_version_one(&bytes) {
        return Ok(false);
    }
    overwrite(alloc, transaction, found, bytes)?;
    Ok(true)
}

// Remembers the superblock of version 1 that was read, and overwrites it by that of version 2.
fn overwrite<'b, J: Naming>(
    alloc: Global,
    transaction: &mut Transaction<'b, J, EitherVersion>,
    found: ReadResult<'b, J, EitherVersion>,
    bytes: Vec<u8>,
) -> Result<(), AllocError>
    requires cut { IsCut J.layout }
    requires begun { transaction.old ≡ begun found.seen }
    requires addr { found.addr ≡ addr_of superblock }
    requires object { IsTrue (is_object J.layout (addr_of superblock, bytes.items)) }
    requires value { IsTrue (is_trusted found.seen) → bytes.items ≡ object (latest found.seen) superblock }
    requires of_version_one { version_byte bytes.items ≡ 1 }
    ensures { OnOk result (DraftsUpgrade found.entry.seen transaction.new) }
{
    let new = Value::new(upgraded(alloc, &bytes)?);
    let old = Value::new(bytes);
    transaction.remember(found, &old);
    transaction.overwrite(SUPERBLOCK_ADDR, new)
}
