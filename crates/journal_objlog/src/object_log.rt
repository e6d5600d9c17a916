// An object log, and how it is opened.
ghost use Rattle.std.specs.Prelude.{◌≡◌, ◌≤◌, IsTrue, IfOk, IfErr, MatchResult};
ghost use Rattle.journal_world.specs.declared.layout.TheConstants.{MIN_BLOCKS};
ghost use Rattle.journal_disk.specs.Disks.{Keeps, IsSettled, read_of};
ghost use Rattle.journal_disk.specs.Images.{EveryImage, reading};
ghost use Rattle.journal_circ.specs.Log.{is_sealed, IsWellFormed};
ghost use Rattle.journal_circ.specs.Ring.{IsOpenRefusal};
ghost use Rattle.journal_wal.specs.Wal.{IsAtRest, HasBoundsIn, size_of};
ghost use Rattle.journal_objlog.specs.Maps.{OpensAs};
ghost use Rattle.journal_objlog.specs.ObjectLogs.{EachLayout, map_now, disk_of};

use journal_disk::BlockDisk;
use journal_wal::Wal;
use journal_world::Refused;
use std::alloc::Global;

/// The maps of objects of a disk, over the write-ahead log. It knows blocks and no layout: its
/// clauses on maps hold for each layout by which the disk may be read.
#[derive(Drop)]
pub struct ObjectLog<D: BlockDisk> {
    pub(crate) alloc: Global,
    /// The log on the disk, whose calls and steps are its own. `specs/StepLaws.antt` says what each
    /// makes of the maps, and of what a crash leaves.
    pub log: Wal<D>,
}

impl<D: BlockDisk> ObjectLog<D> {
    /// Opens the maps of a disk, on which nothing is pending: the updates in its log are read into
    /// memory, and nothing is written.
    ///
    /// # Errors
    /// A refusal gives the disk back, and nothing was written.
    /// - `J1 NoMemory`: memory is refused.
    /// - `J6 DeviceFailed`: the device fails in this call.
    /// - `J7 BadLog`: the disk's log is not well formed.
    pub fn open(alloc: Global, disk: D) -> Result<ObjectLog<D>, Refused<D, ()>>
        requires size { MIN_BLOCKS ≤ (D.state disk).past.size }
        requires settled { IsTrue (D.state disk).honest → IsSettled (D.state disk).past }
        ensures refusal { IfErr result (λ refused.
            IsOpenRefusal (D.state disk) (D.state refused.disk) refused.refusal) }
        ensures keeps { MatchResult result
            (λ objects. Keeps (D.state disk) (disk_of objects.log))
            (λ refused. Keeps (D.state disk) (D.state refused.disk)) }
        ensures same { IsTrue (D.state disk).honest → MatchResult result
            (λ objects. (disk_of objects.log).past ≡ (D.state disk).past)
            (λ refused. (D.state refused.disk).past ≡ (D.state disk).past) }
        ensures well_formed { IsTrue (D.state disk).honest → IfOk result (λ _. IsWellFormed (reading (D.state disk).past)) }
        ensures opened { IfOk result (λ objects. IsAtRest objects.log) }
        // The bounds and the form are those on the disk.
        ensures bounds { IsTrue (D.state disk).honest → IfOk result (λ objects. HasBoundsIn (reading (D.state disk).past) objects.log) }
        ensures form { IsTrue (D.state disk).honest → IfOk result (λ objects. objects.log.ring.sealed ≡ is_sealed (read_of (D.state disk).past 0)) }
        // Each image opens as the map now.
        ensures images { IsTrue (D.state disk).honest → IfOk result (λ objects.
            EachLayout (size_of objects.log) (λ layout. EveryImage (disk_of objects.log).past (OpensAs (map_now layout objects.log)))) }
    {
        let log = Wal::open(alloc, disk)?;
        Ok(ObjectLog { alloc, log })
    }
}
