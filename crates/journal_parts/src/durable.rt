// The core's durable part, and its facts that take no step.
ghost use Rattle.std.specs.Prelude.{◌≡◌, ◌≢◌, ◌≤◌, ◌↔◌, ◌∷◌, [], IsTrue};
ghost use Rattle.journal_world.specs.Histories.Entry.{opening};
ghost use Rattle.journal_disk.specs.Images.{EveryImage};
ghost use Rattle.journal_circ.specs.Mending.{IsMendable};
ghost use Rattle.journal_wal.specs.Wal.{size_of, IsAtRest};
ghost use Rattle.journal_objlog.specs.Maps.{OpensAs};
ghost use Rattle.journal_objlog.specs.ObjectLogs.{map_now, IsCutLogged, start_of, end_of, disk_of as log_disk};
ghost use Rattle.journal_parts.specs.Cores.{Leaves as LeavesHistory};
ghost use Rattle.journal_parts.specs.Durables.{IsDurable, Leaves, begun_durable, disk_of};

use journal_disk::{BlockDisk, MemDisk};
use journal_history::{Front, Naming};
use journal_memory::LogKey;
use journal_objlog::ObjectLog;
use journal_world::{CommitCount, MapRule, Position};
use std::marker::Model;

// Its history is a front of its own, and its three counts are of that front. So its invariant says
// nothing of memory, and a longer history says the same of the same number of commits.
/// The part of the core on its disk, for a lock of its own: the log, copies of the logged blocks
/// and of the group in flight, and the numbers of commits that these have of a front of the
/// history.
///
/// It knows nothing of later commits. A group of their blocks comes from the memory part, whole.
#[derive(Drop)]
pub struct Durable<'b, D: BlockDisk, R: MapRule, J: Naming> {
    pub(crate) objects: ObjectLog<D>,
    pub(crate) front: Front<'b, J, R>,
    // The numbers of commits that are marked, that are logged, and that are with the group in
    // flight.
    pub(crate) marked: CommitCount,
    pub(crate) logged: CommitCount,
    pub(crate) coming: CommitCount,
    // The key to memory's calls, which nobody else has.
    pub(crate) key: LogKey<J>,
}

impl<'b, D: BlockDisk, R: MapRule, J: Naming> Model for Durable<'b, D, R, J> {
    ghost use Rattle.journal_parts.specs.Durables.{DurableState, IsDurable};

    ghost Value = { DurableState };

    ghost view = { λ d. record { objects = d.objects.log; front = d.front; marked = d.marked; logged = d.logged; coming = d.coming } };

    ghost invariant = { λ d. IsDurable J.layout (record { objects = d.objects.log; front = d.front; marked = d.marked; logged = d.logged; coming = d.coming }) };
}

impl<'b, D: BlockDisk, R: MapRule, J: Naming> Durable<'b, D, R, J> {
    /// The durable part of a mount that begins: the history has the opening alone, and the disk
    /// holds its map.
    pub(crate) fn new(
        objects: ObjectLog<D>,
        front: Front<'b, J, R>,
        key: LogKey<J>,
    ) -> Durable<'b, D, R, J>
        requires size { size_of objects.log ≡ J.layout.blocks }
        requires rest { IsAtRest objects.log }
        requires begun { front ≡ opening (map_now J.layout objects.log) (log_disk objects.log).honest ∷ [] }
        requires images { IsTrue (log_disk objects.log).honest → EveryImage (log_disk objects.log).past (OpensAs (map_now J.layout objects.log)) }
        ensures { result ≡ begun_durable objects.log front.entry }
    {
        Durable {
            objects,
            front,
            marked: CommitCount::new(0),
            logged: CommitCount::new(0),
            coming: CommitCount::new(0),
            key,
        }
    }

    /// The invariant of its type. Called for its contract.
    pub(crate) fn prove_invariant(&self)
        ensures { IsDurable J.layout self.now }
    {
        let _marked = self.marked;
    }

    /// The start and the end of the log on the disk, as last synced: positions, of which there are
    /// at most 511.
    pub fn log_range(&self) -> (Position, Position)
        ensures { result ≡ (start_of self.now.objects, end_of self.now.objects) }
    {
        let (start, end) = self.objects.log.log_range();
        (Position::new(start), Position::new(end))
    }

    /// The disk, lent. If it was honest and settled when it was opened, each image that a crash may
    /// leave of it opens as the map after some of the front's commits: at least those that are
    /// marked, at most those that come.
    pub fn disk(&self) -> &D
        ensures disk { D.state result.now ≡ disk_of self.now }
        ensures size { (disk_of self.now).past.size ≡ J.layout.blocks }
        ensures images { IsTrue (disk_of self.now).honest → EveryImage (disk_of self.now).past (Leaves self.now) }
        ensures rest { IsCutLogged self.now.objects → self.now.logged ≡ self.now.coming }
    {
        self.objects.log.disk()
    }

    /// The history as far as this part has seen it. The call takes no memory.
    pub fn front(&self) -> Front<'b, J, R>
        ensures front { result ≡ self.now.front }
        ensures begun { result ≢ [] }
    {
        self.front.again()
    }

    /// Gives the disk up, as it is. If it was honest and settled when it was opened, each image
    /// that a crash may leave of it opens as the map after some of the front's commits: no fewer
    /// than the front's greatest mark. It can be mended once a failed barrier, a kill or a crash
    /// has left it, also after a fault.
    pub fn into_disk(self) -> D
        ensures disk { D.state result ≡ disk_of self.entry }
        ensures size { (D.state result).past.size ≡ J.layout.blocks }
        ensures images { IsTrue (D.state result).honest → EveryImage (D.state result).past (Leaves self.entry) }
        ensures opens { IsTrue (D.state result).honest → EveryImage (D.state result).past (LeavesHistory self.entry.front) }
        ensures mendable { IsTrue (D.state result).honest → IsMendable (D.state result).past }
    {
        let Durable { objects, .. } = self;
        let ObjectLog { log, .. } = objects;
        log.into_disk()
    }
}

impl<'b, R: MapRule, J: Naming> Durable<'b, MemDisk, R, J> {
    /// Makes the k-th device call from now on fail.
    pub fn fail_in(&mut self, k: u64)
        ensures { self.new ≡ self.old }
    {
        self.objects.log.fail_in(k);
    }
}
