// The groups that the durable part takes from the memory part, and how far the history is.
ghost use Rattle.std.specs.Prelude.{◌≡◌, ◌≤◌, ◌<◌, ◌↔◌, [], false, true, length, IsTrue, IfOk, IfErr};
ghost use mathlib.Core.List.{IsPrefix};
ghost use Rattle.journal_world.specs.Histories.{is_trusted, count, floor};
ghost use Rattle.journal_memlog.specs.Logs.{HasDistinctBlocks};
ghost use Rattle.journal_tail.specs.Homes.{AreHomes};
ghost use Rattle.journal_wal.specs.Wal.{with_room};
ghost use Rattle.journal_wal.specs.Groups.{FitsGroup, HasGroupRoom};
ghost use Rattle.journal_tail.specs.declared.limits.TheConstants.{MAX_TAIL};
ghost use Rattle.journal_objlog.specs.ObjectLogs.{IsCutLogged, end_of};
ghost use Rattle.journal_memory.specs.Updates.{HaveAllSince};
ghost use Rattle.journal_parts.specs.Durables.{Crashes, TakesCut, IsRoomRefusal};

use crate::durable::Durable;
use journal_block::Update;
use journal_disk::BlockDisk;
use journal_history::{Front, Naming};
use journal_memory::Cause;
use journal_world::{CommitCount, MapRule, Refusal};

impl<'b, D: BlockDisk, R: MapRule, J: Naming> Durable<'b, D, R, J> {
    /// Makes room for a group of `blocks` blocks, so that `take` takes it, if no other call comes
    /// in between. False if a group is in flight, if there are no blocks, and if the log lacks a
    /// position for one of them. All is as it was, but may have more room in memory.
    ///
    /// # Errors
    /// The first that applies is answered. All is as it was, but may have more room in memory.
    /// - `J6 DeviceFailed`: the device failed before.
    /// - `J11 Worn`: a position would reach 2^62.
    /// - `J1 NoMemory`: memory is refused.
    pub(crate) fn reserve(&mut self, blocks: usize) -> Result<bool, Refusal<Cause<'b, J, R>>>
        requires few { blocks ≤ MAX_TAIL }
        ensures fits { IfOk result (λ fits. IsTrue fits ↔ FitsGroup self.old.objects blocks) }
        ensures room { IfOk result (λ fits. IsTrue fits → HasGroupRoom self.new.objects blocks) }
        ensures idle { IfOk result (λ fits. fits ≡ false → self.new ≡ self.old) }
        ensures refusal { IfErr result (IsRoomRefusal self.old blocks) }
        ensures same { self.new ≡ record self.old { objects = with_room self.old.objects self.new.objects.log.room } }
        ensures crash { Crashes self.old self.new }
    {
        self.key.raise(self.objects.log.reserve_group(blocks))
    }

    // A group is taken with the fact that makes it true (`HaveAllSince`): it has all that commits
    // after `logged` wrote, as the last of them left each address. That is said of addresses, not
    // of blocks: the other objects of a written block came with its fetch.
    /// Takes a group that was cut from memory, which `reserve` made room for, and the history that
    /// has its commits, with their number. That history has no mark that this part lacks. It takes
    /// no memory, and moves the blocks.
    pub(crate) fn take(&mut self, group: Vec<Update>, front: Front<'b, J, R>, commits: CommitCount)
        requires homes { AreHomes J.layout.blocks group.items }
        requires distinct { HasDistinctBlocks group.items }
        requires room { HasGroupRoom self.old.objects (length group.items) }
        requires longer { IsPrefix self.old.front front }
        requires counted { commits ≡ count front }
        requires floored { floor front ≤ self.old.marked }
        requires all { IsTrue (is_trusted front) → HaveAllSince J.layout front self.old.logged group.items }
        ensures takes { TakesCut front.entry group.items self.old self.new }
        ensures flies { end_of self.new.objects < self.new.objects.log.cut }
        ensures crash { Crashes self.old self.new }
    {
        self.objects.log.take_reserved(group);
        // Called for its contract: the group is in flight.
        let _flying = self.objects.log.is_logging();
        self.front = front;
        self.coming = commits;
    }

    /// Notes the mark of all commits of the history, with their number, which the history now has.
    /// All of them are logged: those since the last cut wrote nothing, and no group is in flight.
    pub(crate) fn set_all_marked(&mut self, front: Front<'b, J, R>, commits: CommitCount)
        requires rest { IsCutLogged self.old.objects }
        requires longer { IsPrefix self.old.front front }
        requires counted { commits ≡ count front }
        requires floored { floor front ≤ commits }
        requires all { IsTrue (is_trusted front) → HaveAllSince J.layout front self.old.logged [] }
        ensures marks { self.new ≡ record self.old { front = front.entry; marked = count front.entry; logged = count front.entry; coming = count front.entry } }
        ensures crash { Crashes self.old self.new }
    {
        self.front = front;
        self.marked = commits;
        self.logged = commits;
        self.coming = commits;
    }

    /// Notes the mark of all commits that are logged, which the history now has.
    pub(crate) fn set_marked(&mut self, front: Front<'b, J, R>)
        requires longer { IsPrefix self.old.front front }
        requires floored { floor front ≤ self.old.logged }
        ensures marks { self.new ≡ record self.old { front = front.entry; marked = self.old.logged } }
        ensures crash { Crashes self.old self.new }
    {
        self.front = front;
        self.marked = self.logged;
    }
}
