// The core, and its facts that take no step.
ghost use Rattle.std.specs.Prelude.{ℕ, ◌≡◌, IsTrue, IfErr, OnOk};
ghost use Rattle.journal_world.specs.Histories.{opened, is_trusted, count, floor};
ghost use Rattle.journal_disk.specs.Images.{EveryImage};
ghost use Rattle.journal_circ.specs.Mending.{IsMendable};
ghost use Rattle.journal_history.specs.Soundness.{IsSound};
ghost use Rattle.journal_memory.specs.SlotCounts.{AgreeWith};
ghost use Rattle.journal_parts.specs.Cores.{Leaves};
ghost use Rattle.journal_parts.specs.CoreStates.{Crashes, IsRunning, disk_of, start_of, end_of};
ghost use Rattle.journal_core.specs.Steps.{IsEndRefusal};

use journal_block::Update;
use journal_disk::{BlockDisk, MemDisk};
use journal_history::{Front, Naming};
use journal_lockmap::Held;
use journal_memory::{Cause, Volatile};
use journal_parts::{Durable, Stat};
use journal_world::{MapRule, Refusal};
use std::alloc::Global;
use std::marker::Model;
use std::sync::Wait;

// The pair of its parts, seen as one core. Contracts see neither that memory has more blocks nor
// how much room the tail has, because no answer depends on it.
/// The core of a journal, lent the book of its history.
#[derive(Drop)]
pub struct Core<'b, D: BlockDisk, R: MapRule, J: Naming> {
    pub(crate) alloc: Global,
    pub(crate) durable: Durable<'b, D, R, J>,
    pub(crate) volatile: Volatile<'b, R, J>,
    // Memory for a block that a read fetches, until a device call fails.
    pub(crate) spare: Vec<Update>,
}

impl<'b, D: BlockDisk, R: MapRule, J: Naming> Model for Core<'b, D, R, J> {
    ghost use Rattle.journal_parts.specs.CoreStates.{CoreState};
    ghost use Rattle.journal_parts.specs.CoreParts.{IsCore, core_of};

    ghost Value = { CoreState };

    ghost view = { λ c. core_of c.volatile c.durable };

    ghost invariant = { λ c. IsCore J.layout c.volatile c.durable c.spare.items };
}

impl<'b, D: BlockDisk, R: MapRule, J: Naming> Core<'b, D, R, J> {
    /// The numbers of commits and of marks, and the log's range on the disk.
    pub fn stat(&self) -> Stat
        ensures { result ≡ record {
          commits = count self.now.history;
          floor = floor self.now.history;
          start = start_of self.now.objects;
          end = end_of self.now.objects;
        } }
    {
        let (start, end) = self.durable.log_range();
        Stat {
            commits: self.volatile.commits().get(),
            floor: self.volatile.floor().get(),
            start: start.get(),
            end: end.get(),
        }
    }

    /// Checks that neither a stop nor a fault ended it. It makes no device call.
    ///
    /// # Errors
    /// The first that applies is answered. Nothing changed.
    /// - `J13 Closed`: it was stopped.
    /// - `J6 DeviceFailed`: the device failed before.
    pub fn check_running(&self) -> Result<(), Refusal<Cause<'b, J, R>>>
        ensures running { OnOk result (IsRunning self.now) }
        ensures refusal { IfErr result (IsEndRefusal self.now) }
        ensures crash { Crashes self.now self.now }
    {
        self.volatile.check_running()
    }

    /// Shows that the held slots agree with the history: as many commits touched each slot as its
    /// token says. Nothing changes, and the call does not block.
    pub(crate) fn verify_tokens<W: Wait>(&mut self, rt: &W, held: &mut [Held<J>])
        ensures same { self.new ≡ self.old }
        ensures held { held.new ≡ held.old }
        ensures agree { AgreeWith J.layout self.old.history held.old }
    {
        self.volatile.verify_tokens(rt, held);
    }

    /// The whole history. It is sound, its map has the journal's layout, and it is trusted if the
    /// disk was honest and settled when it was opened.
    pub fn front(&self) -> Front<'b, J, R>
        ensures history { result ≡ self.now.history }
        ensures size { (opened self.now.history).layout ≡ J.layout }
        ensures trusted { is_trusted self.now.history ≡ (disk_of self.now).honest }
        ensures sound { IsSound R.statement self.now.history }
    {
        self.volatile.front()
    }

    /// The disk, lent. If it was honest and settled when it was opened, each image that a crash may
    /// leave of it opens as the map after a front of the history that has every marked commit.
    pub fn disk(&self) -> &D
        ensures disk { D.state result.now ≡ disk_of self.now }
        ensures size { (disk_of self.now).past.size ≡ J.layout.blocks }
        ensures images { IsTrue (disk_of self.now).honest → EveryImage (disk_of self.now).past (Leaves self.now.history) }
    {
        self.durable.disk()
    }

    /// Gives the disk up, as it is. If it was honest and settled when it was opened, each image
    /// that a crash may leave of it opens as the map after a front of the history that has every
    /// marked commit. It can be mended once a failed barrier, a kill or a crash has left it, also
    /// after a fault.
    pub fn into_disk(self) -> D
        ensures disk { D.state result ≡ disk_of self.entry }
        ensures size { (D.state result).past.size ≡ J.layout.blocks }
        ensures trusted { is_trusted self.entry.history ≡ (D.state result).honest }
        ensures images { IsTrue (D.state result).honest → EveryImage (D.state result).past (Leaves self.entry.history) }
        ensures mendable { IsTrue (D.state result).honest → IsMendable (D.state result).past }
    {
        let Core { durable, .. } = self;
        durable.into_disk()
    }
}

impl<'b, R: MapRule, J: Naming> Core<'b, MemDisk, R, J> {
    /// Makes the k-th device call from now on fail.
    pub fn fail_in(&mut self, k: u64)
        ensures { self.new ≡ self.old }
    {
        self.durable.fail_in(k);
    }
}
