// A disk whose blocks are also in memory.
ghost use Rattle.std.specs.Prelude.{◌≡◌, ◌<◌, ◌≤◌, false, length, IsTrue, IsErr, IfOk, IfErr, OnOk, OnErr};
ghost use Rattle.journal_disk.specs.Disks.{IsSettled, Keeps, HasFailed, MayHaveHappened, write, barrier, read_of, past_after};
ghost use Rattle.journal_mirror.specs.Mirrors.{mirror_past, mirror_state, IsCurrent, IsReason, IsMirrorRefusal};

use crate::call::Call;
use journal_block::Block;
use journal_disk::{BlockDisk, DiskFault};
use journal_world::{Refusal, Refused};
use std::alloc::Global;
use std::marker::Model;
use std::snapshot::Snapshot;

/// A disk whose blocks are also in memory. A read copies from memory, and a write goes to both.
///
/// Once a write or a barrier has failed, each call fails and none is made of the device, because it
/// may have dropped what was pending. The mirror takes memory for each block of the disk.
#[derive(Drop)]
pub struct Mirror<D: BlockDisk + Drop> {
    disk: D,
    blocks: Vec<Block>,
    // Its bytes are of no matter: a barrier is noted with it.
    spare: Block,
    stopped: bool,
    failures: u64,
    // The blocks when the mirror was made, and the calls since. A clause has to name each write
    // since, and a ghost field has a fact and no value. A snapshot has no bytes, so these take no
    // memory.
    first: Snapshot<Vec<Block>>,
    calls: Vec<Call>,
    ghost sized: { length blocks.items ≡ (D.state disk).past.size },
    ghost past_sized: { (mirror_past (D.state disk) first.value.items calls.items).size ≡ length blocks.items },
    ghost current: { stopped ≡ false → IsCurrent blocks.items (mirror_past (D.state disk) first.value.items calls.items) },
}

impl<D: BlockDisk + Drop> Model for Mirror<D> {
    ghost use Rattle.journal_mirror.specs.Mirrors.{MirrorState, mirror_past};

    ghost Value = { MirrorState };

    ghost view = { λ m. record {
      past = mirror_past (D.state m.disk) m.first.value.items m.calls.items;
      failures = m.failures;
      under = D.state m.disk;
    } };
}

impl<D: BlockDisk + Drop> Mirror<D> {
    /// Reads each block of the disk into memory.
    ///
    /// # Errors
    /// - J1 `NoMemory`: the memory for its blocks is refused. Nothing is written.
    /// - J6 `DeviceFailed`: the device failed to read a block. Nothing is written.
    ///
    /// A refusal hands the disk back.
    pub fn over(alloc: Global, disk: D) -> Result<Mirror<D>, Refused<D, ()>>
        requires settled { IsTrue (D.state disk).honest → IsSettled (D.state disk).past }
        ensures size { IfOk result (λ mirror. mirror.past.size ≡ (D.state disk).past.size) }
        ensures settled { IfOk result (λ mirror. IsSettled mirror.past) }
        ensures same { IfOk result (λ mirror. IsTrue (D.state disk).honest → mirror.past ≡ (D.state disk).past) }
        ensures fresh { IfOk result (λ mirror. mirror.failures ≡ 0) }
        ensures refusal { IfErr result (λ refused. IsMirrorRefusal (D.state disk) (D.state refused.disk) refused.refusal) }
    {
        let mut disk = disk;
        match read_all(alloc, &mut disk) {
            Ok((blocks, spare)) => Ok(Mirror {
                first: Snapshot::of(&blocks),
                calls: Vec::new(alloc),
                disk,
                blocks,
                spare,
                stopped: false,
                failures: 0,
            }),
            Err(refusal) => Err(Refused { refusal, disk }),
        }
    }

    /// Gives the disk up, with all that is pending on it. If it is honest, its past is that of the
    /// mirror, so what a crash leaves of it is an image of the mirror.
    pub fn into_disk(self) -> D
        ensures disk { D.state result ≡ self.under }
        ensures past { IsTrue self.under.honest → (D.state result).past ≡ self.past }
    {
        let Mirror { disk, .. } = self;
        disk
    }

    // Counts a call that failed.
    fn fail(&mut self) -> Result<(), DiskFault>
        ensures fails { IsErr result }
        ensures past { self.new.past ≡ self.old.past }
        ensures under { self.new.under ≡ self.old.under }
        ensures cause { HasFailed (mirror_state self.old) (mirror_state self.new) }
        ensures rising { self.old.failures ≤ self.new.failures }
    {
        self.failures = self.failures.saturating_add(1);
        Err(DiskFault)
    }
}

impl<D: BlockDisk + Drop> BlockDisk for Mirror<D> {
    ghost state = { mirror_state };

    fn size(&self) -> u64 {
        self.blocks.len() as u64
    }

    fn failures(&self) -> u64 {
        self.failures
    }

    fn read(&mut self, block: u64, into: &mut Block) -> Result<(), DiskFault>
        requires { block < self.old.past.size }
        ensures keeps { Keeps (mirror_state self.old) (mirror_state self.new) }
        ensures cause { OnErr result (HasFailed (mirror_state self.old) (mirror_state self.new)) }

        // It gives the last write, whatever the disk under it is.
        ensures value { OnOk result (into.new ≡ read_of self.old.past block) }
        ensures same { self.new.past ≡ self.old.past }
        ensures under { self.new.under ≡ self.old.under }
    {
        // The log above asks for no block then. So memory has the last write wherever it is asked.
        if self.stopped {
            return self.fail();
        }
        into.copy_from(&self.blocks[block as usize]);
        Ok(())
    }

    #[tactic(auto, using(crate::proofs::Calls::mirror_after, crate::proofs::Calls::mirror_may, crate::proofs::Calls::same_size, crate::proofs::Calls::current_written))]
    fn write(&mut self, block: u64, from: &Block) -> Result<(), DiskFault>
        requires { block < self.old.past.size }
        ensures keeps { Keeps (mirror_state self.old) (mirror_state self.new) }
        ensures cause { OnErr result (HasFailed (mirror_state self.old) (mirror_state self.new)) }
        ensures written { OnOk result (self.new.past ≡ past_after (write block from.now) self.old.past) }
        ensures written_or_not { MayHaveHappened (write block from.now) self.old.past self.new.past }

        // It is made of the disk under it too.
        ensures under { IsTrue self.old.under.honest →
            OnOk result (self.new.under.past ≡ past_after (write block from.now) self.old.under.past) }
    {
        if self.stopped {
            return self.fail();
        }
        if self.calls.reserve(1).is_err() {
            return self.fail();
        }
        // If the disk under the mirror is honest, the mirror's past is that disk's own, so a clause
        // refuses a write that is not made of it. Else only this line ties the two.
        let written = self.disk.write(block, from);
        // Where it failed, the device may have the write all the same.
        self.calls.push_reserved(Call::write(block, from));
        self.blocks[block as usize].copy_from(from);
        if written.is_err() {
            self.stopped = true;
            return self.fail();
        }
        Ok(())
    }

    #[tactic(auto, using(crate::proofs::Calls::mirror_after, crate::proofs::Calls::mirror_same))]
    fn barrier(&mut self) -> Result<(), DiskFault>
        ensures keeps { Keeps (mirror_state self.old) (mirror_state self.new) }
        ensures cause { OnErr result (HasFailed (mirror_state self.old) (mirror_state self.new)) }
        ensures synced { OnOk result (self.new.past ≡ past_after barrier self.old.past) }
        ensures not_synced { OnErr result (self.new.past ≡ self.old.past) }

        // It is made of the disk under it too.
        ensures under { IsTrue self.old.under.honest →
            OnOk result (self.new.under.past ≡ past_after barrier self.old.under.past) }
    {
        if self.stopped {
            return self.fail();
        }
        if self.calls.reserve(1).is_err() {
            return self.fail();
        }
        let synced = self.disk.barrier();
        if synced.is_err() {
            self.stopped = true;
            return self.fail();
        }
        self.calls.push_reserved(Call::barrier(&self.spare));
        Ok(())
    }
}

// Reads each block of a disk, and makes a spare one.
fn read_all<D: BlockDisk>(alloc: Global, disk: &mut D) -> Result<(Vec<Block>, Block), Refusal<()>>
    ensures keeps { Keeps (D.state disk.old) (D.state disk.new) }
    ensures same { IsTrue (D.state disk.old).honest → (D.state disk.new).past ≡ (D.state disk.old).past }
    ensures size { IfOk result (λ made. length made.0.items ≡ (D.state disk.old).past.size) }
    ensures read { IfOk result (λ made. IsTrue (D.state disk.old).honest → IsCurrent made.0.items (D.state disk.old).past) }
    ensures reason { IfErr result (IsReason (D.state disk.old) (D.state disk.new)) }
{
    let mut spare = Block::try_new(alloc)?;
    let mut blocks = Vec::with_capacity(alloc, disk.size() as usize)?;
    for number in 0..disk.size() {
        if disk.read(number, &mut spare).is_err() {
            return Err(Refusal::DeviceFailed(()));
        }
        blocks.push(Block::copied_from(alloc, &spare)?)?;
    }
    Ok((blocks, spare))
}
