// A group that was cut elsewhere is taken whole.
ghost use Rattle.std.specs.Prelude.{ℕ, ◌≡◌, ◌≤◌, ◌<◌, ◌↔◌, false, IsTrue, length, IfOk, IfErr};
ghost use Rattle.journal_memlog.specs.Logs.{HasDistinctBlocks};
ghost use Rattle.journal_tail.specs.Homes.{AreHomes};
ghost use Rattle.journal_wal.specs.Wal.{Crashes, size_of, with_room};
ghost use Rattle.journal_wal.specs.Groups.{FitsGroup, HasGroupRoom, TakesGroup, IsGroupRefusal};
ghost use Rattle.journal_tail.specs.declared.limits.TheConstants.{MAX_TAIL};

use crate::wal::Wal;
use journal_block::Update;
use journal_disk::BlockDisk;
use journal_tail::MAX_POSITION;
use journal_world::{LOG_POSITIONS, Refusal};

impl<D: BlockDisk> Wal<D> {
    /// Makes room for a group of `blocks` blocks, so that `take_reserved` takes it, if no other
    /// call comes in between. False if a group is in flight, if there are no blocks, and if the log
    /// lacks a position for one of them. The log is as it was, but may have more room in memory.
    ///
    /// # Errors
    /// The first that applies is answered. The log is as it was, but may have more room in memory
    /// where it had too little.
    /// - `J6 DeviceFailed`: the device failed before.
    /// - `J11 Worn`: a position would reach 2^62.
    /// - `J1 NoMemory`: memory is refused.
    pub fn reserve_group(&mut self, blocks: usize) -> Result<bool, Refusal<()>>
        requires few { blocks ≤ MAX_TAIL }
        ensures fits { IfOk result (λ fits. IsTrue fits ↔ FitsGroup self.old blocks) }
        ensures room { IfOk result (λ fits. IsTrue fits → HasGroupRoom self.new blocks) }
        ensures idle { IfOk result (λ fits. fits ≡ false → self.new ≡ self.old) }
        ensures refusal { IfErr result (IsGroupRefusal self.old blocks) }
        ensures same { self.new ≡ with_room self.old self.new.log.room }
        ensures crash { Crashes self.old self.new }
    {
        if self.on_disk.circ.is_faulted() {
            return Err(Refusal::DeviceFailed(()));
        }
        if !self.fits_group(blocks) {
            return Ok(false);
        }
        if self.memory.bounds().next + blocks as u64 >= MAX_POSITION {
            return Err(Refusal::Worn(()));
        }
        self.memory.reserve(blocks)?;
        Ok(true)
    }

    // True if there is a place for a group of `blocks` blocks.
    fn fits_group(&self, blocks: usize) -> bool
        requires { self.now.ring.faulted ≡ false }
        ensures { IsTrue result ↔ FitsGroup self.now blocks }
    {
        let bounds = self.memory.bounds();
        let free = LOG_POSITIONS - (bounds.logged - bounds.start);
        !self.is_logging() && 0 < blocks && blocks as u64 <= free
    }

    /// Takes updates that were cut elsewhere, which `reserve_group` made room for, as the group in
    /// flight. No two of them are of one block. It takes no memory, and moves the blocks.
    pub fn take_reserved(&mut self, updates: Vec<Update>)
        requires homes { AreHomes (size_of self.old) updates.items }
        requires distinct { HasDistinctBlocks updates.items }
        requires room { HasGroupRoom self.old (length updates.items) }
        ensures takes { TakesGroup self.old updates.items self.new }
        ensures crash { Crashes self.old self.new }
    {
        self.memory.append(updates);
        self.memory.cut();
    }
}
