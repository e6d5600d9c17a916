// The logged content of a block.
ghost use Rattle.std.specs.Prelude.{◌≡◌, ◌<◌, IsTrue, IsErr, OnOk, OnErr, IfErr, false, true};
ghost use Rattle.journal_circ.specs.Ring.{IsFault};
ghost use Rattle.journal_wal.specs.Wal.{OnlyReads, Crashes, size_of, blocks_logged};

use crate::wal::Wal;
use journal_block::Block;
use journal_disk::BlockDisk;
use journal_world::Refusal;

impl<D: BlockDisk> Wal<D> {
    /// Copies the block with the logged updates alone. It is read from the device only if no update
    /// of it is logged. The log and the disk's content are as they were, whatever it answers.
    ///
    /// # Errors
    /// - `J6 DeviceFailed`: the device failed, now or before. The content of `into` is not
    ///   specified.
    pub fn read_logged(&mut self, block: u64, into: &mut Block) -> Result<(), Refusal<()>>
        requires { block < size_of self.old }
        ensures refusal { IfErr result (IsFault self.old.ring.faulted self.old.ring.disk self.new.ring.disk) }
        ensures faulted { IsTrue self.old.ring.faulted → IsErr result × (self.new ≡ self.old) }
        ensures reads { OnlyReads self.old self.new }
        ensures ok { OnOk result ((self.old.ring.faulted ≡ false) × (self.new.ring.faulted ≡ false)) }
        ensures err { OnErr result (self.new.ring.faulted ≡ true) }
        ensures value { IsTrue self.old.ring.disk.honest → OnOk result (into.new ≡ blocks_logged self.old block) }
        ensures crash { Crashes self.old self.new }
    {
        if self.on_disk.circ.is_faulted() {
            return Err(Refusal::DeviceFailed(()));
        }
        if let Some(found) = self.memory.latest_logged(block) {
            into.copy_from(found);
            return Ok(());
        }
        self.on_disk.circ.read(block, into)
    }
}
