// The reads and writes of a call on a disk with a tree.
ghost use Rattle.std.specs.Prelude.{ℕ, ◌≡◌, ◌<◌, ◌≤◌, List, [], ◌∷◌, ◌++◌, IfOk, length, replicate};
ghost use Rattle.journal_treestore.specs.declared.place.TheConstants.{MOST_DISK_BLOCKS};
ghost use Rattle.journal_treestore.specs.Owners.{owner_from};
ghost use Rattle.journal_treestore.specs.Views.{View, zero_block};
ghost use Rattle.journal_treestore.specs.Sound.{IsSoundView};
ghost use Rattle.journal_treecalls.specs.Disks.{Write, inode_seen, Learns};
ghost use Rattle.journal_treecalls.specs.Disks.Write.{inode_write, owner_write, block_write};

use crate::lines::Line;
use journal_treestore::{INODE_BYTES, OWNER_BYTES};
use journal_world::Value;

/// A disk with a tree, as one transaction sees it: what is read is of one disk, and what is written
/// is there, all of it, if the transaction is committed. A call first reads, and then writes.
///
/// A call is given up at the first `Err`, and nothing of it counts.
pub trait TreeDisk {
    /// Why a call is given up.
    type Fault;

    /// The disks that have what was read.
    ghost may_be: { Self → View → Type 0 };

    /// The writes, the last first.
    ghost writes: { Self → List Write };

    /// They are sound.
    ghost are_sound: { (disk : Self) (V : View) → may_be disk V → IsSoundView V };

    /// How many inodes there are.
    fn numbers(&self) -> u64
        ensures { (V : View) → may_be self.now V → V.numbers ≡ result };

    /// The first block of data.
    fn first_data(&self) -> u64
        ensures { (V : View) → may_be self.now V → V.first_data ≡ result };

    /// How many blocks of data there are.
    fn data_blocks(&self) -> u64
        ensures is { (V : View) → may_be self.now V → V.data_blocks ≡ result }
        ensures few { result ≤ MOST_DISK_BLOCKS };

    /// A block of zeros, in memory that is taken for it.
    ///
    /// # Errors
    /// - The memory is refused.
    fn zero_block(&self) -> Result<Value, Self::Fault>
        ensures zeros { IfOk result (λ value. value ≡ zero_block) }
        ensures whole { IfOk result (λ value. length value ≡ 4096) };

    /// So many zeros, in memory that is taken for them.
    ///
    /// # Errors
    /// - The memory is refused.
    fn zeros(&self, count: usize) -> Result<Vec<u8>, Self::Fault>
        ensures { IfOk result (λ bytes. bytes.items ≡ replicate count 0) };

    /// A list without lines.
    fn lines(&self) -> Vec<Line>
        ensures { result.items ≡ [] };

    /// Adds a line, in memory that is taken for it.
    ///
    /// # Errors
    /// - The memory is refused.
    fn add_line(&self, lines: &mut Vec<Line>, line: Line) -> Result<(), Self::Fault>
        ensures { IfOk result (λ _. lines.new.items ≡ lines.old.items ++ line ∷ []) };

    /// The bytes of an inode.
    ///
    /// # Errors
    /// - The transaction is given up, or the disk has no inode of the number.
    fn inode(&mut self, number: u32) -> Result<[u8; INODE_BYTES], Self::Fault>
        requires first { writes self.old ≡ [] }
        ensures learns { IfOk result (λ bytes. Learns (may_be self.old) (may_be self.new) (λ V. V.inode number ≡ inode_seen bytes)) }
        ensures whole { IfOk result (λ bytes. length bytes ≡ INODE_BYTES) }
        ensures first { writes self.new ≡ [] };

    /// Reads inodes ahead: of these numbers, in their order, as many as it can without a wait for a
    /// device. A number that the disk has not is passed over. The call refuses nothing: why it read
    /// fewer, the next call of `inode` says.
    fn prefetch_inodes(&mut self, numbers: &[u32])
        requires first { writes self.old ≡ [] }
        ensures same { (V : View) → may_be self.new V → may_be self.old V }
        ensures first { writes self.new ≡ [] };

    /// The bytes of the record of who has a block.
    ///
    /// # Errors
    /// - The transaction is given up, or the disk has no such block.
    fn owner(&mut self, block: u32) -> Result<[u8; OWNER_BYTES], Self::Fault>
        requires first { writes self.old ≡ [] }
        ensures learns { IfOk result (λ bytes. Learns (may_be self.old) (may_be self.new) (λ V. V.owner block ≡ owner_from bytes)) }
        ensures whole { IfOk result (λ bytes. length bytes ≡ OWNER_BYTES) }
        ensures first { writes self.new ≡ [] };

    /// A block of data.
    ///
    /// # Errors
    /// - The transaction is given up, or the disk has no such block of data.
    fn block(&mut self, block: u32) -> Result<Value, Self::Fault>
        requires first { writes self.old ≡ [] }
        ensures learns { IfOk result (λ value. Learns (may_be self.old) (may_be self.new) (λ V. V.block block ≡ value)) }
        ensures whole { IfOk result (λ value. length value ≡ 4096) }
        ensures first { writes self.new ≡ [] };

    /// Writes an inode.
    ///
    /// # Errors
    /// - The transaction is given up, or the disk has no inode of the number.
    fn put_inode(&mut self, number: u32, bytes: [u8; INODE_BYTES]) -> Result<(), Self::Fault>
        ensures same { (V : View) → may_be self.new V → may_be self.old V }
        ensures written { IfOk result (λ _. writes self.new ≡ inode_write number bytes ∷ writes self.old) };

    /// Writes the record of who has a block.
    ///
    /// # Errors
    /// - The transaction is given up, or the disk has no such block.
    fn put_owner(&mut self, block: u32, bytes: [u8; OWNER_BYTES]) -> Result<(), Self::Fault>
        ensures same { (V : View) → may_be self.new V → may_be self.old V }
        ensures written { IfOk result (λ _. writes self.new ≡ owner_write block bytes ∷ writes self.old) };

    /// Writes a block of data.
    ///
    /// # Errors
    /// - The transaction is given up, or the disk has no such block of data.
    fn put_block(&mut self, block: u32, value: Value) -> Result<(), Self::Fault>
        requires whole { length value ≡ 4096 }
        ensures same { (V : View) → may_be self.new V → may_be self.old V }
        ensures written { IfOk result (λ _. writes self.new ≡ block_write block value ∷ writes self.old) };
}
