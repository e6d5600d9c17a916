// The bits of a block that are asked for, and those that its bytes have.
ghost use Rattle.std.specs.Prelude.{◌≡◌, IfOk};
ghost use Rattle.journal_world.specs.Files.{shape};
ghost use Rattle.journal_memory.specs.Bits.{bits_in, is_scan, AreInOrder};

use journal_block::Block;
use journal_world::{BLOCK_BITS, Kind, Layout};
use std::alloc::{AllocError, Global};

/// Asks for the bits of a block that have a value: the first `most` of them, from bit `first` on.
#[derive(Clone, Copy, Drop)]
pub struct BitScan {
    /// The block. Its objects are bits.
    pub block: u64,
    /// The first bit that is looked at, below 32768.
    pub first: u32,
    /// True if set bits are asked for, else those that are clear.
    pub value: bool,
    /// The most bits that are answered.
    pub most: u32,
}

impl BitScan {
    /// True if the block's objects are bits, and the first bit is one of them.
    pub(crate) fn is_within(&self, layout: &Layout) -> bool
        ensures { result ≡ is_scan (shape layout.now) self.now }
    {
        self.first < BLOCK_BITS && matches!(layout.kind(self.block), Some(Kind::Bit))
    }

    /// The numbers of the bits that are asked for, ascending, if these are the block's bytes.
    ///
    /// # Errors
    /// - The memory for the numbers is refused. Nothing changed.
    pub fn bits_in(&self, alloc: Global, block: &Block) -> Result<Vec<u32>, AllocError>
        ensures bits { IfOk result (λ bits. bits.items ≡ bits_in block.now self.now) }
        ensures order { IfOk result (λ bits. AreInOrder self.now bits.items) }
    {
        let mut bits = Vec::new(alloc);
        for bit in self.first..BLOCK_BITS {
            if bits.len() >= self.most as usize {
                return Ok(bits);
            }
            if block.bit(bit as usize) == self.value {
                bits.push(bit)?;
            }
        }
        Ok(bits)
    }
}
