// The blocks of the log, in memory while a disk is opened.
ghost use Rattle.std.specs.Prelude.{◌≡◌, ◌⊎◌, ◌≤◌, [], length, set, true, false, Some, None};
ghost use Rattle.std.specs.Option.{option_copied};
ghost use Rattle.journal_world.specs.declared.layout.TheConstants.{FIRST_HOME};
ghost use Rattle.journal_program.specs.Held.{held_at, HoldsNothing};

use journal_block::Block;
use journal_world::FIRST_HOME;
use std::alloc::Global;

/// Blocks 0 to 512 of a disk, each as it was read or written last, or not held.
///
/// A disk is opened by several readers of its log: it is looked at, mended, and read into the
/// journal's memory. With these blocks the file is read once for all of them.
#[derive(Drop)]
pub(crate) struct HeldBlocks {
    alloc: Global,
    // An entry for each block, or none where nothing is to be held.
    blocks: Vec<Option<Block>>,
    // True if the next call that reaches the file ends the holding.
    is_last: bool,
    ghost most: { length blocks.items ≤ FIRST_HOME },
}

impl HeldBlocks {
    /// Holds nothing, whatever is read.
    pub fn none(alloc: Global) -> HeldBlocks
        ensures { HoldsNothing result.blocks.items }
    {
        HeldBlocks {
            alloc,
            blocks: Vec::new(alloc),
            is_last: false,
        }
    }

    /// Holds what is read and written from now on, or nothing, where memory is refused.
    pub fn begin(alloc: Global) -> HeldBlocks
        ensures { HoldsNothing result.blocks.items }
    {
        HeldBlocks {
            alloc,
            blocks: empty_entries(alloc),
            is_last: false,
        }
    }

    /// The same, until the next call that reaches the file.
    pub fn until_next_call(self) -> HeldBlocks
        ensures blocks { result.blocks.items ≡ self.blocks.items }
        ensures last { result.is_last ≡ true }
    {
        HeldBlocks {
            alloc: self.alloc,
            blocks: self.blocks,
            is_last: true,
        }
    }

    /// The bytes that are held of a block.
    pub fn get(&self, block: u64) -> Option<&Block>
        ensures { option_copied result ≡ held_at self.now.blocks.items block }
    {
        self.blocks.get(block as usize)?.as_ref()
    }

    /// Holds these bytes of a block, if it is one of those that are to be held. Where memory is
    /// refused, nothing changes.
    pub fn hold(&mut self, block: u64, bytes: &Block)
        ensures { (self.new.blocks.items ≡ self.old.blocks.items)
            ⊎ (self.new.blocks.items ≡ set self.old.blocks.items block (Some bytes.now)) }
    {
        if block >= self.blocks.len() as u64 {
            return;
        }
        if let Ok(copy) = Block::copied_from::<()>(self.alloc, bytes) {
            self.blocks[block as usize] = Some(copy);
        }
    }

    /// Holds nothing of a block any more.
    pub fn forget(&mut self, block: u64)
        ensures { self.new.blocks.items ≡ set self.old.blocks.items block None }
    {
        if block < self.blocks.len() as u64 {
            self.blocks[block as usize] = None;
        }
    }

    /// Notes a call that reaches the file. If it ends the holding, all is freed.
    pub fn note_call(&mut self)
        ensures ends { self.old.is_last ≡ true → self.new.blocks.items ≡ [] }
        ensures goes_on { self.old.is_last ≡ false → self.new.blocks.items ≡ self.old.blocks.items }
        ensures last { self.new.is_last ≡ self.old.is_last }
    {
        if self.is_last {
            self.blocks = Vec::new(self.alloc);
        }
    }
}

// An entry for each block of the log, with nothing held, or no entry, where memory is refused.
fn empty_entries(alloc: Global) -> Vec<Option<Block>>
    ensures nothing { HoldsNothing result.items }
    ensures most { length result.items ≤ FIRST_HOME }
{
    let mut entries = Vec::new(alloc);
    if entries.reserve(FIRST_HOME as usize).is_err() {
        return entries;
    }
    for _ in 0..FIRST_HOME as usize {
        entries.push_reserved(None);
    }
    entries
}
