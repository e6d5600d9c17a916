// The blocks that are written in memory: those that have to be fetched first, and their content
// with the writes stored.
ghost use Rattle.std.specs.Prelude.{◌≡◌, true, length, ◌⊎◌, ◌≤◌, false, IsTrue, OnOk, IfOk, IsOkUnless, List, [], Some};
ghost use Rattle.journal_world.specs.Files.{shape};
ghost use Rattle.journal_world.specs.Addresses.{kind_of, is_valid, is_value_of};
ghost use Rattle.journal_world.specs.Maps.{Pair, is_object, are_objects};
ghost use Rattle.journal_world.specs.Orders.{HasAscendingBlocks};
ghost use Rattle.journal_block.specs.Updates.{updated, updates_block};
ghost use Rattle.journal_memlog.specs.Logs.{IsMemLog, tail_of};
ghost use Rattle.journal_tail.specs.declared.limits.TheConstants.{MAX_TAIL};
ghost use Rattle.journal_tail.specs.ObjectTails.{known_updates, tail_base, is_missing, missing_blocks, HasBlocks};
ghost use Rattle.journal_tail.specs.Staging.{IsAboveNone, IsStaged, IsOpen, StandsWhole, AreInTail};
ghost use Rattle.journal_tail.specs.Applying.{fresh_writes};

use crate::limits::MAX_UPDATES;
use crate::spares::Spares;
use crate::staged_updates::StagedUpdates;
use crate::tail::Tail;
use crate::writes::{is_admitted, is_block};
use journal_block::{Block, Update};
use journal_world::{Addr, Kind, Layout, Objects, Refusal, Value};

impl Tail {
    /// The blocks that have to be fetched before the writes can be prepared, each once, in the
    /// writes' order.
    pub(crate) fn missing(
        &self,
        layout: &Layout,
        writes: &Objects,
        fetched: &[Update],
    ) -> Result<Vec<u64>, Refusal<()>>
        ensures blocks { IfOk result (λ blocks.
            blocks.items ≡ missing_blocks (shape layout.now) (known_updates fetched.now self.now) writes.now) }
        ensures refusal { IsOkUnless result Refusal.NoMemory }
    {
        let mut blocks = Vec::new(self.alloc());
        let mut last = None;
        for (addr, _) in writes.iter().rev() {
            if is_block(last, addr.block) {
                continue;
            }
            last = Some(addr.block);
            if self.is_missing(layout, fetched, addr.block) {
                blocks.push(addr.block)?;
            }
        }
        blocks.reverse();
        Ok(blocks)
    }

    // True if a write of the block needs its content, and memory does not know it.
    fn is_missing(&self, layout: &Layout, fetched: &[Update], block: u64) -> bool
        ensures { result ≡ is_missing (shape layout.now) (known_updates fetched.now self.now) block }
    {
        if layout.kind(block) == Some(Kind::Block) {
            return false;
        }
        self.get(fetched, block).is_none()
    }

    // One pass, so for most commits of a busy journal no list is made and no memory is taken.
    /// True if these are objects whose blocks are all in the tail, so that nothing has to be made
    /// ready for them. False for more than 128: they may be in more blocks than may be written.
    pub(crate) fn are_in_tail(&self, layout: &Layout, writes: &Objects) -> bool
        ensures sure { IsTrue result → AreInTail (shape layout.now) (tail_of self.now.log) writes.now }
        ensures few { length (tail_of self.now.log) ≤ MAX_TAIL }
        ensures sound { IsMemLog self.now.log }
    {
        // Called for their contracts: the log is sound, and the tail short.
        let _bounds = self.bounds();
        let _len = self.tail_len();
        let mut passed = 0;
        for (addr, value) in writes.iter() {
            if passed == MAX_UPDATES || !self.is_object_in_tail(layout, *addr, value) {
                return false;
            }
            passed += 1;
        }
        true
    }

    // True if it is an object of a block in the tail.
    fn is_object_in_tail(&self, layout: &Layout, addr: Addr, value: &Value) -> bool
        ensures object { IsTrue result → IsTrue (is_object (shape layout.now) (addr, value.now)) }
        ensures stands { IsTrue result → updates_block (tail_of self.now.log) addr.block ≡ true }
        ensures value { IsTrue result → IsTrue (is_value_of Kind.Block (updated (tail_of self.now.log) addr.block [])) }
    {
        self.has_tail_block(addr.block) && is_admitted(layout, addr, value)
    }

    /// One update for each written block that is not in the tail, blocks ascending, with its
    /// objects stored.
    pub(crate) fn stage(
        &self,
        layout: &Layout,
        writes: &Objects,
        spares: &mut Spares,
        fetched: &[Update],
    ) -> Result<Vec<Update>, Refusal<()>>
        requires objects { IsTrue (are_objects (shape layout.now) writes.now) }
        requires present { HasBlocks (shape layout.now) (known_updates fetched.now self.now) writes.now }
        ensures staged { IfOk result (λ updates.
            IsStaged (tail_base (shape layout.now) fetched.now self.now) (fresh_writes (tail_of self.now.log) writes.now) updates.items) }
        // The others are 4096 bytes.
        ensures standing { OnOk result (StandsWhole (tail_of self.now.log) writes.now) }
        ensures refusal { IsOkUnless result Refusal.NoMemory }
    {
        let mut updates = StagedUpdates::new(self.alloc(), spares);
        // From the last on, because of two values of one address the first would count.
        for (addr, value) in writes.iter().rev() {
            if self.has_tail_block(addr.block) {
                continue;
            }
            self.open_block(layout, &mut updates, spares, fetched, *addr)?;
            updates.store_first(layout, *addr, value);
        }
        Ok(updates.into_updates())
    }

    // Makes the first of the updates that of the address's block.
    fn open_block(
        &self,
        layout: &Layout,
        updates: &mut StagedUpdates,
        spares: &mut Spares,
        fetched: &[Update],
        addr: Addr,
    ) -> Result<(), Refusal<()>>
        requires valid { IsTrue (is_valid (shape layout.now) addr) }
        requires present { is_missing (shape layout.now) (known_updates fetched.now self.now) addr.block ≡ false }
        ensures opened { OnOk result ((writes : List Pair) → IsStaged (tail_base (shape layout.now) fetched.now self.now) writes updates.old
            → HasAscendingBlocks writes → IsAboveNone addr.block writes → IsOpen (tail_base (shape layout.now) fetched.now self.now) writes addr updates.new) }
        ensures refusal { IsOkUnless result Refusal.NoMemory }
    {
        if updates.has_first(addr.block) {
            return Ok(());
        }
        let bytes = self.block_before(layout, spares, fetched, addr.block)?;
        let update = Update {
            block: addr.block,
            bytes,
        };
        updates.put_first(update)?;
        Ok(())
    }

    // The content of the block before the write, unless all of it is overwritten.
    fn block_before(
        &self,
        layout: &Layout,
        spares: &mut Spares,
        fetched: &[Update],
        block: u64,
    ) -> Result<Block, Refusal<()>>
        requires { is_missing (shape layout.now) (known_updates fetched.now self.now) block ≡ false }
        ensures block { IfOk result (λ bytes.
            (kind_of (shape layout.now) block ≡ Some Kind.Block) ⊎ (bytes ≡ (tail_base (shape layout.now) fetched.now self.now).content block)) }
        ensures refusal { IsOkUnless result Refusal.NoMemory }
    {
        if layout.kind(block) == Some(Kind::Block) {
            return spares.take(self.alloc());
        }
        Block::copied_from(self.alloc(), self.get(fetched, block).unwrap())
    }

    // True if the block is in the tail, where `apply` then overwrites it.
    fn has_tail_block(&self, block: u64) -> bool
        ensures stands { result ≡ updates_block (tail_of self.now.log) block }
        ensures value { IsTrue result → IsTrue (is_value_of Kind.Block (updated (tail_of self.now.log) block [])) }
    {
        let Some(found) = self.in_tail(block) else {
            return false;
        };
        // Called for its contract: the block has 4096 bytes.
        let _bytes = found.as_bytes();
        true
    }
}
