// The cache of home blocks.
ghost use Rattle.std.specs.Prelude.{ℕ, ◌≡◌, ◌<◌, ◌++◌, ◌∷◌, [], true, false, is_some, IsOkUnless, IfOk, IfSome};
ghost use Rattle.journal_block.specs.Block.{Bytes};
ghost use Rattle.journal_block.specs.Updates.{updated, updates_block};
ghost use Rattle.journal_tail.specs.Tails.{MakeTheSame, MakesNoOther};

use journal_block::{Block, Update};
use journal_world::Refusal;
use lru::LruCache;
use std::alloc::{AllocFailed, Global};
use std::marker::Model;
use std::num::NonZeroUsize;

// Of the limit, one part in so many is for copies that were not used again since they were kept.
const UNUSED_PART: usize = 4;

/// Copies of blocks, with a limit to their number. Above it the one that was used least recently is
/// dropped, of the uses since there was no room for more. But where more than a quarter were not
/// used again since they were kept, the oldest of these goes: so blocks that are read once, as
/// those of a large file, leave the others in memory.
///
/// Contracts see them as updates, the least recently used first.
#[derive(Drop)]
pub(crate) struct BlockCache {
    blocks: LruCache<u64, Block>,
    // The blocks of the copies that were not used again since they were kept, the last kept first.
    unused: LruCache<u64, ()>,
}

impl Model for BlockCache {
    ghost use Rattle.std.specs.Prelude.{List};
    ghost use Rattle.journal_block.specs.declared.update.Update.{Update};
    ghost use Rattle.journal_tail.specs.CachedUpdates.{cached_updates};

    ghost Value = { List Update };

    ghost view = { λ h. cached_updates h.blocks.entries };
}

impl BlockCache {
    /// No copies yet, and never more than `most`.
    ///
    /// # Errors
    /// - `J1 NoMemory`: the memory for the index is refused. Nothing was made.
    pub(crate) fn new<C>(alloc: Global, most: usize) -> Result<BlockCache, Refusal<C>>
        requires { 0 < most }
        ensures none { IfOk result (λ home. home ≡ []) }
        ensures refusal { IsOkUnless result Refusal.NoMemory }
    {
        let most = NonZeroUsize::new(most).unwrap();
        let blocks = LruCache::new(alloc, most)?;
        let unused = LruCache::new(alloc, most)?;
        Ok(BlockCache { blocks, unused })
    }

    /// The copy of the block, lent, if there is one.
    pub(crate) fn find(&self, block: u64) -> Option<&Block>
        ensures found { is_some result ≡ updates_block self.now block }
        ensures content { IfSome result (λ found. (before : Bytes) → updated self.now block before ≡ found.now) }
    {
        self.blocks.peek(&block)
    }

    // A read makes its block the one that was used last. A commit does so at the trim that brings
    // its block home. While there is room for more copies none is dropped, and a read leaves their
    // order as it is: else it writes links that all threads read.
    /// Notes a use of the copy of the block, if there is one. Where there is no room for more
    /// copies it becomes the most recently used.
    pub(crate) fn touch(&mut self, block: u64)
        ensures { MakeTheSame self.new self.old }
    {
        self.unused.pop(&block);
        if self.blocks.len() < self.blocks.cap().get() {
            return;
        }
        let _kept = self.blocks.promote(&block);
    }

    /// Keeps the block as the update has it. Above the limit another copy is dropped. If memory is
    /// refused all copies stay, and the block is not kept.
    pub(crate) fn keep(&mut self, update: Update)
        ensures { MakesNoOther (self.old ++ update ∷ []) self.new }
    {
        self.choose_next();
        self.put(update);
    }

    // The same, where the copy that is dropped for it is the least recently used one.
    fn put(&mut self, update: Update)
        ensures { MakesNoOther (self.old ++ update ∷ []) self.new }
    {
        let Update { block, bytes } = update;
        let kept = self.blocks.push(block, bytes);
        note_kept(&mut self.unused, block, kept);
    }

    // If the cache is full, and more than a quarter of the copies were not used again since they
    // were kept, the oldest of these becomes the least recently used one, which is dropped next.
    fn choose_next(&mut self)
        ensures { MakeTheSame self.new self.old }
    {
        let most = self.blocks.cap().get();
        if self.blocks.len() < most || self.unused.len() <= most / UNUSED_PART {
            return;
        }
        if let Some((oldest, ())) = self.unused.peek_lru() {
            self.blocks.demote(oldest);
        }
    }

    /// Keeps these blocks, one after the other.
    pub(crate) fn keep_all(&mut self, updates: Vec<Update>)
        ensures { MakesNoOther (self.old ++ updates.items) self.new }
    {
        for update in updates {
            self.keep(update);
        }
    }

    /// If there is a copy of the block, the update replaces it. It takes no memory, and moves the
    /// block.
    pub(crate) fn replace(&mut self, update: Update)
        ensures replaces { updates_block self.old update.block ≡ true → MakeTheSame self.new (self.old ++ update ∷ []) }
        ensures leaves { updates_block self.old update.block ≡ false → self.new ≡ self.old }
        ensures known { MakesNoOther (self.old ++ update ∷ []) self.new }
    {
        let Update { block, bytes } = update;
        if self.blocks.contains(&block) {
            let before = self.blocks.put(block, bytes);
            drop(before);
        }
    }
}

// What keeping a copy of a block returns: the copy that was dropped for it, or it itself, if memory
// is refused.
type Keeping = Result<Option<(u64, Block)>, AllocFailed<(u64, Block)>>;

// Notes that a copy of the block was kept, and which one was dropped for it. Where memory is
// refused for the note, it counts as one that was used again.
fn note_kept(unused: &mut LruCache<u64, ()>, block: u64, kept: Keeping) {
    let Ok(dropped) = kept else {
        return;
    };
    if let Some((other, _)) = dropped {
        unused.pop(&other);
    }
    let _ = unused.put(block, ());
}
