// The updates in memory apart from the log on the disk, and where they were cut.
ghost use Rattle.std.specs.Prelude.{ℕ, ◌≡◌, ◌≤◌, ◌<◌, ◌+◌, ◌-◌, ◌^◌, ◌∷◌, ◌++◌, List, length, false, is_some, IsTrue, IsOkUnless, OnOk, OnErr, IfOk, IfErr, IfSome};
ghost use Rattle.std.specs.Borrow.{sem};
ghost use Rattle.std.specs.List.{All};
ghost use Rattle.journal_block.specs.declared.update.Update.{Update};
ghost use Rattle.journal_block.specs.Block.{Bytes};
ghost use Rattle.journal_block.specs.Updates.{updated, updates_block};
ghost use Rattle.journal_memlog.specs.Logs.{IsMemLog, HasDistinctBlocks, bounds_of, next_position, tail_of, appended, trimmed};
ghost use Rattle.journal_memlog.specs.Buckets.{IsLastOf, update_at};
ghost use Rattle.journal_tail.specs.Lending.{LendsTailBlock};
ghost use Rattle.journal_tail.specs.Homes.{AreHomes};
ghost use Rattle.journal_tail.specs.Tails.{TailState, MakeTheSame, MakesNoOther, DropsCuts, AdmitsBlocks, IsTailRefusal, TakesUpdates, TakesFresh, known_blocks, updates_from, empty_tail, cut_after, without_first};
ghost use Rattle.journal_tail.specs.declared.limits.TheConstants.{MAX_TAIL};

use crate::block_cache::BlockCache;
use crate::limits::{MAX_POSITION, MAX_TAIL, MAX_UPDATES};
use journal_block::{Block, Update};
use journal_memlog::{Bounds, MemLog};
use journal_world::{CommitCount, Position, Refusal};
use std::alloc::Global;
use std::collections::VecDeque;
use std::marker::Model;

/// A cut: the whole tail became a group.
#[derive(Clone, Copy, Debug, PartialEq, Eq)]
pub struct CutPoint {
    /// The position after the group's last.
    pub end: Position,
    /// The number of commits up to the cut.
    pub commits: CommitCount,
}

/// The updates in memory, for a lock of their own. It knows no disk, and no call of it blocks.
///
/// It has all overwrites since a cut that is at home, and copies of blocks that are at home. A call
/// that needs another block says so. The caller fetches it, and makes the call again with that
/// block. A fetched block may be kept as a copy.
///
/// It has blocks, and knows no layout: each call that cuts them into objects is given it.
///
/// A cut hands out a copy of the tail, which the log on the disk takes as its group. The updates
/// stay here until a trim, once they are at home. So all writes of commits after the last trimmed
/// cut are found here. A trim overwrites the copies by the updates that it drops.
#[derive(Drop)]
pub struct Tail {
    alloc: Global,
    memory: MemLog,
    trimmed: CommitCount,
    cuts: VecDeque<CutPoint>,
    cache: BlockCache,
}

impl Model for Tail {
    ghost use Rattle.journal_tail.specs.Tails.{TailState, IsTail};

    ghost Value = { TailState };

    ghost view = { λ t. record { log = t.memory; trimmed = t.trimmed; cuts = t.cuts.items; cache = t.cache } };

    ghost invariant = { λ t. IsTail (record { log = t.memory; trimmed = t.trimmed; cuts = t.cuts.items; cache = t.cache }) };
}

impl Tail {
    /// The tail of a disk of `blocks` blocks whose log ends at a position. It has no updates, no
    /// commit was made, and it will keep at most `most` copies.
    ///
    /// # Errors
    /// - `J1 NoMemory`: the memory for an index is refused. Nothing was made.
    pub fn new<C>(
        alloc: Global,
        blocks: u64,
        start: Position,
        most: usize,
    ) -> Result<Tail, Refusal<C>>
        requires start { start < 2 ^ 62 }
        requires some { 0 < most }
        ensures tail { IfOk result (λ tail. tail ≡ empty_tail blocks start tail.log.room) }
        ensures refusal { IsOkUnless result Refusal.NoMemory }
    {
        let memory = MemLog::new(alloc, blocks, start.get())?;
        let cache = BlockCache::new(alloc, most)?;
        Ok(Tail {
            alloc,
            memory,
            trimmed: CommitCount::new(0),
            cuts: VecDeque::new(alloc),
            cache,
        })
    }

    // The allocator of all that a call makes.
    pub(crate) fn alloc(&self) -> Global {
        self.alloc
    }

    /// The positions that bound the parts of the log in memory.
    pub fn bounds(&self) -> Bounds
        ensures bounds { result ≡ bounds_of self.now.log }
        ensures sound { IsMemLog self.now.log }
    {
        self.memory.bounds()
    }

    /// The number of blocks in the tail, at most 255.
    pub fn tail_len(&self) -> u64
        ensures length { result ≡ length (tail_of self.now.log) }
        ensures few { result ≤ MAX_TAIL }
    {
        self.memory.tail_len()
    }

    /// The number of commits at the last cut whose updates were dropped. All writes of later
    /// commits are here.
    pub fn trimmed(&self) -> CommitCount
        ensures { result ≡ self.now.trimmed }
    {
        self.trimmed
    }

    /// The block, lent, if memory knows it: with all its updates, or if it has none as its copy has
    /// it.
    pub fn known_block(&self, block: u64) -> Option<&Block>
        ensures found { is_some result ≡ updates_block (known_blocks self.now) block }
        ensures content { IfSome result (λ found.
            (before : Bytes) → updated (known_blocks self.now) block before ≡ found.now) }
    {
        match self.memory.latest(block) {
            Some(found) => Some(found),
            None => self.cache.find(block),
        }
    }

    /// Notes a use of the copy of the block, if there is one.
    pub fn touch(&mut self, block: u64)
        ensures same { MakeTheSame self.new.cache self.old.cache }
        ensures others { self.new ≡ record self.old { cache = self.new.cache } }
    {
        self.cache.touch(block);
    }

    /// Keeps copies of these blocks, which are at home as these have them but for the updates in
    /// memory. Above the limit those are dropped that were used least recently. One for which
    /// memory is refused is not kept.
    pub fn keep(&mut self, copies: Vec<Update>)
        ensures known { MakesNoOther (self.old.cache ++ copies.items) self.new.cache }
        ensures others { self.new ≡ record self.old { cache = self.new.cache } }
    {
        self.cache.keep_all(copies);
    }

    /// True if the block is in the tail, so that an update of it takes no new position.
    pub fn is_in_tail(&self, block: u64) -> bool
        ensures { result ≡ updates_block (tail_of self.now.log) block }
    {
        self.memory.is_in_tail(block)
    }

    /// The content of the block in the tail, or `None` if it is not there.
    pub fn in_tail(&self, block: u64) -> Option<&Block>
        ensures found { is_some result ≡ updates_block (tail_of self.now.log) block }
        ensures content { IfSome result (λ found.
            (before : Bytes) → updated (tail_of self.now.log) block before ≡ found.now) }
    {
        self.memory.in_tail(block)
    }

    /// The position of the block in the tail, or `None` if it is not there.
    pub fn place_in_tail(&self, block: u64) -> Option<u64>
        ensures found { is_some result ≡ updates_block (tail_of self.now.log) block }
        ensures place { IfSome result (IsLastOf self.now.log block self.now.log.cut) }
        ensures sound { IsMemLog self.now.log }
    {
        self.memory.place_in_tail(block)
    }

    /// The content of the block at a position of the tail, lent to be overwritten. The tail is then
    /// as it is with that content appended.
    pub fn tail_block(&mut self, position: u64) -> &mut Block
        requires from_cut { self.old.log.cut ≤ position }
        requires to_next { position < next_position self.old.log }
        ensures* lends { sem 𝓛 (LendsTailBlock self.entry position result) }
        ensures content { result.now ≡ (update_at self.old.log.updates (position - self.old.log.start)).bytes }
    {
        self.memory.tail_block(position)
    }

    /// Checks an update of `blocks` blocks, `fresh` of them not in the tail. It takes no memory.
    ///
    /// # Errors
    /// The first that applies is answered. The tail is as it was.
    /// - `J4 TooLarge`: there are more than 128 blocks.
    /// - `J11 Worn`: a position would reach 2^62.
    /// - `J12 Full`: the tail and the fresh blocks are more than 255.
    pub fn check_room(&self, blocks: usize, fresh: usize) -> Result<(), Refusal<()>>
        requires { fresh ≤ blocks }
        ensures ok { OnOk result (AdmitsBlocks self.now.log blocks fresh) }
        ensures refusal { IfErr result (IsTailRefusal self.now.log blocks fresh) }
    {
        if blocks > MAX_UPDATES {
            return Err(Refusal::TooLarge);
        }
        if self.memory.bounds().next + fresh as u64 >= MAX_POSITION {
            return Err(Refusal::Worn(()));
        }
        if self.memory.tail_len() + fresh as u64 > MAX_TAIL {
            return Err(Refusal::Full(()));
        }
        Ok(())
    }

    // Apart from `append_reserved`, so that a layer above can make all growths, exchange a word
    // that others see, and then append without failing. A group is taken in two parts too.
    /// Makes room for `fresh` fresh blocks, where `check_room` admits them. `append_reserved` then
    /// takes them, if no other call comes in between.
    ///
    /// # Errors
    /// - `J1 NoMemory`: memory is refused. The tail is as it was, but may have more room where it
    ///   had too little.
    pub fn reserve(&mut self, fresh: usize) -> Result<(), Refusal<()>>
        requires small { next_position self.old.log + fresh < 2 ^ 62 }
        requires tail { length (tail_of self.old.log) + fresh ≤ MAX_TAIL }
        ensures room { OnOk result (TakesFresh self.new.log fresh) }
        ensures refusal { IsOkUnless result Refusal.NoMemory }
        ensures same { self.new ≡ record self.old { log = record self.old.log { room = self.new.log.room } } }
        ensures enough { fresh ≤ self.old.log.room → self.new ≡ self.old }
    {
        self.memory.reserve(fresh)
    }

    /// Appends updates that `reserve` made room for: each in place of the update of its block in
    /// the tail, or at the end. It takes no memory, and moves the blocks.
    pub fn append_reserved(&mut self, updates: Vec<Update>)
        requires homes { AreHomes self.old.log.blocks updates.items }
        requires room { TakesUpdates self.old.log updates.items }
        ensures log { self.new ≡ record self.old { log = appended self.old.log updates.items } }
        // The updates since any cut are those before, and then these.
        ensures since { (from : ℕ) → self.old.log.start ≤ from → from ≤ self.old.log.cut →
            MakeTheSame (updates_from self.new.log from) (updates_from self.old.log from ++ updates.items) }
    {
        self.memory.append(updates);
    }

    /// Cuts after the first `commits` commits: hands out a copy of the whole tail, which begins
    /// anew.
    ///
    /// # Errors
    /// - `J1 NoMemory`: the memory for the copy is refused. The tail is as it was.
    pub fn cut(&mut self, commits: CommitCount) -> Result<Vec<Update>, Refusal<()>>
        ensures group { IfOk result (λ group. group.items ≡ tail_of self.old.log) }
        ensures few { IfOk result (λ group. length group.items ≤ MAX_TAIL) }
        ensures homes { IfOk result (λ group. AreHomes self.old.log.blocks group.items) }
        ensures distinct { IfOk result (λ group. HasDistinctBlocks group.items) }
        ensures ok { OnOk result (self.new ≡ cut_after self.old commits) }
        ensures err { OnErr result (self.new ≡ self.old) }
        ensures refusal { IsOkUnless result Refusal.NoMemory }
    {
        let group = self.copy_tail()?;
        let end = Position::new(self.memory.bounds().next);
        self.cuts.push_back(CutPoint { end, commits })?;
        self.memory.cut();
        Ok(group)
    }

    // A copy of the tail's updates.
    fn copy_tail(&self) -> Result<Vec<Update>, Refusal<()>>
        ensures group { IfOk result (λ group. group.items ≡ tail_of self.now.log) }
        ensures refusal { IsOkUnless result Refusal.NoMemory }
    {
        let bounds = self.memory.bounds();
        let mut group = Vec::with_capacity(self.alloc, self.memory.tail_len() as usize)?;
        for position in bounds.cut..bounds.next {
            let update = self.memory.at(position);
            let bytes = Block::copied_from(self.alloc, &update.bytes)?;
            group.push(Update {
                block: update.block,
                bytes,
            })?;
        }
        Ok(group)
    }

    /// Drops the updates of each cut that ends at the position or before it: they are at home. They
    /// overwrite the copies of their blocks. It takes no memory, and moves the blocks.
    pub fn trim(&mut self, upto: Position)
        ensures drops { DropsCuts self.old upto self.new }
        ensures left { All (λ c. upto < c.end) self.new.cuts }
        // The updates since a cut that is left are as they were.
        ensures since { (from : ℕ) → self.new.log.start ≤ from → updates_from self.new.log from ≡ updates_from self.old.log from }
        // Memory knows nothing else of a block than it knew before.
        ensures known { MakesNoOther (known_blocks self.old) (known_blocks self.new) }
    {
        while self.has_cut_by(upto) {
            self.drop_first_cut();
        }
    }

    // True if the first cut ends at the position or before it.
    fn has_cut_by(&self, upto: Position) -> bool
        ensures yes { IsTrue result → (c : CutPoint) × (later : List CutPoint) × (self.now.cuts ≡ c ∷ later)
            × (self.now.log.start ≤ c.end) × (c.end ≤ upto) }
        ensures no { result ≡ false → All (λ c. upto < c.end) self.now.cuts }
    {
        match self.cuts.front() {
            Some(cut) => cut.end <= upto,
            None => false,
        }
    }

    // Drops the updates of the first cut.
    fn drop_first_cut(&mut self)
        requires { 0 < length self.old.cuts }
        ensures drops { (c : CutPoint) (later : List CutPoint) → self.old.cuts ≡ c ∷ later → self.new ≡ without_first self.old c later self.new.cache }
        ensures known { MakesNoOther (known_blocks self.old) (known_blocks self.new) }
    {
        let Tail {
            memory,
            trimmed,
            cuts,
            cache,
            ..
        } = self;
        let cut = cuts.pop_front().unwrap();
        memory.logged(cut.end.get());
        move_to_cache(memory, cache, cut.end.get());
        *trimmed = cut.commits;
    }
}

// Drops the updates before the position. They overwrite the copies of their blocks. Each dropped
// update is moved into the copy of its block, not the last alone: a later update hides the copy
// meanwhile, and overwrites it when it is dropped itself. That takes no memory, because a put of a
// key that is there succeeds.
fn move_to_cache(memory: &mut MemLog, cache: &mut BlockCache, upto: u64)
    requires from_start { memory.old.start ≤ upto }
    requires to_logged { upto ≤ memory.old.logged }
    ensures log { memory.new ≡ trimmed memory.old upto }
    ensures sound { IsMemLog memory.new }
    ensures known { MakesNoOther (cache.old ++ memory.old.updates) (cache.new ++ memory.new.updates) }
{
    // Called for its contract: the log is sound.
    let _bounds = memory.bounds();
    while memory.bounds().start < upto {
        cache.replace(memory.take_first());
    }
}
