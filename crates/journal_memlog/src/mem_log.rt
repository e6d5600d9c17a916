// The log in memory.
ghost use Rattle.std.specs.Prelude.{ℕ, ◌≡◌, ◌+◌, ◌-◌, ◌<◌, ◌≤◌, ◌^◌, ◌++◌, [], ◌∷◌, length, slice_get, is_some, Some, IfSome, IfOk, OnOk, OnErr, IsOkUnless};
ghost use Rattle.std.specs.Borrow.{sem};
ghost use Rattle.journal_block.specs.Block.{Bytes};
ghost use Rattle.journal_block.specs.Updates.{updated, updates_block};
ghost use Rattle.journal_memlog.specs.Logs.{LogState, IsMemLog, HasDistinctBlocks, bounds_of, next_position, head_of, tail_of, logged_of, empty_log, with_logged, appended, trimmed, CanTake};
ghost use Rattle.journal_memlog.specs.Buckets.{updates_from, update_at, IsLastOf};
ghost use Rattle.journal_memlog.specs.Lending.{LendsBlock};

use crate::entry::{BUCKETS, Entry, bucket_of};
use crate::{Bounds, Group};
use journal_block::{Block, Update};
use journal_world::Refusal;
use std::alloc::Global;
use std::collections::VecDeque;
use std::marker::Model;

/// The log in memory: an update at each position from `start` on.
///
/// Positions count updates, from the first log of the disk on, and stay below 2^62.
#[derive(Drop)]
pub struct MemLog {
    blocks: u64,
    start: u64,
    logged: u64,
    cut: u64,
    entries: VecDeque<Entry>,
    // Of each bucket one more than the position of its last update, or no more than `start`.
    heads: Vec<u64>,
}

impl Model for MemLog {
    ghost use Rattle.std.specs.Prelude.{◌-◌};
    ghost use Rattle.std.specs.VecDeque.{deque_len, deque_capacity};
    ghost use Rattle.journal_memlog.specs.Logs.{LogState};
    ghost use Rattle.journal_memlog.specs.Index.{IsIndexed, state_of_fields, earlier_of};

    ghost Value = { LogState };

    ghost view = { λ log. state_of_fields log.blocks log.start log.logged log.cut log.entries.items
        (deque_capacity log.entries - deque_len log.entries) };

    ghost invariant = { λ log. IsIndexed (state_of_fields log.blocks log.start log.logged log.cut log.entries.items
        (deque_capacity log.entries - deque_len log.entries)) (earlier_of log.entries.items) log.heads.items };
}

impl MemLog {
    /// An empty log of a disk of `blocks` blocks, which begins at position `start`.
    ///
    /// # Errors
    /// - `J1 NoMemory`: the memory for the index is refused. Nothing was made.
    pub fn new<C>(alloc: Global, blocks: u64, start: u64) -> Result<MemLog, Refusal<C>>
        requires { start < 2 ^ 62 }
        ensures log { IfOk result (λ log. log ≡ empty_log blocks start log.room) }
        ensures sound { IfOk result IsMemLog }
        ensures refusal { IsOkUnless result Refusal.NoMemory }
    {
        let heads = vec![in alloc; 0u64; BUCKETS as usize]?;
        Ok(MemLog {
            blocks,
            start,
            logged: start,
            cut: start,
            entries: VecDeque::new(alloc),
            heads,
        })
    }

    /// The positions that bound the parts of the log.
    pub fn bounds(&self) -> Bounds
        ensures bounds { result ≡ bounds_of self.now }
        ensures sound { IsMemLog self.now }
    {
        Bounds {
            start: self.start,
            logged: self.logged,
            cut: self.cut,
            next: self.next(),
        }
    }

    // The position that the next fresh block gets.
    fn next(&self) -> u64
        ensures next { result ≡ next_position self.now }
        ensures sound { IsMemLog self.now }
    {
        self.start + self.entries.len() as u64
    }

    /// The number of blocks in the tail.
    pub fn tail_len(&self) -> u64
        ensures { result ≡ length (tail_of self.now) }
    {
        self.next() - self.cut
    }

    /// True if the block is in the tail.
    pub fn is_in_tail(&self, block: u64) -> bool
        ensures { result ≡ updates_block (tail_of self.now) block }
    {
        self.newest(block, self.cut).is_some()
    }

    /// The update at a position.
    pub fn at(&self, position: u64) -> &Update
        requires from_start { self.now.start ≤ position }
        requires to_next { position < next_position self.now }
        ensures { slice_get self.now.updates (position - self.now.start) ≡ Some result.now }
    {
        &self.entries[(position - self.start) as usize].update
    }

    // The position of the block's last update, if one is at `floor` or after it. It looks at the
    // updates of the block's bucket, the last one first.
    fn newest(&self, block: u64, floor: u64) -> Option<u64>
        requires { self.now.start ≤ floor }
        ensures found { is_some result ≡ updates_block (updates_from self.now floor) block }
        ensures last { IfSome result (IsLastOf self.now block floor) }
    {
        let mut place = self.heads[bucket_of(block)];
        while place > floor {
            let entry = &self.entries[(place - 1 - self.start) as usize];
            if entry.update.block == block {
                return Some(place - 1);
            }
            place = entry.earlier;
        }
        None
    }

    /// The content of the block's update in the tail, or `None` if the block is not there.
    pub fn in_tail(&self, block: u64) -> Option<&Block>
        ensures found { is_some result ≡ updates_block (tail_of self.now) block }
        ensures content { IfSome result (λ found.
            (before : Bytes) → updated (tail_of self.now) block before ≡ found.now) }
    {
        match self.newest(block, self.cut) {
            Some(position) => Some(&self.at(position).bytes),
            None => None,
        }
    }

    /// The position of the block in the tail, or `None` if it is not there.
    pub fn place_in_tail(&self, block: u64) -> Option<u64>
        ensures found { is_some result ≡ updates_block (tail_of self.now) block }
        ensures place { IfSome result (IsLastOf self.now block self.now.cut) }
    {
        self.newest(block, self.cut)
    }

    // A commit stores here in place: no block is copied or freed under the memory lock. When the
    // loan ends, the log is as if that update had been appended (`LendsBlock`), so clauses still
    // speak of appended updates. A ghost list would not do: a ghost field has a fact and no data.
    /// The content of the update at a position of the tail, lent to be overwritten. The log is then
    /// as it is with that update appended.
    pub fn tail_block(&mut self, position: u64) -> &mut Block
        requires from_cut { self.old.cut ≤ position }
        requires to_next { position < next_position self.old }
        ensures* lends { sem 𝓛 (LendsBlock self.entry position result) }
        ensures content { result.now ≡ (update_at self.old.updates (position - self.old.start)).bytes }
    {
        let entry = &mut self.entries[(position - self.start) as usize];
        &mut entry.update.bytes
    }

    /// The content of the block's last update in the whole log, or `None` where it has none.
    pub fn latest(&self, block: u64) -> Option<&Block>
        ensures found { is_some result ≡ updates_block self.now.updates block }
        ensures content { IfSome result (λ found.
            (before : Bytes) → updated self.now.updates block before ≡ found.now) }
    {
        match self.newest(block, self.start) {
            Some(position) => Some(&self.at(position).bytes),
            None => None,
        }
    }

    /// The content of the block's last update that the disk's log has, or `None` where it has none.
    pub fn latest_logged(&self, block: u64) -> Option<&Block>
        ensures found { is_some result ≡ updates_block (logged_of self.now) block }
        ensures content { IfSome result (λ found.
            (before : Bytes) → updated (logged_of self.now) block before ≡ found.now) }
    {
        let mut place = self.heads[bucket_of(block)];
        while place > self.start {
            let entry = &self.entries[(place - 1 - self.start) as usize];
            if place <= self.logged && entry.update.block == block {
                return Some(&entry.update.bytes);
            }
            place = entry.earlier;
        }
        None
    }

    /// Adds a position that the disk's log has already, for a recovery: the log has neither tail
    /// nor group. A block that comes again gets a position of its own.
    ///
    /// # Errors
    /// - `J1 NoMemory`: memory for it is refused. The log is as it was, but may have more room.
    pub fn push_logged<C>(&mut self, update: Update) -> Result<(), Refusal<C>>
        requires no_group { self.old.logged ≡ self.old.cut }
        requires no_tail { self.old.cut ≡ next_position self.old }
        requires on_disk { update.block < self.old.blocks }
        requires below { next_position self.old + 1 < 2 ^ 62 }
        ensures ok { OnOk result (self.new ≡ with_logged self.old update self.new.room) }
        ensures err { OnErr result (self.new ≡ record self.old { room = self.new.room }) }
        ensures room { self.old.room ≤ self.new.room + 1 }
        ensures sound { IsMemLog self.new }
        ensures refusal { IsOkUnless result Refusal.NoMemory }
    {
        let bucket = bucket_of(update.block);
        let earlier = self.heads[bucket];
        self.entries.push_back(Entry { update, earlier })?;
        self.cut += 1;
        self.logged = self.cut;
        self.heads[bucket] = self.cut;
        Ok(())
    }

    /// Makes room for `n` fresh blocks, those that are not in the tail. The log is as it was, but
    /// may have more room.
    ///
    /// # Errors
    /// - `J1 NoMemory`: memory for them is refused. The log is as it was, but may have more room
    ///   where it had too little.
    pub fn reserve<C>(&mut self, n: usize) -> Result<(), Refusal<C>>
        ensures room { OnOk result (n ≤ self.new.room) }
        ensures same { self.new ≡ record self.old { room = self.new.room } }
        ensures enough { n ≤ self.old.room → self.new ≡ self.old }
        ensures kept { self.old.room ≤ self.new.room }
        ensures sound { IsMemLog self.new }
        ensures refusal { IsOkUnless result Refusal.NoMemory }
    {
        if n <= self.entries.capacity() - self.entries.len() {
            return Ok(());
        }
        self.entries.reserve(n)?;
        Ok(())
    }

    // The blocks are distinct, by the caller: one that groups writes by block meets that, and the
    // number of updates is then the number of blocks.
    /// Puts updates into the tail, one after the other: each in place of the update of its block,
    /// or at the end. It takes no memory and moves the blocks. Its time depends on these updates,
    /// and on the log's updates of their buckets.
    pub fn append(&mut self, updates: Vec<Update>)
        requires { CanTake self.old updates.items }
        ensures log { self.new ≡ appended self.old updates.items }

        // No update is lost, the groups are as they were, and the tail grew by no more positions
        // than there was room for.
        ensures content { (b : ℕ) (before : Bytes) →
            updated self.new.updates b before ≡ updated (self.old.updates ++ updates.items) b before }
        ensures head { head_of self.new ≡ head_of self.old }
        ensures room { next_position self.new ≤ next_position self.old + self.old.room }
        ensures sound { IsMemLog self.new }
    {
        prove!(self.cut <= self.next());
        for update in updates {
            self.absorb(update);
        }
    }

    // Puts an update into the tail.
    fn absorb(&mut self, update: Update)
        requires { CanTake self.old (update ∷ []) }
        ensures log { self.new ≡ appended self.old (update ∷ []) }
        ensures sound { IsMemLog self.new }
    {
        if let Some(position) = self.newest(update.block, self.cut) {
            self.entries[(position - self.start) as usize].update = update;
        } else {
            let bucket = bucket_of(update.block);
            let earlier = self.heads[bucket];
            self.entries.push_back_reserved(Entry { update, earlier });
            self.heads[bucket] = self.start + self.entries.len() as u64;
        }
    }

    /// Makes the whole tail a group, and answers its positions. The group has no block twice, and
    /// may be empty.
    pub fn cut(&mut self) -> Group
        ensures first { result.first ≡ self.old.cut }
        ensures end { result.end ≡ next_position self.old }
        ensures log { self.new ≡ record self.old { cut = next_position self.old } }
        ensures distinct { HasDistinctBlocks (tail_of self.old) }
        ensures sound { IsMemLog self.new }
    {
        let group = Group {
            first: self.cut,
            end: self.next(),
        };
        self.cut = group.end;
        group
    }

    /// Notes that the disk's log has the positions before `upto`.
    pub fn logged(&mut self, upto: u64)
        requires from_logged { self.old.logged ≤ upto }
        requires to_cut { upto ≤ self.old.cut }
        ensures log { self.new ≡ record self.old { logged = upto } }
        ensures sound { IsMemLog self.new }
    {
        self.logged = upto;
    }

    /// Drops the positions before `upto`. It takes time by their number.
    pub fn trim(&mut self, upto: u64)
        requires from_start { self.old.start ≤ upto }
        requires to_logged { upto ≤ self.old.logged }
        ensures log { self.new ≡ trimmed self.old upto }
        ensures sound { IsMemLog self.new }
    {
        prove!(upto <= self.next());
        while self.start < upto {
            drop(self.take_first());
        }
    }

    /// Drops the first position, and hands out its update by move.
    pub fn take_first(&mut self) -> Update
        requires { self.old.start < self.old.logged }
        ensures first { self.old.updates ≡ result ∷ self.new.updates }
        ensures log { self.new ≡ trimmed self.old (self.old.start + 1) }
        ensures sound { IsMemLog self.new }
    {
        let Entry { update, .. } = self.entries.pop_front().unwrap();
        // Chains end at `start`, so no link to the position has to be removed.
        self.start += 1;
        update
    }
}
