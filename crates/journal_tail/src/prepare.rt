// Overwriting objects in memory: all that may fail comes first, and then nothing can.
ghost use Rattle.std.specs.Prelude.{ℕ, ◌≡◌, ◌≢◌, ◌≤◌, List, [], ◌∷◌, ◌++◌, false, true, IsTrue, OnOk, IfOk, IfErr};
ghost use Rattle.journal_world.specs.declared.address.Addr.{Addr};
ghost use Rattle.journal_world.specs.declared.layout.TheConstants.{MAX_LAYOUT_BLOCKS};
ghost use Rattle.journal_world.specs.Files.{shape};
ghost use Rattle.journal_world.specs.Maps.{is_object, are_objects};
ghost use Rattle.journal_block.specs.declared.update.Update.{Update};
ghost use Rattle.journal_memlog.specs.Logs.{IsMemLog, appended, tail_of};
ghost use Rattle.journal_tail.specs.Tails.{MakeTheSame, updates_from};
ghost use Rattle.journal_tail.specs.ObjectTails.{blocks_of, known_updates, known_at, known_object, tail_base, missing_blocks, with_tail_room, updates_with, OverwritesKnown, TakesPrepared, IsTailWriteRefusal, IfReady, IfMissing};
ghost use Rattle.journal_tail.specs.Applying.{stored_log};
ghost use Rattle.journal_tail.specs.Places.{places_of};
ghost use Rattle.journal_tail.specs.Writes.{written_blocks, fresh_among, AreBelow, CanPrepare, IsPrepared, IsWriteRefusal};

use crate::spares::Spares;
use crate::tail::Tail;
use crate::writes::{Places, check_writes, is_block};
use journal_block::Update;
use journal_object::store_valid;
use journal_world::{Addr, Layout, Objects, Refusal, Value};
use std::marker::Model;

// It holds the new blocks, and `apply` moves them. So nothing is copied twice, and no memory is
// asked for once the history may have the commit.
/// Overwrites that are ready to be applied, made by [`Tail::prepare`].
#[derive(Drop)]
pub struct Prepared {
    // One for each written block that is not in the tail, blocks ascending, with its objects
    // stored.
    updates: Vec<Update>,
}

impl Model for Prepared {
    ghost use Rattle.std.specs.Prelude.{List};
    ghost use Rattle.journal_block.specs.declared.update.Update.{Update};

    ghost Value = { List Update };

    ghost view = { λ prepared. prepared.updates.items };
}

/// The answer of `Tail::prepare`.
#[derive(Drop)]
pub enum Preparation {
    /// The overwrites, ready to be applied.
    Ready(Prepared),
    /// The blocks that have to be fetched first, each once, in the order of the writes.
    Missing(Vec<u64>),
}

impl Tail {
    /// Makes the overwriting of objects by these values ready for `apply`, with all the memory that
    /// it takes. It takes the spares' memory first. Blocks in the tail are not copied: `apply`
    /// overwrites them there. Another block that is written in part has to be in memory or among
    /// the fetched ones. If some are not, the answer is these. The objects are as they were,
    /// whatever it answers.
    ///
    /// # Errors
    /// The first that applies is answered.
    /// - `J2 BadAddress`: an address is not valid.
    /// - `J3 BadSize`: a value is not of its address's kind.
    /// - `J4 TooLarge`: more than 128 distinct blocks are written.
    /// - `J11 Worn`: a position of the log would reach 2^62.
    /// - `J12 Full`: the tail has no room for the blocks that are not in it.
    /// - `J1 NoMemory`: memory is refused.
    pub fn prepare(
        &mut self,
        layout: &Layout,
        writes: &Objects,
        spares: &mut Spares,
        fetched: &[Update],
    ) -> Result<Preparation, Refusal<()>>
        requires { layout.now.blocks ≡ blocks_of self.old }
        ensures ready { IfOk result (IfReady (TakesPrepared (shape layout.now) self.new writes.now)) }
        ensures prepared { IfOk result (IfReady (λ prepared.
            IsPrepared true (tail_base (shape layout.now) fetched.now self.new) (updates_with (shape layout.now) self.new writes.now prepared) writes.now)) }
        // Each written address then has its value, and each other its value before.
        ensures overwrites { IfOk result (IfReady (λ prepared.
            OverwritesKnown (shape layout.now) (known_updates fetched.now self.new) (updates_with (shape layout.now) self.new writes.now prepared) writes.now)) }
        ensures missing { IfOk result (IfMissing (λ blocks.
            blocks ≡ missing_blocks (shape layout.now) (known_updates fetched.now self.old) writes.now)) }
        ensures some { IfOk result (IfMissing (λ blocks. blocks ≢ [])) }
        ensures ok { OnOk result (CanPrepare (tail_base (shape layout.now) fetched.now self.old) writes.now) }
        ensures refusal { IfErr result (IsTailWriteRefusal (tail_base (shape layout.now) fetched.now self.old) writes.now) }
        ensures same { self.new ≡ with_tail_room self.old self.new.log.room }
    {
        if !self.are_in_tail(layout, writes) {
            return self.make_ready(layout, writes, spares, fetched);
        }
        self.reserve(0)?;
        Ok(Preparation::Ready(Prepared {
            updates: Vec::new(self.alloc()),
        }))
    }

    // Copies the blocks that are not in the tail, and stores the writes in the copies.
    fn make_ready(
        &mut self,
        layout: &Layout,
        writes: &Objects,
        spares: &mut Spares,
        fetched: &[Update],
    ) -> Result<Preparation, Refusal<()>>
        requires { layout.now.blocks ≡ blocks_of self.old }
        ensures ready { IfOk result (IfReady (TakesPrepared (shape layout.now) self.new writes.now)) }
        ensures prepared { IfOk result (IfReady (λ prepared.
            IsPrepared true (tail_base (shape layout.now) fetched.now self.new) (updates_with (shape layout.now) self.new writes.now prepared) writes.now)) }
        // Each written address then has its value, and each other its value before.
        ensures overwrites { IfOk result (IfReady (λ prepared.
            OverwritesKnown (shape layout.now) (known_updates fetched.now self.new) (updates_with (shape layout.now) self.new writes.now prepared) writes.now)) }
        ensures missing { IfOk result (IfMissing (λ blocks.
            blocks ≡ missing_blocks (shape layout.now) (known_updates fetched.now self.old) writes.now)) }
        ensures some { IfOk result (IfMissing (λ blocks. blocks ≢ [])) }
        ensures ok { OnOk result (CanPrepare (tail_base (shape layout.now) fetched.now self.old) writes.now) }
        ensures refusal { IfErr result (IsTailWriteRefusal (tail_base (shape layout.now) fetched.now self.old) writes.now) }
        ensures same { self.new ≡ with_tail_room self.old self.new.log.room }
    {
        let places = self.check(layout, writes)?;
        let missing = self.missing(layout, writes, fetched)?;
        if !missing.is_empty() {
            return Ok(Preparation::Missing(missing));
        }
        let updates = self.stage(layout, writes, spares, fetched)?;
        self.reserve(places.fresh)?;
        Ok(Preparation::Ready(Prepared { updates }))
    }

    /// Overwrites the objects by these writes, which `prepare` made ready by the same layout. No
    /// call that changes them may come in between. Objects whose blocks are in the tail are
    /// overwritten in place, and the other blocks are appended. It takes no memory, copies no
    /// block, and moves the prepared ones.
    pub fn apply(&mut self, layout: &Layout, prepared: Prepared, writes: &Objects)
        requires { TakesPrepared (shape layout.now) self.old writes.now prepared }
        ensures log { self.new ≡ record self.old { log = appended self.old.log (updates_with (shape layout.now) self.old writes.now prepared) } }
        // The updates since any cut are those before, and then these.
        ensures since { (from : ℕ) → self.old.log.start ≤ from → from ≤ self.old.log.cut →
            MakeTheSame (updates_from self.new.log from) (updates_from self.old.log from ++ updates_with (shape layout.now) self.old writes.now prepared) }
        // Memory knows of an address what it knew, with these writes after it.
        ensures known { (fetched : List Update) (a : Addr) → known_at (shape layout.now) fetched self.new a
            ≡ known_object (shape layout.now) (known_updates fetched self.old ++ updates_with (shape layout.now) self.old writes.now prepared) a }
    {
        self.store_standing(layout, writes);
        self.append_reserved(prepared.updates);
    }

    // Overwrites the objects whose blocks are in the tail. Of two values of one address the first
    // would count.
    fn store_standing(&mut self, layout: &Layout, writes: &Objects)
        requires { IsTrue (are_objects (shape layout.now) writes.now) }
        ensures stored { self.new ≡ record self.old { log = stored_log (shape layout.now) writes.now self.old.log } }
        ensures sound { IsMemLog self.old.log }
    {
        // Called for its contract: the log is sound.
        let _bounds = self.bounds();
        for (addr, value) in writes.iter().rev() {
            self.store_in_tail(layout, *addr, value);
        }
    }

    // Overwrites the object in its block, if the block is in the tail.
    fn store_in_tail(&mut self, layout: &Layout, addr: Addr, value: &Value)
        requires { IsTrue (is_object (shape layout.now) (addr, value.now)) }
        ensures { self.new ≡ record self.old { log = stored_log (shape layout.now) ((addr, value.now) ∷ []) self.old.log } }
    {
        if let Some(position) = self.place_in_tail(addr.block) {
            let block = self.tail_block(position);
            store_valid(layout, block, addr, value.bytes());
        }
    }

    // Gives the number of places that the writes take. Answers the refusals that need no memory:
    // J2, J3, J4, J11 and J12.
    fn check(&self, layout: &Layout, writes: &Objects) -> Result<Places, Refusal<()>>
        ensures ok { OnOk result ((fetched : List Update) → CanPrepare (tail_base (shape layout.now) fetched self.now) writes.now) }
        ensures places { IfOk result (λ places. (fetched : List Update) → places ≡ places_of (tail_base (shape layout.now) fetched self.now) writes.now) }
        ensures refusal { IfErr result (λ refusal. (fetched : List Update) → IsWriteRefusal false (tail_base (shape layout.now) fetched self.now) writes.now refusal) }
    {
        let (valid, objects) = check_writes(layout, writes);
        if !valid {
            return Err(Refusal::BadAddress);
        }
        if !objects {
            return Err(Refusal::BadSize);
        }
        let places = self.count_blocks(writes);
        self.check_room(places.blocks, places.fresh)?;
        Ok(places)
    }

    // The number of distinct blocks that are written, and how many of these are not in the tail.
    fn count_blocks(&self, writes: &Objects) -> Places
        requires { AreBelow MAX_LAYOUT_BLOCKS writes.now }
        ensures blocks { result.blocks ≡ written_blocks writes.now }
        ensures fresh { result.fresh ≡ fresh_among (tail_of self.now.log) writes.now }
        ensures fewer { result.fresh ≤ result.blocks }
    {
        let mut blocks = 0;
        let mut fresh = 0;
        let mut last = None;
        for (addr, _) in writes.iter().rev() {
            if is_block(last, addr.block) {
                continue;
            }
            last = Some(addr.block);
            blocks += 1;
            fresh += usize::from(!self.is_in_tail(addr.block));
        }
        Places { blocks, fresh }
    }
}
