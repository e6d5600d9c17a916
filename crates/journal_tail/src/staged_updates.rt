// Updates of the blocks that are written, made from the last on.
ghost use Rattle.std.specs.Prelude.{ℕ, ◌≡◌, ◌<◌, ◌↔◌, [], ◌∷◌, IsTrue, OnOk, Some, length};
ghost use Rattle.journal_world.specs.Files.{shape};
ghost use Rattle.journal_world.specs.Maps.{is_object};
ghost use Rattle.journal_object.specs.Objects.{ChangesOnly};
ghost use Rattle.journal_tail.specs.Staging.{first_update, first_bytes, with_first};

use crate::spares::Spares;
use journal_block::Update;
use journal_object::store_valid;
use journal_world::{Addr, Layout, Value};
use std::alloc::{AllocError, Global};
use std::marker::Model;
use std::mem;

/// Updates that are made from the last on. Contracts see them in order.
#[derive(Drop)]
pub(crate) struct StagedUpdates {
    // The last first, so that one more goes to the end.
    updates: Vec<Update>,
}

impl Model for StagedUpdates {
    ghost use Rattle.std.specs.Prelude.{List, reverse};
    ghost use Rattle.journal_block.specs.declared.update.Update.{Update};

    ghost Value = { List Update };

    ghost view = { λ b. reverse b.updates.items };
}

impl StagedUpdates {
    // None yet, in the spares' room for them.
    pub(crate) fn new(alloc: Global, spares: &mut Spares) -> StagedUpdates
        ensures { result ≡ [] }
    {
        StagedUpdates {
            updates: mem::replace(&mut spares.updates, Vec::new(alloc)),
        }
    }

    /// Puts an update before the others.
    pub(crate) fn put_first(&mut self, update: Update) -> Result<(), AllocError>
        ensures ok { OnOk result (self.new ≡ update ∷ self.old) }
    {
        self.updates.push(update)?;
        Ok(())
    }

    /// True if the first of the updates is of the block.
    pub(crate) fn has_first(&self, block: u64) -> bool
        ensures { IsTrue result ↔ (first_update self.now ≡ Some block) }
    {
        match self.updates.last() {
            Some(first) => first.block == block,
            None => false,
        }
    }

    /// Overwrites an object of the first update's block.
    pub(crate) fn store_first(&mut self, layout: &Layout, addr: Addr, value: &Value)
        requires some { 0 < length self.old }
        requires object { IsTrue (is_object (shape layout.now) (addr, value.now)) }
        ensures stored { self.new ≡ with_first self.old (first_bytes self.new) }
        ensures only { ChangesOnly (shape layout.now) (first_bytes self.old) (first_bytes self.new) addr value.now }
    {
        let last = self.updates.len() - 1;
        let first = &mut self.updates[last];
        store_valid(layout, &mut first.bytes, addr, value.bytes());
    }

    /// The updates, in order.
    pub(crate) fn into_updates(self) -> Vec<Update>
        ensures { result.items ≡ self }
    {
        let StagedUpdates { mut updates } = self;
        updates.reverse();
        updates
    }
}
