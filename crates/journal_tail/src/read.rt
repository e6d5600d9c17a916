// Objects and blocks as memory has them, or as they were fetched.
ghost use Rattle.std.specs.Prelude.{◌≡◌, [], Some, None, false, is_some, length, IsTrue, OnOk, IfOk, IfErr, IfSome};
ghost use Rattle.journal_world.specs.Addresses.{is_valid};
ghost use Rattle.journal_world.specs.Files.{shape};
ghost use Rattle.journal_world.specs.Maps.{is_object};
ghost use Rattle.journal_block.specs.Updates.{updated, updates_block};
ghost use Rattle.journal_object.specs.Objects.{size_at};
ghost use Rattle.journal_tail.specs.ObjectTails.{known_updates, known_at};

use crate::tail::Tail;
use journal_block::{Block, Update};
use journal_object::load_valid;
use journal_world::{Addr, Layout, Refusal};

impl Tail {
    /// Reads the object of the address into bytes that are as many as it has: as memory has it, or
    /// if memory does not know its block, as the fetched blocks have it. Answers false if the block
    /// has to be fetched. The bytes are then as they were. The call takes no memory.
    ///
    /// # Errors
    /// - `J2 BadAddress`: the address is not valid. The bytes are as they were.
    pub fn read(
        &self,
        layout: &Layout,
        addr: Addr,
        fetched: &[Update],
        into: &mut [u8],
    ) -> Result<bool, Refusal<()>>
        requires size { IsTrue (is_valid (shape layout.now) addr) → length into.old ≡ size_at (shape layout.now) addr }
        ensures found { IfOk result (λ found. IsTrue found → known_at (shape layout.now) fetched.now self.now addr ≡ Some into.new) }
        ensures missing { IfOk result (λ found. found ≡ false → known_at (shape layout.now) fetched.now self.now addr ≡ None) }
        ensures stays { IfOk result (λ found. found ≡ false → into.new ≡ into.old) }
        ensures object { IfOk result (λ found. IsTrue found → IsTrue (is_object (shape layout.now) (addr, into.new))) }
        ensures valid { OnOk result (IsTrue (is_valid (shape layout.now) addr)) }
        ensures refusal { IfErr result (λ refusal. (refusal ≡ Refusal.BadAddress) × (is_valid (shape layout.now) addr ≡ false)) }
    {
        if !layout.is_valid(addr) {
            return Err(Refusal::BadAddress);
        }
        let Some(block) = self.get(fetched, addr.block) else {
            return Ok(false);
        };
        load_valid(layout, block, addr, into);
        Ok(true)
    }

    /// The block as memory has it, or if memory does not know it, as the fetched blocks have it.
    /// `None` if it has to be fetched.
    pub fn get<'a>(&'a self, fetched: &'a [Update], block: u64) -> Option<&'a Block>
        ensures found { is_some result ≡ updates_block (known_updates fetched.now self.now) block }
        ensures content { IfSome result (λ found. updated (known_updates fetched.now self.now) block [] ≡ found.now) }
    {
        match self.known_block(block) {
            Some(found) => Some(found),
            None => newest(fetched, block),
        }
    }
}

// The content of the last of the updates that is of this block.
fn newest(updates: &[Update], block: u64) -> Option<&Block>
    ensures found { is_some result ≡ updates_block updates.now block }
    ensures content { IfSome result (λ found. updated updates.now block [] ≡ found.now) }
{
    for update in updates.iter().rev() {
        if update.block == block {
            return Some(&update.bytes);
        }
    }
    None
}
