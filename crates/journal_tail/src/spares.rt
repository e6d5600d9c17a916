// Memory for a commit, made before any lock is taken.
ghost use Rattle.std.specs.Prelude.{◌≡◌, [], IsOkUnless};

use crate::limits::MAX_UPDATES;
use journal_block::{Block, Update};
use journal_world::{BLOCK_BYTES, Objects, Refusal};
use std::alloc::Global;
use std::marker::Model;

// Blocks of zeros, though all of one is overwritten, so that any spare serves any block. A missing
// one is made under the lock, so that no refusal comes before its order. None is made for a block
// that is written in part: it is mostly in the tail, and overwritten there.
/// Memory in which writes are made ready. Their writer makes it before it takes a lock. Memory that
/// is missing is made later.
#[derive(Drop)]
pub struct Spares {
    blocks: Vec<Block>,
    // Room alone, without updates.
    pub(crate) updates: Vec<Update>,
}

impl Model for Spares {
    ghost use Rattle.std.specs.Prelude.{◌≡◌, []};

    ghost Value = { Unit {0} };

    ghost view = { λ _. tt };

    ghost invariant = { λ s. s.updates.items ≡ [] };
}

impl Spares {
    /// A block for each whole block that is written, as far as there is memory. A block that is
    /// written in part is mostly in the tail, where it is overwritten.
    pub fn for_writes(alloc: Global, writes: &Objects) -> Spares {
        let mut blocks = Vec::new(alloc);
        for (_, value) in writes.iter() {
            if value.bytes().len() < BLOCK_BYTES {
                continue;
            }
            if blocks.len() == MAX_UPDATES || !add_block(alloc, &mut blocks) {
                break;
            }
        }
        Spares {
            updates: room_for(alloc, blocks.len()),
            blocks,
        }
    }

    // A block: a spare one, or a new one where there is none.
    pub(crate) fn take<C>(&mut self, alloc: Global) -> Result<Block, Refusal<C>>
        ensures refusal { IsOkUnless result Refusal.NoMemory }
    {
        match self.blocks.pop() {
            Some(block) => Ok(block),
            None => Block::try_new(alloc),
        }
    }
}

// Adds a block, if there is memory for it.
fn add_block(alloc: Global, blocks: &mut Vec<Block>) -> bool {
    match Block::try_new::<()>(alloc) {
        Ok(block) => blocks.push(block).is_ok(),
        Err(_) => false,
    }
}

// Room for this many updates, or for none.
fn room_for(alloc: Global, updates: usize) -> Vec<Update>
    ensures { result.items ≡ [] }
{
    let mut room = Vec::new(alloc);
    let _ = room.reserve(updates);
    room
}
