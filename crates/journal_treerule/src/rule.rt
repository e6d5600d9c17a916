// The rule of a mount of a disk with a tree.
ghost use Rattle.std.specs.Prelude.{◌≡◌, ◌↔◌, IsTrue, IfOk, IfErr};
ghost use Rattle.journal_world.specs.Refusals.{IsReadingRefusal};
ghost use Rattle.journal_treestore.specs.Places.{shape_of, IsCut};
ghost use Rattle.journal_treeobjects.specs.Maps.{IsWhole, HasSoundTree};

use crate::cut::cut_of_layout;
use crate::inodes::nodes_in_use;
use crate::reading::is_described;
use crate::walk::are_all_reached;
use journal_treestore::Cut;
use journal_world::{MapRule, ObjectReader, Refusal};
use std::alloc::Global;

/// A rule of a mount that admits a map exactly where it is a disk with a sound tree.
pub trait TreeRule: MapRule {
    ghost use Rattle.journal_world.specs.Maps.{Map};
    ghost use Rattle.journal_treeobjects.specs.Maps.{IsTreeMap};

    ghost has_tree: { (m : Map) → Self.statement m → IsTreeMap m };

    ghost admits_tree: { (m : Map) → IsTreeMap m → Self.statement m };
}

/// The rule of a sound tree. The disk is cut for a tree and has its description, each inode is
/// sound, and each block that an inode has is its own. Each node but the root is named by the entry
/// at its home's place, in a directory that is reached from the root, and by a second one where its
/// name would not be looked for there.
///
/// It keeps an allocator, for the tables of `admit`.
#[derive(Drop)]
pub struct SoundTree {
    alloc: Global,
}

impl SoundTree {
    /// The rule, with the allocator that `admit` takes memory from.
    pub fn new(alloc: Global) -> SoundTree {
        SoundTree { alloc }
    }
}

impl MapRule for SoundTree {
    ghost use Rattle.journal_treeobjects.specs.Maps.{IsTreeMap};
    ghost use Rattle.journal_treeobjects.proofs.Ruling.{rule-of-values};

    ghost statement = { IsTreeMap };

    ghost respects = { rule-of-values };

    fn admit<O: ObjectReader>(&self, reader: &mut O) -> Result<bool, Refusal<O::Cause>> {
        match cut_of_layout(&reader.layout()) {
            None => Ok(false),
            Some(cut) => has_sound_tree(reader, cut, self.alloc),
        }
    }
}

impl TreeRule for SoundTree {
    ghost has_tree = { λ m holds. holds };

    ghost admits_tree = { λ m holds. holds };
}

// True if the map is a disk with a sound tree that is cut so. The map stays.
fn has_sound_tree<O: ObjectReader>(
    reader: &mut O,
    cut: Cut,
    alloc: Global,
) -> Result<bool, Refusal<O::Cause>>
    requires cut { IsCut cut }
    requires whole { IsWhole cut }
    requires layout { (O.map reader.old).layout ≡ shape_of cut }
    ensures sound { IsTrue (O.trusted reader.old) → IfOk result (λ sound. IsTrue sound ↔ HasSoundTree cut (O.map reader.old)) }
    ensures refusal { IfErr result (IsReadingRefusal (O.failed reader.new)) }
    ensures stays_failed { IsTrue (O.failed reader.old) → IsTrue (O.failed reader.new) }
    ensures same_map { O.map reader.new ≡ O.map reader.old }
    ensures same_trust { O.trusted reader.new ≡ O.trusted reader.old }
{
    let described = is_described(reader, cut)?;
    if !described {
        return Ok(false);
    }
    let Some(waiting) = nodes_in_use(reader, cut, alloc)? else {
        return Ok(false);
    };
    are_all_reached(reader, cut, alloc, waiting)
}
