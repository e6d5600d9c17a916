// The map that a disk's blocks make.
ghost use Rattle.std.specs.Prelude.{ℕ, ◌<◌, IsTrue, []};
ghost use Rattle.journal_world.specs.Addresses.{Shape, is_value_of, zeros_of};
ghost use Rattle.journal_world.specs.Maps.{are_objects};
ghost use Rattle.journal_block.specs.Block.{Bytes};
ghost use Rattle.journal_object.specs.Objects.{IsMapOf, map_of_blocks};

use journal_world::Kind;

// The map leaves out a value that is not of its kind, because a disk does not promise that a block
// has 4096 bytes. So the opened map's pairs are objects on every disk.
/// Does nothing. Its contract is the law of the map that a disk's blocks make.
pub fn prove_objects_law()
    ensures map { (layout : Shape) (content : ℕ → Bytes)
        → IsMapOf content (map_of_blocks layout content) }

    // If each block of the disk has 4096 bytes, the map's pairs are objects.
    ensures objects { (layout : Shape) (content : ℕ → Bytes)
        → ((b : ℕ) → b < layout.blocks → IsTrue (is_value_of Kind.Block (content b)))
        → IsTrue (are_objects layout (map_of_blocks layout content).pairs) }

    // Blocks of zeros make the map of zeros.
    ensures zeros { (layout : Shape)
        → IsMapOf (λ _. zeros_of Kind.Block) (record { layout = layout; pairs = [] }) }
{}
