// Laws of the rule's definitions.
ghost use Rattle.std.specs.Prelude.{ℕ, ◌≡◌, ◌<◌, ◌+◌, ◌*◌, length, slice_index, slice_range};
ghost use Rattle.journal_world.specs.Maps.{Map};
ghost use Rattle.journal_inode.specs.Places.{object};
ghost use Rattle.journal_inode.specs.Places.Object.{block};
ghost use Rattle.journal_inode.specs.Sound.{file_blocks, stored, IsSoundFile, HasSoundFiles};
ghost use Rattle.journal_inode.specs.Upgrades.{IsUpgraded};

use crate::{FileNode, FormatVersion};

/// Block `j` of a sound file holds its bytes from `4096 * j` on.
pub fn blocks_hold_the_bytes_in_order()
    ensures { (version : FormatVersion) (m : Map) (f : FileNode) → IsSoundFile version m f → (j : ℕ) → j < length (file_blocks version f)
        → slice_range (stored version m f) (4096 * j) (4096 * j + 4096) ≡ object m (block (slice_index (file_blocks version f) j)) }
{}

/// A map of sound files of version 1 becomes one of version 2, once the superblock is replaced by
/// that of version 2.
pub fn upgraded_files_are_sound()
    ensures { (m n : Map) → HasSoundFiles FormatVersion.One m → IsUpgraded m n → HasSoundFiles FormatVersion.Two n }
{}
