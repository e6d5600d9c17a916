// How a disk is cut once it has more blocks.
ghost use Rattle.std.specs.Prelude.{◌≡◌, IfOk, IfErr};
ghost use Rattle.journal_treestore.specs.Places.{IsCut};
ghost use Rattle.journal_treestore.specs.Growths.{fewest_size, IsGrowth, IsWidest, IsNoGrowth};

use crate::place::{BLOCK_OWNERS, Cut, MOST_DISK_BLOCKS};

/// Why a disk does not get as many blocks.
#[derive(Clone, Copy, Debug, PartialEq, Eq)]
pub enum NoGrowth {
    /// It has more blocks already.
    Fewer,
    /// The records of later blocks would lie where they lie now, or no further block has one.
    TooFew,
    /// No disk with a tree has as many.
    TooMany,
}

/// How a disk that is cut so is cut once it has this number of blocks. As many as can be are for
/// data. The last ones have the records of all blocks that came later: one for each 512 of them.
///
/// # Errors
/// The first that holds:
/// - `Fewer`: the disk has more blocks.
/// - `TooMany`: there are more than 2^32.
/// - `TooFew`: there are fewer than `fewest_size`.
pub fn grown(cut: Cut, size: u64) -> Result<Cut, NoGrowth>
    requires { IsCut cut }
    ensures growth { IfOk result (IsGrowth cut) }
    ensures size { IfOk result (λ grown. grown.size ≡ size) }
    ensures widest { IfOk result IsWidest }
    ensures refusal { IfErr result (IsNoGrowth cut size) }
{
    if size < cut.size {
        return Err(NoGrowth::Fewer);
    }
    if MOST_DISK_BLOCKS < size {
        return Err(NoGrowth::TooMany);
    }
    if size < fewest_size(cut) {
        return Err(NoGrowth::TooFew);
    }
    let later = size - cut.base;
    // Of 513 later blocks one has the records of the others.
    let owners = later.div_ceil(BLOCK_OWNERS + 1);
    Ok(Cut {
        size,
        blocks: cut.base + (later - owners),
        numbers: cut.numbers,
        base: cut.base,
    })
}

/// The fewest blocks that a disk which is cut so can grow to.
pub fn fewest_size(cut: Cut) -> u64
    requires { IsCut cut }
    ensures { result ≡ fewest_size cut }
{
    let end = cut.blocks + cut.later_owners();
    let blocks = (cut.blocks + 1).max(end);
    blocks + (blocks - cut.base).div_ceil(BLOCK_OWNERS)
}
