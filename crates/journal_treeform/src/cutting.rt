// How a new disk with a tree may be cut.
ghost use Rattle.std.specs.Prelude.{◌≡◌, IfOk, IfErr};
ghost use Rattle.journal_treestore.specs.Places.{made_cut};
ghost use Rattle.journal_treeform.specs.NewCuts.{default_inodes, IsNewCut, IsNoCut};

use journal_treestore::{BLOCK_INODES, Cut, FEWEST_BLOCKS, MOST_DISK_BLOCKS, MOST_NUMBERS};

/// The fewest inodes of a new disk.
pub const FEWEST_INODES: u64 = 1024;

/// The most inodes that a new disk has by default.
pub const MOST_DEFAULT_INODES: u64 = 1 << 20;

/// Why no new disk is cut so.
#[derive(Clone, Copy, Debug, PartialEq, Eq)]
pub enum NoCut {
    /// It has fewer than 600 blocks, or more than 2^32.
    Blocks,
    /// It has fewer than 1024 inodes, or more than 2^27, or their number is no multiple of 8.
    Inodes,
    /// No block is left for data.
    NoData,
}

/// The number of inodes of a new disk with this number of blocks, unless another is asked for: one
/// for each 8 blocks, but at least 1024 and at most 2^20. It is a multiple of 8.
pub fn default_inodes(blocks: u64) -> u64
    ensures { result ≡ default_inodes blocks }
{
    let eighth = blocks / 64 * BLOCK_INODES;
    eighth.min(MOST_DEFAULT_INODES).max(FEWEST_INODES)
}

/// How a new disk with these numbers of blocks and inodes is cut.
///
/// # Errors
/// The first that holds:
/// - `Blocks`, `Inodes`: the number is out of its bounds.
/// - `NoData`: no block is left for data. This is so of fewer than 645 blocks.
pub fn new_cut(blocks: u64, inodes: u64) -> Result<Cut, NoCut>
    ensures cut { IfOk result (λ cut. cut ≡ made_cut blocks inodes) }
    ensures new { IfOk result IsNewCut }
    ensures refusal { IfErr result (IsNoCut blocks inodes) }
{
    if blocks < FEWEST_BLOCKS || MOST_DISK_BLOCKS < blocks {
        return Err(NoCut::Blocks);
    }
    if inodes < FEWEST_INODES || MOST_NUMBERS < inodes || inodes % BLOCK_INODES != 0 {
        return Err(NoCut::Inodes);
    }
    let cut = Cut::new(blocks, inodes);
    if cut.is_possible() {
        Ok(cut)
    } else {
        Err(NoCut::NoData)
    }
}
