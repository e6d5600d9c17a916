// An update of a block.
use crate::Block;

/// A block's new content.
#[derive(Debug, Drop)]
pub struct Update {
    /// The number of the block on the disk.
    pub block: u64,
    /// All of its new bytes.
    pub bytes: Block,
}
