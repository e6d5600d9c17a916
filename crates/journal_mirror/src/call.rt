// The calls of a disk, as clauses read them.
ghost use Rattle.std.specs.Prelude.{◌≡◌, Some, None};

use journal_block::Block;
use std::snapshot::Snapshot;

// A write of these bytes to this block, or a barrier, where there is no block. It takes no memory.
#[derive(Drop)]
pub struct Call {
    pub block: Snapshot<Option<u64>>,
    pub bytes: Snapshot<Block>,
}

impl Call {
    // A write.
    pub fn write(block: u64, bytes: &Block) -> Call
        ensures block { result.block.value ≡ Some block }
        ensures bytes { result.bytes.value ≡ bytes.now }
    {
        Call {
            block: Snapshot::of(&Some(block)),
            bytes: Snapshot::of(bytes),
        }
    }

    // A barrier. The bytes say nothing.
    pub fn barrier(any: &Block) -> Call
        ensures { result.block.value ≡ None }
    {
        Call {
            block: Snapshot::of(&None),
            bytes: Snapshot::of(any),
        }
    }
}
