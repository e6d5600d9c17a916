// An update of the log in memory, in the chain of its bucket.
ghost use Rattle.std.specs.Prelude.{◌≡◌};
ghost use Rattle.journal_memlog.specs.Buckets.{bucket_of};

use journal_block::Update;

// An update has the position of the one before it in its bucket: `append` takes no memory for an
// index, a trim has nothing to remove, and memory does not grow with the disk. 1021 is a prime
// above the 766 updates that a log may have, so blocks at a distance of a power of two have
// different buckets.
/// The number of buckets that the blocks of a disk are divided into.
///
/// A log of a journal has at most 511 updates in the disk's log and 255 in its tail, so there are
/// more buckets than updates. The number is a prime, so blocks at a distance of a power of two do
/// not meet in a bucket early.
pub const BUCKETS: u64 = 1021;

/// An update, and the link to the one before it in its bucket.
#[derive(Drop)]
pub struct Entry {
    /// The update.
    pub update: Update,
    /// One more than the position of the bucket's update before it, or no more than the log's
    /// `start`.
    pub earlier: u64,
}

/// The bucket of a block.
pub fn bucket_of(block: u64) -> usize
    ensures { result ≡ bucket_of block }
{
    (block % BUCKETS) as usize
}
