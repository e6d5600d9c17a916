//! The write-ahead log in memory: the blocks that are still to be written to the disk, in their
//! order.
//!
//! Positions from `start` to `next` each hold an update, that is a block's number and its new
//! content:
//!
//! ```text
//!   start         logged          cut            next
//!     | on the disk | in flight     | the tail     |
//! ```
//!
//! The tail takes the updates of committed transactions. A block is in it once: where a block is
//! written again, its update there is replaced, so a block that is written often is logged once.
//! `cut` makes the whole tail a group, which is then written to the disk's log while the next tail
//! fills. A group is never changed. `logged` is called once the disk has a group, and `trim` drops
//! its positions once its blocks are in their homes.
//!
//! The blocks of the disk are divided into a fixed number of buckets. Each bucket has the position
//! of its last update, and each update the position of the one before it in its bucket. So a look
//! at the few updates of a block's bucket finds its newest content, and whether it is in the tail.
//! The log takes memory for its updates alone, whatever the number of blocks of the disk. A
//! position never comes again, so a link to one that was dropped is known by its number, and no
//! call has to remove it.
//!
//! Contracts see a log as a `LogState`. `specs/Logs.antt` says what absorbing makes of a tail, and
//! `specs/Laws.antt` what follows from it for every tail.
#![tactic(auto)]

mod bounds;
mod entry;
mod mem_log;

pub use bounds::{Bounds, Group};
pub use mem_log::MemLog;
