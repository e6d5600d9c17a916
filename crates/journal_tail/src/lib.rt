//! The blocks that a mounted journal has in memory: the updates that commits made and that are not
//! yet home, and copies of blocks that are. No function here calls a device.
//!
//!   Tail         updates of blocks, absorbed. A cut hands out a copy of them as a group. They stay
//!                until a trim, once they are home. Its calls read and overwrite objects: bits,
//!                records and blocks, of which many share a block
//!   BlockCache   copies of blocks that are home, so that blocks that are read often are in memory
//!
//! To overwrite objects, `prepare` copies those of their blocks that are not in the tail, each
//! once, and stores the objects there. `apply` stores the others in the tail's blocks in place, and
//! hands the copies to the tail, all or none. In between nothing has changed, and `apply` cannot
//! fail.
//!
//! The log on the disk takes whole groups, as a cut hands them out (`journal_wal`,
//! `journal_objlog`). Neither calls the other: their caller has a lock for each.
#![tactic(auto)]

mod block_cache;
mod limits;
mod prepare;
mod read;
mod spares;
mod stage;
mod staged_updates;
mod tail;
mod writes;

pub use limits::{MAX_POSITION, MAX_TAIL, MAX_UPDATES};
pub use prepare::{Preparation, Prepared};
pub use spares::Spares;
pub use tail::{CutPoint, Tail};
