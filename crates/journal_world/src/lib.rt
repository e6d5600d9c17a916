//! The words of every layer of the journal: addresses and the kinds of object that they name,
//! values, the layout of a disk, and the refusals. `specs/` has their meanings, and those of maps,
//! transactions and histories.
#![tactic(auto)]

mod address;
mod counts;
mod layout;
mod moment;
mod objects;
mod refusal;
mod rule;
mod step;
mod value;

pub use address::{Addr, Kind, RecordSize};
pub use counts::{CommitCount, HistoryLength, Position, SessionNumber};
pub use layout::{
    BITMAP, BLOCK_BITS, BLOCK_BYTES, FIRST_DATA, FIRST_HOME, FIRST_INODES, LOG_POSITIONS, Layout,
    MAX_BLOCKS, MAX_LAYOUT_BLOCKS, MAX_SLOTS, MIN_BLOCKS, REGIONS, Region, SLOTS, SUPERBLOCK,
    UNUSED,
};
pub use moment::{MAX_NANOS, Moment};
pub use objects::Objects;
pub use refusal::{Refusal, Refused};
pub use rule::{AnyMap, MapRule, ObjectReader};
pub use step::Step;
pub use value::Value;
