//! The making of a disk with a tree whose only node is the root directory.
//!
//! `new_cut` decides how a disk is cut, by its numbers of blocks and inodes, and a `NewTree` says
//! what its description and its root are to have. `NewTree::block` is the content of each block:
//! all but two are zeros. `format` writes those two over a disk of zeros. The map that the blocks
//! are is a disk with a sound tree, the one that was asked for (`specs/NewDisks.antt`).
//!
//! A disk that is to have more blocks is made longer first. `move_records` then copies the records
//! of who has the blocks that came later to the new end. Nothing before them changes, so the disk
//! is the old one until its layout is the new one: that is one write, of its label.
//! `specs/GrownDisks.antt` says which map the blocks are then.
#![tactic(auto)]

mod cutting;
mod formatting;
mod growing;
mod law;
mod new_tree;

pub use cutting::{FEWEST_INODES, MOST_DEFAULT_INODES, NoCut, default_inodes, new_cut};
pub use formatting::format;
pub use growing::move_records;
pub use law::{grown_disks_keep_the_tree, new_disks_are_sound};
pub use new_tree::NewTree;
