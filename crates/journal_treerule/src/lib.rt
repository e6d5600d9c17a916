//! The rule of a mount of a disk with a tree, and how it is decided.
//!
//! `SoundTree` is the rule: a map is a disk that is cut for a tree, with its description, and its
//! tree is sound (`IsTreeMap` of `journal_treeobjects`). `admit` decides it in parts, each of them
//! one loop. The layout says how the disk is cut. The description is compared to the last byte.
//! Each inode is looked at alone, and each of its blocks, whose record has to name it: its first
//! ones, its index blocks, which are read once each, and those whose numbers lie there. Then the
//! directories are read from the root on. Each entry has to name a node that says itself that it
//! hangs there, at its home's place, or where it may have a second entry. No two names of a
//! directory may be alike, and each node whose name would not be looked for at its home's place has
//! to have one second entry. At the end no node may be left that hangs nowhere. So each node hangs
//! at one place, and the parents of each lead to the root.
//!
//! No table of blocks is needed, since each record says who has its block. A mount takes a byte for
//! each inode, 4 bytes for each directory, and the names of one directory at a time, twice those of
//! nodes that need a second entry, and those of second entries.
#![tactic(auto)]

mod blocks;
mod children;
mod cut;
mod directory;
mod entries;
mod inodes;
mod reading;
mod rule;
mod walk;

pub use cut::cut_of_layout;
pub use rule::{SoundTree, TreeRule};
