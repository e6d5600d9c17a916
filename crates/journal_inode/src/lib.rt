//! Files on a disk: inodes and their bytes, the place of each object of a file, the rule of sound
//! files, and a disk without files.
//!
//! The superblock says how many blocks the disk has, and which version of the format it is of. Of
//! the inodes 0 to 511 the first is never used, the second is the root directory's, and each other
//! is free or a file's. A file's inode names the blocks that hold its bytes. There is one in
//! version 1, and there are up to twelve in version 2. The bitmap says which data blocks are taken.
//!
//! Contracts see the bytes of an inode as a `Node`, and the bytes that are written of a `Node` are
//! read as it again. `specs/Sound.antt` has the rule of sound files. `SoundFiles` decides it in one
//! pass: over the inodes, which fills a table of the blocks that files have, and then over the
//! bitmap, which has to agree with that table. `format` makes a disk without files, whose map meets
//! the rule. A map that is sound in version 1 is sound in version 2 too, once the superblock says
//! so (`upgraded_files_are_sound`).
#![tactic(auto)]

mod law;
mod making;
mod node;
mod place;
mod rule;
mod superblock;
mod version;

pub use law::{blocks_hold_the_bytes_in_order, upgraded_files_are_sound};
pub use making::format;
pub use node::{FILE_BYTES, FileNode, MORE_BLOCKS, NODE_BYTES, Node, Time};
pub use place::{INODES, bit_addr, block_addr, inode_addr};
pub use rule::SoundFiles;
pub use version::{FormatVersion, Version, VersionOne, VersionTwo};
