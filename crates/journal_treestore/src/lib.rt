//! How a tree of files lies on a disk: the bytes of its inodes, of the entries of its directories,
//! of the records of who has a block, and of the description of the disk; where each of them lies;
//! and the tree that they show.
//!
//! The name of a node lies in its inode of 512 bytes, so that a tree is a function of inodes and of
//! files' blocks alone. An inode has the numbers of its first 48 blocks. Those of further blocks
//! lie in index blocks, 1024 in each, and the inode names one more block, in which lie the numbers
//! of up to 1024 index blocks. A directory's block has 512 entries of 8 bytes, each a number and a
//! tag of the name of the number's inode: they are an index, by which a name is found without a
//! reading of every inode. After its first 48 blocks a directory has levels (`specs/Levels.antt`),
//! of which each has one block for a tag, so that few blocks are read for a name. And each block of
//! the disk has an owner's record of 8 bytes in place of a bit. A block is taken where the inode
//! that its record names has it at the place of the record, and else free, so that freeing writes
//! nothing.
//!
//! Contracts see bytes as lists, and a value is read back as it was written. A `View` is all the
//! objects of a disk (`specs/Views.antt`), `tree_of` their tree, and `IsSoundView` the rule
//! (`specs/Sound.antt`). `specs/Steps.antt` has the tree that a view shows once some of its objects
//! are overwritten, and `specs/Moves.antt` has it for the writes of RENAME. `specs/Growths.antt`
//! says how a disk gets more blocks. The functions of `law` do nothing: their contracts hold for
//! all disks.
#![tactic(auto)]

mod bytes;
mod description;
mod entry;
mod growth;
mod inode;
mod law;
mod level;
mod number;
mod owner;
mod place;

pub use description::{DESCRIPTION_BYTES, Description};
pub use entry::{ENTRY_BYTES, Entry, PLACES, find_tag, tag_of};
pub use growth::{NoGrowth, fewest_size, grown};
pub use inode::{
    DIRECT_BLOCKS, FIRST_INDEX_PLACE, Head, INDEX_NUMBERS, INDEX_PLACE, INODE_BYTES, Inode, name_in,
};
pub use law::{
    blocks_are_had_once, calls_leave_a_sound_disk, growth_keeps_the_tree,
    lookups_answer_by_what_they_read, places_never_overlap, renames_show_the_tree_after_them,
    writes_show_the_tree_after_them,
};
pub use level::{LEVELS, is_block_for, level_block};
pub use number::number_at;
pub use owner::{OWNER_BYTES, Owner};
pub use place::{
    BLOCK_INODES, BLOCK_OWNERS, Cut, FEWEST_BLOCKS, FIRST_OWNERS, MOST_DISK_BLOCKS, MOST_NUMBERS,
    TREE_SLOTS,
};
