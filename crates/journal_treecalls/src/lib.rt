//! The calls of a file system on a disk with a tree, as code over what one transaction reads and
//! writes.
//!
//! A call is a function over a `TreeDisk`: it reads objects of the disk, and then writes some. Its
//! knowledge is the set of the disks that have the objects as read (`may_be`), and its effect the
//! list of its writes. `Does` is the contract of each call: on each of these disks, the call leads
//! from the tree before to the tree of the disk after the writes, with the reply, by the definition
//! of `journal_tree`; and the disk is sound again. So nothing here needs the journal.
#![tactic(auto)]

mod ancestry;
mod attributes;
mod blocks;
mod bytes;
mod changes;
mod contents;
mod creation;
mod directories;
mod disk;
mod entries;
mod exclusive;
mod facts;
mod fetch;
mod growth;
mod image;
mod index;
mod lines;
mod listing;
mod lookups;
mod moving;
mod name;
mod named;
mod node;
mod overlay;
mod portion;
mod reach;
mod refusals;
mod removal;
mod renaming;
mod room;
mod search;
mod seats;
mod setting;
mod symlinks;
mod unchecked;
mod walk;

pub use attributes::{AccessReply, access, getattr};
pub use contents::commit;
pub use creation::{create_guarded, mkdir};
pub use directories::rmdir;
pub use disk::TreeDisk;
pub use exclusive::create_exclusive;
pub use facts::{FactsReply, NameFactsReply, fsinfo, fsstat, pathconf};
pub use lines::Line;
pub use listing::{ListReply, readdir, readdirplus};
pub use lookups::lookup;
pub use overlay::{WriteData, write};
pub use portion::{ReadReply, read};
pub use refusals::{link, mknod};
pub use removal::remove;
pub use renaming::{NameIn, rename};
pub use room::Spare;
pub use setting::setattr;
pub use symlinks::{LinkReply, NewLink, readlink, symlink};
pub use unchecked::create_unchecked;
