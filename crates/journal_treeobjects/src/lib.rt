//! The calls on a disk with a tree, through a transaction on the objects of a map.
//!
//! A map of objects is a disk with a tree (`specs/Maps.antt`): `view_of` is that disk, and
//! `HasSoundTree` the rule of a mount. `TreeTransaction` is the `TreeDisk` of `journal_treecalls`
//! over a transaction that reads and overwrites objects by their addresses. It keeps what it reads,
//! so that it reads each object once, and gives its writes to the transaction at the end. A call
//! that was done on it was then done on each map with a sound tree that agrees with the
//! transaction's reads (`DoesOnMaps`).
//!
//! `TreeOperation` is a call as one transaction does it. Each call of `journal_treecalls` is one.
//!
//! Nothing here needs the journal: an `ObjectTransaction` is all that is asked of it.
#![tactic(auto)]

mod fault;
mod law;
mod object_transaction;
mod operation;
mod requests;
mod tree_disk;
mod tree_transaction;

pub use fault::TreeFault;
pub use law::{
    grown_maps_keep_the_tree, one_layout_is_cut_in_one_way, the_rule_is_of_values,
    writes_show_the_disk_after_them,
};
pub use object_transaction::ObjectTransaction;
pub use operation::{Asking, TreeOperation};
pub use requests::{
    Access, Commit, CreateExclusive, CreateGuarded, CreateUnchecked, FsInfo, FsStat, GetAttr, Link,
    Lookup, MkDir, MkNod, PathConf, Read, ReadDir, ReadDirPlus, ReadLink, Remove, Rename, RmDir,
    SetAttr, SymLink, Write,
};
pub use tree_transaction::{Finished, GivenUp, TreeTransaction};
