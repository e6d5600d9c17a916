//! The service of a tree of files: a disk with a tree in a file is made, checked, and served over
//! TCP by NFS and MOUNT in their versions 3.
//!
//! `cut_of` says how the disk in a file is cut, by its label. `make` makes a disk in a new file,
//! whose tree has the root directory alone. `check_disk` mounts a disk, and prints how many nodes
//! its tree has. `export` mounts it, runs the logger and the installer beside the workers, and
//! answers the connections that come to a port. It ends where a client asks for it by its
//! `Control`, and where its device fails: by a flush, a stop, a close and a barrier, so that all
//! commits are stable in the file then. `export_to_read` is the same of a disk that is only read.
//! `fill` writes files into the root directory of a tree, and `has_files` reads whether a tree has
//! these and nothing else. A disk whose tree is not sound is refused by J8 `BadSuper`, and nothing
//! on it is changed.
//!
//! A call that needs numbers or blocks is given some that may be free (`StoreHints`). No contract
//! says that they are: the call looks at each before it takes it. Of what a file holds no contract
//! says anything either, since no proof can say that a file keeps what was written to it.
#![tactic(auto)]

mod checking;
mod clients;
mod comparing;
mod counting;
mod cutting;
mod filling;
mod growing;
mod hints;
mod looking;
mod making;
mod mounting;
mod pool;
mod root;
mod search;
mod serving;

pub use checking::check_disk;
pub use comparing::has_files;
pub use cutting::{TreeCut, cut_of};
pub use filling::{Answer, NewFile, fill};
pub use growing::{label_of_cut, move_records};
pub use making::make;
pub use serving::{Asked, export, export_to_read};
