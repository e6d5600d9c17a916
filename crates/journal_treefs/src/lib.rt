//! The calls on a tree of files, each one transaction of a journal.
//!
//! A `TreeStore` is a journal over a disk that is cut for a tree, under a rule that admits a map
//! only where it has a sound tree. A `TreeOperation` is a call over a `TreeDisk`: it reads what it
//! needs, writes what changes, and is committed with its answer. So the history has each call, and
//! at its commit's place the call is the definition's, from the tree of the map before to the tree
//! of the map after, whatever other threads commit meanwhile (`specs/Calls.antt`).
#![tactic(auto)]

mod fault;
mod law;
mod store;
mod transaction;

pub use journal_attempts::AttemptFault;
pub use journal_treerule::TreeRule;
pub use law::a_transfer_fits_a_transaction;
pub use store::{Committed, TreeStore};
pub use transaction::JournalTransaction;
